//! What is written of a call, and what is fixed when a board is made. Of both, contracts alone speak.

use image_depot::Depot;
use machine_names::Name;
use std::snapshot::Snapshot;
use vm_cell::Vm;
use world_core::Reason;

/// What is fixed when a board is made: the machine of which its world was made, and the depot of its images. It has no
/// bytes.
#[derive(Drop)]
pub struct Opening {
    pub first: Snapshot<Vm>,
    pub depot: Snapshot<Depot>,
}

/// What is written of a call. Machines are told by their names, and with them the steps that they had made.
#[derive(Drop)]
pub enum Note {
    /// The root had ended.
    Over,
    /// The world was stopped for this reason.
    Stopped(Reason),
    /// No machine was ready, and none was on lease.
    Stuck,
    /// No machine was ready, and one was on lease.
    Idle,
    Took(Snapshot<Name>),
    /// Want of memory to wake a machine.
    WakeFailed,
    Gave(Snapshot<Name>, u64),
    Ended(Snapshot<Name>, u64),
    Forked(Snapshot<Name>, u64),
    Joined(Snapshot<Name>, u64),
    Killed(Snapshot<Name>, u64),
    Sent(Snapshot<Name>, u64),
    Received(Snapshot<Name>, u64),
    /// Its join or its talk waits.
    Parked(Snapshot<Name>, u64),
    /// The name was gone.
    Dropped(Snapshot<Name>),
    /// Want of memory: the lease stays with the seat.
    Kept(Snapshot<Name>, u64),
    Halted(Reason),
    /// A reply was told: the number of its image, and its page.
    Told(u32, u32),
    /// The reply at a place was heard, or that none is there.
    Heard(usize),
    /// Want of memory to tell a reply.
    TellFailed,
    /// Want of memory to hear the reply at a place.
    HearFailed(usize),
}

/// What is written of a turn of the lock, in which a machine may be handed back and then one be taken.
#[derive(Drop)]
pub enum TurnNote {
    One(Note),
    /// Of two calls, the first first.
    Two(Note, Note),
}
