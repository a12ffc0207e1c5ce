//! What a world does with a lease that is handed back.

ghost use Rattle.std.specs.Prelude.{◌≡◌};
ghost use Rattle.image_depot.specs.Key.{Shelves};
ghost use Rattle.talking_history.specs.Histories.{row};
ghost use Rattle.talking_history.specs.Rows.{spent};
ghost use Rattle.world_core.specs.Answers.{Answers, HandedOutIn, IsHandedOut, IsLentOf, TalksOn};
ghost use Rattle.world_core.specs.Told.{told_of};
ghost use Rattle.world_core.specs.World.{Forest, StandsFor};
ghost use Rattle.fork_board.specs.Deeds.{MayDo, how_of};
ghost use Rattle.fork_board.specs.Notes.{entry_of};

use crate::note::Note;
use sibling_port::Talk;
use std::alloc::{AllocError, Global};
use std::snapshot::Snapshot;
use world_core::{Lease, Placed, PreparedFork, Talked, World};

/// By which call a lease is handed back.
#[derive(Drop)]
pub(crate) enum Deed {
    /// The machine has ended, or is ready.
    Give,
    /// The CLONE at which the machine stands, with the children that were made ready for it.
    Fork(Result<PreparedFork, AllocError>),
    /// The JOIN at which it stands.
    Join(Global),
    /// The KILL at which it stands.
    Kill,
    /// The SEND or the RECEIVE at which it stands, which is this one.
    Talk(Global, Talk),
}

impl Deed {
    /// The call on a world.
    pub(crate) fn on(self, world: &mut World, lease: Lease) -> Placed
        requires { (depot : Shelves) × HandedOutIn depot world.old lease × MayDo depot self lease }
        ensures answers { (depot : Shelves) (f : Forest) → StandsFor depot world.old f → IsHandedOut f lease → IsLentOf depot lease
            → MayDo depot self lease → Answers depot f (how_of self lease.now.ending) lease result world.new }
        ensures told { told_of world.new ≡ told_of world.old }
    {
        match self {
            Deed::Give => world.give(lease),
            Deed::Fork(prepared) => world.commit_fork(lease, prepared),
            Deed::Join(alloc) => world.join(alloc, lease),
            Deed::Kill => world.kill(lease),
            Deed::Talk(alloc, _) => world.talk(alloc, lease),
        }
    }

    /// The same, where a machine that has made its talk may stay on lease.
    pub(crate) fn on_still(self, world: &mut World, lease: Lease) -> Talked
        requires { (depot : Shelves) × HandedOutIn depot world.old lease × MayDo depot self lease }
        ensures answers { (depot : Shelves) (f : Forest) → StandsFor depot world.old f → IsHandedOut f lease → IsLentOf depot lease
            → MayDo depot self lease → TalksOn depot f (how_of self lease.now.ending) lease result world.new }
        ensures told { told_of world.new ≡ told_of world.old }
    {
        match self {
            Deed::Talk(alloc, what) => world.talk_on(alloc, lease, what),
            other => Talked::Placed(other.on(world, lease)),
        }
    }

    /// The note of the call, where the change is made.
    pub(crate) fn note(&self, lease: &Lease) -> Note
        ensures { entry_of result ≡ row (spent (how_of self.now lease.now.now.ending) lease.now.name lease.now.ran) }
    {
        let name = Snapshot::of(lease.name());
        let ran = lease.ran();
        match self {
            Deed::Give => match lease.ended() {
                Some(_) => Note::Ended(name, ran),
                None => Note::Gave(name, ran),
            },
            Deed::Fork(_) => Note::Forked(name, ran),
            Deed::Join(_) => Note::Joined(name, ran),
            Deed::Kill => Note::Killed(name, ran),
            Deed::Talk(_, Talk::Send(_)) => Note::Sent(name, ran),
            Deed::Talk(_, Talk::Receive(_)) => Note::Received(name, ran),
        }
    }
}
