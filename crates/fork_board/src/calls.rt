//! The calls of a world, each in a turn of its pass.
ghost use Rattle.std.specs.Prelude.{◌≡◌, IfSome, IsSome};
ghost use Rattle.talking_history.specs.Histories.{row};
ghost use Rattle.talking_history.specs.Rows.{ended, forked, halted, joined, killed};
ghost use Rattle.vm_cell.specs.Standing.{IsClone, IsKill, standing_call, standing_talk};
ghost use Rattle.world_core.specs.Answers.{IsJoinCall, IsLentOf, home_by, said_by};
ghost use Rattle.world_core.specs.Lent.{vm_of};
ghost use Rattle.fork_board.specs.Answers.{Places, Takes};
ghost use Rattle.fork_board.specs.Deeds.{MayDo, how_of};
ghost use Rattle.fork_board.specs.Follows.{depot_of};
ghost use Rattle.fork_board.specs.Notes.{placed_entry, taken_entry};
ghost use Rattle.fork_board.specs.Passes.{IsHeld, Makes};

use crate::board::{Board, Pass};
use crate::deed::Deed;
use crate::note::{Note, TurnNote};
use crate::notes::{placed_note, taken_note};
use image_depot::Depot;
use std::alloc::Global;
use std::snapshot::Snapshot;
use std::sync::Wait;
use world_core::{Lease, Placed, Reason, Taken};

impl Board {
    /// Hands out a machine that is ready. The pass holds it from then on.
    pub fn take<R: Wait>(&self, rt: &R, alloc: Global, pass: Pass, depot: &Depot) -> (Pass, Taken)
        requires board { pass.board ≡ self.now }
        requires depot { depot_of self.now.opening ≡ depot.now }
        ensures makes { Makes pass result.0 (taken_entry result.1) }
        ensures takes { Takes result.0 result.1 }
    {
        let mut visit = self.enter(rt, pass);
        let taken = visit.turn.value.take(alloc, depot);
        let note = taken_note(&taken);
        (self.leave(visit, &TurnNote::One(note)), taken)
    }

    /// Takes a machine back, which may have ended.
    pub fn give<R: Wait>(&self, rt: &R, pass: Pass, lease: Lease) -> (Pass, Placed)
        requires board { pass.board ≡ self.now }
        requires held { IsHeld pass lease }
        requires of_depot { IsLentOf (depot_of self.now.opening) lease }
        ensures makes { Makes pass result.0 (placed_entry (home_by lease.now.ending) lease.name lease.ran result.1) }
        ensures places { Places (home_by lease.now.ending) lease result.0 result.1 }
    {
        self.hand_back(rt, pass, lease, Deed::Give)
    }

    /// Takes back a machine that has ended, and drops its descendants. It takes no memory.
    pub fn end<R: Wait>(&self, rt: &R, pass: Pass, lease: Lease) -> (Pass, Placed)
        requires board { pass.board ≡ self.now }
        requires held { IsHeld pass lease }
        requires of_depot { IsLentOf (depot_of self.now.opening) lease }
        requires ended { IsSome lease.now.ending }
        ensures makes { Makes pass result.0 (placed_entry ended lease.name lease.ran result.1) }
        ensures places { Places ended lease result.0 result.1 }
    {
        self.hand_back(rt, pass, lease, Deed::Give)
    }

    /// Makes the CLONE at which a machine stands. The children are made ready before the turn, which is short.
    pub fn fork<R: Wait>(
        &self,
        rt: &R,
        alloc: Global,
        pass: Pass,
        lease: Lease,
        depot: &Depot,
    ) -> (Pass, Placed)
        requires board { pass.board ≡ self.now }
        requires depot { depot_of self.now.opening ≡ depot.now }
        requires held { IsHeld pass lease }
        requires of_depot { IsLentOf (depot_of self.now.opening) lease }
        requires clone { IsClone (standing_call (vm_of lease)) }
        ensures makes { Makes pass result.0 (placed_entry forked lease.name lease.ran result.1) }
        ensures places { Places forked lease result.0 result.1 }
    {
        let prepared = lease.prepare_fork(rt, alloc, depot);
        self.hand_back(rt, pass, lease, Deed::Fork(prepared))
    }

    /// Makes the JOIN at which a machine stands, or parks the machine where a child of the ticket lives.
    pub fn join<R: Wait>(&self, rt: &R, alloc: Global, pass: Pass, lease: Lease) -> (Pass, Placed)
        requires board { pass.board ≡ self.now }
        requires held { IsHeld pass lease }
        requires of_depot { IsLentOf (depot_of self.now.opening) lease }
        requires join { IsJoinCall (standing_call (vm_of lease)) }
        ensures makes { Makes pass result.0 (placed_entry joined lease.name lease.ran result.1) }
        ensures places { Places joined lease result.0 result.1 }
    {
        self.hand_back(rt, pass, lease, Deed::Join(alloc))
    }

    /// Makes the KILL at which a machine stands.
    pub fn kill<R: Wait>(&self, rt: &R, pass: Pass, lease: Lease) -> (Pass, Placed)
        requires board { pass.board ≡ self.now }
        requires held { IsHeld pass lease }
        requires of_depot { IsLentOf (depot_of self.now.opening) lease }
        requires kill { IsKill (standing_call (vm_of lease)) }
        ensures makes { Makes pass result.0 (placed_entry killed lease.name lease.ran result.1) }
        ensures places { Places killed lease result.0 result.1 }
    {
        self.hand_back(rt, pass, lease, Deed::Kill)
    }

    /// Makes the SEND or the RECEIVE at which a machine stands, or parks the machine where it waits for its sibling.
    pub fn talk<R: Wait>(&self, rt: &R, alloc: Global, pass: Pass, lease: Lease) -> (Pass, Placed)
        requires board { pass.board ≡ self.now }
        requires held { IsHeld pass lease }
        requires of_depot { IsLentOf (depot_of self.now.opening) lease }
        requires talks { IsSome (standing_talk (vm_of lease)) }
        ensures makes { IfSome (standing_talk (vm_of lease)) (λ what. Makes pass result.0 (placed_entry (said_by what) lease.name lease.ran result.1)) }
        ensures places { IfSome (standing_talk (vm_of lease)) (λ what. Places (said_by what) lease result.0 result.1) }
    {
        let Some(what) = lease.talk() else {
            unreachable!();
        };
        self.hand_back(rt, pass, lease, Deed::Talk(alloc, what))
    }

    /// Takes a lease back in a turn of the pass, by a call of the world.
    fn hand_back<R: Wait>(&self, rt: &R, pass: Pass, lease: Lease, deed: Deed) -> (Pass, Placed)
        requires board { pass.board ≡ self.now }
        requires held { IsHeld pass lease }
        requires of_depot { IsLentOf (depot_of self.now.opening) lease }
        requires may { MayDo (depot_of self.now.opening) deed lease }
        ensures makes { Makes pass result.0 (placed_entry (how_of deed lease.now.ending) lease.name lease.ran result.1) }
        ensures places { Places (how_of deed lease.now.ending) lease result.0 result.1 }
    {
        let name = Snapshot::of(lease.name());
        let ran = lease.ran();
        let done = deed.note(&lease);
        let mut visit = self.enter(rt, pass);
        let placed = deed.on(&mut *visit.turn.value, lease);
        let note = placed_note(done, name, ran, &placed);
        (self.leave(visit, &TurnNote::One(note)), placed)
    }

    /// No machine is handed out from now on, for the first reason that was given.
    pub fn stop<R: Wait>(&self, rt: &R, pass: Pass, reason: Reason) -> Pass
        requires { pass.board ≡ self.now }
        ensures { Makes pass result (row (halted reason)) }
    {
        let mut visit = self.enter(rt, pass);
        visit.turn.value.stop(reason);
        self.leave(visit, &TurnNote::One(Note::Halted(reason)))
    }
}
