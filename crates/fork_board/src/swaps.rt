//! Turns in which a machine is handed back and another is taken.
ghost use Rattle.std.specs.Prelude.{◌≡◌, IfErr, IfOk, Some};
ghost use Rattle.talking_history.specs.Rows.{forked, joined, killed};
ghost use Rattle.vm_cell.specs.Standing.{IsClone, IsKill, standing_call, standing_talk};
ghost use Rattle.world_core.specs.Answers.{IsJoinCall, IsLentOf, home_by, said_by};
ghost use Rattle.world_core.specs.Lent.{vm_of};
ghost use Rattle.fork_board.specs.Deeds.{MayDo, how_of};
ghost use Rattle.fork_board.specs.Follows.{depot_of};
ghost use Rattle.fork_board.specs.Passes.{IsHeld};
ghost use Rattle.fork_board.specs.Swaps.{Swaps, placed_of};

use crate::board::{Board, Pass};
use crate::deed::Deed;
use crate::note::{Note, TurnNote};
use crate::notes::{placed_note, taken_note};
use image_depot::Depot;
use sibling_port::Talk;
use std::alloc::Global;
use std::snapshot::Snapshot;
use std::sync::Wait;
use world_core::{Lease, Placed, Taken, Talked};

/// How a machine came back.
#[derive(Clone, Copy)]
pub enum Back {
    /// It has made its call or its talk, or is at home as it was.
    Done,
    /// It waits, at its call or its talk.
    Parked,
    /// Its name was gone.
    Dropped,
}

/// What came of a machine that was handed back in a turn in which another is taken.
pub enum Swapped {
    /// It made its talk, and stays with the pass. A hint beside, of which no contract speaks: whether another may be ready since
    /// then.
    Goes(Lease, bool),
    /// Memory is wanting for its call. It stays with the pass, and none was taken.
    Memory(Lease),
    /// It came back, and this was taken then.
    Took(Back, Taken),
}

impl Board {
    /// Takes a machine back, which may have ended, and hands out one that is ready.
    pub fn give_and_take<R: Wait>(
        &self,
        rt: &R,
        alloc: Global,
        pass: Pass,
        lease: Lease,
        depot: &Depot,
    ) -> (Pass, Swapped)
        requires board { pass.board ≡ self.now }
        requires depot { depot_of self.now.opening ≡ depot.now }
        requires held { IsHeld pass lease }
        requires of_depot { IsLentOf (depot_of self.now.opening) lease }
        ensures { Swaps (home_by lease.now.ending) lease pass result.0 result.1 }
    {
        self.swap(rt, alloc, pass, lease, Deed::Give, depot)
    }

    /// Makes the CLONE at which a machine stands, and hands out a machine that is ready. The children are made ready before
    /// the turn.
    pub fn fork_and_take<R: Wait>(
        &self,
        rt: &R,
        alloc: Global,
        pass: Pass,
        lease: Lease,
        depot: &Depot,
    ) -> (Pass, Swapped)
        requires board { pass.board ≡ self.now }
        requires depot { depot_of self.now.opening ≡ depot.now }
        requires held { IsHeld pass lease }
        requires of_depot { IsLentOf (depot_of self.now.opening) lease }
        requires clone { IsClone (standing_call (vm_of lease)) }
        ensures { Swaps forked lease pass result.0 result.1 }
    {
        let prepared = lease.prepare_fork(rt, alloc, depot);
        self.swap(rt, alloc, pass, lease, Deed::Fork(prepared), depot)
    }

    /// Makes the JOIN at which a machine stands, or parks the machine where a child of the ticket lives, and hands out one
    /// that is ready.
    pub fn join_and_take<R: Wait>(
        &self,
        rt: &R,
        alloc: Global,
        pass: Pass,
        lease: Lease,
        depot: &Depot,
    ) -> (Pass, Swapped)
        requires board { pass.board ≡ self.now }
        requires depot { depot_of self.now.opening ≡ depot.now }
        requires held { IsHeld pass lease }
        requires of_depot { IsLentOf (depot_of self.now.opening) lease }
        requires join { IsJoinCall (standing_call (vm_of lease)) }
        ensures { Swaps joined lease pass result.0 result.1 }
    {
        self.swap(rt, alloc, pass, lease, Deed::Join(alloc), depot)
    }

    /// Makes the KILL at which a machine stands, and hands out a machine that is ready.
    pub fn kill_and_take<R: Wait>(
        &self,
        rt: &R,
        alloc: Global,
        pass: Pass,
        lease: Lease,
        depot: &Depot,
    ) -> (Pass, Swapped)
        requires board { pass.board ≡ self.now }
        requires depot { depot_of self.now.opening ≡ depot.now }
        requires held { IsHeld pass lease }
        requires of_depot { IsLentOf (depot_of self.now.opening) lease }
        requires kill { IsKill (standing_call (vm_of lease)) }
        ensures { Swaps killed lease pass result.0 result.1 }
    {
        self.swap(rt, alloc, pass, lease, Deed::Kill, depot)
    }

    /// Makes the SEND or the RECEIVE at which a machine stands, which is this one. Where it need not wait, the machine lives and
    /// the world was not stopped, the machine stays with the pass. Else one that is ready is handed out.
    pub fn talk_on<R: Wait>(
        &self,
        rt: &R,
        alloc: Global,
        pass: Pass,
        lease: Lease,
        what: Talk,
        depot: &Depot,
    ) -> (Pass, Swapped)
        requires board { pass.board ≡ self.now }
        requires depot { depot_of self.now.opening ≡ depot.now }
        requires held { IsHeld pass lease }
        requires of_depot { IsLentOf (depot_of self.now.opening) lease }
        requires talks { standing_talk (vm_of lease) ≡ Some what }
        ensures { Swaps (said_by what) lease pass result.0 result.1 }
    {
        self.swap(rt, alloc, pass, lease, Deed::Talk(alloc, what), depot)
    }

    /// Takes a lease back by a call of the world and hands another out, in one turn of the pass.
    fn swap<R: Wait>(
        &self,
        rt: &R,
        alloc: Global,
        pass: Pass,
        lease: Lease,
        deed: Deed,
        depot: &Depot,
    ) -> (Pass, Swapped)
        requires board { pass.board ≡ self.now }
        requires depot { depot_of self.now.opening ≡ depot.now }
        requires held { IsHeld pass lease }
        requires of_depot { IsLentOf (depot_of self.now.opening) lease }
        requires may { MayDo (depot_of self.now.opening) deed lease }
        ensures { Swaps (how_of deed lease.now.ending) lease pass result.0 result.1 }
    {
        let name = Snapshot::of(lease.name());
        let ran = lease.ran();
        let done = deed.note(&lease);
        let mut visit = self.enter(rt, pass);
        let world = &mut *visit.turn.value;
        let placed = match deed.on_still(world, lease) {
            Talked::Goes(lease, is_heard) => {
                let note = TurnNote::Two(done, Note::Took(name));
                return (self.leave(visit, &note), Swapped::Goes(lease, is_heard));
            }
            Talked::Placed(placed) => placed,
        };
        let first = placed_note(done, name, ran, &placed);
        match came_back(placed) {
            Ok(back) => {
                let taken = world.take(alloc, depot);
                let note = TurnNote::Two(first, taken_note(&taken));
                (self.leave(visit, &note), Swapped::Took(back, taken))
            }
            Err(lease) => (
                self.leave(visit, &TurnNote::One(first)),
                Swapped::Memory(lease),
            ),
        }
    }
}

/// How a machine came back, or its lease, where memory was wanting for its call.
fn came_back(placed: Placed) -> Result<Back, Lease>
    ensures ok { IfOk result (λ back. placed ≡ placed_of back) }
    ensures err { IfErr result (λ lease. placed ≡ Placed.Memory lease) }
{
    match placed {
        Placed::Done => Ok(Back::Done),
        Placed::Parked => Ok(Back::Parked),
        Placed::Dropped => Ok(Back::Dropped),
        Placed::Memory(lease) => Err(lease),
    }
}
