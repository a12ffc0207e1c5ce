//! The board, and the passes of its threads.
ghost use Rattle.std.specs.Prelude.{◌≡◌, ◌+◌, ◌<◌, [], ◌∷◌, ◌++◌, length, IfOk};
ghost use Rattle.talking_history.specs.World.{world_of};
ghost use Rattle.forest_model.specs.Paged.{paged_machines, paged_talks};
ghost use Rattle.vm_cell.specs.Keyed.{paged};
ghost use Rattle.turn_board.specs.Calls.{IsTurn};
ghost use Rattle.world_core.specs.Told.{told_of};
ghost use Rattle.world_core.specs.World.{StandsFor};
ghost use Rattle.fork_board.specs.Follows.{Follows};
ghost use Rattle.fork_board.specs.Notes.{entries, turn_entries};
ghost use Rattle.fork_board.specs.Passes.{Closes, HoldsNone, Joins, first_pass};
ghost use Rattle.fork_board.specs.Visits.{Passed, Visits, pass_of};

use crate::note::{Opening, TurnNote};
use image_depot::Depot;
use std::alloc::{AllocError, Global};
use std::marker::Model;
use std::snapshot::Snapshot;
use std::sync::Wait;
use turn_board::{Seat, Turn, Turns};
use vm_cell::Vm;
use world_core::World;

/// A world of machines that threads share.
#[derive(Drop)]
pub struct Board {
    opening: Opening,
    turns: Turns<Opening, TurnNote, Box<World>>,
}

impl Model for Board {
    ghost use Rattle.std.specs.Prelude.{◌≡◌};
    ghost use Rattle.fork_board.specs.Passes.{BoardValue};

    ghost Value = { BoardValue };

    ghost view = { λ b. record { table = b.turns.table.shared.table_id; opening = b.opening } };

    ghost invariant = { λ b. b.turns.table.shared.key ≡ b.opening };
}

/// A thread's place at a board. It has no bytes.
#[derive(Drop)]
pub struct Pass {
    opening: Snapshot<Opening>,
    seat: Seat<Opening, TurnNote, Box<World>>,
}

impl Model for Pass {
    ghost use Rattle.fork_board.specs.Passes.{PassValue};
    ghost use Rattle.fork_board.specs.Visits.{IsPlace, pass_of};

    ghost Value = { PassValue };

    ghost view = { λ p. pass_of (record { table = p.seat.table_id; opening = p.opening.value }) p.seat };

    ghost invariant = { λ p. IsPlace (record { table = p.seat.table_id; opening = p.opening.value }) p.seat };
}

/// A pass whose turn has come, with the world.
pub(crate) struct Visit {
    opening: Snapshot<Opening>,
    pub(crate) turn: Turn<Opening, TurnNote, Box<World>>,
}

impl Board {
    /// A board over a world as it was made, of this machine and with images in this depot, and its first pass. Where
    /// memory is wanting, the world is dropped.
    pub fn new(
        alloc: Global,
        world: World,
        first: Snapshot<Vm>,
        depot: &Depot,
    ) -> Result<(Board, Pass), AllocError>
        requires world { StandsFor depot.now world (world_of paged_machines paged_talks (paged first.value)) }
        requires told { told_of world ≡ [] }
        ensures opening { IfOk result (λ made. (made.0.opening.first.value ≡ first.value) × (made.0.opening.depot.value ≡ depot.now)) }
        ensures pass { IfOk result (λ made. made.1 ≡ first_pass made.0) }
        ensures none { IfOk result (λ made. HoldsNone made.1) }
    {
        let opening = Opening {
            first,
            depot: Snapshot::of(depot),
        };
        let world = Box::new(alloc, world)?;
        let (turns, seat) = Turns::new(alloc, &opening, world)?;
        let pass = Pass {
            opening: Snapshot::of(&opening),
            seat,
        };
        Ok((Board { opening, turns }, pass))
    }

    /// Splits a pass off. The old pass comes first, and the new one has seen as much, and has made no entry.
    pub fn split(&self, pass: Pass) -> (Pass, Pass)
        requires board { pass.board ≡ self.now }
        requires parts { length pass.number < 3 }
        requires splits { pass.splits < 65535 }
        ensures old { result.0 ≡ record pass { splits = pass.splits + 1 } }
        ensures new { result.1 ≡ record pass { number = pass.number ++ pass.splits ∷ []; splits = 0; mine = []; ended = [] } }
        ensures none { HoldsNone result.1 }
    {
        let Pass { opening, seat } = pass;
        let (old, new) = self.turns.split(seat);
        let beside = Pass {
            opening: Snapshot::of(&self.opening),
            seat: new,
        };
        (Pass { opening, seat: old }, beside)
    }

    /// Joins the second pass to the first. It holds no machine, and is spent.
    pub fn join_pass(&self, pass: Pass, other: Pass) -> Pass
        requires board { (pass.board ≡ self.now) × (other.board ≡ self.now) }
        requires holds { HoldsNone other }
        ensures { Joins pass other result }
    {
        let Pass { opening, seat } = pass;
        let Pass {
            opening: _,
            seat: second,
        } = other;
        let seat = self.turns.join(seat, second);
        Pass { opening, seat }
    }

    /// Waits for the pass's turn, and ends the board. The world follows the whole history.
    pub fn close<R: Wait>(self, rt: &R, pass: Pass) -> World
        requires { pass.board ≡ self }
        ensures { Closes pass result }
    {
        let Pass { opening: _, seat } = pass;
        let Board { opening: _, turns } = self;
        Box::into_inner(turns.close(rt, seat))
    }

    /// Waits for the pass's turn.
    pub(crate) fn enter<R: Wait>(&self, rt: &R, pass: Pass) -> Visit
        requires { pass.board ≡ self.now }
        ensures turn { IsTurn self.now.table self.now.opening result.turn.seat }
        ensures opening { result.opening.value ≡ self.now.opening }
        ensures visits { Visits pass (pass_of self.now result.turn.seat) result.turn.value.value }
    {
        let Pass { opening, seat } = pass;
        Visit {
            opening,
            turn: self.turns.enter(rt, seat),
        }
    }

    /// Passes the turn on, with a note of what was done in it.
    pub(crate) fn leave(&self, visit: Visit, note: &TurnNote) -> Pass
        requires turn { IsTurn self.now.table self.now.opening visit.turn.seat }
        requires opening { visit.opening.value ≡ self.now.opening }
        requires follows { Follows self.now.opening (entries (visit.turn.seat.me.0.seen) ++ turn_entries visit.turn.seat.me.0.seat note.now) visit.turn.value.value }
        ensures { Passed (pass_of self.now visit.turn.seat) result note.now }
    {
        let Visit { opening, turn } = visit;
        let seat = turn.pass(&self.turns, note);
        Pass { opening, seat }
    }
}
