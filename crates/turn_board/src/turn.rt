//! A turn that has come.
ghost use Rattle.std.specs.Prelude.{[], ◌∷◌, ◌++◌};
ghost use Rattle.turn_board.specs.Calls.{IsSeat, IsTurn, Leaves};

use crate::plays::Passes;
use crate::turns::{SERVING, Turns};
use crate::view::{Content, Kept, Seat};
use std::snapshot::Snapshot;

/// A seat whose turn has come, with the value, which is out of the lock until the turn is passed.
pub struct Turn<A, N, T> {
    pub seat: Seat<A, N, T>,
    pub value: T,
}

impl<A, N: Drop, T: Kept<A, N> + Drop> Turn<A, N, T> {
    /// Puts the value back and passes the turn. The history grows by one entry: this seat's number and the note.
    pub fn pass(self, turns: &Turns<A, N, T>, note: &N) -> Seat<A, N, T>
        requires turn { IsTurn turns.now.table.shared.table_id turns.now.table.shared.key self.seat }
        requires stands { T.stands turns.now.table.shared.key (self.seat.me.0.seen ++ (self.seat.me.0.seat, note.now) ∷ []) self.value }
        ensures seat { IsSeat turns.now.table.shared.table_id turns.now.table.shared.key result }
        ensures leaves { Leaves self.seat result note.now }
    {
        let Turn { mut seat, value } = self;
        let home = Content {
            value: Some(value),
            note: Some(Snapshot::of(note)),
        };
        let shared = &turns.table.shared;
        drop(shared.exchange(&mut seat, 0, home));
        let number = shared.fetch_add::<Passes>(&mut seat, SERVING, 1);
        turns.bells.ring(number.wrapping_add(1));
        seat
    }
}
