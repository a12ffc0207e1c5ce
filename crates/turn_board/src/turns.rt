//! The lock.
ghost use Rattle.std.specs.Prelude.{◌≡◌};

use crate::bells::Bells;
use crate::patience::Patience;
use crate::plays::{DrawsNumber, Learns, Looks, Meets, Parts};
use crate::turn::Turn;
use crate::view::{Content, Keeping, Kept, Seat, View};
use atomic_table::{Table, TableRule};
use std::alloc::{AllocError, Global};
use std::sync::Wait;

/// The word that counts the numbers drawn.
pub(crate) const TICKET: usize = 0;

/// The word that counts the turns passed: the number that is served.
pub(crate) const SERVING: usize = 1;

/// A number from here on waits for ever.
pub(crate) const NUMBERS_END: u64 = 1 << 63;

/// The table of a lock: two words, and one slot for the value. It has its rule as a parameter, since a struct that names a
/// rule which stands on a bound may not go to other threads.
#[derive(Drop)]
pub struct Lock<S, V, K, P: TableRule<S, V, K>> {
    pub table: Table<S, V, K, P, Global>,
    pub(crate) bells: Bells,
    ghost counts: { (table.shared.table_id.words ≡ 2) × (table.shared.table_id.slots ≡ 1) },
}

/// A turn lock over a value `T`.
pub type Turns<A, N, T> = Lock<Content<T, N>, View<A, N>, A, Keeping>;

impl<A, N: Drop, T: Kept<A, N> + Drop> Turns<A, N, T> {
    ghost use Rattle.std.specs.Prelude.{◌<◌, [], length, IfOk};
    ghost use Rattle.turn_board.specs.Rule.{newcomer, parent, child};
    ghost use Rattle.turn_board.specs.Calls.{IsSeat, IsDrawn, IsTurn, Comes, Enters, Joins, Closes};

    /// A lock over the value, and its first seat. `about` is for contracts alone. The error is want of memory.
    pub fn new(
        alloc: Global,
        about: &A,
        value: T,
    ) -> Result<(Turns<A, N, T>, Seat<A, N, T>), AllocError>
        requires { T.stands about.now [] value }
        ensures { IfOk result (λ t. (t.0.table.shared.key ≡ about.now) × IsSeat t.0.table.shared.table_id about.now t.1 × (t.1.me.0 ≡ newcomer about.now)) }
    {
        let mut slots = Vec::with_capacity(alloc, 1)?;
        let content = Content {
            value: Some(value),
            note: None,
        };
        slots.push(content)?;
        let Ok((table, seat)) = Table::new(alloc, &[0, 0], slots, about) else {
            return Err(AllocError);
        };
        let bells = Bells::new();
        Ok((Lock { table, bells }, seat))
    }

    /// Waits for the seat's turn. The value stands for the history of all turns passed, which begins with what the seat had seen.
    pub fn enter<R: Wait>(&self, rt: &R, mut seat: Seat<A, N, T>) -> Turn<A, N, T>
        requires { IsSeat self.now.table.shared.table_id self.now.table.shared.key seat }
        ensures turn { IsTurn self.now.table.shared.table_id self.now.table.shared.key result.seat }
        ensures enters { Enters T.stands self.now.table.shared.key seat result.seat result.value }
    {
        let number = self
            .table
            .shared
            .fetch_add::<DrawsNumber>(&mut seat, TICKET, 1);
        self.wait(rt, &mut seat, number);
        let empty = Content {
            value: None,
            note: None,
        };
        let Content { value, note: _ } = self.table.shared.exchange(&mut seat, 0, empty);
        let Some(value) = value else { unreachable!() };
        Turn { seat, value }
    }

    // Waits until the number is served.
    fn wait<R: Wait>(&self, rt: &R, seat: &mut Seat<A, N, T>, number: u64)
        requires { IsDrawn self.now.table.shared.table_id self.now.table.shared.key number seat.old }
        ensures { Comes T.stands self.now.table.shared.key seat.old seat.new }
    {
        let bell = self.bells.of(number);
        let mut patience = Patience::new();
        for _ in rt.forever() {
            let served = self.table.shared.load::<Looks>(seat, SERVING);
            if served == number && served < NUMBERS_END {
                patience.end(bell);
                return;
            }
            if let Some(rings) = patience.pass(bell, number, served) {
                bell.rings.park(rt, rings);
                patience.end(bell);
            }
        }
        unreachable!()
    }

    /// Splits a seat off. The old seat comes first.
    pub fn split(&self, mut seat: Seat<A, N, T>) -> (Seat<A, N, T>, Seat<A, N, T>)
        requires seat { IsSeat self.now.table.shared.table_id self.now.table.shared.key seat }
        requires parts { length seat.me.0.seat < 3 }
        requires splits { seat.me.0.splits < 65535 }
        ensures old { IsSeat self.now.table.shared.table_id self.now.table.shared.key result.0 × (result.0.me.0 ≡ parent seat.me.0) }
        ensures new { IsSeat self.now.table.shared.table_id self.now.table.shared.key result.1 × (result.1.me.0 ≡ child seat.me.0) }
    {
        let mut new = self.table.shared.split_seat::<Parts>(&mut seat);
        self.table.shared.load::<Learns>(&mut new, TICKET);
        (seat, new)
    }

    /// Joins the second seat to the first. The second is spent, and the first has seen what either had.
    pub fn join(&self, mut seat: Seat<A, N, T>, other: Seat<A, N, T>) -> Seat<A, N, T>
        requires seat { IsSeat self.now.table.shared.table_id self.now.table.shared.key seat }
        requires other { IsSeat self.now.table.shared.table_id self.now.table.shared.key other }
        ensures seat { IsSeat self.now.table.shared.table_id self.now.table.shared.key result }
        ensures joins { Joins seat other result }
    {
        self.table.shared.join_seat::<Meets>(&mut seat, other);
        self.table.shared.load::<Learns>(&mut seat, TICKET);
        seat
    }

    /// Waits for the seat's turn, and ends the lock. The value stands for the whole history.
    pub fn close<R: Wait>(self, rt: &R, seat: Seat<A, N, T>) -> T
        requires { IsSeat self.table.shared.table_id self.table.shared.key seat }
        ensures { Closes T.stands self.table.shared.key seat result }
    {
        let Turn { seat: _, value } = self.enter(rt, seat);
        drop(self);
        value
    }
}
