//! What lies under the lock, what a seat knows, and the rule that ties them.
use atomic_table::TableRule;
use std::collections::LinkedList;
use std::snapshot::Snapshot;

/// A value that may lie under a turn lock. `A` is what was fixed when the lock was made, and `N` what an entry notes.
///
/// A history is a list of entries. Each has the number of the seat that made it, and its note.
pub trait Kept<A, N> {
    ghost use Rattle.std.specs.Prelude.{ℕ, List};

    /// The value stands for the history.
    ghost stands: { A → List (List ℕ × N) → Self → Type 0 };
}

/// What the slot holds: the value, unless it is out, and from its return to the pass the note of the entry.
/// Of the note there is no more than a tag.
#[derive(Drop)]
pub struct Content<T, N> {
    pub value: Option<T>,
    pub note: Option<Snapshot<N>>,
}

/// What a seat knows. No value of it is made.
pub struct View<A, N> {
    /// What was fixed when the lock was made; `None` in a seat that was joined to another.
    pub about: Option<A>,
    /// The seat's number: empty for the first seat, and for the k-th seat split off from another, that one's with k appended.
    pub seat: LinkedList<u64>,
    /// How many seats were split off from it.
    pub splits: u64,
    /// The history as far as it has seen it.
    pub seen: LinkedList<(LinkedList<u64>, N)>,
    /// The entries that it made.
    pub mine: LinkedList<(LinkedList<u64>, N)>,
    /// The seats that were joined to it, and to those, each by the number that it would have given next: it has seen all their
    /// entries, and they make none, nor does a seat that they had yet to split off.
    pub ended: LinkedList<LinkedList<u64>>,
    /// What a seat that was joined to it had seen, until it next looks.
    pub told: LinkedList<(LinkedList<u64>, N)>,
    /// That seat, and those that were joined to it, by the same.
    pub told_ended: LinkedList<LinkedList<u64>>,
    /// The number of the turn that it has drawn and not passed.
    pub number: Option<u64>,
    /// That turn has come, and the slot is out with the seat.
    pub served: bool,
}

/// The rule of a turn lock.
pub struct Keeping;

impl<A, N, T: Kept<A, N>> TableRule<Content<T, N>, View<A, N>, A> for Keeping {
    ghost use Rattle.turn_board.specs.Rule.{Turning, newcomer};

    ghost holds = { Turning T.stands };

    ghost first = { newcomer };
}

/// A place at a turn lock. It has no bytes.
pub type Seat<A, N, T> = atomic_table::Seat<Content<T, N>, View<A, N>>;
