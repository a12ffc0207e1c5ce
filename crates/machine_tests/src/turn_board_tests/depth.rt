//! Seats split off from seats that were split off.
ghost use Rattle.std.specs.Prelude.{◌≡◌, []};
ghost use Rattle.turn_board.specs.Calls.{IsSeat};

use super::tally::{TallySeat, TallyTurns};

/// Splits the first seat, its new seat, and that one's, as deep as it goes, and joins all four.
pub fn split_three_deep(turns: &TallyTurns, first: TallySeat) -> TallySeat
    requires seat { IsSeat turns.now.table.shared.table_id turns.now.table.shared.key first }
    requires first { (first.me.0.seat ≡ []) × (first.me.0.splits ≡ 0) }
    ensures seat { IsSeat turns.now.table.shared.table_id turns.now.table.shared.key result }
    ensures same { result.me.0.seat ≡ [] }
{
    let (first, second) = turns.split(first);
    let (second, third) = turns.split(second);
    let (third, fourth) = turns.split(third);
    let third = turns.join(third, fourth);
    let second = turns.join(second, third);
    turns.join(first, second)
}
