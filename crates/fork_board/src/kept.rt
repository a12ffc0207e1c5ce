//! A world may lie under the lock, in a box: with each turn it moves in and out.

use crate::note::{Opening, TurnNote};
use turn_board::Kept;
use world_core::World;

impl Kept<Opening, TurnNote> for Box<World> {
    ghost use Rattle.fork_board.specs.Notes.{entries};
    ghost use Rattle.fork_board.specs.Follows.{Follows};

    ghost stands = { λ opening log w. Follows opening (entries log) w.value };
}
