//! The value, lent. Its clause names the row of `Turn`, which the file that declares it cannot import.
ghost use Rattle.std.specs.Prelude.{◌≡◌};
ghost use Rattle.std.specs.Borrow.{sem};
ghost use Rattle.turn_board.specs.Lends.{LendsValue};

use crate::turn::Turn;

impl<A, N, T> Turn<A, N, T> {
    /// The value. When the borrow ends, the turn has what was written through it.
    pub fn value(&mut self) -> &mut T
        ensures* writes_back { sem 𝓛 (LendsValue A.row N.row T.row self.entry result) }
        ensures value { result.now ≡ self.old.value }
    {
        &mut self.value
    }
}
