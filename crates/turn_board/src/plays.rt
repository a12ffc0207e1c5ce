//! What each step on the words tells the seat that makes it.
use crate::view::{Content, Kept, View};
use atomic_table::{Join, Play, Split};

/// A number is drawn.
pub(crate) struct DrawsNumber;

impl<A, N, T> Play<Content<T, N>, View<A, N>> for DrawsNumber {
    ghost use Rattle.turn_board.specs.Steps.{drew};

    ghost then = { drew };
}

/// A look at the number that is served. Where it is the seat's own, the slot is taken out.
pub(crate) struct Looks;

impl<A, N, T: Kept<A, N>> Play<Content<T, N>, View<A, N>> for Looks {
    ghost use Rattle.turn_board.specs.Steps.{looked};

    ghost then = { looked T.stands };
}

/// The turn passes, and the entry whose note lies in the slot is written.
pub(crate) struct Passes;

impl<A, N, T> Play<Content<T, N>, View<A, N>> for Passes {
    ghost use Rattle.turn_board.specs.Steps.{passed};

    ghost then = { passed };
}

/// A look at what was seen and told.
pub(crate) struct Learns;

impl<A, N, T> Play<Content<T, N>, View<A, N>> for Learns {
    ghost use Rattle.turn_board.specs.Steps.{learned};

    ghost then = { learned };
}

/// A seat and one split off from it.
pub(crate) struct Parts;

impl<A, N> Split<View<A, N>> for Parts {
    ghost use Rattle.turn_board.specs.Rule.{parent, child};

    ghost left = { parent };

    ghost right = { child };
}

/// A seat, told what another had seen, which is spent.
pub(crate) struct Meets;

impl<A, N> Join<View<A, N>> for Meets {
    ghost use Rattle.turn_board.specs.Rule.{informed, spent};

    ghost both = { informed };

    ghost spent = { spent };
}
