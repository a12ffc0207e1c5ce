//! What each step on the words tells the pass that makes it.
use crate::view::View;
use atomic_table::{Join, Play, Split};

/// A bit is set.
pub(crate) struct Sets;

impl Play<(), View> for Sets {
    ghost use Rattle.page_claims.specs.Steps.{Finds};

    ghost then = { Finds };
}

/// A look at a word, which shows that no bit is twice among the firsts of the pass.
pub(crate) struct Looks;

impl Play<(), View> for Looks {
    ghost use Rattle.page_claims.specs.Steps.{looked};

    ghost then = { looked };
}

/// A pass and the one that is split off from it.
pub(crate) struct Parts;

impl Split<View> for Parts {
    ghost use Rattle.page_claims.specs.Rule.{parent, child};

    ghost left = { parent };

    ghost right = { λ _. child };
}

/// A pass to which another is joined, which is spent.
pub(crate) struct Meets;

impl Join<View> for Meets {
    ghost use Rattle.page_claims.specs.Rule.{united, spent};

    ghost both = { united };

    ghost spent = { spent };
}
