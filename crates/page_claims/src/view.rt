//! What a pass knows, and the rule that ties the words to what all passes know.
use atomic_table::TableRule;
use std::collections::LinkedList;

/// What a pass knows. No value of it is made.
pub struct View {
    /// The bits that it found 0.
    pub firsts: LinkedList<u64>,
    /// The bits that it found 1.
    pub repeats: LinkedList<u64>,
    /// How many of the 65,536 parts of the claims it has.
    pub parts: u64,
}

/// The rule of the claims. It is told how many words there are.
pub struct Keeping;

impl TableRule<(), View, usize> for Keeping {
    ghost use Rattle.page_claims.specs.Rule.{IsKept, newcomer};

    ghost holds = { IsKept };

    ghost first = { λ _. newcomer };
}
