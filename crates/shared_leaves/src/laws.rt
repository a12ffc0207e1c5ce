//! Laws of the definitions, each the contract of a function that does nothing.

ghost use Rattle.std.specs.Prelude.{◌≡◌, ℕ, ◌+◌, ◌*◌, ◌/◌, ◌%◌, ◌≤◌, Bool, true, false, List, length};
ghost use Rattle.shared_leaves.specs.Choices.{choice_steps, has, mixed_leaves};

use crate::leaf::LEAF_ENTRIES;

/// A list in which each entry is one of two costs a step for each whole leaf of equal entries, and the
/// entries of each other: of the whole ones that have both, of one of each kind, and of the last. Where no
/// flag is set, it costs a step a leaf but for a constant.
pub fn choices_cost_leaves()
    ensures leaves { (flags : List Bool) → choice_steps flags ≤ length flags / LEAF_ENTRIES + LEAF_ENTRIES * (mixed_leaves flags + 2) + length flags % LEAF_ENTRIES }
    ensures none_set { (flags : List Bool) → has true flags ≡ false → choice_steps flags ≤ length flags / LEAF_ENTRIES + LEAF_ENTRIES + length flags % LEAF_ENTRIES }
{}
