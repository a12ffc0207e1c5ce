//! What the order of names comes to.

ghost use Rattle.std.specs.Prelude.{◌≡◌};
ghost use Rattle.std.specs.declared.cmp.Ordering.TheVariants.{Equal};
ghost use Rattle.forest_tree.specs.Tree.{Path};
ghost use Rattle.machine_names.specs.NameOrder.{path_cmp};

/// Two names compare equal exactly where they are the same.
pub fn equal_names_are_the_same()
    ensures equal { (a b : Path) → path_cmp a b ≡ Equal → a ≡ b }
    ensures same { (a : Path) → path_cmp a a ≡ Equal }
{}
