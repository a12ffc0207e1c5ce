//! A small machine keeps the rules, so the laws speak of something.

ghost use Rattle.forest_tree.specs.Operations.{IsMachine};
ghost use Rattle.forest_tree.specs.Toy.{toy};

/// The small machine keeps the rules of a machine in a forest.
pub fn toy_is_a_machine()
    ensures { IsMachine toy }
{}
