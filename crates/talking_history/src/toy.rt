//! A history of the small machine that talks is legal, and comes to what its family comes to; and one whose children wait for
//! each other comes to a world that is stuck.

ghost use Rattle.std.specs.Prelude.{◌≡◌, [], ◌∷◌, Some};
ghost use Rattle.forest_tree.specs.Tree.{log_of};
ghost use Rattle.forest_tree.specs.Toy.{by_exit};
ghost use Rattle.sibling_forest.specs.Toy.{speakers, speech, swap, both_wait, told};
ghost use Rattle.talking_history.specs.Places.{bare};
ghost use Rattle.talking_history.specs.Rows.{stuck, Allows};
ghost use Rattle.talking_history.specs.Histories.{replay, IsLegal};
ghost use Rattle.talking_history.specs.Toy.{first_record, swap_history, waiting_history};

/// Two seats run a family whose children swap their numbers: each entry comes where it may, and the children that were joined
/// ended with each other's.
pub fn toy_history_is_legal()
    ensures legal { IsLegal speakers speech swap_history (first_record swap) }
    ensures told { told (log_of (bare (replay speakers speech swap_history (first_record swap)).world.tree)) ≡ Some (by_exit 2) ∷ (Some (by_exit 1) ∷ []) }
{}

/// Where both children receive first, each entry comes where it may, and the world is stuck then.
pub fn toy_world_is_stuck()
    ensures legal { IsLegal speakers speech waiting_history (first_record both_wait) }
    ensures stuck { Allows speakers speech stuck (replay speakers speech waiting_history (first_record both_wait)).world }
{}
