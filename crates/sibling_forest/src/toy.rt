//! A small machine that talks keeps the rules, so the laws speak of something; and what some of its families come to.

ghost use Rattle.std.specs.Prelude.{◌≡◌, true, [], ◌∷◌, Some, None};
ghost use Rattle.forest_tree.specs.Operations.{IsMachine};
ghost use Rattle.forest_tree.specs.Tree.{machine, log_of};
ghost use Rattle.forest_tree.specs.Toy.{by_exit, by_limit};
ghost use Rattle.sibling_forest.specs.Talk.{IsTalking};
ghost use Rattle.sibling_forest.specs.Finish.{rests, finish};
ghost use Rattle.sibling_forest.specs.Report.{machine_line, lines};
ghost use Rattle.sibling_forest.specs.Toy.{speakers, speech, start, started, two_children, killed_children, swap, both_wait, told, told_of};

/// The small machine keeps the rules of a machine in a forest, and of one that talks.
pub fn toy_is_a_talking_machine()
    ensures machine { IsMachine speakers }
    ensures talking { IsTalking speakers speech }
{}

/// A parent that joins two children ends with the sum of what they ended with, and has back what it gave them.
pub fn toy_joins()
    ensures parent { (machine (finish speakers speech (started two_children 4 10 []))).machine.toy.ending ≡ Some (by_exit 3) }
    ensures children { told (log_of (finish speakers speech (started two_children 4 10 []))) ≡ Some (by_exit 1) ∷ (Some (by_exit 2) ∷ []) }
    ensures given_back { (machine (finish speakers speech (started two_children 4 10 []))).machine.toy.allot ≡ 4 }
{}

/// One that kills them, or that ends before them, tells of a killed ticket.
pub fn toy_kills()
    ensures exit { (machine (finish speakers speech (started killed_children 4 10 []))).machine.toy.ending ≡ Some (by_exit 0) }
    ensures killed { told (log_of (finish speakers speech (started killed_children 4 10 []))) ≡ None ∷ [] }
    ensures limit { (machine (finish speakers speech (started two_children 4 2 []))).machine.toy.ending ≡ Some by_limit }
    ensures dropped { told (log_of (finish speakers speech (started two_children 4 2 []))) ≡ None ∷ [] }
{}

/// Two children that swap their numbers end with each other's, and put out each other's.
pub fn toy_swaps()
    ensures told { told (log_of (finish speakers speech (start swap))) ≡ Some (by_exit 2) ∷ (Some (by_exit 1) ∷ []) }
    ensures lines { lines speakers told_of [] (finish speakers speech (start swap))
        ≡ machine_line [] (Some (by_exit 3)) 6 (3 ∷ [])
        ∷ (machine_line (record { ticket = 1; child = 1 } ∷ []) (Some (by_exit 2)) 6 (2 ∷ [])
        ∷ (machine_line (record { ticket = 1; child = 2 } ∷ []) (Some (by_exit 1)) 6 (1 ∷ []) ∷ [])) }
{}

/// Two that both receive first are stuck: the tree that they come to rests, its root lives, and all three have a line that
/// says so.
pub fn toy_is_stuck()
    ensures rests { rests speakers speech (finish speakers speech (start both_wait)) ≡ true }
    ensures lines { lines speakers told_of [] (finish speakers speech (start both_wait))
        ≡ machine_line [] None 4 (0 ∷ [])
        ∷ (machine_line (record { ticket = 1; child = 1 } ∷ []) None 2 (1 ∷ [])
        ∷ (machine_line (record { ticket = 1; child = 2 } ∷ []) None 2 (2 ∷ []) ∷ [])) }
    ensures lives { (machine (finish speakers speech (start both_wait))).machine.toy.ending ≡ None }
{}
