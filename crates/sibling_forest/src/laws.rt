//! Laws of the definitions, each the contract of a function that does nothing. They hold for all machines that keep
//! the rules.

ghost use Rattle.std.specs.Prelude.{◌≡◌, ◌≢◌, ◌↔◌, ◌⊎◌, ◌<◌, ℕ, true, false, List, [], ◌∷◌, ◌++◌, Some, None, IsSome, option_map};
ghost use Rattle.forest_tree.specs.Operations.{join, Operations, IsMachine};
ghost use Rattle.forest_tree.specs.Tree.{Tree, machine, log_of, Branch, Path, subtree, is_below};
ghost use Rattle.forest_tree.specs.Step.{alone, step};
ghost use Rattle.forest_tree.specs.Sound.{IsSound};
ghost use Rattle.forest_tree.specs.Ahead.{ahead};
ghost use Rattle.forest_tree.specs.Projection.{map_tree, Projects};
ghost use Rattle.sibling_forest.specs.Talk.{Talk, peer, Talks, queue, Box, boxed, IsTalking};
ghost use Rattle.sibling_forest.specs.Settle.{settle, settle_all, rests_at};
ghost use Rattle.sibling_forest.specs.Finish.{rests, finish, IsFinish};
ghost use Rattle.sibling_forest.specs.Joins.{with_brood, finish_by_joins};
ghost use Rattle.sibling_forest.specs.Members.{IsWholeForest};
ghost use Rattle.sibling_forest.specs.Laws.{Meet, child_number, is_sibling, ReadAlike, IsSilent, TalksAlike, box_of};

/// Machines with the words to them keep the rules of machines.
pub fn words_add_nothing<M, E>()
    ensures { (o : Operations M E) (k : Talks M) → IsMachine o → IsTalking o k → IsMachine (boxed o k) }
{}

/// A step of any machine of a sound tree leads to a sound tree. The root holds what it did, and so does each machine that
/// is still there.
pub fn settle_keeps_soundness<M, E>()
    ensures sound { (o : Operations M E) (k : Talks M) → IsMachine o → IsTalking o k → (path : Path) (t : Tree (Box M))
        → IsSound (boxed o k) t → IsSound (boxed o k) (settle o k path t) }
    ensures root_holds { (o : Operations M E) (k : Talks M) → IsMachine o → IsTalking o k → (path : Path) (t : Tree (Box M))
        → IsSound (boxed o k) t → o.holding (machine (settle o k path t)).machine ≡ o.holding (machine t).machine }
    ensures each_holds { (o : Operations M E) (k : Talks M) → IsMachine o → IsTalking o k → (at path : Path) (t a b : Tree (Box M))
        → IsSound (boxed o k) t → subtree at t ≡ Some a → subtree at (settle o k path t) ≡ Some b
        → o.holding (machine b).machine ≡ o.holding (machine a).machine }
{}

/// A step of any machine keeps the queues of each brood: one for each ordered pair of its members, of at most 8 words,
/// and no word in those to a machine that has ended. A good machine that has no ticket and no siblings has such a tree
/// alone.
pub fn settle_keeps_queues<M, E>()
    ensures step { (o : Operations M E) (k : Talks M) → IsMachine o → IsTalking o k → (path : Path) (t : Tree (Box M))
        → IsWholeForest o k t → IsWholeForest o k (settle o k path t) }
    ensures start { (o : Operations M E) (k : Talks M) → IsMachine o → IsTalking o k → (m : M) (inbox : List (List ℕ))
        → o.is_good m ≡ true → o.cloned m ≡ [] → k.siblings m ≡ 0
        → IsWholeForest o k (alone (boxed o k) (record { machine = m; inbox = inbox })) }
{}

/// A step of one machine makes its own step of the tree there, which is read alone. Of the machines that are not below
/// it no other changes, nor does the log of one; and no queue to one does but that of a sibling from the machine that made
/// the step.
pub fn steps_change_one<M, E>()
    ensures own { (o : Operations M E) (k : Talks M) (path : Path) (t a : Tree (Box M)) → subtree path t ≡ Some a
        → rests_at o k path t ≡ false
        → ((said : Talk) → k.talk (machine a).machine ≡ Some said → peer said ≢ child_number path)
        → subtree path (settle o k path t) ≡ Some (step (boxed o k) a) }
    ensures machines { (o : Operations M E) (k : Talks M) (path at : Path) (t : Tree (Box M)) → at ≢ path → is_below path at ≡ false
        → option_map (λ (u : Tree (Box M)). (machine u).machine) (subtree at (settle o k path t))
        ≡ option_map (λ (u : Tree (Box M)). (machine u).machine) (subtree at t) }
    ensures logs { (o : Operations M E) (k : Talks M) (path at : Path) (t : Tree (Box M)) → at ≢ path → is_below path at ≡ false
        → option_map log_of (subtree at (settle o k path t)) ≡ option_map log_of (subtree at t) }
    ensures queues { (o : Operations M E) (k : Talks M) (path at : Path) (from : ℕ) (t : Tree (Box M)) → at ≢ path
        → is_below path at ≡ false → (is_sibling path at ≡ true → from ≢ child_number path)
        → option_map (λ (u : Tree (Box M)). queue from (machine u).inbox) (subtree at (settle o k path t))
        ≡ option_map (λ (u : Tree (Box M)). queue from (machine u).inbox) (subtree at t) }
{}

/// A step reads only its own machine with the words to it, what is below that, and of each sibling whether it lives and the
/// words to it from this machine: trees that are alike in these rest alike there, and are alike in them after the step.
pub fn steps_read_alike<M, E>()
    ensures rest { (o : Operations M E) (k : Talks M) (path : Path) (t u : Tree (Box M)) → ReadAlike o path t u
        → rests_at o k path u ≡ rests_at o k path t }
    ensures after { (o : Operations M E) (k : Talks M) (path : Path) (t u : Tree (Box M)) → ReadAlike o path t u
        → ReadAlike o path (settle o k path t) (settle o k path u) }
{}

/// Of two different steps that can be made each can be made after the other, and their order makes no difference; or
/// the one drops the machine of the other, and leads to the same tree alone.
pub fn steps_meet<M, E>()
    ensures { (o : Operations M E) (k : Talks M) → IsMachine o → IsTalking o k → (one other : Path) (t : Tree (Box M))
        → IsSound (boxed o k) t → one ≢ other → rests_at o k one t ≡ false → rests_at o k other t ≡ false → Meet o k one other t }
{}

/// A step changes nothing exactly where no machine is at the path that can make one. A step that can be made lowers the
/// number of steps that are ahead of the machines that live, at most. A tree rests exactly where no path can
/// make a step.
pub fn steps_run_out<M, E>()
    ensures resting { (o : Operations M E) (k : Talks M) → IsMachine o → IsTalking o k → (path : Path) (t : Tree (Box M))
        → IsSound (boxed o k) t → (settle o k path t ≡ t) ↔ (rests_at o k path t ≡ true) }
    ensures fewer_ahead { (o : Operations M E) (k : Talks M) → IsMachine o → IsTalking o k → (path : Path) (t : Tree (Box M))
        → IsSound (boxed o k) t → rests_at o k path t ≡ false → ahead (boxed o k) (settle o k path t) < ahead (boxed o k) t }
    ensures none_can { (o : Operations M E) (k : Talks M) (t : Tree (Box M)) → rests o k t ≡ true
        → (path : Path) → rests_at o k path t ≡ true }
    ensures some_can { (o : Operations M E) (k : Talks M) (t : Tree (Box M)) → ((path : Path) → rests_at o k path t ≡ true)
        → rests o k t ≡ true }
{}

/// A machine that waits goes on waiting after a step of another, but for a child of the ticket that it joins, and for the
/// sibling that its talk names.
pub fn waiting_goes_on<M, E>()
    ensures { (o : Operations M E) (k : Talks M) → IsMachine o → IsTalking o k → (at path : Path) (t a : Tree (Box M))
        → IsSound (boxed o k) t → subtree at t ≡ Some a → path ≢ at
        → ((b : Branch) → path ≡ at ++ (b ∷ []) → o.call (machine a).machine ≢ Some (join b.ticket))
        → (is_sibling at path ≡ true → (said : Talk) → k.talk (machine a).machine ≡ Some said → peer said ≢ child_number path)
        → rests_at o k at t ≡ true → rests_at o k at (settle o k path t) ≡ true }
{}

/// A step of a machine that lives after it leaves waiting each sibling that its talk does not name: a send or a receive wakes
/// its sibling alone, and a step with no talk none.
pub fn talks_wake_one<M, E>()
    ensures { (o : Operations M E) (k : Talks M) (at path : Path) (t a b : Tree (Box M)) → is_sibling at path ≡ true → path ≢ at
        → subtree at t ≡ Some a → subtree path t ≡ Some b → o.ending (machine (step (boxed o k) b)).machine ≡ None
        → ((said : Talk) → k.talk (machine b).machine ≡ Some said → peer said ≢ child_number at)
        → rests_at o k at t ≡ true → rests_at o k at (settle o k path t) ≡ true }
{}

/// The finish runs each sound tree to its end, and no other function does. It is sound, its root holds what it did, and
/// its root has ended or it rests.
pub fn finish_is_the_only<M, E>()
    ensures meets { (o : Operations M E) (k : Talks M) → IsMachine o → IsTalking o k → IsFinish o k (finish o k) }
    ensures only { (o : Operations M E) (k : Talks M) → IsMachine o → IsTalking o k → (f : Tree (Box M) → Tree (Box M))
        → IsFinish o k f → (t : Tree (Box M)) → IsSound (boxed o k) t → f t ≡ finish o k t }
    ensures sound { (o : Operations M E) (k : Talks M) → IsMachine o → IsTalking o k → (t : Tree (Box M))
        → IsSound (boxed o k) t → IsSound (boxed o k) (finish o k t) }
    ensures holds { (o : Operations M E) (k : Talks M) → IsMachine o → IsTalking o k → (t : Tree (Box M))
        → IsSound (boxed o k) t → o.holding (machine (finish o k t)).machine ≡ o.holding (machine t).machine }
    ensures over { (o : Operations M E) (k : Talks M) → IsMachine o → IsTalking o k → (t : Tree (Box M))
        → IsSound (boxed o k) t → IsSome (o.ending (machine (finish o k t)).machine) ⊎ (rests o k (finish o k t) ≡ true) }
{}

/// A tree comes to the same end whichever of its machines makes a step first.
pub fn finish_stays<M, E>()
    ensures { (o : Operations M E) (k : Talks M) → IsMachine o → IsTalking o k → (path : Path) (t : Tree (Box M))
        → IsSound (boxed o k) t → finish o k (settle o k path t) ≡ finish o k t }
{}

/// Steps in any order keep a tree sound and leave the finish, and where they come to an end, since the root has ended or the
/// tree rests, the tree is the finish. So two orders that come to an end come to one tree.
pub fn orders_agree<M, E>()
    ensures sound { (o : Operations M E) (k : Talks M) → IsMachine o → IsTalking o k → (paths : List Path) (t : Tree (Box M))
        → IsSound (boxed o k) t → IsSound (boxed o k) (settle_all o k paths t) }
    ensures leaves { (o : Operations M E) (k : Talks M) → IsMachine o → IsTalking o k → (paths : List Path) (t : Tree (Box M))
        → IsSound (boxed o k) t → finish o k (settle_all o k paths t) ≡ finish o k t }
    ensures ended { (o : Operations M E) (k : Talks M) → IsMachine o → IsTalking o k → (paths : List Path) (t : Tree (Box M))
        → IsSound (boxed o k) t
        → IsSome (o.ending (machine (settle_all o k paths t)).machine) ⊎ (rests o k (settle_all o k paths t) ≡ true)
        → settle_all o k paths t ≡ finish o k t }
    ensures agree { (o : Operations M E) (k : Talks M) → IsMachine o → IsTalking o k → (one other : List Path) (t : Tree (Box M))
        → IsSound (boxed o k) t
        → IsSome (o.ending (machine (settle_all o k one t)).machine) ⊎ (rests o k (settle_all o k one t) ≡ true)
        → IsSome (o.ending (machine (settle_all o k other t)).machine) ⊎ (rests o k (settle_all o k other t) ≡ true)
        → settle_all o k one t ≡ settle_all o k other t }
{}

/// Where a tree rests while its root lives, some live machine is at a talk. So a tree in which no machine ever comes to a
/// talk comes to the end of its root.
pub fn stuck_machines_talk<M, E>()
    ensures waits { (o : Operations M E) (k : Talks M) (t : Tree (Box M)) → rests o k t ≡ true → o.ending (machine t).machine ≡ None
        → (path : Path) × (a : Tree (Box M)) × (subtree path t ≡ Some a) × (o.ending (machine a).machine ≡ None)
        × IsSome (k.talk (machine a).machine) }
    ensures silent { (o : Operations M E) (k : Talks M) → IsMachine o → IsTalking o k → (t : Tree (Box M)) → IsSound (boxed o k) t
        → IsSilent o k t → IsSome (o.ending (machine (finish o k t)).machine) }
{}

/// A tree in which no machine ever comes to a talk comes to the end to which the joins of its root bring it: one that has
/// ended stays, else its root makes its next step, and before a join each child of the ticket is run to its end by itself.
pub fn silent_trees_finish_by_joins<M, E>()
    ensures same { (o : Operations M E) (k : Talks M) → IsMachine o → IsTalking o k → (t : Tree (Box M)) → IsSound (boxed o k) t
        → IsSilent o k t → finish o k t ≡ finish_by_joins (boxed o k) t }
    ensures ended { (o : Operations M E) (k : Talks M) → IsMachine o → IsTalking o k → (t : Tree (Box M))
        → IsSome (o.ending (machine t).machine) → finish_by_joins (boxed o k) t ≡ t }
    ensures steps { (o : Operations M E) (k : Talks M) → IsMachine o → IsTalking o k → (t : Tree (Box M)) → IsSound (boxed o k) t
        → IsSilent o k t → finish_by_joins (boxed o k) t ≡ finish_by_joins (boxed o k) (step (boxed o k) t) }
    ensures joins { (o : Operations M E) (k : Talks M) → IsMachine o → IsTalking o k → (ticket : ℕ) (t : Tree (Box M)) → IsSound (boxed o k) t
        → IsSilent o k t
        → finish_by_joins (boxed o k) t ≡ finish_by_joins (boxed o k) (step (boxed o k) (with_brood (finish_by_joins (boxed o k)) ticket t)) }
{}

/// Machines with more inside that talk alike have the steps and the finish of what is seen of them.
pub fn projection_commutes<M, N, E>()
    ensures steps { (o : Operations M E) (p : Operations N E) (k : Talks M) (l : Talks N) (f : M → N) → Projects o p f
        → TalksAlike k l f → (path : Path) (t : Tree (Box M))
        → settle p l path (map_tree (box_of f) t) ≡ map_tree (box_of f) (settle o k path t) }
    ensures alike { (o : Operations M E) (p : Operations N E) (k : Talks M) (l : Talks N) (f : M → N) → Projects o p f
        → TalksAlike k l f → (path : Path) (t : Tree (Box M))
        → rests_at p l path (map_tree (box_of f) t) ≡ rests_at o k path t }
    ensures ends { (o : Operations M E) (p : Operations N E) (k : Talks M) (l : Talks N) (f : M → N) → Projects o p f
        → TalksAlike k l f → (t : Tree (Box M))
        → finish p l (map_tree (box_of f) t) ≡ map_tree (box_of f) (finish o k t) }
{}
