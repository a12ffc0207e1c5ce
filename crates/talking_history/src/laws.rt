//! Laws of the definitions, each the contract of a function that does nothing. They hold for all machines that keep
//! the rules.

ghost use Rattle.std.specs.Prelude.{◌≡◌, ◌≢◌, ◌⊎◌, ◌<◌, ℕ, suc, true, false, List, [], ◌∷◌, ◌++◌, replicate, Some, None, IsSome, IfSome, option_map, All};
ghost use Rattle.forest_tree.specs.Operations.{join, Operations, IsMachine};
ghost use Rattle.forest_tree.specs.Tree.{Tree, node, Broods, Log, machine, Branch, Path, subtree, at_path};
ghost use Rattle.forest_tree.specs.Step.{has_ended, settled, step, advanced, steps};
ghost use Rattle.forest_tree.specs.Sound.{IsSound};
ghost use Rattle.forest_tree.specs.Projection.{map_tree, Projects};
ghost use Rattle.sibling_forest.specs.Talk.{Talk, peer, Talks, Box, after, boxed, IsTalking};
ghost use Rattle.sibling_forest.specs.Settle.{settle, settle_all, rests_at};
ghost use Rattle.sibling_forest.specs.Finish.{rests, finish};
ghost use Rattle.sibling_forest.specs.Members.{IsWholeForest};
ghost use Rattle.sibling_forest.specs.Report.{Told, report};
ghost use Rattle.sibling_forest.specs.Laws.{child_number, is_sibling, TalksAlike, box_of};
ghost use Rattle.talking_history.specs.Places.{Place, home, out, Spot, spots, placed, bare, spot_talks, boxes, may_run};
ghost use Rattle.talking_history.specs.Seen.{spot_seen, seen};
ghost use Rattle.talking_history.specs.Histories.{Seat, Holding, holding, Entry, History, Record, record_of, replay, IsLegal, IsComplete};
ghost use Rattle.talking_history.specs.World.{World, IsWhole, is_resting, is_ready, world_of};
ghost use Rattle.talking_history.specs.Rows.{How, gave, Row, stuck, idle, took, spent, back, made, run_at, came_back, Spends, IsGoing, Allows, does};
ghost use Rattle.talking_history.specs.Changes.{told};
ghost use Rattle.talking_history.specs.Weight.{weight};

/// Machines at their places talk as they do without, and keep the rules of machines that talk.
pub fn places_add_nothing<M, E>()
    ensures projects { (o : Operations M E) → Projects (spots o) o (λ s. s.machine) }
    ensures alike { (k : Talks M) → TalksAlike (spot_talks k) k (λ s. s.machine) }
    ensures talking { (o : Operations M E) (k : Talks M) → IsTalking o k → IsTalking (spots o) (spot_talks k) }
    ensures machines { (o : Operations M E) (k : Talks M) → IsMachine o → IsTalking o k → IsMachine (boxes o k) }
{}

/// A step of a machine is a change at its path, and then a word that it sends comes to the sibling. Steps of a machine's
/// own are changes at its path alone.
pub fn steps_are_changes<M, E>()
    ensures step { (o : Operations M E) (k : Talks M) (path : Path) (t a : Tree (Box M)) → IsSound (boxed o k) t → subtree path t ≡ Some a
        → rests_at o k path t ≡ false
        → settle o k path t ≡ told o k (k.talk (machine a).machine) (k.word (machine a).machine) path (at_path (step (boxed o k)) path t) }
    ensures own { (o : Operations M E) (k : Talks M) → IsMachine o → IsTalking o k → (n : ℕ) (path : Path) (t a : Tree (Box M))
        → IsSound (boxed o k) t → subtree path t ≡ Some a → may_run o k n (machine a).machine ≡ true
        → settle_all o k (replicate n path) t ≡ at_path (steps (boxed o k) n) path t }
{}

/// A live machine's own steps change itself, and end its broods and the words to it where they end it.
pub fn own_steps<M, E>()
    ensures { (o : Operations M E) (k : Talks M) (n : ℕ) (b : Box M) (broods : Broods (Box M)) (log : Log (Box M))
        → o.ending b.machine ≡ None → may_run o k n b.machine ≡ true
        → steps (boxed o k) n (node b broods log) ≡ settled (boxed o k) (after o k (advanced o n b.machine) b.inbox) broods log }
{}

/// A machine that comes back with its own steps alone is a change at its name. With a call or a talk it has made one step
/// more, and a word that it sends comes to its sibling.
pub fn rows_are_changes<M, E>()
    ensures own { (o : Operations M E) (k : Talks M) → IsMachine o → IsTalking o k → (how : How) (name : Path) (n : ℕ)
        (t a : Tree (Box (Spot M))) → IsSound (boxes o k) t → subtree name t ≡ Some a
        → Spends o k how n (is_resting o k name (run_at o k name n t)) a → made how n ≡ n
        → came_back o k how name n t ≡ at_path (λ u. placed (back how) (steps (boxes o k) n u)) name t }
    ensures call { (o : Operations M E) (k : Talks M) → IsMachine o → IsTalking o k → (how : How) (name : Path) (n : ℕ)
        (t a : Tree (Box (Spot M))) → IsSound (boxes o k) t → subtree name t ≡ Some a
        → Spends o k how n (is_resting o k name (run_at o k name n t)) a → made how n ≡ suc n
        → came_back o k how name n t
        ≡ at_path (placed home) name (told (spots o) (spot_talks k) (k.talk (advanced o n (machine a).machine.machine))
        (k.word (advanced o n (machine a).machine.machine)) name (at_path (steps (boxes o k) (suc n)) name t)) }
{}

/// Each row leads from a sound forest to a sound one, with the queues that it is to have, which comes to the same end.
pub fn rows_keep_the_end<M, E, R>()
    ensures sound { (o : Operations M E) (k : Talks M) → IsMachine o → IsTalking o k → (row : Row R) (w : World M R)
        → IsSound (boxes o k) w.tree → Allows o k row w → IsSound (boxes o k) (does o k row w).tree }
    ensures queues { (o : Operations M E) (k : Talks M) → IsMachine o → IsTalking o k → (row : Row R) (w : World M R)
        → IsWholeForest (spots o) (spot_talks k) w.tree → Allows o k row w
        → IsWholeForest (spots o) (spot_talks k) (does o k row w).tree }
    ensures end { (o : Operations M E) (k : Talks M) → IsMachine o → IsTalking o k → (row : Row R) (w : World M R)
        → IsSound (boxes o k) w.tree → Allows o k row w → finish o k (bare (does o k row w).tree) ≡ finish o k (bare w.tree) }
    ensures start { (o : Operations M E) (k : Talks M) → IsMachine o → IsTalking o k → (m : M) → o.is_good m ≡ true
        → o.cloned m ≡ [] → k.siblings m ≡ 0 → IsWholeForest (spots o) (spot_talks k) (world_of o k {R = R} m).tree }
{}

/// Where the root has ended, the forest is its own end.
pub fn over_is_the_end<M, E>()
    ensures { (o : Operations M E) (k : Talks M) → IsMachine o → IsTalking o k → (t : Tree (Box (Spot M)))
        → has_ended (boxes o k) t ≡ true → finish o k (bare t) ≡ bare t }
{}

/// A world is stuck only where no machine can make a step, and so the forest is its own end. No later entry changes it.
pub fn stuck_is_the_end<M, E, R>()
    ensures rests { (o : Operations M E) (k : Talks M) (w : World M R) → Allows o k stuck w → rests o k (bare w.tree) ≡ true }
    ensures end { (o : Operations M E) (k : Talks M) → IsMachine o → IsTalking o k → (w : World M R) → Allows o k stuck w
        → finish o k (bare w.tree) ≡ bare w.tree }
    ensures stays { (o : Operations M E) (k : Talks M) (history : History R) (r : Record M R) → Allows o k stuck r.world
        → IsLegal o k history r → (replay o k history r).world.tree ≡ r.world.tree }
{}

/// Where no machine is on lease, some machine is ready or none can make a step. A world that goes on always has an answer:
/// a machine is ready, or it is stuck, or it is idle.
pub fn some_machine_is_ready<M, E, R>()
    ensures ready { (o : Operations M E) (k : Talks M) (t : Tree (Box (Spot M))) → IsWhole t
        → ((name : Path) × (is_ready o k name t ≡ true)) ⊎ (rests o k (bare t) ≡ true) }
    ensures answer { (o : Operations M E) (k : Talks M) (w : World M R) → IsGoing o k w
        → ((name : Path) × Allows o k (took name) w) ⊎ ((Allows o k stuck w) ⊎ (Allows o k idle w)) }
{}

/// A machine that rests goes on resting while another makes steps, but for a child of the ticket that it joins, and for the
/// sibling that its talk names; and wherever any machine is put.
pub fn waiting_goes_on<M, E>()
    ensures steps { (o : Operations M E) (k : Talks M) → IsMachine o → IsTalking o k → (name other : Path) (n : ℕ) (t a : Tree (Box (Spot M)))
        → IsSound (boxes o k) t → subtree name t ≡ Some a → other ≢ name
        → ((b : Branch) → other ≡ name ++ (b ∷ []) → o.call (machine a).machine.machine ≢ Some (join b.ticket))
        → (is_sibling name other ≡ true → (said : Talk) → k.talk (machine a).machine.machine ≡ Some said → peer said ≢ child_number other)
        → is_resting o k name t ≡ true → is_resting o k name (run_at o k other n t) ≡ true }
    ensures places { (o : Operations M E) (k : Talks M) (place : Place) (name other : Path) (t : Tree (Box (Spot M)))
        → is_resting o k name (at_path (placed place) other t) ≡ is_resting o k name t }
{}

/// A machine that is taken and comes back leaves no machine on lease, and less ahead where it made a step or came to wait.
pub fn turns_run_out<M, E, R>()
    ensures start { (o : Operations M E) (k : Talks M) (m : M) → IsWhole (world_of o k {R = R} m).tree }
    ensures whole { (o : Operations M E) (k : Talks M) → IsMachine o → IsTalking o k → (how : How) (name : Path) (n : ℕ) (w : World M R)
        → IsSound (boxes o k) w.tree → IsWhole w.tree → Allows o k (spent how name n) (does o k (took name) w)
        → IsWhole (does o k (spent how name n) (does o k (took name) w)).tree }
    ensures less { (o : Operations M E) (k : Talks M) → IsMachine o → IsTalking o k → (how : How) (name : Path) (n : ℕ) (w : World M R)
        → IsSound (boxes o k) w.tree → Allows o k (took name) w → how ≢ gave → Allows o k (spent how name n) (does o k (took name) w)
        → weight o k (does o k (spent how name n) (does o k (took name) w)).tree < weight o k w.tree }
{}

/// A row of machines with more inside is that row of what is seen of them: it may come there too, and does there what is
/// seen of what it does.
pub fn rows_project<M, N, E, R>()
    ensures allowed { (o : Operations M E) (p : Operations N E) (k : Talks M) (l : Talks N) (f : M → N) → Projects o p f → TalksAlike k l f
        → (row : Row R) (w : World M R) → Allows o k row w → Allows p l row (seen f w) }
    ensures after { (o : Operations M E) (p : Operations N E) (k : Talks M) (l : Talks N) (f : M → N) → Projects o p f → TalksAlike k l f
        → (row : Row R) (w : World M R) → seen f (does o k row w) ≡ does p l row (seen f w) }
    ensures there { (f : M → N) (name : Path) (w : World M R)
        → subtree name (seen f w).tree ≡ option_map (map_tree (box_of (spot_seen f))) (subtree name w.tree) }
    ensures start { (o : Operations M E) (p : Operations N E) (k : Talks M) (l : Talks N) (f : M → N) (m : M)
        → seen f (world_of o k {R = R} m) ≡ world_of p l {R = R} (f m) }
{}

/// A history and then more of it are one history. What is on record after it is what the later part makes of the record
/// after the earlier, and it is legal where both parts are, each from where it begins.
pub fn histories_go_on<M, E, R>()
    ensures after { (o : Operations M E) (k : Talks M) (before more : History R) (r : Record M R)
        → replay o k (before ++ more) r ≡ replay o k more (replay o k before r) }
    ensures apart { (o : Operations M E) (k : Talks M) (before more : History R) (r : Record M R) → IsLegal o k (before ++ more) r
        → IsLegal o k before r × IsLegal o k more (replay o k before r) }
    ensures together { (o : Operations M E) (k : Talks M) (before more : History R) (r : Record M R) → IsLegal o k before r
        → IsLegal o k more (replay o k before r) → IsLegal o k (before ++ more) r }
{}

/// A legal history leads from a sound forest to a sound one, with the queues that it is to have, which comes to the same
/// end.
pub fn histories_keep_the_end<M, E, R>()
    ensures sound { (o : Operations M E) (k : Talks M) → IsMachine o → IsTalking o k → (history : History R) (w : World M R)
        → IsSound (boxes o k) w.tree → IsLegal o k history (record_of w) → IsSound (boxes o k) (replay o k history (record_of w)).world.tree }
    ensures queues { (o : Operations M E) (k : Talks M) → IsMachine o → IsTalking o k → (history : History R) (w : World M R)
        → IsWholeForest (spots o) (spot_talks k) w.tree → IsLegal o k history (record_of w)
        → IsWholeForest (spots o) (spot_talks k) (replay o k history (record_of w)).world.tree }
    ensures end { (o : Operations M E) (k : Talks M) → IsMachine o → IsTalking o k → (history : History R) (w : World M R)
        → IsSound (boxes o k) w.tree → IsLegal o k history (record_of w)
        → finish o k (bare (replay o k history (record_of w)).world.tree) ≡ finish o k (bare w.tree) }
{}

/// Complete histories of one world come to one forest, whatever their seats and the order of their entries: each is legal, and
/// at its end the root has ended or the world is stuck. So what is reported of the forest is one text.
pub fn histories_agree<M, E, R>()
    ensures forest { (o : Operations M E) (k : Talks M) → IsMachine o → IsTalking o k → (one other : History R) (w : World M R)
        → IsSound (boxes o k) w.tree → IsComplete o k one w → IsComplete o k other w
        → bare (replay o k one (record_of w)).world.tree ≡ bare (replay o k other (record_of w)).world.tree }
    ensures report { (o : Operations M E) (k : Talks M) → IsMachine o → IsTalking o k → (one other : History R) (w : World M R)
        → IsSound (boxes o k) w.tree → IsComplete o k one w → IsComplete o k other w → (shown : Told M) (said : E → List ℕ)
        → report o shown said (bare (replay o k one (record_of w)).world.tree) ≡ report o shown said (bare (replay o k other (record_of w)).world.tree) }
{}

/// A machine that a seat holds is out, and as that seat found it whatever words have come to it, or it is no more in the
/// tree.
pub fn leases_stay_as_taken<M, E, R>()
    ensures { (o : Operations M E) (k : Talks M) → IsMachine o → IsTalking o k → (history : History R) (w : World M R)
        → IsSound (boxes o k) w.tree → IsLegal o k history (record_of w) → (name : Path) (x : Holding M)
        → holding name (replay o k history (record_of w)).holdings ≡ Some x
        → IfSome (subtree name (replay o k history (record_of w)).world.tree)
        (λ t. ((machine t).machine.place ≡ out) × ((machine t).machine.machine ≡ x.found)) }
{}

/// What a seat holds, it holds still after entries of others.
pub fn others_keep_what_is_held<M, E, R>()
    ensures { (o : Operations M E) (k : Talks M) → IsMachine o → IsTalking o k → (seat : Seat) (before between : History R) (w : World M R)
        → IsSound (boxes o k) w.tree → IsLegal o k (before ++ between) (record_of w) → All (λ (e : Seat × Entry R). e.0 ≢ seat) between
        → (name : Path) (x : Holding M) → holding name (replay o k before (record_of w)).holdings ≡ Some x → x.seat ≡ seat
        → holding name (replay o k (before ++ between) (record_of w)).holdings ≡ Some x }
{}

/// A machine that was there and has left the tree does not come back, and no other has its name: neither by steps nor by entries.
pub fn names_do_not_come_back<M, E, R>()
    ensures steps { (o : Operations M E) (k : Talks M) → IsMachine o → IsTalking o k → (name : Path) (paths more : List Path) (t : Tree (Box M))
        → IsSound (boxed o k) t → IsSome (subtree name t) → subtree name (settle_all o k paths t) ≡ None
        → subtree name (settle_all o k more (settle_all o k paths t)) ≡ None }
    ensures entries { (o : Operations M E) (k : Talks M) → IsMachine o → IsTalking o k → (name : Path) (before between more : History R) (w : World M R)
        → IsSound (boxes o k) w.tree → IsLegal o k (before ++ (between ++ more)) (record_of w)
        → IsSome (subtree name (replay o k before (record_of w)).world.tree)
        → subtree name (replay o k (before ++ between) (record_of w)).world.tree ≡ None
        → subtree name (replay o k (before ++ (between ++ more)) (record_of w)).world.tree ≡ None }
{}
