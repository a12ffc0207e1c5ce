//! Laws of the definitions, each the contract of a function that does nothing. They hold for all
//! machines that keep the rules.

ghost use Rattle.std.specs.Prelude.{◌≡◌, ◌↔◌, ◌+◌, ◌<◌, ◌≤◌, ◌==◌, ℕ, suc, true, false, [], ◌∷◌, ◌++◌, length, slice_get, Some, None, option_and_then, option_map};
ghost use Rattle.forest_tree.specs.Operations.{clone, join, kill, Operations, IsMachine};
ghost use Rattle.forest_tree.specs.Tree.{Tree, node, Trees, Broods, brood, Log, joined, killed, machine, broods_of, log_of, size, child_at, at_child, brood_of, without, Branch, Path, subtree, beyond, is_below, at_path, at_beyond};
ghost use Rattle.forest_tree.specs.Step.{has_ended, have_ended, endings, alone, children, settled, waits, step, rests};
ghost use Rattle.forest_tree.specs.Sound.{IsSound};
ghost use Rattle.forest_tree.specs.Ahead.{ahead};
ghost use Rattle.forest_tree.specs.Children.{life, living};
ghost use Rattle.forest_tree.specs.Projection.{map_tree, Projects};

/// A good machine that has cloned nothing is a sound tree alone.
pub fn alone_is_sound<M, E>()
    ensures { (o : Operations M E) (m : M) → o.is_good m ≡ true → o.cloned m ≡ [] → IsSound o (alone o m) }
{}

/// A step of the root of a sound tree leads to a sound tree. The root holds what it did, and so does each machine that is
/// still there, which stands as it did.
pub fn step_keeps_soundness<M, E>()
    ensures sound { (o : Operations M E) → IsMachine o → (t : Tree M) → IsSound o t → IsSound o (step o t) }
    ensures each_holds { (o : Operations M E) → IsMachine o → (at : Path) (t a b : Tree M) → IsSound o t
        → subtree at t ≡ Some a → subtree at (step o t) ≡ Some b → o.holding (machine b) ≡ o.holding (machine a) }
    ensures below_stays { (o : Operations M E) → IsMachine o → (b : Branch) (at : Path) (t a c : Tree M) → IsSound o t
        → subtree (b ∷ at) t ≡ Some a → subtree (b ∷ at) (step o t) ≡ Some c → c ≡ a }
{}

/// The trees below a sound tree are sound, and a path may be gone in parts.
pub fn subtrees_are_sound<M, E>()
    ensures sound { (o : Operations M E) (at : Path) (t a : Tree M) → IsSound o t → subtree at t ≡ Some a → IsSound o a }
    ensures in_parts { (way path : Path) (t : Tree M) → subtree (way ++ path) t ≡ option_and_then (subtree path) (subtree way t) }
{}

/// A change at a path makes the tree there another, and those below it with it. The trees on the way to
/// it keep their machines and their logs, and no other changes.
pub fn one_place_changes<M>()
    ensures within { (f : Tree M → Tree M) (path rest : Path) (t : Tree M)
        → subtree (path ++ rest) (at_path f path t) ≡ option_and_then (λ a. subtree rest (f a)) (subtree path t) }
    ensures elsewhere { (f : Tree M → Tree M) (path at : Path) (t : Tree M) → is_below path at ≡ false
        → subtree at (at_path f path t) ≡ option_map (at_beyond f (beyond at path)) (subtree at t) }
    ensures machine { (f : Tree M → Tree M) (b : Branch) (path : Path) (t : Tree M) → machine (at_path f (b ∷ path) t) ≡ machine t }
    ensures log { (f : Tree M → Tree M) (b : Branch) (path : Path) (t : Tree M) → log_of (at_path f (b ∷ path) t) ≡ log_of t }
    ensures twice { (f g : Tree M → Tree M) (path : Path) (t : Tree M) → at_path g path (at_path f path t) ≡ at_path (λ a. g (f a)) path t }
{}

/// A step changes nothing exactly where the root has ended or waits.
pub fn step_rests<M, E>()
    ensures { (o : Operations M E) → IsMachine o → (t : Tree M) → IsSound o t → (step o t ≡ t) ↔ (rests o (Some t) ≡ true) }
{}

/// Where the root lives, some machine lives and does not wait for its children. A step of such a machine is one less that is
/// left to it, and lowers the number of steps that are ahead of its tree.
pub fn steps_run_out<M, E>()
    ensures some_moves { (o : Operations M E) (t : Tree M) → o.ending (machine t) ≡ None → (path : Path) × (rests o (subtree path t) ≡ false) }
    ensures counts { (o : Operations M E) → IsMachine o → (t : Tree M) → IsSound o t → rests o (Some t) ≡ false
        → o.left (machine t) ≡ suc (o.left (machine (step o t))) }
    ensures fewer_ahead { (o : Operations M E) → IsMachine o → (t : Tree M) → IsSound o t → rests o (Some t) ≡ false
        → ahead o (step o t) < ahead o t }
{}

/// A clone bears the children of its ticket, child k at place k, and a machine's own step changes itself
/// alone. After each step a machine that has ended drops its broods.
pub fn clone_bears_children<M, E>()
    ensures own { (o : Operations M E) (m : M) (broods : Broods M) (log : Log M) → o.ending m ≡ None → o.call m ≡ None
        → step o (node m broods log) ≡ settled o (o.advance m) broods log }
    ensures clone { (o : Operations M E) (m : M) (broods : Broods M) (log : Log M) (ticket : ℕ) → o.ending m ≡ None
        → o.call m ≡ Some (clone ticket)
        → step o (node m broods log) ≡ settled o (o.forked m) (brood ticket (children o m ticket) broods) log }
    ensures as_many { (o : Operations M E) (m : M) (ticket : ℕ) → size (children o m ticket) ≡ (o.grant m ticket).children }
    ensures in_order { (o : Operations M E) (m : M) (ticket k : ℕ) → 1 ≤ k → k ≤ (o.grant m ticket).children
        → child_at k (children o m ticket) ≡ Some (alone o (o.child m k)) }
{}

/// A join that does not wait takes the children of its ticket, which have all ended, and stores the
/// endings of just these, in order.
pub fn join_stores_endings<M, E>()
    ensures takes { (o : Operations M E) (m : M) (broods : Broods M) (log : Log M) (ticket : ℕ) → o.ending m ≡ None
        → o.call m ≡ Some (join ticket) → waits o (node m broods log) ≡ false
        → step o (node m broods log)
        ≡ settled o (o.after_join m (endings o (brood_of ticket broods))) (without ticket broods) (joined log ticket (brood_of ticket broods)) }
    ensures ended { (o : Operations M E) (m : M) (broods : Broods M) (log : Log M) (ticket : ℕ) → o.call m ≡ Some (join ticket)
        → waits o (node m broods log) ≡ false → have_ended o (brood_of ticket broods) ≡ true }
    ensures as_many { (o : Operations M E) (trees : Trees M) → have_ended o trees ≡ true → length (endings o trees) ≡ size trees }
    ensures in_order { (o : Operations M E) (trees : Trees M) → have_ended o trees ≡ true → (i : ℕ) (child : Tree M)
        → child_at (suc i) trees ≡ Some child → slice_get (endings o trees) i ≡ o.ending (machine child) }
{}

/// A kill drops the children of its ticket, and logs how many they were.
pub fn kill_drops_children<M, E>()
    ensures { (o : Operations M E) → IsMachine o → (m : M) (broods : Broods M) (log : Log M) (ticket : ℕ) → IsSound o (node m broods log)
        → o.ending m ≡ None → o.call m ≡ Some (kill ticket)
        → step o (node m broods log)
        ≡ settled o (o.after_kill m) (without ticket broods) (killed log ticket (size (brood_of ticket broods))) }
{}

/// Whether a machine waits for its children changes only with the end of a child.
pub fn children_end_waits<M, E>()
    ensures none_lives { (o : Operations M E) (trees : Trees M) → have_ended o trees ≡ (living o trees == 0) }
    ensures one_child { (o : Operations M E) (f : Tree M → Tree M) (k : ℕ) (trees : Trees M) (a : Tree M) → child_at k trees ≡ Some a
        → living o (at_child f k trees) + life o a ≡ living o trees + life o (f a) }
    ensures no_child { (o : Operations M E) (f : Tree M → Tree M) (k : ℕ) (trees : Trees M) → child_at k trees ≡ None → at_child f k trees ≡ trees }
    ensures deep { (o : Operations M E) (f : Tree M → Tree M) (b c : Branch) (path : Path) (t : Tree M) → waits o (at_path f (b ∷ (c ∷ path)) t) ≡ waits o t }
    ensures child { (o : Operations M E) (f : Tree M → Tree M) (b : Branch) (t a : Tree M) → child_at b.child (brood_of b.ticket (broods_of t)) ≡ Some a
        → has_ended o (f a) ≡ has_ended o a → waits o (at_path f (b ∷ []) t) ≡ waits o t }
{}

/// Machines with more inside keep the rules where what is left of them, seen as machines with less, does.
/// A step is the same whether the tree is seen so before or after, and so is a change at a path.
pub fn projection_commutes<M, N, E>()
    ensures keeps { (o : Operations M E) (p : Operations N E) (f : M → N) → Projects o p f → IsMachine p → IsMachine o }
    ensures subtree { (f : M → N) (path : Path) (t : Tree M) → subtree path (map_tree f t) ≡ option_map (map_tree f) (subtree path t) }
    ensures step { (o : Operations M E) (p : Operations N E) (f : M → N) → Projects o p f → (t : Tree M)
        → step p (map_tree f t) ≡ map_tree f (step o t) }
    ensures change { (f : M → N) (g : Tree M → Tree M) (h : Tree N → Tree N) → ((t : Tree M) → map_tree f (g t) ≡ h (map_tree f t))
        → (path : Path) (t : Tree M) → map_tree f (at_path g path t) ≡ at_path h path (map_tree f t) }
{}
