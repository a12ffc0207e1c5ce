//! Laws of the definitions, each the contract of a function that does nothing.

ghost use Rattle.std.specs.Prelude.{◌≡◌, ◌≢◌, ◌+◌, ◌<◌, ◌≤◌, ◌++◌, ◌∷◌, ℕ, suc, true};
ghost use Rattle.std.specs.Prelude.{false, List, [], Some, None, IsSome, option_map, slice_get, length, map, Ok, ◌^◌};
ghost use Rattle.std.specs.Char.{to_ascii_lowercase};
ghost use Rattle.std.specs.Fmt.{decimal};
ghost use Rattle.forest_tree.specs.Operations.{join};
ghost use Rattle.forest_tree.specs.Tree.{Tree, node, Broods, Log, Branch, Path, machine, log_of, size, child_at, brood_of, subtree, beyond, is_below};
ghost use Rattle.forest_tree.specs.Step.{waits};
ghost use Rattle.forest_tree.specs.Sound.{IsSound};
ghost use Rattle.sibling_forest.specs.Talk.{Box, boxed, queue};
ghost use Rattle.sibling_forest.specs.Settle.{settle, settle_all};
ghost use Rattle.sibling_forest.specs.Laws.{child_number, is_sibling};
ghost use Rattle.sibling_forest.specs.Members.{IsWholeForest};
ghost use Rattle.forest_model.specs.Machine.{Machine};
ghost use Rattle.forest_model.specs.Forest.{machines, port_of, finish, talks};
ghost use Rattle.forest_model.specs.Paged.{Paged, paged_machines, paged_talks, stalled_at};
ghost use Rattle.machine_names.specs.Name.{name_text};
ghost use Rattle.drive_script.specs.Script.{ScriptLine, address_of, ask, give, line_of, name_of, number_within, push, script, step};
ghost use Rattle.drive_script.specs.declared.answer.Answer.TheVariants.{Ran};
ghost use Rattle.drive_script.specs.declared.answer.Why.TheVariants.{MayGoOn};
ghost use Rattle.drive_script.specs.Replies.{Siblings, siblings_of};
ghost use Rattle.drive_script.specs.Steps.{Family, after_steps, stops, Drops};
ghost use Rattle.drive_script.specs.Story.{events, own_steps, story, Bears, born};
ghost use Rattle.drive_script.specs.Written.{AreForks, AreInForm, IsTextOf, script_text};
ghost use Rattle.drive_script.specs.Told.{Driven, made_at, whole, name_in, steps_of, after_line, after_script, steps_of_script, answer, word_text};

/// Numbers, names and addresses have one text each, but that the digits of an address may be of either case.
pub fn fields_have_one_text()
    ensures number { (least most : ℕ) (text : List ℕ) (n : ℕ) → number_within least most text ≡ Some n
        → (text ≡ decimal n) × (n < 2 ^ 32) × (least ≤ n) × (n ≤ most) }
    ensures decimal { (least most n : ℕ) → least ≤ n → n ≤ most → n < 2 ^ 32 → number_within least most (decimal n) ≡ Some n }
    ensures name { (text : List ℕ) (path : Path) → name_of text ≡ Some path → (text ≡ name_text path) × AreForks path }
    ensures named { (path : Path) → AreForks path → name_of (name_text path) ≡ Some path }
    ensures address { (text : List ℕ) (n : ℕ) → address_of text ≡ Some n → (map to_ascii_lowercase text ≡ word_text n) × (n < 2 ^ 32) }
    ensures word { (n : ℕ) → n < 2 ^ 32 → address_of (word_text n) ≡ Some n }
{}

/// Each list of lines within the limits has a text that is read as just these lines. All that is read is within
/// the limits, and a line is read from its one text alone.
pub fn scripts_are_read_as_written()
    ensures written { (lines : List ScriptLine) → AreInForm lines → script (script_text lines) ≡ Ok lines }
    ensures in_form { (text : List ℕ) (lines : List ScriptLine) → script text ≡ Ok lines → AreInForm lines }
    ensures line { (text : List ℕ) (line : ScriptLine) → line_of text ≡ Ok line → IsTextOf text line }
{}

/// A line about one machine changes no other. What is not below it keeps its machine and its log, and the words to it but
/// those that the machine sends to a sibling. What it is not below either stays as it is, unless it is a sibling. What is
/// below it and still there is as it was. What is not there any more was dropped by a step of the line: a kill of its
/// ticket or an end, or a join that took it with all children of the ticket, which had ended. And what was sent to others
/// than the machine and its siblings stays.
pub fn lines_change_one_machine()
    ensures others { (line : ScriptLine) (at : Path) (s : Driven) → at ≢ name_in line → is_below (name_in line) at ≡ false
        → option_map (λ (a : Family). (machine a).machine) (subtree at (after_line line s).tree)
        ≡ option_map (λ (a : Family). (machine a).machine) (subtree at s.tree) }
    ensures words { (line : ScriptLine) (at : Path) (from : ℕ) (s : Driven) → at ≢ name_in line → is_below (name_in line) at ≡ false
        → (is_sibling (name_in line) at ≡ true → from ≢ child_number (name_in line))
        → option_map (λ (a : Family). queue from (machine a).inbox) (subtree at (after_line line s).tree)
        ≡ option_map (λ (a : Family). queue from (machine a).inbox) (subtree at s.tree) }
    ensures logs { (line : ScriptLine) (at : Path) (s : Driven) → at ≢ name_in line → is_below (name_in line) at ≡ false
        → option_map log_of (subtree at (after_line line s).tree) ≡ option_map log_of (subtree at s.tree) }
    ensures apart { (line : ScriptLine) (at : Path) (s : Driven) → is_below (name_in line) at ≡ false → beyond at (name_in line) ≡ None
        → is_sibling (name_in line) at ≡ false → subtree at (after_line line s).tree ≡ subtree at s.tree }
    ensures below { (line : ScriptLine) (at : Path) (s : Driven) (a b : Family) → IsSound (boxed paged_machines paged_talks) s.tree
        → is_below (name_in line) at ≡ true
        → subtree at s.tree ≡ Some a → subtree at (after_line line s).tree ≡ Some b → b ≡ a }
    ensures gone { (line : ScriptLine) (b : Branch) (rest : Path) (s : Driven) (a : Family) → IsSound (boxed paged_machines paged_talks) s.tree
        → subtree (name_in line ++ (b ∷ rest)) s.tree ≡ Some a → subtree (name_in line ++ (b ∷ rest)) (after_line line s).tree ≡ None
        → (n : ℕ) × (n < length (steps_of line s.tree)) × (x : Family)
        × (subtree (name_in line) (after_steps paged_machines paged_talks n (name_in line) s.tree) ≡ Some x)
        × Drops (boxed paged_machines paged_talks) b.ticket x }
    ensures lists { (line : ScriptLine) (to : Siblings) (s : Driven) → siblings_of (name_in line) ≢ Some to → (after_line line s).sent to ≡ s.sent to }
{}

/// A line of steps is one line of the first of them and then one of the others.
pub fn steps_in_pieces()
    ensures made { (first more : ℕ) (path : Path) (s : Driven)
        → made_at (first + more) path s.tree ≡ made_at first path s.tree + made_at more path (after_line (step path first) s).tree }
    ensures after { (first more : ℕ) (path : Path) (s : Driven)
        → after_line (step path (first + more)) s ≡ after_line (step path more) (after_line (step path first) s) }
{}

/// A machine makes at most as many steps as a line asks for. Before each of them it lives, waits for no child and no
/// sibling, and touches no page that is not here, and it makes fewer only where one of these then fails: `ok` is answered
/// after all of them. It has counted just these.
pub fn steps_stop_short()
    ensures at_most { (most : ℕ) (path : Path) (t : Family) → made_at most path t ≤ most }
    ensures each { (most n : ℕ) (path : Path) (t : Family) → n < made_at most path t
        → stops paged_machines paged_talks stalled_at path (after_steps paged_machines paged_talks n path t) ≡ false }
    ensures short { (most : ℕ) (path : Path) (s : Driven) → made_at most path s.tree < most
        → stops paged_machines paged_talks stalled_at path (after_line (step path most) s).tree ≡ true }
    ensures counted { (most : ℕ) (path : Path) (s : Driven) (a b : Family) → IsSound (boxed paged_machines paged_talks) s.tree → subtree path s.tree ≡ Some a
        → subtree path (after_line (step path most) s).tree ≡ Some b
        → paged_machines.left (machine a).machine ≡ made_at most path s.tree + paged_machines.left (machine b).machine }
    ensures ok { (most made : ℕ) (path : Path) (s : Driven) → answer (step path most) s ≡ Ran made MayGoOn → made ≡ most }
{}

/// Where a machine stands at a join that does not wait, and the pages that it touches are here, a line of one step
/// makes the join: what it stores is how the children of the ticket ended, in their order, and all of them had ended.
pub fn joins_store_endings()
    ensures { (path : Path) (s : Driven) (p : Box Paged) (broods : Broods (Box Paged)) (log : Log (Box Paged)) (ticket : ℕ)
        → subtree path s.tree ≡ Some (node p broods log) → p.machine.machine.ending ≡ None → stalled_at p.machine ≡ None
        → machines.call p.machine.machine ≡ Some (join ticket)
        → waits (boxed paged_machines paged_talks) (node p broods log) ≡ false
        → (x : Family) × (subtree path (after_line (step path 1) s).tree ≡ Some x)
        × (length (port_of (machine x).machine.machine).joined ≡ size (brood_of ticket broods))
        × ((i : ℕ) (child : Family) → child_at (suc i) (brood_of ticket broods) ≡ Some child
        → (slice_get (port_of (machine x).machine.machine).joined i ≡ (machine child).machine.machine.ending) × IsSome (machine child).machine.machine.ending) }
{}

/// Asking, pushing and giving change no byte that a machine reads, nor anything else of the machines: of a forest
/// a reply changes at most what is known of the pages of the machine that it comes to.
pub fn replies_change_no_machine()
    ensures ask { (path : Path) (s : Driven) → (after_line (ask path) s).tree ≡ s.tree }
    ensures push { (path : Path) (page : ℕ) (s : Driven) → (after_line (push path page) s).tree ≡ s.tree }
    ensures give { (path : Path) (place : ℕ) (s : Driven) → whole (after_line (give path place) s).tree ≡ whole s.tree }
{}

/// A script makes steps alone of the machines with every page. So it keeps a forest sound, with the queues that it is to
/// have, and leaves the end that the forest comes to. What becomes of a machine with all below it is what happened to it
/// alone, in order: the steps at its place and below, and the words that siblings sent to it. As many of the steps are
/// its own as it has counted.
pub fn scripts_are_steps()
    ensures steps { (lines : List ScriptLine) (s : Driven) → whole (after_script lines s).tree
        ≡ settle_all machines talks (steps_of_script lines s) (whole s.tree) }
    ensures sound { (lines : List ScriptLine) (s : Driven) → IsSound (boxed machines talks) (whole s.tree)
        → IsSound (boxed machines talks) (whole (after_script lines s).tree) }
    ensures queues { (lines : List ScriptLine) (s : Driven) → IsWholeForest machines talks (whole s.tree)
        → IsWholeForest machines talks (whole (after_script lines s).tree) }
    ensures end { (lines : List ScriptLine) (s : Driven) → IsSound (boxed machines talks) (whole s.tree)
        → finish (whole (after_script lines s).tree) ≡ finish (whole s.tree) }
    ensures alone { (lines : List ScriptLine) (at : Path) (s : Driven) (a b : Tree (Box Machine)) → IsWholeForest machines talks (whole s.tree)
        → subtree at (whole s.tree) ≡ Some a → subtree at (whole (after_script lines s).tree) ≡ Some b
        → b ≡ story machines talks (events machines talks at (steps_of_script lines s) (whole s.tree)) a }
    ensures counted { (lines : List ScriptLine) (at : Path) (s : Driven) (a b : Tree (Box Machine)) → IsWholeForest machines talks (whole s.tree)
        → subtree at (whole s.tree) ≡ Some a → subtree at (whole (after_script lines s).tree) ≡ Some b
        → machines.left (machine a).machine ≡ own_steps (events machines talks at (steps_of_script lines s) (whole s.tree))
        + machines.left (machine b).machine }
{}

/// A child is what happened to it since it was born. Let a step of a script be a clone of the machine at a path, and `t` the
/// machines before it. Unless that machine has ended with it, child k of the ticket is then there, alone and with no words to
/// it. What is there after the script is that child after just the steps that were made at its place and below, in their
/// order, and the words that siblings sent to it. As many of these steps are its own as it has counted.
pub fn children_are_what_happened()
    ensures born { (lines : List ScriptLine) (s : Driven) (before after : List Path) (path : Path) (child : Branch) (t p q : Tree (Box Machine))
        → IsWholeForest machines talks (whole s.tree) → steps_of_script lines s ≡ before ++ (path ∷ after)
        → settle_all machines talks before (whole s.tree) ≡ t → Bears machines talks child path p t
        → subtree path (settle machines talks path t) ≡ Some q → (machine q).machine.ending ≡ None
        → subtree (path ++ (child ∷ [])) (settle machines talks path t) ≡ Some (born machines talks child.child p) }
    ensures alone { (lines : List ScriptLine) (s : Driven) (before after : List Path) (path : Path) (child : Branch) (t p c : Tree (Box Machine))
        → IsWholeForest machines talks (whole s.tree) → steps_of_script lines s ≡ before ++ (path ∷ after)
        → settle_all machines talks before (whole s.tree) ≡ t → Bears machines talks child path p t
        → subtree (path ++ (child ∷ [])) (whole (after_script lines s).tree) ≡ Some c
        → c ≡ story machines talks (events machines talks (path ++ (child ∷ [])) after (settle machines talks path t)) (born machines talks child.child p) }
    ensures counted { (lines : List ScriptLine) (s : Driven) (before after : List Path) (path : Path) (child : Branch) (t p c : Tree (Box Machine))
        → IsWholeForest machines talks (whole s.tree) → steps_of_script lines s ≡ before ++ (path ∷ after)
        → settle_all machines talks before (whole s.tree) ≡ t → Bears machines talks child path p t
        → subtree (path ++ (child ∷ [])) (whole (after_script lines s).tree) ≡ Some c
        → machines.left (machine (born machines talks child.child p)).machine
        ≡ own_steps (events machines talks (path ++ (child ∷ [])) after (settle machines talks path t)) + machines.left (machine c).machine }
{}
