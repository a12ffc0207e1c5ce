//! What the definitions of lines come to.

ghost use Rattle.std.specs.Prelude.{◌≡◌, ℕ, [], ◌∷◌, ◌++◌, Some};
ghost use Rattle.fork_port.specs.declared.ending.Ending.{Ending};
ghost use Rattle.std.specs.List.{flat_map};
ghost use Rattle.forest_tree.specs.Tree.{Broods, Log, Path, Tree, Trees, brood_of, no_brood, node};
ghost use Rattle.forest_tree.specs.Projection.{map_log, map_tree, map_trees};
ghost use Rattle.sibling_forest.specs.Talk.{Box};
ghost use Rattle.forest_model.specs.Machine.{Machine};
ghost use Rattle.run_report.specs.Lines.{Told, TellsSame, lines, log_lines, machine_line, trees_lines};
ghost use Rattle.run_report.specs.Report.{report, report_of, told_box};
ghost use Rattle.run_report.specs.Summary.{summary, summary_of};

/// A tree of machines with more inside has the lines of that tree seen as one of machines with less, where
/// what is left of a machine tells the same.
pub fn lines_are_told_the_same<M, N>()
    ensures tree { (told : Told M) (less : Told N) (f : M → N) → TellsSame told less f → (path : Path) (t : Tree M)
        → lines less path (map_tree f t) ≡ lines told path t }
    ensures trees { (told : Told M) (less : Told N) (f : M → N) → TellsSame told less f → (path : Path) (ticket k : ℕ) (trees : Trees M)
        → trees_lines less path ticket k (map_trees f trees) ≡ trees_lines told path ticket k trees }
    ensures log { (told : Told M) (less : Told N) (f : M → N) → TellsSame told less f → (path : Path) (log : Log M)
        → log_lines less path (map_log f log) ≡ log_lines told path log }
{}

/// A tree has the line of its first machine, those of its log, and then those of its children, ticket by ticket. Where
/// that machine has ended it has no children, and there are its own line and those of its log.
pub fn lines_begin_with_the_machine<M>()
    ensures all { (told : Told M) (path : Path) (m : M) (broods : Broods M) (log : Log M)
        → lines told path (node m broods log) ≡ machine_line path (told.ending m) (told.steps m) (told.output m)
        ∷ (log_lines told path log ++ flat_map (λ ticket. trees_lines told path ticket 1 (brood_of ticket broods)) (told.cloned m)) }
    ensures ended { (told : Told M) (path : Path) (m : M) (log : Log M) (ending : Ending) → told.ending m ≡ Some ending
        → lines told path (node m no_brood log) ≡ machine_line path (Some ending) (told.steps m) (told.output m) ∷ log_lines told path log }
{}

/// The report of a forest is what is put out of its first machine, with the lines of its log and of its children.
pub fn report_is_of_the_root()
    ensures { (b : Box Machine) (broods : Broods (Box Machine)) (log : Log (Box Machine))
        → report (node b broods log)
        ≡ report_of (record {
          name = [];
          ending = b.machine.ending;
          steps = b.machine.steps;
          output = b.machine.state.ports.console.output;
          log = log_lines told_box [] log ++ flat_map (λ ticket. trees_lines told_box [] ticket 1 (brood_of ticket broods)) (told_box.cloned b);
        }) }
{}

/// So is its summary.
pub fn summary_is_of_the_root()
    ensures { (seed : ℕ) (b : Box Machine) (broods : Broods (Box Machine)) (log : Log (Box Machine))
        → summary seed (node b broods log)
        ≡ summary_of seed (record {
          name = [];
          ending = b.machine.ending;
          steps = b.machine.steps;
          output = b.machine.state.ports.console.output;
          log = log_lines told_box [] log ++ flat_map (λ ticket. trees_lines told_box [] ticket 1 (brood_of ticket broods)) (told_box.cloned b);
        }) }
{}
