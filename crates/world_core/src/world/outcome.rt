//! How the family of a world came to its end.

ghost use Rattle.std.specs.Prelude.{◌≡◌, [], IfOk, IfSome, IsSomeAnd, MatchBool};
ghost use Rattle.std.specs.BTreeMap.{get};
ghost use Rattle.std.specs.Option.{option_copied};
ghost use Rattle.image_depot.specs.Key.{Shelves};
ghost use Rattle.forest_tree.specs.Tree.{Path, Tree};
ghost use Rattle.machine_names.specs.NameOrder.{path_cmp};
ghost use Rattle.run_report.specs.Lines.{lines};
ghost use Rattle.run_report.specs.Report.{lines_of};
ghost use Rattle.world_core.specs.Outcome.{CellsTell, GoesOnIn, HasAsleep, IsOver, RestsIn, TellsFinished, TellsOutcome};
ghost use Rattle.world_core.specs.Shows.{AreAwake, Member, told_member};
ghost use Rattle.world_core.specs.World.{Forest, IsWorld, StandsFor};

use crate::cell::{Brood, Cell, ChildSlot, State};
use crate::world::World;
use crate::world::parting::{partings_of, put_together};
use machine_names::Name;
use run_report::Outcome;
use std::alloc::{AllocError, Global};
use std::collections::BTreeMap;

impl World {
    /// How the family came to its end: its root has ended, or no machine is on lease and none is ready, so it is stuck, and
    /// each machine that lives has a line that says so. The world stays as it is, and the lines are copied.
    pub fn outcome(&self, alloc: Global) -> Result<Outcome, AllocError>
        requires { (depot : Shelves) × (f : Forest) × StandsFor depot self.now f × IsOver f.tree }
        ensures { IfOk result (λ outcome. (depot : Shelves) (f : Forest) → StandsFor depot self.now f → lines_of outcome ≡ lines told_member [] f.tree) }
    {
        match &self.outcome {
            Some(outcome) => outcome.clone(),
            None => stuck_outcome(alloc, &self.cells),
        }
    }

    /// Moves the outcome out of a world whose family has come to its end, as `outcome` has it, and finds none where the
    /// family goes on. Memory is wanted only where it is stuck.
    pub fn into_outcome(self, alloc: Global) -> Result<Option<Outcome>, AllocError>
        requires { (depot : Shelves) × IsWorld depot self }
        ensures { (depot : Shelves) (f : Forest) → StandsFor depot self f → TellsOutcome f.tree result }
    {
        let World {
            cells,
            ready: _,
            halted: _,
            told: _,
            outcome,
            leases: _,
        } = self;
        if outcome.is_some() {
            return Ok(outcome);
        }
        if !all_rest(&cells) {
            return Ok(None);
        }
        let outcome = stuck_outcome(alloc, &cells)?;
        Ok(Some(outcome))
    }

    /// Lends how the family came to its end by the end of its root, and `None` exactly where the root lives. It takes no memory.
    pub fn finished(&self) -> Option<&Outcome>
        ensures { (depot : Shelves) (f : Forest) → StandsFor depot self.now f → TellsFinished f.tree (option_copied result) }
    {
        self.outcome.as_ref()
    }
}

/// Whether each machine that has a cell waits, and each child that lives has a cell.
fn all_rest(cells: &BTreeMap<Name, Cell>) -> bool
    ensures { MatchBool result ((name : Path) → IfSome (get path_cmp cells.now name) RestsIn)
        ((name : Path) × IsSomeAnd (get path_cmp cells.now name) GoesOnIn) }
{
    for (_, cell) in cells {
        if !cell.rests() {
            return false;
        }
    }
    true
}

/// What a family leaves that is stuck.
fn stuck_outcome(alloc: Global, cells: &BTreeMap<Name, Cell>) -> Result<Outcome, AllocError>
    requires { (t : Tree Member) × CellsTell cells.now t }
    ensures { IfOk result (λ outcome. (t : Tree Member) → CellsTell cells.now t → lines_of outcome ≡ lines told_member [] t) }
{
    put_together(partings_of(alloc, cells)?)
}

impl Cell {
    /// Whether the machine waits and no child of it is still a descriptor.
    fn rests(&self) -> bool
        ensures { MatchBool result (RestsIn self.now) (GoesOnIn self.now) }
    {
        if !matches!(&self.state, State::Parked(_, _, _)) {
            return false;
        }
        for (_, brood) in &self.broods {
            if brood.has_asleep() {
                return false;
            }
        }
        true
    }
}

impl Brood {
    /// Whether a child is still a descriptor.
    fn has_asleep(&self) -> bool
        ensures { MatchBool result (HasAsleep self.now) (AreAwake self.now.slots.items) }
    {
        for slot in &self.slots {
            if let ChildSlot::Asleep = slot {
                return true;
            }
        }
        false
    }
}
