//! What machines leave whose family is stuck.

ghost use Rattle.std.specs.Prelude.{◌≡◌, ◌<◌, ◌≤◌, ◌-◌, ℕ, [], true, IfOk, IfSome, IsSomeAnd, vec_len};
ghost use Rattle.std.specs.BTreeMap.{get};
ghost use Rattle.std.specs.Ordering.{nat_cmp};
ghost use Rattle.forest_tree.specs.Tree.{Path, Tree};
ghost use Rattle.machine_names.specs.NameOrder.{path_cmp};
ghost use Rattle.run_report.specs.Lines.{lines};
ghost use Rattle.run_report.specs.Report.{lines_of};
ghost use Rattle.world_core.specs.Outcome.{AreAlike, AreSlotsOf, IsPartingOf, NoneBelow, Partings, PartingTells, PartingsTell, PutsOutcome, is_parked};
ghost use Rattle.world_core.specs.Shows.{Member, told_member};

use crate::cell::broods::{line_count, put_lines};
use crate::cell::{Brood, Cell, ChildSlot, State};
use machine_names::Name;
use run_report::{Line, Outcome, OutcomeRoom};
use std::alloc::{AllocError, Global};
use std::collections::BTreeMap;

/// What a machine leaves that waits for ever.
#[derive(Drop)]
pub(crate) struct Parting {
    name: Name,
    steps: u64,
    output: Vec<u8>,
    /// The children of its cloned tickets.
    children: BTreeMap<u32, Vec<ChildSlot>>,
    log: Vec<Line>,
    room: OutcomeRoom,
}

/// What all machines of a family leave that is stuck.
pub(super) fn partings_of(
    alloc: Global,
    cells: &BTreeMap<Name, Cell>,
) -> Result<BTreeMap<Name, Parting>, AllocError>
    requires { (name : Path) → IfSome (get path_cmp cells.now name) (λ c. is_parked c.state ≡ true) }
    ensures { IfOk result (λ partings. (name : Path) → AreAlike (IsPartingOf name) (get path_cmp cells.now name) (get path_cmp partings name)) }
{
    let mut partings = BTreeMap::new(alloc);
    for (name, cell) in cells {
        let parting = cell.parting(alloc, name)?;
        partings.insert(name.copy()?, parting)?;
    }
    Ok(partings)
}

/// The outcome of the family. The longest names come first: each machine's outcome has the lines of its children, and goes
/// into its parent's slot.
pub(super) fn put_together(partings: BTreeMap<Name, Parting>) -> Result<Outcome, AllocError>
    requires { (t : Tree Member) × PartingsTell partings t }
    ensures { IfOk result (λ outcome. (t : Tree Member) → PartingsTell partings t → lines_of outcome ≡ lines told_member [] t) }
{
    let mut partings = partings;
    while let Some((mut name, parting)) = partings.pop_last() {
        let outcome = parting.into_outcome()?;
        let Some((ticket, index)) = name.pop() else {
            return Ok(outcome);
        };
        let Some(parent) = partings.get_mut(&name) else {
            unreachable!();
        };
        parent.put_outcome(ticket, index, outcome);
    }
    unreachable!();
}

/// The children of each ticket.
fn children_of(
    alloc: Global,
    broods: &BTreeMap<u32, Brood>,
) -> Result<BTreeMap<u32, Vec<ChildSlot>>, AllocError>
    ensures { IfOk result (λ children. (ticket : ℕ) → AreAlike AreSlotsOf (get nat_cmp broods.now ticket) (get nat_cmp children ticket)) }
{
    let mut children = BTreeMap::new(alloc);
    for (ticket, brood) in broods {
        children.insert(*ticket, brood.slots.clone()?)?;
    }
    Ok(children)
}

impl Cell {
    /// What the machine of that name leaves, which waits.
    fn parting(&self, alloc: Global, name: &Name) -> Result<Parting, AllocError>
        requires { is_parked self.now.state ≡ true }
        ensures { IfOk result (IsPartingOf name.now self.now) }
    {
        let State::Parked(_, vm, _) = &self.state else {
            unreachable!();
        };
        Ok(Parting {
            name: name.copy()?,
            steps: vm.steps(),
            output: Vec::from_slice(alloc, vm.output())?,
            children: children_of(alloc, &self.broods)?,
            log: self.log.clone()?,
            room: OutcomeRoom::new(alloc)?,
        })
    }
}

impl Parting {
    /// The outcome of the machine, once those of its children are in their slots.
    fn into_outcome(self) -> Result<Outcome, AllocError>
        ensures { IfOk result (λ outcome. (partings : Partings) (path : Path) (t : Tree Member) → PartingTells partings path self t → NoneBelow partings path
            → lines_of outcome ≡ lines told_member path t) }
    {
        let Parting {
            name,
            steps,
            output,
            children,
            mut log,
            room,
        } = self;
        for (_, slots) in children {
            log.reserve(line_count(&slots))?;
            put_lines(slots, &mut log);
        }
        Ok(Outcome::new(room, name, None, steps, output, log))
    }

    /// Puts what a child leaves into its slot.
    fn put_outcome(&mut self, ticket: u32, index: u32, outcome: Outcome)
        requires first { 1 ≤ index }
        requires there { IsSomeAnd (get nat_cmp self.old.children ticket) (λ slots. index - 1 < vec_len slots) }
        ensures { PutsOutcome outcome ticket index self.old self.new }
    {
        let Some(slots) = self.children.get_mut(&ticket) else {
            unreachable!();
        };
        slots[index as usize - 1] = ChildSlot::Ended(outcome);
    }
}
