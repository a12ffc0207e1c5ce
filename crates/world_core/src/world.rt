ghost use Rattle.std.specs.Prelude.{◌≡◌, [], length, None, Some, true, false, IfOk, OnOk, OnErr, IfSome, IsSome, IsSomeAnd, MatchOption, Bool};
ghost use Rattle.std.specs.BTreeMap.{Updates, get};
ghost use Rattle.image_depot.specs.Key.{Shelves};
ghost use Rattle.forest_tree.specs.Step.{has_ended};
ghost use Rattle.forest_tree.specs.Tree.{Path, Tree, machine, subtree};
ghost use Rattle.talking_history.specs.Places.{home, placed};
ghost use Rattle.talking_history.specs.World.{is_at_home, world_of};
ghost use Rattle.talking_history.specs.Rows.{ended, halted, does};
ghost use Rattle.forest_model.specs.Forest.{machines, port_of};
ghost use Rattle.forest_model.specs.Paged.{paged_machines, paged_talks};
ghost use Rattle.run_report.specs.Lines.{lines};
ghost use Rattle.machine_names.specs.Name.{child_path};
ghost use Rattle.machine_names.specs.NameOrder.{path_cmp};
ghost use Rattle.run_report.specs.Report.{lines_of};
ghost use Rattle.vm_cell.specs.Keyed.{IsOfDepot, paged};
ghost use Rattle.world_core.specs.Images.{AreOfImages, Images, IsImageAt, IsLentAt};
ghost use Rattle.world_core.specs.Kin.{IsKin};
ghost use Rattle.world_core.specs.Lent.{vm_of};
ghost use Rattle.world_core.specs.Told.{told_of};
ghost use Rattle.world_core.specs.Shows.{CellShows, IsAwake, Member, child_of, forest, told_member, ended_tree, paged_of};
ghost use Rattle.world_core.specs.World.{Forest, IsForest, IsReached, StandsFor};
ghost use Rattle.world_core.specs.Between.{HasLeft, IsBetween, IsLeaving, IsSameWorld, TakesOut, with_tree};
ghost use Rattle.world_core.specs.Stirring.{IsStirring};
ghost use Rattle.world_core.specs.Answers.{Answers, HandedOut, IsHandedOut, IsLentOf, home_by, stands_waiting_of};

use crate::cell::{Cell, State};
use crate::lease::Lease;
use crate::reason::Reason;
use crate::world::leases::Leases;
use forest_model::Ending;
use image_depot::{Depot, Sent};
use machine_names::Name;
use ready_queue::{ReadyQueue, ReadyTurn};
use run_report::{Outcome, OutcomeRoom};
use std::alloc::{AllocError, Global};
use std::collections::BTreeMap;
use vm_cell::Vm;

mod calls;
mod leases;
mod outcome;
mod parting;
mod take;
mod talks;
mod told;

/// What `take` hands out.
pub enum Taken {
    /// The root has ended.
    Over,
    /// The root lives, and this was the first reason to stop.
    Stopped(Reason),
    /// No machine is ready and none is on lease: each that lives waits, and none makes a step any more.
    Stuck,
    /// No machine is ready, and one is on lease.
    Idle,
    /// A machine that was ready.
    Took(Lease),
    /// Want of memory, where a descriptor was to be woken.
    Memory,
}

/// What became of a lease that was handed back.
pub enum Placed {
    /// The change was made.
    Done,
    /// The machine waits for a child that lives or for a sibling, and is parked at home.
    Parked,
    /// The machine's name is no longer in the forest, and the machine is dropped.
    Dropped,
    /// Want of memory: nothing was changed, and the lease comes back.
    Memory(Lease),
}

/// What became of a talk whose machine may stay on lease.
pub enum Talked {
    /// The talk was made, and the machine lives. It stays on lease. A hint beside, of which no contract speaks: whether another
    /// may be ready since then.
    Goes(Lease, bool),
    /// The machine was taken back, or stays for want of memory.
    Placed(Placed),
}

/// A family of machines, some of them on lease.
pub struct World {
    /// Those that live and are no descriptors any more, by name.
    pub(crate) cells: BTreeMap<Name, Cell>,
    /// Those that are ready, and maybe some that are no longer.
    pub(crate) ready: ReadyQueue,
    pub(crate) halted: Option<Reason>,
    /// The replies that were told, for others to hear.
    pub(crate) told: Vec<Sent>,
    /// How the root has ended, with all that the family did.
    pub(crate) outcome: Option<Outcome>,
    /// Names that tell whether a machine is on lease.
    pub(crate) leases: Leases,
}

// By hand, since what a derive gives is proved in each crate above, for each type within.
impl Drop for World {
    fn drop(self) {
        let World {
            cells: _,
            ready: _,
            halted: _,
            told: _,
            outcome: _,
            leases: _,
        } = self;
    }
}

impl World {
    /// The world of one machine, which has no ticket, no siblings and no absent page.
    pub fn new(alloc: Global, vm: Vm, depot: &Depot) -> Result<World, AllocError>
        requires no_ticket { (port_of vm.machine).tickets ≡ [] }
        requires no_siblings { vm.machine.state.ports.sibling.siblings ≡ 0 }
        requires every_page { vm.key ≡ None }
        ensures stands { IfOk result (λ world. StandsFor depot.now world (world_of paged_machines paged_talks (paged vm))) }
        ensures told { IfOk result (λ world. told_of world ≡ []) }
        ensures images { IfOk result (λ world. (images : Images) → AreOfImages images world) }
    {
        let _ = depot;
        match vm.ended() {
            Some(ending) => World::of_ended(alloc, vm, ending),
            None => World::of_live(alloc, vm),
        }
    }

    /// The world of a machine that has ended.
    fn of_ended(alloc: Global, vm: Vm, ending: Ending) -> Result<World, AllocError>
        requires ended { vm.machine.ending ≡ Some ending }
        requires no_ticket { (port_of vm.machine).tickets ≡ [] }
        requires no_siblings { vm.machine.state.ports.sibling.siblings ≡ 0 }
        requires good { machines.is_good vm.machine ≡ true }
        ensures stands { IfOk result (λ world. (depot : Shelves) → StandsFor depot world (world_of paged_machines paged_talks (paged vm))) }
        ensures told { IfOk result (λ world. told_of world ≡ []) }
        ensures images { IfOk result (λ world. (images : Images) → AreOfImages images world) }
    {
        let steps = vm.steps();
        let output = vm.into_output();
        let root = Name::root(alloc)?;
        let room = OutcomeRoom::new(alloc)?;
        let log = Vec::new(alloc);
        let told = Vec::new(alloc);
        let leases = Leases::new(alloc)?;
        Ok(World {
            cells: BTreeMap::new(alloc),
            ready: ReadyQueue::new(),
            halted: None,
            told,
            outcome: Some(Outcome::new(room, root, Some(ending), steps, output, log)),
            leases,
        })
    }

    /// The world of a machine that lives. It is ready.
    fn of_live(alloc: Global, vm: Vm) -> Result<World, AllocError>
        requires lives { vm.machine.ending ≡ None }
        requires no_ticket { (port_of vm.machine).tickets ≡ [] }
        requires no_siblings { vm.machine.state.ports.sibling.siblings ≡ 0 }
        requires every_page { vm.key ≡ None }
        requires good { machines.is_good vm.machine ≡ true }
        ensures stands { IfOk result (λ world. (depot : Shelves) → StandsFor depot world (world_of paged_machines paged_talks (paged vm))) }
        ensures told { IfOk result (λ world. told_of world ≡ []) }
        ensures images { IfOk result (λ world. (images : Images) → AreOfImages images world) }
    {
        let vm = Box::new(alloc, vm)?;
        let name = Name::root(alloc)?;
        let turn = ReadyTurn::of_machine(alloc, name.copy()?)?;
        let room = OutcomeRoom::new(alloc)?;
        let mut cells = BTreeMap::new(alloc);
        seat(&mut cells, name, Cell::of_root(alloc, vm, room))?;
        let mut ready = ReadyQueue::new();
        ready.push(turn);
        let told = Vec::new(alloc);
        let leases = Leases::new(alloc)?;
        Ok(World {
            cells,
            ready,
            halted: None,
            told,
            outcome: None,
            leases,
        })
    }

    /// Takes a machine back. It takes no memory.
    pub fn give(&mut self, lease: Lease) -> Placed
        requires { HandedOut self.old lease }
        ensures answers { (depot : Shelves) (f : Forest) → StandsFor depot self.old f → IsHandedOut f lease → IsLentOf depot lease
            → Answers depot f (home_by lease.now.ending) lease result self.new }
        ensures told { told_of self.new ≡ told_of self.old }
        ensures images { (images : Images) → AreOfImages images self.old → IsLentAt images lease → AreOfImages images self.new }
    {
        if lease.ended().is_some() {
            return self.end(lease);
        }
        let Lease {
            turn,
            kin,
            vm,
            ran: _,
            start: _,
        } = lease;
        self.home(turn, kin, vm)
    }

    /// Takes back a machine that has ended, and drops its descendants. It takes no memory.
    pub fn end(&mut self, lease: Lease) -> Placed
        requires lent { HandedOut self.old lease }
        requires ended { IsSome lease.now.ending }
        ensures answers { (depot : Shelves) (f : Forest) → StandsFor depot self.old f → IsHandedOut f lease → IsLentOf depot lease
            → Answers depot f ended lease result self.new }
        ensures told { told_of self.new ≡ told_of self.old }
        ensures images { (images : Images) → AreOfImages images self.old → IsLentAt images lease → AreOfImages images self.new }
    {
        let Lease {
            turn,
            kin: _,
            vm,
            ran: _,
            start: _,
        } = lease;
        let Some(ending) = vm.ended() else {
            unreachable!();
        };
        self.finish(turn, vm, ending)
    }

    /// No machine is handed out from now on, for the first reason that is given.
    pub fn stop(&mut self, reason: Reason)
        ensures stands { (depot : Shelves) (f : Forest) → StandsFor depot self.old f
            → StandsFor depot self.new (does paged_machines paged_talks (halted reason) f) }
        ensures told { told_of self.new ≡ told_of self.old }
        ensures images { (images : Images) → AreOfImages images self.old → AreOfImages images self.new }
    {
        if self.halted.is_none() {
            self.halted = Some(reason);
        }
    }

    /// Whether a machine may be at home whose name has so many forks. Where it answers no, none is, and where it
    /// answers yes, one is awake whose name has as many, or all but one of them, or more. It looks at
    /// the longest name of a machine that is awake: a child that is still a descriptor has one fork more than its
    /// parent, which is awake.
    pub fn reaches(&self, depth: usize) -> bool
        ensures far { (depot : Shelves) (f : Forest) → StandsFor depot self.now f → result ≡ false
            → (name : Path) → length name ≡ depth → is_at_home paged_machines paged_talks name f.tree ≡ false }
        ensures near { (depot : Shelves) (f : Forest) → StandsFor depot self.now f → result ≡ true → IsReached depth f }
    {
        let Some((longest, _)) = self.cells.last_key_value() else {
            return false;
        };
        depth.saturating_sub(longest.depth()) <= 1
    }

    /// Whether the machine on lease stands at the JOIN of a ticket of which a child lives, or at a SEND or a RECEIVE that
    /// waits for its sibling. A machine whose name is gone does not. It takes no memory.
    pub fn waits(&self, lease: &Lease) -> bool
        ensures { (depot : Shelves) (f : Forest) → StandsFor depot self.now f → IsHandedOut f lease.now
            → MatchOption (subtree lease.now.name f.tree) (result ≡ false) (λ t. result ≡ stands_waiting_of (vm_of lease.now) lease.now.name f.tree) }
    {
        let Some(cell) = self.cells.get(lease.name()) else {
            return false;
        };
        if let Some(talk) = lease.talk() {
            return self.talk_waits(lease, talk);
        }
        match lease.joins() {
            Some(ticket) => cell.waits(ticket),
            None => false,
        }
    }

    /// Puts a live machine home, which is ready then.
    fn home(&mut self, turn: ReadyTurn, kin: Option<Name>, vm: Box<Vm>) -> Placed
        requires own { turn.children ≡ None }
        requires kin { IsKin kin turn.name }
        ensures gone { get path_cmp self.old.cells turn.name ≡ None → (result ≡ Placed.Dropped) × IsSameWorld self.old self.new }
        ensures home { (depot : Shelves) (f : Forest) (a : Tree Member) → IsBetween depot self.old f turn.name a
            → paged_of (machine a) ≡ paged vm.value → IsOfDepot depot vm.value.key → has_ended forest a ≡ false
            → IsForest (with_tree turn.name (placed home a) f).tree
            → (result ≡ Placed.Done) × StandsFor depot self.new (with_tree turn.name (placed home a) f) }
        ensures told { told_of self.new ≡ told_of self.old }
        ensures images { (images : Images) → AreOfImages images self.old → IsImageAt images turn.name vm.value.key → AreOfImages images self.new }
    {
        let Some(cell) = self.cells.get_mut(turn.name()) else {
            return Placed::Dropped;
        };
        cell.kin = kin;
        cell.state = State::Home(vm);
        if !cell.is_listed {
            cell.is_listed = true;
            self.ready.push(turn);
        }
        Placed::Done
    }

    /// Puts what a machine left that has ended into its parent's brood, or keeps it where it is the root's.
    /// Its descendants are dropped.
    fn finish(&mut self, turn: ReadyTurn, vm: Box<Vm>, ending: Ending) -> Placed
        requires ended { vm.value.machine.ending ≡ Some ending }
        requires between { IfSome (get path_cmp self.old.cells turn.name)
            (λ c. (depot : Shelves) × (f : Forest) × (a : Tree Member) × IsBetween depot self.old f turn.name a
            × (paged_of (machine a) ≡ paged vm.value)) }
        ensures gone { get path_cmp self.old.cells turn.name ≡ None → (result ≡ Placed.Dropped) × IsSameWorld self.old self.new }
        ensures finished { (depot : Shelves) (f : Forest) (a : Tree Member) → IsBetween depot self.old f turn.name a
            → paged_of (machine a) ≡ paged vm.value
            → IsForest (with_tree turn.name (placed home (ended_tree a)) f).tree
            → (result ≡ Placed.Done) × StandsFor depot self.new (with_tree turn.name (placed home (ended_tree a)) f) }
        ensures told { told_of self.new ≡ told_of self.old }
        ensures images { (images : Images) → AreOfImages images self.old → AreOfImages images self.new }
    {
        let mut name = turn.into_name();
        let Some((key, cell)) = take_out(&mut self.cells, &name) else {
            return Placed::Dropped;
        };
        let outcome = cell.into_outcome(key, Box::into_inner(vm), ending);
        match name.pop() {
            Some((ticket, index)) => {
                self.end_child(&name, ticket, index, outcome);
                self.stir_siblings(&name, ticket, index);
            }
            None => self.outcome = Some(outcome),
        }
        Placed::Done
    }

    /// Tells a machine how a child of it has ended. It may be ready then. The siblings are not told.
    fn end_child(&mut self, parent: &Name, ticket: u32, index: u32, outcome: Outcome)
        requires { IsSomeAnd (get path_cmp self.old.cells parent.now) (λ c. (depot : Shelves) × (resting : Bool) × (t a : Tree Member)
            × CellShows depot parent.now resting c t × (child_of ticket index t ≡ Some a) × IsAwake a) }
        ensures stirs { (depot : Shelves) (f : Forest) (b : Tree Member) → IsLeaving depot self.old f (child_path parent.now ticket index)
            → HasLeft (child_path parent.now ticket index) b outcome → IsForest (with_tree (child_path parent.now ticket index) b f).tree
            → IsStirring depot self.new f parent.now ticket index b 1 }
        ensures told { told_of self.new ≡ told_of self.old }
        ensures images { (images : Images) → AreOfImages images self.old → AreOfImages images self.new }
    {
        let Some(cell) = self.cells.get_mut(parent) else {
            unreachable!();
        };
        if let Some(turn) = cell.child_ended(ticket, index, outcome) {
            self.ready.push(turn);
        }
    }
}

/// Puts in the cell of a name. Where memory is wanting for it, the cells stay as they are.
fn seat(cells: &mut BTreeMap<Name, Cell>, name: Name, cell: Cell) -> Result<(), AllocError>
    ensures ok { OnOk result (Updates path_cmp cells.old cells.new name (Some cell)) }
    ensures err { OnErr result ((other : Path) → get path_cmp cells.new other ≡ get path_cmp cells.old other) }
{
    cells.insert(name, cell)?;
    Ok(())
}

/// Takes out the cell of a name, and those of its descendants. It answers the name and the cell.
fn take_out(cells: &mut BTreeMap<Name, Cell>, name: &Name) -> Option<(Name, Cell)>
    ensures { MatchOption result ((get path_cmp cells.old name.now ≡ None) × ((n : Path) → get path_cmp cells.new n ≡ get path_cmp cells.old n))
        (λ taken. (taken.0 ≡ name.now) × TakesOut cells.old cells.new name.now taken.1) }
{
    let (key, cell) = cells.remove_entry(name)?;
    if !cell.broods.is_empty() {
        cells.retain(|other, _| !other.is_below_all(&key));
    }
    Some((key, cell))
}
