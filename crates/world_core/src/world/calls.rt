ghost use Rattle.std.specs.Prelude.{◌≡◌, ℕ, None, Some, IfOk, if◌then◌else◌};
ghost use Rattle.std.specs.BTreeMap.{get};
ghost use Rattle.image_depot.specs.Key.{Shelves};
ghost use Rattle.forest_tree.specs.Tree.{Path, Tree, beyond, machine};
ghost use Rattle.talking_history.specs.Places.{home, placed};
ghost use Rattle.talking_history.specs.Rows.{forked, joined, killed};
ghost use Rattle.machine_names.specs.Name.{begins_with};
ghost use Rattle.machine_names.specs.NameOrder.{path_cmp};
ghost use Rattle.vm_cell.specs.Keyed.{IsOfDepot, paged};
ghost use Rattle.vm_cell.specs.Standing.{IsClone, IsKill, standing_call};
ghost use Rattle.world_core.specs.Between.{IsBetween, settled_tree, with_tree};
ghost use Rattle.world_core.specs.Images.{AreOfImages, Images, IsImageAt, IsLentAt, IsPreparedAt};
ghost use Rattle.world_core.specs.Kin.{IsKin};
ghost use Rattle.world_core.specs.Lent.{vm_of};
ghost use Rattle.world_core.specs.PreparedFork.{IsPreparedIn, IsPreparedFor};
ghost use Rattle.world_core.specs.Shows.{Member, paged_of};
ghost use Rattle.world_core.specs.Told.{told_of};
ghost use Rattle.world_core.specs.Listed.{Keeps};
ghost use Rattle.world_core.specs.World.{Forest, IsForest, StandsFor};
ghost use Rattle.world_core.specs.Answers.{Answers, HandedOut, HandedOutIn, IsHandedOut, IsJoinCall, IsLentOf};

use crate::cell::{Awaited, Cell, State};
use crate::lease::Lease;
use crate::prepared_fork::PreparedFork;
use crate::world::{Placed, World};
use fork_port::Call;
use image_depot::Depot;
use machine_names::Name;
use ready_queue::{ReadyQueue, ReadyTurn};
use std::alloc::{AllocError, Global};
use std::collections::BTreeMap;
use std::sync::Wait;
use vm_cell::Vm;

impl World {
    /// Makes the CLONE at which a machine stands. Its children are ready then, behind all others.
    pub fn fork<R: Wait>(&mut self, rt: &R, alloc: Global, lease: Lease, depot: &Depot) -> Placed
        requires lent { HandedOutIn depot.now self.old lease }
        requires clone { IsClone (standing_call (vm_of lease)) }
        ensures answers { (f : Forest) → StandsFor depot.now self.old f → IsHandedOut f lease → IsLentOf depot.now lease
            → Answers depot.now f forked lease result self.new }
        ensures told { told_of self.new ≡ told_of self.old }
        // The children have one image, of a number that no brood before told.
        ensures images { (number : ℕ) × ((images : Images) (ticket : ℕ) → standing_call (vm_of lease) ≡ Some (Call.Clone ticket)
            → images lease.name ticket ≡ number
            → AreOfImages images self.old → IsLentAt images lease → AreOfImages images self.new) }
    {
        // Nothing is kept in the depot for a name that is gone.
        if !self.cells.contains_key(lease.name()) {
            lease.discard();
            return Placed::Dropped;
        }
        let prepared = lease.prepare_fork(rt, alloc, depot);
        self.commit_fork(lease, prepared)
    }

    /// Makes the CLONE at which a machine stands, with the children that were made ready for it. Where memory was
    /// wanting for them, the lease comes back. This is short, and waits for nobody.
    pub fn commit_fork(
        &mut self,
        lease: Lease,
        prepared: Result<PreparedFork, AllocError>,
    ) -> Placed
        requires lent { (depot : Shelves) × HandedOutIn depot self.old lease × IfOk prepared (IsPreparedIn depot) }
        requires clone { IsClone (standing_call (vm_of lease)) }
        requires prepared { IfOk prepared (IsPreparedFor lease) }
        ensures answers { (depot : Shelves) (f : Forest) → StandsFor depot self.old f → IsHandedOut f lease → IsLentOf depot lease
            → IfOk prepared (IsPreparedIn depot) → Answers depot f forked lease result self.new }
        ensures told { told_of self.new ≡ told_of self.old }
        ensures images { (images : Images) → AreOfImages images self.old → IsLentAt images lease
            → IfOk prepared (IsPreparedAt images) → AreOfImages images self.new }
    {
        let Some(cell) = self.cells.get_mut(lease.name()) else {
            lease.discard();
            return Placed::Dropped;
        };
        let Ok(prepared) = prepared else {
            return Placed::Memory(lease);
        };
        let (ticket, brood, children) = prepared.into_brood();
        let Lease {
            turn,
            kin,
            mut vm,
            ran,
            start,
        } = lease;
        if cell.fork(&mut vm, ticket, brood).is_err() {
            return Placed::Memory(Lease {
                turn,
                kin,
                vm,
                ran,
                start,
            });
        }
        self.ready.push_last(children);
        self.place(turn, kin, vm)
    }

    /// Makes the JOIN at which a machine stands, or parks the machine where a child of the ticket lives. Its children are
    /// the next that are taken then.
    pub fn join(&mut self, alloc: Global, lease: Lease) -> Placed
        requires lent { HandedOut self.old lease }
        requires join { IsJoinCall (standing_call (vm_of lease)) }
        ensures answers { (depot : Shelves) (f : Forest) → StandsFor depot self.old f → IsHandedOut f lease → IsLentOf depot lease
            → Answers depot f joined lease result self.new }
        ensures told { told_of self.new ≡ told_of self.old }
        ensures images { (images : Images) → AreOfImages images self.old → IsLentAt images lease → AreOfImages images self.new }
    {
        let Some(Call::Join(ticket)) = lease.call() else {
            unreachable!();
        };
        let Some(cell) = self.cells.get_mut(lease.name()) else {
            lease.discard();
            return Placed::Dropped;
        };
        let Lease {
            turn,
            kin,
            mut vm,
            ran,
            start,
        } = lease;
        if cell.waits(ticket) {
            raise_asleep(alloc, &mut self.ready, cell, turn.name(), ticket);
            cell.kin = kin;
            cell.state = State::Parked(Awaited::Children(ticket), vm, turn);
            return Placed::Parked;
        }
        if cell.join(alloc, &mut vm, ticket).is_err() {
            return Placed::Memory(Lease {
                turn,
                kin,
                vm,
                ran,
                start,
            });
        }
        self.place(turn, kin, vm)
    }

    /// Makes the KILL at which a machine stands. The children of the ticket are dropped, with theirs. It
    /// takes no memory.
    pub fn kill(&mut self, lease: Lease) -> Placed
        requires lent { HandedOut self.old lease }
        requires kill { IsKill (standing_call (vm_of lease)) }
        ensures answers { (depot : Shelves) (f : Forest) → StandsFor depot self.old f → IsHandedOut f lease → IsLentOf depot lease
            → Answers depot f killed lease result self.new }
        ensures told { told_of self.new ≡ told_of self.old }
        ensures images { (images : Images) → AreOfImages images self.old → IsLentAt images lease → AreOfImages images self.new }
    {
        let Some(Call::Kill(ticket)) = lease.call() else {
            unreachable!();
        };
        let Some(cell) = self.cells.get_mut(lease.name()) else {
            lease.discard();
            return Placed::Dropped;
        };
        let Lease {
            turn,
            kin,
            mut vm,
            ran: _,
            start: _,
        } = lease;
        cell.kill(&mut vm, ticket);
        drop_below(&mut self.cells, turn.name(), ticket);
        self.place(turn, kin, vm)
    }

    /// Puts a machine home after its call, or ends it.
    pub(crate) fn place(&mut self, turn: ReadyTurn, kin: Option<Name>, vm: Box<Vm>) -> Placed
        requires one { turn.children ≡ None }
        requires kin { IsKin kin turn.name }
        requires between { (depot : Shelves) × (f : Forest) × (a : Tree Member) × IsBetween depot self.old f turn.name a
            × (paged_of (machine a) ≡ paged vm.value) × IsOfDepot depot vm.value.key }
        ensures placed { (depot : Shelves) (f : Forest) (a : Tree Member) → IsBetween depot self.old f turn.name a
            → paged_of (machine a) ≡ paged vm.value → IsOfDepot depot vm.value.key
            → IsForest (with_tree turn.name (placed home (settled_tree a)) f).tree
            → (result ≡ Placed.Done) × StandsFor depot self.new (with_tree turn.name (placed home (settled_tree a)) f) }
        ensures told { told_of self.new ≡ told_of self.old }
        ensures images { (images : Images) → AreOfImages images self.old → IsImageAt images turn.name vm.value.key → AreOfImages images self.new }
    {
        match vm.ended() {
            Some(ending) => self.finish(turn, vm, ending),
            None => self.home(turn, kin, vm),
        }
    }
}

/// Lets the children of a ticket be next, as far as they are still descriptors. Where memory is wanting for it, they come
/// in the order of tickets.
fn raise_asleep(alloc: Global, ready: &mut ReadyQueue, cell: &Cell, name: &Name, ticket: u32)
    ensures { Keeps ready.old ready.new }
{
    let Some(brood) = cell.broods.get(&ticket) else {
        return;
    };
    if brood.image.is_some() {
        let _ = ready.raise(alloc, name, ticket);
    }
}

/// Drops the cells of the children of a ticket, and of all machines below them.
fn drop_below(cells: &mut BTreeMap<Name, Cell>, name: &Name, ticket: u32)
    ensures { (other : Path) → get path_cmp cells.new other
        ≡ (if begins_with ticket (beyond name.now other) then None else get path_cmp cells.old other) }
{
    cells.retain(|other, _| !other.is_below(name, ticket));
}
