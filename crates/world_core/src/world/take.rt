ghost use Rattle.std.specs.Prelude.{◌≡◌, ◌≢◌, None, Some, true, is_some, IfNone, IfSome, IfOk, OnErr, OnOk};
ghost use Rattle.std.specs.BTreeMap.{get};
ghost use Rattle.image_depot.specs.Key.{Shelves};
ghost use Rattle.forest_tree.specs.Tree.{Tree, Path, machine, subtree, at_path};
ghost use Rattle.talking_history.specs.Places.{out, placed};
ghost use Rattle.world_core.specs.Images.{AreOfImages, AreTakenAt, Images, IsImageAt, IsLentAt, IsTakenAt};
ghost use Rattle.vm_cell.specs.Keyed.{IsOfDepot, paged};
ghost use Rattle.world_core.specs.Lent.{now_of};
ghost use Rattle.machine_names.specs.Name.{child_path};
ghost use Rattle.machine_names.specs.NameOrder.{path_cmp};
ghost use Rattle.world_core.specs.Told.{told_of};
ghost use Rattle.world_core.specs.Shows.{Member, paged_of};
ghost use Rattle.world_core.specs.World.{Forest, StandsFor, IsWorld};
ghost use Rattle.world_core.specs.Answers.{IsLentOf, Takes, TakesNamed};
ghost use Rattle.world_core.specs.Popped.{TakesBy, ShowsCells, IsFirstAsleep, is_listed_in, sleeps, with_turn};

use crate::cell::Cell;
use crate::lease::Lease;
use crate::world::{Taken, World, seat};
use image_depot::Depot;
use machine_names::Name;
use ready_queue::ReadyTurn;
use run_report::OutcomeRoom;
use std::alloc::{AllocError, Global};
use vm_cell::Vm;

impl World {
    /// Hands out a machine that is ready: first one that came back and may run on, then a child for which a machine waits, then
    /// a child of the oldest ticket. Memory is wanted only where it is still a descriptor.
    pub fn take(&mut self, alloc: Global, depot: &Depot) -> Taken
        requires { IsWorld depot.now self.old }
        ensures takes { (f : Forest) → StandsFor depot.now self.old f → Takes depot.now f result self.new }
        ensures told { told_of self.new ≡ told_of self.old }
        ensures images { (images : Images) → AreOfImages images self.old → AreOfImages images self.new × IsTakenAt images result }
    {
        if self.outcome.is_some() {
            return Taken::Over;
        }
        if let Some(reason) = self.halted {
            return Taken::Stopped(reason);
        }
        while let Some(turn) = self.ready.pop() {
            if let Some(taken) = self.take_by(alloc, depot, turn) {
                self.keep_taken(&taken);
                return taken;
            }
        }
        if self.is_one_out() {
            Taken::Idle
        } else {
            Taken::Stuck
        }
    }

    /// Hands out a machine by its turn, or nothing where none of the turn is ready any more.
    fn take_by(&mut self, alloc: Global, depot: &Depot, turn: ReadyTurn) -> Option<Taken>
        requires world { IsWorld depot.now (with_turn turn self.old) }
        requires going { (self.old.outcome ≡ None) × (self.old.halted ≡ None) }
        ensures takes { (f : Forest) → StandsFor depot.now (with_turn turn self.old) f
            → TakesBy depot.now f result self.new }
        ensures going { (self.new.outcome ≡ None) × (self.new.halted ≡ None) }
        ensures turns { IfNone result (self.new.ready ≡ self.old.ready) }
        ensures told { told_of self.new ≡ told_of self.old }
        ensures images { (images : Images) → AreOfImages images self.old → AreOfImages images self.new × AreTakenAt images result }
    {
        match turn.children() {
            None => self.take_awake(turn),
            Some((ticket, first)) => self.take_asleep(alloc, depot, turn, ticket, first),
        }
    }

    /// Hands out the machine of a turn, if it is ready.
    fn take_awake(&mut self, turn: ReadyTurn) -> Option<Taken>
        requires one { turn.children ≡ None }
        requires world { (depot : Shelves) × IsWorld depot (with_turn turn self.old) }
        requires going { (self.old.outcome ≡ None) × (self.old.halted ≡ None) }
        ensures takes { (depot : Shelves) (f : Forest) → StandsFor depot (with_turn turn self.old) f
            → TakesBy depot f result self.new }
        ensures going { (self.new.outcome ≡ None) × (self.new.halted ≡ None) }
        ensures turns { self.new.ready ≡ self.old.ready }
        ensures told { told_of self.new ≡ told_of self.old }
        ensures images { (images : Images) → AreOfImages images self.old → AreOfImages images self.new × AreTakenAt images result }
    {
        let cell = self.cells.get_mut(turn.name())?;
        cell.is_listed = false;
        let vm = cell.lend()?;
        let kin = cell.kin.take();
        Some(Taken::Took(Lease::new(turn, kin, vm)))
    }

    /// Wakes the first child of a turn that is still a descriptor, if there is one, and hands it out.
    fn take_asleep(
        &mut self,
        alloc: Global,
        depot: &Depot,
        turn: ReadyTurn,
        ticket: u32,
        first: u32,
    ) -> Option<Taken>
        requires children { turn.children ≡ Some (ticket, first) }
        requires world { IsWorld depot.now (with_turn turn self.old) }
        requires going { (self.old.outcome ≡ None) × (self.old.halted ≡ None) }
        ensures takes { (f : Forest) → StandsFor depot.now (with_turn turn self.old) f
            → TakesBy depot.now f result self.new }
        ensures going { (self.new.outcome ≡ None) × (self.new.halted ≡ None) }
        ensures turns { IfNone result (self.new.ready ≡ self.old.ready) }
        ensures told { told_of self.new ≡ told_of self.old }
        ensures images { (images : Images) → AreOfImages images self.old → AreOfImages images self.new × AreTakenAt images result }
    {
        let index = self.asleep_from(turn.name(), ticket, first)?;
        let woken = self.wake(alloc, depot, turn.name(), ticket, index);
        let mut turn = turn;
        turn.set_children(ticket, index);
        self.ready.push(turn);
        match woken {
            Ok(lease) => Some(Taken::Took(lease)),
            Err(_) => Some(Taken::Memory),
        }
    }

    /// Hands out the machine of a name, if one lives at home, where it waits too.
    pub fn take_named(
        &mut self,
        alloc: Global,
        name: &Name,
        depot: &Depot,
    ) -> Result<Option<Lease>, AllocError>
        requires { IsWorld depot.now self.old }
        ensures takes { (f : Forest) → StandsFor depot.now self.old f → TakesNamed depot.now f name.now result self.new }
        ensures told { told_of self.new ≡ told_of self.old }
        ensures images { (images : Images) → AreOfImages images self.old → AreOfImages images self.new × IfOk result (λ lease. IfSome lease (IsLentAt images)) }
    {
        if self.outcome.is_some() {
            return Ok(None);
        }
        if let Some(cell) = self.cells.get_mut(name) {
            let turn = ReadyTurn::of_machine(alloc, name.copy()?)?;
            let Some(vm) = cell.lend_named() else {
                return Ok(None);
            };
            let kin = cell.kin.take();
            return Ok(Some(Lease::new(turn, kin, vm)));
        }
        let mut parent = name.copy()?;
        let Some((ticket, index)) = parent.pop() else {
            unreachable!();
        };
        if !self.is_asleep(&parent, ticket, index) {
            return Ok(None);
        }
        Ok(Some(self.wake(alloc, depot, &parent, ticket, index)?))
    }

    /// Whether a child is still a descriptor.
    fn is_asleep(&self, parent: &Name, ticket: u32, index: u32) -> bool
        ensures { (depot : Shelves) (t : Tree Member) → ShowsCells depot self.now.cells t → result ≡ sleeps parent.now ticket index t }
    {
        let Some(cell) = self.cells.get(parent) else {
            return false;
        };
        match cell.broods.get(&ticket) {
            Some(brood) => brood.is_asleep(index),
            None => false,
        }
    }

    /// The first child of a ticket, from one on, that is still a descriptor.
    fn asleep_from(&self, parent: &Name, ticket: u32, first: u32) -> Option<u32>
        requires { (depot : Shelves) × (t : Tree Member) × ShowsCells depot self.now.cells t }
        ensures { (depot : Shelves) (t : Tree Member) → ShowsCells depot self.now.cells t
            → IsFirstAsleep parent.now ticket first t result }
    {
        let cell = self.cells.get(parent)?;
        let brood = cell.broods.get(&ticket)?;
        // Children count from 1.
        brood.asleep_from(first.max(1))
    }

    /// Wakes a child that is still a descriptor, and hands it out.
    fn wake(
        &mut self,
        alloc: Global,
        depot: &Depot,
        parent: &Name,
        ticket: u32,
        index: u32,
    ) -> Result<Lease, AllocError>
        requires { (t : Tree Member) × ShowsCells depot.now self.old.cells t × (sleeps parent.now ticket index t ≡ true) }
        ensures lease { IfOk result (λ lease. (lease.name ≡ child_path parent.now ticket index) × (lease.ran ≡ 0)
            × (lease.now ≡ lease.start) × IsLentOf depot.now lease) }
        ensures start { (t : Tree Member) → ShowsCells depot.now self.old.cells t → sleeps parent.now ticket index t ≡ true
            → IfOk result (λ lease. IfSome (subtree lease.name t) (λ a. paged_of (machine a) ≡ now_of lease)) }
        ensures cells { (t : Tree Member) → ShowsCells depot.now self.old.cells t → sleeps parent.now ticket index t ≡ true
            → OnOk result (ShowsCells depot.now self.new.cells (at_path (placed out) (child_path parent.now ticket index) t)) }
        ensures same { OnErr result ((name : Path) → get path_cmp self.new.cells name ≡ get path_cmp self.old.cells name) }
        ensures listed { (name : Path) → is_listed_in (get path_cmp self.new.cells name) ≡ is_listed_in (get path_cmp self.old.cells name) }
        ensures others { (name : Path) → name ≢ child_path parent.now ticket index
            → is_some (get path_cmp self.new.cells name) ≡ is_some (get path_cmp self.old.cells name) }
        ensures rest { (self.new.ready ≡ self.old.ready) × (self.new.halted ≡ self.old.halted) × (self.new.outcome ≡ self.old.outcome) }
        ensures told { told_of self.new ≡ told_of self.old }
        ensures images { (images : Images) → AreOfImages images self.old → AreOfImages images self.new × IfOk result (IsLentAt images) }
    {
        let (name, turn, vm, room) = self.woken_child(alloc, depot, parent, ticket, index)?;
        let again = name.copy()?;
        let kin = parent.copy()?;
        seat(&mut self.cells, name, Cell::of_lent(alloc, room))?;
        let Some(cell) = self.cells.get_mut(parent) else {
            unreachable!();
        };
        cell.child_wakes(ticket, index, again);
        Ok(Lease::new(turn, Some(kin), vm))
    }

    /// A child that is still a descriptor, as it wakes: its name, its turn, its machine, and room for its end.
    fn woken_child(
        &self,
        alloc: Global,
        depot: &Depot,
        parent: &Name,
        ticket: u32,
        index: u32,
    ) -> Result<(Name, ReadyTurn, Box<Vm>, OutcomeRoom), AllocError>
        requires { (t : Tree Member) × ShowsCells depot.now self.now.cells t × (sleeps parent.now ticket index t ≡ true) }
        ensures name { IfOk result (λ woken. woken.0 ≡ child_path parent.now ticket index) }
        ensures turn { IfOk result (λ woken. woken.1 ≡ record { name = child_path parent.now ticket index; children = None }) }
        ensures machine { (t : Tree Member) → ShowsCells depot.now self.now.cells t → sleeps parent.now ticket index t ≡ true
            → IfOk result (λ woken. IfSome (subtree (child_path parent.now ticket index) t) (λ a. paged_of (machine a) ≡ paged woken.2.value)) }
        ensures of_depot { IfOk result (λ woken. IsOfDepot depot.now woken.2.value.key) }
        ensures images { (images : Images) → AreOfImages images self.now
            → IfOk result (λ woken. IsImageAt images (child_path parent.now ticket index) woken.2.value.key) }
    {
        let name = parent.child(alloc, ticket, index)?;
        let turn = ReadyTurn::of_machine(alloc, name.copy()?)?;
        let Some(cell) = self.cells.get(parent) else {
            unreachable!();
        };
        let vm = cell.woken(alloc, depot, ticket, index)?;
        let vm = Box::new(alloc, vm)?;
        let room = OutcomeRoom::new(alloc)?;
        Ok((name, turn, vm, room))
    }
}
