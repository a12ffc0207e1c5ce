ghost use Rattle.std.specs.Prelude.{◌≡◌, ◌+◌, ◌≤◌, ◌<◌, ◌⊎◌, ℕ, ◌&&◌, Bool, true, false, not};
ghost use Rattle.std.specs.Prelude.{nat_lt, [], Option, Some, None, IfOk, IfSome, MatchOption, vec_len};
ghost use Rattle.image_depot.specs.Key.{Shelves};
ghost use Rattle.forest_tree.specs.Operations.{is_cloned};
ghost use Rattle.forest_tree.specs.Tree.{Tree, machine, brood_of, broods_of, size, Path};
ghost use Rattle.forest_tree.specs.Step.{alone, has_ended, have_ended};
ghost use Rattle.sibling_forest.specs.Talk.{Inbox};
ghost use Rattle.talking_history.specs.Places.{home, out, placed};
ghost use Rattle.talking_history.specs.World.{is_asleep_at, lives_ready, lives_at_home};
ghost use Rattle.forest_model.specs.Paged.{paged_machines, paged_talks};
ghost use Rattle.machine_names.specs.Name.{child_path};
ghost use Rattle.vm_cell.specs.Keyed.{IsOfDepot, KeyedMachine, paged};
ghost use Rattle.vm_descriptor.specs.declared.descriptor.TheConstants.{MAX_CLONES};
ghost use Rattle.world_core.specs.Kin.{IsKin};
ghost use Rattle.world_core.specs.Images.{HasImages, Images, IsImageAt};
ghost use Rattle.world_core.specs.Between.{HasLeft};
ghost use Rattle.world_core.specs.Unparked.{JoinsAlone, ends_wait, is_parked_for, kept_turn, rests_with, unparked};
ghost use Rattle.world_core.specs.Shows.{CellShows, Holds, IsAwake, IsLeft, IsNotAsleep, Member, child_of};
ghost use Rattle.world_core.specs.Shows.{is_asleep_slot, slot_at, forest, paged_of, siblings_of, with_child};

use crate::kept_image::KeptImage;
use forest_model::Ending;
use fork_port::Call;
use image_depot::Depot;
use machine_names::Name;
use ready_queue::ReadyTurn;
use run_report::{Line, Outcome, OutcomeRoom};
use sibling_port::Talk;
use sibling_words::{SiblingNotes, SiblingWords};
use std::alloc::{AllocError, Global};
use std::collections::BTreeMap;
use std::mem;
use std::sync::Wait;
use vm_cell::Vm;

pub(crate) mod broods;
mod calls;
pub(crate) mod talks;

/// A machine that lives and is no descriptor any more.
#[derive(Drop)]
pub(crate) struct Cell {
    /// The name of its parent, where it has one. While the machine is on lease, the lease has it.
    pub(crate) kin: Option<Name>,
    pub(crate) state: State,
    /// A turn for it is among those of its world.
    pub(crate) is_listed: bool,
    /// The children of its cloned tickets.
    pub(crate) broods: BTreeMap<u32, Brood>,
    /// It has room for a line of each brood.
    pub(crate) log: Vec<Line>,
    /// Room for the end of the machine.
    pub(crate) room: OutcomeRoom,
}

/// Where a machine is.
#[derive(Drop)]
pub(crate) enum State {
    /// It is at home, and can be handed out.
    Home(Box<Vm>),
    /// It is at home, and waits. It keeps the room for its turn.
    Parked(Awaited, Box<Vm>, ReadyTurn),
    /// It is on lease.
    Out,
}

/// What a parked machine waits for.
#[derive(Clone, Copy)]
pub(crate) enum Awaited {
    /// That all children of a ticket have ended.
    Children(u32),
    /// That it need not wait with its next step, which is this talk.
    Sibling(Talk),
}

/// What may end a wait.
#[derive(Clone, Copy)]
pub(crate) enum Change {
    /// All children of this ticket have ended.
    AllEnded(u32),
    /// A word of this sibling has come.
    Word(u32),
    /// This sibling has taken a word.
    Room(u32),
    /// This sibling has ended.
    Ended(u32),
}

/// The children of a ticket.
#[derive(Drop)]
pub(crate) struct Brood {
    /// The name of their parent, for the line of the log where the ticket is killed.
    pub(crate) name: Name,
    /// What they start with, as long as one of them is still a descriptor.
    pub(crate) image: Option<KeptImage>,
    /// One for each of them, in order.
    pub(crate) slots: Vec<ChildSlot>,
    /// How many of them have not ended.
    pub(crate) live: u32,
    /// The words that wait between them.
    pub(crate) words: SiblingWords,
    /// Which of them came to wait for which.
    pub(crate) notes: SiblingNotes,
}

/// A child of a ticket.
#[derive(Drop)]
pub(crate) enum ChildSlot {
    /// It is still a descriptor.
    Asleep,
    /// It lives, in the cell of this name.
    Awake(Name),
    Ended(Outcome),
}

impl Clone for ChildSlot {
    ghost is_clone = { λ slot copy. copy ≡ slot };

    fn clone(&self) -> Result<ChildSlot, AllocError> {
        match self {
            ChildSlot::Asleep => Ok(ChildSlot::Asleep),
            ChildSlot::Awake(name) => Ok(ChildSlot::Awake(name.copy()?)),
            ChildSlot::Ended(outcome) => Ok(ChildSlot::Ended(outcome.clone()?)),
        }
    }
}

impl Cell {
    /// The cell of a machine that is handed out as it wakes.
    pub(crate) fn of_lent(alloc: Global, room: OutcomeRoom) -> Cell
        ensures shows { (depot : Shelves) (path : Path) (resting : Bool) (inbox : Inbox) (vm : KeyedMachine) → vm.machine.ending ≡ None
            → ((ticket : ℕ) → is_cloned paged_machines (paged vm) ticket ≡ false)
            → CellShows depot path resting result (alone forest (record { machine = record { machine = paged vm; place = out }; inbox = inbox })) }
        ensures images { (images : Images) (path : Path) → HasImages images path result }
        ensures listed { result.is_listed ≡ false }
    {
        Cell {
            kin: None,
            state: State::Out,
            is_listed: false,
            broods: BTreeMap::new(alloc),
            log: Vec::new(alloc),
            room,
        }
    }

    /// The cell of a machine that is at home from its start on, and whose turn is listed.
    pub(crate) fn of_root(alloc: Global, vm: Box<Vm>, room: OutcomeRoom) -> Cell
        ensures shows { (depot : Shelves) (resting : Bool) (inbox : Inbox) → vm.value.machine.ending ≡ None → IsOfDepot depot vm.value.key
            → ((ticket : ℕ) → is_cloned paged_machines (paged vm.value) ticket ≡ false)
            → CellShows depot [] resting result (alone forest (record { machine = record { machine = paged vm.value; place = home }; inbox = inbox })) }
        ensures images { (images : Images) (path : Path) → IsImageAt images path vm.value.key → HasImages images path result }
        ensures listed { result.is_listed ≡ true }
    {
        Cell {
            kin: None,
            state: State::Home(vm),
            is_listed: true,
            broods: BTreeMap::new(alloc),
            log: Vec::new(alloc),
            room,
        }
    }

    /// Whether a child of the ticket lives.
    pub(crate) fn waits(&self, ticket: u32) -> bool
        ensures { (depot : Shelves) (path : Path) (t : Tree Member) → Holds depot path self.now t
            → result ≡ not (have_ended forest (brood_of ticket (broods_of t))) }
    {
        match self.broods.get(&ticket) {
            Some(brood) => brood.live > 0,
            None => false,
        }
    }

    /// Hands out the machine, if it is at home and does not wait.
    pub(crate) fn lend(&mut self) -> Option<Box<Vm>>
        ensures shows { (depot : Shelves) (path : Path) (resting : Bool) (t : Tree Member) → CellShows depot path resting self.old t
            → MatchOption result ((lives_ready paged_machines paged_talks resting t ≡ false) × (self.new ≡ self.old))
            (λ vm. (lives_ready paged_machines paged_talks resting t ≡ true) × (paged vm.value ≡ paged_of (machine t)) × IsOfDepot depot vm.value.key
            × IsKin self.old.kin path × CellShows depot path resting self.new (placed out t)) }
        ensures images { (images : Images) (path : Path) → HasImages images path self.old
            → HasImages images path self.new × IfSome result (λ vm. IsImageAt images path vm.value.key) }
        ensures place { (self.new.is_listed ≡ self.old.is_listed) × (self.new.kin ≡ self.old.kin) }
    {
        if let State::Home(_) = &self.state {
            let State::Home(vm) = mem::replace(&mut self.state, State::Out) else {
                unreachable!();
            };
            return Some(vm);
        }
        None
    }

    /// Hands out the machine, if it is at home, where it waits too.
    pub(crate) fn lend_named(&mut self) -> Option<Box<Vm>>
        ensures shows { (depot : Shelves) (path : Path) (resting : Bool) (t : Tree Member) → CellShows depot path resting self.old t
            → MatchOption result ((lives_at_home paged_machines paged_talks t ≡ false) × (self.new ≡ self.old))
            (λ vm. (lives_at_home paged_machines paged_talks t ≡ true) × (paged vm.value ≡ paged_of (machine t)) × IsOfDepot depot vm.value.key
            × IsKin self.old.kin path × CellShows depot path resting self.new (placed out t)) }
        ensures images { (images : Images) (path : Path) → HasImages images path self.old
            → HasImages images path self.new × IfSome result (λ vm. IsImageAt images path vm.value.key) }
        ensures place { (self.new.is_listed ≡ self.old.is_listed) × (self.new.kin ≡ self.old.kin) }
    {
        if let State::Parked(_, _, _) = &self.state {
            let State::Parked(_, vm, _) = mem::replace(&mut self.state, State::Out) else {
                unreachable!();
            };
            return Some(vm);
        }
        self.lend()
    }

    /// The machine of a child that is still a descriptor, woken from the descriptor's bytes.
    pub(crate) fn woken(
        &self,
        alloc: Global,
        depot: &Depot,
        ticket: u32,
        index: u32,
    ) -> Result<Vm, AllocError>
        requires { (path : Path) × (t a : Tree Member) × Holds depot.now path self.now t × (child_of ticket index t ≡ Some a)
            × (is_asleep_at (machine a).machine.place ≡ true) × (has_ended forest a ≡ false) }
        ensures shows { (path : Path) (t a : Tree Member) → Holds depot.now path self.now t → child_of ticket index t ≡ Some a
            → is_asleep_at (machine a).machine.place ≡ true → has_ended forest a ≡ false → siblings_of (machine a) ≡ size (brood_of ticket (broods_of t))
            → IfOk result (λ vm. (paged vm ≡ paged_of (machine a)) × IsOfDepot depot.now vm.key) }
        ensures images { (images : Images) (path : Path) → HasImages images path self.now
            → IfOk result (λ vm. IsImageAt images (child_path path ticket index) vm.key) }
    {
        let Some(brood) = self.broods.get(&ticket) else {
            unreachable!();
        };
        let Some(image) = &brood.image else {
            unreachable!();
        };
        let image = image.get();
        let seed = image.seed.through_bytes(alloc, index)?;
        Vm::wake(alloc, &seed, brood.slots.len() as u32, &image.key, depot)
    }

    /// A child has a cell of its own from now on, of this name.
    pub(crate) fn child_wakes(&mut self, ticket: u32, index: u32, name: Name)
        requires { (depot : Shelves) × (path : Path) × (t a : Tree Member) × Holds depot path self.old t × (child_of ticket index t ≡ Some a)
            × (is_asleep_at (machine a).machine.place ≡ true) × (has_ended forest a ≡ false) }
        ensures shows { (depot : Shelves) (path : Path) (resting : Bool) (t a : Tree Member) → CellShows depot path resting self.old t
            → child_of ticket index t ≡ Some a → is_asleep_at (machine a).machine.place ≡ true → has_ended forest a ≡ false
            → name ≡ child_path path ticket index → CellShows depot path resting self.new (with_child ticket index (placed out a) t) }
        ensures images { (images : Images) (path : Path) → HasImages images path self.old → HasImages images path self.new }
        ensures place { (self.new.is_listed ≡ self.old.is_listed) × (self.new.kin ≡ self.old.kin) }
    {
        let Some(brood) = self.broods.get_mut(&ticket) else {
            unreachable!();
        };
        brood.slots[index as usize - 1] = ChildSlot::Awake(name);
        brood.let_go();
    }

    /// A child of the machine has ended, and the words to it are dropped. The machine's turn comes back where it waited
    /// for that.
    pub(crate) fn child_ended(
        &mut self,
        ticket: u32,
        index: u32,
        outcome: Outcome,
    ) -> Option<ReadyTurn>
        requires { (depot : Shelves) × (path : Path) × (resting : Bool) × (t a : Tree Member) × CellShows depot path resting self.old t
            × (child_of ticket index t ≡ Some a) × IsAwake a }
        ensures shows { (depot : Shelves) (path : Path) (by_talk : Bool) (t a b : Tree Member) → JoinsAlone by_talk t
            → CellShows depot path (rests_with by_talk t) self.old t → child_of ticket index t ≡ Some a → IsAwake a
            → HasLeft (child_path path ticket index) b outcome
            → CellShows depot path (rests_with by_talk (with_child ticket index b t)) self.new (with_child ticket index b t) }
        ensures images { (images : Images) (path : Path) → HasImages images path self.old → HasImages images path self.new }
        ensures turn { (depot : Shelves) (path : Path) (resting : Bool) (t : Tree Member) → CellShows depot path resting self.old t
            → IfSome result (λ turn. turn ≡ record { name = path; children = None }) }
        ensures listed { MatchOption result (self.new.is_listed ≡ self.old.is_listed) (λ turn. self.new.is_listed ≡ true) }
        ensures ready { (depot : Shelves) (path : Path) (by_talk : Bool) (t a b : Tree Member) → JoinsAlone by_talk t
            → CellShows depot path (rests_with by_talk t) self.old t → child_of ticket index t ≡ Some a → IsAwake a
            → HasLeft (child_path path ticket index) b outcome
            → lives_ready paged_machines paged_talks (rests_with by_talk (with_child ticket index b t)) (with_child ticket index b t) ≡ true
            → (lives_ready paged_machines paged_talks (rests_with by_talk t) t ≡ true) ⊎ (self.new.is_listed ≡ true) }
    {
        let Some(brood) = self.broods.get_mut(&ticket) else {
            unreachable!();
        };
        brood.slots[index as usize - 1] = ChildSlot::Ended(outcome);
        brood.words.clear(index);
        brood.live -= 1;
        if brood.live > 0 {
            return None;
        }
        self.unpark(Change::AllEnded(ticket))
    }

    /// Ends a wait, where the change ends it. The machine's turn comes back where it is to be listed.
    pub(crate) fn unpark(&mut self, change: Change) -> Option<ReadyTurn>
        ensures state { self.new.state ≡ unparked change self.old.state }
        ensures rest { (self.new.broods ≡ self.old.broods) × (self.new.log ≡ self.old.log) × (self.new.kin ≡ self.old.kin) }
        ensures turn { IfSome result (λ turn. kept_turn self.old.state ≡ Some turn) }
        ensures listed { MatchOption result (self.new.is_listed ≡ self.old.is_listed) (λ turn. self.new.is_listed ≡ true) }
        ensures ready { is_parked_for change self.old.state ≡ true → self.new.is_listed ≡ true }
    {
        let State::Parked(awaited, _, _) = &self.state else {
            return None;
        };
        if !change.ends(*awaited) {
            return None;
        }
        let State::Parked(_, vm, turn) = mem::replace(&mut self.state, State::Out) else {
            unreachable!();
        };
        self.state = State::Home(vm);
        if self.is_listed {
            return None;
        }
        self.is_listed = true;
        Some(turn)
    }
}

impl Change {
    /// Whether it ends a wait for this.
    fn ends(self, awaited: Awaited) -> bool
        ensures { result ≡ ends_wait self awaited }
    {
        match (self, awaited) {
            (Change::AllEnded(ticket), Awaited::Children(waited)) => ticket == waited,
            (Change::Word(from), Awaited::Sibling(Talk::Receive(peer))) => from == peer,
            (Change::Room(to), Awaited::Sibling(Talk::Send(peer))) => to == peer,
            (Change::Ended(sibling), Awaited::Sibling(Talk::Send(peer))) => sibling == peer,
            (Change::Ended(sibling), Awaited::Sibling(Talk::Receive(peer))) => sibling == peer,
            _ => false,
        }
    }
}

impl Brood {
    /// Whether a child is still a descriptor.
    pub(crate) fn is_asleep(&self, index: u32) -> bool
        ensures { result ≡ nat_lt 0 index && is_asleep_slot (slot_at index self.now.slots.items) }
    {
        index > 0 && matches!(self.slots.get(index as usize - 1), Some(ChildSlot::Asleep))
    }

    /// Lets go of what the children start with, where none of them is a descriptor any more. Most wake in their order, so
    /// while the last has not, there is no look at the others.
    fn let_go(&mut self)
        requires few { vec_len self.old.slots ≤ MAX_CLONES }
        ensures image { IsLeft self.old.image self.old.slots.items self.new.image }
        ensures rest { self.new ≡ record self.old { image = self.new.image } }
    {
        let last = self.slots.len() as u32;
        if self.is_asleep(last) || self.asleep_from(1).is_some() {
            return;
        }
        self.image = None;
    }

    /// The first child, from one on, that is still a descriptor.
    pub(crate) fn asleep_from(&self, first: u32) -> Option<u32>
        requires first { 1 ≤ first }
        requires few { vec_len self.now.slots ≤ MAX_CLONES }
        ensures { MatchOption result ((k : ℕ) → first ≤ k → IsNotAsleep (slot_at k self.now.slots.items))
            (λ index. (first ≤ index) × (slot_at index self.now.slots.items ≡ Some ChildSlot.Asleep)
            × ((k : ℕ) → first ≤ k → k < index → IsNotAsleep (slot_at k self.now.slots.items))) }
    {
        let mut index = first;
        while index as usize <= self.slots.len() {
            if let ChildSlot::Asleep = &self.slots[index as usize - 1] {
                return Some(index);
            }
            index += 1;
        }
        None
    }
}
