//! What machines of a world say to each other.

ghost use Rattle.std.specs.Prelude.{◌≡◌, ◌⊎◌, ◌≤◌, None, Some, IfNone, IfOk, IfSome, IsSome, MatchBool, OnErr, false, true};
ghost use Rattle.std.specs.BTreeMap.{get};
ghost use Rattle.image_depot.specs.Key.{Shelves};
ghost use Rattle.forest_tree.specs.Tree.{Tree, subtree};
ghost use Rattle.forest_tree.specs.Step.{has_ended};
ghost use Rattle.machine_names.specs.Name.{child_path};
ghost use Rattle.machine_names.specs.NameOrder.{path_cmp};
ghost use Rattle.vm_cell.specs.Standing.{standing_talk};
ghost use Rattle.world_core.specs.Answers.{Answers, HandedOut, IsHandedOut, IsHomeOnlyThen, IsLentOf, TalksOn, said_by, stands_waiting_of};
ghost use Rattle.world_core.specs.Between.{IsSameWorld, with_tree};
ghost use Rattle.world_core.specs.Images.{AreOfImages, Images, IsLentAt, IsTalkedAt};
ghost use Rattle.world_core.specs.Lent.{vm_of};
ghost use Rattle.world_core.specs.Shows.{IsAwake, Member, forest};
ghost use Rattle.world_core.specs.Stirring.{IsStirring, WakesOne};
ghost use Rattle.world_core.specs.Spoken.{IsOwnTurn, IsThereBy, NotesPeer, Spoke, TalksSo, said_forest};
ghost use Rattle.world_core.specs.Talking.{IsNextNoted, IsSendOf, Parks, Rouses};
ghost use Rattle.world_core.specs.Told.{told_of};
ghost use Rattle.world_core.specs.World.{Forest, IsForest, Rests, ShowsEach, StandsFor};

use crate::cell::talks::{Said, talk_peer};
use crate::cell::{Awaited, Change, State};
use crate::lease::Lease;
use crate::world::{Placed, Talked, World};
use machine_names::Name;
use ready_queue::ReadyTurn;
use sibling_port::Talk;
use std::alloc::{AllocError, Global};
use vm_cell::Vm;
use vm_descriptor::MAX_CLONES;

/// What became of a talk, before the machine is placed.
pub(crate) enum AfterTalk {
    /// The machine was taken back, or stays for want of memory.
    Placed(Placed),
    /// The talk was made, by the machine with its own turn and the name of its parent. Whether a sibling may have been woken.
    Made(ReadyTurn, Option<Name>, Box<Vm>, bool),
}

impl World {
    /// Makes the SEND or the RECEIVE at which a machine stands, or parks the machine where it waits for its sibling. A
    /// sibling that waited for this is ready then. Only a SEND may want memory.
    pub fn talk(&mut self, alloc: Global, lease: Lease) -> Placed
        requires lent { HandedOut self.old lease }
        requires talks { IsSome (standing_talk (vm_of lease)) }
        ensures answers { (depot : Shelves) (f : Forest) → StandsFor depot self.old f → IsHandedOut f lease → IsLentOf depot lease
            → IfSome (standing_talk (vm_of lease)) (λ what. Answers depot f (said_by what) lease result self.new) }
        ensures told { told_of self.new ≡ told_of self.old }
        ensures images { (images : Images) → AreOfImages images self.old → IsLentAt images lease → AreOfImages images self.new }
    {
        let Some(talk) = lease.talk() else {
            unreachable!();
        };
        match self.make_talk(alloc, lease, talk) {
            AfterTalk::Placed(answer) => answer,
            AfterTalk::Made(turn, kin, vm, _) => self.place(turn, kin, vm),
        }
    }

    /// Makes the SEND or the RECEIVE at which a machine stands, which is this one. Where it need not wait, the machine lives
    /// and the world was not stopped, the machine stays on lease, as if it had been taken again at once. Only a SEND may
    /// want memory.
    pub fn talk_on(&mut self, alloc: Global, lease: Lease, talk: Talk) -> Talked
        requires lent { HandedOut self.old lease }
        requires talks { standing_talk (vm_of lease) ≡ Some talk }
        ensures answers { (depot : Shelves) (f : Forest) → StandsFor depot self.old f → IsHandedOut f lease → IsLentOf depot lease
            → TalksOn depot f (said_by talk) lease result self.new }
        ensures home { (depot : Shelves) (f : Forest) → StandsFor depot self.old f → IsHandedOut f lease → IsLentOf depot lease
            → IsHomeOnlyThen f (said_by talk) lease result }
        ensures told { told_of self.new ≡ told_of self.old }
        ensures images { (images : Images) → AreOfImages images self.old → IsLentAt images lease
            → AreOfImages images self.new × IsTalkedAt images result }
    {
        match self.make_talk(alloc, lease, talk) {
            AfterTalk::Placed(answer) => Talked::Placed(answer),
            AfterTalk::Made(turn, kin, vm, is_heard) => {
                if !self.may_go_on(&vm) {
                    return Talked::Placed(self.place(turn, kin, vm));
                }
                Talked::Goes(Lease::new(turn, kin, vm), is_heard)
            }
        }
    }

    /// Makes the talk of a machine on lease, which is parked where it waits, and else is still to be placed.
    #[inline]
    fn make_talk(&mut self, alloc: Global, lease: Lease, talk: Talk) -> AfterTalk
        requires lent { HandedOut self.old lease }
        requires talks { standing_talk (vm_of lease) ≡ Some talk }
        ensures answers { (depot : Shelves) (f : Forest) → StandsFor depot self.old f → IsHandedOut f lease → IsLentOf depot lease
            → TalksSo depot f (said_by talk) lease result self.new }
        ensures own { IsOwnTurn lease result }
        ensures told { told_of self.new ≡ told_of self.old }
        ensures images { (images : Images) → AreOfImages images self.old → IsLentAt images lease → AreOfImages images self.new }
    {
        let Ok(said) = self.say(alloc, &lease, talk) else {
            return AfterTalk::Placed(Placed::Memory(lease));
        };
        let Some((said, is_heard)) = said else {
            lease.discard();
            return AfterTalk::Placed(Placed::Dropped);
        };
        let Lease {
            turn,
            kin,
            mut vm,
            ran: _,
            start: _,
        } = lease;
        let Some((word, answer)) = said.answer() else {
            self.park(turn, kin, vm, Awaited::Sibling(talk));
            return AfterTalk::Placed(Placed::Parked);
        };
        vm.talked(word, answer);
        AfterTalk::Made(turn, kin, vm, is_heard)
    }

    /// Whether a machine that made its talk may run on: it lives, and the world was not stopped.
    fn may_go_on(&self, vm: &Vm) -> bool
        ensures { MatchBool result ((self.now.halted ≡ None) × (vm.now.machine.ending ≡ None))
            (IsSome self.now.halted ⊎ IsSome vm.now.machine.ending) }
    {
        if self.halted.is_some() {
            return false;
        }
        vm.ended().is_none()
    }

    /// Makes the talk of a machine on lease, as far as it is of the words, and wakes the sibling that it names, where that
    /// one waited for this. It tells beside whether it may have woken one, and nothing where the name of the lease is gone.
    fn say(
        &mut self,
        alloc: Global,
        lease: &Lease,
        talk: Talk,
    ) -> Result<Option<(Said, bool)>, AllocError>
        requires lent { HandedOut self.old lease.now }
        requires talks { standing_talk (vm_of lease.now) ≡ Some talk }
        ensures spoke { (depot : Shelves) (f : Forest) → StandsFor depot self.old f → IsHandedOut f lease.now
            → IfOk result (λ told. IfSome told (λ said. Spoke f lease.now talk said.0)) }
        ensures stands { (depot : Shelves) (f : Forest) → StandsFor depot self.old f → IsHandedOut f lease.now
            → IfOk result (λ told. IfSome told (λ said. StandsFor depot self.new (said_forest lease.now talk said.0 f))) }
        ensures notes { IfOk result (λ told. IfSome told (λ said. NotesPeer talk lease.now.name said.0 self.new)) }
        ensures there { (depot : Shelves) (f : Forest) → StandsFor depot self.old f → IsHandedOut f lease.now → IsThereBy f lease.now result }
        ensures gone { IfOk result (λ told. IfNone told (IsSameWorld self.old self.new)) }
        ensures err { OnErr result ((depot : Shelves) (f : Forest) → StandsFor depot self.old f → IsHandedOut f lease.now
            → IsSendOf talk × (stands_waiting_of (vm_of lease.now) lease.now.name f.tree ≡ false) × StandsFor depot self.new f) }
        ensures told { told_of self.new ≡ told_of self.old }
        ensures images { (images : Images) → AreOfImages images self.old → AreOfImages images self.new }
    {
        let Some(parent) = &lease.kin else {
            unreachable!();
        };
        let Some((ticket, index)) = lease.name().last() else {
            unreachable!();
        };
        let Some(cell) = self.cells.get_mut(parent) else {
            return Ok(None);
        };
        if !cell.is_awake(ticket, index) {
            return Ok(None);
        }
        let said = cell.say(alloc, ticket, index, talk, lease.vm.data())?;
        let Some(change) = said.change(index) else {
            return Ok(Some((said, false)));
        };
        // One that waits for this is noted for it.
        let peer = talk_peer(talk);
        if !cell.is_noted(ticket, peer, index) {
            return Ok(Some((said, false)));
        }
        self.stir(parent, ticket, peer, change);
        Ok(Some((said, true)))
    }

    /// Whether the talk of the machine of a cell waits.
    pub(crate) fn talk_waits(&self, lease: &Lease, talk: Talk) -> bool
        requires { standing_talk (vm_of lease.now) ≡ Some talk }
        ensures { (depot : Shelves) (f : Forest) → StandsFor depot self.now f → IsHandedOut f lease.now
            → IsSome (subtree lease.now.name f.tree) → result ≡ stands_waiting_of (vm_of lease.now) lease.now.name f.tree }
    {
        let Some(parent) = &lease.kin else {
            return false;
        };
        let Some((ticket, index)) = lease.name().last() else {
            return false;
        };
        match self.cells.get(parent) {
            Some(cell) => cell.talk_waits(ticket, index, talk),
            None => false,
        }
    }

    /// Parks a machine that waits.
    pub(crate) fn park(&mut self, turn: ReadyTurn, kin: Option<Name>, vm: Box<Vm>, awaited: Awaited)
        requires { IsSome (get path_cmp self.old.cells turn.name) }
        ensures { Parks turn kin vm.value awaited self.old self.new }
    {
        let Some(cell) = self.cells.get_mut(turn.name()) else {
            unreachable!();
        };
        cell.kin = kin;
        cell.state = State::Parked(awaited, vm, turn);
    }

    /// Tells the child of a ticket of a change. It is ready then, where it waited for that.
    fn stir(&mut self, parent: &Name, ticket: u32, index: u32, change: Change)
        requires { 1 ≤ index }
        ensures each { (depot : Shelves) (before after : Rests) (t : Tree Member) → IsForest t → IsAwake t → ShowsEach depot before self.old t
            → WakesOne change (child_path parent.now ticket index) before after t → ShowsEach depot after self.new t }
        ensures rest { (self.new.halted ≡ self.old.halted) × (self.new.outcome ≡ self.old.outcome) }
        ensures told { told_of self.new ≡ told_of self.old }
        ensures images { (images : Images) → AreOfImages images self.old → AreOfImages images self.new }
    {
        let Some(cell) = self.cells.get_mut(parent) else {
            return;
        };
        let Some(name) = cell.take_name(ticket, index) else {
            return;
        };
        self.rouse(&name, change);
        let Some(cell) = self.cells.get_mut(parent) else {
            unreachable!();
        };
        cell.put_name(ticket, index, name);
    }

    /// Tells a machine of a change. It is ready then, where it waited for that.
    fn rouse(&mut self, name: &Name, change: Change)
        ensures rouses { Rouses change name.now self.old self.new }
        ensures images { (images : Images) → AreOfImages images self.old → AreOfImages images self.new }
    {
        let Some(cell) = self.cells.get_mut(name) else {
            return;
        };
        if let Some(turn) = cell.unpark(change) {
            self.ready.push(turn);
        }
    }

    /// Tells the siblings of a machine that has ended of that. Those that waited for it are ready then.
    pub(crate) fn stir_siblings(&mut self, parent: &Name, ticket: u32, index: u32)
        requires { 1 ≤ index }
        ensures stands { (depot : Shelves) (f : Forest) (b : Tree Member) → IsStirring depot self.old f parent.now ticket index b 1
            → has_ended forest b ≡ true → StandsFor depot self.new (with_tree (child_path parent.now ticket index) b f) }
        ensures told { told_of self.new ≡ told_of self.old }
        ensures images { (images : Images) → AreOfImages images self.old → AreOfImages images self.new }
    {
        let mut first = 1;
        while let Some(who) = self.next_noted(parent, ticket, index, first) {
            self.stir(parent, ticket, who, Change::Ended(index));
            first = who + 1;
        }
    }

    /// The first child of a ticket, from one on, that last came to wait for a sibling.
    fn next_noted(&self, parent: &Name, ticket: u32, peer: u32, first: u32) -> Option<u32>
        requires { 1 ≤ peer }
        ensures noted { IsNextNoted (get path_cmp self.now.cells parent.now) ticket peer first result }
        ensures bounds { IfSome result (λ who. (first ≤ who) × (who ≤ MAX_CLONES)) }
    {
        let cell = self.cells.get(parent)?;
        let brood = cell.broods.get(&ticket)?;
        let last = brood.slots.len().min(MAX_CLONES as usize) as u32;
        brood.notes.next_of(peer, first, last)
    }
}
