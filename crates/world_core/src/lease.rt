ghost use Rattle.std.specs.Prelude.{◌≡◌, ◌≢◌, ◌≤◌, ◌<◌, ◌+◌, ◌-◌, ◌*◌, length, slice_index_or, false, IfOk, OnErr, None};
ghost use Rattle.std.specs.Option.{option_copied};
ghost use Rattle.image_depot.specs.Key.{IsKeyOf, Shelves};
ghost use Rattle.forest_model.specs.Machine.{after_steps};
ghost use Rattle.forest_model.specs.Paged.{stalled_at};
ghost use Rattle.vm_cell.specs.Acts.{Grows};
ghost use Rattle.vm_cell.specs.Keyed.{Arrives, HasImage, IsOfDepot, paged};
ghost use Rattle.vm_cell.specs.Shown.{peeked, shown_registers};
ghost use Rattle.vm_cell.specs.Standing.{standing_call, standing_talk};
ghost use Rattle.vm_cell.specs.Steps.{IsFreeFor, Stands, moved_by};
ghost use Rattle.world_core.specs.Answers.{IsHandedOut, IsOutSince, join_ticket};
ghost use Rattle.world_core.specs.Arrived.{StillHandedOut, after_arrival};
ghost use Rattle.world_core.specs.Lent.{HasLed, IsSameLease, lent_as, vm_of};
ghost use Rattle.world_core.specs.Kin.{IsKin};
ghost use Rattle.world_core.specs.World.{Forest, StandsFor};
ghost use Rattle.world_core.specs.declared.world.World.{World};

use cow_disk::{MAX_SECTORS, PAGE_SECTORS};
use forest_model::Ending;
use fork_port::Call;
use image_depot::{Depot, ImageKey, Parcel};
use machine_names::Name;
use ready_queue::ReadyTurn;
use sibling_port::Talk;
use std::alloc::{AllocError, Global};
use std::marker::Model;
use std::snapshot::Snapshot;
use vm_cell::{Arrived, Ran, Slots, Stepped, Vm};

/// A machine on lease. It runs by itself, and nothing else runs it meanwhile. A lease cannot be let go: it is
/// spent by the world that handed it out, in `give`, `end`, `fork`, `commit_fork`, `join`, `kill`, `talk` or `talk_on`.
pub struct Lease {
    pub(crate) turn: ReadyTurn,
    /// The name of its parent, or `None` where it is the root.
    pub(crate) kin: Option<Name>,
    pub(crate) vm: Box<Vm>,
    pub(crate) ran: u64,
    pub(crate) start: Snapshot<Vm>,
}

impl Model for Lease {
    ghost use Rattle.world_core.specs.Lent.{Lent, IsLease, lent_as};

    ghost Value = { Lent };

    ghost view = { λ l. lent_as l.turn.name l.start.value.machine l.ran l.vm.value };

    ghost invariant = { λ l. IsLease l.turn l.kin l.start.value.machine l.ran l.vm.value };
}

impl Lease {
    /// A machine that is handed out, with the turn of its name and the name of its parent.
    pub(crate) fn new(turn: ReadyTurn, kin: Option<Name>, vm: Box<Vm>) -> Lease
        requires own { turn.children ≡ None }
        requires kin { IsKin kin turn.name }
        ensures { result ≡ lent_as turn.name vm.value.machine 0 vm.value }
    {
        let start = Snapshot::of(&*vm);
        Lease {
            turn,
            kin,
            vm,
            ran: 0,
            start,
        }
    }

    /// Lets go of a machine whose name is gone from its world.
    pub(crate) fn discard(self) {
        let Lease {
            turn: _,
            kin: _,
            vm: _,
            ran: _,
            start: _,
        } = self;
    }

    /// The name of the machine.
    pub fn name(&self) -> &Name
        ensures { result.now ≡ self.now.name }
    {
        self.turn.name()
    }

    /// The steps that the machine has made since it was handed out. They led to what it is, and to what is known of its
    /// pages.
    pub fn ran(&self) -> u64
        ensures value { result ≡ self.now.ran }
        ensures after { self.now.now ≡ after_steps self.now.ran self.now.start }
        ensures led { HasLed self.now }
        // Where the machine is out since then, the lease was handed out in the forest with other flags of its pages alone.
        ensures handed { (depot : Shelves) (w : World) (f : Forest) → StandsFor depot w f → IsOutSince f self.now → StillHandedOut depot w f self.now }
    {
        self.ran
    }

    /// How the machine has ended, or `None` while it lives.
    pub fn ended(&self) -> Option<Ending>
        ensures { result ≡ self.now.now.ending }
    {
        self.vm.ended()
    }

    /// The call that the machine is to make next, if it is to make one.
    pub fn call(&self) -> Option<Call>
        ensures { result ≡ standing_call (vm_of self.now) }
    {
        self.vm.call()
    }

    /// The talk that the machine is to make next, if it is to make one.
    pub fn talk(&self) -> Option<Talk>
        ensures { result ≡ standing_talk (vm_of self.now) }
    {
        self.vm.talk()
    }

    /// The ticket of the JOIN that the machine is to make next, if it is to make one.
    pub fn joins(&self) -> Option<u32>
        ensures { result ≡ join_ticket (standing_call (vm_of self.now)) }
    {
        match self.vm.call() {
            Some(Call::Join(ticket)) => Some(ticket),
            _ => None,
        }
    }

    /// The most steps that the machine may make.
    pub fn limit(&self) -> u64
        ensures { result ≡ self.now.now.limit }
    {
        self.vm.limit()
    }

    /// The word of RAM at an address as it would read, or `None` where the address is no multiple of 4 in RAM.
    pub fn peek(&self, depot: &Depot, address: u32) -> Option<u32>
        requires { IsOfDepot depot.now self.now.key }
        ensures { result ≡ peeked self.now.now.state address }
    {
        self.vm.peek(depot, address)
    }

    /// The key to the image that has the absent pages. A machine that was booted has none, and wants nothing.
    pub fn key(&self) -> Option<&ImageKey>
        ensures value { option_copied result ≡ self.now.key }
        ensures absent { HasImage self.now.key self.now.pages }
    {
        self.vm.key()
    }

    /// The place of the page at which the next step stalls, if it stalls.
    pub fn wanted(&self) -> Option<u32>
        ensures { result ≡ stalled_at (paged (vm_of self.now)) }
    {
        self.vm.wanted()
    }

    /// The pages of RAM.
    pub fn pages(&self) -> u32
        ensures { result ≡ length self.now.pages.blank }
    {
        self.vm.pages()
    }

    /// All pages. One is told by its place: those of RAM come first, and then those of the disk.
    pub fn places(&self) -> u32
        ensures value { result ≡ length self.now.pages.here }
        ensures least { length self.now.pages.blank ≤ result }
        ensures few { PAGE_SECTORS * result ≤ PAGE_SECTORS * length self.now.pages.blank + MAX_SECTORS }
    {
        self.vm.places()
    }

    /// Whether a page is here. One that is not is absent.
    pub fn is_here(&self, page: u32) -> bool
        requires { page < length self.now.pages.here }
        ensures { result ≡ slice_index_or self.now.pages.here page false }
    {
        self.vm.is_here(page)
    }

    /// Takes a page that was sent, where it is absent and one of the image of the key. Nothing else changes.
    pub fn arrive(
        &mut self,
        alloc: Global,
        depot: &Depot,
        parcel: &Parcel,
    ) -> Result<Arrived, AllocError>
        requires of_depot { IsOfDepot depot.now self.old.key }
        requires parcel { IsKeyOf depot.now parcel.now.key }
        ensures same { IsSameLease self.old self.new × (self.new.ran ≡ self.old.ran) }
        ensures arrives { IfOk result (Arrives self.old.key self.old.pages parcel.now self.new.pages) }
        ensures rest { self.new.now ≡ self.old.now }
        ensures err { OnErr result (self.new ≡ self.old) }
        // A world stands for the forest in which the page is here.
        ensures handed { (w : World) (f : Forest) → StandsFor depot.now w f → IsHandedOut f self.old
            → IfOk result (λ arrived. StandsFor depot.now w (after_arrival self.old.name arrived f)
            × IsHandedOut (after_arrival self.old.name arrived f) self.new) }
    {
        self.vm.arrive(alloc, depot, parcel)
    }

    /// The pc, and then the registers x1 to x31.
    pub fn regs(&self) -> [u32; 32]
        ensures { result ≡ shown_registers self.now.now.state }
    {
        self.vm.regs()
    }

    /// Makes at most `most` steps, until the machine ends, stalls or is to make a call or a talk. After an `Err` the steps
    /// before it stand, and `ran` tells them. The slots may be those of runs of other machines.
    pub fn run(&mut self, slots: &mut Slots, most: u64) -> Result<Ran, AllocError>
        ensures same { IsSameLease self.old self.new }
        ensures now { IfOk result (λ ran. (self.new.ran ≡ self.old.ran + ran.steps) × (vm_of self.new ≡ moved_by ran.steps (vm_of self.old))) }
        ensures free { IfOk result (λ ran. IsFreeFor ran.steps (vm_of self.old)) }
        ensures stands { IfOk result (λ ran. Stands (vm_of self.new) ran.why) }
        ensures most { IfOk result (λ ran. ran.steps ≤ most) }
        ensures each_made { IfOk result (λ ran. self.new.now.steps ≡ self.old.now.steps + ran.steps) }
        ensures all_made { IfOk result (λ ran. ran.why ≡ Stepped.Went → ran.steps ≡ most) }
        ensures enough { IfOk result (λ ran. self.old.now.limit ≤ self.old.now.steps + most → ran.why ≢ Stepped.Went) }
        ensures err { OnErr result (vm_of self.new ≡ moved_by (self.new.ran - self.old.ran) (vm_of self.old)) }
        ensures err_free { OnErr result (IsFreeFor (self.new.ran - self.old.ran) (vm_of self.old)) }
        ensures err_ran { OnErr result (self.old.ran ≤ self.new.ran) }
        ensures err_most { OnErr result (self.new.ran < self.old.ran + most) }
        ensures err_live { OnErr result (self.new.now.ending ≡ None) }
        ensures err_here { OnErr result (stalled_at (paged (vm_of self.new)) ≡ None) }
        // Memory is wanted only where the coming step takes some.
        ensures err_memory { OnErr result (Grows self.new.now.state) }
        ensures handed { (f : Forest) → IsHandedOut f self.old → IsHandedOut f self.new }
    {
        let before = self.vm.steps();
        let ran = self.vm.run(slots, most);
        self.ran += self.vm.steps() - before;
        ran
    }
}
