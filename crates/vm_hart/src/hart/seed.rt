//! What a hart leaves for its clones, and the hart that a clone starts with.

ghost use Rattle.std.specs.Prelude.{◌≡◌, ◌≤◌, ◌∷◌, true, false, drop, IfOk};
ghost use Rattle.rv_traps.specs.Counters.{counted as csrs_counted};
ghost use Rattle.timer_port.specs.Timer.{timer_counted};
ghost use Rattle.vm_descriptor.specs.Descriptor.{IsInRange};
ghost use Rattle.image_depot.specs.Key.{IsKeyOf};
ghost use Rattle.vm_hart.specs.Calls.{made};
ghost use Rattle.vm_hart.specs.Keyed.{IsOfDepot};
ghost use Rattle.vm_hart.specs.Seeds.{IsBlankMap, IsOfImage, image_left, port_fields, seed_of, woken_hart};

use super::Hart;
use cow_disk::{Disk, SECTOR_SIZE};
use fork_port::ForkFields;
use guest_mem::GuestMem;
use image_depot::{Depot, Frozen, ImageKey};
use rv_traps::{Csrs, Wrote};
use std::alloc::{AllocError, Global};
use timer_port::TimerPort;
use vm_bus::{PortFields, Ports};
use vm_descriptor::{Descriptor, MAX_CLONES, MAX_LIMIT, MAX_SHARE};

impl Hart {
    /// An image of the memory, the disk and the input. It copies no page and no sector.
    pub fn freeze(&self, alloc: Global, depot: &Depot) -> Result<Frozen, AllocError>
        requires { IsOfDepot depot.now self.now.key }
        ensures { IfOk result (λ image. image ≡ image_left self.now.state) }
    {
        let disk = self.disk().freeze()?;
        let input = self.ports.share_input()?;
        self.memory.freeze(alloc, depot, disk, input)
    }

    /// What child 1, with this share, of the CLONE that is the coming step starts with, beside the image
    /// of this number. Its machine has made so many steps, of so many. The other children differ in their
    /// number alone.
    pub fn seed(
        &self,
        alloc: Global,
        image: u32,
        share: u32,
        steps: u64,
        limit: u64,
    ) -> Result<Descriptor, AllocError>
        requires share { share ≤ MAX_SHARE }
        requires least { 1 ≤ limit }
        requires most { limit ≤ MAX_LIMIT }
        requires steps { steps ≤ limit }
        ensures value { IfOk result (λ seed. seed ≡ seed_of (made self.now.state.ports.fork self.now.state) image 1 share steps limit self.now.pages.blank) }
        ensures registers { 0 ∷ drop 1 self.now.state.registers ≡ self.now.state.registers }
        ensures blank { IsBlankMap self.now.state.ram self.now.pages.blank }
        ensures in_range { IfOk result (λ seed. IsInRange seed) }
    {
        let PortFields {
            timer,
            console,
            block,
            fork,
        } = self.ports.fields();
        Ok(Descriptor {
            image,
            pages: self.memory.pages(),
            clone_id: 1,
            share,
            pc: self.pc.wrapping_add(4),
            registers: after_zero(&self.registers),
            csrs: counted(self.csrs).fields(),
            timer: time_counted(TimerPort::of_fields(timer)).fields(),
            steps,
            limit,
            reservation: self.reservation,
            console,
            block,
            argument_0: fork.first_argument,
            argument_1: fork.second_argument,
            join_select: fork.join_select,
            granted: fork.granted,
            blank: self.memory.blank(alloc)?,
        })
    }

    /// The hart that a descriptor and the key to its image stand for, of a child of a ticket that made so many. Its blank
    /// pages alone are here, and no page of its disk.
    pub fn woken(
        alloc: Global,
        descriptor: &Descriptor,
        siblings: u32,
        key: &ImageKey,
        depot: &Depot,
    ) -> Result<Hart, AllocError>
        requires of_depot { IsKeyOf depot.now key.now }
        requires of_image { IsOfImage key.now descriptor.now }
        ensures { IfOk result (λ hart. hart ≡ woken_hart descriptor.now siblings key.now) }
    {
        let image = depot.frozen(key);
        let disk = Disk::absent(alloc, image.sectors())?;
        let input = image.input().share()?;
        let buffer = Box::new(alloc, [0; SECTOR_SIZE])?;
        Ok(Hart {
            registers: with_zero(&descriptor.registers),
            pc: descriptor.pc,
            csrs: Csrs::of_fields(descriptor.csrs),
            reservation: descriptor.reservation,
            memory: GuestMem::clone_of(alloc, key.again()?, descriptor)?,
            ports: Ports::of_fields(
                alloc,
                &port_fields(descriptor),
                buffer,
                disk,
                input,
                siblings,
            ),
        })
    }
}

/// x1 to x31.
fn after_zero(registers: &[u32; 32]) -> [u32; 31]
    ensures { result ≡ drop 1 registers.now }
{
    let mut rest = [0; 31];
    rest.copy_from_slice(registers.split_at(1).1);
    rest
}

/// x0, which is 0, and then x1 to x31.
fn with_zero(rest: &[u32; 31]) -> [u32; 32]
    ensures { result ≡ 0 ∷ rest.now }
{
    let mut registers = [0; 32];
    registers[1..].copy_from_slice(rest);
    registers
}

/// The registers after a step that retires an instruction.
fn counted(mut csrs: Csrs) -> Csrs
    ensures { result ≡ csrs_counted csrs true Wrote.Nothing }
{
    csrs.count(true, Wrote::Nothing);
    csrs
}

/// The timer after a step.
fn time_counted(mut timer: TimerPort) -> TimerPort
    ensures { result ≡ timer_counted timer false }
{
    timer.count(false);
    timer
}

/// The registers of the ports that a descriptor tells.
fn port_fields(descriptor: &Descriptor) -> PortFields
    ensures { result ≡ port_fields descriptor.now }
{
    PortFields {
        timer: descriptor.timer,
        console: descriptor.console,
        block: descriptor.block,
        fork: ForkFields {
            first_argument: descriptor.argument_0,
            second_argument: descriptor.argument_1,
            result: descriptor.clone_id,
            clone_id: descriptor.clone_id,
            allot: descriptor.share,
            join_select: descriptor.join_select,
            granted: descriptor.granted,
            next_ticket: 1,
        },
    }
}
