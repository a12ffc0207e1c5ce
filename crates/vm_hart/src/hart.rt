ghost use Rattle.std.specs.Prelude.{◌≡◌, ◌<◌, ◌≤◌, ◌+◌, ◌*◌, ◌/◌, ◌%◌, ◌^◌, [], ◌∷◌, length, drop, slice_index_or, IfErr, IfOk, IsSomeAnd, MatchBool, MatchResult, OnOk, OnErr, Some, None, false};
ghost use Rattle.std.specs.Option.{option_copied};
ghost use Rattle.byteorder.specs.Endian.{little_bytes, little_from};
ghost use Rattle.flat_memory.specs.Flat.{put_bytes, word_at};
ghost use Rattle.cow_disk.specs.Paged.{disk_over, IsWholeDisk};
ghost use Rattle.image_depot.specs.Image.{page_count};
ghost use Rattle.image_depot.specs.Key.{IsKeyOf, image_of};
ghost use Rattle.console_port.specs.declared.port.TheConstants.{MAX_INPUT};
ghost use Rattle.rv_decode.specs.Table.{decoded};
ghost use Rattle.rv_exec.specs.Memory.{IsWidth};
ghost use Rattle.rv_traps.specs.Registers.{at_reset};
ghost use Rattle.block_port.specs.Block.{at_start as block_at_start};
ghost use Rattle.port_map.specs.Bus.{ports_at_start};
ghost use Rattle.forest_model.specs.State.{at_next_instruction, register, with_register};
ghost use Rattle.forest_model.specs.Action.{with_rd};
ghost use Rattle.forest_model.specs.Machine.{registers_at_start, trapped, count};
ghost use Rattle.forest_model.specs.Paged.{AreFlagged, pages_at_boot};
ghost use Rattle.guest_mem.specs.Ram.{IsDiskBased, disk_below};
ghost use Rattle.vm_hart.specs.Acts.{ActsBy, ActsNext, Grows, InstructionGrows, IsPut, IsUnput};
ghost use Rattle.vm_hart.specs.AtPlace.{at_place};
ghost use Rattle.instruction_slots.specs.Slots.{Learns};
ghost use Rattle.vm_hart.specs.Keyed.{Arrives, HasImage, IsAbsent, IsHere, IsOfDepot};
ghost use Rattle.vm_hart.specs.Shown.{peeked, shown_registers};

use cow_disk::{Disk, MAX_SECTORS, PAGE_SECTORS};
use elf_load::Loaded;
use forest_model::Written;
use forest_model::cause::{BREAKPOINT, ILLEGAL_INSTRUCTION, INSTRUCTION_ACCESS_FAULT};
use fork_port::Call;
use fork_port::refusals::TICKETS_END;
use guest_mem::{Absent, Arrived, GuestMem, StoreError};
use image_depot::{Depot, ImageKey, Parcel};
use instruction_slots::{Fields, Slot, slot_with};
use page_frames::PAGE_SIZE;
use rv_decode::Group;
use rv_traps::{Csrs, Wrote};
use sibling_port::Talk;
use std::alloc::{AllocError, Global};
use std::marker::Model;
use vm_bus::Ports;

mod access;
mod atomic;
mod bus;
mod call;
mod compute;
mod control;
mod fast;
mod kept;
mod memory;
mod seed;
mod system;
mod window;

use access::Reach;

/// What a machine asks of others. It makes no step of its own there.
#[derive(Clone, Copy)]
pub enum Request {
    /// A call, which concerns its children.
    Call(Call),
    /// A talk with another child of its ticket.
    Talk(Talk),
}

/// What a step came to.
#[derive(Clone, Copy)]
pub enum Acted {
    /// The step waits for this page, which is absent. Nothing has changed.
    Stalled(u32),
    /// An exception, with its cause and value. Nothing else has changed.
    Trapped {
        cause: u32,
        value: u32,
    },
    /// The timer interrupt comes before the instruction. Nothing has changed.
    Interrupted,
    /// The instruction retired, and wrote this of the counters.
    Retired(Written),
    /// The instruction retired, and ended the machine with this value. It hands over so many bytes of RAM from this address
    /// on, which are as they were.
    Exited {
        value: u32,
        address: u32,
        count: u32,
    },
    /// The machine is to make this call or talk. Nothing has changed.
    Asked(Request),
}

/// A hardware thread with its memory and ports: what an instruction sees of a machine.
#[derive(Drop)]
pub struct Hart {
    registers: [u32; 32],
    pc: u32,
    csrs: Csrs,
    reservation: Option<u32>,
    memory: GuestMem,
    ports: Ports,
}

impl Model for Hart {
    ghost use Rattle.vm_hart.specs.Hart.{IsHart, hart_of};
    ghost use Rattle.vm_hart.specs.Keyed.{KeyedState};

    ghost Value = { KeyedState };

    ghost view = { λ h. hart_of h.registers h.pc h.csrs h.reservation h.memory h.ports };

    ghost invariant = { λ h. IsHart (hart_of h.registers h.pc h.csrs h.reservation h.memory h.ports).state h.memory.key h.ports.block.disk };
}

impl Hart {
    /// A hart with an image in its RAM, at the entry, with this disk, of which every page is here, and this
    /// input, that may have `allot` clones.
    #[tactic(auto, unfolding(forest_model::specs::Machine::registers_at_start))]
    pub fn new(
        alloc: Global,
        image: &Loaded,
        disk: Disk,
        input: &[u8],
        allot: u32,
    ) -> Result<Hart, AllocError>
        requires input_fits { length input.now ≤ MAX_INPUT }
        requires disk_whole { IsWholeDisk disk }
        ensures { IfOk result (λ hart. hart ≡ record {
          state = record {
            registers = registers_at_start;
            pc = image.now.entry;
            csrs = at_reset;
            reservation = None;
            ram = image.now.ram;
            ports = ports_at_start (block_at_start (disk_over disk [])) input.now allot;
          };
          pages = pages_at_boot image.now (disk_over disk []);
          key = None;
        }) }
    {
        // The call tells that there is a flag for each page of the disk.
        let _ = disk.pages();
        Ok(Hart {
            registers: [0; 32],
            pc: image.entry(),
            csrs: Csrs::reset(),
            reservation: None,
            memory: GuestMem::booted(image)?,
            ports: Ports::new(alloc, disk, input, allot)?,
        })
    }

    /// The whole input, read or not.
    pub fn input(&self) -> &[u8]
        ensures value { result.now ≡ self.now.state.ports.console.input }
        ensures fits { length result.now ≤ MAX_INPUT }
    {
        self.ports.input()
    }

    /// The disk. Its absent pages are on that of the image of the key.
    pub fn disk(&self) -> &Disk
        ensures value { disk_over result.now (disk_below self.now.key) ≡ self.now.state.ports.block.disk }
        ensures based { IsDiskBased result.now self.now.key }
    {
        self.ports.disk()
    }

    /// The console's output.
    pub fn output(&self) -> &[u8]
        ensures { result.now ≡ self.now.state.ports.console.output }
    {
        self.ports.output()
    }

    /// The console's output, of a hart that is needed no more.
    pub fn into_output(self) -> Vec<u8>
        ensures { result.items ≡ self.state.ports.console.output }
    {
        let Hart {
            registers: _,
            pc: _,
            csrs: _,
            reservation: _,
            memory: _,
            ports,
        } = self;
        ports.into_output()
    }

    /// The word at an address as it would read, or `None` where that is no multiple of 4 in RAM.
    pub fn peek(&self, depot: &Depot, address: u32) -> Option<u32>
        requires { IsOfDepot depot.now self.now.key }
        ensures { result ≡ peeked self.now.state address }
    {
        if address % 4 != 0 {
            return None;
        }
        let offset = self.ram_offset(address)?;
        Some(self.memory.peek(depot, offset))
    }

    /// The pc, and then x1 to x31.
    pub fn shown_registers(&self) -> [u32; 32]
        ensures { result ≡ shown_registers self.now.state }
    {
        with_pc(&self.registers, self.pc)
    }

    /// The key to the image that has the absent pages, if there is one.
    pub fn key(&self) -> Option<&ImageKey>
        ensures value { option_copied result ≡ self.now.key }
        ensures absent { HasImage self.now.key self.now.pages }
    {
        // The call tells that the image has the absent pages of RAM.
        let _ = self.memory.pages();
        self.memory.key()
    }

    /// The pages of RAM.
    pub fn pages(&self) -> u32
        ensures value { result ≡ length self.now.pages.blank }
        ensures flagged { AreFlagged self.now.state self.now.pages }
    {
        // The call tells how many sectors its disk has.
        let _ = self.ports.disk().sectors();
        self.memory.pages()
    }

    /// All pages: those of RAM, and behind them those of the disk.
    pub fn places(&self) -> u32
        ensures value { result ≡ length self.now.pages.here }
        ensures least { length self.now.pages.blank ≤ result }
        ensures few { PAGE_SECTORS * result ≤ PAGE_SECTORS * length self.now.pages.blank + MAX_SECTORS }
    {
        self.memory.pages() + self.ports.disk().pages()
    }

    /// Whether a page is here.
    pub fn is_here(&self, page: u32) -> bool
        requires { page < length self.now.pages.here }
        ensures { result ≡ slice_index_or self.now.pages.here page false }
    {
        let pages = self.memory.pages();
        if page < pages {
            self.memory.is_here(page)
        } else {
            self.ports.is_here(page - pages)
        }
    }

    /// Takes a page that was sent, where it is absent and one of the image of the key.
    pub fn arrive(
        &mut self,
        alloc: Global,
        depot: &Depot,
        parcel: &Parcel,
    ) -> Result<Arrived, AllocError>
        requires hart { IsOfDepot depot.now self.old.key }
        requires parcel { IsKeyOf depot.now parcel.now.key }
        ensures arrives { IfOk result (Arrives self.old.key self.old.pages parcel.now self.new.pages) }
        ensures rest { (self.new.state ≡ self.old.state) × (self.new.key ≡ self.old.key) }
        ensures err { OnErr result (self.new ≡ self.old) }
    {
        if parcel.page() < depot.pages(parcel.key()) {
            self.arrive_in_ram(alloc, depot, parcel)
        } else {
            self.arrive_on_disk(depot, parcel)
        }
    }

    /// The same of a page of RAM.
    fn arrive_in_ram(
        &mut self,
        alloc: Global,
        depot: &Depot,
        parcel: &Parcel,
    ) -> Result<Arrived, AllocError>
        requires hart { IsOfDepot depot.now self.old.key }
        requires parcel { IsKeyOf depot.now parcel.now.key }
        requires of_ram { parcel.now.page < page_count (image_of parcel.now.key) }
        ensures arrives { IfOk result (Arrives self.old.key self.old.pages parcel.now self.new.pages) }
        ensures rest { (self.new.state ≡ self.old.state) × (self.new.key ≡ self.old.key) }
        ensures err { OnErr result (self.new ≡ self.old) }
    {
        self.memory.arrive(alloc, depot, parcel)
    }

    /// The same of a page of the disk. The bytes of the reply are those of the image's page.
    fn arrive_on_disk(&mut self, depot: &Depot, parcel: &Parcel) -> Result<Arrived, AllocError>
        requires hart { IsOfDepot depot.now self.old.key }
        requires parcel { IsKeyOf depot.now parcel.now.key }
        requires on_disk { page_count (image_of parcel.now.key) ≤ parcel.now.page }
        ensures arrives { IfOk result (Arrives self.old.key self.old.pages parcel.now self.new.pages) }
        ensures rest { (self.new.state ≡ self.old.state) × (self.new.key ≡ self.old.key) }
        ensures err { OnErr result (self.new ≡ self.old) }
    {
        let place = parcel.page();
        let Some(key) = self.memory.key() else {
            return Ok(Arrived::Had(place));
        };
        if key.number() != parcel.key().number() {
            return Ok(Arrived::Had(place));
        }
        depot.agree(key, parcel.key());
        // The call tells that the image has the page.
        let _ = parcel.bytes();
        let page = place - depot.pages(key);
        // The call tells that the image has as many pages of RAM.
        let _ = self.memory.pages();
        let mut bytes = [0; PAGE_SIZE];
        depot.frozen(key).disk_page(page, &mut bytes);
        Ok(at_place(self.ports.arrive(page, &bytes)?, place))
    }

    /// Makes the coming step, unless it waits for a page. Its word is not decoded where its slot has it.
    #[inline(always)]
    #[tactic(auto, unfolding(forest_model::specs::Execute::action, crate::specs::Acts::Grows))]
    pub fn act(&mut self, slots: &mut [Slot]) -> Result<Acted, AllocError>
        requires tickets { self.old.state.ports.fork.next_ticket < TICKETS_END }
        requires some { 0 < length slots.old }
        ensures acts { ActsNext self.old self.new result }
        ensures learns { Learns slots.old slots.new }
        ensures memory { OnErr result (Grows self.old.state) }
    {
        if self.takes_interrupt() {
            return Ok(Acted::Interrupted);
        }
        match self.fetch() {
            Reach::Faulted(cause) => Ok(trapped(cause, self.pc)),
            Reach::Absent(page) => Ok(Acted::Stalled(page)),
            Reach::Ram(offset) => {
                let word = self.fetched(offset);
                self.execute_word(slots, word)
            }
            Reach::Port => Ok(trapped(INSTRUCTION_ACCESS_FAULT, self.pc)),
        }
    }

    /// Executes the instruction at the pc, which is this word.
    #[inline(always)]
    fn execute_word(&mut self, slots: &mut [Slot], word: u32) -> Result<Acted, AllocError>
        requires tickets { self.old.state.ports.fork.next_ticket < TICKETS_END }
        requires some { 0 < length slots.old }
        ensures learns { Learns slots.old slots.new }
        ensures acts { ActsBy self.old self.new (decoded word) word result }
        ensures memory { OnErr result (IsSomeAnd (decoded word) (λ instr. InstructionGrows instr self.old.state)) }
    {
        let Some(number) = slot_with(slots, self.pc, word) else {
            return Ok(trapped(ILLEGAL_INSTRUCTION, word));
        };
        let instr = slots[number].instr();
        self.execute(instr, word)
    }

    /// Takes a trap.
    fn take_trap(&mut self, cause: u32, value: u32)
        ensures { self.new ≡ record self.old { state = trapped cause value self.old.state } }
    {
        self.pc = self.csrs.enter(cause, value, self.pc);
        clear(&mut self.reservation);
    }

    /// Takes a trap, and counts it as a step that retired nothing.
    #[inline]
    pub fn trap(&mut self, cause: u32, value: u32)
        ensures { self.new ≡ record self.old { state = count false Written.Nothing (trapped cause value self.old.state) } }
    {
        self.take_trap(cause, value);
        self.count(false, Written::Nothing);
    }

    /// Counts a step, which retired an instruction or did not, and wrote this of the counters.
    #[inline]
    pub fn count(&mut self, retired: bool, written: Written)
        ensures { self.new ≡ record self.old { state = count retired written self.old.state } }
    {
        let (half, is_time) = match written {
            Written::Nothing => (Wrote::Nothing, false),
            Written::Counter(half) => (half, false),
            Written::Time => (Wrote::Nothing, true),
        };
        self.csrs.count(retired, half);
        self.ports.count_time(is_time);
    }

    /// Executes an instruction at the pc, which `word` encodes.
    #[inline(always)]
    #[tactic(auto, unfolding(forest_model::specs::Execute::execute))]
    fn execute(&mut self, instr: &Fields, word: u32) -> Result<Acted, AllocError>
        requires { self.old.state.ports.fork.next_ticket < TICKETS_END }
        ensures acts { ActsBy self.old self.new (Some instr.now) word result }
        ensures memory { OnErr result (InstructionGrows instr.now self.old.state) }
    {
        match instr.kind().group() {
            Group::LoadUpper => Ok(self.load_upper(instr)),
            Group::AddUpper => Ok(self.add_upper(instr)),
            Group::Jump => Ok(self.jump(instr)),
            Group::JumpRegister => Ok(self.jump_register(instr)),
            Group::Branch => Ok(self.branch(instr)),
            Group::Load => Ok(self.load(instr)),
            Group::Store => self.store(instr),
            Group::ComputeImmediate => Ok(self.compute_immediate(instr)),
            Group::Compute => Ok(self.compute(instr)),
            Group::Nothing => Ok(self.retire()),
            Group::EnvironmentCall => Ok(self.environment_call()),
            Group::Breakpoint => Ok(trapped(BREAKPOINT, 0)),
            Group::TrapReturn => Ok(self.trap_return(word)),
            Group::Csr => Ok(self.csr_access(instr, word)),
            Group::LoadReserved => Ok(self.load_reserved(instr)),
            Group::StoreConditional => self.store_conditional(instr),
            Group::Amo => self.amo(instr),
        }
    }

    /// Retires, with a value for rd.
    #[inline]
    fn retire_with(&mut self, instr: &Fields, value: u32) -> Acted
        ensures answer { result ≡ Acted.Retired Written.Nothing }
        ensures new { self.new ≡ record self.old { state = at_next_instruction (with_rd instr.now value self.old.state) } }
    {
        self.retire_into(instr.rd(), value);
        Acted::Retired(Written::Nothing)
    }

    /// Retires, with a value for the register of this number.
    #[inline(always)]
    fn retire_into(&mut self, number: u32, value: u32)
        requires { number < 32 }
        ensures { self.new ≡ record self.old { state = at_next_instruction (record self.old.state { registers = with_register self.old.state.registers number value }) } }
    {
        let next = self.pc.wrapping_add(4);
        self.set_register(number, value);
        // It is stored last, so that the coming step need not read it.
        self.pc = next;
    }

    /// Retires: the next instruction follows.
    #[inline]
    fn retire(&mut self) -> Acted
        ensures answer { result ≡ Acted.Retired Written.Nothing }
        ensures new { self.new ≡ record self.old { state = at_next_instruction self.old.state } }
    {
        self.pc = self.pc.wrapping_add(4);
        Acted::Retired(Written::Nothing)
    }

    /// The address of the next instruction.
    #[inline(always)]
    fn next_pc(&self) -> u32
        ensures { result ≡ (self.now.state.pc + 4) % 2 ^ 32 }
    {
        self.pc.wrapping_add(4)
    }

    /// Retires: the next instruction, which is at this address, follows.
    #[inline(always)]
    fn retire_at(&mut self, next: u32)
        requires { next ≡ (self.old.state.pc + 4) % 2 ^ 32 }
        ensures { self.new ≡ record self.old { state = at_next_instruction self.old.state } }
    {
        self.pc = next;
    }

    /// The word at an offset in RAM, which is a multiple of 4. Its page is here.
    #[inline(always)]
    fn word(&self, offset: u32) -> u32
        requires aligned { offset % 4 ≡ 0 }
        requires inside { offset < length self.now.state.ram }
        requires here { IsHere self.now.pages (offset / PAGE_SIZE) }
        ensures { result ≡ word_at self.now.state.ram offset }
    {
        match self.load_at(offset, 4) {
            Ok(word) => word,
            Err(_) => unreachable!(),
        }
    }

    /// The number in the `width` bytes from an offset in RAM on, which is a multiple of the width, where its page is here.
    #[inline(always)]
    fn load_at(&self, offset: u32, width: u32) -> Result<u32, Absent>
        requires width { IsWidth width }
        requires aligned { offset % width ≡ 0 }
        requires inside { offset < length self.now.state.ram }
        ensures { MatchResult result
            (λ number. (number ≡ little_from offset width self.now.state.ram) × IsHere self.now.pages (offset / PAGE_SIZE))
            (λ absent. IsAbsent self.now.pages (offset / PAGE_SIZE)) }
    {
        self.memory.load(offset, width)
    }

    /// Stores the low `width` bytes of a word from an offset in RAM on, which is a multiple of the width, where its page is
    /// here.
    #[inline(always)]
    fn put_at(&mut self, offset: u32, width: u32, word: u32) -> Result<(), StoreError>
        requires width { IsWidth width }
        requires aligned { offset % width ≡ 0 }
        requires inside { offset < length self.old.state.ram }
        ensures ok { OnOk result (IsHere self.old.pages (offset / PAGE_SIZE) × IsPut self.old self.new (offset / PAGE_SIZE)
            (record self.old.state { ram = put_bytes self.old.state.ram offset (little_bytes width word) })) }
        ensures err { IfErr result (λ error. (self.new ≡ self.old) × IsUnput self.old.pages (offset / PAGE_SIZE) error) }
    {
        self.memory.store(offset, width, word)
    }

    /// The same where this hart holds the page and shares it with none, and it answers whether it has stored. Else nothing
    /// changes.
    #[inline(always)]
    fn put_own(&mut self, offset: u32, width: u32, word: u32) -> bool
        requires width { IsWidth width }
        requires aligned { offset % width ≡ 0 }
        requires inside { offset < length self.old.state.ram }
        ensures { MatchBool result
            (IsHere self.old.pages (offset / PAGE_SIZE) × IsPut self.old self.new (offset / PAGE_SIZE)
            (record self.old.state { ram = put_bytes self.old.state.ram offset (little_bytes width word) }))
            (self.new ≡ self.old) }
    {
        self.memory.store_own(offset, width, word)
    }

    /// Stores the low `width` bytes of a word from an offset in RAM on, which is a multiple of the width. The page is
    /// here.
    #[inline(always)]
    fn store_at(&mut self, offset: u32, width: u32, word: u32) -> Result<(), AllocError>
        requires width { IsWidth width }
        requires aligned { offset % width ≡ 0 }
        requires inside { offset < length self.old.state.ram }
        requires here { IsHere self.old.pages (offset / PAGE_SIZE) }
        ensures ok { OnOk result (IsPut self.old self.new (offset / PAGE_SIZE)
            (record self.old.state { ram = put_bytes self.old.state.ram offset (little_bytes width word) })) }
        ensures err { OnErr result (self.new ≡ self.old) }
    {
        match self.put_at(offset, width, word) {
            Ok(()) => Ok(()),
            Err(StoreError::Memory) => Err(AllocError),
            Err(StoreError::Absent(_)) => unreachable!(),
        }
    }

    #[inline]
    fn register(&self, number: u32) -> u32
        requires { number < 32 }
        ensures { result ≡ register self.now.state.registers number }
    {
        self.registers[number as usize]
    }

    #[inline]
    fn set_register(&mut self, number: u32, value: u32)
        requires { number < 32 }
        ensures { self.new ≡ record self.old { state = record self.old.state { registers = with_register self.old.state.registers number value } } }
    {
        // x0 becomes 0 again: a store costs less than a branch on the number.
        self.registers[number as usize] = value;
        self.registers[0] = 0;
    }
}

/// The registers with the pc in the place of x0.
fn with_pc(registers: &[u32; 32], pc: u32) -> [u32; 32]
    ensures { result ≡ pc ∷ drop 1 registers.now }
{
    let mut shown = *registers;
    shown[0] = pc;
    shown
}

/// Ends a reservation. Mostly there is none, and a look costs less than a store.
#[inline(always)]
fn clear(reservation: &mut Option<u32>)
    ensures { reservation.new ≡ None }
{
    if reservation.is_some() {
        *reservation = None;
    }
}

/// The answer to a page that came, by its place.
fn at_place(arrived: Arrived, place: u32) -> Arrived
    ensures { result ≡ at_place place arrived }
{
    match arrived {
        Arrived::Got(_) => Arrived::Got(place),
        Arrived::Had(_) => Arrived::Had(place),
    }
}

/// The answer of an exception.
#[inline]
fn trapped(cause: u32, value: u32) -> Acted
    ensures { result ≡ Acted.Trapped cause value }
{
    Acted::Trapped { cause, value }
}
