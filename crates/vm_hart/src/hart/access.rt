//! What accesses come to.

ghost use Rattle.std.specs.Prelude.{◌≡◌, ◌-◌, ◌/◌, ◌≤◌, ◌<◌, ◌↔◌, if◌then◌else◌, ℕ, length, IfSome, IsNone, MatchBool, Some, None, true, false};
ghost use Rattle.forest_model.specs.Access.{fault_cause, fetch_access, is_aligned_for, is_allowed, misaligned_cause, page_for, right_for, uses};
ghost use Rattle.forest_model.specs.Atomic.{conditional_access, is_reserved};
ghost use Rattle.forest_model.specs.Execute.{fetched};
ghost use Rattle.forest_model.specs.State.{is_in_ram, is_timer_due};
ghost use Rattle.forest_model.specs.Touch.{access_of, footprint_at_port, footprint_of};
ghost use Rattle.rv_exec.specs.Memory.{IsWidth};
ghost use Rattle.rv_traps.specs.Trap.{takes_interrupt};
ghost use Rattle.vm_hart.specs.Acts.{IsMet, IsOutside, Reaches, ReachesRam, WaitsAt, waits_for};
ghost use Rattle.vm_hart.specs.Placed.{Places};
ghost use Rattle.vm_hart.specs.Keyed.{IsAbsent, IsHere};

use super::Hart;
use elf_load::RAM_BASE;
use forest_model::cause::{
    INSTRUCTION_ACCESS_FAULT, INSTRUCTION_ADDRESS_MISALIGNED, LOAD_ACCESS_FAULT,
    LOAD_ADDRESS_MISALIGNED, STORE_ACCESS_FAULT, STORE_ADDRESS_MISALIGNED,
};
use forest_model::{Access, Direction};
use guest_pmp::Access as Right;
use instruction_slots::Fields;
use page_frames::PAGE_SIZE;
use rv_decode::{Group, Instr, decode};
use rv_exec::{load_width, store_width};

/// What an access comes to.
#[derive(Clone, Copy)]
pub(super) enum Reach {
    /// An exception with this cause. Its value is the address.
    Faulted(u32),
    /// The page that it needs is absent.
    Absent(u32),
    /// It is of RAM, from this offset on, and the page that it needs is here.
    Ram(u32),
    /// One of the ports may have it.
    Port,
}

impl Hart {
    /// Answers an access, for fetches and for each instruction that makes one.
    #[inline(always)]
    pub(super) fn reach(&self, access: Access) -> Reach
        requires { IsWidth access.width }
        ensures { Reaches self.now access result }
    {
        match self.offset_of(access) {
            Ok(offset) => {
                let page = offset / PAGE_SIZE as u32;
                if !self.has_page(access.direction, page) {
                    return Reach::Absent(page);
                }
                Reach::Ram(offset)
            }
            Err(refused) => refused,
        }
    }

    /// The offset in RAM of an access, or what it comes to where it is not aligned, not allowed or not of RAM.
    #[inline(always)]
    pub(super) fn offset_of(&self, access: Access) -> Result<u32, Reach>
        requires { IsWidth access.width }
        ensures { Places self.now access result }
    {
        if !is_aligned(access) {
            return Err(Reach::Faulted(misaligned_cause(access.direction)));
        }
        match self.ram_offset(access.address) {
            Some(offset) => {
                if !self.is_allowed(access) {
                    return Err(Reach::Faulted(fault_cause(access.direction)));
                }
                Ok(offset)
            }
            None => Err(self.outside(access)),
        }
    }

    /// What an access outside RAM comes to. Where no port may have it, memory protection makes no difference.
    #[inline(always)]
    fn outside(&self, access: Access) -> Reach
        requires aligned { is_aligned_for access.direction access.address access.width ≡ true }
        requires outside { is_in_ram self.now.state.ram access.address ≡ false }
        ensures { Reaches self.now access result }
    {
        match outside_ram(access.direction) {
            Reach::Port => {
                if self.is_allowed(access) {
                    Reach::Port
                } else {
                    Reach::Faulted(fault_cause(access.direction))
                }
            }
            refused => refused,
        }
    }

    /// Whether memory protection allows an access. Mostly it allows all.
    #[inline(always)]
    fn is_allowed(&self, access: Access) -> bool
        ensures { result ≡ is_allowed access self.now.state }
    {
        if self.csrs.is_unrestricted() {
            return true;
        }
        self.is_permitted(access)
    }

    /// The same, by the entries. The first byte of an access tells of all.
    #[cold]
    #[inline(never)]
    fn is_permitted(&self, access: Access) -> bool
        ensures { result ≡ is_allowed access self.now.state }
    {
        self.csrs
            .allows(right_for(access.direction), access.address, 1)
    }

    /// Whether a page of RAM is here for an access of it, which may need none.
    #[inline(always)]
    pub(super) fn has_page(&self, direction: Direction, page: u32) -> bool
        requires { page < length self.now.pages.blank }
        ensures { MatchBool result
            (IfSome (page_for direction page) (IsHere self.now.pages))
            ((page_for direction page ≡ Some page) × IsAbsent self.now.pages page) }
    {
        if !needs_page(direction) {
            return true;
        }
        // The call tells that each page of RAM has both flags.
        let _ = self.memory.pages();
        self.memory.is_here(page)
    }

    /// The offset of an address in RAM, or `None` where it is not in RAM.
    #[inline(always)]
    pub(super) fn ram_offset(&self, address: u32) -> Option<u32>
        ensures outside { IsNone result ↔ (is_in_ram self.now.state.ram address ≡ false) }
        ensures inside { IfSome result (λ offset. (is_in_ram self.now.state.ram address ≡ true) × (RAM_BASE ≤ address) × (offset ≡ address - RAM_BASE) × (offset < length self.now.state.ram) × (offset / PAGE_SIZE < length self.now.pages.blank)) }
    {
        self.offset_below(self.ram_size(), address)
    }

    /// The same where it is known how many bytes RAM has.
    #[inline(always)]
    pub(super) fn offset_below(&self, size: u32, address: u32) -> Option<u32>
        requires { size ≡ length self.now.state.ram }
        ensures outside { IsNone result ↔ (is_in_ram self.now.state.ram address ≡ false) }
        ensures inside { IfSome result (λ offset. (is_in_ram self.now.state.ram address ≡ true) × (RAM_BASE ≤ address) × (offset ≡ address - RAM_BASE) × (offset < length self.now.state.ram) × (offset / PAGE_SIZE < length self.now.pages.blank)) }
    {
        // Below RAM it wraps to an offset behind RAM.
        let offset = address.wrapping_sub(RAM_BASE);
        // The call tells that RAM has whole pages.
        let _ = self.memory.pages();
        if offset < size { Some(offset) } else { None }
    }

    /// The bytes of RAM.
    #[inline(always)]
    pub(super) fn ram_size(&self) -> u32
        ensures { result ≡ length self.now.state.ram }
    {
        self.memory.size()
    }

    /// Answers the fetch of the coming instruction.
    #[inline(always)]
    pub(super) fn fetch(&self) -> Reach
        ensures { Reaches self.now (fetch_access self.now.state) result }
    {
        self.reach(Access {
            address: self.pc,
            width: 4,
            direction: Direction::Fetch,
        })
    }

    /// The word at the pc, where its fetch reaches RAM at this offset.
    #[inline(always)]
    pub(super) fn fetched(&self, offset: u32) -> u32
        requires { ReachesRam self.now (fetch_access self.now.state) offset }
        ensures { result ≡ fetched self.now.state }
    {
        // Every pc is a multiple of 4.
        let _ = &self.pc;
        self.word(offset)
    }

    /// Whether the timer interrupt comes before the instruction.
    #[inline(always)]
    pub(super) fn takes_interrupt(&self) -> bool
        ensures { result ≡ takes_interrupt self.now.state.csrs (is_timer_due self.now.state) }
    {
        self.csrs.interrupt(self.ports.is_timer_due())
    }

    /// The access to data that an instruction makes, if it makes one.
    fn access_of(&self, instr: Instr) -> Option<Access>
        ensures value { result ≡ access_of instr self.now.state }
        ensures width { IfSome result (λ access. IsWidth access.width) }
    {
        match instr.kind().group() {
            Group::Load => Some(Access {
                address: self.data_address(&Fields::of(instr)),
                width: load_width(instr.kind()),
                direction: Direction::Load,
            }),
            Group::Store => Some(Access {
                address: self.data_address(&Fields::of(instr)),
                width: store_width(instr.kind()),
                direction: Direction::Store,
            }),
            Group::LoadReserved => Some(word_access(
                self.register(instr.rs1()),
                Direction::Reserve,
            )),
            Group::StoreConditional => Some(self.conditional_access(instr)),
            Group::Amo => Some(word_access(self.register(instr.rs1()), Direction::Update)),
            Group::LoadUpper
            | Group::AddUpper
            | Group::Jump
            | Group::JumpRegister
            | Group::Branch
            | Group::ComputeImmediate => None,
            Group::Compute
            | Group::Nothing
            | Group::EnvironmentCall
            | Group::Breakpoint
            | Group::TrapReturn
            | Group::Csr => None,
        }
    }

    /// The access of SC.
    #[inline(always)]
    pub(super) fn conditional_access(&self, instr: Instr) -> Access
        ensures { result ≡ conditional_access instr self.now.state }
    {
        let address = self.register(instr.rs1());
        word_access(address, Direction::Conditional(self.is_reserved(address)))
    }

    /// Whether the word at an address is the one that is reserved.
    #[inline(always)]
    pub(super) fn is_reserved(&self, address: u32) -> bool
        ensures { result ≡ is_reserved self.now.state.reservation address }
    {
        self.reservation == Some(address)
    }

    /// The page that the coming step waits for, if it waits for one. The code page comes before that of the data.
    pub fn wanted(&self) -> Option<u32>
        ensures { result ≡ waits_for self.now }
    {
        if self.takes_interrupt() {
            return None;
        }
        match self.fetch() {
            Reach::Absent(page) => Some(page),
            Reach::Ram(offset) => self.wanted_by(decode(self.fetched(offset))?),
            Reach::Faulted(_) | Reach::Port => None,
        }
    }

    /// The page of its data that an instruction waits for, if it waits for one.
    fn wanted_by(&self, instr: Instr) -> Option<u32>
        ensures some { IfSome result (WaitsAt (footprint_of (Some instr) self.now.state).needs self.now.pages) }
        ensures none { IsNone result → IsMet (footprint_of (Some instr) self.now.state).needs self.now.pages }
    {
        let access = self.access_of(instr)?;
        match self.reach(access) {
            Reach::Absent(page) => Some(page),
            Reach::Faulted(_) | Reach::Ram(_) => None,
            Reach::Port => self.wanted_outside(access, self.register(instr.rs2())),
        }
    }

    /// The same of an access of a word at a port. A load waits for none.
    fn wanted_outside(&self, access: Access, word: u32) -> Option<u32>
        ensures some { IfSome result (WaitsAt (footprint_at_port (uses access.direction).writes access word self.now.state).needs self.now.pages) }
        ensures none { IsNone result → IsMet (footprint_at_port (uses access.direction).writes access word self.now.state).needs self.now.pages }
    {
        match access.direction {
            Direction::Store | Direction::Conditional(_) | Direction::Update => {
                self.wanted_at_port(access.address, access.width, word)
            }
            Direction::Fetch | Direction::Load | Direction::Reserve => None,
        }
    }
}

/// An access of the word at an address.
#[inline(always)]
pub(super) fn word_access(address: u32, direction: Direction) -> Access
    ensures { result ≡ record { address = address; width = 4; direction = direction } }
{
    Access {
        address,
        width: 4,
        direction,
    }
}

/// What memory protection is asked for.
#[inline(always)]
fn right_for(direction: Direction) -> Right
    ensures { result ≡ right_for (uses direction) }
{
    match direction {
        Direction::Fetch => Right::Fetch,
        Direction::Load | Direction::Reserve => Right::Load,
        Direction::Store | Direction::Conditional(_) => Right::Store,
        Direction::Update => Right::Amo,
    }
}

/// Whether an access is aligned. A fetch is: the pc is a multiple of 4.
#[inline(always)]
pub(super) fn is_aligned(access: Access) -> bool
    requires { IsWidth access.width }
    ensures { result ≡ is_aligned_for access.direction access.address access.width }
{
    match access.direction {
        Direction::Fetch => true,
        _ => access.address % access.width == 0,
    }
}

/// The cause of an access that is not aligned.
#[inline(always)]
fn misaligned_cause(direction: Direction) -> u32
    ensures { result ≡ misaligned_cause direction }
{
    match direction {
        Direction::Fetch => INSTRUCTION_ADDRESS_MISALIGNED,
        Direction::Load | Direction::Reserve => LOAD_ADDRESS_MISALIGNED,
        Direction::Store | Direction::Conditional(_) | Direction::Update => {
            STORE_ADDRESS_MISALIGNED
        }
    }
}

/// The cause of an access that is denied, or that neither RAM nor a port has.
#[inline(always)]
fn fault_cause(direction: Direction) -> u32
    ensures { result ≡ fault_cause direction }
{
    match direction {
        Direction::Fetch => INSTRUCTION_ACCESS_FAULT,
        Direction::Load | Direction::Reserve => LOAD_ACCESS_FAULT,
        Direction::Store | Direction::Conditional(_) | Direction::Update => STORE_ACCESS_FAULT,
    }
}

/// What an access outside RAM comes to, where it is allowed.
#[inline(always)]
fn outside_ram(direction: Direction) -> Reach
    ensures { IsOutside direction result }
{
    match direction {
        Direction::Load | Direction::Store => Reach::Port,
        _ => Reach::Faulted(fault_cause(direction)),
    }
}

/// Whether an access of RAM needs its page to be here.
#[inline(always)]
fn needs_page(direction: Direction) -> bool
    ensures { (page : ℕ) → page_for direction page ≡ (if result then Some page else None) }
{
    match direction {
        Direction::Conditional(is_reserved) => is_reserved,
        _ => true,
    }
}
