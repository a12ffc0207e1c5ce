//! Instructions that are kept by their place in RAM.

ghost use Rattle.std.specs.Prelude.{◌≡◌, ◌<◌, length, IfSome, IsTrue, Some, true};
ghost use Rattle.rv_decode.specs.Table.{decoded};
ghost use Rattle.rv_decode.specs.Kinds.{group_of};
ghost use Rattle.forest_model.specs.Access.{fetch_access};
ghost use Rattle.forest_model.specs.Execute.{fetched};
ghost use Rattle.forest_model.specs.Memory.{data_address};
ghost use Rattle.vm_hart.specs.Acts.{ReachesRam};
ghost use Rattle.port_map.specs.Ranges.{is_within};
ghost use Rattle.instruction_slots.specs.Slots.{place_of};
ghost use Rattle.rv_traps.specs.Protection.{is_unrestricted};
ghost use Rattle.vm_hart.specs.Kept.{ComesAside, IsAside, IsSlotAtPc, Keeps, mode_tag, tagged};

use super::Hart;
use super::access::Reach;
use console_port::registers::CONSOLE_SIZE;
use guest_pmp::Mode;
use instruction_slots::{Fields, Slot, slot_of};
use port_map::CONSOLE_BASE;
use rv_decode::Group;

/// The numbers of the registers of memory protection, pmpcfg0 to pmpaddr15.
const PROTECTION_FIRST: u32 = 0x3A0;

const PROTECTION_COUNT: u32 = 32;

/// What slots have in the low bits of an address for the mode that fetches there.
const USER_TAG: u32 = 2;

impl Hart {
    /// What the slots of the mode have beside their addresses. `FREE` tells that memory protection allows all, which it
    /// does in machine mode alone.
    #[inline(always)]
    pub(super) fn mode_tag<const FREE: bool>(&self) -> u32
        requires { FREE ≡ true → is_unrestricted self.now.state.csrs ≡ true }
        ensures { result ≡ mode_tag self.now.state.csrs.mode }
    {
        if FREE {
            return 0;
        }
        match self.csrs.mode() {
            Mode::Machine => 0,
            Mode::User => USER_TAG,
        }
    }

    /// Whether a slot keeps the coming instruction.
    #[inline(always)]
    fn is_kept(&self, slot: &Slot, epoch: u32, tag: u32) -> bool
        requires { tag ≡ mode_tag self.now.state.csrs.mode }
        ensures place { IsTrue result → slot.now.place ≡ place_of (tagged self.now.state.csrs.mode self.now.state.pc) epoch }
        ensures says { decoded slot.now.word ≡ Some slot.now.instr }
    {
        // Every pc is a multiple of 4.
        let tagged = self.pc + tag;
        slot.is_at(tagged, epoch)
    }

    /// The number of the slot that keeps the coming instruction, where its fetch reaches RAM and its word encodes one. It is
    /// there, or is put there. `tag` is that of the mode.
    #[inline(always)]
    pub(super) fn slot_at_pc(&self, slots: &mut [Slot], epoch: u32, tag: u32) -> Option<usize>
        requires some { 0 < length slots.old }
        requires keeps { Keeps self.now epoch slots.old }
        requires tag { tag ≡ mode_tag self.now.state.csrs.mode }
        ensures comes { IfSome result (IsSlotAtPc self.now slots.new) }
        ensures keeps { Keeps self.now epoch slots.new }
        ensures same_length { length slots.new ≡ length slots.old }
    {
        // Every pc is a multiple of 4.
        let number = slot_of(self.pc, slots.len());
        if self.is_kept(&slots[number], epoch, tag) {
            return Some(number);
        }
        self.look_up(slots, epoch, tag);
        if self.is_kept(&slots[number], epoch, tag) {
            return Some(number);
        }
        None
    }

    /// Puts the coming instruction into its slot, where its fetch reaches RAM and its word encodes one. It is apart and
    /// never inlined, and its answer is read in the slot, so that the loop of steps is short.
    #[cold]
    #[inline(never)]
    fn look_up(&self, slots: &mut [Slot], epoch: u32, tag: u32)
        requires some { 0 < length slots.old }
        requires keeps { Keeps self.now epoch slots.old }
        requires tag { tag ≡ mode_tag self.now.state.csrs.mode }
        ensures keeps { Keeps self.now epoch slots.new }
        ensures same_length { length slots.new ≡ length slots.old }
    {
        let Reach::Ram(offset) = self.fetch() else {
            return;
        };
        let word = self.fetched(offset);
        let number = slot_of(self.pc, slots.len());
        let tagged = self.pc + tag;
        slots[number].keep(tagged, epoch, word);
    }

    /// Whether the coming step leaves RAM as it is, which pages are here, and what may be fetched in each mode. It may do
    /// so where the answer is no, as it is where no slot keeps the instruction: fast steps, which come before this is
    /// asked, have put it there.
    #[inline(always)]
    pub fn leaves_ram(&self, slots: &[Slot], epoch: u32) -> bool
        requires some { 0 < length slots.now }
        requires keeps { Keeps self.now epoch slots.now }
        ensures { IsTrue result → ComesAside self.now }
    {
        // Every pc is a multiple of 4.
        let number = slot_of(self.pc, slots.len());
        let slot = &slots[number];
        let tag = self.mode_tag::<false>();
        if !self.is_kept(slot, epoch, tag) {
            return false;
        }
        self.is_aside(slot.instr())
    }

    /// Whether an instruction is an access to a CSR that is none of memory protection, a store to the console, or one
    /// that changes the mode.
    #[inline(always)]
    fn is_aside(&self, instr: &Fields) -> bool
        ensures { IsTrue result → IsAside (group_of instr.now.kind) instr.now self.now.state }
    {
        match instr.kind().group() {
            Group::Csr => !is_of_protection(instr.imm().cast_unsigned()),
            Group::Store => is_of_console(self.data_address(instr)),
            Group::EnvironmentCall | Group::Breakpoint | Group::TrapReturn => true,
            _ => false,
        }
    }
}

/// Whether a number is one that the ISA gives to the registers of memory protection: a write to them may change which
/// words may be fetched.
#[inline(always)]
fn is_of_protection(number: u32) -> bool
    ensures { result ≡ is_within PROTECTION_FIRST PROTECTION_COUNT number }
{
    PROTECTION_FIRST <= number && number < PROTECTION_FIRST + PROTECTION_COUNT
}

/// Whether an address is one of the console.
#[inline(always)]
fn is_of_console(address: u32) -> bool
    ensures { result ≡ is_within CONSOLE_BASE CONSOLE_SIZE address }
{
    CONSOLE_BASE <= address && address < CONSOLE_BASE + CONSOLE_SIZE
}
