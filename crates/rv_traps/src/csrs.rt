ghost use Rattle.std.specs.Prelude.{◌≡◌, ◌↔◌, ◌+◌, ◌%◌, ◌^◌, ◌<◌, ◌≤◌, ℕ, None, Some, IfNone, IfSome, IsNone, OnSome, true, false};
ghost use Rattle.guest_pmp.specs.Allowed.{IsAccessWidth};
ghost use Rattle.guest_pmp.specs.Spans.{HasAddress};
ghost use Rattle.guest_pmp.specs.declared.access.Mode.TheVariants.{Machine};
ghost use Rattle.rv_traps.specs.Registers.{IsInRange, at_reset};
ghost use Rattle.rv_traps.specs.declared.registers.CsrRegisters.{CsrRegisters};
ghost use Rattle.rv_traps.specs.Access.{csr_read, csr_write};
ghost use Rattle.rv_traps.specs.Protection.{allows, acting_mode, is_unrestricted};
ghost use Rattle.rv_traps.specs.Trap.{handler, trap, mret, takes_interrupt};
ghost use Rattle.rv_traps.specs.Counters.{counted};

use crate::counter::{Wrote, counted_if};
use crate::number::Csr;
use crate::registers::{CsrRegisters, has_bit, mstatus};
use guest_pmp::{Access, Mode, Pmp, Span};
use std::marker::Model;

/// The cause of the machine timer interrupt, the one interrupt of the machine (section 3.1.15).
pub const TIMER_INTERRUPT: u32 = 0x8000_0007;

/// Where the timer interrupt goes in vectored mode, from the base on: 4 times its number.
const TIMER_HANDLER: u32 = 4 * 7;

/// The control and status registers of a machine, with the rules of the RISC-V Privileged ISA 20211203.
#[derive(Clone, Copy)]
pub struct Csrs {
    registers: CsrRegisters,
}

impl Model for Csrs {
    ghost use Rattle.rv_traps.specs.declared.registers.CsrRegisters.{CsrRegisters};
    ghost use Rattle.rv_traps.specs.Registers.{IsInRange};

    ghost Value = { CsrRegisters };

    ghost view = { λ c. c.registers };

    ghost invariant = { λ c. IsInRange c.registers };

    ghost inverse = { λ v. record { registers = v } };
}

impl Csrs {
    /// The registers of a machine that starts.
    pub fn reset() -> Csrs
        ensures { result ≡ at_reset }
    {
        Csrs {
            registers: CsrRegisters {
                mode: Mode::Machine,
                mstatus: mstatus(false, false, Mode::Machine, false),
                mie: 0,
                mtvec: 0,
                mscratch: 0,
                mepc: 0,
                mcause: 0,
                mtval: 0,
                mcycle: 0,
                minstret: 0,
                pmp: Pmp::reset().fields(),
            },
        }
    }

    /// What the registers hold.
    pub fn fields(&self) -> CsrRegisters
        ensures value { result ≡ self.now }
        ensures in_range { IsInRange result }
    {
        self.registers
    }

    /// The registers that hold this.
    pub fn of_fields(fields: CsrRegisters) -> Csrs
        requires { IsInRange fields }
        ensures { result ≡ fields }
    {
        Csrs { registers: fields }
    }

    /// The mode that the machine is in.
    #[inline]
    pub fn mode(&self) -> Mode
        ensures { result ≡ self.now.mode }
    {
        self.registers.mode
    }

    /// What the register of this number reads, or `None` exactly where there is none and in user mode. `timer` is
    /// whether the timer is due.
    #[inline]
    #[tactic(auto, unfolding(crate::specs::Access::csr_read))]
    pub fn read(&self, number: u32, timer: bool) -> Option<u32>
        ensures { result ≡ csr_read self.now number timer }
    {
        if !self.registers.mode.is_machine() {
            return None;
        }
        let csr = Csr::of_number(number)?;
        Some(self.registers.reading(csr, number, timer))
    }

    /// Writes the register of this number, which keeps of `value` what it can hold. `None`, with
    /// nothing changed, exactly in user mode and where there is no such register or the number is one of those that
    /// are only read.
    #[inline]
    #[tactic(auto, unfolding(crate::specs::Access::csr_write))]
    pub fn write(&mut self, number: u32, value: u32) -> Option<()>
        ensures written { OnSome result (csr_write self.old number value ≡ Some self.new) }
        ensures unlawful { IfNone result (csr_write self.old number value ≡ None) }
        ensures unchanged { IfNone result (self.new ≡ self.old) }
    {
        if !self.registers.mode.is_machine() || number >> 10 & 3 == 3 {
            return None;
        }
        let csr = Csr::of_number(number)?;
        self.registers.put(csr, number, value & csr.keeps());
        Some(())
    }

    /// Takes a trap with this cause and value from `pc` into machine mode, and answers the new pc. An interrupt is a
    /// trap with the cause `TIMER_INTERRUPT`.
    #[inline]
    pub fn enter(&mut self, cause: u32, value: u32, pc: u32) -> u32
        ensures registers { self.new ≡ trap self.old cause value pc }
        ensures goes { result ≡ handler self.old cause }
        ensures aligned { result % 4 ≡ 0 }
    {
        let goes = handler(self.registers.mtvec, cause);
        let mie = self.registers.interrupt_enable();
        let mprv = self.registers.modifies_privilege();
        let before = to_machine_mode(&mut self.registers.mode);
        self.registers.mstatus = mstatus(false, mie, before, mprv);
        self.registers.mepc = pc / 4 * 4;
        self.registers.mcause = cause;
        self.registers.mtval = value;
        goes
    }

    /// Returns from a trap into the mode in MPP, and answers the new pc. `None`, with nothing changed, exactly in user
    /// mode.
    #[inline]
    #[tactic(auto, unfolding(crate::specs::Trap::mret))]
    pub fn mret(&mut self) -> Option<u32>
        ensures registers { OnSome result (mret self.old ≡ Some self.new) }
        ensures goes { IfSome result (λ pc. pc ≡ self.old.mepc) }
        ensures aligned { IfSome result (λ pc. pc % 4 ≡ 0) }
        ensures unlawful { IfNone result (mret self.old ≡ None) }
        ensures unchanged { IfNone result (self.new ≡ self.old) }
    {
        if !self.registers.mode.is_machine() {
            return None;
        }
        let mode = self.registers.previous_mode();
        let mprv = self.registers.modifies_privilege() && mode.is_machine();
        let mie = self.registers.previous_interrupt_enable();
        self.registers.mode = mode;
        self.registers.mstatus = mstatus(mie, true, Mode::User, mprv);
        Some(self.registers.mepc)
    }

    /// Whether the coming step is the timer interrupt. `timer` is whether the timer is due.
    #[inline]
    pub fn interrupt(&self, timer: bool) -> bool
        ensures { result ≡ takes_interrupt self.now timer }
    {
        timer
            && (self.registers.interrupt_enable() || !self.registers.mode.is_machine())
            && self.registers.timer_interrupt_enable()
    }

    /// Whether memory protection allows an access of `width` bytes at an address, which is a multiple of it.
    #[tactic(auto, unfolding(crate::specs::Protection::allows))]
    pub fn allows(&self, access: Access, address: u32, width: u32) -> bool
        requires width { IsAccessWidth width }
        requires aligned { address % width ≡ 0 }
        ensures value { result ≡ allows self.now access address }
        ensures each_byte { (k : ℕ) → k < width → result ≡ allows self.now access (address + k) }
    {
        let mode = self.acting_mode(access);
        self.registers.pmp.allows(access, mode, address, width)
    }

    /// The words of memory around an address in which memory protection allows an access, or `None` exactly where it is
    /// denied there.
    #[tactic(auto, unfolding(crate::specs::Protection::allows))]
    pub fn allowed_around(&self, access: Access, address: u32) -> Option<Span>
        ensures denied { IsNone result ↔ (allows self.now access address ≡ false) }
        ensures has { IfSome result (λ span. HasAddress span address) }
        ensures fits { IfSome result (λ span. span.behind ≤ 2 ^ 30) }
        ensures allowed { IfSome result (λ span. (other : ℕ) → HasAddress span other → allows self.now access other ≡ true) }
    {
        if !self.allows(access, address, 1) {
            return None;
        }
        Some(self.registers.pmp.span_around(address))
    }

    /// Whether memory protection allows everything: all accesses are made by the rights of machine mode, and no entry
    /// is locked.
    #[inline]
    pub fn is_unrestricted(&self) -> bool
        ensures { result ≡ is_unrestricted self.now }
    {
        self.registers.mode.is_machine()
            && self.registers.data_mode().is_machine()
            && !self.registers.pmp.has_lock()
    }

    /// The mode by whose rights an access is made.
    #[inline]
    fn acting_mode(&self, access: Access) -> Mode
        ensures { result ≡ acting_mode self.now access }
    {
        match access {
            Access::Fetch => self.registers.mode,
            Access::Load | Access::Store | Access::Amo => self.registers.data_mode(),
        }
    }

    /// Counts so many steps, each of which retired an instruction and wrote no half of a counter.
    #[inline]
    pub fn count_retired(&mut self, steps: u64)
        ensures { self.new ≡ record self.old { mcycle = (self.old.mcycle + steps) % 2 ^ 64; minstret = (self.old.minstret + steps) % 2 ^ 64 } }
    {
        self.registers.mcycle = self.registers.mcycle.wrapping_add(steps);
        self.registers.minstret = self.registers.minstret.wrapping_add(steps);
    }

    /// Counts a step, which retired an instruction or did not, and which wrote a half of a counter or
    /// none.
    #[inline]
    pub fn count(&mut self, retired: bool, wrote: Wrote)
        ensures { self.new ≡ counted self.old retired wrote }
    {
        let mcycle = counted_if(!wrote.is_of_mcycle(), self.registers.mcycle);
        let minstret = counted_if(retired && !wrote.is_of_minstret(), self.registers.minstret);
        self.registers.mcycle = mcycle;
        self.registers.minstret = minstret;
    }
}

/// Where a trap with this cause goes, by the register mtvec.
#[inline(always)]
fn handler(mtvec: u32, cause: u32) -> u32
    ensures goes { (c : CsrRegisters) → c.mtvec ≡ mtvec → result ≡ handler c cause }
    ensures aligned { result % 4 ≡ 0 }
{
    if cause == TIMER_INTERRUPT {
        return interrupt_handler(mtvec);
    }
    mtvec / 4 * 4
}

/// Where the timer interrupt goes. It is not inlined, so that an exception has no part of it.
#[inline(never)]
fn interrupt_handler(mtvec: u32) -> u32
    ensures goes { (c : CsrRegisters) → c.mtvec ≡ mtvec → result ≡ handler c TIMER_INTERRUPT }
    ensures aligned { result % 4 ≡ 0 }
{
    let base = mtvec / 4 * 4;
    if has_bit(mtvec, 0) {
        base.wrapping_add(TIMER_HANDLER)
    } else {
        base
    }
}

/// Machine mode from now on. Answers the mode before, which is machine mode mostly: a look costs less than a store.
#[inline(always)]
fn to_machine_mode(mode: &mut Mode) -> Mode
    ensures new { mode.new ≡ Machine }
    ensures before { result ≡ mode.old }
{
    if mode.is_machine() {
        return Mode::Machine;
    }
    *mode = Mode::Machine;
    Mode::User
}
