ghost use Rattle.std.specs.Prelude.{◌≡◌, ◌<◌, ◌↔◌, IsTrue};
ghost use Rattle.guest_pmp.specs.Registers.{IsNumber, IsInRange as ArePmpInRange};
ghost use Rattle.rv_traps.specs.Access.{put, written_mode};
ghost use Rattle.rv_traps.specs.Protection.{data_mode};
ghost use Rattle.rv_traps.specs.Registers.{IsInRange, has_bit, is_mstatus, mode_in, mstatus_of, interrupt_enable, previous_interrupt_enable, previous_mode, modifies_privilege, timer_interrupt_enable};
ghost use Rattle.rv_traps.specs.Table.{reading};

use crate::counter::{high_half, low_half, with_high_half, with_low_half};
use crate::number::Csr;
use guest_pmp::{Mode, Pmp, PmpRegisters};

/// What the control and status registers hold, by their names in the RISC-V Privileged ISA 20211203,
/// section 3.1, and the privilege mode.
#[derive(Clone, Copy, Debug, PartialEq, Eq)]
pub struct CsrRegisters {
    /// The mode that the machine is in.
    pub mode: Mode,
    /// The bits MIE (3), MPIE (7), MPP (12:11), which is 0 for user mode and 3 for machine mode, and MPRV (17).
    pub mstatus: u32,
    /// The bit MTIE (7) alone.
    pub mie: u32,
    /// Where traps go: a multiple of 4, and bit 0 for vectored mode.
    pub mtvec: u32,
    pub mscratch: u32,
    /// A multiple of 4.
    pub mepc: u32,
    pub mcause: u32,
    pub mtval: u32,
    pub mcycle: u64,
    pub minstret: u64,
    /// The entries of memory protection.
    pub pmp: PmpRegisters,
}

impl CsrRegisters {
    /// Whether each register holds only what it can.
    pub fn is_in_range(&self) -> bool
        ensures { IsTrue result ↔ IsInRange self.now }
    {
        is_mstatus(self.mstatus)
            && self.mie == self.mie & 0x80
            && self.mtvec == self.mtvec & 0xffff_fffd
            && self.mepc % 4 == 0
            && self.pmp.is_in_range()
    }

    /// MIE.
    #[inline]
    pub(crate) fn interrupt_enable(&self) -> bool
        ensures { result ≡ interrupt_enable self.now }
    {
        has_bit(self.mstatus, 3)
    }

    /// MPIE.
    #[inline]
    pub(crate) fn previous_interrupt_enable(&self) -> bool
        ensures { result ≡ previous_interrupt_enable self.now }
    {
        has_bit(self.mstatus, 7)
    }

    /// The mode in MPP.
    #[inline]
    pub(crate) fn previous_mode(&self) -> Mode
        ensures { result ≡ previous_mode self.now }
    {
        mode_in(self.mstatus)
    }

    /// MPRV.
    #[inline]
    pub(crate) fn modifies_privilege(&self) -> bool
        ensures { result ≡ modifies_privilege self.now }
    {
        has_bit(self.mstatus, 17)
    }

    /// The mode by whose rights data is accessed.
    #[inline]
    pub(crate) fn data_mode(&self) -> Mode
        ensures { result ≡ data_mode self.now }
    {
        if self.mode.is_machine() && self.modifies_privilege() {
            self.previous_mode()
        } else {
            self.mode
        }
    }

    /// MTIE.
    #[inline]
    pub(crate) fn timer_interrupt_enable(&self) -> bool
        ensures { result ≡ timer_interrupt_enable self.now }
    {
        has_bit(self.mie, 7)
    }

    /// What a register reads, by its number. `timer` is whether the timer is due.
    #[inline]
    pub(crate) fn reading(&self, csr: Csr, number: u32, timer: bool) -> u32
        requires { csr ≡ Csr.Pmp → IsNumber number }
        ensures { result ≡ reading csr number self.now timer }
    {
        match csr {
            Csr::Mstatus => self.mstatus,
            Csr::Misa => 0x4010_1101,
            Csr::Mie => self.mie,
            Csr::Mtvec => self.mtvec,
            Csr::Mscratch => self.mscratch,
            Csr::Mepc => self.mepc,
            Csr::Mcause => self.mcause,
            Csr::Mtval => self.mtval,
            Csr::Mip => { if timer { 0x80 } else { 0 } }
            Csr::Mcycle => low_half(self.mcycle),
            Csr::Mcycleh => high_half(self.mcycle),
            Csr::Minstret => low_half(self.minstret),
            Csr::Minstreth => high_half(self.minstret),
            Csr::Pmp => self.pmp.read(number),
            Csr::Information
            | Csr::Mcounteren
            | Csr::Menvcfg
            | Csr::Mstatush
            | Csr::Menvcfgh
            | Csr::Mcountinhibit
            | Csr::Mhpmevent
            | Csr::Mhpmcounter
            | Csr::Mhpmcounterh => 0,
        }
    }

    /// Writes to a register, by its number, the bits that it keeps.
    #[inline]
    pub(crate) fn put(&mut self, csr: Csr, number: u32, kept: u32)
        requires number { csr ≡ Csr.Pmp → IsNumber number }
        requires in_range { ArePmpInRange self.old.pmp }
        ensures registers { self.new ≡ put csr number kept self.old }
        ensures in_range { ArePmpInRange self.new.pmp }
    {
        match csr {
            Csr::Mstatus => self.put_mstatus(kept),
            Csr::Mie => self.mie = kept,
            Csr::Mtvec => self.mtvec = kept,
            Csr::Mscratch => self.mscratch = kept,
            Csr::Mepc => self.mepc = kept,
            Csr::Mcause => self.mcause = kept,
            Csr::Mtval => self.mtval = kept,
            Csr::Mcycle => self.mcycle = with_low_half(self.mcycle, kept),
            Csr::Mcycleh => self.mcycle = with_high_half(self.mcycle, kept),
            Csr::Minstret => self.minstret = with_low_half(self.minstret, kept),
            Csr::Minstreth => self.minstret = with_high_half(self.minstret, kept),
            Csr::Pmp => self.put_pmp(number, kept),
            Csr::Information
            | Csr::Misa
            | Csr::Mcounteren
            | Csr::Menvcfg
            | Csr::Mstatush
            | Csr::Menvcfgh
            | Csr::Mcountinhibit
            | Csr::Mhpmevent
            | Csr::Mip
            | Csr::Mhpmcounter
            | Csr::Mhpmcounterh => {}
        }
    }

    /// Writes mstatus. MPP stays where it would be no mode.
    fn put_mstatus(&mut self, kept: u32)
        ensures { self.new ≡ put Csr.Mstatus 0 kept self.old }
    {
        let mpp = match kept >> 11 & 3 {
            0 => Mode::User,
            3 => Mode::Machine,
            _ => self.previous_mode(),
        };
        self.mstatus = mstatus(has_bit(kept, 3), has_bit(kept, 7), mpp, has_bit(kept, 17));
    }

    /// Writes a register of memory protection.
    fn put_pmp(&mut self, number: u32, kept: u32)
        requires number { IsNumber number }
        requires in_range { ArePmpInRange self.old.pmp }
        ensures registers { self.new ≡ put Csr.Pmp number kept self.old }
        ensures in_range { ArePmpInRange self.new.pmp }
    {
        let mut pmp = Pmp::of_fields(self.pmp);
        pmp.write(number, kept);
        self.pmp = pmp.fields();
    }
}

/// mstatus with these bits MIE, MPIE and MPRV, and this mode in MPP.
#[inline]
pub(crate) fn mstatus(mie: bool, mpie: bool, mpp: Mode, mprv: bool) -> u32
    ensures { result ≡ mstatus_of mie mpie mpp mprv }
{
    let mie = if mie { 0x08 } else { 0 };
    let mpie = if mpie { 0x80 } else { 0 };
    let mpp = if mpp.is_machine() { 0x1800 } else { 0 };
    let mprv = if mprv { 0x2_0000 } else { 0 };
    mie + mpie + mpp + mprv
}

/// Whether mstatus can hold this word: no bits but MIE, MPIE, MPRV and those of MPP, which are alike.
pub fn is_mstatus(word: u32) -> bool
    ensures { result ≡ is_mstatus word }
{
    word == mstatus(
        has_bit(word, 3),
        has_bit(word, 7),
        mode_in(word),
        has_bit(word, 17),
    )
}

/// The mode that mstatus has in MPP.
#[inline]
fn mode_in(mstatus: u32) -> Mode
    ensures { result ≡ mode_in mstatus }
{
    if has_bit(mstatus, 11) {
        Mode::Machine
    } else {
        Mode::User
    }
}

/// Whether the bit at this place is 1.
#[inline]
pub(crate) fn has_bit(word: u32, place: u32) -> bool
    requires { place < 32 }
    ensures { result ≡ has_bit word place }
{
    word >> place & 1 == 1
}
