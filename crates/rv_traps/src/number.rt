ghost use Rattle.std.specs.Prelude.{◌≡◌, Some};
ghost use Rattle.guest_pmp.specs.Registers.{IsNumber};
ghost use Rattle.rv_traps.specs.Table.{csr_of, keeps};

/// A control and status register, by its name in the RISC-V Privileged ISA 20211203, chapter 2.
#[derive(Clone, Copy)]
pub(crate) enum Csr {
    /// mvendorid, marchid, mimpid, mhartid and mconfigptr.
    Information,
    Mstatus,
    Misa,
    Mie,
    Mtvec,
    Mcounteren,
    Menvcfg,
    Mstatush,
    Menvcfgh,
    Mcountinhibit,
    /// mhpmevent3 to mhpmevent31.
    Mhpmevent,
    Mscratch,
    Mepc,
    Mcause,
    Mtval,
    Mip,
    /// pmpcfg0 to pmpcfg3 and pmpaddr0 to pmpaddr15.
    Pmp,
    Mcycle,
    Minstret,
    /// mhpmcounter3 to mhpmcounter31.
    Mhpmcounter,
    Mcycleh,
    Minstreth,
    /// The high halves of mhpmcounter3 to mhpmcounter31.
    Mhpmcounterh,
}

impl Csr {
    /// The register of this number, or `None` exactly where the machine has none.
    #[inline]
    #[tactic(auto, unfolding(crate::specs::Table::csr_of, crate::specs::Table::rows))]
    pub(crate) fn of_number(number: u32) -> Option<Csr>
        ensures csr { result ≡ csr_of number }
        ensures protection { result ≡ Some Csr.Pmp → IsNumber number }
    {
        match number {
            0x300 => Some(Csr::Mstatus),
            0x301 => Some(Csr::Misa),
            0x304 => Some(Csr::Mie),
            0x305 => Some(Csr::Mtvec),
            0x306 => Some(Csr::Mcounteren),
            0x30a => Some(Csr::Menvcfg),
            0x310 => Some(Csr::Mstatush),
            0x31a => Some(Csr::Menvcfgh),
            0x320 => Some(Csr::Mcountinhibit),
            0x323..=0x33f => Some(Csr::Mhpmevent),
            0x340 => Some(Csr::Mscratch),
            0x341 => Some(Csr::Mepc),
            0x342 => Some(Csr::Mcause),
            0x343 => Some(Csr::Mtval),
            0x344 => Some(Csr::Mip),
            0x3a0..=0x3a3 => Some(Csr::Pmp),
            0x3b0..=0x3bf => Some(Csr::Pmp),
            0xb00 => Some(Csr::Mcycle),
            0xb02 => Some(Csr::Minstret),
            0xb03..=0xb1f => Some(Csr::Mhpmcounter),
            0xb80 => Some(Csr::Mcycleh),
            0xb82 => Some(Csr::Minstreth),
            0xb83..=0xb9f => Some(Csr::Mhpmcounterh),
            0xf11..=0xf15 => Some(Csr::Information),
            _ => None,
        }
    }

    /// The bits that a write keeps.
    #[inline]
    pub(crate) fn keeps(self) -> u32
        ensures { result ≡ keeps self }
    {
        match self {
            Csr::Mstatus => 0x0002_1888,
            Csr::Mie => 0x0000_0080,
            Csr::Mtvec => 0xffff_fffd,
            Csr::Mepc => 0xffff_fffc,
            Csr::Mscratch
            | Csr::Mcause
            | Csr::Mtval
            | Csr::Pmp
            | Csr::Mcycle
            | Csr::Minstret
            | Csr::Mcycleh
            | Csr::Minstreth => 0xffff_ffff,
            Csr::Information
            | Csr::Misa
            | Csr::Mcounteren
            | Csr::Menvcfg
            | Csr::Mstatush
            | Csr::Menvcfgh
            | Csr::Mcountinhibit
            | Csr::Mhpmevent
            | Csr::Mip
            | Csr::Mhpmcounter
            | Csr::Mhpmcounterh => 0,
        }
    }
}
