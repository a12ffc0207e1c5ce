ghost use Rattle.std.specs.Prelude.{◌≡◌};
ghost use Rattle.timer_port.specs.Timer.{half_of, reading, put, low_half, high_half, with_low_half, with_high_half};

/// The offset of mtimecmp's bits 31:0.
pub const MTIMECMP_LOW: u32 = 0x0000;

/// The offset of mtimecmp's bits 63:32.
pub const MTIMECMP_HIGH: u32 = 0x0004;

/// The offset of mtime's bits 31:0.
pub const MTIME_LOW: u32 = 0x7ff8;

/// The offset of mtime's bits 63:32.
pub const MTIME_HIGH: u32 = 0x7ffc;

/// What the timer holds, by the names in the RISC-V Privileged ISA 20211203, section 3.2.1.
#[derive(Clone, Copy, Debug, PartialEq, Eq)]
pub struct TimerRegisters {
    pub mtime: u64,
    pub mtimecmp: u64,
}

/// A half of a register, which is a word of the port.
#[derive(Clone, Copy)]
pub(crate) enum Half {
    MtimecmpLow,
    MtimecmpHigh,
    MtimeLow,
    MtimeHigh,
}

impl Half {
    /// The half that an access is of, or `None` exactly where the port has no such access.
    #[inline]
    pub(crate) fn of_access(offset: u32, width: u32) -> Option<Half>
        ensures { result ≡ half_of offset width }
    {
        match (offset, width) {
            (MTIMECMP_LOW, 4) => Some(Half::MtimecmpLow),
            (MTIMECMP_HIGH, 4) => Some(Half::MtimecmpHigh),
            (MTIME_LOW, 4) => Some(Half::MtimeLow),
            (MTIME_HIGH, 4) => Some(Half::MtimeHigh),
            _ => None,
        }
    }
}

impl TimerRegisters {
    #[inline]
    pub(crate) fn reading(&self, half: Half) -> u32
        ensures { result ≡ reading half self.now }
    {
        match half {
            Half::MtimecmpLow => low_half(self.mtimecmp),
            Half::MtimecmpHigh => high_half(self.mtimecmp),
            Half::MtimeLow => low_half(self.mtime),
            Half::MtimeHigh => high_half(self.mtime),
        }
    }

    #[inline]
    pub(crate) fn put(&mut self, half: Half, word: u32)
        ensures { self.new ≡ put half word self.old }
    {
        match half {
            Half::MtimecmpLow => self.mtimecmp = with_low_half(self.mtimecmp, word),
            Half::MtimecmpHigh => self.mtimecmp = with_high_half(self.mtimecmp, word),
            Half::MtimeLow => self.mtime = with_low_half(self.mtime, word),
            Half::MtimeHigh => self.mtime = with_high_half(self.mtime, word),
        }
    }
}

/// Bits 31:0.
#[inline]
fn low_half(register: u64) -> u32
    ensures { result ≡ low_half register }
{
    (register & 0xffff_ffff) as u32
}

/// Bits 63:32.
#[inline]
fn high_half(register: u64) -> u32
    ensures { result ≡ high_half register }
{
    (register >> 32) as u32
}

/// The register with `word` as its bits 31:0.
#[inline]
fn with_low_half(register: u64, word: u32) -> u64
    ensures { result ≡ with_low_half register word }
{
    u64::from(high_half(register)) << 32 | u64::from(word)
}

/// The register with `word` as its bits 63:32.
#[inline]
fn with_high_half(register: u64, word: u32) -> u64
    ensures { result ≡ with_high_half register word }
{
    u64::from(word) << 32 | u64::from(low_half(register))
}
