ghost use Rattle.std.specs.Prelude.{◌≡◌, ◌<◌, ◌^◌};
ghost use Rattle.rv_traps.specs.Counters.{half_of, is_of_mcycle, is_of_minstret, counted_if};
ghost use Rattle.rv_traps.specs.Registers.{low_half, high_half, with_low_half, with_high_half};

use crate::number::Csr;

/// The half of a counter that a step wrote.
#[derive(Clone, Copy, Debug, PartialEq, Eq)]
pub enum Wrote {
    Nothing,
    CycleLow,
    CycleHigh,
    InstretLow,
    InstretHigh,
}

impl Wrote {
    /// The half that a write to the register of this number writes.
    #[inline]
    #[tactic(auto, unfolding(crate::specs::Counters::half_of))]
    pub fn by_write(number: u32) -> Wrote
        ensures { result ≡ half_of number }
    {
        match Csr::of_number(number) {
            Some(Csr::Mcycle) => Wrote::CycleLow,
            Some(Csr::Mcycleh) => Wrote::CycleHigh,
            Some(Csr::Minstret) => Wrote::InstretLow,
            Some(Csr::Minstreth) => Wrote::InstretHigh,
            _ => Wrote::Nothing,
        }
    }

    #[inline]
    pub(crate) fn is_of_mcycle(self) -> bool
        ensures { result ≡ is_of_mcycle self }
    {
        matches!(self, Wrote::CycleLow | Wrote::CycleHigh)
    }

    #[inline]
    pub(crate) fn is_of_minstret(self) -> bool
        ensures { result ≡ is_of_minstret self }
    {
        matches!(self, Wrote::InstretLow | Wrote::InstretHigh)
    }
}

/// Bits 31:0.
#[inline]
pub(crate) fn low_half(counter: u64) -> u32
    ensures { result ≡ low_half counter }
{
    (counter & 0xffff_ffff) as u32
}

/// Bits 63:32.
#[inline]
pub(crate) fn high_half(counter: u64) -> u32
    ensures { result ≡ high_half counter }
{
    (counter >> 32) as u32
}

/// The counter with `word` as its bits 31:0.
#[inline]
pub(crate) fn with_low_half(counter: u64, word: u32) -> u64
    ensures { result ≡ with_low_half counter word }
{
    u64::from(high_half(counter)) << 32 | u64::from(word)
}

/// The counter with `word` as its bits 63:32.
#[inline]
pub(crate) fn with_high_half(counter: u64, word: u32) -> u64
    ensures { result ≡ with_high_half counter word }
{
    u64::from(word) << 32 | u64::from(low_half(counter))
}

/// The counter, one more where it counts.
#[inline]
pub(crate) fn counted_if(counts: bool, counter: u64) -> u64
    ensures { result ≡ counted_if counts counter }
{
    if counts {
        counter.wrapping_add(1)
    } else {
        counter
    }
}
