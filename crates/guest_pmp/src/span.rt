//! Words of memory around an address that are decided alike.

ghost use Rattle.std.specs.Prelude.{◌≡◌, ◌+◌, ◌*◌, ◌/◌, ◌^◌, ◌<◌, ◌≤◌, ◌&&◌, ◌↔◌, ℕ, IsTrue, false, nat_le, nat_lt};
ghost use Rattle.guest_pmp.specs.Regions.{block, deciding, entry_of};
ghost use Rattle.guest_pmp.specs.Spans.{HasAddress, HasWord, IsBeside, IsOfEntry, IsWithin};

use crate::registers::{ENTRIES, PmpRegisters};

/// Words of memory in a row: from `first` up to but not `behind`. The number of a word is its address divided by 4.
#[derive(Clone, Copy, Debug, PartialEq, Eq)]
pub struct Span {
    pub first: u64,
    pub behind: u64,
}

/// All words of memory.
const ALL: Span = Span {
    first: 0,
    behind: 0x4000_0000,
};

impl PmpRegisters {
    /// The words around an address that the same entry decides, or that no entry matches.
    pub fn span_around(&self, address: u32) -> Span
        ensures has { HasAddress result address }
        ensures fits { result.behind ≤ 2 ^ 30 }
        ensures alike { (other : ℕ) → HasAddress result other → deciding self.now other ≡ deciding self.now address }
    {
        let word = (address / 4) as u64;
        let mut span = ALL;
        let mut below = 0;
        for i in 0..ENTRIES {
            let top = self.addresses[i];
            let region = region_of(self.configurations[i], below, top);
            if region.has(word) {
                return span.within(region);
            }
            span = span.beside(region, word);
            below = top;
        }
        span
    }
}

impl Span {
    /// No words.
    #[inline]
    pub fn none() -> Span
        ensures { (address : ℕ) → ¬ HasAddress result address }
    {
        Span {
            first: 0,
            behind: 0,
        }
    }

    /// Whether the word of an address is one of them.
    #[inline]
    pub fn has_address(self, address: u32) -> bool
        ensures { IsTrue result ↔ HasAddress self address }
    {
        self.has((address / 4) as u64)
    }

    #[inline]
    fn has(self, word: u64) -> bool
        ensures { result ≡ (nat_le self.first word && nat_lt word self.behind) }
    {
        self.first <= word && word < self.behind
    }

    /// The words of both.
    #[inline]
    fn within(self, region: Span) -> Span
        ensures { IsWithin self region result }
    {
        Span {
            first: self.first.max(region.first),
            behind: self.behind.min(region.behind),
        }
    }

    /// Words around this one that are of a region that does not have it.
    #[inline]
    fn beside(self, region: Span, word: u64) -> Span
        requires apart { (nat_le region.first word && nat_lt word region.behind) ≡ false }
        requires has { HasWord self word }
        ensures { IsBeside self region word result }
    {
        if region.behind <= word {
            Span {
                first: self.first.max(region.behind),
                ..self
            }
        } else {
            Span {
                behind: self.behind.min(region.first),
                ..self
            }
        }
    }
}

/// The words that an entry matches.
#[inline]
fn region_of(configuration: u8, below: u32, top: u32) -> Span
    ensures { IsOfEntry (entry_of configuration below top) result }
{
    match configuration >> 3 & 3 {
        0 => Span {
            first: 0,
            behind: 0,
        },
        1 => Span {
            first: below as u64,
            behind: top as u64,
        },
        2 => Span {
            first: top as u64,
            behind: top as u64 + 1,
        },
        _ => block(top),
    }
}

/// The words of the naturally aligned block that an address word gives.
#[inline]
fn block(top: u32) -> Span
    ensures { (byte : ℕ) → IsOfEntry (block byte top) result }
{
    let shift = top.trailing_ones() + 1;
    let words = 1u64 << shift;
    let first = (top as u64 >> shift) * words;
    Span {
        first,
        behind: first + words,
    }
}
