//! The addresses that an entry matches.

ghost use Rattle.std.specs.Prelude.{◌≡◌, ◌+◌, ◌/◌, ◌^◌, ℕ, ◌==◌, true};
ghost use Rattle.std.specs.Int.{w32, trailing_ones};
ghost use Rattle.guest_pmp.specs.Regions.{deciding, entry_of, has};

use crate::registers::{ENTRIES, PmpRegisters};

/// The byte of the first entry that matches the word of memory with this number, if one does.
pub(crate) fn deciding(registers: &PmpRegisters, word: u32) -> Option<u8>
    ensures { (address : ℕ) → address / 4 ≡ word → result ≡ deciding registers.now address }
{
    let mut below = 0;
    for i in 0..ENTRIES {
        let configuration = registers.configurations[i];
        let top = registers.addresses[i];
        if matches(configuration, below, top, word) {
            return Some(configuration);
        }
        below = top;
    }
    None
}

/// Whether an entry matches the word of memory with this number, which is its address divided by 4. `below` is the
/// address word of the entry before it.
#[inline]
fn matches(configuration: u8, below: u32, top: u32, word: u32) -> bool
    ensures { (address : ℕ) → address / 4 ≡ word → result ≡ has address (entry_of configuration below top) }
{
    match configuration >> 3 & 3 {
        0 => false,
        1 => below <= word && word < top,
        2 => word == top,
        _ => is_in_block(top, word),
    }
}

/// Whether a word of memory is in the naturally aligned block that an address word gives: their bits above the lowest
/// 0 of the address word are the same.
#[inline]
fn is_in_block(top: u32, word: u32) -> bool
    ensures { result ≡ (word / 2 ^ (trailing_ones w32 top + 1) == top / 2 ^ (trailing_ones w32 top + 1)) }
{
    let shift = top.trailing_ones() + 1;
    word as u64 >> shift == top as u64 >> shift
}
