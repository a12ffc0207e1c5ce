//! What the registers of memory protection hold.

ghost use Rattle.std.specs.Prelude.{◌≡◌, ◌+◌, ◌/◌, ◌%◌, ◌<◌, ◌≤◌, ◌↔◌, ℕ, IsTrue, slice_index, true};
ghost use Rattle.guest_pmp.specs.Allowed.{allowed, IsAccessWidth};
ghost use Rattle.guest_pmp.specs.Registers.{IsInRange, IsNumber, has_lock, is_configuration, kept, reading, word_from, written_byte};

use crate::access::{Access, Mode, has_bit, lets};
use crate::region::deciding;

/// How many entries there are.
pub const ENTRIES: usize = 8;

/// The numbers of the registers of the entries' bytes, of which the first two have four bytes each.
pub const PMPCFG0: u32 = 0x3a0;

pub const PMPCFG3: u32 = 0x3a3;

/// The numbers of the registers of the entries' addresses, of which the first eight have one each.
pub const PMPADDR0: u32 = 0x3b0;

pub const PMPADDR15: u32 = 0x3bf;

/// What the registers of memory protection hold (RISC-V Privileged ISA 20211203, section 3.7.1).
#[derive(Clone, Copy, Debug, PartialEq, Eq)]
pub struct PmpRegisters {
    /// A byte for each entry: R (bit 0), W (1), X (2), how it matches addresses (4:3), and L (7), which locks it. Bits
    /// 6:5 are 0, and there is no byte with W and without R.
    pub configurations: [u8; 8],
    /// A word for each entry: bits 33:2 of an address.
    pub addresses: [u32; 8],
}

impl PmpRegisters {
    /// Whether each byte is one that a register can hold.
    pub fn is_in_range(&self) -> bool
        ensures { IsTrue result ↔ IsInRange self.now }
    {
        self.configurations
            .iter()
            .all(|byte| is_configuration(*byte))
    }

    /// What the register of this number reads.
    pub fn read(&self, number: u32) -> u32
        requires { IsNumber number }
        ensures { result ≡ reading self.now number }
    {
        match number {
            0x3a0 => self.word(0),
            0x3a1 => self.word(4),
            0x3b0..=0x3b7 => self.addresses[(number - 0x3b0) as usize],
            _ => 0,
        }
    }

    /// Whether an access of `width` bytes at an address, which is a multiple of it, is allowed in this mode.
    pub fn allows(&self, access: Access, mode: Mode, address: u32, width: u32) -> bool
        requires width { IsAccessWidth width }
        requires aligned { address % width ≡ 0 }
        ensures value { result ≡ allowed self.now access mode address }
        ensures each_byte { (k : ℕ) → k < width → result ≡ allowed self.now access mode (address + k) }
    {
        match deciding(self, address / 4) {
            Some(configuration) => lets(configuration, access, mode),
            None => mode.is_machine(),
        }
    }

    /// Whether an entry is locked. Where none is, machine mode may do anything.
    #[inline]
    pub fn has_lock(&self) -> bool
        requires { IsInRange self.now }
        ensures { result ≡ has_lock self.now }
    {
        // One mask tells of all bytes: it is asked at each step that is made by itself.
        u64::from_le_bytes(self.configurations) & 0x8080_8080_8080_8080 != 0
    }

    /// The bytes of four entries from the one at `first` on, as a word.
    #[inline]
    fn word(&self, first: usize) -> u32
        requires { first ≤ 4 }
        ensures { result ≡ word_from self.now.configurations first }
    {
        let bytes = &self.configurations;
        u32::from_le_bytes([
            bytes[first],
            bytes[first + 1],
            bytes[first + 2],
            bytes[first + 3],
        ])
    }
}

/// The bits of a byte that a write keeps: all but 6:5.
#[inline]
fn kept(byte: u8) -> u8
    ensures { result ≡ kept byte }
{
    byte & 0x9f
}

/// Whether a register can hold this byte.
#[inline]
fn is_configuration(byte: u8) -> bool
    ensures { result ≡ is_configuration byte }
{
    byte == kept(byte) && (has_bit(byte, 0) || !has_bit(byte, 1))
}

/// An entry's byte after a write. It stays where the entry is locked, and where the new one is W without R.
#[inline]
pub(crate) fn written_byte(old: u8, byte: u8) -> u8
    ensures { result ≡ written_byte old byte }
{
    let new = kept(byte);
    if has_bit(old, 7) || !is_configuration(new) {
        old
    } else {
        new
    }
}
