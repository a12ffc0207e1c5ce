ghost use Rattle.std.specs.Prelude.{◌≡◌, ◌+◌, ◌*◌, ◌/◌, ◌%◌, ◌<◌, ◌≤◌, ◌^◌, ℕ, slice_index};
ghost use Rattle.guest_pmp.specs.Registers.{IsInRange, IsNumber, at_reset, has_lock, is_guarded, reading, with_address, with_byte, with_word, written};
ghost use Rattle.guest_pmp.specs.Allowed.{allowed, IsAccessWidth};

use crate::access::{Access, Mode, has_bit};
use crate::registers::{PmpRegisters, written_byte};
use std::marker::Model;

/// The entries of physical memory protection, with the rules of the RISC-V Privileged ISA 20211203, section 3.7.
#[derive(Clone, Copy)]
pub struct Pmp {
    registers: PmpRegisters,
}

impl Model for Pmp {
    ghost use Rattle.guest_pmp.specs.declared.registers.PmpRegisters.{PmpRegisters};
    ghost use Rattle.guest_pmp.specs.Registers.{IsInRange};

    ghost Value = { PmpRegisters };

    ghost view = { λ p. p.registers };

    ghost invariant = { λ p. IsInRange p.registers };

    ghost inverse = { λ v. record { registers = v } };
}

impl Pmp {
    /// The entries of a machine that starts: all are off.
    pub fn reset() -> Pmp
        ensures { result ≡ at_reset }
    {
        Pmp {
            registers: PmpRegisters {
                configurations: [0; 8],
                addresses: [0; 8],
            },
        }
    }

    /// What the registers hold.
    pub fn fields(&self) -> PmpRegisters
        ensures value { result ≡ self.now }
        ensures in_range { IsInRange result }
    {
        self.registers
    }

    /// The entries that the registers with these contents are.
    pub fn of_fields(fields: PmpRegisters) -> Pmp
        requires { IsInRange fields }
        ensures { result ≡ fields }
    {
        Pmp { registers: fields }
    }

    /// What the register of this number reads.
    pub fn read(&self, number: u32) -> u32
        requires { IsNumber number }
        ensures { result ≡ reading self.now number }
    {
        self.registers.read(number)
    }

    /// Writes the register of this number. Each byte and each address that is locked stays, and so does a byte that
    /// would be W without R.
    pub fn write(&mut self, number: u32, word: u32)
        requires { IsNumber number }
        ensures { self.new ≡ written self.old number word }
    {
        match number {
            0x3a0 => self.put_word(0, word),
            0x3a1 => self.put_word(4, word),
            0x3b0..=0x3b7 => self.put_address((number - 0x3b0) as usize, word),
            _ => {}
        }
    }

    /// Whether an access of `width` bytes at an address, which is a multiple of it, is allowed in this mode.
    pub fn allows(&self, access: Access, mode: Mode, address: u32, width: u32) -> bool
        requires width { IsAccessWidth width }
        requires aligned { address % width ≡ 0 }
        ensures value { result ≡ allowed self.now access mode address }
        ensures each_byte { (k : ℕ) → k < width → result ≡ allowed self.now access mode (address + k) }
    {
        self.registers.allows(access, mode, address, width)
    }

    /// Whether an entry is locked. Where none is, machine mode may do anything.
    #[inline]
    pub fn has_lock(&self) -> bool
        ensures { result ≡ has_lock self.now }
    {
        self.registers.has_lock()
    }

    /// Writes the bytes of four entries from the one at `first` on.
    #[inline]
    fn put_word(&mut self, first: usize, word: u32)
        requires { first ≤ 4 }
        ensures { self.new ≡ with_word self.old first word }
    {
        let [a, b, c, d] = word.to_le_bytes();
        self.put_byte(first, a);
        self.put_byte(first + 1, b);
        self.put_byte(first + 2, c);
        self.put_byte(first + 3, d);
    }

    /// Writes the byte of an entry.
    #[inline]
    fn put_byte(&mut self, entry: usize, byte: u8)
        requires { entry < 8 }
        ensures { self.new ≡ with_byte self.old entry byte }
    {
        let old = self.registers.configurations[entry];
        self.registers.configurations[entry] = written_byte(old, byte);
    }

    /// Writes the address of an entry.
    #[inline]
    fn put_address(&mut self, entry: usize, address: u32)
        requires { entry < 8 }
        ensures { self.new ≡ with_address self.old entry address }
    {
        if !self.is_guarded(entry) {
            self.registers.addresses[entry] = address;
        }
    }

    /// Whether the address of an entry is locked: by the entry's own byte, or by that of the next, where this address
    /// is the lower end of its range.
    #[inline]
    fn is_guarded(&self, entry: usize) -> bool
        requires { entry < 8 }
        ensures { result ≡ is_guarded self.now entry }
    {
        let bytes = &self.registers.configurations;
        has_bit(bytes[entry], 7)
            || entry + 1 < 8 && has_bit(bytes[entry + 1], 7) && bytes[entry + 1] >> 3 & 3 == 1
    }
}
