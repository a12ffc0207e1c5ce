//! Flat little-endian memory: what a word at an offset is, and what a write does to the list of bytes.
#![tactic(auto)]

pub mod laws;

ghost use Rattle.std.specs.Prelude.{◌≡◌, ◌+◌, ◌≤◌, ◌++◌, length, OnOk};
ghost use Rattle.std.specs.List.{flat_map};
ghost use Rattle.byteorder.specs.Endian.{little_bytes};
ghost use Rattle.flat_memory.specs.Flat.{word_at, half_at, put_bytes};

use byteorder::{ByteOrder, LittleEndian};
use std::alloc::AllocError;

/// The 32-bit number in the four bytes from `at`.
#[inline]
pub fn read_word(memory: &[u8], at: usize) -> u32
    requires { at + 4 ≤ length memory.now }
    ensures { result ≡ word_at memory.now at }
{
    LittleEndian::read_u32(&memory[at..])
}

/// The 16-bit number in the two bytes from `at`.
#[inline]
pub fn read_half(memory: &[u8], at: usize) -> u16
    requires { at + 2 ≤ length memory.now }
    ensures { result ≡ half_at memory.now at }
{
    LittleEndian::read_u16(&memory[at..])
}

/// Writes `bytes` over those from `at` on. All other bytes stay.
#[inline]
pub fn write_bytes(memory: &mut [u8], at: usize, bytes: &[u8])
    requires { at + length bytes.now ≤ length memory.old }
    ensures { memory.new ≡ put_bytes memory.old at bytes.now }
{
    memory[at..at + bytes.len()].copy_from_slice(bytes);
}

/// Adds the bytes of these words, little endian.
pub fn push_words(bytes: &mut Vec<u8>, words: &[u32]) -> Result<(), AllocError>
    ensures { OnOk result (bytes.new.items ≡ bytes.old.items ++ flat_map (little_bytes 4) words.now) }
{
    for word in words {
        bytes.extend_from_slice(&word.to_le_bytes())?;
    }
    Ok(())
}
