//! The bytes that a machine hands over as it ends.

ghost use Rattle.std.specs.Prelude.{◌≡◌, ◌+◌, ◌≤◌, [], length};
ghost use Rattle.fork_port.specs.Handed.{handed_bytes, handed_count, handed_of, handed_word};

use flat_memory::{read_word, write_bytes};

/// The most bytes that a machine hands over.
pub const MAX_HANDED: usize = 64;

/// The bytes that a machine hands over as it ends, 64 at most. They stand in the value itself, so they take
/// no memory of their own.
#[derive(Clone, Copy, Debug, PartialEq, Eq)]
pub struct Handed {
    count: u32,
    // the bytes, and zeros behind them
    bytes: [u8; MAX_HANDED],
}

impl Handed {
    /// No bytes.
    pub fn none() -> Handed
        ensures { result ≡ handed_of [] }
    {
        Handed::of(&[])
    }

    /// These bytes.
    #[tactic(auto, unfolding(crate::specs::Handed::handed_of, flat_memory::specs::Flat::zeros))]
    pub fn of(bytes: &[u8]) -> Handed
        requires { length bytes.now ≤ MAX_HANDED }
        ensures { result ≡ handed_of bytes.now }
    {
        let mut room = [0u8; MAX_HANDED];
        write_bytes(&mut room, 0, bytes);
        Handed {
            count: bytes.len() as u32,
            bytes: room,
        }
    }

    /// How many bytes there are.
    pub fn count(self) -> u32
        ensures { result ≡ handed_count self }
    {
        self.count
    }

    /// The bytes.
    #[tactic(auto, unfolding(crate::specs::Handed::handed_bytes))]
    pub fn as_slice(&self) -> &[u8]
        ensures all { result.now ≡ handed_bytes self.now }
        ensures few { length result.now ≤ MAX_HANDED }
    {
        let end = (self.count as usize).min(MAX_HANDED);
        &self.bytes[..end]
    }

    /// The word at a place of the bytes and of the zeros behind them.
    pub fn word(&self, at: usize) -> u32
        requires { at + 4 ≤ MAX_HANDED }
        ensures { result ≡ handed_word self.now at }
    {
        read_word(&self.bytes, at)
    }
}
