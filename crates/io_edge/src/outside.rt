//! The outside: where files come from and where the report goes. What a real file or terminal holds
//! no contract can say, so an implementation may tell its contents or not.

ghost use Rattle.std.specs.Prelude.{◌≡◌, ℕ, ◌≤◌, ◌<◌, List, Option, length, take, vec_len, Some, IfOk, IfSome, OnOk, OnErr, IsErrOf, IsSomeAnd};
ghost use Rattle.io_edge.specs.Outside.{HasRisen, IsPrefixGone, appended};
ghost use Rattle.io_edge.specs.Asked.{Asked, asked_after};

use std::alloc::Global;
use thiserror::Error;

/// The last value of a count of loads or faults: a count stays there, and one more may then come without a rise.
pub const LAST_COUNT: u64 = u64::MAX;

/// Why a file was not given.
#[derive(Clone, Copy, Debug, PartialEq, Error)]
pub enum ShelfError {
    /// It could not be read, or there is none of that name.
    #[error("the file could not be read")]
    Fault,
    /// It is longer than was asked for.
    #[error("the file is too long")]
    TooLong,
    /// Want of memory.
    #[error("want of memory")]
    Memory,
}

/// The bytes could not be put out.
#[derive(Clone, Copy, Debug, PartialEq, Error)]
#[error("the bytes could not be put out")]
pub struct WriteFault;

/// Files by name.
pub trait Shelf {
    /// The files, from name to bytes, where the shelf tells them.
    ghost files: { Self → Option (List ℕ → Option (List ℕ)) };

    /// How many faults there were.
    ghost faults: { Self → ℕ };

    /// How many loads were asked for, which of them had the last fault, and of which names they were, where the shelf
    /// tells them.
    ghost asked: { Self → Asked };

    /// The bytes of a file, `at_most` so many.
    fn load(&mut self, alloc: Global, name: &str, at_most: usize) -> Result<Vec<u8>, ShelfError>
        ensures same { files self.new ≡ files self.old }
        ensures counts { faults self.old ≤ faults self.new }
        ensures given { IfOk result (λ bytes. IfSome (files self.old) (λ files. files name.now ≡ Some bytes.items)) }
        ensures at_most { IfOk result (λ bytes. vec_len bytes ≤ at_most) }
        ensures too_long { IsErrOf result ShelfError.TooLong
            → IfSome (files self.old) (λ files. IsSomeAnd (files name.now) (λ bytes. at_most < length bytes)) }
        ensures fault { IsErrOf result ShelfError.Fault → HasRisen (faults self.old) (faults self.new) }
        ensures asked { asked self.new ≡ asked_after name.now result (asked self.old) };
}

/// Where bytes go.
pub trait Sink {
    /// The bytes that are gone, where the sink tells them.
    ghost gone: { Self → Option (List ℕ) };

    /// How many faults there were.
    ghost faults: { Self → ℕ };

    /// Puts out the first bytes of `piece`, at least one where there is one, and tells how many.
    fn put(&mut self, piece: &[u8]) -> Result<usize, WriteFault>
        ensures counts { faults self.old ≤ faults self.new }
        ensures within { IfOk result (λ n. n ≤ length piece.now) }
        ensures some { IfOk result (λ n. 0 < length piece.now → 0 < n) }
        ensures out { IfOk result (λ n. gone self.new ≡ appended (gone self.old) (take n piece.now)) }
        ensures none_out { OnErr result (gone self.new ≡ gone self.old) }
        ensures fault { OnErr result (HasRisen (faults self.old) (faults self.new)) }
        ensures faultless { OnOk result (faults self.new ≡ faults self.old) };
}

/// Puts out all of the bytes, or a prefix of them up to the first fault.
pub fn put_all<K: Sink>(sink: &mut K, bytes: &[u8]) -> Result<(), WriteFault>
    ensures counts { K.faults sink.old ≤ K.faults sink.new }
    ensures ok { OnOk result (K.gone sink.new ≡ appended (K.gone sink.old) bytes.now) }
    ensures fault { OnErr result (HasRisen (K.faults sink.old) (K.faults sink.new)) }
    ensures faultless { OnOk result (K.faults sink.new ≡ K.faults sink.old) }
    ensures prefix { IsPrefixGone (K.gone sink.old) (K.gone sink.new) bytes.now }
{
    let mut done = 0;
    while done < bytes.len() {
        let (_, rest) = bytes.split_at(done);
        done += sink.put(rest)?;
    }
    Ok(())
}
