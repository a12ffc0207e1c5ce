//! Short pieces are gathered on their way to a sink.

ghost use Rattle.std.specs.Prelude.{◌≡◌, ◌+◌, ◌≤◌, [], length, OnOk, OnErr};
ghost use Rattle.std.specs.Fmt.{decimal};
ghost use Rattle.io_edge.specs.Outside.{HasRisen, appended, IsPrefixGone};
ghost use Rattle.io_edge.specs.Streamed.{Streams};

use crate::outside::{Sink, WriteFault, put_all};
use arrayvec::ArrayVec;
use std::marker::Model;

/// How many bytes a buffer gathers.
pub const BUFFER_SIZE: usize = 8192;

/// Bytes on their way to a sink, gathered so that many short pieces go out in few puts. They wait here until
/// a piece finds no room, or until they are flushed. Contracts see the bytes that wait.
#[derive(Drop)]
pub struct SinkBuffer {
    waiting: ArrayVec<u8, BUFFER_SIZE>,
}

impl Model for SinkBuffer {
    ghost use Rattle.std.specs.Prelude.{ℕ, List};

    ghost Value = { List ℕ };

    ghost view = { λ b. b.waiting.items };
}

impl SinkBuffer {
    /// A buffer in which nothing waits.
    pub fn new() -> SinkBuffer
        ensures { result ≡ [] }
    {
        SinkBuffer {
            waiting: ArrayVec::new(),
        }
    }

    /// Takes a piece, behind all that waits. Where there is no room for it, what waits is put out first, and
    /// a piece that is longer than the buffer after it, as it lies. After a fault nothing waits.
    #[inline]
    pub fn put<K: Sink>(&mut self, sink: &mut K, piece: &[u8]) -> Result<(), WriteFault>
        ensures counts { K.faults sink.old ≤ K.faults sink.new }
        ensures fault { OnErr result (HasRisen (K.faults sink.old) (K.faults sink.new)) }
        ensures faultless { OnOk result (K.faults sink.new ≡ K.faults sink.old) }
        ensures streams { Streams (K.gone sink.old) (K.gone sink.new) self.old piece.now self.new result }
        ensures gathers { length self.old + length piece.now ≤ BUFFER_SIZE → sink.new ≡ sink.old }
    {
        match self.waiting.try_extend_from_slice(piece) {
            Ok(()) => Ok(()),
            Err(_) => self.put_beyond(sink, piece),
        }
    }

    /// The same where there may be no room.
    #[cold]
    #[inline(never)]
    fn put_beyond<K: Sink>(&mut self, sink: &mut K, piece: &[u8]) -> Result<(), WriteFault>
        ensures counts { K.faults sink.old ≤ K.faults sink.new }
        ensures fault { OnErr result (HasRisen (K.faults sink.old) (K.faults sink.new)) }
        ensures faultless { OnOk result (K.faults sink.new ≡ K.faults sink.old) }
        ensures streams { Streams (K.gone sink.old) (K.gone sink.new) self.old piece.now self.new result }
    {
        self.flush(sink)?;
        match self.waiting.try_extend_from_slice(piece) {
            Ok(()) => Ok(()),
            Err(_) => put_all(sink, piece),
        }
    }

    /// Takes the decimal digits of a number.
    #[inline]
    pub fn put_number<K: Sink>(&mut self, sink: &mut K, number: u64) -> Result<(), WriteFault>
        ensures counts { K.faults sink.old ≤ K.faults sink.new }
        ensures fault { OnErr result (HasRisen (K.faults sink.old) (K.faults sink.new)) }
        ensures faultless { OnOk result (K.faults sink.new ≡ K.faults sink.old) }
        ensures streams { Streams (K.gone sink.old) (K.gone sink.new) self.old (decimal number) self.new result }
    {
        let mut digits = itoa::Buffer::new();
        self.put(sink, digits.format(number).as_bytes())
    }

    /// Puts out all that waits, or a prefix of it up to a fault. Nothing waits then.
    pub fn flush<K: Sink>(&mut self, sink: &mut K) -> Result<(), WriteFault>
        ensures empty { self.new ≡ [] }
        ensures counts { K.faults sink.old ≤ K.faults sink.new }
        ensures ok { OnOk result (K.gone sink.new ≡ appended (K.gone sink.old) self.old) }
        ensures fault { OnErr result (HasRisen (K.faults sink.old) (K.faults sink.new)) }
        ensures faultless { OnOk result (K.faults sink.new ≡ K.faults sink.old) }
        ensures prefix { IsPrefixGone (K.gone sink.old) (K.gone sink.new) self.old }
    {
        let flushed = put_all(sink, self.waiting.as_slice());
        self.waiting.clear();
        flushed
    }
}
