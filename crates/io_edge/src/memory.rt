//! A shelf and a sink in memory, for tests: they tell all that they hold, and fail when they are told.

ghost use Rattle.std.specs.Prelude.{◌≡◌, ◌≤◌, ◌<◌, [], length, IfOk};
ghost use Rattle.std.specs.Option.{option_copied};
ghost use Rattle.io_edge.specs.Files.{Loads, file_named, found, named, after_load};
ghost use Rattle.io_edge.specs.Gone.{Puts};

use crate::outside::{Shelf, ShelfError, Sink, WriteFault};
use std::alloc::{AllocError, Global};
use std::marker::Model;

/// Files in memory. A call that is listed as failing, counted from 1, is a fault, and so is a name
/// that no file has.
#[derive(Drop)]
pub struct MemShelf {
    files: Vec<(String, Vec<u8>)>,
    failing: Vec<u64>,
    calls: u64,
    faults: u64,
    last_fault: u64,
}

impl Model for MemShelf {
    ghost use Rattle.io_edge.specs.Files.{Shelved, named};

    ghost Value = { Shelved };

    ghost view = { λ s. record { files = named s.files.items; failing = s.failing.items; calls = s.calls; faults = s.faults; last_fault = s.last_fault } };
}

impl MemShelf {
    pub fn new(files: Vec<(String, Vec<u8>)>, failing: Vec<u64>) -> MemShelf
        ensures { result ≡ record { files = named files.items; failing = failing.items; calls = 0; faults = 0; last_fault = 0 } }
    {
        MemShelf {
            files,
            failing,
            calls: 0,
            faults: 0,
            last_fault: 0,
        }
    }
}

impl Shelf for MemShelf {
    ghost use Rattle.std.specs.Prelude.{None, Some};
    ghost use Rattle.io_edge.specs.Files.{file_named};

    ghost files = { λ s. Some (file_named s.files) };

    ghost faults = { λ s. s.faults };

    ghost asked = { λ s. record { loads = s.calls; last_fault = s.last_fault; names = None } };

    fn load(&mut self, alloc: Global, name: &str, at_most: usize) -> Result<Vec<u8>, ShelfError>
        ensures loads { Loads (found self.old name.now) at_most result }
        ensures after { self.new ≡ after_load (found self.old name.now) self.old }
        ensures counts { self.old.faults ≤ self.new.faults }
    {
        self.calls = self.calls.saturating_add(1);
        let found = if self.failing.contains(&self.calls) {
            None
        } else {
            find(&self.files, name)
        };
        match found {
            None => {
                self.faults = self.faults.saturating_add(1);
                self.last_fault = self.calls;
                Err(ShelfError::Fault)
            }
            Some(bytes) if bytes.len() > at_most => Err(ShelfError::TooLong),
            Some(bytes) => match Vec::from_slice(alloc, bytes) {
                Ok(copy) => Ok(copy),
                Err(AllocError) => Err(ShelfError::Memory),
            },
        }
    }
}

/// The bytes of the first file of a name.
fn find<'a>(files: &'a [(String, Vec<u8>)], name: &str) -> Option<&'a [u8]>
    ensures { option_copied result ≡ file_named (named files.now) name.now }
{
    for (other, bytes) in files {
        if other.as_str() == name {
            return Some(bytes.as_slice());
        }
    }
    None
}

/// Bytes in memory. It takes at most `most` bytes a call, and `room` bytes in all. A call that is
/// listed as failing, counted from 1, is a fault, and so is one that finds no room
/// left for a piece that is not empty.
#[derive(Drop)]
pub struct MemSink {
    bytes: Vec<u8>,
    most: usize,
    room: usize,
    failing: Vec<u64>,
    calls: u64,
    faults: u64,
}

impl Model for MemSink {
    ghost use Rattle.std.specs.Prelude.{◌≤◌, ◌<◌, vec_len, vec_capacity};
    ghost use Rattle.io_edge.specs.Gone.{Kept};

    ghost Value = { Kept };

    ghost view = { λ s. record { bytes = s.bytes.items; most = s.most; room = s.room; failing = s.failing.items; calls = s.calls; faults = s.faults } };

    ghost invariant = { λ s. (0 < s.most) × (vec_len s.bytes ≤ s.room) × (s.room ≤ vec_capacity s.bytes) };
}

impl MemSink {
    /// An empty sink, whose room is taken now.
    pub fn new(
        alloc: Global,
        most: usize,
        room: usize,
        failing: Vec<u64>,
    ) -> Result<MemSink, AllocError>
        requires { 1 ≤ most }
        ensures { IfOk result (λ sink. sink ≡ record { bytes = []; most = most; room = room; failing = failing.items; calls = 0; faults = 0 }) }
    {
        Ok(MemSink {
            bytes: Vec::with_capacity(alloc, room)?,
            most,
            room,
            failing,
            calls: 0,
            faults: 0,
        })
    }

    /// The bytes that are gone.
    pub fn bytes(&self) -> &[u8]
        ensures { result.now ≡ self.now.bytes }
    {
        &self.bytes
    }

    /// How many puts there were, the faults among them.
    pub fn calls(&self) -> u64
        ensures { result ≡ self.now.calls }
    {
        self.calls
    }
}

impl Sink for MemSink {
    ghost use Rattle.std.specs.Prelude.{Some};

    ghost gone = { λ s. Some s.bytes };

    ghost faults = { λ s. s.faults };

    fn put(&mut self, piece: &[u8]) -> Result<usize, WriteFault>
        ensures puts { Puts self.old piece.now result self.new }
        ensures some { IfOk result (λ n. 0 < length piece.now → 0 < n) }
        ensures counts { self.old.faults ≤ self.new.faults }
    {
        self.calls = self.calls.saturating_add(1);
        let left = self.room - self.bytes.len();
        if self.failing.contains(&self.calls) || left == 0 && !piece.is_empty() {
            self.faults = self.faults.saturating_add(1);
            return Err(WriteFault);
        }
        let n = piece.len().min(self.most).min(left);
        let (taken, _) = piece.split_at(n);
        self.bytes.extend_from_slice(taken).unwrap();
        Ok(n)
    }
}
