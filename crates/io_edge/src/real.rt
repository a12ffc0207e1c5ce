//! The real outside: files and the standard output. They tell nothing of what they hold.

ghost use Rattle.std.specs.Prelude.{◌≡◌};

use crate::outside::{Shelf, ShelfError, Sink, WriteFault};
use std::alloc::Global;
use std::fs;
use std::io::{self, ErrorKind, Read};
use std::marker::Model;
use std::rt::Files;

/// The files of the system. A contract sees the counts of loads and faults.
#[derive(Drop)]
pub struct FileShelf<'a, R: Files> {
    rt: &'a R,
    calls: u64,
    faults: u64,
    last_fault: u64,
}

impl<'a, R: Files> Model for FileShelf<'a, R> {
    ghost use Rattle.io_edge.specs.Files.{Counted};

    ghost Value = { Counted };

    ghost view = { λ s. record { calls = s.calls; faults = s.faults; last_fault = s.last_fault } };
}

impl<'a, R: Files> FileShelf<'a, R> {
    pub fn new(rt: &'a R) -> FileShelf<'a, R>
        ensures { result ≡ record { calls = 0; faults = 0; last_fault = 0 } }
    {
        FileShelf {
            rt,
            calls: 0,
            faults: 0,
            last_fault: 0,
        }
    }
}

impl<R: Files> Shelf for FileShelf<'_, R> {
    ghost use Rattle.std.specs.Prelude.{None};

    ghost files = { λ _. None };

    ghost faults = { λ s. s.faults };

    ghost asked = { λ s. record { loads = s.calls; last_fault = s.last_fault; names = None } };

    fn load(&mut self, alloc: Global, name: &str, at_most: usize) -> Result<Vec<u8>, ShelfError> {
        self.calls = self.calls.saturating_add(1);
        match read_at_most(self.rt, alloc, name, at_most) {
            Ok(bytes) if bytes.len() > at_most => Err(ShelfError::TooLong),
            Ok(bytes) => Ok(bytes),
            Err(error) if error.kind() == ErrorKind::OutOfMemory => Err(ShelfError::Memory),
            Err(_) => {
                self.faults = self.faults.saturating_add(1);
                self.last_fault = self.calls;
                Err(ShelfError::Fault)
            }
        }
    }
}

/// The first bytes of a file, one more than `at_most` where it has so many.
fn read_at_most<R: Files>(
    rt: &R,
    alloc: Global,
    name: &str,
    at_most: usize,
) -> io::Result<Vec<u8>> {
    let mut bytes = Vec::new(alloc);
    read_into(rt, name, at_most, &mut bytes)?;
    Ok(bytes)
}

/// The same, put behind the bytes of a list.
fn read_into<R: Files>(
    rt: &R,
    name: &str,
    at_most: usize,
    bytes: &mut Vec<u8>,
) -> io::Result<usize> {
    let file = fs::open(rt, name)?;
    file.take((at_most as u64).saturating_add(1))
        .read_to_end(bytes)
}

/// The standard output. A contract sees the count of faults.
#[derive(Drop)]
pub struct StdSink<'a, R: Print> {
    rt: &'a R,
    faults: u64,
}

impl<'a, R: Print> Model for StdSink<'a, R> {
    ghost use Rattle.std.specs.Prelude.{ℕ};

    ghost Value = { ℕ };

    ghost view = { λ s. s.faults };
}

impl<'a, R: Print> StdSink<'a, R> {
    pub fn new(rt: &'a R) -> StdSink<'a, R>
        ensures { result ≡ 0 }
    {
        StdSink { rt, faults: 0 }
    }
}

impl<R: Print> Sink for StdSink<'_, R> {
    ghost use Rattle.std.specs.Prelude.{None};

    ghost gone = { λ _. None };

    ghost faults = { λ faults. faults };

    fn put(&mut self, piece: &[u8]) -> Result<usize, WriteFault> {
        match self.rt.write_some(piece) {
            Ok(n) if n > 0 || piece.is_empty() => Ok(n),
            _ => {
                self.faults = self.faults.saturating_add(1);
                Err(WriteFault)
            }
        }
    }
}
