//! What no clause says of the outside: real files and streams, and that memory does not want where there is some.

use crate::equal::{are_equal, succeeds};
use io_edge::{
    FileShelf, MemShelf, MemSink, Shelf, ShelfError, Sink, StdSink, WriteFault, put_all,
};
use std::alloc::Global;
use std::fs;
use std::process::Abort;
use std::rt::Files;

#[test]
fn reads_and_writes_the_real_outside(rt: HostRuntime) {
    reads_what_is_written(&rt, rt.alloc());
    puts_four(&rt, &mut StdSink::new(&rt));
}

fn reads_what_is_written<R: Abort + Files>(rt: &R, alloc: Global) {
    let is_written = fs::write(rt, "machine_tests-file", b"12345".as_slice()).is_ok();
    reads_a_file(rt, alloc, &mut FileShelf::new(rt));
    let is_removed = fs::remove_file(rt, "machine_tests-file").is_ok();
    are_equal(rt, &[is_written, is_removed], &[true; 2]);
    is_missing(rt, alloc, &mut FileShelf::new(rt));
}

fn puts_four<S: Sink>(rt: &impl Abort, sink: &mut S) {
    are_equal(rt, &sink.put(b"snow"), &Ok(4));
}

/// The file is read whole, or not at all.
fn reads_a_file<S: Shelf>(rt: &impl Abort, alloc: Global, shelf: &mut S) {
    is_read(rt, alloc, shelf);
    is_refused(rt, alloc, shelf, 4, ShelfError::TooLong);
}

fn is_read<S: Shelf>(rt: &impl Abort, alloc: Global, shelf: &mut S) {
    let bytes = shelf
        .load(alloc, "machine_tests-file", 5)
        .expect(rt, "a file");
    are_equal(rt, &bytes.as_slice(), &b"12345".as_slice());
}

fn is_refused<S: Shelf>(
    rt: &impl Abort,
    alloc: Global,
    shelf: &mut S,
    most: usize,
    error: ShelfError,
) {
    let refused = shelf.load(alloc, "machine_tests-file", most).err();
    are_equal(rt, &refused, &Some(error));
}

fn is_missing<S: Shelf>(rt: &impl Abort, alloc: Global, shelf: &mut S) {
    is_refused(rt, alloc, shelf, 5, ShelfError::Fault);
}

#[test]
fn reads_and_writes_memory(rt: HostRuntime) {
    let mut shelf = shelf_of(&rt, rt.alloc());
    let bytes = succeeds(&rt, shelf.load(rt.alloc(), "name", 5));
    fills_a_sink(&rt, rt.alloc(), &bytes);
}

/// A shelf with one file.
fn shelf_of(rt: &impl Abort, alloc: Global) -> MemShelf {
    let name = succeeds(rt, String::from_str(alloc, "name"));
    let file = (name, succeeds(rt, Vec::from_slice(alloc, b"12345")));
    let files = succeeds(rt, vec![in alloc; file]);
    MemShelf::new(files, Vec::new(alloc))
}

/// A sink takes bytes while it has room.
fn fills_a_sink(rt: &impl Abort, alloc: Global, bytes: &[u8]) {
    let mut sink = succeeds(rt, MemSink::new(alloc, 2, 8, Vec::new(alloc)));
    let puts = [put_all(&mut sink, bytes), put_all(&mut sink, bytes)];
    let want = [Ok(()), Err(WriteFault)];
    are_equal(rt, &(puts, sink.bytes()), &(want, b"12345123".as_slice()));
}
