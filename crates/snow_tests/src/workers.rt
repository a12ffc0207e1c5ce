//! How many workers a command has: as many as its words ask for, but no more than there are wires; and one where no
//! machine may be cloned. No clause tells it, since nothing that a command is given or gives shows a worker but a gate.

use crate::equal::are_equal;
use crate::generated::wires_of;
use crate::tests::{answer_of, shelf_with, sink_of, words_of};
use host_workers::{Gate, Point};
use snow_commands::Status;
use std::process::Abort;
use std::sync::Wait;
use std::sync::atomic::{AtomicU64, Ordering};
use std::thread::Threads;

/// A gate that holds nobody, and keeps which workers came to their end.
#[derive(Drop)]
struct Ends {
    /// A bit for each number.
    came: AtomicU64,
}

impl Ends {
    fn new() -> Ends {
        Ends {
            came: AtomicU64::new(0),
        }
    }

    fn came(&self) -> u64 {
        self.came.load(Ordering::SeqCst)
    }
}

impl Gate for Ends {
    fn at<R: Wait>(&self, _rt: &R, worker: u32, point: Point) {
        if matches!(point, Point::Done) {
            let _ = self.came.fetch_or(1u64 << (worker % 64), Ordering::SeqCst);
        }
    }
}

/// Command lines, how many wires there are, and the workers that come to their end then, a bit for each.
static WORKERS: [(&str, usize, u64); 8] = [
    ("self 1", 3, 0b1),
    ("self 1 --workers 2", 3, 0b11),
    ("self 1 --workers 3", 3, 0b111),
    ("self 1 --workers 8", 3, 0b111),
    ("self 1 --workers 64", 64, u64::MAX),
    ("run guest --clones 2 --workers 2", 3, 0b11),
    ("run guest --clones 2 --workers 8", 3, 0b111),
    ("run guest --workers 8", 3, 0b1),
];

/// Compares an answer with code 0, and who came to an end with who is wanted.
fn compare<R: Abort>(rt: &R, line: &str, found: &Status, came: u64, wanted: u64) {
    are_equal(rt, &(line, found.code, came), &(line, 0, wanted));
}

/// Runs a line over the image that ends with the value 7 and over so many wires, and compares which workers came to
/// their end.
fn has_workers<R: AllocGlobal + Threads + Wait + Sync + Abort>(
    rt: &R,
    line: &str,
    count: usize,
    wanted: u64,
) {
    let words = words_of(rt, rt.alloc(), line);
    let mut shelf = shelf_with(rt, rt.alloc());
    let mut sink = sink_of(rt, rt.alloc(), 0);
    let mut wires = wires_of(rt, rt.alloc(), count);
    let ends = Ends::new();
    let found = answer_of(rt, &words, &mut shelf, &mut sink, &mut wires, &ends);
    compare(rt, line, &found, ends.came(), wanted);
}

#[test]
fn has_as_many_workers_as_asked_or_wires(rt: HostRuntime) {
    for (line, count, wanted) in WORKERS.iter() {
        has_workers(&rt, line, *count, *wanted);
    }
}
