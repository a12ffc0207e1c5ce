//! What `self` writes of the guest of seed 1, by some workers and by several at once.

use crate::equal::{are_equal, succeeds};
use crate::meeting::Meeting;
use crate::tests::{answer_of, words_of};
use host_workers::{Gate, OpenGate};
use io_edge::{MemShelf, MemSink};
use snow_commands::Status;
use std::alloc::Global;
use std::process::Abort;
use std::sync::Wait;
use std::thread::Threads;
use wire_fates::Seeded;

/// The line of seed 1. `tests/generated_guest` at the top of the repository computed it by a machine of its own. It would
/// be another with fewer than 16 sectors: the guest adds up what it reads from the last of them.
#[rattlefmt::skip]
static LINE: &[u8] =
    b"self 1 machines 21 steps 77581 exits 55940547 killed 20 out 1298\n";

/// So many wires that give each reply.
pub(crate) fn wires_of(rt: &impl Abort, alloc: Global, count: usize) -> Vec<Seeded> {
    let mut wires = Vec::new(alloc);
    for _ in 0..count {
        succeeds(rt, wires.push(Seeded::new()));
    }
    wires
}

/// The words of a command line, and all that it is run over.
#[derive(Drop)]
struct Outside {
    words: Vec<String>,
    shelf: MemShelf,
    sink: MemSink,
    wires: Vec<Seeded>,
}

/// A command line over a shelf without files, and so many wires.
fn outside_of(rt: &impl Abort, alloc: Global, line: &str, count: usize) -> Outside {
    Outside {
        words: words_of(rt, alloc, line),
        shelf: MemShelf::new(Vec::new(alloc), Vec::new(alloc)),
        sink: succeeds(rt, MemSink::new(alloc, 100, 100, Vec::new(alloc))),
        wires: wires_of(rt, alloc, count),
    }
}

/// What a command line answers.
fn answer<R: AllocGlobal + Threads + Wait + Sync + Abort, G: Gate + Sync>(
    rt: &R,
    outside: &mut Outside,
    gate: &G,
) -> Status {
    answer_of(
        rt,
        &outside.words,
        &mut outside.shelf,
        &mut outside.sink,
        &mut outside.wires,
        gate,
    )
}

/// Compares an answer with code 0, and what is out with the line.
fn compare<R: Abort>(rt: &R, line: &str, found: &Status, sink: &MemSink) {
    are_equal(rt, &(line, found.code, sink.bytes()), &(line, 0, LINE));
}

/// Expects that a command line writes the line, over so many wires.
fn writes_line<R: AllocGlobal + Threads + Wait + Sync + Abort, G: Gate + Sync>(
    rt: &R,
    line: &str,
    count: usize,
    gate: &G,
) {
    let mut outside = outside_of(rt, rt.alloc(), line, count);
    let found = answer(rt, &mut outside, gate);
    compare(rt, line, &found, &outside.sink);
}

/// Command lines, and how many wires there are.
static LINES: [(&str, usize); 4] = [
    ("self 1", 64),
    ("self 1 --workers 4", 64),
    ("self 1 --workers 64", 64),
    ("self 1 --workers 64", 1),
];

#[test]
fn writes_the_line_of_a_guest(rt: HostRuntime) {
    for (line, count) in LINES.iter() {
        writes_line(&rt, line, *count, &OpenGate);
    }
}

#[test]
fn four_workers_run_at_once(rt: HostRuntime) {
    let meeting = Meeting::new(4);
    writes_line(&rt, "self 1 --workers 4", 64, &meeting);
    are_equal(&rt, &meeting.was_held(), &true);
}
