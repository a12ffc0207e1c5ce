//! Which wires a command gives its seed: a wire of this file keeps what it was given, which no wire of the program does.

ghost use Rattle.std.specs.Prelude.{◌≡◌, None};
ghost use Rattle.wire_fates.specs.declared.fate.Fate.TheVariants.{Give};

use crate::equal::{are_equal, succeeds};
use crate::tests::{answer_of, shelf_with, sink_of, words_of};
use host_workers::OpenGate;
use std::process::Abort;
use std::sync::Wait;
use std::thread::Threads;
use wire_fates::{Fate, Wire};

/// A wire that gives each reply in its order, and keeps how many seeds it was given, and the last.
#[derive(Drop)]
struct Recorder {
    count: u32,
    last: u32,
}

impl Wire for Recorder {
    ghost streak = { λ w. 0 };

    ghost seeds = { λ w. None };

    ghost tells = { λ old waiting fate new. fate ≡ Give 0 };

    fn seed(&mut self, seed: u32) {
        self.count = self.count.saturating_add(1);
        self.last = seed;
    }

    fn next(&mut self, _waiting: usize) -> Fate {
        Fate::Give(0)
    }

    fn streak(&self) -> u32 {
        0
    }
}

/// Command lines over three wires, and what each of these was given then: how many seeds, and the last of them.
static SEEDED: [(&str, [(u32, u32); 3]); 5] = [
    ("run guest --wire 7 --workers 2", [(1, 7), (1, 7), (0, 0)]),
    ("run guest --wire 7", [(1, 7), (0, 0), (0, 0)]),
    (
        "run guest --wire 4294967295 --workers 8",
        [(1, 4294967295), (1, 4294967295), (1, 4294967295)],
    ),
    ("run script --wire 7", [(0, 0), (0, 0), (0, 0)]),
    ("drive guest script", [(0, 0), (0, 0), (0, 0)]),
];

/// Three wires that were given none.
fn recorders<R: AllocGlobal + Abort>(rt: &R) -> Vec<Recorder> {
    let mut wires = Vec::new(rt.alloc());
    for _ in 0..3 {
        succeeds(rt, wires.push(Recorder { count: 0, last: 0 }));
    }
    wires
}

/// Compares what three wires were given with what is wanted.
fn compare_given<R: AllocGlobal + Abort>(
    rt: &R,
    line: &str,
    wires: &[Recorder],
    given: &[(u32, u32); 3],
) {
    let mut found = Vec::new(rt.alloc());
    for wire in wires {
        succeeds(rt, found.push((wire.count, wire.last)));
    }
    are_equal(rt, &(line, found.as_slice()), &(line, given.as_slice()));
}

/// Runs a line over the image that ends with the value 7 and over three wires, and compares what these were given.
fn gives<R: AllocGlobal + Threads + Wait + Sync + Abort>(
    rt: &R,
    line: &str,
    given: &[(u32, u32); 3],
) {
    let words = words_of(rt, rt.alloc(), line);
    let mut shelf = shelf_with(rt, rt.alloc());
    let mut sink = sink_of(rt, rt.alloc(), 0);
    let mut wires = recorders(rt);
    let _ = answer_of(rt, &words, &mut shelf, &mut sink, &mut wires, &OpenGate);
    compare_given(rt, line, &wires, given);
}

#[test]
fn gives_each_worker_a_seed(rt: HostRuntime) {
    for (line, given) in SEEDED.iter() {
        gives(&rt, line, given);
    }
}
