//! Workers that wait for one another.

ghost use Rattle.std.specs.Prelude.{None, ◌≡◌};
ghost use Rattle.wire_fates.specs.declared.fate.Fate.TheVariants.{Give};

use crossbeam_utils::Backoff;
use host_workers::{Gate, Point};
use std::sync::Wait;
use std::sync::atomic::{AtomicU64, Ordering};
use wire_fates::{Fate, Wire};

/// How often a worker looks for the others, at most. Each time it leaves others the processor.
const MAX_LOOKS: u32 = 1_000_000;

/// What holds each worker, when it first comes, until so many have come.
#[derive(Drop)]
pub struct Meeting {
    wanted: u32,
    /// A bit for each that has come.
    came: AtomicU64,
    /// How many waited in vain.
    alone: AtomicU64,
}

impl Meeting {
    pub fn new(wanted: u32) -> Meeting {
        Meeting {
            wanted,
            came: AtomicU64::new(0),
            alone: AtomicU64::new(0),
        }
    }

    fn is_met(&self) -> bool {
        self.came.load(Ordering::SeqCst).count_ones() >= self.wanted
    }

    /// Whether they have met, and nobody waited in vain.
    pub fn was_held(&self) -> bool {
        self.is_met() && self.alone.load(Ordering::SeqCst) == 0
    }

    fn come(&self, worker: u32) {
        let bit = 1u64 << (worker % 64);
        if self.came.fetch_or(bit, Ordering::SeqCst) & bit == 0 {
            self.wait();
        }
    }

    fn wait(&self) {
        let backoff = Backoff::new();
        for _ in 0..MAX_LOOKS {
            if self.is_met() {
                return;
            }
            backoff.snooze();
        }
        self.alone.fetch_add(1, Ordering::SeqCst);
    }
}

/// Workers meet with the first child of the root that each takes.
impl Gate for Meeting {
    fn at<R: Wait>(&self, _rt: &R, worker: u32, point: Point) {
        if matches!(point, Point::Took(1)) {
            self.come(worker);
        }
    }
}

/// A wire that gives each reply in its order. Such wires meet at the first fate that each is asked for.
#[derive(Drop)]
pub struct MeetingWire<'a> {
    meeting: &'a Meeting,
    number: u32,
}

impl<'a> MeetingWire<'a> {
    pub fn new(meeting: &'a Meeting, number: u32) -> MeetingWire<'a> {
        MeetingWire { meeting, number }
    }
}

impl<'a> Wire for MeetingWire<'a> {
    ghost streak = { λ w. 0 };

    ghost seeds = { λ w. None };

    ghost tells = { λ old waiting fate new. fate ≡ Give 0 };

    fn seed(&mut self, _seed: u32) {}

    fn next(&mut self, _waiting: usize) -> Fate {
        self.meeting.come(self.number);
        Fate::Give(0)
    }

    fn streak(&self) -> u32 {
        0
    }
}
