//! Workers that wait for one another.

ghost use Rattle.std.specs.Prelude.{None, ◌≡◌};
ghost use Rattle.wire_fates.specs.declared.fate.Fate.TheVariants.{Give};

use crossbeam_utils::Backoff;
use host_workers::{Gate, Point};
use std::sync::Wait;
use std::sync::atomic::{AtomicU64, Ordering};
use wire_fates::{Fate, Wire};

/// How often a worker looks for what others come to, at most. Each time it leaves others the processor.
pub(crate) const MAX_LOOKS: u32 = 5_000_000;

/// What holds each of two workers, when it first comes, until the other has come.
#[derive(Drop)]
pub struct Meeting {
    /// A bit for each that has come.
    came: AtomicU64,
    /// How many waited in vain.
    alone: AtomicU64,
}

impl Meeting {
    pub fn new() -> Meeting {
        Meeting {
            came: AtomicU64::new(0),
            alone: AtomicU64::new(0),
        }
    }

    /// Whether two have come, and nobody waited in vain.
    pub fn was_held(&self) -> bool {
        self.came.load(Ordering::SeqCst).count_ones() >= 2 && self.alone.load(Ordering::SeqCst) == 0
    }

    fn come(&self, worker: u32) {
        let bit = 1u64 << (worker % 64);
        if self.came.fetch_or(bit, Ordering::SeqCst) & bit == 0 {
            self.wait();
        }
    }

    fn wait(&self) {
        let backoff = Backoff::new();
        for _ in 0..MAX_LOOKS {
            if self.came.load(Ordering::SeqCst).count_ones() >= 2 {
                return;
            }
            backoff.snooze();
        }
        self.alone.fetch_add(1, Ordering::SeqCst);
    }
}

/// Workers meet with the first clone of the root that each takes.
impl Gate for Meeting {
    fn at<R: Wait>(&self, _rt: &R, worker: u32, point: Point) {
        if matches!(point, Point::Took(1)) {
            self.come(worker);
        }
    }
}

/// A wire that gives each reply in its order. Two of them meet at the first fate that each is asked for.
#[derive(Drop)]
pub struct MeetingWire<'a> {
    meeting: &'a Meeting,
    worker: u32,
}

impl<'a> MeetingWire<'a> {
    pub fn new(meeting: &'a Meeting, worker: u32) -> MeetingWire<'a> {
        MeetingWire { meeting, worker }
    }
}

impl<'a> Wire for MeetingWire<'a> {
    ghost streak = { λ w. 0 };

    ghost seeds = { λ w. None };

    ghost tells = { λ old waiting fate new. fate ≡ Give 0 };

    fn seed(&mut self, _seed: u32) {}

    fn next(&mut self, _waiting: usize) -> Fate {
        self.meeting.come(self.worker);
        Fate::Give(0)
    }

    fn streak(&self) -> u32 {
        0
    }
}
