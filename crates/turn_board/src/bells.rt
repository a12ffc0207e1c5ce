//! Where threads sleep until their numbers are served. No contract speaks of it.

use std::array;
use std::sync::atomic::{AtomicU64, Ordering};

/// How many bells a lock has: with up to so many threads at it, each that waits has one of its own.
const BELLS: usize = 64;

/// The bell of the numbers that leave one remainder.
#[derive(Drop)]
pub(crate) struct Bell {
    /// How often it rang. Who is to sleep parks on it.
    pub(crate) rings: AtomicU64,
    /// How many threads sleep until it rings, or are about to.
    sleepers: AtomicU64,
}

impl Bell {
    fn new() -> Bell {
        Bell {
            rings: AtomicU64::new(0),
            sleepers: AtomicU64::new(0),
        }
    }

    /// Counts a thread that is to sleep, and tells how often it rang. The thread looks once more before it sleeps: so it
    /// has seen its number served, or the bell rings for it.
    pub(crate) fn listen(&self) -> u32 {
        self.sleepers.fetch_add(1, Ordering::SeqCst);
        (self.rings.load(Ordering::SeqCst) & 0xffff_ffff) as u32
    }

    /// Counts it no longer.
    pub(crate) fn leave(&self) {
        self.sleepers.fetch_sub(1, Ordering::SeqCst);
    }

    /// Wakes those who sleep.
    fn ring(&self) {
        if self.sleepers.load(Ordering::SeqCst) > 0 {
            self.rings.fetch_add(1, Ordering::SeqCst);
            self.rings.wake_all();
        }
    }
}

/// The bells of a lock.
#[derive(Drop)]
pub struct Bells {
    bells: [Bell; BELLS],
}

impl Bells {
    pub(crate) fn new() -> Bells {
        Bells {
            bells: array::from_fn(|_| Bell::new()),
        }
    }

    /// The bell of a number.
    pub(crate) fn of(&self, number: u64) -> &Bell {
        &self.bells[number as usize % BELLS]
    }

    /// Wakes the thread that has a number, if it sleeps.
    pub(crate) fn ring(&self, number: u64) {
        self.of(number).ring();
    }
}
