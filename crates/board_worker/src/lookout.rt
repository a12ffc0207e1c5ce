//! Which workers look for machines that are ready, and how the others sleep. No contract speaks of it.

use crossbeam_utils::Backoff;
use std::sync::Wait;
use std::sync::atomic::{AtomicBool, AtomicU64, Ordering};
use std::time::Duration;

/// The first sleep after which a worker looks whether another was held, in microseconds, and the longest. Each is twice as
/// long as the last.
const FIRST_SLEEP: u64 = 1000;

const LONGEST_SLEEP: u64 = 256_000;

/// What the workers of a board know of one another.
///
/// A worker is on duty while it takes machines and runs them for a short time. Who runs one for long goes off duty, and
/// calls one that sleeps, if nobody is on duty then and some machine may be ready. So machines that make a call after a few
/// steps go from turn to turn in one worker, and those that run for long are spread over all.
#[derive(Drop)]
pub struct Lookout {
    workers: u64,
    processors: u64,
    /// How many have begun. Who has not counts for nothing.
    begun: AtomicU64,
    /// How many are on duty.
    on_duty: AtomicU64,
    /// How many sleep and were not called.
    asleep: AtomicU64,
    /// How many were called and have not come. Who sleeps parks on it.
    called: AtomicU64,
    /// How often a machine was handed back: others may be ready since then.
    returns: AtomicU64,
    /// How often one had been before the last look that found none ready.
    idle_at: AtomicU64,
    /// How many replies were told.
    told: AtomicU64,
    /// There is nothing more to be done.
    over: AtomicBool,
}

impl Lookout {
    /// Of so many workers, none of which has begun.
    pub fn new(workers: usize, processors: usize) -> Lookout {
        Lookout {
            workers: workers as u64,
            processors: processors as u64,
            begun: AtomicU64::new(0),
            on_duty: AtomicU64::new(0),
            asleep: AtomicU64::new(0),
            called: AtomicU64::new(0),
            returns: AtomicU64::new(0),
            idle_at: AtomicU64::new(u64::MAX),
            told: AtomicU64::new(0),
            over: AtomicBool::new(false),
        }
    }

    /// Lets a worker begin, before it works: at once where nobody is on duty and some machine may be ready, as the first one
    /// finds it, and else when it is called. One that gets no thread begins when there is nothing more to be done.
    pub fn begin<R: Wait>(&self, rt: &R) {
        self.begun.fetch_add(1, Ordering::SeqCst);
        let has_processor = self.awake() <= self.processors;
        if !(has_processor && self.is_wanted() && changes(&self.on_duty, 0, 1)) {
            self.sleep(rt);
        }
    }

    /// Returns whether there is nothing more to be done.
    pub fn is_over(&self) -> bool {
        self.over.load(Ordering::SeqCst)
    }

    /// There is nothing more to be done, and all workers are to find that.
    pub(crate) fn end(&self) {
        if !self.over.swap(true, Ordering::SeqCst) {
            self.called.fetch_add(self.workers, Ordering::SeqCst);
            self.called.wake_all();
        }
    }

    /// How many replies were told.
    pub(crate) fn told(&self) -> u64 {
        self.told.load(Ordering::SeqCst)
    }

    /// So many replies were told.
    pub(crate) fn tell(&self, replies: usize) {
        self.told.fetch_add(replies as u64, Ordering::SeqCst);
    }

    /// How often a machine was handed back. Who asks before it looks for a machine misses none later.
    pub(crate) fn returns(&self) -> u64 {
        self.returns.load(Ordering::SeqCst)
    }

    /// A worker runs its machine for long.
    pub(crate) fn leave(&self) {
        self.on_duty.fetch_sub(1, Ordering::SeqCst);
    }

    /// Whether nobody but the worker that asks is on duty.
    pub(crate) fn is_alone(&self) -> bool {
        self.on_duty.load(Ordering::SeqCst) <= 1
    }

    /// A worker handed its machine back, and stays on duty.
    pub(crate) fn swap(&self, was_long: bool) {
        self.returns.fetch_add(1, Ordering::SeqCst);
        if was_long {
            self.on_duty.fetch_add(1, Ordering::SeqCst);
        }
    }

    /// A worker handed its machine back. It stays on duty after a long run, and after a short one if nobody else is.
    pub(crate) fn come_back<R: Wait>(&self, rt: &R, was_long: bool) {
        self.swap(was_long);
        if was_long {
            return;
        }
        let on_duty = self.on_duty.load(Ordering::SeqCst);
        if on_duty > 1 && changes(&self.on_duty, on_duty, on_duty - 1) {
            self.sleep(rt);
        }
    }

    /// A worker found no machine ready after so many returns. It backs off for some microseconds, in which one may come
    /// back, and then sleeps.
    pub(crate) fn find_none<R: Wait>(&self, rt: &R, returns: u64) {
        let backoff = Backoff::new();
        for _ in rt.forever() {
            if self.returns() != returns || self.is_over() {
                return;
            }
            if backoff.is_completed() {
                break;
            }
            backoff.snooze();
        }
        self.idle_at.store(returns, Ordering::SeqCst);
        self.leave();
        // A machine may have come back meanwhile, whose worker saw this one on duty, and sleeps.
        if self.returns() == returns || !changes(&self.on_duty, 0, 1) {
            self.sleep(rt);
        }
    }

    /// Calls a worker that sleeps, where nobody is on duty and some machine may be ready. Only where a worker has run its
    /// machine for very long may more be awake than there are processors.
    pub(crate) fn call(&self, is_very_long: bool) {
        if !self.is_wanted() || self.asleep.load(Ordering::SeqCst) == 0 {
            return;
        }
        let has_processor = self.awake() < self.processors;
        if !(has_processor || is_very_long) || !changes(&self.on_duty, 0, 1) {
            return;
        }
        if takes_one(&self.asleep) {
            self.called.fetch_add(1, Ordering::SeqCst);
            self.called.wake_one();
        } else {
            self.leave();
        }
    }

    /// How many have begun and do not sleep.
    fn awake(&self) -> u64 {
        let asleep = self.asleep.load(Ordering::SeqCst);
        self.begun.load(Ordering::SeqCst).saturating_sub(asleep)
    }

    /// Whether nobody is on duty, and some machine may be ready.
    fn is_wanted(&self) -> bool {
        self.on_duty.load(Ordering::SeqCst) == 0 && self.may_be_ready()
    }

    /// Whether a machine was handed back since one looked last and found none ready.
    fn may_be_ready(&self) -> bool {
        self.returns() != self.idle_at.load(Ordering::SeqCst)
    }

    /// Sleeps until the worker is called, or there is nothing more to be done. It is on duty then.
    pub(crate) fn sleep<R: Wait>(&self, rt: &R) {
        self.asleep.fetch_add(1, Ordering::SeqCst);
        let mut sleep = FIRST_SLEEP;
        for _ in rt.forever() {
            let returns = self.returns();
            if self.is_over() || takes_one(&self.called) {
                return;
            }
            self.called
                .park_timeout(rt, 0, Duration::from_micros(sleep));
            if self.called.load(Ordering::SeqCst) == 0 && self.comes_uncalled(returns) {
                return;
            }
            sleep = sleep.saturating_mul(2).min(LONGEST_SLEEP);
        }
        unreachable!()
    }

    /// A worker that slept goes on duty, where no machine was handed back meanwhile, and some may be ready: whoever is on
    /// duty is held, by its gate, its wire or another program.
    fn comes_uncalled(&self, returns: u64) -> bool {
        if !self.may_be_ready() || !changes(&self.returns, returns, returns.wrapping_add(1)) {
            return false;
        }
        if !takes_one(&self.asleep) {
            return false;
        }
        self.on_duty.fetch_add(1, Ordering::SeqCst);
        true
    }
}

/// Changes a count, if it is still the first of the two.
fn changes(count: &AtomicU64, from: u64, to: u64) -> bool {
    count
        .compare_exchange(from, to, Ordering::SeqCst, Ordering::SeqCst)
        .is_ok()
}

/// Takes one from a count that is not 0, and of which nobody else takes one meanwhile.
fn takes_one(count: &AtomicU64) -> bool {
    let now = count.load(Ordering::SeqCst);
    now > 0 && changes(count, now, now - 1)
}
