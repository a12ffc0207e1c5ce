//! How a thread passes the time until its number is served. No contract speaks of it.

use crate::bells::Bell;
use crossbeam_utils::Backoff;

/// How often the thread whose turn is the next one spins while the turn before does not pass. That is 191 pauses of the
/// processor, 1 to 12 microseconds, and most turns are shorter. Who watches for longer may do so on the very processor that
/// the one before it waits for.
const LONGEST_WATCH: u32 = 8;

/// The patience of a thread that waits for its turn.
#[derive(Drop)]
pub(crate) struct Patience {
    backoff: Backoff,
    /// The number that was served when it looked last.
    served: u64,
    /// How often it spun since then.
    spins: u32,
    /// Since it is to sleep: how often its bell had rung before it looked last.
    rings: Option<u32>,
}

impl Patience {
    pub(crate) fn new() -> Patience {
        Patience {
            backoff: Backoff::new(),
            served: u64::MAX,
            spins: 0,
            rings: None,
        }
    }

    /// Passes some time where another number is served, or answers that the thread is to sleep until its bell has rung
    /// more often. The thread whose turn is the next one watches for some time, all others sleep at once.
    pub(crate) fn pass(&mut self, bell: &Bell, number: u64, served: u64) -> Option<u32> {
        if served != self.served {
            self.end(bell);
            self.served = served;
            self.spins = 0;
            self.backoff.reset();
        }
        if number.wrapping_sub(served) == 1 && self.spins < LONGEST_WATCH {
            self.spins += 1;
            self.backoff.spin();
            return None;
        }
        if self.rings.is_none() {
            self.rings = Some(bell.listen());
            return None;
        }
        self.rings
    }

    /// It sleeps no longer.
    pub(crate) fn end(&mut self, bell: &Bell) {
        if self.rings.take().is_some() {
            bell.leave();
        }
    }
}
