//! How long a worker runs a machine before it looks up.

/// The steps after which a run is long: some microseconds, in which a worker that sleeps would hardly come.
const LONG: u64 = 1000;

/// The steps after which it is very long. That is also the longest stretch.
const VERY_LONG: u64 = 256_000;

/// For so many steps a talk counts after which its machine goes on.
const TALK: u64 = 10;

/// The most slices that are run at once.
const MAX_SLICES: u64 = 256;

/// How many times as long as the last a stretch is. Each begins with an empty cache of decoded instructions, so few that
/// grow fast are better than many.
const GROWTH: u64 = 4;

/// The steps of a worker's next stretch: a slice at first, and `GROWTH` times as many after each that its machine made whole.
#[derive(Drop)]
pub(crate) struct Pace {
    slice: u64,
    steps: u64,
    /// The steps of the stretches that the machine made whole.
    made: u64,
}

impl Pace {
    pub(crate) fn new(slice: u64) -> Pace {
        Pace {
            slice,
            steps: slice,
            made: 0,
        }
    }

    /// No stretch goes past the steps after which the run is long.
    pub(crate) fn steps(&self) -> u64 {
        if self.is_long() {
            self.steps.min(VERY_LONG)
        } else {
            self.steps.min(LONG.saturating_sub(self.made))
        }
    }

    pub(crate) fn is_long(&self) -> bool {
        self.made >= LONG
    }

    pub(crate) fn is_very_long(&self) -> bool {
        self.made >= VERY_LONG
    }

    pub(crate) fn lengthen(&mut self) {
        self.made = self.made.saturating_add(self.steps());
        let most = self.slice.saturating_mul(MAX_SLICES);
        self.steps = self.steps.saturating_mul(GROWTH).min(most);
    }

    /// The machine goes on after a talk. Who talks on and on runs for long.
    pub(crate) fn count_talk(&mut self) {
        self.made = self.made.saturating_add(TALK);
    }

    pub(crate) fn begin_anew(&mut self) {
        self.steps = self.slice;
        self.made = 0;
    }
}
