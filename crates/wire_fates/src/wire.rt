ghost use Rattle.std.specs.Prelude.{◌≡◌, ℕ, ◌<◌, ◌≤◌, List, Option};
ghost use Rattle.wire_fates.specs.declared.fate.Fate.{Fate};
ghost use Rattle.wire_fates.specs.Fates.{IsAmong, seeded_with, streak_after};

use crate::fate::{Fate, LONGEST_STREAK};

/// The most wires over which a family is run. Each has a worker of its own, so these are the most workers, too.
pub const MAX_WIRES: usize = 64;

/// What tells the fates of replies.
pub trait Wire {
    /// How many fates it has told since it last gave a reply, 64 at most.
    ghost streak: { Self → ℕ };

    /// Of so many replies that wait, it may tell this fate, and this is what it is then.
    ghost tells: { Self → ℕ → Fate → Self → Type 0 };

    /// The seeds that it was given, in their order, where it tells them.
    ghost seeds: { Self → Option (List ℕ) };

    /// Starts anew, with what this number stands for.
    fn seed(&mut self, seed: u32)
        ensures starts { streak self.new ≡ 0 }
        ensures given { seeds self.new ≡ seeded_with (seeds self.old) seed };

    /// The next fate, of one of the replies that wait.
    fn next(&mut self, waiting: usize) -> Fate
        requires { 0 < waiting }
        ensures tells { tells self.old waiting result self.new }
        ensures among { IsAmong waiting result }
        ensures streak { streak self.new ≡ streak_after result (streak self.old) }
        ensures keeps { seeds self.new ≡ seeds self.old };

    /// How many fates it has told since it last gave a reply, 64 at most.
    fn streak(&self) -> u32
        ensures value { result ≡ streak self.now }
        ensures most { result ≤ LONGEST_STREAK };
}
