ghost use Rattle.std.specs.Prelude.{◌≡◌, ◌<◌, ◌≤◌, drop, slice_get, MatchOption, Some, None};
ghost use Rattle.wire_fates.specs.Wires.{scripted, after_scripted};

use crate::fate::{Fate, LONGEST_STREAK};
use crate::wire::Wire;
use std::marker::Model;

/// A wire that tells the fates of a list in turn, and then gives each reply in its order. A place in the list that
/// is beyond the replies that wait counts round and round.
#[derive(Drop)]
pub struct Scripted {
    fates: Vec<Fate>,
    told: usize,
    streak: u32,
}

impl Model for Scripted {
    ghost use Rattle.std.specs.Prelude.{◌≤◌, drop, vec_len};
    ghost use Rattle.wire_fates.specs.declared.fate.TheConstants.{LONGEST_STREAK};
    ghost use Rattle.wire_fates.specs.Wires.{Script};

    ghost Value = { Script };

    ghost view = { λ w. record { fates = drop w.told w.fates.items; streak = w.streak } };

    ghost invariant = { λ w. (w.told ≤ vec_len w.fates) × (w.streak ≤ LONGEST_STREAK) };
}

impl Scripted {
    /// The wire of a list of fates.
    pub fn new(fates: Vec<Fate>) -> Scripted
        ensures { result ≡ record { fates = fates.items; streak = 0 } }
    {
        Scripted {
            fates,
            told: 0,
            streak: 0,
        }
    }

    /// The next fate of the list, if there is one. It is told then.
    fn next_listed(&mut self) -> Option<Fate>
        ensures { MatchOption result ((slice_get self.old.fates 0 ≡ None) × (self.new ≡ self.old))
            (λ fate. (slice_get self.old.fates 0 ≡ Some fate) × (self.new ≡ record { fates = drop 1 self.old.fates; streak = self.old.streak })) }
    {
        let fate = *self.fates.get(self.told)?;
        self.told += 1;
        Some(fate)
    }
}

impl Wire for Scripted {
    ghost use Rattle.std.specs.Prelude.{None};

    ghost streak = { λ w. w.streak };

    ghost seeds = { λ w. None };

    ghost tells = { λ old waiting fate new. (fate ≡ scripted old waiting) × (new ≡ after_scripted old waiting) };

    /// The list goes on where it stands.
    fn seed(&mut self, _seed: u32)
        ensures { self.new ≡ record self.old { streak = 0 } }
    {
        self.streak = 0;
    }

    fn next(&mut self, waiting: usize) -> Fate
        requires { 0 < waiting }
        ensures value { result ≡ scripted self.old waiting }
        ensures after { self.new ≡ after_scripted self.old waiting }
    {
        let fate = match self.next_listed() {
            Some(fate) => fate.wrapped(waiting),
            None => Fate::Give(0),
        };
        self.streak = fate.streak_after(self.streak);
        fate
    }

    fn streak(&self) -> u32
        ensures value { result ≡ self.now.streak }
        ensures most { result ≤ LONGEST_STREAK }
    {
        self.streak
    }
}
