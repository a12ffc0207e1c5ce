ghost use Rattle.std.specs.Prelude.{◌≡◌, ◌≤◌, ◌<◌};
ghost use Rattle.wire_fates.specs.Fates.{IsAmong};
ghost use Rattle.wire_fates.specs.Wires.{seeded, after_seeded, fate_drawn};

use crate::fate::Fate;
use crate::wire::Wire;
use seed_draws::Draws;
use std::marker::Model;

/// The longest streak of a wire whose fates are drawn: behind so many that gave nothing a reply is given.
pub const MAX_SEEDED_STREAK: u32 = 3;

/// A wire whose fates are drawn from a seed. Seed 0 gives each reply in its order.
#[derive(Drop)]
pub struct Seeded {
    seed: u32,
    draws: Draws,
    streak: u32,
}

impl Model for Seeded {
    ghost use Rattle.std.specs.Prelude.{◌≤◌};
    ghost use Rattle.wire_fates.specs.declared.seeded.TheConstants.{MAX_SEEDED_STREAK};
    ghost use Rattle.wire_fates.specs.Wires.{Drawing};

    ghost Value = { Drawing };

    ghost view = { λ w. record { seed = w.seed; state = w.draws; streak = w.streak } };

    ghost invariant = { λ w. w.streak ≤ MAX_SEEDED_STREAK };
}

impl Seeded {
    /// The wire of seed 0.
    pub fn new() -> Seeded
        ensures { result ≡ record { seed = 0; state = 0; streak = 0 } }
    {
        Seeded {
            seed: 0,
            draws: Draws::new(0),
            streak: 0,
        }
    }
}

impl Wire for Seeded {
    ghost use Rattle.std.specs.Prelude.{None};

    ghost streak = { λ w. w.streak };

    ghost seeds = { λ w. None };

    ghost tells = { λ old waiting fate new. (fate ≡ seeded old waiting) × (new ≡ after_seeded old waiting) };

    /// The wire of this seed.
    fn seed(&mut self, seed: u32)
        ensures { self.new ≡ record { seed = seed; state = seed; streak = 0 } }
    {
        self.seed = seed;
        self.draws = Draws::new(seed);
        self.streak = 0;
    }

    fn next(&mut self, waiting: usize) -> Fate
        requires { 0 < waiting }
        ensures value { result ≡ seeded self.old waiting }
        ensures after { self.new ≡ after_seeded self.old waiting }
    {
        let fate = if self.seed == 0 {
            Fate::Give(0)
        } else {
            fate_drawn(self.draws.draw(), self.streak, waiting)
        };
        self.streak = fate.streak_after(self.streak);
        fate
    }

    /// It is 3 at most.
    fn streak(&self) -> u32
        ensures value { result ≡ self.now.streak }
        ensures most { result ≤ MAX_SEEDED_STREAK }
    {
        self.streak
    }
}

/// The fate by a number that was drawn.
fn fate_drawn(number: u32, streak: u32, waiting: usize) -> Fate
    requires short { streak ≤ MAX_SEEDED_STREAK }
    requires some { 0 < waiting }
    ensures value { result ≡ fate_drawn number streak waiting }
    ensures among { IsAmong waiting result }
{
    let place = (number / 4) as usize % waiting;
    match number % 4 {
        0 if streak < MAX_SEEDED_STREAK => Fate::Lose(place),
        1 if streak < MAX_SEEDED_STREAK => Fate::Again(place),
        _ => Fate::Give(place),
    }
}
