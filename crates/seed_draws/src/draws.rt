ghost use Rattle.std.specs.Prelude.{◌≡◌, ◌<◌, ◌^◌};
ghost use Rattle.seed_draws.specs.Draws.{next, drawn};

use std::marker::Model;

/// A linear congruential generator of numbers. Contracts see it as its state.
#[derive(Drop)]
pub struct Draws {
    state: u32,
}

impl Model for Draws {
    ghost use Rattle.std.specs.Prelude.{ℕ};

    ghost Value = { ℕ };

    ghost view = { λ d. d.state };
}

impl Draws {
    const FACTOR: u32 = 1_664_525;

    const INCREMENT: u32 = 1_013_904_223;

    /// The generator that starts with a seed.
    pub fn new(seed: u32) -> Draws
        ensures { result ≡ seed }
    {
        Draws { state: seed }
    }

    /// The next number, below 2^16: the upper half of the state, whose low bits repeat soon.
    #[tactic(auto, unfolding(crate::specs::Draws::next, crate::specs::Draws::drawn))]
    pub fn draw(&mut self) -> u32
        ensures value { result ≡ drawn self.old }
        ensures state { self.new ≡ next self.old }
        ensures below { result < 2 ^ 16 }
    {
        self.state = self
            .state
            .wrapping_mul(Draws::FACTOR)
            .wrapping_add(Draws::INCREMENT);
        self.state >> 16
    }
}
