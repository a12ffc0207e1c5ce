//! The fates of replies on their way to a machine: each is given, given and kept, or lost. A wire tells the next
//! fate of the replies that wait, and has no bytes of them in hand.
#![tactic(auto)]

mod fate;
mod scripted;
mod seeded;
mod wire;

pub use fate::{Fate, LONGEST_STREAK};
pub use scripted::Scripted;
pub use seeded::{MAX_SEEDED_STREAK, Seeded};
pub use wire::{MAX_WIRES, Wire};
