//! A worker: it takes machines out of the world of a board, runs them, and hands them back. Each has a wire of its own.
#![tactic(auto)]

mod claimant;
mod gate;
mod lookout;
mod pace;
mod replies;
mod shared;
mod stretch;
mod worker;

pub use gate::{Gate, OpenGate, Point};
pub use lookout::Lookout;
pub use shared::{Settings, Shared, Site};
pub use worker::work;
