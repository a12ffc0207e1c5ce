//! The machines of a family that are ready, in the order in which they are taken.
#![tactic(auto)]

mod chain;
mod queue;
mod turn;

pub use queue::ReadyQueue;
pub use turn::ReadyTurn;
