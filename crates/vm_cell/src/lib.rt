//! One machine: a hart with a limit and an ending, which runs, forks, joins and kills.
#![tactic(auto)]

pub mod laws;
mod receiver;
mod slots;
mod vm;

pub use guest_mem::Arrived;
pub use slots::Slots;
pub use vm::{ForkImage, Ran, Stepped, Vm};
