//! A world of machines: a family of machines that fork, of which some are handed out on lease to be run,
//! and come back.
#![tactic(auto)]

mod cell;
mod kept_image;
mod lease;
mod prepared_fork;
mod reason;
mod receiver;
mod world;

pub use lease::Lease;
pub use prepared_fork::PreparedFork;
pub use reason::Reason;
pub use world::{Placed, Taken, Talked, World};
