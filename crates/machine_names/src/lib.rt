//! The names of machines, which are keys of maps.
#![tactic(auto)]

mod forks;
pub mod laws;
mod name;

pub use name::{Branch, Name};
