//! Numbers that are drawn from a seed: each seed gives the same ones, on every machine and at every run.
#![tactic(auto)]

mod draws;

pub use draws::Draws;
