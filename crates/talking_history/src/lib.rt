//! Worlds of machines that talk to their siblings, handed out and brought back: what each call on them does to the forest.
#![tactic(auto)]

pub mod laws;
pub mod toy;
