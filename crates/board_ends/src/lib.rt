//! How work on a board ends: the definitions and laws that workers and who calls them have in common.
#![tactic(auto)]

mod finish;

pub use finish::Finish;
