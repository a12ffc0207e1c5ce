//! The commands of `snow`: what it does with its words, its files and where its text goes.
#![tactic(auto)]

mod family;
mod generated;
mod program;
mod run;

pub use command_texts::Status;
pub use program::snow;
