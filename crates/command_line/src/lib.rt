//! The words of the command line, and what they ask for.
#![tactic(auto)]

pub mod options;
mod words;

pub use words::{
    Command, GENERATED_AHEAD, GENERATED_CLONES, GeneratedWords, GuestWords, RunWords, command_asked,
};
