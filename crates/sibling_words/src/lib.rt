//! What waits between the children of a ticket: the words that they sent each other, and which of them wait for which.
#![tactic(auto)]

mod notes;
mod words;

pub use notes::SiblingNotes;
pub use words::{MAX_WORDS, SiblingWords};
