//! The sibling port: a guest's words to and from the other children of the ticket that made its machine.
#![tactic(auto)]

pub mod answers;
pub mod laws;
mod port;
pub mod registers;
mod talk;

pub use port::SiblingPort;
pub use talk::{Asked, Talk};
