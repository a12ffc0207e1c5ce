//! A family of machines under a turn lock: threads take machines out of one world and bring them back, each in its turn, and
//! all that they did is one legal history.
#![tactic(auto)]

mod board;
mod calls;
mod deed;
mod kept;
mod note;
mod notes;
mod replies;
mod swaps;

pub use board::{Board, Pass};
pub use note::{Note, Opening, TurnNote};
pub use swaps::{Back, Swapped};
