//! The fork port: a guest's calls to the machine that runs it. It keeps the tickets by which a machine
//! makes its children, and how the children of the last join ended, with the bytes that each handed over.
#![tactic(auto)]

mod commands;
mod ending;
mod handed;
pub mod laws;
mod port;
pub mod refusals;
pub mod registers;
mod tickets;

pub use commands::{Asked, Call, Effect, Stored};
pub use ending::Ending;
pub use handed::{Handed, MAX_HANDED};
pub use port::{ForkFields, ForkPort};
pub use tickets::Ticket;
