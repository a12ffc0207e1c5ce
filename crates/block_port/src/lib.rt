//! The block port: a disk that is read and written a sector at a time, through a buffer.
#![tactic(auto)]

mod port;
pub mod registers;
mod status;

pub use port::{BlockFields, BlockPort};
pub use status::Status;
