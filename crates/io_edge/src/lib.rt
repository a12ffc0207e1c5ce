//! The outside of the program: files by name, and where bytes go, real or in memory.
#![tactic(auto)]

mod buffer;
mod memory;
mod outside;
mod real;

pub use buffer::{BUFFER_SIZE, SinkBuffer};
pub use memory::{MemShelf, MemSink};
pub use outside::{LAST_COUNT, Shelf, ShelfError, Sink, WriteFault, put_all};
pub use real::{FileShelf, StdSink};
