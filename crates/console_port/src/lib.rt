//! The console port: bytes that come in, and bytes that go out.
#![tactic(auto)]

mod input;
mod port;
pub mod registers;

pub use input::Input;
pub use port::{ConsoleFields, ConsolePort, MAX_INPUT};
