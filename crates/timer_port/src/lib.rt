//! The timer port: a time that counts steps, and the time from which it asks for an interrupt.
#![tactic(auto)]

mod port;
mod registers;

pub use port::TimerPort;
pub use registers::{MTIME_HIGH, MTIME_LOW, MTIMECMP_HIGH, MTIMECMP_LOW, TimerRegisters};
