//! The control and status registers of a machine and its privilege mode: what a read gives and what a write keeps,
//! traps and the return from them, which accesses are allowed, and the counters.
#![tactic(auto)]

mod counter;
mod csrs;
pub mod laws;
mod number;
mod registers;

pub use counter::Wrote;
pub use csrs::{Csrs, TIMER_INTERRUPT};
pub use registers::{CsrRegisters, is_mstatus};
