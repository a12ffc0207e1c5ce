//! Physical memory protection: which accesses the entries of a machine allow, and the control and status registers
//! that hold them.
#![tactic(auto)]

mod access;
pub mod laws;
mod pmp;
mod region;
mod registers;
mod span;

pub use access::{Access, Mode};
pub use pmp::Pmp;
pub use registers::{ENTRIES, PMPADDR0, PMPADDR15, PMPCFG0, PMPCFG3, PmpRegisters};
pub use span::Span;
