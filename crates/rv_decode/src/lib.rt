//! RISC-V instruction words: the table of the instructions that the machine has, and its decoder.
#![tactic(auto)]

mod decoder;
mod fields;
mod instruction;
mod kinds;
pub mod laws;
mod opcodes;

pub use decoder::decode;
pub use instruction::Instr;
pub use kinds::{Format, Group, Kind};
