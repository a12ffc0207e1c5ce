//! An assembler for the machine's instructions: their words, programs with labels, and executable
//! images of programs.
#![tactic(auto)]

mod encoder;
mod error;
mod image;
pub mod laws;
mod line;
mod program;

pub use encoder::encode;
pub use error::AsmError;
pub use image::{MAX_WORDS, elf_of};
pub use line::takes_label;
pub use program::Program;
