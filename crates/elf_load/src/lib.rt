//! Executable images: ELF files for RV32, and the memory that loading one gives.
#![tactic(auto)]

mod error;
mod header;
mod image;
mod loader;
mod memory;
mod segment;

pub use error::ImageError;
pub use image::{Loaded, MAX_PAGES, MIN_PAGES, RAM_BASE};
pub use loader::{load_elf, one_segment};
