//! What RISC-V instructions compute: the result for `rd`, whether a branch is taken, what an atomic
//! operation leaves in memory, and what loads and stores make of bytes. Words are `u32`, and each
//! function's contract is a definition in whole numbers.
//!
//! A function takes the kinds of its groups alone: a caller matches on `Kind::group` first.
#![tactic(auto)]

mod atomic;
mod branch;
mod compute;
pub mod laws;
mod memory;

pub use atomic::amo_value;
pub use branch::branch_taken;
pub use compute::alu;
pub use memory::{load_value, load_width, store_bytes, store_width};
