//! Generated guests. Each is a program of many small blocks with numbers that are drawn from a seed. They
//! write, read and zero pages, use the disk and put out letters. Between them it forks, on two levels, and
//! there it kills the children of one ticket and joins those of another.
#![tactic(auto)]

mod assembly;
mod blocks;
mod guest;
pub mod laws;
mod levels;

pub use guest::guest_of;
