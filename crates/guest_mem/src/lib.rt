//! The RAM of a guest, in pages that it shares with other guests until it writes them. A page that has
//! not come yet is absent, and reads as in the image that the guest was cloned from.
#![tactic(auto)]

mod answers;
mod image;
pub mod laws;
mod memory;
mod table;

pub use answers::{Absent, StoreError};
pub use image_depot::Arrived;
pub use memory::GuestMem;
