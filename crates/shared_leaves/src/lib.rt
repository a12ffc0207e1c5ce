//! Lists that share what they hold. A list is cut into leaves of 64 entries, which other lists share
//! until they write them. Contracts see one flat list.
#![tactic(auto)]

mod choice;
mod handle;
pub mod laws;
mod leaf;
mod list;
mod make;
mod runs;
mod steps;

pub use handle::Handle;
pub use leaf::LEAF_ENTRIES;
pub use list::SharedList;
pub use steps::Steps;
