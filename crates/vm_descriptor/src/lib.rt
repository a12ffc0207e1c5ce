//! The descriptor of a clone: what a machine that was forked starts with, beside what its image holds.
#![tactic(auto)]

mod bits;
mod bytes;
mod clone_table;
mod descriptor;
mod error;
mod fits;
pub mod laws;
mod made_runs;
mod map;
mod page_map;
mod read;
mod refusal;
mod runs;
mod seed;
mod version;

pub use clone_table::CloneTable;
pub use descriptor::{Descriptor, MAX_CLONES, MAX_LIMIT, MAX_SHARE};
pub use error::DescError;
pub use page_map::{MapForm, PageMap};
pub use seed::Seed;
