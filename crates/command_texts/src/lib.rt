//! What the commands of `snow` write, by definition, and the parts of them that need no workers: a guest is booted, it is
//! driven by a script, and what came of its family is told.
#![tactic(auto)]

mod drive;
mod generated;
mod guest;
mod outcome;
mod status;

pub use drive::drive_and_write;
pub use generated::{SECTORS, generated_files};
pub use guest::boot;
pub use outcome::outcome_of;
pub use status::Status;
