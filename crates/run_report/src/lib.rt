//! The report of a family that has come to its end.
#![tactic(auto)]

pub mod laws;
mod line;
mod machine_end;
mod report;
mod summary;

pub use line::Line;
pub use machine_end::OutcomeRoom;
pub use report::{Outcome, ReportError, report_into};
pub use summary::summary_into;
