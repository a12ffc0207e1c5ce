//! Workers that run one family on one board: each has a wire, and a thread of its own where there can be one.
#![tactic(auto)]

mod hosts;
mod state;

pub use board_ends::Finish;
pub use board_worker::{Gate, OpenGate, Point, Settings, Site};
pub use hosts::{MAX_WORKERS, run_hosts};
