//! How far a worker is.

use board_ends::Finish;
use fork_board::Pass;
use page_claims::ClaimPass;
use std::default::Default;

/// How far a worker is.
#[derive(Drop)]
pub(crate) enum State {
    /// It is to work, under this number, with a pass to enter turns by and one to claim pages by.
    Due(u32, Pass, ClaimPass),
    /// It works.
    Begun,
    /// It has worked, with these passes, to this end.
    Done(Pass, ClaimPass, Finish),
}

impl Default for State {
    fn default() -> State {
        State::Begun
    }
}
