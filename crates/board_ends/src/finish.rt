//! How work on a board ends.

ghost use Rattle.std.specs.Prelude.{◌≡◌};
ghost use Rattle.board_ends.specs.Finishes.{stopped_for};

use world_core::Reason;

/// How work on a board ends.
#[derive(Clone, Copy)]
pub enum Finish {
    /// The root has ended.
    Over,
    /// The world was stopped, first for this reason.
    Stopped(Reason),
    /// Each machine that lives waits for another, and the root lives: none makes a step any more.
    Stuck,
}

impl Finish {
    /// The reason for which the world was stopped first, or `None` where its family has come to its end.
    pub fn reason(self) -> Option<Reason>
        ensures { result ≡ stopped_for self }
    {
        match self {
            Finish::Stopped(reason) => Some(reason),
            Finish::Over | Finish::Stuck => None,
        }
    }
}
