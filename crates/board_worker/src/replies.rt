//! Replies that machines asked for are told to all workers, and these hear them.

ghost use Rattle.std.specs.Prelude.{◌≡◌, [], None, OnOk, slice_get};
ghost use Rattle.std.specs.List.{All};
ghost use Rattle.image_depot.specs.Reply.{IsSentOf};
ghost use Rattle.host_fetch.specs.Heard.{AreHeardOf};
ghost use Rattle.fork_board.specs.Follows.{depot_of};
ghost use Rattle.fork_board.specs.Passes.{seen_record};
ghost use Rattle.board_worker.specs.Hears.{AreFound, StayFound};
ghost use Rattle.board_worker.specs.Stays.{Stays};

use fork_board::{Board, Pass};
use host_fetch::Heard;
use image_depot::Sent;
use std::alloc::{AllocError, Global};
use std::sync::Wait;

/// The replies that a worker has heard, and the place among all that were told of the one that it hears next.
#[derive(Drop)]
pub(crate) struct Hearing {
    pub(crate) heard: Heard,
    next: usize,
}

impl Hearing {
    /// Nothing was heard.
    pub(crate) fn new(alloc: Global) -> Hearing
        ensures heard { result.heard ≡ [] }
        ensures next { result.next ≡ 0 }
    {
        Hearing {
            heard: Heard::new(alloc),
            next: 0,
        }
    }

    /// Hears what was told since it heard last, each reply once.
    pub(crate) fn listen<R: Wait>(
        &mut self,
        rt: &R,
        board: &Board,
        pass: Pass,
    ) -> (Pass, Result<(), AllocError>)
        requires { pass.board ≡ board.now }
        ensures stays { Stays pass result.0 }
        ensures last { OnOk result.1 (slice_get (seen_record result.0).told self.new.next ≡ None) }
        ensures all { AreFound (seen_record result.0).told self.old.next self.new.next self.new.heard }
        ensures found { StayFound self.old.heard self.new.heard }
        ensures heard { AreHeardOf (depot_of board.now.opening) self.old.heard → AreHeardOf (depot_of board.now.opening) self.new.heard }
    {
        let mut pass = pass;
        for _ in rt.forever() {
            let (after, answer) = board.hear(rt, pass, self.next);
            pass = after;
            match answer {
                Ok(Some(sent)) => {
                    let Ok(()) = self.heard.hear(sent) else {
                        return (pass, Err(AllocError));
                    };
                    self.next += 1;
                }
                Ok(None) => return (pass, Ok(())),
                Err(error) => return (pass, Err(error)),
            }
        }
        unreachable!()
    }
}

/// Tells what was asked for.
pub(crate) fn tell_all<R: Wait>(
    rt: &R,
    board: &Board,
    pass: Pass,
    pushed: &[Sent],
) -> (Pass, Result<(), AllocError>)
    requires board { pass.board ≡ board.now }
    requires kept { All (IsSentOf (depot_of board.now.opening)) pushed.now }
    ensures stays { Stays pass result.0 }
{
    let mut pass = pass;
    for sent in pushed {
        let Ok(again) = sent.again() else {
            return (pass, Err(AllocError));
        };
        let (after, told) = board.tell(rt, pass, again);
        pass = after;
        if told.is_err() {
            return (pass, Err(AllocError));
        }
    }
    (pass, Ok(()))
}
