//! Replies that threads tell one another.
ghost use Rattle.std.specs.Prelude.{◌≡◌};
ghost use Rattle.image_depot.specs.Reply.{IsSentOf, sent_image, sent_page};
ghost use Rattle.fork_board.specs.Answers.{Hears};
ghost use Rattle.fork_board.specs.Follows.{depot_of};
ghost use Rattle.fork_board.specs.Notes.{heard_entry, told_entry};
ghost use Rattle.fork_board.specs.Passes.{Makes};

use crate::board::{Board, Pass};
use crate::note::TurnNote;
use crate::notes::{heard_note, told_note};
use image_depot::Sent;
use std::alloc::AllocError;
use std::sync::Wait;

impl Board {
    /// Tells a reply, which others may hear from now on. It goes behind those that were told before.
    pub fn tell<R: Wait>(&self, rt: &R, pass: Pass, sent: Sent) -> (Pass, Result<(), AllocError>)
        requires board { pass.board ≡ self.now }
        requires kept { IsSentOf (depot_of self.now.opening) sent }
        ensures { Makes pass result.0 (told_entry (sent_image sent) (sent_page sent) result.1) }
    {
        let image = sent.image();
        let page = sent.page();
        let mut visit = self.enter(rt, pass);
        let told = visit.turn.value.tell(sent);
        let note = told_note(image, page, &told);
        (self.leave(visit, &TurnNote::One(note)), told)
    }

    /// The reply at a place, from 0, among those that were told, or `None` behind the last. It is the same reply once
    /// more.
    pub fn hear<R: Wait>(
        &self,
        rt: &R,
        pass: Pass,
        place: usize,
    ) -> (Pass, Result<Option<Sent>, AllocError>)
        requires { pass.board ≡ self.now }
        ensures makes { Makes pass result.0 (heard_entry place result.1) }
        ensures hears { Hears result.0 place result.1 }
    {
        let visit = self.enter(rt, pass);
        // The call tells that a `usize` can count them.
        let _ = visit.turn.value.told();
        let heard = visit.turn.value.hear(place);
        let note = heard_note(place, &heard);
        (self.leave(visit, &TurnNote::One(note)), heard)
    }
}
