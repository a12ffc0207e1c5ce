//! The notes of answers.
ghost use Rattle.std.specs.Prelude.{◌≡◌};
ghost use Rattle.talking_history.specs.Histories.{row};
ghost use Rattle.talking_history.specs.Rows.{How, spent};
ghost use Rattle.fork_board.specs.Notes.{entry_of, heard_entry, placed_entry, taken_entry, told_entry};

use crate::note::Note;
use image_depot::Sent;
use machine_names::Name;
use std::alloc::AllocError;
use std::snapshot::Snapshot;
use world_core::{Placed, Taken};

/// The note of what `take` answers.
pub(crate) fn taken_note(taken: &Taken) -> Note
    ensures { entry_of result ≡ taken_entry taken.now }
{
    match taken {
        Taken::Over => Note::Over,
        Taken::Stopped(reason) => Note::Stopped(*reason),
        Taken::Stuck => Note::Stuck,
        Taken::Idle => Note::Idle,
        Taken::Took(lease) => Note::Took(Snapshot::of(lease.name())),
        Taken::Memory => Note::WakeFailed,
    }
}

/// The note of what came of a lease, where it is `done` if the change was made.
pub(crate) fn placed_note(done: Note, name: Snapshot<Name>, ran: u64, placed: &Placed) -> Note
    ensures { (how : How) → entry_of done ≡ row (spent how name.value ran) → entry_of result ≡ placed_entry how name.value ran placed.now }
{
    match placed {
        Placed::Done => done,
        Placed::Parked => Note::Parked(name, ran),
        Placed::Dropped => Note::Dropped(name),
        Placed::Memory(_) => Note::Kept(name, ran),
    }
}

/// The note of what `tell` answers.
pub(crate) fn told_note(image: u32, page: u32, told: &Result<(), AllocError>) -> Note
    ensures { entry_of result ≡ told_entry image page told.now }
{
    match told {
        Ok(()) => Note::Told(image, page),
        Err(_) => Note::TellFailed,
    }
}

/// The note of what `hear` answers.
pub(crate) fn heard_note(place: usize, heard: &Result<Option<Sent>, AllocError>) -> Note
    ensures { entry_of result ≡ heard_entry place heard.now }
{
    match heard {
        Ok(_) => Note::Heard(place),
        Err(_) => Note::HearFailed(place),
    }
}
