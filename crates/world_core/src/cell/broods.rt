//! Broods, once their children are done with.

ghost use Rattle.std.specs.Prelude.{◌≡◌, ◌+◌, ◌≤◌, ◌<◌, ◌^◌, ◌++◌, IfOk, length, min, vec_capacity, vec_len};
ghost use Rattle.run_report.specs.Lines.{ticket_line};
ghost use Rattle.world_core.specs.Broods.{slot_endings, slot_lines};

use crate::cell::{Brood, ChildSlot};
use forest_model::Ending;
use run_report::Line;
use std::alloc::{AllocError, Global};

impl Brood {
    /// How the children ended that have, in order.
    pub(super) fn endings(&self, alloc: Global) -> Result<Vec<Ending>, AllocError>
        ensures { IfOk result (λ endings. endings.items ≡ slot_endings self.now.slots.items) }
    {
        let mut endings = Vec::with_capacity(alloc, self.slots.len())?;
        for slot in &self.slots {
            if let ChildSlot::Ended(outcome) = slot {
                if let Some(ending) = outcome.ending() {
                    endings.push(ending)?;
                }
            }
        }
        Ok(endings)
    }

    /// The line of the ticket, where it is killed.
    pub(super) fn into_line(self, ticket: u32) -> Line
        requires { vec_len self.slots < 2 ^ 32 }
        ensures { result ≡ ticket_line self.name ticket (vec_len self.slots) }
    {
        let children = self.slots.len() as u32;
        Line::ticket(self.name, ticket, children)
    }
}

/// How many lines a log gets of the children that have ended, or `usize::MAX` where they are more: no log
/// has room for so many.
pub(crate) fn line_count(slots: &Vec<ChildSlot>) -> usize
    ensures { result ≡ min (length (slot_lines slots.now.items)) usize.MAX }
{
    let mut count = 0usize;
    for slot in slots {
        if let ChildSlot::Ended(outcome) = slot {
            count = count.saturating_add(outcome.line_count());
        }
    }
    count
}

/// Moves the lines of the children that have ended to a log, which has room for them.
pub(crate) fn put_lines(slots: Vec<ChildSlot>, log: &mut Vec<Line>)
    requires { vec_len log.old + length (slot_lines slots.items) ≤ vec_capacity log.old }
    ensures lines { log.new.items ≡ log.old.items ++ slot_lines slots.items }
    ensures len { vec_len log.new ≡ vec_len log.old + length (slot_lines slots.items) }
    ensures capacity { vec_capacity log.old ≤ vec_capacity log.new }
{
    for slot in slots {
        if let ChildSlot::Ended(outcome) = slot {
            outcome.into_log(log);
        }
    }
}
