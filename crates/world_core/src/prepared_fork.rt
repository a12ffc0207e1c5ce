//! The children of a CLONE, which are made ready before the world of their parent comes to know of them.

ghost use Rattle.std.specs.Prelude.{◌≡◌, IfOk, Some, replicate};
ghost use Rattle.vm_cell.specs.Standing.{IsClone, standing_call};
ghost use Rattle.world_core.specs.Answers.{IsLentOf};
ghost use Rattle.world_core.specs.Lent.{vm_of};
ghost use Rattle.world_core.specs.PreparedFork.{IsBroodOf, IsPreparedIn, IsPreparedFor};

use crate::cell::{Brood, ChildSlot};
use crate::kept_image::KeptImage;
use crate::lease::Lease;
use fork_port::Call;
use image_depot::Depot;
use machine_names::Name;
use ready_queue::ReadyTurn;
use sibling_words::{SiblingNotes, SiblingWords};
use std::alloc::{AllocError, Global};
use std::marker::Model;
use std::sync::Wait;

/// The children of a CLONE before they wake, with the room that they take in a world.
#[derive(Drop)]
pub struct PreparedFork {
    /// The name of their parent.
    name: Name,
    ticket: u32,
    image: KeptImage,
    /// One for each of them. All are asleep.
    slots: Vec<ChildSlot>,
    words: SiblingWords,
    notes: SiblingNotes,
    turn: ReadyTurn,
}

impl Model for PreparedFork {
    ghost use Rattle.std.specs.Prelude.{vec_len};
    ghost use Rattle.world_core.specs.PreparedFork.{IsPrepared, Prepared};

    ghost Value = { Prepared };

    ghost view = { λ l. record { name = l.name; ticket = l.ticket; children = vec_len l.slots; image = l.image } };

    ghost invariant = { λ l. IsPrepared l.name l.ticket (vec_len l.slots) l.slots.items l.words l.notes l.turn };
}

impl Lease {
    /// The children of the CLONE at which the machine stands. This needs no world, and the machine stays as it is. It
    /// may wait for another thread that keeps an image.
    pub fn prepare_fork<R: Wait>(
        &self,
        rt: &R,
        alloc: Global,
        depot: &Depot,
    ) -> Result<PreparedFork, AllocError>
        requires of_depot { IsLentOf depot.now self.now }
        requires clone { IsClone (standing_call (vm_of self.now)) }
        ensures of_lease { IfOk result (IsPreparedFor self.now) }
        ensures kept { IfOk result (IsPreparedIn depot.now) }
    {
        let Some(Call::Clone(ticket)) = self.call() else {
            unreachable!();
        };
        let slots = all_asleep(alloc, self.vm.granted(ticket))?;
        let notes = SiblingNotes::with_room(alloc, slots.len() as u32)?;
        // The names of the children share its row.
        let name = self.name().whole(alloc)?;
        let turn = ReadyTurn::of_children(alloc, name.copy()?, ticket)?;
        // Last, since the depot keeps the image, whatever fails after it.
        let left = self.vm.child_left(rt, alloc, depot)?;
        let image = KeptImage::new(alloc, left)?;
        Ok(PreparedFork {
            name,
            ticket,
            image,
            slots,
            words: SiblingWords::new(),
            notes,
            turn,
        })
    }
}

impl PreparedFork {
    /// The ticket, the brood and the turn of the children.
    pub(crate) fn into_brood(self) -> (u32, Brood, ReadyTurn)
        ensures ticket { result.0 ≡ self.ticket }
        ensures brood { IsBroodOf self result.1 }
        ensures turn { result.2 ≡ record { name = self.name; children = Some (self.ticket, 1) } }
    {
        let PreparedFork {
            name,
            ticket,
            image,
            slots,
            words,
            notes,
            turn,
        } = self;
        let live = slots.len() as u32;
        let brood = Brood {
            name,
            image: Some(image),
            slots,
            live,
            words,
            notes,
        };
        (ticket, brood, turn)
    }
}

/// The slots of so many children that are all still descriptors.
fn all_asleep(alloc: Global, children: u32) -> Result<Vec<ChildSlot>, AllocError>
    ensures { IfOk result (λ slots. slots.items ≡ replicate children ChildSlot.Asleep) }
{
    let mut slots = Vec::with_capacity(alloc, children as usize)?;
    for _ in 0..children {
        slots.push_reserved(ChildSlot::Asleep);
    }
    Ok(slots)
}
