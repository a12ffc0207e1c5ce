//! What a run keeps of instructions, for the next run.

ghost use Rattle.std.specs.Prelude.{◌≡◌, length, IfOk};
ghost use Rattle.vm_hart.specs.Kept.{Keeps};
ghost use Rattle.vm_hart.specs.Keyed.{KeyedState};
ghost use Rattle.vm_cell.specs.Parts.{AreNowhere, ArePast};

use instruction_slots::Slot;
use std::alloc::{AllocError, Global};
use std::marker::Model;

/// How many instructions are kept. It is a power of 2, so that the slots are used alike.
const SLOTS: usize = 512;

/// Slots for decoded instructions. Who runs machines has them, and lends them to each run: it begins an epoch, so what
/// another machine left in them says nothing, and none of them is touched for that. They take memory at the first run, and
/// where it is wanting machines run without.
#[derive(Drop)]
pub struct Slots {
    pub(crate) slots: Vec<Slot>,
    pub(crate) epoch: u32,
    pub(crate) alloc: Global,
}

impl Model for Slots {
    ghost use Rattle.vm_cell.specs.Parts.{ArePast};

    ghost Value = { Unit {0} };

    ghost view = { λ s. tt };

    ghost invariant = { λ s. ArePast s.epoch s.slots.items };
}

impl Slots {
    /// Slots that keep nothing.
    pub fn new(alloc: Global) -> Slots {
        Slots {
            slots: Vec::new(alloc),
            epoch: 0,
            alloc,
        }
    }
}

/// Makes the slots, if they are not made and there is memory for them.
#[inline(never)]
pub(crate) fn make_slots(slots: &mut Vec<Slot>, epoch: u32, alloc: Global)
    requires { ArePast epoch slots.old.items }
    ensures { ArePast epoch slots.new.items }
{
    if !slots.is_empty() {
        return;
    }
    if let Ok(made) = empty_slots(alloc) {
        *slots = made;
    }
}

/// Slots that keep nothing.
fn empty_slots(alloc: Global) -> Result<Vec<Slot>, AllocError>
    ensures { IfOk result (λ made. AreNowhere made.items) }
{
    let mut made = Vec::with_capacity(alloc, SLOTS)?;
    for _ in 0..SLOTS {
        made.push(Slot::empty())?;
    }
    Ok(made)
}

/// Begins an epoch, for which nothing is kept.
#[inline(always)]
pub(crate) fn begin_epoch(slots: &mut [Slot], epoch: &mut u32)
    requires { ArePast epoch.old slots.old }
    ensures keeps { (h : KeyedState) → Keeps h epoch.new slots.new }
    ensures same_length { length slots.new ≡ length slots.old }
{
    if *epoch < u32::MAX {
        *epoch += 1;
    } else {
        begin_anew(slots, epoch);
    }
}

/// The same, where the epochs have been counted through.
#[cold]
#[inline(never)]
fn begin_anew(slots: &mut [Slot], epoch: &mut u32)
    ensures keeps { (h : KeyedState) → Keeps h epoch.new slots.new }
    ensures same_length { length slots.new ≡ length slots.old }
{
    forget_all(slots);
    *epoch = 0;
}

/// Keeps nothing more in any slot.
fn forget_all(slots: &mut [Slot])
    ensures nowhere { AreNowhere slots.new }
    ensures same_length { length slots.new ≡ length slots.old }
{
    for number in 0..slots.len() {
        slots[number] = Slot::empty();
    }
}
