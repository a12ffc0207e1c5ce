//! The page tables of clones.

ghost use Rattle.std.specs.Prelude.{◌≡◌, ◌+◌, ◌≤◌, length, IfOk, OnOk};
ghost use Rattle.shared_leaves.specs.Choices.{choice_steps};
ghost use Rattle.vm_descriptor.specs.CloneTables.{clone_table};

use page_frames::{Entry, PageTable};
use shared_leaves::{SharedList, Steps};
use std::alloc::{AllocError, Global};
use std::sync::ledger::Ledger;
use vm_descriptor::{MapForm, PageMap};

/// The table of a clone that has so many pages, of which the flagged ones are blank.
pub fn table_of<L: Ledger>(
    alloc: Global,
    pages: u32,
    map: &PageMap,
    steps: &mut Steps<L>,
) -> Result<PageTable, AllocError>
    requires { length map.now ≡ pages }
    ensures value { IfOk result (λ table. table ≡ clone_table map.now) }
    ensures cost { OnOk result (steps.new ≡ steps.old + choice_steps map.now) }
    ensures most { steps.new ≤ steps.old + choice_steps map.now }
{
    let blank = Entry::Blank;
    let absent = Entry::Absent;
    match map.form() {
        MapForm::Flags(flags) => SharedList::chosen_counted(alloc, flags, &blank, &absent, steps),
        MapForm::Runs(runs) => {
            let count = pages as usize;
            SharedList::chosen_in_runs_counted(alloc, count, runs, &blank, &absent, steps)
        }
        MapForm::Table(_) => {
            let flags = map.flags(alloc)?;
            SharedList::chosen_counted(alloc, &flags, &blank, &absent, steps)
        }
    }
}
