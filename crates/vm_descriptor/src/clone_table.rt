//! The page table with which the clones of a ticket start.

ghost use Rattle.std.specs.Prelude.{◌≡◌, ◌^◌, ◌<◌, ◌++◌, false, true, length, replicate, IfOk, IsTrue, OnOk};
ghost use Rattle.shared_leaves.specs.Choices.{flags_of_runs};
ghost use Rattle.page_frames.specs.Tables.{blank_pages};
ghost use Rattle.vm_descriptor.specs.CloneTables.{clone_table};
ghost use Rattle.vm_descriptor.specs.MadeRuns.{from_the_end};

use crate::made_runs::MadeRuns;
use crate::runs::flag_count;
use page_frames::{Entry, PageTable};
use shared_leaves::{SharedList, Steps};
use std::alloc::{AllocError, Global};
use std::marker::{Brand, Model};
use std::sync::Arc;
use std::sync::ledger::{Blank, Ledger};

/// The page table with which each clone of a ticket starts: its pages are absent but for the flagged ones, which are blank.
/// It stays as it is, behind one handle. Contracts see the flags.
#[derive(Drop)]
pub struct CloneTable {
    entries: Arc<PageTable>,
}

impl Model for CloneTable {
    ghost use Rattle.std.specs.Prelude.{Bool, List, ◌≡◌};
    ghost use Rattle.std.specs.Arc.{arc_value};
    ghost use Rattle.page_frames.specs.Tables.{blank_pages};
    ghost use Rattle.vm_descriptor.specs.CloneTables.{clone_table};

    ghost Value = { List Bool };

    ghost view = { λ t. blank_pages (arc_value t.entries) };

    ghost invariant = { λ t. arc_value t.entries ≡ clone_table (blank_pages (arc_value t.entries)) };
}

impl CloneTable {
    /// The table of clones whose blank pages are the set flags of these runs.
    pub(crate) fn of_runs(alloc: Global, lengths: &[u16]) -> Result<CloneTable, AllocError>
        requires { length (flags_of_runs false lengths.now) < 2 ^ 16 }
        ensures { IfOk result (λ table. table ≡ flags_of_runs false lengths.now) }
    {
        CloneTable::of_ledger::<Brand>(alloc, lengths, Blank::new(1))
    }

    /// The same with a counter of its own.
    fn of_ledger<L: Ledger>(
        alloc: Global,
        lengths: &[u16],
        blank: Blank,
    ) -> Result<CloneTable, AllocError>
        requires name { blank.name ≡ L.name }
        requires parts { blank.parts ≡ L.parts }
        requires some { 0 < blank.parts }
        requires few { length (flags_of_runs false lengths.now) < 2 ^ 16 }
        ensures { IfOk result (λ table. table ≡ flags_of_runs false lengths.now) }
    {
        let mut steps = Steps::<L>::new(blank);
        let entries = SharedList::chosen_in_runs_counted(
            alloc,
            flag_count(lengths),
            lengths,
            &Entry::Blank,
            &Entry::Absent,
            &mut steps,
        )?;
        Ok(CloneTable {
            entries: Arc::new(alloc, entries)?,
        })
    }

    /// The entries, of page 0 first. It takes no memory.
    pub fn entries(&self) -> &PageTable
        ensures { result.now ≡ clone_table self.now }
    {
        &self.entries
    }

    /// How many pages there are. It takes no memory.
    #[tactic(auto, using(crate::proofs::CloneTables::flag_count))]
    pub(crate) fn len(&self) -> usize
        ensures { result ≡ length self.now }
    {
        self.entries.len()
    }

    /// Whether each page is blank, as the lengths of runs of equal flags.
    #[tactic(auto, using(crate::proofs::CloneTables::clone_blank))]
    pub(crate) fn runs(&self, alloc: Global) -> Result<Vec<u16>, AllocError>
        ensures { IfOk result (λ lengths. flags_of_runs false lengths.items ≡ self.now) }
    {
        blank_runs(alloc, &self.entries)
    }

    /// The same table once more. It costs one handle.
    pub(crate) fn share(&self) -> Result<CloneTable, AllocError>
        ensures { IfOk result (λ table. table ≡ self.now) }
    {
        Ok(CloneTable {
            entries: Arc::try_clone(&self.entries)?,
        })
    }
}

/// How many entries are tested at once.
const TESTED: usize = 32;

/// For each entry of a page table, whether it is blank, as the lengths of runs of equal flags. It goes over the entries
/// that lie together, the last of them first.
pub(crate) fn blank_runs(alloc: Global, table: &PageTable) -> Result<Vec<u16>, AllocError>
    ensures { IfOk result (λ lengths. flags_of_runs false lengths.items ≡ blank_pages table.now) }
{
    let mut runs = MadeRuns::new(alloc);
    let mut end = table.len();
    'leaves: while end > 0 {
        let entries = table.run_before(end);
        put_entries(&mut runs, entries)?;
        end -= entries.len();
    }
    runs.into_reversed()
}

/// Puts for each of these entries whether it is blank.
fn put_entries(runs: &mut MadeRuns, entries: &[Entry]) -> Result<(), AllocError>
    ensures { OnOk result (from_the_end runs.new ≡ blank_pages entries.now ++ from_the_end runs.old) }
{
    let mut left = entries;
    'tested: while let Some((before, tested)) = left.split_last_chunk::<TESTED>() {
        put_tested(runs, tested)?;
        left = before;
    }
    put_each(runs, left)
}

/// The same of entries that may be equal.
fn put_tested(runs: &mut MadeRuns, entries: &[Entry; TESTED]) -> Result<(), AllocError>
    ensures { OnOk result (from_the_end runs.new ≡ blank_pages entries.now ++ from_the_end runs.old) }
{
    if has_no_blank(entries) {
        return runs.put(false, TESTED as u16);
    }
    if are_blank(entries) {
        return runs.put(true, TESTED as u16);
    }
    put_each(runs, entries)
}

/// The same one by one.
fn put_each(runs: &mut MadeRuns, entries: &[Entry]) -> Result<(), AllocError>
    ensures { OnOk result (from_the_end runs.new ≡ blank_pages entries.now ++ from_the_end runs.old) }
{
    let mut left = entries;
    'each: while let Some((last, before)) = left.split_last() {
        runs.put(last.is_blank(), 1)?;
        left = before;
    }
    Ok(())
}

/// Whether none of these entries is blank.
#[inline]
fn has_no_blank(entries: &[Entry; TESTED]) -> bool
    ensures { IsTrue result → blank_pages entries.now ≡ replicate TESTED false }
{
    for entry in entries {
        if entry.is_blank() {
            return false;
        }
    }
    true
}

/// Whether all of these entries are blank.
#[inline]
fn are_blank(entries: &[Entry; TESTED]) -> bool
    ensures { IsTrue result → blank_pages entries.now ≡ replicate TESTED true }
{
    for entry in entries {
        if !entry.is_blank() {
            return false;
        }
    }
    true
}
