//! Lists in which each entry is one of two, by the lengths of the runs of equal entries.

ghost use Rattle.std.specs.Prelude.{◌≡◌, ◌+◌, ◌%◌, ◌-◌, ◌<◌, ◌≤◌, [], ◌++◌, drop, false, length, replicate, take, IfOk, OnOk};
ghost use Rattle.shared_leaves.specs.Choices.{chosen, choice_steps, flags_of_runs, made_with, no_leaf, piece_steps, which, AreMade};
ghost use Rattle.shared_leaves.specs.Runs.{flags_from, steps_from};

use crate::choice::{Made, equal_leaf, leaf_of, written_leaf};
use crate::handle::Handle;
use crate::leaf::{LEAF_ENTRIES, Leaf};
use crate::list::SharedList;
use crate::steps::Steps;
use std::alloc::{AllocError, Global};
use std::sync::ledger::Ledger;

/// A place among flags that are told by the lengths of their runs.
#[derive(Drop)]
pub(crate) struct Place {
    /// The flag of the run.
    flag: bool,
    /// How many flags of it are left.
    left: usize,
    /// Which run is the next.
    next: usize,
}

impl<T: Handle> SharedList<T> {
    /// The list of so many entries that has one where a flag is set, and another where it is not. The flags are told by the
    /// lengths of the runs of equal ones, the first of flags that are not set. All whole leaves of equal entries are one. A
    /// step is a handle on a leaf, or an entry that is written into one. A leaf that lies in a run is made without a look at
    /// its flags.
    pub fn chosen_in_runs_counted<L: Ledger>(
        alloc: Global,
        count: usize,
        runs: &[u16],
        set: &T,
        unset: &T,
        steps: &mut Steps<L>,
    ) -> Result<SharedList<T>, AllocError>
        requires { length (flags_of_runs false runs.now) ≡ count }
        ensures value { IfOk result (λ list. list ≡ chosen set.now unset.now (flags_of_runs false runs.now)) }
        ensures cost { OnOk result (steps.new ≡ steps.old + choice_steps (flags_of_runs false runs.now)) }
        ensures most { steps.new ≤ steps.old + choice_steps (flags_of_runs false runs.now) }
    {
        let mut list = SharedList {
            leaves: Vec::with_capacity(alloc, count / LEAF_ENTRIES + 1)?,
            len: 0,
        };
        let mut place = Place {
            flag: true,
            left: 0,
            next: 0,
        };
        place.push_leaves(count, runs, set, unset, &mut list, steps)?;
        let rest = count % LEAF_ENTRIES;
        if rest == 0 {
            return Ok(list);
        }
        let last = place.last_leaf(alloc, runs, rest, set, unset, steps)?;
        list.push_leaf(last)?;
        Ok(list)
    }
}

impl Place {
    /// Puts the whole leaves of so many entries into a list of none.
    fn push_leaves<T: Handle, L: Ledger>(
        &mut self,
        count: usize,
        runs: &[u16],
        set: &T,
        unset: &T,
        list: &mut SharedList<T>,
        steps: &mut Steps<L>,
    ) -> Result<(), AllocError>
        requires empty { list.old ≡ [] }
        requires count { length (flags_from self.old runs.now) ≡ count }
        ensures value { OnOk result (list.new ++ chosen set.now unset.now (flags_from self.new runs.now) ≡ chosen set.now unset.now (flags_from self.old runs.now)) }
        ensures size { OnOk result (length list.new + length (flags_from self.new runs.now) ≡ count) }
        ensures whole { OnOk result (length (flags_from self.new runs.now) ≡ count % LEAF_ENTRIES) }
        ensures cost { OnOk result (steps.new + length (flags_from self.new runs.now) ≡ steps.old + steps_from no_leaf (flags_from self.old runs.now)) }
        ensures most { steps.new ≤ steps.old + steps_from no_leaf (flags_from self.old runs.now) }
    {
        let alloc = list.allocator();
        let mut made = Made {
            set: None,
            unset: None,
        };
        'leaves: for _ in 0..count / LEAF_ENTRIES {
            list.push_leaf(self.next_leaf(alloc, runs, set, unset, &mut made, steps)?)?;
        }
        Ok(())
    }

    /// The leaf of the next flags, of which there are as many as it has: a handle on one that is made where the flags are equal.
    fn next_leaf<T: Handle, L: Ledger>(
        &mut self,
        alloc: Global,
        runs: &[u16],
        set: &T,
        unset: &T,
        made: &mut Made<T>,
        steps: &mut Steps<L>,
    ) -> Result<Leaf<T>, AllocError>
        requires enough { LEAF_ENTRIES ≤ length (flags_from self.old runs.now) }
        requires made { AreMade set.now unset.now made.old.set made.old.unset }
        ensures value { IfOk result (λ leaf. leaf ≡ chosen set.now unset.now (take LEAF_ENTRIES (flags_from self.old runs.now))) }
        ensures rest { flags_from self.new runs.now ≡ drop LEAF_ENTRIES (flags_from self.old runs.now) }
        ensures made { OnOk result (AreMade set.now unset.now made.new.set made.new.unset) }
        ensures after { OnOk result (which made.new.set made.new.unset ≡ made_with (take LEAF_ENTRIES (flags_from self.old runs.now)) (which made.old.set made.old.unset)) }
        ensures cost { OnOk result (steps.new ≡ steps.old + piece_steps (take LEAF_ENTRIES (flags_from self.old runs.now)) (which made.old.set made.old.unset)) }
        ensures most { steps.new ≤ steps.old + piece_steps (take LEAF_ENTRIES (flags_from self.old runs.now)) (which made.old.set made.old.unset) }
    {
        self.open_run(runs);
        if self.left >= LEAF_ENTRIES {
            self.left -= LEAF_ENTRIES;
            return leaf_in_run(alloc, self.flag, set, unset, made, steps);
        }
        let mut piece = [false; LEAF_ENTRIES];
        self.next_flags(runs, &mut piece);
        leaf_of(alloc, &piece, set, unset, made, steps)
    }

    /// The leaf of the last flags, of which there are so many, entry by entry.
    fn last_leaf<T: Handle, L: Ledger>(
        &mut self,
        alloc: Global,
        runs: &[u16],
        count: usize,
        set: &T,
        unset: &T,
        steps: &mut Steps<L>,
    ) -> Result<Leaf<T>, AllocError>
        requires few { count ≤ LEAF_ENTRIES }
        requires all { length (flags_from self.old runs.now) ≡ count }
        ensures value { IfOk result (λ leaf. leaf ≡ chosen set.now unset.now (flags_from self.old runs.now)) }
        ensures cost { OnOk result (steps.new ≡ steps.old + count) }
        ensures most { steps.new ≤ steps.old + count }
    {
        let mut flags = [false; LEAF_ENTRIES];
        let last = &mut flags[..count];
        self.next_flags(runs, last);
        written_leaf(alloc, last, set, unset, steps)
    }

    /// Puts the next flags into as many places.
    fn next_flags(&mut self, runs: &[u16], flags: &mut [bool])
        requires { length flags.old ≤ length (flags_from self.old runs.now) }
        ensures flags { flags.new ≡ take (length flags.old) (flags_from self.old runs.now) }
        ensures rest { flags_from self.new runs.now ≡ drop (length flags.old) (flags_from self.old runs.now) }
    {
        let mut at = 0;
        'flags: while at < flags.len() {
            let count = self.take_run(runs, flags.len() - at);
            put_run(flags, at, at + count, self.flag);
            at += count;
        }
    }

    /// Takes the next flags that are equal, as many as lie in one run and as are wanted: one at least.
    #[tactic(auto, using(crate::proofs::RunLemmas::run_taken, crate::proofs::RunLemmas::run_gone))]
    fn take_run(&mut self, runs: &[u16], most: usize) -> usize
        requires wanted { 0 < most }
        requires enough { most ≤ length (flags_from self.old runs.now) }
        ensures some { 0 < result }
        ensures most { result ≤ most }
        ensures flags { take result (flags_from self.old runs.now) ≡ replicate result self.new.flag }
        ensures rest { flags_from self.new runs.now ≡ drop result (flags_from self.old runs.now) }
    {
        self.open_run(runs);
        let count = if self.left < most { self.left } else { most };
        self.left -= count;
        count
    }

    /// Goes on to a run of which flags are left, where there are any.
    #[tactic(auto, using(crate::proofs::RunLemmas::next_there, crate::proofs::RunLemmas::run_opened))]
    fn open_run(&mut self, runs: &[u16])
        requires { 0 < length (flags_from self.old runs.now) }
        ensures some { 0 < self.new.left }
        ensures same { flags_from self.new runs.now ≡ flags_from self.old runs.now }
    {
        'runs: while self.left == 0 {
            self.flag = !self.flag;
            self.left = usize::from(runs[self.next]);
            self.next += 1;
        }
    }
}

/// The leaf of equal flags: a handle on the one that is made.
fn leaf_in_run<T: Handle, L: Ledger>(
    alloc: Global,
    flag: bool,
    set: &T,
    unset: &T,
    made: &mut Made<T>,
    steps: &mut Steps<L>,
) -> Result<Leaf<T>, AllocError>
    requires { AreMade set.now unset.now made.old.set made.old.unset }
    ensures value { IfOk result (λ leaf. leaf ≡ chosen set.now unset.now (replicate LEAF_ENTRIES flag)) }
    ensures made { OnOk result (AreMade set.now unset.now made.new.set made.new.unset) }
    ensures after { OnOk result (which made.new.set made.new.unset ≡ made_with (replicate LEAF_ENTRIES flag) (which made.old.set made.old.unset)) }
    ensures cost { OnOk result (steps.new ≡ steps.old + piece_steps (replicate LEAF_ENTRIES flag) (which made.old.set made.old.unset)) }
    ensures most { steps.new ≤ steps.old + piece_steps (replicate LEAF_ENTRIES flag) (which made.old.set made.old.unset) }
{
    let piece = [flag; LEAF_ENTRIES];
    if flag {
        equal_leaf(alloc, &piece, set, unset, &mut made.set, steps)
    } else {
        equal_leaf(alloc, &piece, set, unset, &mut made.unset, steps)
    }
}

/// Sets the flags from one place up to another.
fn put_run(flags: &mut [bool], begin: usize, end: usize, flag: bool)
    requires order { begin ≤ end }
    requires inside { end ≤ length flags.old }
    ensures flags { take end flags.new ≡ take begin flags.old ++ replicate (end - begin) flag }
    ensures len { length flags.new ≡ length flags.old }
{
    for i in begin..end {
        flags[i] = flag;
    }
}
