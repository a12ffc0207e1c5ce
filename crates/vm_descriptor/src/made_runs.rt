//! Runs of equal flags that are made one after the other, from either end.

ghost use Rattle.std.specs.Prelude.{◌≡◌, ◌+◌, ◌^◌, ◌<◌, ◌≤◌, ◌/◌, ◌%◌, ◌==◌, ℕ, [], ◌++◌, not, false, replicate, IfOk, OnOk};
ghost use Rattle.shared_leaves.specs.Choices.{flags_of_runs};
ghost use Rattle.vm_descriptor.specs.Maps.{bits_of};
ghost use Rattle.vm_descriptor.specs.MadeRuns.{IsInTurn, from_the_end, from_the_start};

use std::alloc::{AllocError, Global};

/// The lengths of runs of equal flags, each put behind those that are made; or each before them, where the end of the flags is
/// made first.
#[derive(Drop)]
pub(crate) struct MadeRuns {
    /// The lengths of the runs that are made before the last.
    lengths: Vec<u16>,
    /// The flag of the last run.
    flag: bool,
    /// The length of the last run.
    last: u16,
}

impl MadeRuns {
    /// Those of no flags. It takes no memory.
    #[tactic(auto, unfolding(shared_leaves::specs::Choices::flags_of_runs, crate::specs::MadeRuns::flag_behind))]
    pub(crate) fn new(alloc: Global) -> MadeRuns
        ensures in_turn { IsInTurn result }
        ensures behind { from_the_start result ≡ [] }
        ensures before { from_the_end result ≡ [] }
    {
        MadeRuns {
            lengths: Vec::new(alloc),
            flag: false,
            last: 0,
        }
    }

    /// Puts so many equal flags to the others.
    #[inline]
    pub(crate) fn put(&mut self, flag: bool, count: u16) -> Result<(), AllocError>
        ensures in_turn { OnOk result (IsInTurn self.old → IsInTurn self.new) }
        ensures behind { OnOk result (IsInTurn self.old → from_the_start self.new ≡ from_the_start self.old ++ replicate count flag) }
        ensures before { OnOk result (from_the_end self.new ≡ replicate count flag ++ from_the_end self.old) }
    {
        self.open(flag, count)?;
        self.last += count;
        Ok(())
    }

    /// Makes the last run one of such a flag, with room for so many more.
    #[inline]
    fn open(&mut self, flag: bool, count: u16) -> Result<(), AllocError>
        ensures flag { OnOk result (self.new.flag ≡ flag) }
        ensures room { OnOk result (self.new.last + count < 2 ^ 16) }
        ensures in_turn { OnOk result (IsInTurn self.old → IsInTurn self.new) }
        ensures behind { OnOk result (from_the_start self.new ≡ from_the_start self.old) }
        ensures before { OnOk result (from_the_end self.new ≡ from_the_end self.old) }
    {
        if self.flag != flag {
            return self.begin();
        }
        if self.last <= u16::MAX - count {
            return Ok(());
        }
        self.begin()?;
        self.begin()
    }

    /// Begins a run of no flags.
    fn begin(&mut self) -> Result<(), AllocError>
        ensures flag { OnOk result (self.new.flag ≡ not self.old.flag) }
        ensures none { OnOk result (self.new.last ≡ 0) }
        ensures in_turn { OnOk result (IsInTurn self.old → IsInTurn self.new) }
        ensures behind { OnOk result (from_the_start self.new ≡ from_the_start self.old) }
        ensures before { OnOk result (from_the_end self.new ≡ from_the_end self.old) }
    {
        self.lengths.push(self.last)?;
        self.last = 0;
        self.flag = !self.flag;
        Ok(())
    }

    /// Puts as many flags as `count` tells behind the others: the lowest bits of a word, the lowest first.
    pub(crate) fn put_word(&mut self, word: u64, count: u32) -> Result<(), AllocError>
        requires most { count ≤ 64 }
        requires in_turn { IsInTurn self.old }
        ensures in_turn { OnOk result (IsInTurn self.new) }
        ensures behind { OnOk result (from_the_start self.new ≡ from_the_start self.old ++ bits_of count word) }
    {
        let mut bits = word;
        let mut left = count;
        'runs: while left > 0 {
            let flag = bits % 2 == 1;
            let run = equal_bits(bits, flag, left);
            self.put(flag, run as u16)?;
            bits = bits_behind(bits, run);
            left -= run;
        }
        Ok(())
    }

    /// The lengths of the runs, the first of flags that are not set, where each was put behind the others.
    pub(crate) fn into_lengths(self) -> Result<Vec<u16>, AllocError>
        ensures { IfOk result (λ lengths. flags_of_runs false lengths.items ≡ from_the_start self) }
    {
        let MadeRuns {
            mut lengths,
            last,
            ..
        } = self;
        lengths.push(last)?;
        Ok(lengths)
    }

    /// The same where each was put before the others.
    pub(crate) fn into_reversed(mut self) -> Result<Vec<u16>, AllocError>
        ensures { IfOk result (λ lengths. flags_of_runs false lengths.items ≡ from_the_end self) }
    {
        self.open(false, 0)?;
        let MadeRuns {
            mut lengths,
            last,
            ..
        } = self;
        lengths.push(last)?;
        lengths.reverse();
        Ok(lengths)
    }
}

/// How many of so many lowest bits of a word are equal, of which the first is this: one at least.
#[inline]
fn equal_bits(word: u64, flag: bool, count: u32) -> u32
    requires some { 0 < count }
    requires first { flag ≡ (word % 2 == 1) }
    ensures some { 0 < result }
    ensures most { result ≤ count }
    ensures equal { bits_of result word ≡ replicate result flag }
{
    let equal = equal_from_first(word, flag);
    if equal < count { equal } else { count }
}

/// How many bits of a word are equal, from the first on, which is this.
#[inline]
fn equal_from_first(word: u64, flag: bool) -> u32
    requires { flag ≡ (word % 2 == 1) }
    ensures some { 0 < result }
    ensures equal { (count : ℕ) → count ≤ result → bits_of count word ≡ replicate count flag }
{
    if flag {
        word.trailing_ones()
    } else {
        word.trailing_zeros()
    }
}

/// The bits of a word behind so many.
#[inline]
fn bits_behind(word: u64, count: u32) -> u64
    requires { count ≤ 64 }
    ensures { result ≡ word / 2 ^ count }
{
    if count < 64 { word >> count } else { 0 }
}
