//! The map of pages as the lengths of runs of equal flags.

ghost use Rattle.std.specs.Prelude.{◌≡◌, ◌+◌, ◌≤◌, ◌<◌, ◌^◌, ◌++◌, ◌&&◌, ◌||◌, ◌==◌, ◌↔◌, nat_le, nat_lt, false, length, replicate, IsTrue, IfOk, OnOk};
ghost use Rattle.std.specs.Bool.{beq};
ghost use Rattle.std.specs.List.{flat_map, list_all, sum};
ghost use Rattle.vm_descriptor.specs.Maps.{are_runs, flags_of_runs, half, halves, runs};

use flat_memory::read_half;
use std::alloc::{AllocError, Global};

/// How many runs of equal flags the flags of runs have.
pub(crate) fn run_count(lengths: &[u16]) -> usize
    ensures value { result ≡ length (runs (flags_of_runs false lengths.now)) }
    ensures most { result ≤ length (flags_of_runs false lengths.now) + 1 }
{
    let mut count = 1;
    let mut last = false;
    let mut flag = false;
    for run in lengths {
        if goes_on(flag, last, *run) {
            flag = !flag;
            continue;
        }
        count += 1;
        last = flag;
        flag = !flag;
    }
    count
}

/// How many flags runs have.
pub(crate) fn flag_count(lengths: &[u16]) -> usize
    requires { length (flags_of_runs false lengths.now) < 2 ^ 16 }
    ensures { result ≡ length (flags_of_runs false lengths.now) }
{
    let mut count = 0;
    for run in lengths {
        count += usize::from(*run);
    }
    count
}

/// Whether a run belongs to the flags before it: it has none, or they are equal.
fn goes_on(flag: bool, last: bool, run: u16) -> bool
    ensures { result ≡ (run == 0 || beq flag last) }
{
    run == 0 || flag == last
}

/// The lengths of the runs of flags.
pub(crate) fn runs_in(alloc: Global, flags: &[bool]) -> Result<Vec<u16>, AllocError>
    requires { length flags.now < 2 ^ 16 }
    ensures { IfOk result (λ lengths. lengths.items ≡ runs flags.now) }
{
    let mut lengths = Vec::new(alloc);
    let mut run: u16 = 0;
    let mut last = false;
    for flag in flags {
        if *flag == last {
            run += 1;
            continue;
        }
        lengths.push(run)?;
        run = 1;
        last = *flag;
    }
    lengths.push(run)?;
    Ok(lengths)
}

/// Adds the lengths of the runs of equal flags of the flags of runs.
pub(crate) fn push_runs(bytes: &mut Vec<u8>, lengths: &[u16]) -> Result<(), AllocError>
    requires { length (flags_of_runs false lengths.now) < 2 ^ 16 }
    ensures { OnOk result (bytes.new.items ≡ bytes.old.items ++ flat_map half (runs (flags_of_runs false lengths.now))) }
{
    let mut count: u16 = 0;
    let mut last = false;
    let mut flag = false;
    for run in lengths {
        if goes_on(flag, last, *run) {
            count += *run;
            flag = !flag;
            continue;
        }
        push_length(bytes, count)?;
        count = *run;
        last = flag;
        flag = !flag;
    }
    push_length(bytes, count)
}

/// Adds the length of a run.
fn push_length(bytes: &mut Vec<u8>, run: u16) -> Result<(), AllocError>
    ensures { OnOk result (bytes.new.items ≡ bytes.old.items ++ half run) }
{
    bytes.extend_from_slice(&run.to_le_bytes())
}

/// The numbers of 16 bits in bytes.
pub(crate) fn read_runs(alloc: Global, map: &[u8]) -> Result<Vec<u16>, AllocError>
    ensures { IfOk result (λ lengths. lengths.items ≡ halves map.now) }
{
    let mut lengths = Vec::with_capacity(alloc, map.len() / 2)?;
    let mut left = map;
    while let Some((run, behind)) = left.split_first_chunk::<2>() {
        lengths.push(read_half(run, 0))?;
        left = behind;
    }
    Ok(lengths)
}

/// The flags of runs.
pub(crate) fn flags_in_runs(alloc: Global, lengths: &[u16]) -> Result<Vec<bool>, AllocError>
    ensures { IfOk result (λ flags. flags.items ≡ flags_of_runs false lengths.now) }
{
    let mut flags = Vec::new(alloc);
    let mut flag = false;
    for run in lengths {
        push_run(&mut flags, flag, *run)?;
        flag = !flag;
    }
    Ok(flags)
}

/// Whether runs have so many flags.
pub(crate) fn are_as_many(lengths: &[u16], pages: u32) -> bool
    ensures { IsTrue result ↔ length (flags_of_runs false lengths.now) ≡ pages }
{
    let mut pages_left = pages;
    for run in lengths {
        let run = u32::from(*run);
        if run > pages_left {
            return false;
        }
        pages_left -= run;
    }
    pages_left == 0
}

/// Adds a run.
fn push_run(flags: &mut Vec<bool>, flag: bool, run: u16) -> Result<(), AllocError>
    ensures { OnOk result (flags.new.items ≡ flags.old.items ++ replicate run flag) }
{
    let end = flags.len() + usize::from(run);
    flags.resize(end, flag)
}

/// Whether these are the lengths of the runs of so many flags, of which none is 0 but maybe the first.
pub(crate) fn are_runs(pages: u32, map: &[u8]) -> bool
    ensures { result ≡ are_runs pages (halves map.now) }
{
    let Some((first, behind)) = map.split_first_chunk::<2>() else {
        return pages == 0;
    };
    let first = u32::from(read_half(first, 0));
    first <= pages && follow(pages - first, behind)
}

/// Whether these are the lengths of the runs of so many flags, of which none is 0.
fn follow(pages: u32, map: &[u8]) -> bool
    ensures { result ≡ (list_all (λ run. nat_lt 0 run) (halves map.now) && sum (halves map.now) == pages) }
{
    let mut pages_left = pages;
    let mut left = map;
    while let Some((run, behind)) = left.split_first_chunk::<2>() {
        let run = u32::from(read_half(run, 0));
        if !is_run(run, pages_left) {
            return false;
        }
        pages_left -= run;
        left = behind;
    }
    pages_left == 0
}

/// Whether a run behind the first can have so many flags, where so many are left.
fn is_run(run: u32, pages_left: u32) -> bool
    ensures { result ≡ (nat_lt 0 run && nat_le run pages_left) }
{
    0 < run && run <= pages_left
}
