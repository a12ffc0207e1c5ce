//! Lists of shared leaves: that calls succeed where there is memory, that a write copies one leaf and no other,
//! and that lists move between threads.

ghost use Rattle.std.specs.Prelude.{◌≡◌, ◌+◌, ◌<◌, true, false, [], ◌∷◌, length, replicate, OnOk};

use crate::equal::{are_equal, succeeds};
use crate::token::Token;
use shared_leaves::{SharedList, Steps};
use std::alloc::{AllocError, Global};
use std::marker::Brand;
use std::process::Abort;
use std::sync::ledger::{Blank, Ledger};
use std::thread;
use std::thread::Threads;

/// The list of the numbers below `count`.
fn counted(rt: &impl Abort, alloc: Global, count: u32) -> SharedList<Token> {
    let mut tokens = succeeds(rt, Vec::with_capacity(alloc, count as usize));
    for number in 0..count {
        succeeds(rt, tokens.push(succeeds(rt, Token::new(alloc, number))));
    }
    succeeds(rt, SharedList::from_vec(alloc, tokens))
}

/// Whether a list has the numbers below `count`, in their order.
fn is_counted(list: &SharedList<Token>, count: u32) -> bool {
    let mut is_counted = list.len() == count as usize;
    for i in 0..list.len() {
        is_counted &= list.get(i).number() as usize == i;
    }
    is_counted
}

/// The number at a place, and how many entries hold it.
fn held_at(list: &SharedList<Token>, i: usize) -> Option<(u32, usize)> {
    if i >= list.len() {
        return None;
    }
    let token = list.get(i);
    Some((token.number(), token.owners()))
}

/// What entries hold at seven places.
type Held = [Option<(u32, usize)>; 7];

fn held(list: &SharedList<Token>, places: [usize; 7]) -> Held {
    places.map(|i| held_at(list, i))
}

/// The first and last place of each leaf of 130 entries, and one in the middle of the second.
const PLACES: [usize; 7] = [0, 63, 64, 65, 127, 128, 129];

/// Writes one entry, and says whether there is such a place.
fn write(list: &mut SharedList<Token>, i: usize, number: u32) -> Result<bool, AllocError> {
    if i >= list.len() {
        return Ok(false);
    }
    let token = Token::new(list.allocator(), number)?;
    list.set(i, token)?;
    Ok(true)
}

/// Sets a run of entries to one number, and says how many entries hold it then.
fn fill(
    rt: &impl Abort,
    list: &mut SharedList<Token>,
    first: usize,
    end: usize,
    number: u32,
) -> usize {
    let token = succeeds(rt, Token::new(list.allocator(), number));
    if first <= end && end <= list.len() {
        succeeds(rt, list.fill(first, end, &token));
    }
    token.owners() - 1
}

/// Shares a list, and tells how many steps that takes at some lengths.
fn share_in_steps<L: Ledger>(
    list: &SharedList<Token>,
    steps: &mut Steps<L>,
) -> Result<SharedList<Token>, AllocError>
    ensures one_leaf { length list.now ≡ 64 → OnOk result (steps.new ≡ steps.old + 1) }
    ensures an_entry_more { length list.now ≡ 65 → OnOk result (steps.new ≡ steps.old + 2) }
    ensures many { length list.now ≡ 1024 → OnOk result (steps.new ≡ steps.old + 16) }
{
    list.share_counted(steps)
}

/// The same with a counter of its own.
fn share_of_ledger<L: Ledger>(
    list: &SharedList<Token>,
    blank: Blank,
) -> Result<SharedList<Token>, AllocError>
    requires name { blank.name ≡ L.name }
    requires parts { blank.parts ≡ L.parts }
    requires some { 0 < blank.parts }
{
    share_in_steps(list, &mut Steps::<L>::new(blank))
}

/// Makes a list of two tokens, and tells how many steps that takes by some flags.
fn choose_in_steps<L: Ledger>(
    alloc: Global,
    flags: &[bool],
    set: &Token,
    unset: &Token,
    steps: &mut Steps<L>,
) -> Result<SharedList<Token>, AllocError>
    ensures none { flags.now ≡ [] → OnOk result (steps.new ≡ steps.old) }
    ensures one_leaf { flags.now ≡ replicate 64 false → OnOk result (steps.new ≡ steps.old + 65) }
    ensures an_entry_more { flags.now ≡ replicate 65 false → OnOk result (steps.new ≡ steps.old + 66) }
    ensures many { flags.now ≡ replicate 1024 false → OnOk result (steps.new ≡ steps.old + 80) }
    ensures one_set { flags.now ≡ true ∷ replicate 1023 false → OnOk result (steps.new ≡ steps.old + 143) }
{
    SharedList::chosen_counted(alloc, flags, set, unset, steps)
}

/// The same with a counter of its own.
fn choose_of_ledger<L: Ledger>(
    alloc: Global,
    flags: &[bool],
    set: &Token,
    unset: &Token,
    blank: Blank,
) -> Result<SharedList<Token>, AllocError>
    requires name { blank.name ≡ L.name }
    requires parts { blank.parts ≡ L.parts }
    requires some { 0 < blank.parts }
{
    choose_in_steps(alloc, flags, set, unset, &mut Steps::<L>::new(blank))
}

// Sizes at the ends of leaves.
static SIZES: [u32; 8] = [0, 1, 63, 64, 65, 128, 130, 1024];

fn has_its_entries(rt: &impl Abort, alloc: Global, size: u32) {
    let list = counted(rt, alloc, size);
    are_equal(rt, &(size, is_counted(&list, size)), &(size, true));
}

#[test]
fn lists_have_their_entries(rt: HostRuntime) {
    for size in SIZES.iter() {
        has_its_entries(&rt, rt.alloc(), *size);
    }
}

static NOT_WRITTEN: [(u32, usize); 7] = [
    (0, 1),
    (63, 1),
    (64, 2),
    (65, 1),
    (127, 1),
    (128, 1),
    (129, 1),
];

static WRITTEN: [(u32, usize); 7] = [
    (0, 1),
    (63, 1),
    (64, 2),
    (1000, 1),
    (1001, 1),
    (128, 1),
    (129, 1),
];

/// Two entries of the second leaf are written in a share.
fn one_leaf_is_copied(rt: &impl Abort, before: &SharedList<Token>) {
    let mut after = succeeds(rt, before.share());
    let written = [write(&mut after, 65, 1000), write(&mut after, 127, 1001)];
    are_equal(rt, &written, &[Ok(true), Ok(true)]);
    let found = [held(before, PLACES), held(&after, PLACES)];
    are_equal(rt, &found, &[NOT_WRITTEN.map(Some), WRITTEN.map(Some)]);
}

#[test]
fn a_write_copies_one_leaf(rt: HostRuntime) {
    let before = counted(&rt, rt.alloc(), 130);
    one_leaf_is_copied(&rt, &before);
}

static FILLED: [(u32, usize); 7] = [
    (0, 2),
    (7, 66),
    (7, 66),
    (7, 66),
    (7, 66),
    (7, 66),
    (129, 2),
];

/// A run is set in a share.
fn whole_leaves_are_shared(rt: &impl Abort, before: &SharedList<Token>) {
    let mut after = succeeds(rt, before.share());
    let holders = fill(rt, &mut after, 63, 129, 7);
    are_equal(rt, &(is_counted(before, 130), holders), &(true, 1 + 64 + 1));
    are_equal(rt, &held(&after, PLACES), &FILLED.map(Some));
}

// The whole leaf in the run is one of 64 entries, which stand in memory once.
#[test]
fn a_run_shares_its_whole_leaves(rt: HostRuntime) {
    let before = counted(&rt, rt.alloc(), 130);
    whole_leaves_are_shared(&rt, &before);
}

/// A list of 257 tokens, all of them the one that is unset but for one.
fn chosen(alloc: Global, set: &Token, unset: &Token) -> Result<SharedList<Token>, AllocError> {
    let mut flags = [false; 257];
    flags[100] = true;
    choose_of_ledger::<Brand>(alloc, &flags, set, unset, Blank::new(1))
}

/// The same list by the lengths of its runs.
fn chosen_in_runs<L: Ledger>(
    alloc: Global,
    set: &Token,
    unset: &Token,
    blank: Blank,
) -> Result<SharedList<Token>, AllocError>
    requires name { blank.name ≡ L.name }
    requires parts { blank.parts ≡ L.parts }
    requires some { 0 < blank.parts }
{
    let mut steps = Steps::<L>::new(blank);
    SharedList::chosen_in_runs_counted(alloc, 257, &[100, 1, 156], set, unset, &mut steps)
}

/// Three whole leaves of the one number are one, and the entries of the leaf with both are apart.
fn has_one_leaf(rt: &impl Abort, list: &SharedList<Token>) {
    are_equal(rt, &list.len(), &257);
    let holders = (8, 1 + 64 + 63 + 1);
    let want = [holders, holders, holders, (7, 2), holders, holders, holders];
    let found = held(list, [0, 63, 64, 100, 127, 255, 256]);
    are_equal(rt, &found, &want.map(Some));
}

#[test]
fn equal_entries_are_one_leaf(rt: HostRuntime) {
    let set = succeeds(&rt, Token::new(rt.alloc(), 7));
    let unset = succeeds(&rt, Token::new(rt.alloc(), 8));
    let list = succeeds(&rt, chosen(rt.alloc(), &set, &unset));
    has_one_leaf(&rt, &list);
}

#[test]
fn equal_entries_of_runs_are_one_leaf(rt: HostRuntime) {
    let set = succeeds(&rt, Token::new(rt.alloc(), 7));
    let unset = succeeds(&rt, Token::new(rt.alloc(), 8));
    let made_in_runs = chosen_in_runs::<Brand>(rt.alloc(), &set, &unset, Blank::new(1));
    has_one_leaf(&rt, &succeeds(&rt, made_in_runs));
}

/// Whether a counted share of a list of 1,024 entries has them in their order.
fn is_shared_counted(list: &SharedList<Token>) -> Result<bool, AllocError> {
    let copy = share_of_ledger::<Brand>(list, Blank::new(1))?;
    Ok(is_counted(&copy, 1024))
}

#[test]
fn a_counted_share_is_equal(rt: HostRuntime) {
    let list = counted(&rt, rt.alloc(), 1024);
    are_equal(&rt, &is_shared_counted(&list), &Ok(true));
}

/// A share is written in a thread, and the list is as it was in another.
fn is_written_apart<R: Abort + Threads>(
    rt: &R,
    mut copy: SharedList<Token>,
    list: &SharedList<Token>,
) {
    let found = thread::join(
        rt,
        move || write(&mut copy, 64, 1000),
        || is_counted(list, 65),
    );
    are_equal(rt, &found, &(Ok(true), true));
}

#[test]
fn lists_move_between_threads(rt: HostRuntime) {
    let list = counted(&rt, rt.alloc(), 65);
    is_written_apart(&rt, succeeds(&rt, list.share()), &list);
}
