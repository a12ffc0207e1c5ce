//! Families that end the same, whoever runs them when.

ghost use Rattle.std.specs.Prelude.{◌≤◌, length};

use crate::equal::{are_equal, succeeds};
use crate::families::{Ended, end_by, heard_of, is_given_after_a_join, is_left, is_stopped};
use crate::guests::{
    GRANDCHILD, JOIN_BYTES, KILL_BUSY_CHILDREN, KILL_THEN_JOIN, LONG_CHAIN, THOUSAND_CHILDREN,
    TWO_CHILDREN, with_clones,
};
use crate::texts;
use forest_model::Options;
use host_workers::{Finish, MAX_WORKERS};
use io_edge::MemSink;
use run_report::{Outcome, report_into};
use std::alloc::Global;
use std::process::Abort;
use std::sync::Wait;
use std::thread::Threads;

/// The room of a sink for a report.
const ROOM: usize = 1 << 20;

/// An outcome is reported so.
fn is_reported(rt: &impl Abort, alloc: Global, outcome: &Outcome, text: &[u8]) {
    let mut sink = succeeds(rt, MemSink::new(alloc, 4096, ROOM, Vec::new(alloc)));
    let put = report_into(outcome, &mut sink);
    are_equal(rt, &(put, sink.bytes() == text), &(Ok(()), true));
}

/// A family came to an end, which is reported so.
pub(crate) fn ends_with(rt: &impl Abort, alloc: Global, ended: &Ended, text: &[u8]) {
    match &ended.outcome {
        Some(outcome) => is_reported(rt, alloc, outcome, text),
        None => panic!(rt; "the root lives"),
    }
}

/// The root has ended, or its family is stuck, as the report tells.
fn has_finished(rt: &impl Abort, finish: &Finish, text: &[u8]) {
    let is_stuck = text.starts_with(b"machine 0 stuck ");
    let found = [
        matches!(finish, Finish::Over),
        matches!(finish, Finish::Stuck),
    ];
    are_equal(rt, &found, &[!is_stuck, is_stuck]);
}

/// So many workers with such a first stretch bring a family of these words to this end.
fn family_ends_with<R: AllocGlobal + Threads + Wait + Abort + Sync>(
    rt: &R,
    words: &[u32],
    options: Options,
    workers: u32,
    slice: u32,
    text: &[u8],
)
    requires words { length words.now ≤ 64 }
    requires least { 1 ≤ options.limit }
    requires most { options.limit ≤ 1_000_000 }
    requires clones { options.allot ≤ 4096 }
    requires workers { (1 ≤ workers) × (workers ≤ MAX_WORKERS) }
{
    let ended = end_by(rt, words, options, workers, slice);
    has_finished(rt, &ended.finish, text);
    ends_with(rt, rt.alloc(), &ended, text);
}

/// How many workers there are, and the steps of their first stretch: each number with each stretch.
#[rattlefmt::skip]
pub(crate) static ALL: [(u32, u32); 24] = [
    (1, 1), (1, 3), (1, 1_000), (1, 1_000_000),
    (2, 1), (2, 3), (2, 1_000), (2, 1_000_000),
    (3, 1), (3, 3), (3, 1_000), (3, 1_000_000),
    (4, 1), (4, 3), (4, 1_000), (4, 1_000_000),
    (8, 1), (8, 3), (8, 1_000), (8, 1_000_000),
    (64, 1), (64, 3), (64, 1_000), (64, 1_000_000),
];

/// The same for a large family, with one stretch for each number: the more they are, the longer.
pub(crate) static SOME: [(u32, u32); 6] = [
    (1, 1),
    (2, 1),
    (3, 3),
    (4, 3),
    (8, 1_000),
    (64, 1_000_000),
];

/// Workers bring a family of these words to this end, so many with such a first stretch each time.
pub(crate) fn each_ends_with<R: AllocGlobal + Threads + Wait + Abort + Sync>(
    rt: &R,
    words: &[u32],
    options: Options,
    runs: &[(u32, u32)],
    text: &[u8],
)
    requires words { length words.now ≤ 64 }
    requires least { 1 ≤ options.limit }
    requires most { options.limit ≤ 1_000_000 }
    requires clones { options.allot ≤ 4096 }
{
    for (workers, slice) in runs {
        let workers = (*workers).clamp(1, 64);
        family_ends_with(rt, words, options, workers, *slice, text);
    }
}

#[test]
fn two_children(rt: HostRuntime) {
    each_ends_with(
        &rt,
        &TWO_CHILDREN,
        with_clones(2),
        &ALL,
        texts::TWO_CHILDREN,
    );
}

#[test]
fn thousand_children(rt: HostRuntime) {
    let text = succeeds(&rt, texts::thousand_children(rt.alloc()));
    each_ends_with(
        &rt,
        &THOUSAND_CHILDREN,
        with_clones(1000),
        &SOME,
        text.as_bytes(),
    );
}

#[test]
fn long_chain(rt: HostRuntime) {
    let text = succeeds(&rt, texts::long_chain(rt.alloc(), 200));
    each_ends_with(&rt, &LONG_CHAIN, with_clones(200), &SOME, text.as_bytes());
}

#[test]
fn grandchild(rt: HostRuntime) {
    each_ends_with(&rt, &GRANDCHILD, with_clones(2), &ALL, texts::GRANDCHILD);
}

#[test]
fn join_bytes(rt: HostRuntime) {
    each_ends_with(&rt, &JOIN_BYTES, with_clones(2), &ALL, texts::JOIN_BYTES);
}

#[test]
fn kill_then_join(rt: HostRuntime) {
    each_ends_with(
        &rt,
        &KILL_THEN_JOIN,
        with_clones(2),
        &ALL,
        texts::KILL_THEN_JOIN,
    );
}

#[test]
fn kill_busy_children(rt: HostRuntime) {
    each_ends_with(
        &rt,
        &KILL_BUSY_CHILDREN,
        with_clones(2),
        &ALL,
        texts::KILL_THEN_JOIN,
    );
}

// The one child wants its first page, and no other is asked for.
#[test]
fn a_reply_that_is_told_is_heard(rt: HostRuntime) {
    are_equal(&rt, &heard_of(&rt), &[None, Some((0, 0)), None]);
}

#[test]
fn a_stopped_board_hands_out_nothing(rt: HostRuntime) {
    are_equal(&rt, &is_stopped(&rt), &true);
}

#[test]
fn passes_are_split_in_two_threads(rt: HostRuntime) {
    are_equal(&rt, &is_left(&rt, rt.alloc()), &true);
}

#[test]
fn a_machine_is_given_back_after_a_join(rt: HostRuntime) {
    are_equal(&rt, &is_given_after_a_join(&rt, rt.alloc()), &true);
}
