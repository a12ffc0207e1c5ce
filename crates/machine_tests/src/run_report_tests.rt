//! What no clause says of names and reports: their texts, and that memory does not want where there is some.

ghost use Rattle.std.specs.Prelude.{◌≡◌, ◌≢◌, ◌≤◌, Some, IfOk};
ghost use Rattle.std.specs.Option.{option_copied};
ghost use Rattle.std.specs.BTreeMap.{get};
ghost use Rattle.machine_names.specs.NameOrder.{path_cmp};

use crate::equal::{are_equal, succeeds};
use crate::machine_names_tests::has_text;
use forest_model::{Ending, Handed};
use fork_port::MAX_HANDED;
use io_edge::MemSink;
use machine_names::Name;
use run_report::{Line, Outcome, OutcomeRoom, report_into};
use std::alloc::{AllocFailed, Global};
use std::collections::BTreeMap;
use std::process::Abort;

/// What a map has at a name after 1 was put at another.
fn got_after(
    map: &mut BTreeMap<Name, u32>,
    at: Name,
    name: &Name,
) -> Result<Option<u32>, AllocFailed<(Name, u32)>>
    ensures here { IfOk result (λ got. at ≡ name.now → got ≡ Some 1) }
    ensures apart { IfOk result (λ got. at ≢ name.now → got ≡ get path_cmp map.old name.now) }
{
    map.insert(at, 1)?;
    Ok(map.get(name).copied())
}

#[test]
fn names_are_keys(rt: HostRuntime) {
    let mut map = BTreeMap::new(rt.alloc());
    are_keys(&rt, rt.alloc(), &mut map);
}

fn are_keys(rt: &impl Abort, alloc: Global, map: &mut BTreeMap<Name, u32>) {
    let found = [got_there(rt, alloc, map), got_beside(rt, alloc, map)];
    are_equal(rt, &found, &[Some(1), None]);
}

/// What a map has at a name after 1 was put there.
fn got_there(rt: &impl Abort, alloc: Global, map: &mut BTreeMap<Name, u32>) -> Option<u32> {
    let root = succeeds(rt, Name::root(alloc));
    let child = succeeds(rt, root.child(alloc, 1, 2));
    let copy = succeeds(rt, child.copy());
    succeeds(rt, got_after(map, copy, &child))
}

/// What a map has at a name after 1 was put at the root's.
fn got_beside(rt: &impl Abort, alloc: Global, map: &mut BTreeMap<Name, u32>) -> Option<u32> {
    let root = succeeds(rt, Name::root(alloc));
    let other = succeeds(rt, root.child(alloc, 1, 3));
    succeeds(rt, got_after(map, root, &other))
}

#[test]
fn names_have_texts(rt: HostRuntime) {
    let alloc = rt.alloc();
    let root = succeeds(&rt, Name::root(alloc));
    let child = succeeds(&rt, root.child(alloc, 1, 2));
    let mut grandchild = succeeds(&rt, child.child(alloc, 30, 4_294_967_295));
    have_texts(&rt, alloc, &root, &child, &mut grandchild);
}

fn have_texts(rt: &impl Abort, alloc: Global, root: &Name, child: &Name, grandchild: &mut Name) {
    has_text(rt, alloc, root, "0");
    has_text(rt, alloc, grandchild, "0.1.2.30.4294967295");
    let told = [
        grandchild.is_below(root, 1),
        grandchild.is_below(root, 2),
        grandchild.is_below_all(child),
        child.is_below_all(child),
    ];
    are_equal(rt, &told, &[true, false, true, false]);
    let last = grandchild.pop();
    let want = (Some((30, 4_294_967_295)), true);
    are_equal(rt, &(last, &*grandchild == child), &want);
}

/// An outcome is reported so.
fn is_reported(rt: &impl Abort, alloc: Global, outcome: &Outcome, text: &[u8]) {
    let mut sink = succeeds(rt, MemSink::new(alloc, 7, 1000, Vec::new(alloc)));
    let put = report_into(outcome, &mut sink);
    are_equal(rt, &(put, sink.bytes()), &(Ok(()), text));
}

/// An outcome.
fn outcome_of(
    rt: &impl Abort,
    name: Name,
    ending: Option<Ending>,
    steps: u64,
    output: Vec<u8>,
    log: Vec<Line>,
    alloc: Global,
) -> Outcome {
    let room = succeeds(rt, OutcomeRoom::new(alloc));
    Outcome::new(room, name, ending, steps, output, log)
}

/// An outcome with no output.
fn silent(
    rt: &impl Abort,
    name: Name,
    ending: Ending,
    steps: u64,
    log: Vec<Line>,
    alloc: Global,
) -> Outcome {
    outcome_of(rt, name, Some(ending), steps, Vec::new(alloc), log, alloc)
}

/// A log of a killed ticket.
fn log_of(rt: &impl Abort, alloc: Global, name: &Name, ticket: u32, killed: u32) -> Vec<Line> {
    let mut log = Vec::new(alloc);
    let name = succeeds(rt, name.copy());
    succeeds(rt, log.push(Line::ticket(name, ticket, killed)));
    log
}

/// Moves the lines of a child to a log.
fn join(rt: &impl Abort, log: &mut Vec<Line>, child: Outcome) {
    succeeds(rt, log.reserve(child.line_count()));
    child.into_log(log);
}

#[test]
fn one_machine_puts_out_its_bytes(rt: HostRuntime) {
    let alloc = rt.alloc();
    let root = succeeds(&rt, Name::root(alloc));
    let name = succeeds(&rt, root.child(alloc, 1, 2));
    let output = succeeds(&rt, Vec::from_slice(alloc, b"A"));
    let outcome = outcome_of(
        &rt,
        name,
        Some(Ending::Limit),
        10,
        output,
        Vec::new(alloc),
        alloc,
    );
    is_reported(
        &rt,
        alloc,
        &outcome,
        b"machine 0.1.2 limit steps 10 out 1\nA\n",
    );
}

#[test]
fn machines_that_wait_are_stuck(rt: HostRuntime) {
    let alloc = rt.alloc();
    let root = succeeds(&rt, Name::root(alloc));
    let child = succeeds(&rt, root.child(alloc, 1, 1));
    let child = outcome_of(&rt, child, None, 2, Vec::new(alloc), Vec::new(alloc), alloc);
    let mut log = Vec::new(alloc);
    join(&rt, &mut log, child);
    let output = succeeds(&rt, Vec::from_slice(alloc, b"A"));
    let outcome = outcome_of(&rt, root, None, 4, output, log, alloc);
    is_reported(
        &rt,
        alloc,
        &outcome,
        b"machine 0 stuck steps 4 out 1\nA\nmachine 0.1.1 stuck steps 2 out 0\n\n",
    );
}

/// What the children of the family end with, by their number.
static VALUES: [(u32, u32); 2] = [(1, 41), (2, 42)];

/// A child of the family, by its number.
fn child_of(rt: &impl Abort, alloc: Global, root: &Name, index: u32, value: u32) -> Outcome {
    let name = succeeds(rt, root.child(alloc, 1, index));
    silent(
        rt,
        name,
        Ending::Exit(value, Handed::none()),
        16,
        Vec::new(alloc),
        alloc,
    )
}

/// The family of a root and two children.
fn family(rt: &impl Abort, alloc: Global) -> Outcome {
    let root = succeeds(rt, Name::root(alloc));
    let mut log = Vec::new(alloc);
    for (index, value) in VALUES.iter() {
        join(rt, &mut log, child_of(rt, alloc, &root, *index, *value));
    }
    silent(rt, root, Ending::Exit(41, Handed::none()), 21, log, alloc)
}

#[test]
fn children_come_after_their_parent(rt: HostRuntime) {
    let outcome = family(&rt, rt.alloc());
    is_reported(&rt, rt.alloc(), &outcome, FAMILY);
}

/// With which value a machine exits that has killed a ticket of two children, or none where it meets its limit, after how
/// many steps, and what is reported of it.
static KILLED: [(Option<u32>, u64, &[u8]); 2] = [
    (
        None,
        10,
        b"machine 0 limit steps 10 out 0\n\nticket 0.1 killed 2\n",
    ),
    (
        Some(4_294_967_295),
        21,
        b"machine 0 exit 4294967295 steps 21 out 0\n\nticket 0.1 killed 2\n",
    ),
];

#[test]
fn killed_tickets_are_told(rt: HostRuntime) {
    for (value, steps, text) in KILLED.iter() {
        is_told(&rt, rt.alloc(), ending_of(*value), *steps, text);
    }
}

fn ending_of(value: Option<u32>) -> Ending {
    match value {
        Some(value) => Ending::Exit(value, Handed::none()),
        None => Ending::Limit,
    }
}

/// Bytes that a machine hands over, and what is reported of it.
static HANDED: [(&[u8], &[u8]); 3] = [
    (b"", b"machine 0 exit 7 steps 7 out 0\n\n"),
    (b"\x0a", b"machine 0 exit 7 steps 7 out 0 handed 0a\n\n"),
    (
        b"\xb7\x22\x00\x10",
        b"machine 0 exit 7 steps 7 out 0 handed b7220010\n\n",
    ),
];

#[test]
fn bytes_that_are_handed_over_are_told(rt: HostRuntime) {
    for (bytes, text) in HANDED.iter() {
        hands_over(&rt, rt.alloc(), bytes, text);
    }
}

fn hands_over(rt: &impl Abort, alloc: Global, bytes: &[u8], text: &[u8]) {
    assert!(rt; bytes.len() <= MAX_HANDED);
    let root = succeeds(rt, Name::root(alloc));
    let ending = Ending::Exit(7, Handed::of(bytes));
    let outcome = silent(rt, root, ending, 7, Vec::new(alloc), alloc);
    is_reported(rt, alloc, &outcome, text);
}

fn is_told(rt: &impl Abort, alloc: Global, ending: Ending, steps: u64, text: &[u8]) {
    let root = succeeds(rt, Name::root(alloc));
    let log = log_of(rt, alloc, &root, 1, 2);
    let outcome = silent(rt, root, ending, steps, log, alloc);
    is_reported(rt, alloc, &outcome, text);
}

/// A grandchild that has killed a ticket.
fn grandchild_of(rt: &impl Abort, alloc: Global, child: &Name) -> Outcome {
    let name = succeeds(rt, child.child(alloc, 1, 1));
    let log = log_of(rt, alloc, &name, 7, 3);
    silent(rt, name, Ending::Exit(17, Handed::none()), 29, log, alloc)
}

/// Its parent, which has killed one too.
fn two_levels(rt: &impl Abort, alloc: Global, child: Name) -> Outcome {
    let mut log = Vec::new(alloc);
    join(rt, &mut log, grandchild_of(rt, alloc, &child));
    let name = succeeds(rt, child.copy());
    succeeds(rt, log.push(Line::ticket(name, 2, 1)));
    silent(rt, child, Ending::Limit, 35, log, alloc)
}

/// The root of those, which has killed one before.
fn three_levels(rt: &impl Abort, alloc: Global) -> Outcome {
    let root = succeeds(rt, Name::root(alloc));
    let mut log = log_of(rt, alloc, &root, 3, 5);
    let child = succeeds(rt, root.child(alloc, 1, 1));
    join(rt, &mut log, two_levels(rt, alloc, child));
    silent(rt, root, Ending::Exit(17, Handed::none()), 26, log, alloc)
}

#[test]
fn three_levels_with_killed_tickets(rt: HostRuntime) {
    let outcome = three_levels(&rt, rt.alloc());
    are_equal(&rt, &outcome.line_count(), &6);
    is_reported(
        &rt,
        rt.alloc(),
        &outcome,
        b"machine 0 exit 17 steps 26 out 0\n\nticket 0.3 killed 5\nmachine 0.1.1 limit steps 35 out 0\n\nmachine 0.1.1.1.1 exit 17 steps 29 out 0\n\nticket 0.1.1.1.1.7 killed 3\nticket 0.1.1.2 killed 1\n",
    );
}

/// The room of a sink for a report.
const ROOM: usize = 1 << 20;

/// The sink after a report was put out on it, which takes so many bytes a put, and has a fault at this one.
fn put_out(rt: &impl Abort, alloc: Global, outcome: &Outcome, most: usize, fails: u64) -> MemSink
    requires { 1 ≤ most }
{
    let faults = succeeds(rt, vec![in alloc; fails]);
    let mut sink = succeeds(rt, MemSink::new(alloc, most, ROOM, faults));
    let _ = report_into(outcome, &mut sink);
    sink
}

/// The report of the family, of 110 bytes.
static FAMILY: &[u8] =
    b"machine 0 exit 41 steps 21 out 0\n\nmachine 0.1.1 exit 41 steps 16 out 0\n\nmachine 0.1.2 exit 42 steps 16 out 0\n\n";

/// How many bytes a sink takes a put, which put fails, and how many bytes of a report are out after how many puts.
type Cut = (usize, u64, usize, u64);

/// The same of that report. It goes out in one piece, since it is shorter than the buffer.
static CUTS: [Cut; 18] = [
    (10, 0, 110, 11),
    (10, 1, 0, 1),
    (10, 2, 10, 2),
    (10, 3, 20, 3),
    (10, 4, 30, 4),
    (10, 5, 40, 5),
    (10, 6, 50, 6),
    (10, 7, 60, 7),
    (10, 8, 70, 8),
    (10, 9, 80, 9),
    (10, 10, 90, 10),
    (10, 11, 100, 11),
    (1, 0, 110, 110),
    (1, 1, 0, 1),
    (1, 36, 35, 36),
    (1, 110, 109, 110),
    (1000, 0, 110, 1),
    (1000, 1, 0, 1),
];

#[test]
fn a_fault_leaves_a_prefix(rt: HostRuntime) {
    let outcome = family(&rt, rt.alloc());
    is_cut_at_each_fault(&rt, rt.alloc(), &outcome, FAMILY, &CUTS);
}

fn is_cut_at_each_fault(
    rt: &impl Abort,
    alloc: Global,
    outcome: &Outcome,
    text: &[u8],
    cuts: &[Cut],
) {
    for cut in cuts {
        is_cut_by(rt, alloc, outcome, text, cut);
    }
}

/// So many bytes of a text are out, its first, after so many puts.
fn is_cut_by(rt: &impl Abort, alloc: Global, outcome: &Outcome, text: &[u8], cut: &Cut) {
    let (most, fails, length, calls) = *cut;
    assert!(rt; most > 0);
    let sink = put_out(rt, alloc, outcome, most, fails);
    let is_prefix = text.starts_with(sink.bytes());
    let found = (sink.bytes().len(), sink.calls(), is_prefix);
    are_equal(rt, &found, &(length, calls, true));
}

/// A machine that killed a ticket of two children a thousand times: a line of 32 bytes, and a thousand of 20.
fn many_lines(rt: &impl Abort, alloc: Global) -> Outcome {
    let root = succeeds(rt, Name::root(alloc));
    let mut log = Vec::new(alloc);
    for _ in 0..1000 {
        let name = succeeds(rt, root.copy());
        succeeds(rt, log.push(Line::ticket(name, 1, 2)));
    }
    silent(rt, root, Ending::Limit, 10, log, alloc)
}

#[test]
fn many_lines_go_out_in_few_puts(rt: HostRuntime) {
    let outcome = many_lines(&rt, rt.alloc());
    let sink = put_out(&rt, rt.alloc(), &outcome, 1 << 16, 0);
    are_equal(&rt, &(sink.bytes().len(), sink.calls()), &(20_032, 3));
}

/// The line of a machine that put out ten thousand bytes.
static LONG: &[u8] = b"machine 0 limit steps 10 out 10000\n";

/// The report of that machine with this output.
fn long_text(rt: &impl Abort, alloc: Global, output: &[u8]) -> Vec<u8> {
    let mut text = succeeds(rt, Vec::from_slice(alloc, LONG));
    succeeds(rt, text.extend_from_slice(output));
    succeeds(rt, text.push(b'\n'));
    text
}

/// The same of that report: the line, the output as it lies, and the newline.
static LONG_CUTS: [Cut; 4] = [
    (65_536, 0, 10_036, 3),
    (65_536, 1, 0, 1),
    (65_536, 2, 35, 2),
    (65_536, 3, 10_035, 3),
];

#[test]
fn a_long_output_goes_out_as_it_lies(rt: HostRuntime) {
    let alloc = rt.alloc();
    let output = succeeds(&rt, vec![in alloc; b'A'; 10_000]);
    let text = long_text(&rt, alloc, &output);
    let root = succeeds(&rt, Name::root(alloc));
    let outcome = outcome_of(
        &rt,
        root,
        Some(Ending::Limit),
        10,
        output,
        Vec::new(alloc),
        alloc,
    );
    is_cut_at_each_fault(&rt, alloc, &outcome, &text, &LONG_CUTS);
}

/// How deep the chain is whose report is cut.
const DEEP: u32 = 512;

/// A root that has joined a chain of machines, each of which had one child.
fn chain(rt: &impl Abort, alloc: Global) -> Outcome {
    let mut log = Vec::new(alloc);
    add_chain(rt, alloc, &mut log);
    let root = succeeds(rt, Name::root(alloc));
    silent(rt, root, Ending::Exit(0, Handed::none()), 19, log, alloc)
}

/// Adds the lines of the machines below the root.
fn add_chain(rt: &impl Abort, alloc: Global, log: &mut Vec<Line>) {
    let mut name = succeeds(rt, Name::root(alloc));
    for _ in 0..DEEP {
        name = succeeds(rt, name.child(alloc, 1, 1));
        join(rt, log, ended(rt, alloc, &name));
    }
}

/// A machine of the chain that has ended.
fn ended(rt: &impl Abort, alloc: Global, name: &Name) -> Outcome {
    let name = succeeds(rt, name.copy());
    silent(
        rt,
        name,
        Ending::Exit(0, Handed::none()),
        19,
        Vec::new(alloc),
        alloc,
    )
}

/// Its report fills the buffer many times, and a put ends anywhere in a name.
#[test]
fn a_deep_report_is_cut_at_each_put(rt: HostRuntime) {
    let outcome = chain(&rt, rt.alloc());
    let whole = put_out(&rt, rt.alloc(), &outcome, ROOM, 0);
    is_cut_at_each(&rt, rt.alloc(), &outcome, &whole);
}

fn is_cut_at_each(rt: &impl Abort, alloc: Global, outcome: &Outcome, whole: &MemSink) {
    assert!(rt; whole.calls() > 60);
    for before in 0..whole.calls() {
        is_cut_where(rt, alloc, outcome, whole, before + 1);
    }
}

/// Of that report, where this put fails: the put that failed is the last, and what is out is a prefix of the report.
fn is_cut_where(rt: &impl Abort, alloc: Global, outcome: &Outcome, whole: &MemSink, fails: u64) {
    let sink = put_out(rt, alloc, outcome, ROOM, fails);
    let is_shorter = sink.bytes().len() < whole.bytes().len();
    let is_prefix = whole.bytes().starts_with(sink.bytes());
    are_equal(
        rt,
        &(sink.calls(), is_shorter, is_prefix),
        &(fails, true, true),
    );
}
