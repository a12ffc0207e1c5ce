//! Two workers of `run` are at work at once: each is held at the first child that it takes until both have taken one, and
//! each wire at its first reply until both were asked for one.

use crate::equal::{are_equal, succeeds};
use crate::generated::wires_of;
use crate::meeting::{Meeting, MeetingWire};
use crate::tests::{TWO_CHILDREN_REPORT, answer_of, shelf_of_two, sink_of, words_of};
use host_workers::{Gate, OpenGate};
use io_edge::MemSink;
use snow_commands::Status;
use std::alloc::Global;
use std::process::Abort;
use std::sync::Wait;
use std::thread::Threads;
use wire_fates::Wire;

/// Compares an answer with code 0, and what is out with the report of two children.
fn compare<R: Abort>(rt: &R, found: &Status, sink: &MemSink) {
    are_equal(rt, &(found.code, sink.bytes()), &(0, TWO_CHILDREN_REPORT));
}

/// Expects that two workers write the report of two children, over these wires.
fn writes_the_report<
    R: AllocGlobal + Threads + Wait + Sync + Abort,
    W: Wire + Send,
    G: Gate + Sync,
>(rt: &R, wires: &mut Vec<W>, gate: &G) {
    let words = words_of(rt, rt.alloc(), "run guest --clones 2 --workers 2");
    let mut shelf = shelf_of_two(rt, rt.alloc());
    let mut sink = sink_of(rt, rt.alloc(), 0);
    let found = answer_of(rt, &words, &mut shelf, &mut sink, wires, gate);
    compare(rt, &found, &sink);
}

#[test]
fn two_workers_run_at_once(rt: HostRuntime) {
    let meeting = Meeting::new(2);
    let mut wires = wires_of(&rt, rt.alloc(), 2);
    writes_the_report(&rt, &mut wires, &meeting);
    are_equal(&rt, &meeting.was_held(), &true);
}

/// Two wires that meet.
fn meeting_wires<'a>(rt: &impl Abort, alloc: Global, meeting: &'a Meeting) -> Vec<MeetingWire<'a>> {
    let mut wires = Vec::new(alloc);
    succeeds(rt, wires.push(MeetingWire::new(meeting, 0)));
    succeeds(rt, wires.push(MeetingWire::new(meeting, 1)));
    wires
}

#[test]
fn two_wires_are_asked_at_once(rt: HostRuntime) {
    let meeting = Meeting::new(2);
    let mut wires = meeting_wires(&rt, rt.alloc(), &meeting);
    writes_the_report(&rt, &mut wires, &OpenGate);
    are_equal(&rt, &meeting.was_held(), &true);
}
