//! Several workers are at work at once, and several wires.

ghost use Rattle.std.specs.Prelude.{◌≡◌, length};

use crate::equal::{are_equal, succeeds};
use crate::families::{AHEAD, Ended, end_over, gated, ungated};
use crate::guests::{TWO_CHILDREN, with_clones};
use crate::host_workers_tests::ends_with;
use crate::meeting::{Meeting, MeetingWire};
use crate::texts;
use host_workers::Finish;
use std::alloc::Global;
use std::process::Abort;
use std::sync::Wait;
use std::thread::Threads;
use wire_fates::{Fate, Scripted, Seeded};
use world_core::Reason;

/// The root has ended, and this is the report of its family.
pub(crate) fn is_whole(rt: &impl Abort, alloc: Global, ended: &Ended, text: &[u8]) {
    are_equal(rt, &matches!(ended.finish, Finish::Over), &true);
    ends_with(rt, alloc, ended, text);
}

#[test]
fn two_workers_run_at_once(rt: HostRuntime) {
    let meeting = Meeting::new();
    let mut wires = [Seeded::new(), Seeded::new()];
    let settings = gated(&meeting, 1000, AHEAD);
    let ended = end_over(&rt, &TWO_CHILDREN, with_clones(2), &mut wires, &settings);
    are_equal(&rt, &meeting.was_held(), &true);
    is_whole(&rt, rt.alloc(), &ended, texts::TWO_CHILDREN);
}

#[test]
fn two_wires_are_asked_at_once(rt: HostRuntime) {
    let meeting = Meeting::new();
    let mut wires = [MeetingWire::new(&meeting, 0), MeetingWire::new(&meeting, 1)];
    let settings = ungated(1000, AHEAD);
    let ended = end_over(&rt, &TWO_CHILDREN, with_clones(2), &mut wires, &settings);
    are_equal(&rt, &meeting.was_held(), &true);
    is_whole(&rt, rt.alloc(), &ended, texts::TWO_CHILDREN);
}

/// A wire that loses 64 replies.
fn losing(rt: &impl Abort, alloc: Global) -> Scripted {
    Scripted::new(succeeds(rt, vec![in alloc; Fate::Lose(0); 64]))
}

#[test]
fn lost_wires_stop_the_world(rt: HostRuntime) {
    let mut wires = [losing(&rt, rt.alloc()), losing(&rt, rt.alloc())];
    stop_the_world(&rt, &mut wires);
}

fn stop_the_world<R: AllocGlobal + Threads + Wait + Abort + Sync>(rt: &R, wires: &mut [Scripted])
    requires { length wires.old ≡ 2 }
{
    let ended = end_over(
        rt,
        &TWO_CHILDREN,
        with_clones(2),
        wires,
        &ungated(1000, AHEAD),
    );
    let is_stopped = matches!(ended.finish, Finish::Stopped(Reason::Wire));
    are_equal(rt, &[is_stopped, ended.outcome.is_none()], &[true; 2]);
}
