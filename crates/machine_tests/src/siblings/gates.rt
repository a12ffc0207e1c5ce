//! Siblings that talk while several workers are at work at once.

ghost use Rattle.std.specs.Prelude.{◌≡◌, ◌≤◌, IfOk, length};

use super::{guests, texts};
use crate::equal::{are_equal, succeeds};
use crate::families::{AHEAD, Ended, end_over, gated};
use crate::guests::with_clones;
use crate::meeting::{MAX_LOOKS, Meeting};
use crate::together::is_whole;
use crossbeam_utils::Backoff;
use host_workers::{Finish, Gate, MAX_WORKERS, Point};
use std::alloc::{AllocError, Global};
use std::process::Abort;
use std::sync::Wait;
use std::sync::atomic::{AtomicU64, Ordering};
use std::thread::Threads;
use wire_fates::{Fate, Scripted, Seeded, Wire};
use world_core::Reason;

/// Two workers, each of which takes a child before any of them runs one, bring a family to this end.
fn two_meet<R: AllocGlobal + Threads + Wait + Abort + Sync>(
    rt: &R,
    words: &[u32],
    clones: u32,
    text: &[u8],
)
    requires words { length words.now ≤ 64 }
    requires clones { clones ≤ 4096 }
{
    let meeting = Meeting::new();
    let mut wires = [Seeded::new(), Seeded::new()];
    let settings = gated(&meeting, 1000, AHEAD);
    let ended = end_over(rt, words, with_clones(clones), &mut wires, &settings);
    are_equal(rt, &meeting.was_held(), &true);
    is_whole(rt, rt.alloc(), &ended, text);
}

#[test]
fn siblings_swap_at_once(rt: HostRuntime) {
    two_meet(&rt, &guests::SIBLING_SWAP, 2, texts::SIBLING_SWAP);
}

#[test]
fn words_are_sent_and_received_at_once(rt: HostRuntime) {
    two_meet(&rt, &guests::IN_ORDER, 2, texts::IN_ORDER);
}

#[test]
fn a_word_goes_round_between_two_workers(rt: HostRuntime) {
    let text = succeeds(&rt, texts::ring(rt.alloc(), 4, 50));
    two_meet(&rt, &guests::SMALL_RING, 4, text.as_bytes());
}

/// What holds the first worker that takes a child until another finds no machine ready, so that all other children wait, or
/// has come to its end.
#[derive(Drop)]
struct LastOne {
    /// A worker is held, or was.
    held: AtomicU64,
    /// A worker found no machine ready, or came to its end, while one was held.
    idle: AtomicU64,
}

impl LastOne {
    fn new() -> LastOne {
        LastOne {
            held: AtomicU64::new(0),
            idle: AtomicU64::new(0),
        }
    }

    /// Whether a worker found no machine ready, or came to its end, while another was held.
    fn was_seen(&self) -> bool {
        self.idle.load(Ordering::SeqCst) > 0
    }

    fn wait(&self) {
        let backoff = Backoff::new();
        for _ in 0..MAX_LOOKS {
            if self.was_seen() {
                return;
            }
            backoff.snooze();
        }
    }
}

impl Gate for LastOne {
    fn at<R: Wait>(&self, _rt: &R, _worker: u32, point: Point) {
        match point {
            Point::Took(1) => {
                if self.held.swap(1, Ordering::SeqCst) == 0 {
                    self.wait();
                }
            }
            Point::Idle | Point::Done => {
                self.idle
                    .fetch_or(self.held.load(Ordering::SeqCst), Ordering::SeqCst);
            }
            Point::Took(_) => {}
        }
    }
}

/// How a family of these words ends whose first child is held until all others wait.
fn held_to_the_last<R: AllocGlobal + Threads + Wait + Abort + Sync, W: Wire + Send>(
    rt: &R,
    words: &[u32],
    clones: u32,
    wires: &mut [W],
) -> Ended
    requires words { length words.now ≤ 64 }
    requires clones { clones ≤ 4096 }
    requires wires { (1 ≤ length wires.old) × (length wires.old ≤ MAX_WORKERS) }
{
    let last = LastOne::new();
    let settings = gated(&last, 1000, 0);
    let ended = end_over(rt, words, with_clones(clones), wires, &settings);
    are_equal(rt, &last.was_seen(), &true);
    ended
}

// It is idle, and not stuck, as long as the first child is on lease.
#[test]
fn others_wait_for_the_first(rt: HostRuntime) {
    let mut wires = [Seeded::new(), Seeded::new()];
    let ended = held_to_the_last(&rt, &guests::LATE_WORD, 2, &mut wires);
    is_whole(&rt, rt.alloc(), &ended, texts::LATE_WORD);
}

#[test]
fn sixty_three_wait_for_the_first(rt: HostRuntime) {
    let text = succeeds(&rt, texts::ring(rt.alloc(), 64, 16));
    let mut wires = [Seeded::new(), Seeded::new()];
    let ended = held_to_the_last(&rt, &guests::RING, 64, &mut wires);
    is_whole(&rt, rt.alloc(), &ended, text.as_bytes());
}

/// A wire that gives one reply and then loses 64.
fn losing_wire(alloc: Global) -> Result<Scripted, AllocError> {
    let mut fates = vec![in alloc; Fate::Give(0)]?;
    for _ in 0..64 {
        fates.push(Fate::Lose(0))?;
    }
    Ok(Scripted::new(fates))
}

/// So many of these.
fn losing(alloc: Global, count: u32) -> Result<Vec<Scripted>, AllocError>
    ensures { IfOk result (λ wires. length wires.items ≡ count) }
{
    let mut wires = Vec::new(alloc);
    for number in 0..count {
        let _ = number;
        wires.push(losing_wire(alloc)?)?;
    }
    Ok(wires)
}

/// So many workers stop, since one has lost its wire, and nothing has come of the family. The first child wants two pages
/// more than its code, and the other waits for its word.
fn is_lost_by<R: AllocGlobal + Threads + Wait + Abort + Sync>(rt: &R, count: u32)
    requires { (1 ≤ count) × (count ≤ MAX_WORKERS) }
{
    let mut wires = succeeds(rt, losing(rt.alloc(), count));
    let ended = held_to_the_last(rt, &guests::LATE_WORD, 2, &mut wires);
    let is_stopped = matches!(ended.finish, Finish::Stopped(Reason::Wire));
    are_equal(rt, &[is_stopped, ended.outcome.is_none()], &[true; 2]);
}

#[test]
fn a_worker_is_lost_while_a_sibling_waits(rt: HostRuntime) {
    is_lost_by(&rt, 2);
    is_lost_by(&rt, 8);
}
