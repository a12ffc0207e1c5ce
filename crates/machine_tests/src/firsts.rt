//! Families in which each page that was claimed for the first time is told, and no other is.

ghost use Rattle.std.specs.Prelude.{◌≤◌, length};

use crate::equal::{are_equal, succeeds};
use crate::families::{board_of, seeded, ungated};
use crate::guests::{GRANDCHILD, LONG_CHAIN, THOUSAND_CHILDREN, TWO_CHILDREN, with_clones};
use host_workers::{Finish, MAX_WORKERS, Site, run_hosts};
use image_depot::{Depot, Sent};
use page_claims::Claims;
use std::alloc::Global;
use std::marker::Sync;
use std::process::Abort;
use std::sync::Wait;
use std::thread::Threads;
use world_core::World;

/// How many images have bits. Each has 64 places, so it has a word.
const IMAGES: u32 = 256;

/// More replies than any of these families tells.
const MANY: usize = 4096;

/// How the work on a family ended, and a word for each image: the pages that were claimed first, and those that were told.
#[derive(Drop)]
struct Claimed {
    finish: Finish,
    firsts: Vec<u64>,
    told: Vec<u64>,
}

/// Lets so many workers run the family of the machine of these words.
fn claimed_by<R: AllocGlobal + Threads + Wait + Abort + Sync>(
    rt: &R,
    words: &[u32],
    clones: u32,
    workers: u32,
    slice: u32,
) -> Claimed
    requires words { length words.now ≤ 64 }
    requires clones { clones ≤ 4096 }
    requires workers { (1 ≤ workers) × (workers ≤ MAX_WORKERS) }
{
    let alloc = rt.alloc();
    let depot = succeeds(rt, Depot::new(alloc));
    let (board, pass) = board_of(rt, alloc, words, with_clones(clones), &depot);
    let (claims, claiming) = succeeds(rt, Claims::new(alloc, IMAGES, 64, 0));
    let mut wires = succeeds(rt, seeded(alloc, workers));
    let settings = ungated(slice, 4);
    let site = Site {
        board: &board,
        depot: &depot,
        claims: &claims,
    };
    let (pass, claiming, finish) = run_hosts(rt, &site, pass, claiming, &mut wires, &settings);
    let world = board.close(rt, pass);
    Claimed {
        finish,
        firsts: claims.close(claiming),
        told: told_words(rt, alloc, &world),
    }
}

/// A word for each image, with a bit for each page that the world was told.
fn told_words(rt: &impl Abort, alloc: Global, world: &World) -> Vec<u64> {
    let mut words = succeeds(rt, vec![in alloc; 0; 256]);
    for place in 0..MANY {
        if let Some(sent) = succeeds(rt, world.hear(place)) {
            set(rt, &mut words, &sent);
        }
    }
    words
}

/// Sets the bit of the page of a reply, which was not set.
fn set(rt: &impl Abort, words: &mut [u64], sent: &Sent) {
    let bit = 1 << (sent.page() % 64);
    let Some(word) = words.get_mut(sent.image() as usize) else {
        panic!(rt; "there are more images than words");
    };
    assert!(rt; sent.page() < 64);
    assert!(rt; *word & bit == 0);
    *word |= bit;
}

/// In each of these families, run by so many workers with such a first stretch, just the pages are told that were claimed first.
fn tells_what_is_first<R: AllocGlobal + Threads + Wait + Abort + Sync>(
    rt: &R,
    words: &[u32],
    clones: u32,
    runs: &[(u32, u32)],
)
    requires words { length words.now ≤ 64 }
    requires clones { clones ≤ 4096 }
{
    for (workers, slice) in runs {
        let claimed = claimed_by(rt, words, clones, (*workers).clamp(1, 64), *slice);
        assert!(rt; matches!(claimed.finish, Finish::Over));
        // Page 0 is the first code page of each child.
        assert!(rt; claimed.firsts.first().is_some_and(|word| *word % 2 == 1));
        are_equal(rt, &claimed.told, &claimed.firsts);
    }
}

/// How many workers there are, and the steps of their first stretch.
static RUNS: [(u32, u32); 6] = [(1, 1), (1, 1_000), (2, 1), (3, 3), (8, 1), (64, 1_000)];

#[test]
fn two_children(rt: HostRuntime) {
    tells_what_is_first(&rt, &TWO_CHILDREN, 2, &RUNS);
}

#[test]
fn thousand_children(rt: HostRuntime) {
    tells_what_is_first(&rt, &THOUSAND_CHILDREN, 1000, &RUNS);
}

#[test]
fn long_chain(rt: HostRuntime) {
    tells_what_is_first(&rt, &LONG_CHAIN, 200, &RUNS);
}

#[test]
fn grandchild(rt: HostRuntime) {
    tells_what_is_first(&rt, &GRANDCHILD, 2, &RUNS);
}
