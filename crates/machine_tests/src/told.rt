//! Replies that a world is told, and that others hear.

use crate::equal::{are_equal, succeeds};
use crate::guests::{TWO_CHILDREN, booted_at};
use crate::vm_cell_tests::run_and_fork;
use crate::world_core_tests::{Deed, does};
use elf_load::RAM_BASE;
use image_depot::{Depot, Sent};
use page_claims::{Claimed, Claims};
use std::alloc::Global;
use std::process::Abort;
use std::sync::Wait;
use world_core::World;

// The reply with page 0 of what the machine of two children leaves for them.
fn reply<R: Abort + Wait>(rt: &R, alloc: Global, depot: &Depot) -> Sent {
    let mut vm = booted_at(rt, alloc, RAM_BASE, &TWO_CHILDREN, 16);
    let brood = run_and_fork(rt, alloc, &mut vm, 2, depot);
    assert!(rt; depot.pages(&brood.key) > 0);
    let parcel = succeeds(rt, depot.answer(&brood.key, 0));
    let (claims, claiming) = succeeds(rt, Claims::new(alloc, 1, 16, 0));
    let (_, claimed) = claims.claim(claiming, brood.key.number(), 0);
    match claimed {
        Claimed::First(first) => succeeds(rt, depot.push(rt, first, parcel)),
        Claimed::Repeat | Claimed::Outside => panic!(rt; "the first claim"),
    }
}

#[test]
fn a_reply_that_is_told_is_heard(rt: HostRuntime) {
    does(&rt, rt.alloc(), Deed::Tell);
}

// Tells a world a reply, which is heard then, at the first place, where none was before, and at no other.
pub(crate) fn tells<R: Abort + Wait>(rt: &R, alloc: Global, world: &mut World, depot: &Depot) {
    let sent = reply(rt, alloc, depot);
    let told = (sent.image(), sent.page());
    let before = heard_at(rt, world, 0);
    succeeds(rt, world.tell(sent));
    let heard = [before, heard_at(rt, world, 0), heard_at(rt, world, 1)];
    are_equal(rt, &heard, &[None, Some(told), None]);
}

// The numbers of the image and of the page of the reply at a place.
fn heard_at(rt: &impl Abort, world: &World, at: usize) -> Option<(u32, u32)> {
    match succeeds(rt, world.hear(at)) {
        Some(sent) => Some((sent.image(), sent.page())),
        None => None,
    }
}
