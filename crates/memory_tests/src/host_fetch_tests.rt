//! Pages that are fetched over wires with lists of fates.

ghost use Rattle.guest_mem.specs.Ram.{IsRamOf};

use crate::equal::{are_equal, succeeds};
use crate::guest_mem_tests::{bare_clone, booted, frozen};
use crate::waiting::Guest;
use host_fetch::{FetchError, Fetcher};
use image_depot::Depot;
use page_claims::Claims;
use std::alloc::Global;
use std::process::Abort;
use std::sync::Wait;
use vm_descriptor::PageMap;
use wire_fates::{Fate, Scripted};

/// A clone that starts with an image of a memory that was booted. None of its 16 pages is here, and it wants the first.
fn waiting_clone<R: Abort + Wait>(rt: &R, alloc: Global, depot: &Depot) -> Guest
    ensures { IsRamOf depot.now result.memory }
{
    let memory = booted(rt, alloc, 16);
    let key = frozen(rt, alloc, &memory, depot);
    assert!(rt; depot.disk_pages(&key) == 0);
    let none = PageMap::from_vec(succeeds(rt, vec![in alloc; false; 16]));
    Guest::new(bare_clone(rt, alloc, &key, none, depot), 0)
}

/// What a fetch with one page ahead answers, whether pages 0, 1 and 2 are here then, and how many replies it has told.
type Fetched = (Option<FetchError>, [bool; 3], usize);

/// The same of a clone, over a wire.
fn fetched_by<R: Abort + Wait>(
    rt: &R,
    alloc: Global,
    guest: &mut Guest,
    depot: &Depot,
    wire: &mut Scripted,
) -> Fetched
    requires { IsRamOf depot.now guest.old.memory }
{
    let mut told = Vec::new(alloc);
    let (claims, claiming) = succeeds(rt, Claims::new(alloc, 1, 16, 0));
    let fetcher = Fetcher {
        depot,
        claims: &claims,
        ahead: 1,
        alloc,
    };
    let (_, answer) = fetcher.fetch(rt, guest, wire, claiming, &mut told);
    (answer.err(), first_here(guest), told.len())
}

/// The same of a clone that is made in a depot of its own, over a wire of these fates.
fn fetched<R: Abort + Wait>(rt: &R, alloc: Global, fates: Vec<Fate>) -> Fetched {
    let mut wire = Scripted::new(fates);
    let depot = succeeds(rt, Depot::new(alloc));
    let mut guest = waiting_clone(rt, alloc, &depot);
    fetched_by(rt, alloc, &mut guest, &depot, &mut wire)
}

/// Whether the first three pages are here.
fn first_here(guest: &Guest) -> [bool; 3] {
    let memory = guest.memory();
    if memory.pages() < 3 {
        return [false; 3];
    }
    [memory.is_here(0), memory.is_here(1), memory.is_here(2)]
}

/// What is fetched over a wire that tells a fate so many times first.
fn fetched_after<R: Abort + Wait>(rt: &R, alloc: Global, fate: Fate, count: usize) -> Fetched {
    let mut fates = Vec::new(alloc);
    for _ in 0..count {
        succeeds(rt, fates.push(fate));
    }
    fetched(rt, alloc, fates)
}

#[test]
fn replies_come_in_another_order(rt: HostRuntime) {
    let fates = succeeds(&rt, vec![in rt.alloc(); Fate::Give(1), Fate::Give(0)]);
    let found = fetched(&rt, rt.alloc(), fates);
    are_equal(&rt, &found, &(None, [true, true, false], 2));
}

/// The page that is wanted comes after so many lost replies.
fn comes_after<R: Abort + Wait>(rt: &R, alloc: Global, count: usize) {
    let (answer, [wanted, _, _], _) = fetched_after(rt, alloc, Fate::Lose(0), count);
    are_equal(rt, &(answer, wanted), &(None, true));
}

#[test]
fn a_wire_fails_at_the_longest_streak(rt: HostRuntime) {
    for count in 0..64 {
        comes_after(&rt, rt.alloc(), count);
    }
    let (answer, here, _) = fetched_after(&rt, rt.alloc(), Fate::Lose(0), 64);
    are_equal(&rt, &(answer, here), &(Some(FetchError::Wire), [false; 3]));
}

#[test]
fn a_reply_is_given_again_and_again(rt: HostRuntime) {
    let found = fetched_after(&rt, rt.alloc(), Fate::Again(0), 64);
    are_equal(&rt, &found, &(None, [true, false, false], 2));
}
