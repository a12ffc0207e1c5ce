//! Pages that a clone fetches over a wire.

ghost use Rattle.vm_cell.specs.Keyed.{IsOfDepot};

use crate::absent::{ChildCourse, child_does};
use crate::equal::{are_equal, succeeds};
use elf_load::RAM_BASE;
use host_fetch::Fetcher;
use image_depot::Depot;
use page_claims::Claims;
use std::alloc::Global;
use std::process::Abort;
use std::sync::Wait;
use vm_cell::Vm;
use wire_fates::{Fate, Scripted};

// A child and a grandchild, for each of which the word of page 1 is another.
static GRANDCHILD: [u32; 40] = [
    0x100022b7, 0x800014b7, 0x01100513, 0x00a4a023, 0x00100313, 0x0062a023, 0x0062a223, 0x0062a423,
    0x00c2a383, 0x0072a023, 0x00200313, 0x0062a423, 0x00c2a403, 0x00041863, 0x01200513, 0x00a4a023,
    0x0340006f, 0x00100313, 0x0062a023, 0x0002a223, 0x0062a423, 0x00c2a383, 0x0072a023, 0x00200313,
    0x0062a423, 0x00c2a403, 0x02041863, 0x01300513, 0x00a4a023, 0x00300313, 0x0072a023, 0x0062a423,
    0x00100313, 0x0062ac23, 0x0202a503, 0x00a2a023, 0x00500313, 0x0062a423, 0x0004a503, 0xff1ff06f,
];

#[test]
fn a_child_fetches_a_page_and_the_next(rt: HostRuntime) {
    child_does(&rt, rt.alloc(), RAM_BASE, &GRANDCHILD, ChildCourse::Fetches);
}

// Which of the first three pages are here before a fetch, what it answers, which are here then, and how many replies
// it has told. The reply with page 1 comes before the one with page 0, which the child wants. Page 2 is blank, and so
// it is here.
pub(crate) fn fetches_two<R: Abort + Wait>(rt: &R, alloc: Global, child: &mut Vm, depot: &Depot)
    requires { IsOfDepot depot.now child.old.key }
{
    let fates = vec![in alloc; Fate::Give(1), Fate::Give(0)];
    let mut wire = Scripted::new(succeeds(rt, fates));
    let mut told = Vec::new(alloc);
    let before = first_here(child);
    let (claims, claiming) = succeeds(rt, Claims::new(alloc, 8, 16, 0));
    let fetcher = Fetcher {
        depot,
        claims: &claims,
        ahead: 1,
        alloc,
    };
    let (_, answer) = fetcher.fetch(rt, child, &mut wire, claiming, &mut told);
    let fetched = (before, answer, first_here(child), told.len());
    let want = ([false, false, true], Ok(()), [true, true, true], 2);
    are_equal(rt, &fetched, &want);
}

// Whether the first three pages are here.
fn first_here(vm: &Vm) -> [bool; 3] {
    if vm.pages() < 3 {
        return [false; 3];
    }
    [vm.is_here(0), vm.is_here(1), vm.is_here(2)]
}
