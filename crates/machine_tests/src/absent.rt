//! Clones, which start with their parent's blank pages alone: at which pages they stall, in order, and what they come to
//! once these have come.

ghost use Rattle.std.specs.Prelude.{◌≡◌, IfOk};
ghost use Rattle.image_depot.specs.Key.{IsKeyOf};
ghost use Rattle.vm_cell.specs.Keyed.{IsOfDepot};
ghost use Rattle.vm_cell.specs.Woken.{AreOfImage};

use crate::equal::{are_equal_at, succeeds};
use crate::fetched::fetches_two;
use crate::guests::{run, step};
use crate::vm_cell_tests::{Course, machine_does, run_and_fork};
use elf_load::RAM_BASE;
use forest_model::{Ending, Handed};
use image_depot::Depot;
use std::alloc::{AllocError, Global};
use std::process::Abort;
use std::sync::Wait;
use vm_cell::{Arrived, ForkImage, Stepped, Vm};

// The child of a brood of one.
fn first_of(alloc: Global, brood: &ForkImage, depot: &Depot) -> Result<Vm, AllocError>
    requires here { IsKeyOf depot.now brood.now.key }
    requires seeds { AreOfImage brood.now.key 1 brood.now.seed }
    ensures { IfOk result (λ vm. IsOfDepot depot.now vm.key) }
{
    let seed = brood.seed.through_bytes(alloc, 1)?;
    Ok(Vm::wake(alloc, &seed, 1, &brood.key, depot)?)
}

// Brings a page to a clone, from its image.
pub(crate) fn bring(
    rt: &impl Abort,
    alloc: Global,
    vm: &mut Vm,
    depot: &Depot,
    page: u32,
) -> Arrived
    requires { IsOfDepot depot.now vm.old.key }
    ensures { vm.new.key ≡ vm.old.key }
{
    let key = vm.key().expect(rt, "an image");
    assert!(rt; page < depot.pages(key));
    let parcel = succeeds(rt, depot.answer(key, page));
    succeeds(rt, vm.arrive(alloc, depot, &parcel))
}

// What is done with a child, and what comes of it.
pub(crate) enum Deed {
    // It wants this page to make its next step, or none.
    Wants(Option<u32>),
    // A word of RAM, whose page may be absent.
    Reads(u32, Option<u32>),
    // A page is brought to it from its image.
    Brings(u32, Arrived),
    // It makes a step.
    Steps(Stepped),
    // It runs until something keeps it.
    Runs(Stepped),
    // It runs on, and has exited with this value and no bytes.
    Ends(u32),
    // The same with four bytes that it handed over.
    HandsOver(u32, [u8; 4]),
    // It has made so many steps.
    Made(u64),
}

fn is_brought(
    rt: &impl Abort,
    alloc: Global,
    child: &mut Vm,
    depot: &Depot,
    name: &str,
    page: u32,
    want: &Arrived,
)
    requires { IsOfDepot depot.now child.old.key }
    ensures { child.new.key ≡ child.old.key }
{
    let arrived = bring(rt, alloc, child, depot, page);
    are_equal_at(rt, name, &arrived, want);
}

fn steps(rt: &impl Abort, child: &mut Vm, name: &str, want: &Stepped)
    ensures { child.new.key ≡ child.old.key }
{
    let stepped = step(rt, child);
    are_equal_at(rt, name, &stepped, want);
}

fn runs(rt: &impl Abort, alloc: Global, child: &mut Vm, name: &str, want: &Stepped)
    ensures { child.new.key ≡ child.old.key }
{
    let ran = run(rt, alloc, child, 1000);
    are_equal_at(rt, name, &ran.why, want);
}

fn ends(rt: &impl Abort, alloc: Global, child: &mut Vm, name: &str, want: Ending)
    ensures { child.new.key ≡ child.old.key }
{
    run(rt, alloc, child, 1000);
    are_equal_at(rt, name, &child.ended(), &Some(want));
}

// Does this with a child of the guest of this name.
fn does(rt: &impl Abort, alloc: Global, child: &mut Vm, depot: &Depot, name: &str, deed: &Deed)
    requires { IsOfDepot depot.now child.old.key }
    ensures { child.new.key ≡ child.old.key }
{
    match deed {
        Deed::Wants(page) => are_equal_at(rt, name, &child.wanted(), page),
        Deed::Reads(address, word) => are_equal_at(rt, name, &child.peek(depot, *address), word),
        Deed::Brings(page, want) => is_brought(rt, alloc, child, depot, name, *page, want),
        Deed::Steps(want) => steps(rt, child, name, want),
        Deed::Runs(want) => runs(rt, alloc, child, name, want),
        Deed::Ends(value) => ends(rt, alloc, child, name, Ending::Exit(*value, Handed::none())),
        Deed::HandsOver(value, bytes) => {
            ends(
                rt,
                alloc,
                child,
                name,
                Ending::Exit(*value, Handed::of(bytes)),
            )
        }
        Deed::Made(made) => are_equal_at(rt, name, &child.steps(), made),
    }
}

// Does these with it, one after another.
fn does_all(
    rt: &impl Abort,
    alloc: Global,
    child: &mut Vm,
    depot: &Depot,
    name: &str,
    deeds: &[Deed],
)
    requires { IsOfDepot depot.now child.old.key }
{
    'deeds: for deed in deeds {
        does(rt, alloc, child, depot, name, deed);
    }
}

// What a child does once it is born.
#[derive(Drop)]
pub(crate) enum ChildCourse<'a> {
    // What is done with the child of the guest of this name.
    Does(&'a str, &'a [Deed]),
    // It fetches the page that it wants and the next.
    Fetches,
}

fn goes_its_course<R: Abort + Wait>(
    rt: &R,
    alloc: Global,
    child: &mut Vm,
    depot: &Depot,
    course: &ChildCourse<'_>,
)
    requires { IsOfDepot depot.now child.old.key }
{
    match course {
        ChildCourse::Does(name, deeds) => does_all(rt, alloc, child, depot, name, deeds),
        ChildCourse::Fetches => fetches_two(rt, alloc, child, depot),
    }
}

// Runs a machine to its CLONE of one child, which then goes its course.
pub(crate) fn forks_a_child<R: Abort + Wait>(
    rt: &R,
    alloc: Global,
    vm: &mut Vm,
    depot: &Depot,
    course: &ChildCourse<'_>,
)
    requires { IsOfDepot depot.now vm.old.key }
{
    let brood = run_and_fork(rt, alloc, vm, 1, depot);
    let mut child = succeeds(rt, first_of(alloc, &brood, depot));
    goes_its_course(rt, alloc, &mut child, depot, course);
}

// The first child of the machine of these words, from a base on, goes its course.
pub(crate) fn child_does<R: Abort + Wait>(
    rt: &R,
    alloc: Global,
    base: u32,
    words: &[u32],
    course: ChildCourse<'_>,
) {
    assert!(rt; base % 4 == 0 && words.len() <= 64);
    machine_does(rt, alloc, base, words, 16, &Course::Forks(course));
}

// Guests by their names, from a base on, and what is done with the child of each, one after another.
static CHILDREN: [(&str, u32, &[u32], &[Deed]); 9] = [
    // The first instruction of the child is a load from another page.
    // A word of page 1 becomes 17, and one child is born, which exits with that word.
    (
        "the code page is wanted before that of the data",
        RAM_BASE,
        &[
            0x100022b7, 0x800014b7, 0x01100513, 0x00a4a023, 0x00100313, 0x0062a023, 0x0002a223,
            0x0062a423, 0x00c2a383, 0x0072a023, 0x00200313, 0x0062a423, 0x0004a503, 0x00a2a023,
            0x00500313, 0x0062a423,
        ],
        &[
            Deed::Wants(Some(0)),
            Deed::Reads(0x8000_1000, Some(17)),
            Deed::Brings(0, Arrived::Got(0)),
            Deed::Brings(0, Arrived::Had(0)),
            Deed::Steps(Stepped::Stall(1)),
            Deed::Runs(Stepped::Stall(1)),
            Deed::Brings(1, Arrived::Got(1)),
            Deed::Ends(17),
            Deed::Made(16),
        ],
    ),
    // The same guest, with CLONE in the last word of page 0 and the word in page 2.
    (
        "a page that is left behind is not wanted",
        0x8000_0fd0,
        &[
            0x100022b7, 0x800024b7, 0x01100513, 0x00a4a023, 0x00100313, 0x0062a023, 0x0002a223,
            0x0062a423, 0x00c2a383, 0x0072a023, 0x00200313, 0x0062a423, 0x0004a503, 0x00a2a023,
            0x00500313, 0x0062a423,
        ],
        &[
            Deed::Runs(Stepped::Stall(1)),
            Deed::Brings(1, Arrived::Got(1)),
            Deed::Runs(Stepped::Stall(2)),
            Deed::Brings(2, Arrived::Got(2)),
            Deed::Ends(17),
        ],
    ),
    // The child stores to page 1 by an SC for which nothing is reserved, and exits with what that tells.
    (
        "an SC that fails wants no page",
        RAM_BASE,
        &[
            0x100022b7, 0x800014b7, 0x01100513, 0x00a4a023, 0x00100313, 0x0062a023, 0x0002a223,
            0x0062a423, 0x00c2a383, 0x0072a023, 0x00200313, 0x0062a423, 0x1864a52f, 0x00a2a023,
            0x00500313, 0x0062a423,
        ],
        &[
            Deed::Runs(Stepped::Stall(0)),
            Deed::Brings(0, Arrived::Got(0)),
            Deed::Ends(1),
        ],
    ),
    // The child loads a word of page 1 from an address that is no multiple of 4, and traps to address 0.
    (
        "an access that traps wants no page",
        RAM_BASE,
        &[
            0x100022b7, 0x800014b7, 0x01100513, 0x00a4a023, 0x00100313, 0x0062a023, 0x0002a223,
            0x0062a423, 0x00c2a383, 0x0072a023, 0x00200313, 0x0062a423, 0x0024a503,
        ],
        &[
            Deed::Brings(0, Arrived::Got(0)),
            Deed::Steps(Stepped::Went),
            Deed::Wants(None),
        ],
    ),
    // The child zeroes page 1, which is absent, and exits with its word.
    (
        "a page that is zeroed is not wanted",
        RAM_BASE,
        &[
            0x100022b7, 0x800014b7, 0x01100513, 0x00a4a023, 0x00100313, 0x0062a023, 0x0002a223,
            0x0062a423, 0x00c2a383, 0x0072a023, 0x00200313, 0x0062a423, 0x00c2a403, 0x00041c63,
            0x00300313, 0x0062a423, 0x0002a023, 0x00500313, 0x0062a423, 0x00100313, 0x0062a023,
            0x0062a223, 0x00600313, 0x0062a423, 0x0004a503, 0x00a2a023, 0x00500313, 0x0062a423,
        ],
        &[
            Deed::Runs(Stepped::Stall(0)),
            Deed::Brings(0, Arrived::Got(0)),
            Deed::Ends(0),
        ],
    ),
    // The child hands over two bytes of page 1 and two of page 2.
    (
        "the lower page of bytes that are handed over is wanted before the higher",
        RAM_BASE,
        &[
            0x100022b7, 0x800023b7, 0xfe53ae23, 0x0053a023, 0x00100313, 0x0062a023, 0x0002a223,
            0x0062a423, 0x00c2a383, 0x0072a023, 0x00200313, 0x0062a423, 0x80002337, 0xffe30313,
            0x0062a223, 0x40700313, 0x0062a423,
        ],
        &[
            Deed::Brings(0, Arrived::Got(0)),
            Deed::Runs(Stepped::Stall(1)),
            Deed::Brings(1, Arrived::Got(1)),
            Deed::Wants(Some(2)),
            Deed::Steps(Stepped::Stall(2)),
            Deed::Runs(Stepped::Stall(2)),
            Deed::Brings(2, Arrived::Got(2)),
            Deed::HandsOver(1, [0x00, 0x10, 0x00, 0x20]),
            Deed::Made(17),
        ],
    ),
    // CLONE is the last word of page 0, and the child hands over two bytes of it and two of its own first word.
    (
        "the page of the code is wanted before a lower page of the bytes",
        0x8000_0fdc,
        &[
            0x100022b7, 0x00100313, 0x0062a023, 0x0002a223, 0x0062a423, 0x00c2a383, 0x0072a023,
            0x00200313, 0x0062a423, 0x80001337, 0xffe30313, 0x0062a223, 0x40700313, 0x0062a423,
        ],
        &[
            Deed::Wants(Some(1)),
            Deed::Brings(1, Arrived::Got(1)),
            Deed::Runs(Stepped::Stall(0)),
            Deed::Brings(0, Arrived::Got(0)),
            Deed::HandsOver(1, [0x62, 0x00, 0x37, 0x13]),
            Deed::Made(14),
        ],
    ),
    // The child hands over no bytes, from the word of page 1 that its parent wrote.
    (
        "no bytes want no page",
        RAM_BASE,
        &[
            0x100022b7, 0x800014b7, 0x0054a023, 0x00100313, 0x0062a023, 0x0002a223, 0x0062a423,
            0x00c2a383, 0x0072a023, 0x00200313, 0x0062a423, 0x0092a223, 0x00700313, 0x0062a423,
        ],
        &[
            Deed::Runs(Stepped::Stall(0)),
            Deed::Brings(0, Arrived::Got(0)),
            Deed::Ends(1),
        ],
    ),
    // The timer is due when the child is born, and the handler is in page 2.
    (
        "an interrupt wants no page",
        RAM_BASE,
        &[
            0x100022b7, 0x020044b7, 0x80002537, 0x30551073, 0x00552023, 0x00100313, 0x0062a023,
            0x0002a223, 0x0062a423, 0x00c2a383, 0x0072a023, 0x08000313, 0x30431073, 0x01300313,
            0x0064a023, 0x0004a223, 0x30046073, 0x00200313, 0x0062a423,
        ],
        &[
            Deed::Wants(None),
            Deed::Steps(Stepped::Went),
            Deed::Steps(Stepped::Stall(2)),
        ],
    ),
];

#[test]
fn children_want_these_pages_alone(rt: HostRuntime) {
    for (name, base, words, deeds) in CHILDREN.iter() {
        let course = ChildCourse::Does(name, deeds);
        child_does(&rt, rt.alloc(), *base, words, course);
    }
}
