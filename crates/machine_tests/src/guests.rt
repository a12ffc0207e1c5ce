//! Guests of a few words, and what is done with them.

ghost use Rattle.std.specs.Prelude.{◌≡◌, ◌≤◌, ◌%◌, [], length, IfOk, None};
ghost use Rattle.cow_disk.specs.Paged.{IsWholeDisk};
ghost use Rattle.forest_model.specs.Forest.{port_of};

use crate::equal::succeeds;
use cow_disk::Disk;
use elf_load::{Loaded, RAM_BASE, load_elf};
use forest_model::Options;
use rv_asm::elf_of;
use std::alloc::{AllocError, Global};
use std::process::Abort;
use vm_cell::{Ran, Slots, Stepped, Vm};

// Makes two children that exit with 40 and their number, joins them, and exits with the value of the first.
pub(crate) static TWO_CHILDREN: [u32; 25] = [
    0x100022b7, 0x00200313, 0x0062a023, 0x0002a223, 0x00100313, 0x0062a423, 0x00c2a383, 0x0072a023,
    0x00200313, 0x0062a423, 0x0102a403, 0x02041463, 0x00300313, 0x0072a023, 0x0062a423, 0x00100313,
    0x0062ac23, 0x0202a303, 0x0062a023, 0x00500313, 0x0062a423, 0x02840313, 0x0062a023, 0x00500313,
    0x0062a423,
];

// The same, but that each child hands over its first word, and the parent exits with that of the first.
pub(crate) static JOIN_BYTES: [u32; 27] = [
    0x100022b7, 0x00200313, 0x0062a023, 0x0002a223, 0x00100313, 0x0062a423, 0x00c2a383, 0x0072a023,
    0x00200313, 0x0062a423, 0x0102a403, 0x02041463, 0x00300313, 0x0072a023, 0x0062a423, 0x00100313,
    0x0062ac23, 0x0402a303, 0x0062a023, 0x00500313, 0x0062a423, 0x02840313, 0x0062a023, 0x800004b7,
    0x0092a223, 0x40700313, 0x0062a423,
];

// TWO_CHILDREN, but that it kills its children, tries to join them, and exits with the refusal.
pub(crate) static KILL_THEN_JOIN: [u32; 25] = [
    0x100022b7, 0x00200313, 0x0062a023, 0x0002a223, 0x00100313, 0x0062a423, 0x00c2a383, 0x0072a023,
    0x00200313, 0x0062a423, 0x0102a403, 0x02041463, 0x00400313, 0x0072a023, 0x0062a423, 0x00300313,
    0x0062a423, 0x00c2a303, 0x0062a023, 0x00500313, 0x0062a423, 0x02840313, 0x0062a023, 0x00500313,
    0x0062a423,
];

// The same, but that the children never end by themselves.
pub(crate) static KILL_BUSY_CHILDREN: [u32; 22] = [
    0x100022b7, 0x00200313, 0x0062a023, 0x0002a223, 0x00100313, 0x0062a423, 0x00c2a383, 0x0072a023,
    0x00200313, 0x0062a423, 0x0102a403, 0x02041463, 0x00400313, 0x0072a023, 0x0062a423, 0x00300313,
    0x0062a423, 0x00c2a303, 0x0062a023, 0x00500313, 0x0062a423, 0x0000006f,
];

// A child has a child of its own, and each of the three its own value of one word. All exit with what the grandchild
// reads there.
pub(crate) static GRANDCHILD: [u32; 40] = [
    0x100022b7, 0x800014b7, 0x01100513, 0x00a4a023, 0x00100313, 0x0062a023, 0x0062a223, 0x0062a423,
    0x00c2a383, 0x0072a023, 0x00200313, 0x0062a423, 0x00c2a403, 0x00041863, 0x01200513, 0x00a4a023,
    0x0340006f, 0x00100313, 0x0062a023, 0x0002a223, 0x0062a423, 0x00c2a383, 0x0072a023, 0x00200313,
    0x0062a423, 0x00c2a403, 0x02041863, 0x01300513, 0x00a4a023, 0x00300313, 0x0072a023, 0x0062a423,
    0x00100313, 0x0062ac23, 0x0202a503, 0x00a2a023, 0x00500313, 0x0062a423, 0x0004a503, 0xff1ff06f,
];

// Makes a thousand children that exit with their numbers, joins them, and exits with how many there were.
pub(crate) static THOUSAND_CHILDREN: [u32; 21] = [
    0x100022b7, 0x3e800313, 0x0062a023, 0x0002a223, 0x00100313, 0x0062a423, 0x00c2a383, 0x0072a023,
    0x00200313, 0x0062a423, 0x0102a403, 0x00041e63, 0x00300313, 0x0062a423, 0x00c2a303, 0x0062a023,
    0x00500313, 0x0062a423, 0x0082a023, 0x00500313, 0x0062a423,
];

// Makes one child, which gets the rest of the allot and does the same, joins it, and exits with one more than it did.
pub(crate) static LONG_CHAIN: [u32; 26] = [
    0x100022b7, 0x0142a483, 0x04048a63, 0x00100313, 0x0062a023, 0xfff48513, 0x00a2a223, 0x0062a423,
    0x00c2a383, 0x0072a023, 0x00200313, 0x0062a423, 0x00c2a403, 0xfc0418e3, 0x00300313, 0x0062a423,
    0x00100313, 0x0062ac23, 0x0202a583, 0x00158593, 0x00b2a023, 0x00500313, 0x0062a423, 0x0002a023,
    0x00500313, 0x0062a423,
];

// A disk without sectors.
pub(crate) fn no_disk(rt: &impl Abort, alloc: Global) -> Disk
    ensures { IsWholeDisk result }
{
    succeeds(rt, Disk::from_bytes(alloc, b""))
}

// The machine of an image and a disk.
#[tactic(auto, unfolding(forest_model::specs::Machine::boot))]
fn booted_of(alloc: Global, image: &Loaded, disk: Disk, options: Options) -> Result<Vm, AllocError>
    requires least { 1 ≤ options.limit }
    requires most { options.limit ≤ 1_000_000 }
    requires clones { options.allot ≤ 4096 }
    requires disk_whole { IsWholeDisk disk }
    ensures no_ticket { IfOk result (λ vm. (port_of vm.machine).tickets ≡ []) }
    ensures no_siblings { IfOk result (λ vm. vm.machine.state.ports.sibling.siblings ≡ 0) }
    ensures no_image { IfOk result (λ vm. vm.key ≡ None) }
{
    Vm::boot(alloc, image, disk, b"", options)
}

// The image of these words from a base on, in RAM of so many pages.
pub(crate) fn loaded_at(
    rt: &impl Abort,
    alloc: Global,
    base: u32,
    words: &[u32],
    pages: u32,
) -> Loaded
    requires base { base % 4 ≡ 0 }
    requires words { length words.now ≤ 64 }
    requires least { 16 ≤ pages }
    requires most { pages ≤ 16_384 }
{
    let file = succeeds(rt, elf_of(alloc, base, words));
    succeeds(rt, load_elf(alloc, &file, pages))
}

// The machine of these words, from a base on, with so many pages, that makes at most 1,000,000 steps and may have
// two clones.
pub(crate) fn booted_at(rt: &impl Abort, alloc: Global, base: u32, words: &[u32], pages: u32) -> Vm
    requires base { base % 4 ≡ 0 }
    requires words { length words.now ≤ 64 }
    requires least { 16 ≤ pages }
    requires most { pages ≤ 16_384 }
    ensures no_ticket { (port_of result.machine).tickets ≡ [] }
    ensures no_siblings { result.machine.state.ports.sibling.siblings ≡ 0 }
    ensures no_image { result.key ≡ None }
{
    let image = loaded_at(rt, alloc, base, words, pages);
    let options = Options {
        limit: 1_000_000,
        allot: 2,
    };
    succeeds(rt, booted_of(alloc, &image, no_disk(rt, alloc), options))
}

// The machine of these words, with 16 pages, and the limit and the allot of these options.
pub(crate) fn booted(rt: &impl Abort, alloc: Global, words: &[u32], options: Options) -> Vm
    requires words { length words.now ≤ 64 }
    requires least { 1 ≤ options.limit }
    requires most { options.limit ≤ 1_000_000 }
    requires clones { options.allot ≤ 4096 }
    ensures no_ticket { (port_of result.machine).tickets ≡ [] }
    ensures no_siblings { result.machine.state.ports.sibling.siblings ≡ 0 }
    ensures no_image { result.key ≡ None }
{
    let image = loaded_at(rt, alloc, RAM_BASE, words, 16);
    succeeds(rt, booted_of(alloc, &image, no_disk(rt, alloc), options))
}

// That a machine may have so many clones, and makes at most 10,000 steps.
pub(crate) fn with_clones(allot: u32) -> Options
    ensures { result ≡ record { limit = 10_000; allot = allot } }
{
    Options {
        limit: 10_000,
        allot,
    }
}

// Lets a machine make at most so many steps.
pub(crate) fn run(rt: &impl Abort, alloc: Global, vm: &mut Vm, most: u64) -> Ran
    ensures { vm.new.key ≡ vm.old.key }
{
    succeeds(rt, vm.run(&mut Slots::new(alloc), most))
}

// Lets a machine make one step.
pub(crate) fn step(rt: &impl Abort, vm: &mut Vm) -> Stepped
    ensures { vm.new.key ≡ vm.old.key }
{
    succeeds(rt, vm.step())
}
