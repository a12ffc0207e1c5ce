//! The steps of a freeze, as literal numbers.

ghost use Rattle.std.specs.Prelude.{◌≡◌, ◌+◌, ◌<◌, length, OnOk};
ghost use Rattle.guest_mem.specs.Ram.{IsDiskBased, IsRamOf};

use crate::equal::{are_equal, succeeds};
use crate::guest_mem_tests::{SIZES, booted, first_word, frozen_disk, input};
use console_port::Input;
use cow_disk::FrozenDisk;
use elf_load::{MAX_PAGES, MIN_PAGES};
use guest_mem::GuestMem;
use image_depot::{Depot, Frozen};
use shared_leaves::Steps;
use std::alloc::{AllocError, Global};
use std::marker::Brand;
use std::process::Abort;
use std::sync::ledger::{Blank, Ledger};

/// Freezes a guest, and tells how many steps that takes at some sizes.
fn freeze_in_steps<L: Ledger>(
    alloc: Global,
    memory: &GuestMem,
    depot: &Depot,
    disk: FrozenDisk,
    input: Input,
    steps: &mut Steps<L>,
) -> Result<Frozen, AllocError>
    requires ram { IsRamOf depot.now memory.now }
    requires disk { IsDiskBased disk memory.now.key }
    ensures one_leaf { length memory.now.here ≡ 64 → OnOk result (steps.new ≡ steps.old + 1) }
    ensures a_page_more { length memory.now.here ≡ 65 → OnOk result (steps.new ≡ steps.old + 2) }
    ensures many { length memory.now.here ≡ 1024 → OnOk result (steps.new ≡ steps.old + 16) }
    ensures a_leaf_less { length memory.now.here ≡ 16_320 → OnOk result (steps.new ≡ steps.old + 255) }
    ensures and_a_page { length memory.now.here ≡ 16_321 → OnOk result (steps.new ≡ steps.old + 256) }
    ensures most { length memory.now.here ≡ 16_384 → OnOk result (steps.new ≡ steps.old + 256) }
{
    memory.freeze_counted(alloc, depot, disk, input, steps)
}

/// The same with a counter of its own.
fn freeze_of_ledger<L: Ledger>(
    alloc: Global,
    memory: &GuestMem,
    depot: &Depot,
    disk: FrozenDisk,
    input: Input,
    blank: Blank,
) -> Result<Frozen, AllocError>
    requires name { blank.name ≡ L.name }
    requires parts { blank.parts ≡ L.parts }
    requires some { 0 < blank.parts }
    requires ram { IsRamOf depot.now memory.now }
    requires disk { IsDiskBased disk memory.now.key }
{
    freeze_in_steps(
        alloc,
        memory,
        depot,
        disk,
        input,
        &mut Steps::<L>::new(blank),
    )
}

/// The pages of an image of this memory, and the first word of its second page.
fn parts_of_frozen(
    alloc: Global,
    memory: &GuestMem,
    depot: &Depot,
    disk: FrozenDisk,
    input: Input,
) -> Result<(u32, Option<u32>), AllocError>
    requires ram { IsRamOf depot.now memory.now }
    requires disk { IsDiskBased disk memory.now.key }
{
    let image = freeze_of_ledger::<Brand>(alloc, memory, depot, disk, input, Blank::new(1))?;
    Ok((image.pages(), first_word(&image, 1)))
}

fn has_every_page(rt: &impl Abort, alloc: Global, pages: u32, depot: &Depot) {
    assert!(rt; MIN_PAGES <= pages && pages <= MAX_PAGES);
    let memory = booted(rt, alloc, pages);
    let disk = frozen_disk(rt, alloc);
    let parts = parts_of_frozen(alloc, &memory, depot, disk, input(rt, alloc));
    are_equal(rt, &parts, &Ok((pages, Some(0xaaaa_aaaa))));
}

#[test]
fn a_counted_freeze_has_every_page(rt: HostRuntime) {
    let depot = succeeds(&rt, Depot::new(rt.alloc()));
    for pages in SIZES.iter() {
        has_every_page(&rt, rt.alloc(), *pages, &depot);
    }
}
