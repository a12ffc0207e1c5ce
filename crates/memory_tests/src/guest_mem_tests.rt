//! The RAM of guests: that calls succeed, that guests really share their pages until they write them, and that
//! they move between threads.

ghost use Rattle.std.specs.Prelude.{◌≡◌, ◌<◌, ◌≤◌, Some, None};
ghost use Rattle.cow_disk.specs.Paged.{IsWholeDisk};
ghost use Rattle.image_depot.specs.Image.{page_count};
ghost use Rattle.image_depot.specs.Key.{image_of, IsKeyOf};
ghost use Rattle.guest_mem.specs.Ram.{IsDiskBased, IsRamOf};

use crate::equal::{are_equal, succeeds};
use crate::process::{are_few, resident_bytes};
use block_port::{BlockFields, Status};
use console_port::{ConsoleFields, Input};
use cow_disk::{Disk, FrozenDisk};
use elf_load::{MAX_PAGES, MIN_PAGES, RAM_BASE, load_elf};
use guest_mem::{Absent, Arrived, GuestMem, StoreError};
use image_depot::{Depot, Frozen, ImageKey, Parcel};
use rv_asm::elf_of;
use rv_traps::Csrs;
use std::alloc::Global;
use std::process::Abort;
use std::rt::Files;
use std::sync::Wait;
use std::test::Fail;
use std::thread;
use std::thread::Threads;
use timer_port::TimerPort;
use vm_descriptor::{Descriptor, PageMap};

/// The offset of the second page.
const SECOND: u32 = 4096;

/// The words of the second page.
static WORDS: [u32; 1024] = [0xaaaa_aaaa; 1024];

/// The RAM of an image of so many pages, with the byte 0xaa all over the second.
pub fn booted(rt: &impl Abort, alloc: Global, pages: u32) -> GuestMem
    requires least { MIN_PAGES ≤ pages }
    requires most { pages ≤ MAX_PAGES }
    ensures { result.key ≡ None }
{
    let file = succeeds(rt, elf_of(alloc, RAM_BASE + SECOND, &WORDS));
    let loaded = succeeds(rt, load_elf(alloc, &file, pages));
    succeeds(rt, GuestMem::booted(&loaded))
}

/// What comes of a store of the low bytes of a word, where there is a place for it.
fn store(memory: &mut GuestMem, at: u32, width: u32, word: u32) -> Option<Result<(), StoreError>>
    ensures { memory.new.key ≡ memory.old.key }
{
    if matches!(width, 1 | 2 | 4) && at % width == 0 && at < memory.size() {
        Some(memory.store(at, width, word))
    } else {
        None
    }
}

/// The word is stored.
const STORED: Option<Result<(), StoreError>> = Some(Ok(()));

/// The number in the `width` bytes from an offset, if there is one.
fn load(memory: &GuestMem, at: u32, width: u32) -> Option<u32> {
    if matches!(width, 1 | 2 | 4) && at % width == 0 && at < memory.size() {
        memory.load(at, width).ok()
    } else {
        None
    }
}

/// The block port of a machine that starts.
fn block_fields() -> BlockFields {
    BlockFields {
        sector: 0,
        status: Status::Done,
        buffer: [0; 512],
    }
}

/// The descriptor of a clone of so many pages, with these that are blank.
fn descriptor_of(pages: u32, blank: PageMap) -> Descriptor
    ensures { result.pages ≡ pages }
{
    Descriptor {
        image: 0,
        pages,
        clone_id: 1,
        share: 0,
        pc: RAM_BASE,
        registers: [0; 31],
        csrs: Csrs::reset().fields(),
        timer: TimerPort::new().fields(),
        steps: 0,
        limit: 1,
        reservation: None,
        console: ConsoleFields {
            place: 0,
            line_control: 0,
        },
        block: block_fields(),
        argument_0: 0,
        argument_1: 0,
        join_select: 0,
        granted: 0,
        blank,
    }
}

/// A disk without sectors.
pub fn frozen_disk(rt: &impl Abort, alloc: Global) -> FrozenDisk
    ensures { IsWholeDisk result }
{
    let disk = succeeds(rt, Disk::from_bytes(alloc, &[]));
    succeeds(rt, disk.freeze())
}

pub fn input(rt: &impl Abort, alloc: Global) -> Input {
    let bytes = succeeds(rt, Vec::from_slice(alloc, b"in"));
    succeeds(rt, Input::new(alloc, bytes))
}

/// A disk without sectors, which lies over that of the image that this memory started with.
fn disk_over_none(rt: &impl Abort, alloc: Global, memory: &GuestMem, depot: &Depot) -> FrozenDisk
    requires { IsRamOf depot.now memory.now }
    ensures { IsDiskBased result memory.now.key }
{
    let disk = frozen_disk(rt, alloc);
    if let Some(key) = memory.key() {
        assert!(rt; disk.sectors() == depot.frozen(key).sectors());
    }
    disk
}

/// The key to an image of this memory.
pub fn frozen<R: Abort + Wait>(rt: &R, alloc: Global, memory: &GuestMem, depot: &Depot) -> ImageKey
    requires { IsRamOf depot.now memory.now }
    ensures { IsKeyOf depot.now result }
{
    let disk = disk_over_none(rt, alloc, memory, depot);
    let image = succeeds(rt, memory.freeze(alloc, depot, disk, input(rt, alloc)));
    succeeds(rt, depot.freeze(rt, image))
}

/// A clone that starts with an image, with these blank pages, and nothing else here.
pub fn bare_clone(
    rt: &impl Abort,
    alloc: Global,
    key: &ImageKey,
    blank: PageMap,
    depot: &Depot,
) -> GuestMem
    requires { IsKeyOf depot.now key.now }
    ensures ram { IsRamOf depot.now result }
    ensures key { result.key ≡ Some key.now }
{
    let descriptor = descriptor_of(depot.pages(key), blank);
    assert!(rt; descriptor.is_in_range());
    let key = succeeds(rt, key.again());
    succeeds(rt, GuestMem::clone_of(alloc, key, &descriptor))
}

/// A clone that starts with an image of this memory, and has its blank pages and nothing else here.
fn bare_clone_of<R: Abort + Wait>(
    rt: &R,
    alloc: Global,
    memory: &GuestMem,
    depot: &Depot,
) -> GuestMem
    requires { IsRamOf depot.now memory.now }
    ensures { IsRamOf depot.now result }
{
    let key = frozen(rt, alloc, memory, depot);
    let blank = succeeds(rt, memory.blank(alloc));
    bare_clone(rt, alloc, &key, blank, depot)
}

/// Sends a page of an image to a guest, and says what came of it.
fn send(
    rt: &impl Abort,
    alloc: Global,
    memory: &mut GuestMem,
    key: &ImageKey,
    page: u32,
    depot: &Depot,
) -> Arrived
    requires key { IsKeyOf depot.now key.now }
    requires ram { IsRamOf depot.now memory.old }
    ensures { IsRamOf depot.now memory.new }
{
    assert!(rt; page < depot.pages(key));
    let parcel = succeeds(rt, depot.answer(key, page));
    succeeds(rt, memory.arrive(alloc, depot, &parcel))
}

/// Sends the first two pages.
fn send_two(rt: &impl Abort, alloc: Global, memory: &mut GuestMem, key: &ImageKey, depot: &Depot)
    requires key { IsKeyOf depot.now key.now }
    requires ram { IsRamOf depot.now memory.old }
{
    send(rt, alloc, memory, key, 0, depot);
    send(rt, alloc, memory, key, 1, depot);
}

/// A clone that starts with an image, with these blank pages. The first two are sent, and it shares them with
/// the image where they were absent.
fn clone_of(
    rt: &impl Abort,
    alloc: Global,
    key: &ImageKey,
    blank: PageMap,
    depot: &Depot,
) -> GuestMem
    requires { IsKeyOf depot.now key.now }
{
    let mut memory = bare_clone(rt, alloc, key, blank, depot);
    send_two(rt, alloc, &mut memory, key, depot);
    memory
}

/// Makes a page blank.
fn make_blank(rt: &impl Abort, memory: &mut GuestMem, page: u32)
    ensures { memory.new.key ≡ memory.old.key }
{
    assert!(rt; page < memory.pages());
    succeeds(rt, memory.zero_pages(page, 1));
}

/// Stores 16 bytes around the border of two pages.
fn store_around_the_border(rt: &impl Abort, memory: &mut GuestMem) {
    for byte in 0..16 {
        are_equal(rt, &store(memory, SECOND - 8 + byte, 1, byte + 1), &STORED);
    }
}

/// An offset, a width, and the number that is loaded there after those stores.
static AROUND_THE_BORDER: [(u32, u32, u32); 11] = [
    (SECOND - 9, 1, 0),
    (SECOND - 4, 4, 0x0807_0605),
    (SECOND - 2, 2, 0x0807),
    (SECOND - 1, 1, 0x08),
    (SECOND, 1, 0x09),
    (SECOND, 2, 0x0a09),
    (SECOND, 4, 0x0c0b_0a09),
    (SECOND + 8, 4, 0xaaaa_aaaa),
    (2 * SECOND - 1, 1, 0xaa),
    (2 * SECOND, 4, 0),
    (16 * SECOND - 4, 4, 0),
];

#[test]
fn loads_what_was_stored_around_a_page_border(rt: HostRuntime) {
    let mut memory = booted(&rt, rt.alloc(), 16);
    store_around_the_border(&rt, &mut memory);
    has_the_border(&rt, &memory);
}

fn has_the_border(rt: &impl Abort, memory: &GuestMem) {
    for (at, width, want) in AROUND_THE_BORDER.iter() {
        are_equal(
            rt,
            &(*at, *width, load(memory, *at, *width)),
            &(*at, *width, Some(*want)),
        );
    }
}

/// An offset, a width, and the two words at the border after the store.
static STORED_AT: [(u32, u32, [u32; 2]); 10] = [
    (SECOND - 4, 1, [0x0000_0044, 0xaaaa_aaaa]),
    (SECOND - 4, 2, [0x0000_3344, 0xaaaa_aaaa]),
    (SECOND - 4, 4, [0x1122_3344, 0xaaaa_aaaa]),
    (SECOND - 2, 2, [0x3344_0000, 0xaaaa_aaaa]),
    (SECOND - 1, 1, [0x4400_0000, 0xaaaa_aaaa]),
    (SECOND, 1, [0, 0xaaaa_aa44]),
    (SECOND, 2, [0, 0xaaaa_3344]),
    (SECOND, 4, [0, 0x1122_3344]),
    (SECOND + 2, 2, [0, 0x3344_aaaa]),
    (SECOND + 3, 1, [0, 0x44aa_aaaa]),
];

fn stores_bytes(rt: &impl Abort, memory: &mut GuestMem, at: u32, width: u32, words: [u32; 2]) {
    are_equal(rt, &store(memory, at, width, 0x1122_3344), &STORED);
    let found = [load(memory, SECOND - 4, 4), load(memory, SECOND, 4)];
    are_equal(rt, &(at, width, found), &(at, width, words.map(Some)));
}

fn stores_so_many_at(rt: &impl Abort, alloc: Global, row: &(u32, u32, [u32; 2])) {
    let mut memory = booted(rt, alloc, 16);
    stores_bytes(rt, &mut memory, row.0, row.1, row.2);
}

#[test]
fn stores_so_many_bytes(rt: HostRuntime) {
    for row in STORED_AT.iter() {
        stores_so_many_at(&rt, rt.alloc(), row);
    }
}

/// Stores to the last byte, makes all pages blank but the first, and then stores to the third.
fn zero_and_store(rt: &impl Abort, memory: &mut GuestMem) {
    let end = memory.size();
    are_equal(rt, &store(memory, end - 1, 1, 0x11), &STORED);
    assert!(rt; memory.pages() == 1024);
    succeeds(rt, memory.zero_pages(1, 1023));
    are_equal(rt, &store(memory, 2 * SECOND, 4, 0x22), &STORED);
}

/// The first word of the second page, the last word of the last, and the first of the third.
fn words_of_zeroed(memory: &GuestMem) -> [Option<u32>; 3] {
    [
        load(memory, SECOND, 4),
        load(memory, 1024 * SECOND - 4, 4),
        load(memory, 2 * SECOND, 4),
    ]
}

/// All pages are blank but the third.
fn are_blank(rt: &impl Abort, flags: &[bool]) {
    are_equal(rt, &flags.len(), &1024);
    for (page, is_blank) in flags.iter().enumerate() {
        are_equal(rt, &(page, *is_blank), &(page, page != 2));
    }
}

fn are_zeroed(rt: &impl Abort, alloc: Global, memory: &GuestMem) {
    let words = [Some(0), Some(0), Some(0x22)];
    are_equal(rt, &words_of_zeroed(memory), &words);
    let map = succeeds(rt, memory.blank(alloc));
    are_blank(rt, &succeeds(rt, map.flags(alloc)));
}

#[test]
fn zeroed_pages_are_blank_until_they_are_stored_to(rt: HostRuntime) {
    let mut memory = booted(&rt, rt.alloc(), 1024);
    zero_and_store(&rt, &mut memory);
    are_zeroed(&rt, rt.alloc(), &memory);
}

/// Stores to the first word of the first two pages.
fn store_two(rt: &impl Abort, memory: &mut GuestMem, word: u32)
    ensures { memory.new.key ≡ memory.old.key }
{
    let stored = [store(memory, 0, 4, word), store(memory, SECOND, 4, word)];
    are_equal(rt, &stored, &[STORED, STORED]);
}

/// The first word of the first two pages, and the second word of the second.
fn three_words(memory: &GuestMem) -> [Option<u32>; 3] {
    [
        load(memory, 0, 4),
        load(memory, SECOND, 4),
        load(memory, SECOND + 4, 4),
    ]
}

/// The first word of a page of an image, if there is one.
pub fn first_word(image: &Frozen, page: u32) -> Option<u32> {
    if page < image.pages() {
        Some(image.word(page, 0))
    } else {
        None
    }
}

/// These are those words.
fn has_words(rt: &impl Abort, memory: &GuestMem, words: [u32; 3]) {
    are_equal(rt, &three_words(memory), &words.map(Some));
}

/// Two clones store to pages that they share, and read what they stored.
fn clones_store_apart(
    rt: &impl Abort,
    alloc: Global,
    parent: &GuestMem,
    key: &ImageKey,
    depot: &Depot,
)
    requires { IsKeyOf depot.now key.now }
{
    let blank = succeeds(rt, parent.blank(alloc));
    let mut first = clone_of(rt, alloc, key, blank, depot);
    let blank = succeeds(rt, parent.blank(alloc));
    let mut second = clone_of(rt, alloc, key, blank, depot);
    store_two(rt, &mut second, 3);
    store_two(rt, &mut first, 2);
    has_words(rt, &first, [2, 2, 0xaaaa_aaaa]);
    has_words(rt, &second, [3, 3, 0xaaaa_aaaa]);
}

/// An image has the words of the guest that was frozen, and its input.
fn has_parts(rt: &impl Abort, image: &Frozen) {
    let words = [first_word(image, 0), first_word(image, 1)];
    are_equal(rt, &words, &[Some(0), Some(0xaaaa_aaaa)]);
    are_equal(rt, &image.input().bytes(), &b"in".as_slice());
}

/// A late clone of an image has the words of the guest that was frozen.
fn late_clone_is_as_frozen(
    rt: &impl Abort,
    alloc: Global,
    key: &ImageKey,
    blank: PageMap,
    depot: &Depot,
)
    requires { IsKeyOf depot.now key.now }
{
    let late = clone_of(rt, alloc, key, blank, depot);
    has_words(rt, &late, [0, 0xaaaa_aaaa, 0xaaaa_aaaa]);
}

/// A guest is frozen, and stores to two pages then. So do two clones of the image, before a third starts.
fn stays_as_frozen<R: Abort + Wait>(
    rt: &R,
    alloc: Global,
    parent: &mut GuestMem,
    blank: PageMap,
    depot: &Depot,
)
    requires { IsRamOf depot.now parent.old }
{
    let key = frozen(rt, alloc, parent, depot);
    store_two(rt, parent, 1);
    clones_store_apart(rt, alloc, parent, &key, depot);
    has_words(rt, parent, [1, 1, 0xaaaa_aaaa]);
    late_clone_is_as_frozen(rt, alloc, &key, blank, depot);
    has_parts(rt, depot.frozen(&key));
}

#[test]
fn a_store_after_a_freeze_shows_in_one_guest_and_in_no_image(rt: HostRuntime) {
    let depot = succeeds(&rt, Depot::new(rt.alloc()));
    let mut parent = booted(&rt, rt.alloc(), 16);
    let blank = succeeds(&rt, parent.blank(rt.alloc()));
    stays_as_frozen(&rt, rt.alloc(), &mut parent, blank, &depot);
}

/// A clone that starts with the image of a parcel, to which the parcel is sent, with a word of its own in the
/// second page.
fn written_clone(
    rt: &impl Abort,
    alloc: Global,
    parent: &GuestMem,
    parcel: &Parcel,
    depot: &Depot,
    word: u32,
) -> GuestMem
    requires key { IsKeyOf depot.now parcel.now.key }
    requires of_ram { parcel.now.page < page_count (image_of parcel.now.key) }
{
    let blank = succeeds(rt, parent.blank(alloc));
    let mut clone = bare_clone(rt, alloc, parcel.key(), blank, depot);
    succeeds(rt, clone.arrive(alloc, depot, parcel));
    are_equal(rt, &store(&mut clone, SECOND, 4, word), &STORED);
    clone
}

/// A thousand clones, each with a page of its own.
fn written_clones(
    rt: &impl Abort,
    alloc: Global,
    parent: &GuestMem,
    parcel: &Parcel,
    depot: &Depot,
) -> Vec<GuestMem>
    requires key { IsKeyOf depot.now parcel.now.key }
    requires of_ram { parcel.now.page < page_count (image_of parcel.now.key) }
{
    let mut clones = Vec::new(alloc);
    for n in 0..1000 {
        succeeds(
            rt,
            clones.push(written_clone(rt, alloc, parent, parcel, depot, n)),
        );
    }
    clones
}

/// Whether a clone has its own word, n, and the next one as it was.
fn is_stored(clone: &GuestMem, n: u32) -> bool {
    [load(clone, SECOND, 4), load(clone, SECOND + 4, 4)] == [Some(n), Some(0xaaaa_aaaa)]
}

/// How many of the clones have their own word. The n-th stored n.
fn as_stored(clones: &[GuestMem]) -> usize {
    let mut count = 0;
    for (n, clone) in (0..1000).zip(clones) {
        if !is_stored(clone, n) {
            return count;
        }
        count = n as usize + 1;
    }
    count
}

// A thousand whole copies take 64 megabytes, and a thousand tables and pages five.
fn take_few_bytes<R: Abort + Alloc + Files>(
    rt: &R,
    alloc: Global,
    parent: &GuestMem,
    parcel: &Parcel,
    depot: &Depot,
) -> Result<(), Fail>
    requires key { IsKeyOf depot.now parcel.now.key }
    requires of_ram { parcel.now.page < page_count (image_of parcel.now.key) }
{
    let before = resident_bytes(rt)?;
    let clones = written_clones(rt, alloc, parent, parcel, depot);
    are_few(rt, resident_bytes(rt)?.saturating_sub(before));
    are_equal(rt, &as_stored(&clones), &1000);
    Ok(())
}

fn share_an_image<R: Abort + Alloc + Files + Wait>(
    rt: &R,
    alloc: Global,
    parent: &GuestMem,
    depot: &Depot,
) -> Result<(), Fail>
    requires { IsRamOf depot.now parent.now }
{
    let key = frozen(rt, alloc, parent, depot);
    assert!(rt; 1 < depot.pages(&key));
    let parcel = succeeds(rt, depot.answer(&key, 1));
    take_few_bytes(rt, alloc, parent, &parcel, depot)
}

#[test]
fn a_thousand_clones_share_an_image(rt: HostRuntime) -> Result<(), Fail> {
    let depot = succeeds(&rt, Depot::new(rt.alloc()));
    let parent = booted(&rt, rt.alloc(), 16);
    share_an_image(&rt, rt.alloc(), &parent, &depot)
}

/// Three pages are sent to a guest: one that is absent, the same again, and one that was made blank meanwhile.
fn gets_one(rt: &impl Abort, alloc: Global, memory: &mut GuestMem, key: &ImageKey, depot: &Depot)
    requires key { IsKeyOf depot.now key.now }
    requires ram { IsRamOf depot.now memory.old }
{
    let first = send(rt, alloc, memory, key, 1, depot);
    are_equal(rt, &store(memory, SECOND, 4, 7), &STORED);
    let again = send(rt, alloc, memory, key, 1, depot);
    make_blank(rt, memory, 0);
    let sent = [first, again, send(rt, alloc, memory, key, 0, depot)];
    are_equal(
        rt,
        &sent,
        &[Arrived::Got(1), Arrived::Had(1), Arrived::Had(0)],
    );
    has_words(rt, memory, [0, 7, 0xaaaa_aaaa]);
}

/// The same of a clone that starts with an image of a guest.
fn clone_gets_one<R: Abort + Wait>(rt: &R, alloc: Global, parent: &GuestMem, depot: &Depot)
    requires { IsRamOf depot.now parent.now }
{
    let key = frozen(rt, alloc, parent, depot);
    let blank = succeeds(rt, parent.blank(alloc));
    let mut memory = bare_clone(rt, alloc, &key, blank, depot);
    gets_one(rt, alloc, &mut memory, &key, depot);
}

// The guest has stored to two pages.
#[test]
fn a_page_that_is_here_does_not_come_again(rt: HostRuntime) {
    let depot = succeeds(&rt, Depot::new(rt.alloc()));
    let mut parent = booted(&rt, rt.alloc(), 16);
    store_two(&rt, &mut parent, 1);
    clone_gets_one(&rt, rt.alloc(), &parent, &depot);
}

/// A store to the second page, which is absent, is refused, and the page is not loaded until it is blank.
fn is_refused_until_it_is_blank(rt: &impl Abort, memory: &mut GuestMem) {
    let absent = StoreError::Absent(Absent { page: 1 });
    are_equal(rt, &store(memory, SECOND, 4, 1), &Some(Err(absent)));
    let before = load(memory, SECOND, 4);
    make_blank(rt, memory, 1);
    are_equal(rt, &[before, load(memory, SECOND, 4)], &[None, Some(0)]);
}

fn absent_page_is_refused<R: Abort + Wait>(rt: &R, alloc: Global, parent: &GuestMem, depot: &Depot)
    requires { IsRamOf depot.now parent.now }
{
    let mut clone = bare_clone_of(rt, alloc, parent, depot);
    is_refused_until_it_is_blank(rt, &mut clone);
}

/// The second page of a grandchild is peeked while it is absent, and then the first two are sent.
fn peeks_and_gets(
    rt: &impl Abort,
    alloc: Global,
    memory: &mut GuestMem,
    key: &ImageKey,
    depot: &Depot,
)
    requires key { IsKeyOf depot.now key.now }
    requires ram { IsRamOf depot.now memory.old }
{
    assert!(rt; SECOND < memory.size());
    are_equal(rt, &memory.peek(depot, SECOND), &0xaaaa_aaaa);
    send_two(rt, alloc, memory, key, depot);
    has_words(rt, memory, [5, 0xaaaa_aaaa, 0xaaaa_aaaa]);
}

/// The same of a grandchild that starts with an image of this child.
fn grandchild_reads<R: Abort + Wait>(rt: &R, alloc: Global, child: &GuestMem, depot: &Depot)
    requires { IsRamOf depot.now child.now }
{
    let key = frozen(rt, alloc, child, depot);
    let blank = succeeds(rt, child.blank(alloc));
    let mut memory = bare_clone(rt, alloc, &key, blank, depot);
    peeks_and_gets(rt, alloc, &mut memory, &key, depot);
}

/// A child stores to its first page alone, and its parent to two when the child was made.
fn child_stores<R: Abort + Wait>(rt: &R, alloc: Global, parent: &mut GuestMem, depot: &Depot)
    requires { IsRamOf depot.now parent.old }
{
    let mut child = bare_clone_of(rt, alloc, parent, depot);
    store_two(rt, parent, 9);
    are_equal(rt, &store(&mut child, 0, 4, 5), &STORED);
    grandchild_reads(rt, alloc, &child, depot);
}

/// The pages of guests, around the ends of leaves, and the fewest and the most.
pub static SIZES: [u32; 6] = [16, 64, 65, 128, 1024, 16_384];

fn comes_from_below<R: Abort + Wait>(rt: &R, alloc: Global, pages: u32, depot: &Depot) {
    assert!(rt; MIN_PAGES <= pages && pages <= MAX_PAGES);
    let mut parent = booted(rt, alloc, pages);
    absent_page_is_refused(rt, alloc, &parent, depot);
    child_stores(rt, alloc, &mut parent, depot);
}

#[test]
fn an_absent_page_is_refused_until_it_is_blank_or_comes_from_below(rt: HostRuntime) {
    let depot = succeeds(&rt, Depot::new(rt.alloc()));
    for pages in SIZES.iter() {
        comes_from_below(&rt, rt.alloc(), *pages, &depot);
    }
}

/// One thread has a guest and loads from it, and another looks at one.
fn are_loaded_and_sized<R: Abort + Threads>(rt: &R, memory: GuestMem, shared: &GuestMem) {
    let found = thread::join(rt, move || load(&memory, SECOND, 4), || shared.size());
    are_equal(rt, &found, &(Some(0xaaaa_aaaa), 65_536));
}

#[test]
fn moves_between_threads(rt: HostRuntime) {
    let shared = booted(&rt, rt.alloc(), 16);
    are_loaded_and_sized(&rt, booted(&rt, rt.alloc(), 16), &shared);
}
