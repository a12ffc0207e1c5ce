//! Depots: that calls succeed, that images share the pages that they were made of, and that threads
//! freeze and read images of one depot side by side.

ghost use Rattle.std.specs.Prelude.{◌≡◌, ◌≤◌, length, IfOk, IfSome};
ghost use Rattle.cow_disk.specs.Paged.{IsWholeDisk};
ghost use Rattle.image_depot.specs.Image.{IsWhole};
ghost use Rattle.image_depot.specs.Key.{IsKeyOf};

use crate::equal::{are_equal, succeeds};
use console_port::Input;
use cow_disk::{Disk, FrozenDisk};
use image_depot::{Depot, Frozen, ImageKey};
use page_frames::{Entry, PAGE_SIZE, Page, PageTable};
use std::alloc::{AllocError, Global};
use std::process::Abort;
use std::sync::Wait;
use std::thread;
use std::thread::Threads;

/// A page of these bytes, a blank page and a page of one more.
fn entries_of(alloc: Global, byte: u8) -> Result<PageTable, AllocError>
    ensures whole { IfOk result (λ entries. IsWhole entries) }
    ensures three { IfOk result (λ entries. length entries ≡ 3) }
{
    let first = Entry::Held(Page::from_slice(alloc, &[byte; PAGE_SIZE])?);
    let last = Entry::Held(Page::from_slice(alloc, &[byte ^ 1; PAGE_SIZE])?);
    PageTable::from_vec(alloc, vec![in alloc; first, Entry::Blank, last]?)
}

/// The disk of these bytes, which are whole sectors.
fn disk_of(rt: &impl Abort, alloc: Global, bytes: &[u8]) -> FrozenDisk
    ensures { IsWholeDisk result }
{
    let disk = succeeds(rt, Disk::from_bytes(alloc, bytes));
    succeeds(rt, disk.freeze())
}

/// The image of a page of these bytes, a blank page and a page of one more, with a disk and an input
/// of this byte.
fn image_of(rt: &impl Abort, alloc: Global, byte: u8) -> Frozen {
    let entries = succeeds(rt, entries_of(alloc, byte));
    let disk = disk_of(rt, alloc, &[byte; 512]);
    let input = succeeds(rt, vec![in alloc; byte; 2]);
    let input = succeeds(rt, Input::new(alloc, input));
    succeeds(rt, Frozen::new(alloc, entries, disk, input))
}

/// The key to the image of a byte.
pub fn frozen<R: Abort + Wait>(rt: &R, alloc: Global, depot: &Depot, byte: u8) -> ImageKey
    ensures { IsKeyOf depot.now result }
{
    succeeds(rt, depot.freeze(rt, image_of(rt, alloc, byte)))
}

/// Words of all three pages of an image, if it has as many.
fn words_of(image: &Frozen) -> Option<[u32; 4]> {
    if image.pages() < 3 {
        return None;
    }
    Some([
        image.word(0, 0),
        image.word(0, 4092),
        image.word(1, 0),
        image.word(2, 4092),
    ])
}

/// The last byte of the first sector of an image's disk, and the one behind it in the first page.
fn disk_bytes(image: &Frozen) -> Option<[u8; 2]> {
    if image.disk_pages() == 0 {
        return None;
    }
    let mut page = [0xff; PAGE_SIZE];
    image.disk_page(0, &mut page);
    Some([page[511], page[512]])
}

/// An image has these words, and a disk of one sector that ends so.
fn has_words(rt: &impl Abort, image: &Frozen, words: [u32; 4], byte: u8) {
    let found = (words_of(image), image.sectors(), disk_bytes(image));
    are_equal(rt, &found, &(Some(words), 1, Some([byte, 0])));
}

/// Two keys lend the images of bytes 0x10 and 0x20.
fn are_lent<R: Abort + Wait>(rt: &R, alloc: Global, depot: &Depot) {
    let first = frozen(rt, alloc, depot, 0x10);
    let second = frozen(rt, alloc, depot, 0x20);
    are_equal(rt, &[first.number(), second.number()], &[0, 1]);
    let words = [0x1010_1010, 0x1010_1010, 0, 0x1111_1111];
    has_words(rt, depot.frozen(&first), words, 0x10);
    let words = [0x2020_2020, 0x2020_2020, 0, 0x2121_2121];
    has_words(rt, depot.frozen(&second), words, 0x20);
}

#[test]
fn lends_what_was_frozen(rt: HostRuntime) {
    let depot = succeeds(&rt, Depot::new(rt.alloc()));
    are_lent(&rt, rt.alloc(), &depot);
}

/// The pages of an image, the input, and how many tables it has.
fn parts_of<'a>(depot: &'a Depot, key: &ImageKey) -> (u32, &'a [u8], usize)
    requires { IsKeyOf depot.now key.now }
{
    let image = depot.frozen(key);
    (
        depot.pages(key),
        image.input().bytes(),
        image.tables().len(),
    )
}

/// Freezes the image of a byte, and lends its parts by a key that is the same once more.
fn freeze_and_lend<'a, R: Abort + Wait>(
    rt: &R,
    alloc: Global,
    depot: &'a Depot,
    byte: u8,
) -> (u32, &'a [u8], usize) {
    let key = frozen(rt, alloc, depot, byte);
    let again = succeeds(rt, key.again());
    parts_of(depot, &again)
}

fn parts_are_lent<R: Abort + Wait>(rt: &R, alloc: Global, depot: &Depot) {
    let first = freeze_and_lend(rt, alloc, depot, 0x10);
    let second = freeze_and_lend(rt, alloc, depot, 0x20);
    are_equal(rt, &first, &(3, [0x10; 2].as_slice(), 1));
    are_equal(rt, &second, &(3, [0x20; 2].as_slice(), 1));
}

#[test]
fn lends_the_parts_of_an_image(rt: HostRuntime) {
    let depot = succeeds(&rt, Depot::new(rt.alloc()));
    parts_are_lent(&rt, rt.alloc(), &depot);
}

/// The first word of an image, if it has a page.
fn first_word(depot: &Depot, key: &ImageKey) -> Option<u32>
    requires { IsKeyOf depot.now key.now }
{
    if depot.pages(key) == 0 {
        return None;
    }
    Some(depot.frozen(key).word(0, 0))
}

/// The image of one page, with no disk and no input.
fn image_of_page(rt: &impl Abort, alloc: Global, page: &Page) -> Frozen {
    let entries = succeeds(rt, entries_of_page(alloc, page));
    let disk = disk_of(rt, alloc, &[]);
    let input = succeeds(rt, Input::new(alloc, Vec::new(alloc)));
    succeeds(rt, Frozen::new(alloc, entries, disk, input))
}

/// One page alone.
fn entries_of_page(alloc: Global, page: &Page) -> Result<PageTable, AllocError>
    ensures whole { IfOk result (λ entries. IsWhole entries) }
    ensures one { IfOk result (λ entries. length entries ≡ 1) }
{
    let page = Entry::Held(page.share()?);
    PageTable::from_vec(alloc, vec![in alloc; page]?)
}

/// A page of bytes 0xaa is written so, after an image of it was frozen.
fn a_page_is_written<R: Abort + Wait>(rt: &R, alloc: Global, depot: &Depot) {
    let mut page = succeeds(rt, Page::from_slice(alloc, &[0xaa; PAGE_SIZE]));
    let key = succeeds(rt, depot.freeze(rt, image_of_page(rt, alloc, &page)));
    succeeds(rt, page.write(0, &[0x11]));
    let found = (first_word(depot, &key), page.word(0));
    are_equal(rt, &found, &(Some(0xaaaa_aaaa), 0xaaaa_aa11));
}

#[test]
fn a_write_to_a_page_shows_in_no_image(rt: HostRuntime) {
    let depot = succeeds(&rt, Depot::new(rt.alloc()));
    a_page_is_written(&rt, rt.alloc(), &depot);
}

/// Freezes an image of each of a hundred bytes, and gives the key to the last. `None` where an image
/// does not read as it was frozen when the next one is there too.
fn freeze_hundred<R: Abort + Wait>(
    rt: &R,
    alloc: Global,
    depot: &Depot,
    first: u8,
) -> Option<ImageKey>
    requires { first ≤ 100 }
    ensures { IfSome result (λ key. IsKeyOf depot.now key) }
{
    let mut last = frozen(rt, alloc, depot, first);
    for byte in first..first + 100 {
        let next = frozen(rt, alloc, depot, byte + 1);
        if first_word(depot, &last) != Some(u32::from(byte) * 0x0101_0101) {
            return None;
        }
        last = next;
    }
    Some(last)
}

fn freeze_in_two_threads<R: Abort + Threads + Wait + Sync>(
    rt: &R,
    alloc: Global,
    depot: &Depot,
) -> Option<(ImageKey, ImageKey)>
    ensures { IfSome result (λ keys. IsKeyOf depot.now keys.0 × IsKeyOf depot.now keys.1) }
{
    let (first, second) = thread::join(
        rt,
        || freeze_hundred(rt, alloc, depot, 0),
        || freeze_hundred(rt, alloc, depot, 100),
    );
    Some((first?, second?))
}

/// One thread reads the image of the second key, while another has the first key and tells its number.
fn read_in_two_threads<R: Threads>(
    rt: &R,
    depot: &Depot,
    first: ImageKey,
    second: &ImageKey,
) -> (Option<u32>, u32)
    requires { IsKeyOf depot.now second.now }
{
    thread::join(rt, || first_word(depot, second), move || first.number())
}

/// Two images have other numbers, and are read by these: a word of the second, and the number of the first.
fn are_read(rt: &impl Abort, numbers: [u32; 2], read: (Option<u32>, u32)) {
    let [first, second] = numbers;
    let (word, number) = read;
    are_equal(rt, &(first != second, number < 202), &(true, true));
    are_equal(rt, &word, &Some(0xc8c8_c8c8));
}

// Each thread reads the image that the other has frozen.
fn freeze_and_read_in_threads<R: Abort + Threads + Wait + Sync>(
    rt: &R,
    alloc: Global,
    depot: &Depot,
) {
    let keys = freeze_in_two_threads(rt, alloc, depot);
    let (first, second) = keys.expect(rt, "an image has changed");
    let numbers = [first.number(), second.number()];
    are_read(rt, numbers, read_in_two_threads(rt, depot, first, &second));
}

#[test]
fn threads_freeze_and_read_side_by_side(rt: HostRuntime) {
    let depot = succeeds(&rt, Depot::new(rt.alloc()));
    freeze_and_read_in_threads(&rt, rt.alloc(), &depot);
}

/// A depot and an image that each go through a thread of their own: the depot, and the length of the image's
/// input.
fn moved<R: Threads>(rt: &R, depot: Depot, image: Frozen) -> (Depot, usize) {
    thread::join(rt, move || depot, move || image.input().bytes().len())
}

/// The depot still keeps images.
fn keeps_when_moved<R: Abort + Threads + Wait>(rt: &R, alloc: Global, depot: Depot, image: Frozen) {
    let (depot, length) = moved(rt, depot, image);
    are_equal(rt, &length, &2);
    frozen(rt, alloc, &depot, 0xbb);
}

#[test]
fn moves_between_threads(rt: HostRuntime) {
    let image = image_of(&rt, rt.alloc(), 0xaa);
    let depot = succeeds(&rt, Depot::new(rt.alloc()));
    keeps_when_moved(&rt, rt.alloc(), depot, image);
}
