//! Images of programs: that they are loaded where there is memory, and a file for each rule.

use crate::changes::changed;
use crate::equal::{are_equal, succeeds};
use elf_load::{ImageError, Loaded, load_elf};
use page_frames::Entry;
use std::alloc::Global;
use std::process::Abort;

/// The image of a program that exits with 7.
#[rattlefmt::skip]
static EXIT_SEVEN: [u8; 104] = [
    0x7f, 0x45, 0x4c, 0x46, 0x01, 0x01, 0x01, 0x00, 0x00, 0x00, 0x00, 0x00, 0x00, 0x00, 0x00, 0x00,
    0x02, 0x00, 0xf3, 0x00, 0x01, 0x00, 0x00, 0x00, 0x00, 0x00, 0x00, 0x80, 0x34, 0x00, 0x00, 0x00,
    0x00, 0x00, 0x00, 0x00, 0x00, 0x00, 0x00, 0x00, 0x34, 0x00, 0x20, 0x00, 0x01, 0x00, 0x00, 0x00,
    0x00, 0x00, 0x00, 0x00,
    0x01, 0x00, 0x00, 0x00, 0x54, 0x00, 0x00, 0x00, 0x00, 0x00, 0x00, 0x80, 0x00, 0x00, 0x00, 0x80,
    0x14, 0x00, 0x00, 0x00, 0x14, 0x00, 0x00, 0x00, 0x07, 0x00, 0x00, 0x00, 0x04, 0x00, 0x00, 0x00,
    0xb7, 0x22, 0x00, 0x10,
    0x13, 0x03, 0x70, 0x00,
    0x23, 0xa0, 0x62, 0x00,
    0x13, 0x03, 0x50, 0x00,
    0x23, 0xa4, 0x62, 0x00,
];

/// A program header: p_type, p_offset, p_paddr, p_filesz and p_memsz.
type ProgramHeader = [u32; 5];

/// Adds a program header. The fields that a loader does not read are all ones.
fn push_header(rt: &impl Abort, image: &mut Vec<u8>, header: &ProgramHeader) {
    let [kind, offset, address, file_size, memory_size] = *header;
    let words = [
        kind,
        offset,
        u32::MAX,
        address,
        file_size,
        memory_size,
        u32::MAX,
        u32::MAX,
    ];
    for word in words {
        succeeds(rt, image.extend_from_slice(&word.to_le_bytes()));
    }
}

/// Adds the header of an executable with so many program headers.
fn push_file_header(rt: &impl Abort, image: &mut Vec<u8>, entry: u32, count: u16) {
    let parts: [&[u8]; 5] = [
        b"\x7fELF\x01\x01\x01\xff\xff\xff\xff\xff\xff\xff\xff\xff\x02\0\xf3\0\x01\0\0\0",
        &entry.to_le_bytes(),
        b"\x34\0\0\0\xff\xff\xff\xff\xff\xff\xff\xff\xff\xff\x20\0",
        &count.to_le_bytes(),
        b"\xff\xff\xff\xff\xff\xff",
    ];
    for part in parts {
        succeeds(rt, image.extend_from_slice(part));
    }
}

/// An executable with these program headers and then these bytes. The fields that a loader does not read
/// are all ones.
fn image_of(
    rt: &impl Abort,
    alloc: Global,
    entry: u32,
    headers: &[ProgramHeader],
    bytes: &[u8],
) -> Vec<u8> {
    let mut image = Vec::new(alloc);
    let count = u16::try_from(headers.len()).unwrap_or(0);
    push_file_header(rt, &mut image, entry, count);
    for header in headers {
        push_header(rt, &mut image, header);
    }
    succeeds(rt, image.extend_from_slice(bytes));
    image
}

/// The byte of RAM at an offset, if RAM has as many.
fn ram_at(loaded: &Loaded, at: usize) -> Option<u8> {
    let table = loaded.table();
    let page = at / 4096;
    if page < table.len() {
        match table.get(page) {
            Entry::Held(held) => held.bytes().get(at % 4096).copied(),
            Entry::Blank => Some(0),
            Entry::Absent => None,
        }
    } else {
        None
    }
}

/// Whether a page is held, since a byte of a segment falls in it.
fn is_held(loaded: &Loaded, page: usize) -> Option<bool> {
    let table = loaded.table();
    if page < table.len() {
        Some(matches!(table.get(page), Entry::Held(_)))
    } else {
        None
    }
}

/// These bytes of RAM lie at an offset.
fn has_bytes(rt: &impl Abort, loaded: &Loaded, at: usize, bytes: &[u8]) {
    for (n, byte) in bytes.iter().enumerate() {
        let found = (at, n, ram_at(loaded, at.saturating_add(n)));
        are_equal(rt, &found, &(at, n, Some(*byte)));
    }
}

/// The first pages have these flags.
fn has_flags(rt: &impl Abort, loaded: &Loaded, flags: &[bool]) {
    for (page, flag) in flags.iter().enumerate() {
        are_equal(rt, &(page, is_held(loaded, page)), &(page, Some(*flag)));
    }
}

fn is_exit_seven(rt: &impl Abort, loaded: &Loaded) {
    are_equal(rt, &(loaded.entry(), loaded.pages()), &(0x8000_0000, 64));
    has_bytes(rt, loaded, 0, &[0xb7, 0x22, 0x00, 0x10, 0x13]);
    has_flags(rt, loaded, &[true, false]);
}

#[test]
fn loads_exit_seven(rt: HostRuntime) {
    let loaded = succeeds(&rt, load_elf(rt.alloc(), &EXIT_SEVEN, 64));
    is_exit_seven(&rt, &loaded);
}

static ANY_ORDER: [ProgramHeader; 5] = [
    [1, 212, 0x8000_2ffe, 2, 6],
    [4, u32::MAX, u32::MAX, u32::MAX, 0],
    [1, 214, 0x8000_0000, 3, 3],
    [1, u32::MAX, u32::MAX, 0, 0],
    [1, 217, 0x8000_1000, 1, 0x1000],
];

/// The bytes lie at the borders of those segments as the headers tell.
fn is_in_order(rt: &impl Abort, loaded: &Loaded) {
    are_equal(rt, &loaded.entry(), &0x8000_1000);
    has_bytes(rt, loaded, 0, &[3, 4, 5, 0, 0]);
    has_bytes(rt, loaded, 0xfff, &[0, 6, 0]);
    has_bytes(rt, loaded, 0x2ffd, &[0, 1, 2, 0, 0]);
    has_flags(rt, loaded, &[true, true, true, true, false]);
}

/// An image with these program headers and then these bytes is loaded.
fn loaded_of(
    rt: &impl Abort,
    alloc: Global,
    entry: u32,
    headers: &[ProgramHeader],
    bytes: &[u8],
) -> Loaded {
    let image = image_of(rt, alloc, entry, headers, bytes);
    succeeds(rt, load_elf(alloc, &image, 16))
}

#[test]
fn loads_segments_in_any_order(rt: HostRuntime) {
    let bytes = [1, 2, 3, 4, 5, 6];
    let loaded = loaded_of(&rt, rt.alloc(), 0x8000_1000, &ANY_ORDER, &bytes);
    is_in_order(&rt, &loaded);
}

/// Why a file is not loaded, if it is not.
fn refusal(alloc: Global, file: &[u8]) -> Option<ImageError> {
    load_elf(alloc, file, 16).err()
}

/// A program header for each of 65,534 bytes, the last byte of RAM first.
fn most_headers(rt: &impl Abort, alloc: Global) -> Vec<ProgramHeader> {
    let mut headers = Vec::new(alloc);
    for n in 0..65_534 {
        succeeds(rt, headers.push([1, 0, 0x8000_fffd - n, 1, 1]));
    }
    headers
}

#[test]
fn loads_as_many_segments_as_there_may_be(rt: HostRuntime) {
    let headers = most_headers(&rt, rt.alloc());
    let loaded = loaded_of(&rt, rt.alloc(), 0x8000_0000, &headers, &[]);
    has_bytes(&rt, &loaded, 0xfffc, &[0x7f, 0x7f, 0]);
}

/// The program headers of a file of 65,534 segments of one byte, a zero. They lie one behind the other from the start of
/// RAM on, but for the last, which lies at `last`.
fn headers_of_zeros(rt: &impl Abort, alloc: Global, last: u32) -> Vec<ProgramHeader> {
    let mut headers = Vec::new(alloc);
    for address in 0x8000_0000..0x8000_fffd {
        succeeds(rt, headers.push([1, 0, address, 0, 1]));
    }
    succeeds(rt, headers.push([1, 0, last, 0, 1]));
    headers
}

/// Where the last of those segments lies, and the rule that the file then breaks, if it breaks one.
static LAST_OF_MOST: [(u32, Option<u32>); 7] = [
    (0x8000_fffd, None),
    (0x8000_ffff, None),
    (0x8000_0000, Some(11)),
    (0x8000_8000, Some(11)),
    (0x8000_fffc, Some(11)),
    (0x7fff_ffff, Some(10)),
    (0x8001_0000, Some(10)),
];

fn is_told(rt: &impl Abort, alloc: Global, last: u32, rule: Option<u32>) {
    let headers = headers_of_zeros(rt, alloc, last);
    let image = image_of(rt, alloc, 0x8000_0000, &headers, &[]);
    let refused = refusal(alloc, &image);
    are_equal(rt, &(last, refused), &(last, rule.map(ImageError::Refused)));
}

#[test]
fn tells_one_overlap_among_as_many_segments_as_there_may_be(rt: HostRuntime) {
    for (last, rule) in LAST_OF_MOST.iter() {
        is_told(&rt, rt.alloc(), *last, *rule);
    }
}

static TWO_SEGMENTS: [ProgramHeader; 2] = [
    [1, 116, 0x8000_0000, 16, 16],
    [1, 132, 0x8000_0010, 4, 8],
];

/// Of the file with those segments a length, words at places of it, and the rule that they break.
static BROKEN: [(usize, &[(usize, u32)], u32); 29] = [
    (51, &[], 1),
    (136, &[(0, 0x464c_457e)], 2),
    (136, &[(4, 0xff01_0102)], 3),
    (136, &[(4, 0xff01_0201)], 3),
    (136, &[(4, 0xff00_0101)], 3),
    (136, &[(20, 2)], 3),
    (136, &[(16, 0x00f3_0003)], 4),
    (136, &[(16, 0x003e_0002)], 5),
    (136, &[(40, 0x0021_ffff)], 6),
    (136, &[(44, 0xffff_ffff)], 6),
    (115, &[], 7),
    (136, &[(28, 73)], 7),
    (136, &[(28, u32::MAX)], 7),
    (136, &[(68, 17)], 8),
    (135, &[], 9),
    (136, &[(56, 121)], 9),
    (136, &[(56, u32::MAX)], 9),
    (136, &[(64, 0x7fff_ffff)], 10),
    (136, &[(96, 0x8000_fff9)], 10),
    (136, &[(104, 0x0000_fff1)], 10),
    (136, &[(104, u32::MAX)], 10),
    (136, &[(96, 0x8000_000f)], 11),
    (136, &[(24, 0x8000_0002)], 12),
    (136, &[(24, 0x7fff_fffc)], 12),
    (136, &[(24, 0x8001_0000)], 12),
    (136, &[(16, 0x003e_0003), (4, 0)], 3),
    (136, &[(56, 121), (104, 3)], 8),
    (136, &[(64, 0), (88, 133)], 9),
    (136, &[(24, 1), (96, 0x8000_000f)], 11),
];

/// The first `length` bytes of an image, with other words at some places, are not loaded, by this rule.
fn is_refused(rt: &impl Abort, alloc: Global, image: &[u8], row: &(usize, &[(usize, u32)], u32)) {
    let (length, changes, rule) = *row;
    let file = changed(rt, alloc, image, length, changes);
    let want = Some(ImageError::Refused(rule));
    are_equal(
        rt,
        &(length, changes, refusal(alloc, &file)),
        &(length, changes, want),
    );
}

fn is_refused_by_each_rule(rt: &impl Abort, alloc: Global, image: &[u8]) {
    are_equal(rt, &refusal(alloc, image), &None);
    for row in BROKEN.iter() {
        is_refused(rt, alloc, image, row);
    }
}

#[test]
fn refuses_by_the_first_rule_that_is_broken(rt: HostRuntime) {
    let image = image_of(&rt, rt.alloc(), 0x8000_0000, &TWO_SEGMENTS, &[0; 20]);
    is_refused_by_each_rule(&rt, rt.alloc(), &image);
}
