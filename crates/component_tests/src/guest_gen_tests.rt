//! Guests of a few seeds: their lengths, checksums and first words.

use crate::equal::{are_equal, succeeds};
use elf_load::load_elf;
use guest_gen::guest_of;
use std::alloc::Global;
use std::process::Abort;

/// The bytes of an image before its words.
const HEADERS_SIZE: usize = 84;

/// A seed, the number of words of its guest, the FNV-1a of the image in 64 bits, and the first nine words.
/// `tests/generated_guest` at the top of the repository computed these rows.
#[rattlefmt::skip]
static GUESTS: [(u32, usize, u64, [u32; 9]); 4] = [
    (0x00000001, 5285, 0xf73a4018628d08fe, [
        0x100022b7, 0x100005b7, 0x10001637, 0x00000713, 0x80018337,
        0x47300393, 0x44732c23, 0x45832403, 0x00870733,
    ]),
    (0x00000000, 5330, 0xa0e77b1ddaad2b60, [
        0x100022b7, 0x100005b7, 0x10001637, 0x00000713, 0x00000313,
        0x00662023, 0x00100313, 0x00662223, 0x20062383,
    ]),
    (0x0000001e, 5387, 0x7f92f7c430681e00, [
        0x100022b7, 0x100005b7, 0x10001637, 0x00000713, 0x8003b337,
        0x74200393, 0x16732823, 0x17032403, 0x00870733,
    ]),
    (0xffffffff, 5266, 0x6cdb35b3c50d0dda, [
        0x100022b7, 0x100005b7, 0x10001637, 0x00000713, 0x02700313,
        0x0062a023, 0x00100313, 0x0062a223, 0x00600313,
    ]),
];

/// The hash of these bytes by FNV-1a.
fn fnv_1a(bytes: &[u8]) -> u64 {
    let mut hash = 0xcbf2_9ce4_8422_2325_u64;
    for byte in bytes {
        hash = (hash ^ u64::from(*byte)).wrapping_mul(0x100_0000_01b3);
    }
    hash
}

/// The bytes of these words, lowest first.
fn bytes_of(rt: &impl Abort, alloc: Global, words: &[u32]) -> Vec<u8> {
    let mut bytes = Vec::new(alloc);
    for word in words {
        succeeds(rt, bytes.extend_from_slice(&word.to_le_bytes()));
    }
    bytes
}

/// The image has so many words, these first, and this hash.
fn is_guest(rt: &impl Abort, image: &[u8], words: usize, hash: u64, first: &[u8]) {
    assert!(rt; HEADERS_SIZE + first.len() <= image.len());
    let start = &image[HEADERS_SIZE..HEADERS_SIZE + first.len()];
    are_equal(rt, &start, &first);
    let found = ((image.len() - HEADERS_SIZE) / 4, fnv_1a(image));
    are_equal(rt, &found, &(words, hash));
}

fn generates(rt: &impl Abort, alloc: Global, row: &(u32, usize, u64, [u32; 9])) {
    let (seed, words, hash, first) = row;
    let image = succeeds(rt, guest_of(alloc, *seed));
    let first = bytes_of(rt, alloc, first);
    is_guest(rt, &image, *words, *hash, &first);
}

#[test]
fn generates_the_guests_of_seeds(rt: HostRuntime) {
    for row in GUESTS.iter() {
        generates(&rt, rt.alloc(), row);
    }
}

/// The pages of RAM that a guest wants.
const PAGES: u32 = 64;

/// The headers and at most 16 pages, and the loader takes it.
fn fits(rt: &impl Abort, alloc: Global, image: &[u8]) {
    are_equal(rt, &(image.len() <= HEADERS_SIZE + 16 * 4096), &true);
    let loaded = succeeds(rt, load_elf(alloc, image, PAGES));
    are_equal(rt, &loaded.entry(), &0x8000_0000);
}

fn is_loaded(rt: &impl Abort, alloc: Global, seed: u32) {
    let image = succeeds(rt, guest_of(alloc, seed));
    fits(rt, alloc, &image);
}

#[test]
fn guests_are_loaded(rt: HostRuntime) {
    for seed in 0..64 {
        is_loaded(&rt, rt.alloc(), seed);
    }
}
