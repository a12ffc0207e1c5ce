//! Tests of page claims: what claims are answered, the words at the end, and threads that claim the same pages.

mod threads;

ghost use Rattle.std.specs.Prelude.{◌≡◌, ◌+◌, ◌*◌, ◌^◌, ◌<◌};
ghost use Rattle.page_claims.specs.Calls.{IsSamePass};

use crate::equal::{are_equal, succeeds};
use page_claims::{ClaimPass, Claimed, Claims};
use std::alloc::Global;
use std::process::Abort;
use threads::{Order, eight_threads, two_threads};

/// What a claim is answered.
#[derive(Drop, PartialEq, Debug)]
enum Answer {
    First,
    Repeat,
    Outside,
}

use Answer::{First, Outside, Repeat};

/// The answer. A token names this page of this image.
fn answer_of(rt: &impl Abort, claimed: &Claimed, image: u32, page: u32) -> Answer {
    match claimed {
        Claimed::First(token) => {
            are_equal(rt, &(token.image(), token.page()), &(image, page));
            First
        }
        Claimed::Repeat => Repeat,
        Claimed::Outside => Outside,
    }
}

/// An image, a place in it, and the answer.
type Row = (u32, u32, Answer);

/// The claims of the rows are answered so, one after another.
fn are_answered(rt: &impl Abort, claims: &Claims, pass: ClaimPass, rows: &[Row]) -> ClaimPass
    requires { pass.table ≡ claims.now.table }
    ensures { IsSamePass pass result }
{
    let mut pass = pass;
    for (image, page, want) in rows {
        let (next, claimed) = claims.claim(pass, *image, *page);
        pass = next;
        are_equal(rt, &answer_of(rt, &claimed, *image, *page), want);
    }
    pass
}

/// Claims of so many images, of pages of RAM and of the disk, are answered so, and end with these words.
fn end_with(
    rt: &impl Abort,
    alloc: Global,
    images: u32,
    pages: u32,
    disk_pages: u32,
    rows: &[Row],
    words: &[u64],
)
    requires { images * (pages + disk_pages) < 2 ^ 32 }
{
    let (claims, pass) = succeeds(rt, Claims::new(alloc, images, pages, disk_pages));
    let pass = are_answered(rt, &claims, pass, rows);
    let closed = claims.close(pass);
    are_equal(rt, &closed.as_slice(), &words);
}

/// Images, pages of RAM, pages of the disk, claims in order, and the words at the end.
type Case = (u32, u32, u32, &'static [Row], &'static [u64]);

#[rattlefmt::skip]
static CASES: [Case; 6] = [
    // pages of the RAM, then pages of the disk
    (1, 16, 1, &[(0, 3, First), (0, 3, Repeat), (0, 16, First), (0, 17, Outside), (1, 0, Outside)], &[65_544]),
    // round the end of a word
    (1, 66, 0, &[(0, 64, First), (0, 63, First), (0, 65, First), (0, 66, Outside), (0, 63, Repeat)], &[1 << 63, 3]),
    // a word is full, and there is no second
    (2, 32, 0, &[(1, 31, First), (2, 0, Outside), (1, 32, Outside), (0, 31, First)], &[1 << 63 | 1 << 31]),
    // the last place of an image and the first of the next, and the last of the last
    (3, 40, 10, &[(0, 49, First), (1, 0, First), (2, 49, First), (2, 50, Outside), (2, 49, Repeat)], &[3 << 49, 0, 1 << 21]),
    // no images, and images without pages
    (0, 16, 1, &[(0, 0, Outside)], &[0]),
    (7, 0, 0, &[(0, 0, Outside), (6, 4_294_967_295, Outside)], &[0]),
];

#[test]
fn claims_are_answered(rt: HostRuntime) {
    for (images, pages, disk_pages, rows, words) in CASES.iter() {
        let fits = Claims::fits(*images, *pages, *disk_pages);
        are_equal(&rt, &fits, &true);
        if fits {
            end_with(&rt, rt.alloc(), *images, *pages, *disk_pages, rows, words);
        }
    }
}

/// Images, pages of RAM, pages of the disk, and whether claims of so many may be made.
static FITTING: [(u32, u32, u32, bool); 6] = [
    (1, u32::MAX, 0, true),
    (1, u32::MAX, 1, false),
    (65_536, 65_535, 0, true),
    (65_536, 65_535, 1, false),
    (u32::MAX, u32::MAX, u32::MAX, false),
    (0, u32::MAX, u32::MAX, true),
];

#[test]
fn fewer_bits_than_two_to_the_32(rt: HostRuntime) {
    for &(images, pages, disk_pages, fits) in FITTING.iter() {
        are_equal(&rt, &Claims::fits(images, pages, disk_pages), &fits);
    }
}

#[test]
fn two_threads_claim(rt: HostRuntime) {
    let order = Order {
        pages: 16,
        first: 0,
        step: 1,
    };
    let (tally, words) = succeeds(&rt, two_threads(&rt, rt.alloc(), order));
    are_equal(&rt, &(tally.firsts, tally.repeats), &(16, 16));
    are_equal(&rt, &words.as_slice(), &[65_535].as_slice());
}

/// Where each of the threads begins.
static SEEDS: [u32; 8] = [0, 1, 5, 511, 1024, 2730, 3000, 4095];

#[test]
fn eight_threads_claim(rt: HostRuntime) {
    for &first in SEEDS.iter() {
        let order = Order {
            pages: 4096,
            first,
            step: 1,
        };
        let (tally, words) = succeeds(&rt, eight_threads(&rt, rt.alloc(), order));
        are_equal(&rt, &(tally.firsts, tally.repeats), &(4096, 7 * 4096));
        are_equal(&rt, &words.iter().all(|word| *word == u64::MAX), &true);
    }
}
