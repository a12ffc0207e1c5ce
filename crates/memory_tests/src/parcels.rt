//! Parcels: that calls succeed, that a reply carries its page, that what was pushed is there, and that
//! threads push and read side by side.

ghost use Rattle.std.specs.Prelude.{◌≡◌, IfSome};
ghost use Rattle.image_depot.specs.Key.{IsKeyOf};
ghost use Rattle.image_depot.specs.Reply.{IsSentOf};

use crate::equal::{are_equal, succeeds};
use crate::image_depot_tests::frozen;
use image_depot::{Depot, ImageKey, Parcel, Sent};
use page_claims::{Claimed, Claims, First};
use std::alloc::Global;
use std::process::Abort;
use std::sync::Wait;
use std::thread;
use std::thread::Threads;

/// The reply that carries a page of an image, if the image has the page: one of RAM, or behind those one of the disk.
fn answered(depot: &Depot, key: &ImageKey, page: u32) -> Option<Parcel>
    requires { IsKeyOf depot.now key.now }
    ensures { IfSome result (λ parcel. (parcel.key ≡ key.now) × (parcel.page ≡ page)) }
{
    if page >= depot.places(key) {
        return None;
    }
    depot.answer(key, page).ok()
}

/// Whether bytes are those of a reply that begins so and has a page of this byte.
fn is_reply(bytes: &[u8], start: &[u8; 12], byte: u8) -> bool {
    match bytes.split_first_chunk::<12>() {
        Some((first, page)) => {
            first == start && page.len() == 4096 && page.iter().all(|b| *b == byte)
        }
        None => false,
    }
}

/// Whether the reply for a page of an image begins so and has a page of this byte, and the number of the image that
/// it tells.
fn answers(
    depot: &Depot,
    key: &ImageKey,
    page: u32,
    start: &[u8; 12],
    byte: u8,
) -> Option<(bool, u32)>
    requires { IsKeyOf depot.now key.now }
{
    let reply = answered(depot, key, page)?;
    Some((is_reply(reply.bytes(), start, byte), reply.key().number()))
}

/// The replies for all three pages of the image of byte 0x20 are as they are to be.
fn are_replies(rt: &impl Abort, depot: &Depot, key: &ImageKey)
    requires { IsKeyOf depot.now key.now }
{
    let all = [
        answers(depot, key, 0, b"SFR1\x01\0\0\0\0\0\0\0", 0x20),
        answers(depot, key, 1, b"SFR1\x01\0\0\0\x01\0\0\0", 0),
        answers(depot, key, 2, b"SFR1\x01\0\0\0\x02\0\0\0", 0x21),
    ];
    are_equal(rt, &all, &[Some((true, 1)); 3]);
}

/// The second of two images is the one of byte 0x20.
fn second_is_carried<R: Abort + Wait>(rt: &R, alloc: Global, depot: &Depot) {
    frozen(rt, alloc, depot, 0x10);
    let key = frozen(rt, alloc, depot, 0x20);
    are_replies(rt, depot, &key);
}

#[test]
fn a_reply_carries_its_page(rt: HostRuntime) {
    let depot = succeeds(&rt, Depot::new(rt.alloc()));
    second_is_carried(&rt, rt.alloc(), &depot);
}

/// The start of the reply for a page, the last byte of the first sector of the page, and the one behind it.
fn disk_reply(depot: &Depot, key: &ImageKey, page: u32) -> Option<([u8; 12], [u8; 2])>
    requires { IsKeyOf depot.now key.now }
{
    let reply = answered(depot, key, page)?;
    let (start, page) = reply.bytes().split_first_chunk::<12>()?;
    if page.len() != 4096 {
        return None;
    }
    Some((*start, [page[511], page[512]]))
}

/// The disk of the image of byte 0x20 has one page, behind the three of RAM. It has one sector, and its number is 2^31.
fn disk_is_carried<R: Abort + Wait>(rt: &R, alloc: Global, depot: &Depot) {
    let key = frozen(rt, alloc, depot, 0x20);
    let found = [disk_reply(depot, &key, 3), disk_reply(depot, &key, 4)];
    let reply = (*b"SFR1\0\0\0\0\0\0\0\x80", [0x20, 0]);
    are_equal(rt, &found, &[Some(reply), None]);
}

#[test]
fn a_reply_carries_a_page_of_the_disk(rt: HostRuntime) {
    let depot = succeeds(&rt, Depot::new(rt.alloc()));
    disk_is_carried(&rt, rt.alloc(), &depot);
}

/// The first claim of a page of an image, of claims that were made for it.
fn first_claim(alloc: Global, image: u32, page: u32) -> Option<First>
    ensures { IfSome result (λ first. (first.image ≡ image) × (first.page ≡ page)) }
{
    let (claims, claiming) = Claims::new(alloc, 8, 16, 8).ok()?;
    let (_, claimed) = claims.claim(claiming, image, page);
    match claimed {
        Claimed::First(first) => Some(first),
        Claimed::Repeat | Claimed::Outside => None,
    }
}

/// Claims a page of an image, and pushes the reply that carries it.
fn pushed<R: AllocGlobal + Wait>(rt: &R, depot: &Depot, key: &ImageKey, page: u32) -> Option<Sent>
    requires { IsKeyOf depot.now key.now }
    ensures { IfSome result (λ sent. IsSentOf depot.now sent) }
{
    let parcel = answered(depot, key, page)?;
    let first = first_claim(rt.alloc(), key.number(), page)?;
    depot.push(rt, first, parcel).ok()
}

/// The numbers of the image and of the page of a parcel, and the last byte that it has.
type Told = (u32, u32, Option<u8>);

/// The same of a parcel that was pushed.
fn told(depot: &Depot, sent: &Sent) -> Told
    requires { IsSentOf depot.now sent.now }
{
    let last = depot.sent(sent).bytes().last();
    (sent.image(), sent.page(), last.copied())
}

/// A page of an image is pushed, and then another. The first is told once more, too.
fn are_there<R: AllocGlobal + Abort + Wait>(rt: &R, depot: &Depot, key: &ImageKey)
    requires { IsKeyOf depot.now key.now }
{
    let first = pushed(rt, depot, key, 2).expect(rt, "a parcel");
    let second = pushed(rt, depot, key, 0).expect(rt, "a parcel");
    let again = succeeds(rt, first.again());
    let all = [
        told(depot, &first),
        told(depot, &second),
        told(depot, &again),
    ];
    are_equal(
        rt,
        &all,
        &[(0, 2, Some(0x31)), (0, 0, Some(0x30)), (0, 2, Some(0x31))],
    );
}

/// The same of an image that is frozen for it.
fn are_there_of_frozen<R: AllocGlobal + Abort + Wait>(rt: &R, alloc: Global, depot: &Depot) {
    let key = frozen(rt, alloc, depot, 0x30);
    are_there(rt, depot, &key);
}

#[test]
fn what_was_pushed_is_there(rt: HostRuntime) {
    let depot = succeeds(&rt, Depot::new(rt.alloc()));
    are_there_of_frozen(&rt, rt.alloc(), &depot);
}

/// Pushes a page of an image a hundred times, and reads what was pushed each time. `None` where it is
/// not there.
fn push_hundred<R: AllocGlobal + Wait>(
    rt: &R,
    depot: &Depot,
    key: &ImageKey,
    page: u32,
) -> Option<Sent>
    requires { IsKeyOf depot.now key.now }
    ensures { IfSome result (λ sent. IsSentOf depot.now sent) }
{
    let mut last = pushed(rt, depot, key, page)?;
    for _ in 0..100 {
        if told(depot, &last).1 != page {
            return None;
        }
        last = pushed(rt, depot, key, page)?;
    }
    Some(last)
}

fn push_in_two_threads<R: AllocGlobal + Threads + Wait + Sync>(
    rt: &R,
    depot: &Depot,
    key: &ImageKey,
) -> Option<(Sent, Sent)>
    requires { IsKeyOf depot.now key.now }
    ensures { IfSome result (λ sents. IsSentOf depot.now sents.0 × IsSentOf depot.now sents.1) }
{
    let (first, second) = thread::join(
        rt,
        || push_hundred(rt, depot, key, 0),
        || push_hundred(rt, depot, key, 2),
    );
    Some((first?, second?))
}

/// Each of two threads reads what the other has pushed.
fn read_in_two_threads<R: Threads>(
    rt: &R,
    depot: &Depot,
    first: &Sent,
    second: &Sent,
) -> (Told, Told)
    requires first { IsSentOf depot.now first.now }
    requires second { IsSentOf depot.now second.now }
{
    thread::join(rt, || told(depot, second), || told(depot, first))
}

fn pushed_and_read<R: AllocGlobal + Abort + Threads + Wait + Sync>(
    rt: &R,
    depot: &Depot,
    key: &ImageKey,
)
    requires { IsKeyOf depot.now key.now }
{
    let sents = push_in_two_threads(rt, depot, key);
    let (first, second) = sents.expect(rt, "a reply is not there");
    let read = read_in_two_threads(rt, depot, &first, &second);
    are_equal(rt, &read, &((0, 2, Some(0x41)), (0, 0, Some(0x40))));
}

fn push_and_read_in_threads<R: AllocGlobal + Abort + Threads + Wait + Sync>(
    rt: &R,
    alloc: Global,
    depot: &Depot,
) {
    let key = frozen(rt, alloc, depot, 0x40);
    pushed_and_read(rt, depot, &key);
}

#[test]
fn threads_push_and_read_side_by_side(rt: HostRuntime) {
    let depot = succeeds(&rt, Depot::new(rt.alloc()));
    push_and_read_in_threads(&rt, rt.alloc(), &depot);
}

/// A parcel and one that was pushed go to a thread each, which tell the length of the one and the page of
/// the other.
fn moved<R: Threads>(rt: &R, parcel: Parcel, sent: Sent) -> (usize, u32) {
    thread::join(rt, move || parcel.bytes().len(), move || sent.page())
}

fn length_and_page<R: AllocGlobal + Abort + Threads + Wait>(rt: &R, alloc: Global, depot: &Depot) {
    let key = frozen(rt, alloc, depot, 0x50);
    let sent = pushed(rt, depot, &key, 2).expect(rt, "a parcel");
    let parcel = answered(depot, &key, 0).expect(rt, "a reply");
    are_equal(rt, &moved(rt, parcel, sent), &(4108, 2));
}

#[test]
fn moves_between_threads(rt: HostRuntime) {
    let depot = succeeds(&rt, Depot::new(rt.alloc()));
    length_and_page(&rt, rt.alloc(), &depot);
}
