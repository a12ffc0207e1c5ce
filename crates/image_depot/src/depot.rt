ghost use Rattle.std.specs.Prelude.{◌≡◌, ◌*◌, ◌^◌, ◌<◌, ◌≤◌, length, IfOk};
ghost use Rattle.cow_disk.specs.Paged.{disk_page, disk_pages};
ghost use Rattle.fetch_proto.specs.Frame.{frame};
ghost use Rattle.image_depot.specs.Image.{page_count, place_count};
ghost use Rattle.image_depot.specs.Key.{number_of, image_of, IsKeyOf};
ghost use Rattle.image_depot.specs.Reply.{frame_of, reply_of, IsClaimOf, IsSentOf};

use crate::frozen::Frozen;
use crate::key::ImageKey;
use crate::parcel::Parcel;
use crate::sent::Sent;
use boxcar::Pushed;
use cow_disk::{MAX_SECTORS, PAGE_SECTORS};
use elf_load::MAX_PAGES;
use fetch_proto::{encode_reply, page_number};
use page_claims::First;
use page_frames::PAGE_SIZE;
use std::alloc::{AllocError, Global};
use std::marker::Model;
use std::sync::Wait;
use std::thread;

/// All frozen images, and all replies that were sent. Threads share it, and what was put into it stays
/// there until the depot ends.
pub struct Depot {
    images: boxcar::Vec<Frozen>,
    replies: boxcar::Vec<Parcel>,
    alloc: Global,
}

// By hand, since what a derive gives is proved in each crate above, for each type within.
impl Drop for Depot {
    fn drop(self) {
        let Depot {
            images: _,
            replies: _,
            alloc: _,
        } = self;
    }
}

impl Model for Depot {
    ghost use Rattle.image_depot.specs.Key.{Shelves, depot_coded};

    ghost Value = { Shelves };

    ghost coded = { depot_coded };

    ghost view = { λ d. record { images = d.images; replies = d.replies } };
}

impl Depot {
    /// A depot without images and replies.
    pub fn new(alloc: Global) -> Result<Depot, AllocError> {
        Ok(Depot {
            images: boxcar::Vec::new(alloc)?,
            replies: boxcar::Vec::new(alloc)?,
            alloc,
        })
    }

    /// Keeps an image, and gives the key to it. It may wait for another thread that keeps one. There
    /// are 2^32 numbers: where they have run out, it waits for ever.
    pub fn freeze<R: Wait>(&self, rt: &R, frozen: Frozen) -> Result<ImageKey, AllocError>
        ensures here { IfOk result (λ key. IsKeyOf self.now key) }
        ensures image { IfOk result (λ key. image_of key ≡ frozen) }
    {
        let Ok(token) = self.images.push_shown(rt, frozen) else {
            return Err(AllocError);
        };
        wait_unless_numbered(rt, &token);
        ImageKey::of_token(self.alloc, token)
    }

    /// The image of a key. No later call changes it.
    #[inline]
    pub fn frozen(&self, key: &ImageKey) -> &Frozen
        requires { IsKeyOf self.now key.now }
        ensures { result.now ≡ image_of key.now }
    {
        self.images.value(key.token())
    }

    /// How many pages of RAM the image of a key has.
    #[inline]
    pub fn pages(&self, key: &ImageKey) -> u32
        requires { IsKeyOf self.now key.now }
        ensures value { result ≡ page_count (image_of key.now) }
        ensures whole { PAGE_SIZE * result ≡ length (image_of key.now).contents }
        ensures most { result ≤ MAX_PAGES }
    {
        self.frozen(key).pages()
    }

    /// How many pages the disk of the image of a key has.
    #[inline]
    pub fn disk_pages(&self, key: &ImageKey) -> u32
        requires { IsKeyOf self.now key.now }
        ensures value { result ≡ disk_pages (image_of key.now).disk }
        ensures most { PAGE_SECTORS * result ≤ MAX_SECTORS }
    {
        self.frozen(key).disk_pages()
    }

    /// How many pages the image of a key has in all. A page is told by its place: those of RAM come first, and then those
    /// of the disk.
    #[inline]
    pub fn places(&self, key: &ImageKey) -> u32
        requires { IsKeyOf self.now key.now }
        ensures { result ≡ place_count (image_of key.now) }
    {
        self.pages(key) + self.disk_pages(key)
    }

    /// Two keys of one number are to the same image.
    pub fn agree(&self, first: &ImageKey, second: &ImageKey)
        requires first_here { IsKeyOf self.now first.now }
        requires second_here { IsKeyOf self.now second.now }
        requires one_number { number_of first.now ≡ number_of second.now }
        ensures { image_of first.now ≡ image_of second.now }
    {
        self.images.agrees(first.token(), second.token());
    }

    /// The reply to a request for the page at a place of an image. It takes memory once for the frame, and it waits for no
    /// other thread.
    pub fn answer(&self, key: &ImageKey, place: u32) -> Result<Parcel, AllocError>
        requires here { IsKeyOf self.now key.now }
        requires there { place < place_count (image_of key.now) }
        ensures { IfOk result (λ parcel. parcel ≡ record { key = key.now; page = place }) }
    {
        let reply = self.framed(key, place)?;
        Ok(Parcel::of_reply(key.again()?, place, reply))
    }

    /// The frame of the page at a place of an image.
    fn framed(&self, key: &ImageKey, place: u32) -> Result<Vec<u8>, AllocError>
        requires here { IsKeyOf self.now key.now }
        requires there { place < place_count (image_of key.now) }
        ensures { IfOk result (λ reply. reply.items ≡ frame_of key.now place) }
    {
        let image = self.frozen(key);
        let pages = image.pages();
        // The call tells that the disk has few pages.
        let _ = image.disk_pages();
        let number = page_number(pages, place);
        if place < pages {
            return encode_reply(self.alloc, key.number(), number, image.page(place));
        }
        disk_frame(self.alloc, key.number(), number, image, place - pages)
    }

    /// Keeps a parcel, by the first claim of its page. The claim is spent, also where memory is wanting: so what is claimed at
    /// one place is kept once at most. It may wait for another thread that keeps one.
    pub fn push<R: Wait>(&self, rt: &R, first: First, parcel: Parcel) -> Result<Sent, AllocError>
        requires of_depot { IsKeyOf self.now parcel.key }
        requires claimed { IsClaimOf parcel first }
        ensures here { IfOk result (λ sent. IsSentOf self.now sent) }
        ensures value { IfOk result (λ sent. reply_of sent ≡ parcel) }
    {
        let Ok(token) = self.replies.push_shown(rt, parcel) else {
            return Err(AllocError);
        };
        Sent::of_token(self.alloc, token, first.image(), first.page())
    }

    /// The parcel that was pushed. No later call changes it, and it takes no memory.
    #[inline]
    pub fn sent(&self, sent: &Sent) -> &Parcel
        requires { IsSentOf self.now sent.now }
        ensures { result.now ≡ reply_of sent.now }
    {
        self.replies.value(sent.token())
    }
}

/// The frame of a page of the disk of an image, with its number in the frame. It is apart, since it has room for a page, which a
/// page of RAM does not need.
#[inline(never)]
fn disk_frame(
    alloc: Global,
    image: u32,
    number: u32,
    frozen: &Frozen,
    page: u32,
) -> Result<Vec<u8>, AllocError>
    requires { page < disk_pages frozen.now.disk }
    ensures { IfOk result (λ reply. reply.items ≡ frame image number (disk_page frozen.now.disk page)) }
{
    let mut bytes = [0; PAGE_SIZE];
    frozen.disk_page(page, &mut bytes);
    encode_reply(alloc, image, number, &bytes)
}

/// Waits for ever where a token has a number that no key has.
fn wait_unless_numbered<R: Wait>(rt: &R, token: &Pushed<Frozen>)
    ensures { number_of token.now < 2 ^ 32 }
{
    for _ in rt.forever() {
        if token.index() <= u32::MAX as usize {
            return;
        }
        thread::yield_now();
    }
}
