//! Replies to requests for a page of a frozen image, as frames of bytes.
#![tactic(auto)]

pub mod laws;
mod number;

ghost use Rattle.std.specs.Prelude.{◌≡◌, ◌<◌, ◌^◌, ℕ, List, length, IfOk, IsSomeAnd, MatchOption};
ghost use Rattle.fetch_proto.specs.Frame.{frame, IsFrameOf, IsNoFrame};

pub use number::{FIRST_DISK_PAGE, page_number, page_place};
use page_frames::PAGE_SIZE;
use std::alloc::{AllocError, Global};

/// The bytes of a frame.
pub const FRAME_SIZE: usize = 12 + PAGE_SIZE;

/// The number in the four bytes that a frame begins with, `SFR1`.
const MAGIC: u32 = 0x3152_4653;

/// A page of an image, as a frame has it.
#[derive(Drop)]
pub struct Frame<'a> {
    /// The number of the image.
    pub image: u32,
    /// The number of the page in the image.
    pub page: u32,
    /// The bytes of the page.
    pub bytes: &'a [u8; PAGE_SIZE],
}

/// The frame of a page of an image. It takes memory once, for the frame.
#[tactic(auto, using(std::proofs::lemmas::List::append_assoc, crate::proofs::Frames::length_frame), unfolding(crate::specs::Frame::frame))]
pub fn encode_reply(
    alloc: Global,
    image: u32,
    page: u32,
    bytes: &[u8; PAGE_SIZE],
) -> Result<Vec<u8>, AllocError>
    ensures value { IfOk result (λ reply. reply.items ≡ frame image page bytes.now) }
    ensures size { IfOk result (λ reply. length reply.items ≡ FRAME_SIZE) }
{
    let mut reply = Vec::with_capacity(alloc, FRAME_SIZE)?;
    reply.extend_from_slice(&MAGIC.to_le_bytes())?;
    reply.extend_from_slice(&image.to_le_bytes())?;
    reply.extend_from_slice(&page.to_le_bytes())?;
    reply.extend_from_slice(bytes)?;
    Ok(reply)
}

/// Reads a frame, or answers `None` exactly where the bytes are no frame. It lends the bytes of the
/// page as they lie there, and takes no memory.
pub fn decode_frame(bytes: &[u8]) -> Option<Frame<'_>>
    ensures exact { MatchOption result (IsNoFrame bytes.now) (λ f. bytes.now ≡ frame f.image f.page f.bytes.now) }
    ensures read_back { (image page : ℕ) (content : List ℕ) → image < 2 ^ 32 → page < 2 ^ 32 → length content ≡ PAGE_SIZE
        → bytes.now ≡ frame image page content → IsSomeAnd result (λ f. (f.image ≡ image) × (f.page ≡ page) × (f.bytes.now ≡ content)) }
{
    parts_of(bytes)
}

/// The parts of a frame.
#[tactic(auto, unfolding(crate::specs::Frame::frame))]
fn parts_of(bytes: &[u8]) -> Option<Frame<'_>>
    ensures { MatchOption result (IsNoFrame bytes.now) (λ f. IsFrameOf bytes.now f.image f.page f.bytes.now) }
{
    let (magic, rest) = bytes.split_first_chunk::<4>()?;
    let (image, rest) = rest.split_first_chunk::<4>()?;
    let (page, rest) = rest.split_first_chunk::<4>()?;
    let Ok(bytes) = <&[u8; PAGE_SIZE]>::try_from(rest) else {
        return None;
    };
    if u32::from_le_bytes(*magic) != MAGIC {
        return None;
    }
    Some(Frame {
        image: u32::from_le_bytes(*image),
        page: u32::from_le_bytes(*page),
        bytes,
    })
}
