ghost use Rattle.std.specs.Prelude.{◌≡◌, ◌+◌, ◌<◌, ◌≤◌, length, slice_index, MatchBool, OnOk, OnErr, IfOk};
ghost use Rattle.std.specs.Arc.{arc_value};
ghost use Rattle.flat_memory.specs.Flat.{word_at, half_at, put_bytes, zeros};

use flat_memory::{read_half, read_word, write_bytes};
use std::alloc::{AllocError, Global};
use std::marker::Model;
use std::sync::Arc;

/// The bytes of a page.
pub const PAGE_SIZE: usize = 4096;

/// The bytes of a page, which are copied in one piece.
#[derive(Drop)]
struct PageBytes {
    bytes: [u8; PAGE_SIZE],
}

impl Clone for PageBytes {
    ghost use Rattle.std.specs.Prelude.{◌≡◌};

    ghost is_clone = { λ frame copy. copy ≡ frame };

    fn clone(&self) -> Result<PageBytes, AllocError> {
        Ok(PageBytes { bytes: self.bytes })
    }
}

/// A page of memory, which is shared until it is written. Contracts see it as its bytes.
#[derive(Drop)]
pub struct Page {
    frame: Arc<PageBytes>,
}

impl Model for Page {
    ghost use Rattle.std.specs.Prelude.{ℕ, ◌≡◌, List, length};
    ghost use Rattle.std.specs.Arc.{arc_value};
    ghost use Rattle.page_frames.specs.declared.page.TheConstants.{PAGE_SIZE};

    ghost Value = { List ℕ };

    ghost view = { λ p. (arc_value p.frame).bytes };

    ghost invariant = { λ p. length (arc_value p.frame).bytes ≡ PAGE_SIZE };
}

impl Page {
    /// A page of zeros.
    pub fn zeroed(alloc: Global) -> Result<Page, AllocError>
        ensures { IfOk result (λ page. page ≡ zeros PAGE_SIZE) }
    {
        Page::from_slice(alloc, &[0; PAGE_SIZE])
    }

    /// A page with these bytes.
    pub fn from_slice(alloc: Global, bytes: &[u8; PAGE_SIZE]) -> Result<Page, AllocError>
        ensures { IfOk result (λ page. page ≡ bytes.now) }
    {
        Ok(Page {
            frame: Arc::new(alloc, PageBytes { bytes: *bytes })?,
        })
    }

    /// The same page once more. It costs one handle.
    pub fn share(&self) -> Result<Page, AllocError>
        ensures { IfOk result (λ page. page ≡ self.now) }
    {
        Ok(Page {
            frame: Arc::try_clone(&self.frame)?,
        })
    }

    /// All its bytes.
    #[inline]
    pub fn bytes(&self) -> &[u8; PAGE_SIZE]
        ensures value { result.now ≡ self.now }
        ensures whole { length self.now ≡ PAGE_SIZE }
    {
        &self.frame.bytes
    }

    /// The byte at a place.
    #[inline]
    pub fn byte(&self, at: u32) -> u8
        requires { at < PAGE_SIZE }
        ensures value { result ≡ slice_index self.now at }
        ensures whole { length self.now ≡ PAGE_SIZE }
    {
        self.frame.bytes[at as usize]
    }

    /// The 16-bit number in the two bytes from a place on.
    #[inline]
    pub fn half(&self, at: u32) -> u16
        requires { at + 2 ≤ PAGE_SIZE }
        ensures value { result ≡ half_at self.now at }
        ensures whole { length self.now ≡ PAGE_SIZE }
    {
        read_half(&self.frame.bytes, at as usize)
    }

    /// The 32-bit number in the four bytes from a place on.
    #[inline]
    pub fn word(&self, at: u32) -> u32
        requires { at + 4 ≤ PAGE_SIZE }
        ensures value { result ≡ word_at self.now at }
        ensures whole { length self.now ≡ PAGE_SIZE }
    {
        read_word(&self.frame.bytes, at as usize)
    }

    /// Writes bytes over those from a place on. A page that others share is copied first, and one
    /// that no other shares is written in its place. No other page changes.
    #[inline(always)]
    pub fn write(&mut self, at: u32, bytes: &[u8]) -> Result<(), AllocError>
        requires { at + length bytes.now ≤ PAGE_SIZE }
        ensures ok { OnOk result (self.new ≡ put_bytes self.old at bytes.now) }
        ensures err { OnErr result (self.new ≡ self.old) }
        ensures whole { length self.old ≡ PAGE_SIZE }
    {
        write_frame(&mut self.frame, at as usize, bytes)
    }

    /// Writes bytes over those from a place on, where no other page shares them, and answers whether it has. Else
    /// nothing changes.
    #[inline(always)]
    pub fn write_own(&mut self, at: u32, bytes: &[u8]) -> bool
        requires { at + length bytes.now ≤ PAGE_SIZE }
        ensures written { MatchBool result (self.new ≡ put_bytes self.old at bytes.now) (self.new ≡ self.old) }
        ensures whole { length self.old ≡ PAGE_SIZE }
    {
        write_own_frame(&mut self.frame, at as usize, bytes)
    }
}

/// Writes bytes of a frame, of which this owner gets a copy first where there are others.
#[inline(always)]
fn write_frame(frame: &mut Arc<PageBytes>, at: usize, bytes: &[u8]) -> Result<(), AllocError>
    requires { at + length bytes.now ≤ length (arc_value frame.old).bytes }
    ensures ok { OnOk result ((arc_value frame.new).bytes ≡ put_bytes (arc_value frame.old).bytes at bytes.now) }
    ensures err { OnErr result ((arc_value frame.new).bytes ≡ (arc_value frame.old).bytes) }
{
    if write_own_frame(frame, at, bytes) {
        return Ok(());
    }
    write_copy(frame, at, bytes)
}

/// The same where this is the one owner, and it answers whether it is. Else nothing changes.
#[inline(always)]
fn write_own_frame(frame: &mut Arc<PageBytes>, at: usize, bytes: &[u8]) -> bool
    requires { at + length bytes.now ≤ length (arc_value frame.old).bytes }
    ensures { MatchBool result
        ((arc_value frame.new).bytes ≡ put_bytes (arc_value frame.old).bytes at bytes.now)
        ((arc_value frame.new).bytes ≡ (arc_value frame.old).bytes) }
{
    let Some(own) = Arc::get_mut(frame) else {
        return false;
    };
    write_bytes(&mut own.bytes, at, bytes);
    true
}

/// The same where there are others. It is apart and never inlined, so that a write to a page that has
/// one owner is short.
#[cold]
#[inline(never)]
fn write_copy(frame: &mut Arc<PageBytes>, at: usize, bytes: &[u8]) -> Result<(), AllocError>
    requires { at + length bytes.now ≤ length (arc_value frame.old).bytes }
    ensures ok { OnOk result ((arc_value frame.new).bytes ≡ put_bytes (arc_value frame.old).bytes at bytes.now) }
    ensures err { OnErr result ((arc_value frame.new).bytes ≡ (arc_value frame.old).bytes) }
{
    write_bytes(&mut Arc::make_mut(frame)?.bytes, at, bytes);
    Ok(())
}
