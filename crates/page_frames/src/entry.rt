ghost use Rattle.std.specs.Prelude.{◌≡◌, ◌+◌, ◌≤◌, length, IsTrue, MatchBool, OnOk, OnErr};
ghost use Rattle.flat_memory.specs.Flat.{word_at, put_bytes, zeros};
ghost use Rattle.page_frames.specs.Tables.{IsWritten, entry_bytes, is_blank, is_own};

use crate::page::{PAGE_SIZE, Page};
use shared_leaves::{Handle, SharedList};
use std::alloc::{AllocError, Global};

/// What a page table says of a page.
#[derive(Drop)]
pub enum Entry {
    /// A page with bytes of its own.
    Held(Page),
    /// A page of zeros, for which no memory is taken.
    Blank,
    /// None of the table's own: the page is as in the memory below the table.
    Absent,
}

/// A page table, with an entry for each page. Other tables share its leaves until they write them.
pub type PageTable = SharedList<Entry>;

impl Default for Entry {
    fn default() -> Entry {
        Entry::Absent
    }
}

impl Clone for Entry {
    ghost use Rattle.std.specs.Prelude.{◌≡◌};

    ghost is_clone = { λ entry copy. copy ≡ entry };

    // The copy shares the page.
    fn clone(&self) -> Result<Entry, AllocError> {
        match self {
            Entry::Held(page) => Ok(Entry::Held(page.share()?)),
            Entry::Blank => Ok(Entry::Blank),
            Entry::Absent => Ok(Entry::Absent),
        }
    }
}

impl Handle for Entry {
    ghost use Rattle.std.proofs.Common.{lit<};

    ghost clone_is_equal = { λ entry copy same. same };

    ghost is_small = { (lit< tt, lit< tt) };
}

impl Entry {
    /// Whether the table has a page of its own here.
    #[inline(always)]
    pub fn is_own(&self) -> bool
        ensures { result ≡ is_own self.now }
    {
        !matches!(self, Entry::Absent)
    }

    /// Whether the page is one of zeros for which no memory is taken.
    #[inline(always)]
    pub fn is_blank(&self) -> bool
        ensures { result ≡ is_blank self.now }
    {
        matches!(self, Entry::Blank)
    }

    /// All bytes of the table's own page.
    #[inline]
    pub fn bytes(&self) -> &[u8; PAGE_SIZE]
        requires { IsTrue (is_own self.now) }
        ensures value { result.now ≡ entry_bytes self.now }
        ensures whole { length (entry_bytes self.now) ≡ PAGE_SIZE }
    {
        match self {
            Entry::Held(page) => page.bytes(),
            Entry::Blank => &[0; PAGE_SIZE],
            Entry::Absent => unreachable!(),
        }
    }

    /// The 32-bit number in the four bytes from a place of the table's own page on.
    #[inline]
    pub fn word(&self, at: u32) -> u32
        requires own { IsTrue (is_own self.now) }
        requires within { at + 4 ≤ PAGE_SIZE }
        ensures { result ≡ word_at (entry_bytes self.now) at }
    {
        match self {
            Entry::Held(page) => page.word(at),
            Entry::Blank => 0,
            Entry::Absent => unreachable!(),
        }
    }

    /// Writes bytes over those from a place of the table's own page on. The entry then holds a page,
    /// which no other entry shares.
    #[inline(always)]
    pub fn write(&mut self, alloc: Global, at: u32, bytes: &[u8]) -> Result<(), AllocError>
        requires own { IsTrue (is_own self.old) }
        requires within { at + length bytes.now ≤ PAGE_SIZE }
        ensures ok { OnOk result (self.new ≡ Entry.Held (put_bytes (entry_bytes self.old) at bytes.now)) }
        ensures err { OnErr result (self.new ≡ self.old) }
        ensures whole { length (entry_bytes self.old) ≡ PAGE_SIZE }
    {
        match self {
            Entry::Held(page) => page.write(at, bytes),
            Entry::Blank => self.fill(alloc, at, bytes),
            Entry::Absent => unreachable!(),
        }
    }

    /// Writes bytes over those from a place of a page on that this entry holds and no other shares, and answers whether
    /// it is such a one. Else nothing changes.
    #[inline(always)]
    pub fn write_own(&mut self, at: u32, bytes: &[u8]) -> bool
        requires { at + length bytes.now ≤ PAGE_SIZE }
        ensures { MatchBool result (IsWritten self.old at bytes.now self.new) (self.new ≡ self.old) }
    {
        match self {
            Entry::Held(page) => page.write_own(at, bytes),
            Entry::Blank | Entry::Absent => false,
        }
    }

    /// The same where the page is blank. It is apart and never inlined, so that a write to a page that
    /// is held is short.
    #[cold]
    #[inline(never)]
    fn fill(&mut self, alloc: Global, at: u32, bytes: &[u8]) -> Result<(), AllocError>
        requires blank { self.old ≡ Entry.Blank }
        requires within { at + length bytes.now ≤ PAGE_SIZE }
        ensures ok { OnOk result (self.new ≡ Entry.Held (put_bytes (zeros PAGE_SIZE) at bytes.now)) }
        ensures err { OnErr result (self.new ≡ self.old) }
    {
        let mut page = Page::zeroed(alloc)?;
        page.write(at, bytes)?;
        *self = Entry::Held(page);
        Ok(())
    }
}
