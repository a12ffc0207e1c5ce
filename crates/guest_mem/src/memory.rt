ghost use Rattle.std.specs.Prelude.{◌≡◌, ◌⊎◌, ℕ, ◌+◌, ◌*◌, ◌/◌, ◌%◌, ◌<◌, ◌≤◌, false, drop, length, slice_index, slice_index_or, take, MatchBool, MatchResult, OnOk, OnErr, IfOk, IfErr};
ghost use Rattle.std.specs.Option.{option_copied};
ghost use Rattle.byteorder.specs.Endian.{little_from, little_bytes};
ghost use Rattle.flat_memory.specs.Flat.{word_at, put_bytes};
ghost use Rattle.guest_mem.specs.Ram.{IsAbsent, IsHere, IsRam, IsRamOf, at_boot, stored, zeroed};
ghost use Rattle.guest_mem.specs.Answers.{IsRefused};

use crate::answers::{Absent, StoreError};
use elf_load::{Loaded, MAX_PAGES, MIN_PAGES};
use image_depot::{Depot, ImageKey};
use page_frames::{Entry, PAGE_SIZE, Page, PageTable, write_own_page, write_page};
use std::alloc::{AllocError, Global};
use std::marker::Model;
use vm_descriptor::PageMap;

/// The RAM of a guest. Its pages are shared with images and other guests until they are written, and
/// those that are absent are in the image of its key.
pub struct GuestMem {
    pub(crate) entries: PageTable,
    pub(crate) key: Option<ImageKey>,
}

// By hand, since what a derive gives is proved in each crate above, for each type within.
impl Drop for GuestMem {
    fn drop(self) {
        let GuestMem { entries: _, key: _ } = self;
    }
}

impl Model for GuestMem {
    ghost use Rattle.guest_mem.specs.Ram.{Ram, ram_of, IsTable};

    ghost Value = { Ram };

    ghost view = { λ m. ram_of m.entries m.key };

    ghost invariant = { λ m. IsTable m.entries m.key };
}

impl GuestMem {
    /// The RAM of an image that is booted. It shares the pages of the image, and costs one handle a leaf. A page in
    /// which no byte of a segment falls takes no memory.
    pub fn booted(image: &Loaded) -> Result<GuestMem, AllocError>
        ensures { IfOk result (λ memory. memory ≡ at_boot image.now) }
    {
        Ok(GuestMem {
            entries: image.table().share()?,
            key: None,
        })
    }

    /// The bytes of RAM.
    #[inline]
    pub fn size(&self) -> u32
        ensures value { result ≡ length self.now.reads }
        ensures whole_pages { result % PAGE_SIZE ≡ 0 }
        ensures least { PAGE_SIZE * MIN_PAGES ≤ result }
        ensures most { result ≤ PAGE_SIZE * MAX_PAGES }
    {
        self.pages() * PAGE_SIZE as u32
    }

    /// The pages of RAM.
    #[inline]
    pub fn pages(&self) -> u32
        ensures value { result ≡ length self.now.here }
        ensures is_ram { IsRam self.now }
    {
        self.entries.len() as u32
    }

    /// The key to the image that has the absent pages. A guest that was booted has none.
    #[inline]
    pub fn key(&self) -> Option<&ImageKey>
        ensures { option_copied result ≡ self.now.key }
    {
        self.key.as_ref()
    }

    /// The number in the `width` bytes from an offset in RAM on, the lowest first. The width is 1, 2
    /// or 4, and the offset a multiple of it.
    #[inline(always)]
    pub fn load(&self, at: u32, width: u32) -> Result<u32, Absent>
        requires width { (width ≡ 1) ⊎ ((width ≡ 2) ⊎ (width ≡ 4)) }
        requires aligned { at % width ≡ 0 }
        requires inside { at < length self.now.reads }
        ensures { MatchResult result
            (λ number. (number ≡ little_from at width self.now.reads) × IsHere self.now (at / PAGE_SIZE))
            (λ absent. (absent.page ≡ at / PAGE_SIZE) × IsAbsent self.now (at / PAGE_SIZE)) }
    {
        let page = at / PAGE_SIZE as u32;
        match self.entries.get(page as usize) {
            Entry::Held(held) => Ok(number_in(held, at % PAGE_SIZE as u32, width)),
            Entry::Blank => Ok(0),
            Entry::Absent => Err(Absent { page }),
        }
    }

    /// Copies bytes of RAM, from an offset on. Their pages are here.
    pub fn read(&self, at: u32, bytes: &mut [u8])
        requires inside { at + length bytes.old ≤ length self.now.reads }
        requires here { (k : ℕ) → k < length bytes.old → IsHere self.now ((at + k) / PAGE_SIZE) }
        ensures { bytes.new ≡ take (length bytes.old) (drop at self.now.reads) }
    {
        // The call tells how large RAM is at most.
        let _ = self.size();
        for place in 0..bytes.len() {
            bytes[place] = self.byte(at + place as u32);
        }
    }

    /// The byte at an offset in RAM. Its page is here.
    fn byte(&self, at: u32) -> u8
        requires inside { at < length self.now.reads }
        requires here { IsHere self.now (at / PAGE_SIZE) }
        ensures { result ≡ slice_index self.now.reads at }
    {
        match self.entries.get(at as usize / PAGE_SIZE) {
            Entry::Held(page) => page.byte(at % PAGE_SIZE as u32),
            Entry::Blank => 0,
            Entry::Absent => unreachable!(),
        }
    }

    /// Stores the low `width` bytes of a word from an offset in RAM on. The width is 1, 2 or 4, and
    /// the offset a multiple of it.
    #[inline(always)]
    pub fn store(&mut self, at: u32, width: u32, word: u32) -> Result<(), StoreError>
        requires width { (width ≡ 1) ⊎ ((width ≡ 2) ⊎ (width ≡ 4)) }
        requires aligned { at % width ≡ 0 }
        requires inside { at < length self.old.reads }
        ensures ok { OnOk result ((self.new ≡ stored self.old at (little_bytes width word)) × IsHere self.old (at / PAGE_SIZE)) }
        ensures err { IfErr result (λ error. (self.new ≡ self.old) × IsRefused self.old (at / PAGE_SIZE) error) }
    {
        let [a, b, c, d] = word.to_le_bytes();
        match width {
            1 => self.write(at, &[a]),
            2 => self.write(at, &[a, b]),
            _ => self.write(at, &[a, b, c, d]),
        }
    }

    /// The same where this guest holds the page and shares it with none, and it answers whether it has stored. Else nothing
    /// changes. It takes no memory, and may answer no of any page.
    #[inline(always)]
    pub fn store_own(&mut self, at: u32, width: u32, word: u32) -> bool
        requires width { (width ≡ 1) ⊎ ((width ≡ 2) ⊎ (width ≡ 4)) }
        requires aligned { at % width ≡ 0 }
        requires inside { at < length self.old.reads }
        ensures { MatchBool result ((self.new ≡ stored self.old at (little_bytes width word)) × IsHere self.old (at / PAGE_SIZE)) (self.new ≡ self.old) }
    {
        match width {
            1 => self.write_own(at, &[(word % 0x100) as u8]),
            2 => self.write_own(at, &((word % 0x1_0000) as u16).to_le_bytes()),
            _ => self.write_own(at, &word.to_le_bytes()),
        }
    }

    /// Writes bytes that lie in one page where this guest holds that and shares it with none, and answers whether it has
    /// written. Else nothing changes.
    #[inline(always)]
    fn write_own(&mut self, at: u32, bytes: &[u8]) -> bool
        requires in_page { at % PAGE_SIZE + length bytes.now ≤ PAGE_SIZE }
        requires inside { at < length self.old.reads }
        ensures { MatchBool result ((self.new ≡ stored self.old at bytes.now) × IsHere self.old (at / PAGE_SIZE)) (self.new ≡ self.old) }
    {
        let page = at / PAGE_SIZE as u32;
        let place = at % PAGE_SIZE as u32;
        write_own_page(&mut self.entries, page as usize, place, bytes)
    }

    /// Writes bytes that lie in one page.
    #[inline(always)]
    fn write(&mut self, at: u32, bytes: &[u8]) -> Result<(), StoreError>
        requires in_page { at % PAGE_SIZE + length bytes.now ≤ PAGE_SIZE }
        requires inside { at < length self.old.reads }
        ensures ok { OnOk result ((self.new ≡ stored self.old at bytes.now) × IsHere self.old (at / PAGE_SIZE)) }
        ensures err { IfErr result (λ error. (self.new ≡ self.old) × IsRefused self.old (at / PAGE_SIZE) error) }
    {
        let page = at / PAGE_SIZE as u32;
        if !self.entries.get(page as usize).is_own() {
            return Err(StoreError::Absent(Absent { page }));
        }
        let place = at % PAGE_SIZE as u32;
        let Ok(()) = write_page(&mut self.entries, page as usize, place, bytes) else {
            return Err(StoreError::Memory);
        };
        Ok(())
    }

    /// Makes `count` pages blank, from page `first` on. It costs one handle a leaf.
    pub fn zero_pages(&mut self, first: u32, count: u32) -> Result<(), AllocError>
        requires { first + count ≤ length self.old.here }
        ensures ok { OnOk result (self.new ≡ zeroed self.old first count) }
        ensures err { OnErr result (self.new ≡ self.old) }
    {
        let first = first as usize;
        let end = first + count as usize;
        self.entries.fill(first, end, &Entry::Blank)?;
        Ok(())
    }

    /// The word at an offset in RAM, which is a multiple of 4. A page that is absent is read in the
    /// image of the key.
    #[inline]
    pub fn peek(&self, depot: &Depot, at: u32) -> u32
        requires of_depot { IsRamOf depot.now self.now }
        requires aligned { at % 4 ≡ 0 }
        requires inside { at < length self.now.reads }
        ensures { result ≡ word_at self.now.reads at }
    {
        let page = at / PAGE_SIZE as u32;
        let place = at % PAGE_SIZE as u32;
        let entry = self.entries.get(page as usize);
        if entry.is_own() {
            return entry.word(place);
        }
        let Some(key) = &self.key else { unreachable!() };
        depot.frozen(key).word(page, place)
    }

    /// Whether a page is here.
    #[inline]
    pub fn is_here(&self, page: u32) -> bool
        requires { page < length self.now.here }
        ensures { result ≡ slice_index_or self.now.here page false }
    {
        self.entries.get(page as usize).is_own()
    }

    /// For each page, whether it is blank.
    pub fn blank(&self, alloc: Global) -> Result<PageMap, AllocError>
        ensures { IfOk result (λ map. map ≡ self.now.blank) }
    {
        PageMap::of_table(alloc, &self.entries)
    }
}

/// The number in the `width` bytes from a place of a page on, the lowest first.
#[inline(always)]
fn number_in(page: &Page, at: u32, width: u32) -> u32
    requires width { (width ≡ 1) ⊎ ((width ≡ 2) ⊎ (width ≡ 4)) }
    requires within { at + width ≤ PAGE_SIZE }
    ensures { result ≡ little_from at width page.now }
{
    match width {
        1 => u32::from(page.byte(at)),
        2 => u32::from(page.half(at)),
        _ => page.word(at),
    }
}
