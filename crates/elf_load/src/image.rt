ghost use Rattle.std.specs.Prelude.{◌≡◌, ◌+◌, ◌*◌, ◌%◌, ◌<◌, ◌≤◌, [], length};
ghost use Rattle.page_frames.specs.Tables.{laid_over};
ghost use Rattle.elf_load.specs.Image.{IsWhole, held_pages};

use page_frames::{PAGE_SIZE, PageTable};
use std::marker::Model;

/// The address of the first byte of RAM.
pub const RAM_BASE: u32 = 0x8000_0000;

/// The fewest pages that RAM has.
pub const MIN_PAGES: u32 = 16;

/// The most pages that RAM has. They end far below 2^32.
pub const MAX_PAGES: u32 = 16_384;

/// What an image puts into a machine: the bytes of RAM from `RAM_BASE` on, the address of the first
/// instruction, and for each page of RAM whether a byte of a segment falls in it. It takes memory for these pages alone.
#[derive(Drop)]
pub struct Loaded {
    /// These pages are held, and the others are blank.
    pub(crate) table: PageTable,
    pub(crate) entry: u32,
}

impl Model for Loaded {
    ghost use Rattle.elf_load.specs.Image.{Image, IsImage, IsWhole, image_in};

    ghost Value = { Image };

    ghost view = { λ l. image_in l.table l.entry };

    ghost invariant = { λ l. IsWhole l.table × IsImage (image_in l.table l.entry) };
}

impl Loaded {
    /// The page table of RAM. The pages in which a byte of a segment falls are held, and the others are blank.
    #[inline]
    pub fn table(&self) -> &PageTable
        ensures ram { laid_over result.now [] ≡ self.now.ram }
        ensures segments { held_pages result.now ≡ self.now.segments }
        ensures whole { IsWhole result.now }
        ensures least { MIN_PAGES ≤ length result.now }
        ensures most { length result.now ≤ MAX_PAGES }
    {
        &self.table
    }

    /// The address of the first instruction, which is in RAM.
    #[inline]
    pub fn entry(&self) -> u32
        ensures value { result ≡ self.now.entry }
        ensures aligned { result % 4 ≡ 0 }
        ensures from_base { RAM_BASE ≤ result }
        ensures below_end { result < RAM_BASE + length self.now.ram }
    {
        self.entry
    }

    /// How many pages RAM has.
    #[inline]
    pub fn pages(&self) -> u32
        ensures value { PAGE_SIZE * result ≡ length self.now.ram }
        ensures least { MIN_PAGES ≤ result }
        ensures most { result ≤ MAX_PAGES }
    {
        self.table.len() as u32
    }
}
