ghost use Rattle.std.specs.Prelude.{◌≡◌, ℕ, ◌+◌, ◌*◌, ◌%◌, ◌<◌, ◌≤◌, [], ◌∷◌, length, slice_index, IsTrue, IfOk};
ghost use Rattle.cow_disk.specs.Disk.{sector_count};
ghost use Rattle.cow_disk.specs.Paged.{disk_over, disk_page, disk_pages, IsWholeDisk};
ghost use Rattle.image_depot.specs.Image.{image_of_layers, own_table, page_count, page_word, stacked_disks, IsDiskStack, IsStack, IsWhole};
ghost use Rattle.image_depot.specs.Reply.{ram_page};
ghost use Rattle.page_frames.specs.Tables.{entry_bytes, is_own, laid_over, stacked};

use crate::stack::{first_own, lay_over};
use crate::table::Table;
use console_port::{Input, MAX_INPUT};
use cow_disk::{FrozenDisk, MAX_SECTORS, PAGE_SECTORS, SECTOR_SIZE};
use elf_load::MAX_PAGES;
use page_frames::{Entry, PAGE_SIZE, Page, PageTable};
use std::alloc::{AllocError, Global};
use std::marker::Model;

/// The memory, the disk and the input of a machine at one moment, for its clones to start from. It
/// stays as it is.
pub struct Frozen {
    // Its own table and its own disk are the first, and behind each are those of the image that it is over.
    tables: Vec<Table>,
    disks: Vec<FrozenDisk>,
    input: Input,
}

// By hand, since what a derive gives is proved in each crate above, for each type within.
impl Drop for Frozen {
    fn drop(self) {
        let Frozen {
            tables: _,
            disks: _,
            input: _,
        } = self;
    }
}

impl Model for Frozen {
    ghost use Rattle.image_depot.specs.Image.{FrozenImage, IsFrozen, image_of_layers};

    ghost Value = { FrozenImage };

    ghost view = { λ f. image_of_layers f.tables.items f.disks.items f.input };

    ghost invariant = { λ f. IsFrozen f.tables.items f.disks.items };
}

impl Frozen {
    /// The image with these entries of pages of RAM, this disk, of which every page is here, and this input.
    pub fn new(
        alloc: Global,
        entries: PageTable,
        disk: FrozenDisk,
        input: Input,
    ) -> Result<Frozen, AllocError>
        requires whole { IsWhole entries }
        requires pages_fit { length entries ≤ MAX_PAGES }
        requires disk_whole { IsWholeDisk disk }
        ensures { IfOk result (λ frozen. frozen ≡ image_of_layers (entries ∷ []) (disk ∷ []) input) }
    {
        // The call tells that the disk has an entry for each page.
        let _ = disk.pages();
        let table = Table::new(alloc, entries)?;
        let tables = vec![in alloc; table]?;
        let disks = vec![in alloc; disk]?;
        Ok(Frozen {
            tables,
            disks,
            input,
        })
    }

    /// The same over another image, which has the pages of RAM that have no entry of their own, and those of the disk that
    /// are absent. Where the table, or the disk, has each page, nothing of that image's is kept behind it, and else it costs
    /// one handle for each of them.
    pub fn over(
        alloc: Global,
        base: &Frozen,
        entries: PageTable,
        disk: FrozenDisk,
        input: Input,
    ) -> Result<Frozen, AllocError>
        requires pages { length entries ≡ page_count base.now }
        requires sectors { disk.sectors ≡ sector_count base.now.disk }
        ensures { IfOk result (λ frozen. frozen ≡ record {
          contents = laid_over entries base.now.contents;
          disk = disk_over disk base.now.disk;
          input = input;
        }) }
    {
        // The call tells that the disk has an entry for each page.
        let _ = disk.pages();
        let table = Table::new(alloc, entries)?;
        let tables = lay_over(alloc, table, &base.tables)?;
        let disks = lay_over(alloc, disk, &base.disks)?;
        Ok(Frozen {
            tables,
            disks,
            input,
        })
    }

    /// The page tables that keep the contents of the pages: for each page the first that has an entry
    /// of its own decides, and the last has one for every page.
    #[inline]
    pub fn tables(&self) -> &[Table]
        ensures own { 0 < length result.now }
        ensures stack { IsStack result.now }
        ensures contents { stacked result.now ≡ self.now.contents }
    {
        &self.tables
    }

    /// All bytes that come in.
    #[inline]
    pub fn input(&self) -> &Input
        ensures value { result.now ≡ self.now.input }
        ensures fits { length result.now ≤ MAX_INPUT }
    {
        // The call tells that they fit.
        let _ = self.input.bytes();
        &self.input
    }

    /// The disks that keep the disk: for each page the first that has one of its own decides, and the last has every page.
    #[inline]
    pub fn disk(&self) -> &[FrozenDisk]
        ensures own { 0 < length result.now }
        ensures stack { IsDiskStack (sector_count self.now.disk) result.now }
        ensures value { stacked_disks result.now ≡ self.now.disk }
    {
        &self.disks
    }

    /// How many sectors the disk has.
    #[inline]
    pub fn sectors(&self) -> u32
        ensures value { result ≡ sector_count self.now.disk }
        ensures whole { SECTOR_SIZE * result ≡ length self.now.disk }
        ensures most { result ≤ MAX_SECTORS }
    {
        self.disks[0].sectors()
    }

    /// How many pages the disk has.
    #[inline]
    pub fn disk_pages(&self) -> u32
        ensures value { result ≡ disk_pages self.now.disk }
        ensures most { PAGE_SECTORS * result ≤ MAX_SECTORS }
    {
        // The call tells how many sectors there are.
        let _ = self.sectors();
        self.disks[0].pages()
    }

    /// Copies a page of the disk, with zeros past its last sector.
    pub fn disk_page(&self, page: u32, bytes: &mut [u8; PAGE_SIZE])
        requires { page < disk_pages self.now.disk }
        ensures { bytes.new ≡ disk_page self.now.disk page }
    {
        // The call tells how many pages there are.
        let _ = self.disk_pages();
        let disk = first_own(&self.disks, page as usize);
        // The call tells how many sectors its pages are of.
        let _ = disk.pages();
        disk.read_page(page, bytes);
    }

    /// How many pages of RAM the image has.
    #[inline]
    pub fn pages(&self) -> u32
        ensures value { result ≡ page_count self.now }
        ensures whole { PAGE_SIZE * result ≡ length self.now.contents }
        ensures most { result ≤ MAX_PAGES }
    {
        self.tables[0].entries().len() as u32
    }

    /// The word at a place of a page of RAM, which is a multiple of 4.
    #[inline]
    pub fn word(&self, page: u32, at: u32) -> u32
        requires there { page < page_count self.now }
        requires inside { at < PAGE_SIZE }
        requires aligned { at % 4 ≡ 0 }
        ensures { result ≡ page_word self.now page at }
    {
        self.entry(page).word(at)
    }

    /// The bytes of a page of RAM.
    #[inline]
    pub(crate) fn page(&self, page: u32) -> &[u8; PAGE_SIZE]
        requires { page < page_count self.now }
        ensures value { result.now ≡ ram_page self.now page }
        ensures whole { length (ram_page self.now page) ≡ PAGE_SIZE }
    {
        self.entry(page).bytes()
    }

    /// A page of RAM as a page of its own, which the image shares where it holds it.
    pub fn shared_page(&self, alloc: Global, page: u32) -> Result<Page, AllocError>
        requires { page < page_count self.now }
        ensures { IfOk result (λ shared. shared ≡ ram_page self.now page) }
    {
        page_of(alloc, self.entry(page))
    }

    /// The entry of a page of RAM in the first table that has one of its own.
    #[inline]
    fn entry(&self, page: u32) -> &Entry
        requires { page < page_count self.now }
        ensures own { IsTrue (is_own result.now) }
        ensures there { PAGE_SIZE * page + PAGE_SIZE ≤ length self.now.contents }
        ensures bytes { (at : ℕ) → at < PAGE_SIZE
            → slice_index self.now.contents (PAGE_SIZE * page + at) ≡ slice_index (entry_bytes result.now) at }
    {
        let page = page as usize;
        first_own(&self.tables, page).entries().get(page)
    }
}

/// The page of a table's own as a page of its own. A page that is held is shared.
fn page_of(alloc: Global, entry: &Entry) -> Result<Page, AllocError>
    requires { IsTrue (is_own entry.now) }
    ensures value { IfOk result (λ page. page ≡ entry_bytes entry.now) }
    ensures whole { length (entry_bytes entry.now) ≡ PAGE_SIZE }
{
    let bytes = entry.bytes();
    match entry {
        Entry::Held(page) => page.share(),
        _ => Page::from_slice(alloc, bytes),
    }
}
