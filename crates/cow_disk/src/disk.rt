ghost use Rattle.std.specs.Prelude.{◌≡◌, ◌≢◌, ℕ, ◌+◌, ◌*◌, ◌%◌, ◌<◌, ◌≤◌, ◌↔◌, List, length, slice_index, IfOk, IfErr, IsFalse, IsTrue, OnOk, OnErr, IsErrOf};
ghost use Rattle.page_frames.specs.Tables.{entry_at, entry_bytes};
ghost use Rattle.cow_disk.specs.Disk.{sector_count, sector_at, with_sector};
ghost use Rattle.cow_disk.specs.Paged.{absent_disk, disk_over, here_pages, is_page_here, page_total, with_page, Arrives, IsPageBelow, IsSectorHere, IsUnread, IsUnwritten, IsWholeDisk};

use crate::arrived::Arrived;
use crate::error::{DiskError, ReadError, WriteError};
use crate::shared::SharedTable;
use page_frames::PAGE_SIZE;
use std::alloc::{AllocError, Global};
use std::marker::Model;

/// The bytes of a sector.
pub const SECTOR_SIZE: usize = 512;

/// The most sectors that a disk has.
pub const MAX_SECTORS: u32 = 8192;

/// The sectors of a page. The last page of a disk may have fewer, with zeros behind them.
pub const PAGE_SECTORS: u32 = 8;

/// A disk that can be written. Contracts see its page table, and what it reads over a disk below, which
/// has the absent pages.
#[derive(Drop)]
pub struct Disk {
    table: SharedTable,
}

impl Model for Disk {
    ghost use Rattle.cow_disk.specs.Paged.{PagedDisk};

    ghost Value = { PagedDisk };

    ghost view = { λ d. d.table };
}

impl Disk {
    /// The disk that has these bytes. All its pages are here.
    pub fn from_bytes(alloc: Global, bytes: &[u8]) -> Result<Disk, DiskError>
        ensures ok { IfOk result (λ disk. (below : List ℕ) → disk_over disk below ≡ bytes.now) }
        ensures whole { IfOk result IsWholeDisk }
        ensures size { IfOk result (λ disk. SECTOR_SIZE * disk.sectors ≡ length bytes.now) }
        ensures not_sectors { IsErrOf result DiskError.NotSectors ↔ (length bytes.now % SECTOR_SIZE ≢ 0) }
        ensures too_long { IsErrOf result DiskError.TooLong
            ↔ ((length bytes.now % SECTOR_SIZE ≡ 0) × (SECTOR_SIZE * MAX_SECTORS < length bytes.now)) }
    {
        let (sectors, rest) = bytes.as_chunks::<SECTOR_SIZE>();
        if !rest.is_empty() {
            return Err(DiskError::NotSectors);
        }
        if sectors.len() > MAX_SECTORS as usize {
            return Err(DiskError::TooLong);
        }
        Ok(Disk {
            table: SharedTable::new(alloc, sectors)?,
        })
    }

    /// A disk of so many sectors, of which every page is absent. It takes no memory before a page comes.
    pub fn absent(alloc: Global, sectors: u32) -> Result<Disk, AllocError>
        requires { sectors ≤ MAX_SECTORS }
        ensures { IfOk result (λ disk. disk ≡ absent_disk sectors) }
    {
        Ok(Disk {
            table: SharedTable::absent(alloc, sectors),
        })
    }

    /// How many sectors the disk has.
    pub fn sectors(&self) -> u32
        ensures value { result ≡ self.now.sectors }
        ensures count { (below : List ℕ) → sector_count (disk_over self.now below) ≡ result }
        ensures size { (below : List ℕ) → length (disk_over self.now below) ≡ SECTOR_SIZE * result }
        ensures most { result ≤ MAX_SECTORS }
        ensures pages { length self.now.pages ≡ page_total result }
    {
        self.table.sectors()
    }

    /// How many pages the disk has.
    pub fn pages(&self) -> u32
        ensures value { result ≡ page_total self.now.sectors }
        ensures entries { length self.now.pages ≡ result }
        ensures most { PAGE_SECTORS * result ≤ MAX_SECTORS }
    {
        self.table.pages()
    }

    /// Whether a page is here: the one of sector `PAGE_SECTORS * page`, and of the seven behind it.
    pub fn is_here(&self, page: u32) -> bool
        requires { PAGE_SECTORS * page < self.now.sectors }
        ensures { result ≡ is_page_here self.now page }
    {
        self.table.is_here(page as usize)
    }

    /// Reads sector n. It is refused where the disk has none, and else where its page is absent.
    pub fn read_sector(&self, n: u32, sector: &mut [u8; SECTOR_SIZE]) -> Result<(), ReadError>
        ensures ok { OnOk result ((below : List ℕ) → sector.new ≡ sector_at (disk_over self.now below) n) }
        ensures here { OnOk result (IsSectorHere self.now n) }
        ensures refused { IfErr result (IsUnread self.now n) }
        ensures count { (below : List ℕ) → sector_count (disk_over self.now below) ≡ self.now.sectors }
        ensures err { OnErr result (sector.new ≡ sector.old) }
    {
        if n >= self.sectors() {
            return Err(ReadError::BadSector);
        }
        if !self.is_here(n / PAGE_SECTORS) {
            return Err(ReadError::Absent(n / PAGE_SECTORS));
        }
        *sector = *self.table.sector(n as usize);
        Ok(())
    }

    /// Writes sector n. A sector that other disks share is written to a place of its own, and one
    /// that no other shares in its place. No other disk changes. It is refused where the disk has none, and
    /// else where its page is absent.
    pub fn write_sector(&mut self, n: u32, sector: &[u8; SECTOR_SIZE]) -> Result<(), WriteError>
        ensures ok { OnOk result ((below : List ℕ) → disk_over self.new below ≡ with_sector (disk_over self.old below) n sector.now) }
        ensures pages { here_pages self.new ≡ here_pages self.old }
        ensures sectors { self.new.sectors ≡ self.old.sectors }
        ensures here { OnOk result (IsSectorHere self.old n) }
        ensures refused { IfErr result (IsUnwritten self.old n) }
        ensures count { (below : List ℕ) → sector_count (disk_over self.old below) ≡ self.old.sectors }
        ensures err { OnErr result (self.new ≡ self.old) }
    {
        if n >= self.sectors() {
            return Err(WriteError::BadSector);
        }
        if !self.is_here(n / PAGE_SECTORS) {
            return Err(WriteError::Absent(n / PAGE_SECTORS));
        }
        self.table.write(n as usize, sector)?;
        Ok(())
    }

    /// A page that was sent. Where it is absent it has these bytes from now on, but for those past the last
    /// sector. A page that is here stays as it is.
    pub fn arrive(&mut self, page: u32, bytes: &[u8; PAGE_SIZE]) -> Result<Arrived, AllocError>
        requires { PAGE_SECTORS * page < self.old.sectors }
        ensures ok { IfOk result (Arrives self.old page bytes.now self.new) }
        // A page of the disk below changes nothing that is read.
        ensures reads { (below : List ℕ) → IsPageBelow self.old page bytes.now below → disk_over self.new below ≡ disk_over self.old below }
        ensures err { OnErr result (self.new ≡ self.old) }
    {
        // The call tells how many pages the sectors take.
        let _ = self.sectors();
        if self.is_here(page) {
            return Ok(Arrived::Had(page));
        }
        self.table.arrive(page as usize, bytes)?;
        Ok(Arrived::Got(page))
    }

    /// A frozen disk with the same pages: one that is absent is as in the disk below. It costs one handle,
    /// whatever the size of the disk.
    pub fn freeze(&self) -> Result<FrozenDisk, AllocError>
        ensures { IfOk result (λ frozen. frozen ≡ self.now) }
    {
        Ok(FrozenDisk {
            table: self.table.share()?,
        })
    }
}

/// A disk that stays as it is. Contracts see it as they see a `Disk`.
#[derive(Drop)]
pub struct FrozenDisk {
    table: SharedTable,
}

impl Model for FrozenDisk {
    ghost use Rattle.cow_disk.specs.Paged.{PagedDisk};

    ghost Value = { PagedDisk };

    ghost view = { λ d. d.table };
}

impl FrozenDisk {
    /// How many sectors the disk has.
    pub fn sectors(&self) -> u32
        ensures value { result ≡ self.now.sectors }
        ensures most { result ≤ MAX_SECTORS }
        ensures pages { length self.now.pages ≡ page_total result }
    {
        self.table.sectors()
    }

    /// How many pages the disk has.
    pub fn pages(&self) -> u32
        ensures value { result ≡ page_total self.now.sectors }
        ensures entries { length self.now.pages ≡ result }
        ensures most { PAGE_SECTORS * result ≤ MAX_SECTORS }
    {
        self.table.pages()
    }

    /// Whether the disk has a page of its own, which is not as in the disk below.
    pub fn is_here(&self, page: u32) -> bool
        requires { PAGE_SECTORS * page < self.now.sectors }
        ensures { result ≡ is_page_here self.now page }
    {
        self.table.is_here(page as usize)
    }

    /// Copies a page that the disk has of its own, with zeros past the last sector.
    pub fn read_page(&self, page: u32, bytes: &mut [u8; PAGE_SIZE])
        requires there { PAGE_SECTORS * page < self.now.sectors }
        requires here { IsTrue (is_page_here self.now page) }
        ensures full { length bytes.new ≡ PAGE_SIZE }
        ensures value { bytes.new ≡ entry_bytes (entry_at self.now.pages page) }
        ensures zeros { (at : ℕ) → SECTOR_SIZE * self.now.sectors ≤ PAGE_SIZE * page + at → slice_index bytes.new at ≡ 0 }
    {
        self.table.read_page(page as usize, bytes);
    }

    /// The same frozen disk once more. It costs one handle.
    pub fn share(&self) -> Result<FrozenDisk, AllocError>
        ensures { IfOk result (λ shared. shared ≡ self.now) }
    {
        Ok(FrozenDisk {
            table: self.table.share()?,
        })
    }

    /// A disk with the same pages, to be written: one that is as in the disk below is absent. It costs one
    /// handle.
    pub fn open(&self) -> Result<Disk, AllocError>
        ensures { IfOk result (λ disk. disk ≡ self.now) }
    {
        Ok(Disk {
            table: self.table.share()?,
        })
    }
}
