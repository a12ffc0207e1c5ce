ghost use Rattle.std.specs.Prelude.{◌≡◌, ℕ, ◌+◌, ◌*◌, ◌≤◌, ◌<◌, List, length, slice_index, IsFalse, IsTrue, OnOk, OnErr, IfOk};
ghost use Rattle.std.specs.Arc.{arc_value};
ghost use Rattle.std.specs.List.{concat};
ghost use Rattle.page_frames.specs.Tables.{entry_at, entry_bytes};
ghost use Rattle.cow_disk.specs.Disk.{sector_at, sector_count, with_sector};
ghost use Rattle.cow_disk.specs.Paged.{absent_disk, disk_over, here_pages, is_page_here, page_total, with_page, IsSectorHere, IsWholeDisk};

use crate::disk::{MAX_SECTORS, PAGE_SECTORS, SECTOR_SIZE};
use crate::table::Table;
use page_frames::PAGE_SIZE;
use std::alloc::{AllocError, Global};
use std::marker::Model;
use std::sync::Arc;

/// The table of a disk, which disks share until one of them is written. As long as every page is absent there is none, so
/// a child that never touches its disk takes no memory for it.
#[derive(Drop)]
pub struct SharedTable {
    sectors: u32,
    table: Option<Arc<Table>>,
    alloc: Global,
}

impl Model for SharedTable {
    ghost use Rattle.std.specs.Arc.{arc_value};
    ghost use Rattle.std.specs.Option.{option_map_or};
    ghost use Rattle.cow_disk.specs.Paged.{PagedDisk, absent_disk};
    ghost use Rattle.cow_disk.specs.Sectors.{IsTableOf};

    ghost Value = { PagedDisk };

    ghost view = { λ s. option_map_or arc_value s.table (absent_disk s.sectors) };

    ghost invariant = { λ s. IsTableOf s.sectors (option_map_or arc_value s.table (absent_disk s.sectors)) };
}

impl SharedTable {
    /// The table of these sectors, with every page here.
    pub fn new(alloc: Global, sectors: &[[u8; SECTOR_SIZE]]) -> Result<SharedTable, AllocError>
        requires { length sectors.now ≤ MAX_SECTORS }
        ensures ok { IfOk result (λ table. (below : List ℕ) → disk_over table below ≡ concat sectors.now) }
        ensures whole { IfOk result IsWholeDisk }
        ensures count { IfOk result (λ table. table.sectors ≡ length sectors.now) }
    {
        let table = Table::new(alloc, sectors)?;
        Ok(SharedTable {
            sectors: table.sectors(),
            table: Some(Arc::new(alloc, table)?),
            alloc,
        })
    }

    /// The table of so many sectors, of which every page is absent. It takes no memory.
    pub fn absent(alloc: Global, sectors: u32) -> SharedTable
        requires { sectors ≤ MAX_SECTORS }
        ensures { result ≡ absent_disk sectors }
    {
        SharedTable {
            sectors,
            table: None,
            alloc,
        }
    }

    /// The same table once more. It costs one handle.
    pub fn share(&self) -> Result<SharedTable, AllocError>
        ensures { IfOk result (λ shared. shared ≡ self.now) }
    {
        let table = match &self.table {
            Some(table) => Some(Arc::try_clone(table)?),
            None => None,
        };
        Ok(SharedTable {
            sectors: self.sectors,
            table,
            alloc: self.alloc,
        })
    }

    pub fn sectors(&self) -> u32
        ensures value { result ≡ self.now.sectors }
        ensures count { (below : List ℕ) → sector_count (disk_over self.now below) ≡ result }
        ensures size { (below : List ℕ) → length (disk_over self.now below) ≡ SECTOR_SIZE * result }
        ensures most { result ≤ MAX_SECTORS }
        ensures pages { length self.now.pages ≡ page_total result }
    {
        self.sectors
    }

    /// How many pages the sectors take.
    pub fn pages(&self) -> u32
        ensures value { result ≡ page_total self.now.sectors }
        ensures entries { length self.now.pages ≡ result }
        ensures most { PAGE_SECTORS * result ≤ MAX_SECTORS }
    {
        self.sectors.div_ceil(PAGE_SECTORS)
    }

    /// Whether a page is here.
    #[inline]
    pub fn is_here(&self, page: usize) -> bool
        requires { PAGE_SECTORS * page < self.now.sectors }
        ensures { result ≡ is_page_here self.now page }
    {
        match &self.table {
            Some(table) => table.is_here(page),
            None => false,
        }
    }

    /// The bytes of a sector.
    #[inline]
    pub fn sector(&self, n: usize) -> &[u8; SECTOR_SIZE]
        requires { IsSectorHere self.now n }
        ensures { (below : List ℕ) → result.now ≡ sector_at (disk_over self.now below) n }
    {
        let Some(table) = &self.table else {
            unreachable!();
        };
        table.sector(n)
    }

    /// Copies a page that is here, with zeros past the last sector.
    pub fn read_page(&self, page: usize, bytes: &mut [u8; PAGE_SIZE])
        requires there { PAGE_SECTORS * page < self.now.sectors }
        requires here { IsTrue (is_page_here self.now page) }
        ensures full { length bytes.new ≡ PAGE_SIZE }
        ensures value { bytes.new ≡ entry_bytes (entry_at self.now.pages page) }
        ensures zeros { (at : ℕ) → SECTOR_SIZE * self.now.sectors ≤ PAGE_SIZE * page + at → slice_index bytes.new at ≡ 0 }
    {
        let Some(table) = &self.table else {
            unreachable!();
        };
        table.read_page(page, bytes);
    }

    /// Writes a sector. A table that others share is copied first.
    pub fn write(&mut self, n: usize, bytes: &[u8; SECTOR_SIZE]) -> Result<(), AllocError>
        requires { IsSectorHere self.old n }
        ensures ok { OnOk result ((below : List ℕ) → disk_over self.new below ≡ with_sector (disk_over self.old below) n bytes.now) }
        ensures pages { here_pages self.new ≡ here_pages self.old }
        ensures sectors { self.new.sectors ≡ self.old.sectors }
        ensures err { OnErr result (self.new ≡ self.old) }
    {
        let Some(table) = &mut self.table else {
            unreachable!();
        };
        write_shared(table, n, bytes)
    }

    /// Puts an absent page in. A table that others share is copied first.
    pub fn arrive(&mut self, page: usize, bytes: &[u8; PAGE_SIZE]) -> Result<(), AllocError>
        requires there { PAGE_SECTORS * page < self.old.sectors }
        requires absent { IsFalse (is_page_here self.old page) }
        ensures ok { OnOk result (self.new ≡ with_page self.old page bytes.now) }
        ensures err { OnErr result (self.new ≡ self.old) }
    {
        if let Some(table) = &mut self.table {
            return arrive_shared(table, page, bytes);
        }
        let mut table = Table::absent(self.alloc, self.sectors)?;
        table.arrive(page, bytes)?;
        self.table = Some(Arc::new(self.alloc, table)?);
        Ok(())
    }
}

/// Writes a sector of a table, of which this owner gets a copy first where there are others.
fn write_shared(
    table: &mut Arc<Table>,
    n: usize,
    sector: &[u8; SECTOR_SIZE],
) -> Result<(), AllocError>
    requires { IsSectorHere (arc_value table.old) n }
    ensures ok { OnOk result ((below : List ℕ) → disk_over (arc_value table.new) below ≡ with_sector (disk_over (arc_value table.old) below) n sector.now) }
    ensures pages { here_pages (arc_value table.new) ≡ here_pages (arc_value table.old) }
    ensures sectors { (arc_value table.new).sectors ≡ (arc_value table.old).sectors }
    ensures entries { length (arc_value table.new).pages ≡ length (arc_value table.old).pages }
    ensures err { OnErr result (arc_value table.new ≡ arc_value table.old) }
{
    Arc::make_mut(table)?.write(n, sector)
}

/// Puts an absent page into a table, of which this owner gets a copy first where there are others.
fn arrive_shared(
    table: &mut Arc<Table>,
    page: usize,
    bytes: &[u8; PAGE_SIZE],
) -> Result<(), AllocError>
    requires there { PAGE_SECTORS * page < (arc_value table.old).sectors }
    requires absent { IsFalse (is_page_here (arc_value table.old) page) }
    ensures ok { OnOk result (arc_value table.new ≡ with_page (arc_value table.old) page bytes.now) }
    ensures err { OnErr result (arc_value table.new ≡ arc_value table.old) }
{
    Arc::make_mut(table)?.arrive(page, bytes)
}
