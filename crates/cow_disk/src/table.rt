ghost use Rattle.std.specs.Prelude.{◌≡◌, ℕ, ◌+◌, ◌*◌, ◌≤◌, ◌<◌, ◌⊎◌, List, [], drop, length, min, replicate, slice_index, slice_set, take, IsFalse, IsTrue, OnOk, OnErr, IfOk};
ghost use Rattle.std.specs.List.{concat};
ghost use Rattle.flat_memory.specs.Flat.{put_bytes};
ghost use Rattle.page_frames.specs.Tables.{entry_at, entry_bytes};
ghost use Rattle.cow_disk.specs.Disk.{sector_count, sector_at, with_sector};
ghost use Rattle.cow_disk.specs.Paged.{absent_disk, disk_over, here_pages, is_page_here, padded, page_total, with_page, IsSectorHere, IsWholeDisk};
ghost use Rattle.cow_disk.specs.Sectors.{AreWhole};

use crate::disk::{MAX_SECTORS, PAGE_SECTORS, SECTOR_SIZE};
use crate::sector::Sector;
use flat_memory::write_bytes;
use page_frames::PAGE_SIZE;
use shared_leaves::SharedList;
use std::alloc::{AllocError, Global};
use std::marker::Model;

/// All sectors of a disk, and for each page whether it is here.
#[derive(Drop)]
pub struct Table {
    // What stands in the sectors of an absent page does not show.
    sectors: SharedList<Sector>,
    here: Vec<bool>,
}

impl Model for Table {
    ghost use Rattle.std.specs.List.{concat};
    ghost use Rattle.cow_disk.specs.Paged.{PagedDisk, paged_disk};
    ghost use Rattle.cow_disk.specs.Sectors.{AreSectors};

    ghost Value = { PagedDisk };

    ghost view = { λ t. paged_disk (concat t.sectors) t.here.items };

    ghost invariant = { λ t. AreSectors t.sectors t.here.items };
}

impl Clone for Table {
    ghost use Rattle.std.specs.Prelude.{◌≡◌};

    ghost is_clone = { λ t u. u ≡ t };

    // The copy shares all sectors.
    fn clone(&self) -> Result<Table, AllocError> {
        Ok(Table {
            sectors: self.sectors.share()?,
            here: self.here.clone()?,
        })
    }
}

impl Table {
    /// The table of these sectors, with every page here.
    pub fn new(alloc: Global, sectors: &[[u8; SECTOR_SIZE]]) -> Result<Table, AllocError>
        requires { length sectors.now ≤ MAX_SECTORS }
        ensures ok { IfOk result (λ table. (below : List ℕ) → disk_over table below ≡ concat sectors.now) }
        ensures whole { IfOk result IsWholeDisk }
        ensures count { IfOk result (λ table. table.sectors ≡ length sectors.now) }
    {
        let here = flags(alloc, true, pages_for(sectors.len()))?;
        let mut shared = Vec::with_capacity(alloc, sectors.len())?;
        for sector in sectors {
            shared.push(Sector::new(alloc, sector)?)?;
        }
        Ok(Table {
            sectors: SharedList::from_vec(alloc, shared)?,
            here,
        })
    }

    /// The table of so many sectors, with no page here. All its full leaves are one.
    pub fn absent(alloc: Global, sectors: u32) -> Result<Table, AllocError>
        requires { sectors ≤ MAX_SECTORS }
        ensures { IfOk result (λ table. table ≡ absent_disk sectors) }
    {
        let count = sectors as usize;
        let here = flags(alloc, false, pages_for(count))?;
        Ok(Table {
            sectors: SharedList::repeat(alloc, &Sector::zeros(), count)?,
            here,
        })
    }

    pub fn sectors(&self) -> u32
        ensures value { result ≡ self.now.sectors }
        ensures count { (below : List ℕ) → sector_count (disk_over self.now below) ≡ result }
        ensures size { (below : List ℕ) → length (disk_over self.now below) ≡ SECTOR_SIZE * result }
        ensures most { result ≤ MAX_SECTORS }
        ensures pages { length self.now.pages ≡ page_total result }
    {
        self.sectors.len() as u32
    }

    /// How many pages the sectors take.
    pub fn pages(&self) -> u32
        ensures value { result ≡ page_total self.now.sectors }
        ensures entries { length self.now.pages ≡ result }
        ensures most { PAGE_SECTORS * result ≤ MAX_SECTORS }
    {
        self.here.len() as u32
    }

    /// Whether a page is here.
    pub fn is_here(&self, page: usize) -> bool
        requires { PAGE_SECTORS * page < self.now.sectors }
        ensures { result ≡ is_page_here self.now page }
    {
        self.here[page]
    }

    /// The bytes of a sector.
    pub fn sector(&self, n: usize) -> &[u8; SECTOR_SIZE]
        requires { IsSectorHere self.now n }
        ensures { (below : List ℕ) → result.now ≡ sector_at (disk_over self.now below) n }
    {
        self.sectors.get(n).bytes()
    }

    /// Copies a page that is here, with zeros past the last sector.
    pub fn read_page(&self, page: usize, bytes: &mut [u8; PAGE_SIZE])
        requires there { PAGE_SECTORS * page < self.now.sectors }
        requires here { IsTrue (is_page_here self.now page) }
        ensures full { length bytes.new ≡ PAGE_SIZE }
        ensures value { bytes.new ≡ entry_bytes (entry_at self.now.pages page) }
        ensures zeros { (at : ℕ) → SECTOR_SIZE * self.now.sectors ≤ PAGE_SIZE * page + at → slice_index bytes.new at ≡ 0 }
    {
        let all = self.sectors.len();
        let first = PAGE_SECTORS as usize * page;
        let rows = in_page(all - first);
        *bytes = [0; PAGE_SIZE];
        copy_sectors(&self.sectors, first, rows, bytes);
    }

    /// Writes a sector: in its place where no other table shares it, and else to a place of its own.
    pub fn write(&mut self, n: usize, bytes: &[u8; SECTOR_SIZE]) -> Result<(), AllocError>
        requires { IsSectorHere self.old n }
        ensures ok { OnOk result ((below : List ℕ) → disk_over self.new below ≡ with_sector (disk_over self.old below) n bytes.now) }
        ensures pages { here_pages self.new ≡ here_pages self.old }
        ensures sectors { self.new.sectors ≡ self.old.sectors }
        ensures err { OnErr result (self.new ≡ self.old) }
    {
        write_one(&mut self.sectors, n, bytes)?;
        Ok(())
    }

    /// Puts an absent page in. Where memory is wanting, some of its sectors are written, and do not show.
    pub fn arrive(&mut self, page: usize, bytes: &[u8; PAGE_SIZE]) -> Result<(), AllocError>
        requires there { PAGE_SECTORS * page < self.old.sectors }
        requires absent { IsFalse (is_page_here self.old page) }
        ensures ok { OnOk result (self.new ≡ with_page self.old page bytes.now) }
        ensures err { OnErr result (self.new ≡ self.old) }
    {
        let all = self.sectors.len();
        let (sectors, _) = bytes.as_chunks::<SECTOR_SIZE>();
        let first = PAGE_SECTORS as usize * page;
        let count = in_page(all - first);
        put_sectors(&mut self.sectors, first, &sectors[..count])?;
        self.here[page] = true;
        Ok(())
    }
}

/// How many pages so many sectors take.
fn pages_for(sectors: usize) -> usize
    requires { sectors ≤ MAX_SECTORS }
    ensures { result ≡ page_total sectors }
{
    sectors.div_ceil(PAGE_SECTORS as usize)
}

/// So many equal flags.
fn flags(alloc: Global, flag: bool, count: usize) -> Result<Vec<bool>, AllocError>
    ensures { IfOk result (λ flags. flags.items ≡ replicate count flag) }
{
    Ok(vec![in alloc; flag; count]?)
}

/// How many sectors of a page a disk has, of which so many are left from there on.
fn in_page(left: usize) -> usize
    ensures { result ≡ min left PAGE_SECTORS }
{
    if left < PAGE_SECTORS as usize {
        left
    } else {
        PAGE_SECTORS as usize
    }
}

/// Copies sectors in a row over zeros.
fn copy_sectors(
    sectors: &SharedList<Sector>,
    first: usize,
    count: usize,
    bytes: &mut [u8; PAGE_SIZE],
)
    requires inside { first + count ≤ length sectors.now }
    requires most { length sectors.now ≤ MAX_SECTORS }
    requires few { count ≤ PAGE_SECTORS }
    requires whole { AreWhole sectors.now }
    requires empty { bytes.old ≡ padded [] }
    ensures { bytes.new ≡ padded (take (SECTOR_SIZE * count) (drop (SECTOR_SIZE * first) (concat sectors.now))) }
{
    'row: for n in 0..count {
        let sector = sectors.get(first + n);
        write_bytes(bytes, SECTOR_SIZE * n, sector.bytes());
    }
}

/// Writes a sector of a list.
fn write_one(
    sectors: &mut SharedList<Sector>,
    n: usize,
    bytes: &[u8; SECTOR_SIZE],
) -> Result<(), AllocError>
    requires { n < length sectors.old }
    ensures ok { OnOk result (sectors.new ≡ slice_set sectors.old n bytes.now) }
    ensures full { length bytes.now ≡ SECTOR_SIZE }
    ensures err { OnErr result (sectors.new ≡ sectors.old) }
{
    let alloc = sectors.allocator();
    let sector = sectors.entry_mut(n)?;
    sector.write(alloc, bytes)?;
    Ok(())
}

/// Writes sectors in a row. Where memory is wanting, some of them are written.
fn put_sectors(
    sectors: &mut SharedList<Sector>,
    first: usize,
    row: &[[u8; SECTOR_SIZE]],
) -> Result<(), AllocError>
    requires most { length sectors.old ≤ MAX_SECTORS }
    requires inside { first + length row.now ≤ length sectors.old }
    requires whole { AreWhole sectors.old }
    ensures ok { OnOk result (concat sectors.new ≡ put_bytes (concat sectors.old) (SECTOR_SIZE * first) (concat row.now)) }
    ensures others { (at : ℕ) → (at < SECTOR_SIZE * first) ⊎ (SECTOR_SIZE * (first + length row.now) ≤ at)
        → slice_index (concat sectors.new) at ≡ slice_index (concat sectors.old) at }
    ensures size { length sectors.new ≡ length sectors.old }
    ensures whole { AreWhole sectors.new }
{
    'row: for n in 0..row.len() {
        write_one(sectors, first + n, &row[n])?;
    }
    Ok(())
}
