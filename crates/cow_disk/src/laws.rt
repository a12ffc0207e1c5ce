//! Laws of the definitions, each the contract of a function that does nothing.

ghost use Rattle.std.specs.Prelude.{◌≡◌, ◌≢◌, ℕ, ◌+◌, ◌*◌, ◌<◌, List, length, slice_index, take, IsTrue, IsFalse};
ghost use Rattle.page_frames.specs.Tables.{entry_at, entry_bytes};
ghost use Rattle.cow_disk.specs.Paged.{PagedDisk, absent_disk, disk_over, is_page_here, page_total, IsWholeDisk};
ghost use Rattle.cow_disk.specs.Disk.{sector_count, sector_at, with_sector};

use crate::disk::SECTOR_SIZE;
use page_frames::PAGE_SIZE;

/// A write to a sector puts its bytes there, and leaves all other sectors and their number as they were.
pub fn write_changes_one_sector()
    ensures written { (disk bytes : List ℕ) (n : ℕ) → n < sector_count disk → length bytes ≡ SECTOR_SIZE
        → sector_at (with_sector disk n bytes) n ≡ bytes }
    ensures others { (disk bytes : List ℕ) (n other : ℕ) → n < sector_count disk → length bytes ≡ SECTOR_SIZE → other ≢ n
        → sector_at (with_sector disk n bytes) other ≡ sector_at disk other }
    ensures length_stays { (disk bytes : List ℕ) (n : ℕ) → n < sector_count disk → length bytes ≡ SECTOR_SIZE
        → length (with_sector disk n bytes) ≡ length disk }
{}

/// A disk that lies over another has the bytes of each page at the page's place: its own where the page is
/// here, and else those of the disk below.
pub fn a_disk_lies_over_another()
    ensures size { (disk : PagedDisk) (below : List ℕ) → length disk.pages ≡ page_total disk.sectors → length (disk_over disk below) ≡ SECTOR_SIZE * disk.sectors }
    ensures own { (disk : PagedDisk) (below : List ℕ) (page at : ℕ) → length disk.pages ≡ page_total disk.sectors → at < PAGE_SIZE
        → PAGE_SIZE * page + at < SECTOR_SIZE * disk.sectors → IsTrue (is_page_here disk page)
        → slice_index (disk_over disk below) (PAGE_SIZE * page + at) ≡ slice_index (entry_bytes (entry_at disk.pages page)) at }
    ensures others { (disk : PagedDisk) (below : List ℕ) (page at : ℕ) → length disk.pages ≡ page_total disk.sectors → at < PAGE_SIZE
        → PAGE_SIZE * page + at < SECTOR_SIZE * disk.sectors → IsFalse (is_page_here disk page)
        → slice_index (disk_over disk below) (PAGE_SIZE * page + at) ≡ slice_index below (PAGE_SIZE * page + at) }
    // So page tables of disks lie one over the other as those of RAM do, and are cut once.
    ensures cut { (disk : PagedDisk) (below : List ℕ) → length disk.pages ≡ page_total disk.sectors
        → disk_over disk (take (SECTOR_SIZE * disk.sectors) below) ≡ disk_over disk below }
    ensures absent { (below : List ℕ) → SECTOR_SIZE * sector_count below ≡ length below → disk_over (absent_disk (sector_count below)) below ≡ below }
    ensures whole { (disk : PagedDisk) (below other : List ℕ) → length disk.pages ≡ page_total disk.sectors → IsWholeDisk disk
        → disk_over disk below ≡ disk_over disk other }
{}
