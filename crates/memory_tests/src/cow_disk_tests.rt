//! Disks: that calls succeed, that disks really share their sectors, and that they move between threads.

use crate::equal::are_equal;
use crate::process::{are_few, resident_bytes};
use cow_disk::{Arrived, Disk, DiskError, FrozenDisk, ReadError, WriteError};
use std::alloc::{AllocError, Global};
use std::process::Abort;
use std::rt::Files;
use std::test::Fail;
use std::thread;
use std::thread::Threads;

/// The bytes of the longest disk.
const LONGEST: usize = 4_194_304;

fn disk_of(alloc: Global, byte: u8, length: usize) -> Result<Disk, DiskError> {
    Disk::from_bytes(alloc, &vec![in alloc; byte; length]?)
}

/// The first byte of sector n.
fn byte_of(disk: &Disk, n: u32) -> Result<u8, ReadError> {
    let mut sector = [0; 512];
    disk.read_sector(n, &mut sector)?;
    Ok(sector[0])
}

/// How many sectors a disk of so many bytes has.
fn sectors_of(alloc: Global, length: usize) -> Result<u32, DiskError> {
    let disk = disk_of(alloc, 0, length)?;
    Ok(disk.sectors())
}

/// How many bytes are taken for a disk, and how many sectors it has then.
static LENGTHS: [(usize, Result<u32, DiskError>); 6] = [
    (0, Ok(0)),
    (512, Ok(1)),
    (513, Err(DiskError::NotSectors)),
    (LONGEST, Ok(8192)),
    (LONGEST + 1, Err(DiskError::NotSectors)),
    (LONGEST + 512, Err(DiskError::TooLong)),
];

#[test]
fn takes_whole_sectors(rt: HostRuntime) {
    for row in LENGTHS.iter() {
        are_equal(&rt, &(row.0, sectors_of(rt.alloc(), row.0)), row);
    }
}

/// Writes sector 1 twice.
fn write_twice(disk: &mut Disk) -> [Result<(), WriteError>; 2] {
    [
        disk.write_sector(1, &[0x11; 512]),
        disk.write_sector(1, &[0x22; 512]),
    ]
}

/// A disk that is opened now has this first byte in sector 1.
fn has_byte(rt: &impl Abort, frozen: &FrozenDisk, byte: u8) -> Result<(), AllocError> {
    let disk = frozen.open()?;
    are_equal(rt, &byte_of(&disk, 1), &Ok(byte));
    Ok(())
}

/// The write shows in the disk that was written, and in one that is opened as that one is now. It shows in no other
/// disk, and in none that is opened from the frozen one.
fn shows_in_one(
    rt: &impl Abort,
    written: &Disk,
    other: &Disk,
    frozen: &FrozenDisk,
) -> Result<(), AllocError> {
    let bytes = [byte_of(written, 0), byte_of(written, 1), byte_of(other, 1)];
    are_equal(rt, &bytes, &[Ok(0xaa), Ok(0x22), Ok(0xaa)]);
    has_byte(rt, frozen, 0xaa)?;
    has_byte(rt, &written.freeze()?, 0x22)
}

/// A disk that is opened from a handle on a frozen one.
fn opened_from_share(frozen: &FrozenDisk) -> Result<Disk, AllocError> {
    let shared = frozen.share()?;
    shared.open()
}

/// Writes one of two disks.
fn is_written_alone(rt: &impl Abort, frozen: &FrozenDisk) -> Result<(), AllocError> {
    let mut first = frozen.open()?;
    let second = opened_from_share(frozen)?;
    are_equal(rt, &write_twice(&mut first), &[Ok(()), Ok(())]);
    shows_in_one(rt, &first, &second, frozen)
}

/// A frozen disk of so many bytes 0xaa.
fn frozen_of(alloc: Global, length: usize) -> Result<FrozenDisk, DiskError> {
    let disk = disk_of(alloc, 0xaa, length)?;
    Ok(disk.freeze()?)
}

#[test]
fn a_write_shows_in_one_disk(rt: HostRuntime) -> Result<(), DiskError> {
    let frozen = frozen_of(rt.alloc(), 1024)?;
    Ok(is_written_alone(&rt, &frozen)?)
}

#[test]
fn refuses_a_sector_past_the_last(rt: HostRuntime) -> Result<(), DiskError> {
    let mut disk = disk_of(rt.alloc(), 0xaa, 1024)?;
    is_refused(&rt, &mut disk);
    Ok(())
}

fn is_refused(rt: &impl Abort, disk: &mut Disk) {
    let written = disk.write_sector(2, &[0; 512]);
    are_equal(rt, &written, &Err(WriteError::BadSector));
    are_equal(rt, &byte_of(disk, 2), &Err(ReadError::BadSector));
}

/// So many disks, each opened from a frozen one, and each with a sector of its own.
fn written_disks(alloc: Global, frozen: &FrozenDisk, count: u32) -> Result<Vec<Disk>, WriteError> {
    let mut disks = Vec::new(alloc);
    for n in 0..count {
        let disk = written_disk(frozen, n)?;
        if disks.push(disk).is_err() {
            return Err(WriteError::Memory);
        }
    }
    Ok(disks)
}

fn written_disk(frozen: &FrozenDisk, n: u32) -> Result<Disk, WriteError> {
    let mut disk = frozen.open()?;
    disk.write_sector(n, &[0x11; 512])?;
    Ok(disk)
}

/// Whether a disk has its own sector, the n-th, and the last one as it was.
fn is_written(disk: &Disk, n: u32) -> bool {
    [byte_of(disk, n), byte_of(disk, 8191)] == [Ok(0x11), Ok(0xaa)]
}

/// How many of the disks have their own sector, and the last one as it was. The n-th wrote sector n.
fn as_written(disks: &[Disk]) -> usize {
    let mut count = 0;
    for (n, disk) in (0..1000).zip(disks) {
        if !is_written(disk, n) {
            return count;
        }
        count = n as usize + 1;
    }
    count
}

// A whole copy takes four megabytes a disk, and a copy of handles to all sectors 64 kilobytes.
fn share_the_longest<R: Abort + Alloc + Files>(
    rt: &R,
    alloc: Global,
    frozen: &FrozenDisk,
) -> Result<(), Fail> {
    let before = resident_bytes(rt)?;
    let disks = written_disks(alloc, frozen, 1000)?;
    are_few(rt, resident_bytes(rt)?.saturating_sub(before));
    are_equal(rt, &as_written(&disks), &1000);
    Ok(())
}

#[test]
fn a_thousand_disks_share_the_longest(rt: HostRuntime) -> Result<(), Fail> {
    let frozen = frozen_of(rt.alloc(), LONGEST)?;
    share_the_longest(&rt, rt.alloc(), &frozen)
}

/// One thread opens a disk, and another reads one.
fn are_opened_and_read<R: Abort + Threads>(
    rt: &R,
    frozen: &FrozenDisk,
    disk: Disk,
) -> Result<(), AllocError> {
    let (opened, byte) = thread::join(rt, || frozen.open(), move || byte_of(&disk, 0));
    are_equal(rt, &byte, &Ok(0xaa));
    are_equal(rt, &byte_of(&opened?, 0), &Ok(0xaa));
    Ok(())
}

#[test]
fn moves_between_threads(rt: HostRuntime) -> Result<(), DiskError> {
    let frozen = frozen_of(rt.alloc(), 512)?;
    Ok(are_opened_and_read(&rt, &frozen, frozen.open()?)?)
}

// ---- disks of which pages are absent

/// A page in which each sector has a byte of its own: sector n of the page has 0x10 and n.
fn page_of_sectors() -> [u8; 4096] {
    let mut page = [0; 4096];
    for at in 0..4096 {
        page[at] = 0x10 + (at / 512) as u8;
    }
    page
}

/// The sectors of a disk, its last sector, the page of that, and the byte that this sector has in a page.
type Row = (u32, u32, u32, u8);

static SIZES: [Row; 4] = [
    (1, 0, 0, 0x10),
    (8, 7, 0, 0x17),
    (9, 8, 1, 0x10),
    (8192, 8191, 1023, 0x17),
];

/// What is read of the last sector, and of the one behind it.
fn ends(disk: &Disk, last: u32) -> [Result<u8, ReadError>; 2] {
    [byte_of(disk, last), byte_of(disk, last.saturating_add(1))]
}

/// That page is sent.
fn sent(rt: &impl Abort, disk: &mut Disk, page: u32) -> Result<Arrived, AllocError> {
    assert!(rt; page < 1024 && 8 * page < disk.sectors());
    disk.arrive(page, &page_of_sectors())
}

/// The last page of an absent disk comes, and comes once more when its last sector was written.
fn comes_and_stays(rt: &impl Abort, disk: &mut Disk, row: &Row) {
    let (sectors, last, page, byte) = *row;
    are_equal(rt, &disk.sectors(), &sectors);
    let absent = [Err(ReadError::Absent(page)), Err(ReadError::BadSector)];
    are_equal(rt, &ends(disk, last), &absent);
    are_equal(
        rt,
        &disk.write_sector(last, &[0; 512]),
        &Err(WriteError::Absent(page)),
    );
    are_equal(rt, &sent(rt, disk, page), &Ok(Arrived::Got(page)));
    are_equal(
        rt,
        &ends(disk, last),
        &[Ok(byte), Err(ReadError::BadSector)],
    );
    are_equal(rt, &disk.write_sector(last, &[0x77; 512]), &Ok(()));
    are_equal(rt, &sent(rt, disk, page), &Ok(Arrived::Had(page)));
    are_equal(
        rt,
        &ends(disk, last),
        &[Ok(0x77), Err(ReadError::BadSector)],
    );
    are_equal(rt, &disk.sectors(), &sectors);
}

fn has_a_last_page(rt: &impl Abort, alloc: Global, row: &Row) -> Result<(), AllocError> {
    assert!(rt; row.0 <= 8192);
    let mut disk = Disk::absent(alloc, row.0)?;
    comes_and_stays(rt, &mut disk, row);
    Ok(())
}

#[test]
fn pages_of_the_disk(rt: HostRuntime) -> Result<(), AllocError> {
    for row in SIZES.iter() {
        has_a_last_page(&rt, rt.alloc(), row)?;
    }
    Ok(())
}
