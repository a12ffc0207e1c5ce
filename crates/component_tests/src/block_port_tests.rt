//! The block port.

use crate::equal::{are_equal, succeeds};
use block_port::{BlockFields, BlockPort, Status};
use cow_disk::{Arrived, Disk, FrozenDisk};
use port_error::{Fault, PortError};
use std::alloc::{AllocError, Global};
use std::process::Abort;
use std::thread;
use std::thread::Threads;

/// A frozen disk of one sector of bytes AA.
fn frozen_disk(rt: &impl Abort, alloc: Global) -> FrozenDisk {
    let disk = succeeds(rt, Disk::from_bytes(alloc, &[0xaa; 512]));
    succeeds(rt, disk.freeze())
}

/// A port over this disk, which is opened now.
fn port_over(rt: &impl Abort, alloc: Global, frozen: &FrozenDisk) -> BlockPort {
    BlockPort::new(buffer_place(rt, alloc), succeeds(rt, frozen.open()))
}

/// A place for a buffer, where other bytes stand.
fn buffer_place(rt: &impl Abort, alloc: Global) -> Box<[u8; 512]> {
    succeeds(rt, boxed(alloc, [0xcc; 512]))
}

fn boxed(alloc: Global, bytes: [u8; 512]) -> Result<Box<[u8; 512]>, AllocError> {
    Ok(Box::new(alloc, bytes)?)
}

/// A port over that disk.
fn port_at_start(rt: &impl Abort, alloc: Global) -> BlockPort {
    port_over(rt, alloc, &frozen_disk(rt, alloc))
}

/// A store. Where it touches an absent page of the disk, it is not made.
fn stored(port: &mut BlockPort, offset: u32, width: u32, word: u32) -> Result<(), PortError> {
    if let Some(page) = port.touched(offset, width, word) {
        if !port.is_here(page) {
            return Err(PortError::Memory);
        }
    }
    port.store(offset, width, word)
}

/// SECTOR, STATUS, COUNT and the ends of the buffer.
fn registers(port: &mut BlockPort) -> [Result<u32, Fault>; 5] {
    [
        port.load(0, 4),
        port.load(8, 4),
        port.load(12, 4),
        port.load(0x200, 4),
        port.load(0x3fc, 4),
    ]
}

/// Why a load of so many bytes at an offset fails, and what comes of a store.
type Access = (Option<Fault>, Result<(), PortError>);

fn expected(offset: u32, width: u32) -> Access {
    match (offset, width) {
        (0, 4) => (None, Ok(())),
        (4, 4) => (Some(Fault), Ok(())),
        (8 | 12, 4) => (None, Err(PortError::Fault)),
        (0x200..0x400, 4) if offset % 4 == 0 => (None, Ok(())),
        _ => (Some(Fault), Err(PortError::Fault)),
    }
}

fn takes_a_word(rt: &impl Abort, port: &mut BlockPort, offset: u32, width: u32) {
    let found = (
        port.load(offset, width).err(),
        stored(port, offset, width, 7),
    );
    are_equal(
        rt,
        &(offset, width, found),
        &(offset, width, expected(offset, width)),
    );
}

fn takes_words(rt: &impl Abort, port: &mut BlockPort) {
    for offset in 0..0x410u32 {
        for width in 0..9u32 {
            takes_a_word(rt, port, offset, width);
        }
    }
}

/// The sector, the command, and then the status and the ends of the buffer.
static COMMANDS: [(u32, u32, u32, u32, u32); 8] = [
    (1, 1, 1, 0, 0x11223344),
    (1, 2, 1, 0, 0x11223344),
    (1, 3, 1, 0, 0x11223344),
    (0xffff_ffff, 1, 1, 0, 0x11223344),
    (0, 3, 2, 0, 0x11223344),
    (0, 0, 2, 0, 0x11223344),
    (0, 1, 0, 0xaaaa_aaaa, 0xaaaa_aaaa),
    (0, 2, 0, 0xaaaa_aaaa, 0xaaaa_aaaa),
];

/// Gives a command.
fn give(port: &mut BlockPort, sector: u32, command: u32) -> [Result<(), PortError>; 2] {
    [stored(port, 0, 4, sector), stored(port, 4, 4, command)]
}

fn does_a_command(rt: &impl Abort, port: &mut BlockPort, row: &(u32, u32, u32, u32, u32)) {
    let (sector, command, status, first, last) = *row;
    let given = give(port, sector, command);
    let want = [sector, status, 1, first, last].map(Ok);
    are_equal(
        rt,
        &(row, given, registers(port)),
        &(row, [Ok(()), Ok(())], want),
    );
}

fn does_commands(rt: &impl Abort, port: &mut BlockPort) {
    for row in COMMANDS.iter() {
        does_a_command(rt, port, row);
    }
}

fn starts(rt: &impl Abort, port: &mut BlockPort) {
    let found = (registers(port), stored(port, 0x3fc, 4, 0x11223344));
    are_equal(rt, &found, &([0, 0, 1, 0, 0].map(Ok), Ok(())));
}

#[test]
fn commands_by_the_table_and_words_at_its_registers(rt: HostRuntime) {
    let mut port = port_at_start(&rt, rt.alloc());
    starts(&rt, &mut port);
    does_commands(&rt, &mut port);
    takes_words(&rt, &mut port);
}

/// What comes of reading sector 0, and the first word of the buffer then.
type Word = ([Result<(), PortError>; 2], Result<u32, Fault>);

fn first_word(port: &mut BlockPort) -> Word {
    let given = give(port, 0, 1);
    (given, port.load(0x200, 4))
}

/// That word, where the sector is read.
const fn read(word: u32) -> Word {
    ([Ok(()), Ok(())], Ok(word))
}

/// Writes a sector of these bytes, and changes the buffer then.
fn write_word(port: &mut BlockPort) -> [Result<(), PortError>; 3] {
    [
        stored(port, 0x200, 4, 0x11223344),
        stored(port, 4, 4, 2),
        stored(port, 0x200, 4, 0),
    ]
}

fn writes_alone(rt: &impl Abort, first: &mut BlockPort, second: &mut BlockPort) {
    are_equal(rt, &write_word(first), &[Ok(()), Ok(()), Ok(())]);
    let words = [first_word(first), first_word(second)];
    are_equal(rt, &words, &[read(0x11223344), read(0xaaaa_aaaa)]);
    let loads = [first.load(0x204, 4), first.load(8, 1)];
    are_equal(rt, &loads, &[Ok(0), Err(Fault)]);
}

/// Writes behind one of two ports over this disk. It shows behind none that is opened then.
fn is_written_behind_one(rt: &impl Abort, alloc: Global, frozen: &FrozenDisk) {
    let mut first = port_over(rt, alloc, frozen);
    let mut second = port_over(rt, alloc, frozen);
    writes_alone(rt, &mut first, &mut second);
    let mut third = port_over(rt, alloc, frozen);
    are_equal(rt, &first_word(&mut third), &read(0xaaaa_aaaa));
}

#[test]
fn a_write_shows_behind_one_port(rt: HostRuntime) {
    let frozen = frozen_disk(&rt, rt.alloc());
    is_written_behind_one(&rt, rt.alloc(), &frozen);
}

/// The sector, the command, and the page that it touches, of a disk of nine sectors.
static TOUCHED: [(u32, u32, Option<u32>); 8] = [
    (0, 1, Some(0)),
    (7, 2, Some(0)),
    (8, 1, Some(1)),
    (8, 2, Some(1)),
    (9, 1, None),
    (9, 2, None),
    (0, 3, None),
    (0xffff_ffff, 2, None),
];

fn touches(rt: &impl Abort, port: &mut BlockPort, row: &(u32, u32, Option<u32>)) {
    let (sector, command, page) = *row;
    are_equal(rt, &stored(port, 0, 4, sector), &Ok(()));
    let found = [port.touched(4, 4, command), port.touched(8, 4, command)];
    are_equal(rt, &(row, found), &(row, [page, None]));
}

fn touches_a_page(rt: &impl Abort, port: &mut BlockPort) {
    for row in TOUCHED.iter() {
        touches(rt, port, row);
    }
}

/// The last sector of a disk of nine, whose page comes.
fn reads_what_came(rt: &impl Abort, port: &mut BlockPort) {
    are_equal(rt, &give(port, 8, 1), &[Ok(()), Err(PortError::Memory)]);
    are_equal(rt, &succeeds(rt, arrives(port, 1)), &Some(Arrived::Got(1)));
    are_equal(rt, &give(port, 8, 1), &[Ok(()), Ok(())]);
    are_equal(rt, &port.load(0x200, 4), &Ok(0x5555_5555));
    are_equal(rt, &succeeds(rt, arrives(port, 1)), &Some(Arrived::Had(1)));
}

/// A page of bytes 55 is sent, where the disk has that page.
fn arrives(port: &mut BlockPort, page: u32) -> Result<Option<Arrived>, AllocError> {
    if page >= 1024 || 8 * page >= port.disk().sectors() {
        return Ok(None);
    }
    Ok(Some(port.arrive(page, &[0x55; 4096])?))
}

#[test]
fn waits_for_a_page_of_the_disk(rt: HostRuntime) {
    let disk = succeeds(&rt, Disk::absent(rt.alloc(), 9));
    let mut port = BlockPort::new(buffer_place(&rt, rt.alloc()), disk);
    touches_a_page(&rt, &mut port);
    reads_what_came(&rt, &mut port);
}

/// Fills a buffer, and gives a command for a sector that is not there.
fn asks_for_no_sector(rt: &impl Abort, port: &mut BlockPort) {
    are_equal(rt, &stored(port, 0x204, 4, 0x11223344), &Ok(()));
    are_equal(rt, &give(port, 9, 1), &[Ok(()), Ok(())]);
}

fn has_fields(rt: &impl Abort, port: &mut BlockPort, fields: &BlockFields) {
    are_equal(rt, &port.fields(), fields);
    let found = (fields.sector, fields.status, fields.buffer[4]);
    are_equal(rt, &found, &(9, Status::BadSector, 0x44));
    are_equal(rt, &registers(port), &[9, 1, 1, 0, 0].map(Ok));
}

/// A port of the same fields over a disk that is opened now.
fn same_port(rt: &impl Abort, alloc: Global, port: &BlockPort) -> BlockPort {
    let frozen = succeeds(rt, port.disk().freeze());
    let disk = succeeds(rt, frozen.open());
    BlockPort::of_fields(&port.fields(), buffer_place(rt, alloc), disk)
}

fn is_equal_to_its_same(rt: &impl Abort, alloc: Global, port: &BlockPort) {
    let mut same = same_port(rt, alloc, port);
    has_fields(rt, &mut same, &port.fields());
}

#[test]
fn fields_make_an_equal_port(rt: HostRuntime) {
    let mut port = port_at_start(&rt, rt.alloc());
    asks_for_no_sector(&rt, &mut port);
    is_equal_to_its_same(&rt, rt.alloc(), &port);
}

/// The numbers by which STATUS tells what became of a command.
static NUMBERS: [(Status, u32); 3] = [
    (Status::Done, 0),
    (Status::BadSector, 1),
    (Status::UnknownCommand, 2),
];

#[test]
fn statuses_by_their_numbers(rt: HostRuntime) {
    for (status, number) in NUMBERS.iter() {
        are_equal(&rt, &status.word(), number);
    }
}

/// The word that is read in a thread.
fn word_of_moved<R: Threads>(rt: &R, mut port: BlockPort) -> Word {
    let (word, _) = thread::join(rt, move || first_word(&mut port), || ());
    word
}

#[test]
fn moves_between_threads(rt: HostRuntime) {
    let word = word_of_moved(&rt, port_at_start(&rt, rt.alloc()));
    are_equal(&rt, &word, &read(0xaaaa_aaaa));
}
