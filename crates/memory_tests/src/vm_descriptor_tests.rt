//! Descriptors: that calls succeed, where each field stands in the bytes of each version, how maps are spelled, and bytes
//! for each reason why there are none.

use crate::changes::changed;
use crate::equal::{are_equal, succeeds};
use block_port::{BlockFields, Status};
use console_port::ConsoleFields;
use guest_pmp::{Mode, PmpRegisters};
use rv_traps::{CsrRegisters, Csrs};
use std::alloc::Global;
use std::process::Abort;
use std::thread;
use std::thread::Threads;
use timer_port::{TimerPort, TimerRegisters};
use vm_descriptor::{DescError, Descriptor, PageMap};

/// A map of so many pages, all blank but one.
fn map_of(rt: &impl Abort, alloc: Global, pages: usize, held: usize) -> PageMap {
    let mut blank = succeeds(rt, vec![in alloc; true; pages]);
    if let Some(page) = blank.get_mut(held) {
        *page = false;
    }
    PageMap::from_vec(blank)
}

/// The registers of a program that stands behind a CLONE.
fn registers_at_clone() -> [u32; 31] {
    let mut registers = [0; 31];
    registers[4] = 0x1000_2000;
    registers[5] = 2;
    registers[6] = 1;
    registers
}

/// The first of two clones of a machine with 16 pages, that made ten steps to its CLONE.
fn first_child(rt: &impl Abort, alloc: Global) -> Descriptor {
    let mut csrs = Csrs::reset().fields();
    csrs.mcycle = 10;
    csrs.minstret = 10;
    let mut timer = TimerPort::new().fields();
    timer.mtime = 10;
    Descriptor {
        image: 0,
        pages: 16,
        clone_id: 1,
        share: 0,
        pc: 0x8000_0028,
        registers: registers_at_clone(),
        csrs,
        timer,
        steps: 10,
        limit: 1_000_000,
        reservation: None,
        console: ConsoleFields {
            place: 0,
            line_control: 0,
        },
        block: BlockFields {
            sector: 0,
            status: Status::Done,
            buffer: [0; 512],
        },
        argument_0: 1,
        argument_1: 0,
        join_select: 0,
        granted: 2,
        blank: map_of(rt, alloc, 16, 0),
    }
}

/// x1 to x31, each with a number of its own.
fn numbered_registers() -> [u32; 31] {
    let mut registers = [0; 31];
    for index in 0..31 {
        registers[index] = 0x0100_0001 + index as u32;
    }
    registers
}

/// A buffer that is told apart at both ends.
fn marked_buffer() -> [u8; 512] {
    let mut buffer = [0; 512];
    buffer[0] = 0xb1;
    buffer[511] = 0xb2;
    buffer
}

/// Registers that all differ, in their ranges.
fn numbered_csrs() -> CsrRegisters {
    CsrRegisters {
        mode: Mode::User,
        mstatus: 0x2_1888,
        mie: 0x80,
        mtvec: 0x8000_0101,
        mscratch: 0x0201_0101,
        mepc: 0x8000_0204,
        mcause: 0x8000_0007,
        mtval: 0x0201_0102,
        mcycle: 0x0302_0101_0101_0101,
        minstret: 0x0302_0101_0101_0102,
        pmp: no_entries(),
    }
}

/// Entries of memory protection that all differ.
fn numbered_entries() -> PmpRegisters {
    PmpRegisters {
        configurations: [0x01, 0x03, 0x04, 0x05, 0x07, 0x0f, 0x18, 0x9f],
        addresses: [
            0x0601_0101,
            0x0601_0102,
            0x0601_0103,
            0x0601_0104,
            0x0601_0105,
            0x0601_0106,
            0x0601_0107,
            0xffff_ffff,
        ],
    }
}

/// A descriptor whose fields all differ, with 20 pages of which the first and the last are blank.
fn numbered(rt: &impl Abort, alloc: Global) -> Descriptor {
    let mut blank = succeeds(rt, vec![in alloc; false; 20]);
    for page in [0, 19] {
        if let Some(flag) = blank.get_mut(page) {
            *flag = true;
        }
    }
    Descriptor {
        image: 0x0401_0101,
        pages: 20,
        clone_id: 0x0a0b,
        share: 0x0c0d,
        pc: 0x8000_1234,
        registers: numbered_registers(),
        csrs: numbered_csrs(),
        timer: TimerRegisters {
            mtime: 0x0302_0101_0101_0103,
            mtimecmp: 0x0302_0101_0101_0104,
        },
        steps: 0x0102_0304,
        limit: 0x0102_0305,
        reservation: Some(0x8000_0ff0),
        console: ConsoleFields {
            place: 0x1234,
            line_control: 0x83,
        },
        block: BlockFields {
            sector: 0x0501_0101,
            status: Status::UnknownCommand,
            buffer: marked_buffer(),
        },
        argument_0: 0x0501_0102,
        argument_1: 0x0501_0103,
        join_select: 0x0501_0104,
        granted: 0x0501_0105,
        blank: PageMap::from_vec(blank),
    }
}

/// Bytes of the first child, by their places.
static FIRST_CHILD: [(usize, &[u8]); 10] = [
    (4, b"\0\0\0\0\x10\0\0\0"),
    (12, b"\x01\0\0\0\0\0\0\0\x28\0\0\x80"),
    (40, b"\0\x20\0\x10\x02\0\0\0\x01\0\0\0"),
    (148, b"\0\x18\0\0\0\0\0\0"),
    (
        176,
        b"\x0a\0\0\0\0\0\0\0\x0a\0\0\0\0\0\0\0\x0a\0\0\0\0\0\0\0",
    ),
    (200, b"\xff\xff\xff\xff\xff\xff\xff\xff"),
    (208, b"\x0a\0\0\0\0\0\0\0\x40\x42\x0f\0\0\0\0\0"),
    (224, b"\0\0\0\0\0\0\0\0"),
    (248, b"\x01\0\0\0\0\0\0\0"),
    (260, b"\x02\0\0\0"),
];

/// Its mark, its entries and its map in the versions, the newest first.
static FIRST_CHILD_NEW: [(usize, &[u8]); 3] = [(0, b"SFD3"), (776, &[0; 40]), (816, b"\0\xfe\xff")];

static FIRST_CHILD_SECOND: [(usize, &[u8]); 2] = [(0, b"SFD2"), (776, b"\0\xfe\xff")];

static FIRST_CHILD_OLD: [(usize, &[u8]); 2] = [(0, b"SFD1"), (776, b"\xfe\xff")];

/// Bytes of the descriptor whose fields all differ, by their places.
static NUMBERED: [(usize, &[u8]); 22] = [
    (4, b"\x01\x01\x01\x04"),
    (8, b"\x14\0\0\0\x0b\x0a\0\0"),
    (16, b"\x0d\x0c\0\0\x34\x12\0\x80"),
    (24, b"\x01\0\0\x01\x02\0\0\x01"),
    (144, b"\x1f\0\0\x01"),
    (148, b"\x88\x18\x02\x80\x80\0\0\0"),
    (156, b"\x01\x01\0\x80\x01\x01\x01\x02"),
    (164, b"\x04\x02\0\x80\x07\0\0\x80"),
    (172, b"\x02\x01\x01\x02"),
    (176, b"\x01\x01\x01\x01\x01\x01\x02\x03"),
    (184, b"\x02\x01\x01\x01\x01\x01\x02\x03"),
    (192, b"\x03\x01\x01\x01\x01\x01\x02\x03"),
    (200, b"\x04\x01\x01\x01\x01\x01\x02\x03"),
    (208, b"\x04\x03\x02\x01\0\0\0\0"),
    (216, b"\x05\x03\x02\x01\0\0\0\0"),
    (224, b"\x01\0\0\0\xf0\x0f\0\x80"),
    (232, b"\x34\x12\0\0\x83\0\0\0"),
    (240, b"\x01\x01\x01\x05\x02\0\0\0"),
    (248, b"\x02\x01\x01\x05\x03\x01\x01\x05"),
    (256, b"\x04\x01\x01\x05\x05\x01\x01\x05"),
    (264, b"\xb1\0\0\0"),
    (772, b"\0\0\0\xb2"),
];

/// Its mark, its entries where they are not 0, and its map in the versions, the newest first.
static NUMBERED_NEW: [(usize, &[u8]); 5] = [
    (0, b"SFD3"),
    (776, b"\x01\x03\x04\x05\x07\x0f\x18\x9f"),
    (784, b"\x01\x01\x01\x06\x02\x01\x01\x06"),
    (808, b"\x07\x01\x01\x06\xff\xff\xff\xff"),
    (816, b"\0\x01\0\x08"),
];

static NUMBERED_SECOND: [(usize, &[u8]); 2] = [(0, b"SFD2"), (776, b"\0\x01\0\x08")];

static NUMBERED_OLD: [(usize, &[u8]); 2] = [(0, b"SFD1"), (776, b"\x01\0\x08")];

/// The first place at which bytes do not stand as a table tells, if there is one.
fn misplaced(bytes: &[u8], rows: &[(usize, &[u8])]) -> Option<usize> {
    for (at, part) in rows {
        if !stands_at(bytes, *at, part) {
            return Some(*at);
        }
    }
    None
}

/// Whether a part of bytes stands at a place.
fn stands_at(bytes: &[u8], at: usize, part: &[u8]) -> bool {
    bytes.split_at(at.min(bytes.len())).1.starts_with(part)
}

/// A version of the bytes.
#[derive(Clone, Copy, Debug, PartialEq, Eq)]
enum Format {
    Old,
    Second,
    New,
}

/// No entries of memory protection.
fn no_entries() -> PmpRegisters {
    PmpRegisters {
        configurations: [0; 8],
        addresses: [0; 8],
    }
}

/// The bytes of a descriptor that is in range, in the newest version.
fn new_bytes(alloc: Global, descriptor: &Descriptor) -> Result<Vec<u8>, DescError> {
    if !descriptor.is_in_range() {
        return Err(DescError::Refused(0));
    }
    Ok(descriptor.encode(alloc)?)
}

/// The bytes of a descriptor that is in range, in the second version. It has no entries of memory protection.
fn second_bytes(alloc: Global, mut descriptor: Descriptor) -> Result<Vec<u8>, DescError> {
    descriptor.csrs.pmp = PmpRegisters {
        configurations: [0; 8],
        addresses: [0; 8],
    };
    if !descriptor.is_in_range() {
        return Err(DescError::Refused(0));
    }
    Ok(descriptor.encode_v2(alloc)?)
}

/// The same in the first version, where it has at most 1,024 pages.
fn old_bytes(alloc: Global, mut descriptor: Descriptor) -> Result<Vec<u8>, DescError> {
    descriptor.csrs.pmp = PmpRegisters {
        configurations: [0; 8],
        addresses: [0; 8],
    };
    if !descriptor.is_in_range() || descriptor.pages > 1024 {
        return Err(DescError::Refused(0));
    }
    Ok(descriptor.encode_old(alloc)?)
}

/// The bytes of a descriptor in a version that can tell of it.
fn bytes_in(alloc: Global, descriptor: Descriptor, format: Format) -> Result<Vec<u8>, DescError> {
    if format == Format::New {
        return new_bytes(alloc, &descriptor);
    }
    if descriptor.csrs.pmp != no_entries() {
        return Err(DescError::Refused(0));
    }
    if format == Format::Second {
        second_bytes(alloc, descriptor)
    } else {
        old_bytes(alloc, descriptor)
    }
}

/// The bytes of what bytes are read as.
fn again(alloc: Global, bytes: &[u8], format: Format) -> Result<Vec<u8>, DescError> {
    let descriptor = Descriptor::decode(alloc, bytes)?;
    bytes_in(alloc, descriptor, format)
}

/// The bytes of the first child.
fn first_bytes(rt: &impl Abort, alloc: Global, format: Format) -> Vec<u8> {
    let descriptor = first_child(rt, alloc);
    succeeds(rt, bytes_in(alloc, descriptor, format))
}

/// The bytes of the descriptor whose fields all differ.
fn numbered_bytes(rt: &impl Abort, alloc: Global, format: Format) -> Vec<u8> {
    let descriptor = numbered(rt, alloc);
    succeeds(rt, bytes_in(alloc, descriptor, format))
}

fn are_placed(rt: &impl Abort, bytes: &[u8], rows: &[(usize, &[u8])]) {
    are_equal(rt, &misplaced(bytes, rows), &None);
}

/// The bytes of that with entries.
fn protected_bytes(rt: &impl Abort, alloc: Global) -> Vec<u8> {
    let mut descriptor = numbered(rt, alloc);
    descriptor.csrs.pmp = numbered_entries();
    succeeds(rt, bytes_in(alloc, descriptor, Format::New))
}

#[test]
fn fields_stand_at_their_places(rt: HostRuntime) {
    let first = first_bytes(&rt, rt.alloc(), Format::New);
    are_placed(&rt, &first, &FIRST_CHILD);
    are_placed(&rt, &first, &FIRST_CHILD_NEW);
    let protected = protected_bytes(&rt, rt.alloc());
    are_placed(&rt, &protected, &NUMBERED);
    are_placed(&rt, &protected, &NUMBERED_NEW);
    are_equal(&rt, &(first.len(), protected.len()), &(819, 820));
}

#[test]
fn fields_of_the_second_version_stand_at_their_places(rt: HostRuntime) {
    let first = first_bytes(&rt, rt.alloc(), Format::Second);
    are_placed(&rt, &first, &FIRST_CHILD);
    are_placed(&rt, &first, &FIRST_CHILD_SECOND);
    let numbered = numbered_bytes(&rt, rt.alloc(), Format::Second);
    are_placed(&rt, &numbered, &NUMBERED);
    are_placed(&rt, &numbered, &NUMBERED_SECOND);
    are_equal(&rt, &(first.len(), numbered.len()), &(779, 780));
}

#[test]
fn fields_of_the_first_version_stand_at_their_places(rt: HostRuntime) {
    let first = first_bytes(&rt, rt.alloc(), Format::Old);
    are_placed(&rt, &first, &FIRST_CHILD);
    are_placed(&rt, &first, &FIRST_CHILD_OLD);
    let numbered = numbered_bytes(&rt, rt.alloc(), Format::Old);
    are_placed(&rt, &numbered, &NUMBERED);
    are_placed(&rt, &numbered, &NUMBERED_OLD);
    are_equal(&rt, &(first.len(), numbered.len()), &(778, 779));
}

fn is_read(rt: &impl Abort, alloc: Global, bytes: &[u8], format: Format) {
    let spelled = succeeds(rt, again(alloc, bytes, format));
    are_equal(rt, &spelled.as_slice(), &bytes);
}

fn is_migrated(rt: &impl Abort, alloc: Global, bytes: &[u8], new: &[u8]) {
    let migrated = succeeds(rt, Descriptor::migrate(alloc, bytes));
    are_equal(rt, &migrated.as_slice(), &new);
}

/// Bytes in a version are read, and migrated to these.
fn is_kept(rt: &impl Abort, alloc: Global, bytes: &[u8], format: Format, new: &[u8]) {
    is_read(rt, alloc, bytes, format);
    is_migrated(rt, alloc, bytes, new);
}

#[test]
fn what_was_encoded_is_read(rt: HostRuntime) {
    let first = first_bytes(&rt, rt.alloc(), Format::New);
    let first_old = first_bytes(&rt, rt.alloc(), Format::Old);
    is_kept(&rt, rt.alloc(), &first_old, Format::Old, &first);
    let new = numbered_bytes(&rt, rt.alloc(), Format::New);
    is_kept(&rt, rt.alloc(), &new, Format::New, &new);
    let second = numbered_bytes(&rt, rt.alloc(), Format::Second);
    is_kept(&rt, rt.alloc(), &second, Format::Second, &new);
    let old = numbered_bytes(&rt, rt.alloc(), Format::Old);
    is_kept(&rt, rt.alloc(), &old, Format::Old, &new);
    let protected = protected_bytes(&rt, rt.alloc());
    is_kept(&rt, rt.alloc(), &protected, Format::New, &protected);
}

/// Of the first child's bytes a length, words at places of them, and the reason why they are refused, or
/// 0 where they are taken.
static CHANGES: [(usize, &[(usize, u32)], u32); 60] = [
    (0, &[], 1),
    (12, &[], 1),
    (775, &[], 1),
    (778, &[(0, 0x3144_4600)], 2),
    (778, &[(0, 0x3444_4653)], 2),
    (778, &[(8, 15)], 3),
    (778, &[(8, 1025)], 3),
    (776, &[], 4),
    (777, &[], 4),
    (779, &[], 4),
    (778, &[(8, 17)], 4),
    (778, &[(12, 0)], 5),
    (778, &[(12, 4097)], 5),
    (778, &[(16, 4096)], 5),
    (778, &[(20, 0x8000_0029)], 5),
    (778, &[(20, 0x8000_002a)], 5),
    (778, &[(148, 0x1801)], 5),
    (778, &[(148, 0x1000)], 5),
    (778, &[(148, 0x0800)], 5),
    (778, &[(148, 0x0001_1800)], 5),
    (778, &[(148, 0x4000_1800)], 5),
    (778, &[(152, 1)], 5),
    (778, &[(152, 0x0880)], 5),
    (778, &[(156, 2)], 5),
    (778, &[(164, 1)], 5),
    (778, &[(164, 2)], 5),
    (778, &[(224, 2)], 5),
    (778, &[(228, 0x8000_0000)], 5),
    (778, &[(224, 1)], 5),
    (778, &[(224, 1), (228, 0x7fff_fffc)], 5),
    (778, &[(224, 1), (228, 0x8000_0002)], 5),
    (778, &[(224, 1), (228, 0x8001_0000)], 5),
    (778, &[(232, 65_537)], 5),
    (778, &[(236, 256)], 5),
    (778, &[(244, 3)], 5),
    (778, &[(208, 0), (216, 0)], 5),
    (778, &[(216, 1_000_000_001)], 5),
    (778, &[(208, 1_000_001)], 5),
    (778, &[(212, 1)], 5),
    (779, &[(8, 20), (775, 0xffff_fe00)], 6),
    (779, &[(8, 20), (775, 0x0fff_fe00)], 0),
    (775, &[(0, 0)], 1),
    (778, &[(0, 0), (8, 15)], 2),
    (777, &[(8, 15)], 3),
    (777, &[(12, 0)], 4),
    (778, &[], 0),
    (778, &[(4, 0xffff_ffff)], 0),
    (778, &[(12, 4096), (16, 4095)], 0),
    (778, &[(20, 0xffff_fffc)], 0),
    (778, &[(148, 0x1888), (152, 0x80)], 0),
    (778, &[(148, 0x1808)], 0),
    (778, &[(148, 0x0088)], 0),
    (778, &[(148, 0x8000_0000)], 0),
    (778, &[(148, 0x8002_1888)], 0),
    (778, &[(156, 0xffff_fffd), (164, 0xffff_fffc)], 0),
    (778, &[(224, 1), (228, 0x8000_0000)], 0),
    (778, &[(224, 1), (228, 0x8000_fffc)], 0),
    (778, &[(232, 65_536), (236, 255)], 0),
    (778, &[(244, 2)], 0),
    (778, &[(208, 1_000_000_000), (216, 1_000_000_000)], 0),
];

/// The reason why bytes are refused, or 0 where they are taken and spelled as they were.
fn reason(alloc: Global, bytes: &[u8], format: Format) -> Option<u32> {
    match again(alloc, bytes, format) {
        Ok(spelled) => (spelled.as_slice() == bytes).then_some(0),
        Err(DescError::Refused(number)) => Some(number),
        Err(DescError::Memory) => None,
    }
}

/// The reason why bytes are not migrated, or 0.
fn reason_to_stay(alloc: Global, bytes: &[u8]) -> Option<u32> {
    match Descriptor::migrate(alloc, bytes) {
        Ok(_) => Some(0),
        Err(DescError::Refused(number)) => Some(number),
        Err(DescError::Memory) => None,
    }
}

/// These bytes are refused by this reason, or taken where it is 0, and migrated just so.
fn is_refused(rt: &impl Abort, alloc: Global, bytes: &[u8], format: Format, number: u32) {
    let found = (reason(alloc, bytes, format), reason_to_stay(alloc, bytes));
    are_equal(rt, &found, &(Some(number), Some(number)));
}

/// A table tells the reasons why changed bytes are refused.
fn are_told(
    rt: &impl Abort,
    alloc: Global,
    bytes: &[u8],
    format: Format,
    rows: &[(usize, &[(usize, u32)], u32)],
) {
    for (length, changes, number) in rows {
        let bytes = changed(rt, alloc, bytes, *length, changes);
        is_refused(rt, alloc, &bytes, format, *number);
    }
}

#[test]
fn refuses_by_the_first_reason(rt: HostRuntime) {
    let bytes = first_bytes(&rt, rt.alloc(), Format::Old);
    are_told(&rt, rt.alloc(), &bytes, Format::Old, &CHANGES);
}

/// Bytes of the descriptor with 20 pages and three bytes of map, of which the last half byte is spare.
static SPARE: [(usize, &[(usize, u32)], u32); 5] = [
    (779, &[], 0),
    (779, &[(775, 0xff00_01b2)], 6),
    (779, &[(775, 0x1000_01b2)], 6),
    (779, &[(775, 0x0f00_01b2)], 0),
    (779, &[(775, 0xff00_01b2), (16, 4096)], 5),
];

#[test]
fn refuses_a_second_spelling(rt: HostRuntime) {
    let bytes = numbered_bytes(&rt, rt.alloc(), Format::Old);
    are_told(&rt, rt.alloc(), &bytes, Format::Old, &SPARE);
}

/// Of the first child's bytes in the newest version a length, words at places of them, and the reason.
static NEW_CHANGES: [(usize, &[(usize, u32)], u32); 27] = [
    (0, &[], 1),
    (775, &[], 1),
    (775, &[(0, 0)], 1),
    (819, &[(0, 0x3344_4600)], 2),
    (819, &[(0, 0x3444_4653)], 2),
    (819, &[(0, 0x3144_4653)], 4),
    (819, &[(0, 0x3244_4653)], 4),
    (776, &[(8, 15)], 3),
    (776, &[], 4),
    (815, &[], 4),
    (816, &[], 4),
    (817, &[], 4),
    (818, &[], 4),
    (820, &[], 4),
    (818, &[(12, 0)], 4),
    (818, &[(776, 0x20)], 4),
    (819, &[(12, 0)], 5),
    (819, &[(776, 0x20)], 5),
    (819, &[(776, 0x4000)], 5),
    (819, &[(776, 0x0002_0000)], 5),
    (819, &[(780, 0xe000_0000)], 5),
    (819, &[(780, 0x0600_0000)], 5),
    (819, &[(776, 0x9f1f_0f07), (780, 0x8988_8583)], 0),
    (819, &[(784, 0xffff_ffff), (812, 0xffff_ffff)], 0),
    (819, &[(148, 0x8000_0000)], 0),
    (819, &[(148, 0x1000)], 5),
    (819, &[], 0),
];

/// The same in the second version.
static SECOND_CHANGES: [(usize, &[(usize, u32)], u32); 10] = [
    (775, &[], 1),
    (779, &[(0, 0x3144_4653)], 4),
    (779, &[(0, 0x3344_4653)], 4),
    (776, &[(8, 15)], 3),
    (776, &[], 4),
    (778, &[], 4),
    (778, &[(12, 0)], 4),
    (779, &[(12, 0)], 5),
    (779, &[(148, 0x8002_1888)], 0),
    (779, &[], 0),
];

#[test]
fn refuses_later_versions_by_the_first_reason(rt: HostRuntime) {
    let bytes = first_bytes(&rt, rt.alloc(), Format::New);
    are_told(&rt, rt.alloc(), &bytes, Format::New, &NEW_CHANGES);
    let bytes = first_bytes(&rt, rt.alloc(), Format::Second);
    are_told(&rt, rt.alloc(), &bytes, Format::Second, &SECOND_CHANGES);
}

/// The pages, what stands behind the fields, and the reason why this is refused, or 0.
static MAPS: [(u32, &[u8], u32); 42] = [
    (15, &[0, 0xfe, 0x7f], 3),
    (16_385, &[1, 1, 0x40], 3),
    (15, &[], 3),
    (16, &[], 4),
    (16, &[0], 4),
    (16, &[0, 0xfe], 4),
    (16, &[0, 0xfe, 0xff, 0], 4),
    (16, &[2, 0xfe, 0xff], 4),
    (16, &[255, 0xfe, 0xff], 4),
    (17, &[1, 17], 4),
    (17, &[1, 17, 0, 0], 4),
    (20, &[0, 0x01, 0, 0x18], 6),
    (17, &[0, 0, 0, 0x02], 6),
    (17, &[1], 7),
    (40, &[1, 8, 0, 31, 0], 7),
    (40, &[1, 8, 0, 33, 0], 7),
    (40, &[1, 40, 0, 0, 0], 7),
    (17, &[1, 5, 0, 0, 0, 12, 0], 7),
    (17, &[1, 17, 0, 255, 255, 1, 0], 7),
    (17, &[1, 255, 255], 7),
    (17, &[0, 0, 0, 0], 7),
    (40, &[0, 0, 0xff, 0xff, 0xff, 0xff], 7),
    (16, &[1, 16, 0], 7),
    (16, &[1, 0, 0, 16, 0], 7),
    (17, &[1, 0, 0, 17, 0], 7),
    (32, &[1, 16, 0, 16, 0], 7),
    (16, &[0, 0, 0], 0),
    (16, &[0, 0xff, 0xff], 0),
    (16, &[0, 0xaa, 0xaa], 0),
    (18, &[0, 0xaa, 0xaa, 0x02], 0),
    (18, &[0, 0xaa, 0xaa, 0x06], 6),
    (17, &[1, 17, 0], 0),
    (17, &[0, 0xff, 0xff, 0x01], 0),
    (32, &[0, 0, 0, 0xff, 0xff], 0),
    (33, &[1, 1, 0, 32, 0], 0),
    (40, &[1, 8, 0, 32, 0], 0),
    (40, &[1, 0, 0, 40, 0], 0),
    (1024, &[1, 1, 0, 0xff, 0x03], 0),
    (16_384, &[1, 0, 0x40], 0),
    (16_384, &[1, 0, 0, 0, 0x40], 0),
    (16_384, &[1, 1, 0, 0xff, 0x3f], 0),
    (20, &[0, 0x01, 0, 0x08], 0),
];

/// Maps behind so many bytes of the fields are taken or refused as the table tells.
fn are_maps(rt: &impl Abort, alloc: Global, format: Format, fields: usize) {
    let first = first_bytes(rt, alloc, format);
    for (pages, rest, number) in &MAPS {
        let mut bytes = changed(rt, alloc, &first, fields, &[(8, *pages)]);
        succeeds(rt, bytes.extend_from_slice(rest));
        is_refused(rt, alloc, &bytes, format, *number);
    }
}

#[test]
fn a_map_has_one_form(rt: HostRuntime) {
    are_maps(&rt, rt.alloc(), Format::Second, 776);
    are_maps(&rt, rt.alloc(), Format::New, 816);
}

/// The bytes of the first child of a machine with so many pages, of which all are blank but one.
fn bytes_of(rt: &impl Abort, alloc: Global, pages: u32, held: usize, format: Format) -> Vec<u8> {
    let mut descriptor = first_child(rt, alloc);
    descriptor.pages = pages;
    descriptor.blank = map_of(rt, alloc, pages as usize, held);
    succeeds(rt, bytes_in(alloc, descriptor, format))
}

/// The end of the map of 1,024 pages in the first version, which are the most that it tells of.
static MOST: [(usize, &[u8]); 2] = [(776, b"\xff\xff"), (902, b"\xff\x7f")];

#[test]
fn takes_a_map_of_the_most_pages(rt: HostRuntime) {
    let old = bytes_of(&rt, rt.alloc(), 1024, 1023, Format::Old);
    are_placed(&rt, &old, &MOST);
    is_refused(&rt, rt.alloc(), &old, Format::Old, 0);
    let some = bytes_of(&rt, rt.alloc(), 1024, 0, Format::New);
    are_placed(&rt, &some, &[(816, b"\x01\x01\0\xff\x03")]);
    let new = bytes_of(&rt, rt.alloc(), 16_384, 0, Format::New);
    are_placed(&rt, &new, &[(816, b"\x01\x01\0\xff\x3f")]);
    are_equal(&rt, &(old.len(), some.len(), new.len()), &(904, 821, 821));
}

/// A map of 16,384 pages with so many runs, of which each has one page but the last.
fn runs_of_one(rt: &impl Abort, alloc: Global, runs: usize) -> PageMap {
    let mut blank = Vec::new(alloc);
    for page in 0..16_384 {
        let last = runs.saturating_sub(1).min(page);
        succeeds(rt, blank.push(last % 2 == 1));
    }
    PageMap::from_vec(blank)
}

/// How many bytes stand behind the fields of the first child with a map of so many runs, and the first of them.
fn form_of_runs(rt: &impl Abort, alloc: Global, runs: usize) -> (usize, Option<u8>) {
    let mut descriptor = first_child(rt, alloc);
    descriptor.pages = 16_384;
    descriptor.blank = runs_of_one(rt, alloc, runs);
    let bytes = succeeds(rt, bytes_in(alloc, descriptor, Format::New));
    is_read(rt, alloc, &bytes, Format::New);
    (bytes.len(), bytes.get(816).copied())
}

#[test]
fn runs_are_told_where_they_are_shorter(rt: HostRuntime) {
    let forms = [
        form_of_runs(&rt, rt.alloc(), 1023),
        form_of_runs(&rt, rt.alloc(), 1024),
        form_of_runs(&rt, rt.alloc(), 16_384),
    ];
    let want = [
        (817 + 2046, Some(1)),
        (817 + 2048, Some(0)),
        (817 + 2048, Some(0)),
    ];
    are_equal(&rt, &forms, &want);
}

/// How many flags there are, and how many of them are set.
fn counts(flags: &[bool]) -> (usize, usize) {
    let mut blank = 0;
    for is_blank in flags {
        if *is_blank {
            blank += 1;
        }
    }
    (flags.len(), blank)
}

#[test]
fn a_map_is_copied(rt: HostRuntime) {
    let map = map_of(&rt, rt.alloc(), 16, 0);
    let copy = succeeds(&rt, map.clone());
    let flags = succeeds(&rt, map.flags(rt.alloc()));
    let copied = succeeds(&rt, copy.flags(rt.alloc()));
    are_equal(&rt, &copied, &flags);
    are_equal(&rt, &counts(&copied), &(16, 15));
}

/// Whether a descriptor is in range, which is told in a thread.
fn is_moved_in_range<R: Threads>(rt: &R, descriptor: Descriptor) -> bool {
    let (in_range, _) = thread::join(rt, move || descriptor.is_in_range(), || ());
    in_range
}

#[test]
fn moves_between_threads(rt: HostRuntime) {
    let in_range = is_moved_in_range(&rt, first_child(&rt, rt.alloc()));
    are_equal(&rt, &in_range, &true);
}
