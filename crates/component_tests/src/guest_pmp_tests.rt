//! Physical memory protection: which accesses entries allow, and what writes leave of their registers.

ghost use Rattle.std.specs.Prelude.{◌≡◌, ◌%◌};

use crate::equal::are_equal;
use guest_pmp::{Access, Mode, Pmp};
use std::process::Abort;

/// An entry's byte, the address word of the entry before it, its own, the access, the mode, the address of a word, and
/// whether the access is allowed. By the RISC-V Privileged ISA 20211203, section 3.7.1, worked out by hand.
static DECISIONS: [(u8, u32, u32, Access, Mode, u32, bool); 48] = [
    // Four bytes.
    (
        0x11,
        0,
        0x2000_0000,
        Access::Load,
        Mode::User,
        0x8000_0000,
        true,
    ),
    (
        0x11,
        0,
        0x2000_0000,
        Access::Load,
        Mode::User,
        0x7fff_fffc,
        false,
    ),
    (
        0x11,
        0,
        0x2000_0000,
        Access::Load,
        Mode::User,
        0x8000_0004,
        false,
    ),
    (
        0x11,
        0,
        0x3fff_ffff,
        Access::Load,
        Mode::User,
        0xffff_fffc,
        true,
    ),
    (
        0x11,
        0,
        0x7fff_ffff,
        Access::Load,
        Mode::User,
        0xffff_fffc,
        false,
    ),
    // Top of range.
    (
        0x09,
        0x2000_0000,
        0x2000_0400,
        Access::Load,
        Mode::User,
        0x8000_0000,
        true,
    ),
    (
        0x09,
        0x2000_0000,
        0x2000_0400,
        Access::Load,
        Mode::User,
        0x8000_0ffc,
        true,
    ),
    (
        0x09,
        0x2000_0000,
        0x2000_0400,
        Access::Load,
        Mode::User,
        0x7fff_fffc,
        false,
    ),
    (
        0x09,
        0x2000_0000,
        0x2000_0400,
        Access::Load,
        Mode::User,
        0x8000_1000,
        false,
    ),
    (
        0x09,
        0x2000_0400,
        0x2000_0400,
        Access::Load,
        Mode::User,
        0x8000_1000,
        false,
    ),
    (
        0x09,
        0x2000_0400,
        0x2000_0000,
        Access::Load,
        Mode::User,
        0x8000_0000,
        false,
    ),
    (
        0x09,
        0,
        0xffff_ffff,
        Access::Load,
        Mode::User,
        0x0000_0000,
        true,
    ),
    (
        0x09,
        0,
        0xffff_ffff,
        Access::Load,
        Mode::User,
        0xffff_fffc,
        true,
    ),
    // A naturally aligned power of two: 8 bytes, 16, 8 MiB, 2^32, 2^33 and 2^35.
    (
        0x19,
        0,
        0x2000_0000,
        Access::Load,
        Mode::User,
        0x8000_0000,
        true,
    ),
    (
        0x19,
        0,
        0x2000_0000,
        Access::Load,
        Mode::User,
        0x8000_0004,
        true,
    ),
    (
        0x19,
        0,
        0x2000_0000,
        Access::Load,
        Mode::User,
        0x8000_0008,
        false,
    ),
    (
        0x19,
        0,
        0x2000_0000,
        Access::Load,
        Mode::User,
        0x7fff_fffc,
        false,
    ),
    (
        0x19,
        0,
        0x2000_0001,
        Access::Load,
        Mode::User,
        0x8000_000c,
        true,
    ),
    (
        0x19,
        0,
        0x2000_0001,
        Access::Load,
        Mode::User,
        0x8000_0010,
        false,
    ),
    (
        0x19,
        0,
        0x2000_0005,
        Access::Load,
        Mode::User,
        0x8000_000c,
        false,
    ),
    (
        0x19,
        0,
        0x2000_0005,
        Access::Load,
        Mode::User,
        0x8000_0010,
        true,
    ),
    (
        0x19,
        0,
        0x200f_ffff,
        Access::Load,
        Mode::User,
        0x8000_0000,
        true,
    ),
    (
        0x19,
        0,
        0x200f_ffff,
        Access::Load,
        Mode::User,
        0x807f_fffc,
        true,
    ),
    (
        0x19,
        0,
        0x200f_ffff,
        Access::Load,
        Mode::User,
        0x7fff_fffc,
        false,
    ),
    (
        0x19,
        0,
        0x200f_ffff,
        Access::Load,
        Mode::User,
        0x8080_0000,
        false,
    ),
    (
        0x19,
        0,
        0x1fff_ffff,
        Access::Load,
        Mode::User,
        0x0000_0000,
        true,
    ),
    (
        0x19,
        0,
        0x1fff_ffff,
        Access::Load,
        Mode::User,
        0xffff_fffc,
        true,
    ),
    (
        0x19,
        0,
        0xbfff_ffff,
        Access::Load,
        Mode::User,
        0x0000_0000,
        false,
    ),
    (
        0x19,
        0,
        0xbfff_ffff,
        Access::Load,
        Mode::User,
        0xffff_fffc,
        false,
    ),
    (
        0x19,
        0,
        0xffff_ffff,
        Access::Load,
        Mode::User,
        0x0000_0000,
        true,
    ),
    (
        0x19,
        0,
        0xffff_ffff,
        Access::Load,
        Mode::User,
        0xffff_fffc,
        true,
    ),
    // Off: nothing matches, which is for machine mode alone.
    (
        0x07,
        0,
        0x2000_0000,
        Access::Load,
        Mode::User,
        0x8000_0000,
        false,
    ),
    (
        0x07,
        0,
        0x2000_0000,
        Access::Load,
        Mode::Machine,
        0x8000_0000,
        true,
    ),
    // The rights of each access.
    (
        0x1c,
        0,
        0xffff_ffff,
        Access::Fetch,
        Mode::User,
        0x8000_0000,
        true,
    ),
    (
        0x1b,
        0,
        0xffff_ffff,
        Access::Fetch,
        Mode::User,
        0x8000_0000,
        false,
    ),
    (
        0x1c,
        0,
        0xffff_ffff,
        Access::Load,
        Mode::User,
        0x8000_0000,
        false,
    ),
    (
        0x1b,
        0,
        0xffff_ffff,
        Access::Store,
        Mode::User,
        0x8000_0000,
        true,
    ),
    (
        0x1d,
        0,
        0xffff_ffff,
        Access::Store,
        Mode::User,
        0x8000_0000,
        false,
    ),
    (
        0x1b,
        0,
        0xffff_ffff,
        Access::Amo,
        Mode::User,
        0x8000_0000,
        true,
    ),
    (
        0x1d,
        0,
        0xffff_ffff,
        Access::Amo,
        Mode::User,
        0x8000_0000,
        false,
    ),
    // Machine mode is bound by a locked entry alone.
    (
        0x18,
        0,
        0xffff_ffff,
        Access::Store,
        Mode::Machine,
        0x8000_0000,
        true,
    ),
    (
        0x98,
        0,
        0xffff_ffff,
        Access::Store,
        Mode::Machine,
        0x8000_0000,
        false,
    ),
    (
        0x98,
        0,
        0xffff_ffff,
        Access::Fetch,
        Mode::Machine,
        0x8000_0000,
        false,
    ),
    (
        0x99,
        0,
        0xffff_ffff,
        Access::Load,
        Mode::Machine,
        0x8000_0000,
        true,
    ),
    (
        0x99,
        0,
        0xffff_ffff,
        Access::Store,
        Mode::Machine,
        0x8000_0000,
        false,
    ),
    (
        0x9b,
        0,
        0xffff_ffff,
        Access::Amo,
        Mode::Machine,
        0x8000_0000,
        true,
    ),
    (
        0x91,
        0,
        0x2000_0000,
        Access::Store,
        Mode::Machine,
        0x8000_0000,
        false,
    ),
    (
        0x91,
        0,
        0x2000_0000,
        Access::Store,
        Mode::Machine,
        0x8000_0004,
        true,
    ),
];

/// Entries of which the second has this byte and these two address words, and the others are off.
fn second_entry(byte: u8, below: u32, word: u32) -> Pmp {
    let mut pmp = Pmp::reset();
    pmp.write(0x3b0, below);
    pmp.write(0x3b1, word);
    pmp.write(0x3a0, byte as u32 * 256);
    pmp
}

fn decides(rt: &impl Abort, row: &(u8, u32, u32, Access, Mode, u32, bool)) {
    let (byte, below, word, access, mode, address, is_allowed) = *row;
    let pmp = second_entry(byte, below, word);
    let address = address / 4 * 4;
    let found = pmp.allows(access, mode, address, 4);
    are_equal(
        rt,
        &(byte, word, address, found),
        &(byte, word, address, is_allowed),
    );
}

#[test]
fn entries_decide(rt: HostRuntime) {
    for row in DECISIONS.iter() {
        decides(&rt, row);
    }
}

/// The bytes and address words of the first two entries, an address, and whether a load in user mode is allowed there.
static PAIRS: [(u8, u32, u8, u32, u32, bool); 17] = [
    // Both match: the first denies, or allows.
    (0x10, 0x2000_0000, 0x1f, 0xffff_ffff, 0x8000_0000, false),
    (0x10, 0x2000_0000, 0x1f, 0xffff_ffff, 0x8000_0004, true),
    (0x11, 0x2000_0000, 0x18, 0xffff_ffff, 0x8000_0000, true),
    (0x11, 0x2000_0000, 0x18, 0xffff_ffff, 0x8000_0004, false),
    (0x18, 0x2000_01ff, 0x11, 0x2000_0000, 0x8000_0000, false),
    // A range begins at the address word of an entry that is off, or matches four bytes or 16.
    (0x00, 0x2000_0009, 0x09, 0x2000_0400, 0x8000_0020, false),
    (0x00, 0x2000_0009, 0x09, 0x2000_0400, 0x8000_0024, true),
    (0x10, 0x2000_0009, 0x09, 0x2000_0400, 0x8000_0024, false),
    (0x10, 0x2000_0009, 0x09, 0x2000_0400, 0x8000_0028, true),
    (0x18, 0x2000_0009, 0x09, 0x2000_0400, 0x8000_001c, false),
    (0x18, 0x2000_0009, 0x09, 0x2000_0400, 0x8000_002c, false),
    (0x18, 0x2000_0009, 0x09, 0x2000_0400, 0x8000_0030, true),
    (0x18, 0x2000_0009, 0x09, 0x2000_0400, 0x8000_0ffc, true),
    (0x18, 0x2000_0009, 0x09, 0x2000_0400, 0x8000_1000, false),
    // Two ranges in a row.
    (0x08, 0x2000_0001, 0x09, 0x2000_0002, 0x8000_0000, false),
    (0x08, 0x2000_0001, 0x09, 0x2000_0002, 0x8000_0004, true),
    (0x08, 0x2000_0001, 0x09, 0x2000_0002, 0x8000_0008, false),
];

fn pair_decides(rt: &impl Abort, row: &(u8, u32, u8, u32, u32, bool)) {
    let (first, below, second, word, address, is_allowed) = *row;
    let mut pmp = second_entry(second, below, word);
    pmp.write(0x3a0, second as u32 * 256 + first as u32);
    let found = pmp.allows(Access::Load, Mode::User, address / 4 * 4, 4);
    are_equal(rt, &(first, address, found), &(first, address, is_allowed));
}

#[test]
fn the_first_entry_decides(rt: HostRuntime) {
    for row in PAIRS.iter() {
        pair_decides(&rt, row);
    }
}

/// A byte and a half-word are of the entry that has their word, the last one as the first.
#[test]
fn entries_decide_of_parts_of_words(rt: HostRuntime) {
    let mut pmp = Pmp::reset();
    pmp.write(0x3b2, 0x2000_0000);
    pmp.write(0x3b7, 0xffff_ffff);
    pmp.write(0x3a0, 0x0010_0000);
    pmp.write(0x3a1, 0x9f00_0000);
    let found = [
        pmp.allows(Access::Load, Mode::User, 0x8000_0003, 1),
        pmp.allows(Access::Load, Mode::User, 0x8000_0002, 2),
        pmp.allows(Access::Load, Mode::User, 0x8000_0004, 1),
        pmp.allows(Access::Store, Mode::Machine, 0x8000_0003, 1),
        pmp.allows(Access::Store, Mode::Machine, 0x8000_0004, 4),
    ];
    are_equal(&rt, &found, &[false, false, true, true, true]);
}

/// Writes to the registers of entries, in order, and what these then read.
static WRITES: [(u32, u32, u32); 26] = [
    // Bits 6:5 of a byte read 0, and a byte with W and without R is left.
    (0x3a0, 0x0000_007f, 0x0000_001f),
    (0x3a0, 0x0f02_6f1d, 0x0f00_0f1d),
    (0x3a0, 0x0662_6262, 0x0f00_0f1d),
    (0x3a0, 0x0000_0000, 0x0000_0000),
    // All of an address is kept.
    (0x3b0, 0xffff_ffff, 0xffff_ffff),
    (0x3b7, 0x1234_5678, 0x1234_5678),
    // There are eight entries.
    (0x3a2, 0xffff_ffff, 0),
    (0x3a3, 0xffff_ffff, 0),
    (0x3b8, 0xffff_ffff, 0),
    (0x3bf, 0xffff_ffff, 0),
    // A lock holds the byte and the address, and leaves the neighbours in the word.
    (0x3a1, 0x0000_9900, 0x0000_9900),
    (0x3a1, 0x1f1f_001f, 0x1f1f_991f),
    (0x3b5, 5, 0),
    (0x3b4, 4, 4),
    (0x3b6, 6, 6),
    // With top of range it holds the address before it, too, also across the two words.
    (0x3a1, 0x0000_0089, 0x0000_9989),
    (0x3b4, 44, 4),
    (0x3b3, 3, 0),
    (0x3b2, 2, 2),
    (0x3a0, 0x8900_0000, 0x8900_0000),
    (0x3b2, 22, 2),
    (0x3b1, 1, 1),
    (0x3a0, 0x001f_0000, 0x891f_0000),
    (0x3a1, 0x8a00_0000, 0x0000_9989),
    (0x3b7, 7, 7),
    (0x3b0, 0, 0),
];

fn writes(rt: &impl Abort, pmp: &mut Pmp, row: &(u32, u32, u32)) {
    let (number, word, kept) = *row;
    if number >= 0x3a0 && number <= 0x3a3 || number >= 0x3b0 && number <= 0x3bf {
        pmp.write(number, word);
        are_equal(rt, &(number, word, pmp.read(number)), &(number, word, kept));
    }
}

#[test]
fn writes_keep_what_the_manual_says(rt: HostRuntime) {
    let mut pmp = Pmp::reset();
    for row in WRITES.iter() {
        writes(&rt, &mut pmp, row);
    }
    are_equal(&rt, &pmp.has_lock(), &true);
}
