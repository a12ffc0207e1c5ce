//! Control and status registers, and traps.

ghost use Rattle.std.specs.Prelude.{◌≡◌, ◌%◌};

use crate::equal::are_equal;
use guest_pmp::{Access, Mode, PmpRegisters};
use rv_traps::{CsrRegisters, Csrs, TIMER_INTERRUPT, Wrote, is_mstatus};
use std::process::Abort;

/// What a number reads at the start, and after a write of all ones: `None` for a number without a register,
/// and then where a write is not lawful.
fn expected(number: u32) -> (Option<u32>, Option<u32>) {
    match number {
        0x300 => (Some(0x1800), Some(0x2_1888)),
        0x301 => (Some(0x4010_1101), Some(0x4010_1101)),
        0x304 => (Some(0), Some(0x80)),
        0x305 => (Some(0), Some(0xffff_fffd)),
        0x341 => (Some(0), Some(0xffff_fffc)),
        0x340 | 0x342 | 0x343 | 0xb00 | 0xb02 | 0xb80 | 0xb82 => (Some(0), Some(0xffff_ffff)),
        0x306 | 0x30a | 0x310 | 0x31a | 0x320 | 0x323..=0x33f | 0x344 => (Some(0), Some(0)),
        0xb03..=0xb1f | 0xb83..=0xb9f => (Some(0), Some(0)),
        0x3a0 | 0x3a1 => (Some(0), Some(0x9f9f_9f9f)),
        0x3b0..=0x3b7 => (Some(0), Some(0xffff_ffff)),
        0x3a2 | 0x3a3 | 0x3b8..=0x3bf => (Some(0), Some(0)),
        0xf11..=0xf15 => (Some(0), None),
        _ => (None, None),
    }
}

/// What a number reads of these registers after a write of all ones.
fn kept(csrs: &mut Csrs, number: u32) -> Option<u32> {
    csrs.write(number, 0xffff_ffff)?;
    csrs.read(number, false)
}

fn reads_and_keeps(rt: &impl Abort, number: u32) {
    let mut csrs = Csrs::reset();
    let found = (csrs.read(number, false), kept(&mut csrs, number));
    are_equal(rt, &(number, found), &(number, expected(number)));
}

fn reads_the_interrupt(rt: &impl Abort) {
    are_equal(rt, &Csrs::reset().read(0x344, true), &Some(0x80));
}

#[test]
fn reads_and_keeps_of_every_number(rt: HostRuntime) {
    for number in 0..0x2000 {
        reads_and_keeps(&rt, number);
    }
    reads_the_interrupt(&rt);
}

/// The registers of a machine that starts.
const START: CsrRegisters = CsrRegisters {
    mode: Mode::Machine,
    mstatus: 0x1800,
    mie: 0,
    mtvec: 0,
    mscratch: 0,
    mepc: 0,
    mcause: 0,
    mtval: 0,
    mcycle: 0,
    minstret: 0,
    pmp: PmpRegisters {
        configurations: [0; 8],
        addresses: [0; 8],
    },
};

#[test]
fn starts_with_zeros_but_for_machine_mode(rt: HostRuntime) {
    are_equal(&rt, &Csrs::reset().fields(), &START);
    are_equal(&rt, &TIMER_INTERRUPT, &0x8000_0007);
}

/// A number, and then mcycle and minstret after a step that writes 5 there.
static WRITES: [(u32, u64, u64); 5] = [
    (0xb00, 0x0000_0007_0000_0005, 0x0000_0009_0000_0000),
    (0xb80, 0x0000_0005_ffff_ffff, 0x0000_0009_0000_0000),
    (0xb02, 0x0000_0008_0000_0000, 0x0000_0008_0000_0005),
    (0xb82, 0x0000_0008_0000_0000, 0x0000_0005_ffff_ffff),
    (0x340, 0x0000_0008_0000_0000, 0x0000_0009_0000_0000),
];

/// Registers whose counters carry in the next step.
fn before_a_carry() -> Csrs {
    Csrs::of_fields(CsrRegisters {
        mcycle: 0x0000_0007_ffff_ffff,
        minstret: 0x0000_0008_ffff_ffff,
        ..Csrs::reset().fields()
    })
}

/// What comes of a write of 5 and of a read after that step.
fn written_and_read(csrs: &mut Csrs, number: u32) -> (Option<()>, Option<u32>) {
    let written = csrs.write(number, 5);
    csrs.count(true, Wrote::by_write(number));
    (written, csrs.read(number, false))
}

/// The same of those registers, and mcycle and minstret after it.
fn written_half(number: u32) -> ((Option<()>, Option<u32>), [u64; 2]) {
    let mut csrs = before_a_carry();
    let found = written_and_read(&mut csrs, number);
    let after = csrs.fields();
    (found, [after.mcycle, after.minstret])
}

fn written_half_is_read(rt: &impl Abort, number: u32, mcycle: u64, minstret: u64) {
    let want = ((Some(()), Some(5)), [mcycle, minstret]);
    are_equal(rt, &(number, written_half(number)), &(number, want));
}

#[test]
fn written_halves_are_read_in_the_next_step(rt: HostRuntime) {
    for &(number, mcycle, minstret) in WRITES.iter() {
        written_half_is_read(&rt, number, mcycle, minstret);
    }
}

/// mtvec and mie are written. No interrupt is taken before mstatus is.
fn is_set_up(rt: &impl Abort, csrs: &mut Csrs) {
    let writes = [csrs.write(0x305, 0x8000_0101), csrs.write(0x304, 0x80)];
    let is_taken = csrs.interrupt(true);
    are_equal(rt, &(writes, is_taken), &([Some(()), Some(())], false));
}

fn is_let_in(rt: &impl Abort, csrs: &mut Csrs) {
    let write = csrs.write(0x300, 0x8);
    let are_taken = [csrs.interrupt(false), csrs.interrupt(true)];
    are_equal(rt, &(write, are_taken), &(Some(()), [false, true]));
}

fn takes_the_interrupt(rt: &impl Abort, csrs: &mut Csrs) {
    let address = csrs.enter(0x8000_0007, 0, 0x8000_0010);
    let after = [
        csrs.read(0x300, true),
        csrs.read(0x341, true),
        csrs.read(0x342, true),
    ];
    let want = [Some(0x1880), Some(0x8000_0010), Some(0x8000_0007)];
    are_equal(rt, &(address, after), &(0x8000_011c, want));
}

/// A call of the environment comes in the handler.
fn takes_a_call(rt: &impl Abort, csrs: &mut Csrs) {
    let found = (csrs.enter(11, 0, 0x8000_011c), csrs.read(0x300, true));
    are_equal(rt, &found, &(0x8000_0100, Some(0x1800)));
}

/// The first return leaves user mode in MPP, so the second leads there.
fn returns(rt: &impl Abort, csrs: &mut Csrs, goes: Option<u32>, mstatus: Option<u32>) {
    let found = (csrs.mret(), csrs.read(0x300, true));
    are_equal(rt, &found, &(goes, mstatus));
}

#[test]
fn takes_an_interrupt_and_returns(rt: HostRuntime) {
    let mut csrs = Csrs::reset();
    is_set_up(&rt, &mut csrs);
    is_let_in(&rt, &mut csrs);
    takes_the_interrupt(&rt, &mut csrs);
    takes_a_call(&rt, &mut csrs);
    returns(&rt, &mut csrs, Some(0x8000_011c), Some(0x80));
    returns(&rt, &mut csrs, Some(0x8000_011c), None);
    returns(&rt, &mut csrs, None, None);
}

/// mstatus, what is written to it, and what it reads then. MPP stays where it would be 01 or 10.
static MSTATUS_WRITES: [(u32, u32, u32); 8] = [
    (0x1800, 0xffff_ffff, 0x2_1888),
    (0x1800, 0, 0),
    (0x1800, 0x888, 0x1888),
    (0x1800, 0x2_1000, 0x2_1800),
    (0, 0x888, 0x88),
    (0, 0x2_1000, 0x2_0000),
    (0x2_0088, 0x1800, 0x1800),
    (0x2_1888, 0xfffd_e777, 0),
];

/// Registers in this mode, with this mstatus.
fn in_mode(mode: Mode, mstatus: u32) -> Option<Csrs> {
    of_fields(CsrRegisters {
        mode,
        mstatus,
        ..START
    })
}

fn of_fields(fields: CsrRegisters) -> Option<Csrs> {
    if fields.is_in_range() {
        Some(Csrs::of_fields(fields))
    } else {
        None
    }
}

/// The same registers in another mode.
fn moved(csrs: &Csrs, mode: Mode) -> Option<Csrs> {
    of_fields(CsrRegisters {
        mode,
        ..csrs.fields()
    })
}

fn mstatus_written(row: &(u32, u32, u32)) -> Option<u32> {
    let mut csrs = in_mode(Mode::Machine, row.0)?;
    csrs.write(0x300, row.1)?;
    csrs.read(0x300, false)
}

#[test]
fn mstatus_keeps_its_bits(rt: HostRuntime) {
    for row in MSTATUS_WRITES.iter() {
        are_equal(&rt, &(row.1, mstatus_written(row)), &(row.1, Some(row.2)));
    }
}

/// Words, and whether mstatus can hold them.
static MSTATUS_WORDS: [(u32, bool); 9] = [
    (0, true),
    (0x1800, true),
    (0x2_1888, true),
    (0x800, false),
    (0x1000, false),
    (0x1, false),
    (0x1_0000, false),
    (0x4_0000, false),
    (0x8000_1800, false),
];

#[test]
fn mstatus_holds_its_words(rt: HostRuntime) {
    for row in MSTATUS_WORDS.iter() {
        are_equal(&rt, &(row.0, is_mstatus(row.0)), row);
    }
}

/// mstatus in a mode, and the mode and mstatus after a trap from there.
static TRAPS: [(Mode, u32, u32); 5] = [
    (Mode::Machine, 0x1800, 0x1800),
    (Mode::Machine, 0x8, 0x1880),
    (Mode::User, 0x1888, 0x80),
    (Mode::User, 0x1800, 0),
    (Mode::User, 0x2_0008, 0x2_0080),
];

fn trapped(row: &(Mode, u32, u32)) -> Option<(Mode, u32)> {
    let mut csrs = in_mode(row.0, row.1)?;
    csrs.enter(8, 0, 0x8000_0000);
    let after = csrs.fields();
    Some((after.mode, after.mstatus))
}

#[test]
fn traps_lead_to_machine_mode(rt: HostRuntime) {
    for row in TRAPS.iter() {
        are_equal(
            &rt,
            &(row.1, trapped(row)),
            &(row.1, Some((Mode::Machine, row.2))),
        );
    }
}

/// mstatus in machine mode, and the mode and mstatus after MRET.
static RETURNS: [(u32, Mode, u32); 6] = [
    (0x1800, Mode::Machine, 0x80),
    (0x1880, Mode::Machine, 0x88),
    (0x8, Mode::User, 0x80),
    (0x80, Mode::User, 0x88),
    (0x2_1880, Mode::Machine, 0x2_0088),
    (0x2_0080, Mode::User, 0x88),
];

fn returned(row: &(u32, Mode, u32)) -> Option<(Mode, u32)> {
    let mut csrs = in_mode(Mode::Machine, row.0)?;
    csrs.mret()?;
    let after = csrs.fields();
    Some((csrs.mode(), after.mstatus))
}

#[test]
fn mret_leads_to_the_mode_in_mpp(rt: HostRuntime) {
    for row in RETURNS.iter() {
        are_equal(&rt, &(row.0, returned(row)), &(row.0, Some((row.1, row.2))));
    }
}

/// A mode, mstatus and mie, and whether the interrupt comes where the timer is due.
static INTERRUPTS: [(Mode, u32, u32, bool); 6] = [
    (Mode::Machine, 0x1800, 0x80, false),
    (Mode::Machine, 0x1808, 0x80, true),
    (Mode::Machine, 0x1808, 0, false),
    (Mode::User, 0, 0x80, true),
    (Mode::User, 0x8, 0x80, true),
    (Mode::User, 0x8, 0, false),
];

fn interrupted(row: &(Mode, u32, u32, bool)) -> Option<[bool; 2]> {
    let mut csrs = in_mode(Mode::Machine, row.1)?;
    csrs.write(0x304, row.2)?;
    let csrs = moved(&csrs, row.0)?;
    Some([csrs.interrupt(false), csrs.interrupt(true)])
}

#[test]
fn an_interrupt_comes_in_user_mode_whatever_mie_is(rt: HostRuntime) {
    for row in INTERRUPTS.iter() {
        let want = Some([false, row.3]);
        are_equal(
            &rt,
            &(row.1, row.2, interrupted(row)),
            &(row.1, row.2, want),
        );
    }
}

/// What user mode has of a number: a read, a write, and the return from a trap.
fn user_mode_has(number: u32) -> Option<(Option<u32>, Option<()>, Option<u32>)> {
    let mut csrs = in_mode(Mode::User, 0x1888)?;
    let found = (csrs.read(number, true), csrs.write(number, 0), csrs.mret());
    if csrs.fields().mstatus == 0x1888 {
        Some(found)
    } else {
        None
    }
}

#[test]
fn user_mode_has_no_number(rt: HostRuntime) {
    for number in 0..0x1000 {
        let want = Some((None, None, None));
        are_equal(&rt, &(number, user_mode_has(number)), &(number, want));
    }
}

/// A mode and mstatus, and whether a fetch, a load, a store and an atomic operation are allowed where an entry gives all
/// of memory for reading, and another for fetches alone is behind it.
static RIGHTS: [(Mode, u32, [bool; 4]); 6] = [
    (Mode::User, 0, [false, true, false, false]),
    (Mode::User, 0x2_1800, [false, true, false, false]),
    (Mode::Machine, 0, [true, true, true, true]),
    (Mode::Machine, 0x2_1800, [true, true, true, true]),
    (Mode::Machine, 0x2_0000, [true, true, false, false]),
    (Mode::Machine, 0x2_0088, [true, true, false, false]),
];

fn rights(row: &(Mode, u32, [bool; 4])) -> Option<[bool; 4]> {
    let mut csrs = in_mode(Mode::Machine, row.1)?;
    csrs.write(0x3b0, 0xffff_ffff)?;
    csrs.write(0x3b1, 0xffff_ffff)?;
    csrs.write(0x3a0, 0x1c19)?;
    let csrs = moved(&csrs, row.0)?;
    Some([
        csrs.allows(Access::Fetch, 0x8000_0000, 4),
        csrs.allows(Access::Load, 0x8000_0000, 1),
        csrs.allows(Access::Store, 0x8000_0000, 2),
        csrs.allows(Access::Amo, 0x8000_0000, 4),
    ])
}

#[test]
fn data_is_accessed_by_the_mode_that_mprv_says(rt: HostRuntime) {
    for row in RIGHTS.iter() {
        are_equal(&rt, &(row.1, rights(row)), &(row.1, Some(row.2)));
    }
}

/// A mode and mstatus, and whether a fetch, a load, a store and an atomic operation are allowed in a word of a locked
/// entry that gives it for reading, and in the word behind it, which no entry has.
static LOCKED_RIGHTS: [(Mode, u32, [bool; 4], [bool; 4]); 5] = [
    (
        Mode::Machine,
        0x1800,
        [false, true, false, false],
        [true, true, true, true],
    ),
    (
        Mode::Machine,
        0x2_1800,
        [false, true, false, false],
        [true, true, true, true],
    ),
    (
        Mode::Machine,
        0x2_0000,
        [false, true, false, false],
        [true, false, false, false],
    ),
    (
        Mode::Machine,
        0,
        [false, true, false, false],
        [true, true, true, true],
    ),
    (
        Mode::User,
        0x2_1800,
        [false, true, false, false],
        [false, false, false, false],
    ),
];

/// Whether each access to a word is allowed.
fn word_rights(csrs: &Csrs, address: u32) -> [bool; 4]
    requires { address % 4 ≡ 0 }
{
    [
        csrs.allows(Access::Fetch, address, 4),
        csrs.allows(Access::Load, address, 4),
        csrs.allows(Access::Store, address, 4),
        csrs.allows(Access::Amo, address, 4),
    ]
}

fn locked_rights(row: &(Mode, u32, [bool; 4], [bool; 4])) -> Option<[[bool; 4]; 2]> {
    let mut csrs = in_mode(Mode::Machine, row.1)?;
    csrs.write(0x3b0, 0x2000_0000)?;
    csrs.write(0x3a0, 0x91)?;
    let csrs = moved(&csrs, row.0)?;
    Some([
        word_rights(&csrs, 0x8000_0000),
        word_rights(&csrs, 0x8000_0004),
    ])
}

#[test]
fn a_locked_entry_binds_machine_mode(rt: HostRuntime) {
    for row in LOCKED_RIGHTS.iter() {
        let want = Some([row.2, row.3]);
        are_equal(&rt, &(row.1, locked_rights(row)), &(row.1, want));
    }
}
