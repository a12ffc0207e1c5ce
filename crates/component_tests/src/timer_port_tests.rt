//! The timer.

use crate::equal::are_equal;
use port_error::Fault;
use std::process::Abort;
use timer_port::{TimerPort, TimerRegisters};

/// An offset, the word there, and mtime and mtimecmp after a store of 5.
static WORDS: [(u32, u32, u64, u64); 4] = [
    (
        0x0000,
        0x4444_4444,
        0x1111_1111_2222_2222,
        0x3333_3333_0000_0005,
    ),
    (
        0x0004,
        0x3333_3333,
        0x1111_1111_2222_2222,
        0x0000_0005_4444_4444,
    ),
    (
        0x7ff8,
        0x2222_2222,
        0x1111_1111_0000_0005,
        0x3333_3333_4444_4444,
    ),
    (
        0x7ffc,
        0x1111_1111,
        0x0000_0005_2222_2222,
        0x3333_3333_4444_4444,
    ),
];

const FIELDS: TimerRegisters = TimerRegisters {
    mtime: 0x1111_1111_2222_2222,
    mtimecmp: 0x3333_3333_4444_4444,
};

/// What is loaded, what comes of a store of 5, and the registers after it.
type Accessed = (Result<u32, Fault>, Result<(), Fault>, TimerRegisters);

fn accessed(timer: &mut TimerPort, offset: u32, width: u32) -> Accessed {
    let loaded = timer.load(offset, width);
    let stored = timer.store(offset, width, 5);
    let after = TimerRegisters {
        mtime: timer.mtime(),
        mtimecmp: timer.mtimecmp(),
    };
    (loaded, stored, after)
}

/// The same by the table.
fn expected(offset: u32, width: u32) -> Accessed {
    for &(at, word, mtime, mtimecmp) in WORDS.iter() {
        if at == offset && width == 4 {
            return (Ok(word), Ok(()), TimerRegisters { mtime, mtimecmp });
        }
    }
    (Err(Fault), Err(Fault), FIELDS)
}

fn access(rt: &impl Abort, offset: u32, width: u32) {
    let mut timer = TimerPort::of_fields(FIELDS);
    let found = accessed(&mut timer, offset, width);
    are_equal(rt, &timer.fields(), &found.2);
    are_equal(
        rt,
        &(offset, width, found),
        &(offset, width, expected(offset, width)),
    );
}

#[test]
fn loads_and_stores_at_every_offset_and_width(rt: HostRuntime) {
    for offset in 0..0x8008 {
        for width in [1, 2, 4] {
            access(&rt, offset, width);
        }
    }
}

fn starts(rt: &impl Abort, timer: &TimerPort) {
    let found = [timer.mtime(), timer.mtimecmp()];
    are_equal(rt, &found, &[0, 0xffff_ffff_ffff_ffff]);
}

/// mtimecmp becomes 2.
fn is_set(rt: &impl Abort, timer: &mut TimerPort) {
    let stores = [timer.store(0x0004, 4, 0), timer.store(0x0000, 4, 2)];
    are_equal(rt, &stores, &[Ok(()), Ok(())]);
}

/// Whether the timer is due before each step.
static DUE: [bool; 4] = [false, false, true, true];

fn counts(rt: &impl Abort, timer: &mut TimerPort, due: bool) {
    are_equal(rt, &timer.is_due(), &due);
    timer.count(false);
}

#[test]
fn is_due_from_the_time_on(rt: HostRuntime) {
    let mut timer = TimerPort::new();
    starts(&rt, &timer);
    is_set(&rt, &mut timer);
    for due in DUE.iter() {
        counts(&rt, &mut timer, *due);
    }
}
