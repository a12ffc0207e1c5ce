//! The numbers that stand behind the names of constants.

use crate::equal::{are_equal, succeeds};
use command_line::options::{
    AHEAD, CLONES, LIMIT, Limits, NumberOption, Parameter, RAM, RUN, SLICE, USAGE, WIRE, WORKERS,
};
use command_line::{GENERATED_AHEAD, GENERATED_CLONES};
use guest_files::{
    DISK_LOAD, DISK_NOT_SECTORS, DISK_TOO_LONG, IMAGE_LOAD, INPUT_LOAD, INPUT_TOO_LONG, MAX_DISK,
    MAX_IMAGE, SCRIPT_LOAD, SCRIPT_TOO_LONG, TOO_LONG,
};
use std::process::Abort;

/// The loads.
static LOADS: [(u32, u32); 4] = [
    (IMAGE_LOAD, 1),
    (DISK_LOAD, 2),
    (INPUT_LOAD, 3),
    (SCRIPT_LOAD, 4),
];

/// The refusals of an image, a disk, an input and a script by their lengths.
static REFUSALS: [(u32, u32); 5] = [
    (TOO_LONG, 13),
    (DISK_TOO_LONG, 1),
    (DISK_NOT_SECTORS, 2),
    (INPUT_TOO_LONG, 3),
    (SCRIPT_TOO_LONG, 6),
];

/// The least number that an option may set, the most, and the one where it is not given.
static OPTIONS: [(Limits, [u32; 3]); 7] = [
    (RAM, [16, 16_384, 64]),
    (LIMIT, [1, 1_000_000_000, 1_000_000]),
    (CLONES, [0, 4096, 0]),
    (WIRE, [0, 4_294_967_295, 0]),
    (AHEAD, [0, 16, 0]),
    (WORKERS, [1, 64, 1]),
    (SLICE, [1, 1_000_000, 1000]),
];

/// The clones and the pages ahead of a generated guest.
static GENERATED: [(u32, u32); 2] = [(GENERATED_CLONES, 72), (GENERATED_AHEAD, 4)];

/// The most bytes of an image and of a disk, and the most workers of a board.
static SIZES: [(usize, usize); 3] = [
    (MAX_IMAGE, 16_777_216),
    (MAX_DISK, 4_194_304),
    (host_workers::MAX_WORKERS, 64),
];

fn are_these(rt: &impl Abort, table: &[(u32, u32)]) {
    for (is, number) in table {
        are_equal(rt, is, number);
    }
}

fn options_are_these(rt: &impl Abort) {
    for (limits, numbers) in OPTIONS.iter() {
        are_equal(rt, &[limits.least, limits.most, limits.default], numbers);
    }
}

fn sizes_are_these(rt: &impl Abort) {
    for (is, number) in SIZES.iter() {
        are_equal(rt, is, number);
    }
}

#[test]
fn constants_are_these(rt: HostRuntime) {
    are_these(&rt, &LOADS);
    are_these(&rt, &REFUSALS);
    are_these(&rt, &GENERATED);
    options_are_these(&rt);
    sizes_are_these(&rt);
}

/// Compares the numbers of an option with its line of the usage.
fn is_told<R: AllocGlobal + Abort>(rt: &R, option: &NumberOption) {
    let Limits {
        least,
        most,
        default,
    } = option.limits;
    let begins = succeeds(rt, format!(in rt.alloc(); "  --{} N ", option.name));
    let numbers = succeeds(rt, format!(in rt.alloc(); ", {least} to {most}; {default}"));
    let mut told = false;
    for line in USAGE.lines() {
        told = told || line.starts_with(begins.as_str()) && line.contains(numbers.as_str());
    }
    are_equal(rt, &told, &true);
}

#[test]
fn usage_tells_of_each_number(rt: HostRuntime) {
    for parameter in RUN.parameters.iter() {
        match parameter {
            Parameter::Number(option) => is_told(&rt, option),
            _ => {}
        }
    }
}
