//! The numbers that stand behind the names of constants.

use crate::equal::are_equal;
use console_port::MAX_INPUT;
use drive_script::{MAX_PAGE, MAX_PLACE, MAX_SCRIPT, MAX_STEPS};
use elf_load::{MAX_PAGES, MIN_PAGES, RAM_BASE};
use forest_model::cause::{
    BREAKPOINT, ENVIRONMENT_CALL_FROM_MACHINE, ENVIRONMENT_CALL_FROM_USER, ILLEGAL_INSTRUCTION,
    INSTRUCTION_ACCESS_FAULT, INSTRUCTION_ADDRESS_MISALIGNED, LOAD_ACCESS_FAULT,
    LOAD_ADDRESS_MISALIGNED, STORE_ACCESS_FAULT, STORE_ADDRESS_MISALIGNED,
};
use host_fetch::MAX_AHEAD;
use page_frames::PAGE_SIZE;
use port_map::{BLOCK_BASE, CONSOLE_BASE, FORK_BASE, SIBLING_BASE, TIMER_BASE};
use rv_traps::TIMER_INTERRUPT;
use sibling_words::MAX_WORDS;
use std::process::Abort;
use vm_descriptor::{MAX_CLONES, MAX_LIMIT, MAX_SHARE};

/// Where RAM and the ports begin.
static ADDRESSES: [(u32, u32); 6] = [
    (RAM_BASE, 0x8000_0000),
    (CONSOLE_BASE, 0x1000_0000),
    (BLOCK_BASE, 0x1000_1000),
    (FORK_BASE, 0x1000_2000),
    (SIBLING_BASE, 0x1000_3000),
    (TIMER_BASE, 0x0200_4000),
];

/// The causes of traps.
static CAUSES: [(u32, u32); 11] = [
    (INSTRUCTION_ADDRESS_MISALIGNED, 0),
    (INSTRUCTION_ACCESS_FAULT, 1),
    (ILLEGAL_INSTRUCTION, 2),
    (BREAKPOINT, 3),
    (LOAD_ADDRESS_MISALIGNED, 4),
    (LOAD_ACCESS_FAULT, 5),
    (STORE_ADDRESS_MISALIGNED, 6),
    (STORE_ACCESS_FAULT, 7),
    (ENVIRONMENT_CALL_FROM_USER, 8),
    (ENVIRONMENT_CALL_FROM_MACHINE, 11),
    (TIMER_INTERRUPT, 0x8000_0007),
];

/// The least pages of a guest and the most, its most clones, the greatest share, the most pages that are asked for beside
/// one, and the most steps, the greatest page and the greatest place of a line of a script.
static LIMITS: [(u32, u32); 8] = [
    (MIN_PAGES, 16),
    (MAX_PAGES, 16_384),
    (MAX_CLONES, 4096),
    (MAX_SHARE, 4095),
    (MAX_AHEAD, 16),
    (MAX_STEPS, 1_000_000_000),
    (MAX_PAGE, 4_294_967_295),
    (MAX_PLACE, 4_294_967_295),
];

/// The bytes of a page, and the most of an input and of a script; and the most words that wait from one sibling to another.
static SIZES: [(usize, usize); 4] = [
    (PAGE_SIZE, 4096),
    (MAX_INPUT, 65_536),
    (MAX_SCRIPT, 1_048_576),
    (MAX_WORDS, 8),
];

fn are_these(rt: &impl Abort, table: &[(u32, u32)]) {
    for (is, number) in table {
        are_equal(rt, is, number);
    }
}

fn sizes_are_these(rt: &impl Abort) {
    for (is, number) in SIZES.iter() {
        are_equal(rt, is, number);
    }
}

#[test]
fn constants_are_these(rt: HostRuntime) {
    are_these(&rt, &ADDRESSES);
    are_these(&rt, &CAUSES);
    are_these(&rt, &LIMITS);
    sizes_are_these(&rt);
    are_equal(&rt, &MAX_LIMIT, &1_000_000_000);
}
