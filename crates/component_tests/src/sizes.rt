//! Where the ports begin, and sizes and limits that other crates take from them.

use crate::equal::are_equal;
use block_port::registers::BLOCK_SIZE;
use console_port::MAX_INPUT;
use console_port::registers::CONSOLE_SIZE;
use fork_port::refusals::TICKETS_END;
use fork_port::registers::FORK_SIZE;
use port_map::{BLOCK_BASE, CONSOLE_BASE, FORK_BASE, SIBLING_BASE, TIMER_BASE};
use sibling_port::answers::{DONE, SIBLING_ENDED};
use sibling_port::registers::SIBLING_SIZE;

#[test]
fn bases_by_their_numbers(rt: HostRuntime) {
    let bases = [
        TIMER_BASE,
        CONSOLE_BASE,
        BLOCK_BASE,
        FORK_BASE,
        SIBLING_BASE,
    ];
    let want = [
        0x0200_4000,
        0x1000_0000,
        0x1000_1000,
        0x1000_2000,
        0x1000_3000,
    ];
    are_equal(&rt, &bases, &want);
}

#[test]
fn sizes_and_limits_by_their_numbers(rt: HostRuntime) {
    let found = (
        [CONSOLE_SIZE, BLOCK_SIZE, FORK_SIZE, SIBLING_SIZE],
        MAX_INPUT,
        [TICKETS_END, DONE, SIBLING_ENDED],
    );
    let words = [0xffff_fffa, 0, 0xffff_fff9];
    are_equal(&rt, &found, &([8, 0x400, 128, 20], 65_536, words));
}
