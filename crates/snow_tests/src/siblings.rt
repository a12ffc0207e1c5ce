//! Families whose children talk: their reports, where they come to their end and where they are stuck, what a script tells of
//! machines that wait, and a wire that is lost while a sibling waits.

ghost use Rattle.std.specs.Prelude.{◌≤◌, length};

use crate::equal::succeeds;
use crate::tests::{has_code, writes};
use elf_load::RAM_BASE;
use rv_asm::elf_of;
use std::process::Abort;
use std::sync::Wait;
use std::thread::Threads;
use wire_fates::Fate;

/// The words of the guest whose two children swap their numbers.
static SIBLING_SWAP: [u32; 34] = [
    0x100022b7, 0x00200313, 0x0062a023, 0x0002a223, 0x00100313, 0x0062a423, 0x00c2a383, 0x0072a023,
    0x00200313, 0x0062a423, 0x0102a403, 0x02041463, 0x00300313, 0x0072a023, 0x0062a423, 0x00100313,
    0x0062ac23, 0x0202a303, 0x0062a023, 0x00500313, 0x0062a423, 0x100036b7, 0x00300313, 0x40830333,
    0x0066a023, 0x0086a223, 0x00100313, 0x0066a423, 0x00200313, 0x0066a423, 0x0046a303, 0x0062a023,
    0x00500313, 0x0062a423,
];

/// Its report.
static SIBLING_SWAP_REPORT: &[u8] =
    b"machine 0 exit 2 steps 21 out 0\n\nmachine 0.1.1 exit 2 steps 25 out 0\n\nmachine 0.1.2 exit 1 steps 25 out 0\n\n";

/// The words of the guest whose two children both receive of each other first, and so wait for ever.
static SIBLING_STUCK: [u32; 34] = [
    0x100022b7, 0x00200313, 0x0062a023, 0x0002a223, 0x00100313, 0x0062a423, 0x00c2a383, 0x0072a023,
    0x00200313, 0x0062a423, 0x0102a403, 0x02041463, 0x00300313, 0x0072a023, 0x0062a423, 0x00100313,
    0x0062ac23, 0x0202a303, 0x0062a023, 0x00500313, 0x0062a423, 0x100036b7, 0x00300313, 0x40830333,
    0x0066a023, 0x0086a223, 0x00200313, 0x0066a423, 0x00200313, 0x0066a423, 0x0046a303, 0x0062a023,
    0x00500313, 0x0062a423,
];

/// Its report.
static SIBLING_STUCK_REPORT: &[u8] =
    b"machine 0 stuck steps 14 out 0\n\nmachine 0.1.1 stuck steps 18 out 0\n\nmachine 0.1.2 stuck steps 18 out 0\n\n";

/// The words of the guest whose first child sends a word of pages that the other one does not want.
static LATE_WORD: [u32; 44] = [
    0x100022b7, 0x100036b7, 0x8000a7b7, 0x0057a023, 0x8000b837, 0x00d82023, 0x00200313, 0x0062a023,
    0x00000313, 0x0062a223, 0x00100313, 0x0062a423, 0x00c2a383, 0x0072a023, 0x00200313, 0x0062a423,
    0x00c2a403, 0x00041e63, 0x0072a023, 0x00300313, 0x0062a423, 0x0002a023, 0x00500313, 0x0062a423,
    0x00300513, 0x40850533, 0x00100313, 0x02640063, 0x00a6a023, 0x00200313, 0x0066a423, 0x0046a603,
    0x00c2a023, 0x00500313, 0x0062a423, 0x0007a603, 0x00082603, 0x00a6a023, 0x00c6a223, 0x00100313,
    0x0066a423, 0x00c2a023, 0x00500313, 0x0062a423,
];

/// Expects that this is written of a family by one worker and by several.
fn each_writes<R: AllocGlobal + Threads + Wait + Sync + Abort>(rt: &R, guest: &[u32], report: &[u8])
    requires { length guest.now ≤ 64 }
{
    for line in [
        "run guest --clones 2",
        "run guest --clones 2 --workers 8",
        "run guest --clones 2 --workers 8 --slice 1 --wire 3",
        "run guest --clones 2 --workers 64 --slice 3",
    ] {
        writes(rt, line, guest, b"", report);
    }
}

#[test]
fn writes_the_report_of_siblings(rt: HostRuntime) {
    each_writes(&rt, &SIBLING_SWAP, SIBLING_SWAP_REPORT);
}

// It is no failure: the code is 0.
#[test]
fn writes_the_report_of_a_family_that_is_stuck(rt: HostRuntime) {
    each_writes(&rt, &SIBLING_STUCK, SIBLING_STUCK_REPORT);
}

#[test]
fn writes_that_siblings_wait(rt: HostRuntime) {
    let script: &[u8] =
        b"step 0 100\npush 0.1.1 0\ngive 0.1.1 0\ngive 0.1.2 0\nstep 0.1.1 100\nstep 0.1.2 100\nstep 0.1.1 100\nstep 0.1.2 100\nstep 0 100\n";
    let told: &[u8] =
        b"0 ran 14 wait 1\n0.1.1 push 0 0\n0.1.1 got 0\n0.1.2 got 0\n0.1.1 ran 8 receive 2\n0.1.2 ran 8 receive 1\n0.1.1 ran 0 receive 2\n0.1.2 ran 0 receive 1\n0 ran 0 wait 1\n";
    let words = "drive guest script --clones 2";
    writes(&rt, words, &SIBLING_STUCK, script, told);
}

// Each wire gives one reply, and the first child wants two pages more than its code. Nothing is out, and the code is 7.
#[test]
fn loses_its_wire_while_a_sibling_waits(rt: HostRuntime) {
    let image = succeeds(&rt, elf_of(rt.alloc(), RAM_BASE, &LATE_WORD));
    for line in [
        "run guest --clones 2",
        "run guest --clones 2 --workers 2",
        "run guest --clones 2 --workers 8",
    ] {
        has_code(&rt, line, &image, (8, 1, Fate::Lose(0), 64), 7);
    }
}
