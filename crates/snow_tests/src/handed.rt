//! Bytes that machines hand over as they end: what is reported of them, which commands are refused, and the pages that a
//! machine waits for first.

use crate::tests::writes;
use std::process::Abort;
use std::sync::Wait;
use std::thread::Threads;

/// A command line, the words of its guest, and the report.
type Guest = (&'static str, &'static [u32], &'static [u8]);

/// Guests that hand over bytes, or are refused it and exit with RESULT then.
#[rattlefmt::skip]
static GUESTS: [Guest; 23] = [
    // Four bytes of its code.
    (
        "run guest",
        &[
            0x100022b7, 0x800004b7, 0x0092a223, 0x00700313, 0x0062a023, 0x40700313, 0x0062a423,
        ],
        b"machine 0 exit 7 steps 7 out 0 handed b7220010\n\n",
    ),
    // Two children, whose bytes their parent reads.
    (
        "run guest --clones 2",
        &[
            0x100022b7, 0x00200313, 0x0062a023, 0x0002a223, 0x00100313, 0x0062a423, 0x00c2a383, 0x0072a023,
            0x00200313, 0x0062a423, 0x0102a403, 0x02041463, 0x00300313, 0x0072a023, 0x0062a423, 0x00100313,
            0x0062ac23, 0x0402a303, 0x0062a023, 0x00500313, 0x0062a423, 0x02840313, 0x0062a023, 0x800004b7,
            0x0092a223, 0x40700313, 0x0062a423,
        ],
        b"machine 0 exit 268444343 steps 21 out 0\n\nmachine 0.1.1 exit 41 steps 18 out 0 handed b7220010\n\nmachine 0.1.2 exit 42 steps 18 out 0 handed b7220010\n\n",
    ),
    // No bytes, at address 0.
    (
        "run guest --ram 16",
        &[
            0x100022b7, 0x00700313, 0x0062a023, 0x00000313, 0x0062a223, 0x00700313, 0x0062a423, 0x00c2a383,
            0x0072a023, 0x00500313, 0x0062a423,
        ],
        b"machine 0 exit 7 steps 7 out 0\n\n",
    ),
    // No bytes, at the last address.
    (
        "run guest --ram 16",
        &[
            0x100022b7, 0x00700313, 0x0062a023, 0xfff00313, 0x0062a223, 0x00700313, 0x0062a423, 0x00c2a383,
            0x0072a023, 0x00500313, 0x0062a423,
        ],
        b"machine 0 exit 7 steps 7 out 0\n\n",
    ),
    // The last 64 bytes of RAM.
    (
        "run guest --ram 16",
        &[
            0x100022b7, 0x00700313, 0x0062a023, 0x80010337, 0xfc030313, 0x0062a223, 0x00004337, 0x00730313,
            0x0062a423, 0x00c2a383, 0x0072a023, 0x00500313, 0x0062a423,
        ],
        b"machine 0 exit 7 steps 9 out 0 handed 00000000000000000000000000000000000000000000000000000000000000000000000000000000000000000000000000000000000000000000000000000000\n\n",
    ),
    // 63 bytes.
    (
        "run guest --ram 16",
        &[
            0x100022b7, 0x00700313, 0x0062a023, 0x80010337, 0xfc130313, 0x0062a223, 0x00004337, 0xf0730313,
            0x0062a423,
        ],
        b"machine 0 exit 7 steps 9 out 0 handed 000000000000000000000000000000000000000000000000000000000000000000000000000000000000000000000000000000000000000000000000000000\n\n",
    ),
    // The last byte of RAM.
    (
        "run guest --ram 16",
        &[
            0x100022b7, 0x00700313, 0x0062a023, 0x80010337, 0xfff30313, 0x0062a223, 0x10700313, 0x0062a423,
        ],
        b"machine 0 exit 7 steps 8 out 0 handed 00\n\n",
    ),
    // The byte behind it.
    (
        "run guest --ram 16",
        &[
            0x100022b7, 0x00700313, 0x0062a023, 0x80010337, 0x0062a223, 0x10700313, 0x0062a423, 0x00c2a383,
            0x0072a023, 0x00500313, 0x0062a423,
        ],
        b"machine 0 exit 4294967292 steps 11 out 0\n\n",
    ),
    // 64 bytes, of which the last is behind RAM.
    (
        "run guest --ram 16",
        &[
            0x100022b7, 0x00700313, 0x0062a023, 0x80010337, 0xfc130313, 0x0062a223, 0x00004337, 0x00730313,
            0x0062a423, 0x00c2a383, 0x0072a023, 0x00500313, 0x0062a423,
        ],
        b"machine 0 exit 4294967292 steps 13 out 0\n\n",
    ),
    // Two bytes, of which the first is before RAM.
    (
        "run guest --ram 16",
        &[
            0x100022b7, 0x00700313, 0x0062a023, 0x80000337, 0xfff30313, 0x0062a223, 0x20700313, 0x0062a423,
            0x00c2a383, 0x0072a023, 0x00500313, 0x0062a423,
        ],
        b"machine 0 exit 4294967292 steps 12 out 0\n\n",
    ),
    // 65 bytes.
    (
        "run guest --ram 16",
        &[
            0x100022b7, 0x00700313, 0x0062a023, 0x80000337, 0x0062a223, 0x00004337, 0x10730313, 0x0062a423,
            0x00c2a383, 0x0072a023, 0x00500313, 0x0062a423,
        ],
        b"machine 0 exit 4294967292 steps 12 out 0\n\n",
    ),
    // 32 bytes, whose end would wrap to address 16.
    (
        "run guest --ram 16",
        &[
            0x100022b7, 0x00700313, 0x0062a023, 0xff000313, 0x0062a223, 0x00002337, 0x00730313, 0x0062a423,
            0x00c2a383, 0x0072a023, 0x00500313, 0x0062a423,
        ],
        b"machine 0 exit 4294967292 steps 12 out 0\n\n",
    ),
    // Three bytes from an odd address.
    (
        "run guest --ram 16",
        &[
            0x100022b7, 0x00700313, 0x0062a023, 0x80000337, 0x00130313, 0x0062a223, 0x30700313, 0x0062a423,
            0x00c2a383, 0x0072a023, 0x00500313, 0x0062a423,
        ],
        b"machine 0 exit 7 steps 8 out 0 handed 220010\n\n",
    ),
    // Command 0x105, which is no EXIT.
    (
        "run guest --ram 16",
        &[
            0x100022b7, 0x10500313, 0x0062a423, 0x00c2a383, 0x0072a023, 0x00500313, 0x0062a423,
        ],
        b"machine 0 exit 4294967290 steps 7 out 0\n\n",
    ),
    // Command 0x106, which is no ZERO.
    (
        "run guest --ram 16",
        &[
            0x100022b7, 0x10600313, 0x0062a423, 0x00c2a383, 0x0072a023, 0x00500313, 0x0062a423,
        ],
        b"machine 0 exit 4294967290 steps 7 out 0\n\n",
    ),
    // 65,536 bytes, a number whose low 16 bits are 0.
    (
        "run guest --ram 16",
        &[
            0x100022b7, 0x01000337, 0x00730313, 0x0062a423, 0x00c2a383, 0x0072a023, 0x00500313, 0x0062a423,
        ],
        b"machine 0 exit 4294967292 steps 8 out 0\n\n",
    ),
    // 1,048,576 bytes.
    (
        "run guest --ram 16",
        &[
            0x100022b7, 0x10000337, 0x00730313, 0x0062a423, 0x00c2a383, 0x0072a023, 0x00500313, 0x0062a423,
        ],
        b"machine 0 exit 4294967292 steps 8 out 0\n\n",
    ),
    // The most bytes that a command can tell.
    (
        "run guest --ram 16",
        &[
            0x100022b7, 0xf0700313, 0x0062a423, 0x00c2a383, 0x0072a023, 0x00500313, 0x0062a423,
        ],
        b"machine 0 exit 4294967292 steps 7 out 0\n\n",
    ),
    // Command 8.
    (
        "run guest --ram 16",
        &[
            0x100022b7, 0x00800313, 0x0062a423, 0x00c2a383, 0x0072a023, 0x00500313, 0x0062a423,
        ],
        b"machine 0 exit 4294967290 steps 7 out 0\n\n",
    ),
    // Command 0.
    (
        "run guest --ram 16",
        &[
            0x100022b7, 0x00000313, 0x0062a423, 0x00c2a383, 0x0072a023, 0x00500313, 0x0062a423,
        ],
        b"machine 0 exit 4294967290 steps 7 out 0\n\n",
    ),
    // Four bytes, with the limit at that step.
    (
        "run guest --ram 16 --limit 7",
        &[
            0x100022b7, 0x00700313, 0x0062a023, 0x80000337, 0x0062a223, 0x40700313, 0x0062a423, 0x00c2a383,
            0x0072a023, 0x00500313, 0x0062a423,
        ],
        b"machine 0 exit 7 steps 7 out 0 handed b7220010\n\n",
    ),
    // A load of offset 40, and a handler that exits with the cause.
    (
        "run guest",
        &[
            0x100022b7, 0x00000317, 0x01030313, 0x30531073, 0x0282a383, 0x342023f3, 0x0072a023, 0x00500313,
            0x0062a423,
        ],
        b"machine 0 exit 5 steps 9 out 0\n\n",
    ),
    // A store to JLEN, with such a handler.
    (
        "run guest",
        &[
            0x100022b7, 0x00000317, 0x01030313, 0x30531073, 0x0272a623, 0x342023f3, 0x0072a023, 0x00500313,
            0x0062a423,
        ],
        b"machine 0 exit 7 steps 9 out 0\n\n",
    ),
];

/// Writes this report over the image of a guest.
fn reports<R: AllocGlobal + Threads + Wait + Sync + Abort>(
    rt: &R,
    line: &str,
    words: &[u32],
    report: &[u8],
) {
    assert!(rt; words.len() <= 64);
    writes(rt, line, words, b"", report);
}

#[test]
fn guests_hand_over_bytes(rt: HostRuntime) {
    for (line, words, report) in GUESTS.iter() {
        reports(&rt, line, words, report);
    }
}

/// The words of a guest whose child hands over two bytes of page 1 and two of page 2. The parent exits with the sum of
/// JLEN and the first, the second and the last word of JBYTES.
static TWO_PAGES: [u32; 33] = [
    0x100022b7, 0x800023b7, 0xfe53ae23, 0x0053a023, 0x00100313, 0x0062a023, 0x0002a223, 0x0062a423,
    0x00c2a383, 0x0072a023, 0x00200313, 0x0062a423, 0x0102a403, 0x02041e63, 0x00300313, 0x0062a423,
    0x00100313, 0x0062ac23, 0x02c2a383, 0x0402a403, 0x008383b3, 0x0442a403, 0x008383b3, 0x07c2a403,
    0x008383b3, 0x0072a023, 0x00500313, 0x0062a423, 0x80002337, 0xffe30313, 0x0062a223, 0x40700313,
    0x0062a423,
];

// The child waits for the page of its code, then for the lower page of its bytes, and then for the higher one.
#[test]
fn two_pages_are_waited_for(rt: HostRuntime) {
    let script: &[u8] =
        b"step 0 100\nstep 0.1.1 20\nask 0.1.1\ngive 0.1.1 0\nstep 0.1.1 20\nask 0.1.1\ngive 0.1.1 1\nstep 0.1.1 20\nask 0.1.1\ngive 0.1.1 2\nstep 0.1.1 20\nstep 0 20\n";
    let told: &[u8] =
        b"0 ran 15 wait 1\n0.1.1 ran 0 stall 0\n0.1.1 ask 0 0\n0.1.1 got 0\n0.1.1 ran 6 stall 1\n0.1.1 ask 1 1\n0.1.1 got 1\n0.1.1 ran 0 stall 2\n0.1.1 ask 2 2\n0.1.1 got 2\n0.1.1 ran 1 exit 1\n0 ran 13 exit 536875012\n";
    let words = "drive guest script --clones 1 --ram 16";
    writes(&rt, words, &TWO_PAGES, script, told);
}
