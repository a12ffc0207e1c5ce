//! Stretches of fast steps, which are made together: what the counters, the timer and limits come to in them, and
//! code that is stored over. The numbers are counted by hand from the guests' words.

use crate::equal::{are_equal_at, succeeds};
use crate::guests::{loaded_at, no_disk, run};
use elf_load::RAM_BASE;
use forest_model::Options;
use std::alloc::Global;
use std::process::Abort;
use vm_cell::Vm;

// The words of a guest, the limit of its steps, and how many are asked of it.
type Guest = ([u32; 21], u64, u64);

// What x5 to x7 and the count of steps are.
type Came = ([u32; 3], u64);

// Guests, and what x5 to x7 and the count of steps are then.
static ROWS: [(&str, Guest, [u32; 3], u64); 18] = [
    (
        "counters after 1",
        (
            [
                0x00000013, 0xb0002373, 0xb02023f3, 0x0200c437, 0xff842283, 0x0000006f, 0x0000006f,
                0x0000006f, 0x0000006f, 0x0000006f, 0x0000006f, 0x0000006f, 0x0000006f, 0x0000006f,
                0x0000006f, 0x0000006f, 0x0000006f, 0x0000006f, 0x0000006f, 0x0000006f, 0x0000006f,
            ],
            10000,
            300,
        ),
        [4, 1, 2],
        300,
    ),
    (
        "counters after 255",
        (
            [
                0x07f00293, 0xfff28293, 0xfe029ee3, 0xb0002373, 0xb02023f3, 0x0200c437, 0xff842283,
                0x0000006f, 0x0000006f, 0x0000006f, 0x0000006f, 0x0000006f, 0x0000006f, 0x0000006f,
                0x0000006f, 0x0000006f, 0x0000006f, 0x0000006f, 0x0000006f, 0x0000006f, 0x0000006f,
            ],
            10000,
            300,
        ),
        [258, 255, 256],
        300,
    ),
    (
        "counters after 256",
        (
            [
                0x07f00293, 0xfff28293, 0xfe029ee3, 0x00000013, 0xb0002373, 0xb02023f3, 0x0200c437,
                0xff842283, 0x0000006f, 0x0000006f, 0x0000006f, 0x0000006f, 0x0000006f, 0x0000006f,
                0x0000006f, 0x0000006f, 0x0000006f, 0x0000006f, 0x0000006f, 0x0000006f, 0x0000006f,
            ],
            10000,
            300,
        ),
        [259, 256, 257],
        300,
    ),
    (
        "counters after 257",
        (
            [
                0x08000293, 0xfff28293, 0xfe029ee3, 0xb0002373, 0xb02023f3, 0x0200c437, 0xff842283,
                0x0000006f, 0x0000006f, 0x0000006f, 0x0000006f, 0x0000006f, 0x0000006f, 0x0000006f,
                0x0000006f, 0x0000006f, 0x0000006f, 0x0000006f, 0x0000006f, 0x0000006f, 0x0000006f,
            ],
            10000,
            300,
        ),
        [260, 257, 258],
        300,
    ),
    (
        "timer due at 10",
        (
            [
                0x00000097, 0x03008093, 0x30509073, 0x02004137, 0x00a00193, 0x00312023, 0x00012223,
                0x08000193, 0x30419073, 0x30046073, 0x00128293, 0xffdff06f, 0x34102373, 0xb00023f3,
                0x0000006f, 0x0000006f, 0x0000006f, 0x0000006f, 0x0000006f, 0x0000006f, 0x0000006f,
            ],
            10000,
            600,
        ),
        [0, 0x80000028, 12],
        600,
    ),
    (
        "timer due at 11",
        (
            [
                0x00000097, 0x03008093, 0x30509073, 0x02004137, 0x00b00193, 0x00312023, 0x00012223,
                0x08000193, 0x30419073, 0x30046073, 0x00128293, 0xffdff06f, 0x34102373, 0xb00023f3,
                0x0000006f, 0x0000006f, 0x0000006f, 0x0000006f, 0x0000006f, 0x0000006f, 0x0000006f,
            ],
            10000,
            600,
        ),
        [1, 0x8000002c, 13],
        600,
    ),
    (
        "timer due at 265",
        (
            [
                0x00000097, 0x03008093, 0x30509073, 0x02004137, 0x10900193, 0x00312023, 0x00012223,
                0x08000193, 0x30419073, 0x30046073, 0x00128293, 0xffdff06f, 0x34102373, 0xb00023f3,
                0x0000006f, 0x0000006f, 0x0000006f, 0x0000006f, 0x0000006f, 0x0000006f, 0x0000006f,
            ],
            10000,
            600,
        ),
        [128, 0x8000002c, 267],
        600,
    ),
    (
        "timer due at 266",
        (
            [
                0x00000097, 0x03008093, 0x30509073, 0x02004137, 0x10a00193, 0x00312023, 0x00012223,
                0x08000193, 0x30419073, 0x30046073, 0x00128293, 0xffdff06f, 0x34102373, 0xb00023f3,
                0x0000006f, 0x0000006f, 0x0000006f, 0x0000006f, 0x0000006f, 0x0000006f, 0x0000006f,
            ],
            10000,
            600,
        ),
        [128, 0x80000028, 268],
        600,
    ),
    (
        "timer due at 267",
        (
            [
                0x00000097, 0x03008093, 0x30509073, 0x02004137, 0x10b00193, 0x00312023, 0x00012223,
                0x08000193, 0x30419073, 0x30046073, 0x00128293, 0xffdff06f, 0x34102373, 0xb00023f3,
                0x0000006f, 0x0000006f, 0x0000006f, 0x0000006f, 0x0000006f, 0x0000006f, 0x0000006f,
            ],
            10000,
            600,
        ),
        [129, 0x8000002c, 269],
        600,
    ),
    (
        "time written in a stretch",
        (
            [
                0x00000097, 0x04808093, 0x30509073, 0x02004137, 0x1f400193, 0x00312023, 0x00012223,
                0x08000193, 0x30419073, 0x30046073, 0x03200213, 0xfff20213, 0xfe021ee3, 0x0200c137,
                0x19000193, 0xfe312c23, 0x00128293, 0xffdff06f, 0x34102373, 0xb00023f3, 0x0000006f,
            ],
            10000,
            600,
        ),
        [50, 0x80000040, 216],
        600,
    ),
    (
        "a limit of 1",
        (
            [
                0x00128293, 0xffdff06f, 0x0000006f, 0x0000006f, 0x0000006f, 0x0000006f, 0x0000006f,
                0x0000006f, 0x0000006f, 0x0000006f, 0x0000006f, 0x0000006f, 0x0000006f, 0x0000006f,
                0x0000006f, 0x0000006f, 0x0000006f, 0x0000006f, 0x0000006f, 0x0000006f, 0x0000006f,
            ],
            1,
            1000,
        ),
        [1, 0, 0],
        1,
    ),
    (
        "a limit of 255",
        (
            [
                0x00128293, 0xffdff06f, 0x0000006f, 0x0000006f, 0x0000006f, 0x0000006f, 0x0000006f,
                0x0000006f, 0x0000006f, 0x0000006f, 0x0000006f, 0x0000006f, 0x0000006f, 0x0000006f,
                0x0000006f, 0x0000006f, 0x0000006f, 0x0000006f, 0x0000006f, 0x0000006f, 0x0000006f,
            ],
            255,
            1000,
        ),
        [128, 0, 0],
        255,
    ),
    (
        "a limit of 256",
        (
            [
                0x00128293, 0xffdff06f, 0x0000006f, 0x0000006f, 0x0000006f, 0x0000006f, 0x0000006f,
                0x0000006f, 0x0000006f, 0x0000006f, 0x0000006f, 0x0000006f, 0x0000006f, 0x0000006f,
                0x0000006f, 0x0000006f, 0x0000006f, 0x0000006f, 0x0000006f, 0x0000006f, 0x0000006f,
            ],
            256,
            1000,
        ),
        [128, 0, 0],
        256,
    ),
    (
        "a limit of 257",
        (
            [
                0x00128293, 0xffdff06f, 0x0000006f, 0x0000006f, 0x0000006f, 0x0000006f, 0x0000006f,
                0x0000006f, 0x0000006f, 0x0000006f, 0x0000006f, 0x0000006f, 0x0000006f, 0x0000006f,
                0x0000006f, 0x0000006f, 0x0000006f, 0x0000006f, 0x0000006f, 0x0000006f, 0x0000006f,
            ],
            257,
            1000,
        ),
        [129, 0, 0],
        257,
    ),
    (
        "a limit of 300",
        (
            [
                0x00128293, 0xffdff06f, 0x0000006f, 0x0000006f, 0x0000006f, 0x0000006f, 0x0000006f,
                0x0000006f, 0x0000006f, 0x0000006f, 0x0000006f, 0x0000006f, 0x0000006f, 0x0000006f,
                0x0000006f, 0x0000006f, 0x0000006f, 0x0000006f, 0x0000006f, 0x0000006f, 0x0000006f,
            ],
            300,
            1000,
        ),
        [150, 0, 0],
        300,
    ),
    (
        "a run that ends in a stretch",
        (
            [
                0x00128293, 0xffdff06f, 0x0000006f, 0x0000006f, 0x0000006f, 0x0000006f, 0x0000006f,
                0x0000006f, 0x0000006f, 0x0000006f, 0x0000006f, 0x0000006f, 0x0000006f, 0x0000006f,
                0x0000006f, 0x0000006f, 0x0000006f, 0x0000006f, 0x0000006f, 0x0000006f, 0x0000006f,
            ],
            10000,
            257,
        ),
        [129, 0, 0],
        257,
    ),
    (
        "a loop that patches itself",
        (
            [
                0x00000097, 0x0280a103, 0x0c800213, 0x00128293, 0x00c0a183, 0x0020a623, 0x00018113,
                0xfff20213, 0xfe0216e3, 0x0000006f, 0x01028293, 0x0000006f, 0x0000006f, 0x0000006f,
                0x0000006f, 0x0000006f, 0x0000006f, 0x0000006f, 0x0000006f, 0x0000006f, 0x0000006f,
            ],
            10000,
            1300,
        ),
        [1700, 0, 0],
        1300,
    ),
    (
        "code that is zeroed",
        (
            [
                0x00000097, 0x04408113, 0x30511073, 0x800011b7, 0x0500a203, 0x0041a023, 0x0c800293,
                0x000184e7, 0xfff28293, 0xfe029ce3, 0x10002437, 0x00100113, 0x00242023, 0x00242223,
                0x00600113, 0x00242423, 0x000184e7, 0x34202373, 0x341023f3, 0x0000006f, 0x00048067,
            ],
            10000,
            1000,
        ),
        [0, 2, 0x80001000],
        1000,
    ),
];

#[test]
fn stretches_end_in_time(rt: HostRuntime) {
    for (name, guest, registers, steps) in ROWS.iter() {
        comes(&rt, rt.alloc(), name, guest, (*registers, *steps));
    }
}

fn comes(rt: &impl Abort, alloc: Global, name: &str, guest: &Guest, want: Came) {
    let came = after(rt, alloc, guest);
    are_equal_at(rt, name, &came, &want);
}

// x5 to x7 and the count of steps after a guest of 16 pages has run.
fn after(rt: &impl Abort, alloc: Global, guest: &Guest) -> Came {
    let (words, limit, most) = guest;
    let image = loaded_at(rt, alloc, RAM_BASE, words, 16);
    let options = Options {
        limit: (*limit).clamp(1, 1_000_000),
        allot: 0,
    };
    let booted = Vm::boot(alloc, &image, no_disk(rt, alloc), b"", options);
    let mut vm = succeeds(rt, booted);
    run(rt, alloc, &mut vm, *most);
    let registers = vm.regs();
    ([registers[5], registers[6], registers[7]], vm.steps())
}
