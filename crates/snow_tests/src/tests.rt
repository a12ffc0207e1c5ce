//! What no clause says: the texts of two guests, and the codes at their causes. Whole guests, options and real
//! files are tested by the command line.

ghost use Rattle.std.specs.Prelude.{◌≤◌, length};

use crate::equal::{are_equal, succeeds};
use elf_load::RAM_BASE;
use host_workers::{Gate, MAX_WORKERS, OpenGate};
use io_edge::{MemShelf, MemSink};
use rv_asm::elf_of;
use snow_commands::{Status, snow};
use std::alloc::Global;
use std::process::Abort;
use std::sync::Wait;
use std::thread::Threads;
use wire_fates::{Fate, Scripted, Wire};

/// The words of the guest that ends with the value 7. Its image has 104 bytes.
static EXIT_SEVEN: [u32; 5] = [0x100022b7, 0x00700313, 0x0062a023, 0x00500313, 0x0062a423];

/// The words of the guest that makes two children, where it gets a ticket for them. It joins them and
/// exits with the value of the first.
static TWO_CHILDREN: [u32; 25] = [
    0x100022b7, 0x00200313, 0x0062a023, 0x0002a223, 0x00100313, 0x0062a423, 0x00c2a383, 0x0072a023,
    0x00200313, 0x0062a423, 0x0102a403, 0x02041463, 0x00300313, 0x0072a023, 0x0062a423, 0x00100313,
    0x0062ac23, 0x0202a303, 0x0062a023, 0x00500313, 0x0062a423, 0x02840313, 0x0062a023, 0x00500313,
    0x0062a423,
];

/// Its report, where it gets its children.
pub(crate) static TWO_CHILDREN_REPORT: &[u8] =
    b"machine 0 exit 41 steps 21 out 0\n\nmachine 0.1.1 exit 41 steps 16 out 0\n\nmachine 0.1.2 exit 42 steps 16 out 0\n\n";

/// The words of a command line.
pub(crate) fn words_of(rt: &impl Abort, alloc: Global, line: &str) -> Vec<String> {
    let mut words = Vec::new(alloc);
    for word in line.split(' ') {
        let word = succeeds(rt, String::from_str(alloc, word));
        succeeds(rt, words.push(word));
    }
    words
}

fn add_file(
    rt: &impl Abort,
    alloc: Global,
    files: &mut Vec<(String, Vec<u8>)>,
    name: &str,
    bytes: &[u8],
) {
    let name = succeeds(rt, String::from_str(alloc, name));
    let bytes = succeeds(rt, Vec::from_slice(alloc, bytes));
    succeeds(rt, files.push((name, bytes)));
}

/// The image `guest`, `script`, `disk`, of 512 bytes, and the input `Z`.
fn files_of(rt: &impl Abort, alloc: Global, guest: &[u8], script: &[u8]) -> Vec<(String, Vec<u8>)> {
    let mut files = Vec::new(alloc);
    add_file(rt, alloc, &mut files, "guest", guest);
    add_file(rt, alloc, &mut files, "script", script);
    add_file(rt, alloc, &mut files, "disk", &[0; 512]);
    add_file(rt, alloc, &mut files, "input", b"Z");
    files
}

/// A shelf with these files. Its call of this number fails.
fn shelf_of(rt: &impl Abort, alloc: Global, guest: &[u8], script: &[u8], fails: u64) -> MemShelf {
    let faults = succeeds(rt, vec![in alloc; fails]);
    MemShelf::new(files_of(rt, alloc, guest, script), faults)
}

/// A shelf with the guest that ends with the value 7, and a script that is empty.
pub(crate) fn shelf_with(rt: &impl Abort, alloc: Global) -> MemShelf {
    let image = succeeds(rt, elf_of(alloc, RAM_BASE, &EXIT_SEVEN));
    shelf_of(rt, alloc, &image, b"", 0)
}

/// A wire that gives so many replies, then tells a fate so many times, and then gives again.
fn wire_of(rt: &impl Abort, alloc: Global, gives: usize, fate: Fate, times: usize) -> Scripted {
    let mut fates = Vec::new(alloc);
    for _ in 0..gives {
        succeeds(rt, fates.push(Fate::Give(0)));
    }
    for _ in 0..times {
        succeeds(rt, fates.push(fate));
    }
    Scripted::new(fates)
}

/// So many wires, of each of which this is told: it gives so many replies, then tells a fate so many times, and then
/// gives again.
pub(crate) type Wires = (usize, usize, Fate, usize);

/// Wires that give each reply.
const GIVING: Wires = (8, 0, Fate::Give(0), 0);

/// So many of these wires.
fn wires_of(rt: &impl Abort, alloc: Global, wires: Wires) -> Vec<Scripted> {
    let (count, gives, fate, times) = wires;
    let mut all = Vec::new(alloc);
    for _ in 0..count {
        succeeds(rt, all.push(wire_of(rt, alloc, gives, fate, times)));
    }
    all
}

/// A sink that takes so many bytes a put. Its put of this number fails.
fn sink_that_takes(rt: &impl Abort, alloc: Global, most: usize, fails: u64) -> MemSink
    requires { 1 ≤ most }
{
    let faults = succeeds(rt, vec![in alloc; fails]);
    succeeds(rt, MemSink::new(alloc, most, 1000, faults))
}

/// A sink that takes seven bytes a put. Its put of this number fails.
pub(crate) fn sink_of(rt: &impl Abort, alloc: Global, fails: u64) -> MemSink {
    sink_that_takes(rt, alloc, 7, fails)
}

/// The words of a command line, and all that it is run over.
#[derive(Drop)]
struct Outside {
    words: Vec<String>,
    shelf: MemShelf,
    sink: MemSink,
    wires: Vec<Scripted>,
}

/// A command line over an image, a script and wires. The load and the put of these numbers fail.
fn outside_of(
    rt: &impl Abort,
    alloc: Global,
    line: &str,
    image: &[u8],
    script: &[u8],
    load: u64,
    put: u64,
    wires: Wires,
) -> Outside {
    Outside {
        words: words_of(rt, alloc, line),
        shelf: shelf_of(rt, alloc, image, script, load),
        sink: sink_of(rt, alloc, put),
        wires: wires_of(rt, alloc, wires),
    }
}

/// What words answer.
pub(crate) fn answer_of<
    R: AllocGlobal + Threads + Wait + Sync + Abort,
    W: Wire + Send,
    G: Gate + Sync,
>(
    rt: &R,
    words: &[String],
    shelf: &mut MemShelf,
    sink: &mut MemSink,
    wires: &mut Vec<W>,
    gate: &G,
) -> Status {
    let count = wires.len();
    assert!(rt; 1 <= count && count <= MAX_WORKERS);
    snow(rt, words, shelf, sink, wires, gate)
}

/// What a command line answers.
fn answer<R: AllocGlobal + Threads + Wait + Sync + Abort>(rt: &R, outside: &mut Outside) -> Status {
    answer_of(
        rt,
        &outside.words,
        &mut outside.shelf,
        &mut outside.sink,
        &mut outside.wires,
        &OpenGate,
    )
}

/// Compares an answer and what is out with what is wanted.
fn compare<R: Abort>(
    rt: &R,
    line: &str,
    found: &Status,
    sink: &MemSink,
    status: &Status,
    out: &[u8],
) {
    are_equal(rt, &(line, found, sink.bytes()), &(line, status, out));
}

/// Runs a command line over an image and a script, with a shelf whose load of this number fails, and compares what it
/// answers and what is out.
pub(crate) fn answers<R: AllocGlobal + Threads + Wait + Sync + Abort>(
    rt: &R,
    line: &str,
    image: &[u8],
    script: &[u8],
    fails: u64,
    status: &Status,
    out: &[u8],
) {
    let mut outside = outside_of(rt, rt.alloc(), line, image, script, fails, 0, GIVING);
    let found = answer(rt, &mut outside);
    compare(rt, line, &found, &outside.sink, status, out);
}

/// Expects that a command line writes this over the image of these words and a script.
pub(crate) fn writes<R: AllocGlobal + Threads + Wait + Sync + Abort>(
    rt: &R,
    line: &str,
    guest: &[u32],
    script: &[u8],
    out: &[u8],
)
    requires { length guest.now ≤ 64 }
{
    let image = succeeds(rt, elf_of(rt.alloc(), RAM_BASE, guest));
    let done = Status {
        code: 0,
        first: 0,
        second: 0,
    };
    answers(rt, line, &image, script, 0, &done, out);
}

#[test]
fn writes_reports(rt: HostRuntime) {
    let report: &[u8] = b"machine 0 exit 7 steps 5 out 0\n\n";
    writes(&rt, "run guest", &EXIT_SEVEN, b"", report);
    writes(
        &rt,
        "run guest --clones 2",
        &TWO_CHILDREN,
        b"",
        TWO_CHILDREN_REPORT,
    );
    writes(
        &rt,
        "run guest --clones 2 --workers 8 --slice 1",
        &TWO_CHILDREN,
        b"",
        TWO_CHILDREN_REPORT,
    );
}

#[test]
fn writes_what_scripts_tell(rt: HostRuntime) {
    let script: &[u8] =
        b"step 0 12\nstep 0.1.1 6\nask 0.1.1\ngive 0.1.2 0\nstep 0.1.2 9\nstep 0 9\ngive 0.1.1 0\nstep 0.1.1 6\nstep 0 7\nstep 0 1\n";
    let told: &[u8] =
        b"0 ran 12 ok\n0.1.1 ran 0 stall 0\n0.1.1 ask 0 0\n0.1.2 got 0\n0.1.2 ran 6 exit 42\n0 ran 2 wait 1\n0.1.1 got 0\n0.1.1 ran 6 exit 41\n0 ran 7 exit 41\n0 none\n";
    let words = "drive guest script --clones 2 --ram 16";
    writes(&rt, words, &TWO_CHILDREN, script, told);
}

/// Command lines, how many bytes of the image are there, the script, and the code with its two numbers.
static REFUSALS: [(&str, usize, &[u8], u8, u32, u32); 22] = [
    ("fly guest", 104, b"", 2, 0, 0),
    ("run guest script", 104, b"", 2, 0, 0),
    ("drive guest", 104, b"", 2, 0, 0),
    ("run --help", 104, b"", 2, 0, 0),
    ("run guest --ram 15", 104, b"", 2, 0, 0),
    ("run guest --ram 16385", 104, b"", 2, 0, 0),
    ("run guest --clones 4097", 104, b"", 2, 0, 0),
    ("run guest --ahead 17", 104, b"", 2, 0, 0),
    ("run guest --workers 65", 104, b"", 2, 0, 0),
    ("run guest --slice 0", 104, b"", 2, 0, 0),
    ("self 4294967296", 104, b"", 2, 0, 0),
    ("drive guest script --wire 1", 104, b"", 2, 0, 0),
    ("run other", 104, b"", 1, 1, 0),
    ("run guest --disk other", 104, b"", 1, 2, 0),
    ("run guest --input other", 104, b"", 1, 3, 0),
    ("run guest", 103, b"", 3, 9, 0),
    ("run guest --disk guest", 104, b"", 4, 2, 0),
    ("drive guest other --disk disk", 0, b"", 1, 4, 0),
    ("drive guest script --disk guest", 103, b"", 3, 9, 0),
    ("drive guest script --disk guest", 104, b"jump", 4, 2, 0),
    (
        "drive guest script",
        104,
        b"step 0 1\nregs 0\njump 0\n",
        8,
        3,
        1,
    ),
    ("drive guest script", 104, b"\nstep 0 01", 8, 2, 4),
];

/// The image of the guest that ends with the value 7.
pub(crate) fn exit_seven(rt: &impl Abort, alloc: Global) -> Vec<u8> {
    succeeds(rt, elf_of(alloc, RAM_BASE, &EXIT_SEVEN))
}

#[test]
fn refuses_by_cause(rt: HostRuntime) {
    let image = exit_seven(&rt, rt.alloc());
    for (line, length, script, code, first, second) in REFUSALS.iter() {
        let (guest, _) = image.split_at(image.len().min(*length));
        let status = Status {
            code: *code,
            first: *first,
            second: *second,
        };
        answers(&rt, line, guest, script, 0, &status, b"");
    }
}

/// Expects that `drive` over an image and a script stops at its load of this number, which fails.
fn stops_at_load<R: AllocGlobal + Threads + Wait + Sync + Abort>(
    rt: &R,
    image: &[u8],
    script: &[u8],
    load: u32,
) {
    let line = "drive guest script --disk disk --input input";
    let status = Status {
        code: 1,
        first: load,
        second: 0,
    };
    answers(rt, line, image, script, u64::from(load), &status, b"");
}

// Each load that `drive` makes, in order: where all that is read is in form, and where nothing is.
#[test]
fn stops_at_each_load(rt: HostRuntime) {
    let image = exit_seven(&rt, rt.alloc());
    for load in 1..=4u32 {
        stops_at_load(&rt, &image, b"step 0 1\n", load);
        stops_at_load(&rt, b"", b"", load);
    }
}

/// Command lines, how many wires there are and what each of them does, and the code. The second child of two hears the
/// page that the first fetched, or fetches it over a wire that has given none.
static WIRES: [(&str, Wires, u8); 11] = [
    (
        "run guest --clones 1 --workers 1",
        (1, 0, Fate::Lose(0), 64),
        7,
    ),
    (
        "run guest --clones 1 --workers 1",
        (1, 0, Fate::Again(0), 64),
        0,
    ),
    (
        "run guest --clones 2 --workers 2",
        (2, 0, Fate::Lose(0), 64),
        7,
    ),
    ("run guest --clones 1", (1, 0, Fate::Lose(0), 64), 7),
    ("run guest --clones 0", (1, 0, Fate::Lose(0), 64), 0),
    ("run guest --clones 1", (1, 0, Fate::Again(0), 64), 0),
    ("run guest --clones 2", (1, 1, Fate::Lose(0), 64), 0),
    (
        "run guest --clones 1 --workers 8",
        (8, 0, Fate::Lose(0), 64),
        7,
    ),
    (
        "run guest --clones 0 --workers 8",
        (8, 0, Fate::Lose(0), 64),
        0,
    ),
    (
        "run guest --clones 2 --workers 8",
        (8, 1, Fate::Lose(0), 64),
        0,
    ),
    (
        "run guest --clones 2 --workers 64",
        (1, 1, Fate::Lose(0), 64),
        0,
    ),
];

/// Compares the code of a run with what is wanted. Something is out just where it is 0.
fn compare_code<R: Abort>(rt: &R, line: &str, found: &Status, sink: &MemSink, code: u8) {
    let is_empty = sink.bytes().is_empty();
    are_equal(rt, &(line, found.code, is_empty), &(line, code, code != 0));
}

/// Runs a line over an image and wires, and compares its code.
pub(crate) fn has_code<R: AllocGlobal + Threads + Wait + Sync + Abort>(
    rt: &R,
    line: &str,
    image: &[u8],
    wires: Wires,
    code: u8,
) {
    let mut outside = outside_of(rt, rt.alloc(), line, image, b"", 0, 0, wires);
    let found = answer(rt, &mut outside);
    compare_code(rt, line, &found, &outside.sink, code);
}

/// The image of the guest that makes two children.
fn two_children(rt: &impl Abort, alloc: Global) -> Vec<u8> {
    succeeds(rt, elf_of(alloc, RAM_BASE, &TWO_CHILDREN))
}

/// A shelf with it, and a script that is empty.
pub(crate) fn shelf_of_two(rt: &impl Abort, alloc: Global) -> MemShelf {
    let image = two_children(rt, alloc);
    shelf_of(rt, alloc, &image, b"", 0)
}

#[test]
fn loses_its_wire(rt: HostRuntime) {
    let image = two_children(&rt, rt.alloc());
    for (line, wires, code) in WIRES.iter() {
        has_code(&rt, line, &image, *wires, *code);
    }
}

// So many losses, and the next reply comes.
#[test]
fn bears_losses(rt: HostRuntime) {
    let image = two_children(&rt, rt.alloc());
    let line = "run guest --clones 1 --workers 1";
    for times in 0..64 {
        has_code(&rt, line, &image, (1, 0, Fate::Lose(0), times), 0);
    }
}

/// Expects code 5, and of the report of two children the seven bytes of each put before this one.
fn compare_cut<R: Abort>(rt: &R, found: &Status, sink: &MemSink, fails: u64)
    requires least { 1 ≤ fails }
    requires most { fails ≤ 16 }
{
    let is_prefix = TWO_CHILDREN_REPORT.starts_with(sink.bytes());
    let length = sink.bytes().len() as u64;
    are_equal(
        rt,
        &(found.code, length, is_prefix),
        &(5, 7 * (fails - 1), true),
    );
}

/// Runs a guest of two children over a sink whose put of this number fails.
fn stops_at_put<R: AllocGlobal + Threads + Wait + Sync + Abort>(rt: &R, image: &[u8], fails: u64)
    requires least { 1 ≤ fails }
    requires most { fails ≤ 16 }
{
    let line = "run guest --clones 2";
    let mut outside = outside_of(rt, rt.alloc(), line, image, b"", 0, fails, GIVING);
    let found = answer(rt, &mut outside);
    compare_cut(rt, &found, &outside.sink, fails);
}

// The report of 110 bytes goes out seven by seven.
#[test]
fn stops_at_each_put(rt: HostRuntime) {
    let image = two_children(&rt, rt.alloc());
    for fails in 1..=16u64 {
        stops_at_put(&rt, &image, fails);
    }
}

/// Expects code 5, and the first ten bytes of the report.
fn compare_ten<R: Abort>(rt: &R, found: &Status, sink: &MemSink) {
    let ten: &[u8] = b"machine 0 ";
    are_equal(rt, &(found.code, sink.bytes()), &(5, ten));
}

// A sink that takes ten bytes a put, and fails at the second. No put comes after the one that failed.
#[test]
fn stops_at_the_second_put(rt: HostRuntime) {
    let words = words_of(&rt, rt.alloc(), "run guest");
    let mut shelf = shelf_with(&rt, rt.alloc());
    let mut sink = sink_that_takes(&rt, rt.alloc(), 10, 2);
    let mut wires = wires_of(&rt, rt.alloc(), GIVING);
    let found = answer_of(&rt, &words, &mut shelf, &mut sink, &mut wires, &OpenGate);
    compare_ten(&rt, &found, &sink);
}
