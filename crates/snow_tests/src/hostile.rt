//! Bytes that are not in form, and some that just are: images, descriptors, frames and scripts, each with what comes of
//! them. Images and scripts are read by `snow`, with its code.

use crate::equal::{are_equal, succeeds};
use crate::tests::{answers, exit_seven};
use fetch_proto::decode_frame;
use flat_memory::{push_words, write_bytes};
use snow_commands::Status;
use std::alloc::Global;
use std::process::Abort;
use std::sync::Wait;
use std::thread::Threads;
use vm_descriptor::{DescError, Descriptor};

/// What bytes are made from.
#[derive(Clone, Copy)]
enum Form {
    /// The image of the guest that ends with the value 7, of 104 bytes.
    ExitSeven,
    /// The same with its program header twice. Its words lie behind both.
    TwoHeaders,
    /// An image of 65,534 segments of one zero, which lie one behind the other from the start of RAM on.
    MostHeaders,
    /// The descriptor of the first of two children, of 819 bytes.
    FirstChild,
    /// The same in the first version of the format, of 778 bytes.
    OldFirstChild,
    /// The frame of a page of zeros, of 4,108 bytes.
    Frame,
    /// A script of empty lines, a byte longer than a script may be.
    Script,
}

/// What comes of bytes.
#[derive(Clone, Copy)]
enum Answer {
    /// They are an image, whose guest ends with the value 7 after five steps.
    Exits,
    /// They are an image, whose guest comes to the limit of ten steps.
    ComesToLimit,
    /// They are no image, by this rule.
    NoImage(u32),
    /// They are a descriptor.
    IsDescriptor,
    /// They are no descriptor, for this reason.
    NoDescriptor(u32),
    /// They are a frame.
    IsFrame,
    /// They are no frame.
    NoFrame,
    /// They are no script, by this line and the kind of what is found there.
    NoScript(u32, u32),
}

/// A length that no bytes are cut to.
const WHOLE: usize = 1 << 30;

/// What bytes are made from, the length that they are cut to, what is put at a place of them, and what comes of them.
#[rattlefmt::skip]
static BYTES: [(Form, usize, usize, &[u8], Answer); 52] = [
    (Form::ExitSeven, 51, 0, b"", Answer::NoImage(1)),
    (Form::ExitSeven, WHOLE, 0, b"\x00", Answer::NoImage(2)),
    (Form::ExitSeven, WHOLE, 4, b"\x02", Answer::NoImage(3)),
    (Form::ExitSeven, WHOLE, 16, b"\x03", Answer::NoImage(4)),
    (Form::ExitSeven, WHOLE, 18, b"\xf4", Answer::NoImage(5)),
    (Form::ExitSeven, WHOLE, 42, b"\x21", Answer::NoImage(6)),
    (Form::ExitSeven, WHOLE, 44, b"\xff\xff", Answer::NoImage(6)),
    (Form::ExitSeven, WHOLE, 44, b"\x02", Answer::NoImage(7)),
    (Form::ExitSeven, WHOLE, 68, b"\x15", Answer::NoImage(8)),
    (Form::ExitSeven, 103, 0, b"", Answer::NoImage(9)),
    (Form::ExitSeven, WHOLE, 64, b"\xfc\xff\xff\x7f", Answer::NoImage(10)),
    (Form::TwoHeaders, WHOLE, 0, b"", Answer::NoImage(11)),
    (Form::ExitSeven, WHOLE, 24, b"\x02", Answer::NoImage(12)),
    (Form::ExitSeven, WHOLE, 0, b"", Answer::Exits),
    (Form::ExitSeven, WHOLE, 36, b"\xff\xff\xff\xff", Answer::Exits),
    // The second program header is of another type, and all ones behind that.
    (Form::TwoHeaders, WHOLE, 84,
        b"\x03\0\0\x70\xff\xff\xff\xff\xff\xff\xff\xff\xff\xff\xff\xff\xff\xff\xff\xff\xff\xff\xff\xff\xff\xff\xff\xff\xff\xff\xff\xff",
        Answer::Exits),
    (Form::MostHeaders, WHOLE, 0, b"", Answer::ComesToLimit),
    // The last segment lies over the first, and over the one before.
    (Form::MostHeaders, WHOLE, 2_097_120, b"\0\0\0\x80", Answer::NoImage(11)),
    (Form::MostHeaders, WHOLE, 2_097_120, b"\xfc\xff\0\x80", Answer::NoImage(11)),
    (Form::FirstChild, 775, 0, b"", Answer::NoDescriptor(1)),
    (Form::FirstChild, WHOLE, 0, b"\0", Answer::NoDescriptor(2)),
    (Form::FirstChild, WHOLE, 8, b"\x0f", Answer::NoDescriptor(3)),
    (Form::FirstChild, WHOLE, 8, b"\x11", Answer::NoDescriptor(4)),
    (Form::FirstChild, WHOLE, 12, b"\0", Answer::NoDescriptor(5)),
    (Form::FirstChild, WHOLE, 20, b"\x29", Answer::NoDescriptor(5)),
    (Form::FirstChild, WHOLE, 776, b"\x02", Answer::NoDescriptor(5)),
    (Form::FirstChild, WHOLE, 816, b"\x02", Answer::NoDescriptor(4)),
    (Form::FirstChild, WHOLE, 816, b"\x01\x10\0", Answer::NoDescriptor(7)),
    (Form::FirstChild, 818, 0, b"", Answer::NoDescriptor(4)),
    (Form::FirstChild, WHOLE, 0, b"", Answer::IsDescriptor),
    (Form::OldFirstChild, WHOLE, 3, b"3", Answer::NoDescriptor(4)),
    (Form::OldFirstChild, WHOLE, 8, b"\x01\x04", Answer::NoDescriptor(3)),
    (Form::OldFirstChild, 777, 0, b"", Answer::NoDescriptor(4)),
    (Form::OldFirstChild, WHOLE, 0, b"", Answer::IsDescriptor),
    (Form::Frame, 0, 0, b"", Answer::NoFrame),
    (Form::Frame, 11, 0, b"", Answer::NoFrame),
    (Form::Frame, 12, 0, b"", Answer::NoFrame),
    (Form::Frame, 4107, 0, b"", Answer::NoFrame),
    (Form::Frame, WHOLE, 0, b"", Answer::IsFrame),
    (Form::Script, 8, 0, b"Step 0 1", Answer::NoScript(1, 1)),
    (Form::Script, 1, 0, b" ", Answer::NoScript(1, 1)),
    (Form::Script, 9, 0, b" step 0 1", Answer::NoScript(1, 1)),
    (Form::Script, 9, 0, b"step 0 1 ", Answer::NoScript(1, 2)),
    (Form::Script, 10, 0, b"step 0.1 1", Answer::NoScript(1, 3)),
    (Form::Script, 12, 0, b"step 0.0.1 1", Answer::NoScript(1, 3)),
    (Form::Script, 10, 0, b"step 00 01", Answer::NoScript(1, 3)),
    (Form::Script, 21, 0, b"step 0.1.4294967296 1", Answer::NoScript(1, 3)),
    (Form::Script, 17, 0, b"step 0 1000000001", Answer::NoScript(1, 4)),
    (Form::Script, 21, 0, b"give 0.1.1 4294967296", Answer::NoScript(1, 4)),
    (Form::Script, 9, 0, b"step 0 1\r", Answer::NoScript(1, 4)),
    (Form::Script, 15, 0, b"peek 0 8000000g", Answer::NoScript(1, 5)),
    (Form::Script, WHOLE, 0, b"", Answer::NoScript(0, 6)),
];

/// Puts bytes at a place, where they end within the others.
fn put(bytes: &mut [u8], at: usize, new: &[u8]) {
    if at <= bytes.len() && bytes.len() - at >= new.len() {
        write_bytes(bytes, at, new);
    }
}

fn two_headers(rt: &impl Abort, alloc: Global) -> Vec<u8> {
    let image = exit_seven(rt, alloc);
    with_header_twice(rt, alloc, &image)
}

/// The image with its program header twice, which tells that the words lie from 116 on.
fn with_header_twice(rt: &impl Abort, alloc: Global, image: &[u8]) -> Vec<u8> {
    let (headers, words) = image.split_at(image.len().min(84));
    let (_, header) = headers.split_at(headers.len().min(52));
    let mut bytes = succeeds(rt, Vec::from_slice(alloc, headers));
    succeeds(rt, bytes.extend_from_slice(header));
    succeeds(rt, bytes.extend_from_slice(words));
    put(&mut bytes, 44, b"\x02");
    put(&mut bytes, 56, b"\x74");
    put(&mut bytes, 88, b"\x74");
    bytes
}

fn most_headers(rt: &impl Abort, alloc: Global) -> Vec<u8> {
    let mut image = exit_seven(rt, alloc);
    image.truncate(52);
    put(&mut image, 44, b"\xfe\xff");
    for address in 0x8000_0000..0x8000_fffe {
        let words = [1, 0, address, address, 0, 1, 7, 4];
        succeeds(rt, push_words(&mut image, &words));
    }
    image
}

/// What stands at places of the descriptor, in each version. The child stands behind the CLONE that was its parent's tenth
/// step.
static FIRST_CHILD: [(usize, &[u8]); 9] = [
    (4, b"\0\0\0\0\x10\0\0\0\x01\0\0\0"),
    (20, b"\x28\0\0\x80"),
    (40, b"\0\x20\0\x10\x02\0\0\0\x01\0\0\0"),
    (148, b"\0\x18"),
    (176, b"\x0a\0\0\0\0\0\0\0\x0a\0\0\0\0\0\0\0\x0a"),
    (200, b"\xff\xff\xff\xff\xff\xff\xff\xff\x0a"),
    (216, b"\x40\x42\x0f"),
    (248, b"\x01"),
    (260, b"\x02"),
];

/// The mark, and the map of pages with its form.
static NEW: [(usize, &[u8]); 2] = [(0, b"SFD3"), (816, b"\0\xfe\xff")];

/// The mark and the map of pages, where no entries of memory protection are told.
static OLD: [(usize, &[u8]); 2] = [(0, b"SFD1"), (776, b"\xfe\xff")];

/// What stands at the start of the frame.
static FRAME: [(usize, &[u8]); 1] = [(0, b"SFR1\x03\0\0\0\x01\0\0\0")];

/// So many zeros, but for what stands at places of them.
fn placed(rt: &impl Abort, alloc: Global, size: usize, places: &[(usize, &[u8])]) -> Vec<u8> {
    let mut bytes = succeeds(rt, vec![in alloc; 0; size]);
    place(&mut bytes, places);
    bytes
}

fn place(bytes: &mut [u8], places: &[(usize, &[u8])]) {
    for (at, part) in places {
        put(bytes, *at, part);
    }
}

/// So many bytes of the descriptor, with what stands in its version at places of them.
fn first_child(rt: &impl Abort, alloc: Global, size: usize, version: &[(usize, &[u8])]) -> Vec<u8> {
    let mut bytes = placed(rt, alloc, size, &FIRST_CHILD);
    place(&mut bytes, version);
    bytes
}

fn bytes_of(rt: &impl Abort, alloc: Global, form: Form) -> Vec<u8> {
    match form {
        Form::ExitSeven => exit_seven(rt, alloc),
        Form::TwoHeaders => two_headers(rt, alloc),
        Form::MostHeaders => most_headers(rt, alloc),
        Form::FirstChild => first_child(rt, alloc, 819, &NEW),
        Form::OldFirstChild => first_child(rt, alloc, 778, &OLD),
        Form::Frame => placed(rt, alloc, 4108, &FRAME),
        Form::Script => succeeds(rt, vec![in alloc; b'\n'; 1_048_577]),
    }
}

/// The bytes of a row.
fn changed(
    rt: &impl Abort,
    alloc: Global,
    form: Form,
    length: usize,
    at: usize,
    new: &[u8],
) -> Vec<u8> {
    let mut bytes = bytes_of(rt, alloc, form);
    bytes.truncate(length);
    put(&mut bytes, at, new);
    bytes
}

/// Expects that an image is run or refused so: the code, its number, and what is out.
fn is_run<R: AllocGlobal + Threads + Wait + Sync + Abort>(
    rt: &R,
    image: &[u8],
    code: u8,
    first: u32,
    out: &[u8],
) {
    let status = Status {
        code,
        first,
        second: 0,
    };
    answers(
        rt,
        "run guest --ram 16 --limit 10",
        image,
        b"",
        0,
        &status,
        out,
    );
}

/// Expects that a script is refused so.
fn is_no_script<R: AllocGlobal + Threads + Wait + Sync + Abort>(
    rt: &R,
    script: &[u8],
    line: u32,
    kind: u32,
) {
    let image = exit_seven(rt, rt.alloc());
    let status = Status {
        code: 8,
        first: line,
        second: kind,
    };
    answers(rt, "drive guest script", &image, script, 0, &status, b"");
}

/// The reason why bytes are no descriptor, or 0 where they are one.
fn reason(alloc: Global, bytes: &[u8]) -> Option<u32> {
    match Descriptor::decode(alloc, bytes) {
        Ok(_) => Some(0),
        Err(DescError::Refused(number)) => Some(number),
        Err(DescError::Memory) => None,
    }
}

/// Expects that bytes are a descriptor, for the reason 0, or none for another.
fn is_descriptor(rt: &impl Abort, alloc: Global, bytes: &[u8], number: u32) {
    are_equal(rt, &reason(alloc, bytes), &Some(number));
}

/// Expects that bytes are a frame, or none.
fn is_frame(rt: &impl Abort, bytes: &[u8], is_one: bool) {
    are_equal(rt, &decode_frame(bytes).is_some(), &is_one);
}

/// Expects what comes of bytes.
fn come_to<R: AllocGlobal + Threads + Wait + Sync + Abort>(rt: &R, bytes: &[u8], answer: Answer) {
    match answer {
        Answer::Exits => is_run(rt, bytes, 0, 0, b"machine 0 exit 7 steps 5 out 0\n\n"),
        Answer::ComesToLimit => is_run(rt, bytes, 0, 0, b"machine 0 limit steps 10 out 0\n\n"),
        Answer::NoImage(rule) => is_run(rt, bytes, 3, rule, b""),
        Answer::IsDescriptor => is_descriptor(rt, rt.alloc(), bytes, 0),
        Answer::NoDescriptor(number) => is_descriptor(rt, rt.alloc(), bytes, number),
        Answer::IsFrame => is_frame(rt, bytes, true),
        Answer::NoFrame => is_frame(rt, bytes, false),
        Answer::NoScript(line, kind) => is_no_script(rt, bytes, line, kind),
    }
}

#[test]
fn bytes_come_to_their_answers(rt: HostRuntime) {
    for (form, length, at, new, answer) in BYTES.iter() {
        row_comes_to(&rt, *form, *length, *at, new, *answer);
    }
}

/// Expects what comes of the bytes of a row.
fn row_comes_to<R: AllocGlobal + Threads + Wait + Sync + Abort>(
    rt: &R,
    form: Form,
    length: usize,
    at: usize,
    new: &[u8],
    answer: Answer,
) {
    let bytes = changed(rt, rt.alloc(), form, length, at, new);
    come_to(rt, &bytes, answer);
}
