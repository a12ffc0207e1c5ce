//! Programs and images: that they are assembled where there is memory, and known words and bytes.

mod guests;

use crate::equal::{are_equal, succeeds};
use elf_load::{ImageError, load_elf};
use guests::{
    ECHO_BYTE, ECHO_BYTE_WORDS, EXIT_SEVEN, EXIT_SEVEN_WORDS, GRANDCHILD, GRANDCHILD_WORDS,
    KILL_THEN_JOIN, KILL_THEN_JOIN_WORDS, LOOP_COMPUTE, LOOP_COMPUTE_WORDS, LOOP_MEMORY,
    LOOP_MEMORY_WORDS, LOOP_MULTIPLY, LOOP_MULTIPLY_WORDS, PRINT_LETTER, PRINT_LETTER_WORDS,
    TEN_TICKS, TEN_TICKS_WORDS, TIMER_AT_FORK, TIMER_AT_FORK_WORDS, TRAP_HANDLER,
    TRAP_HANDLER_WORDS, TWO_CHILDREN, TWO_CHILDREN_WORDS, VECTORED_INTERRUPT,
    VECTORED_INTERRUPT_WORDS, ZEROED_PAGE, ZEROED_PAGE_WORDS,
};
use rv_asm::{AsmError, MAX_WORDS, Program, elf_of, encode, takes_label};
use rv_decode::{Instr, Kind};
use std::alloc::Global;
use std::process::Abort;

/// Where the example guests are loaded.
const BASE: u32 = 0x8000_0000;

/// The headers of an image that goes there, up to the sizes of its segment.
const HEADERS: [u8; 68] = *b"\x7fELF\x01\x01\x01\0\0\0\0\0\0\0\0\0\
    \x02\0\xf3\0\x01\0\0\0\0\0\0\x80\x34\0\0\0\
    \0\0\0\0\0\0\0\0\x34\0\x20\0\x01\0\0\0\0\0\0\0\
    \x01\0\0\0\x54\0\0\0\0\0\0\x80\0\0\0\x80";

/// A line of a guest, with its operands in the order of the assembly language.
#[derive(Clone, Copy)]
enum GuestLine {
    /// rd, and the upper 20 bits.
    Upper(Kind, u32, u32),
    /// rd, rs1 and rs2.
    Registers(Kind, u32, u32, u32),
    /// rd, rs1, and the immediate.
    Immediate(Kind, u32, u32, i32),
    /// rd, and the address as an offset to rs1.
    Load(Kind, u32, i32, u32),
    /// rs2, and the address as an offset to rs1.
    Store(Kind, u32, i32, u32),
    /// rd, the number of the CSR, and rs1 or the operand.
    Csr(Kind, u32, i32, u32),
    /// No operand.
    Bare(Kind),
    /// rs1, rs2, and a label.
    Branch(Kind, u32, u32, u32),
    /// rd, and a label.
    Jump(u32, u32),
    Label(u32),
}

fn instruction(rt: &impl Abort, kind: Kind, rd: u32, rs1: u32, rs2: u32, imm: i32) -> Instr {
    Instr::new(kind, rd, rs1, rs2, imm).expect(rt, "fields in range")
}

/// Adds a jump or a branch to a label.
fn branch_to(
    rt: &impl Abort,
    program: &mut Program,
    branch: Instr,
    label: u32,
) -> Result<(), AsmError> {
    assert!(rt; takes_label(branch.kind()));
    program.branch_to(branch, label)
}

/// The kind of a line's instruction, and its rd, rs1, rs2 and immediate, which is 0 where a label gives it.
fn fields_of(line: GuestLine) -> Option<(Kind, u32, u32, u32, i32)> {
    match line {
        GuestLine::Upper(kind, rd, upper) => {
            let imm = (upper & 0xf_ffff) << 12;
            Some((kind, rd, 0, 0, imm.cast_signed()))
        }
        GuestLine::Registers(kind, rd, rs1, rs2) => Some((kind, rd, rs1, rs2, 0)),
        GuestLine::Immediate(kind, rd, rs1, imm) => Some((kind, rd, rs1, 0, imm)),
        GuestLine::Load(kind, rd, imm, rs1) => Some((kind, rd, rs1, 0, imm)),
        GuestLine::Csr(kind, rd, imm, rs1) => Some((kind, rd, rs1, 0, imm)),
        GuestLine::Store(kind, rs2, imm, rs1) => Some((kind, 0, rs1, rs2, imm)),
        GuestLine::Bare(kind) => Some((kind, 0, 0, 0, 0)),
        GuestLine::Branch(kind, rs1, rs2, _) => Some((kind, 0, rs1, rs2, 0)),
        GuestLine::Jump(rd, _) => Some((Kind::Jal, rd, 0, 0, 0)),
        GuestLine::Label(_) => None,
    }
}

/// The instruction of a line.
fn instruction_of(rt: &impl Abort, line: GuestLine) -> Instr {
    let (kind, rd, rs1, rs2, imm) = fields_of(line).expect(rt, "a line with an instruction");
    instruction(rt, kind, rd, rs1, rs2, imm)
}

fn add_line(rt: &impl Abort, program: &mut Program, line: GuestLine) -> Result<(), AsmError> {
    match line {
        GuestLine::Label(label) => program.place_label(label),
        GuestLine::Branch(_, _, _, label) | GuestLine::Jump(_, label) => {
            branch_to(rt, program, instruction_of(rt, line), label)
        }
        _ => program.push(instruction_of(rt, line)),
    }
}

fn add_lines(rt: &impl Abort, program: &mut Program, lines: &[GuestLine]) -> Result<(), AsmError> {
    for line in lines {
        add_line(rt, program, *line)?;
    }
    Ok(())
}

/// The words of these lines.
fn assembled(rt: &impl Abort, alloc: Global, lines: &[GuestLine]) -> Result<Vec<u32>, AsmError> {
    let mut program = Program::new(alloc, BASE);
    add_lines(rt, &mut program, lines)?;
    program.finish()
}

/// An instruction that does nothing.
const NOTHING: GuestLine = GuestLine::Immediate(Kind::Addi, 0, 0, 0);

/// The image of these words.
fn image_of(rt: &impl Abort, alloc: Global, words: &[u32]) -> Vec<u8> {
    let size = u32::try_from(4 * words.len().min(MAX_WORDS)).unwrap_or(0);
    let mut image = succeeds(rt, Vec::from_slice(alloc, &HEADERS));
    push_words(rt, &mut image, &[size, size, 7, 4]);
    push_words(rt, &mut image, words);
    image
}

/// Adds words, their lowest bytes first.
fn push_words(rt: &impl Abort, image: &mut Vec<u8>, words: &[u32]) {
    for word in words {
        succeeds(rt, image.extend_from_slice(&word.to_le_bytes()));
    }
}

/// The image of these words is that of the words that are wanted.
fn is_image_of(rt: &impl Abort, alloc: Global, words: &[u32], want: &[u32]) {
    are_equal(rt, &words, &want);
    assert!(rt; words.len() <= MAX_WORDS);
    let image = succeeds(rt, elf_of(alloc, BASE, words));
    let stored = image_of(rt, alloc, want);
    are_equal(rt, &image.as_slice(), &stored.as_slice());
}

/// These lines are assembled to the words that are wanted.
fn is_assembled(rt: &impl Abort, alloc: Global, lines: &[GuestLine], want: &[u32]) {
    let words = succeeds(rt, assembled(rt, alloc, lines));
    is_image_of(rt, alloc, &words, want);
}

fn are_assembled(rt: &impl Abort, alloc: Global) {
    is_assembled(rt, alloc, &EXIT_SEVEN, &EXIT_SEVEN_WORDS);
    is_assembled(rt, alloc, &PRINT_LETTER, &PRINT_LETTER_WORDS);
    is_assembled(rt, alloc, &ECHO_BYTE, &ECHO_BYTE_WORDS);
    is_assembled(rt, alloc, &TRAP_HANDLER, &TRAP_HANDLER_WORDS);
    is_assembled(rt, alloc, &VECTORED_INTERRUPT, &VECTORED_INTERRUPT_WORDS);
    is_assembled(rt, alloc, &TEN_TICKS, &TEN_TICKS_WORDS);
    is_assembled(rt, alloc, &LOOP_COMPUTE, &LOOP_COMPUTE_WORDS);
    is_assembled(rt, alloc, &LOOP_MEMORY, &LOOP_MEMORY_WORDS);
    is_assembled(rt, alloc, &LOOP_MULTIPLY, &LOOP_MULTIPLY_WORDS);
    is_assembled(rt, alloc, &TWO_CHILDREN, &TWO_CHILDREN_WORDS);
    is_assembled(rt, alloc, &KILL_THEN_JOIN, &KILL_THEN_JOIN_WORDS);
    is_assembled(rt, alloc, &GRANDCHILD, &GRANDCHILD_WORDS);
    is_assembled(rt, alloc, &ZEROED_PAGE, &ZEROED_PAGE_WORDS);
    is_assembled(rt, alloc, &TIMER_AT_FORK, &TIMER_AT_FORK_WORDS);
}

#[test]
fn assembles_the_example_guests(rt: HostRuntime) {
    are_assembled(&rt, rt.alloc());
}

/// Three lines, and their first and last word and how many there are.
static LABELLED: [(
    GuestLine,
    GuestLine,
    GuestLine,
    Result<(u32, u32, usize), AsmError>,
); 4] = [
    (
        GuestLine::Jump(0, 1),
        NOTHING,
        GuestLine::Label(1),
        Ok((0x0080_006f, 0x0000_0013, 2)),
    ),
    (
        GuestLine::Label(1),
        NOTHING,
        GuestLine::Branch(Kind::Bne, 1, 2, 1),
        Ok((0x0000_0013, 0xfe20_9ee3, 2)),
    ),
    (
        GuestLine::Jump(0, 1),
        NOTHING,
        NOTHING,
        Err(AsmError::UnplacedLabel),
    ),
    (
        GuestLine::Label(1),
        NOTHING,
        GuestLine::Label(1),
        Err(AsmError::LabelPlacedTwice),
    ),
];

fn ends_of(words: &[u32]) -> (u32, u32, usize) {
    let first = words.first().copied().unwrap_or(0);
    let last = words.last().copied().unwrap_or(0);
    (first, last, words.len())
}

fn ends_of_lines(
    rt: &impl Abort,
    alloc: Global,
    lines: &[GuestLine],
) -> Result<(u32, u32, usize), AsmError> {
    let words = assembled(rt, alloc, lines)?;
    Ok(ends_of(&words))
}

#[test]
fn takes_labels_before_and_behind(rt: HostRuntime) {
    for &(first, second, third, want) in LABELLED.iter() {
        let found = ends_of_lines(&rt, rt.alloc(), &[first, second, third]);
        are_equal(&rt, &found, &want);
    }
}

/// Adds two lines, and the label 1 behind 1,025 words more.
fn add_before_a_far_label(
    rt: &impl Abort,
    program: &mut Program,
    first: GuestLine,
    second: GuestLine,
) -> Result<(), AsmError> {
    add_lines(rt, program, &[first, second])?;
    for _ in 0..1025 {
        add_line(rt, program, NOTHING)?;
    }
    program.place_label(1)
}

/// The error of these lines, where the label 1 stands 1,025 words behind them.
fn error_of(
    rt: &impl Abort,
    alloc: Global,
    first: GuestLine,
    second: GuestLine,
) -> Result<Option<AsmError>, AsmError> {
    let mut program = Program::new(alloc, BASE);
    add_before_a_far_label(rt, &mut program, first, second)?;
    Ok(program.finish().err())
}

/// A branch to a label that is too far away for it.
const FAR: GuestLine = GuestLine::Branch(Kind::Beq, 0, 0, 1);

/// A jump to a label that is placed nowhere.
const UNPLACED: GuestLine = GuestLine::Jump(0, 2);

static FIRST_ERRORS: [(GuestLine, GuestLine, Option<AsmError>); 3] = [
    (FAR, UNPLACED, Some(AsmError::OffsetOutOfRange)),
    (UNPLACED, FAR, Some(AsmError::UnplacedLabel)),
    (NOTHING, NOTHING, None),
];

#[test]
fn names_the_first_error(rt: HostRuntime) {
    for (row, &(first, second, want)) in FIRST_ERRORS.iter().enumerate() {
        let error = error_of(&rt, rt.alloc(), first, second);
        are_equal(&rt, &(row, error), &(row, Ok(want)));
    }
}

/// Places the label 1 a second time, between its place and a jump to it.
fn place_twice(rt: &impl Abort, program: &mut Program) {
    succeeds(rt, program.place_label(1));
    succeeds(rt, add_line(rt, program, NOTHING));
    are_equal(
        rt,
        &program.place_label(1),
        &Err(AsmError::LabelPlacedTwice),
    );
    succeeds(rt, add_line(rt, program, GuestLine::Jump(0, 1)));
    are_equal(rt, &program.base(), &BASE);
}

#[test]
fn a_label_that_is_placed_twice_stays(rt: HostRuntime) {
    let mut program = Program::new(rt.alloc(), BASE);
    place_twice(&rt, &mut program);
    let words = succeeds(&rt, program.finish());
    are_equal(
        &rt,
        &words.as_slice(),
        &[0x0000_0013, 0xffdf_f06f].as_slice(),
    );
}

fn add_nothing(rt: &impl Abort, program: &mut Program, count: usize) -> Result<(), AsmError> {
    for _ in 0..count {
        add_line(rt, program, NOTHING)?;
    }
    Ok(())
}

/// Adds a branch to a label so many words ahead, or behind it.
fn add_far(
    rt: &impl Abort,
    program: &mut Program,
    branch: GuestLine,
    ahead: usize,
    behind: usize,
) -> Result<(), AsmError> {
    if ahead == 0 {
        program.place_label(1)?;
    }
    add_nothing(rt, program, behind)?;
    add_line(rt, program, branch)?;
    if ahead != 0 {
        add_nothing(rt, program, ahead - 1)?;
        program.place_label(1)?;
    }
    Ok(())
}

/// The word of that branch.
fn far_word(
    rt: &impl Abort,
    alloc: Global,
    branch: GuestLine,
    ahead: usize,
    behind: usize,
) -> Result<u32, AsmError> {
    let mut program = Program::new(alloc, BASE);
    add_far(rt, &mut program, branch, ahead, behind)?;
    Ok(program.finish()?.get(behind).copied().unwrap_or(0))
}

/// A branch, how many words its label is ahead or behind, and the word.
static REACHES: [(GuestLine, usize, usize, Result<u32, AsmError>); 9] = [
    (FAR, 1023, 0, Ok(0x7e00_0ee3)),
    (FAR, 1024, 0, Err(AsmError::OffsetOutOfRange)),
    (FAR, 1025, 0, Err(AsmError::OffsetOutOfRange)),
    (FAR, 0, 1024, Ok(0x8000_0063)),
    (FAR, 0, 1025, Err(AsmError::OffsetOutOfRange)),
    (GuestLine::Jump(0, 1), 0x3_ffff, 0, Ok(0x7fdf_f06f)),
    (
        GuestLine::Jump(0, 1),
        0x4_0000,
        0,
        Err(AsmError::OffsetOutOfRange),
    ),
    (GuestLine::Jump(0, 1), 0, 0x4_0000, Ok(0x8000_006f)),
    (
        GuestLine::Jump(0, 1),
        0,
        0x4_0001,
        Err(AsmError::OffsetOutOfRange),
    ),
];

#[test]
fn reaches_as_far_as_the_format(rt: HostRuntime) {
    for &(line, ahead, behind, want) in REACHES.iter() {
        let word = far_word(&rt, rt.alloc(), line, ahead, behind);
        are_equal(&rt, &(ahead, behind, word), &(ahead, behind, want));
    }
}

/// A kind, its registers, and the word.
static IGNORED_BITS: [(Kind, u32, u32, u32, u32); 6] = [
    (Kind::Fence, 0, 0, 0, 0x0000_000f),
    (Kind::FenceI, 0, 0, 0, 0x0000_100f),
    (Kind::LrW, 5, 6, 0, 0x1003_22af),
    (Kind::ScW, 5, 6, 7, 0x1873_22af),
    (Kind::AmoaddW, 1, 2, 3, 0x0031_20af),
    (Kind::AmomaxuW, 31, 31, 31, 0xe1ff_afaf),
];

#[test]
fn writes_ignored_bits_as_zeros(rt: HostRuntime) {
    for &(kind, rd, rs1, rs2, want) in IGNORED_BITS.iter() {
        let word = encode(&instruction(&rt, kind, rd, rs1, rs2, 0));
        are_equal(&rt, &word, &want);
    }
}

/// An address, how many words go there, and the entry or the refusal.
static PLACES: [(u32, usize, Result<u32, ImageError>); 6] = [
    (0x8000_0000, 2, Ok(0x8000_0000)),
    (0x8000_fffc, 1, Ok(0x8000_fffc)),
    (0x8000_fffc, 2, Err(ImageError::Refused(10))),
    (0x7fff_fffc, 2, Err(ImageError::Refused(10))),
    (0x8000_fffc, 0, Ok(0x8000_fffc)),
    (0x8001_0000, 0, Err(ImageError::Refused(12))),
];

/// Where the image of these words is entered.
fn entry_of(rt: &impl Abort, alloc: Global, base: u32, words: &[u32]) -> Result<u32, ImageError> {
    assert!(rt; base % 4 == 0);
    assert!(rt; words.len() <= MAX_WORDS);
    let image = succeeds(rt, elf_of(alloc, base, words));
    load_elf(alloc, &image, 16).map(|loaded| loaded.entry())
}

#[test]
fn images_are_loaded_where_they_fit(rt: HostRuntime) {
    let words = [0x0000_0013; 2];
    for &(base, count, want) in PLACES.iter() {
        let entry = entry_of(&rt, rt.alloc(), base, words.get(..count).unwrap_or(&[]));
        are_equal(&rt, &(count, base, entry), &(count, base, want));
    }
}
