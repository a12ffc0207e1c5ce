//! Example guests, line by line, and the words that they are.

use super::GuestLine::{
    self, Bare, Branch, Csr, Immediate, Jump, Label, Load, Registers, Store, Upper,
};
use rv_decode::Kind::{
    Addi, Andi, Auipc, Beq, Bne, Csrrs, Csrrsi, Csrrw, Divu, Ebreak, Ecall, Lb, Lbu, Lhu, Lui, Lw,
    Mret, Mul, Mulhu, Rem, Sb, Sh, Slli, Srli, Sw, Xor,
};

/// Exits with 7.
#[rattlefmt::skip]
pub(super) static EXIT_SEVEN: [GuestLine; 5] = [
    Upper(Lui, 5, 0x10002),
    Immediate(Addi, 6, 0, 7), Store(Sw, 6, 0, 5),
    Immediate(Addi, 6, 0, 5), Store(Sw, 6, 8, 5),
];

pub(super) static EXIT_SEVEN_WORDS: [u32; 5] = [
    0x100022b7, 0x00700313, 0x0062a023, 0x00500313, 0x0062a423,
];

/// Puts out the letter A.
#[rattlefmt::skip]
pub(super) static PRINT_LETTER: [GuestLine; 7] = [
    Upper(Lui, 5, 0x10000),
    Immediate(Addi, 6, 0, 65), Store(Sb, 6, 0, 5),
    Upper(Lui, 5, 0x10002),
    Store(Sw, 0, 0, 5),
    Immediate(Addi, 6, 0, 5), Store(Sw, 6, 8, 5),
];

pub(super) static PRINT_LETTER_WORDS: [u32; 7] = [
    0x100002b7, 0x04100313, 0x00628023, 0x100022b7, 0x0002a023, 0x00500313, 0x0062a423,
];

/// Puts out a byte of the input.
#[rattlefmt::skip]
pub(super) static ECHO_BYTE: [GuestLine; 7] = [
    Upper(Lui, 5, 0x10000),
    Load(Lbu, 6, 0, 5), Store(Sb, 6, 0, 5),
    Upper(Lui, 5, 0x10002),
    Store(Sw, 0, 0, 5),
    Immediate(Addi, 6, 0, 5), Store(Sw, 6, 8, 5),
];

pub(super) static ECHO_BYTE_WORDS: [u32; 7] = [
    0x100002b7, 0x0002c303, 0x00628023, 0x100022b7, 0x0002a023, 0x00500313, 0x0062a423,
];

/// Traps to its handler, and exits with the cause.
#[rattlefmt::skip]
pub(super) static TRAP_HANDLER: [GuestLine; 10] = [
    Upper(Lui, 5, 0x10002),
    Upper(Auipc, 6, 0), Immediate(Addi, 6, 6, 20), Csr(Csrrw, 0, 0x305, 6),
    Bare(Ecall),
    Bare(Ebreak),
    // the handler
    Csr(Csrrs, 7, 0x342, 0), Store(Sw, 7, 0, 5),
    Immediate(Addi, 6, 0, 5), Store(Sw, 6, 8, 5),
];

pub(super) static TRAP_HANDLER_WORDS: [u32; 10] = [
    0x100022b7, 0x00000317, 0x01430313, 0x30531073, 0x00000073, 0x00100073, 0x342023f3, 0x0072a023,
    0x00500313, 0x0062a423,
];

/// Is interrupted at once, and exits with the cause. The handler is the eighth entry of the vector.
#[rattlefmt::skip]
pub(super) static VECTORED_INTERRUPT: [GuestLine; 19] = [
    Upper(Lui, 5, 0x10002),
    Upper(Auipc, 6, 0), Immediate(Addi, 6, 6, 29), Csr(Csrrw, 0, 0x305, 6),
    Immediate(Addi, 6, 0, 128), Csr(Csrrw, 0, 0x304, 6),
    Upper(Lui, 9, 0x2004), Store(Sw, 0, 0, 9), Store(Sw, 0, 4, 9),
    Csr(Csrrsi, 0, 0x300, 8),
    Immediate(Addi, 0, 0, 0), Immediate(Addi, 0, 0, 0), Immediate(Addi, 0, 0, 0), Immediate(Addi, 0, 0, 0),
    Immediate(Addi, 0, 0, 0),
    // the handler
    Csr(Csrrs, 7, 0x342, 0), Store(Sw, 7, 0, 5),
    Immediate(Addi, 6, 0, 5), Store(Sw, 6, 8, 5),
];

pub(super) static VECTORED_INTERRUPT_WORDS: [u32; 19] = [
    0x100022b7, 0x00000317, 0x01d30313, 0x30531073, 0x08000313, 0x30431073, 0x020044b7, 0x0004a023,
    0x0004a223, 0x30046073, 0x00000013, 0x00000013, 0x00000013, 0x00000013, 0x00000013, 0x342023f3,
    0x0072a023, 0x00500313, 0x0062a423,
];

/// Counts ten interrupts of the timer, and exits with their number. 1 waits, and 2 exits.
#[rattlefmt::skip]
pub(super) static TEN_TICKS: [GuestLine; 23] = [
    Upper(Lui, 5, 0x10002),
    Upper(Auipc, 6, 0), Immediate(Addi, 6, 6, 44), Csr(Csrrw, 0, 0x305, 6),
    Upper(Lui, 8, 0x2004), Store(Sw, 0, 4, 8),
    Immediate(Addi, 10, 0, 20), Store(Sw, 10, 0, 8),
    Immediate(Addi, 6, 0, 128), Csr(Csrrw, 0, 0x304, 6),
    Csr(Csrrsi, 0, 0x300, 8),
    Label(1), Jump(0, 1),
    // the handler
    Immediate(Addi, 7, 7, 1),
    Immediate(Addi, 11, 0, 10), Branch(Beq, 7, 11, 2),
    Immediate(Addi, 10, 10, 20), Store(Sw, 10, 0, 8),
    Bare(Mret),
    Label(2), Store(Sw, 7, 0, 5),
    Immediate(Addi, 6, 0, 5), Store(Sw, 6, 8, 5),
];

pub(super) static TEN_TICKS_WORDS: [u32; 21] = [
    0x100022b7, 0x00000317, 0x02c30313, 0x30531073, 0x02004437, 0x00042223, 0x01400513, 0x00a42023,
    0x08000313, 0x30431073, 0x30046073, 0x0000006f, 0x00138393, 0x00a00593, 0x00b38863, 0x01450513,
    0x00a42023, 0x30200073, 0x0072a023, 0x00500313, 0x0062a423,
];

/// Computes without end, from 1 on.
#[rattlefmt::skip]
pub(super) static LOOP_COMPUTE: [GuestLine; 13] = [
    Immediate(Addi, 6, 0, 1),
    Label(1),
    Immediate(Slli, 7, 6, 13), Registers(Xor, 6, 6, 7),
    Immediate(Srli, 7, 6, 17), Registers(Xor, 6, 6, 7),
    Immediate(Slli, 7, 6, 5), Registers(Xor, 6, 6, 7),
    Immediate(Andi, 7, 6, 1), Branch(Beq, 7, 0, 2),
    Immediate(Addi, 8, 8, 1),
    Label(2), Jump(0, 1),
];

pub(super) static LOOP_COMPUTE_WORDS: [u32; 11] = [
    0x00100313, 0x00d31393, 0x00734333, 0x01135393, 0x00734333, 0x00531393, 0x00734333, 0x00137393,
    0x00038463, 0x00140413, 0xfddff06f,
];

/// Loads and stores without end, from 1 on through a page.
#[rattlefmt::skip]
pub(super) static LOOP_MEMORY: [GuestLine; 15] = [
    Upper(Lui, 5, 0x80001), Upper(Lui, 6, 0x80002),
    Label(1), Immediate(Addi, 7, 5, 0),
    Label(2),
    Load(Lw, 8, 0, 7), Immediate(Addi, 8, 8, 1), Store(Sw, 8, 0, 7),
    Load(Lhu, 9, 0, 7), Store(Sh, 9, 2, 7),
    Load(Lb, 10, 0, 7), Store(Sb, 10, 1, 7),
    Immediate(Addi, 7, 7, 4), Branch(Bne, 7, 6, 2),
    Jump(0, 1),
];

pub(super) static LOOP_MEMORY_WORDS: [u32; 13] = [
    0x800012b7, 0x80002337, 0x00028393, 0x0003a403, 0x00140413, 0x0083a023, 0x0003d483, 0x00939123,
    0x00038503, 0x00a380a3, 0x00438393, 0xfe6390e3, 0xfd9ff06f,
];

/// Multiplies and divides without end, from 1 on.
#[rattlefmt::skip]
pub(super) static LOOP_MULTIPLY: [GuestLine; 10] = [
    Upper(Lui, 5, 0x196), Immediate(Addi, 5, 5, 1549), Immediate(Addi, 6, 0, 1),
    Label(1),
    Registers(Mul, 6, 6, 5), Immediate(Addi, 6, 6, 1),
    Registers(Mulhu, 7, 6, 5), Registers(Divu, 8, 6, 7), Registers(Rem, 9, 6, 5),
    Jump(0, 1),
];

pub(super) static LOOP_MULTIPLY_WORDS: [u32; 9] = [
    0x001962b7, 0x60d28293, 0x00100313, 0x02530333, 0x00130313, 0x025333b3, 0x02735433, 0x025364b3,
    0xfedff06f,
];

/// Two children exit with 40 more than their number, and the parent with what the first exits with. 1 is the
/// child.
#[rattlefmt::skip]
pub(super) static TWO_CHILDREN: [GuestLine; 26] = [
    Upper(Lui, 5, 0x10002),
    Immediate(Addi, 6, 0, 2), Store(Sw, 6, 0, 5), Store(Sw, 0, 4, 5),
    Immediate(Addi, 6, 0, 1), Store(Sw, 6, 8, 5),
    Load(Lw, 7, 12, 5), Store(Sw, 7, 0, 5),
    Immediate(Addi, 6, 0, 2), Store(Sw, 6, 8, 5),
    Load(Lw, 8, 16, 5), Branch(Bne, 8, 0, 1),
    Immediate(Addi, 6, 0, 3), Store(Sw, 7, 0, 5), Store(Sw, 6, 8, 5),
    Immediate(Addi, 6, 0, 1), Store(Sw, 6, 24, 5),
    Load(Lw, 6, 32, 5), Store(Sw, 6, 0, 5),
    Immediate(Addi, 6, 0, 5), Store(Sw, 6, 8, 5),
    Label(1),
    Immediate(Addi, 6, 8, 40), Store(Sw, 6, 0, 5),
    Immediate(Addi, 6, 0, 5), Store(Sw, 6, 8, 5),
];

pub(super) static TWO_CHILDREN_WORDS: [u32; 25] = [
    0x100022b7, 0x00200313, 0x0062a023, 0x0002a223, 0x00100313, 0x0062a423, 0x00c2a383, 0x0072a023,
    0x00200313, 0x0062a423, 0x0102a403, 0x02041463, 0x00300313, 0x0072a023, 0x0062a423, 0x00100313,
    0x0062ac23, 0x0202a303, 0x0062a023, 0x00500313, 0x0062a423, 0x02840313, 0x0062a023, 0x00500313,
    0x0062a423,
];

/// As `TWO_CHILDREN`, but the parent kills them, joins the same ticket, and exits with the answer.
#[rattlefmt::skip]
pub(super) static KILL_THEN_JOIN: [GuestLine; 26] = [
    Upper(Lui, 5, 0x10002),
    Immediate(Addi, 6, 0, 2), Store(Sw, 6, 0, 5), Store(Sw, 0, 4, 5),
    Immediate(Addi, 6, 0, 1), Store(Sw, 6, 8, 5),
    Load(Lw, 7, 12, 5), Store(Sw, 7, 0, 5),
    Immediate(Addi, 6, 0, 2), Store(Sw, 6, 8, 5),
    Load(Lw, 8, 16, 5), Branch(Bne, 8, 0, 1),
    Immediate(Addi, 6, 0, 4), Store(Sw, 7, 0, 5), Store(Sw, 6, 8, 5),
    Immediate(Addi, 6, 0, 3), Store(Sw, 6, 8, 5),
    Load(Lw, 6, 12, 5), Store(Sw, 6, 0, 5),
    Immediate(Addi, 6, 0, 5), Store(Sw, 6, 8, 5),
    Label(1),
    Immediate(Addi, 6, 8, 40), Store(Sw, 6, 0, 5),
    Immediate(Addi, 6, 0, 5), Store(Sw, 6, 8, 5),
];

pub(super) static KILL_THEN_JOIN_WORDS: [u32; 25] = [
    0x100022b7, 0x00200313, 0x0062a023, 0x0002a223, 0x00100313, 0x0062a423, 0x00c2a383, 0x0072a023,
    0x00200313, 0x0062a423, 0x0102a403, 0x02041463, 0x00400313, 0x0072a023, 0x0062a423, 0x00300313,
    0x0062a423, 0x00c2a303, 0x0062a023, 0x00500313, 0x0062a423, 0x02840313, 0x0062a023, 0x00500313,
    0x0062a423,
];

/// A child and a grandchild, each with its own value of one word. 1 is the child, 2 joins, 3 exits, and 4
/// is the grandchild.
#[rattlefmt::skip]
pub(super) static GRANDCHILD: [GuestLine; 44] = [
    Upper(Lui, 5, 0x10002), Upper(Lui, 9, 0x80001),
    Immediate(Addi, 10, 0, 17), Store(Sw, 10, 0, 9),
    Immediate(Addi, 6, 0, 1), Store(Sw, 6, 0, 5), Store(Sw, 6, 4, 5), Store(Sw, 6, 8, 5),
    Load(Lw, 7, 12, 5), Store(Sw, 7, 0, 5),
    Immediate(Addi, 6, 0, 2), Store(Sw, 6, 8, 5),
    Load(Lw, 8, 12, 5), Branch(Bne, 8, 0, 1),
    Immediate(Addi, 10, 0, 18), Store(Sw, 10, 0, 9), Jump(0, 2),
    Label(1),
    Immediate(Addi, 6, 0, 1), Store(Sw, 6, 0, 5), Store(Sw, 0, 4, 5), Store(Sw, 6, 8, 5),
    Load(Lw, 7, 12, 5), Store(Sw, 7, 0, 5),
    Immediate(Addi, 6, 0, 2), Store(Sw, 6, 8, 5),
    Load(Lw, 8, 12, 5), Branch(Bne, 8, 0, 4),
    Immediate(Addi, 10, 0, 19), Store(Sw, 10, 0, 9),
    Label(2),
    Immediate(Addi, 6, 0, 3), Store(Sw, 7, 0, 5), Store(Sw, 6, 8, 5),
    Immediate(Addi, 6, 0, 1), Store(Sw, 6, 24, 5), Load(Lw, 10, 32, 5),
    Label(3),
    Store(Sw, 10, 0, 5),
    Immediate(Addi, 6, 0, 5), Store(Sw, 6, 8, 5),
    Label(4),
    Load(Lw, 10, 0, 9), Jump(0, 3),
];

pub(super) static GRANDCHILD_WORDS: [u32; 40] = [
    0x100022b7, 0x800014b7, 0x01100513, 0x00a4a023, 0x00100313, 0x0062a023, 0x0062a223, 0x0062a423,
    0x00c2a383, 0x0072a023, 0x00200313, 0x0062a423, 0x00c2a403, 0x00041863, 0x01200513, 0x00a4a023,
    0x0340006f, 0x00100313, 0x0062a023, 0x0002a223, 0x0062a423, 0x00c2a383, 0x0072a023, 0x00200313,
    0x0062a423, 0x00c2a403, 0x02041863, 0x01300513, 0x00a4a023, 0x00300313, 0x0072a023, 0x0062a423,
    0x00100313, 0x0062ac23, 0x0202a503, 0x00a2a023, 0x00500313, 0x0062a423, 0x0004a503, 0xff1ff06f,
];

/// The child makes a page zero, and exits with a word of it. 1 is the child.
#[rattlefmt::skip]
pub(super) static ZEROED_PAGE: [GuestLine; 29] = [
    Upper(Lui, 5, 0x10002), Upper(Lui, 9, 0x80001),
    Immediate(Addi, 10, 0, 17), Store(Sw, 10, 0, 9),
    Immediate(Addi, 6, 0, 1), Store(Sw, 6, 0, 5), Store(Sw, 0, 4, 5), Store(Sw, 6, 8, 5),
    Load(Lw, 7, 12, 5), Store(Sw, 7, 0, 5),
    Immediate(Addi, 6, 0, 2), Store(Sw, 6, 8, 5),
    Load(Lw, 8, 12, 5), Branch(Bne, 8, 0, 1),
    Immediate(Addi, 6, 0, 3), Store(Sw, 6, 8, 5),
    Store(Sw, 0, 0, 5),
    Immediate(Addi, 6, 0, 5), Store(Sw, 6, 8, 5),
    Label(1),
    Immediate(Addi, 6, 0, 1), Store(Sw, 6, 0, 5), Store(Sw, 6, 4, 5),
    Immediate(Addi, 6, 0, 6), Store(Sw, 6, 8, 5),
    Load(Lw, 10, 0, 9), Store(Sw, 10, 0, 5),
    Immediate(Addi, 6, 0, 5), Store(Sw, 6, 8, 5),
];

pub(super) static ZEROED_PAGE_WORDS: [u32; 28] = [
    0x100022b7, 0x800014b7, 0x01100513, 0x00a4a023, 0x00100313, 0x0062a023, 0x0002a223, 0x0062a423,
    0x00c2a383, 0x0072a023, 0x00200313, 0x0062a423, 0x00c2a403, 0x00041c63, 0x00300313, 0x0062a423,
    0x0002a023, 0x00500313, 0x0062a423, 0x00100313, 0x0062a023, 0x0062a223, 0x00600313, 0x0062a423,
    0x0004a503, 0x00a2a023, 0x00500313, 0x0062a423,
];

/// The timer is due at the moment of the fork.
#[rattlefmt::skip]
pub(super) static TIMER_AT_FORK: [GuestLine; 19] = [
    Upper(Lui, 5, 0x10002), Upper(Lui, 9, 0x2004),
    Upper(Lui, 10, 0x80002), Csr(Csrrw, 0, 0x305, 10), Store(Sw, 5, 0, 10),
    Immediate(Addi, 6, 0, 1), Store(Sw, 6, 0, 5), Store(Sw, 0, 4, 5), Store(Sw, 6, 8, 5),
    Load(Lw, 7, 12, 5), Store(Sw, 7, 0, 5),
    Immediate(Addi, 6, 0, 128), Csr(Csrrw, 0, 0x304, 6),
    Immediate(Addi, 6, 0, 19), Store(Sw, 6, 0, 9), Store(Sw, 0, 4, 9),
    Csr(Csrrsi, 0, 0x300, 8),
    Immediate(Addi, 6, 0, 2), Store(Sw, 6, 8, 5),
];

pub(super) static TIMER_AT_FORK_WORDS: [u32; 19] = [
    0x100022b7, 0x020044b7, 0x80002537, 0x30551073, 0x00552023, 0x00100313, 0x0062a023, 0x0002a223,
    0x0062a423, 0x00c2a383, 0x0072a023, 0x08000313, 0x30431073, 0x01300313, 0x0064a023, 0x0004a223,
    0x30046073, 0x00200313, 0x0062a423,
];
