//! Words, field by field, and words of guests.

use crate::equal::are_equal;
use rv_decode::{Kind, decode};
use std::process::Abort;

// The words are written in the columns of the diagrams of the RISC-V Unprivileged ISA 20191213,
// chapter 24: the immediate, or funct7 and rs2, and then rs1, funct3, rd, opcode.

/// The kind of a word, as a number, its rd, rs1 and rs2, and its immediate.
type Fields = (u32, (u32, u32, u32), i32);

fn fields_of(word: u32) -> Option<Fields> {
    let i = decode(word)?;
    Some((i.kind() as u32, (i.rd(), i.rs1(), i.rs2()), i.imm()))
}

/// Each word gives its kind and its immediate, and these as rd, rs1 and rs2.
fn decodes_each(rt: &impl Abort, registers: (u32, u32, u32), words: &[(u32, Kind, i32)]) {
    for (word, kind, imm) in words {
        let want = Some((*kind as u32, registers, *imm));
        are_equal(rt, &(*word, fields_of(*word)), &(*word, want));
    }
}

static UPPER_AND_JUMPS: [(u32, Kind, i32); 10] = [
    (0b00010010001101000101_00001_0110111, Kind::Lui, 0x1234_5000),
    (0b10000000000000000000_00001_0110111, Kind::Lui, i32::MIN),
    (0b11111111111111111111_00001_0010111, Kind::Auipc, -4096),
    // imm[20], imm[10:1], imm[11], imm[19:12]
    (0b1_0000000000_0_00000000_00001_1101111, Kind::Jal, -1048576),
    (0b0_1111111111_1_11111111_00001_1101111, Kind::Jal, 1048574),
    (0b0_0000000001_0_00000000_00001_1101111, Kind::Jal, 0x2),
    (0b0_1000000000_0_00000000_00001_1101111, Kind::Jal, 0x400),
    (0b0_0000000000_1_00000000_00001_1101111, Kind::Jal, 0x800),
    (0b0_0000000000_0_00000001_00001_1101111, Kind::Jal, 0x1000),
    (0b0_0000000000_0_10000000_00001_1101111, Kind::Jal, 0x80000),
];

static JUMP_TO_REGISTER: [(u32, Kind, i32); 1] = [(
    0b100000000000_00010_000_00001_1100111,
    Kind::Jalr,
    -2048,
)];

static BRANCHES: [(u32, Kind, i32); 6] = [
    // imm[12], imm[10:5], rs2, rs1, funct3, imm[4:1], imm[11]
    (0b0_000000_00011_00010_000_0000_1_1100011, Kind::Beq, 0x800),
    (0b1_000000_00011_00010_001_0000_0_1100011, Kind::Bne, -4096),
    (0b0_000001_00011_00010_100_0000_0_1100011, Kind::Blt, 0x20),
    (0b0_100000_00011_00010_101_0001_0_1100011, Kind::Bge, 0x402),
    (0b0_111111_00011_00010_110_1111_1_1100011, Kind::Bltu, 4094),
    (0b1_111111_00011_00010_111_1110_1_1100011, Kind::Bgeu, -4),
];

#[test]
fn decodes_jumps_and_branches(rt: HostRuntime) {
    decodes_each(&rt, (1, 0, 0), &UPPER_AND_JUMPS);
    decodes_each(&rt, (1, 2, 0), &JUMP_TO_REGISTER);
    decodes_each(&rt, (0, 2, 3), &BRANCHES);
}

static LOADS: [(u32, Kind, i32); 5] = [
    (0b111111111111_00010_000_00001_0000011, Kind::Lb, -1),
    (0b000000000010_00010_001_00001_0000011, Kind::Lh, 2),
    (0b011111111111_00010_010_00001_0000011, Kind::Lw, 2047),
    (0b100000000000_00010_100_00001_0000011, Kind::Lbu, -2048),
    (0b100000000001_00010_101_00001_0000011, Kind::Lhu, -2047),
];

static STORES: [(u32, Kind, i32); 3] = [
    // imm[11:5], rs2, rs1, funct3, imm[4:0]
    (0b1000000_00011_00010_000_00000_0100011, Kind::Sb, -2048),
    (0b0000000_00011_00010_001_10000_0100011, Kind::Sh, 0x10),
    (0b0000001_00011_00010_010_00001_0100011, Kind::Sw, 0x21),
];

#[test]
fn decodes_loads_and_stores(rt: HostRuntime) {
    decodes_each(&rt, (1, 2, 0), &LOADS);
    decodes_each(&rt, (0, 2, 3), &STORES);
}

static WITH_IMMEDIATES: [(u32, Kind, i32); 9] = [
    (0b011111111111_00010_000_00001_0010011, Kind::Addi, 2047),
    (0b111111111111_00010_010_00001_0010011, Kind::Slti, -1),
    (0b100000000000_00010_011_00001_0010011, Kind::Sltiu, -2048),
    (0b010000000000_00010_100_00001_0010011, Kind::Xori, 1024),
    (0b000000000001_00010_110_00001_0010011, Kind::Ori, 1),
    (0b000000000000_00010_111_00001_0010011, Kind::Andi, 0),
    (0b0000000_11111_00010_001_00001_0010011, Kind::Slli, 31),
    (0b0000000_00001_00010_101_00001_0010011, Kind::Srli, 1),
    (0b0100000_10000_00010_101_00001_0010011, Kind::Srai, 16),
];

static WITH_REGISTERS: [(u32, Kind, i32); 18] = [
    (0b0000000_00011_00010_000_00001_0110011, Kind::Add, 0),
    (0b0100000_00011_00010_000_00001_0110011, Kind::Sub, 0),
    (0b0000000_00011_00010_001_00001_0110011, Kind::Sll, 0),
    (0b0000000_00011_00010_010_00001_0110011, Kind::Slt, 0),
    (0b0000000_00011_00010_011_00001_0110011, Kind::Sltu, 0),
    (0b0000000_00011_00010_100_00001_0110011, Kind::Xor, 0),
    (0b0000000_00011_00010_101_00001_0110011, Kind::Srl, 0),
    (0b0100000_00011_00010_101_00001_0110011, Kind::Sra, 0),
    (0b0000000_00011_00010_110_00001_0110011, Kind::Or, 0),
    (0b0000000_00011_00010_111_00001_0110011, Kind::And, 0),
    (0b0000001_00011_00010_000_00001_0110011, Kind::Mul, 0),
    (0b0000001_00011_00010_001_00001_0110011, Kind::Mulh, 0),
    (0b0000001_00011_00010_010_00001_0110011, Kind::Mulhsu, 0),
    (0b0000001_00011_00010_011_00001_0110011, Kind::Mulhu, 0),
    (0b0000001_00011_00010_100_00001_0110011, Kind::Div, 0),
    (0b0000001_00011_00010_101_00001_0110011, Kind::Divu, 0),
    (0b0000001_00011_00010_110_00001_0110011, Kind::Rem, 0),
    (0b0000001_00011_00010_111_00001_0110011, Kind::Remu, 0),
];

static GREATEST_REGISTERS: [(u32, Kind, i32); 1] = [(
    0b0000000_11111_11111_000_11111_0110011,
    Kind::Add,
    0,
)];

static OTHER_REGISTERS: [(u32, Kind, i32); 1] = [(
    0b0000000_00100_01000_000_10000_0110011,
    Kind::Add,
    0,
)];

#[test]
fn decodes_computations(rt: HostRuntime) {
    decodes_each(&rt, (1, 2, 0), &WITH_IMMEDIATES);
    decodes_each(&rt, (1, 2, 3), &WITH_REGISTERS);
    decodes_each(&rt, (31, 31, 31), &GREATEST_REGISTERS);
    decodes_each(&rt, (16, 8, 4), &OTHER_REGISTERS);
}

static BARE: [(u32, Kind, i32); 9] = [
    // fm, pred, succ, rs1, funct3, rd
    (0b0000_1111_1111_00000_000_00000_0001111, Kind::Fence, 0),
    (0b1000_0011_0011_00000_000_00000_0001111, Kind::Fence, 0),
    (0b0101_1010_0101_11111_000_11111_0001111, Kind::Fence, 0),
    (0b000000000000_00000_001_00000_0001111, Kind::FenceI, 0),
    (0b111111111111_11111_001_11111_0001111, Kind::FenceI, 0),
    (0b000000000000_00000_000_00000_1110011, Kind::Ecall, 0),
    (0b000000000001_00000_000_00000_1110011, Kind::Ebreak, 0),
    // RISC-V Privileged ISA 20211203, chapter 5
    (0b0011000_00010_00000_000_00000_1110011, Kind::Mret, 0),
    (0b0001000_00101_00000_000_00000_1110011, Kind::Wfi, 0),
];

static CSR_ACCESSES: [(u32, Kind, i32); 6] = [
    (0b001100000101_00010_001_00001_1110011, Kind::Csrrw, 0x305),
    (0b111100010100_00010_010_00001_1110011, Kind::Csrrs, 0xf14),
    (0b111111111111_00010_011_00001_1110011, Kind::Csrrc, 4095),
    (0b100000000000_00010_101_00001_1110011, Kind::Csrrwi, 2048),
    (0b001100000000_00010_110_00001_1110011, Kind::Csrrsi, 768),
    (0b000000000000_00010_111_00001_1110011, Kind::Csrrci, 0),
];

#[test]
fn decodes_fences_and_system_words(rt: HostRuntime) {
    decodes_each(&rt, (0, 0, 0), &BARE);
    decodes_each(&rt, (1, 2, 0), &CSR_ACCESSES);
}

// funct5, aq and rl, rs2, rs1, funct3, rd
static RESERVATIONS: [(u32, Kind, i32); 2] = [
    (0b00010_00_00000_00010_010_00001_0101111, Kind::LrW, 0),
    (0b00010_11_00000_00010_010_00001_0101111, Kind::LrW, 0),
];

static ATOMICS: [(u32, Kind, i32); 11] = [
    (0b00011_00_00011_00010_010_00001_0101111, Kind::ScW, 0),
    (0b00001_00_00011_00010_010_00001_0101111, Kind::AmoswapW, 0),
    (0b00000_00_00011_00010_010_00001_0101111, Kind::AmoaddW, 0),
    (0b00000_10_00011_00010_010_00001_0101111, Kind::AmoaddW, 0),
    (0b00100_01_00011_00010_010_00001_0101111, Kind::AmoxorW, 0),
    (0b01100_00_00011_00010_010_00001_0101111, Kind::AmoandW, 0),
    (0b01000_00_00011_00010_010_00001_0101111, Kind::AmoorW, 0),
    (0b10000_00_00011_00010_010_00001_0101111, Kind::AmominW, 0),
    (0b10100_00_00011_00010_010_00001_0101111, Kind::AmomaxW, 0),
    (0b11000_00_00011_00010_010_00001_0101111, Kind::AmominuW, 0),
    (0b11100_00_00011_00010_010_00001_0101111, Kind::AmomaxuW, 0),
];

#[test]
fn decodes_atomic_operations(rt: HostRuntime) {
    decodes_each(&rt, (1, 2, 0), &RESERVATIONS);
    decodes_each(&rt, (1, 2, 3), &ATOMICS);
}

static NO_ROWS: [u32; 25] = [
    0,
    0xffff_ffff,
    // an opcode whose lowest bit is 0
    0b00000000000000000000_00001_0110110,
    // a funct3 that JALR, branches, loads and stores do not have
    0b000000000000_00010_001_00001_1100111,
    0b0_000000_00010_00001_010_0000_0_1100011,
    0b000000000000_00010_011_00001_0000011,
    0b0000000_00010_00001_011_00000_0100011,
    // shifts by 32 and more, and SLLI with the funct7 of SRAI
    0b0000001_00000_00010_001_00001_0010011,
    0b0000001_11111_00010_101_00001_0010011,
    0b0100001_00000_00010_101_00001_0010011,
    0b0100000_00001_00010_001_00001_0010011,
    // a funct7 that computations do not have
    0b0100000_00011_00010_111_00001_0110011,
    0b0000010_00011_00010_000_00001_0110011,
    0b0100001_00011_00010_000_00001_0110011,
    // a funct3 that fences do not have
    0b000000000000_00000_010_00000_0001111,
    // ECALL with an rd, EBREAK with an rs1, SRET, SFENCE.VMA, and a funct3 that CSRs do not have
    0b000000000000_00000_000_00001_1110011,
    0b000000000001_00001_000_00000_1110011,
    0b0001000_00010_00000_000_00000_1110011,
    0b0001001_00000_00000_000_00000_1110011,
    0b000000000000_00000_100_00000_1110011,
    // LR with an rs2, an atomic operation on eight bytes, and a funct5 that none has
    0b00010_00_00001_00010_010_00001_0101111,
    0b00000_00_00011_00010_011_00001_0101111,
    0b00101_00_00011_00010_010_00001_0101111,
    // FLW and FADD.S
    0b000000000000_00010_010_00001_0000111,
    0b0000000_00011_00010_000_00001_1010011,
];

#[test]
fn refuses_words_of_no_row(rt: HostRuntime) {
    for word in NO_ROWS.iter() {
        are_equal(&rt, &(*word, fields_of(*word)), &(*word, None));
    }
}

/// Kinds, and words of guests that were assembled elsewhere.
static GUESTS: [(Kind, &[u32]); 9] = [
    (
        Kind::Lui,
        &[0x100022b7, 0x800014b7, 0x100002b7, 0x020044b7, 0x80002537],
    ),
    (
        Kind::Addi,
        &[
            0x00100313, 0x00200313, 0x00300313, 0x00400313, 0x00500313, 0x00600313, 0x00700313,
            0x01100513, 0x01200513, 0x01300313, 0x01300513, 0x02840313, 0x04100313, 0x08000313,
        ],
    ),
    (
        Kind::Sw,
        &[
            0x0062a023, 0x0062a223, 0x0062a423, 0x0062ac23, 0x0002a023, 0x0002a223, 0x0072a023,
            0x00a2a023, 0x00a4a023, 0x00552023, 0x0064a023, 0x0004a223,
        ],
    ),
    (
        Kind::Lw,
        &[
            0x00c2a303, 0x00c2a383, 0x00c2a403, 0x0102a403, 0x0202a303, 0x0202a503, 0x0004a503,
        ],
    ),
    (Kind::Bne, &[0x02041463, 0x02041863, 0x00041863, 0x00041c63]),
    (Kind::Jal, &[0x0340006f, 0xff1ff06f]),
    (Kind::Sb, &[0x00628023]),
    (Kind::Csrrw, &[0x30551073, 0x30431073]),
    (Kind::Csrrsi, &[0x30046073]),
];

fn kind_of(word: u32) -> Option<u32> {
    Some(decode(word)?.kind() as u32)
}

fn decodes_each_as(rt: &impl Abort, kind: Kind, words: &[u32]) {
    for word in words {
        are_equal(rt, &(*word, kind_of(*word)), &(*word, Some(kind as u32)));
    }
}

#[test]
fn decodes_words_of_guests(rt: HostRuntime) {
    for (kind, words) in GUESTS.iter() {
        decodes_each_as(&rt, *kind, words);
    }
}
