//! The table of instruction words, row by row.

use crate::equal::are_equal;
use rv_asm::encode;
use rv_decode::{Kind, decode};
use std::process::Abort;

/// A mask, the bits of a word under it, and the kind of the words that have these bits there. The masks and
/// bits are those of the RISC-V Unprivileged ISA 20191213, chapter 24, and of the Privileged ISA 20211203,
/// chapter 5, but for bits that an instruction ignores.
static ROWS: [(u32, u32, Kind); 68] = [
    (0x0000_007f, 0x0000_0037, Kind::Lui),
    (0x0000_007f, 0x0000_0017, Kind::Auipc),
    (0x0000_007f, 0x0000_006f, Kind::Jal),
    (0x0000_707f, 0x0000_0067, Kind::Jalr),
    (0x0000_707f, 0x0000_0063, Kind::Beq),
    (0x0000_707f, 0x0000_1063, Kind::Bne),
    (0x0000_707f, 0x0000_4063, Kind::Blt),
    (0x0000_707f, 0x0000_5063, Kind::Bge),
    (0x0000_707f, 0x0000_6063, Kind::Bltu),
    (0x0000_707f, 0x0000_7063, Kind::Bgeu),
    (0x0000_707f, 0x0000_0003, Kind::Lb),
    (0x0000_707f, 0x0000_1003, Kind::Lh),
    (0x0000_707f, 0x0000_2003, Kind::Lw),
    (0x0000_707f, 0x0000_4003, Kind::Lbu),
    (0x0000_707f, 0x0000_5003, Kind::Lhu),
    (0x0000_707f, 0x0000_0023, Kind::Sb),
    (0x0000_707f, 0x0000_1023, Kind::Sh),
    (0x0000_707f, 0x0000_2023, Kind::Sw),
    (0x0000_707f, 0x0000_0013, Kind::Addi),
    (0x0000_707f, 0x0000_2013, Kind::Slti),
    (0x0000_707f, 0x0000_3013, Kind::Sltiu),
    (0x0000_707f, 0x0000_4013, Kind::Xori),
    (0x0000_707f, 0x0000_6013, Kind::Ori),
    (0x0000_707f, 0x0000_7013, Kind::Andi),
    (0xfe00_707f, 0x0000_1013, Kind::Slli),
    (0xfe00_707f, 0x0000_5013, Kind::Srli),
    (0xfe00_707f, 0x4000_5013, Kind::Srai),
    (0xfe00_707f, 0x0000_0033, Kind::Add),
    (0xfe00_707f, 0x4000_0033, Kind::Sub),
    (0xfe00_707f, 0x0000_1033, Kind::Sll),
    (0xfe00_707f, 0x0000_2033, Kind::Slt),
    (0xfe00_707f, 0x0000_3033, Kind::Sltu),
    (0xfe00_707f, 0x0000_4033, Kind::Xor),
    (0xfe00_707f, 0x0000_5033, Kind::Srl),
    (0xfe00_707f, 0x4000_5033, Kind::Sra),
    (0xfe00_707f, 0x0000_6033, Kind::Or),
    (0xfe00_707f, 0x0000_7033, Kind::And),
    (0xfe00_707f, 0x0200_0033, Kind::Mul),
    (0xfe00_707f, 0x0200_1033, Kind::Mulh),
    (0xfe00_707f, 0x0200_2033, Kind::Mulhsu),
    (0xfe00_707f, 0x0200_3033, Kind::Mulhu),
    (0xfe00_707f, 0x0200_4033, Kind::Div),
    (0xfe00_707f, 0x0200_5033, Kind::Divu),
    (0xfe00_707f, 0x0200_6033, Kind::Rem),
    (0xfe00_707f, 0x0200_7033, Kind::Remu),
    (0x0000_707f, 0x0000_000f, Kind::Fence),
    (0x0000_707f, 0x0000_100f, Kind::FenceI),
    (0xffff_ffff, 0x0000_0073, Kind::Ecall),
    (0xffff_ffff, 0x0010_0073, Kind::Ebreak),
    (0xffff_ffff, 0x3020_0073, Kind::Mret),
    (0xffff_ffff, 0x1050_0073, Kind::Wfi),
    (0x0000_707f, 0x0000_1073, Kind::Csrrw),
    (0x0000_707f, 0x0000_2073, Kind::Csrrs),
    (0x0000_707f, 0x0000_3073, Kind::Csrrc),
    (0x0000_707f, 0x0000_5073, Kind::Csrrwi),
    (0x0000_707f, 0x0000_6073, Kind::Csrrsi),
    (0x0000_707f, 0x0000_7073, Kind::Csrrci),
    (0xf9f0_707f, 0x1000_202f, Kind::LrW),
    (0xf800_707f, 0x1800_202f, Kind::ScW),
    (0xf800_707f, 0x0800_202f, Kind::AmoswapW),
    (0xf800_707f, 0x0000_202f, Kind::AmoaddW),
    (0xf800_707f, 0x2000_202f, Kind::AmoxorW),
    (0xf800_707f, 0x6000_202f, Kind::AmoandW),
    (0xf800_707f, 0x4000_202f, Kind::AmoorW),
    (0xf800_707f, 0x8000_202f, Kind::AmominW),
    (0xf800_707f, 0xa000_202f, Kind::AmomaxW),
    (0xf800_707f, 0xc000_202f, Kind::AmominuW),
    (0xf800_707f, 0xe000_202f, Kind::AmomaxuW),
];

/// The kind of a word, as a number.
fn kind_of(word: u32) -> Option<u32> {
    decode(word).map(|instruction| instruction.kind() as u32)
}

/// Words of a row have its kind, whatever their other bits are, and a word that differs from it in one bit
/// under the mask has not.
fn is_a_row(rt: &impl Abort, mask: u32, bits: u32, kind: Kind) {
    let kind = kind as u32;
    let found = [kind_of(bits), kind_of(bits | !mask)];
    are_equal(rt, &(bits, found), &(bits, [Some(kind), Some(kind)]));
    for place in 0..32u32 {
        let other = bits ^ 1 << place;
        let is_same = kind_of(other) == Some(kind);
        are_equal(rt, &(other, is_same), &(other, mask >> place & 1 == 0));
    }
}

#[test]
fn words_have_the_kind_of_their_row(rt: HostRuntime) {
    for &(mask, bits, kind) in ROWS.iter() {
        is_a_row(&rt, mask, bits, kind);
    }
}

/// What a word is written as.
fn encoded(word: u32) -> Option<u32> {
    Some(encode(&decode(word)?))
}

/// The bits under a mask of what a word is written as.
fn encoded_under(mask: u32, word: u32) -> Option<u32> {
    Some(encoded(word)? & mask)
}

#[test]
fn bits_that_no_field_has_are_written_as_zeros(rt: HostRuntime) {
    for &(mask, bits, _) in ROWS.iter() {
        let found = [encoded(bits), encoded_under(mask, bits | !mask)];
        are_equal(&rt, &(bits, found), &(bits, [Some(bits), Some(bits)]));
    }
}
