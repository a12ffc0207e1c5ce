//! The formats and groups of kinds, and the ranges of an instruction's fields.

use crate::equal::are_equal;
use rv_decode::{Format, Group, Instr, Kind};

static KINDS: [(Kind, Format, Group); 17] = [
    (Kind::Lui, Format::U, Group::LoadUpper),
    (Kind::Auipc, Format::U, Group::AddUpper),
    (Kind::Jal, Format::J, Group::Jump),
    (Kind::Jalr, Format::I, Group::JumpRegister),
    (Kind::Bgeu, Format::B, Group::Branch),
    (Kind::Lhu, Format::I, Group::Load),
    (Kind::Sh, Format::S, Group::Store),
    (Kind::Srai, Format::Shift, Group::ComputeImmediate),
    (Kind::Remu, Format::R, Group::Compute),
    (Kind::Wfi, Format::Bare, Group::Nothing),
    (Kind::Ecall, Format::Bare, Group::EnvironmentCall),
    (Kind::Ebreak, Format::Bare, Group::Breakpoint),
    (Kind::Mret, Format::Bare, Group::TrapReturn),
    (Kind::Csrrci, Format::Csr, Group::Csr),
    (Kind::LrW, Format::Lr, Group::LoadReserved),
    (Kind::ScW, Format::R, Group::StoreConditional),
    (Kind::AmomaxuW, Format::R, Group::Amo),
];

#[test]
fn kinds_have_a_format_and_a_group(rt: HostRuntime) {
    for (row, &(kind, format, group)) in KINDS.iter().enumerate() {
        let found = (kind.format() as u32, kind.group() as u32);
        are_equal(&rt, &(row, found), &(row, (format as u32, group as u32)));
    }
}

static TAKEN: [(Kind, u32, u32, u32, i32); 16] = [
    (Kind::Lui, 31, 0, 0, 0x7fff_f000),
    (Kind::Auipc, 0, 0, 0, i32::MIN),
    (Kind::Jal, 31, 0, 0, 0xf_fffe),
    (Kind::Jal, 0, 0, 0, -0x10_0000),
    (Kind::Bne, 0, 31, 31, 0xffe),
    (Kind::Beq, 0, 0, 0, -0x1000),
    (Kind::Jalr, 31, 31, 0, 2047),
    (Kind::Addi, 31, 31, 0, -2048),
    (Kind::Sb, 0, 31, 31, -2048),
    (Kind::Sw, 0, 31, 31, 2047),
    (Kind::Srai, 31, 31, 0, 31),
    (Kind::Csrrwi, 31, 31, 0, 0xfff),
    (Kind::Mulhsu, 31, 31, 31, 0),
    (Kind::AmomaxuW, 31, 31, 31, 0),
    (Kind::LrW, 31, 31, 0, 0),
    (Kind::Fence, 0, 0, 0, 0),
];

#[test]
fn takes_fields_in_range(rt: HostRuntime) {
    for (row, &(kind, rd, rs1, rs2, imm)) in TAKEN.iter().enumerate() {
        let is_taken = Instr::new(kind, rd, rs1, rs2, imm).is_some();
        are_equal(&rt, &(row, is_taken), &(row, true));
    }
}

static REFUSED: [(Kind, u32, u32, u32, i32); 25] = [
    (Kind::Lui, 32, 0, 0, 0),
    (Kind::Lui, 5, 1, 0, 0),
    (Kind::Lui, 5, 0, 0, 1),
    (Kind::Jal, 1, 0, 0, 3),
    (Kind::Jal, 1, 0, 0, 0x10_0000),
    (Kind::Bne, 1, 2, 3, 8),
    (Kind::Bne, 0, 2, 3, 5),
    (Kind::Bne, 0, 2, 3, 0x1000),
    (Kind::Bne, 0, 2, 3, -0x1002),
    (Kind::Addi, 1, 0, 1, 0),
    (Kind::Addi, 1, 32, 0, 0),
    (Kind::Addi, 1, 0, 0, 2048),
    (Kind::Sb, 0, 0, 0, -2049),
    (Kind::Sw, 1, 5, 6, 8),
    (Kind::Sw, 0, 5, 32, 8),
    (Kind::Slli, 1, 2, 0, 32),
    (Kind::Slli, 1, 2, 0, -1),
    (Kind::Csrrw, 1, 2, 0, 0x1000),
    (Kind::Csrrs, 1, 2, 0, -1),
    (Kind::Csrrsi, 1, 32, 0, 0x300),
    (Kind::Add, 1, 2, 3, 1),
    (Kind::ScW, 1, 2, 32, 0),
    (Kind::LrW, 1, 2, 3, 0),
    (Kind::Wfi, 1, 0, 0, 0),
    (Kind::Ecall, 0, 0, 0, 1),
];

#[test]
fn refuses_fields_out_of_range(rt: HostRuntime) {
    for (row, &(kind, rd, rs1, rs2, imm)) in REFUSED.iter().enumerate() {
        let is_taken = Instr::new(kind, rd, rs1, rs2, imm).is_some();
        are_equal(&rt, &(row, is_taken), &(row, false));
    }
}
