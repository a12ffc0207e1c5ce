//! The instructions of a guest, by their operands in the order of the assembly language. Registers are from
//! 0 to 31, and no immediate is negative.

ghost use Rattle.std.specs.Prelude.{◌≡◌, ◌%◌, ◌^◌, ◌<◌};
ghost use Rattle.rv_decode.specs.Instruction.{Instruction, IsInstruction};
ghost use Rattle.guest_gen.specs.Assembly.{lui, addi, add, lw, sw, sb, beq, jal};

use rv_decode::{Instr, Kind};

/// The instruction with these fields.
fn instruction(kind: Kind, rd: u32, rs1: u32, rs2: u32, imm: i32) -> Instr
    requires { let fields : Instruction = record { kind = kind; rd = rd; rs1 = rs1; rs2 = rs2; imm = imm }
        in IsInstruction fields }
    ensures { let fields : Instruction = record { kind = kind; rd = rd; rs1 = rs1; rs2 = rs2; imm = imm }
        in result ≡ fields }
{
    Instr::new(kind, rd, rs1, rs2, imm).unwrap()
}

/// `upper` is the upper 20 bits of the value.
#[tactic(auto, unfolding(crate::specs::Assembly::lui, rv_decode::specs::Kinds::format_of))]
pub(crate) fn lui(rd: u32, upper: u32) -> Instr
    requires register { rd < 32 }
    requires bits { upper < 2 ^ 20 }
    ensures { result ≡ lui rd upper }
{
    instruction(Kind::Lui, rd, 0, 0, (upper * 0x1000).cast_signed())
}

#[tactic(auto, unfolding(crate::specs::Assembly::addi, rv_decode::specs::Kinds::format_of))]
pub(crate) fn addi(rd: u32, rs1: u32, imm: u32) -> Instr
    requires written { rd < 32 }
    requires read { rs1 < 32 }
    requires immediate { imm < 2048 }
    ensures { result ≡ addi rd rs1 imm }
{
    instruction(Kind::Addi, rd, rs1, 0, imm as i32)
}

#[tactic(auto, unfolding(crate::specs::Assembly::add, rv_decode::specs::Kinds::format_of))]
pub(crate) fn add(rd: u32, rs1: u32, rs2: u32) -> Instr
    requires written { rd < 32 }
    requires first { rs1 < 32 }
    requires second { rs2 < 32 }
    ensures { result ≡ add rd rs1 rs2 }
{
    instruction(Kind::Add, rd, rs1, rs2, 0)
}

#[tactic(auto, unfolding(crate::specs::Assembly::lw, rv_decode::specs::Kinds::format_of))]
pub(crate) fn lw(rd: u32, imm: u32, rs1: u32) -> Instr
    requires written { rd < 32 }
    requires immediate { imm < 2048 }
    requires read { rs1 < 32 }
    ensures { result ≡ lw rd imm rs1 }
{
    instruction(Kind::Lw, rd, rs1, 0, imm as i32)
}

#[tactic(auto, unfolding(crate::specs::Assembly::sw, rv_decode::specs::Kinds::format_of))]
pub(crate) fn sw(rs2: u32, imm: u32, rs1: u32) -> Instr
    requires stored { rs2 < 32 }
    requires immediate { imm < 2048 }
    requires address { rs1 < 32 }
    ensures { result ≡ sw rs2 imm rs1 }
{
    instruction(Kind::Sw, 0, rs1, rs2, imm as i32)
}

#[tactic(auto, unfolding(crate::specs::Assembly::sb, rv_decode::specs::Kinds::format_of))]
pub(crate) fn sb(rs2: u32, imm: u32, rs1: u32) -> Instr
    requires stored { rs2 < 32 }
    requires immediate { imm < 2048 }
    requires address { rs1 < 32 }
    ensures { result ≡ sb rs2 imm rs1 }
{
    instruction(Kind::Sb, 0, rs1, rs2, imm as i32)
}

/// Goes so many bytes ahead.
#[tactic(auto, unfolding(crate::specs::Assembly::beq, rv_decode::specs::Kinds::format_of))]
pub(crate) fn beq(rs1: u32, rs2: u32, ahead: u32) -> Instr
    requires first { rs1 < 32 }
    requires second { rs2 < 32 }
    requires near { ahead < 4096 }
    requires even { ahead % 2 ≡ 0 }
    ensures { result ≡ beq rs1 rs2 ahead }
{
    instruction(Kind::Beq, 0, rs1, rs2, ahead as i32)
}

/// Goes so many bytes ahead.
#[tactic(auto, unfolding(crate::specs::Assembly::jal, rv_decode::specs::Kinds::format_of))]
pub(crate) fn jal(rd: u32, ahead: u32) -> Instr
    requires register { rd < 32 }
    requires near { ahead < 0x10_0000 }
    requires even { ahead % 2 ≡ 0 }
    ensures { result ≡ jal rd ahead }
{
    instruction(Kind::Jal, rd, 0, 0, ahead as i32)
}
