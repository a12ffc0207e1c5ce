ghost use Rattle.std.specs.Prelude.{◌≡◌, ◌≤◌, Some, bit_and};
ghost use Rattle.std.specs.Int.{cast_unsigned, w32};
ghost use Rattle.rv_decode.specs.Table.{decoded};
ghost use Rattle.rv_asm.specs.Encode.{row_of, u_bits, j_bits, b_bits, i_bits, s_bits, placed, encoded, read_bits};

use rv_decode::{Format, Instr, Kind};

/// The word of an instruction. The bits that mean nothing in a word of its kind are 0: those that FENCE
/// and FENCE.I ignore, and aq and rl of atomic instructions.
#[inline]
#[tactic(auto, unfolding(crate::specs::Encode::encoded, crate::specs::Encode::read_bits))]
pub fn encode(instruction: &Instr) -> u32
    ensures decodes { decoded result ≡ Some instruction.now }
    ensures ignored { bit_and result (read_bits instruction.now.kind) ≡ result }
    ensures value { result ≡ encoded instruction.now }
{
    row_bits(instruction.kind()) + placed(instruction.format(), instruction)
}

/// The fields of an instruction at their places in a word of this format.
#[inline]
fn placed(format: Format, instruction: &Instr) -> u32
    ensures { result ≡ placed format instruction.now (cast_unsigned w32 instruction.now.imm) }
{
    let rd = instruction.rd() << 7;
    let rs1 = instruction.rs1() << 15;
    let rs2 = instruction.rs2() << 20;
    let imm = instruction.imm().cast_unsigned();
    match format {
        Format::U => u_bits(imm) + rd,
        Format::J => j_bits(imm) + rd,
        Format::B => b_bits(imm) + rs2 + rs1,
        Format::I | Format::Csr => i_bits(imm) + rs1 + rd,
        Format::S => s_bits(imm) + rs2 + rs1,
        Format::Shift => ((imm & 31) << 20) + rs1 + rd,
        Format::R => rs2 + rs1 + rd,
        Format::Lr => rs1 + rd,
        Format::Bare => 0,
    }
}

#[inline]
fn u_bits(imm: u32) -> u32
    ensures value { result ≡ u_bits imm }
    ensures small { result ≤ 0xffff_f000 }
{
    (imm >> 12) << 12
}

#[inline]
fn j_bits(imm: u32) -> u32
    ensures value { result ≡ j_bits imm }
    ensures small { result ≤ 0xffff_f000 }
{
    let upper = ((imm >> 20 & 1) << 31) + ((imm >> 1 & 0x3ff) << 21);
    let lower = ((imm >> 11 & 1) << 20) + ((imm >> 12 & 0xff) << 12);
    upper + lower
}

#[inline]
fn b_bits(imm: u32) -> u32
    ensures value { result ≡ b_bits imm }
    ensures small { result ≤ 0xfe00_0f80 }
{
    let upper = ((imm >> 12 & 1) << 31) + ((imm >> 5 & 0x3f) << 25);
    let lower = ((imm >> 1 & 0xf) << 8) + ((imm >> 11 & 1) << 7);
    upper + lower
}

#[inline]
fn i_bits(imm: u32) -> u32
    ensures value { result ≡ i_bits imm }
    ensures small { result ≤ 0xfff0_0000 }
{
    (imm & 0xfff) << 20
}

#[inline]
fn s_bits(imm: u32) -> u32
    ensures value { result ≡ s_bits imm }
    ensures small { result ≤ 0xfe00_0f80 }
{
    ((imm >> 5 & 0x7f) << 25) + ((imm & 31) << 7)
}

/// The bits of the row of this kind.
#[inline]
#[tactic(auto, unfolding(crate::specs::Encode::row_of, rv_decode::specs::Table::rows))]
fn row_bits(kind: Kind) -> u32
    ensures { result ≡ (row_of kind).bits }
{
    match kind {
        Kind::Lui => 0x0000_0037,
        Kind::Auipc => 0x0000_0017,
        Kind::Jal => 0x0000_006f,
        Kind::Jalr => 0x0000_0067,
        Kind::Beq => 0x0000_0063,
        Kind::Bne => 0x0000_1063,
        Kind::Blt => 0x0000_4063,
        Kind::Bge => 0x0000_5063,
        Kind::Bltu => 0x0000_6063,
        Kind::Bgeu => 0x0000_7063,
        Kind::Lb => 0x0000_0003,
        Kind::Lh => 0x0000_1003,
        Kind::Lw => 0x0000_2003,
        Kind::Lbu => 0x0000_4003,
        Kind::Lhu => 0x0000_5003,
        Kind::Sb => 0x0000_0023,
        Kind::Sh => 0x0000_1023,
        Kind::Sw => 0x0000_2023,
        Kind::Addi => 0x0000_0013,
        Kind::Slti => 0x0000_2013,
        Kind::Sltiu => 0x0000_3013,
        Kind::Xori => 0x0000_4013,
        Kind::Ori => 0x0000_6013,
        Kind::Andi => 0x0000_7013,
        Kind::Slli => 0x0000_1013,
        Kind::Srli => 0x0000_5013,
        Kind::Srai => 0x4000_5013,
        Kind::Add => 0x0000_0033,
        Kind::Sub => 0x4000_0033,
        Kind::Sll => 0x0000_1033,
        Kind::Slt => 0x0000_2033,
        Kind::Sltu => 0x0000_3033,
        Kind::Xor => 0x0000_4033,
        Kind::Srl => 0x0000_5033,
        Kind::Sra => 0x4000_5033,
        Kind::Or => 0x0000_6033,
        Kind::And => 0x0000_7033,
        Kind::Mul => 0x0200_0033,
        Kind::Mulh => 0x0200_1033,
        Kind::Mulhsu => 0x0200_2033,
        Kind::Mulhu => 0x0200_3033,
        Kind::Div => 0x0200_4033,
        Kind::Divu => 0x0200_5033,
        Kind::Rem => 0x0200_6033,
        Kind::Remu => 0x0200_7033,
        Kind::Fence => 0x0000_000f,
        Kind::FenceI => 0x0000_100f,
        Kind::Ecall => 0x0000_0073,
        Kind::Ebreak => 0x0010_0073,
        Kind::Mret => 0x3020_0073,
        Kind::Wfi => 0x1050_0073,
        Kind::Csrrw => 0x0000_1073,
        Kind::Csrrs => 0x0000_2073,
        Kind::Csrrc => 0x0000_3073,
        Kind::Csrrwi => 0x0000_5073,
        Kind::Csrrsi => 0x0000_6073,
        Kind::Csrrci => 0x0000_7073,
        Kind::LrW => 0x1000_202f,
        Kind::ScW => 0x1800_202f,
        Kind::AmoswapW => 0x0800_202f,
        Kind::AmoaddW => 0x0000_202f,
        Kind::AmoxorW => 0x2000_202f,
        Kind::AmoandW => 0x6000_202f,
        Kind::AmoorW => 0x4000_202f,
        Kind::AmominW => 0x8000_202f,
        Kind::AmomaxW => 0xa000_202f,
        Kind::AmominuW => 0xc000_202f,
        Kind::AmomaxuW => 0xe000_202f,
    }
}
