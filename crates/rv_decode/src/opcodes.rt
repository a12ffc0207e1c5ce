//! The kind of a word: by its opcode, and then by the other fields that tell a row.
#![tactic(auto, unfolding(crate::specs::Table::kind_with_opcode, crate::specs::Table::rows))]

ghost use Rattle.std.specs.Prelude.{◌≡◌};
ghost use Rattle.rv_decode.specs.Table.{kind_of_word, kind_with_opcode};

use crate::kinds::Kind;

/// The kind of the row that `word` matches.
#[inline]
#[tactic(auto, using(crate::proofs::ByOpcode::kinds_by_opcode))]
pub(crate) fn kind_of_word(word: u32) -> Option<Kind>
    ensures { result ≡ kind_of_word word }
{
    match word & 0x7f {
        0x37 => Some(Kind::Lui),
        0x17 => Some(Kind::Auipc),
        0x6f => Some(Kind::Jal),
        0x67 => jump_to_register(word),
        0x63 => branch(word),
        0x03 => load(word),
        0x23 => store(word),
        0x13 => compute_immediate(word),
        0x33 => compute(word),
        0x0f => fence(word),
        0x73 => system(word),
        0x2f => atomic(word),
        _ => None,
    }
}

/// Opcode JALR.
#[inline]
fn jump_to_register(word: u32) -> Option<Kind>
    ensures { result ≡ kind_with_opcode 0x67 word }
{
    match word & 0x707f {
        0x0067 => Some(Kind::Jalr),
        _ => None,
    }
}

/// Opcode BRANCH.
#[inline]
fn branch(word: u32) -> Option<Kind>
    ensures { result ≡ kind_with_opcode 0x63 word }
{
    match word & 0x707f {
        0x0063 => Some(Kind::Beq),
        0x1063 => Some(Kind::Bne),
        0x4063 => Some(Kind::Blt),
        0x5063 => Some(Kind::Bge),
        0x6063 => Some(Kind::Bltu),
        0x7063 => Some(Kind::Bgeu),
        _ => None,
    }
}

/// Opcode LOAD.
#[inline]
fn load(word: u32) -> Option<Kind>
    ensures { result ≡ kind_with_opcode 0x03 word }
{
    match word & 0x707f {
        0x0003 => Some(Kind::Lb),
        0x1003 => Some(Kind::Lh),
        0x2003 => Some(Kind::Lw),
        0x4003 => Some(Kind::Lbu),
        0x5003 => Some(Kind::Lhu),
        _ => None,
    }
}

/// Opcode STORE.
#[inline]
fn store(word: u32) -> Option<Kind>
    ensures { result ≡ kind_with_opcode 0x23 word }
{
    match word & 0x707f {
        0x0023 => Some(Kind::Sb),
        0x1023 => Some(Kind::Sh),
        0x2023 => Some(Kind::Sw),
        _ => None,
    }
}

/// Opcode OP-IMM.
#[inline]
fn compute_immediate(word: u32) -> Option<Kind>
    ensures { result ≡ kind_with_opcode 0x13 word }
{
    match word & 0x707f {
        0x0013 => Some(Kind::Addi),
        0x2013 => Some(Kind::Slti),
        0x3013 => Some(Kind::Sltiu),
        0x4013 => Some(Kind::Xori),
        0x6013 => Some(Kind::Ori),
        0x7013 => Some(Kind::Andi),
        _ => match word & 0xfe00_707f {
            0x0000_1013 => Some(Kind::Slli),
            0x0000_5013 => Some(Kind::Srli),
            0x4000_5013 => Some(Kind::Srai),
            _ => None,
        },
    }
}

/// Opcode OP.
#[inline]
fn compute(word: u32) -> Option<Kind>
    ensures { result ≡ kind_with_opcode 0x33 word }
{
    match word & 0xfe00_707f {
        0x0000_0033 => Some(Kind::Add),
        0x4000_0033 => Some(Kind::Sub),
        0x0000_1033 => Some(Kind::Sll),
        0x0000_2033 => Some(Kind::Slt),
        0x0000_3033 => Some(Kind::Sltu),
        0x0000_4033 => Some(Kind::Xor),
        0x0000_5033 => Some(Kind::Srl),
        0x4000_5033 => Some(Kind::Sra),
        0x0000_6033 => Some(Kind::Or),
        0x0000_7033 => Some(Kind::And),
        0x0200_0033 => Some(Kind::Mul),
        0x0200_1033 => Some(Kind::Mulh),
        0x0200_2033 => Some(Kind::Mulhsu),
        0x0200_3033 => Some(Kind::Mulhu),
        0x0200_4033 => Some(Kind::Div),
        0x0200_5033 => Some(Kind::Divu),
        0x0200_6033 => Some(Kind::Rem),
        0x0200_7033 => Some(Kind::Remu),
        _ => None,
    }
}

/// Opcode MISC-MEM.
#[inline]
fn fence(word: u32) -> Option<Kind>
    ensures { result ≡ kind_with_opcode 0x0f word }
{
    match word & 0x707f {
        0x000f => Some(Kind::Fence),
        0x100f => Some(Kind::FenceI),
        _ => None,
    }
}

/// Opcode SYSTEM.
#[inline]
fn system(word: u32) -> Option<Kind>
    ensures { result ≡ kind_with_opcode 0x73 word }
{
    match word {
        0x0000_0073 => Some(Kind::Ecall),
        0x0010_0073 => Some(Kind::Ebreak),
        0x3020_0073 => Some(Kind::Mret),
        0x1050_0073 => Some(Kind::Wfi),
        _ => match word & 0x707f {
            0x1073 => Some(Kind::Csrrw),
            0x2073 => Some(Kind::Csrrs),
            0x3073 => Some(Kind::Csrrc),
            0x5073 => Some(Kind::Csrrwi),
            0x6073 => Some(Kind::Csrrsi),
            0x7073 => Some(Kind::Csrrci),
            _ => None,
        },
    }
}

/// Opcode AMO.
#[inline]
fn atomic(word: u32) -> Option<Kind>
    ensures { result ≡ kind_with_opcode 0x2f word }
{
    match word & 0xf9f0_707f {
        0x1000_202f => Some(Kind::LrW),
        _ => match word & 0xf800_707f {
            0x1800_202f => Some(Kind::ScW),
            0x0800_202f => Some(Kind::AmoswapW),
            0x0000_202f => Some(Kind::AmoaddW),
            0x2000_202f => Some(Kind::AmoxorW),
            0x6000_202f => Some(Kind::AmoandW),
            0x4000_202f => Some(Kind::AmoorW),
            0x8000_202f => Some(Kind::AmominW),
            0xa000_202f => Some(Kind::AmomaxW),
            0xc000_202f => Some(Kind::AmominuW),
            0xe000_202f => Some(Kind::AmomaxuW),
            _ => None,
        },
    }
}
