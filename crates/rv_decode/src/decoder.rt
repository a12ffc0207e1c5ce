ghost use Rattle.std.specs.Prelude.{◌≡◌};
ghost use Rattle.rv_decode.specs.Kinds.{format_of};
ghost use Rattle.rv_decode.specs.Table.{decoded, in_format};

use crate::fields::{
    b_immediate, i_immediate, j_immediate, rd, rs1, rs2, s_immediate, u_immediate,
};
use crate::instruction::Instr;
use crate::kinds::{Format, Kind};
use crate::opcodes::kind_of_word;

/// The instruction that `word` encodes, or `None` exactly where no row of the table matches it.
#[inline]
#[tactic(auto, unfolding(crate::specs::Table::decoded))]
pub fn decode(word: u32) -> Option<Instr>
    ensures { result ≡ decoded word }
{
    let kind = kind_of_word(word)?;
    Some(instr_of_word(kind, word))
}

/// The instruction of this kind with the fields of `word`.
#[inline]
fn instr_of_word(kind: Kind, word: u32) -> Instr
    ensures { result ≡ in_format (format_of kind) kind word }
{
    let (rd, rs1, rs2, imm) = match kind.format() {
        Format::U => (rd(word), 0, 0, u_immediate(word)),
        Format::J => (rd(word), 0, 0, j_immediate(word)),
        Format::B => (0, rs1(word), rs2(word), b_immediate(word)),
        Format::I => (rd(word), rs1(word), 0, i_immediate(word)),
        Format::S => (0, rs1(word), rs2(word), s_immediate(word)),
        Format::Shift => (rd(word), rs1(word), 0, i32::from(rs2(word))),
        Format::Csr => (rd(word), rs1(word), 0, (word >> 20).cast_signed()),
        Format::R => (rd(word), rs1(word), rs2(word), 0),
        Format::Lr => (rd(word), rs1(word), 0, 0),
        Format::Bare => (0, 0, 0, 0),
    };
    Instr {
        kind,
        rd,
        rs1,
        rs2,
        imm,
    }
}
