ghost use Rattle.std.specs.Prelude.{◌≡◌, ◌<◌, ◌↔◌, IsTrue, SomeIff};
ghost use Rattle.rv_decode.specs.Kinds.{format_of};
ghost use Rattle.rv_decode.specs.Instruction.{Instruction, IsInFormat, IsInstruction};

use crate::kinds::{Format, Kind};
use std::marker::Model;

/// An instruction: its kind, its registers from 0 to 31, and its immediate. Each field is in the
/// range of the kind's format, and 0 where the format lacks it.
#[derive(Clone, Copy)]
pub struct Instr {
    pub(crate) kind: Kind,
    pub(crate) rd: u8,
    pub(crate) rs1: u8,
    pub(crate) rs2: u8,
    pub(crate) imm: i32,
}

impl Model for Instr {
    ghost use Rattle.rv_decode.specs.Instruction.{Instruction, IsInstruction};

    ghost Value = { Instruction };

    ghost view = { λ i. record { kind = i.kind; rd = i.rd; rs1 = i.rs1; rs2 = i.rs2; imm = i.imm } };

    ghost invariant = { λ i. IsInstruction (record { kind = i.kind; rd = i.rd; rs1 = i.rs1; rs2 = i.rs2; imm = i.imm }) };

    ghost inverse = { λ v. record { kind = v.kind; rd = v.rd; rs1 = v.rs1; rs2 = v.rs2; imm = v.imm } };
}

impl Instr {
    /// The instruction with these fields, or `None` exactly where a field is out of its format's
    /// range, or one that the format lacks is not 0.
    pub fn new(kind: Kind, rd: u32, rs1: u32, rs2: u32, imm: i32) -> Option<Instr>
        ensures { let fields : Instruction = record { kind = kind; rd = rd; rs1 = rs1; rs2 = rs2; imm = imm }
            in SomeIff result (IsInstruction fields) fields }
    {
        if is_instruction(kind, rd, rs1, rs2, imm) {
            Some(Instr {
                kind,
                rd: rd as u8,
                rs1: rs1 as u8,
                rs2: rs2 as u8,
                imm,
            })
        } else {
            None
        }
    }

    #[inline]
    pub fn kind(self) -> Kind
        ensures { result ≡ self.kind }
    {
        self.kind
    }

    /// The format of this kind's words, in whose ranges the fields are.
    #[inline]
    pub fn format(self) -> Format
        ensures value { result ≡ format_of self.kind }
        ensures fields { IsInFormat result self }
    {
        self.kind.format()
    }

    /// The register that is written, 0 where there is none.
    #[inline]
    pub fn rd(self) -> u32
        ensures value { result ≡ self.rd }
        ensures register { result < 32 }
    {
        u32::from(self.rd)
    }

    /// The first register that is read, 0 where there is none.
    #[inline]
    pub fn rs1(self) -> u32
        ensures value { result ≡ self.rs1 }
        ensures register { result < 32 }
    {
        u32::from(self.rs1)
    }

    /// The second register that is read, 0 where there is none.
    #[inline]
    pub fn rs2(self) -> u32
        ensures value { result ≡ self.rs2 }
        ensures register { result < 32 }
    {
        u32::from(self.rs2)
    }

    /// The immediate, 0 where there is none.
    #[inline]
    pub fn imm(self) -> i32
        ensures { result ≡ self.imm }
    {
        self.imm
    }
}

/// Whether each field is in the range of the kind's format, and 0 where the format lacks it.
fn is_instruction(kind: Kind, rd: u32, rs1: u32, rs2: u32, imm: i32) -> bool
    ensures fields { let fields : Instruction = record { kind = kind; rd = rd; rs1 = rs1; rs2 = rs2; imm = imm }
        in IsTrue result ↔ IsInstruction fields }
    ensures registers { IsTrue result → (rd < 32) × (rs1 < 32) × (rs2 < 32) }
{
    match kind.format() {
        Format::U => rd < 32 && rs1 == 0 && rs2 == 0 && imm.cast_unsigned() % 4096 == 0,
        Format::J => {
            rd < 32
                && rs1 == 0
                && rs2 == 0
                && (-0x10_0000..0x10_0000).contains(&imm)
                && imm.cast_unsigned() % 2 == 0
        }
        Format::B => {
            rd == 0
                && rs1 < 32
                && rs2 < 32
                && (-0x1000..0x1000).contains(&imm)
                && imm.cast_unsigned() % 2 == 0
        }
        Format::I => rd < 32 && rs1 < 32 && rs2 == 0 && (-0x800..0x800).contains(&imm),
        Format::S => rd == 0 && rs1 < 32 && rs2 < 32 && (-0x800..0x800).contains(&imm),
        Format::Shift => rd < 32 && rs1 < 32 && rs2 == 0 && (0..32).contains(&imm),
        Format::Csr => rd < 32 && rs1 < 32 && rs2 == 0 && (0..0x1000).contains(&imm),
        Format::R => rd < 32 && rs1 < 32 && rs2 < 32 && imm == 0,
        Format::Lr => rd < 32 && rs1 < 32 && rs2 == 0 && imm == 0,
        Format::Bare => rd == 0 && rs1 == 0 && rs2 == 0 && imm == 0,
    }
}
