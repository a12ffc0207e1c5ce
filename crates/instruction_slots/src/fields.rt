//! The fields of an instruction, each by itself.

ghost use Rattle.std.specs.Prelude.{◌≡◌, ◌<◌};

use rv_decode::{Instr, Kind};
use std::marker::Model;

/// An instruction. An `Instr` is passed as one number, from which each field is cut: here each is read as it lies.
#[derive(Clone, Copy)]
pub struct Fields {
    kind: Kind,
    rd: u32,
    rs1: u32,
    rs2: u32,
    imm: i32,
}

impl Model for Fields {
    ghost use Rattle.std.specs.Prelude.{◌<◌};
    ghost use Rattle.rv_decode.specs.Instruction.{Instruction};

    ghost Value = { Instruction };

    ghost view = { λ i. record { kind = i.kind; rd = i.rd; rs1 = i.rs1; rs2 = i.rs2; imm = i.imm } };

    ghost invariant = { λ i. (i.rd < 32) × (i.rs1 < 32) × (i.rs2 < 32) };

    ghost inverse = { λ v. record { kind = v.kind; rd = v.rd; rs1 = v.rs1; rs2 = v.rs2; imm = v.imm } };
}

impl Fields {
    /// The fields of an instruction.
    #[inline(always)]
    pub fn of(instr: Instr) -> Fields
        ensures { result ≡ instr }
    {
        Fields {
            kind: instr.kind(),
            rd: instr.rd(),
            rs1: instr.rs1(),
            rs2: instr.rs2(),
            imm: instr.imm(),
        }
    }

    /// What the instruction is.
    #[inline(always)]
    pub fn kind(&self) -> Kind
        ensures { result ≡ self.now.kind }
    {
        self.kind
    }

    /// The register that is written, 0 where there is none.
    #[inline(always)]
    pub fn rd(&self) -> u32
        ensures value { result ≡ self.now.rd }
        ensures register { result < 32 }
    {
        self.rd
    }

    /// The first register that is read, 0 where there is none.
    #[inline(always)]
    pub fn rs1(&self) -> u32
        ensures value { result ≡ self.now.rs1 }
        ensures register { result < 32 }
    {
        self.rs1
    }

    /// The second register that is read, 0 where there is none.
    #[inline(always)]
    pub fn rs2(&self) -> u32
        ensures value { result ≡ self.now.rs2 }
        ensures register { result < 32 }
    {
        self.rs2
    }

    /// The immediate, 0 where there is none.
    #[inline(always)]
    pub fn imm(&self) -> i32
        ensures { result ≡ self.now.imm }
    {
        self.imm
    }
}
