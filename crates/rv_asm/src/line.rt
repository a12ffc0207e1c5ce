//! The lines of a program.

ghost use Rattle.std.specs.Prelude.{◌≡◌, ◌+◌, ◌*◌, ◌<◌, ◌≤◌, ◌^◌, IsTrue, IsSome, IfSome, pos, SomeIff};
ghost use Rattle.rv_decode.specs.Instruction.{IsSigned, IsMultiple};
ghost use Rattle.rv_asm.specs.Offset.{takes_label, reach, offset, reaches};

use rv_decode::{Format, Instr, Kind};
use std::marker::Model;

/// Whether the immediate of an instruction is an offset from its own address, which a label can give: JAL
/// and the branches.
pub fn takes_label(kind: Kind) -> bool
    ensures { result ≡ takes_label kind }
{
    match kind {
        Kind::Jal => true,
        Kind::Beq | Kind::Bne | Kind::Blt | Kind::Bge | Kind::Bltu | Kind::Bgeu => true,
        _ => false,
    }
}

/// A line of a program, which is one word.
#[derive(Clone, Copy)]
pub(crate) enum ProgramLine {
    /// An instruction as it is.
    Plain(Instr),
    /// An instruction whose immediate is the offset to a label.
    ToLabel(LabelledJump),
}

/// A jump or a branch to a label.
#[derive(Clone, Copy)]
pub(crate) struct LabelledJump {
    instruction: Instr,
    label: u32,
}

impl Model for LabelledJump {
    ghost use Rattle.std.specs.Prelude.{IsTrue};
    ghost use Rattle.rv_asm.specs.Offset.{BranchTo, takes_label};

    ghost Value = { BranchTo };

    ghost view = { λ b. record { instruction = b.instruction; label = b.label } };

    ghost invariant = { λ b. IsTrue (takes_label b.instruction.kind) };

    ghost inverse = { λ v. record { instruction = v.instruction; label = v.label } };
}

impl LabelledJump {
    pub(crate) fn new(instruction: Instr, label: u32) -> LabelledJump
        requires { IsTrue (takes_label instruction.kind) }
        ensures { result ≡ record { instruction = instruction; label = label } }
    {
        LabelledJump { instruction, label }
    }

    pub(crate) fn instruction(self) -> Instr
        ensures value { result ≡ self.instruction }
        ensures relative { IsTrue (takes_label result.kind) }
    {
        self.instruction
    }

    pub(crate) fn label(self) -> u32
        ensures { result ≡ self.label }
    {
        self.label
    }
}

/// The offset in bytes from a word of a program to another, or `None` where they are too far apart for any
/// instruction.
pub(crate) fn offset(at: usize, place: usize) -> Option<i32>
    ensures value { IfSome result (λ bytes. bytes ≡ offset at place) }
    ensures near { at ≤ place + 0x10_0000 → place ≤ at + 0x10_0000 → IsSome result }
{
    if at <= place {
        bytes_of(place - at)
    } else {
        Some(-bytes_of(at - place)?)
    }
}

/// The bytes of so many words.
fn bytes_of(words: usize) -> Option<i32>
    ensures { SomeIff result (4 * words < 2 ^ 31) (pos (4 * words)) }
{
    i32::try_from(words.checked_mul(4)?).ok()
}

/// This instruction with another offset, or `None` exactly where it does not reach so far.
pub(crate) fn with_immediate(instruction: Instr, imm: i32) -> Option<Instr>
    requires { IsTrue (takes_label instruction.kind) }
    ensures { SomeIff result (IsSigned (reach instruction.kind) imm × IsMultiple 2 imm) (record instruction { imm = imm }) }
{
    let kind = instruction.kind();
    match instruction.format() {
        Format::J => Instr::new(kind, instruction.rd(), 0, 0, imm),
        _ => Instr::new(kind, 0, instruction.rs1(), instruction.rs2(), imm),
    }
}
