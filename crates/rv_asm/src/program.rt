ghost use Rattle.std.specs.Prelude.{◌≡◌, ◌<◌, ◌≢◌, ◌↔◌, IsTrue, IsSome, IsErrOf, IfOk, IfErr, OnOk, OnErr, Ok};
ghost use Rattle.rv_asm.specs.Offset.{takes_label};
ghost use Rattle.rv_asm.specs.Listing.{empty, plain, to_label, with_line, place_of, PlacesLabel, with_offset, instruction_of, assembled, IsRefused};

use crate::encoder::encode;
use crate::error::AsmError;
use crate::line::{LabelledJump, ProgramLine, offset, with_immediate};
use rv_decode::Instr;
use std::alloc::Global;
use std::collections::BTreeMap;
use std::collections::btree_map::Entry;
use std::marker::Model;

/// A program in the making: instructions, one behind the other, and labels that name places between them.
#[derive(Drop)]
pub struct Program {
    base: u32,
    lines: Vec<ProgramLine>,
    labels: BTreeMap<u32, usize>,
}

impl Model for Program {
    ghost use Rattle.rv_asm.specs.Listing.{Listing};

    ghost Value = { Listing };

    ghost view = { λ p. record { base = p.base; lines = p.lines.items; labels = p.labels.entries } };
}

impl Program {
    /// A program with no instruction, whose first word will lie at the address `base`.
    pub fn new(alloc: Global, base: u32) -> Program
        ensures { result ≡ empty base }
    {
        Program {
            base,
            lines: Vec::new(alloc),
            labels: BTreeMap::new(alloc),
        }
    }

    /// The address of the first word.
    #[inline]
    pub fn base(&self) -> u32
        ensures { result ≡ self.now.base }
    {
        self.base
    }

    /// Adds an instruction as it is.
    pub fn push(&mut self, instruction: Instr) -> Result<(), AsmError>
        ensures ok { OnOk result (self.new ≡ with_line self.old (plain instruction)) }
        ensures memory { IfErr result (λ error. error ≡ AsmError.Memory) }
        ensures err { OnErr result (self.new ≡ self.old) }
    {
        self.lines.push(ProgramLine::Plain(instruction))?;
        Ok(())
    }

    /// Adds a jump or a branch to a label, which may be placed before or after it. The offset to the label
    /// takes the place of the instruction's immediate. `takes_label` tells which instructions it is for.
    pub fn branch_to(&mut self, instruction: Instr, label: u32) -> Result<(), AsmError>
        requires { IsTrue (takes_label instruction.kind) }
        ensures ok { OnOk result (self.new ≡ with_line self.old (to_label instruction label)) }
        ensures memory { IfErr result (λ error. error ≡ AsmError.Memory) }
        ensures err { OnErr result (self.new ≡ self.old) }
    {
        self.lines.push(ProgramLine::ToLabel(LabelledJump::new(instruction, label)))?;
        Ok(())
    }

    /// Places a label before the next instruction. A label has one place.
    pub fn place_label(&mut self, label: u32) -> Result<(), AsmError>
        ensures ok { OnOk result (PlacesLabel self.old self.new label) }
        ensures twice { IsErrOf result AsmError.LabelPlacedTwice ↔ IsSome (place_of self.old label) }
        ensures no_other { IfErr result (λ error. (error ≢ AsmError.UnplacedLabel) × (error ≢ AsmError.OffsetOutOfRange)) }
        ensures err { OnErr result (self.new ≡ self.old) }
    {
        let place = self.lines.len();
        match self.labels.entry(label)? {
            Entry::Occupied(_) => Err(AsmError::LabelPlacedTwice),
            Entry::Vacant(entry) => {
                entry.insert(place);
                Ok(())
            }
        }
    }

    /// The words of the program, in which the offset of each jump and branch to a label is the label's place
    /// less its own. The first instruction for which there is none gives the error.
    pub fn finish(self) -> Result<Vec<u32>, AsmError>
        ensures words { IfOk result (λ words. assembled self ≡ Ok words.items) }
        ensures refused { IfErr result (IsRefused self) }
    {
        let mut words = Vec::with_capacity(*self.lines.allocator(), self.lines.len())?;
        for (at, line) in self.lines.iter().enumerate() {
            words.push(encode(&self.instruction_of(at, line)?))?;
        }
        Ok(words)
    }

    /// The instruction of a line at this place.
    fn instruction_of(&self, at: usize, line: &ProgramLine) -> Result<Instr, AsmError>
        ensures { result ≡ instruction_of self.now at line.now }
    {
        match *line {
            ProgramLine::Plain(instruction) => Ok(instruction),
            ProgramLine::ToLabel(branch) => {
                let place = self.labels.get(&branch.label()).copied();
                with_offset(branch.instruction(), at, place)
            }
        }
    }
}

/// The instruction at this place with the offset to another as its immediate.
fn with_offset(instruction: Instr, at: usize, place: Option<usize>) -> Result<Instr, AsmError>
    requires { IsTrue (takes_label instruction.kind) }
    ensures { result ≡ with_offset instruction at place }
{
    let Some(place) = place else {
        return Err(AsmError::UnplacedLabel);
    };
    match offset(at, place) {
        Some(imm) => with_immediate(instruction, imm).ok_or(AsmError::OffsetOutOfRange),
        None => Err(AsmError::OffsetOutOfRange),
    }
}
