//! The lines of a script.

ghost use Rattle.std.specs.Prelude.{◌≡◌, IfOk, IfErr, option_map};
ghost use Rattle.drive_script.specs.Lines.{line_read};
ghost use Rattle.drive_script.specs.Told.{name_in};
ghost use Rattle.drive_script.specs.Script.{IsLineRefused, IsNameRefused, addressed, fields_beyond, line_of, name_of};
ghost use Rattle.drive_script.specs.Script.{named, numbered, one_of, two_of, with_fields, word_of};

use crate::error::{BAD_ADDRESS, BAD_NAME, BAD_NUMBER, LineError, UNKNOWN_WORD, WRONG_FIELDS};
use crate::fields::{SPACE, address_of, cut, number_within, one_field, two_fields};
use crate::name::NameText;
use std::alloc::Global;
use vm_descriptor::MAX_LIMIT;

/// The most steps that a line may ask for: as many as a machine may make.
pub const MAX_STEPS: u32 = MAX_LIMIT as u32;

/// The greatest number of a page.
pub const MAX_PAGE: u32 = u32::MAX;

/// The greatest place among the replies that were sent.
pub const MAX_PLACE: u32 = u32::MAX;

/// A line of a script. Each names a machine.
#[derive(Drop)]
pub enum ScriptLine {
    /// `step N K`: at most so many steps.
    Step { name: NameText, most: u32 },
    /// `ask N`: a reply with the page at which the machine stalls is sent.
    Ask { name: NameText },
    /// `push N P`: a reply with any page is sent.
    Push { name: NameText, page: u32 },
    /// `give N I`: the reply at a place among those that were sent arrives.
    Give { name: NameText, place: u32 },
    /// `peek N ADDR`: the word of RAM at an address.
    Peek { name: NameText, address: u32 },
    /// `regs N`: the pc and the registers.
    Regs { name: NameText },
}

impl ScriptLine {
    /// The name of the machine.
    pub fn name(&self) -> &NameText
        ensures { result.now ≡ name_in (line_read self.now) }
    {
        match self {
            ScriptLine::Step { name, .. } => name,
            ScriptLine::Ask { name } => name,
            ScriptLine::Push { name, .. } => name,
            ScriptLine::Give { name, .. } => name,
            ScriptLine::Peek { name, .. } => name,
            ScriptLine::Regs { name } => name,
        }
    }
}

/// The word that a line begins with.
#[derive(Clone, Copy)]
enum Word {
    Step,
    Ask,
    Push,
    Give,
    Peek,
    Regs,
}

/// The line that a text is.
#[tactic(auto, unfolding(crate::specs::Script::line_of))]
pub(crate) fn read_line(alloc: Global, text: &[u8]) -> Result<ScriptLine, LineError>
    ensures reads { IfOk result (λ line. line_of text.now ≡ Ok (line_read line)) }
    ensures refuses { IfErr result (IsLineRefused (line_of text.now)) }
{
    let (word, fields) = cut(text, SPACE);
    match word_of(word) {
        None => Err(LineError::Refused(UNKNOWN_WORD)),
        Some(word) => read_fields(alloc, word, fields),
    }
}

fn word_of(text: &[u8]) -> Option<Word>
    ensures { result ≡ word_of text.now }
{
    match text {
        b"step" => Some(Word::Step),
        b"ask" => Some(Word::Ask),
        b"push" => Some(Word::Push),
        b"give" => Some(Word::Give),
        b"peek" => Some(Word::Peek),
        b"regs" => Some(Word::Regs),
        _ => None,
    }
}

/// The line of a word and its fields.
fn read_fields(alloc: Global, word: Word, fields: Option<&[u8]>) -> Result<ScriptLine, LineError>
    ensures reads { IfOk result (λ line. with_fields word (fields_beyond (option_map (λ text. text.now) fields.entry)) ≡ Ok (line_read line)) }
    ensures refuses { IfErr result (IsLineRefused (with_fields word (fields_beyond (option_map (λ text. text.now) fields.entry)))) }
{
    match word {
        Word::Step => {
            let (name, most) = read_numbered(alloc, fields, MAX_STEPS)?;
            Ok(ScriptLine::Step { name, most })
        }
        Word::Ask => {
            let name = read_named(alloc, fields)?;
            Ok(ScriptLine::Ask { name })
        }
        Word::Push => {
            let (name, page) = read_numbered(alloc, fields, MAX_PAGE)?;
            Ok(ScriptLine::Push { name, page })
        }
        Word::Give => {
            let (name, place) = read_numbered(alloc, fields, MAX_PLACE)?;
            Ok(ScriptLine::Give { name, place })
        }
        Word::Peek => {
            let (name, address) = read_addressed(alloc, fields)?;
            Ok(ScriptLine::Peek { name, address })
        }
        Word::Regs => {
            let name = read_named(alloc, fields)?;
            Ok(ScriptLine::Regs { name })
        }
    }
}

/// The field that is a name, read.
fn read_named(alloc: Global, fields: Option<&[u8]>) -> Result<NameText, LineError>
    ensures reads { IfOk result (λ name. named (one_of (fields_beyond (option_map (λ text. text.now) fields.entry))) ≡ Ok name) }
    ensures refuses { IfErr result (IsLineRefused (named (one_of (fields_beyond (option_map (λ text. text.now) fields.entry))))) }
{
    let name = one_field(fields).ok_or(LineError::Refused(WRONG_FIELDS))?;
    read_name(alloc, name)
}

/// The fields that are a name and a number up to `most`, read.
fn read_numbered(
    alloc: Global,
    fields: Option<&[u8]>,
    most: u32,
) -> Result<(NameText, u32), LineError>
    ensures reads { IfOk result (λ two. numbered most (two_of (fields_beyond (option_map (λ text. text.now) fields.entry))) ≡ Ok (two.0, two.1)) }
    ensures refuses { IfErr result (IsLineRefused (numbered most (two_of (fields_beyond (option_map (λ text. text.now) fields.entry))))) }
{
    let (name, number) = two_fields(fields).ok_or(LineError::Refused(WRONG_FIELDS))?;
    let name = read_name(alloc, name)?;
    let number = number_within(number, 0, most).ok_or(LineError::Refused(BAD_NUMBER))?;
    Ok((name, number))
}

/// The fields that are a name and an address, read.
fn read_addressed(alloc: Global, fields: Option<&[u8]>) -> Result<(NameText, u32), LineError>
    ensures reads { IfOk result (λ two. addressed (two_of (fields_beyond (option_map (λ text. text.now) fields.entry))) ≡ Ok (two.0, two.1)) }
    ensures refuses { IfErr result (IsLineRefused (addressed (two_of (fields_beyond (option_map (λ text. text.now) fields.entry))))) }
{
    let (name, address) = two_fields(fields).ok_or(LineError::Refused(WRONG_FIELDS))?;
    let name = read_name(alloc, name)?;
    let address = address_of(address).ok_or(LineError::Refused(BAD_ADDRESS))?;
    Ok((name, address))
}

/// The name of a machine, read.
fn read_name(alloc: Global, text: &[u8]) -> Result<NameText, LineError>
    ensures reads { IfOk result (λ name. name_of text.now ≡ Some name) }
    ensures refuses { IfErr result (IsNameRefused (name_of text.now)) }
{
    NameText::read(alloc, text)?.ok_or(LineError::Refused(BAD_NAME))
}
