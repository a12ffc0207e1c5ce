//! Scripts, read from their texts.

ghost use Rattle.std.specs.Prelude.{◌≡◌, ◌≤◌, [], length, map, IfOk, IfErr, OnOk};
ghost use Rattle.drive_script.specs.Lines.{line_read, lines_read};
ghost use Rattle.drive_script.specs.Script.{IsRefused, script};

use crate::error::{LineError, ScriptError};
use crate::fields::NEWLINE;
use crate::line::{ScriptLine, read_line};
use std::alloc::Global;
use std::marker::Model;

/// The most bytes of a script.
pub const MAX_SCRIPT: usize = 1_048_576;

/// A script: its lines in order, without those that are empty.
#[derive(Drop)]
pub struct Script {
    lines: Vec<ScriptLine>,
}

impl Model for Script {
    ghost use Rattle.std.specs.Prelude.{List};
    ghost use Rattle.drive_script.specs.Lines.{lines_read};
    ghost use Rattle.drive_script.specs.Script as told;

    ghost Value = { List told.ScriptLine };

    ghost view = { λ s. lines_read s.lines.items };
}

impl Script {
    /// The lines, in order.
    pub fn lines(&self) -> &[ScriptLine]
        ensures { map line_read result.now ≡ self.now }
    {
        &self.lines
    }
}

/// Reads a script from its text, or refuses it by the first line that is not in form.
pub fn read_script(alloc: Global, bytes: &[u8]) -> Result<Script, ScriptError>
    requires { length bytes.now ≤ MAX_SCRIPT }
    ensures reads { IfOk result (λ lines. script bytes.now ≡ Ok lines) }
    ensures refuses { IfErr result (IsRefused bytes.now) }
{
    let mut lines = Vec::new(alloc);
    read_lines(alloc, bytes, &mut lines)?;
    Ok(Script { lines })
}

/// Reads the lines of a text into an empty list, up to the first that is not in form.
fn read_lines(alloc: Global, bytes: &[u8], lines: &mut Vec<ScriptLine>) -> Result<(), ScriptError>
    requires most { length bytes.now ≤ MAX_SCRIPT }
    requires none { lines.old.items ≡ [] }
    ensures reads { OnOk result (script bytes.now ≡ Ok (lines_read lines.new.items)) }
    ensures refuses { IfErr result (IsRefused bytes.now) }
{
    let mut number = 0u32;
    for text in bytes.split(|byte| *byte == NEWLINE) {
        number += 1;
        if text.is_empty() {
            continue;
        }
        match read_line(alloc, text) {
            Ok(line) => lines.push(line)?,
            Err(LineError::Refused(kind)) => {
                return Err(ScriptError::Refused { line: number, kind });
            }
            Err(LineError::Memory) => return Err(ScriptError::Memory),
        }
    }
    Ok(())
}
