//! Why a text is no script.

ghost use Rattle.std.specs.Prelude.{◌≡◌};
ghost use Rattle.drive_script.specs.declared.error.ScriptError.TheVariants as script;
ghost use Rattle.drive_script.specs.declared.error.LineError.TheVariants as line;

use std::alloc::{AllocError, AllocFailed};
use thiserror::Error;

/// The first word of a line is none that is known.
pub const UNKNOWN_WORD: u32 = 1;

/// A line has too few fields for its word, or too many.
pub const WRONG_FIELDS: u32 = 2;

/// A field is to be the name of a machine, and is none.
pub const BAD_NAME: u32 = 3;

/// A field is to be a number, and is none, or too large.
pub const BAD_NUMBER: u32 = 4;

/// A field is to be an address, and is none.
pub const BAD_ADDRESS: u32 = 5;

/// Why a script is not read.
#[derive(Clone, Copy, Debug, PartialEq, Eq, Error)]
pub enum ScriptError {
    /// A line is not in form, and this is the first such. Lines are counted from 1, empty ones with them. The
    /// kind is what is found first: the word (1), then the number of fields (2), then the fields from the left,
    /// each a name (3), a number (4) or an address (5).
    #[error("line {line} is refused, kind {kind}")]
    Refused { line: u32, kind: u32 },
    /// Out of memory.
    #[error("out of memory")]
    Memory,
}

impl<T: Drop> From<AllocFailed<T>> for ScriptError {
    ghost from_gives = { λ _ error. error ≡ script.Memory };

    fn from(_error: AllocFailed<T>) -> ScriptError {
        ScriptError::Memory
    }
}

/// Why a line is not read.
#[derive(Clone, Copy)]
pub(crate) enum LineError {
    /// It is not in form, by this kind.
    Refused(u32),
    /// Out of memory.
    Memory,
}

impl From<AllocError> for LineError {
    ghost from_gives = { λ _ error. error ≡ line.Memory };

    fn from(_error: AllocError) -> LineError {
        LineError::Memory
    }
}
