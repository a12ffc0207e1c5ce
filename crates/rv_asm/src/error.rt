use std::alloc::{AllocError, AllocFailed};
use thiserror::Error;

/// Why a program is not assembled, or a label not placed.
#[derive(Clone, Copy, Debug, PartialEq, Eq, Error)]
pub enum AsmError {
    /// A label is used, and is never placed.
    #[error("a label is used, and is never placed")]
    UnplacedLabel,
    /// A label is farther away than the instruction reaches.
    #[error("a label is farther away than the instruction reaches")]
    OffsetOutOfRange,
    /// The label has a place already.
    #[error("the label has a place already")]
    LabelPlacedTwice,
    /// Out of memory.
    #[error("out of memory")]
    Memory,
}

impl From<AllocError> for AsmError {
    ghost use Rattle.std.specs.Prelude.{◌≡◌};
    ghost use Rattle.rv_asm.specs.declared.error.AsmError.TheVariants.{Memory};

    ghost from_gives = { λ _ error. error ≡ Memory };

    fn from(_error: AllocError) -> AsmError {
        AsmError::Memory
    }
}

impl<T: Drop> From<AllocFailed<T>> for AsmError {
    ghost use Rattle.std.specs.Prelude.{◌≡◌};
    ghost use Rattle.rv_asm.specs.declared.error.AsmError.TheVariants.{Memory};

    ghost from_gives = { λ _ error. error ≡ Memory };

    fn from(_error: AllocFailed<T>) -> AsmError {
        AsmError::Memory
    }
}
