//! Why bytes are no descriptor.

ghost use Rattle.std.specs.Prelude.{◌≡◌};
ghost use Rattle.vm_descriptor.specs.declared.error.DescError.TheVariants as error;

use std::alloc::AllocError;
use thiserror::Error;

/// Why bytes are no descriptor.
#[derive(Debug, Drop, Error, PartialEq, Eq)]
pub enum DescError {
    /// The number of the first reason: 1 fewer than 776 bytes, 2 the mark of no version, 3 no number of pages, 4 another
    /// length than the fields, the pages and the form of the map ask for, 5 a field or an entry out of its range, 6 a
    /// bit of the map past the last page, 7 lengths that are none of the runs of so many pages, or another form of the map than is due.
    #[error("descriptor refused, reason {0}")]
    Refused(u32),
    #[error("want of memory")]
    Memory,
}

impl From<AllocError> for DescError {
    ghost from_gives = { λ _ given. given ≡ error.Memory };

    fn from(_error: AllocError) -> DescError {
        DescError::Memory
    }
}
