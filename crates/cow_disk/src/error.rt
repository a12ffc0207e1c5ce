use std::alloc::{AllocError, AllocFailed};
use thiserror::Error;

/// Why bytes make no disk.
#[derive(Clone, Copy, Debug, PartialEq, Eq, Error)]
pub enum DiskError {
    /// The bytes are not whole sectors.
    #[error("the bytes are not whole sectors")]
    NotSectors,
    /// The bytes are more than a disk has.
    #[error("the bytes are more than a disk has")]
    TooLong,
    /// Out of memory.
    #[error("out of memory")]
    Memory,
}

/// Why a sector is not read.
#[derive(Clone, Copy, Debug, PartialEq, Eq, Error)]
pub enum ReadError {
    /// The disk has no such sector.
    #[error("the disk has no such sector")]
    BadSector,
    /// The sector is in this page, which is absent.
    #[error("page {0} of the disk is absent")]
    Absent(u32),
}

/// Why a sector is not written. Nothing has changed then.
#[derive(Clone, Copy, Debug, PartialEq, Eq, Error)]
pub enum WriteError {
    /// The disk has no such sector.
    #[error("the disk has no such sector")]
    BadSector,
    /// The sector is in this page, which is absent.
    #[error("page {0} of the disk is absent")]
    Absent(u32),
    /// Out of memory.
    #[error("out of memory")]
    Memory,
}

impl From<AllocError> for DiskError {
    ghost use Rattle.std.specs.Prelude.{◌≡◌};
    ghost use Rattle.cow_disk.specs.declared.error.DiskError.TheVariants.{Memory};

    ghost from_gives = { λ _ error. error ≡ Memory };

    fn from(_error: AllocError) -> DiskError {
        DiskError::Memory
    }
}

impl<T: Drop> From<AllocFailed<T>> for DiskError {
    ghost use Rattle.std.specs.Prelude.{◌≡◌};
    ghost use Rattle.cow_disk.specs.declared.error.DiskError.TheVariants.{Memory};

    ghost from_gives = { λ _ error. error ≡ Memory };

    fn from(_error: AllocFailed<T>) -> DiskError {
        DiskError::Memory
    }
}

impl From<AllocError> for WriteError {
    ghost use Rattle.std.specs.Prelude.{◌≡◌};
    ghost use Rattle.cow_disk.specs.declared.error.WriteError.TheVariants.{Memory};

    ghost from_gives = { λ _ error. error ≡ Memory };

    fn from(_error: AllocError) -> WriteError {
        WriteError::Memory
    }
}
