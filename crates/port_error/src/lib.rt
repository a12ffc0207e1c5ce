//! Why an access to a port is not made: the errors that all ports share.
#![tactic(auto)]

use std::alloc::{AllocError, AllocFailed};
use thiserror::Error;

/// The port has no such access. Nothing has changed then.
#[derive(Clone, Copy, Debug, PartialEq, Eq, Error)]
#[error("the port has no such access")]
pub struct Fault;

/// Why a store to a port was not made. Nothing has changed then.
#[derive(Clone, Copy, Debug, PartialEq, Eq, Error)]
pub enum PortError {
    /// The port has no such access.
    #[error("the port has no such access")]
    Fault,
    /// Out of memory.
    #[error("out of memory")]
    Memory,
}

impl From<Fault> for PortError {
    ghost use Rattle.std.specs.Prelude.{◌≡◌};
    ghost use Rattle.port_error.specs.declared.PortError.TheVariants.{Fault};

    ghost from_gives = { λ _ error. error ≡ Fault };

    fn from(_error: Fault) -> PortError {
        PortError::Fault
    }
}

impl From<AllocError> for PortError {
    ghost use Rattle.std.specs.Prelude.{◌≡◌};
    ghost use Rattle.port_error.specs.declared.PortError.TheVariants.{Memory};

    ghost from_gives = { λ _ error. error ≡ Memory };

    fn from(_error: AllocError) -> PortError {
        PortError::Memory
    }
}

impl<T: Drop> From<AllocFailed<T>> for PortError {
    ghost use Rattle.std.specs.Prelude.{◌≡◌};
    ghost use Rattle.port_error.specs.declared.PortError.TheVariants.{Memory};

    ghost from_gives = { λ _ error. error ≡ Memory };

    fn from(_error: AllocFailed<T>) -> PortError {
        PortError::Memory
    }
}
