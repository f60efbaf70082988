//! Why a field isn't read.

use std::alloc::AllocError;
use thiserror::Error;

/// Why no field stands at the front of octets.
#[derive(Clone, Copy, Debug, PartialEq, Eq, Error)]
pub enum Stop {
    /// At least so many octets are missing.
    #[error("at least {0} octets are missing")]
    Short(usize),
    /// None stands there, whatever octets follow.
    #[error("no field stands there")]
    Bad,
}

/// Why a reader that takes memory gives nothing.
#[derive(Clone, Copy, Debug, PartialEq, Eq, Error)]
pub enum ReadError {
    #[error("{0}")]
    Stop(Stop),
    #[error("out of memory")]
    OutOfMemory,
}

impl From<AllocError> for ReadError {
    ghost use Rattle.std.specs.Prelude.{◌≡◌};
    ghost use Rattle.edges.specs.declared.stop.ReadError.{ReadError};

    ghost from_gives = { λ _ e. e ≡ ReadError.OutOfMemory };

    fn from(_: AllocError) -> Self {
        ReadError::OutOfMemory
    }
}

impl From<Stop> for ReadError {
    ghost use Rattle.std.specs.Prelude.{◌≡◌};
    ghost use Rattle.edges.specs.declared.stop.ReadError.{ReadError};

    ghost from_gives = { λ stop e. e ≡ ReadError.Stop stop };

    fn from(stop: Stop) -> Self {
        ReadError::Stop(stop)
    }
}
