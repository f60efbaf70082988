//! Why a journal isn't written.

use std::alloc::AllocError;
use thiserror::Error;

/// Why a journal wasn't written whole.
#[derive(Clone, Copy, Debug, PartialEq, Eq, Error)]
pub enum WriteError {
    #[error("out of memory")]
    OutOfMemory,
    #[error("a write failed")]
    WriteFailed,
    /// A record has 2^32 octets or more, so that no batch can hold it.
    #[error("a record has too many octets for a batch")]
    TooLong,
}

impl From<AllocError> for WriteError {
    ghost use Rattle.std.specs.Prelude.{◌≡◌};
    ghost use Rattle.database_text.specs.declared.fault.WriteError.{WriteError};

    ghost from_gives = { λ _ e. e ≡ WriteError.OutOfMemory };

    fn from(_: AllocError) -> Self {
        WriteError::OutOfMemory
    }
}
