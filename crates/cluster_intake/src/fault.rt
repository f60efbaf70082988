//! Why a message has no event.

use cluster_types::event::Reason;
use std::alloc::AllocError;
use thiserror::Error;

/// Why a message has no event.
#[derive(Debug, Drop, Error)]
pub enum IntakeError {
    /// It means nothing, and why.
    #[error("the message means nothing")]
    Junk(Reason),
    /// There was no memory.
    #[error("out of memory")]
    OutOfMemory,
}

impl From<AllocError> for IntakeError {
    ghost use Rattle.std.specs.Prelude.{◌≡◌};
    ghost use Rattle.cluster_intake.specs.declared.fault.IntakeError.{IntakeError};

    ghost from_gives = { λ _ e. e ≡ IntakeError.OutOfMemory };

    fn from(_: AllocError) -> Self {
        IntakeError::OutOfMemory
    }
}
