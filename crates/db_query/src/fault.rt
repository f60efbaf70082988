//! Why a query has no answer.

use std::alloc::AllocError;
use thiserror::Error;

/// Why a query has no answer.
#[derive(Debug, Drop, Error)]
pub enum DbError {
    /// The content passes the limits of a reply.
    #[error("the answer is too long")]
    TooLong,
    /// There was no memory.
    #[error("out of memory")]
    OutOfMemory,
}

impl From<AllocError> for DbError {
    ghost use Rattle.std.specs.Prelude.{◌≡◌};
    ghost use Rattle.db_query.specs.declared.fault.DbError.{DbError};

    ghost from_gives = { λ _ e. e ≡ DbError.OutOfMemory };

    fn from(_: AllocError) -> Self {
        DbError::OutOfMemory
    }
}
