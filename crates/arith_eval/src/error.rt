//! Why a program has no value.

use cluster_types::text::Text;
use std::alloc::{AllocError, AllocFailed};
use thiserror::Error;

/// Why a program has no value.
#[derive(Debug, Drop, Error)]
pub enum ArithError {
    /// A name that was never assigned.
    #[error("a name without a value")]
    NameError(Text),
    /// A divisor, or the right side of `%`, that is 0.
    #[error("a division by 0")]
    ZeroDivision,
    /// A shift count outside 0 to 63.
    #[error("a shift by {0}, outside 0 to 63")]
    ShiftRange(i64),
    #[error("out of memory")]
    OutOfMemory,
}

impl From<AllocError> for ArithError {
    ghost use Rattle.std.specs.Prelude.{◌≡◌};
    ghost use Rattle.arith_eval.specs.declared.error.ArithError.TheVariants.{OutOfMemory};

    ghost from_gives = { λ _ e. e ≡ OutOfMemory };

    fn from(_error: AllocError) -> ArithError {
        ArithError::OutOfMemory
    }
}

impl<T: Drop> From<AllocFailed<T>> for ArithError {
    ghost use Rattle.std.specs.Prelude.{◌≡◌};
    ghost use Rattle.arith_eval.specs.declared.error.ArithError.TheVariants.{OutOfMemory};

    ghost from_gives = { λ _ e. e ≡ OutOfMemory };

    fn from(_error: AllocFailed<T>) -> ArithError {
        ArithError::OutOfMemory
    }
}
