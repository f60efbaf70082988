//! Why a token isn't taken.

ghost use Rattle.std.specs.Prelude.{◌≡◌};

use std::alloc::{AllocError, AllocFailed};
use thiserror::Error;

/// Why a token can't stand where it is.
#[derive(Clone, Copy, PartialEq, Eq, Debug, Error)]
pub enum Fault {
    /// It is no token.
    #[error("no token")]
    NoToken,
    /// No program goes on with it.
    #[error("no program goes on with the token")]
    Misplaced,
    /// It nests too deep.
    #[error("nested too deep")]
    Nested,
    /// It is a constant above 2^63 - 1.
    #[error("a constant above 2^63 - 1")]
    Large,
}

/// Why a token wasn't taken.
#[derive(Debug, Drop, Error)]
pub enum Refusal {
    #[error("out of memory")]
    OutOfMemory,
    #[error("{0}")]
    Fault(Fault),
}

impl From<AllocError> for Refusal {
    ghost use Rattle.std.specs.Prelude.{◌≡◌};
    ghost use Rattle.arith_syntax.specs.declared.refusal.Refusal.TheVariants.{OutOfMemory};

    ghost from_gives = { λ _ e. e ≡ OutOfMemory };

    fn from(_error: AllocError) -> Refusal {
        Refusal::OutOfMemory
    }
}

impl<T: Drop> From<AllocFailed<T>> for Refusal {
    ghost use Rattle.std.specs.Prelude.{◌≡◌};
    ghost use Rattle.arith_syntax.specs.declared.refusal.Refusal.TheVariants.{OutOfMemory};

    ghost from_gives = { λ _ e. e ≡ OutOfMemory };

    fn from(_error: AllocFailed<T>) -> Refusal {
        Refusal::OutOfMemory
    }
}
