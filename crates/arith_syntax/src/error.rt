//! Why a text has no program.

use std::alloc::{AllocError, AllocFailed};
use thiserror::Error;

/// Why a text has no program. A place is that of the first octet of the token at fault, counted from 0; at the end of
/// the text it is its length. The first fault in reading order is answered.
#[derive(Debug, Drop, Error)]
pub enum SyntaxError {
    /// Octets that begin no token, a constant that is none, or a name of more than 255 octets.
    #[error("no token begins at octet {0}")]
    BadToken(usize),
    /// A token that no program goes on with, or the end of an unfinished one.
    #[error("no program goes on so at octet {0}")]
    BadSyntax(usize),
    /// A parenthesis, unary operator, `?` or assignment operator inside 64 open ones.
    #[error("nested too deep at octet {0}")]
    TooDeep(usize),
    /// A constant above 2^63 - 1.
    #[error("a constant above 2^63 - 1 at octet {0}")]
    ConstantTooLarge(usize),
    /// A text of more than 65,536 octets.
    #[error("a text of more than 65536 octets")]
    TooLong,
    #[error("out of memory")]
    OutOfMemory,
}

impl From<AllocError> for SyntaxError {
    ghost use Rattle.std.specs.Prelude.{◌≡◌};
    ghost use Rattle.arith_syntax.specs.declared.error.SyntaxError.TheVariants.{OutOfMemory};

    ghost from_gives = { λ _ e. e ≡ OutOfMemory };

    fn from(_error: AllocError) -> SyntaxError {
        SyntaxError::OutOfMemory
    }
}

impl<T: Drop> From<AllocFailed<T>> for SyntaxError {
    ghost use Rattle.std.specs.Prelude.{◌≡◌};
    ghost use Rattle.arith_syntax.specs.declared.error.SyntaxError.TheVariants.{OutOfMemory};

    ghost from_gives = { λ _ e. e ≡ OutOfMemory };

    fn from(_error: AllocFailed<T>) -> SyntaxError {
        SyntaxError::OutOfMemory
    }
}
