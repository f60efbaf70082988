//! Why codes aren't made.

use std::alloc::AllocError;
use thiserror::Error;

/// Why codes aren't made. A name that is none is told before a code that is too long.
#[derive(Debug, Drop, Error)]
pub enum MapError {
    /// The name of the array, or that of its last element, is no name.
    #[error("no name of an array")]
    BadName,
    /// The first code of more than 65,536 octets, by its place, counted from 0.
    #[error("code {0} has more than 65536 octets")]
    TooLong(usize),
    /// There was no memory.
    #[error("out of memory")]
    OutOfMemory,
}

impl From<AllocError> for MapError {
    ghost use Rattle.std.specs.Prelude.{◌≡◌};
    ghost use Rattle.array_maps.specs.declared.error.MapError.{MapError};

    ghost from_gives = { λ _ e. e ≡ MapError.OutOfMemory };

    fn from(_: AllocError) -> Self {
        MapError::OutOfMemory
    }
}
