//! Why a call of a desk takes no step.

use std::alloc::AllocError;
use thiserror::Error;

/// Why no step is taken.
#[derive(Clone, Copy, Debug, PartialEq, Eq, Error)]
pub enum ActError {
    /// A connection would come up while 1,024 are live.
    #[error("1024 connections are live")]
    TooManyConnections,
    /// A call of the disk failed earlier: the store is to be opened again.
    #[error("a call of the disk failed earlier")]
    Reopen,
    /// With the step there would be so many entries, and octets of their records, since the last Open and its decisions.
    #[error("the history is full: it would have {entries} entries and {bytes} octets of records")]
    HistoryFull { entries: u64, bytes: u64 },
    #[error("out of memory")]
    OutOfMemory,
}

impl From<AllocError> for ActError {
    ghost use Rattle.std.specs.Prelude.{◌≡◌};
    ghost use Rattle.controller_desk.specs.declared.fault.ActError.{ActError};

    ghost from_gives = { λ _ e. e ≡ ActError.OutOfMemory };

    fn from(_: AllocError) -> Self {
        ActError::OutOfMemory
    }
}
