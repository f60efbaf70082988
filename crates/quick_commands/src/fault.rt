//! Why work isn't done.

ghost use Rattle.std.specs.Prelude.{◌≡◌};

use cluster_core::size::HistorySize;
use std::alloc::AllocError;
use thiserror::Error;

/// Why work isn't done.
#[derive(Clone, Copy, Debug, PartialEq, Eq, Error)]
pub enum WorkError {
    /// The disk isn't empty, or holds no journal, at this place.
    #[error("the disk isn't empty")]
    NotEmpty(u64),
    /// A call of the disk failed.
    #[error("a call of the disk failed")]
    DiskFault,
    /// The next step would pass a limit. The history would have this size.
    #[error("the history is full")]
    HistoryFull(HistorySize),
    #[error("out of memory")]
    OutOfMemory,
}

impl From<AllocError> for WorkError {
    ghost use Rattle.std.specs.Prelude.{◌≡◌};
    ghost use Rattle.quick_commands.specs.declared.fault.WorkError.{WorkError};

    ghost from_gives = { λ _ e. e ≡ WorkError.OutOfMemory };

    fn from(_: AllocError) -> Self {
        WorkError::OutOfMemory
    }
}
