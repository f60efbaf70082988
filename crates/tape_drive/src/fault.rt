//! Why a tape isn't served further.

use std::alloc::AllocError;
use thiserror::Error;

/// Why a record isn't served whole.
#[derive(Clone, Copy, Debug, PartialEq, Eq, Error)]
pub enum DriveError {
    /// A call of the disk failed earlier: the drive is to be begun again.
    #[error("a call of the disk failed earlier")]
    Reopen,
    /// A call of the disk failed while what is kept of a step was written.
    #[error("a call of the disk failed")]
    DiskFault,
    #[error("out of memory")]
    OutOfMemory,
}

impl From<AllocError> for DriveError {
    ghost use Rattle.std.specs.Prelude.{◌≡◌};
    ghost use Rattle.tape_drive.specs.declared.fault.DriveError.{DriveError};

    ghost from_gives = { λ _ e. e ≡ DriveError.OutOfMemory };

    fn from(_: AllocError) -> Self {
        DriveError::OutOfMemory
    }
}
