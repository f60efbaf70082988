//! Why a standby doesn't follow.

use std::alloc::AllocError;
use task_journal::fault::AppendFault;
use thiserror::Error;

/// Why a standby doesn't have a primary's list.
#[derive(Clone, Copy, Debug, PartialEq, Eq, Error)]
pub enum FollowFault {
    /// The standby's list is no front of the primary's. This is the first place at which another entry stands, or at which
    /// the primary's list ends.
    #[error("the standby's list differs from the primary's at entry {place}")]
    Diverged { place: u64 },
    /// A call of the disk failed earlier: the standby is to be opened again.
    #[error("a call of the disk failed earlier")]
    Reopen,
    #[error("a call of the disk failed")]
    DiskFault,
    #[error("out of memory")]
    OutOfMemory,
}

impl From<AllocError> for FollowFault {
    ghost use Rattle.std.specs.Prelude.{◌≡◌};
    ghost use Rattle.journal_standby.specs.declared.fault.FollowFault.{FollowFault};

    ghost from_gives = { λ _ e. e ≡ FollowFault.OutOfMemory };

    fn from(_: AllocError) -> Self {
        FollowFault::OutOfMemory
    }
}
