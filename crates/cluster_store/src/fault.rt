//! Why a store takes no step.

use cluster_core::plan::PlanError;
use std::alloc::AllocError;
use task_journal::fault::ExtendFault;
use thiserror::Error;

/// Why a step isn't taken.
#[derive(Clone, Copy, Debug, PartialEq, Eq, Error)]
pub enum StepError {
    /// A call of the disk failed earlier: the store is to be opened again.
    #[error("a call of the disk failed earlier")]
    Reopen,
    /// With the step there would be so many entries, and octets of their records, since the last Open and its decisions.
    #[error("the history is full: it would have {entries} entries and {bytes} octets of records")]
    HistoryFull { entries: u64, bytes: u64 },
    /// What is kept since the last flush would have 2^32 octets of records or more with the step: a flush makes room.
    #[error("what is kept since the last flush has too many octets")]
    BatchFull,
    #[error("out of memory")]
    OutOfMemory,
}

/// Why a step isn't served.
#[derive(Clone, Copy, Debug, PartialEq, Eq, Error)]
pub enum ServeError {
    /// It isn't taken.
    #[error("{0}")]
    Step(StepError),
    /// It is taken, and a call of the disk failed while what is kept of it was written: the disk may have it or not, and
    /// the store is to be opened again. What it sends is let go.
    #[error("a call of the disk failed")]
    DiskFault,
}

impl From<AllocError> for StepError {
    ghost use Rattle.std.specs.Prelude.{◌≡◌};
    ghost use Rattle.cluster_store.specs.declared.fault.StepError.{StepError};

    ghost from_gives = { λ _ e. e ≡ StepError.OutOfMemory };

    fn from(_: AllocError) -> Self {
        StepError::OutOfMemory
    }
}

impl From<PlanError> for StepError {
    ghost use Rattle.std.specs.Prelude.{◌≡◌};
    ghost use Rattle.cluster_store.specs.Stores.{of_plan};

    ghost from_gives = { λ p e. e ≡ of_plan p };

    fn from(error: PlanError) -> Self {
        match error {
            PlanError::HistoryFull { entries, bytes } => StepError::HistoryFull { entries, bytes },
            PlanError::OutOfMemory => StepError::OutOfMemory,
        }
    }
}

impl From<ExtendFault> for StepError {
    ghost use Rattle.std.specs.Prelude.{◌≡◌};
    ghost use Rattle.cluster_store.specs.Stores.{of_batch};

    ghost from_gives = { λ f e. e ≡ of_batch f };

    fn from(error: ExtendFault) -> Self {
        match error {
            ExtendFault::TooLong => StepError::BatchFull,
            ExtendFault::OutOfMemory => StepError::OutOfMemory,
        }
    }
}
