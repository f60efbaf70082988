//! Why a journal isn't opened, and why no batch is appended.

use disk_model::disk::Failed;
use std::alloc::AllocError;
use thiserror::Error;

/// Why a journal isn't read or opened.
#[derive(Clone, Copy, Debug, PartialEq, Eq, Error)]
pub enum OpenFault {
    /// The head differs from a journal's, first at this place.
    #[error("no head of a journal, from octet {0} on")]
    NotAJournal(u64),
    /// A gate, a batch or a record isn't whole, first at this place.
    #[error("the journal is damaged at octet {0}")]
    Damaged(u64),
    #[error("a call of the disk failed")]
    DiskFault,
    #[error("out of memory")]
    OutOfMemory,
}

impl From<AllocError> for OpenFault {
    ghost use Rattle.std.specs.Prelude.{◌≡◌};
    ghost use Rattle.task_journal.specs.declared.fault.OpenFault.{OpenFault};

    ghost from_gives = { λ _ e. e ≡ OpenFault.OutOfMemory };

    fn from(_: AllocError) -> Self {
        OpenFault::OutOfMemory
    }
}

impl From<Failed> for OpenFault {
    ghost use Rattle.std.specs.Prelude.{◌≡◌};
    ghost use Rattle.task_journal.specs.declared.fault.OpenFault.{OpenFault};

    ghost from_gives = { λ _ e. e ≡ OpenFault.DiskFault };

    fn from(_: Failed) -> Self {
        OpenFault::DiskFault
    }
}

/// Why a batch isn't appended.
#[derive(Clone, Copy, Debug, PartialEq, Eq, Error)]
pub enum AppendFault {
    #[error("a call of the disk failed")]
    DiskFault,
    /// A call of the disk failed earlier: the journal is to be opened again.
    #[error("a call of the disk failed earlier")]
    Reopen,
}

/// Why a batch isn't extended.
#[derive(Clone, Copy, Debug, PartialEq, Eq, Error)]
pub enum ExtendFault {
    /// All records together would have 2^32 octets or more.
    #[error("the records of a batch have too many octets")]
    TooLong,
    #[error("out of memory")]
    OutOfMemory,
}

impl From<AllocError> for ExtendFault {
    ghost use Rattle.std.specs.Prelude.{◌≡◌};
    ghost use Rattle.task_journal.specs.declared.fault.ExtendFault.{ExtendFault};

    ghost from_gives = { λ _ e. e ≡ ExtendFault.OutOfMemory };

    fn from(_: AllocError) -> Self {
        ExtendFault::OutOfMemory
    }
}
