//! Why a text is no job.

use std::alloc::AllocError;
use thiserror::Error;

/// Why a text is no job. Lines are numbered from 1, and the first one at fault is named.
#[derive(Debug, Drop, Error)]
pub enum JobError {
    /// A line that isn't empty and isn't formed as the line of a task is.
    #[error("line {0} isn't formed as a task")]
    BadLine(usize),
    /// A line whose task has the name of an earlier one.
    #[error("line {0} has the name of an earlier task")]
    DuplicateName(usize),
    /// A line that lists a name that no earlier task has.
    #[error("line {0} lists a name that no earlier task has")]
    UnknownName(usize),
    /// No line has a task.
    #[error("there is no task")]
    Empty,
    /// There are more than 4,096 tasks.
    #[error("there are more than 4,096 tasks")]
    TooMany,
    /// There was no memory.
    #[error("out of memory")]
    OutOfMemory,
}

impl From<AllocError> for JobError {
    ghost use Rattle.std.specs.Prelude.{◌≡◌};
    ghost use Rattle.job_graph.specs.declared.error.JobError.{JobError};

    ghost from_gives = { λ _ e. e ≡ JobError.OutOfMemory };

    fn from(_: AllocError) -> Self {
        JobError::OutOfMemory
    }
}
