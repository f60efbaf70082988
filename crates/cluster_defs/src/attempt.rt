//! Attempts to run a task.

/// The last attempt of a task, with its engine and how it ended.
#[derive(Clone, Copy, Debug, PartialEq, Eq)]
pub enum Attempt {
    /// The task was not handed out yet.
    Never,
    Running { engine: u32 },
    /// It ended by an ok reply.
    EndedOk { engine: u32 },
    /// It ended by an error reply.
    EndedBadly { engine: u32 },
    /// It ended with its engine, or by an Open.
    Lost { engine: u32 },
    /// The engine declined it.
    Declined { engine: u32 },
    /// A client took the task back. The engine is that of the last attempt before, where there was one.
    Withdrawn { engine: Option<u32> },
}

/// How a valid reply ends an attempt.
#[derive(Clone, Copy, Debug, PartialEq, Eq)]
pub enum Ending {
    Well,
    Badly,
    Declines,
}
