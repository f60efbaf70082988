//! How tasks are settled.

use cluster_types::verdict::{Cause, Verdict};

/// How a task was settled.
#[derive(Clone, Copy, Debug, PartialEq, Eq)]
pub struct Settled {
    pub verdict: Verdict,
    pub cause: Cause,
    /// The engine of the last attempt, where there was one.
    pub engine: Option<u32>,
    /// The moment of the last input before, in milliseconds.
    pub moment: u64,
}
