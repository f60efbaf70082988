//! What is noted of a task.

/// What is noted of a task that settled.
#[derive(Clone, Copy, Debug, PartialEq, Eq)]
pub struct Noted {
    /// Whether the task ran without an error.
    pub ok: bool,
    /// Its value, where it ran without an error and has one.
    pub value: Option<i64>,
}
