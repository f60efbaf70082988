//! What the submission of a task comes to.

/// The first case that fits a submission, in this order.
#[derive(Clone, Copy, Debug, PartialEq, Eq)]
pub enum Acceptance {
    /// The id begins with `resubmit:`.
    Reserved,
    /// The id is purged.
    Purged,
    /// The id is known: either all of the request is as it was, or it is refused.
    Again { repeat: bool },
    /// It is a request to an engine, and no live engine has its target as uuid.
    NoSuchEngine,
    /// As many ids are known as there may be.
    Full,
    /// It makes a task.
    Accepted,
}
