//! The messages of clients and engines whose content is read.

/// The types of message whose content is read, after their `msg_type`.
#[derive(Clone, Copy, Debug, PartialEq, Eq)]
pub enum RequestType {
    /// `connection_request`
    Connection,
    /// `queue_request`
    Queue,
    /// `result_request`
    Results,
    /// `history_request`
    History,
    /// `shutdown_request`
    Shutdown,
    /// `purge_request`
    Purge,
    /// `resubmit_request`
    Resubmit,
    /// `abort_request`
    Abort,
    /// `registration_request`
    Registration,
    /// `beat_reply`
    Beat,
}
