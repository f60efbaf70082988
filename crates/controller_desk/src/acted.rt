//! What becomes of a message.

use cluster_types::event::Reason;

/// What became of a message on a connection.
#[derive(Clone, Copy, Debug, PartialEq, Eq)]
pub enum Acted {
    /// It is entered, with all decisions that were then due.
    Entered,
    /// It means nothing on the channel of its connection.
    Junk(Reason),
    /// Its connection isn't live.
    Gone,
}
