//! What a take of an out answers.

use cluster_types::out;

/// What a store has for a connection.
#[derive(Debug, Drop)]
pub enum Taken {
    /// The next out.
    Out(out::Out),
    /// None that may be handed out yet.
    NothingYet,
    /// None, and the connection isn't live.
    Closed,
}
