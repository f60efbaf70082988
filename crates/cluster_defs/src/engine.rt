//! Engines, and what their registrations come to.

use cluster_types::text::Text;

/// An engine that is live.
#[derive(Debug, Drop)]
pub struct Engine {
    /// Counted from 0 over the whole database; no number is given twice.
    pub number: u32,
    /// The connection that it joined on.
    pub conn: u32,
    pub uuid: Text,
    /// The greatest of the beats made before it joined and the beats that it echoed.
    pub mark: u64,
}

/// What a registration comes to.
#[derive(Clone, Copy, Debug, PartialEq, Eq)]
pub enum Joining {
    /// The connection's live engine has this uuid: it is answered with its number again.
    Repeat { engine: u32 },
    /// The connection has a live engine with another uuid.
    AlreadyJoined { engine: u32 },
    /// Another live engine has this uuid.
    UuidInUse { engine: u32 },
    /// The last number was given.
    UsedUp,
    /// It makes an engine.
    Accepted,
}
