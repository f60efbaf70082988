//! The records of a tape.

use cluster_types::config::Channel;
use cluster_types::octets::Octets;
use cluster_types::sequence::Sequence;
use edges::frames::Frames;

/// A list of records, in the order in which they stand.
pub type TapeRecords = Sequence<TapeRecord>;

/// A record of a tape.
#[derive(Drop)]
pub struct TapeRecord {
    /// Milliseconds since 1970-01-01T00:00:00Z, from 0 to 253,402,300,799,999.
    pub moment: u64,
    /// What random choices draw from.
    pub word: u64,
    pub kind: TapeKind,
}

/// What a record tells.
#[derive(Drop)]
pub enum TapeKind {
    /// A connection comes up: a bare one, or one that speaks ZMTP.
    Up {
        conn: u32,
        channel: Channel,
        bare: bool,
        /// At most 255 octets.
        identity: Octets,
    },
    /// Octets of a connection that speaks ZMTP.
    Piece {
        conn: u32,
        octets: Octets,
    },
    /// A connection goes down.
    Down {
        conn: u32,
    },
    /// A round of heartbeats.
    Beat,
    /// Time passes.
    Time,
    /// The 1 to 64 frames of a message on a bare connection.
    Message {
        conn: u32,
        frames: Frames,
    },
}
