//! Ends of greetings and sessions.

ghost use Rattle.std.specs.Prelude.{◌≡◌};

use std::alloc::AllocError;
use zmtp_peer::fault::PeerFault;

/// How a greeting or a session ended.
#[derive(Clone, Copy, Debug, PartialEq, Eq)]
pub enum SessionEnd {
    /// The other side's stream was read to its end, and has no fault.
    Ended,
    /// The connection isn't live.
    Closed,
    /// A read or a write failed.
    LinkFault,
    /// The other side's stream has this fault. What stands before it was entered.
    ZmtpFault(PeerFault),
    /// The history may not grow by the next step: it would have so many entries, and octets of their records.
    HistoryFull { entries: u64, bytes: u64 },
    /// A call of the disk failed earlier: the database is to be opened again.
    Reopen,
    OutOfMemory,
}

impl From<AllocError> for SessionEnd {
    ghost use Rattle.std.specs.Prelude.{◌≡◌};
    ghost use Rattle.link_messages.specs.declared.end.SessionEnd.{SessionEnd};

    ghost from_gives = { λ _ e. e ≡ SessionEnd.OutOfMemory };

    fn from(_error: AllocError) -> SessionEnd {
        SessionEnd::OutOfMemory
    }
}
