//! Ends of a session.

ghost use Rattle.std.specs.Prelude.{◌≡◌};

use std::alloc::AllocError;
use zmtp_peer::fault::PeerFault;

/// How a session ended.
#[derive(Clone, Copy, Debug, PartialEq, Eq)]
pub enum DialledEnd {
    /// The controller's stream was read to its end.
    Ended,
    /// A read or a write failed.
    LinkFault,
    /// The stream has this fault. What stands before it was answered.
    ZmtpFault(PeerFault),
    OutOfMemory,
}

impl From<AllocError> for DialledEnd {
    ghost use Rattle.std.specs.Prelude.{◌≡◌};
    ghost use Rattle.link_commands.specs.declared.end.DialledEnd.{DialledEnd};

    ghost from_gives = { λ _ e. e ≡ DialledEnd.OutOfMemory };

    fn from(_error: AllocError) -> DialledEnd {
        DialledEnd::OutOfMemory
    }
}
