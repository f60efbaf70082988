//! Faults of a peer's stream.

use zmtp_frames::fault::FrameFault;

/// Why nothing more is read. The place is that of the flags octet of the frame, counted from the start of the stream.
#[derive(Clone, Copy, Debug, PartialEq, Eq)]
pub enum PeerFault {
    /// A fault of the greeting or of a frame, with its own place.
    Frame(FrameFault),
    /// In the handshake, a command that isn't read; later, a command inside a message.
    BadCommand(u64),
    /// READY of a socket type other than DEALER and ROUTER.
    BadSocketType(u64),
    /// The first frame is no command, or a command other than READY and ERROR.
    NoReady(u64),
    /// The first frame is an ERROR.
    PeerError(u64),
    /// The frame with which a message has more than 64 frames or 33,554,432 octets of bodies.
    MessageTooLong(u64),
}
