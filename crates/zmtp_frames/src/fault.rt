//! Faults of a stream of frames.

/// Why a greeting or a frame is refused, with its place in the stream, counted in octets from 0.
#[derive(Clone, Copy, Debug, PartialEq, Eq)]
pub enum FrameFault {
    /// The first wrong octet of the two that aren't padding, 0 and 9.
    BadSignature(u64),
    /// The major version, octet 10, is below 3.
    BadVersion(u64),
    /// The first wrong octet of the mechanism, 12 to 31: it isn't NULL.
    BadMechanism(u64),
    /// A flags octet with a bit other than MORE, LONG and COMMAND, or COMMAND with MORE.
    BadFlags(u64),
    /// The flags octet of a frame with a size above 16,777,216.
    FrameTooLong(u64),
}
