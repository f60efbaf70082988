//! Phases of a peer's stream.

use crate::fault::PeerFault;
use cluster_types::octets::Octets;
use cluster_types::sequence::Sequence;
use edges::frames::Frames;

pub type FramesList = Sequence<Frames>;

/// How far a stream is.
#[derive(Clone, Copy, Debug, PartialEq, Eq)]
pub enum Phase {
    Greeting,
    Handshake,
    Traffic,
    Ended(PeerFault),
}

/// What a whole frame does: the phase behind it, octets to send, the identity and a message.
#[derive(Drop)]
pub struct Heard {
    pub phase: Phase,
    pub send: Octets,
    pub ready: Option<Octets>,
    pub message: Option<Frames>,
}

/// What an octet gives: octets to send, the identity, and the message that it ends.
#[derive(Drop)]
pub struct Gave {
    pub send: Octets,
    pub ready: Option<Octets>,
    pub message: Option<Frames>,
}

/// What a piece gives: octets to send, the identity in the feed that ends the handshake, the messages that it ends,
/// and the first fault of the stream.
#[derive(Drop)]
pub struct PeerFed {
    pub send: Octets,
    pub ready: Option<Octets>,
    pub messages: FramesList,
    pub fault: Option<PeerFault>,
}
