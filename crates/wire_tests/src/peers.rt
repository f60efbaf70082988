//! Streams of peers, and what is written to them.

use cluster_types::octets::Octets;
use edges::frames::Frames;
use std::alloc::Global;
use std::process::Abort;
use zmtp_frames::fault::FrameFault;
use zmtp_peer::fault::PeerFault;
use zmtp_peer::peer::Peer;
use zmtp_peer::phase::{FramesList, PeerFed};
use zmtp_peer::writing::{error_octets, message_octets};

/// A greeting as libzmq sends it: a length in the padding, and version 3.1.
const GREETING: &[u8; 64] =
    b"\xff\0\0\0\0\0\0\0\x01\x7f\x03\x01NULL\0\0\0\0\0\0\0\0\0\0\0\0\0\0\0\0\0\0\0\0\0\0\0\0\0\0\0\0\0\0\0\0\0\0\0\0\0\0\0\0\0\0\0\0\0\0\0\0";

/// The READY of a DEALER with the identity `e`.
const DEALER: &[u8; 44] =
    b"\x04\x2a\x05READY\x0bSocket-Type\x00\x00\x00\x06DEALER\x08Identity\x00\x00\x00\x01e";

/// The READY of a REQ.
const REQ: &[u8; 27] = b"\x04\x19\x05READY\x0bSocket-Type\x00\x00\x00\x03REQ";

/// A READY as a ROUTER sends it.
const ROUTER: &[u8; 30] = b"\x04\x1c\x05READY\x0bSocket-Type\x00\x00\x00\x06ROUTER";

/// The message of the frames `ab` and an empty one, and the flags of a command inside another message.
const TRAFFIC: &[u8; 9] = b"\x01\x02ab\x00\x00\x01\x00\x04";

/// A frame of 16,777,216 octets, up to its body, with MORE.
const LONGEST: &[u8; 9] = b"\x03\x00\x00\x00\x00\x01\x00\x00\x00";

/// The octets of a connection.
fn connection<R: Abort>(rt: &R, alloc: Global, ready: &[u8], traffic: &[u8]) -> Vec<u8> {
    let mut octets = Vec::from_slice(alloc, GREETING).expect(rt, "memory is ample");
    octets
        .extend_from_slice(ready)
        .expect(rt, "memory is ample");
    octets
        .extend_from_slice(traffic)
        .expect(rt, "memory is ample");
    octets
}

/// What a peer gives that is fed this piece.
fn fed<R: Abort>(rt: &R, peer: &mut Peer, piece: &[u8]) -> PeerFed {
    peer.feed(piece).expect(rt, "memory is ample")
}

/// What a new peer gives that is fed these octets.
fn fed_all<R: Abort>(rt: &R, alloc: Global, octets: &[u8]) -> PeerFed {
    let mut peer = Peer::new(alloc);
    fed(rt, &mut peer, octets)
}

/// Whether these messages are the one of `ab` and an empty frame.
fn is_ab(messages: &FramesList) -> bool {
    match messages.get(0) {
        Some(message) => {
            messages.len() == 1
                && message.len() == 2
                && message.get(0) == Some(b"ab".as_slice())
                && message.get(1) == Some(b"".as_slice())
        }
        None => false,
    }
}

/// Whether this is the identity that is given.
fn is_identity(ready: &Option<Octets>, identity: &[u8]) -> bool {
    match ready {
        Some(found) => found.as_slice() == identity,
        None => false,
    }
}

#[test]
fn in_one_piece(rt: HostRuntime) {
    let octets = connection(&rt, rt.alloc(), DEALER, TRAFFIC);
    let fed = fed_all(&rt, rt.alloc(), octets.as_slice());
    assert_eq!(rt; fed.send.as_slice(), ROUTER.as_slice());
    assert!(rt; is_identity(&fed.ready, b"e"));
    assert!(rt; is_ab(&fed.messages));
    assert_eq!(rt; fed.fault, Some(PeerFault::BadCommand(116)));
}

#[test]
fn cut_at_every_octet(rt: HostRuntime) {
    let octets = connection(&rt, rt.alloc(), DEALER, TRAFFIC);
    let mut peer = Peer::new(rt.alloc());
    let mut send = Vec::new(rt.alloc());
    let mut ready = 0u8;
    let mut count: usize = 0;
    for octet in octets.as_slice() {
        let fed = fed(&rt, &mut peer, &[*octet]);
        send.extend_from_slice(fed.send.as_slice())
            .expect(&rt, "memory is ample");
        if fed.ready.is_some() {
            ready = ready.saturating_add(1);
        }
        count = count.saturating_add(fed.messages.len());
    }
    assert_eq!(rt; send.as_slice(), ROUTER.as_slice());
    assert_eq!(rt; (ready, count), (1, 1));
    assert_eq!(rt; peer.fault(), Some(PeerFault::BadCommand(116)));
}

#[test]
fn handshakes(rt: HostRuntime) {
    let alloc = rt.alloc();
    for (behind, fault) in [
        (b"\x00".as_slice(), PeerFault::NoReady(64)),
        (
            b"\x08".as_slice(),
            PeerFault::Frame(FrameFault::BadFlags(64)),
        ),
        (b"\x04\x05\x04PING".as_slice(), PeerFault::NoReady(64)),
        (b"\x04\x06\x05READY".as_slice(), PeerFault::BadCommand(64)),
        (
            b"\x04\x0b\x05ERROR\x04busy".as_slice(),
            PeerFault::PeerError(64),
        ),
    ] {
        let octets = connection(&rt, alloc, behind, b"");
        assert_eq!(rt; fed_all(&rt, alloc, octets.as_slice()).fault, Some(fault));
    }
}

#[test]
fn handshake_of_another_socket(rt: HostRuntime) {
    let octets = connection(&rt, rt.alloc(), REQ, b"");
    let fed = fed_all(&rt, rt.alloc(), octets.as_slice());
    assert!(rt; fed.fault == Some(PeerFault::BadSocketType(64)) && fed.ready.is_none());
    assert_eq!(rt;
        fed.send.as_slice().get(30..),
        Some(b"\x04\x12\x05ERROR\x0bSocket-Type".as_slice())
    );
}

#[test]
fn greetings(rt: HostRuntime) {
    let own = Peer::new(rt.alloc()).greeting();
    assert_eq!(rt;
        &own[..32],
        b"\xff\0\0\0\0\0\0\0\0\x7f\x03\0NULL\0\0\0\0\0\0\0\0\0\0\0\0\0\0\0\0".as_slice()
    );
    let mut greeting = *GREETING;
    greeting[9] = 0x7e;
    let fed = fed_all(&rt, rt.alloc(), &greeting);
    assert_eq!(rt;
        fed.fault,
        Some(PeerFault::Frame(FrameFault::BadSignature(9)))
    );
    assert!(rt; fed.send.as_slice().is_empty());
}

#[test]
fn octets_of_a_message(rt: HostRuntime) {
    let mut peer = Peer::new(rt.alloc());
    let ready = connection(&rt, rt.alloc(), ROUTER, b"");
    let body = [7u8; 65_536];
    for (piece, times, fault) in [
        (ready.as_slice(), 1, None),
        (LONGEST.as_slice(), 1, None),
        (body.as_slice(), 256, None),
        (LONGEST.as_slice(), 1, None),
        (body.as_slice(), 256, None),
        (b"\x01\x00".as_slice(), 1, None),
        (
            b"\x00\x01".as_slice(),
            1,
            Some(PeerFault::MessageTooLong(33_554_546)),
        ),
    ] {
        for _ in 0..times {
            let _ = fed(&rt, &mut peer, piece);
        }
        assert_eq!(rt; peer.fault(), fault);
    }
}

#[test]
fn written(rt: HostRuntime) {
    let alloc = rt.alloc();
    let mut frames = Frames::new(alloc);
    frames.push(b"ab").expect(&rt, "memory is ample");
    frames.push(b"").expect(&rt, "memory is ample");
    let message = message_octets(alloc, &frames).expect(&rt, "memory is ample");
    assert_eq!(rt; message.as_slice(), b"\x01\x02ab\x00\x00".as_slice());
    let error = error_octets(alloc, "busy").expect(&rt, "memory is ample");
    assert_eq!(rt; error.as_slice(), b"\x04\x0b\x05ERROR\x04busy".as_slice());
}
