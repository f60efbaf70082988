//! Greetings, frames and commands that are read and written.

use cluster_types::octets::Octets;
use std::alloc::Global;
use std::process::Abort;
use zmtp_frames::command::{Command, CommandError, read_command};
use zmtp_frames::fault::FrameFault;
use zmtp_frames::frame::{Fed, Frame};
use zmtp_frames::greeting::{greeting, read_greeting};
use zmtp_frames::reader::FrameReader;
use zmtp_frames::writing::{write_command, write_frame, write_ready};

/// A frame with MORE and the body `ab`, a command without a body, and a frame whose flags have a bit of no meaning.
const STREAM: &[u8; 15] = b"\x01\x02ab\x06\x00\x00\x00\x00\x00\x00\x00\x00\x08\x00";

/// The body of a READY as libzmq sends it from a DEALER with the identity `e`.
const DEALER: &[u8; 42] =
    b"\x05READY\x0bSocket-Type\x00\x00\x00\x06DEALER\x08Identity\x00\x00\x00\x01e";

/// The start of a greeting as libzmq sends it: a length in the padding, and version 3.1.
const LIBZMQ: &[u8; 12] = b"\xff\x00\x00\x00\x00\x00\x00\x00\x01\x7f\x03\x01";

/// The greeting that begins with LIBZMQ.
fn greeting_of_libzmq() -> [u8; 64] {
    let mut octets = greeting();
    for (place, octet) in LIBZMQ.iter().enumerate() {
        octets[place] = *octet;
    }
    octets
}

/// The frame with these octets written behind `x`.
fn frame_of<R: Abort>(rt: &R, alloc: Global, more: bool, body: &[u8]) -> Vec<u8> {
    let mut octets = Vec::from_slice(alloc, b"x").expect(rt, "memory is ample");
    write_frame(&mut octets, more, body).expect(rt, "memory is ample");
    octets
}

/// What a reader gives that is fed this piece.
fn fed<R: Abort>(rt: &R, reader: &mut FrameReader, piece: &[u8]) -> Fed {
    reader.feed(piece).expect(rt, "memory is ample")
}

/// The place of a frame, whether others follow it, and whether it is a command.
fn head_of(frame: &Frame) -> (u64, bool, bool) {
    (frame.at, frame.more, frame.command)
}

/// Whether this is a READY of this socket type, and has this identity, or none where it is None.
fn is_ready(command: &Command, socket_type: &[u8], identity: Option<&[u8]>) -> bool {
    match command {
        Command::Ready(props) => {
            props.socket_type.as_slice() == socket_type && is_identity(&props.identity, identity)
        }
        _ => false,
    }
}

fn is_identity(given: &Option<Octets>, identity: Option<&[u8]>) -> bool {
    match given {
        Some(given) => identity == Some(given.as_slice()),
        None => identity.is_none(),
    }
}

#[test]
fn greetings(rt: HostRuntime) {
    assert!(rt; read_greeting(&greeting()).is_ok() && read_greeting(&greeting_of_libzmq()).is_ok());
    for (place, octet, fault) in [
        (0, 0xfe, FrameFault::BadSignature(0)),
        (10, 2, FrameFault::BadVersion(10)),
        (16, b'X', FrameFault::BadMechanism(16)),
    ] {
        let mut wrong = greeting();
        if let Some(it) = wrong.get_mut(place) {
            *it = octet;
        }
        assert_eq!(rt; read_greeting(&wrong), Err(fault));
    }
}

#[test]
fn stream_in_one_piece(rt: HostRuntime) {
    let mut reader = FrameReader::new(rt.alloc());
    let fed = fed(&rt, &mut reader, STREAM);
    assert_eq!(rt; fed.frames.len(), 2);
    let first = fed.frames.get(0).expect(&rt, "a frame");
    assert_eq!(rt; head_of(first), (0, true, false));
    assert_eq!(rt; first.body.as_slice(), b"ab".as_slice());
    let second = fed.frames.get(1).expect(&rt, "a second frame");
    assert_eq!(rt; head_of(second), (4, false, true));
    assert_eq!(rt; fed.fault, Some(FrameFault::BadFlags(13)));
}

#[test]
fn stream_cut_at_every_octet(rt: HostRuntime) {
    let mut reader = FrameReader::from_place(rt.alloc(), 64);
    let mut count: usize = 0;
    for octet in STREAM {
        let fed = fed(&rt, &mut reader, &[*octet]);
        count = count.saturating_add(fed.frames.len());
    }
    assert!(rt; count == 2 && reader.fault() == Some(FrameFault::BadFlags(77)));
    let begun = reader.begun().expect(&rt, "a frame that is begun");
    assert_eq!(rt; (begun.at, begun.size), (77, None));
}

/// How many octets of a piece are of a body, but for its last one.
fn filled<R: Abort>(rt: &R, reader: &mut FrameReader, piece: &[u8]) -> usize {
    reader.fill(piece).expect(rt, "memory is ample")
}

#[test]
fn a_body_is_filled_but_for_its_last_octet(rt: HostRuntime) {
    let mut reader = FrameReader::new(rt.alloc());
    assert!(rt; filled(&rt, &mut reader, b"\x00\x03") == 0);
    let _ = fed(&rt, &mut reader, b"\x00\x03");
    assert!(rt; filled(&rt, &mut reader, b"abcde") == 2);
    assert!(rt; filled(&rt, &mut reader, b"cde") == 0);
    let frames = fed(&rt, &mut reader, b"c").frames;
    assert!(rt; frames.len() == 1 && frames.as_slice()[0].body.as_slice() == b"abc".as_slice());
}

#[test]
fn sizes(rt: HostRuntime) {
    for (last, fault) in [(0, None), (1, Some(FrameFault::FrameTooLong(0)))] {
        let mut reader = FrameReader::new(rt.alloc());
        let fed = fed(&rt, &mut reader, &[2, 0, 0, 0, 0, 1, 0, 0, last]);
        assert_eq!(rt; fed.fault, fault);
        if last == 0 {
            let begun = fed.begun.expect(&rt, "a frame that is begun");
            assert_eq!(rt; begun.size, Some(16_777_216));
        }
    }
}

#[test]
fn sizes_written(rt: HostRuntime) {
    for (count, more, front) in [
        (255, true, b"x\x01\xff".as_slice()),
        (
            256,
            false,
            b"x\x02\x00\x00\x00\x00\x00\x00\x01\x00".as_slice(),
        ),
    ] {
        let octets = frame_of(&rt, rt.alloc(), more, &[7; 256][..count]);
        assert!(rt; octets.len() == front.len().saturating_add(count) && octets.starts_with(front));
    }
}

/// The command that is read from a body.
fn command_in<R: Abort>(rt: &R, alloc: Global, body: &[u8]) -> Command {
    read_command(alloc, body).expect(rt, "a command")
}

/// Whether a body is one of a command that isn't well-formed.
fn is_bad(alloc: Global, body: &[u8]) -> bool {
    matches!(read_command(alloc, body), Err(CommandError::BadCommand))
}

/// The READY that a peer sends, as a frame.
fn own_ready<R: Abort>(rt: &R, alloc: Global) -> Vec<u8> {
    let mut octets = Vec::new(alloc);
    write_ready(&mut octets).expect(rt, "memory is ample");
    octets
}

/// Whether a body is one of a command of another name.
fn is_other(alloc: Global, body: &[u8]) -> bool {
    matches!(read_command(alloc, body), Ok(Command::Other))
}

#[test]
fn commands(rt: HostRuntime) {
    for text in [b"\x05READY".as_slice(), b"\x00".as_slice()] {
        assert!(rt; is_bad(rt.alloc(), text));
    }
    assert!(rt; is_other(rt.alloc(), b"\x04PING"));
    let dealer = command_in(&rt, rt.alloc(), DEALER);
    assert!(rt; is_ready(&dealer, b"DEALER", Some(b"e")));
}

#[test]
fn own_command(rt: HostRuntime) {
    let octets = own_ready(&rt, rt.alloc());
    assert_eq!(rt; octets.len(), 30);
    assert_eq!(rt; &octets[..2], b"\x04\x1c".as_slice());
    let own = command_in(&rt, rt.alloc(), &octets[2..]);
    assert!(rt; is_ready(&own, b"ROUTER", None));
}

#[test]
fn commands_written(rt: HostRuntime) {
    let mut octets = Vec::new(rt.alloc());
    write_command(&mut octets, b"\x05ERROR\x04busy").expect(&rt, "memory is ample");
    assert_eq!(rt; octets.as_slice(), b"\x04\x0b\x05ERROR\x04busy".as_slice());
}
