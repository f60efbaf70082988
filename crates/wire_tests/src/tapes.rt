//! Records that are read and written again, and one that is cut off.

use cluster_types::config::Channel;
use cluster_types::limits::LAST_MOMENT;
use edges::frames::Frames;
use std::alloc::Global;
use std::process::Abort;
use tape::reader::TapeReader;
use tape::reading::{TapeError, read_tape};
use tape::record::{TapeKind, TapeRecord};
use tape::writing::write_tape;

/// The bare connection 7 of an engine comes up at 1,700,000,000,000 ms, with the word 5 and the identity `c`.
const UP: &[u8; 25] =
    b"\x01\x00\x00\x01\x8b\xcf\xe5\x68\x00\x00\x00\x00\x00\x00\x00\x00\x05\x00\x00\x00\x07\x03\x01\x01c";

/// The frames `ab` and an empty one come on connection 7 a millisecond later, with the word 6.
const MESSAGE: &[u8; 32] =
    b"\x06\x00\x00\x01\x8b\xcf\xe5\x68\x01\x00\x00\x00\x00\x00\x00\x00\x06\x00\x00\x00\x07\x02\x00\x00\x00\x02ab\x00\x00\x00\x00";

/// The record UP and the first five octets of a round of heartbeats.
const CUT_OFF: &[u8; 30] =
    b"\x01\x00\x00\x01\x8b\xcf\xe5\x68\x00\x00\x00\x00\x00\x00\x00\x00\x05\x00\x00\x00\x07\x03\x01\x01c\x04\x00\x00\x01\x8b";

/// The octets of an Up, or of a message of two short frames; else none.
fn octets_of<R: Abort>(rt: &R, alloc: Global, item: &TapeRecord) -> Vec<u8> {
    let mut octets = Vec::new(alloc);
    if item.moment > LAST_MOMENT {
        return octets;
    }
    let _word = item.word;
    match &item.kind {
        TapeKind::Up { conn, identity, .. } => {
            let _conn = *conn;
            if identity.as_slice().len() < 256 {
                write_tape(&mut octets, item).expect(rt, "memory is ample");
            }
            octets
        }
        TapeKind::Message { conn, frames } => {
            let first = frames.get(0).expect(rt, "a frame");
            let second = frames.get(1).expect(rt, "a second frame");
            octets_of_two(rt, alloc, item.moment, item.word, *conn, first, second)
        }
        _ => octets,
    }
}

/// The octets of a message of two frames of fewer than 100 octets.
fn octets_of_two<R: Abort>(
    rt: &R,
    alloc: Global,
    moment: u64,
    word: u64,
    conn: u32,
    first: &[u8],
    second: &[u8],
) -> Vec<u8> {
    let mut octets = Vec::new(alloc);
    let mut frames = Frames::new(alloc);
    frames.push(first).expect(rt, "memory is ample");
    frames.push(second).expect(rt, "memory is ample");
    let kind = TapeKind::Message { conn, frames };
    let item = TapeRecord { moment, word, kind };
    if moment <= LAST_MOMENT && first.len() < 100 && second.len() < 100 {
        write_tape(&mut octets, &item).expect(rt, "memory is ample");
    }
    octets
}

/// The record at a place, and the place behind it.
fn record_at<R: Abort>(rt: &R, alloc: Global, octets: &[u8], at: usize) -> (TapeRecord, usize) {
    read_tape(alloc, octets, at).expect(rt, "a record")
}

/// Whether this is the record UP.
fn is_up(item: &TapeRecord) -> bool {
    match &item.kind {
        TapeKind::Up {
            conn,
            channel,
            bare,
            identity,
        } => {
            *conn == 7
                && *channel == Channel::Engine
                && *bare
                && identity.as_slice() == b"c".as_slice()
        }
        _ => false,
    }
}

#[test]
fn read_and_written_again(rt: HostRuntime) {
    let (up, next) = record_at(&rt, rt.alloc(), UP, 0);
    assert_eq!(rt; next, 25);
    assert_eq!(rt; (up.moment, up.word), (1_700_000_000_000, 5));
    let octets = octets_of(&rt, rt.alloc(), &up);
    assert_eq!(rt; octets.as_slice(), UP.as_slice());
    assert!(rt; is_up(&up));
    let (message, next) = record_at(&rt, rt.alloc(), MESSAGE, 0);
    assert_eq!(rt; next, 32);
    let octets = octets_of(&rt, rt.alloc(), &message);
    assert_eq!(rt; octets.as_slice(), MESSAGE.as_slice());
}

/// Why no record is read at a place, if none is.
fn error_at(alloc: Global, octets: &[u8], at: usize) -> Option<TapeError> {
    read_tape(alloc, octets, at).err()
}

/// How many records a reader gives that is fed this piece.
fn fed<R: Abort>(rt: &R, reader: &mut TapeReader, piece: &[u8]) -> usize {
    reader.feed(piece).expect(rt, "memory is ample").len()
}

#[test]
fn cut_off(rt: HostRuntime) {
    assert_eq!(rt; error_at(rt.alloc(), CUT_OFF, 25), Some(TapeError::BadTape));

    let mut reader = TapeReader::new(rt.alloc());
    assert_eq!(rt; fed(&rt, &mut reader, CUT_OFF), 1);
    assert_eq!(rt; reader.fault(), Some(25));

    let mut slow = TapeReader::new(rt.alloc());
    let mut count: usize = 0;
    for octet in CUT_OFF {
        count = count.saturating_add(fed(&rt, &mut slow, &[*octet]));
    }
    assert_eq!(rt; count, 1);
    assert_eq!(rt; slow.fault(), Some(25));
}
