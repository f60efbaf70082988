//! Records of each kind, spelled by another program from the table of kinds.

ghost use Rattle.record_codec.specs.Spelling.{IsWithinLimits};

use cluster_types::entry::{Entry, Input};
use cluster_types::shared_message::SharedMessage;
use record_codec::fault::RecordError;
use record_codec::reading::read_entry;
use record_codec::size::{entry_size, record_size};
use record_codec::writing::write_entry;
use std::alloc::Global;
use std::process::Abort;

/// The Open of an empty tape under the default options.
const OPEN: [u8; 18] = [
    0x01, 0x00, 0x00, 0x00, 0x00, 0x00, 0x00, 0x00, 0x00, 0x01, 0x00, 0x00, 0x00, 0x01, 0x00, 0x00,
    0x00, 0x0a,
];

/// The Up of connection 3 with the identity `e` on the port of direct requests, at the last moment and with the greatest word.
const UP: [u8; 24] = [
    0x02, 0x00, 0x00, 0x00, 0x03, 0x02, 0x00, 0x00, 0xe6, 0x77, 0xd2, 0x1f, 0xdb, 0xff, 0xff, 0xff,
    0xff, 0xff, 0xff, 0xff, 0xff, 0xff, 0x01, 0x65,
];

/// The Down of connection 3.
const DOWN: [u8; 21] = [
    0x03, 0x00, 0x00, 0x00, 0x03, 0x00, 0x00, 0x00, 0x00, 0x00, 0x00, 0x03, 0xe8, 0x00, 0x00, 0x00,
    0x00, 0x00, 0x00, 0x00, 0x07,
];

/// A message of connection 2 with two buffers.
const IN: [u8; 76] = [
    0x04, 0x00, 0x00, 0x00, 0x02, 0x00, 0x00, 0x00, 0x00, 0x00, 0x00, 0x00, 0x05, 0x00, 0x00, 0x00,
    0x00, 0x00, 0x00, 0x00, 0x06, 0x01, 0x65, 0x00, 0x00, 0x00, 0x02, 0x7b, 0x7d, 0x00, 0x00, 0x00,
    0x03, 0x7b, 0x20, 0x7d, 0x00, 0x00, 0x00, 0x07, 0x7b, 0x22, 0x61, 0x22, 0x3a, 0x31, 0x7d, 0x00,
    0x00, 0x00, 0x0e, 0x7b, 0x22, 0x63, 0x6f, 0x64, 0x65, 0x22, 0x3a, 0x22, 0x36, 0x2a, 0x37, 0x22,
    0x7d, 0x02, 0x00, 0x00, 0x00, 0x00, 0x00, 0x00, 0x00, 0x02, 0x78, 0x79,
];

/// A round of heartbeats.
const BEAT: [u8; 17] = [
    0x05, 0x00, 0x00, 0x00, 0x00, 0x00, 0x00, 0x00, 0x01, 0x00, 0x00, 0x00, 0x00, 0x00, 0x00, 0x00,
    0x02,
];

/// Time that passes.
const TIME: [u8; 17] = [
    0x06, 0x00, 0x00, 0x00, 0x00, 0x00, 0x00, 0x00, 0x03, 0x00, 0x00, 0x00, 0x00, 0x00, 0x00, 0x00,
    0x04,
];

/// `t1` is handed to engine 0.
const HAND: [u8; 8] = [0x07, 0x02, 0x74, 0x31, 0x00, 0x00, 0x00, 0x00];

/// A task is settled that waited past its timeout.
const SETTLE: [u8; 6] = [0x08, 0x02, 0xc3, 0xa9, 0x02, 0x04];

/// A task is settled that a client took back.
const ABORTED: [u8; 5] = [0x08, 0x01, 0x61, 0x03, 0x05];

/// The greatest engine number is lost.
const LOSE: [u8; 5] = [0x09, 0xff, 0xff, 0xff, 0xff];

/// The record between two octets before it and one behind it.
fn surrounded<R: Abort>(rt: &R, alloc: Global, octets: &[u8]) -> Vec<u8> {
    let mut read = Vec::from_slice(alloc, b"..").expect(rt, "memory is ample");
    read.extend_from_slice(octets).expect(rt, "memory is ample");
    read.push(0).expect(rt, "memory is ample");
    read
}

/// The entry that is read at the third octet, and the place behind its record.
fn entry_of<R: Abort>(rt: &R, alloc: Global, octets: &[u8]) -> (Entry, usize)
    ensures { IsWithinLimits result.0 }
{
    read_entry(alloc, octets, 2).expect(rt, "a record")
}

/// The octets that an entry is written with.
fn octets_of<R: Abort>(rt: &R, alloc: Global, entry: &Entry) -> Vec<u8>
    requires { IsWithinLimits entry.now }
{
    let mut written = Vec::new(alloc);
    write_entry(&mut written, entry).expect(rt, "memory is ample");
    written
}

/// Whether an entry is measured so.
fn is_size(entry: &Entry, size: u64) -> bool
    requires { IsWithinLimits entry.now }
{
    entry_size(entry) == size && record_size(entry) == size
}

/// Whether a record is read, measured and written again.
fn is_read_and_written<R: Abort>(rt: &R, alloc: Global, octets: &[u8]) -> bool {
    let read = surrounded(rt, alloc, octets);
    let (entry, next) = entry_of(rt, alloc, read.as_slice());
    let written = octets_of(rt, alloc, &entry);
    next == octets.len().saturating_add(2)
        && is_size(&entry, octets.len() as u64)
        && written.as_slice() == octets
}

/// The place where no record stands, if none does.
fn bad_record(alloc: Global, octets: &[u8], at: usize) -> Option<usize> {
    match read_entry(alloc, octets, at) {
        Err(RecordError::BadRecord(place)) => Some(place),
        Ok(_) | Err(RecordError::OutOfMemory) => None,
    }
}

#[test]
fn each_kind_is_read_and_written(rt: HostRuntime) {
    for octets in [
        OPEN.as_slice(),
        UP.as_slice(),
        DOWN.as_slice(),
        IN.as_slice(),
        BEAT.as_slice(),
        TIME.as_slice(),
        HAND.as_slice(),
        SETTLE.as_slice(),
        ABORTED.as_slice(),
        LOSE.as_slice(),
    ] {
        assert!(rt;
            is_read_and_written(&rt, rt.alloc(), octets),
            "at {octets:?}"
        );
    }
}

/// Whether this hands `t1` to engine 0.
fn is_hand(entry: &Entry) -> bool {
    match entry {
        Entry::Hand { id, engine } => id.as_str() == "t1" && *engine == 0,
        _ => false,
    }
}

/// Whether this is the message of IN.
fn is_message(message: &SharedMessage) -> bool {
    message.header() == b"{}".as_slice()
        && message.content() == b"{\"code\":\"6*7\"}".as_slice()
        && message.buffers().len() == 2
}

/// Whether this is the input of IN.
fn is_in(entry: &Entry) -> bool {
    match entry {
        Entry::Input(
            Input::In {
                conn,
                moment,
                word,
                message,
            },
        ) => *conn == 2 && *moment == 5 && *word == 6 && is_message(message),
        _ => false,
    }
}

#[test]
fn fields_are_in_their_places(rt: HostRuntime) {
    let (hand, next) = read_entry(rt.alloc(), &HAND, 0).expect(&rt, "a record");
    assert_eq!(rt; next, 8);
    assert!(rt; is_hand(&hand), "{hand:?}");
    let (input, next) = read_entry(rt.alloc(), &IN, 0).expect(&rt, "a record");
    assert_eq!(rt; next, 76);
    assert!(rt; is_in(&input), "{input:?}");
}

/// Octets at whose front no record stands: one that is cut short; then a kind, a moment, a scheme, an empty and a broken
/// id, a verdict and a cause that aren't listed.
const NONE: &[&[u8]] = &[
    &[7, 2, 0x74],
    &[10, 0, 0, 0, 0],
    &[
        5, 0, 0, 0xe6, 0x77, 0xd2, 0x1f, 0xdc, 0, 0, 0, 0, 0, 0, 0, 0, 0, 0,
    ],
    &[1, 0, 0, 0, 0, 0, 0, 0, 0, 4, 0, 0, 0, 1, 0, 0, 0, 10],
    &[7, 0, 0, 0, 0, 0],
    &[7, 1, 0xc3, 0, 0, 0, 0],
    &[8, 1, 0x74, 0, 0],
    &[8, 1, 0x74, 4, 5],
    &[8, 1, 0x74, 3, 6],
];

#[test]
fn no_record_stands(rt: HostRuntime) {
    let alloc = rt.alloc();
    for octets in NONE {
        assert_eq!(rt; bad_record(alloc, octets, 0), Some(0), "at {octets:?}");
    }
    for at in [8, 9] {
        assert_eq!(rt; bad_record(alloc, &HAND, at), Some(at));
    }
    for i in 0..IN.len() {
        assert_eq!(rt; bad_record(alloc, &IN[..i], 0), Some(0));
    }
    // a number of buffers that isn't listed
    let mut record = IN;
    record[65] = 59;
    assert_eq!(rt; bad_record(alloc, &record, 0), Some(0));
}
