//! Fields of each kind.

use cluster_types::config::Channel;
use edges::difference::difference_of;
use edges::reading::{blob, channel, front, number32, number64, octet, str8};
use edges::stop::Stop;
use edges::writing::{put_blob, put_channel, put_number32, put_number64, put_str8};
use std::alloc::Global;
use std::process::Abort;

/// A number of four octets, one of eight, three octets behind a length of one, three behind a length of four, and the
/// code of an engine's channel.
const FIELDS: &[u8] = b"\x01\x02\x03\x04\x05\x06\x07\x08\x09\x0a\x0b\x0c\x03abc\0\0\0\x03def\x03";

/// The same fields as they are written.
fn written<R: Abort>(rt: &R, alloc: Global) -> Vec<u8> {
    let mut octets = Vec::new(alloc);
    put_number32(&mut octets, 0x0102_0304).expect(rt, "memory is ample");
    put_number64(&mut octets, 0x0506_0708_090a_0b0c).expect(rt, "memory is ample");
    put_str8(&mut octets, b"abc").expect(rt, "memory is ample");
    put_blob(&mut octets, b"def").expect(rt, "memory is ample");
    put_channel(&mut octets, Channel::Engine).expect(rt, "memory is ample");
    octets
}

/// Whether the fields are read one after another, and nothing is left.
fn are_read<R: Abort>(rt: &R, octets: &[u8]) -> bool {
    let (first, octets) = number32(octets).expect(rt, "a field");
    let (second, octets) = number64(octets).expect(rt, "a field");
    let (third, octets) = str8(octets).expect(rt, "a field");
    let (fourth, octets) = blob(octets).expect(rt, "a field");
    let (last, octets) = channel(octets).expect(rt, "a field");
    let numbers = first == 0x0102_0304 && second == 0x0506_0708_090a_0b0c;
    numbers
        && third == b"abc".as_slice()
        && fourth == b"def".as_slice()
        && last == Channel::Engine
        && octets.is_empty()
}

#[test]
fn fields_are_written_and_read(rt: HostRuntime) {
    let octets = written(&rt, rt.alloc());
    assert!(rt; octets.as_slice() == FIELDS && are_read(&rt, FIELDS));
}

#[test]
fn what_is_missing_is_told(rt: HostRuntime) {
    assert!(rt; octet(b"").err() == Some(Stop::Short(1)));
    assert!(rt; number64(b"abc").err() == Some(Stop::Short(5)));
    assert!(rt; front(2, b"abc") == Ok((b"ab".as_slice(), b"c".as_slice())));
    assert!(rt; blob(b"\0\0\0\x02a").err() == Some(Stop::Short(1)));
    assert!(rt; channel(b"\x04").err() == Some(Stop::Bad));
}

#[test]
fn the_first_difference_is_found(rt: HostRuntime) {
    assert!(rt; difference_of(12, b"NULL", b"NUMBER") == Some(14));
    assert!(rt; difference_of(12, b"NULL", b"NULL\0").is_none());
}
