//! Known dates, frames, and streams that fail half-way.

use crate::common::is_frame;
use edges::date::{Moment, date_text};
use edges::frames::Frames;
use edges::memory::{MemSink, MemSource, SureSink, SureSource};
use edges::sink::{Put, Sink, write_all};
use edges::source::{Got, ReadAllError, Source, read_all};
use edges::standard::{StdSink, StdSource};
use std::alloc::Global;
use std::collections::VecDeque;
use std::io::{self, ErrorKind, Read, Write};

/// A device that fails at every call.
#[derive(Drop)]
struct Broken;

impl Read for Broken {
    fn read(&mut self, _: &mut [u8]) -> io::Result<usize> {
        Err(io::Error::from(ErrorKind::Other))
    }
}

/// A device that takes nothing.
#[derive(Drop)]
struct Full;

impl Write for Full {
    fn write(&mut self, _: &[u8]) -> io::Result<usize> {
        Ok(0)
    }

    fn flush(&mut self) -> io::Result<()> {
        Ok(())
    }
}

#[test]
fn dates(rt: HostRuntime) {
    let rows = [
        (0, "1970-01-01T00:00:00.000Z"),
        (946_684_799_999, "1999-12-31T23:59:59.999Z"),
        (951_782_400_000, "2000-02-29T00:00:00.000Z"),
        (1_700_000_000_000, "2023-11-14T22:13:20.000Z"),
        (253_402_300_799_999, "9999-12-31T23:59:59.999Z"),
    ];
    for (millis, want) in rows {
        let text = date_text(rt.alloc(), Moment { millis }).expect(&rt, "memory is ample");
        assert_eq!(rt; text.as_str(), want);
    }
}

#[test]
fn frames(rt: HostRuntime) {
    let mut frames = Frames::new(rt.alloc());
    assert!(rt; frames.is_empty());
    frames.push(b"one").expect(&rt, "memory is ample");
    frames.push(b"").expect(&rt, "memory is ample");
    assert_eq!(rt; frames.len(), 2);
    assert!(rt; is_frame(&frames, 0, b"one"));
    assert!(rt; is_frame(&frames, 1, b""));
    assert!(rt; frames.get(2).is_none());
}

/// Whether the next read, of at most three octets, ends so and begins with these.
fn reads(source: &mut MemSource, want: Got, octets: &[u8]) -> bool {
    let mut piece = [0u8; 3];
    source.read(&mut piece) == want && piece.starts_with(octets)
}

/// Whether a read to the end fails.
fn is_broken(alloc: Global, source: &mut MemSource) -> bool {
    matches!(read_all(alloc, source), Err(ReadAllError::Failed))
}

#[test]
fn sources_in_memory(rt: HostRuntime) {
    let mut source = MemSource::new(rt.alloc(), b"abcde", &[2, 4]).expect(&rt, "memory is ample");
    for (want, octets) in [
        (Got::Bytes(3), b"abc".as_slice()),
        (Got::Failed, b"".as_slice()),
        (Got::Bytes(2), b"de".as_slice()),
    ] {
        assert!(rt; reads(&mut source, want, octets), "at {octets:?}");
    }
    assert!(rt; is_broken(rt.alloc(), &mut source));
    assert!(rt; reads(&mut source, Got::End, b""));
}

/// Whether all of these octets can be written.
fn writes(sink: &mut MemSink, octets: &[u8]) -> bool {
    write_all(sink, octets).is_ok()
}

#[test]
fn sinks_in_memory(rt: HostRuntime) {
    let mut sink = MemSink::new(rt.alloc(), &[2]).expect(&rt, "memory is ample");
    assert_eq!(rt; sink.write(b"ab"), Put::Wrote(2));
    assert!(rt; !writes(&mut sink, b"cd"));
    assert!(rt; writes(&mut sink, b"ef"));
    assert_eq!(rt; sink.written(), b"abef".as_slice());
}

#[test]
fn sure_streams(rt: HostRuntime) {
    let mut source = SureSource::new(rt.alloc(), b"abc").expect(&rt, "memory is ample");
    let mut sink = SureSink::new(rt.alloc());
    let octets = read_all(rt.alloc(), &mut source).expect(&rt, "memory is ample");
    assert!(rt; write_all(&mut sink, &octets).is_ok());
    assert_eq!(rt; sink.written(), b"abc".as_slice());
}

#[test]
fn streams_of_devices(rt: HostRuntime) {
    let mut sink = StdSink::new(VecDeque::new(rt.alloc()));
    assert!(rt; write_all(&mut sink, b"abc").is_ok());
    let mut source = StdSource::new(sink.writer);
    let octets = read_all(rt.alloc(), &mut source).expect(&rt, "memory is ample");
    assert_eq!(rt; octets.as_slice(), b"abc".as_slice());
    assert_eq!(rt; source.faults, 0);
}

#[test]
fn devices_that_fail(rt: HostRuntime) {
    let mut source = StdSource::new(Broken);
    assert_eq!(rt; source.read(&mut [0u8; 4]), Got::Failed);
    assert_eq!(rt; source.faults, 1);
    let mut sink = StdSink::new(Full);
    assert_eq!(rt; sink.write(b"abc"), Put::Failed);
    assert_eq!(rt; sink.faults, 1);
}
