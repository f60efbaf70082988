//! Sources and sinks over std's readers and writers.

ghost use Rattle.std.specs.Prelude.{◌≡◌, ◌<◌, length, None};
ghost use Rattle.edges.specs.Streams.{Reads, ReadCause, Writes, WriteCause};
ghost use Rattle.edges.specs.Devices.{GivesOf, TakesOf};

use crate::sink::{Put, Sink};
use crate::source::{Got, Source};
use std::io::{Read, Write};

/// A source over a reader. It doesn't tell what the reader has left.
#[derive(Drop)]
pub struct StdSource<R> {
    pub reader: R,
    pub faults: u64,
}

impl<R: Read> StdSource<R> {
    /// A source over this reader, which hasn't failed.
    pub fn new(reader: R) -> StdSource<R>
        ensures { result ≡ record { reader = reader; faults = 0 } }
    {
        StdSource { reader, faults: 0 }
    }
}

impl<R: Read> Source for StdSource<R> {
    ghost use Rattle.std.specs.Prelude.{None};

    ghost left = { λ _. None };

    ghost faults = { λ s. s.faults };

    fn read(&mut self, into: &mut [u8]) -> Got
        requires { 0 < length into.old }
        ensures reads { Reads result None None into.new }
        ensures cause { ReadCause result self.old.faults self.new.faults }
        ensures gives { GivesOf result (R.remaining self.old.reader) (R.remaining self.new.reader) into.new }
    {
        match self.reader.read(into) {
            Ok(0) => Got::End,
            Ok(n) => Got::Bytes(n),
            Err(_) => {
                self.faults = self.faults.saturating_add(1);
                Got::Failed
            }
        }
    }
}

/// A sink over a writer. It doesn't tell what the writer was given.
#[derive(Drop)]
pub struct StdSink<W> {
    pub writer: W,
    pub faults: u64,
}

impl<W: Write> StdSink<W> {
    /// A sink over this writer, which hasn't failed.
    pub fn new(writer: W) -> StdSink<W>
        ensures { result ≡ record { writer = writer; faults = 0 } }
    {
        StdSink { writer, faults: 0 }
    }
}

impl<W: Write> Sink for StdSink<W> {
    ghost use Rattle.std.specs.Prelude.{None};

    ghost written = { λ _. None };

    ghost faults = { λ s. s.faults };

    /// A writer that takes nothing counts as failed.
    fn write(&mut self, from: &[u8]) -> Put
        requires { 0 < length from.now }
        ensures writes { Writes result None None from.now }
        ensures cause { WriteCause result self.old.faults self.new.faults }
        ensures takes { TakesOf result (W.contents self.old.writer) (W.contents self.new.writer) from.now }
    {
        match self.writer.write(from) {
            Ok(n) if n > 0 => Put::Wrote(n),
            _ => {
                self.faults = self.faults.saturating_add(1);
                Put::Failed
            }
        }
    }
}
