//! Sources and sinks in memory. Some of them fail at the calls of a list, so that faults can be tried.

ghost use Rattle.std.specs.Prelude.{◌≡◌, ◌↔◌, ◌<◌, ◌++◌, [], List, ℕ, length, Option, Some, None, IfOk, take, drop, min, true};
ghost use Rattle.edges.specs.Streams.{Reads, ReadCause, Writes, WriteCause};
ghost use Rattle.edges.specs.Memory.{counted, fails_next, is_listed, faults_after, put_faults, TakesAll, fails_next_write};

use crate::sink::{Put, Sink};
use crate::source::{Got, Source};
use std::alloc::{AllocError, Global};
use std::marker::Model;

/// Copies as much as fits, and says how much.
fn copy_front(from: &[u8], into: &mut [u8]) -> usize
    ensures count { result ≡ min (length from.now) (length into.old) }
    ensures copied { take result into.new ≡ take result from.now }
{
    let n = from.len().min(into.len());
    into[..n].copy_from_slice(&from[..n]);
    n
}

/// Counts a call, and says whether its number is listed.
fn is_call_listed(calls: &mut u64, failing: &[u64]) -> bool
    ensures count { calls.new ≡ counted calls.old }
    ensures listed { result ≡ is_listed calls.old failing.now }
{
    *calls = calls.saturating_add(1);
    failing.contains(calls)
}

/// The octets of a list, as many at a time as fit. It never fails.
#[derive(Drop)]
pub struct SureSource {
    octets: Vec<u8>,
    at: usize,
}

impl Model for SureSource {
    ghost use Rattle.std.specs.Prelude.{List, ℕ, drop, ◌≤◌, length};

    ghost Value = { List ℕ };

    ghost view = { λ s. drop s.at s.octets.items };

    ghost invariant = { λ s. s.at ≤ length s.octets.items };
}

impl SureSource {
    /// A source of these octets.
    pub fn new(alloc: Global, octets: &[u8]) -> Result<SureSource, AllocError>
        ensures { IfOk result (λ s. s ≡ octets.now) }
    {
        Ok(SureSource {
            octets: Vec::from_slice(alloc, octets)?,
            at: 0,
        })
    }

    /// Takes as many octets as fit, and says how many. It is 0 at the end.
    fn take_front(&mut self, into: &mut [u8]) -> usize
        ensures count { result ≡ min (length self.old) (length into.old) }
        ensures taken { self.old ≡ take result into.new ++ self.new }
    {
        let n = copy_front(&self.octets[self.at..], into);
        self.at += n;
        n
    }
}

impl Source for SureSource {
    ghost use Rattle.std.specs.Prelude.{Some};

    ghost left = { λ s. Some s };

    ghost faults = { λ _. 0 };

    fn read(&mut self, into: &mut [u8]) -> Got {
        match self.take_front(into) {
            0 => Got::End,
            n => Got::Bytes(n),
        }
    }
}

/// The octets of a list, as many at a time as fit, with calls that fail.
#[derive(Drop)]
pub struct MemSource {
    source: SureSource,
    calls: u64,
    failing: Vec<u64>,
    faults: u64,
}

impl Model for MemSource {
    ghost use Rattle.edges.specs.Memory.{Reading};

    ghost Value = { Reading };

    ghost view = { λ s. record { left = s.source; calls = s.calls; failing = s.failing.items; faults = s.faults } };
}

impl MemSource {
    /// A source of these octets whose calls of these numbers fail, counted from 1.
    pub fn new(alloc: Global, octets: &[u8], failing: &[u64]) -> Result<MemSource, AllocError>
        ensures { IfOk result (λ s. s ≡ record { left = octets.now; calls = 0; failing = failing.now; faults = 0 }) }
    {
        Ok(MemSource {
            source: SureSource::new(alloc, octets)?,
            calls: 0,
            failing: Vec::from_slice(alloc, failing)?,
            faults: 0,
        })
    }
}

impl Source for MemSource {
    ghost use Rattle.std.specs.Prelude.{Some};

    ghost left = { λ s. Some s.left };

    ghost faults = { λ s. s.faults };

    fn read(&mut self, into: &mut [u8]) -> Got
        requires { 0 < length into.old }
        ensures reads { Reads result (Some self.old.left) (Some self.new.left) into.new }
        ensures cause { ReadCause result self.old.faults self.new.faults }
        ensures listed { (result ≡ Got.Failed) ↔ (fails_next self.old ≡ true) }
        ensures faults { self.new.faults ≡ faults_after self.old }
        ensures calls { self.new.calls ≡ counted self.old.calls }
        ensures failing { self.new.failing ≡ self.old.failing }
    {
        if is_call_listed(&mut self.calls, self.failing.as_slice()) {
            self.faults = self.faults.saturating_add(1);
            return Got::Failed;
        }
        match self.source.take_front(into) {
            0 => Got::End,
            n => Got::Bytes(n),
        }
    }
}

/// A sink that keeps what it is given. It fails for want of memory alone.
#[derive(Drop)]
pub struct SureSink {
    octets: Vec<u8>,
    faults: u64,
}

impl Model for SureSink {
    ghost use Rattle.edges.specs.Memory.{SureWriting};

    ghost Value = { SureWriting };

    ghost view = { λ s. record { written = s.octets.items; faults = s.faults } };
}

impl SureSink {
    /// An empty sink. Takes no memory.
    pub fn new(alloc: Global) -> SureSink
        ensures { result ≡ record { written = []; faults = 0 } }
    {
        SureSink {
            octets: Vec::new(alloc),
            faults: 0,
        }
    }

    /// All that was written.
    pub fn written(&self) -> &[u8]
        ensures { result.now ≡ self.now.written }
    {
        self.octets.as_slice()
    }
}

impl Sink for SureSink {
    ghost use Rattle.std.specs.Prelude.{Some};

    ghost written = { λ s. Some s.written };

    ghost faults = { λ s. s.faults };

    fn write(&mut self, from: &[u8]) -> Put
        requires { 0 < length from.now }
        ensures writes { Writes result (Some self.old.written) (Some self.new.written) from.now }
        ensures cause { WriteCause result self.old.faults self.new.faults }
        ensures whole { TakesAll result from.now }
        ensures faults { self.new.faults ≡ put_faults result self.old.faults }
    {
        if self.octets.extend_from_slice(from).is_err() {
            self.faults = self.faults.saturating_add(1);
            return Put::Failed;
        }
        Put::Wrote(from.len())
    }
}

/// A sink that keeps what it is given, with calls that fail.
#[derive(Drop)]
pub struct MemSink {
    octets: Vec<u8>,
    calls: u64,
    failing: Vec<u64>,
    faults: u64,
}

impl Model for MemSink {
    ghost use Rattle.edges.specs.Memory.{Writing};

    ghost Value = { Writing };

    ghost view = { λ s. record { written = s.octets.items; calls = s.calls; failing = s.failing.items; faults = s.faults } };
}

impl MemSink {
    /// An empty sink whose calls of these numbers fail, counted from 1.
    pub fn new(alloc: Global, failing: &[u64]) -> Result<MemSink, AllocError>
        ensures { IfOk result (λ s. s ≡ record { written = []; calls = 0; failing = failing.now; faults = 0 }) }
    {
        Ok(MemSink {
            octets: Vec::new(alloc),
            calls: 0,
            failing: Vec::from_slice(alloc, failing)?,
            faults: 0,
        })
    }

    /// All that was written.
    pub fn written(&self) -> &[u8]
        ensures { result.now ≡ self.now.written }
    {
        self.octets.as_slice()
    }
}

impl Sink for MemSink {
    ghost use Rattle.std.specs.Prelude.{Some};

    ghost written = { λ s. Some s.written };

    ghost faults = { λ s. s.faults };

    /// A call that isn't listed fails for want of memory alone.
    fn write(&mut self, from: &[u8]) -> Put
        requires { 0 < length from.now }
        ensures writes { Writes result (Some self.old.written) (Some self.new.written) from.now }
        ensures cause { WriteCause result self.old.faults self.new.faults }
        ensures listed { fails_next_write self.old ≡ true → result ≡ Put.Failed }
        ensures whole { TakesAll result from.now }
        ensures faults { self.new.faults ≡ put_faults result self.old.faults }
        ensures calls { self.new.calls ≡ counted self.old.calls }
        ensures failing { self.new.failing ≡ self.old.failing }
    {
        let listed = is_call_listed(&mut self.calls, self.failing.as_slice());
        if listed || self.octets.extend_from_slice(from).is_err() {
            self.faults = self.faults.saturating_add(1);
            return Put::Failed;
        }
        Put::Wrote(from.len())
    }
}
