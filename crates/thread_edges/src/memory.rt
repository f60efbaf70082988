//! Listeners and dialers in memory, which give the links of a list. They fail at the calls of another.

ghost use Rattle.std.specs.Prelude.{◌≡◌, ◌≢◌, ◌==◌, ◌↔◌, ◌⊎◌, ◌++◌, ◌∷◌, ◌≤◌, [], MatchOption, List, ℕ, length, Option, Some, None, All, IfOk, OnOk, OnErr, true, slice_get, option_map};
ghost use Rattle.std.specs.Option.{option_copied, option_to_list};
ghost use Rattle.cluster_types.specs.Causes.{Rose};
ghost use Rattle.edges.specs.Memory.{Reading, Writing, counted, is_listed};
ghost use Rattle.thread_edges.specs.Links.{Accepts, IsFresh, IsUnwritten, LinkCause, IsUnused, Linking, dialled_once, fails_next, faults_by};

use crate::links::{Accepted, Dialer, Listener};
use edges::memory::{MemSink, MemSource};
use std::alloc::{AllocError, Global};
use std::collections::VecDeque;
use std::marker::Model;
use std::sync::Wait;

/// A list of links that weren't used yet.
#[derive(Drop)]
pub struct Links {
    links: VecDeque<(MemSource, MemSink)>,
}

impl Model for Links {
    ghost use Rattle.std.specs.Prelude.{List, All};
    ghost use Rattle.edges.specs.Memory.{Reading, Writing};
    ghost use Rattle.thread_edges.specs.Links.{IsUnused};

    ghost Value = { List (Reading × Writing) };

    ghost view = { λ l. l.links.items };

    ghost invariant = { λ l. All IsUnused l.links.items };
}

impl Links {
    /// No links. Takes no memory.
    pub fn new(alloc: Global) -> Links
        ensures { result ≡ [] }
    {
        Links {
            links: VecDeque::new(alloc),
        }
    }

    /// Puts a link at the end. Where there is no memory for it, the link is dropped.
    pub fn push(&mut self, source: MemSource, sink: MemSink) -> Result<(), AllocError>
        requires { IsUnused (source, sink) }
        ensures ok { OnOk result (self.new ≡ self.old ++ (source, sink) ∷ []) }
        ensures err { OnErr result (self.new ≡ self.old) }
    {
        self.links.push_back((source, sink))?;
        Ok(())
    }

    pub fn len(&self) -> usize
        ensures { result ≡ length self.now }
    {
        self.links.len()
    }

    pub fn is_empty(&self) -> bool
        ensures { result ≡ (length self.now == 0) }
    {
        self.links.is_empty()
    }

    /// The link at a place, counted from 0.
    pub fn get(&self, place: usize) -> Option<&(MemSource, MemSink)>
        ensures { option_copied result ≡ slice_get self.now place }
    {
        self.links.get(place)
    }

    /// Takes the first link away.
    fn take_first(&mut self) -> Option<(MemSource, MemSink)>
        ensures taken { self.old ≡ option_to_list result ++ self.new }
        ensures cases { MatchOption result (self.old ≡ []) IsUnused }
    {
        self.links.pop_front()
    }
}

/// The links of a listener or of a dialer, and the calls that fail.
#[derive(Drop)]
struct Line {
    links: Links,
    calls: u64,
    failing: Vec<u64>,
    faults: u64,
}

impl Model for Line {
    ghost use Rattle.thread_edges.specs.Links.{Linking};

    ghost Value = { Linking };

    ghost view = { λ l. record { links = l.links; calls = l.calls; failing = l.failing.items; faults = l.faults } };
}

impl Line {
    fn new(alloc: Global, links: Links, failing: &[u64]) -> Result<Line, AllocError>
        ensures { IfOk result (λ l. l ≡ record { links = links; calls = 0; failing = failing.now; faults = 0 }) }
    {
        Ok(Line {
            links,
            calls: 0,
            failing: Vec::from_slice(alloc, failing)?,
            faults: 0,
        })
    }

    /// Counts a call, and says whether it is listed as one that fails.
    fn is_call_listed(&mut self) -> bool
        ensures listed { result ≡ fails_next self.old }
        ensures counted { self.new ≡ record { links = self.old.links; calls = counted self.old.calls; failing = self.old.failing; faults = self.old.faults } }
    {
        self.calls = self.calls.saturating_add(1);
        self.failing.contains(&self.calls)
    }

    /// Counts a fault.
    fn count_fault(&mut self)
        ensures cause { (self.old.faults ≤ self.new.faults) × Rose self.old.faults self.new.faults }
        ensures counted { self.new ≡ record { links = self.old.links; calls = self.old.calls; failing = self.old.failing; faults = counted self.old.faults } }
    {
        self.faults = self.faults.saturating_add(1);
    }

    /// The next link. It doesn't fail.
    fn next(&mut self) -> Accepted<MemSource, MemSink>
        ensures accepts { Accepts result (Some self.old.links) (Some self.new.links) }
        ensures fresh { IsFresh (λ s. s.faults) (λ s. s.faults) (λ s. Some s.written) result }
        ensures answers { result ≢ Accepted.Failed }
        ensures kept { (self.new.calls ≡ self.old.calls) × (self.new.failing ≡ self.old.failing) × (self.new.faults ≡ self.old.faults) }
    {
        match self.links.take_first() {
            Some((source, sink)) => Accepted::Pair(source, sink),
            None => Accepted::End,
        }
    }
}

/// A listener that accepts the links of a list.
#[derive(Drop)]
pub struct MemListener {
    line: Line,
}

impl Model for MemListener {
    ghost use Rattle.thread_edges.specs.Links.{Linking};

    ghost Value = { Linking };

    ghost view = { λ l. l.line };
}

impl MemListener {
    /// A listener with these links whose calls of these numbers fail, counted from 1.
    pub fn new(alloc: Global, links: Links, failing: &[u64]) -> Result<MemListener, AllocError>
        ensures { IfOk result (λ l. l ≡ record { links = links; calls = 0; failing = failing.now; faults = 0 }) }
    {
        Ok(MemListener {
            line: Line::new(alloc, links, failing)?,
        })
    }
}

impl Listener for MemListener {
    ghost use Rattle.std.specs.Prelude.{Some};

    type In = MemSource;

    type Out = MemSink;

    ghost links = { λ l. Some l.links };

    ghost faults = { λ l. l.faults };

    fn accept<R: Wait>(&mut self, _rt: &R) -> Accepted<MemSource, MemSink>
        ensures accepts { Accepts result (Some self.old.links) (Some self.new.links) }
        ensures fresh { IsFresh (λ s. s.faults) (λ s. s.faults) (λ s. Some s.written) result }
        ensures cause { LinkCause result self.old.faults self.new.faults }
        ensures listed { (result ≡ Accepted.Failed) ↔ (fails_next self.old ≡ true) }
        ensures faults { self.new.faults ≡ faults_by result self.old.faults }
        ensures calls { self.new.calls ≡ counted self.old.calls }
        ensures failing { self.new.failing ≡ self.old.failing }
    {
        if self.line.is_call_listed() {
            self.line.count_fault();
            return Accepted::Failed;
        }
        self.line.next()
    }
}

/// A dialer that gives the links of a list. A dial past the last one fails.
#[derive(Drop)]
pub struct MemDialer {
    line: Line,
    last: Option<u8>,
}

impl Model for MemDialer {
    ghost use Rattle.thread_edges.specs.Links.{MemDialling};

    ghost Value = { MemDialling };

    ghost view = { λ d. record { line = d.line; last = d.last } };
}

impl MemDialer {
    /// A dialer with these links whose calls of these numbers fail, counted from 1.
    pub fn new(alloc: Global, links: Links, failing: &[u64]) -> Result<MemDialer, AllocError>
        ensures { IfOk result (λ d. d ≡ record { line = record { links = links; calls = 0; failing = failing.now; faults = 0 }; last = None }) }
    {
        Ok(MemDialer {
            line: Line::new(alloc, links, failing)?,
            last: None,
        })
    }
}

impl Dialer for MemDialer {
    ghost use Rattle.std.specs.Prelude.{Some};

    type In = MemSource;

    type Out = MemSink;

    ghost links = { λ d. Some d.line.links };

    ghost faults = { λ d. d.line.faults };

    ghost dialled = { λ d. record { times = d.line.calls; last = d.last } };

    fn dial(&mut self, channel: u8) -> Accepted<MemSource, MemSink>
        ensures accepts { Accepts result (Some self.old.line.links) (Some self.new.line.links) }
        ensures answers { result ≢ Accepted.End }
        ensures fresh { IsFresh (λ s. s.faults) (λ s. s.faults) (λ s. Some s.written) result }
        ensures cause { LinkCause result self.old.line.faults self.new.line.faults }
        ensures channel { record { times = self.new.line.calls; last = self.new.last } ≡ dialled_once channel (record { times = self.old.line.calls; last = self.old.last }) }
        ensures listed { (result ≡ Accepted.Failed) ↔ ((fails_next self.old.line ≡ true) ⊎ (self.old.line.links ≡ [])) }
        ensures faults { self.new.line.faults ≡ faults_by result self.old.line.faults }
        ensures failing { self.new.line.failing ≡ self.old.line.failing }
    {
        self.last = Some(channel);
        if self.line.is_call_listed() {
            self.line.count_fault();
            return Accepted::Failed;
        }
        match self.line.next() {
            Accepted::End => {
                self.line.count_fault();
                Accepted::Failed
            }
            link => link,
        }
    }
}
