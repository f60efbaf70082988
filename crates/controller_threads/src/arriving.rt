//! The reading half of a link that hasn't signed anything.

ghost use Rattle.std.specs.Prelude.{◌≡◌, ◌≤◌};
ghost use Rattle.edges.specs.Streams.{ReadCause};

use crate::closing::Closer;
use crate::pending::Pending;
use edges::source::{Got, Source};
use std::sync::Wait;

/// How many octets a handshake may have: a greeting, and READY with a head of up to 9 octets and a body of 65,536.
const HANDSHAKE_OCTETS: u64 = 64 + 9 + 65_536;

/// A source that notes how many octets came. Once a handshake has more than it may, each read fails.
#[derive(Drop)]
pub struct Arriving<'a, S, C: Closer + Drop, R> {
    source: S,
    rt: &'a R,
    pending: &'a Pending<C>,
    number: u64,
    came: u64,
    left: u64,
    faults: u64,
}

impl<'a, S: Source, C: Closer + Drop, R: Wait> Arriving<'a, S, C, R> {
    /// The source of a link that has this number, of which nothing came yet.
    pub fn new(
        source: S,
        rt: &'a R,
        pending: &'a Pending<C>,
        number: u64,
    ) -> Arriving<'a, S, C, R> {
        Arriving {
            source,
            rt,
            pending,
            number,
            came: 0,
            left: HANDSHAKE_OCTETS,
            faults: 0,
        }
    }

    /// Notes that the handshake is done: from now on as much may come as does.
    pub fn end_handshake(&mut self) {
        self.left = u64::MAX;
        self.pending.note_greeting(self.rt, self.number);
    }

    /// The source itself.
    pub fn into_source(self) -> S {
        let Arriving { source, .. } = self;
        source
    }

    /// Notes that so many octets came.
    fn note(&mut self, count: usize)
        ensures source { self.new.source ≡ self.old.source }
        ensures faults { self.new.faults ≡ self.old.faults }
    {
        self.came = self.came.saturating_add(count as u64);
        self.left = self.left.saturating_sub(count as u64);
        self.pending.note_octets(self.rt, self.number, self.came);
    }

    /// Counts a fault.
    fn fail(&mut self) -> Got
        ensures source { self.new.source ≡ self.old.source }
        ensures failed { result ≡ Got.Failed }
        ensures cause { ReadCause Got.Failed self.old.faults self.new.faults }
    {
        self.faults = self.faults.saturating_add(1);
        Got::Failed
    }
}

/// How many octets may be read at once into so many, where so many may still come.
fn most_octets(room: usize, left: u64) -> usize
    ensures { result ≤ room }
{
    if left < room as u64 {
        left as usize
    } else {
        room
    }
}

impl<'a, S: Source, C: Closer + Drop, R: Wait> Source for Arriving<'a, S, C, R> {
    ghost left = { λ a. S.left a.source };

    ghost faults = { λ a. a.faults };

    fn read(&mut self, into: &mut [u8]) -> Got {
        let most = most_octets(into.len(), self.left);
        if most == 0 {
            return self.fail();
        }
        match self.source.read(&mut into[..most]) {
            Got::Bytes(count) => {
                self.note(count);
                Got::Bytes(count)
            }
            Got::End => Got::End,
            Got::Failed => self.fail(),
        }
    }
}
