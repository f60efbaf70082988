//! Outs to one connection that wait.

ghost use Rattle.std.specs.Prelude.{◌≡◌, ◌≤◌, ◌<◌, ◌+◌, [], ◌∷◌, ◌++◌, OnOk};
ghost use Rattle.std.specs.Option.{is_some};
ghost use Rattle.cluster_store.specs.Queues.{LineView, released, after, handed, is_news, is_none_left};

use cluster_types::out::Out;
use std::alloc::{AllocError, Global};
use std::collections::VecDeque;
use std::marker::Model;

/// An out, and how many entries are to be safe on the disk before it may be handed out.
#[derive(Debug, Drop)]
pub struct Waiting {
    pub out: Out,
    pub need: u64,
}

/// The outs that wait for one connection, the first one first. Contracts see also for how many more it has room.
#[derive(Drop)]
pub struct OutQueue {
    outs: VecDeque<Waiting>,
    room: usize,
}

impl Model for OutQueue {
    ghost use Rattle.std.specs.Prelude.{◌≤◌, ◌+◌};
    ghost use Rattle.std.specs.VecDeque.{deque_len, deque_capacity};
    ghost use Rattle.cluster_store.specs.Queues.{LineView};

    ghost Value = { LineView };

    ghost view = { λ l. record { outs = l.outs.items; room = l.room } };

    ghost invariant = { λ l. deque_len l.outs + l.room ≤ deque_capacity l.outs };
}

impl OutQueue {
    /// No outs.
    pub fn new(alloc: Global) -> OutQueue
        ensures { result ≡ record { outs = []; room = 0 } }
    {
        OutQueue {
            outs: VecDeque::new(alloc),
            room: 0,
        }
    }

    /// Makes room for one more.
    pub fn make_room(&mut self) -> Result<(), AllocError>
        ensures outs { self.new.outs ≡ self.old.outs }
        ensures stays { self.old.room ≤ self.new.room }
        ensures room { OnOk result (self.old.room + 1 ≤ self.new.room) }
    {
        let room = self.room + 1;
        self.outs.reserve(room)?;
        self.room = room;
        Ok(())
    }

    /// Appends an out, into the room that is there.
    pub fn push(&mut self, waiting: Waiting)
        requires { 0 < self.old.room }
        ensures outs { self.new.outs ≡ self.old.outs ++ waiting ∷ [] }
        ensures room { self.old.room ≤ self.new.room + 1 }
    {
        self.outs.push_back_reserved(waiting);
        self.room -= 1;
    }

    /// Whether the first out may be handed out where so many entries are safe.
    fn is_ready(&self, mark: u64) -> bool
        ensures { result ≡ is_some (released mark self.now.outs) }
    {
        match self.outs.front() {
            Some(waiting) => waiting.need <= mark,
            None => false,
        }
    }

    /// Takes the first out, where it may be handed out.
    pub fn take(&mut self, mark: u64) -> Option<Out>
        ensures out { result ≡ released mark self.old.outs }
        ensures outs { self.new.outs ≡ after mark self.old.outs }
    {
        if !self.is_ready(mark) {
            return None;
        }
        match self.outs.pop_front() {
            Some(Waiting { out, .. }) => Some(out),
            None => None,
        }
    }

    /// Whether no outs wait.
    pub fn is_empty(&self) -> bool
        ensures { result ≡ is_none_left self.now.outs }
    {
        self.outs.is_empty()
    }

    /// Whether a take answers anything but that there is none yet, where the connection is live or not.
    pub fn has_news(&self, mark: u64, live: bool) -> bool
        ensures { result ≡ is_news (handed live (is_none_left (after mark self.now.outs)) (released mark self.now.outs)) }
    {
        match self.outs.front() {
            Some(waiting) => waiting.need <= mark,
            None => !live,
        }
    }
}
