//! Outs that wait, in a queue for each connection.

ghost use Rattle.std.specs.Prelude.{◌≡◌, ◌≤◌, ◌<◌, ◌+◌, ◌==◌, ℕ, [], ◌∷◌, ◌++◌, length, not, if◌then◌else◌, OnOk};
ghost use Rattle.cluster_defs.specs.Outs.{conn_of, outs_on};
ghost use Rattle.cluster_store.specs.Queues.{left_at, room_at, released, after, handed, is_news, waits, is_none_left};

use crate::taken::Taken;
use crate::waiting::{OutQueue, Waiting};
use cluster_types::out::{Out, Outs};
use std::alloc::{AllocError, Global};
use std::collections::HashMap;
use std::marker::Model;

/// The outs that wait, by connection. Contracts see those of each connection, and for how many more there is room.
#[derive(Drop)]
pub struct Queues {
    lines: HashMap<u32, OutQueue>,
    alloc: Global,
}

impl Model for Queues {
    ghost use Rattle.cluster_store.specs.Queues.{Lines};

    ghost Value = { Lines };

    ghost view = { λ q. q.lines.entries };
}

impl Queues {
    /// No outs.
    pub fn new(alloc: Global) -> Queues
        ensures { (c : ℕ) → left_at result c ≡ [] }
    {
        Queues {
            lines: HashMap::new(alloc),
            alloc,
        }
    }

    /// Makes room for one more out to a connection.
    fn make_room(&mut self, conn: u32) -> Result<(), AllocError>
        ensures left { (c : ℕ) → left_at self.new c ≡ left_at self.old c }
        ensures stays { (c : ℕ) → room_at self.old c ≤ room_at self.new c }
        ensures room { OnOk result (room_at self.old conn + 1 ≤ room_at self.new conn) }
    {
        match self.lines.get_mut(&conn) {
            Some(line) => line.make_room(),
            None => {
                let mut line = OutQueue::new(self.alloc);
                line.make_room()?;
                self.lines.insert(conn, line)?;
                Ok(())
            }
        }
    }

    /// Appends an out to a connection, into the room that is there.
    fn push(&mut self, conn: u32, waiting: Waiting)
        requires { 0 < room_at self.old conn }
        ensures left { (c : ℕ) → left_at self.new c ≡ (if conn == c then left_at self.old c ++ waiting ∷ [] else left_at self.old c) }
        ensures room { (c : ℕ) → room_at self.old c ≤ room_at self.new c + (if conn == c then 1 else 0) }
    {
        if let Some(line) = self.lines.get_mut(&conn) {
            line.push(waiting);
        }
    }

    /// Takes the first out to a connection, where it may be handed out with so many entries safe.
    fn take(&mut self, conn: u32, mark: u64) -> Option<Out>
        ensures out { result ≡ released mark (left_at self.old conn) }
        ensures left { (c : ℕ) → left_at self.new c ≡ (if conn == c then after mark (left_at self.old c) else left_at self.old c) }
    {
        match self.lines.get_mut(&conn) {
            Some(line) => line.take(mark),
            None => None,
        }
    }

    /// Whether no outs to a connection wait.
    fn is_empty(&self, conn: u32) -> bool
        ensures { result ≡ is_none_left (left_at self.now conn) }
    {
        match self.lines.get(&conn) {
            Some(line) => line.is_empty(),
            None => true,
        }
    }

    /// Lets the queue of a connection go, where no outs wait in it.
    pub fn forget_idle(&mut self, conn: u32)
        ensures { (c : ℕ) → left_at self.new c ≡ left_at self.old c }
    {
        if self.is_empty(conn) {
            let _ = self.lines.remove(&conn);
        }
    }
}

impl Queues {
    /// Takes the first out to a connection that is live or not, where it may be handed out with so many entries safe.
    pub fn hand_out(&mut self, conn: u32, mark: u64, live: bool) -> Taken
        ensures taken { result ≡ handed live (is_none_left (after mark (left_at self.old conn))) (released mark (left_at self.old conn)) }
        ensures left { (c : ℕ) → left_at self.new c ≡ (if conn == c then after mark (left_at self.old c) else left_at self.old c) }
    {
        let taken = self.take(conn, mark);
        let is_empty = self.is_empty(conn);
        if !live {
            self.forget_idle(conn);
        }
        match taken {
            Some(out) => Taken::Out(out),
            None if live || !is_empty => Taken::NothingYet,
            None => Taken::Closed,
        }
    }

    /// Whether `hand_out` would answer anything but that there is none yet.
    pub fn has_news(&self, conn: u32, mark: u64, live: bool) -> bool
        ensures { result ≡ is_news (handed live (is_none_left (after mark (left_at self.now conn))) (released mark (left_at self.now conn))) }
    {
        match self.lines.get(&conn) {
            Some(line) => line.has_news(mark, live),
            None => !live,
        }
    }
}

/// The connection of an out.
fn conn_of(out: &Out) -> u32
    ensures { result ≡ conn_of out.now }
{
    match out {
        Out::Pass { conn, .. } => *conn,
        Out::Made { conn, .. } => *conn,
    }
}

impl Queues {
    /// Makes room for each of some outs.
    pub fn make_rooms(&mut self, outs: &[Out]) -> Result<(), AllocError>
        ensures left { (c : ℕ) → left_at self.new c ≡ left_at self.old c }
        ensures room { OnOk result ((c : ℕ) → length (outs_on c outs.now) ≤ room_at self.new c) }
    {
        for out in outs {
            self.make_room(conn_of(out))?;
        }
        Ok(())
    }

    /// Appends outs that need so many entries to be safe, into the room that is there.
    pub fn push_all(&mut self, outs: Outs, need: u64)
        requires { (c : ℕ) → length (outs_on c outs) ≤ room_at self.old c }
        ensures { (c : ℕ) → left_at self.new c ≡ left_at self.old c ++ waits need (outs_on c outs) }
    {
        for out in outs.into_vec() {
            self.push(conn_of(&out), Waiting { out, need });
        }
    }
}
