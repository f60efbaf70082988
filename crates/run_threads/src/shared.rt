//! What the threads of a run share.

ghost use Rattle.std.specs.Prelude.{◌≡◌};
ghost use Rattle.history_lock.specs.History.{Extends};
ghost use Rattle.history_lock.specs.Names.{known, room_of, lock_id, IsIdle};
ghost use Rattle.run_book.specs.Kept.{MayCome};

use crate::messages::is_short;
use cluster_types::config::Channel;
use cluster_types::shared_message::SharedMessage;
use controller_desk::reading::Reading;
use disk_model::disk::Disk;
use history_lock::lock::Pass;
use load_schemes::chooser::Chooser;
use run_book::book::{Book, CLIENT};
use run_book::halt::{Halt, halt_of};
use run_book::kept::RunBook;
use std::alloc::{AllocError, Global};
use std::sync::atomic::{AtomicU64, Ordering};
use std::sync::{Arc, Wait};
use thread_edges::gate::{Gate, Point};

/// What the threads of a run share: its book, and the gate at which they wait for one another.
#[derive(Drop)]
pub struct RunShared<D: Disk, G: Gate, R> {
    pub rt: R,
    pub alloc: Global,
    pub book: Book<D>,
    pub gate: Arc<G, Global>,
    /// How many connections there are: the client's, and one of each engine behind it.
    pub conns: u32,
    /// Not 0 once the run has ended.
    pub ending: AtomicU64,
}

/// The channel of a connection of a book.
fn channel_of(conn: u32) -> Channel {
    if conn == CLIENT {
        Channel::Task
    } else {
        Channel::Engine
    }
}

/// The numbers of so many connections.
fn numbers(alloc: Global, conns: u32) -> Result<Vec<u32>, AllocError> {
    let mut numbers = Vec::with_capacity(alloc, conns as usize)?;
    for conn in 0..conns {
        numbers.push(conn + 1)?;
    }
    Ok(numbers)
}

impl<D: Disk + Drop, G: Gate + Drop, R: Wait> RunShared<D, G, R> {
    /// Lets the workers end, and wakes them.
    pub fn end_workers(&self) {
        self.ending.store(1, Ordering::SeqCst);
        for conn in 0..self.conns {
            self.gate.wake(Point::Idle, conn + 1);
        }
    }

    /// Whether the workers are to end.
    pub fn is_ending(&self) -> bool {
        self.ending.load(Ordering::SeqCst) != 0
    }

    /// Wakes all who have something to take.
    fn wake_news(&self, pass: &mut Pass<RunBook<D>>) -> Result<(), Halt>
        requires idle { IsIdle (lock_id self.now.book.lock) pass.old }
        ensures idle { IsIdle (lock_id self.now.book.lock) pass.new }
        ensures later { Extends (known pass.old).seen (known pass.new).seen }
    {
        let Ok(mut conns) = numbers(self.alloc, self.conns) else {
            return Err(Halt::OutOfMemory);
        };
        self.book.keep_news(&self.rt, pass, &mut conns);
        for conn in &conns {
            self.gate.wake(Point::Idle, *conn);
        }
        Ok(())
    }

    /// Makes safe what was entered.
    fn flush(&self, pass: &mut Pass<RunBook<D>>) -> Result<(), Halt>
        requires idle { IsIdle (lock_id self.now.book.lock) pass.old }
        ensures idle { IsIdle (lock_id self.now.book.lock) pass.new }
        ensures later { Extends (known pass.old).seen (known pass.new).seen }
    {
        match self.book.flush(&self.rt, pass) {
            Ok(()) => Ok(()),
            Err(_) => Err(Halt::DiskFault),
        }
    }

    /// Enters a message that was read.
    fn act(
        &self,
        pass: &mut Pass<RunBook<D>>,
        chooser: &Chooser,
        conn: u32,
        message: SharedMessage,
    ) -> Result<(), Halt>
        requires idle { IsIdle (lock_id self.now.book.lock) pass.old }
        requires may { MayCome (known pass.old).seen.list conn message }
        ensures idle { IsIdle (lock_id self.now.book.lock) pass.new }
        ensures later { Extends (known pass.old).seen (known pass.new).seen }
    {
        if !is_short(&message) {
            return Err(Halt::OutOfMemory);
        }
        let Ok(reading) = Reading::new(self.alloc, channel_of(conn), message) else {
            return Err(Halt::OutOfMemory);
        };
        match self.book.act(&self.rt, pass, chooser, conn, reading) {
            Ok(_) => Ok(()),
            Err(error) => Err(halt_of(error)),
        }
    }

    /// Enters a message where it may come, makes safe what is kept of its step, and wakes all who then have something to take.
    pub fn enter(
        &self,
        pass: &mut Pass<RunBook<D>>,
        chooser: &Chooser,
        conn: u32,
        message: SharedMessage,
    ) -> Result<(), Halt>
        requires idle { IsIdle (lock_id self.now.book.lock) pass.old }
        requires may { MayCome (known pass.old).seen.list conn message }
        ensures idle { IsIdle (lock_id self.now.book.lock) pass.new }
        ensures later { Extends (known pass.old).seen (known pass.new).seen }
    {
        self.act(pass, chooser, conn, message)?;
        self.flush(pass)?;
        self.wake_news(pass)
    }
}
