//! The gate over the system's time, whose threads sleep until something happens.

ghost use Rattle.std.specs.Prelude.{◌≤◌, length, IfOk};

use crate::gate::{Gate, Point};
use std::alloc::{AllocError, Global};
use std::sync::Wait;
use std::sync::atomic::{AtomicU64, Ordering};
use std::thread;
use std::time::{Clock, Duration};

/// How many milliseconds a thread sleeps at `Beat`.
pub const BEAT_MILLIS: u64 = 3_000;

/// How many milliseconds a thread sleeps at `Time`.
pub const TIME_MILLIS: u64 = 1_000;

/// How many milliseconds a thread waits at most at `Idle`, where nobody wakes it.
pub const IDLE_MILLIS: u64 = 1_000;

/// How many milliseconds a thread waits at most at `Flush`, where nobody wakes it.
pub const FLUSH_MILLIS: u64 = 1_000;

/// How many words the connections have.
const WORDS: u32 = 4_096;

/// The bits of a count that a thread sleeps on.
const LOW_BITS: u64 = 0xffff_ffff;

/// The count of the wakes at a point on a connection, and how many threads wait for the next, or are about to.
#[derive(Drop)]
struct Word {
    wakes: AtomicU64,
    waiting: AtomicU64,
}

impl Word {
    fn new() -> Word {
        Word {
            wakes: AtomicU64::new(0),
            waiting: AtomicU64::new(0),
        }
    }

    fn wakes(&self) -> u64 {
        self.wakes.load(Ordering::SeqCst)
    }

    /// Waits until the count isn't this one, for no longer than so many milliseconds. The thread is told of before it looks
    /// at the count, and who wakes looks for threads behind counting: so one of the two sees the other.
    fn wait<R: Wait>(&self, rt: &R, count: u64, millis: u64) {
        self.waiting.fetch_add(1, Ordering::SeqCst);
        if self.wakes() == count {
            self.wakes.park_timeout(rt, (count & LOW_BITS) as u32, Duration::from_millis(millis));
        }
        self.waiting.fetch_sub(1, Ordering::SeqCst);
    }

    /// Counts a wake, and wakes all who wait.
    fn wake(&self) {
        self.wakes.fetch_add(1, Ordering::SeqCst);
        if self.waiting.load(Ordering::SeqCst) != 0 {
            self.wakes.wake_all();
        }
    }
}

/// How many milliseconds a thread waits at most at a point where threads wait to be woken.
fn longest_wait(point: Point) -> u64 {
    match point {
        Point::Flush => FLUSH_MILLIS,
        _ => IDLE_MILLIS,
    }
}

/// A word for each remainder of a connection's number.
fn quiet_words(alloc: Global) -> Result<Vec<Word>, AllocError>
    ensures { IfOk result (λ words. 4096 ≤ length words.items) }
{
    let mut words = Vec::with_capacity(alloc, WORDS as usize)?;
    while words.len() < WORDS as usize {
        words.push(Word::new())?;
    }
    Ok(words)
}

/// A gate that sleeps at `Beat` and at `Time`, and waits at `Idle` and at `Flush`.
///
/// Each wake there raises the count of a word, and nobody takes a wake away. A thread sleeps only while the count is still
/// the one that it took before it looked. Connections whose numbers have the same remainder share a word: a wake for one of
/// them then wakes the others too, which look and wait again.
#[derive(Drop)]
pub struct EventGate<H: Clock + Drop> {
    rt: H,
    idle: Vec<Word>,
    flush: Word,
    ghost whole: { 4096 ≤ length idle.items },
}

impl<H: Clock + Drop> EventGate<H> {
    /// A gate at which nobody is woken yet.
    pub fn new(alloc: Global, rt: H) -> Result<EventGate<H>, AllocError> {
        Ok(EventGate {
            rt,
            idle: quiet_words(alloc)?,
            flush: Word::new(),
        })
    }

    /// The word that counts the wakes at this point on this connection, where threads wait to be woken.
    fn word(&self, point: Point, conn: u32) -> Option<&Word> {
        match point {
            Point::Idle => Some(&self.idle[(conn % WORDS) as usize]),
            Point::Flush => Some(&self.flush),
            _ => None,
        }
    }
}

impl<H: Clock + Drop> Gate for EventGate<H> {
    /// Holds at `Beat` and at `Time` alone.
    fn pass<R: Wait>(&self, _rt: &R, point: Point, _conn: u32) {
        match point {
            Point::Beat => thread::sleep(&self.rt, Duration::from_millis(BEAT_MILLIS)),
            Point::Time => thread::sleep(&self.rt, Duration::from_millis(TIME_MILLIS)),
            _ => {}
        }
    }

    /// 0 at points where nobody waits to be woken.
    fn wakes(&self, point: Point, conn: u32) -> u64 {
        match self.word(point, conn) {
            Some(word) => word.wakes(),
            None => 0,
        }
    }

    /// Waits at `Idle` and at `Flush`, for `IDLE_MILLIS` and `FLUSH_MILLIS` at most. At the other points it passes.
    fn wait<R: Wait>(&self, rt: &R, point: Point, conn: u32, wakes: u64) {
        match self.word(point, conn) {
            Some(word) => word.wait(rt, wakes, longest_wait(point)),
            None => self.pass(rt, point, conn),
        }
    }

    fn wake(&self, point: Point, conn: u32) {
        if let Some(word) = self.word(point, conn) {
            word.wake();
        }
    }
}
