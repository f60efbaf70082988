//! Points at which threads wait.

use std::alloc::{AllocError, Global};
use std::sync::Wait;
use std::sync::atomic::{AtomicU64, Ordering};
use std::time::Duration;

/// Where a thread passes a gate.
#[derive(Clone, Copy, Debug, PartialEq, Eq)]
pub enum Point {
    /// A link was accepted.
    Accepted,
    /// A piece was read, and isn't entered yet.
    Read,
    /// A message was written.
    Wrote,
    /// There is nothing to write yet.
    Idle,
    /// The next beat comes.
    Beat,
    /// The next look at the timeouts comes.
    Time,
    /// The next flush comes.
    Flush,
}

/// A gate holds threads at points, each on its connection, which is 0 where there is none.
///
/// A thread that waits for something takes the count of `wakes`, then looks whether it is there, and else waits with that
/// count. Who brings it calls `wake` after that. So no wake is lost: one that comes after the count was taken ends the wait,
/// and what was brought before that is seen by the look.
pub trait Gate {
    /// Passes this point on this connection, and may be held before.
    fn pass<R: Wait>(&self, rt: &R, point: Point, conn: u32);

    /// A count that each wake at this point on this connection raises. Waits for nobody.
    fn wakes(&self, _point: Point, _conn: u32) -> u64 {
        0
    }

    /// Passes this point on this connection, and waits before until somebody wakes there, unless somebody did since `wakes`
    /// gave this count. It may end for no reason.
    fn wait<R: Wait>(&self, rt: &R, point: Point, conn: u32, _wakes: u64) {
        self.pass(rt, point, conn);
    }

    /// Wakes all who wait at this point on this connection. Waits for nobody.
    fn wake(&self, point: Point, conn: u32);
}

/// A gate that holds nobody.
#[derive(Clone, Copy, Debug, Drop)]
pub struct OpenGate;

impl OpenGate {
    pub fn new() -> OpenGate {
        OpenGate
    }
}

impl Gate for OpenGate {
    fn pass<R: Wait>(&self, _rt: &R, _point: Point, _conn: u32) {}

    fn wake(&self, _point: Point, _conn: u32) {}
}

/// How many milliseconds a turn of a `HoldGate` takes at most.
const TURN_MILLIS: u64 = 1;

/// A gate that holds the points and connections of a list until one point was passed on one connection, and each time for
/// no more than so many turns.
#[derive(Drop)]
pub struct HoldGate {
    held: Vec<(Point, u32)>,
    until: (Point, u32),
    turns: u64,
    opened: AtomicU64,
    given_up: AtomicU64,
}

impl HoldGate {
    /// A gate that holds at `held` until `until` was passed, for at most `turns` turns each time. A turn takes a
    /// millisecond at most.
    pub fn new(
        alloc: Global,
        held: &[(Point, u32)],
        until: (Point, u32),
        turns: u64,
    ) -> Result<HoldGate, AllocError> {
        Ok(HoldGate {
            held: Vec::from_slice(alloc, held)?,
            until,
            turns,
            opened: AtomicU64::new(0),
            given_up: AtomicU64::new(0),
        })
    }

    /// Whether the turns ever ran out.
    pub fn gave_up(&self) -> bool {
        self.given_up.load(Ordering::SeqCst) != 0
    }

    fn is_open(&self) -> bool {
        self.opened.load(Ordering::SeqCst) != 0
    }

    fn open(&self) {
        self.opened.store(1, Ordering::SeqCst);
        self.opened.wake_all();
    }

    fn hold<R: Wait>(&self, rt: &R) {
        for _ in 0..self.turns {
            if self.is_open() {
                return;
            }
            self.opened
                .park_timeout(rt, 0, Duration::from_millis(TURN_MILLIS));
        }
        if !self.is_open() {
            self.given_up.store(1, Ordering::SeqCst);
        }
    }
}

impl Gate for HoldGate {
    fn pass<R: Wait>(&self, rt: &R, point: Point, conn: u32) {
        if self.held.contains(&(point, conn)) {
            self.hold(rt);
        }
        if self.until == (point, conn) {
            self.open();
        }
    }

    /// Does nothing: this gate opens where its point is passed.
    fn wake(&self, _point: Point, _conn: u32) {}
}
