//! A gate that counts who passes.

ghost use Rattle.std.specs.Prelude.{◌≤◌, ◌<◌, length};

use std::alloc::Global;
use std::process::Abort;
use std::sync::Wait;
use std::sync::atomic::{AtomicU64, Ordering};
use std::time;
use std::time::Duration;
use thread_edges::event_gate::EventGate;
use thread_edges::gate::{Gate, HoldGate, Point};

/// How many turns a thread is held at most. A turn takes a millisecond at most.
pub const TURNS: u64 = 10_000;

/// How many connections are counted apart.
const CONNS: u32 = 8;

/// How many counts there are: seven points for each connection.
const COUNTS: usize = 56;

/// Holds the pass of a number at a point on a connection, until another point was passed so often on another connection.
#[derive(Clone, Copy)]
pub struct Step {
    pub held: (Point, u32, u64),
    pub until: (Point, u32, u64),
}

/// A gate that counts the passes by point and connection, and hands each on to a gate that holds. It holds by its steps too,
/// and wakes as a controller's gate does.
#[derive(Drop)]
pub struct CountGate<H: time::Clock + Drop> {
    counts: Vec<AtomicU64>,
    hold: HoldGate,
    steps: Vec<Step>,
    given_up: AtomicU64,
    events: EventGate<H>,
    ghost whole: { 56 ≤ length counts.items },
}

/// The number of a point.
fn number_of(point: Point) -> usize
    ensures { result ≤ 6 }
{
    match point {
        Point::Accepted => 0,
        Point::Read => 1,
        Point::Wrote => 2,
        Point::Idle => 3,
        Point::Beat => 4,
        Point::Time => 5,
        Point::Flush => 6,
    }
}

/// Counts that are 0.
fn no_counts<R: Abort>(rt: &R, alloc: Global) -> Vec<AtomicU64>
    ensures { 56 ≤ length result.items }
{
    let mut counts = Vec::new(alloc);
    while counts.len() < COUNTS {
        counts.push(AtomicU64::new(0)).expect(rt, "memory is ample");
    }
    counts
}

impl<H: time::Clock + Drop> CountGate<H> {
    pub fn new<R: Abort>(
        rt: &R,
        alloc: Global,
        time: H,
        hold: HoldGate,
        steps: &[Step],
    ) -> CountGate<H> {
        CountGate {
            counts: no_counts(rt, alloc),
            hold,
            steps: Vec::from_slice(alloc, steps).expect(rt, "memory is ample"),
            given_up: AtomicU64::new(0),
            events: EventGate::new(alloc, time).expect(rt, "memory is ample"),
        }
    }

    fn count(&self, point: Point, conn: u32) -> &AtomicU64 {
        &self.counts[number_of(point) * CONNS as usize + (conn % CONNS) as usize]
    }

    /// How often a point was passed on a connection.
    pub fn passes(&self, point: Point, conn: u32) -> u64 {
        self.count(point, conn).load(Ordering::SeqCst)
    }

    /// Whether anybody was held for too long.
    pub fn gave_up(&self) -> bool {
        self.hold.gave_up() || self.given_up.load(Ordering::SeqCst) != 0
    }

    /// Waits until a point was passed so often on a connection.
    pub fn await_passes<R: Wait>(&self, rt: &R, point: Point, conn: u32, passes: u64) {
        for _ in 0..TURNS {
            if self.passes(point, conn) >= passes {
                return;
            }
            rest(rt);
        }
        self.given_up.store(1, Ordering::SeqCst);
    }

    /// Counts a pass, and holds it by the gate and the steps.
    fn enter<R: Wait>(&self, rt: &R, point: Point, conn: u32) {
        let before = self.count(point, conn).fetch_add(1, Ordering::SeqCst);
        self.hold.pass(rt, point, conn);
        for step in self.steps.as_slice() {
            if step.held == (point, conn, before.wrapping_add(1)) {
                let (point, conn, passes) = step.until;
                self.await_passes(rt, point, conn, passes);
            }
        }
    }
}

/// Waits for a millisecond.
fn rest<R: Wait>(rt: &R) {
    AtomicU64::new(0).park_timeout(rt, 0, Duration::from_millis(1));
}

impl<H: time::Clock + Drop> Gate for CountGate<H> {
    /// At `Beat` and `Time` it takes a millisecond, so that the workers leave time to the others.
    fn pass<R: Wait>(&self, rt: &R, point: Point, conn: u32) {
        self.enter(rt, point, conn);
        if matches!(point, Point::Beat | Point::Time) {
            rest(rt);
        }
    }

    fn wakes(&self, point: Point, conn: u32) -> u64 {
        self.events.wakes(point, conn)
    }

    fn wait<R: Wait>(&self, rt: &R, point: Point, conn: u32, wakes: u64) {
        self.enter(rt, point, conn);
        self.events.wait(rt, point, conn, wakes);
    }

    fn wake(&self, point: Point, conn: u32) {
        self.events.wake(point, conn);
    }
}
