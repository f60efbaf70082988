//! Lists that come to their end, links that fail, jobs in threads, gates and the system.

use edges::memory::{MemSink, MemSource};
use edges::sink::write_all;
use edges::source::{Got, Source};
use std::alloc::Global;
use std::io::ErrorKind;
use std::net::TcpListener;
use std::process::Abort;
use std::random::RandomSource;
use std::sync::atomic::{AtomicU64, Ordering};
use std::sync::{Arc, Wait};
use std::thread::Threads;
use std::time::Duration;
use std::{io, time};
use thread_edges::clock::{Clock, ListClock};
use thread_edges::event_gate::{EventGate, IDLE_MILLIS};
use thread_edges::gate::{Gate, HoldGate, OpenGate, Point};
use thread_edges::links::{Accepted, Dialer, Listener};
use thread_edges::memory::{Links, MemDialer, MemListener};
use thread_edges::sockets::{TcpDial, TcpPort};
use thread_edges::spawner::{Job, Spawner, StartError};
use thread_edges::system::{OsWords, SystemClock};
use thread_edges::words::{ListWords, Words};

#[test]
fn lists(rt: HostRuntime) {
    let mut clock = ListClock::new(rt.alloc(), &[5, 3]).expect(&rt, "memory is ample");
    for want in [5, 3, 3] {
        assert_eq!(rt; clock.now().millis, want);
    }
}

#[test]
fn lists_of_words(rt: HostRuntime) {
    let mut words = ListWords::new(rt.alloc(), &[7]).expect(&rt, "memory is ample");
    let mut none = ListWords::new(rt.alloc(), &[]).expect(&rt, "memory is ample");
    for _ in 0..2 {
        assert_eq!(rt; words.next(), 7);
        assert_eq!(rt; none.next(), 0);
    }
}

/// Links whose sources give these octets.
fn links_of<R: Abort>(rt: &R, alloc: Global, octets: &[u8]) -> Links {
    let mut links = Links::new(alloc);
    for octet in octets {
        let source = MemSource::new(alloc, &[*octet], &[]).expect(rt, "memory is ample");
        let sink = MemSink::new(alloc, &[]).expect(rt, "memory is ample");
        links.push(source, sink).expect(rt, "memory is ample");
    }
    links
}

/// The first octet of a link, as text 0 where there is no link: 1 at the end, 2 where the call failed.
fn first_octet<I: Source + Drop, O: Drop>(accepted: Accepted<I, O>) -> u8 {
    let mut piece = [0u8; 1];
    match accepted {
        Accepted::Pair(mut source, _) => match source.read(&mut piece) {
            Got::Bytes(_) => piece[0],
            _ => 0,
        },
        Accepted::End => 1,
        Accepted::Failed => 2,
    }
}

#[test]
fn links_in_memory(rt: HostRuntime) {
    let links = links_of(&rt, rt.alloc(), b"ab");
    assert_eq!(rt; links.len(), 2);
    assert!(rt; !links.is_empty() && links.get(2).is_none());
    let mut listener = MemListener::new(rt.alloc(), links, &[2]).expect(&rt, "memory is ample");
    for want in [b'a', 2, b'b', 1, 1] {
        assert_eq!(rt; first_octet(listener.accept(&rt)), want);
    }
}

#[test]
fn links_dialled_in_memory(rt: HostRuntime) {
    let links = links_of(&rt, rt.alloc(), b"ab");
    let mut dialer = MemDialer::new(rt.alloc(), links, &[1]).expect(&rt, "memory is ample");
    for want in [2, b'a', b'b', 2] {
        assert_eq!(rt; first_octet(dialer.dial(0)), want);
    }
}

/// Adds 1.
#[derive(Drop)]
struct Count {
    total: Arc<AtomicU64, Global>,
}

impl Job for Count {
    fn run(self) {
        self.total.fetch_add(1, Ordering::SeqCst);
    }
}

/// Starts two jobs, and waits for them.
fn count_two<H: Threads + Drop, R: Wait + Abort>(
    rt: &R,
    spawner: &mut Spawner<H>,
    total: &Arc<AtomicU64, Global>,
) -> Result<(), StartError> {
    for _ in 0..2 {
        let total = Arc::try_clone(total).expect(rt, "memory is ample");
        spawner.run_beside(Count { total })?;
    }
    spawner.join_all(rt);
    Ok(())
}

#[test]
fn jobs(rt: HostRuntime) {
    let total = Arc::new(rt.alloc(), AtomicU64::new(0)).expect(&rt, "memory is ample");
    count_two(&rt, &mut Spawner::<HostRuntime>::here(), &total).expect(&rt, "jobs");
    assert_eq!(rt; total.load(Ordering::SeqCst), 2);
    let mut beside = Spawner::beside(rt.alloc(), rt).expect(&rt, "memory is ample");
    count_two(&rt, &mut beside, &total).expect(&rt, "jobs");
    assert_eq!(rt; total.load(Ordering::SeqCst), 4);
    let refused = count_two(&rt, &mut Spawner::<HostRuntime>::refusing(), &total);
    assert_eq!(rt; refused, Err(StartError::NotStarted));
}

/// A gate that holds the first read until the second.
fn hold_gate<R: Abort>(rt: &R, alloc: Global) -> HoldGate {
    let held = [(Point::Read, 1)];
    HoldGate::new(alloc, &held, (Point::Read, 2), 1).expect(rt, "memory is ample")
}

#[test]
fn gates(rt: HostRuntime) {
    OpenGate::new().pass(&rt, Point::Idle, 1);
    let gate = hold_gate(&rt, rt.alloc());
    gate.pass(&rt, Point::Read, 2);
    gate.pass(&rt, Point::Read, 1);
    assert!(rt; !gate.gave_up());
    let gate = hold_gate(&rt, rt.alloc());
    gate.pass(&rt, Point::Wrote, 1);
    assert!(rt; !gate.gave_up());
    gate.pass(&rt, Point::Read, 1);
    assert!(rt; gate.gave_up());
}

/// Waits at a gate, on the connection 1.
#[derive(Drop)]
struct Sleeper<R: Wait + time::Clock + Drop> {
    rt: R,
    gate: Arc<EventGate<R>, Global>,
    point: Point,
    wakes: u64,
}

impl<R: Wait + time::Clock + Drop> Job for Sleeper<R> {
    fn run(self) {
        self.gate.wait(&self.rt, self.point, 1, self.wakes);
    }
}

#[test]
fn event_gate(rt: HostRuntime) {
    let gate = EventGate::new(rt.alloc(), rt).expect(&rt, "memory is ample");
    let gate = Arc::new(rt.alloc(), gate).expect(&rt, "memory is ample");
    let mut spawner = Spawner::beside(rt.alloc(), rt).expect(&rt, "memory is ample");
    let mut clock = SystemClock::new(rt);
    let start = clock.now().millis;
    for point in [Point::Accepted, Point::Read, Point::Idle, Point::Flush] {
        let wakes = gate.wakes(point, 1);
        let gate = Arc::try_clone(&gate).expect(&rt, "memory is ample");
        gate.wake(point, 4_097);
        spawner
            .run_beside(Sleeper {
                rt,
                gate,
                point,
                wakes,
            })
            .expect(&rt, "a job");
    }
    spawner.join_all(&rt);
    for _ in 0..20 {
        gate.wait(&rt, Point::Idle, 1, 0);
        gate.wait(&rt, Point::Flush, 0, 0);
    }
    assert!(rt; clock.now().millis < start.saturating_add(10 * IDLE_MILLIS));
    assert_eq!(rt;
        (gate.wakes(Point::Idle, 1), gate.wakes(Point::Idle, 2)),
        (1, 0)
    );
    assert_eq!(rt;
        (gate.wakes(Point::Flush, 0), gate.wakes(Point::Read, 1)),
        (1, 0)
    );
}

/// The link, where there is one.
fn link_of<I: Drop, O: Drop>(accepted: Accepted<I, O>) -> Option<(I, O)> {
    match accepted {
        Accepted::Pair(source, sink) => Some((source, sink)),
        _ => None,
    }
}

#[test]
fn sockets(rt: HostRuntime) {
    let listener = TcpListener::bind(&rt, "127.0.0.1:0").expect(&rt, "a listener");
    let first_port = listener.local_addr().expect(&rt, "an address").port();
    let host = "127.0.0.1"
        .to_string(rt.alloc())
        .expect(&rt, "memory is ample");
    let mut port = TcpPort::new(listener);
    let mut dialer = TcpDial::new(rt, host, first_port);
    let (_, mut sink) = link_of(dialer.dial(0)).expect(&rt, "a link dialled");
    let (mut source, _) = link_of(port.accept(&rt)).expect(&rt, "a link accepted");
    assert!(rt; write_all(&mut sink, b"abc").is_ok());
    let mut piece = [0u8; 3];
    assert_eq!(rt; source.read(&mut piece), Got::Bytes(3));
    assert_eq!(rt; piece.as_slice(), b"abc".as_slice());
    dialer.first_port = u16::MAX;
    assert!(rt; link_of(dialer.dial(1)).is_none());
    assert_eq!(rt; (port.faults, dialer.faults), (0, 1));
}

/// A system that answers nothing.
#[derive(Drop)]
struct Broken;

impl time::Clock for Broken {
    fn monotonic(&self) -> io::Result<Duration> {
        Err(io::Error::from(ErrorKind::Other))
    }

    fn since_1970(&self) -> io::Result<Duration> {
        Err(io::Error::from(ErrorKind::Other))
    }
}

impl RandomSource for Broken {
    fn fill_bytes(&self, _: &mut [u8]) -> io::Result<()> {
        Err(io::Error::from(ErrorKind::Other))
    }
}

#[test]
fn system(rt: HostRuntime) {
    let mut clock = SystemClock::new(rt);
    assert!(rt; clock.now().millis > 1_700_000_000_000);
    assert_eq!(rt; SystemClock::new(Broken).now().millis, 0);
    let mut words = OsWords::new(rt);
    assert!(rt; words.next() != words.next());
    let mut words = OsWords::new(Broken);
    assert_eq!(rt; words.next(), 1_442_695_040_888_963_407);
    assert_eq!(rt; words.next(), 1_876_011_003_808_476_466);
}
