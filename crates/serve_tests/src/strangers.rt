//! Links that haven't signed anything.

use crate::answers::{next_number, served_to_the_end};
use crate::controller::{
    AMPLE, ASK, LONG, OWN, hub_ports, in_one_piece, joined, new_desk, new_gate,
};
use controller_threads::closing::Closer;
use controller_threads::pending::Pending;
use std::alloc::Global;
use std::process::Abort;
use std::sync::atomic::{AtomicU64, Ordering};
use std::sync::{Arc, Wait};
use thread_edges::gate::Point;

/// A READY with a property of 73,728 octets, behind a greeting.
fn long_ready<R: Abort>(rt: &R, alloc: Global) -> Vec<u8> {
    let head =
        b"\x06\0\0\0\0\0\x01\x20\x22\x05READY\x0bSocket-Type\0\0\0\x06DEALER\x01X\0\x01\x20\0";
    joined(
        rt,
        alloc,
        &[
            &OWN[..64],
            head,
            &LONG,
            &LONG,
            &LONG,
            &LONG,
            &LONG,
            &LONG,
            &LONG,
            &LONG,
            &LONG,
            ASK,
        ],
    )
}

/// Of five links only the last one signs something, and so only it has a connection.
#[test]
fn strangers_have_no_connection(rt: HostRuntime) {
    let alloc = rt.alloc();
    let (desk, pass) = new_desk(&rt, alloc, AMPLE);
    let desk = Arc::new(alloc, desk).expect(&rt, "memory is ample");
    let held = [(Point::Beat, 0), (Point::Time, 0)];
    let gate = new_gate(&rt, alloc, &held, (Point::Wrote, 1), &[]);
    let half = joined(&rt, alloc, &[&OWN[..32]]);
    let silent = joined(&rt, alloc, &[OWN]);
    let long = long_ready(&rt, alloc);
    let unsigned = in_one_piece(&rt, alloc, b"\x01\x09<IDS|MSG>\0\x02{}");
    let asking = in_one_piece(&rt, alloc, ASK);
    let ports = hub_ports(&rt, alloc, &[&half, &silent, &long, &unsigned, &asking]);
    let mut pass = served_to_the_end(&rt, alloc, ports, &desk, pass, &gate);
    assert!(rt; !gate.gave_up());
    assert_eq!(rt; gate.passes(Point::Wrote, 1), 1);
    assert_eq!(rt; next_number(&rt, alloc, &desk, &mut pass), 2);
}

/// Counts the links that it ends.
#[derive(Drop)]
struct CountCloser {
    closed: Arc<AtomicU64, Global>,
}

impl Closer for CountCloser {
    fn close(&self) {
        self.closed.fetch_add(1, Ordering::SeqCst);
    }
}

/// So many links, of which none has signed anything, with the count of those that were ended.
fn pending_of<R: Abort + Wait>(
    rt: &R,
    alloc: Global,
    links: u32,
) -> (Pending<CountCloser>, Arc<AtomicU64, Global>) {
    let closed = Arc::new(alloc, AtomicU64::new(0)).expect(rt, "memory is ample");
    let pending = Pending::new(alloc).expect(rt, "memory is ample");
    for _ in 0..links {
        let closed = Arc::try_clone(&closed).expect(rt, "memory is ample");
        pending
            .enter(rt, CountCloser { closed })
            .expect(rt, "memory is ample");
    }
    (pending, closed)
}

#[test]
fn the_oldest_gives_way(rt: HostRuntime) {
    let alloc = rt.alloc();
    let (pending, closed) = pending_of(&rt, alloc, 258);
    assert_eq!(rt; closed.load(Ordering::SeqCst), 2);
    assert!(rt; pending.leave(&rt, 1).is_none());
    assert!(rt; pending.leave(&rt, 2).is_some());
}

#[test]
fn the_oldest_give_way_to_octets(rt: HostRuntime) {
    let alloc = rt.alloc();
    let (pending, closed) = pending_of(&rt, alloc, 4);
    pending.note_octets(&rt, 1, 40_000_000);
    pending.note_octets(&rt, 2, 20_000_000);
    assert_eq!(rt; closed.load(Ordering::SeqCst), 0);
    pending.note_octets(&rt, 3, 10_000_000);
    assert_eq!(rt; closed.load(Ordering::SeqCst), 2);
    assert!(rt; pending.leave(&rt, 1).is_none());
    assert!(rt; pending.leave(&rt, 2).is_some());
}

#[test]
fn late_links_are_ended(rt: HostRuntime) {
    let alloc = rt.alloc();
    let (pending, closed) = pending_of(&rt, alloc, 2);
    pending.note_greeting(&rt, 0);
    for _ in 0..9 {
        pending.count_second(&rt);
    }
    assert_eq!(rt; closed.load(Ordering::SeqCst), 0);
    pending.count_second(&rt);
    assert_eq!(rt; closed.load(Ordering::SeqCst), 1);
    for _ in 10..60 {
        pending.count_second(&rt);
    }
    assert_eq!(rt; closed.load(Ordering::SeqCst), 2);
}
