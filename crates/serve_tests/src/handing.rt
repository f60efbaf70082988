//! What the threads of a controller hand over, and the list of its writers.

use crate::controller::{Held, new_gate, port_of};
use cluster_types::config::Channel;
use controller_threads::handed::{AcceptedLink, Handed};
use controller_threads::queue::Queue;
use controller_threads::writers::Writers;
use std::alloc::Global;
use std::marker::Brand;
use std::process::Abort;
use std::sync::Wait;
use thread_edges::gate::{Gate, Point};
use thread_edges::links::{Accepted, Listener};
use thread_edges::memory::MemListener;

/// A link that was accepted at the port of this channel.
fn link_of<R: Abort + Wait>(
    rt: &R,
    alloc: Global,
    channel: Channel,
) -> Handed<MemListener, Held, Brand> {
    match port_of(rt, alloc, &[b""], &[]).accept(rt) {
        Accepted::Pair(reader, writer) => Handed::Accepted(AcceptedLink {
            channel,
            number: 0,
            reader,
            writer,
        }),
        _ => panic!(rt; "no link is accepted"),
    }
}

/// The channel of a link that was accepted.
fn channel_of(handed: &Option<Handed<MemListener, Held, Brand>>) -> Option<Channel> {
    match handed {
        Some(Handed::Accepted(link)) => Some(link.channel),
        _ => None,
    }
}

#[test]
fn what_is_handed_over_is_taken_in_its_order(rt: HostRuntime) {
    let alloc = rt.alloc();
    let queue = Queue::<MemListener, Held, Brand>::new(alloc);
    queue.put(&rt, link_of(&rt, alloc, Channel::Mux));
    queue.put(&rt, Handed::LinkEnded);
    queue.put(&rt, link_of(&rt, alloc, Channel::Hub));
    assert_eq!(rt; channel_of(&queue.take(&rt)), Some(Channel::Mux));
    assert!(rt; matches!(queue.take(&rt), Some(Handed::LinkEnded)));
    queue.put(&rt, link_of(&rt, alloc, Channel::Task));
    assert_eq!(rt; channel_of(&queue.take(&rt)), Some(Channel::Hub));
    assert_eq!(rt; channel_of(&queue.take(&rt)), Some(Channel::Task));
}

/// The connections that are listed.
fn listed<R: Abort + Wait>(rt: &R, alloc: Global, writers: &Writers) -> Vec<u32> {
    let mut list = Vec::new(alloc);
    list.push(9).expect(rt, "memory is ample");
    writers
        .copy_into(rt, &mut list)
        .expect(rt, "memory is ample");
    list
}

#[test]
fn writers_are_listed_until_they_end(rt: HostRuntime) {
    let alloc = rt.alloc();
    let writers = Writers::new(alloc);
    assert!(rt; listed(&rt, alloc, &writers).is_empty());
    for conn in [3, 1, 2] {
        writers.add(&rt, conn).expect(&rt, "memory is ample");
    }
    assert_eq!(rt;
        listed(&rt, alloc, &writers).as_slice(),
        [3, 1, 2].as_slice()
    );
    writers.remove(&rt, 1);
    writers.remove(&rt, 7);
    assert_eq!(rt; listed(&rt, alloc, &writers).as_slice(), [3, 2].as_slice());
}

#[test]
fn all_writers_are_woken_and_nobody_else(rt: HostRuntime) {
    let alloc = rt.alloc();
    let writers = Writers::new(alloc);
    let gate = new_gate(&rt, alloc, &[], (Point::Wrote, 7), &[]);
    for conn in [3, 2] {
        writers.add(&rt, conn).expect(&rt, "memory is ample");
    }
    let before = (
        gate.wakes(Point::Idle, 2),
        gate.wakes(Point::Idle, 3),
        gate.wakes(Point::Idle, 4),
    );
    writers.wake_all(&rt, &*gate);
    assert!(rt; gate.wakes(Point::Idle, 2) > before.0);
    assert!(rt; gate.wakes(Point::Idle, 3) > before.1);
    assert_eq!(rt; gate.wakes(Point::Idle, 4), before.2);
}
