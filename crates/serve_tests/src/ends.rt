//! Ends before all links have ended.

use crate::controller::{
    AMPLE, ASK, hub_ports, in_one_piece, in_two_pieces, new_desk, new_gate, port_of, served,
    served_by,
};
use cluster_types::config::Channel;
use controller_threads::end::ServeEnd;
use std::sync::Arc;
use thread_edges::gate::Point;
use thread_edges::spawner::Spawner;

/// The shutdown request `stop`, signed under the key `k`.
const STOP: &[u8] =
    b"\x01\x09<IDS|MSG>\x01@15f62feb9e3a940bc525d2f4ffbda22e163d17c4ef2e29fddbefd70dcdf0e013\x01/{\"msg_id\":\"stop\",\"msg_type\":\"shutdown_request\"}\x01\x02{}\x01\x02{}\0\x02{}";

/// The workers that a gate holds until nothing happens here.
const WORKERS: [(Point, u32); 2] = [(Point::Beat, 0), (Point::Time, 0)];

const NEVER: (Point, u32) = (Point::Wrote, 7);

#[test]
fn a_shutdown(rt: HostRuntime) {
    let alloc = rt.alloc();
    let gate = new_gate(&rt, alloc, &WORKERS, NEVER, &[]);
    let link = in_two_pieces(&rt, alloc, STOP, b"");
    let ports = hub_ports(&rt, alloc, &[&link]);
    let end = served(&rt, alloc, ports, AMPLE, &gate);
    assert!(rt; matches!(end, ServeEnd::Stopped(_)));
    gate.await_passes(&rt, Point::Wrote, 1, 1);
    assert!(rt; gate.passes(Point::Wrote, 1) >= 1);
}

#[test]
fn a_port_that_fails(rt: HostRuntime) {
    let alloc = rt.alloc();
    let gate = new_gate(&rt, alloc, &WORKERS, NEVER, &[]);
    let mut ports = hub_ports(&rt, alloc, &[]);
    ports.task = port_of(&rt, alloc, &[], &[1]);
    let end = served(&rt, alloc, ports, AMPLE, &gate);
    let channel = match end {
        ServeEnd::ListenerFault { channel, .. } => Some(channel),
        _ => None,
    };
    assert_eq!(rt; channel, Some(Channel::Task));
}

#[test]
fn a_spawner_that_refuses(rt: HostRuntime) {
    let alloc = rt.alloc();
    let (desk, pass) = new_desk(&rt, alloc, AMPLE);
    let desk = Arc::new(alloc, desk).expect(&rt, "memory is ample");
    let gate = new_gate(&rt, alloc, &WORKERS, NEVER, &[]);
    let ports = hub_ports(&rt, alloc, &[]);
    let mut spawner = Spawner::refusing();
    let end = served_by(&rt, alloc, ports, &desk, pass, &gate, &mut spawner);
    assert!(rt; matches!(end, ServeEnd::SpawnFault));
}

#[test]
fn a_history_that_is_full(rt: HostRuntime) {
    let alloc = rt.alloc();
    let gate = new_gate(&rt, alloc, &WORKERS, NEVER, &[]);
    let link = in_one_piece(&rt, alloc, ASK);
    let ports = hub_ports(&rt, alloc, &[&link]);
    let end = served(&rt, alloc, ports, 1, &gate);
    let sums = match end {
        ServeEnd::HistoryFull { entries, bytes, .. } => Some((entries, bytes)),
        _ => None,
    };
    assert_eq!(rt; sums, Some((2, 122)));
}

#[test]
fn ports_without_links(rt: HostRuntime) {
    let alloc = rt.alloc();
    let gate = new_gate(&rt, alloc, &[], NEVER, &[]);
    let ports = hub_ports(&rt, alloc, &[]);
    let end = served(&rt, alloc, ports, AMPLE, &gate);
    assert!(rt; matches!(end, ServeEnd::Ended { .. }));
}
