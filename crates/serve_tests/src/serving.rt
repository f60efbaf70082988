//! A controller over ports in memory.

use crate::standing_fixture::{Outcome, disk_of, ports_of, stood};
use disk_model::fuse::FuseDisk;
use disk_model::memory::MemDisk;
use std::alloc::Global;
use std::process::Abort;
use std::sync::Wait;
use std::thread::Threads;
use std::time::Clock;
use thread_edges::spawner::Spawner;

const SERVE: &str = "serve h 5000 db --key k";

/// The greeting and the READY that both sides send.
const OWN: &[u8] =
    b"\xff\0\0\0\0\0\0\0\0\x7f\x03\0NULL\0\0\0\0\0\0\0\0\0\0\0\0\0\0\0\0\0\0\0\0\0\0\0\0\0\0\0\0\0\0\0\0\0\0\0\0\0\0\0\0\0\0\0\0\0\0\0\0\0\0\x04\x1c\x05READY\x0bSocket-Type\0\0\0\x06ROUTER";

/// The same, and the connection request `ask`, signed under the key `k`.
const ASKING: &[u8] =
    b"\xff\0\0\0\0\0\0\0\0\x7f\x03\0NULL\0\0\0\0\0\0\0\0\0\0\0\0\0\0\0\0\0\0\0\0\0\0\0\0\0\0\0\0\0\0\0\0\0\0\0\0\0\0\0\0\0\0\0\0\0\0\0\0\0\0\x04\x1c\x05READY\x0bSocket-Type\0\0\0\x06ROUTER\x01\x09<IDS|MSG>\x01@7235ceda5687e97a6a53a38fa48ff38111bdb2450e0b7564a195a96bf2d73eaf\x010{\"msg_id\":\"ask\",\"msg_type\":\"connection_request\"}\x01\x02{}\x01\x02{}\0\x02{}";

/// Serves, with a thread for each job, a link to the hub that gives these octets, where there are some.
fn served<R: Wait + Threads + Clock + Abort + Drop + Copy + Send + Sync + 'static>(
    rt: R,
    alloc: Global,
    line: &str,
    octets: &[u8],
    failing: &[u64],
    database: &[u8],
) -> Outcome<MemDisk> {
    let ports = ports_of(&rt, alloc, octets, failing);
    let disk = disk_of(&rt, alloc, database);
    let spawner = Spawner::beside(alloc, rt).expect(&rt, "memory is ample");
    stood(rt, alloc, line, ports, b"", disk, spawner)
}

#[test]
fn a_controller_ends_with_its_ports_and_links(rt: HostRuntime) {
    let alloc = rt.alloc();
    for octets in [OWN, &OWN[..64]] {
        let end = served(rt, alloc, SERVE, octets, &[], b"");
        assert!(rt; end.is(0, b"", b"") && end.has_ports());
    }
}

/// Whether a controller over a link that asks something ends with this status, printed nothing and said what begins so.
fn is_end<R: Wait + Threads + Clock + Abort + Drop + Copy + Send + Sync + 'static>(
    rt: R,
    alloc: Global,
    line: &str,
    failing: &[u64],
    database: &[u8],
    status: u8,
    said: &[u8],
) -> bool {
    served(rt, alloc, line, ASKING, failing, database).is(status, b"", said)
}

#[test]
fn a_controller_says_why_it_ends(rt: HostRuntime) {
    let alloc = rt.alloc();
    let said = b"ipcluster: listener fault\n";
    assert!(rt; is_end(rt, alloc, SERVE, &[1], b"", 11, said));
    let said = b"ipcluster: damaged database at 0\n";
    assert!(rt; is_end(rt, alloc, SERVE, &[], &[0; 33], 7, said));
    let line = "serve h 5000 db --key k --entries 1";
    let said = b"ipcluster: history full at 2 entries and ";
    assert!(rt; is_end(rt, alloc, line, &[], b"", 9, said));
}

/// The status of a controller over a whole link whose disk fails the call of this number, with what it said.
fn fused<R: Wait + Threads + Clock + Abort + Drop + Copy + Send + Sync + 'static>(
    rt: R,
    alloc: Global,
    call: u64,
) -> Outcome<FuseDisk> {
    let ports = ports_of(&rt, alloc, OWN, &[]);
    let disk = FuseDisk::new(disk_of(&rt, alloc, b""), call);
    let spawner = Spawner::beside(alloc, rt).expect(&rt, "memory is ample");
    stood(rt, alloc, SERVE, ports, b"", disk, spawner)
}

#[test]
fn a_call_of_the_disk_that_fails_as_it_opens_ends_a_controller(rt: HostRuntime) {
    let alloc = rt.alloc();
    // a sync, the size, and four writes with a sync each: the head but for an octet, that one, the Open, and its gate
    for call in 1..11 {
        assert!(rt;
            fused(rt, alloc, call).is(5, b"", b"ipcluster: disk fault\n"),
            "{call}"
        );
    }
    assert!(rt; fused(rt, alloc, 0).is(0, b"", b""));
}

#[test]
fn a_controller_without_threads_says_so(rt: HostRuntime) {
    let alloc = rt.alloc();
    let ports = ports_of(&rt, alloc, b"", &[]);
    let disk = disk_of(&rt, alloc, b"");
    let spawner = Spawner::<HostRuntime>::refusing();
    let end = stood(rt, alloc, SERVE, ports, b"", disk, spawner);
    assert!(rt; end.is(12, b"", b"ipcluster: no worker could be started\n"));
}
