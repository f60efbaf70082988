//! The commands over a link to a controller.

use crate::standing_fixture::{Outcome, disk_of, ports_of, stood};
use disk_model::memory::MemDisk;
use std::alloc::Global;
use std::process::Abort;
use std::sync::Wait;
use std::thread::Threads;
use std::time::Clock;
use thread_edges::spawner::Spawner;

/// The greeting and the READY that both sides send, and the answer with the status `ok` to the first request of a client.
const ANSWERED: &[u8] =
    b"\xff\0\0\0\0\0\0\0\0\x7f\x03\0NULL\0\0\0\0\0\0\0\0\0\0\0\0\0\0\0\0\0\0\0\0\0\0\0\0\0\0\0\0\0\0\0\0\0\0\0\0\0\0\0\0\0\0\0\0\0\0\0\0\x04\x1c\x05READY\x0bSocket-Type\0\0\0\x06ROUTER\x01\x09<IDS|MSG>\x01@16133ebcf4dd5455e50cd4fd7a2e917a4da3eb59322fef9ec11276840a928788\x01){\"msg_id\":\"a\",\"msg_type\":\"execute_reply\"}\x011{\"msg_id\":\"00000000-0000-4000-8000-000000000000\"}\x01\x02{}\0\x0f{\"status\":\"ok\"}";

/// The same with the status `error`.
const REFUSED: &[u8] =
    b"\xff\0\0\0\0\0\0\0\0\x7f\x03\0NULL\0\0\0\0\0\0\0\0\0\0\0\0\0\0\0\0\0\0\0\0\0\0\0\0\0\0\0\0\0\0\0\0\0\0\0\0\0\0\0\0\0\0\0\0\0\0\0\0\x04\x1c\x05READY\x0bSocket-Type\0\0\0\x06ROUTER\x01\x09<IDS|MSG>\x01@2676ab82eb69a91482db07a2549e5250207c97e3d9e71dceddd39a513f8a1fd1\x01){\"msg_id\":\"a\",\"msg_type\":\"execute_reply\"}\x011{\"msg_id\":\"00000000-0000-4000-8000-000000000000\"}\x01\x02{}\0\x12{\"status\":\"error\"}";

/// Does what a line asks for over a link that gives these octets.
fn over_link<R: Wait + Threads + Clock + Abort + Drop + Copy + Send + Sync + 'static>(
    rt: R,
    alloc: Global,
    line: &str,
    octets: &[u8],
) -> Outcome<MemDisk> {
    let ports = ports_of(&rt, alloc, b"", &[]);
    let disk = disk_of(&rt, alloc, b"");
    stood(
        rt,
        alloc,
        line,
        ports,
        octets,
        disk,
        Spawner::<R>::refusing(),
    )
}

/// Whether a client over a link that gives these octets ends with this status, printed this and said what begins so, and
/// shows its link, where it had one.
fn is_client_end<R: Wait + Threads + Clock + Abort + Drop + Copy + Send + Sync + 'static>(
    rt: R,
    alloc: Global,
    octets: &[u8],
    status: u8,
    printed: &[u8],
    said: &[u8],
) -> bool {
    let end = over_link(rt, alloc, "client h 5000 run 6*7 --key k", octets);
    end.is(status, printed, said) && end.has_link() == !octets.is_empty()
}

#[test]
fn a_client_prints_its_answer(rt: HostRuntime) {
    let alloc = rt.alloc();
    assert!(rt; is_client_end(rt, alloc, ANSWERED, 0, b"{\"status\":\"ok\"}\n", b""));
    assert!(rt; is_client_end(rt, alloc, REFUSED, 1, b"{\"status\":\"error\"}\n", b""));
    let front = &ANSWERED[..94];
    assert!(rt; is_client_end(rt, alloc, front, 13, b"", b"ipcluster: link fault\n"));
    assert!(rt; is_client_end(rt, alloc, b"", 13, b"", b"ipcluster: link fault\n"));
}

#[test]
fn an_engine_works_to_the_end_of_its_link(rt: HostRuntime) {
    let alloc = rt.alloc();
    let end = over_link(rt, alloc, "engine h 5000 e0 --key k", ANSWERED);
    assert!(rt; end.is(0, b"", b"") && end.has_link());
}

#[test]
fn words_without_a_reading_are_told_so(rt: HostRuntime) {
    let alloc = rt.alloc();
    for line in [
        "engine h 5000 e0",
        "serve h 0 db --key k",
        "replay db --key k",
    ] {
        let end = over_link(rt, alloc, line, ANSWERED);
        let said = b"ipcluster: the command line has no reading\n";
        assert!(rt; end.is(2, b"", said) && end.has_disk());
    }
}
