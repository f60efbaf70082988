//! A client and an engine over links that are dialled.

use cluster_types::text::Text;
use command_words::standing::Action;
use edges::memory::{MemSink, MemSource};
use hmac_sign::Key;
use link_commands::client::{ClientEnd, run_client};
use link_commands::engine::{EngineEnd, run_engine};
use link_commands::host::Host;
use std::alloc::Global;
use std::process::Abort;
use std::sync::Wait;
use thread_edges::clock::ListClock;
use thread_edges::memory::{Links, MemDialer};
use thread_edges::words::ListWords;

/// The greeting and the READY that both sides send, and the answer with the status `ok` to the first request of a client.
const ANSWERED: &[u8] =
    b"\xff\0\0\0\0\0\0\0\0\x7f\x03\0NULL\0\0\0\0\0\0\0\0\0\0\0\0\0\0\0\0\0\0\0\0\0\0\0\0\0\0\0\0\0\0\0\0\0\0\0\0\0\0\0\0\0\0\0\0\0\0\0\0\x04\x1c\x05READY\x0bSocket-Type\0\0\0\x06ROUTER\x01\x09<IDS|MSG>\x01@16133ebcf4dd5455e50cd4fd7a2e917a4da3eb59322fef9ec11276840a928788\x01){\"msg_id\":\"a\",\"msg_type\":\"execute_reply\"}\x011{\"msg_id\":\"00000000-0000-4000-8000-000000000000\"}\x01\x02{}\0\x0f{\"status\":\"ok\"}";

/// The same with the status `error`.
const REFUSED: &[u8] =
    b"\xff\0\0\0\0\0\0\0\0\x7f\x03\0NULL\0\0\0\0\0\0\0\0\0\0\0\0\0\0\0\0\0\0\0\0\0\0\0\0\0\0\0\0\0\0\0\0\0\0\0\0\0\0\0\0\0\0\0\0\0\0\0\0\x04\x1c\x05READY\x0bSocket-Type\0\0\0\x06ROUTER\x01\x09<IDS|MSG>\x01@2676ab82eb69a91482db07a2549e5250207c97e3d9e71dceddd39a513f8a1fd1\x01){\"msg_id\":\"a\",\"msg_type\":\"execute_reply\"}\x011{\"msg_id\":\"00000000-0000-4000-8000-000000000000\"}\x01\x02{}\0\x12{\"status\":\"error\"}";

/// A dialer with one link, which gives these octets.
fn dialer_of<R: Abort>(rt: &R, alloc: Global, octets: &[u8]) -> MemDialer {
    let mut links = Links::new(alloc);
    let source = MemSource::new(alloc, octets, &[]).expect(rt, "memory is ample");
    let sink = MemSink::new(alloc, &[]).expect(rt, "memory is ample");
    links.push(source, sink).expect(rt, "memory is ample");
    MemDialer::new(alloc, links, &[]).expect(rt, "memory is ample")
}

/// The status with which a client ends that asks for an action over a link with these octets, and whether it prints this.
fn asked<R: Wait + Abort + Drop + Copy>(
    rt: &R,
    alloc: Global,
    action: &Action,
    octets: &[u8],
    wanted: &[u8],
) -> (u8, bool) {
    let key = Key::new(alloc, b"k").expect(rt, "a key");
    let mut dialer = dialer_of(rt, alloc, octets);
    let clock = ListClock::new(alloc, &[]).expect(rt, "memory is ample");
    let words = ListWords::new(alloc, &[0, 0]).expect(rt, "memory is ample");
    let mut output = MemSink::new(alloc, &[]).expect(rt, "memory is ample");
    let mut host = Host {
        rt: *rt,
        alloc,
        clock,
        words,
    };
    let end = run_client(&mut host, action, &key, &mut dialer, &mut output);
    let status = match end {
        ClientEnd::Answered { ok, .. } => u8::from(!ok),
        ClientEnd::OutputFault { .. } => 4,
        ClientEnd::OutOfMemory => 8,
        _ => 13,
    };
    (status, output.written() == wanted)
}

#[test]
fn a_client_prints_its_answer(rt: HostRuntime) {
    let alloc = rt.alloc();
    let code = Text::new(alloc, "6*7").expect(&rt, "memory is ample");
    let action = Action::Run { code };
    let cases: [(&[u8], &[u8], u8); 3] = [
        (ANSWERED, b"{\"status\":\"ok\"}\n", 0),
        (REFUSED, b"{\"status\":\"error\"}\n", 1),
        (&ANSWERED[..94], b"", 13),
    ];
    for (octets, printed, status) in cases {
        assert_eq!(rt; asked(&rt, alloc, &action, octets, printed), (status, true));
    }
}

#[test]
fn a_client_prints_the_answer_to_an_abort(rt: HostRuntime) {
    let alloc = rt.alloc();
    let id = Text::new(alloc, "a").expect(&rt, "memory is ample");
    let action = Action::Abort { id };
    let told = asked(&rt, alloc, &action, REFUSED, b"{\"status\":\"error\"}\n");
    assert_eq!(rt; told, (1, true));
}

#[test]
fn an_engine_works_over_one_link(rt: HostRuntime) {
    let alloc = rt.alloc();
    let key = Key::new(alloc, b"k").expect(&rt, "a key");
    let mut dialer = dialer_of(&rt, alloc, ANSWERED);
    let mut host = Host {
        rt,
        alloc,
        clock: ListClock::new(alloc, &[]).expect(&rt, "memory is ample"),
        words: ListWords::new(alloc, &[]).expect(&rt, "memory is ample"),
    };
    let end = run_engine(&mut host, "e0", &key, &mut dialer);
    assert!(rt; matches!(end, EngineEnd::Done { .. }));
    let end = run_engine(&mut host, "e0", &key, &mut dialer);
    assert!(rt; matches!(end, EngineEnd::NotDialled));
}
