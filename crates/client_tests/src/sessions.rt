//! Sessions over streams in memory.

use edges::memory::{MemSink, MemSource};
use engine_core::engine::Engine;
use hmac_sign::Key;
use link_commands::end::DialledEnd;
use link_commands::working::serve_engine;
use std::alloc::Global;
use std::process::Abort;
use std::sync::Wait;
use thread_edges::clock::ListClock;
use zmtp_frames::fault::FrameFault;
use zmtp_peer::fault::PeerFault;

/// The greeting and the READY that both sides send.
const OWN: &[u8] =
    b"\xff\0\0\0\0\0\0\0\0\x7f\x03\0NULL\0\0\0\0\0\0\0\0\0\0\0\0\0\0\0\0\0\0\0\0\0\0\0\0\0\0\0\0\0\0\0\0\0\0\0\0\0\0\0\0\0\0\0\0\0\0\0\0\x04\x1c\x05READY\x0bSocket-Type\0\0\0\x06ROUTER";

/// The request `a`, to evaluate `x = 6*7`, signed under the key `k`.
const FIRST: &[u8] =
    b"\x01\x09<IDS|MSG>\x01@e2da7050afaa71be4a5f23ed8da3d072f79a14bf1f8b14aad123513b192919db\x01+{\"msg_id\":\"a\",\"msg_type\":\"execute_request\"}\x01\x02{}\x01\x02{}\0\x12{\"code\":\"x = 6*7\"}";

/// The request `b`, to evaluate `x = 1`, signed under another key.
const FORGED: &[u8] =
    b"\x01\x09<IDS|MSG>\x01@26972f84458c68404fbf0f62ee2746a990d6710afd0598a4892b1a8ac87d92ff\x01+{\"msg_id\":\"b\",\"msg_type\":\"execute_request\"}\x01\x02{}\x01\x02{}\0\x10{\"code\":\"x = 1\"}";

/// A message `c` that is no request.
const OTHER: &[u8] =
    b"\x01\x09<IDS|MSG>\x01@54a6ad40047f45660f44826fe2f316e8ff676f97bd90f5b8587c9136c8c43f37\x01){\"msg_id\":\"c\",\"msg_type\":\"execute_reply\"}\x01\x02{}\x01\x02{}\0\x02{}";

/// The request `d`, to evaluate `x + 1`.
const SECOND: &[u8] =
    b"\x01\x09<IDS|MSG>\x01@8704e47f43c1ba69d78fdaad23343ad1042aca34bfcd87de1d14c3add9138d3c\x01+{\"msg_id\":\"d\",\"msg_type\":\"execute_request\"}\x01\x02{}\x01\x02{}\0\x10{\"code\":\"x + 1\"}";

/// The registration of the engine `e0`, 7 milliseconds after the start of 1970.
const JOIN: &[u8] =
    b"\x01\x09<IDS|MSG>\x01@3549f2a96cf35bac1fff6b249a8cf48461be3ba2d296ae29a930f967679b268d\x01\x84{\"msg_id\":\"e0-0\",\"session\":\"e0\",\"username\":\"e0\",\"date\":\"1970-01-01T00:00:00.007Z\",\"msg_type\":\"registration_request\",\"version\":\"5.3\"}\x01\x02{}\x01\x02{}\0\x0d{\"uuid\":\"e0\"}";

/// The reply to `a`, a millisecond later.
const FIRST_ANSWER: &[u8] =
    b"\x01\x09<IDS|MSG>\x01@c8b5b349083f619dfc029be54bb1bf7116f0a443cce0b02d2dc616832144d834\x01}{\"msg_id\":\"e0-1\",\"session\":\"e0\",\"username\":\"e0\",\"date\":\"1970-01-01T00:00:00.008Z\",\"msg_type\":\"execute_reply\",\"version\":\"5.3\"}\x01+{\"msg_id\":\"a\",\"msg_type\":\"execute_request\"}\x01\x02{}\0G{\"status\":\"ok\",\"execution_count\":1,\"user_expressions\":{},\"result\":\"42\"}";

/// The reply to `d`.
const SECOND_ANSWER: &[u8] =
    b"\x01\x09<IDS|MSG>\x01@97e5945985da365cce42ce9ca8ccb806c58fa6bbbff05e6477b25206e10c1974\x01}{\"msg_id\":\"e0-2\",\"session\":\"e0\",\"username\":\"e0\",\"date\":\"1970-01-01T00:00:00.008Z\",\"msg_type\":\"execute_reply\",\"version\":\"5.3\"}\x01+{\"msg_id\":\"d\",\"msg_type\":\"execute_request\"}\x01\x02{}\0G{\"status\":\"ok\",\"execution_count\":2,\"user_expressions\":{},\"result\":\"43\"}";

/// Octets one after another.
fn joined<R: Abort>(rt: &R, alloc: Global, parts: &[&[u8]]) -> Vec<u8> {
    let mut octets = Vec::new(alloc);
    for part in parts {
        octets.extend_from_slice(part).expect(rt, "memory is ample");
    }
    octets
}

/// How a session over these octets ends, where reads and writes of these numbers fail, whether a front of the octets that
/// are due was written, and how many.
fn served<R: Wait + Abort>(
    rt: &R,
    alloc: Global,
    octets: &[u8],
    read: &[u64],
    write: &[u64],
) -> (DialledEnd, bool, usize) {
    let mut engine = Engine::new(alloc, "e0").expect(rt, "an engine");
    let key = Key::new(alloc, b"k").expect(rt, "a key");
    let mut reader = MemSource::new(alloc, octets, read).expect(rt, "memory is ample");
    let mut writer = MemSink::new(alloc, write).expect(rt, "memory is ample");
    let mut clock = ListClock::new(alloc, &[7, 8]).expect(rt, "memory is ample");
    let end = serve_engine(
        rt,
        alloc,
        &mut engine,
        &key,
        &mut reader,
        &mut writer,
        &mut clock,
    );
    let due = joined(rt, alloc, &[OWN, JOIN, FIRST_ANSWER, SECOND_ANSWER]);
    let written = writer.written();
    (end, due.starts_with(written), written.len())
}

const LINK_FAULT: DialledEnd = DialledEnd::LinkFault;

#[test]
fn a_session_is_served(rt: HostRuntime) {
    let alloc = rt.alloc();
    let whole = joined(&rt, alloc, &[OWN, FIRST, FORGED, OTHER, SECOND]);
    let bad = joined(&rt, alloc, &[OWN, FIRST, b"\x08", SECOND]);
    // The writes are the greeting, READY, the registration and the two replies.
    let cases: [(&[u8], &[u64], &[u64], (DialledEnd, bool, usize)); 8] = [
        (&whole, &[], &[], (DialledEnd::Ended, true, 980)),
        (&OWN[..64], &[], &[], (DialledEnd::Ended, true, 94)),
        (
            &bad,
            &[],
            &[],
            (
                DialledEnd::ZmtpFault(PeerFault::Frame(FrameFault::BadFlags(244))),
                true,
                654,
            ),
        ),
        (&whole, &[1], &[], (LINK_FAULT, true, 64)),
        // what came by the first read is answered before the second one
        (&whole, &[2], &[], (LINK_FAULT, true, 980)),
        (&whole, &[], &[1], (LINK_FAULT, true, 0)),
        (&whole, &[], &[3], (LINK_FAULT, true, 94)),
        (&whole, &[], &[5], (LINK_FAULT, true, 654)),
    ];
    for (octets, read, write, wanted) in cases {
        assert_eq!(rt; served(&rt, alloc, octets, read, write), wanted);
    }
}
