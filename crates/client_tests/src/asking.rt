//! Requests over streams in memory.

ghost use Rattle.std.specs.Prelude.{◌≡◌, []};

use cluster_types::sequence::Sequence;
use cluster_types::shared_message::SharedMessage;
use edges::memory::{MemSink, MemSource};
use hmac_sign::Key;
use link_commands::asking::ask_over;
use link_commands::end::DialledEnd;
use link_commands::status::is_ok;
use std::alloc::Global;
use std::process::Abort;
use std::sync::Wait;
use zmtp_frames::fault::FrameFault;
use zmtp_peer::fault::PeerFault;

/// The greeting and the READY that both sides send.
const OWN: &[u8] =
    b"\xff\0\0\0\0\0\0\0\0\x7f\x03\0NULL\0\0\0\0\0\0\0\0\0\0\0\0\0\0\0\0\0\0\0\0\0\0\0\0\0\0\0\0\0\0\0\0\0\0\0\0\0\0\0\0\0\0\0\0\0\0\0\0\x04\x1c\x05READY\x0bSocket-Type\0\0\0\x06ROUTER";

/// The header of the request `q`.
const HEADER: &[u8] = b"{\"msg_id\":\"q\",\"msg_type\":\"history_request\"}";

/// The request `q`, signed under the key `k`.
const REQUEST: &[u8] =
    b"\x01\x09<IDS|MSG>\x01@a5f3511b431558b6fb5f47e229028306bcef641c1b2b46365fb859c1be6432b9\x01+{\"msg_id\":\"q\",\"msg_type\":\"history_request\"}\x01\x02{}\x01\x02{}\0\x02{}";

/// The answer to `q`.
const ANSWER: &[u8] =
    b"\x01\x09<IDS|MSG>\x01@cf1dcfa0d786bc3d6a8d483b2a679e416273c56992ea5d540c1cf2bf4e3ca6c2\x014{\"msg_id\":\"controller-1\",\"msg_type\":\"history_reply\"}\x01+{\"msg_id\":\"q\",\"msg_type\":\"history_request\"}\x01\x02{}\0\x0f{\"status\":\"ok\"}";

/// An answer to another request.
const OTHER: &[u8] =
    b"\x01\x09<IDS|MSG>\x01@370fc10c8ca4dbe1a5c1f5e05536ecef83f7338d598df8d023028ee03cb084c8\x014{\"msg_id\":\"controller-1\",\"msg_type\":\"history_reply\"}\x01+{\"msg_id\":\"p\",\"msg_type\":\"history_request\"}\x01\x02{}\0\x12{\"status\":\"error\"}";

/// An answer to `q` that is signed under another key.
const FORGED: &[u8] =
    b"\x01\x09<IDS|MSG>\x01@1b8d03099cdc99cd7befb26c8cca3691580b71f832cfc1fa68e3bafd5b4e914c\x014{\"msg_id\":\"controller-1\",\"msg_type\":\"history_reply\"}\x01+{\"msg_id\":\"q\",\"msg_type\":\"history_request\"}\x01\x02{}\0\x12{\"status\":\"error\"}";

/// Octets one after another.
fn joined<R: Abort>(rt: &R, alloc: Global, parts: &[&[u8]]) -> Vec<u8> {
    let mut octets = Vec::new(alloc);
    for part in parts {
        octets.extend_from_slice(part).expect(rt, "memory is ample");
    }
    octets
}

/// The request `q`.
fn request<R: Abort>(rt: &R, alloc: Global) -> SharedMessage
    ensures { result.target ≡ [] }
{
    SharedMessage::new(
        alloc,
        b"",
        HEADER,
        b"{}",
        b"{}",
        b"{}",
        Sequence::new(alloc),
    )
    .expect(rt, "memory is ample")
}

/// How a session over these octets ends, where reads and writes of these numbers fail: whether it gives the answer, or how it
/// ends else; whether a front of the octets that are due was written, and how many.
#[tactic(auto, unfolding(jupyter_parts::specs::Signed::delimiter))]
fn asked<R: Wait + Abort>(
    rt: &R,
    alloc: Global,
    octets: &[u8],
    read: &[u64],
    write: &[u64],
) -> (Result<bool, DialledEnd>, bool, usize) {
    let request = request(rt, alloc);
    let key = Key::new(alloc, b"k").expect(rt, "a key");
    let mut reader = MemSource::new(alloc, octets, read).expect(rt, "memory is ample");
    let mut writer = MemSink::new(alloc, write).expect(rt, "memory is ample");
    let end = match ask_over(rt, alloc, &request, &key, &mut reader, &mut writer) {
        Ok(answer) => Ok(answer.content() == b"{\"status\":\"ok\"}".as_slice()),
        Err(end) => Err(end),
    };
    let due = joined(rt, alloc, &[OWN, REQUEST]);
    let written = writer.written();
    (end, due.starts_with(written), written.len())
}

const LINK_FAULT: Result<bool, DialledEnd> = Err(DialledEnd::LinkFault);

#[test]
fn a_request_is_answered(rt: HostRuntime) {
    let alloc = rt.alloc();
    let whole = joined(&rt, alloc, &[OWN, OTHER, FORGED, ANSWER]);
    let unanswered = joined(&rt, alloc, &[OWN, OTHER, FORGED]);
    let bad = joined(&rt, alloc, &[OWN, b"\x08", ANSWER]);
    let bad_behind = joined(&rt, alloc, &[OWN, ANSWER, b"\x08"]);
    let bad_flags = DialledEnd::ZmtpFault(PeerFault::Frame(FrameFault::BadFlags(94)));
    // The writes are the greeting, READY and the request.
    let cases: [(
        &[u8],
        &[u64],
        &[u64],
        (Result<bool, DialledEnd>, bool, usize),
    ); 9] = [
        (&whole, &[], &[], (Ok(true), true, 228)),
        (&bad_behind, &[], &[], (Ok(true), true, 228)),
        (&unanswered, &[], &[], (Err(DialledEnd::Ended), true, 228)),
        (&OWN[..64], &[], &[], (Err(DialledEnd::Ended), true, 94)),
        (&bad, &[], &[], (Err(bad_flags), true, 228)),
        (&whole, &[1], &[], (LINK_FAULT, true, 64)),
        // the answer came by the first read, and no other is made
        (&whole, &[2], &[], (Ok(true), true, 228)),
        (&whole, &[], &[1], (LINK_FAULT, true, 0)),
        (&whole, &[], &[3], (LINK_FAULT, true, 94)),
    ];
    for (octets, read, write, wanted) in cases {
        assert_eq!(rt; asked(&rt, alloc, octets, read, write), wanted);
    }
}

#[test]
fn an_answer_has_a_status(rt: HostRuntime) {
    let alloc = rt.alloc();
    let cases: [(&[u8], bool); 4] = [
        (b"{\"status\":\"ok\"}", true),
        (b"{\"status\":\"error\"}", false),
        (b"{\"result\":\"ok\"}", false),
        (b"ok", false),
    ];
    for (content, wanted) in cases {
        assert_eq!(rt;
            is_ok(alloc, content).expect(&rt, "memory is ample"),
            wanted
        );
    }
}
