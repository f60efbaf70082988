//! The frames of one out of each kind, under the key `k`, as the Python model gives them.

use cluster_outgo::frames_of;
use cluster_types::octets::Octets;
use cluster_types::out::Out;
use cluster_types::sequence::Sequence;
use cluster_types::shared_message::SharedMessage;
use cluster_types::text::Text;
use edges::frames::Frames;
use hmac_sign::Key;
use std::alloc::Global;
use std::process::Abort;

fn text<R: Abort>(rt: &R, alloc: Global, from: &str) -> Text {
    Text::new(alloc, from).expect(rt, "memory is ample")
}

fn octets<R: Abort>(rt: &R, alloc: Global, from: &[u8]) -> Octets {
    Octets::new(alloc, from).expect(rt, "memory is ample")
}

/// The key `k`.
fn key<R: Abort>(rt: &R, alloc: Global) -> Key {
    Key::new(alloc, b"k").expect(rt, "a key")
}

/// Whether this frame stands at this place.
fn is_frame(frames: &Frames, place: usize, body: &[u8]) -> bool {
    match frames.get(place) {
        Some(found) => found == body,
        None => false,
    }
}

/// The frames of a message that the controller makes, with one buffer.
fn frames_made<R: Abort>(rt: &R, alloc: Global) -> Frames {
    let mut buffers = Sequence::new(alloc);
    buffers
        .push(octets(rt, alloc, b"x"))
        .expect(rt, "memory is ample");
    let made = Out::Made {
        conn: 3,
        moment: 1_700_000_000_000,
        msg_id: text(rt, alloc, "hub-1-2"),
        msg_type: text(rt, alloc, "queue_reply"),
        parent: octets(rt, alloc, b"{\"msg_id\":\"q\"}"),
        content: octets(rt, alloc, b"{\"status\":\"ok\"}"),
        buffers,
    };
    frames_of(alloc, &made, &key(rt, alloc)).expect(rt, "memory is ample")
}

#[test]
fn sends_made(rt: HostRuntime) {
    let frames = frames_made(&rt, rt.alloc());
    assert_eq!(rt; frames.len(), 7);
    assert!(rt; is_frame(&frames, 0, b"<IDS|MSG>"));
    assert!(rt;
        is_frame(
            &frames,
            1,
            b"6f7f41e264f16056e4c0075dd8958c39d1716b875279641c526ac67a39407026"
        )
    );
    assert!(rt;
        is_frame(
            &frames,
            2,
            b"{\"msg_id\":\"hub-1-2\",\"session\":\"controller\",\"username\":\"controller\",\"date\":\"2023-11-14T22:13:20.000Z\",\"msg_type\":\"queue_reply\",\"version\":\"5.3\"}"
        )
    );
    assert!(rt; is_frame(&frames, 4, b"{}"));
    assert!(rt; is_frame(&frames, 6, b"x"));
}

/// The frames of a message that is passed on.
fn frames_passed<R: Abort>(rt: &R, alloc: Global) -> Frames {
    let message = SharedMessage::new(
        alloc,
        b"e0",
        b"{\"msg_id\":\"a\",\"msg_type\":\"t\"}",
        b"{}",
        b"{\"timeout\": 0.0}",
        b"{\"code\":\"1\"}",
        Sequence::new(alloc),
    )
    .expect(rt, "memory is ample");
    let passed = Out::Pass { conn: 2, message };
    frames_of(alloc, &passed, &key(rt, alloc)).expect(rt, "memory is ample")
}

#[test]
fn sends_passed(rt: HostRuntime) {
    let frames = frames_passed(&rt, rt.alloc());
    assert_eq!(rt; frames.len(), 6);
    assert!(rt;
        is_frame(
            &frames,
            1,
            b"50f461f91cc152edec00a2841833bc08999fb48e018ef27ac48530e45bdaad91"
        )
    );
    assert!(rt; is_frame(&frames, 4, b"{\"timeout\": 0.0}"));
}
