//! Frames that are read and written.

use crate::common::{is_frame, key};
use cluster_types::message::Buffers;
use cluster_types::octets::Octets;
use cluster_types::sequence::Sequence;
use cluster_types::shared_message::SharedMessage;
use edges::frames::Frames;
use jupyter_parts::fault::PartsError;
use jupyter_parts::read::read_parts;
use jupyter_parts::write::write_parts;
use std::alloc::Global;
use std::process::Abort;

/// The four parts that are signed.
const HEADER: &str = "{\"msg_id\":\"a\",\"msg_type\":\"t\"}";

const PARENT: &str = "{}";

const METADATA: &str = "{\"retries\":0}";

const CONTENT: &str = "{\"code\":\"1\"}";

/// Their tag under the key `k`, as Python's hmac gives it.
const TAG: &str = "2c8d5a988cba7790477926f706bc1f810e8077dcac1c66b74015d120da5a26f5";

/// The same with another last digit.
const WRONG_TAG: &str = "2c8d5a988cba7790477926f706bc1f810e8077dcac1c66b74015d120da5a26f0";

/// Frames with these bodies.
fn frames_of<R: Abort>(rt: &R, alloc: Global, bodies: &[&str]) -> Frames {
    let mut frames = Frames::new(alloc);
    for body in bodies {
        frames.push(body.as_bytes()).expect(rt, "memory is ample");
    }
    frames
}

/// The error that frames with these bodies are refused with.
fn refusal_of<R: Abort>(rt: &R, alloc: Global, bodies: &[&str]) -> PartsError {
    let key = key(rt, alloc);
    let frames = frames_of(rt, alloc, bodies);
    read_parts(alloc, &frames, &key)
        .err()
        .expect(rt, "a refusal")
}

/// The tag that was refused.
fn refused_tag(refusal: PartsError) -> Option<Octets> {
    match refusal {
        PartsError::BadSignature(given) => Some(given),
        _ => None,
    }
}

#[test]
fn refuses(rt: HostRuntime) {
    let alloc = rt.alloc();
    let none = refusal_of(&rt, alloc, &["e0", TAG, HEADER, PARENT, METADATA, CONTENT]);
    assert!(rt; matches!(none, PartsError::NoDelimiter));
    let four = refusal_of(&rt, alloc, &["<IDS|MSG>", TAG, HEADER, PARENT, METADATA]);
    assert!(rt; matches!(four, PartsError::TooFewParts));
    let wrong = refusal_of(
        &rt,
        alloc,
        &["<IDS|MSG>", WRONG_TAG, HEADER, PARENT, METADATA, CONTENT],
    );
    let given = refused_tag(wrong).expect(&rt, "a wrong tag");
    assert_eq!(rt; given.as_slice(), WRONG_TAG.as_bytes());
}

#[test]
fn reads(rt: HostRuntime) {
    let alloc = rt.alloc();
    let key = key(&rt, alloc);
    let frames = frames_of(
        &rt,
        alloc,
        &[
            "",
            "e0",
            "e1",
            "<IDS|MSG>",
            TAG,
            HEADER,
            PARENT,
            METADATA,
            CONTENT,
            "<IDS|MSG>",
            "",
        ],
    );
    let message = read_parts(alloc, &frames, &key).expect(&rt, "a signed message");
    assert_eq!(rt; message.target(), b"e0".as_slice());
    assert_eq!(rt; message.metadata(), METADATA.as_bytes());
    assert_eq!(rt; message.buffers().len(), 2);
}

/// One buffer.
fn one_buffer<R: Abort>(rt: &R, alloc: Global) -> Buffers {
    let mut buffers = Sequence::new(alloc);
    let buffer = Octets::new(alloc, b"b").expect(rt, "memory is ample");
    buffers.push(buffer).expect(rt, "memory is ample");
    buffers
}

/// The frames of the message to `e0` with one buffer.
#[tactic(auto, unfolding(jupyter_parts::specs::Signed::delimiter))]
fn written<R: Abort>(rt: &R, alloc: Global) -> Frames {
    let message = SharedMessage::new(
        alloc,
        b"e0",
        HEADER.as_bytes(),
        PARENT.as_bytes(),
        METADATA.as_bytes(),
        CONTENT.as_bytes(),
        one_buffer(rt, alloc),
    )
    .expect(rt, "memory is ample");
    write_parts(alloc, &message, &key(rt, alloc)).expect(rt, "memory is ample")
}

#[test]
fn writes(rt: HostRuntime) {
    let frames = written(&rt, rt.alloc());
    assert_eq!(rt; frames.len(), 8);
    assert!(rt; is_frame(&frames, 0, b"e0"));
    assert!(rt; is_frame(&frames, 1, b"<IDS|MSG>"));
    assert!(rt; is_frame(&frames, 2, TAG.as_bytes()));
    assert!(rt; is_frame(&frames, 7, b"b"));
}
