//! What replies answer, and replies for the other tests.

use client_core::answered::Answered;
use client_core::answers::answered_in;
use cluster_types::sequence::Sequence;
use cluster_types::shared_message::SharedMessage;
use cluster_types::text::Text;
use json::Scratch;
use std::alloc::{AllocError, Global};
use std::process::Abort;

/// A reply to the request of an id with this content.
pub fn reply_to(alloc: Global, id: &Text, content: &str) -> Result<SharedMessage, AllocError> {
    let mut parent = String::from_str(alloc, "{\"msg_id\":\"")?;
    parent.push_str(id.as_str())?;
    parent.push_str("\"}")?;
    SharedMessage::new(
        alloc,
        b"",
        b"{\"msg_id\":\"r\",\"msg_type\":\"execute_reply\"}",
        parent.as_bytes(),
        b"{}",
        content.as_bytes(),
        Sequence::new(alloc),
    )
}

/// What a content answers.
fn answered<R: Abort>(rt: &R, alloc: Global, content: &str) -> Answered {
    let mut scratch = Scratch::new(alloc);
    answered_in(alloc, content.as_bytes(), &mut scratch).expect(rt, "memory is ample")
}

/// Whether an answer is this value.
pub fn is_value(answer: &Answered, wanted: i64) -> bool {
    matches!(answer, Answered::Value(value) if *value == wanted)
}

/// Whether an answer is this error.
pub fn is_failure(answer: &Answered, wanted_name: &str, wanted_value: &str) -> bool {
    match answer {
        Answered::Value(_) => false,
        Answered::Failed { ename, evalue } => {
            ename.as_str() == wanted_name && evalue.as_str() == wanted_value
        }
    }
}

#[test]
fn decimal_texts_of_64_bits_are_values(rt: HostRuntime) {
    let alloc = rt.alloc();
    for (content, value) in [
        ("{\"status\":\"ok\",\"result\":\"42\"}", 42),
        ("{\"status\":\"ok\",\"result\":\"0\"}", 0),
        ("{\"status\":\"ok\",\"result\":\"-7\"}", -7),
        (
            "{\"status\":\"ok\",\"result\":\"9223372036854775807\"}",
            i64::MAX,
        ),
        (
            "{\"status\":\"ok\",\"result\":\"-9223372036854775808\"}",
            i64::MIN,
        ),
    ] {
        let answer = answered(&rt, alloc, content);
        assert!(rt; is_value(&answer, value), "at {content}");
    }
}

#[test]
fn other_texts_are_failures(rt: HostRuntime) {
    let alloc = rt.alloc();
    for content in [
        "{\"status\":\"ok\",\"result\":\"9223372036854775808\"}",
        "{\"status\":\"ok\",\"result\":\"-9223372036854775809\"}",
        "{\"status\":\"ok\",\"result\":\"042\"}",
        "{\"status\":\"ok\",\"result\":\"+42\"}",
        "{\"status\":\"ok\",\"result\":\"-0\"}",
        "{\"status\":\"ok\",\"result\":\"\"}",
        "{\"status\":\"ok\",\"result\":\" 42\"}",
        "{\"status\":\"ok\",\"result\":42}",
        "{\"status\":\"ok\"}",
        "{\"result\":\"42\"}",
        "{\"status\":\"error\",\"result\":\"42\",\"ename\":7}",
        "[]",
        "{",
    ] {
        let answer = answered(&rt, alloc, content);
        assert!(rt; is_failure(&answer, "", ""), "at {content}");
    }
}

#[test]
fn errors_are_told(rt: HostRuntime) {
    let alloc = rt.alloc();
    let named = answered(
        &rt,
        alloc,
        "{\"status\":\"error\",\"ename\":\"NameError\",\"evalue\":\"x\",\"traceback\":[]}",
    );
    assert!(rt; is_failure(&named, "NameError", "x"));
    let aborted = answered(
        &rt,
        alloc,
        "{\"status\":\"aborted\",\"ename\":\"TaskAborted\"}",
    );
    assert!(rt; is_failure(&aborted, "TaskAborted", ""));
}
