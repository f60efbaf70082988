//! What engines send, by worked rows and by the plain model in Python.

use cluster_types::sequence::Sequence;
use cluster_types::shared_message::SharedMessage;
use engine_core::engine::Engine;
use engine_core::error::EngineError;
use std::alloc::{AllocError, Global};
use std::process::Abort;

/// A message with this header and content.
fn message_of(alloc: Global, header: &str, content: &str) -> Result<SharedMessage, AllocError> {
    SharedMessage::new(
        alloc,
        b"",
        header.as_bytes(),
        b"{}",
        b"{}",
        content.as_bytes(),
        Sequence::new(alloc),
    )
}

/// Whether the reply to a request of a type has this content.
fn is_answer<R: Abort>(
    rt: &R,
    alloc: Global,
    engine: &mut Engine,
    header: &str,
    content: &str,
    expected: &str,
) -> bool {
    let message = message_of(alloc, header, content).expect(rt, "memory is ample");
    match engine.answer(&message, 0).expect(rt, "memory is ample") {
        Some(reply) => reply.content() == expected.as_bytes(),
        None => false,
    }
}

const EXECUTE: &str = "{\"msg_id\":\"a\",\"msg_type\":\"execute_request\"}";

#[test]
fn refuses_uuids(rt: HostRuntime) {
    let alloc = rt.alloc();
    let mut uuid = String::new(alloc);
    for length in 0..202 {
        let is_refused = matches!(Engine::new(alloc, uuid.as_str()), Err(EngineError::BadUuid));
        assert_eq!(rt; is_refused, length == 0 || length == 201, "at {length}");
        uuid.push_str("u").expect(&rt, "memory is ample");
    }
}

/// Whether a message has these parts and no metadata.
fn has_parts(message: &SharedMessage, header: &[u8], parent: &[u8], content: &[u8]) -> bool {
    message.header() == header
        && message.parent() == parent
        && message.metadata() == b"{}".as_slice()
        && message.content() == content
}

/// What a new engine sends first.
fn first_message<R: Abort>(rt: &R, alloc: Global) -> SharedMessage {
    let engine = Engine::new(alloc, "u").expect(rt, "an engine");
    engine.join(1_700_000_000_000).expect(rt, "memory is ample")
}

#[test]
fn joins(rt: HostRuntime) {
    let message = first_message(&rt, rt.alloc());
    assert!(rt;
        has_parts(
            &message,
            b"{\"msg_id\":\"u-0\",\"session\":\"u\",\"username\":\"u\",\"date\":\"2023-11-14T22:13:20.000Z\",\"msg_type\":\"registration_request\",\"version\":\"5.3\"}",
            b"{}",
            b"{\"uuid\":\"u\"}"
        )
    );
    assert!(rt; message.target().is_empty() && message.buffers().is_empty());
}

/// The reply of a new engine to a message.
fn reply_to<R: Abort>(rt: &R, alloc: Global, message: &SharedMessage) -> SharedMessage {
    let mut engine = Engine::new(alloc, "u").expect(rt, "an engine");
    let answer = engine.answer(message, 0).expect(rt, "memory is ample");
    answer.expect(rt, "a reply")
}

#[test]
fn replies_to_requests(rt: HostRuntime) {
    let header = "{\"msg_id\":\"a\",\"msg_type\":\"apply_request\"}";
    let apply = message_of(rt.alloc(), header, "{").expect(&rt, "memory is ample");
    let reply = reply_to(&rt, rt.alloc(), &apply);
    assert!(rt;
        has_parts(
            &reply,
            b"{\"msg_id\":\"u-1\",\"session\":\"u\",\"username\":\"u\",\"date\":\"1970-01-01T00:00:00.000Z\",\"msg_type\":\"apply_reply\",\"version\":\"5.3\"}",
            apply.header(),
            b"{\"status\":\"error\",\"execution_count\":0,\"ename\":\"NotSupported\",\"evalue\":\"apply_request\",\"traceback\":[]}"
        )
    );
}

#[test]
fn answers_requests_alone(rt: HostRuntime) {
    let alloc = rt.alloc();
    let mut engine = Engine::new(alloc, "u").expect(&rt, "an engine");
    for header in [
        "{\"msg_id\":\"a\",\"msg_type\":\"execute_reply\"}",
        "{\"msg_type\":\"execute_request\"}",
        "[]",
    ] {
        let message = message_of(alloc, header, "{\"code\":\"1\"}").expect(&rt, "memory is ample");
        assert!(rt;
            engine
                .answer(&message, 0)
                .expect(&rt, "memory is ample")
                .is_none(),
            "at {header}"
        );
    }
    let expected =
        "{\"status\":\"ok\",\"execution_count\":1,\"user_expressions\":{},\"result\":\"42\"}";
    assert!(rt;
        is_answer(
            &rt,
            alloc,
            &mut engine,
            EXECUTE,
            "{\"code\":\"6*7\"}",
            expected
        )
    );
}

/// Contents of execute requests to one engine after another, and the contents of the replies.
const ROWS: &[(&str, &str)] = &[
    (
        "{\"code\":\"x=3\",\"silent\":true,\"user_expressions\":{\"b\":\"x*x\",\"a\":\"x=x+1\",\"c\":\"y\"}}",
        "{\"status\":\"ok\",\"execution_count\":0,\"user_expressions\":{\"a\":{\"status\":\"ok\",\"data\":{\"text/plain\":\"4\"},\"metadata\":{}},\"b\":{\"status\":\"ok\",\"data\":{\"text/plain\":\"16\"},\"metadata\":{}},\"c\":{\"status\":\"error\",\"ename\":\"NameError\",\"evalue\":\"y\",\"traceback\":[]}},\"result\":\"3\"}",
    ),
    (
        "{\"code\":\"x=9;1/0\",\"user_expressions\":{\"a\":\"x=1\"}}",
        "{\"status\":\"error\",\"execution_count\":1,\"ename\":\"ZeroDivision\",\"evalue\":\"\",\"traceback\":[]}",
    ),
    (
        "{\"code\":\"x\",\"store_history\":false}",
        "{\"status\":\"ok\",\"execution_count\":1,\"user_expressions\":{},\"result\":\"9\"}",
    ),
    (
        "{\"code\":\"(-9223372036854775807-1)/-1\"}",
        "{\"status\":\"ok\",\"execution_count\":2,\"user_expressions\":{},\"result\":\"-9223372036854775808\"}",
    ),
];

#[test]
fn executes(rt: HostRuntime) {
    let alloc = rt.alloc();
    let mut engine = Engine::new(alloc, "u").expect(&rt, "an engine");
    for (content, expected) in ROWS {
        assert!(rt;
            is_answer(&rt, alloc, &mut engine, EXECUTE, content, expected),
            "at {content}"
        );
    }
}

/// Contents of execute requests to a new engine, and the execution count, the name of the fault and what it is about.
const FAULTS: &[(&str, u32, &str, &str)] = &[
    ("{\"code\":\"08\"}", 1, "BadToken", "0"),
    ("{\"code\":\"1+\"}", 1, "BadSyntax", "2"),
    (
        "{\"code\":\"9223372036854775808\"}",
        1,
        "ConstantTooLarge",
        "0",
    ),
    (
        "{\"code\":\"(((((((((((((((((((((((((((((((((((((((((((((((((((((((((((((((((\"}",
        1,
        "TooDeep",
        "64",
    ),
    ("{\"code\":\"x\"}", 1, "NameError", "x"),
    ("{\"code\":\"1/0\"}", 1, "ZeroDivision", ""),
    ("{\"code\":\"1<<64\"}", 1, "ShiftRange", "64"),
    ("{\"code\":\"1>>-2\"}", 1, "ShiftRange", "-2"),
    ("{", 0, "BadContent", "content"),
    ("[]", 0, "BadContent", "content"),
    ("{\"silent\":1}", 0, "BadContent", "code"),
    (
        "{\"code\":\"1\",\"store_history\":2,\"silent\":null}",
        0,
        "BadContent",
        "silent",
    ),
    (
        "{\"code\":\"1\",\"store_history\":null}",
        0,
        "BadContent",
        "store_history",
    ),
    (
        "{\"code\":\"1\",\"user_expressions\":{\"a\":1}}",
        0,
        "BadContent",
        "user_expressions",
    ),
];

#[test]
fn tells_faults(rt: HostRuntime) {
    let alloc = rt.alloc();
    for (content, count, ename, evalue) in FAULTS {
        let mut engine = Engine::new(alloc, "u").expect(&rt, "an engine");
        let expected = format!(in alloc;
            "{{\"status\":\"error\",\"execution_count\":{count},\"ename\":\"{ename}\",\"evalue\":\"{evalue}\",\"traceback\":[]}}"
        ).expect(&rt, "memory is ample");
        assert!(rt;
            is_answer(&rt, alloc, &mut engine, EXECUTE, content, expected.as_str()),
            "at {content}"
        );
    }
}

#[test]
fn echoes_beats(rt: HostRuntime) {
    let alloc = rt.alloc();
    let mut engine = Engine::new(alloc, "u").expect(&rt, "an engine");
    let header = "{\"msg_id\":\"a\",\"msg_type\":\"beat_request\"}";
    assert!(rt;
        is_answer(
            &rt,
            alloc,
            &mut engine,
            header,
            "{\"beat\":3}",
            "{\"beat\":3}"
        )
    );
}

#[test]
fn a_text_of_65537_octets(rt: HostRuntime) {
    let alloc = rt.alloc();
    let mut engine = Engine::new(alloc, "u").expect(&rt, "an engine");
    let mut content = String::from_str(alloc, "{\"code\":\"").expect(&rt, "memory is ample");
    for _ in 0..65_537 {
        content.push_str(" ").expect(&rt, "memory is ample");
    }
    content.push_str("\"}").expect(&rt, "memory is ample");
    let expected =
        "{\"status\":\"error\",\"execution_count\":1,\"ename\":\"TooLong\",\"evalue\":\"\",\"traceback\":[]}";
    assert!(rt; is_answer(&rt, alloc, &mut engine, EXECUTE, content.as_str(), expected));
}
