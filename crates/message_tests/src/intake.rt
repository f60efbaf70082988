//! Events of worked messages.

use cluster_intake::fault::IntakeError;
use cluster_intake::understood::Understood;
use cluster_intake::{event_of, understand};
use cluster_types::config::Channel;
use cluster_types::event::{Event, Query, Reason};
use cluster_types::sequence::Sequence;
use cluster_types::shared_message::SharedMessage;
use json::Scratch;
use std::alloc::Global;
use std::process::Abort;
use std::str;

/// A message with these parts, and no target.
fn message_of<R: Abort>(
    rt: &R,
    alloc: Global,
    header: &str,
    parent: &str,
    metadata: &str,
    content: &str,
) -> SharedMessage {
    SharedMessage::new(
        alloc,
        b"",
        header.as_bytes(),
        parent.as_bytes(),
        metadata.as_bytes(),
        content.as_bytes(),
        Sequence::new(alloc),
    )
    .expect(rt, "memory is ample")
}

/// The name of a reason.
fn reason_name(reason: Reason) -> &'static str {
    match reason {
        Reason::BadHeader => "BadHeader",
        Reason::BadType => "BadType",
        Reason::NoTarget => "NoTarget",
        Reason::BadReply => "BadReply",
    }
}

/// Octets as a text, where they are one.
fn text_in(octets: &[u8]) -> &str {
    match str::from_utf8(octets) {
        Ok(text) => text,
        Err(_) => "no text",
    }
}

/// The field at fault of a question that doesn't read, or the content of one to the database, else what it is.
fn query_name(query: &Query) -> &str {
    match query {
        Query::Bad { field } => field.as_str(),
        Query::Db { content } => text_in(content.as_slice()),
        Query::Unknown => "Unknown",
        _ => "known",
    }
}

/// The id of the task of a request or a reply, else what an event is.
fn event_name(event: &Event) -> &str {
    match event {
        Event::Ask(query) => query_name(query),
        Event::Submit(submission) => submission.id.as_str(),
        Event::Reply { task, .. } => task.as_str(),
        Event::Leave => "Leave",
        Event::Abort { ids } if ids.len() == 1 => "Abort",
        _ => "other",
    }
}

/// What a message is: an event, or junk for a reason.
fn name_of(event: &Result<Event, IntakeError>) -> &str {
    match event {
        Ok(event) => event_name(event),
        Err(IntakeError::Junk(reason)) => reason_name(*reason),
        Err(IntakeError::OutOfMemory) => "OutOfMemory",
    }
}

/// What a message means.
fn meant(alloc: Global, channel: Channel, message: &SharedMessage) -> Result<Event, IntakeError> {
    event_of(alloc, channel, message)
}

/// The header of a request for a task.
const REQUEST: &str = "{\"msg_id\":\"a\",\"msg_type\":\"execute_request\"}";

/// The header of a reply.
const REPLY: &str = "{\"msg_id\":\"a\",\"msg_type\":\"execute_reply\"}";

/// The header of an engine that leaves.
const LEAVE: &str = "{\"msg_id\":\"a\",\"msg_type\":\"unregistration_request\"}";

/// The header of a purge.
const PURGE: &str = "{\"msg_id\":\"a\",\"msg_type\":\"purge_request\"}";

/// The header of an abort.
const ABORT: &str = "{\"msg_id\":\"a\",\"msg_type\":\"abort_request\"}";

/// The header of a question to the database.
const DB: &str = "{\"msg_id\":\"a\",\"msg_type\":\"db_request\"}";

/// The header of an echo.
const BEAT: &str = "{\"msg_id\":\"a\",\"msg_type\":\"beat_reply\"}";

/// The parent header of a reply to `b`.
const PARENT: &str = "{\"msg_id\":\"b\"}";

/// Checks what a message on a channel means: its header, parent header, metadata and content.
fn tells<R: Abort>(
    rt: &R,
    alloc: Global,
    channel: Channel,
    parts: (&str, &str, &str, &str),
    kind: &str,
) {
    let (header, parent, metadata, content) = parts;
    let message = message_of(rt, alloc, header, parent, metadata, content);
    let event = meant(alloc, channel, &message);
    assert_eq!(rt; name_of(&event), kind);
}

#[test]
fn tells_events(rt: HostRuntime) {
    let alloc = rt.alloc();
    tells(
        &rt,
        alloc,
        Channel::Task,
        ("[]", "{}", "{}", "{}"),
        "BadHeader",
    );
    tells(
        &rt,
        alloc,
        Channel::Task,
        (REPLY, "{}", "{}", "{}"),
        "BadType",
    );
    tells(
        &rt,
        alloc,
        Channel::Task,
        (REQUEST, "{}", "{\"timeout\": 0.0}", ""),
        "a",
    );
    tells(
        &rt,
        alloc,
        Channel::Task,
        (REQUEST, "{}", "{\"timeout\":1.5}", ""),
        "timeout",
    );
    tells(
        &rt,
        alloc,
        Channel::Task,
        (REQUEST, "{}", "[]", ""),
        "metadata",
    );
    tells(
        &rt,
        alloc,
        Channel::Mux,
        (REQUEST, "{}", "{}", "{}"),
        "NoTarget",
    );
    tells(
        &rt,
        alloc,
        Channel::Engine,
        (REPLY, "{}", "{}", "{}"),
        "BadReply",
    );
    tells(
        &rt,
        alloc,
        Channel::Engine,
        (REPLY, PARENT, "{}", "{\"status\":\"ok\"}"),
        "b",
    );
    tells(&rt, alloc, Channel::Engine, (LEAVE, "", "", ""), "Leave");
    tells(
        &rt,
        alloc,
        Channel::Engine,
        (REQUEST, "{}", "{}", "{}"),
        "BadType",
    );
    tells(
        &rt,
        alloc,
        Channel::Engine,
        (BEAT, "{}", "{}", "{}"),
        "BadReply",
    );
    tells(
        &rt,
        alloc,
        Channel::Hub,
        (BEAT, "{}", "{}", "{\"beat\":1}"),
        "Unknown",
    );
    tells(
        &rt,
        alloc,
        Channel::Hub,
        (PURGE, "{}", "{}", "{"),
        "content",
    );
    tells(
        &rt,
        alloc,
        Channel::Hub,
        (PURGE, "{}", "{}", "{\"msg_ids\":\"all\"}"),
        "other",
    );
}

#[test]
fn tells_aborts_and_questions_to_the_database(rt: HostRuntime) {
    let alloc = rt.alloc();
    tells(
        &rt,
        alloc,
        Channel::Hub,
        (ABORT, "{}", "{}", "{\"msg_ids\":[\"b\"]}"),
        "Abort",
    );
    tells(
        &rt,
        alloc,
        Channel::Hub,
        (ABORT, "{}", "{}", "{\"msg_ids\":\"all\"}"),
        "msg_ids",
    );
    tells(
        &rt,
        alloc,
        Channel::Hub,
        (ABORT, "{}", "{}", "[]"),
        "content",
    );
    tells(&rt, alloc, Channel::Hub, (DB, "{}", "{}", "[1"), "[1");
    tells(&rt, alloc, Channel::Task, (DB, "{}", "{}", "[1"), "a");
    tells(
        &rt,
        alloc,
        Channel::Engine,
        (ABORT, "{}", "{}", "{\"msg_ids\":[\"b\"]}"),
        "BadType",
    );
}

/// What a message to the hub means, with its type.
fn understood(alloc: Global, message: &SharedMessage) -> Result<Understood, IntakeError> {
    let mut scratch = Scratch::new(alloc);
    understand(alloc, Channel::Hub, message, &mut scratch)
}

fn asks_unknown(event: &Event) -> bool {
    match event {
        Event::Ask(Query::Unknown) => true,
        _ => false,
    }
}

/// Whether a message to the hub with this header is a request of an unknown type, of this one.
fn is_unknown<R: Abort>(rt: &R, alloc: Global, header: &str, kind: &str) -> bool {
    let message = message_of(rt, alloc, header, "{}", "{}", "{}");
    let told = understood(alloc, &message);
    match &told {
        Ok(told) => asks_unknown(&told.event) && told.msg_type.as_str() == kind,
        Err(_) => false,
    }
}

#[test]
fn the_type_comes_with_the_event(rt: HostRuntime) {
    let alloc = rt.alloc();
    assert!(rt;
        is_unknown(
            &rt,
            alloc,
            "{\"msg_id\":\"a\",\"msg_type\":\"what\"}",
            "what"
        )
    );
    assert!(rt;
        !is_unknown(
            &rt,
            alloc,
            "{\"msg_id\":\"a\",\"msg_type\":\"history_request\"}",
            "history_request"
        )
    );
    assert!(rt; !is_unknown(&rt, alloc, "[]", ""));
}
