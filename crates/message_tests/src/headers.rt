//! The readers over worked texts.

use crate::tables::{ids, text};
use cluster_defs::content::{HubContent, ReplyMeta, SubmitMeta};
use cluster_defs::fault::ReadError;
use cluster_defs::header::Header;
use cluster_defs::hub_request::RequestType;
use cluster_types::message::Ids;
use cluster_types::octets::Octets;
use cluster_types::text::Text;
use json::Scratch;
use jupyter_header::contents::{error_content, outcome_content};
use jupyter_header::header::read_header;
use jupyter_header::hub::{read_content, read_hub};
use jupyter_header::kinds::{reply_type, request_of};
use jupyter_header::reply::read_reply;
use jupyter_header::submit::read_submit;
use jupyter_header::write::{made_header, resubmit_header};
use std::alloc::Global;
use std::process::Abort;

/// Whether a fault has this name and tells of this field.
fn is_fault(fault: &ReadError, kind: &str, field: &str) -> bool {
    match fault {
        ReadError::NotJson => kind == "NotJson",
        ReadError::NotObject => kind == "NotObject",
        ReadError::Missing(name) => kind == "Missing" && name.as_str() == field,
        ReadError::BadField(name) => kind == "BadField" && name.as_str() == field,
        ReadError::OutOfMemory => false,
    }
}

/// Whether a reading has this outcome: `Ok`, or the name of the fault and its field.
fn is_outcome<T>(reading: &Result<T, ReadError>, kind: &str, field: &str) -> bool {
    match reading {
        Ok(_) => kind == "Ok",
        Err(fault) => is_fault(fault, kind, field),
    }
}

/// Texts one after another, each so many times.
fn repeated<R: Abort>(rt: &R, alloc: Global, parts: &[(&str, usize)]) -> String {
    let mut text = String::new(alloc);
    for (part, times) in parts {
        add_times(rt, &mut text, part, *times);
    }
    text
}

/// Appends a text so many times.
fn add_times<R: Abort>(rt: &R, text: &mut String, part: &str, times: usize) {
    for _ in 0..times {
        text.push_str(part).expect(rt, "memory is ample");
    }
}

/// The last id of a list, or an empty text.
fn last(ids: &Ids) -> &str {
    match ids.as_slice().last() {
        Some(id) => id.as_str(),
        None => "",
    }
}

/// What is read of a header.
fn header_of(alloc: Global, text: &[u8], scratch: &mut Scratch) -> Result<Header, ReadError> {
    read_header(alloc, text, scratch)
}

/// Whether the reading of a header has this outcome.
fn header_is(alloc: Global, text: &[u8], scratch: &mut Scratch, kind: &str, field: &str) -> bool {
    let reading = header_of(alloc, text, scratch);
    is_outcome(&reading, kind, field)
}

/// Headers that don't read, with the fault and its field.
const HEADERS: [(&[u8], &str, &str); 9] = [
    (b"{", "NotJson", ""),
    (b"[]", "NotObject", ""),
    (b"{}", "Missing", "msg_id"),
    (b"{\"msg_id\":1}", "BadField", "msg_id"),
    (b"{\"msg_id\":\"a\"}", "Missing", "msg_type"),
    (
        b"{\"msg_id\":\"a\",\"msg_type\":\"\"}",
        "BadField",
        "msg_type",
    ),
    (
        b"{\"msg_id\":\"a\",\"msg_type\":\"t\",\"x\":\"\\ud800\"}",
        "NotJson",
        "",
    ),
    (
        b"{\"msg_id\":\"a\",\"msg_type\":\"t\",\"x\":[1,-1e999]}",
        "NotJson",
        "",
    ),
    (b"{\"msg_id\":\"a\xff\",\"msg_type\":\"t\"}", "NotJson", ""),
];

#[test]
fn reads_headers(rt: HostRuntime) {
    let alloc = rt.alloc();
    let mut scratch = Scratch::new(alloc);
    for (text, kind, field) in HEADERS {
        assert!(rt;
            header_is(alloc, text, &mut scratch, kind, field),
            "at {text:?}"
        );
    }
}

#[test]
fn reads_a_header(rt: HostRuntime) {
    let alloc = rt.alloc();
    let mut scratch = Scratch::new(alloc);
    let text =
        b"{\"msg_id\":\"b\",\"msg_type\":\"t\",\"msg_id\":\"a\",\"session\":1,\"username\":\"u\"}";
    let header = header_of(alloc, text, &mut scratch).expect(&rt, "a header");
    assert_eq!(rt; header.msg_id.as_str(), "a");
    assert_eq!(rt; header.msg_type.as_str(), "t");
    assert_eq!(rt; header.session.as_str(), "");
    assert_eq!(rt; header.username.as_str(), "u");
}

#[test]
fn keeps_to_limits(rt: HostRuntime) {
    let alloc = rt.alloc();
    let mut scratch = Scratch::new(alloc);
    for (id, depth, kind, field) in [
        (255, 126, "Ok", ""),
        (256, 126, "BadField", "msg_id"),
        (255, 127, "NotJson", ""),
    ] {
        let text = repeated(
            &rt,
            alloc,
            &[
                ("{\"x\":", 1),
                ("[", depth),
                ("]", depth),
                (",\"msg_id\":\"", 1),
                ("x", id),
                ("\",\"msg_type\":\"t\"}", 1),
            ],
        );
        assert!(rt;
            header_is(alloc, text.as_bytes(), &mut scratch, kind, field),
            "at {id} {depth}"
        );
    }
}

/// What is read of the metadata of a request.
fn submit_of(alloc: Global, text: &[u8], scratch: &mut Scratch) -> Result<SubmitMeta, ReadError> {
    read_submit(alloc, text, scratch)
}

/// Whether the reading of metadata, with so many further ids between two texts, has this outcome.
fn metadata_is<R: Abort>(
    rt: &R,
    alloc: Global,
    parts: (&str, usize, &str),
    kind: &str,
    field: &str,
) -> bool {
    let (front, times, back) = parts;
    let mut text = String::new(alloc);
    add_times(rt, &mut text, front, 1);
    add_times(rt, &mut text, ",\"a\"", times);
    add_times(rt, &mut text, back, 1);
    let mut scratch = Scratch::new(alloc);
    let reading = submit_of(alloc, text.as_bytes(), &mut scratch);
    is_outcome(&reading, kind, field)
}

/// Metadata with so many further ids between two texts, and the outcome of its reading.
const METADATA: [(&str, usize, &str, &str, &str); 18] = [
    ("{\"retries\":1001}", 0, "", "BadField", "retries"),
    ("{\"retries\":1000}", 0, "", "Ok", ""),
    ("{\"retries\":1e2}", 0, "", "BadField", "retries"),
    ("{\"retries\":-0}", 0, "", "BadField", "retries"),
    ("{\"retries\":1.0}", 0, "", "BadField", "retries"),
    (
        "{\"timeout\":18446744073709551616}",
        0,
        "",
        "BadField",
        "timeout",
    ),
    ("{\"timeout\":12345678901.0}", 0, "", "BadField", "timeout"),
    ("{\"timeout\":1000000001}", 0, "", "BadField", "timeout"),
    ("{\"timeout\":  5.0}", 0, "", "BadField", "timeout"),
    ("{\"timeout\":5.0 }", 0, "", "BadField", "timeout"),
    ("{\"timeout\":1.5}", 0, "", "BadField", "timeout"),
    ("{\"x\\\"timeout\\\":5.0}", 0, "", "NotJson", ""),
    ("{\"after\":{\"all\":null}}", 0, "", "BadField", "after"),
    ("{\"after\":[1],\"retries\":-1}", 0, "", "BadField", "after"),
    ("{\"follow\":[\"\"]}", 0, "", "BadField", "follow"),
    ("{\"targets\":\"a\"}", 0, "", "BadField", "targets"),
    ("{\"follow\":[\"b\"", 4095, "]}", "Ok", ""),
    ("{\"follow\":[\"b\"", 4096, "]}", "BadField", "follow"),
];

#[test]
fn refuses_metadata(rt: HostRuntime) {
    let alloc = rt.alloc();
    for (front, times, back, kind, field) in METADATA {
        assert!(rt;
            metadata_is(&rt, alloc, (front, times, back), kind, field),
            "at {front}"
        );
    }
}

#[test]
fn reads_metadata(rt: HostRuntime) {
    let alloc = rt.alloc();
    let mut scratch = Scratch::new(alloc);
    for (text, count, after, follow, flags, timeout) in [
        (
            "{\"after\": [], \"follow\": [], \"timeout\": 0.0, \"targets\": [], \"retries\": 0}",
            0,
            "",
            "",
            (true, true, false),
            0,
        ),
        (
            "{\"after\":[\"a\",\"b\",\"a\"],\"follow\":{\"dependencies\":\"c\",\"all\":false,\"success\":false,\"failure\":true},\"x\":{\"timeout\": 7.0},\"timeout\":5.0}",
            2,
            "b",
            "c",
            (false, false, true),
            5,
        ),
        (
            "{\"after\":\"\\\"timeout\\\":5.0,\"}",
            1,
            "\"timeout\":5.0,",
            "",
            (true, true, false),
            0,
        ),
    ] {
        let meta = submit_of(alloc, text.as_bytes(), &mut scratch).expect(&rt, "the metadata");
        let is_after = meta.after.ids.len() == count && last(&meta.after.ids) == after;
        let told = (meta.follow.all, meta.follow.success, meta.follow.failure);
        assert!(rt;
            is_after && last(&meta.follow.ids) == follow && told == flags,
            "at {text}"
        );
        assert_eq!(rt;
            (meta.timeout, meta.retries, meta.targets.len()),
            (timeout, 0, 0)
        );
    }
}

/// Whether a reading of a reply has this outcome: how the task went, or the name of the fault and its field.
fn is_reply(reading: &Result<ReplyMeta, ReadError>, kind: &str, field: &str) -> bool {
    match reading {
        Ok(reply) => is_ending(reply.declined, reply.ok, kind),
        Err(fault) => is_fault(fault, kind, field),
    }
}

/// Whether this is how a task went: declined, else well or badly.
fn is_ending(declined: bool, ok: bool, kind: &str) -> bool {
    match (declined, ok) {
        (true, false) => kind == "declined",
        (false, true) => kind == "well",
        (false, false) => kind == "badly",
        (true, true) => false,
    }
}

/// What is read of a reply.
fn reply_of(
    alloc: Global,
    parent: &str,
    metadata: &str,
    content: &str,
    scratch: &mut Scratch,
) -> Result<ReplyMeta, ReadError> {
    read_reply(
        alloc,
        parent.as_bytes(),
        metadata.as_bytes(),
        content.as_bytes(),
        scratch,
    )
}

/// The parent header of a reply to `a`.
const PARENT: &str = "{\"msg_id\":\"a\"}";

/// The parent header, the metadata and the content of replies, and the outcome of their reading.
const REPLIES: [(&str, &str, &str, &str, &str); 7] = [
    ("{}", "{", "{}", "Missing", "msg_id"),
    (PARENT, "[]", "{}", "NotObject", ""),
    (PARENT, "{}", "{}", "Missing", "status"),
    (PARENT, "{}", "{\"status\":\"done\"}", "BadField", "status"),
    (PARENT, "{}", "{\"status\":\"aborted\"}", "badly", ""),
    (
        PARENT,
        "{\"dependencies_met\":false}",
        "{\"status\":\"error\"}",
        "declined",
        "",
    ),
    (
        PARENT,
        "{\"dependencies_met\":0}",
        "{\"status\":\"ok\"}",
        "well",
        "",
    ),
];

#[test]
fn reads_replies(rt: HostRuntime) {
    let alloc = rt.alloc();
    let mut scratch = Scratch::new(alloc);
    for (parent, metadata, content, kind, field) in REPLIES {
        let reading = reply_of(alloc, parent, metadata, content, &mut scratch);
        assert!(rt; is_reply(&reading, kind, field), "at {kind} {field}");
    }
}

/// What is read of the content of a request to the hub.
fn content_of(
    alloc: Global,
    request: RequestType,
    text: &str,
    scratch: &mut Scratch,
) -> Result<HubContent, ReadError> {
    read_content(alloc, request, text.as_bytes(), scratch)
}

/// The request that a type stands for.
fn request_named<R: Abort>(rt: &R, msg_type: &str) -> RequestType {
    request_of(msg_type).expect(rt, "a request")
}

/// Types and contents of requests, and the outcome of their reading.
const REQUESTS: [(&str, &str, &str, &str); 12] = [
    ("result_request", "{}", "Missing", "msg_ids"),
    ("result_request", "{\"msg_ids\":[\"a\"]}", "Ok", ""),
    ("history_request", "{", "Ok", ""),
    (
        "queue_request",
        "{\"targets\":[4294967296]}",
        "BadField",
        "targets",
    ),
    (
        "queue_request",
        "{\"targets\":null,\"verbose\":null}",
        "BadField",
        "verbose",
    ),
    (
        "purge_request",
        "{\"msg_ids\":\"all\",\"engine_ids\":[0]}",
        "BadField",
        "engine_ids",
    ),
    (
        "purge_request",
        "{\"msg_ids\":\"some\"}",
        "BadField",
        "msg_ids",
    ),
    (
        "resubmit_request",
        "{\"msg_ids\":\"all\"}",
        "BadField",
        "msg_ids",
    ),
    ("abort_request", "{}", "Missing", "msg_ids"),
    (
        "abort_request",
        "{\"msg_ids\":[\"a\",\"\"]}",
        "BadField",
        "msg_ids",
    ),
    (
        "registration_request",
        "{\"uuid\":\"\"}",
        "BadField",
        "uuid",
    ),
    ("beat_reply", "{\"beat\":1.0}", "BadField", "beat"),
];

#[test]
fn refuses_requests(rt: HostRuntime) {
    let alloc = rt.alloc();
    let mut scratch = Scratch::new(alloc);
    for (msg_type, content, kind, field) in REQUESTS {
        let request = request_named(&rt, msg_type);
        let reading = content_of(alloc, request, content, &mut scratch);
        assert!(rt;
            is_outcome(&reading, kind, field),
            "at {msg_type} {content}"
        );
    }
}

/// Whether a content asks for this.
fn is_asked(content: &HubContent, wanted: &str) -> bool {
    match content {
        HubContent::Purge { all: true, ids } => wanted == "purge" && ids.is_empty(),
        HubContent::Queue { targets, verbose } => {
            wanted == "queue" && targets.as_slice() == [4_294_967_295].as_slice() && *verbose
        }
        HubContent::Pong { beat } => wanted == "pong" && *beat == 18_446_744_073_709_551_615,
        HubContent::Abort { ids } => wanted == "abort" && ids.len() == 2,
        _ => false,
    }
}

#[test]
#[tactic(auto, unfolding(cluster_defs::specs::Hub::request_of))]
fn reads_requests(rt: HostRuntime) {
    let alloc = rt.alloc();
    let mut scratch = Scratch::new(alloc);
    let purge = b"{\"msg_ids\":\"all\",\"engine_ids\":[]}";
    let purge = read_hub(alloc, "purge_request", purge, &mut scratch).expect(&rt, "a purge");
    assert!(rt; is_asked(&purge, "purge"));
    for (request, text, wanted) in [
        (
            RequestType::Queue,
            "{\"targets\":[4294967295],\"verbose\":true}",
            "queue",
        ),
        (RequestType::Beat, "{\"beat\":18446744073709551615}", "pong"),
        (RequestType::Abort, "{\"msg_ids\":[\"a\",\"a\"]}", "abort"),
    ] {
        let content = content_of(alloc, request, text, &mut scratch).expect(&rt, "a content");
        assert!(rt; is_asked(&content, wanted), "at {wanted}");
    }
}

/// The type of the reply to a request.
fn replied<R: Abort>(rt: &R, alloc: Global, kind: &Text) -> Text {
    reply_type(alloc, kind).expect(rt, "memory is ample")
}

/// The header of an answer.
fn answering<R: Abort>(rt: &R, alloc: Global, id: &Text, kind: &Text, date: &str) -> Octets {
    made_header(alloc, id, kind, date).expect(rt, "memory is ample")
}

/// The header of a task that is made again for someone.
fn made_again<R: Abort>(
    rt: &R,
    alloc: Global,
    id: &Text,
    name: &Text,
    kind: &Text,
    date: &str,
) -> Octets {
    resubmit_header(alloc, id, name, name, kind, date).expect(rt, "memory is ample")
}

#[test]
fn written_headers(rt: HostRuntime) {
    let alloc = rt.alloc();
    let date = "2023-11-14T22:13:20.000Z";
    let kind = text(&rt, alloc, "queue_request");
    let reply = replied(&rt, alloc, &kind);
    let made = answering(&rt, alloc, &kind, &reply, date);
    assert_eq!(rt;
        made.as_slice(),
        b"{\"msg_id\":\"queue_request\",\"session\":\"controller\",\"username\":\"controller\",\"date\":\"2023-11-14T22:13:20.000Z\",\"msg_type\":\"queue_reply\",\"version\":\"5.3\"}".as_slice()
    );
    let name = text(&rt, alloc, "a\"\n\u{1}\u{e9}");
    let again = made_again(&rt, alloc, &reply, &name, &kind, date);
    assert_eq!(rt;
        again.as_slice(),
        "{\"msg_id\":\"queue_reply\",\"session\":\"a\\\"\\n\\u0001\u{e9}\",\"username\":\"a\\\"\\n\\u0001\u{e9}\",\"date\":\"2023-11-14T22:13:20.000Z\",\"msg_type\":\"queue_request\",\"version\":\"5.3\"}".as_bytes()
    );
}

/// The content of a refusal that concerns some ids.
fn refused<R: Abort>(rt: &R, alloc: Global, name: &str, ids: &Ids) -> Octets {
    error_content(alloc, name, "", ids).expect(rt, "memory is ample")
}

/// The content of the outcome of a task that failed.
fn failed<R: Abort>(rt: &R, alloc: Global, name: &str, why: &str) -> Octets {
    outcome_content(alloc, name, why).expect(rt, "memory is ample")
}

#[test]
fn written_contents(rt: HostRuntime) {
    let alloc = rt.alloc();
    let ids = ids(&rt, alloc, &["b", "c\""]);
    let refusal = refused(&rt, alloc, "Inflight", &ids);
    assert_eq!(rt;
        refusal.as_slice(),
        b"{\"status\":\"error\",\"ename\":\"Inflight\",\"evalue\":\"\",\"traceback\":[],\"ids\":[\"b\",\"c\\\"\"]}".as_slice()
    );
    let outcome = failed(
        &rt,
        alloc,
        "TaskTimeout",
        "the task waited past its timeout",
    );
    assert_eq!(rt;
        outcome.as_slice(),
        b"{\"status\":\"error\",\"ename\":\"TaskTimeout\",\"evalue\":\"the task waited past its timeout\",\"traceback\":[]}".as_slice()
    );
}
