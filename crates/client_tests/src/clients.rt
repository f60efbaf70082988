//! What a client sends, and what messages are to it.

ghost use Rattle.std.specs.Prelude.{◌≤◌};
ghost use Rattle.cluster_types.specs.Limits.{last_moment};

use client_core::client::Client;
use client_core::error::SubmitError;
use client_core::limits::{is_engine, is_within_limits};
use client_core::metadata::plain_meta;
use client_core::took::Took;
use cluster_defs::content::SubmitMeta;
use cluster_types::sequence::Sequence;
use cluster_types::shared_message::SharedMessage;
use cluster_types::text::Text;
use std::alloc::Global;
use std::process::Abort;

/// The id of sixteen octets of 0, and a parent header that names it.
const ZERO_PARENT: &str = "{\"msg_id\":\"00000000-0000-4000-8000-000000000000\"}";

/// The octets of the example of RFC 9562, appendix A.3, with other bits in the places of the version and the variant.
const EXAMPLE: [u8; 16] = [
    0x91, 0x91, 0x08, 0xf7, 0x52, 0xd1, 0xf3, 0x20, 0x5b, 0xac, 0xf8, 0x47, 0xdb, 0x41, 0x48, 0xa8,
];

/// Whether a message has these parts, no parent and no buffers.
fn has_parts(
    message: &SharedMessage,
    target: &str,
    header: &str,
    metadata: &str,
    content: &str,
) -> bool {
    message.target() == target.as_bytes()
        && message.header() == header.as_bytes()
        && message.parent() == b"{}".as_slice()
        && message.metadata() == metadata.as_bytes()
        && message.content() == content.as_bytes()
        && message.buffers().is_empty()
}

/// Whether an answer is this refusal.
fn is_known(answer: &Result<SharedMessage, SubmitError>) -> bool {
    matches!(answer, Err(SubmitError::KnownId))
}

/// What a client sends that submits a task under the id of sixteen octets of 0.
fn submitted(
    alloc: Global,
    client: &mut Client,
    code: &str,
    moment: u64,
) -> Result<SharedMessage, SubmitError>
    requires { moment ≤ last_moment }
{
    let meta = plain_meta(alloc);
    client.submit(code, &meta, [0; 16], moment)
}

#[test]
fn an_id_is_used_once(rt: HostRuntime) {
    let alloc = rt.alloc();
    let mut client = Client::new(alloc, "client").expect(&rt, "a client");
    let sent = submitted(alloc, &mut client, "6*7", 0).expect(&rt, "a request");
    assert!(rt;
        has_parts(
            &sent,
            "",
            "{\"msg_id\":\"00000000-0000-4000-8000-000000000000\",\"session\":\"client\",\"username\":\"client\",\"date\":\"1970-01-01T00:00:00.000Z\",\"msg_type\":\"execute_request\",\"version\":\"5.3\"}",
            "{\"after\":{\"dependencies\":[],\"all\":true,\"success\":true,\"failure\":false},\"follow\":{\"dependencies\":[],\"all\":true,\"success\":true,\"failure\":false},\"targets\":[],\"timeout\":0,\"retries\":0}",
            "{\"code\":\"6*7\",\"silent\":false,\"store_history\":true,\"user_expressions\":{},\"allow_stdin\":false,\"stop_on_error\":true}"
        )
    );
    let again = submitted(alloc, &mut client, "1", 1);
    assert!(rt; is_known(&again));
    assert_eq!(rt; client.outstanding(), 1);
}

#[test]
fn a_request_goes_to_one_engine(rt: HostRuntime) {
    let alloc = rt.alloc();
    let mut client = Client::new(alloc, "a\"b").expect(&rt, "a client");
    assert!(rt; is_engine("e0") && !is_engine("") && !is_engine("<IDS|MSG>"));
    let sent = client
        .direct("e0", "\"", EXAMPLE, 1_700_000_000_000)
        .expect(&rt, "a request");
    assert!(rt;
        has_parts(
            &sent,
            "e0",
            "{\"msg_id\":\"919108f7-52d1-4320-9bac-f847db4148a8\",\"session\":\"a\\\"b\",\"username\":\"a\\\"b\",\"date\":\"2023-11-14T22:13:20.000Z\",\"msg_type\":\"execute_request\",\"version\":\"5.3\"}",
            "{}",
            "{\"code\":\"\\\"\",\"silent\":false,\"store_history\":true,\"user_expressions\":{},\"allow_stdin\":false,\"stop_on_error\":true}"
        )
    );
    let again = client.direct("e1", "1", EXAMPLE, 0);
    assert!(rt; is_known(&again));
    assert_eq!(rt; client.outstanding(), 1);
}

#[test]
fn a_question_keeps_no_id(rt: HostRuntime) {
    let alloc = rt.alloc();
    let mut client = Client::new(alloc, "client").expect(&rt, "a client");
    let asked = client
        .ask("history_request", "{}", [0; 16], 0)
        .expect(&rt, "a question");
    assert!(rt;
        has_parts(
            &asked,
            "",
            "{\"msg_id\":\"00000000-0000-4000-8000-000000000000\",\"session\":\"client\",\"username\":\"client\",\"date\":\"1970-01-01T00:00:00.000Z\",\"msg_type\":\"history_request\",\"version\":\"5.3\"}",
            "{}",
            "{}"
        )
    );
    assert_eq!(rt; client.outstanding(), 0);
    let sent = client.direct("e0", "1", [0; 16], 0);
    assert!(rt; sent.is_ok());
}

/// What a message with these parts is to a client: the outcome by its status, or the kind.
fn taken<R: Abort>(
    rt: &R,
    alloc: Global,
    client: &mut Client,
    header: &str,
    parent: &str,
    content: &str,
) -> &'static str {
    let message = SharedMessage::new(
        alloc,
        b"",
        header.as_bytes(),
        parent.as_bytes(),
        b"{}",
        content.as_bytes(),
        Sequence::new(alloc),
    )
    .expect(rt, "memory is ample");
    match client.take(&message).expect(rt, "memory is ample") {
        Took::Settled { id, ok } => {
            let is_zero = id.as_str() == "00000000-0000-4000-8000-000000000000";
            if !is_zero {
                "another id"
            } else if ok {
                "done"
            } else {
                "failed"
            }
        }
        Took::Other => "other",
        Took::Stranger => "stranger",
    }
}

/// A client that has sent a request with this code under the id of sixteen octets of 0.
fn client_with<R: Abort>(rt: &R, alloc: Global, code: &str) -> Client {
    let mut client = Client::new(alloc, "client").expect(rt, "a client");
    client
        .direct("e0", code, [0; 16], 0)
        .expect(rt, "a request");
    client
}

/// Whether a client refuses another request under that id.
fn refuses_again(client: &mut Client) -> bool {
    let again = client.direct("e0", "1", [0; 16], 0);
    is_known(&again)
}

const REPLY: &str = "{\"msg_id\":\"r1\",\"msg_type\":\"execute_reply\"}";

const REFUSAL: &str = "{\"msg_id\":\"r1\",\"msg_type\":\"submit_refused\"}";

const DONE: &str = "{\"status\":\"ok\",\"result\":\"42\"}";

/// Headers, parents and contents of messages that a client takes, one after another, what they are to it, and how many
/// requests are then outstanding.
const SETTLING: &[(&str, &str, &str, &str, usize)] = &[
    (REFUSAL, ZERO_PARENT, "{\"status\":\"error\"}", "other", 1),
    (REPLY, ZERO_PARENT, "{}", "other", 1),
    (REPLY, "{\"msg_id\":\"a\"}", DONE, "stranger", 1),
    (REPLY, "{}", DONE, "stranger", 1),
    ("[]", ZERO_PARENT, DONE, "stranger", 1),
    (REPLY, ZERO_PARENT, DONE, "done", 0),
    (REPLY, ZERO_PARENT, DONE, "other", 0),
];

#[test]
fn an_outcome_settles_once(rt: HostRuntime) {
    let alloc = rt.alloc();
    let mut client = client_with(&rt, alloc, "6*7");
    for (header, parent, content, kind, outstanding) in SETTLING {
        let told = taken(&rt, alloc, &mut client, header, parent, content);
        assert_eq!(rt; told, *kind, "at {header} {parent} {content}");
        assert_eq!(rt; client.outstanding(), *outstanding);
    }
    assert!(rt; refuses_again(&mut client));
}

#[test]
fn a_task_may_fail(rt: HostRuntime) {
    let alloc = rt.alloc();
    let mut client = client_with(&rt, alloc, "1/0");
    let header = "{\"msg_id\":\"out-1\",\"msg_type\":\"execute_reply\"}";
    let content =
        "{\"status\":\"error\",\"ename\":\"TaskTimeout\",\"evalue\":\"\",\"traceback\":[]}";
    let kind = taken(&rt, alloc, &mut client, header, ZERO_PARENT, content);
    assert_eq!(rt; kind, "failed");
}

/// Metadata with these ids to follow, and a number of retries.
fn following<R: Abort>(rt: &R, alloc: Global, ids: &[&str], retries: u32) -> SubmitMeta {
    let mut meta = plain_meta(alloc);
    for id in ids {
        let text = Text::new(alloc, id).expect(rt, "memory is ample");
        meta.follow.ids.push(text).expect(rt, "memory is ample");
    }
    meta.retries = retries;
    meta
}

#[test]
fn limits_are_tested(rt: HostRuntime) {
    let alloc = rt.alloc();
    let within = following(&rt, alloc, &["a", "b", "a"], 1_000);
    assert!(rt; is_within_limits(&within));
    let empty_id = following(&rt, alloc, &["a", ""], 0);
    assert!(rt; !is_within_limits(&empty_id));
    let many_tries = following(&rt, alloc, &[], 1_001);
    assert!(rt; !is_within_limits(&many_tries));
}
