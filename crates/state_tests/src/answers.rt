//! What messages are answered with.

ghost use Rattle.cluster_types.specs.declared.entry.Entry.{Entry};
ghost use Rattle.cluster_state.specs.Plain.{InTime};

use crate::common::new_chooser;
use crate::steps::{made, open, taken, up};
use cluster_core::machine::{Core, Made};
use cluster_types::config::Channel;
use cluster_types::entry::Input;
use cluster_types::out::Out;
use cluster_types::sequence::Sequence;
use cluster_types::shared_message::SharedMessage;
use load_schemes::chooser::Chooser;
use std::alloc::Global;
use std::process::Abort;

/// A message on connection 3: its target, header, metadata and content.
fn told<R: Abort>(rt: &R, alloc: Global, parts: (&str, &str, &str, &str)) -> Input
    ensures { InTime (Entry.Input result) }
{
    let (target, header, metadata, content) = parts;
    let message = SharedMessage::new(
        alloc,
        target.as_bytes(),
        header.as_bytes(),
        b"{}",
        metadata.as_bytes(),
        content.as_bytes(),
        Sequence::new(alloc),
    )
    .expect(rt, "memory is ample");
    Input::In {
        conn: 3,
        moment: 0,
        word: 0,
        message,
    }
}

/// What a message sends that comes on connection 3 of a channel, as the second entry after the first Open.
fn answered<R: Abort>(
    rt: &R,
    alloc: Global,
    chooser: &Chooser,
    channel: Channel,
    parts: (&str, &str, &str, &str),
) -> Option<Made> {
    let mut core = Core::new(alloc);
    let _ = taken(rt, &mut core, chooser, open());
    let _ = taken(rt, &mut core, chooser, up(rt, alloc, 3, channel));
    made(rt, &mut core, chooser, told(rt, alloc, parts)).expect(rt, "a step")
}

/// Whether one message is sent, to connection 3, with the id of that place, and this type and content.
fn is_made(outs: &[Out], kind: &str, text: &str) -> bool {
    match outs.first() {
        Some(
            Out::Made {
                conn,
                msg_id,
                msg_type,
                content,
                ..
            },
        ) => {
            outs.len() == 1
                && *conn == 3
                && msg_id.as_str() == "hub-1-2"
                && msg_type.as_str() == kind
                && content.as_slice() == text.as_bytes()
        }
        _ => false,
    }
}

/// Whether a step was taken that sends this.
fn is_sent(made: &Option<Made>, kind: &str, text: &str) -> bool {
    match made {
        Some(made) => is_made(made.outs.as_slice(), kind, text),
        None => false,
    }
}

#[test]
fn what_messages_are_answered_with(rt: HostRuntime) {
    let alloc = rt.alloc();
    let chooser = new_chooser(&rt, alloc);
    let submit = "{\"msg_id\":\"a\",\"msg_type\":\"execute_request\"}";
    for (channel, parts, kind, text) in [
        (
            Channel::Engine,
            (
                "",
                "{\"msg_id\":\"j\",\"msg_type\":\"registration_request\"}",
                "{}",
                "{\"uuid\":\"e0\"}",
            ),
            "registration_reply",
            "{\"status\":\"ok\",\"id\":0}",
        ),
        (
            Channel::Engine,
            (
                "",
                "{\"msg_id\":\"l\",\"msg_type\":\"unregistration_request\"}",
                "{}",
                "{}",
            ),
            "unregistration_reply",
            "{\"status\":\"error\",\"ename\":\"NotJoined\",\"evalue\":\"\",\"traceback\":[],\"ids\":[]}",
        ),
        (
            Channel::Hub,
            ("", "{\"msg_id\":\"q\",\"msg_type\":\"what\"}", "{}", "{}"),
            "what_reply",
            "{\"status\":\"error\",\"ename\":\"UnknownRequest\",\"evalue\":\"what\",\"traceback\":[],\"ids\":[]}",
        ),
        (
            Channel::Hub,
            (
                "",
                "{\"msg_id\":\"p\",\"msg_type\":\"purge_request\"}",
                "{}",
                "{\"msg_ids\":[\"a\"]}",
            ),
            "purge_reply",
            "{\"status\":\"error\",\"ename\":\"UnknownIds\",\"evalue\":\"\",\"traceback\":[],\"ids\":[\"a\"]}",
        ),
        (
            Channel::Hub,
            (
                "",
                "{\"msg_id\":\"r\",\"msg_type\":\"resubmit_request\"}",
                "{}",
                "{\"msg_ids\":[]}",
            ),
            "resubmit_reply",
            "{\"status\":\"ok\",\"resubmitted\":{}}",
        ),
        (
            Channel::Hub,
            (
                "",
                "{\"msg_id\":\"s\",\"msg_type\":\"abort_request\"}",
                "{}",
                "{\"msg_ids\":[]}",
            ),
            "abort_reply",
            "{\"status\":\"ok\",\"aborted\":[]}",
        ),
        (
            Channel::Hub,
            (
                "",
                "{\"msg_id\":\"s\",\"msg_type\":\"abort_request\"}",
                "{}",
                "{\"msg_ids\":[\"zz\"]}",
            ),
            "abort_reply",
            "{\"status\":\"error\",\"ename\":\"UnknownIds\",\"evalue\":\"\",\"traceback\":[],\"ids\":[\"zz\"]}",
        ),
        (
            Channel::Hub,
            (
                "",
                "{\"msg_id\":\"d\",\"msg_type\":\"db_request\"}",
                "{}",
                "{}",
            ),
            "db_reply",
            "{\"status\":\"ok\",\"records\":[]}",
        ),
        (
            Channel::Hub,
            (
                "",
                "{\"msg_id\":\"d\",\"msg_type\":\"db_request\"}",
                "{}",
                "[]",
            ),
            "db_reply",
            "{\"status\":\"error\",\"ename\":\"BadContent\",\"evalue\":\"content\",\"traceback\":[],\"ids\":[]}",
        ),
        (
            Channel::Task,
            ("", submit, "{\"timeout\":-1}", "{}"),
            "submit_refused",
            "{\"status\":\"error\",\"ename\":\"BadMetadata\",\"evalue\":\"timeout\",\"traceback\":[],\"ids\":[]}",
        ),
        (
            Channel::Mux,
            ("e9", submit, "{}", "{}"),
            "submit_refused",
            "{\"status\":\"error\",\"ename\":\"NoSuchEngine\",\"evalue\":\"6539\",\"traceback\":[],\"ids\":[]}",
        ),
    ] {
        let made = answered(&rt, alloc, &chooser, channel, parts);
        assert!(rt; is_sent(&made, kind, text), "at {text}");
    }
}
