//! Codes that are sent over a client, and what gathers their answers.

use crate::replies::{is_failure, is_value, reply_to};
use array_maps::codes::{Codes, map_codes};
use array_maps::gathered::Gathered;
use array_maps::sending::send;
use client_core::client::Client;
use client_core::error::SendError;
use client_core::metadata::plain_meta;
use client_core::numbered::numbered_id;
use client_core::took::Took;
use std::alloc::Global;
use std::process::Abort;

/// What the task of a number comes to, which the client and what gathers take.
fn take<R: Abort>(
    rt: &R,
    alloc: Global,
    gathered: &mut Gathered,
    client: &mut Client,
    number: u64,
    content: &str,
) -> Took {
    let id = numbered_id(alloc, number).expect(rt, "memory is ample");
    let reply = reply_to(alloc, &id, content).expect(rt, "memory is ample");
    gathered.take(client, &reply).expect(rt, "memory is ample")
}

/// The codes that square 3 and 4.
fn squares<R: Abort>(rt: &R, alloc: Global) -> Codes {
    map_codes(alloc, "x*x", &[3, 4]).expect(rt, "codes")
}

const NINE: &str = "{\"status\":\"ok\",\"result\":\"9\"}";

const SIXTEEN: &str = "{\"status\":\"ok\",\"result\":\"16\"}";

#[test]
fn answers_are_gathered_in_order(rt: HostRuntime) {
    let alloc = rt.alloc();
    let mut client = Client::new(alloc, "client").expect(&rt, "a client");
    let codes = squares(&rt, alloc);
    assert!(rt; codes.len() == 2);
    let (mut gathered, messages) = send(alloc, &mut client, &codes, 5, 0).expect(&rt, "requests");
    assert_eq!(rt; messages.len(), 2);
    let [first, second] = messages.as_slice() else {
        panic!(rt; "there are two messages");
    };
    assert!(rt;
        first.header()
            == b"{\"msg_id\":\"00000000-0000-4000-8000-000000000005\",\"session\":\"client\",\"username\":\"client\",\"date\":\"1970-01-01T00:00:00.000Z\",\"msg_type\":\"execute_request\",\"version\":\"5.3\"}".as_slice()
    );
    assert!(rt;
        second.content()
            == b"{\"code\":\"x=4;x*x\",\"silent\":false,\"store_history\":true,\"user_expressions\":{},\"allow_stdin\":false,\"stop_on_error\":true}".as_slice()
    );
    assert!(rt; gathered.get(0).is_none() && !gathered.is_whole());
    let took = take(&rt, alloc, &mut gathered, &mut client, 6, SIXTEEN);
    assert!(rt; matches!(took, Took::Settled { ok: true, .. }));
    assert!(rt; gathered.get(0).is_none() && !gathered.is_whole());
    let took = take(&rt, alloc, &mut gathered, &mut client, 5, NINE);
    assert!(rt; matches!(took, Took::Settled { ok: true, .. }));
    assert!(rt; gathered.is_whole());
    assert!(rt; is_value(gathered.get(0).expect(&rt, "an answer"), 9));
    assert!(rt; is_value(gathered.get(1).expect(&rt, "an answer"), 16));
    assert!(rt; gathered.get(2).is_none());
    let took = take(&rt, alloc, &mut gathered, &mut client, 5, SIXTEEN);
    assert!(rt; matches!(took, Took::Other));
    assert!(rt; is_value(gathered.get(0).expect(&rt, "an answer"), 9));
    assert_eq!(rt; client.outstanding(), 0);
}

#[test]
fn other_tasks_are_not_gathered(rt: HostRuntime) {
    let alloc = rt.alloc();
    let mut client = Client::new(alloc, "client").expect(&rt, "a client");
    client
        .submit_numbered("7", &plain_meta(alloc), 2, 0)
        .expect(&rt, "a request");
    let codes = squares(&rt, alloc);
    assert!(rt; codes.len() == 2);
    let (mut gathered, _) = send(alloc, &mut client, &codes, 0, 0).expect(&rt, "requests");
    let took = take(&rt, alloc, &mut gathered, &mut client, 2, NINE);
    assert!(rt; matches!(took, Took::Settled { .. }));
    let took = take(&rt, alloc, &mut gathered, &mut client, 3, NINE);
    assert!(rt; matches!(took, Took::Stranger));
    assert!(rt; gathered.get(0).is_none() && gathered.get(1).is_none());
    let took = take(
        &rt,
        alloc,
        &mut gathered,
        &mut client,
        0,
        "{\"status\":\"error\",\"ename\":\"NameError\",\"evalue\":\"x\"}",
    );
    assert!(rt; matches!(took, Took::Settled { ok: false, .. }));
    assert!(rt; is_failure(gathered.get(0).expect(&rt, "an answer"), "NameError", "x"));
}

#[test]
fn an_id_is_sent_once(rt: HostRuntime) {
    let alloc = rt.alloc();
    let mut client = Client::new(alloc, "client").expect(&rt, "a client");
    let codes = squares(&rt, alloc);
    assert!(rt; codes.len() == 2);
    assert!(rt; send(alloc, &mut client, &codes, 0, 0).is_ok());
    assert!(rt;
        matches!(
            send(alloc, &mut client, &codes, 0, 0),
            Err(SendError::KnownId)
        )
    );
    assert!(rt;
        matches!(
            send(alloc, &mut client, &codes, 1, 0),
            Err(SendError::KnownId)
        )
    );
    assert_eq!(rt; client.outstanding(), 2);
    assert!(rt; send(alloc, &mut client, &codes, 2, 0).is_ok());
    assert_eq!(rt; client.outstanding(), 4);
}
