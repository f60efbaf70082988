//! Watchers of tasks: how often a closure is called, which no contract can say, and what is noted.

ghost use Rattle.std.specs.Prelude.{◌≡◌};
ghost use Rattle.client_core.specs.Noting.{note_of};

use crate::replies::reply_to;
use client_core::answered::Answered;
use client_core::client::Client;
use client_core::metadata::plain_meta;
use client_core::note::note_of;
use client_core::noted::Noted;
use client_core::numbered::numbered_id;
use client_core::refusal::WatchRefusal;
use client_core::took::Took;
use client_core::watcher::Done;
use cluster_types::text::Text;
use std::alloc::Global;
use std::process::Abort;
use std::sync::Arc;
use std::sync::atomic::{AtomicUsize, Ordering};

const DONE: &str = "{\"status\":\"ok\",\"result\":\"42\"}";

const FAILED: &str = "{\"status\":\"error\",\"ename\":\"ZeroDivision\",\"evalue\":\"\"}";

/// The id of a number.
fn id_of<R: Abort>(rt: &R, alloc: Global, number: u64) -> Text {
    numbered_id(alloc, number).expect(rt, "memory is ample")
}

#[test]
fn a_closure_is_called_once(rt: HostRuntime) {
    let alloc = rt.alloc();
    let calls = Arc::new(alloc, AtomicUsize::new(0)).expect(&rt, "a counter");
    let counted = Arc::try_clone(&calls).expect(&rt, "a counter");
    let id = id_of(&rt, alloc, 0);
    let mut client = Client::new(alloc, "client").expect(&rt, "a client");
    let meta = plain_meta(alloc);
    client
        .submit_numbered("6*7", &meta, 0, 0)
        .expect(&rt, "a request");
    client
        .submit_numbered("1/0", &meta, 1, 0)
        .expect(&rt, "a request");
    let done: Done = Box::new(
        alloc,
        move |answered: Answered, ok: bool| -> Noted
            ensures { result ≡ note_of answered ok }
        {
            counted.fetch_add(1, Ordering::SeqCst);
            note_of(&answered, ok)
        },
    )
    .expect(&rt, "a closure");
    assert!(rt; client.watch(&id, done).is_ok());
    let other = reply_to(alloc, &id_of(&rt, alloc, 1), FAILED).expect(&rt, "a reply");
    assert!(rt; matches!(client.take(&other), Ok(Took::Settled { ok: false, .. })));
    assert_eq!(rt; calls.load(Ordering::SeqCst), 0);
    assert!(rt; client.noted(&id).is_none());
    let reply = reply_to(alloc, &id, DONE).expect(&rt, "a reply");
    assert!(rt; matches!(client.take(&reply), Ok(Took::Settled { ok: true, .. })));
    assert_eq!(rt; calls.load(Ordering::SeqCst), 1);
    assert!(rt; matches!(client.take(&reply), Ok(Took::Other)));
    assert_eq!(rt; calls.load(Ordering::SeqCst), 1);
    assert_eq!(rt;
        client.noted(&id),
        Some(Noted {
            ok: true,
            value: Some(42)
        })
    );
    assert!(rt; client.noted(&id_of(&rt, alloc, 1)).is_none());
    assert_eq!(rt; client.outstanding(), 0);
}

#[test]
fn refusals_hand_the_closure_back(rt: HostRuntime) {
    let alloc = rt.alloc();
    let id = id_of(&rt, alloc, 7);
    let mut client = Client::new(alloc, "client").expect(&rt, "a client");
    let done: Done = Box::new(
        alloc,
        |answered: Answered, ok: bool| -> Noted
            ensures { result ≡ note_of answered ok }
        { note_of(&answered, ok) },
    )
    .expect(&rt, "a closure");
    assert!(rt; !client.is_used(&id));
    let done = match client.watch(&id, done) {
        Err(WatchRefusal::NotOutstanding(done)) => done,
        _ => panic!(rt; "the id isn't used"),
    };
    client
        .submit_numbered("1/0", &plain_meta(alloc), 7, 0)
        .expect(&rt, "a request");
    assert!(rt; client.is_used(&id));
    assert!(rt; client.watch(&id, done).is_ok());
    let other: Done = Box::new(
        alloc,
        |answered: Answered, ok: bool| -> Noted
            ensures { result ≡ note_of answered ok }
        { note_of(&answered, ok) },
    )
    .expect(&rt, "a closure");
    let other = match client.watch(&id, other) {
        Err(WatchRefusal::Watched(other)) => other,
        _ => panic!(rt; "a closure is kept"),
    };
    let reply = reply_to(alloc, &id, FAILED).expect(&rt, "a reply");
    assert!(rt; matches!(client.take(&reply), Ok(Took::Settled { ok: false, .. })));
    assert!(rt;
        matches!(
            client.watch(&id, other),
            Err(WatchRefusal::NotOutstanding(_))
        )
    );
    assert_eq!(rt;
        client.noted(&id),
        Some(Noted {
            ok: false,
            value: None
        })
    );
}
