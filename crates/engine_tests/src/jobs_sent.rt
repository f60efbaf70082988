//! Jobs that are submitted over a client.

use client_core::client::Client;
use client_core::error::SendError;
use job_graph::read::{JobGraph, read_job};
use job_graph::submit::submit_job;
use std::alloc::Global;
use std::process::Abort;

const TEXT: &str = "a : 6*7\nb after a : 1+1\nc after a,b follow b retries 3 : 1/0\nd after c : 1";

/// The job of the text.
fn worked_job<R: Abort>(rt: &R, alloc: Global) -> JobGraph {
    read_job(alloc, TEXT).expect(rt, "the text is a job")
}

#[test]
fn messages_carry_what_tasks_wait_for(rt: HostRuntime) {
    let alloc = rt.alloc();
    let mut client = Client::new(alloc, "client").expect(&rt, "a client");
    let job = worked_job(&rt, alloc);
    assert!(rt; job.tasks().len() == 4);
    let (ids, messages) = submit_job(alloc, &mut client, &job, 0, 0).expect(&rt, "requests");
    assert_eq!(rt; ids.len(), 4);
    let last = ids.get(3).expect(&rt, "an id");
    assert_eq!(rt; last.as_str(), "00000000-0000-4000-8000-000000000003");
    let [first, _, third, _] = messages.as_slice() else {
        panic!(rt; "there are four messages");
    };
    assert!(rt;
        first.metadata()
            == b"{\"after\":{\"dependencies\":[],\"all\":true,\"success\":true,\"failure\":false},\"follow\":{\"dependencies\":[],\"all\":true,\"success\":true,\"failure\":false},\"targets\":[],\"timeout\":0,\"retries\":0}".as_slice()
    );
    assert!(rt;
        third.metadata()
            == b"{\"after\":{\"dependencies\":[\"00000000-0000-4000-8000-000000000000\",\"00000000-0000-4000-8000-000000000001\"],\"all\":true,\"success\":true,\"failure\":false},\"follow\":{\"dependencies\":[\"00000000-0000-4000-8000-000000000001\"],\"all\":true,\"success\":true,\"failure\":false},\"targets\":[],\"timeout\":0,\"retries\":3}".as_slice()
    );
    assert!(rt;
        third.content()
            == b"{\"code\":\"1/0\",\"silent\":false,\"store_history\":true,\"user_expressions\":{},\"allow_stdin\":false,\"stop_on_error\":true}".as_slice()
    );
    assert_eq!(rt; client.outstanding(), 4);
}

#[test]
fn a_job_is_sent_once(rt: HostRuntime) {
    let alloc = rt.alloc();
    let mut client = Client::new(alloc, "client").expect(&rt, "a client");
    let job = worked_job(&rt, alloc);
    assert!(rt; job.tasks().len() == 4);
    assert!(rt; submit_job(alloc, &mut client, &job, 10, 0).is_ok());
    let again = submit_job(alloc, &mut client, &job, 7, 0);
    assert!(rt; matches!(again, Err(SendError::KnownId)));
    assert_eq!(rt; client.outstanding(), 4);
    assert!(rt; submit_job(alloc, &mut client, &job, 14, 0).is_ok());
}
