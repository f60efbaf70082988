//! Aborts over a table of three records: `a` is settled, `b` runs and `c` is purged. `z` was never known.

use crate::queries::says;
use crate::tables::{ids, table};
use cluster_defs::answer::Answer;
use cluster_types::config::Channel;
use hub_queries::aborts::abort_answer;
use resubmission::abort::{AbortPlan, plan_abort};
use resubmission::list::RecordList;
use std::alloc::Global;
use std::process::Abort;

/// What an abort of these tasks comes to.
fn planned<R: Abort>(rt: &R, alloc: Global, table: &RecordList, names: &[&str]) -> AbortPlan {
    let list = ids(rt, alloc, names);
    plan_abort(alloc, table, &list).expect(rt, "memory is ample")
}

/// The answer of the hub to an abort.
fn told<R: Abort>(rt: &R, alloc: Global, plan: &AbortPlan) -> Answer {
    abort_answer(alloc, Channel::Hub, plan).expect(rt, "memory is ample")
}

#[test]
fn aborts(rt: HostRuntime) {
    let alloc = rt.alloc();
    let table = table(&rt, alloc);
    for (names, text) in [
        (
            &["a", "b", "b"] as &[&str],
            "{\"status\":\"ok\",\"aborted\":[\"b\"]}",
        ),
        (&["a"], "{\"status\":\"ok\",\"aborted\":[]}"),
        (&[], "{\"status\":\"ok\",\"aborted\":[]}"),
        (
            &["z", "b", "c", "z"],
            "{\"status\":\"error\",\"ename\":\"UnknownIds\",\"evalue\":\"\",\"traceback\":[],\"ids\":[\"z\",\"c\"]}",
        ),
    ] {
        let plan = planned(&rt, alloc, &table, names);
        let answer = told(&rt, alloc, &plan);
        assert!(rt; says(&answer, text), "at {text}");
    }
}
