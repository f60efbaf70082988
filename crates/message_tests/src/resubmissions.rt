//! Plans over a table of three records: `a` is settled, `b` runs and `c` is purged. `z` was never known.

use crate::queries::says;
use crate::tables::{adds, are, ids, settled, table};
use cluster_defs::answer::Answer;
use cluster_types::config::Channel;
use cluster_types::message::Ids;
use hub_queries::resubmissions::{purge_answer, refused_answer, renamed_answer};
use resubmission::list::RecordList;
use resubmission::plan::{Renamed, ResubmitRefusal, plan};
use resubmission::purge::{PurgePlan, plan_purge};
use std::alloc::Global;
use std::process::Abort;

/// A refusal of a resubmission: its name, and each of its ids followed by a blank.
fn is_refusal(refused: &ResubmitRefusal, name: &str, names: &str) -> bool {
    match refused {
        ResubmitRefusal::Unknown(list) => name == "Unknown" && are(list, names),
        ResubmitRefusal::Purged(list) => name == "Purged" && are(list, names),
        ResubmitRefusal::Inflight(list) => name == "Inflight" && are(list, names),
        ResubmitRefusal::TableFull => name == "TableFull",
        _ => false,
    }
}

/// Whether no task is made again for this reason.
fn is_refused(planned: &Result<Renamed, ResubmitRefusal>, name: &str, names: &str) -> bool {
    match planned {
        Err(refused) => is_refusal(refused, name, names),
        Ok(_) => false,
    }
}

/// What a resubmission comes to.
fn planned(
    alloc: Global,
    table: &RecordList,
    list: &Ids,
    limit: u64,
) -> Result<Renamed, ResubmitRefusal> {
    plan(alloc, table, list, limit)
}

/// The answer to a resubmission for which the table has no place.
fn full_answer<R: Abort>(rt: &R, alloc: Global) -> Answer {
    refused_answer(alloc, Channel::Hub, &ResubmitRefusal::TableFull).expect(rt, "memory is ample")
}

#[test]
fn refused_resubmissions(rt: HostRuntime) {
    let alloc = rt.alloc();
    let table = table(&rt, alloc);
    for (first, second, limit, name, names) in [
        ("z", "c", 2_000_000, "Unknown", "z "),
        ("c", "b", 2_000_000, "Purged", "c "),
        ("b", "b", 2_000_000, "Inflight", "b "),
        ("a", "a", 3, "TableFull", ""),
    ] {
        let list = ids(&rt, alloc, &[first, second]);
        let planned = planned(alloc, &table, &list, limit);
        assert!(rt; is_refused(&planned, name, names), "at {name}");
    }
    let answer = full_answer(&rt, alloc);
    let text =
        "{\"status\":\"error\",\"ename\":\"TableFull\",\"evalue\":\"2000000\",\"traceback\":[],\"ids\":[]}";
    assert!(rt; says(&answer, text));
}

/// The answer to a resubmission that makes these tasks.
fn made_answer<R: Abort>(rt: &R, alloc: Global, renamed: &Renamed) -> Answer {
    renamed_answer(alloc, Channel::Hub, renamed).expect(rt, "memory is ample")
}

#[test]
fn one_task_again(rt: HostRuntime) {
    let alloc = rt.alloc();
    let mut table = RecordList::new(alloc);
    let _ = adds(&rt, &mut table, settled(&rt, alloc, "a", 1, false));
    let list = ids(&rt, alloc, &["a", "a"]);
    let renamed = planned(alloc, &table, &list, 2).expect(&rt, "a resubmission");
    let answer = made_answer(&rt, alloc, &renamed);
    let text = "{\"status\":\"ok\",\"resubmitted\":{\"a\":\"resubmit:2\"}}";
    assert!(rt; says(&answer, text));
}

/// What a purge of all tasks or of these comes to.
fn purged<R: Abort>(
    rt: &R,
    alloc: Global,
    table: &RecordList,
    all: bool,
    names: &[&str],
) -> PurgePlan {
    let list = ids(rt, alloc, names);
    plan_purge(alloc, table, all, &list).expect(rt, "memory is ample")
}

/// The answer to a purge.
fn purge_told<R: Abort>(rt: &R, alloc: Global, plan: &PurgePlan) -> Answer {
    purge_answer(alloc, Channel::Hub, plan).expect(rt, "memory is ample")
}

#[test]
fn purges(rt: HostRuntime) {
    let alloc = rt.alloc();
    let table = table(&rt, alloc);
    let running = purged(&rt, alloc, &table, false, &["a", "b"]);
    let text =
        "{\"status\":\"error\",\"ename\":\"Inflight\",\"evalue\":\"\",\"traceback\":[],\"ids\":[\"b\"]}";
    assert!(rt; says(&purge_told(&rt, alloc, &running), text));
    let all = purged(&rt, alloc, &table, true, &[]);
    assert!(rt; matches!(&all, PurgePlan::Drops(list) if are(list, "a ")));
    assert!(rt; says(&purge_told(&rt, alloc, &all), "{\"status\":\"ok\"}"));
    let unknown = purged(&rt, alloc, &table, false, &["c", "b", "z"]);
    assert!(rt; matches!(&unknown, PurgePlan::Unknown(list) if are(list, "c z ")));
}
