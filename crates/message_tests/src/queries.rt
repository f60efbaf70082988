//! Answers over a table of three records: `a` is settled on engine 0, `b` runs on engine 1, and `c` waits.

ghost use Rattle.std.specs.Prelude.{map};
ghost use Rattle.hub_queries.specs.Ascending.{Ascends};

use crate::tables::{ids, outcome, text};
use cluster_defs::answer::Answer;
use cluster_types::config::Channel;
use cluster_types::event::Query;
use cluster_types::octets::Octets;
use cluster_types::record::Record;
use cluster_types::sequence::Sequence;
use cluster_types::verdict::{Cause, Verdict};
use hub_queries::answer::answer;
use hub_queries::engines::LiveEngines;
use hub_queries::limits::limited;
use resubmission::list::RecordList;
use std::alloc::Global;
use std::process::Abort;

fn octets<R: Abort>(rt: &R, alloc: Global, bytes: &[u8]) -> Octets {
    Octets::new(alloc, bytes).expect(rt, "memory is ample")
}

fn buffer<R: Abort>(rt: &R, alloc: Global) -> Sequence<Octets> {
    let mut list = Sequence::new(alloc);
    let raw = octets(rt, alloc, b"raw");
    list.push(raw).expect(rt, "memory is ample");
    list
}

fn settled<R: Abort>(rt: &R, alloc: Global, name: &str, number: u64) -> Record {
    Record {
        id: text(rt, alloc, name),
        number,
        direct: true,
        engine: Some(0),
        running: false,
        settled: Some((Verdict::Completed, Cause::Reply)),
        purged: false,
        outcome: Some(outcome(rt, alloc, buffer(rt, alloc))),
    }
}

fn waiting<R: Abort>(
    rt: &R,
    alloc: Global,
    name: &str,
    number: u64,
    engine: Option<u32>,
) -> Record {
    Record {
        id: text(rt, alloc, name),
        number,
        direct: false,
        engine,
        running: engine.is_some(),
        settled: None,
        purged: false,
        outcome: None,
    }
}

/// Adds a record.
fn add<R: Abort>(rt: &R, list: &mut RecordList, record: Record) {
    let _ = list.push(record).expect(rt, "memory is ample");
}

fn table<R: Abort>(rt: &R, alloc: Global) -> RecordList {
    let mut list = RecordList::new(alloc);
    add(rt, &mut list, settled(rt, alloc, "a", 1));
    add(rt, &mut list, waiting(rt, alloc, "b", 2, Some(1)));
    add(rt, &mut list, waiting(rt, alloc, "c", 3, None));
    list
}

/// The live engine 1.
fn live<R: Abort>(rt: &R, alloc: Global) -> LiveEngines
    ensures { Ascends (map (λ e. e.0) result) }
{
    let mut list = Sequence::new(alloc);
    let uuid = text(rt, alloc, "e1");
    list.push((1, uuid)).expect(rt, "memory is ample");
    list
}

/// What the hub answers.
fn asked<R: Abort>(rt: &R, alloc: Global, query: &Query) -> Answer {
    let table = table(rt, alloc);
    let live = live(rt, alloc);
    let kind = text(rt, alloc, "x_request");
    answer(alloc, &table, &live, Channel::Hub, query, &kind).expect(rt, "memory is ample")
}

/// Whether an answer has this content.
pub(crate) fn says(answer: &Answer, text: &str) -> bool {
    answer.content.as_slice() == text.as_bytes()
}

/// Whether the hub answers a query with this content.
fn is_told<R: Abort>(rt: &R, alloc: Global, query: &Query, text: &str) -> bool {
    let told = asked(rt, alloc, query);
    says(&told, text)
}

/// A query for the queues of one engine, or of all.
fn queue<R: Abort>(rt: &R, alloc: Global, engine: Option<u32>, verbose: bool) -> Query {
    let mut targets = Sequence::new(alloc);
    if let Some(number) = engine {
        targets.push(number).expect(rt, "memory is ample");
    }
    Query::Queue { targets, verbose }
}

/// A query for results.
fn result<R: Abort>(rt: &R, alloc: Global, names: &[&str], status_only: bool) -> Query {
    let ids = ids(rt, alloc, names);
    Query::Result { ids, status_only }
}

/// An answer with so many empty buffers.
fn with_buffers<R: Abort>(rt: &R, alloc: Global, count: usize) -> Answer {
    let mut buffers = Sequence::new(alloc);
    for _ in 0..count {
        let empty = octets(rt, alloc, b"");
        buffers.push(empty).expect(rt, "memory is ample");
    }
    Answer {
        content: octets(rt, alloc, b"{}"),
        buffers,
    }
}

#[test]
fn engines_and_tasks(rt: HostRuntime) {
    let alloc = rt.alloc();
    for (query, text) in [
        (
            Query::Connection,
            "{\"status\":\"ok\",\"engines\":{\"1\":\"e1\"}}",
        ),
        (
            Query::History,
            "{\"status\":\"ok\",\"history\":[\"a\",\"b\",\"c\"]}",
        ),
        (
            Query::Unknown,
            "{\"status\":\"error\",\"ename\":\"UnknownRequest\",\"evalue\":\"x_request\",\"traceback\":[],\"ids\":[]}",
        ),
    ] {
        assert!(rt; is_told(&rt, alloc, &query, text), "at {text}");
    }
}

#[test]
fn records(rt: HostRuntime) {
    let alloc = rt.alloc();
    let content = octets(
        &rt,
        alloc,
        b"{\"query\":{\"number\":{\"$gt\":1}},\"keys\":[\"msg_id\",\"state\"]}",
    );
    let text =
        "{\"status\":\"ok\",\"records\":[{\"msg_id\":\"b\",\"state\":\"running\"},{\"msg_id\":\"c\",\"state\":\"pending\"}]}";
    assert!(rt; is_told(&rt, alloc, &Query::Db { content }, text));
}

/// The answer on a channel with the id of a task, which has 17,000,000 octets.
fn long_answer<R: Abort>(rt: &R, alloc: Global, channel: Channel) -> Answer {
    let mut table = RecordList::new(alloc);
    let long = "x".repeat(alloc, 17_000_000).expect(rt, "memory is ample");
    add(rt, &mut table, waiting(rt, alloc, long.as_str(), 1, None));
    let live = live(rt, alloc);
    let kind = text(rt, alloc, "db_request");
    let content = octets(rt, alloc, b"{\"keys\":[\"msg_id\"]}");
    answer(alloc, &table, &live, channel, &Query::Db { content }, &kind).expect(
        rt,
        "memory is ample",
    )
}

#[test]
fn records_at_the_limit(rt: HostRuntime) {
    let alloc = rt.alloc();
    let refused =
        "{\"status\":\"error\",\"ename\":\"ReplyTooLong\",\"evalue\":\"\",\"traceback\":[],\"ids\":[]}";
    assert!(rt; says(&long_answer(&rt, alloc, Channel::Hub), refused));
    assert!(rt; long_answer(&rt, alloc, Channel::Task).content.len() == 17_000_041);
}

#[test]
fn queues(rt: HostRuntime) {
    let alloc = rt.alloc();
    for (engine, verbose, text) in [
        (
            Some(7),
            false,
            "{\"status\":\"error\",\"ename\":\"NoSuchEngine\",\"evalue\":\"7\",\"traceback\":[],\"ids\":[]}",
        ),
        (
            None,
            false,
            "{\"status\":\"ok\",\"unassigned\":1,\"1\":{\"queue\":0,\"completed\":0,\"tasks\":1}}",
        ),
        (
            Some(1),
            true,
            "{\"status\":\"ok\",\"unassigned\":[\"c\"],\"1\":{\"queue\":[],\"completed\":[],\"tasks\":[\"b\"]}}",
        ),
    ] {
        let query = queue(&rt, alloc, engine, verbose);
        assert!(rt; is_told(&rt, alloc, &query, text), "at {text}");
    }
}

#[test]
fn results(rt: HostRuntime) {
    let alloc = rt.alloc();
    for (names, status_only, text, buffers) in [
        (
            &["b"] as &[&str],
            false,
            "{\"status\":\"ok\",\"pending\":[\"b\"],\"completed\":[],\"results\":{}}",
            0,
        ),
        (
            &["z", "a"],
            true,
            "{\"status\":\"error\",\"ename\":\"UnknownIds\",\"evalue\":\"\",\"traceback\":[],\"ids\":[\"z\"]}",
            0,
        ),
        (
            &["a", "a"],
            false,
            "{\"status\":\"ok\",\"pending\":[],\"completed\":[\"a\"],\"results\":{\"a\":{\"engine\":0,\"verdict\":\"completed\",\"cause\":\"Reply\",\"header\":{},\"metadata\":{},\"content\":{\"status\":\"ok\"},\"buffers\":1}}}",
            1,
        ),
    ] {
        let query = result(&rt, alloc, names, status_only);
        let told = asked(&rt, alloc, &query);
        assert!(rt;
            says(&told, text) && told.buffers.len() == buffers,
            "at {text}"
        );
    }
}

/// An answer of the hub with so many empty buffers, within its limit.
fn held<R: Abort>(rt: &R, alloc: Global, count: usize) -> Answer {
    let answer = with_buffers(rt, alloc, count);
    limited(alloc, Channel::Hub, answer).expect(rt, "memory is ample")
}

#[test]
fn buffers_at_the_limit(rt: HostRuntime) {
    let alloc = rt.alloc();
    for (count, text) in [
        (58, "{}"),
        (
            59,
            "{\"status\":\"error\",\"ename\":\"ReplyTooLong\",\"evalue\":\"\",\"traceback\":[],\"ids\":[]}",
        ),
    ] {
        let told = held(&rt, alloc, count);
        assert!(rt; says(&told, text));
    }
}
