//! What an answer shows of a record.

use crate::common::{add, five_tasks, is_told, settled, three_tasks, waiting};
use cluster_types::verdict::{Cause, Verdict};
use resubmission::list::RecordList;

#[test]
fn all_fields(rt: HostRuntime) {
    let alloc = rt.alloc();
    let table = five_tasks(&rt, alloc);
    for (query, text) in [
        (
            "{}",
            "{\"status\":\"ok\",\"records\":[\
             {\"msg_id\":\"a\",\"number\":1,\"kind\":\"task\",\"engine\":0,\"state\":\"completed\",\"cause\":\"Reply\"},\
             {\"msg_id\":\"b\",\"number\":2,\"kind\":\"task\",\"engine\":1,\"state\":\"failed\",\"cause\":\"EngineError\"},\
             {\"msg_id\":\"c\",\"number\":3,\"kind\":\"task\",\"engine\":null,\"state\":\"pending\",\"cause\":null},\
             {\"msg_id\":\"B\",\"number\":5,\"kind\":\"direct\",\"engine\":10,\"state\":\"running\",\"cause\":null}]}",
        ),
        (
            "{\"other\":[1],\"query\":{\"number\":1}}",
            "{\"status\":\"ok\",\"records\":[{\"msg_id\":\"a\",\"number\":1,\"kind\":\"task\",\"engine\":0,\"state\":\"completed\",\"cause\":\"Reply\"}]}",
        ),
    ] {
        assert!(rt;
            is_told(&rt, alloc, &table, query.as_bytes(), text),
            "at {query}"
        );
    }
}

#[test]
fn an_aborted_task(rt: HostRuntime) {
    let alloc = rt.alloc();
    let mut table = RecordList::new(alloc);
    let aborted = (Verdict::Aborted, Cause::Abort);
    add(&rt, &mut table, settled(&rt, alloc, "a", 1, 0, aborted));
    let query = "{\"query\":{\"state\":\"aborted\"}}";
    let text =
        "{\"status\":\"ok\",\"records\":[{\"msg_id\":\"a\",\"number\":1,\"kind\":\"task\",\"engine\":0,\"state\":\"aborted\",\"cause\":\"Abort\"}]}";
    assert!(rt; is_told(&rt, alloc, &table, query.as_bytes(), text));
}

#[test]
fn listed_fields(rt: HostRuntime) {
    let alloc = rt.alloc();
    let table = three_tasks(&rt, alloc);
    for (query, text) in [
        (
            "{\"query\":{\"number\":1},\"keys\":[\"state\",\"msg_id\",\"state\"]}",
            "{\"status\":\"ok\",\"records\":[{\"state\":\"completed\",\"msg_id\":\"a\"}]}",
        ),
        (
            "{\"keys\":[]}",
            "{\"status\":\"ok\",\"records\":[{},{},{}]}",
        ),
        (
            "{\"query\":{\"number\":2,\"number\":1},\"keys\":[\"number\"]}",
            "{\"status\":\"ok\",\"records\":[{\"number\":1}]}",
        ),
    ] {
        assert!(rt;
            is_told(&rt, alloc, &table, query.as_bytes(), text),
            "at {query}"
        );
    }
}

#[test]
fn ids_are_written_as_json(rt: HostRuntime) {
    let alloc = rt.alloc();
    let mut table = RecordList::new(alloc);
    add(&rt, &mut table, waiting(&rt, alloc, "a\"\n", 1));
    let query = "{\"query\":{\"msg_id\":\"a\\\"\\u000a\"},\"keys\":[\"msg_id\"]}";
    let text = "{\"status\":\"ok\",\"records\":[{\"msg_id\":\"a\\\"\\n\"}]}";
    assert!(rt; is_told(&rt, alloc, &table, query.as_bytes(), text));
}
