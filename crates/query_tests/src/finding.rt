//! Which records a query finds.

use crate::common::{five_tasks, is_told, three_tasks};

const NONE: &str = "{\"status\":\"ok\",\"records\":[]}";

const A: &str = "{\"status\":\"ok\",\"records\":[{\"msg_id\":\"a\"}]}";

const B: &str = "{\"status\":\"ok\",\"records\":[{\"msg_id\":\"b\"}]}";

const C: &str = "{\"status\":\"ok\",\"records\":[{\"msg_id\":\"c\"}]}";

const RUNNING: &str = "{\"status\":\"ok\",\"records\":[{\"msg_id\":\"B\"}]}";

const A_B: &str = "{\"status\":\"ok\",\"records\":[{\"msg_id\":\"a\"},{\"msg_id\":\"b\"}]}";

const A_C: &str = "{\"status\":\"ok\",\"records\":[{\"msg_id\":\"a\"},{\"msg_id\":\"c\"}]}";

const B_C: &str = "{\"status\":\"ok\",\"records\":[{\"msg_id\":\"b\"},{\"msg_id\":\"c\"}]}";

const ALL: &str =
    "{\"status\":\"ok\",\"records\":[{\"msg_id\":\"a\"},{\"msg_id\":\"b\"},{\"msg_id\":\"c\"}]}";

#[test]
fn by_state_and_number(rt: HostRuntime) {
    let alloc = rt.alloc();
    let table = three_tasks(&rt, alloc);
    for (query, text) in [
        (
            "{\"query\":{\"state\":{\"$in\":[\"failed\",\"pending\"]}},\"keys\":[\"msg_id\",\"engine\"]}",
            "{\"status\":\"ok\",\"records\":[{\"msg_id\":\"b\",\"engine\":1},{\"msg_id\":\"c\",\"engine\":null}]}",
        ),
        (
            "{\"query\":{\"number\":{\"$gt\":1,\"$lt\":3}},\"keys\":[\"msg_id\"]}",
            B,
        ),
        (
            "{\"query\":{\"color\":1}}",
            "{\"status\":\"error\",\"ename\":\"BadContent\",\"evalue\":\"query\",\"traceback\":[],\"ids\":[]}",
        ),
    ] {
        assert!(rt;
            is_told(&rt, alloc, &table, query.as_bytes(), text),
            "at {query}"
        );
    }
}

#[test]
fn by_a_value(rt: HostRuntime) {
    let alloc = rt.alloc();
    let table = five_tasks(&rt, alloc);
    for (query, text) in [
        ("{\"query\":{\"msg_id\":\"a\"},\"keys\":[\"msg_id\"]}", A),
        ("{\"query\":{\"number\":2},\"keys\":[\"msg_id\"]}", B),
        (
            "{\"query\":{\"kind\":\"direct\"},\"keys\":[\"msg_id\"]}",
            RUNNING,
        ),
        ("{\"query\":{\"kind\":\"task\"},\"keys\":[\"msg_id\"]}", ALL),
        ("{\"query\":{\"engine\":null},\"keys\":[\"msg_id\"]}", C),
        ("{\"query\":{\"engine\":10},\"keys\":[\"msg_id\"]}", RUNNING),
        (
            "{\"query\":{\"state\":\"running\"},\"keys\":[\"msg_id\"]}",
            RUNNING,
        ),
        (
            "{\"query\":{\"state\":\"completed\"},\"keys\":[\"msg_id\"]}",
            A,
        ),
        (
            "{\"query\":{\"state\":\"aborted\"},\"keys\":[\"msg_id\"]}",
            NONE,
        ),
        (
            "{\"query\":{\"cause\":\"EngineError\"},\"keys\":[\"msg_id\"]}",
            B,
        ),
        (
            "{\"query\":{\"engine\":0,\"state\":\"failed\"},\"keys\":[\"msg_id\"]}",
            NONE,
        ),
        ("{\"query\":{\"number\":\"2\"},\"keys\":[\"msg_id\"]}", NONE),
    ] {
        assert!(rt;
            is_told(&rt, alloc, &table, query.as_bytes(), text),
            "at {query}"
        );
    }
}

#[test]
fn by_operators(rt: HostRuntime) {
    let alloc = rt.alloc();
    let table = three_tasks(&rt, alloc);
    for (query, text) in [
        (
            "{\"query\":{\"msg_id\":{\"$in\":[\"z\",\"a\"]}},\"keys\":[\"msg_id\"]}",
            A,
        ),
        (
            "{\"query\":{\"engine\":{\"$in\":[1,null]}},\"keys\":[\"msg_id\"]}",
            B_C,
        ),
        (
            "{\"query\":{\"msg_id\":{\"$in\":[]}},\"keys\":[\"msg_id\"]}",
            NONE,
        ),
        (
            "{\"query\":{\"msg_id\":{\"$ne\":\"b\"}},\"keys\":[\"msg_id\"]}",
            A_C,
        ),
        (
            "{\"query\":{\"engine\":{\"$ne\":null}},\"keys\":[\"msg_id\"]}",
            A_B,
        ),
        (
            "{\"query\":{\"number\":{\"$lt\":3}},\"keys\":[\"msg_id\"]}",
            A_B,
        ),
        (
            "{\"query\":{\"number\":{\"$gt\":1}},\"keys\":[\"msg_id\"]}",
            B_C,
        ),
        (
            "{\"query\":{\"msg_id\":{\"$lt\":\"b\"}},\"keys\":[\"msg_id\"]}",
            A,
        ),
        (
            "{\"query\":{\"msg_id\":{\"$gt\":\"ab\"}},\"keys\":[\"msg_id\"]}",
            B_C,
        ),
        (
            "{\"query\":{\"number\":{\"$gt\":1,\"$ne\":2,\"$in\":[1,2,3]}},\"keys\":[\"msg_id\"]}",
            C,
        ),
        ("{\"query\":{\"cause\":{}},\"keys\":[\"msg_id\"]}", ALL),
        ("{\"query\":{},\"keys\":[\"msg_id\"]}", ALL),
        ("{\"keys\":[\"msg_id\"]}", ALL),
    ] {
        assert!(rt;
            is_told(&rt, alloc, &table, query.as_bytes(), text),
            "at {query}"
        );
    }
}

#[test]
fn no_order_between_kinds_of_values(rt: HostRuntime) {
    let alloc = rt.alloc();
    let table = three_tasks(&rt, alloc);
    for query in [
        "{\"query\":{\"number\":{\"$lt\":\"9\"}},\"keys\":[\"msg_id\"]}",
        "{\"query\":{\"number\":{\"$gt\":\"0\"}},\"keys\":[\"msg_id\"]}",
        "{\"query\":{\"msg_id\":{\"$lt\":9}},\"keys\":[\"msg_id\"]}",
        "{\"query\":{\"msg_id\":{\"$gt\":0}},\"keys\":[\"msg_id\"]}",
        "{\"query\":{\"state\":\"pending\",\"engine\":{\"$lt\":9}},\"keys\":[\"msg_id\"]}",
    ] {
        assert!(rt;
            is_told(&rt, alloc, &table, query.as_bytes(), NONE),
            "at {query}"
        );
    }
}

#[test]
fn purged_tasks_are_gone(rt: HostRuntime) {
    let alloc = rt.alloc();
    let table = five_tasks(&rt, alloc);
    let text = "{\"status\":\"ok\",\"records\":[{\"msg_id\":\"c\"},{\"msg_id\":\"B\"}]}";
    for (query, text) in [
        ("{\"query\":{\"msg_id\":\"0\"},\"keys\":[\"msg_id\"]}", NONE),
        (
            "{\"query\":{\"number\":{\"$gt\":2}},\"keys\":[\"msg_id\"]}",
            text,
        ),
    ] {
        assert!(rt;
            is_told(&rt, alloc, &table, query.as_bytes(), text),
            "at {query}"
        );
    }
}
