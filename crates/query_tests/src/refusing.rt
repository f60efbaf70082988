//! Queries that don't read.

use crate::common::{is_told, three_tasks};

const BAD_CONTENT: &str =
    "{\"status\":\"error\",\"ename\":\"BadContent\",\"evalue\":\"content\",\"traceback\":[],\"ids\":[]}";

const BAD_QUERY: &str =
    "{\"status\":\"error\",\"ename\":\"BadContent\",\"evalue\":\"query\",\"traceback\":[],\"ids\":[]}";

const BAD_KEYS: &str =
    "{\"status\":\"error\",\"ename\":\"BadContent\",\"evalue\":\"keys\",\"traceback\":[],\"ids\":[]}";

#[test]
fn contents_that_are_no_objects(rt: HostRuntime) {
    let alloc = rt.alloc();
    let table = three_tasks(&rt, alloc);
    for content in [
        b"" as &[u8],
        b"{",
        b"{} {}",
        b"\xff",
        b"[]",
        b"null",
        b"{\"other\":1e999}",
    ] {
        assert!(rt; is_told(&rt, alloc, &table, content, BAD_CONTENT));
    }
}

#[test]
fn bad_tests(rt: HostRuntime) {
    let alloc = rt.alloc();
    let table = three_tasks(&rt, alloc);
    for content in [
        "{\"query\":null}",
        "{\"query\":[]}",
        "{\"query\":\"a\"}",
        "{\"query\":{\"color\":1}}",
        "{\"query\":{\"number\":-1}}",
        "{\"query\":{\"number\":-0}}",
        "{\"query\":{\"number\":1.0}}",
        "{\"query\":{\"number\":18446744073709551616}}",
        "{\"query\":{\"number\":true}}",
        "{\"query\":{\"number\":[1]}}",
        "{\"query\":{\"number\":{\"$eq\":1}}}",
        "{\"query\":{\"number\":{\"$in\":1}}}",
        "{\"query\":{\"number\":{\"$in\":[1,-1]}}}",
        "{\"query\":{\"number\":{\"$in\":null}}}",
        "{\"query\":{\"number\":{\"$ne\":false}}}",
        "{\"query\":{\"number\":{\"$lt\":null}}}",
        "{\"query\":{\"number\":{\"$gt\":null}}}",
        "{\"query\":{\"number\":{\"$lt\":[]}}}",
        "{\"query\":{\"number\":{\"$lt\":1,\"$gt\":{}}}}",
        "{\"query\":null,\"keys\":null}",
    ] {
        assert!(rt;
            is_told(&rt, alloc, &table, content.as_bytes(), BAD_QUERY),
            "at {content}"
        );
    }
}

#[test]
fn bad_keys(rt: HostRuntime) {
    let alloc = rt.alloc();
    let table = three_tasks(&rt, alloc);
    for content in [
        "{\"keys\":null}",
        "{\"keys\":\"msg_id\"}",
        "{\"keys\":[\"color\"]}",
        "{\"keys\":[\"msg_id\",1]}",
        "{\"query\":{},\"keys\":{}}",
    ] {
        assert!(rt;
            is_told(&rt, alloc, &table, content.as_bytes(), BAD_KEYS),
            "at {content}"
        );
    }
}
