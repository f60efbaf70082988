//! Answers and lists at their limits.

use crate::common::{add, is_told, three_tasks, waiting};
use cluster_types::octets::Octets;
use db_query::answer::answer;
use db_query::fault::DbError;
use resubmission::list::RecordList;
use std::alloc::Global;
use std::process::Abort;

/// An id of so many octets.
fn long_id<R: Abort>(rt: &R, alloc: Global, octets: usize) -> String {
    "x".repeat(alloc, octets).expect(rt, "memory is ample")
}

/// Two tasks whose ids have so many octets together.
fn long_table<R: Abort>(rt: &R, alloc: Global, first: usize, second: usize) -> RecordList {
    let mut table = RecordList::new(alloc);
    let long = long_id(rt, alloc, first);
    add(rt, &mut table, waiting(rt, alloc, long.as_str(), 1));
    let other = long_id(rt, alloc, second);
    add(rt, &mut table, waiting(rt, alloc, other.as_str(), 2));
    table
}

/// How many octets the answer with the ids of a table has, or None where it is too long.
fn answered<R: Abort>(rt: &R, alloc: Global, table: &RecordList) -> Option<usize> {
    let content = Octets::new(alloc, b"{\"keys\":[\"msg_id\"]}").expect(rt, "memory is ample");
    match answer(alloc, table, &content) {
        Ok(told) => Some(told.content.len()),
        Err(DbError::TooLong) => None,
        Err(DbError::OutOfMemory) => Some(0),
    }
}

#[test]
fn the_longest_answer(rt: HostRuntime) {
    let alloc = rt.alloc();
    // `{"status":"ok","records":[` and `]}` have 28 octets, an object but its id 13, and the comma one.
    let rest = 28 + 13 + 13 + 1;
    let table = long_table(&rt, alloc, 16_000_000, 777_216 - rest);
    assert!(rt; answered(&rt, alloc, &table) == Some(16_777_216));
    let table = long_table(&rt, alloc, 16_000_000, 777_216 - rest + 1);
    assert!(rt; answered(&rt, alloc, &table).is_none());
    let table = long_table(&rt, alloc, 17_000_000, 1);
    assert!(rt; answered(&rt, alloc, &table).is_none());
}

/// A query with so many times the number 1 to choose from.
fn many_choices<R: Abort>(rt: &R, alloc: Global, count: usize) -> String {
    let mut text = String::from_str(alloc, "{\"query\":{\"number\":{\"$in\":[1").expect(
        rt,
        "memory is ample",
    );
    for _ in 1..count {
        text.push_str(",1").expect(rt, "memory is ample");
    }
    text.push_str("]}},\"keys\":[\"msg_id\"]}")
        .expect(rt, "memory is ample");
    text
}

#[test]
fn the_longest_list(rt: HostRuntime) {
    let alloc = rt.alloc();
    let table = three_tasks(&rt, alloc);
    let long = many_choices(&rt, alloc, 4_096);
    let a = "{\"status\":\"ok\",\"records\":[{\"msg_id\":\"a\"}]}";
    assert!(rt; is_told(&rt, alloc, &table, long.as_bytes(), a));
    let longer = many_choices(&rt, alloc, 4_097);
    let refused =
        "{\"status\":\"error\",\"ename\":\"BadContent\",\"evalue\":\"query\",\"traceback\":[],\"ids\":[]}";
    assert!(rt; is_told(&rt, alloc, &table, longer.as_bytes(), refused));
}
