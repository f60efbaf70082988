//! Ids over a table of three records: `a` is settled, `b` runs and `c` is purged. `z` was never known.

use crate::tables::{adds, are, ids, running, table};
use cluster_types::message::Ids;
use cluster_types::record::Records;
use resubmission::distinct::once;
use resubmission::list::RecordList;
use resubmission::standing::{Standing, ids_that};
use std::alloc::Global;
use std::process::Abort;

#[test]
fn list_takes_the_next_records(rt: HostRuntime) {
    let alloc = rt.alloc();
    let mut list = table(&rt, alloc);
    for (name, number, is_taken) in [("d", 5, false), ("b", 4, false), ("d", 4, true)] {
        let record = running(&rt, alloc, name, number);
        assert_eq!(rt; adds(&rt, &mut list, record), is_taken);
    }
    assert_eq!(rt; list.count(), 4);
}

/// The same ids, each once.
fn listed_once<R: Abort>(rt: &R, alloc: Global, list: &Ids) -> Ids {
    once(alloc, list).expect(rt, "memory is ample")
}

/// Those of some ids that stand so in a table.
fn standing_so<R: Abort>(
    rt: &R,
    alloc: Global,
    table: &RecordList,
    standing: Standing,
    list: &Ids,
) -> Ids {
    ids_that(alloc, table, standing, list).expect(rt, "memory is ample")
}

#[test]
fn ids_by_their_records(rt: HostRuntime) {
    let alloc = rt.alloc();
    let list = ids(&rt, alloc, &["b", "a", "b", "c", "a"]);
    assert!(rt; are(&listed_once(&rt, alloc, &list), "b a c "));
    let table = table(&rt, alloc);
    let list = ids(&rt, alloc, &["z", "c", "b", "a"]);
    for (standing, names) in [
        (Standing::Unknown, "z "),
        (Standing::Gone, "z c "),
        (Standing::Purged, "c "),
        (Standing::Inflight, "z b "),
        (Standing::Settled, "c a "),
    ] {
        assert!(rt;
            are(&standing_so(&rt, alloc, &table, standing, &list), names),
            "at {names}"
        );
    }
}
