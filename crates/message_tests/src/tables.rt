//! A table of three records, and ids: `a` is settled, `b` runs and `c` is purged. `z` was never known.

use cluster_types::message::{Buffers, Ids};
use cluster_types::record::Record;
use cluster_types::sequence::Sequence;
use cluster_types::shared_message::SharedMessage;
use cluster_types::text::Text;
use cluster_types::verdict::{Cause, Verdict};
use resubmission::list::RecordList;
use std::alloc::Global;
use std::process::Abort;

pub(crate) fn text<R: Abort>(rt: &R, alloc: Global, name: &str) -> Text {
    Text::new(alloc, name).expect(rt, "memory is ample")
}

pub(crate) fn ids<R: Abort>(rt: &R, alloc: Global, names: &[&str]) -> Ids {
    let mut list = Sequence::new(alloc);
    for name in names {
        let id = text(rt, alloc, name);
        list.push(id).expect(rt, "memory is ample");
    }
    list
}

/// An outcome that is `ok`, with these buffers.
pub(crate) fn outcome<R: Abort>(rt: &R, alloc: Global, buffers: Buffers) -> SharedMessage {
    SharedMessage::new(
        alloc,
        b"",
        b"{}",
        b"{}",
        b"{}",
        b"{\"status\":\"ok\"}",
        buffers,
    )
    .expect(rt, "memory is ample")
}

pub(crate) fn settled<R: Abort>(
    rt: &R,
    alloc: Global,
    name: &str,
    number: u64,
    purged: bool,
) -> Record {
    let left = if purged {
        None
    } else {
        Some(outcome(rt, alloc, Sequence::new(alloc)))
    };
    Record {
        id: text(rt, alloc, name),
        number,
        direct: false,
        engine: Some(0),
        running: false,
        settled: Some((Verdict::Completed, Cause::Reply)),
        purged,
        outcome: left,
    }
}

pub(crate) fn running<R: Abort>(rt: &R, alloc: Global, name: &str, number: u64) -> Record {
    Record {
        id: text(rt, alloc, name),
        number,
        direct: false,
        engine: Some(0),
        running: true,
        settled: None,
        purged: false,
        outcome: None,
    }
}

/// Adds a record, and tells whether it is the next one.
pub(crate) fn adds<R: Abort>(rt: &R, list: &mut RecordList, record: Record) -> bool {
    list.push(record).expect(rt, "memory is ample")
}

pub(crate) fn table<R: Abort>(rt: &R, alloc: Global) -> RecordList {
    let mut list = RecordList::new(alloc);
    let _ = adds(rt, &mut list, settled(rt, alloc, "a", 1, false));
    let _ = adds(rt, &mut list, running(rt, alloc, "b", 2));
    let _ = adds(rt, &mut list, settled(rt, alloc, "c", 3, true));
    list
}

/// Whether the ids are these, each followed by a blank.
pub(crate) fn are(ids: &Ids, names: &str) -> bool {
    let mut rest = names.as_bytes();
    for id in ids.as_slice() {
        let Some(tail) = rest.strip_prefix(id.as_slice()) else {
            return false;
        };
        let Some(tail) = tail.strip_prefix(b" ") else {
            return false;
        };
        rest = tail;
    }
    rest.is_empty()
}
