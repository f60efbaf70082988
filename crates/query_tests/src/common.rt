//! A table of tasks, and what a query over it is answered.

use cluster_types::octets::Octets;
use cluster_types::record::Record;
use cluster_types::sequence::Sequence;
use cluster_types::shared_message::SharedMessage;
use cluster_types::text::Text;
use cluster_types::verdict::{Cause, Verdict};
use db_query::answer::answer;
use resubmission::list::RecordList;
use std::alloc::Global;
use std::process::Abort;

/// A task that waits.
pub(crate) fn waiting<R: Abort>(rt: &R, alloc: Global, name: &str, number: u64) -> Record {
    Record {
        id: Text::new(alloc, name).expect(rt, "memory is ample"),
        number,
        direct: false,
        engine: None,
        running: false,
        settled: None,
        purged: false,
        outcome: None,
    }
}

/// A task that runs on an engine that it was sent to.
fn running<R: Abort>(rt: &R, alloc: Global, name: &str, number: u64, engine: u32) -> Record {
    let mut task = waiting(rt, alloc, name, number);
    task.direct = true;
    task.engine = Some(engine);
    task.running = true;
    task
}

/// A task that ended on an engine.
pub(crate) fn settled<R: Abort>(
    rt: &R,
    alloc: Global,
    name: &str,
    number: u64,
    engine: u32,
    ended: (Verdict, Cause),
) -> Record {
    let mut task = waiting(rt, alloc, name, number);
    let buffers = Sequence::new(alloc);
    let outcome = SharedMessage::new(alloc, b"", b"{}", b"{}", b"{}", b"{}", buffers);
    task.engine = Some(engine);
    task.settled = Some(ended);
    task.outcome = Some(outcome.expect(rt, "memory is ample"));
    task
}

/// A task that is purged.
fn purged<R: Abort>(rt: &R, alloc: Global, name: &str, number: u64) -> Record {
    let ended = (Verdict::Completed, Cause::Reply);
    let mut task = settled(rt, alloc, name, number, 0, ended);
    task.outcome = None;
    task.purged = true;
    task
}

/// Adds a record.
pub(crate) fn add<R: Abort>(rt: &R, table: &mut RecordList, record: Record) {
    let _ = table.push(record).expect(rt, "memory is ample");
}

/// `a` completed on engine 0, `b` failed on engine 1, and `c` waits.
pub(crate) fn three_tasks<R: Abort>(rt: &R, alloc: Global) -> RecordList {
    let completed = (Verdict::Completed, Cause::Reply);
    let failed = (Verdict::Failed, Cause::EngineError);
    let mut table = RecordList::new(alloc);
    add(rt, &mut table, settled(rt, alloc, "a", 1, 0, completed));
    add(rt, &mut table, settled(rt, alloc, "b", 2, 1, failed));
    add(rt, &mut table, waiting(rt, alloc, "c", 3));
    table
}

/// The same, then `0`, which was purged, and `B`, which runs on engine 10.
pub(crate) fn five_tasks<R: Abort>(rt: &R, alloc: Global) -> RecordList {
    let mut table = three_tasks(rt, alloc);
    add(rt, &mut table, purged(rt, alloc, "0", 4));
    add(rt, &mut table, running(rt, alloc, "B", 5, 10));
    table
}

/// Whether a query over a table is answered with this text.
pub(crate) fn is_told<R: Abort>(
    rt: &R,
    alloc: Global,
    table: &RecordList,
    query: &[u8],
    text: &str,
) -> bool {
    let content = Octets::new(alloc, query).expect(rt, "memory is ample");
    match answer(alloc, table, &content) {
        Ok(told) => told.content.as_slice() == text.as_bytes(),
        Err(_) => false,
    }
}
