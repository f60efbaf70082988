//! The queues of the engines that are asked for, off the records in one pass.

ghost use Rattle.std.specs.Prelude.{◌≡◌, ◌+◌, ◌<◌, ◌^◌, ◌++◌, ◌∷◌, [], Bool, false, List, Some, is_some, not, ◌&&◌, length, map, take, IfOk, IfSome, OnOk};
ghost use Rattle.cluster_types.specs.declared.record.Record.{Record};
ghost use Rattle.cluster_defs.specs.RecordAnswers.{queue_in};
ghost use Rattle.hub_queries.specs.Ascending.{Ascends};
ghost use Rattle.hub_queries.specs.Lengths.{lengths_of};
ghost use Rattle.hub_queries.specs.Rows.{row_of};

use crate::engines::place_of;
use crate::lengths::{Lengths, QueueCounts};
use crate::tally::Tally;
use cluster_types::record::{Record, Records};
use std::alloc::{AllocError, Global};

/// The ids that an engine has.
#[derive(Debug, Drop)]
pub struct Row {
    pub number: u32,
    /// Those sent to it alone that it runs.
    pub queue: Tally,
    /// Those that finished there and aren't purged.
    pub completed: Tally,
    /// The other ones that it runs.
    pub tasks: Tally,
}

/// The row of an engine without tasks.
fn empty_row(alloc: Global, number: u32, verbose: bool) -> Row
    ensures { result ≡ row_of verbose [] number }
{
    Row {
        number,
        queue: Tally::new(alloc, verbose),
        completed: Tally::new(alloc, verbose),
        tasks: Tally::new(alloc, verbose),
    }
}

/// The rows of engines without tasks.
fn empty_rows(alloc: Global, numbers: &[u32], verbose: bool) -> Result<Vec<Row>, AllocError>
    ensures { IfOk result (λ v. v.items ≡ map (row_of verbose []) numbers.now) }
{
    let mut rows = Vec::new(alloc);
    for number in numbers {
        rows.push(empty_row(alloc, *number, verbose))?;
    }
    Ok(rows)
}

/// The row of an engine that has so many ids.
fn counted_row(alloc: Global, number: u32, lengths: Lengths) -> Row
    ensures { (records : List Record) → lengths ≡ lengths_of (queue_in records number) → result ≡ row_of false records number }
{
    Row {
        number,
        queue: Tally::counted(alloc, lengths.queue),
        completed: Tally::counted(alloc, lengths.completed),
        tasks: Tally::counted(alloc, lengths.tasks),
    }
}

/// The rows of these engines without ids, off the numbers that are kept, where all are.
fn counted_rows<R: QueueCounts>(
    alloc: Global,
    table: &R,
    numbers: &[u32],
) -> Result<Option<Vec<Row>>, AllocError>
    ensures { IfOk result (λ o. IfSome o (λ v. v.items ≡ map (row_of false (R.records table.now)) numbers.now)) }
{
    let mut rows = Vec::new(alloc);
    for number in numbers {
        let Some(lengths) = table.queue(*number) else {
            return Ok(None);
        };
        rows.push(counted_row(alloc, *number, lengths))?;
    }
    Ok(Some(rows))
}

/// Whether it was sent to its engine alone, and runs.
fn runs_directly(task: &Record) -> bool
    ensures { result ≡ (task.now.running && task.now.direct) }
{
    task.running && task.direct
}

/// Whether it is finished and not purged.
fn is_finished(task: &Record) -> bool
    ensures { result ≡ (is_some task.now.settled && not task.now.purged) }
{
    task.settled.is_some() && !task.purged
}

/// Whether it runs, and could have run on another engine.
fn runs_as_task(task: &Record) -> bool
    ensures { result ≡ (task.now.running && not task.now.direct) }
{
    task.running && !task.direct
}

/// Adds a task to the row of the engine that it is or was on.
fn add_task(row: &mut Row, alloc: Global, task: &Record) -> Result<(), AllocError>
    requires { task.now.engine ≡ Some row.old.number }
    ensures { (verbose : Bool) (records : List Record) → length records + 1 < 2 ^ 64 → row.old ≡ row_of verbose records row.old.number → OnOk result (row.new ≡ row_of verbose (records ++ task.now ∷ []) row.old.number) }
{
    row.queue.add_if(alloc, runs_directly(task), &task.id)?;
    row.completed.add_if(alloc, is_finished(task), &task.id)?;
    row.tasks.add_if(alloc, runs_as_task(task), &task.id)?;
    Ok(())
}

/// Adds the task at a place of the table to the row of its engine, where that is asked for.
fn add_place<R: Records>(
    rows: &mut [Row],
    alloc: Global,
    table: &R,
    place: usize,
    numbers: &[u32],
    verbose: bool,
) -> Result<(), AllocError>
    requires ascends { Ascends numbers.now }
    requires rows { rows.old ≡ map (row_of verbose (take place (R.records table.now))) numbers.now }
    requires inside { place < length (R.records table.now) }
    requires fits { length (R.records table.now) < 2 ^ 64 }
    ensures { OnOk result (rows.new ≡ map (row_of verbose (take (place + 1) (R.records table.now))) numbers.now) }
{
    let Some(task) = table.at(place) else {
        return Ok(());
    };
    let Some(number) = task.engine else {
        return Ok(());
    };
    let Some(at) = place_of(numbers, number) else {
        return Ok(());
    };
    add_task(&mut rows[at], alloc, task)?;
    Ok(())
}

/// The rows of these engines, off all records.
fn rows_of<R: Records>(
    alloc: Global,
    table: &R,
    numbers: &[u32],
    verbose: bool,
) -> Result<Vec<Row>, AllocError>
    requires { Ascends numbers.now }
    ensures { IfOk result (λ v. v.items ≡ map (row_of verbose (R.records table.now)) numbers.now) }
{
    let mut rows = empty_rows(alloc, numbers, verbose)?;
    for place in 0..table.count() {
        add_place(rows.as_mut_slice(), alloc, table, place, numbers, verbose)?;
    }
    Ok(rows)
}

/// The rows of these engines. Without `verbose` no record is looked at where the numbers are kept.
pub fn shown_rows<R: QueueCounts>(
    alloc: Global,
    table: &R,
    numbers: &[u32],
    verbose: bool,
) -> Result<Vec<Row>, AllocError>
    requires { Ascends numbers.now }
    ensures { IfOk result (λ v. v.items ≡ map (row_of verbose (R.records table.now)) numbers.now) }
{
    if verbose {
        return rows_of(alloc, table, numbers, true);
    }
    match counted_rows(alloc, table, numbers)? {
        Some(rows) => Ok(rows),
        None => rows_of(alloc, table, numbers, false),
    }
}
