//! Tasks whose attempts are over, and tasks that fail without one.

ghost use Rattle.std.specs.Prelude.{◌≡◌, not, nat_le, find, IfOk};
ghost use Rattle.std.specs.Option.{option_copied, is_some};
ghost use Rattle.place_sets.specs.Sets.{has, holds_at};
ghost use Rattle.place_sets.specs.Lanes.{in_some};
ghost use Rattle.place_sets.specs.Least.{IsLeast};
ghost use Rattle.cluster_defs.specs.Engines.{lists_number};
ghost use Rattle.due_decisions.specs.Table.{final_at, settle_of, settle_in, failing_in, fail_of, fail_in};

use crate::failing::failing;
use cluster_types::entry::Entry;
use cluster_types::verdict::Verdict;
use engine_registry::registry::Registry;
use place_sets::lanes::Lanes;
use place_sets::least::lesser;
use std::alloc::AllocError;
use std::collections::BTreeSet;
use task_table::standing::{is_final_at, verdict};
use task_table::table::Table;
use task_table::task::Task;
use task_table::tasks::Tasks;

/// The lowest of some places at which a task's attempts are over, and it isn't settled.
fn final_place(tasks: &[Task], places: &BTreeSet<usize>) -> Option<usize>
    ensures { result ≡ find (holds_at final_at tasks.now) places.now.keys }
{
    places.iter().copied().find(|p| is_final_at(tasks, *p))
}

/// The lowest task whose attempts are over, and which isn't settled.
fn final_task(tasks: &Tasks) -> Option<&Task>
    ensures { option_copied result ≡ find final_at tasks.now }
{
    let places = &tasks.marks().finals;
    let _many = places.len();
    tasks.at(final_place(tasks.as_slice(), places))
}

/// The settle of a task whose attempts are over.
fn settle_of(task: &Task) -> Result<Option<Entry>, AllocError>
    ensures { IfOk result (λ d. d ≡ settle_of task.now) }
{
    match verdict(task) {
        Some((verdict, cause)) => Ok(Some(Entry::Settle {
            id: task.id().clone()?,
            verdict,
            cause,
        })),
        None => Ok(None),
    }
}

/// The settle of the lowest task whose attempts are over.
pub fn settle_due(tasks: &Tasks) -> Result<Option<Entry>, AllocError>
    ensures { IfOk result (λ d. d ≡ settle_in tasks.now) }
{
    match final_task(tasks) {
        Some(task) => settle_of(task),
        None => Ok(None),
    }
}

/// Whether the task at a place fails without an attempt.
fn is_failing_at(table: &Table, engines: &Registry, now: u64, place: usize) -> bool
    ensures { result ≡ holds_at (λ t. is_some (failing_in table.now engines.now now t)) table.now place }
{
    match table.as_slice().get(place) {
        Some(task) => failing(table, engines, now, task).is_some(),
        None => false,
    }
}

/// The first of some places where one does.
fn first_failing(
    table: &Table,
    places: &BTreeSet<usize>,
    engines: &Registry,
    now: u64,
) -> Option<usize>
    ensures { result ≡ find (holds_at (λ t. is_some (failing_in table.now engines.now now t)) table.now) places.now.keys }
{
    places
        .iter()
        .copied()
        .find(|p| is_failing_at(table, engines, now, *p))
}

/// The least of some places where one does.
fn failing_place(
    table: &Table,
    places: &BTreeSet<usize>,
    engines: &Registry,
    now: u64,
) -> Option<usize>
    ensures { IsLeast (holds_at (λ t. is_some (failing_in table.now engines.now now t)) table.now) (has places.now) result }
{
    let _many = places.len();
    first_failing(table, places, engines, now)
}

/// Whether an engine isn't live.
fn is_gone(engines: &Registry, engine: u64) -> bool
    ensures { result ≡ not (lists_number engine engines.now) }
{
    !engines.is_live(engine)
}

/// The least of the places that are watched by engines which aren't live.
fn unwatched_place(table: &Table, watches: &Lanes, engines: &Registry, now: u64) -> Option<usize>
    ensures { IsLeast (holds_at (λ t. is_some (failing_in table.now engines.now now t)) table.now) (in_some (λ n. not (lists_number n engines.now)) watches.now) result }
{
    let mut least = None;
    for (engine, places) in watches.as_map().iter() {
        if is_gone(engines, *engine) {
            least = lesser(least, failing_place(table, places, engines, now));
        }
    }
    least
}

/// The least of the places whose moment came.
fn late_place(table: &Table, deadlines: &Lanes, engines: &Registry, now: u64) -> Option<usize>
    ensures { IsLeast (holds_at (λ t. is_some (failing_in table.now engines.now now t)) table.now) (in_some (λ n. nat_le n now) deadlines.now) result }
{
    let mut least = None;
    for (_moment, places) in deadlines.as_map().range(..=now) {
        least = lesser(least, failing_place(table, places, engines, now));
    }
    least
}

/// The lowest task that fails without an attempt: it may fail whatever engines are live, is watched by one that isn't, or
/// its moment came.
fn failing_task<'a>(tasks: &'a Tasks, engines: &Registry, now: u64) -> Option<&'a Task>
    ensures { option_copied result ≡ find (λ t. is_some (failing_in tasks.now engines.now now t)) tasks.now }
{
    let marks = tasks.marks();
    let table = tasks.table();
    let doubtful = failing_place(table, &marks.doubtful, engines, now);
    let unwatched = unwatched_place(table, &marks.watches, engines, now);
    let late = late_place(table, &marks.deadlines, engines, now);
    let early = lesser(doubtful, unwatched);
    tasks.at(lesser(early, late))
}

/// The settle of a task that fails without an attempt.
fn fail_of(
    table: &Table,
    engines: &Registry,
    now: u64,
    task: &Task,
) -> Result<Option<Entry>, AllocError>
    ensures { IfOk result (λ d. d ≡ fail_of table.now engines.now now task.now) }
{
    match failing(table, engines, now, task) {
        Some(cause) => Ok(Some(Entry::Settle {
            id: task.id().clone()?,
            verdict: Verdict::Failed,
            cause,
        })),
        None => Ok(None),
    }
}

/// The settle of the lowest Submit that fails without an attempt.
pub fn fail_due(tasks: &Tasks, engines: &Registry, now: u64) -> Result<Option<Entry>, AllocError>
    ensures { IfOk result (λ d. d ≡ fail_in tasks.now engines.now now) }
{
    match failing_task(tasks, engines, now) {
        Some(task) => fail_of(tasks.table(), engines, now, task),
        None => Ok(None),
    }
}
