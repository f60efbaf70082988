//! Where a task that waits may run.

ghost use Rattle.std.specs.Prelude.{◌≡◌, ◌||◌, ℕ, not, filter_map, IfOk};
ghost use Rattle.std.specs.BTreeSet as sorted;
ghost use Rattle.std.specs.List.Sorted.{IsStrictlySortedBy};
ghost use Rattle.std.specs.Option.{option_and_then};
ghost use Rattle.std.specs.Ordering.{nat_cmp};
ghost use Rattle.cluster_defs.specs.Words.{is_empty};
ghost use Rattle.task_table.specs.Waiting.{settled_in, ready, is_among};
ghost use Rattle.task_table.specs.Fitting.{takes, fits, is_tied, tied};

use crate::table::Table;
use crate::task::Task;
use crate::viability::{is_bound, is_excluded, is_target};
use cluster_defs::request::WholeRequest;
use cluster_types::message::Ids;
use cluster_types::text::Text;
use dependency_sets::dependencies::is_empty;
use dependency_sets::finished::Finished;
use dependency_sets::following::is_met_on;
use std::alloc::{AllocError, Global};
use std::collections::BTreeSet;

/// Whether a task may run on an engine, as far as the two go together.
pub fn takes(table: &Table, task: &Task, engine: u32) -> bool
    ensures { result ≡ takes table.now task.now engine }
{
    is_met_on(&task.request().follow, table, engine)
        && is_target(task.request(), engine)
        && !is_excluded(task.attempts(), engine)
}

/// Whether a task waits, and may run on an engine. It is told whether the task is ready, so that this is looked for once for
/// all engines.
pub fn is_fitting(table: &Table, task: &Task, engine: u32, told: bool) -> bool
    requires { told ≡ ready table.now task.now }
    ensures { result ≡ fits table.now task.now engine }
{
    told && takes(table, task, engine)
}

/// Whether the targets of a request or the engines of what it follows tell where it may run.
pub fn is_tied(request: &WholeRequest) -> bool
    ensures { result ≡ is_tied request.now.request }
{
    is_bound(request) || !is_empty(&request.follow.ids)
}

/// The engine where an id finished.
fn engine_of(table: &Table, id: &Text) -> Option<u32>
    ensures { result ≡ option_and_then (λ s. s.engine) (settled_in table.now id.now) }
{
    match table.settled(id) {
        Some(settled) => settled.engine,
        None => None,
    }
}

/// The engines where some ids finished, in their order.
fn finished_on(alloc: Global, table: &Table, ids: &Ids) -> Result<Vec<u32>, AllocError>
    ensures { IfOk result (λ v. v.items ≡ filter_map (λ i. option_and_then (λ s. s.engine) (settled_in table.now i)) ids.now) }
{
    ids.as_slice()
        .iter()
        .filter_map(|id| engine_of(table, id))
        .collect(alloc)
}

/// Some numbers as a set.
fn set_of(alloc: Global, numbers: &[u32]) -> Result<BTreeSet<u32>, AllocError>
    ensures { IfOk result (λ s. (n : ℕ) → sorted.contains nat_cmp s n ≡ is_among n numbers.now) }
{
    let mut set = BTreeSet::new(alloc);
    for number in numbers {
        set.insert(*number)?;
    }
    Ok(set)
}

/// Some numbers, each once, ascending.
fn each_once(alloc: Global, numbers: &[u32]) -> Result<Vec<u32>, AllocError>
    ensures members { IfOk result (λ v. (n : ℕ) → is_among n v.items ≡ is_among n numbers.now) }
    ensures sorted { IfOk result (λ v. IsStrictlySortedBy nat_cmp v.items) }
{
    let set = set_of(alloc, numbers)?;
    let _many = set.len();
    set.iter().copied().collect(alloc)
}

/// The targets of a request where it has any, and else the engines where what it follows finished, in the order of these.
fn listed(alloc: Global, table: &Table, request: &WholeRequest) -> Result<Vec<u32>, AllocError>
    ensures { IfOk result (λ v. v.items ≡ tied table.now request.now.request) }
{
    if is_bound(request) {
        request.targets.as_slice().iter().copied().collect(alloc)
    } else {
        finished_on(alloc, table, &request.follow.ids)
    }
}

/// The targets of a request where it has any, and else the engines where what it follows finished; each once, ascending.
pub fn tied(alloc: Global, table: &Table, request: &WholeRequest) -> Result<Vec<u32>, AllocError>
    ensures members { IfOk result (λ v. (n : ℕ) → is_among n v.items ≡ is_among n (tied table.now request.now.request)) }
    ensures sorted { IfOk result (λ v. IsStrictlySortedBy nat_cmp v.items) }
{
    let engines = listed(alloc, table, request)?;
    each_once(alloc, &engines)
}
