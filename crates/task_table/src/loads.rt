//! How many Submits run on each engine.

ghost use Rattle.std.specs.Prelude.{◌≡◌, IfOk};
ghost use Rattle.task_table.specs.Loading.{loaded, loaded_at, running_on, Tallied};

use crate::table::Table;
use crate::task::Task;
use cluster_defs::attempt::Attempt;
use place_sets::counts::moved;
use std::alloc::{AllocError, Global};

/// The engine of a current attempt.
fn running_on(attempt: Attempt) -> Option<u32>
    ensures { result ≡ running_on attempt }
{
    match attempt {
        Attempt::Running { engine } => Some(engine),
        _ => None,
    }
}

/// The engine that a Submit runs on, where it isn't settled.
pub fn loaded(task: &Task) -> Option<u32>
    ensures { result ≡ loaded task.now }
{
    if task.settled().is_none() && task.request().direct_to.is_none() {
        running_on(task.attempts().last)
    } else {
        None
    }
}

/// The same of the task at a place.
pub fn loaded_at(table: &Table, place: usize) -> Option<u32>
    ensures { result ≡ loaded_at table.now place }
{
    match table.as_slice().get(place) {
        Some(task) => loaded(task),
        None => None,
    }
}

/// Counts the tasks at some places on the engines where they run. There is no answer only where a load is past the end of
/// its 32 bits.
pub fn tallied(
    alloc: Global,
    table: &Table,
    places: &[usize],
) -> Result<Option<Vec<u32>>, AllocError>
    ensures { IfOk result (λ o. Tallied table.now places.now o) }
{
    let mut counts = Some(Vec::new(alloc));
    for place in places {
        counts = moved(counts, None, loaded_at(table, *place))?;
    }
    Ok(counts)
}
