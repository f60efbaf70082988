//! Submits that are ready.

ghost use Rattle.std.specs.Prelude.{◌≡◌};
ghost use Rattle.task_table.specs.Waiting.{ready};

use crate::standing::rests;
use crate::table::Table;
use crate::task::Task;
use dependency_sets::dependencies::is_met;

/// Whether a task is a Submit that waits, with attempts left and what it waits for met.
pub fn is_ready(table: &Table, task: &Task) -> bool
    ensures { result ≡ ready table.now task.now }
{
    rests(task)
        && task.request().direct_to.is_none()
        && task.attempts().spent <= u64::from(task.request().retries)
        && is_met(&task.request().after, table)
}
