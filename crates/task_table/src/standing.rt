//! How tasks stand: what of them is due without a look at others.

ghost use Rattle.std.specs.Prelude.{◌≡◌};
ghost use Rattle.cluster_defs.specs.Scheduling.{verdict_at, verdict, ready_for, rests};
ghost use Rattle.place_sets.specs.Sets.{holds_at};
ghost use Rattle.task_table.specs.Standing.{alone, final_at, direct_at, runs_open};

use crate::attempts::{is_never, runs};
use crate::task::Task;
use cluster_defs::attempt::Attempt;
use cluster_types::verdict::{Cause, Verdict};

/// The verdict and cause that the last attempt leads to, where no retry is left or one is. What was taken back is aborted in
/// either case.
fn verdict_at(over: bool, attempt: Attempt) -> Option<(Verdict, Cause)>
    ensures { result ≡ verdict_at over attempt }
{
    match attempt {
        Attempt::EndedOk { engine: _ } => Some((Verdict::Completed, Cause::Reply)),
        Attempt::EndedBadly { engine: _ } if over => Some((Verdict::Failed, Cause::Reply)),
        Attempt::Lost { engine: _ } if over => Some((Verdict::Failed, Cause::EngineError)),
        Attempt::Withdrawn { engine: _ } => Some((Verdict::Aborted, Cause::Abort)),
        _ => None,
    }
}

/// The verdict and cause of a task whose attempts are over.
pub fn verdict(task: &Task) -> Option<(Verdict, Cause)>
    ensures { result ≡ verdict (alone task.now) task.now.row.id }
{
    let over = u64::from(task.request().retries) < task.attempts().spent;
    verdict_at(over, task.attempts().last)
}

fn is_final(task: &Task) -> bool
    ensures { result ≡ final_at task.now }
{
    verdict(task).is_some() && task.settled().is_none()
}

/// Whether the task at a place isn't settled, and its attempts are over.
pub fn is_final_at(tasks: &[Task], place: usize) -> bool
    ensures { result ≡ holds_at final_at tasks.now place }
{
    match tasks.get(place) {
        Some(task) => is_final(task),
        None => false,
    }
}

/// The engine of an unsettled direct request without an attempt.
pub fn ready_for(task: &Task) -> Option<u32>
    ensures { result ≡ ready_for (alone task.now) task.now.row.id }
{
    if task.settled().is_none() && is_never(task.attempts().last) {
        task.request().direct_to
    } else {
        None
    }
}

/// Whether the task at a place is a direct request that isn't settled and was not handed out.
pub fn is_direct_at(tasks: &[Task], place: usize) -> bool
    ensures { result ≡ holds_at direct_at tasks.now place }
{
    match tasks.get(place) {
        Some(task) => ready_for(task).is_some(),
        None => false,
    }
}

/// Whether the task at a place isn't settled, and an attempt is current.
pub fn runs_open_at(tasks: &[Task], place: usize) -> bool
    ensures { result ≡ holds_at runs_open tasks.now place }
{
    match tasks.get(place) {
        Some(task) => task.settled().is_none() && runs(task.attempts().last),
        None => false,
    }
}

/// Whether a task is unsettled, without a current attempt.
pub fn rests(task: &Task) -> bool
    ensures { result ≡ rests (alone task.now) task.now.row.id }
{
    task.settled().is_none() && !runs(task.attempts().last)
}
