//! Why tasks fail without an attempt.

ghost use Rattle.std.specs.Prelude.{◌≡◌, [], Some};
ghost use Rattle.cluster_defs.specs.Scheduling.{failing, failing_as};
ghost use Rattle.due_decisions.specs.Table.{among, failing_in};

use cluster_defs::request::WholeRequest;
use cluster_types::verdict::Cause;
use engine_registry::registry::Registry;
use task_table::attempts::Attempts;
use task_table::live::Live;
use task_table::standing::rests;
use task_table::table::Table;
use task_table::task::Task;
use task_table::viability::{is_dead, is_timed_out};

/// Why a Submit fails without an attempt, by the order of the causes.
fn cause(
    table: &Table,
    engines: &Registry,
    now: u64,
    attempts: &Attempts,
    request: &WholeRequest,
) -> Option<Cause>
    ensures { result ≡ failing (among table.now engines.now now attempts.now) [] request.now.request }
{
    if request.invalid {
        Some(Cause::InvalidDependency)
    } else if is_dead(table, Live::Among(engines), attempts, request) {
        Some(Cause::ImpossibleDependency)
    } else if is_timed_out(request, now) {
        Some(Cause::TaskTimeout)
    } else {
        None
    }
}

/// Why a task with this request fails without an attempt. A direct request doesn't.
fn failing_request(
    table: &Table,
    engines: &Registry,
    now: u64,
    attempts: &Attempts,
    request: &WholeRequest,
) -> Option<Cause>
    ensures { result ≡ failing_as (among table.now engines.now now attempts.now) [] (Some request.now.request) }
{
    if request.direct_to.is_some() {
        None
    } else {
        cause(table, engines, now, attempts, request)
    }
}

/// Why a task fails without an attempt, if it does.
pub fn failing(table: &Table, engines: &Registry, now: u64, task: &Task) -> Option<Cause>
    ensures { result ≡ failing_in table.now engines.now now task.now }
{
    if rests(task) {
        failing_request(table, engines, now, task.attempts(), task.request())
    } else {
        None
    }
}
