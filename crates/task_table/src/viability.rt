//! Tasks that can't run for good, or waited past their timeout.

ghost use Rattle.std.specs.Prelude.{◌≡◌, ◌==◌, ◌&&◌, not, [], Some, option_map};
ghost use Rattle.std.specs.List.{list_any, list_all};
ghost use Rattle.cluster_defs.specs.Dependencies.{unreachable};
ghost use Rattle.cluster_defs.specs.Engines.{lists_number};
ghost use Rattle.cluster_defs.specs.Requests.{is_bound, is_target, deadline};
ghost use Rattle.cluster_defs.specs.Scheduling.{excludes, usable, usable_on, no_target, spoils, follow_spoilt, follow_dead, is_dead, is_past};
ghost use Rattle.task_table.specs.Live.{live_of};
ghost use Rattle.task_table.specs.Waiting.{settled_in};
ghost use Rattle.task_table.specs.Fitting.{among, cut_off, hopeless_as, hopeless};

use crate::attempts::Attempts;
use crate::live::{Live, is_live};
use crate::standing::rests;
use crate::table::Table;
use crate::task::Task;
use cluster_defs::request::WholeRequest;
use cluster_defs::settled::Settled;
use cluster_types::text::Text;
use dependency_sets::dependencies::{is_asked, is_empty, is_unreachable};
use dependency_sets::finished::Finished;
use dependency_sets::following::is_scattered;

/// Whether an engine declined the task of these attempts.
pub fn is_excluded(attempts: &Attempts, engine: u32) -> bool
    ensures { result ≡ excludes (among [] [] 0 attempts.now) [] engine }
{
    attempts.excluded.iter().any(|n| *n == engine)
}

/// Whether a request lists targets.
pub fn is_bound(request: &WholeRequest) -> bool
    ensures { result ≡ is_bound request.now.request }
{
    !is_empty(&request.listed)
}

/// Whether an engine is a listed target.
fn is_listed_target(request: &WholeRequest, engine: u32) -> bool
    ensures { result ≡ list_any (λ m. m == engine) request.now.request.targets }
{
    request.targets.as_slice().iter().any(|n| *n == engine)
}

/// Whether a request may run on an engine by its targets.
pub fn is_target(request: &WholeRequest, engine: u32) -> bool
    ensures { result ≡ is_target engine request.now.request }
{
    !is_bound(request) || is_listed_target(request, engine)
}

/// Whether a task may run on an engine for all that doesn't change.
fn is_usable(live: Live, attempts: &Attempts, request: &WholeRequest, engine: u32) -> bool
    ensures { result ≡ usable (among [] (live_of live.entry) 0 attempts.now) [] request.now.request engine }
{
    is_live(live, engine) && !is_excluded(attempts, engine) && is_target(request, engine)
}

/// Whether there is an engine, and a task may run on it.
fn is_usable_on(
    live: Live,
    attempts: &Attempts,
    request: &WholeRequest,
    engine: Option<u32>,
) -> bool
    ensures { result ≡ usable_on (among [] (live_of live.entry) 0 attempts.now) [] request.now.request engine }
{
    match engine {
        Some(engine) => is_usable(live, attempts, request, engine),
        None => false,
    }
}

/// Whether a target ended, or declined the task.
fn is_lost(live: Live, attempts: &Attempts, engine: u32) -> bool
    ensures { result ≡ not (lists_number engine (live_of live.entry) && not (excludes (among [] [] 0 attempts.now) [] engine)) }
{
    !(is_live(live, engine) && !is_excluded(attempts, engine))
}

/// Whether each target ended, or declined the task.
fn all_lost(live: Live, attempts: &Attempts, targets: &[u32]) -> bool
    ensures { result ≡ list_all (λ n. not (lists_number n (live_of live.entry) && not (excludes (among [] [] 0 attempts.now) [] n))) targets.now }
{
    targets.iter().all(|n| is_lost(live, attempts, *n))
}

/// Whether targets are listed, and none is left.
fn has_no_target(live: Live, attempts: &Attempts, request: &WholeRequest) -> bool
    ensures { result ≡ no_target (among [] (live_of live.entry) 0 attempts.now) [] request.now.request }
{
    is_bound(request) && all_lost(live, attempts, request.targets.as_slice())
}

/// Whether an id that is followed finished so that the task can't run for it.
fn spoils(live: Live, attempts: &Attempts, request: &WholeRequest, settled: Option<Settled>) -> bool
    ensures { result ≡ spoils (among [] (live_of live.entry) 0 attempts.now) [] request.now.request settled }
{
    match settled {
        Some(finished) => {
            !(is_asked(&request.follow, settled)
                && is_usable_on(live, attempts, request, finished.engine))
        }
        None => false,
    }
}

/// Whether an id finished so that the task can't run for it.
fn spoils_for(
    table: &Table,
    live: Live,
    attempts: &Attempts,
    request: &WholeRequest,
    id: &Text,
) -> bool
    ensures { result ≡ spoils (among [] (live_of live.entry) 0 attempts.now) [] request.now.request (settled_in table.now id.now) }
{
    spoils(live, attempts, request, table.settled(id))
}

/// Whether an id that is followed did so.
fn any_spoils(table: &Table, live: Live, attempts: &Attempts, request: &WholeRequest) -> bool
    ensures { result ≡ list_any (λ i. spoils (among [] (live_of live.entry) 0 attempts.now) [] request.now.request (settled_in table.now i)) request.now.request.follow.ids }
{
    request
        .follow
        .ids
        .as_slice()
        .iter()
        .any(|id| spoils_for(table, live, attempts, request, id))
}

/// Whether each id that is followed did so.
fn all_spoil(table: &Table, live: Live, attempts: &Attempts, request: &WholeRequest) -> bool
    ensures { result ≡ list_all (λ i. spoils (among [] (live_of live.entry) 0 attempts.now) [] request.now.request (settled_in table.now i)) request.now.request.follow.ids }
{
    request
        .follow
        .ids
        .as_slice()
        .iter()
        .all(|id| spoils_for(table, live, attempts, request, id))
}

/// Whether the followed ids finished so that the task can't run.
fn is_follow_spoilt(table: &Table, live: Live, attempts: &Attempts, request: &WholeRequest) -> bool
    ensures { result ≡ follow_spoilt (among table.now (live_of live.entry) 0 attempts.now) [] request.now.request request.now.request.follow.all }
{
    if request.follow.all {
        any_spoils(table, live, attempts, request) || is_scattered(table, &request.follow.ids)
    } else {
        all_spoil(table, live, attempts, request)
    }
}

/// Whether ids are followed, and the task can't run for them.
fn is_follow_dead(table: &Table, live: Live, attempts: &Attempts, request: &WholeRequest) -> bool
    ensures { result ≡ follow_dead (among table.now (live_of live.entry) 0 attempts.now) [] request.now.request }
{
    !is_empty(&request.follow.ids) && is_follow_spoilt(table, live, attempts, request)
}

/// Whether a Submit can't run for good, told whether what it waits for can't be met any more.
fn is_dead_if(
    table: &Table,
    live: Live,
    attempts: &Attempts,
    request: &WholeRequest,
    told: bool,
) -> bool
    requires { told ≡ unreachable request.now.request.after (settled_in table.now) }
    ensures { result ≡ is_dead (among table.now (live_of live.entry) 0 attempts.now) [] request.now.request }
{
    told || has_no_target(live, attempts, request) || is_follow_dead(table, live, attempts, request)
}

/// Whether a Submit can't run for good.
pub fn is_dead(table: &Table, live: Live, attempts: &Attempts, request: &WholeRequest) -> bool
    ensures { result ≡ is_dead (among table.now (live_of live.entry) 0 attempts.now) [] request.now.request }
{
    let told = is_unreachable(&request.after, table);
    is_dead_if(table, live, attempts, request, told)
}

/// Whether a request waited past its timeout, at a moment in milliseconds.
pub fn is_timed_out(request: &WholeRequest, now: u64) -> bool
    ensures { result ≡ is_past now (deadline request.now.request) }
{
    if request.timeout == 0 {
        false
    } else {
        u128::from(request.accepted_at) + 1000 * u128::from(request.timeout) <= u128::from(now)
    }
}

/// Whether a task with this request can't run for good, told whether what it waits for can't be met any more. A direct
/// request isn't asked.
fn is_hopeless_request(
    table: &Table,
    live: Live,
    attempts: &Attempts,
    request: &WholeRequest,
    told: bool,
) -> bool
    requires { told ≡ unreachable request.now.request.after (settled_in table.now) }
    ensures { result ≡ hopeless_as table.now (live_of live.entry) attempts.now (Some request.now.request) }
{
    request.direct_to.is_none()
        && (request.invalid || is_dead_if(table, live, attempts, request, told))
}

/// Whether what a task waits for can't be met any more.
pub fn is_cut_off(table: &Table, task: &Task) -> bool
    ensures { result ≡ cut_off table.now task.now.request }
{
    is_unreachable(&task.request().after, table)
}

/// Whether a task is a Submit that waits and can't run for good. It is told whether what the task waits for can't be met any
/// more, so that this is looked for once for all engines.
pub fn is_hopeless(table: &Table, live: Live, task: &Task, told: bool) -> bool
    requires { told ≡ cut_off table.now task.now.request }
    ensures { result ≡ hopeless table.now (live_of live.entry) task.now }
{
    rests(task) && is_hopeless_request(table, live, task.attempts(), task.request(), told)
}
