//! The lanes of the places of tasks: by the engines where they may run, an engine by which they have hope, and the moment
//! of their timeout.

ghost use Rattle.std.specs.Prelude.{◌≡◌, ◌+◌, ◌*◌, ◌-◌, ◌^◌, min, [], ◌∷◌, true, false, Some, OnOk, IfOk, IfSome};
ghost use Rattle.cluster_defs.specs.Requests.{Request as RequestFacts};
ghost use Rattle.place_sets.specs.Lanes.{in_lane};
ghost use Rattle.task_table.specs.Live.{lone};
ghost use Rattle.task_table.specs.Waiting.{ready};
ghost use Rattle.task_table.specs.Fitting.{fits, cut_off, hopeless, late, is_tied};
ghost use Rattle.task_table.specs.Marking.{StaysWhereFit, OthersStay, IsLaned, IsLanedOn, IsWatched, IsTimed, LanedAt, WatchedAt, TimedAt};

use crate::fitting::{is_fitting, is_tied, tied};
use crate::live::Live;
use crate::readiness::is_ready;
use crate::standing::rests;
use crate::table::Table;
use crate::task::Task;
use crate::viability::{is_cut_off, is_hopeless};
use cluster_defs::request::WholeRequest;
use place_sets::flags::has;
use place_sets::lanes::Lanes;
use std::alloc::AllocError;

/// Puts the place of a task into the lane of an engine where it fits, and takes it out of one where it doesn't. It is told
/// whether the task is ready.
fn lane_on(
    table: &Table,
    lanes: &mut Lanes,
    task: &Task,
    place: usize,
    engine: u32,
    told: bool,
) -> Result<(), AllocError>
    requires { told ≡ ready table.now task.now }
    ensures there { OnOk result (fits table.now task.now engine ≡ true → in_lane lanes.new engine place ≡ true) }
    ensures stays { StaysWhereFit table.now task.now place lanes.old lanes.new }
{
    if is_fitting(table, task, engine, told) {
        lanes.add(u64::from(engine), place)
    } else {
        lanes.leave_out(u64::from(engine), place);
        Ok(())
    }
}

/// Does so with some engines.
fn lane_on_each(
    table: &Table,
    lanes: &mut Lanes,
    task: &Task,
    place: usize,
    engines: &[u32],
    told: bool,
) -> Result<(), AllocError>
    requires { told ≡ ready table.now task.now }
    ensures there { OnOk result (IsLanedOn engines.now table.now task.now place lanes.new) }
    ensures stays { StaysWhereFit table.now task.now place lanes.old lanes.new }
{
    for engine in engines {
        lane_on(table, lanes, task, place, *engine, told)?;
    }
    Ok(())
}

/// Puts the place of a task with targets, or one that follows, into the lane of each engine where it fits.
fn lane_tied(table: &Table, lanes: &mut Lanes, task: &Task, place: usize) -> Result<(), AllocError>
    ensures there { (r : RequestFacts) → task.now.request ≡ Some r → is_tied r ≡ true → OnOk result (IsLaned table.now task.now place lanes.new) }
    ensures stays { StaysWhereFit table.now task.now place lanes.old lanes.new }
{
    let engines = tied(table.allocator(), table, task.request())?;
    let told = is_ready(table, task);
    lane_on_each(table, lanes, task, place, &engines, told)
}

/// Whether a task may run nowhere, or its place is in the lane of each engine where it may, once it is put there.
fn is_task_laned(table: &Table, lanes: &mut Lanes, task: &Task, place: usize) -> bool
    ensures there { result ≡ true → IsLaned table.now task.now place lanes.new }
    ensures stays { StaysWhereFit table.now task.now place lanes.old lanes.new }
{
    if is_tied(task.request()) {
        match lane_tied(table, lanes, task, place) {
            Ok(()) => true,
            Err(_) => false,
        }
    } else {
        !is_ready(table, task)
    }
}

/// The same of the task at a place.
pub fn is_laned(table: &Table, lanes: &mut Lanes, place: usize) -> bool
    ensures { LanedAt table.now place lanes.old lanes.new result }
{
    match table.as_slice().get(place) {
        Some(task) => is_task_laned(table, lanes, task, place),
        None => true,
    }
}

/// Takes a place out of the lanes of some engines.
fn leave_each(lanes: &mut Lanes, engines: &[u32], place: usize)
    ensures { OthersStay place lanes.old lanes.new }
{
    for engine in engines {
        lanes.leave_out(u64::from(*engine), place);
    }
}

/// The first of some engines that alone gives a task hope, of those that aren't known to have ended. It is told whether what
/// the task waits for can't be met any more.
fn guard(table: &Table, ended: &[bool], task: &Task, engines: &[u32], told: bool) -> Option<u32>
    requires { told ≡ cut_off table.now task.now.request }
    ensures { IfSome result (λ n. hopeless table.now (lone n ∷ []) task.now ≡ false) }
{
    engines.iter().copied().find(|n| !has(ended, *n)
        && !is_hopeless(table, Live::Only(*n), task, told))
}

/// Puts the place of a task into the lane of one engine that gives it hope, where it has none without engines, and tells
/// whether it has hope so.
fn watch(
    table: &Table,
    watches: &mut Lanes,
    ended: &[bool],
    task: &Task,
    place: usize,
) -> Result<bool, AllocError>
    ensures there { IfOk result (λ b. b ≡ true → IsWatched table.now task.now place watches.new) }
    ensures others { OthersStay place watches.old watches.new }
{
    let engines = tied(table.allocator(), table, task.request())?;
    leave_each(watches, &engines, place);
    if !rests(task) {
        return Ok(true);
    }
    let told = is_cut_off(table, task);
    if !is_hopeless(table, Live::Nobody, task, told) {
        return Ok(true);
    }
    match guard(table, ended, task, &engines, told) {
        Some(engine) => {
            watches.add(u64::from(engine), place)?;
            Ok(true)
        }
        None => Ok(false),
    }
}

/// Whether a task has hope as long as one engine is live, in whose lane its place is then.
fn is_task_watched(
    table: &Table,
    watches: &mut Lanes,
    ended: &[bool],
    task: &Task,
    place: usize,
) -> bool
    ensures there { result ≡ true → IsWatched table.now task.now place watches.new }
    ensures others { OthersStay place watches.old watches.new }
{
    match watch(table, watches, ended, task, place) {
        Ok(watched) => watched,
        Err(_) => false,
    }
}

/// The same of the task at a place.
pub fn is_watched(table: &Table, watches: &mut Lanes, ended: &[bool], place: usize) -> bool
    ensures { WatchedAt table.now place watches.old watches.new result }
{
    match table.as_slice().get(place) {
        Some(task) => is_task_watched(table, watches, ended, task, place),
        None => true,
    }
}

/// The moment from which on a request is past its timeout, in milliseconds; the last of 64 bits where that is later.
fn deadline(request: &WholeRequest) -> u64
    ensures { result ≡ min (request.now.request.accepted_at + 1000 * request.now.request.timeout) (2 ^ 64 - 1) }
{
    request
        .accepted_at
        .saturating_add(request.timeout.saturating_mul(1000))
}

/// Whether the place of a task is in the lane of the moment of its timeout, where it has one, once it is put there.
fn is_task_timed(deadlines: &mut Lanes, task: &Task, place: usize) -> bool
    ensures there { result ≡ true → IsTimed task.now place deadlines.new }
    ensures others { OthersStay place deadlines.old deadlines.new }
{
    let request = task.request();
    if request.timeout == 0 {
        true
    } else if rests(task) {
        deadlines.add(deadline(request), place).is_ok()
    } else {
        deadlines.leave_out(deadline(request), place);
        true
    }
}

/// The same of the task at a place.
pub fn is_timed(table: &Table, deadlines: &mut Lanes, place: usize) -> bool
    ensures { TimedAt table.now place deadlines.old deadlines.new result }
{
    match table.as_slice().get(place) {
        Some(task) => is_task_timed(deadlines, task, place),
        None => true,
    }
}
