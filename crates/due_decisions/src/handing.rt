//! Direct requests that wait for their engine, and Submits that may run.

ghost use Rattle.std.specs.Prelude.{◌≡◌, ◌==◌, ℕ, List, [], true, false, None, Some, filter, find, slice_get, option_map, map, IfOk};
ghost use Rattle.std.specs.List.{list_any};
ghost use Rattle.std.specs.Option.{option_copied};
ghost use Rattle.place_sets.specs.Sets.{has, holds_at};
ghost use Rattle.place_sets.specs.Lanes.{in_some};
ghost use Rattle.place_sets.specs.Least.{IsLeast};
ghost use Rattle.place_sets.specs.Flags.{is_set};
ghost use Rattle.cluster_defs.specs.Requests.{Request as RequestFacts};
ghost use Rattle.task_table.specs.Fitting.{is_tied};
ghost use Rattle.due_decisions.specs.declared.rooms.Room.{Room};
ghost use Rattle.due_decisions.specs.Table.{direct_at, direct_of, direct_in, ready, takes, fits, rooms_for, picked, hand_of, hand_in};

use crate::rooms::{Room, is_open, open_numbers};
use cluster_types::config::Scheme;
use cluster_types::entry::Entry;
use load_schemes::chooser::Chooser;
use place_sets::lanes::Lanes;
use place_sets::least::lesser;
use std::alloc::{AllocError, Global};
use std::collections::BTreeSet;
use task_table::fitting::{is_tied, takes};
use task_table::readiness::is_ready;
use task_table::standing::{is_direct_at, ready_for};
use task_table::table::Table;
use task_table::task::Task;
use task_table::tasks::Tasks;

/// The lowest of some places at which a direct request isn't settled and has no attempt.
fn direct_place(tasks: &[Task], places: &BTreeSet<usize>) -> Option<usize>
    ensures { result ≡ find (holds_at direct_at tasks.now) places.now.keys }
{
    places.iter().copied().find(|p| is_direct_at(tasks, *p))
}

/// The lowest direct request that isn't settled and has no attempt.
fn direct_task(tasks: &Tasks) -> Option<&Task>
    ensures { option_copied result ≡ find direct_at tasks.now }
{
    let places = &tasks.marks().directs;
    let _many = places.len();
    tasks.at(direct_place(tasks.as_slice(), places))
}

/// The hand-out of a direct request without an attempt.
fn direct_of(task: &Task) -> Result<Option<Entry>, AllocError>
    ensures { IfOk result (λ d. d ≡ direct_of task.now) }
{
    match ready_for(task) {
        Some(engine) => Ok(Some(Entry::Hand {
            id: task.id().clone()?,
            engine,
        })),
        None => Ok(None),
    }
}

/// The hand-out of the lowest direct request without an attempt.
pub fn direct_due(tasks: &Tasks) -> Result<Option<Entry>, AllocError>
    ensures { IfOk result (λ d. d ≡ direct_in tasks.now) }
{
    match direct_task(tasks) {
        Some(task) => direct_of(task),
        None => Ok(None),
    }
}

/// Whether a task may run on one of some engines, as far as the two go together.
fn any_takes(table: &Table, rooms: &[Room], task: &Task) -> bool
    ensures { result ≡ list_any (λ r. takes table.now task.now r.engine) rooms.now }
{
    rooms.iter().any(|r| takes(table, task, r.engine))
}

/// Whether a task waits, and may run on one of some engines.
fn may_run(table: &Table, rooms: &[Room], task: &Task) -> bool
    ensures { result ≡ list_any (λ r. fits table.now task.now r.engine) rooms.now }
{
    is_ready(table, task) && any_takes(table, rooms, task)
}

/// Whether the task at a place does.
fn may_run_at(table: &Table, rooms: &[Room], place: usize) -> bool
    ensures { result ≡ holds_at (λ t. list_any (λ r. fits table.now t r.engine) rooms.now) table.now place }
{
    match table.as_slice().get(place) {
        Some(task) => may_run(table, rooms, task),
        None => false,
    }
}

/// The first of some places where one does.
fn first_waiting(table: &Table, places: &BTreeSet<usize>, rooms: &[Room]) -> Option<usize>
    ensures { result ≡ find (holds_at (λ t. list_any (λ r. fits table.now t r.engine) rooms.now) table.now) places.now.keys }
{
    places
        .iter()
        .copied()
        .find(|p| may_run_at(table, rooms, *p))
}

/// The least of some places where one does.
fn waiting_place(table: &Table, places: &BTreeSet<usize>, rooms: &[Room]) -> Option<usize>
    ensures { IsLeast (holds_at (λ t. list_any (λ r. fits table.now t r.engine) rooms.now) table.now) (has places.now) result }
{
    let _many = places.len();
    first_waiting(table, places, rooms)
}

/// The least of the places in the lanes of some engines.
fn place_in_lanes(table: &Table, lanes: &Lanes, with_room: &[bool], rooms: &[Room]) -> Option<usize>
    ensures { IsLeast (holds_at (λ t. list_any (λ r. fits table.now t r.engine) rooms.now) table.now) (in_some (is_set with_room.now) lanes.now) result }
{
    let mut least = None;
    for (engine, places) in lanes.as_map().iter() {
        if is_open(with_room, *engine) {
            least = lesser(least, waiting_place(table, places, rooms));
        }
    }
    least
}

/// The least of the places in the lanes of the engines with room.
fn laned_place(
    alloc: Global,
    table: &Table,
    lanes: &Lanes,
    rooms: &[Room],
) -> Result<Option<usize>, AllocError>
    ensures { IfOk result (λ o. IsLeast (holds_at (λ t. list_any (λ r. fits table.now t r.engine) rooms.now) table.now) (in_some (λ n. list_any (λ r. r.engine == n) rooms.now) lanes.now) o) }
{
    if lanes.as_map().is_empty() {
        return Ok(None);
    }
    let with_room = open_numbers(alloc, rooms)?;
    Ok(place_in_lanes(table, lanes, &with_room, rooms))
}

/// Whether no task waits to be handed out.
pub fn none_waits(tasks: &Tasks) -> bool
    ensures { result ≡ true → (rooms : List Room) → find (λ t. list_any (λ r. fits tasks.now t r.engine) rooms) tasks.now ≡ None }
{
    let marks = tasks.marks();
    marks.free.is_empty() && marks.lanes.as_map().is_empty()
}

/// The lowest task that waits, and may run on one of some engines: it may run on any, or is in the lane of one of them.
fn waiting_task<'a>(
    alloc: Global,
    tasks: &'a Tasks,
    rooms: &[Room],
) -> Result<Option<&'a Task>, AllocError>
    ensures { IfOk result (λ o. option_copied o ≡ find (λ t. list_any (λ r. fits tasks.now t r.engine) rooms.now) tasks.now) }
{
    if rooms.is_empty() {
        return Ok(None);
    }
    let marks = tasks.marks();
    let table = tasks.table();
    let free = waiting_place(table, &marks.free, rooms);
    let laned = laned_place(alloc, table, &marks.lanes, rooms)?;
    Ok(tasks.at(lesser(free, laned)))
}

/// The rooms that take a task, as far as the two go together.
fn rooms_taking(
    alloc: Global,
    table: &Table,
    rooms: &[Room],
    task: &Task,
) -> Result<Vec<Room>, AllocError>
    ensures { IfOk result (λ v. v.items ≡ filter (λ r. takes table.now task.now r.engine) rooms.now) }
{
    rooms
        .iter()
        .filter(|r| takes(table, task, r.engine))
        .copied()
        .collect(alloc)
}

/// The rooms where a task may run.
fn rooms_for(
    alloc: Global,
    table: &Table,
    rooms: &[Room],
    task: &Task,
) -> Result<Vec<Room>, AllocError>
    ensures { IfOk result (λ v. v.items ≡ rooms_for table.now rooms.now task.now) }
{
    if is_ready(table, task) {
        rooms_taking(alloc, table, rooms, task)
    } else {
        Ok(Vec::new(alloc))
    }
}

/// The loads of engines.
fn loads_of(alloc: Global, rooms: &[Room]) -> Result<Vec<u32>, AllocError>
    ensures { IfOk result (λ v. v.items ≡ map (λ r. r.load) rooms.now) }
{
    rooms.iter().map(|r| r.load).collect(alloc)
}

/// The engine at a place.
fn engine_at(rooms: &[Room], place: usize) -> Option<u32>
    ensures { result ≡ option_map (λ r. r.engine) (slice_get rooms.now place) }
{
    match rooms.get(place) {
        Some(room) => Some(room.engine),
        None => None,
    }
}

/// The engine that is picked of some.
fn picked(
    alloc: Global,
    chooser: &Chooser,
    scheme: Scheme,
    word: u64,
    rooms: &[Room],
) -> Result<Option<u32>, AllocError>
    ensures { IfOk result (λ n. n ≡ picked scheme word rooms.now) }
{
    if rooms.is_empty() {
        return Ok(None);
    }
    let loads = loads_of(alloc, rooms)?;
    let place = chooser.choose(scheme, &loads, word);
    Ok(engine_at(rooms, place))
}

/// Whether no target, nothing that it follows and no decline keeps a task from an engine.
fn is_anywhere(task: &Task) -> bool
    ensures free { result ≡ true → (r : RequestFacts) → task.now.request ≡ Some r → is_tied r ≡ false }
    ensures none { result ≡ true → task.now.attempts.excluded ≡ [] }
{
    if is_tied(task.request()) {
        false
    } else {
        task.attempts().excluded.is_empty()
    }
}

/// Whether a task may run on any engine that is live and has room.
fn takes_any(table: &Table, task: &Task) -> bool
    ensures { result ≡ true → (n : ℕ) → fits table.now task.now n ≡ true }
{
    if is_anywhere(task) {
        is_ready(table, task)
    } else {
        false
    }
}

/// The engine that is picked of those where a task may run.
fn engine_for(
    table: &Table,
    rooms: &[Room],
    chooser: &Chooser,
    scheme: Scheme,
    word: u64,
    task: &Task,
) -> Result<Option<u32>, AllocError>
    ensures { IfOk result (λ n. n ≡ picked scheme word (rooms_for table.now rooms.now task.now)) }
{
    let alloc = table.allocator();
    if takes_any(table, task) {
        picked(alloc, chooser, scheme, word, rooms)
    } else {
        let fitting = rooms_for(alloc, table, rooms, task)?;
        picked(alloc, chooser, scheme, word, &fitting)
    }
}

/// The hand-out of a task to the engine that is picked of those where it may run.
fn hand_of(
    table: &Table,
    rooms: &[Room],
    chooser: &Chooser,
    scheme: Scheme,
    word: u64,
    task: &Task,
) -> Result<Option<Entry>, AllocError>
    ensures { IfOk result (λ d. d ≡ hand_of table.now rooms.now scheme word task.now) }
{
    match engine_for(table, rooms, chooser, scheme, word, task)? {
        Some(engine) => Ok(Some(Entry::Hand {
            id: task.id().clone()?,
            engine,
        })),
        None => Ok(None),
    }
}

/// The hand-out of the lowest Submit that may run, to the engine that is picked of these.
pub fn hand_due(
    alloc: Global,
    tasks: &Tasks,
    rooms: &[Room],
    chooser: &Chooser,
    scheme: Scheme,
    word: u64,
) -> Result<Option<Entry>, AllocError>
    ensures { IfOk result (λ d. d ≡ hand_in tasks.now rooms.now scheme word) }
{
    match waiting_task(alloc, tasks, rooms)? {
        Some(task) => hand_of(tasks.table(), rooms, chooser, scheme, word, task),
        None => Ok(None),
    }
}
