//! What a settle frees: tasks whose `after` it makes met, and tasks whose `after` it makes unreachable.

ghost use Rattle.std.specs.Prelude.{◌≡◌, not, ◌&&◌, IfOk, Some, filter, slice_get};
ghost use Rattle.place_sets.specs.Sets.{holds_at, places_where};
ghost use Rattle.cluster_defs.specs.Dependencies.{met, unreachable};
ghost use Rattle.cluster_defs.specs.Requests.{Request as RequestFacts};
ghost use Rattle.task_table.specs.Freeing.{newly_met, newly_dead, turns, SettlesOne, FreesListed};

use crate::table::Table;
use crate::task::Task;
use cluster_defs::settled::Settled;
use cluster_types::text::Text;
use dependency_sets::dependencies::{is_met, is_unreachable};
use dependency_sets::finished::Finished;
use std::alloc::AllocError;

/// The places of the tasks that a settle frees, ascending.
#[derive(Drop)]
pub struct Freed {
    /// Of those whose `after` it newly makes met.
    pub met: Vec<usize>,
    /// Of those whose `after` it newly makes unreachable.
    pub dead: Vec<usize>,
}

/// A table, as if one id were settled so.
#[derive(Drop)]
struct Ahead<'a> {
    table: &'a Table,
    id: &'a Text,
    settled: Settled,
}

impl<'a> Finished for Ahead<'a> {
    ghost use Rattle.task_table.specs.Waiting.{settled_in};
    ghost use Rattle.task_table.specs.Freeing.{settled_so};

    ghost finished = { λ a. settled_so a.id.now a.settled (settled_in a.table.now) };

    fn settled(&self, id: &Text) -> Option<Settled> {
        if id.is(self.id) {
            Some(self.settled)
        } else {
            self.table.settled(id)
        }
    }
}

/// Whether a settle makes met what a task waits for, and it isn't met before.
fn turns_met(table: &Table, id: &Text, settled: Settled, task: &Task) -> bool
    ensures { result ≡ turns met id.now settled table.now task.now.request }
{
    let after = &task.request().after;
    let ahead = Ahead { table, id, settled };
    !is_met(after, table) && is_met(after, &ahead)
}

/// Whether a settle makes unreachable what a task waits for, and it isn't that before.
fn turns_dead(table: &Table, id: &Text, settled: Settled, task: &Task) -> bool
    ensures { result ≡ turns unreachable id.now settled table.now task.now.request }
{
    let after = &task.request().after;
    let ahead = Ahead { table, id, settled };
    !is_unreachable(after, table) && is_unreachable(after, &ahead)
}

/// Whether a settle newly makes met what the task at a place waits for.
fn is_newly_met(table: &Table, id: &Text, settled: Settled, place: usize) -> bool
    ensures { result ≡ holds_at (newly_met id.now settled table.now) table.now place }
{
    match table.as_slice().get(place) {
        Some(task) => task.settled().is_none() && turns_met(table, id, settled, task),
        None => false,
    }
}

/// Whether it newly makes that unreachable.
fn is_newly_dead(table: &Table, id: &Text, settled: Settled, place: usize) -> bool
    ensures { result ≡ holds_at (newly_dead id.now settled table.now) table.now place }
{
    match table.as_slice().get(place) {
        Some(task) => task.settled().is_none() && turns_dead(table, id, settled, task),
        None => false,
    }
}

/// Those of some places whose tasks a settle newly makes met.
fn met_of(
    table: &Table,
    id: &Text,
    settled: Settled,
    places: &[usize],
) -> Result<Vec<usize>, AllocError>
    ensures { IfOk result (λ v. v.items ≡ filter (holds_at (newly_met id.now settled table.now) table.now) places.now) }
{
    places
        .iter()
        .copied()
        .filter(|place| is_newly_met(table, id, settled, *place))
        .collect(table.allocator())
}

/// Those of some places whose tasks it newly makes unreachable.
fn dead_of(
    table: &Table,
    id: &Text,
    settled: Settled,
    places: &[usize],
) -> Result<Vec<usize>, AllocError>
    ensures { IfOk result (λ v. v.items ≡ filter (holds_at (newly_dead id.now settled table.now) table.now) places.now) }
{
    places
        .iter()
        .copied()
        .filter(|place| is_newly_dead(table, id, settled, *place))
        .collect(table.allocator())
}

/// What a settle of an id frees, of the tasks at some places.
pub fn freed_of(
    table: &Table,
    id: &Text,
    settled: Settled,
    places: &[usize],
) -> Result<Freed, AllocError>
    ensures met { IfOk result (λ f. f.met.items ≡ filter (holds_at (newly_met id.now settled table.now) table.now) places.now) }
    ensures dead { IfOk result (λ f. f.dead.items ≡ filter (holds_at (newly_dead id.now settled table.now) table.now) places.now) }
{
    let met = met_of(table, id, settled, places)?;
    let dead = dead_of(table, id, settled, places)?;
    Ok(Freed { met, dead })
}

/// A settle changes how one id is settled, so what it frees lists that id.
pub fn settles_one()
    ensures settled { SettlesOne }
    ensures freed { FreesListed }
{}
