//! Engines that have room, with their loads.

ghost use Rattle.std.specs.Prelude.{◌≡◌, ◌==◌, ℕ, filter, map, IfOk};
ghost use Rattle.std.specs.List.{list_any};
ghost use Rattle.place_sets.specs.Counts.{count_of};
ghost use Rattle.place_sets.specs.Flags.{is_set};
ghost use Rattle.cluster_defs.specs.Engines.{lists_number};
ghost use Rattle.cluster_defs.specs.Scheduling.{leaves_room};
ghost use Rattle.due_decisions.specs.Table.{rooms_in};

use engine_registry::registry::Registry;
use place_sets::counts::count;
use place_sets::flags::set;
use std::alloc::{AllocError, Global};
use task_table::tasks::Tasks;

/// An engine, with how many Submits run on it.
#[derive(Clone, Copy, Debug, PartialEq, Eq)]
pub struct Room {
    pub engine: u32,
    pub load: u32,
}

/// Whether an engine of this load has room.
fn leaves_room(hwm: u32, load: u32) -> bool
    ensures { result ≡ leaves_room hwm load }
{
    hwm == 0 || load < hwm
}

/// The live engines with room, in ascending order of last use, with the loads that these counts tell.
fn rooms_by(
    alloc: Global,
    counts: &[u32],
    engines: &Registry,
    hwm: u32,
    by_use: &[u32],
) -> Result<Vec<Room>, AllocError>
    ensures { IfOk result (λ v. v.items ≡ filter (λ r. leaves_room hwm r.load) (map (λ n. record { engine = n; load = count_of counts.now n }) (filter (λ n. lists_number n engines.now) by_use.now))) }
{
    by_use
        .iter()
        .filter(|n| engines.is_live(u64::from(**n)))
        .map(|n| Room {
            engine: *n,
            load: count(counts, *n),
        })
        .filter(|r| leaves_room(hwm, r.load))
        .collect(alloc)
}

/// The live engines with room, in ascending order of last use.
pub fn rooms_in(
    alloc: Global,
    tasks: &Tasks,
    engines: &Registry,
    hwm: u32,
    by_use: &[u32],
) -> Result<Vec<Room>, AllocError>
    ensures { IfOk result (λ v. v.items ≡ rooms_in tasks.now engines.now hwm by_use.now) }
{
    if let Some(counts) = tasks.counts() {
        return rooms_by(alloc, counts, engines, hwm, by_use);
    }
    match tasks.counted()? {
        Some(counts) => rooms_by(alloc, &counts, engines, hwm, by_use),
        None => Err(AllocError),
    }
}

/// The engines of some rooms, by number.
pub fn open_numbers(alloc: Global, rooms: &[Room]) -> Result<Vec<bool>, AllocError>
    ensures { IfOk result (λ v. (n : ℕ) → is_set v.items n ≡ list_any (λ r. r.engine == n) rooms.now) }
{
    let mut open = Vec::new(alloc);
    for room in rooms {
        set(&mut open, room.engine)?;
    }
    Ok(open)
}

/// Whether an engine is one of these.
pub fn is_open(with_room: &[bool], engine: u64) -> bool
    ensures { result ≡ is_set with_room.now engine }
{
    match with_room.get(engine as usize) {
        Some(open) => *open,
        None => false,
    }
}
