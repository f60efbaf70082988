//! The place of the first engine of each number.

ghost use Rattle.std.specs.Prelude.{◌≡◌, ◌<◌, ◌==◌, ◌&&◌, ℕ, length, is_some, true, OnOk, OnErr, Some, None, if◌then◌else◌, find, slice_get};
ghost use Rattle.std.specs.Option.{option_copied, option_and_then};
ghost use Rattle.cluster_defs.specs.Engines.{engine_numbered};
ghost use Rattle.engine_registry.specs.Places.{numbered, engine_at, Tells, Keeps, HasEach};

use cluster_defs::engine::Engine;
use std::alloc::AllocError;

/// The first engine of a number.
pub fn find<'a>(places: &[usize], live: &'a [Engine], number: u64) -> Option<&'a Engine>
    ensures { option_copied result ≡ engine_at live.now (numbered number) (slice_get places.now number) }
{
    let place = *places.get(number as usize)?;
    let engine = live.get(place)?;
    if u64::from(engine.number) == number {
        Some(engine)
    } else {
        None
    }
}

/// Room for the place of a number.
fn widen(places: &mut Vec<usize>, number: u32) -> Result<(), AllocError>
    ensures kept { (j : ℕ) → is_some (slice_get places.old.items j) ≡ true → slice_get places.new.items j ≡ slice_get places.old.items j }
    ensures room { OnOk result (number < length places.new.items) }
{
    for _ in places.len()..number as usize + 1 {
        places.push(0)?;
    }
    Ok(())
}

fn put(places: &mut Vec<usize>, number: u32, place: usize)
    ensures { (j : ℕ) → slice_get places.new.items j ≡ (if number == j && is_some (slice_get places.old.items j) then Some place else slice_get places.old.items j) }
{
    let at = number as usize;
    if at < places.len() {
        places[at] = place;
    }
}

/// Notes an engine that comes to stand behind these.
pub fn note(places: &mut Vec<usize>, live: &[Engine], number: u32) -> Result<(), AllocError>
    requires { Tells numbered live.now (slice_get places.old.items) }
    ensures kept { Keeps numbered live.now (slice_get places.old.items) (slice_get places.new.items) }
    ensures there { OnOk result (engine_numbered live.now number ≡ None → slice_get places.new.items number ≡ Some (length live.now)) }
{
    if find(places, live, u64::from(number)).is_none() {
        widen(places, number)?;
        put(places, number, live.len());
    }
    Ok(())
}

/// Notes the place of an engine behind these, where its number has a place already.
fn point_behind(places: &mut Vec<usize>, live: &[Engine], number: u32)
    requires { Tells numbered live.now (slice_get places.old.items) }
    ensures kept { Keeps numbered live.now (slice_get places.old.items) (slice_get places.new.items) }
    ensures there { is_some (slice_get places.old.items number) ≡ true → engine_numbered live.now number ≡ None → slice_get places.new.items number ≡ Some (length live.now) }
    ensures same { (j : ℕ) → is_some (slice_get places.new.items j) ≡ is_some (slice_get places.old.items j) }
{
    if find(places, live, u64::from(number)).is_none() {
        put(places, number, live.len());
    }
}

/// Notes all places anew. Each number has a place.
pub fn point_all(places: &mut Vec<usize>, live: &[Engine])
    requires { HasEach numbered live.now (slice_get places.old.items) }
    ensures { Tells numbered live.now (slice_get places.new.items) }
{
    for place in 0..live.len() {
        point_behind(places, &live[..place], live[place].number);
    }
}
