//! The place of the first engine of each uuid.

ghost use Rattle.std.specs.Prelude.{◌≡◌, ◌==◌, ◌&&◌, ℕ, List, length, is_some, true, OnOk, OnErr, Some, None, bytes_eq, if◌then◌else◌, find};
ghost use Rattle.std.specs.HashMap.{get_by_text};
ghost use Rattle.std.specs.Option.{option_copied, option_and_then};
ghost use Rattle.std.specs.Prelude.{slice_get};
ghost use Rattle.cluster_defs.specs.Engines.{engine_named};
ghost use Rattle.engine_registry.specs.Places.{named, engine_at, Tells, Keeps, HasEach};

use cluster_defs::engine::Engine;
use cluster_types::text::Text;
use std::alloc::{AllocError, Global};
use std::collections::HashMap;

/// The first engine of a uuid that comes as a `str`.
pub fn find_str<'a>(
    places: &HashMap<String, usize>,
    live: &'a [Engine],
    uuid: &str,
) -> Option<&'a Engine>
    ensures { option_copied result ≡ engine_at live.now (named uuid.now) (get_by_text places.now uuid.now) }
{
    let place = *places.get(uuid)?;
    let engine = live.get(place)?;
    if engine.uuid.as_slice() == uuid.as_bytes() {
        Some(engine)
    } else {
        None
    }
}

/// The first engine of a uuid.
pub fn find<'a>(
    places: &HashMap<String, usize>,
    live: &'a [Engine],
    uuid: &Text,
) -> Option<&'a Engine>
    ensures { option_copied result ≡ engine_at live.now (named uuid.now) (get_by_text places.now uuid.now) }
{
    find_str(places, live, uuid.as_str())
}

/// The first engine whose uuid is these octets, by a walk.
pub fn first_named<'a>(live: &'a [Engine], uuid: &[u8]) -> Option<&'a Engine>
    ensures { option_copied result ≡ engine_named live.now uuid.now }
{
    live.iter().find(|e| e.uuid.as_slice() == uuid)
}

fn put(
    alloc: Global,
    places: &mut HashMap<String, usize>,
    uuid: &Text,
    place: usize,
) -> Result<(), AllocError>
    ensures ok { OnOk result ((j : List ℕ) → get_by_text places.new j ≡ (if bytes_eq uuid.now j then Some place else get_by_text places.old j)) }
    ensures err { OnErr result ((j : List ℕ) → get_by_text places.new j ≡ get_by_text places.old j) }
{
    let key = String::from_str(alloc, uuid.as_str())?;
    places.insert(key, place)?;
    Ok(())
}

/// Notes an engine that comes to stand behind these.
pub fn note(
    alloc: Global,
    places: &mut HashMap<String, usize>,
    live: &[Engine],
    uuid: &Text,
) -> Result<(), AllocError>
    requires { Tells named live.now (get_by_text places.old) }
    ensures kept { Keeps named live.now (get_by_text places.old) (get_by_text places.new) }
    ensures there { OnOk result (engine_named live.now uuid.now ≡ None → get_by_text places.new uuid.now ≡ Some (length live.now)) }
{
    match find(places, live, uuid) {
        Some(_) => Ok(()),
        None => put(alloc, places, uuid, live.len()),
    }
}

fn point(places: &mut HashMap<String, usize>, uuid: &Text, place: usize)
    ensures { (j : List ℕ) → get_by_text places.new j ≡ (if bytes_eq uuid.now j && is_some (get_by_text places.old j) then Some place else get_by_text places.old j) }
{
    if let Some(old) = places.get_mut(uuid.as_str()) {
        *old = place;
    }
}

/// Notes the place of an engine behind these, where its uuid has a place already.
fn point_behind(places: &mut HashMap<String, usize>, live: &[Engine], uuid: &Text)
    requires { Tells named live.now (get_by_text places.old) }
    ensures kept { Keeps named live.now (get_by_text places.old) (get_by_text places.new) }
    ensures there { is_some (get_by_text places.old uuid.now) ≡ true → engine_named live.now uuid.now ≡ None → get_by_text places.new uuid.now ≡ Some (length live.now) }
    ensures same { (j : List ℕ) → is_some (get_by_text places.new j) ≡ is_some (get_by_text places.old j) }
{
    if find(places, live, uuid).is_none() {
        point(places, uuid, live.len());
    }
}

/// Notes all places anew. It takes no memory: each uuid has a place.
pub fn point_all(places: &mut HashMap<String, usize>, live: &[Engine])
    requires { HasEach named live.now (get_by_text places.old) }
    ensures { Tells named live.now (get_by_text places.new) }
{
    for place in 0..live.len() {
        point_behind(places, &live[..place], &live[place].uuid);
    }
}

fn take_out(places: &mut HashMap<String, usize>, uuid: &Text)
    ensures { (j : List ℕ) → get_by_text places.new j ≡ (if bytes_eq uuid.now j then None else get_by_text places.old j) }
{
    places.remove(uuid.as_str());
}

/// Forgets a uuid that none of these engines has.
pub fn forget(places: &mut HashMap<String, usize>, live: &[Engine], uuid: &Text)
    requires { Tells named live.now (get_by_text places.old) }
    ensures { Tells named live.now (get_by_text places.new) }
{
    if find(places, live, uuid).is_none() {
        take_out(places, uuid);
    }
}
