//! The place of the first engine on each connection.

ghost use Rattle.std.specs.Prelude.{◌≡◌, ◌==◌, ◌&&◌, ℕ, length, is_some, true, OnOk, OnErr, Some, None, nat_eq, if◌then◌else◌, find};
ghost use Rattle.std.specs.HashMap.{get};
ghost use Rattle.std.specs.Option.{option_copied, option_and_then};
ghost use Rattle.std.specs.Prelude.{slice_get};
ghost use Rattle.cluster_defs.specs.Engines.{engine_on};
ghost use Rattle.engine_registry.specs.Places.{on, engine_at, Tells, Keeps, HasEach};

use cluster_defs::engine::Engine;
use std::alloc::AllocError;
use std::collections::HashMap;

/// Where the first engine on a connection stands, if one does. A connection without an engine may have any place.
pub fn place_of(places: &HashMap<u32, usize>, conn: u32) -> Option<usize>
    ensures { result ≡ get nat_eq places.now conn }
{
    places.get(&conn).copied()
}

/// The first engine on a connection.
pub fn find<'a>(places: &HashMap<u32, usize>, live: &'a [Engine], conn: u32) -> Option<&'a Engine>
    ensures { option_copied result ≡ engine_at live.now (on conn) (get nat_eq places.now conn) }
{
    let place = place_of(places, conn)?;
    let engine = live.get(place)?;
    if engine.conn == conn {
        Some(engine)
    } else {
        None
    }
}

fn put(places: &mut HashMap<u32, usize>, conn: u32, place: usize) -> Result<(), AllocError>
    ensures ok { OnOk result ((j : ℕ) → get nat_eq places.new j ≡ (if conn == j then Some place else get nat_eq places.old j)) }
    ensures err { OnErr result ((j : ℕ) → get nat_eq places.new j ≡ get nat_eq places.old j) }
{
    places.insert(conn, place)?;
    Ok(())
}

/// Notes an engine that comes to stand behind these.
pub fn note(places: &mut HashMap<u32, usize>, live: &[Engine], conn: u32) -> Result<(), AllocError>
    requires { Tells on live.now (get nat_eq places.old) }
    ensures kept { Keeps on live.now (get nat_eq places.old) (get nat_eq places.new) }
    ensures there { OnOk result (engine_on live.now conn ≡ None → get nat_eq places.new conn ≡ Some (length live.now)) }
{
    match find(places, live, conn) {
        Some(_) => Ok(()),
        None => put(places, conn, live.len()),
    }
}

fn point(places: &mut HashMap<u32, usize>, conn: u32, place: usize)
    ensures { (j : ℕ) → get nat_eq places.new j ≡ (if conn == j && is_some (get nat_eq places.old j) then Some place else get nat_eq places.old j) }
{
    if let Some(old) = places.get_mut(&conn) {
        *old = place;
    }
}

/// Notes the place of an engine behind these, where its connection has a place already.
fn point_behind(places: &mut HashMap<u32, usize>, live: &[Engine], conn: u32)
    requires { Tells on live.now (get nat_eq places.old) }
    ensures kept { Keeps on live.now (get nat_eq places.old) (get nat_eq places.new) }
    ensures there { is_some (get nat_eq places.old conn) ≡ true → engine_on live.now conn ≡ None → get nat_eq places.new conn ≡ Some (length live.now) }
    ensures same { (j : ℕ) → is_some (get nat_eq places.new j) ≡ is_some (get nat_eq places.old j) }
{
    if find(places, live, conn).is_none() {
        point(places, conn, live.len());
    }
}

/// Notes all places anew. It takes no memory: each connection has a place.
pub fn point_all(places: &mut HashMap<u32, usize>, live: &[Engine])
    requires { HasEach on live.now (get nat_eq places.old) }
    ensures { Tells on live.now (get nat_eq places.new) }
{
    for place in 0..live.len() {
        point_behind(places, &live[..place], live[place].conn);
    }
}

/// Forgets a connection that none of these engines is on.
pub fn forget(places: &mut HashMap<u32, usize>, live: &[Engine], conn: u32)
    requires { Tells on live.now (get nat_eq places.old) }
    ensures { Tells on live.now (get nat_eq places.new) }
{
    if find(places, live, conn).is_none() {
        places.remove(&conn);
    }
}
