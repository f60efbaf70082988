//! Beats that engines echo, and those that they miss.

ghost use Rattle.std.specs.Prelude.{◌≡◌, ◌==◌, ◌≤◌, ◌-◌, map, find, nat_lt, nat_le, true, slice_get, Some, None};
ghost use Rattle.std.specs.Option.{option_copied, option_and_then};
ghost use Rattle.std.specs.List.{list_any, list_all};
ghost use Rattle.cluster_defs.specs.Engines.{engine_on, raises, marked, missed};
ghost use Rattle.engine_registry.specs.Indexed.{is_least};
ghost use Rattle.engine_registry.specs.Lone.{are_apart};
ghost use Rattle.engine_registry.specs.Places.{on, engine_at};

use cluster_defs::engine::Engine;

fn raises(conn: u32, beat: u64, engine: &Engine) -> bool
    ensures { result ≡ raises conn beat engine.now }
{
    engine.conn == conn && engine.mark < beat
}

/// Whether an echo raises some mark.
pub fn any_raises(live: &[Engine], conn: u32, beat: u64) -> bool
    ensures { result ≡ list_any (raises conn beat) live.now }
{
    live.iter().any(|e| raises(conn, beat, e))
}

/// Whether an echo raises the mark of this engine, the one on its connection.
pub fn one_raises(live: &[Engine], engine: Option<&Engine>, conn: u32, beat: u64) -> bool
    requires apart { are_apart live.now ≡ true }
    requires engine { option_copied engine ≡ engine_on live.now conn }
    ensures { result ≡ list_any (raises conn beat) live.now }
{
    match engine {
        Some(engine) => engine.mark < beat,
        None => false,
    }
}

fn mark(engine: &mut Engine, conn: u32, beat: u64)
    ensures { engine.new ≡ marked conn beat engine.old }
{
    if raises(conn, beat, engine) {
        engine.mark = beat;
    }
}

/// Raises the marks of all engines on a connection.
pub fn mark_all(live: &mut [Engine], conn: u32, beat: u64)
    ensures { live.new ≡ map (marked conn beat) live.old }
{
    for place in 0..live.len() {
        mark(&mut live[place], conn, beat);
    }
}

/// Raises the mark of the engine at a place, the one on its connection.
pub fn mark_one(live: &mut [Engine], place: usize, conn: u32, beat: u64)
    requires apart { are_apart live.old ≡ true }
    requires place { engine_at live.old (on conn) (Some place) ≡ engine_on live.old conn }
    ensures { live.new ≡ map (marked conn beat) live.old }
{
    if place < live.len() {
        mark(&mut live[place], conn, beat);
    }
}

/// The least mark.
pub fn least_mark(live: &[Engine]) -> u64
    ensures { is_least live.now result ≡ true }
{
    let mut least = u64::MAX;
    for engine in live {
        least = least.min(engine.mark);
    }
    least
}

/// How many beats an engine has missed.
fn missed(beats: u64, engine: &Engine) -> u64
    ensures { result ≡ missed beats engine.now }
{
    beats.saturating_sub(engine.mark)
}

/// Whether an engine missed more beats than it may.
fn is_missing(misses: u32, beats: u64, engine: &Engine) -> bool
    ensures { result ≡ nat_lt misses (missed beats engine.now) }
{
    u64::from(misses) < missed(beats, engine)
}

/// The first engine that missed more beats than it may, where no mark is below this one.
pub fn first_missing(live: &[Engine], least: u64, misses: u32, beats: u64) -> Option<&Engine>
    requires { is_least live.now least ≡ true }
    ensures { option_copied result ≡ find (λ e. nat_lt misses (missed beats e)) live.now }
{
    if beats.saturating_sub(least) <= u64::from(misses) {
        return None;
    }
    live.iter().find(|e| is_missing(misses, beats, e))
}
