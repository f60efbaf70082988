//! The engines that are live.

ghost use Rattle.std.specs.Prelude.{◌≡◌, ◌==◌, ◌++◌, ◌∷◌, ℕ, [], List, None, Some, true, not, OnOk, OnErr, length, map, filter, find, nat_lt, nat_eq, slice_get, option_map};
ghost use Rattle.std.specs.HashMap.{get, get_by_text};
ghost use Rattle.std.specs.Option.{option_copied};
ghost use Rattle.std.specs.List.{list_any};
ghost use Rattle.cluster_defs.specs.Engines.{engine_on, engine_named, engine_numbered, conn_in, lists_number, joining, raises, marked, missed};
ghost use Rattle.engine_registry.specs.Lone.{are_apart};
ghost use Rattle.engine_registry.specs.Places.{on, named, numbered, Tells, Keeps};

use crate::beats::{any_raises, first_missing, least_mark, mark_all, mark_one, one_raises};
use crate::joins::{joining_again, joining_new};
use crate::{by_conn, by_number, by_uuid};
use cluster_defs::engine::{Engine, Joining};
use cluster_types::text::Text;
use std::alloc::{AllocError, Global};
use std::collections::HashMap;
use std::marker::Model;

/// The live engines, which contracts see as a list. An engine is found by its connection, its uuid or its number without a
/// walk through the others, and so is that no engine missed too many beats.
#[derive(Drop)]
pub struct Registry {
    live: Vec<Engine>,
    /// The place of the first engine on each connection.
    conns: HashMap<u32, usize>,
    /// The place of the first engine of each uuid.
    uuids: HashMap<String, usize>,
    /// The place of the first engine of each number.
    numbers: Vec<usize>,
    /// Whether it is sure that no two engines are on one connection.
    apart: bool,
    /// No engine's mark is below it.
    least: u64,
    alloc: Global,
}

impl Model for Registry {
    ghost use Rattle.std.specs.Prelude.{List, slice_get, nat_eq};
    ghost use Rattle.std.specs.HashMap.{get, get_by_text};
    ghost use Rattle.cluster_defs.specs.declared.engine.Engine.{Engine};
    ghost use Rattle.engine_registry.specs.Indexed.{Indexed};

    ghost Value = { List Engine };

    ghost view = { λ r. r.live.items };

    ghost invariant = { λ r. Indexed r.live.items (get nat_eq r.conns) (get_by_text r.uuids) (slice_get r.numbers.items) r.apart r.least };
}

fn drop_number(live: &mut Vec<Engine>, number: u32)
    ensures { live.new.items ≡ filter (λ e. not (e.number == number)) live.old.items }
{
    live.retain(|e| e.number != number);
}

/// Notes an engine that comes to stand behind these.
fn note(
    alloc: Global,
    conns: &mut HashMap<u32, usize>,
    uuids: &mut HashMap<String, usize>,
    numbers: &mut Vec<usize>,
    live: &[Engine],
    engine: &Engine,
) -> Result<(), AllocError>
    requires conns { Tells on live.now (get nat_eq conns.old) }
    requires uuids { Tells named live.now (get_by_text uuids.old) }
    requires numbers { Tells numbered live.now (slice_get numbers.old.items) }
    ensures conns { Keeps on live.now (get nat_eq conns.old) (get nat_eq conns.new) }
    ensures uuids { Keeps named live.now (get_by_text uuids.old) (get_by_text uuids.new) }
    ensures numbers { Keeps numbered live.now (slice_get numbers.old.items) (slice_get numbers.new.items) }
    ensures conn { OnOk result (engine_on live.now engine.now.conn ≡ None → get nat_eq conns.new engine.now.conn ≡ Some (length live.now)) }
    ensures uuid { OnOk result (engine_named live.now engine.now.uuid ≡ None → get_by_text uuids.new engine.now.uuid ≡ Some (length live.now)) }
    ensures number { OnOk result (engine_numbered live.now engine.now.number ≡ None → slice_get numbers.new.items engine.now.number ≡ Some (length live.now)) }
{
    by_conn::note(conns, live, engine.conn)?;
    by_uuid::note(alloc, uuids, live, &engine.uuid)?;
    by_number::note(numbers, live, engine.number)?;
    Ok(())
}

/// Whether no two engines are on one connection once there is a further one on this connection.
fn stays_apart(conns: &HashMap<u32, usize>, live: &[Engine], apart: bool, conn: u32) -> bool
    requires { Tells on live.now (get nat_eq conns.now) }
    ensures apart { result ≡ true → apart ≡ true }
    ensures conn { result ≡ true → engine_on live.now conn ≡ None }
{
    apart && by_conn::find(conns, live, conn).is_none()
}

/// Raises the mark of the engine on a connection.
fn mark(live: &mut [Engine], conns: &HashMap<u32, usize>, apart: bool, conn: u32, beat: u64)
    requires conns { Tells on live.old (get nat_eq conns.now) }
    requires apart { apart ≡ true → are_apart live.old ≡ true }
    ensures { live.new ≡ map (marked conn beat) live.old }
{
    if !apart {
        mark_all(live, conn, beat);
        return;
    }
    match by_conn::place_of(conns, conn) {
        Some(place) => mark_one(live, place, conn, beat),
        None => {}
    }
}

/// The connection and the uuid of an engine.
fn keys_of(live: &[Engine], numbers: &[usize], number: u32) -> Option<(u32, Option<Text>)> {
    let engine = by_number::find(numbers, live, u64::from(number))?;
    Some((engine.conn, engine.uuid.clone().ok()))
}

/// Forgets the connection and the uuid of an engine that ended, where no other engine has them.
fn forget(
    conns: &mut HashMap<u32, usize>,
    uuids: &mut HashMap<String, usize>,
    live: &[Engine],
    keys: Option<(u32, Option<Text>)>,
)
    requires conns { Tells on live.now (get nat_eq conns.old) }
    requires uuids { Tells named live.now (get_by_text uuids.old) }
    ensures conns { Tells on live.now (get nat_eq conns.new) }
    ensures uuids { Tells named live.now (get_by_text uuids.new) }
{
    if let Some((conn, uuid)) = keys {
        by_conn::forget(conns, live, conn);
        if let Some(uuid) = uuid {
            by_uuid::forget(uuids, live, &uuid);
        }
    }
}

impl Registry {
    /// No engines. It takes no memory.
    pub fn new(alloc: Global) -> Registry
        ensures { result ≡ [] }
    {
        Registry {
            live: Vec::new(alloc),
            conns: HashMap::new(alloc),
            uuids: HashMap::new(alloc),
            numbers: Vec::new(alloc),
            apart: true,
            least: u64::MAX,
            alloc,
        }
    }

    /// The engines, in the order in which they came.
    pub fn as_slice(&self) -> &[Engine]
        ensures { result.now ≡ self.now }
    {
        self.live.as_slice()
    }

    /// How many there are.
    pub fn len(&self) -> usize
        ensures { result ≡ length self.now }
    {
        self.live.len()
    }

    /// The engine on a connection.
    pub fn on(&self, conn: u32) -> Option<&Engine>
        ensures { option_copied result ≡ engine_on self.now conn }
    {
        by_conn::find(&self.conns, &self.live, conn)
    }

    /// The number of the engine on a connection.
    pub fn number_on(&self, conn: u32) -> Option<u32>
        ensures { result ≡ option_map (λ e. e.number) (engine_on self.now conn) }
    {
        match self.on(conn) {
            Some(engine) => Some(engine.number),
            None => None,
        }
    }

    /// The engine of a uuid. What isn't UTF-8 is looked for by a walk.
    pub fn named(&self, uuid: &[u8]) -> Option<&Engine>
        ensures { option_copied result ≡ engine_named self.now uuid.now }
    {
        match str::from_utf8(uuid) {
            Ok(text) => by_uuid::find_str(&self.uuids, &self.live, text),
            Err(_) => by_uuid::first_named(&self.live, uuid),
        }
    }

    /// The engine of a number.
    fn numbered(&self, number: u64) -> Option<&Engine>
        ensures { option_copied result ≡ engine_numbered self.now number }
    {
        by_number::find(&self.numbers, &self.live, number)
    }

    /// The connection of an engine.
    pub fn conn_of(&self, number: u32) -> Option<u32>
        ensures { result ≡ conn_in number self.now }
    {
        match self.numbered(u64::from(number)) {
            Some(engine) => Some(engine.conn),
            None => None,
        }
    }

    /// Whether the engine of a number is live. A number of more than 32 bits is no engine's.
    pub fn is_live(&self, number: u64) -> bool
        ensures { result ≡ lists_number number self.now }
    {
        self.numbered(number).is_some()
    }

    /// What a registration on a connection comes to, where the next engine gets this number.
    pub fn joining(&self, next: u32, conn: u32, uuid: &Text) -> Joining
        ensures { result ≡ joining (record { live = self.now; next = next }) conn uuid.now }
    {
        match self.on(conn) {
            Some(engine) => joining_again(uuid, engine),
            None => joining_new(next, self.named(uuid.as_slice())),
        }
    }

    /// Puts an engine behind the others.
    pub fn push(&mut self, engine: Engine) -> Result<(), AllocError>
        ensures ok { OnOk result (self.new ≡ self.old ++ engine ∷ []) }
        ensures err { OnErr result (self.new ≡ self.old) }
    {
        let apart = stays_apart(&self.conns, &self.live, self.apart, engine.conn);
        let least = self.least.min(engine.mark);
        note(
            self.alloc,
            &mut self.conns,
            &mut self.uuids,
            &mut self.numbers,
            &self.live,
            &engine,
        )?;
        self.live.push(engine)?;
        self.apart = apart;
        self.least = least;
        Ok(())
    }

    /// Ends an engine.
    pub fn end(&mut self, number: u32)
        ensures { self.new ≡ filter (λ e. not (e.number == number)) self.old }
    {
        let keys = keys_of(&self.live, &self.numbers, number);
        drop_number(&mut self.live, number);
        by_conn::point_all(&mut self.conns, &self.live);
        by_uuid::point_all(&mut self.uuids, &self.live);
        by_number::point_all(&mut self.numbers, &self.live);
        forget(&mut self.conns, &mut self.uuids, &self.live, keys);
        self.least = least_mark(&self.live);
    }

    /// Ends all engines.
    pub fn clear(&mut self)
        ensures { self.new ≡ [] }
    {
        self.live.clear();
        self.conns.clear();
        self.uuids.clear();
        self.apart = true;
        self.least = u64::MAX;
    }

    /// Whether an echo of a beat raises a mark.
    pub fn raises(&self, conn: u32, beat: u64) -> bool
        ensures { result ≡ list_any (raises conn beat) self.now }
    {
        if self.apart {
            one_raises(&self.live, self.on(conn), conn, beat)
        } else {
            any_raises(&self.live, conn, beat)
        }
    }

    /// Raises the mark of the engine on a connection.
    pub fn mark(&mut self, conn: u32, beat: u64)
        ensures { self.new ≡ map (marked conn beat) self.old }
    {
        mark(&mut self.live, &self.conns, self.apart, conn, beat);
    }

    /// The first engine that missed more beats than it may.
    pub fn missing(&self, misses: u32, beats: u64) -> Option<&Engine>
        ensures { option_copied result ≡ find (λ e. nat_lt misses (missed beats e)) self.now }
    {
        first_missing(&self.live, self.least, misses, beats)
    }

    /// Looks at all marks, so that `missing` needs no walk until engines miss further beats.
    pub fn refresh(&mut self)
        ensures { self.new ≡ self.old }
    {
        self.least = least_mark(&self.live);
    }
}
