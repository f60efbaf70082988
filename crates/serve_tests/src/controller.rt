//! A controller over links in memory.

ghost use Rattle.std.specs.Prelude.{◌≡◌, ◌≤◌, ◌<◌, length};
ghost use Rattle.std.specs.Arc.{arc_value};
ghost use Rattle.cluster_defs.specs.Scheduling.{pick};
ghost use Rattle.history_lock.specs.Names.{IsIdle, lock_id, room_of};

use crate::gate::{CountGate, Step, TURNS};
use cluster_store::store::Store;
use cluster_types::config::{Config, Scheme};
use controller_desk::desk::Desk;
use controller_desk::locked::Locked;
use controller_threads::end::ServeEnd;
use controller_threads::ports::Ports;
use controller_threads::serving::serve;
use controller_threads::shared::Serving;
use disk_model::memory::MemDisk;
use edges::memory::{MemSink, MemSource};
use history_lock::lock::Pass;
use hmac_sign::Key;
use load_schemes::chooser::{Choose, Chooser};
use load_schemes::place::place_of;
use session_threads::context::TypesOf;
use std::alloc::Global;
use std::process::Abort;
use std::sync::{Arc, Wait};
use std::thread::Threads;
use std::time;
use thread_edges::clock::ListClock;
use thread_edges::gate::{HoldGate, Point};
use thread_edges::memory::{Links, MemListener};
use thread_edges::spawner::Spawner;
use thread_edges::words::ListWords;

pub type Desked = Desk<MemDisk, ListClock, ListWords>;

pub type Held = Locked<MemDisk, ListClock, ListWords>;

/// What sessions stand on here.
pub type Types<R> = TypesOf<MemDisk, ListClock, ListWords, CountGate<R>, R>;

pub type End = ServeEnd<MemListener, Held>;

/// The most entries that a history may have here.
pub const AMPLE: u64 = 1_000_000;

/// The greeting and the READY that both sides send.
pub const OWN: &[u8] =
    b"\xff\0\0\0\0\0\0\0\0\x7f\x03\0NULL\0\0\0\0\0\0\0\0\0\0\0\0\0\0\0\0\0\0\0\0\0\0\0\0\0\0\0\0\0\0\0\0\0\0\0\0\0\0\0\0\0\0\0\0\0\0\0\0\x04\x1c\x05READY\x0bSocket-Type\0\0\0\x06ROUTER";

/// The connection request `ask`, signed under the key `k`.
pub const ASK: &[u8] =
    b"\x01\x09<IDS|MSG>\x01@7235ceda5687e97a6a53a38fa48ff38111bdb2450e0b7564a195a96bf2d73eaf\x010{\"msg_id\":\"ask\",\"msg_type\":\"connection_request\"}\x01\x02{}\x01\x02{}\0\x02{}";

/// A message without a delimiter, of this many octets behind its flags and length. A link passes over it.
pub const LONG: [u8; 8_192] = [0; 8_192];

/// A chooser that places tasks as a controller does.
pub fn new_chooser<R: Abort>(rt: &R, alloc: Global) -> Chooser {
    let choose: Choose = Box::new(
        alloc,
        |scheme: Scheme, loads: &[u32], word: u64| -> usize
            requires { 0 < length loads.now }
            ensures { result ≡ pick scheme loads.now word }
        { place_of(scheme, loads, word) },
    )
    .expect(rt, "memory is ample");
    Chooser::new(choose)
}

/// The key `k`.
pub fn new_key<R: Abort>(rt: &R, alloc: Global) -> Key {
    Key::new(alloc, b"k").expect(rt, "a key")
}

/// A desk over an empty disk whose history may have so many entries, and its first pass.
pub fn new_desk<R: Abort>(rt: &R, alloc: Global, entries: u64) -> (Desked, Pass<Held>)
    requires { entries ≤ 1000000 }
    ensures idle { IsIdle (lock_id result.0.lock) result.1 }
    ensures room { 3 ≤ room_of result.1 }
{
    let config = Config {
        scheme: Scheme::LeastLoad,
        hwm: 1,
        misses: 10,
        entries,
        bytes: 100_000_000,
    };
    let chooser = new_chooser(rt, alloc);
    let disk = MemDisk::new(alloc, b"").expect(rt, "memory is ample");
    let Ok(store) = Store::open(alloc, disk, config, &chooser, 0) else {
        panic!(rt; "no store opens");
    };
    let clock = ListClock::new(alloc, &[7]).expect(rt, "memory is ample");
    let words = ListWords::new(alloc, &[1]).expect(rt, "memory is ample");
    Desk::new(alloc, store, clock, words).expect(rt, "memory is ample")
}

/// Octets one after another.
pub fn joined<R: Abort>(rt: &R, alloc: Global, parts: &[&[u8]]) -> Vec<u8> {
    let mut octets = Vec::new(alloc);
    for part in parts {
        octets.extend_from_slice(part).expect(rt, "memory is ample");
    }
    octets
}

/// The handshake and the first message of a link, then a message that is passed over and ends in the next piece, and a last
/// message.
pub fn in_two_pieces<R: Abort>(rt: &R, alloc: Global, first: &[u8], last: &[u8]) -> Vec<u8> {
    joined(
        rt,
        alloc,
        &[OWN, first, b"\x02\0\0\0\0\0\0\x20\0", &LONG, last],
    )
}

/// The handshake and the only message of a link.
pub fn in_one_piece<R: Abort>(rt: &R, alloc: Global, message: &[u8]) -> Vec<u8> {
    joined(rt, alloc, &[OWN, message])
}

/// A port with links that give these octets, where accepts of these numbers fail.
pub fn port_of<R: Abort>(rt: &R, alloc: Global, links: &[&[u8]], failing: &[u64]) -> MemListener {
    let mut list = Links::new(alloc);
    for octets in links {
        let source = MemSource::new(alloc, octets, &[]).expect(rt, "memory is ample");
        let sink = MemSink::new(alloc, &[]).expect(rt, "memory is ample");
        list.push(source, sink).expect(rt, "memory is ample");
    }
    MemListener::new(alloc, list, failing).expect(rt, "memory is ample")
}

/// Ports of which the one for hubs has links that give these octets, and the others none.
pub fn hub_ports<R: Abort>(rt: &R, alloc: Global, links: &[&[u8]]) -> Ports<MemListener> {
    Ports {
        hub: port_of(rt, alloc, links, &[]),
        task: port_of(rt, alloc, &[], &[]),
        mux: port_of(rt, alloc, &[], &[]),
        engine: port_of(rt, alloc, &[], &[]),
    }
}

/// A gate that holds these points until this one was passed, and by these steps.
pub fn new_gate<R: Abort + time::Clock + Drop + Copy>(
    rt: &R,
    alloc: Global,
    held: &[(Point, u32)],
    until: (Point, u32),
    steps: &[Step],
) -> Arc<CountGate<R>, Global> {
    let hold = HoldGate::new(alloc, held, until, TURNS).expect(rt, "memory is ample");
    let gate = CountGate::new(rt, alloc, *rt, hold, steps);
    Arc::new(alloc, gate).expect(rt, "memory is ample")
}

/// The end of a controller with this spawner.
pub fn served_by<R: Abort + Wait + Threads + time::Clock + Drop + Copy + Send + Sync + 'static>(
    rt: &R,
    alloc: Global,
    ports: Ports<MemListener>,
    desk: &Arc<Desked, Global>,
    pass: Pass<Held>,
    gate: &Arc<CountGate<R>, Global>,
    spawner: &mut Spawner<R>,
) -> End
    requires idle { IsIdle (lock_id (arc_value desk.now).lock) pass }
    requires room { 3 ≤ room_of pass }
{
    let key = new_key(rt, alloc);
    let desk = Arc::try_clone(desk).expect(rt, "memory is ample");
    let gate = Arc::try_clone(gate).expect(rt, "memory is ample");
    let serving = Serving::<Types<R>> {
        rt: *rt,
        alloc,
        desk,
        key,
        gate,
    };
    serve(serving, ports, pass, spawner)
}

/// The end of a controller in threads, over a desk of its own whose history may have so many entries.
pub fn served<R: Abort + Wait + Threads + time::Clock + Drop + Copy + Send + Sync + 'static>(
    rt: &R,
    alloc: Global,
    ports: Ports<MemListener>,
    entries: u64,
    gate: &Arc<CountGate<R>, Global>,
) -> End
    requires { entries ≤ 1000000 }
{
    let (desk, pass) = new_desk(rt, alloc, entries);
    let desk = Arc::new(alloc, desk).expect(rt, "memory is ample");
    let mut spawner = Spawner::beside(alloc, *rt).expect(rt, "memory is ample");
    served_by(rt, alloc, ports, &desk, pass, gate, &mut spawner)
}
