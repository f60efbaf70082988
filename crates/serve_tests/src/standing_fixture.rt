//! What the tests stand on.

ghost use Rattle.std.specs.Prelude.{◌≡◌, ◌<◌, length};
ghost use Rattle.cluster_defs.specs.Scheduling.{pick};

use cluster_types::config::Scheme;
use cluster_types::message::WordList;
use cluster_types::text::Text;
use controller_desk::desk::Desk;
use controller_desk::locked::Locked;
use controller_threads::ports::Ports;
use disk_model::disk::Disk;
use disk_model::memory::MemDisk;
use edges::memory::{MemSink, MemSource};
use link_commands::host::Host;
use load_schemes::chooser::{Choose, Chooser};
use load_schemes::place::place_of;
use session_threads::context::TypesOf;
use standing_commands::shown::Shown;
use standing_commands::site::Site;
use standing_commands::standing::standing;
use std::alloc::Global;
use std::process::Abort;
use std::sync::{Arc, Wait};
use std::thread::Threads;
use std::time::Clock;
use thread_edges::clock::ListClock;
use thread_edges::event_gate::EventGate;
use thread_edges::memory::{Links, MemDialer, MemListener};
use thread_edges::spawner::Spawner;
use thread_edges::words::ListWords;

/// What shows how a command over a disk ended.
pub type MemShown<D> = Shown<
    MemListener,
    MemSource,
    MemSink,
    D,
    Arc<Desk<D, ListClock, ListWords>, Global>,
    Locked<D, ListClock, ListWords>,
>;

/// How a command ended: its status, what it printed, and what it said.
#[derive(Drop)]
pub struct Outcome<D: Disk + Drop> {
    pub status: u8,
    pub shown: MemShown<D>,
    pub output: MemSink,
    pub errors: MemSink,
}

impl<D: Disk + Drop> Outcome<D> {
    /// Whether it ended with this status, printed this and said what begins so, and nothing where that is nothing.
    pub fn is(&self, status: u8, printed: &[u8], said: &[u8]) -> bool {
        let errors = self.errors.written();
        self.status == status
            && self.output.written() == printed
            && errors.starts_with(said)
            && errors.is_empty() == said.is_empty()
    }

    /// Whether it shows its ports.
    pub fn has_ports(&self) -> bool {
        matches!(self.shown, Shown::Seen { ports: Some(_), .. })
    }

    /// Whether it shows a link.
    pub fn has_link(&self) -> bool {
        matches!(self.shown, Shown::Link { .. })
    }

    /// Whether it shows a disk alone.
    pub fn has_disk(&self) -> bool {
        matches!(self.shown, Shown::Disk(_))
    }
}

/// Words, parted by blanks.
fn words_of<R: Abort>(rt: &R, alloc: Global, line: &str) -> WordList {
    let mut words = WordList::new(alloc);
    for word in line.split(' ') {
        let text = Text::new(alloc, word).expect(rt, "memory is ample");
        words.push(text).expect(rt, "memory is ample");
    }
    words
}

/// A chooser that places tasks as a controller does.
fn new_chooser<R: Abort>(rt: &R, alloc: Global) -> Chooser {
    let choose: Choose = Box::new(
        alloc,
        |scheme: Scheme, loads: &[u32], word: u64| -> usize
            requires { 0 < length loads.now }
            ensures { result ≡ pick scheme loads.now word }
        { place_of(scheme, loads, word) },
    )
    .expect(rt, "memory is ample");
    Chooser::new(choose)
}

/// One link, which gives these octets, or none where there are none.
pub fn links_of<R: Abort>(rt: &R, alloc: Global, octets: &[u8]) -> Links {
    let mut links = Links::new(alloc);
    if !octets.is_empty() {
        let source = MemSource::new(alloc, octets, &[]).expect(rt, "memory is ample");
        let sink = MemSink::new(alloc, &[]).expect(rt, "memory is ample");
        links.push(source, sink).expect(rt, "memory is ample");
    }
    links
}

/// A port with these links whose accepts of these numbers fail.
fn port_of<R: Abort>(rt: &R, alloc: Global, links: Links, failing: &[u64]) -> MemListener {
    MemListener::new(alloc, links, failing).expect(rt, "memory is ample")
}

/// Four ports: one link comes to the hub's, where octets are given, whose accepts of these numbers fail.
pub fn ports_of<R: Abort>(
    rt: &R,
    alloc: Global,
    octets: &[u8],
    failing: &[u64],
) -> Ports<MemListener> {
    Ports {
        hub: port_of(rt, alloc, links_of(rt, alloc, octets), failing),
        task: port_of(rt, alloc, Links::new(alloc), &[]),
        mux: port_of(rt, alloc, Links::new(alloc), &[]),
        engine: port_of(rt, alloc, Links::new(alloc), &[]),
    }
}

/// Does what a line asks for, over these ports, a link that gives these octets, a disk and a spawner.
pub fn stood<
    R: Wait + Clock + Abort + Drop + Copy + Send + Sync + 'static,
    H: Threads + Drop,
    D: Disk + Drop + Send + Sync + 'static,
>(
    rt: R,
    alloc: Global,
    line: &str,
    ports: Ports<MemListener>,
    octets: &[u8],
    disk: D,
    mut spawner: Spawner<H>,
) -> Outcome<D> {
    let gate = EventGate::new(alloc, rt).expect(&rt, "memory is ample");
    let Ok(gate) = Arc::new(alloc, gate) else {
        panic!(rt; "memory is ample");
    };
    let links = links_of(&rt, alloc, octets);
    let mut dialer = MemDialer::new(alloc, links, &[]).expect(&rt, "memory is ample");
    let mut output = MemSink::new(alloc, &[]).expect(&rt, "memory is ample");
    let mut errors = MemSink::new(alloc, &[]).expect(&rt, "memory is ample");
    let site = Site::<_, TypesOf<D, ListClock, ListWords, EventGate<R>, R>> {
        ports,
        disk,
        gate,
        chooser: new_chooser(&rt, alloc),
        host: Host {
            rt,
            alloc,
            clock: ListClock::new(alloc, &[7]).expect(&rt, "memory is ample"),
            words: ListWords::new(alloc, &[0, 0]).expect(&rt, "memory is ample"),
        },
    };
    let (status, shown) = standing(
        site,
        &words_of(&rt, alloc, line),
        &mut dialer,
        &mut spawner,
        &mut output,
        &mut errors,
    );
    Outcome {
        status,
        shown,
        output,
        errors,
    }
}

/// A disk that holds these octets.
pub fn disk_of<R: Abort>(rt: &R, alloc: Global, octets: &[u8]) -> MemDisk {
    MemDisk::new(alloc, octets).expect(rt, "memory is ample")
}
