//! A controller that serves over a database.

ghost use Rattle.std.specs.Prelude.{◌≡◌, ◌≤◌, ◌⊎◌, IfOk};
ghost use Rattle.cluster_types.specs.Limits.{most_entries};
ghost use Rattle.controller_desk.specs.Contents.{content_of};
ghost use Rattle.controller_desk.specs.Ups.{IsSet, ups};
ghost use Rattle.standing_commands.specs.Commands.{ServeEnds, serves};
ghost use Rattle.standing_commands.specs.Serving.{EndsOver, no_memory, shown_end, lock_of};

use crate::shown::Shown;
use crate::site::Site;
use cluster_store::store::Store;
use command_words::command::ReplayOptions;
use command_words::ending::{Ending, StandingEnding};
use controller_desk::desk::Desk;
use controller_threads::closing::Closing;
use controller_threads::end::ServeEnd;
use controller_threads::ports::Ports;
use controller_threads::serving::serve;
use controller_threads::shared::Serving;
use disk_model::disk::Disk;
use hmac_sign::Key;
use link_commands::host::Host;
use quick_commands::opening::{config_of, ending_of_refusal};
use session_threads::context::{DeskOf, LockedOf, SessionTypes};
use std::alloc::{AllocError, Global};
use std::sync::Arc;
use std::thread::Threads;
use task_journal::opening::Refused;
use thread_edges::clock::Clock;
use thread_edges::links::Listener;
use thread_edges::spawner::Spawner;

/// How many octets of room the database of a controller has at a time ahead of what it holds.
const ROOM_OCTETS: usize = 1 << 20;

/// What shows how a controller ended, over ports `L` and links of readers `I` and writers `O`.
pub type ServeShown<L, I, O, T> = Shown<
    L,
    I,
    O,
    <T as SessionTypes>::Disk,
    Arc<DeskOf<T>, Global>,
    LockedOf<T>,
>;

/// What a controller serves with, beside its database.
#[derive(Drop)]
struct Served<L, T: SessionTypes> {
    ports: Ports<L>,
    gate: Arc<T::Gate, Global>,
    host: Host<T::Runtime, T::Clock, T::Words>,
}

/// How the program ends where a controller has ended so, and what shows it.
fn shown_end<L, I, O, T: SessionTypes>(
    desk: Arc<DeskOf<T>, Global>,
    end: ServeEnd<L, LockedOf<T>>,
) -> (StandingEnding, ServeShown<L, I, O, T>)
    ensures { result ≡ shown_end desk end }
{
    match end {
        ServeEnd::Ended { ports, pass } => {
            let ports = Some(ports);
            let shown = Shown::Seen { desk, pass, ports };
            (StandingEnding::Plain(Ending::Done), shown)
        }
        ServeEnd::Stopped(pass) => {
            let ports = None;
            let shown = Shown::Seen { desk, pass, ports };
            (StandingEnding::Plain(Ending::Done), shown)
        }
        ServeEnd::DiskFault(pass) => {
            let ports = None;
            let shown = Shown::Seen { desk, pass, ports };
            (StandingEnding::Plain(Ending::DiskFault), shown)
        }
        ServeEnd::HistoryFull {
            entries,
            bytes,
            pass,
        } => {
            let ports = None;
            let ending = Ending::HistoryFull { entries, bytes };
            let shown = Shown::Seen { desk, pass, ports };
            (StandingEnding::Plain(ending), shown)
        }
        ServeEnd::ListenerFault { channel, port } => {
            (StandingEnding::ListenerFault, Shown::Port { channel, port })
        }
        ServeEnd::SpawnFault => (StandingEnding::NoWorker, Shown::Nothing),
        ServeEnd::OutOfMemory => (StandingEnding::Plain(Ending::OutOfMemory), Shown::Nothing),
    }
}

/// Has a store keep room ahead.
fn with_room<D: Disk + Drop>(store: Store<D>) -> Result<Store<D>, AllocError>
    ensures { IfOk result (λ s. s ≡ store) }
{
    let mut store = store;
    store.keep_room(ROOM_OCTETS)?;
    Ok(store)
}

/// Serves over a store that was just opened, and that keeps room from now on.
fn serve_store<
    L: Listener + Drop + Send + 'static,
    I,
    O,
    T: SessionTypes + Send + Sync + 'static,
    H: Threads + Drop,
>(
    site: Served<L, T>,
    store: Store<T::Disk>,
    key: Key,
    spawner: &mut Spawner<H>,
) -> (StandingEnding, ServeShown<L, I, O, T>)
where
    L::Out: Closing,
    T::Disk: Send + Sync + 'static,
    T::Clock: Send + Sync + 'static,
    T::Words: Send + Sync + 'static,
    T::Gate: Send + Sync + 'static,
    T::Runtime: Copy + Send + Sync + 'static,
    requires set { IsSet store }
    requires fresh { ups store.history ≡ 0 }
    ensures { (result ≡ no_memory) ⊎ EndsOver lock_of L.links L.faults (content_of T.Disk.faults store) spawner.old.faults spawner.new.faults result }
{
    let Served { ports, gate, host } = site;
    let Host {
        rt,
        alloc,
        clock,
        words,
    } = host;
    let Ok(store) = with_room(store) else {
        return (StandingEnding::Plain(Ending::OutOfMemory), Shown::Nothing);
    };
    let Ok((desk, pass)) = Desk::new(alloc, store, clock, words) else {
        return (StandingEnding::Plain(Ending::OutOfMemory), Shown::Nothing);
    };
    let Ok(desk) = Arc::new(alloc, desk) else {
        return (StandingEnding::Plain(Ending::OutOfMemory), Shown::Nothing);
    };
    let Ok(shared) = Arc::try_clone(&desk) else {
        return (StandingEnding::Plain(Ending::OutOfMemory), Shown::Nothing);
    };
    let serving = Serving::<T> {
        rt,
        alloc,
        desk: shared,
        key,
        gate,
    };
    let end = serve(serving, ports, pass, spawner);
    shown_end::<L, I, O, T>(desk, end)
}

/// Serves the links of four ports over the database of a disk.
pub fn serve_cluster<
    L: Listener + Drop + Send + 'static,
    I,
    O,
    T: SessionTypes + Send + Sync + 'static,
    H: Threads + Drop,
>(
    site: Site<L, T>,
    options: &ReplayOptions,
    spawner: &mut Spawner<H>,
) -> (StandingEnding, ServeShown<L, I, O, T>)
where
    L::Out: Closing,
    T::Disk: Send + Sync + 'static,
    T::Clock: Send + Sync + 'static,
    T::Words: Send + Sync + 'static,
    T::Gate: Send + Sync + 'static,
    T::Runtime: Copy + Send + Sync + 'static,
    requires { options.now.entries ≤ most_entries }
    ensures { ServeEnds (serves T.Disk.Disk L.Listener site.disk spawner.old spawner.new) options.now result }
{
    let Site {
        ports,
        disk,
        gate,
        chooser,
        mut host,
    } = site;
    let Ok(key) = Key::new(host.alloc, options.key.as_slice()) else {
        return (StandingEnding::Plain(Ending::OutOfMemory), Shown::Nothing);
    };
    let moment = host.clock.now().millis;
    match Store::open(host.alloc, disk, config_of(options), &chooser, moment) {
        Ok(store) => serve_store::<L, I, O, T, H>(
            Served::<L, T> { ports, gate, host },
            store,
            key,
            spawner,
        ),
        Err(Refused { disk, why }) => {
            let ending = StandingEnding::Plain(ending_of_refusal(why));
            (ending, Shown::Disk(disk))
        }
    }
}
