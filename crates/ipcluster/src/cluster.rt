//! The ports, threads, clock and random words of a cluster, over the system.

use crate::database::open_for_changes;
use cluster_types::message::WordList;
use command_words::ending::{Ending, StandingEnding};
use command_words::standing::StandingCommand;
use controller_threads::closing::Closing;
use controller_threads::ports::Ports;
use disk_model::disk::Disk;
use disk_model::file::FileDisk;
use disk_model::memory::MemDisk;
use edges::sink::Sink;
use edges::standard::StdSink;
use link_commands::host::Host;
use load_schemes::chooser::Chooser;
use session_threads::context::TypesOf;
use standing_commands::site::Site;
use standing_commands::standing::standing;
use std::alloc::AllocError;
use std::net::TcpListener;
use std::sync::{Arc, Wait};
use std::thread::Threads;
use thread_edges::event_gate::EventGate;
use thread_edges::links::Listener;
use thread_edges::memory::{Links, MemListener};
use thread_edges::sockets::{TcpDial, TcpPort};
use thread_edges::spawner::Spawner;
use thread_edges::system::{OsWords, SystemClock};

/// Listens at a port. Where it can't be had a line says why.
fn open_port(rt: &HostRuntime, host: &str, port: u16) -> Result<TcpPort, StandingEnding> {
    match TcpListener::bind(rt, (host, port)) {
        Ok(listener) => Ok(TcpPort::new(listener)),
        Err(error) => {
            let _ = eprintln!(rt; "ipcluster: port {} of {}: {}", port, host, error);
            Err(StandingEnding::ListenerFault)
        }
    }
}

/// The addresses that stand for every interface of a machine.
const EVERY_INTERFACE: [&str; 3] = ["0.0.0.0", "::", "[::]"];

/// The status of a controller whose history has reached a limit.
const HISTORY_FULL: u8 = 9;

/// Listens at the four ports from the first one on. Where that is at every interface, a line says so.
fn open_ports(rt: &HostRuntime, host: &str, first: u16) -> Result<Ports<TcpPort>, StandingEnding> {
    if EVERY_INTERFACE.contains(&host) {
        let _ = eprintln!(rt;
            "ipcluster: {} is every interface of this machine: keep strangers from the ports {} to {}",
            host,
            first,
            first.saturating_add(3)
        );
    }
    Ok(Ports {
        hub: open_port(rt, host, first)?,
        task: open_port(rt, host, first.saturating_add(1))?,
        mux: open_port(rt, host, first.saturating_add(2))?,
        engine: open_port(rt, host, first.saturating_add(3))?,
    })
}

/// A port in memory at which nobody comes.
fn still_port(rt: &HostRuntime) -> Result<MemListener, AllocError> {
    MemListener::new(rt.alloc(), Links::new(rt.alloc()), &[])
}

/// Four of them, for a command that has no ports.
fn still_ports(rt: &HostRuntime) -> Result<Ports<MemListener>, AllocError> {
    Ok(Ports {
        hub: still_port(rt)?,
        task: still_port(rt)?,
        mux: still_port(rt)?,
        engine: still_port(rt)?,
    })
}

/// The types of what a command stands on, over a disk.
type SystemTypes<D, H> = TypesOf<
    D,
    SystemClock<HostRuntime>,
    OsWords<HostRuntime>,
    EventGate<HostRuntime>,
    H,
>;

/// What a command is run with: the system, what starts threads and waits, its chooser, and the host and the first port of a
/// controller.
struct Start<'a, H> {
    rt: HostRuntime,
    handle: H,
    chooser: Chooser,
    host: &'a str,
    port: u16,
}

/// Does what the words ask for, with a thread for each job, over ports and a disk.
fn stand<
    H: Threads + Wait + Drop + Copy + Send + Sync + 'static,
    L: Listener + Drop + Send + 'static,
    D: Disk + Drop + Send + Sync + 'static,
    E: Sink,
>(
    start: Start<H>,
    words: &WordList,
    ports: Ports<L>,
    disk: D,
    errors: &mut E,
) -> Result<u8, AllocError>
where
    L::Out: Closing,
{
    let Start {
        rt,
        handle,
        chooser,
        host,
        port,
    } = start;
    let alloc = rt.alloc();
    let Ok(gate) = Arc::new(alloc, EventGate::new(alloc, rt)?) else {
        return Err(AllocError);
    };
    let site = Site::<L, SystemTypes<D, H>> {
        ports,
        disk,
        gate,
        chooser,
        host: Host {
            rt: handle,
            alloc,
            clock: SystemClock::new(rt),
            words: OsWords::new(rt),
        },
    };
    let (status, _shown) = standing(
        site,
        words,
        &mut TcpDial::new(rt, String::from_str(alloc, host)?, port),
        &mut Spawner::beside(alloc, handle)?,
        &mut StdSink::new(rt.stdout()),
        errors,
    );
    Ok(status)
}

/// Does what a command asks for that is about a cluster at its ports.
pub fn run_cluster<H: Threads + Wait + Drop + Copy + Send + Sync + 'static, E: Sink>(
    (rt, handle): (HostRuntime, H),
    words: &WordList,
    command: &StandingCommand,
    chooser: Chooser,
    errors: &mut E,
) -> Result<u8, StandingEnding> {
    let status = match command {
        StandingCommand::Serve {
            host,
            port,
            database,
            ..
        } => {
            let Ok(file) = open_for_changes(&rt, database.as_str()) else {
                return Err(StandingEnding::Plain(Ending::DiskFault));
            };
            let ports = open_ports(&rt, host.as_str(), *port)?;
            let start = Start {
                rt,
                handle,
                chooser,
                host: host.as_str(),
                port: *port,
            };
            let status = stand(start, words, ports, FileDisk::new(file), errors);
            if let Ok(HISTORY_FULL) = status {
                let _ = eprintln!(rt;
                    "ipcluster: started again over {} it goes on, and counts anew",
                    database.as_str()
                );
            }
            status
        }
        StandingCommand::Engine { host, port, .. } | StandingCommand::Client { host, port, .. } => {
            let (Ok(ports), Ok(disk)) = (still_ports(&rt), MemDisk::new(rt.alloc(), b"")) else {
                return Err(StandingEnding::Plain(Ending::OutOfMemory));
            };
            let start = Start {
                rt,
                handle,
                chooser,
                host: host.as_str(),
                port: *port,
            };
            stand(start, words, ports, disk, errors)
        }
    };
    match status {
        Ok(status) => Ok(status),
        Err(AllocError) => Err(StandingEnding::Plain(Ending::OutOfMemory)),
    }
}
