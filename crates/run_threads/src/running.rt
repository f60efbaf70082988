//! Running codes by engine threads over a store.

ghost use Rattle.std.specs.Prelude.{◌≡◌, ◌≤◌, ℕ, OnOk, IfErr};
ghost use Rattle.std.specs.Arc.{arc_value};
ghost use Rattle.array_maps.specs.Gathering.{awaited};
ghost use Rattle.history_lock.specs.Names.{known, lock_id, IsIdle};
ghost use Rattle.controller_desk.specs.Ups.{IsSet, ups};
ghost use Rattle.run_book.specs.Kept.{AreSaid};
ghost use Rattle.run_threads.specs.Answering.{ArePrinted};
ghost use Rattle.run_threads.specs.Ends.{StopCause, EndCause};
ghost use Rattle.run_threads.specs.Shared.{lock_of};

use crate::caller::Awaited;
use crate::end::{RunEnd, RunStop};
use crate::engines::Joined;
use crate::shared::RunShared;
use crate::starting::start_choosing;
use crate::worker::Worker;
use client_core::error::Messages;
use client_core::notes::Notes;
use cluster_store::store::Store;
use cluster_types::config::Channel;
use disk_model::disk::Disk;
use edges::sink::Sink;
use history_lock::lock::Pass;
use load_schemes::chooser::Chooser;
use run_book::book::Book;
use run_book::kept::RunBook;
use std::alloc::Global;
use std::sync::atomic::AtomicU64;
use std::sync::{Arc, Wait};
use std::thread::Threads;
use thread_edges::gate::Gate;
use thread_edges::spawner::Spawner;

/// What the threads of a run over a disk share.
pub type SharedRun<D, G, R> = Arc<RunShared<D, G, R>, Global>;

/// What a run stands on.
#[derive(Drop)]
pub struct Ground<G, R> {
    pub rt: R,
    pub alloc: Global,
    pub gate: Arc<G, Global>,
    /// How many engines there are to be, from 1 to 64.
    pub engines: u32,
}

/// What is submitted, and what is awaited of it.
#[derive(Drop)]
pub struct Submitted<W> {
    pub messages: Messages,
    pub awaited: Awaited<W>,
}

/// Starts a worker for an engine, with a pass of its own.
fn start_worker<
    D: Disk + Drop + Send + Sync + 'static,
    G: Gate + Drop + Send + Sync + 'static,
    R: Wait + Drop + Send + Sync + 'static,
    H: Threads + Drop,
>(
    shared: &SharedRun<D, G, R>,
    pass: &mut Pass<RunBook<D>>,
    spawner: &mut Spawner<H>,
    joined: Joined,
) -> Result<(), RunStop>
    requires idle { IsIdle (lock_id (arc_value shared.now).book.lock) pass.old }
    ensures idle { IsIdle (lock_id (arc_value shared.now).book.lock) pass.new }
    ensures ok { OnOk result (spawner.new.faults ≡ spawner.old.faults) }
    ensures cause { IfErr result (λ why. (written later : ℕ) → StopCause (known pass.new).seen written later spawner.old.faults spawner.new.faults why) }
{
    let Joined { conn, engine } = joined;
    let Ok(own) = shared.book.split(pass, 0) else {
        return Err(RunStop::OutOfMemory);
    };
    let worker = Worker {
        shared: Arc::try_clone(shared)?,
        conn,
        engine,
        pass: own,
    };
    start_choosing(shared.alloc, spawner, worker)
}

/// Brings up the engines, and starts a worker for each.
fn start_workers<
    D: Disk + Drop + Send + Sync + 'static,
    G: Gate + Drop + Send + Sync + 'static,
    R: Wait + Drop + Send + Sync + 'static,
    H: Threads + Drop,
>(
    shared: &SharedRun<D, G, R>,
    pass: &mut Pass<RunBook<D>>,
    spawner: &mut Spawner<H>,
    chooser: &Chooser,
    engines: u32,
) -> Result<(), RunStop>
    requires idle { IsIdle (lock_id (arc_value shared.now).book.lock) pass.old }
    ensures idle { IsIdle (lock_id (arc_value shared.now).book.lock) pass.new }
    ensures ok { OnOk result (spawner.new.faults ≡ spawner.old.faults) }
    ensures cause { IfErr result (λ why. (written later : ℕ) → StopCause (known pass.new).seen written later spawner.old.faults spawner.new.faults why) }
{
    for number in 0..engines {
        match shared.join_engine(pass, chooser, number) {
            Ok(joined) => {
                if let Err(why) = start_worker(shared, pass, spawner, joined) {
                    return Err(why);
                }
            }
            Err(halt) => return Err(shared.stop(pass, halt)),
        }
    }
    Ok(())
}

/// Brings up the client and the engines, submits, and prints each line.
fn run_shared<
    D: Disk + Drop + Send + Sync + 'static,
    G: Gate + Drop + Send + Sync + 'static,
    R: Wait + Drop + Send + Sync + 'static,
    H: Threads + Drop,
    W: Notes,
    K: Sink,
>(
    shared: &SharedRun<D, G, R>,
    pass: &mut Pass<RunBook<D>>,
    spawner: &mut Spawner<H>,
    chooser: &Chooser,
    submitted: &mut Submitted<W>,
    output: &mut K,
) -> Result<(), RunStop>
    requires idle { IsIdle (lock_id (arc_value shared.now).book.lock) pass.old }
    requires begun { submitted.old.awaited.gathered ≡ awaited 0 submitted.old.awaited.total }
    ensures idle { IsIdle (lock_id (arc_value shared.now).book.lock) pass.new }
    ensures printed { OnOk result (ArePrinted submitted.old.awaited.labels (known pass.new).seen.list submitted.old.awaited.total (K.written output.old) (K.written output.new)) }
    ensures cause { IfErr result (λ why. StopCause (known pass.new).seen (K.faults output.old) (K.faults output.new) spawner.old.faults spawner.new.faults why) }
{
    if let Err(halt) = shared.open(pass, chooser, Channel::Task, "client") {
        return Err(shared.stop(pass, halt));
    }
    let engines = shared.conns.saturating_sub(1);
    if let Err(why) = start_workers(shared, pass, spawner, chooser, engines) {
        return Err(why);
    }
    if let Err(halt) = shared.submit(pass, chooser, &submitted.messages) {
        return Err(shared.stop(pass, halt));
    }
    shared.serve(pass, &mut submitted.awaited, output)
}

/// Runs what is submitted by engine threads over a store on which no connection came up, and prints the line of each code, as
/// soon as it and those ahead of it are known. All threads have ended where it returns.
pub fn run_codes<
    D: Disk + Drop + Send + Sync + 'static,
    G: Gate + Drop + Send + Sync + 'static,
    R: Wait + Drop + Copy + Send + Sync + 'static,
    H: Threads + Drop,
    W: Notes,
    K: Sink,
>(
    ground: Ground<G, R>,
    store: Store<D>,
    spawner: &mut Spawner<H>,
    chooser: &Chooser,
    submitted: &mut Submitted<W>,
    output: &mut K,
) -> RunEnd<SharedRun<D, G, R>, RunBook<D>>
    requires engines { ground.engines ≤ 64 }
    requires set { IsSet store }
    requires fresh { ups store.history ≡ 0 }
    requires said { ∥ AreSaid store.history ∥₁ }
    requires begun { submitted.old.awaited.gathered ≡ awaited 0 submitted.old.awaited.total }
    ensures { EndCause lock_of (λ seen. ArePrinted submitted.old.awaited.labels seen.list submitted.old.awaited.total (K.written output.old) (K.written output.new)) (K.faults output.old) (K.faults output.new) spawner.old.faults spawner.new.faults result }
{
    let Ground {
        rt,
        alloc,
        gate,
        engines,
    } = ground;
    let conns = engines + 1;
    let Ok((book, mut pass)) = Book::new(alloc, store, conns) else {
        return RunEnd::NoBook;
    };
    let shared = RunShared {
        rt,
        alloc,
        book,
        gate,
        conns,
        ending: AtomicU64::new(0),
    };
    let Ok(book) = Arc::new(alloc, shared) else {
        return RunEnd::NoBook;
    };
    let ran = run_shared(&book, &mut pass, spawner, chooser, submitted, output);
    book.end_workers();
    spawner.join_all(&rt);
    match ran {
        Ok(()) => RunEnd::Done { book, pass },
        Err(why) => RunEnd::Stopped { why, book, pass },
    }
}
