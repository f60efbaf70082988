//! The top call of the commands that run codes on engines of their own.

ghost use Rattle.std.specs.Prelude.{◌≡◌, ◌≤◌, length};
ghost use Rattle.array_maps.specs.Gathering.{awaited};
ghost use Rattle.run_threads.specs.Answering.{ArePrinted};
ghost use Rattle.run_threads.specs.Shared.{lock_of};
ghost use Rattle.run_words.specs.Reading.{engines_of};
ghost use Rattle.run_commands.specs.Ends.{ending_of, shown_end, runs_over, Opened, Ran, RunEnds, Ends, IsTold};

use crate::errors::tell;
use crate::preparing::{PrepareError, submitted_by};
use crate::shown::RunShown;
use client_core::watcher::Watcher;
use cluster_types::message::WordList;
use command_words::command::CommandError;
use command_words::ending::Ending;
use disk_model::disk::Disk;
use edges::sink::Sink;
use load_schemes::chooser::Chooser;
use quick_commands::opening::ending_of_refusal;
use run_book::halt::Halt;
use run_book::kept::RunBook;
use run_book::opening::open_store;
use run_threads::end::{RunEnd, RunStop};
use run_threads::running::{Ground, SharedRun, Submitted, run_codes};
use run_words::command::{RunCommand, run_command_of};
use run_words::ending::RunEnding;
use std::alloc::Global;
use std::sync::{Arc, Wait};
use std::thread::Threads;
use task_journal::opening::Refused;
use thread_edges::gate::Gate;
use thread_edges::spawner::Spawner;

/// What such a command stands on: a disk, which is to be empty, its chooser, its gate, and the machine.
#[derive(Drop)]
pub struct RunSite<D, G, R> {
    pub disk: D,
    pub chooser: Chooser,
    pub gate: Arc<G, Global>,
    pub rt: R,
    pub alloc: Global,
}

/// What shows how such a command ended over a disk.
pub type RunShownOf<D, G, R> = RunShown<D, SharedRun<D, G, R>, RunBook<D>>;

/// How the program ends where a run stopped.
fn ending_of(why: RunStop) -> RunEnding
    ensures { result ≡ ending_of why }
{
    match why {
        RunStop::Halted(Halt::DiskFault) => RunEnding::Plain(Ending::DiskFault),
        RunStop::Halted(Halt::HistoryFull { entries, bytes }) => {
            RunEnding::Plain(Ending::HistoryFull { entries, bytes })
        }
        RunStop::WriteFault => RunEnding::Plain(Ending::WriteFault),
        RunStop::NotStarted => RunEnding::NoWorker,
        RunStop::Halted(Halt::OutOfMemory) | RunStop::OutOfMemory => {
            RunEnding::Plain(Ending::OutOfMemory)
        }
    }
}

/// How the program ends where a run has ended so, and what shows it.
fn shown_end<D: Disk, G: Gate, R>(
    end: RunEnd<SharedRun<D, G, R>, RunBook<D>>,
) -> (RunEnding, RunShownOf<D, G, R>)
    ensures { result ≡ shown_end end }
{
    match end {
        RunEnd::Done { book, pass } => (
            RunEnding::Plain(Ending::Done),
            RunShown::Book { book, pass },
        ),
        RunEnd::Stopped { why, book, pass } => (ending_of(why), RunShown::Book { book, pass }),
        RunEnd::NoBook => (RunEnding::Plain(Ending::OutOfMemory), RunShown::Nothing),
    }
}

/// Runs what is submitted over the database of a disk that is empty.
fn run_over<
    D: Disk + Drop + Send + Sync + 'static,
    G: Gate + Drop + Send + Sync + 'static,
    R: Wait + Drop + Copy + Send + Sync + 'static,
    H: Threads + Drop,
    K: Sink,
>(
    site: RunSite<D, G, R>,
    engines: u32,
    submitted: Submitted<Watcher>,
    spawner: &mut Spawner<H>,
    output: &mut K,
) -> (RunEnding, RunShownOf<D, G, R>)
    requires engines { engines ≤ 64 }
    requires begun { submitted.awaited.gathered ≡ awaited 0 submitted.awaited.total }
    requires empty { D.tells → length (D.content site.disk) ≡ 0 }
    ensures { Opened (runs_over D.Disk K.Sink lock_of site.disk output.old output.new spawner.old.faults spawner.new.faults) (λ seen. ArePrinted submitted.awaited.labels seen.list submitted.awaited.total (K.written output.old) (K.written output.new)) result }
{
    let RunSite {
        disk,
        chooser,
        gate,
        rt,
        alloc,
    } = site;
    let ground = Ground {
        rt,
        alloc,
        gate,
        engines,
    };
    let mut submitted = submitted;
    match open_store(alloc, disk, &chooser) {
        Ok(store) => shown_end(run_codes(ground, store, spawner, &chooser, &mut submitted, output)),
        Err(Refused { disk, why }) => (
            RunEnding::Plain(ending_of_refusal(why)),
            RunShown::Disk(disk),
        ),
    }
}

/// Runs what is submitted over the database of a disk, unless that isn't empty.
fn run_at<
    D: Disk + Drop + Send + Sync + 'static,
    G: Gate + Drop + Send + Sync + 'static,
    R: Wait + Drop + Copy + Send + Sync + 'static,
    H: Threads + Drop,
    K: Sink,
>(
    site: RunSite<D, G, R>,
    engines: u32,
    submitted: Submitted<Watcher>,
    spawner: &mut Spawner<H>,
    output: &mut K,
) -> (RunEnding, RunShownOf<D, G, R>)
    requires engines { engines ≤ 64 }
    requires begun { submitted.awaited.gathered ≡ awaited 0 submitted.awaited.total }
    ensures { Ran (runs_over D.Disk K.Sink lock_of site.disk output.old output.new spawner.old.faults spawner.new.faults) (λ seen. ArePrinted submitted.awaited.labels seen.list submitted.awaited.total (K.written output.old) (K.written output.new)) result }
{
    let mut site = site;
    match site.disk.size() {
        Ok(0) => run_over(site, engines, submitted, spawner, output),
        Ok(_) => (
            RunEnding::Plain(Ending::Damaged(0)),
            RunShown::Disk(site.disk),
        ),
        Err(_) => (
            RunEnding::Plain(Ending::DiskFault),
            RunShown::Disk(site.disk),
        ),
    }
}

/// Does what a command asks for.
fn obey<
    D: Disk + Drop + Send + Sync + 'static,
    G: Gate + Drop + Send + Sync + 'static,
    R: Wait + Drop + Copy + Send + Sync + 'static,
    H: Threads + Drop,
    K: Sink,
>(
    site: RunSite<D, G, R>,
    command: &RunCommand,
    spawner: &mut Spawner<H>,
    output: &mut K,
) -> (RunEnding, RunShownOf<D, G, R>)
    requires { engines_of command.now ≤ 64 }
    ensures { RunEnds (runs_over D.Disk K.Sink lock_of site.disk output.old output.new spawner.old.faults spawner.new.faults) command.now result }
{
    match submitted_by(site.alloc, command) {
        Ok(submitted) => run_at(site, command.engines(), submitted, spawner, output),
        Err(PrepareError::BadJob(line)) => (RunEnding::BadJob(line), RunShown::Disk(site.disk)),
        Err(PrepareError::OutOfMemory) => (
            RunEnding::Plain(Ending::OutOfMemory),
            RunShown::Nothing,
        ),
    }
}

/// Does what the words ask for.
fn run<
    D: Disk + Drop + Send + Sync + 'static,
    G: Gate + Drop + Send + Sync + 'static,
    R: Wait + Drop + Copy + Send + Sync + 'static,
    H: Threads + Drop,
    K: Sink,
>(
    site: RunSite<D, G, R>,
    words: &WordList,
    spawner: &mut Spawner<H>,
    output: &mut K,
) -> (RunEnding, RunShownOf<D, G, R>)
    ensures { Ends (runs_over D.Disk K.Sink lock_of site.disk output.old output.new spawner.old.faults spawner.new.faults) words.now result }
{
    match run_command_of(site.alloc, words) {
        Ok(command) => obey(site, &command, spawner, output),
        Err(CommandError::Usage) => (RunEnding::Plain(Ending::Usage), RunShown::Disk(site.disk)),
        Err(CommandError::OutOfMemory) => (
            RunEnding::Plain(Ending::OutOfMemory),
            RunShown::Nothing,
        ),
    }
}

/// Runs codes on engines of their own, as the words ask for, and gives a status with what shows it.
pub fn running<
    D: Disk + Drop + Send + Sync + 'static,
    G: Gate + Drop + Send + Sync + 'static,
    R: Wait + Drop + Copy + Send + Sync + 'static,
    H: Threads + Drop,
    K: Sink,
    E: Sink,
>(
    site: RunSite<D, G, R>,
    words: &WordList,
    spawner: &mut Spawner<H>,
    output: &mut K,
    errors: &mut E,
) -> (u8, RunShownOf<D, G, R>)
    ensures { IsTold E.Sink errors.old errors.new result.0 (λ e. Ends (runs_over D.Disk K.Sink lock_of site.disk output.old output.new spawner.old.faults spawner.new.faults) words.now (e, result.1)) }
{
    let (ending, shown) = run(site, words, spawner, output);
    (tell(errors, ending), shown)
}
