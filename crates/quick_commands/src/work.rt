//! Generated work over a disk.

ghost use Rattle.std.specs.Prelude.{◌≡◌, ◌≢◌, ◌<◌, ◌-◌, ◌^◌, ◌≤◌, ◌⊎◌, [], ℕ, List, All, IfOk, OnOk, Ok, Err, true, false};
ghost use Rattle.cluster_types.specs.Causes.{Rose};
ghost use Rattle.cluster_core.specs.declared.size.HistorySize.{HistorySize as Size};
ghost use Rattle.cluster_store.specs.Stores.{written};
ghost use Rattle.quick_commands.specs.Generated.{work_key, most_tasks, generated};
ghost use Rattle.tape.specs.Spelling.{Fits};
ghost use Rattle.task_journal.specs.Journal.{StandsFor};
ghost use Rattle.quick_commands.specs.Work.{Work, first_engines, IsReached, IsReachedBy, IsDone, IsHeld};
ghost use Rattle.quick_commands.specs.Summaries.{summary_of};
ghost use Rattle.quick_commands.specs.Ends.{work_config, error_of, HasBegun, IsWorked, IsStopped};

use crate::answers::first_engines;
use crate::fault::WorkError;
use crate::generator::Generator;
use crate::key::work_key;
use crate::moves::Run;
use crate::summary::Summary;
use crate::work_laws::records_fit;
use cluster_types::config::{Config, Scheme};
use cluster_types::limits::{MOST_ENTRIES, MOST_RECORD_OCTETS};
use disk_model::disk::Disk;
use engine_core::engine::Engine;
use hmac_sign::Key;
use load_schemes::chooser::Chooser;
use std::alloc::{AllocError, Global};
use std::collections::VecDeque;
use tape_drive::drive::Drive;
use task_journal::fault::OpenFault;
use task_journal::opening::Refused;

/// How the database is opened: the options that stand where none is given, and the greatest limits.
fn work_config() -> Config
    ensures { result ≡ work_config }
{
    Config {
        scheme: Scheme::LeastLoad,
        hwm: 1,
        misses: 10,
        entries: u64::from(MOST_ENTRIES),
        bytes: u64::from(MOST_RECORD_OCTETS),
    }
}

/// What a run is made of beside its database.
struct Prepared {
    key: Key,
    engines: Vec<Engine>,
    tape: Generator,
}

/// What the run of a tape is made of beside its database.
fn prepare(alloc: Global, seed: u32, tasks: u32) -> Result<Prepared, AllocError>
    requires seed { seed < 2 ^ 31 }
    requires tasks { tasks ≤ most_tasks }
    ensures key { IfOk result (λ p. p.key ≡ work_key) }
    ensures engines { IfOk result (λ p. p.engines.items ≡ first_engines) }
    ensures tape { IfOk result (λ p. p.tape ≡ generated seed tasks) }
    ensures fit { IfOk result (λ p. All Fits p.tape) }
{
    records_fit();
    Ok(Prepared {
        key: work_key(alloc)?,
        engines: first_engines(alloc)?,
        tape: Generator::new(alloc, seed, tasks)?,
    })
}

/// Why a database isn't opened, where its disk is empty.
fn error_of(why: OpenFault) -> WorkError
    ensures { result ≡ error_of why }
{
    match why {
        OpenFault::NotAJournal(place) => WorkError::NotEmpty(place),
        OpenFault::Damaged(place) => WorkError::NotEmpty(place),
        OpenFault::DiskFault => WorkError::DiskFault,
        OpenFault::OutOfMemory => WorkError::OutOfMemory,
    }
}

/// Makes all moves of a run, and says whether none is left. Some are only behind 2^64 - 1 of them.
#[tactic(auto, using(crate::proofs::Paths::no_moves, crate::proofs::Paths::one_more, crate::proofs::Paths::is_reached))]
fn move_on<D: Disk>(alloc: Global, run: &mut Run<D>, chooser: &Chooser) -> Result<bool, WorkError>
    requires working { run.old.failed ≡ false }
    ensures reached { OnOk result (IsReached run.old.work run.new.work) }
    ensures done { result ≡ Ok true → IsDone run.new.work }
    ensures last { result ≡ Ok false → IsReachedBy (2 ^ 64 - 1) run.old.work run.new.work }
    ensures full { (size : Size) → result ≡ Err (WorkError.HistoryFull size) → IsHeld run.old.work run.old.limits size }
    ensures failed { OnOk result (run.new.failed ≡ false) }
    ensures only { (place : ℕ) → result ≡ Err (WorkError.NotEmpty place) → ⊥ }
    ensures later { D.faults run.old.disk ≤ D.faults run.new.disk }
    ensures cause { result ≡ Err WorkError.DiskFault → Rose (D.faults run.old.disk) (D.faults run.new.disk) }
{
    for _ in 0..u64::MAX {
        if !run.go_on(alloc, chooser)? {
            return Ok(true);
        }
    }
    Ok(false)
}

/// Makes all moves of a run. More than 2^64 - 1 count as want of memory.
fn run_out<D: Disk>(alloc: Global, run: &mut Run<D>, chooser: &Chooser) -> Result<(), WorkError>
    requires working { run.old.failed ≡ false }
    ensures reached { OnOk result (IsReached run.old.work run.new.work) }
    ensures done { OnOk result (IsDone run.new.work) }
    ensures full { (size : Size) → result ≡ Err (WorkError.HistoryFull size) → IsHeld run.old.work run.old.limits size }
    ensures failed { OnOk result (run.new.failed ≡ false) }
    ensures only { (place : ℕ) → result ≡ Err (WorkError.NotEmpty place) → ⊥ }
    ensures later { D.faults run.old.disk ≤ D.faults run.new.disk }
    ensures cause { result ≡ Err WorkError.DiskFault → Rose (D.faults run.old.disk) (D.faults run.new.disk) }
{
    if move_on(alloc, run, chooser)? {
        Ok(())
    } else {
        Err(WorkError::OutOfMemory)
    }
}

/// Makes all moves of a run and sums them up, and hands back the disk.
fn sum_up<D: Disk>(
    alloc: Global,
    run: Run<D>,
    chooser: &Chooser,
    tasks: u32,
) -> (Result<Summary, WorkError>, D)
    requires working { run.failed ≡ false }
    ensures worked { IfOk result.0 (λ summary. (w : Work) × IsReached run.work w × IsDone w × (summary ≡ summary_of tasks w) × (D.tells → (c : List ℕ) → D.image result.1 c → StandsFor c (written w.history))) }
    ensures full { (size : Size) → result.0 ≡ Err (WorkError.HistoryFull size) → IsHeld run.work run.limits size }
    ensures only { (place : ℕ) → result.0 ≡ Err (WorkError.NotEmpty place) → ⊥ }
    ensures later { D.faults run.disk ≤ D.faults result.1 }
    ensures cause { result.0 ≡ Err WorkError.DiskFault → Rose (D.faults run.disk) (D.faults result.1) }
{
    let mut run = run;
    match run_out(alloc, &mut run, chooser) {
        Ok(()) => {
            let summary = run.summary(tasks);
            (Ok(summary), run.close())
        }
        Err(error) => (Err(error), run.close()),
    }
}

/// Does generated work over a disk that is empty where it tells.
fn work_over<D: Disk>(
    alloc: Global,
    disk: D,
    chooser: &Chooser,
    seed: u32,
    tasks: u32,
) -> (Result<Summary, WorkError>, D)
    requires seed { seed < 2 ^ 31 }
    requires tasks { tasks ≤ most_tasks }
    requires empty { D.tells → D.content disk ≡ [] }
    ensures worked { IfOk result.0 (IsWorked D.tells seed tasks (D.image result.1)) }
    ensures full { (size : Size) → result.0 ≡ Err (WorkError.HistoryFull size) → IsStopped D.tells seed tasks size }
    ensures only { D.tells → (place : ℕ) → result.0 ≡ Err (WorkError.NotEmpty place) → ⊥ }
    ensures later { D.faults disk ≤ D.faults result.1 }
    ensures cause { result.0 ≡ Err WorkError.DiskFault → Rose (D.faults disk) (D.faults result.1) }
{
    let Ok(Prepared { key, engines, tape }) = prepare(alloc, seed, tasks) else {
        return (Err(WorkError::OutOfMemory), disk);
    };
    match Drive::begin(alloc, disk, work_config(), chooser) {
        Ok(drive) => {
            let run = Run {
                drive,
                key,
                engines,
                inputs: VecDeque::new(alloc),
                outs: VecDeque::new(alloc),
                tape,
                sum: 0,
            };
            sum_up(alloc, run, chooser, tasks)
        }
        Err(Refused { disk, why }) => (Err(error_of(why)), disk),
    }
}

/// Does the generated work of a seed below 2^31 and of so many tasks, at most 500,000, over a disk, which it hands back: four
/// engines answer what they are sent, and the summary says what came of it. A disk whose size isn't 0 is left as it is.
pub fn work<D: Disk>(
    alloc: Global,
    disk: D,
    chooser: &Chooser,
    seed: u32,
    tasks: u32,
) -> (Result<Summary, WorkError>, D)
    requires seed { seed < 2 ^ 31 }
    requires tasks { tasks ≤ most_tasks }
    // The summary is that of the whole run, and a crash leaves what is kept of its history.
    ensures worked { IfOk result.0 (IsWorked D.tells seed tasks (D.image result.1)) }
    // The disk is refused exactly where its size isn't 0, unless a call of it failed.
    ensures empty { D.tells → HasBegun result.0 → D.content disk ≡ [] }
    ensures refused { D.tells → (place : ℕ) → result.0 ≡ Err (WorkError.NotEmpty place) → (place ≡ 0) × (D.content disk ≢ []) }
    ensures full { (size : Size) → result.0 ≡ Err (WorkError.HistoryFull size) → IsStopped D.tells seed tasks size }
    ensures later { D.faults disk ≤ D.faults result.1 }
    ensures cause { result.0 ≡ Err WorkError.DiskFault → Rose (D.faults disk) (D.faults result.1) }
{
    let mut disk = disk;
    match disk.size() {
        Ok(0) => work_over(alloc, disk, chooser, seed, tasks),
        Ok(_) => (Err(WorkError::NotEmpty(0)), disk),
        Err(_) => (Err(WorkError::DiskFault), disk),
    }
}
