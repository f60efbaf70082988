//! Jobs that choose engines. A chooser belongs to one thread.

ghost use Rattle.std.specs.Prelude.{◌≡◌, ◌<◌, ℕ, length, OnOk, IfErr};
ghost use Rattle.history_lock.specs.declared.known.Content.{Content};
ghost use Rattle.cluster_defs.specs.Scheduling.{pick};
ghost use Rattle.run_threads.specs.Ends.{StopCause};

use crate::end::RunStop;
use cluster_types::config::Scheme;
use load_schemes::chooser::Chooser;
use load_schemes::place::place_of;
use std::alloc::Global;
use std::thread::Threads;
use thread_edges::spawner::{Job, Spawner, StartError};

/// A piece of work that chooses engines.
pub trait ChoosingJob {
    fn run(self, chooser: &Chooser);
}

/// Such a piece of work with a chooser of its own.
#[derive(Drop)]
struct Choosing<J> {
    job: J,
    chooser: Chooser,
}

impl<J: ChoosingJob> Job for Choosing<J> {
    fn run(self) {
        let Choosing { job, chooser } = self;
        job.run(&chooser);
    }
}

/// Starts a job. At an `Err` the job is dropped, and did not run.
fn start<H: Threads + Drop, J: Job + Drop + Send + 'static>(
    spawner: &mut Spawner<H>,
    job: J,
) -> Result<(), RunStop>
    ensures ok { OnOk result (spawner.new.faults ≡ spawner.old.faults) }
    ensures cause { IfErr result (λ why. (seen : Content) (written later : ℕ) → StopCause seen written later spawner.old.faults spawner.new.faults why) }
{
    match spawner.run_beside(job) {
        Ok(()) => Ok(()),
        Err(StartError::NotStarted) => Err(RunStop::NotStarted),
        Err(StartError::OutOfMemory) => Err(RunStop::OutOfMemory),
    }
}

/// Starts a job with a chooser of its own. At an `Err` the job is dropped, and did not run.
pub fn start_choosing<H: Threads + Drop, J: ChoosingJob + Drop + Send + 'static>(
    alloc: Global,
    spawner: &mut Spawner<H>,
    job: J,
) -> Result<(), RunStop>
    ensures ok { OnOk result (spawner.new.faults ≡ spawner.old.faults) }
    ensures cause { IfErr result (λ why. (seen : Content) (written later : ℕ) → StopCause seen written later spawner.old.faults spawner.new.faults why) }
{
    let Ok(choose) = Box::new(
        alloc,
        |scheme: Scheme, loads: &[u32], word: u64| -> usize
            requires { 0 < length loads.now }
            ensures { result ≡ pick scheme loads.now word }
        { place_of(scheme, loads, word) },
    ) else {
        return Err(RunStop::OutOfMemory);
    };
    let chooser = Chooser::new(choose);
    start(spawner, Choosing { job, chooser })
}
