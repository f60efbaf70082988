//! Jobs that run beside one another.

ghost use Rattle.std.specs.Prelude.{◌≡◌, ◌≤◌, Ok, Err, IfOk, OnErr};
ghost use Rattle.cluster_types.specs.Causes.{Rose};
ghost use Rattle.thread_edges.specs.Starts.{Starting, StartCause};

use std::alloc::{AllocError, Global};
use std::marker::Model;
use std::sync::atomic::{AtomicU64, Ordering};
use std::sync::{Arc, Wait};
use std::thread;
use std::thread::Threads;
use thiserror::Error;

/// A piece of work. It may wait, where its type holds what waits.
pub trait Job {
    fn run(self);
}

/// Why a job wasn't started.
#[derive(Clone, Copy, Debug, PartialEq, Eq, Error)]
pub enum StartError {
    #[error("no thread was started")]
    NotStarted,
    #[error("out of memory")]
    OutOfMemory,
}

impl From<AllocError> for StartError {
    ghost use Rattle.std.specs.Prelude.{◌≡◌};
    ghost use Rattle.thread_edges.specs.declared.spawner.StartError.{StartError};

    ghost from_gives = { λ _ e. e ≡ StartError.OutOfMemory };

    fn from(_: AllocError) -> Self {
        StartError::OutOfMemory
    }
}

/// What becomes of a job.
#[derive(Clone, Copy, Debug, PartialEq, Eq)]
pub enum Manner {
    /// It runs at once, before the call that starts it returns.
    Here,
    /// It isn't started.
    Refusing,
    /// It runs in a thread of its own.
    Beside,
}

/// How many jobs are running.
#[derive(Drop)]
struct Running {
    count: AtomicU64,
}

impl Running {
    fn begin(&self) {
        self.count.fetch_add(1, Ordering::SeqCst);
    }

    fn end(&self) {
        if self.count.fetch_sub(1, Ordering::SeqCst) == 1 {
            self.count.wake_all();
        }
    }

    /// Waits until there are none.
    fn wait<R: Wait>(&self, rt: &R) {
        for _ in rt.forever() {
            let count = self.count.load(Ordering::SeqCst);
            if count == 0 {
                return;
            }
            self.count.park(rt, (count & 0xffff_ffff) as u32);
        }
        unreachable!()
    }
}

/// What a spawner of threads has.
#[derive(Drop)]
struct Threading<H: Threads + Drop> {
    rt: H,
    running: Arc<Running, Global>,
}

/// Runs each job at once, or none, or each in a thread of its own. A thread that has run its job leaves nothing behind.
#[derive(Drop)]
pub struct Spawner<H: Threads + Drop> {
    manner: Manner,
    threading: Option<Threading<H>>,
    faults: u64,
}

impl<H: Threads + Drop> Model for Spawner<H> {
    ghost use Rattle.thread_edges.specs.Starts.{Starting};

    ghost Value = { Starting };

    ghost view = { λ s. record { manner = s.manner; faults = s.faults } };
}

/// Runs a job in a thread of its own.
fn start<H: Threads + Drop, J: Job + Drop + Send + 'static>(
    threading: &Threading<H>,
    job: J,
) -> Result<(), StartError> {
    let running = Arc::try_clone(&threading.running)?;
    threading.running.begin();
    let started = thread::spawn(&threading.rt, move || {
        job.run();
        running.end();
    });
    match started {
        Ok(_) => Ok(()),
        Err(_) => {
            threading.running.end();
            Err(StartError::NotStarted)
        }
    }
}

impl<H: Threads + Drop> Spawner<H> {
    /// A spawner that runs each job at once.
    pub fn here() -> Spawner<H>
        ensures { result ≡ record { manner = Manner.Here; faults = 0 } }
    {
        Spawner {
            manner: Manner::Here,
            threading: None,
            faults: 0,
        }
    }

    /// A spawner that starts no job.
    pub fn refusing() -> Spawner<H>
        ensures { result ≡ record { manner = Manner.Refusing; faults = 0 } }
    {
        Spawner {
            manner: Manner::Refusing,
            threading: None,
            faults: 0,
        }
    }

    /// A spawner that starts a thread for each job.
    pub fn beside(alloc: Global, rt: H) -> Result<Spawner<H>, AllocError>
        ensures { IfOk result (λ s. s ≡ record { manner = Manner.Beside; faults = 0 }) }
    {
        let running = Arc::new(
            alloc,
            Running {
                count: AtomicU64::new(0),
            },
        )?;
        Ok(Spawner {
            manner: Manner::Beside,
            threading: Some(Threading { rt, running }),
            faults: 0,
        })
    }

    /// Starts a job. At an `Err` the job is dropped, and did not run.
    pub fn run_beside<J: Job + Drop + Send + 'static>(&mut self, job: J) -> Result<(), StartError>
        ensures here { self.old.manner ≡ Manner.Here → result ≡ Ok tt }
        ensures refusing { self.old.manner ≡ Manner.Refusing → result ≡ Err StartError.NotStarted }
        ensures manner { self.new.manner ≡ self.old.manner }
        ensures cause { StartCause result self.old.faults self.new.faults }
    {
        let started = match (self.manner, &self.threading) {
            (Manner::Here, _) => {
                job.run();
                Ok(())
            }
            (Manner::Beside, Some(threading)) => start(threading, job),
            _ => Err(StartError::NotStarted),
        };
        if started == Err(StartError::NotStarted) {
            self.faults = self.faults.saturating_add(1);
        }
        started
    }

    /// Waits until each job that was started has run.
    pub fn join_all<R: Wait>(&mut self, rt: &R)
        ensures { self.new ≡ self.old }
    {
        if let Some(threading) = &self.threading {
            threading.running.wait(rt);
        }
    }
}
