//! The caller of `serve`, which alone starts jobs.

ghost use Rattle.std.specs.Prelude.{◌≡◌, ◌≤◌, ℕ, IsTrue, IfErr, OnOk};
ghost use Rattle.history_lock.specs.Names.{known, room_of};
ghost use Rattle.controller_threads.specs.declared.halt.Halt.{Halt as HaltType};
ghost use Rattle.controller_threads.specs.Halts.{HaltCause, StopCause};
ghost use Rattle.controller_threads.specs.Ends.{EndCause};
ghost use Rattle.controller_threads.specs.Passes.{IsSince};
ghost use Rattle.controller_threads.specs.Ports.{AreAll};

use crate::end::ServeEnd;
use crate::halt::Halt;
use crate::handed::{FailedPort, Handed};
use crate::naming::Naming;
use crate::passes::{Halted, NamedPass};
use crate::port::Port;
use crate::ports::{EndedPorts, Ports};
use crate::shared::Shared;
use crate::stop::ServeStop;
use session_threads::context::{LockedOf, PassOf, SessionTypes};
use std::alloc::Global;
use std::sync::{Arc, Wait};
use std::thread::Threads;
use std::time::Duration;
use thread_edges::spawner::Spawner;

/// How many milliseconds the writers have before a controller stops.
const LAST_MILLIS: u64 = 200;

/// What the caller of `serve` has.
#[derive(Drop)]
pub struct Caller<P: Port, T: SessionTypes, N: Naming> {
    pub shared: Arc<Shared<P, T, N>, Global>,
    pub pass: PassOf<T>,
    pub ended: EndedPorts<P>,
    /// How many threads of links run.
    pub links: u64,
    /// How many sessions that write run.
    pub writers: u64,
    /// How many workers run.
    pub workers: u64,
    ghost since: { IsSince N.lock N.start pass },
}

impl<
    P: Port + Drop + Send + 'static,
    T: SessionTypes + Send + Sync + 'static,
    N: Naming + Send + Sync + 'static,
> Caller<P, T, N>
where
    P::In: Send + 'static,
    P::Out: Send + 'static,
    P::Closer: Send + 'static,
    T::Disk: Send + Sync + 'static,
    T::Clock: Send + Sync + 'static,
    T::Words: Send + Sync + 'static,
    T::Gate: Send + Sync + 'static,
    T::Runtime: Copy + Send + Sync + 'static,
{
    /// A caller that has started nothing yet.
    pub fn new(shared: Arc<Shared<P, T, N>, Global>, pass: PassOf<T>) -> Caller<P, T, N>
        requires { IsSince N.lock N.start pass }
        ensures { room_of result.pass ≡ room_of pass }
    {
        Caller {
            shared,
            pass,
            ended: Ports::none(),
            links: 0,
            writers: 0,
            workers: 0,
        }
    }

    /// Takes in the pass of a worker that ended.
    fn end_worker(&mut self, ended: NamedPass<LockedOf<T>, N>) {
        self.workers = self.workers.saturating_sub(1);
        let NamedPass { pass, of: _ } = ended;
        self.shared.join(&mut self.pass, pass);
    }

    /// Takes in the pass of a job that met what ends the controller.
    fn halt(&mut self, halted: Halted<LockedOf<T>, N>) -> Halt
        ensures { HaltCause result N.start (known self.new.pass).seen }
    {
        let Halted { halt, pass, of: _ } = halted;
        self.shared.join(&mut self.pass, pass);
        halt
    }

    /// Does what is to be done about what was handed over.
    fn answer<H: Threads + Drop>(
        &mut self,
        spawner: &mut Spawner<H>,
        handed: Handed<P, LockedOf<T>, N>,
    ) -> Result<(), ServeStop<P>>
        ensures { (before : ℕ) (now : ℕ) → IfErr result (λ stop. StopCause P.faults N.start (known self.new.pass).seen before now stop) }
    {
        match handed {
            Handed::Accepted(link) => self.start_link(spawner, link),
            Handed::Admitted(link) => self.start_writing(spawner, link),
            Handed::LinkEnded => self.links = self.links.saturating_sub(1),
            Handed::WriterEnded => self.writers = self.writers.saturating_sub(1),
            Handed::PortEnded(channel, port) => self.ended.put(channel, port),
            Handed::PortFailed(failed) => {
                let FailedPort { channel, port } = failed;
                return Err(ServeStop::PortFailed { channel, port });
            }
            Handed::WorkerEnded(pass) => self.end_worker(pass),
            Handed::Halted(halted) => return Err(ServeStop::Halted(self.halt(halted))),
        }
        Ok(())
    }

    /// Whether all links have ended, and no more come.
    fn has_no_links(&self) -> bool
        ensures { IsTrue result → AreAll self.now.ended }
    {
        self.links == 0 && self.writers == 0 && self.ended.are_all()
    }

    /// Serves until all links have ended, and then the workers.
    fn serve_links<H: Threads + Drop>(
        &mut self,
        spawner: &mut Spawner<H>,
    ) -> Result<(), ServeStop<P>>
        ensures ok { OnOk result (AreAll self.new.ended) }
        ensures cause { IfErr result (λ stop. StopCause P.faults N.start (known self.new.pass).seen spawner.old.faults spawner.new.faults stop) }
    {
        let rt = self.shared.serving.rt;
        for _ in rt.forever() {
            if self.has_no_links() {
                if self.workers == 0 {
                    return Ok(());
                }
                self.shared.end_workers();
            }
            let Some(handed) = self.shared.queue.take(&rt) else {
                return Err(ServeStop::OutOfMemory);
            };
            match self.answer(spawner, handed) {
                Ok(()) => {}
                Err(stop) => return Err(stop),
            }
        }
        unreachable!()
    }

    /// Serves the links of these ports.
    pub fn serve<H: Threads + Drop>(
        &mut self,
        spawner: &mut Spawner<H>,
        ports: Ports<P>,
    ) -> Result<(), ServeStop<P>>
        requires { 3 ≤ room_of self.old.pass }
        ensures ok { OnOk result (AreAll self.new.ended) }
        ensures cause { IfErr result (λ stop. StopCause P.faults N.start (known self.new.pass).seen spawner.old.faults spawner.new.faults stop) }
    {
        match self.start(spawner, ports) {
            Ok(()) => self.serve_links(spawner),
            Err(stop) => Err(stop),
        }
    }

    /// The end where all links have ended.
    pub fn ended(self) -> ServeEnd<P, LockedOf<T>>
        requires { AreAll self.ended }
        ensures { (before : ℕ) (now : ℕ) → EndCause N.lock N.start P.links P.faults before now result }
    {
        let Caller {
            shared,
            mut pass,
            ended,
            ..
        } = self;
        shared.flush_last(&mut pass);
        ServeEnd::Ended {
            ports: ended.into_ports(),
            pass,
        }
    }

    /// Lets the writers write what was flushed before a shutdown.
    fn let_writers_write(&self, halt: Halt) {
        if halt == Halt::Stopping {
            self.shared.rest(Duration::from_millis(LAST_MILLIS));
        }
    }

    /// The end where the desk halts the controller.
    fn halted(self, halt: Halt) -> ServeEnd<P, LockedOf<T>>
        requires { HaltCause halt N.start (known self.pass).seen }
        ensures { (before : ℕ) (now : ℕ) → EndCause N.lock N.start P.links P.faults before now result }
    {
        self.let_writers_write(halt);
        let Caller {
            shared,
            mut pass,
            ..
        } = self;
        shared.flush_last(&mut pass);
        match halt {
            Halt::Stopping => ServeEnd::Stopped(pass),
            Halt::DiskFault => ServeEnd::DiskFault(pass),
            Halt::HistoryFull { entries, bytes } => ServeEnd::HistoryFull {
                entries,
                bytes,
                pass,
            },
        }
    }

    /// The end where it stops before. The workers end, and nobody waits for them.
    pub fn stopped(self, stop: ServeStop<P>) -> ServeEnd<P, LockedOf<T>>
        requires { (halt : HaltType) → stop ≡ ServeStop.Halted halt → HaltCause halt N.start (known self.pass).seen }
        ensures { (before : ℕ) (now : ℕ) → StopCause P.faults N.start (known self.pass).seen before now stop → EndCause N.lock N.start P.links P.faults before now result }
    {
        self.shared.end_workers();
        match stop {
            ServeStop::Halted(halt) => self.halted(halt),
            ServeStop::PortFailed { channel, port } => ServeEnd::ListenerFault { channel, port },
            ServeStop::NotStarted => ServeEnd::SpawnFault,
            ServeStop::OutOfMemory => ServeEnd::OutOfMemory,
        }
    }
}
