//! The jobs that the caller of `serve` starts.

ghost use Rattle.std.specs.Prelude.{◌≡◌, ◌≤◌, ◌<◌, ◌+◌, ℕ, IfErr, OnOk};
ghost use Rattle.history_lock.specs.Names.{room_of};
ghost use Rattle.controller_threads.specs.Halts.{StopsAtStart};
ghost use Rattle.controller_threads.specs.Passes.{IsSince};

use crate::accepting::Accepting;
use crate::caller::Caller;
use crate::handed::{AcceptedLink, AdmittedLink};
use crate::linking::Linking;
use crate::naming::Naming;
use crate::passes::NamedPass;
use crate::port::Port;
use crate::ports::Ports;
use crate::sessions::WritingSession;
use crate::shared::Shared;
use crate::starting::{start, start_choosing};
use crate::stop::ServeStop;
use crate::watching::Watching;
use crate::workers::{Flushing, Recurring, Rhythm};
use cluster_types::config::Channel;
use session_threads::context::{LockedOf, PassOf, SessionTypes};
use std::alloc::AllocError;
use std::sync::{Arc, Wait};
use std::thread::Threads;
use thread_edges::spawner::Spawner;

/// How many workers there are: for beats, for time and for flushes.
const WORKERS: u64 = 3;

/// How much of a pass's room the admissions have at most.
const ADMISSION_ROOM: u32 = 4_091;

/// How often that is halved, until nothing is left of it.
const HALVINGS: u32 = 12;

/// A pass from which others may come: as many as may, or half as many, and so on.
fn split_most<P: Port + Drop, T: SessionTypes, N: Naming>(
    shared: &Shared<P, T, N>,
    pass: &mut PassOf<T>,
) -> Option<NamedPass<LockedOf<T>, N>>
    requires since { IsSince N.lock N.start pass.old }
    ensures since { IsSince N.lock N.start pass.new }
{
    let mut room = ADMISSION_ROOM;
    for _ in 0..HALVINGS {
        if let Some(other) = shared.split_room(pass, room) {
            return Some(other);
        }
        room /= 2;
    }
    None
}

impl<
    P: Port + Drop + Send + 'static,
    T: SessionTypes + Send + Sync + 'static,
    N: Naming + Send + Sync + 'static,
> Caller<P, T, N>
where
    P::In: Send + 'static,
    P::Out: Send + 'static,
    P::Closer: Send + 'static,
    T::Disk: Send + Sync + 'static,
    T::Clock: Send + Sync + 'static,
    T::Words: Send + Sync + 'static,
    T::Gate: Send + Sync + 'static,
    T::Runtime: Copy + Send + Sync + 'static,
{
    fn start_acceptor<H: Threads + Drop>(
        &self,
        spawner: &mut Spawner<H>,
        channel: Channel,
        port: P,
    ) -> Result<(), ServeStop<P>>
        ensures ok { OnOk result (spawner.new.faults ≡ spawner.old.faults) }
        ensures err { IfErr result (λ stop. StopsAtStart spawner.old.faults spawner.new.faults stop) }
    {
        let shared = Arc::try_clone(&self.shared)?;
        let acceptor = Accepting {
            shared,
            channel,
            port,
        };
        start(spawner, acceptor)
    }

    /// Starts an acceptor for each port.
    fn start_acceptors<H: Threads + Drop>(
        &self,
        spawner: &mut Spawner<H>,
        ports: Ports<P>,
    ) -> Result<(), ServeStop<P>>
        ensures ok { OnOk result (spawner.new.faults ≡ spawner.old.faults) }
        ensures err { IfErr result (λ stop. StopsAtStart spawner.old.faults spawner.new.faults stop) }
    {
        let Ports {
            hub,
            task,
            mux,
            engine,
        } = ports;
        self.start_acceptor(spawner, Channel::Hub, hub)?;
        self.start_acceptor(spawner, Channel::Task, task)?;
        self.start_acceptor(spawner, Channel::Mux, mux)?;
        self.start_acceptor(spawner, Channel::Engine, engine)
    }

    fn start_recurring<H: Threads + Drop>(
        &self,
        spawner: &mut Spawner<H>,
        rhythm: Rhythm,
        pass: NamedPass<LockedOf<T>, N>,
    ) -> Result<(), ServeStop<P>>
        ensures ok { OnOk result (spawner.new.faults ≡ spawner.old.faults) }
        ensures err { IfErr result (λ stop. StopsAtStart spawner.old.faults spawner.new.faults stop) }
    {
        let shared = Arc::try_clone(&self.shared)?;
        let worker = Recurring {
            shared,
            rhythm,
            pass,
        };
        start_choosing(self.shared.serving.alloc, spawner, worker)
    }

    fn start_flushing<H: Threads + Drop>(
        &self,
        spawner: &mut Spawner<H>,
        pass: NamedPass<LockedOf<T>, N>,
    ) -> Result<(), ServeStop<P>>
        ensures ok { OnOk result (spawner.new.faults ≡ spawner.old.faults) }
        ensures err { IfErr result (λ stop. StopsAtStart spawner.old.faults spawner.new.faults stop) }
    {
        let shared = Arc::try_clone(&self.shared)?;
        start(spawner, Flushing { shared, pass })
    }

    /// Starts the watch over links that haven't signed anything.
    fn start_watch<H: Threads + Drop>(&self, spawner: &mut Spawner<H>) -> Result<(), ServeStop<P>>
        ensures ok { OnOk result (spawner.new.faults ≡ spawner.old.faults) }
        ensures err { IfErr result (λ stop. StopsAtStart spawner.old.faults spawner.new.faults stop) }
    {
        let shared = Arc::try_clone(&self.shared)?;
        start(spawner, Watching { shared })
    }

    /// A pass for a worker.
    fn worker_pass(&mut self) -> NamedPass<LockedOf<T>, N>
        requires { 0 < room_of self.old.pass }
        ensures { room_of self.new.pass + 1 ≡ room_of self.old.pass }
    {
        match self.shared.split(&mut self.pass) {
            Some(pass) => pass,
            None => unreachable!(),
        }
    }

    /// Starts the workers, each with a pass.
    fn start_workers<H: Threads + Drop>(
        &mut self,
        spawner: &mut Spawner<H>,
    ) -> Result<(), ServeStop<P>>
        requires { 3 ≤ room_of self.old.pass }
        ensures ok { OnOk result (spawner.new.faults ≡ spawner.old.faults) }
        ensures err { IfErr result (λ stop. StopsAtStart spawner.old.faults spawner.new.faults stop) }
    {
        let beating = self.worker_pass();
        let timing = self.worker_pass();
        let flushing = self.worker_pass();
        self.start_recurring(spawner, Rhythm::Beat, beating)?;
        self.start_recurring(spawner, Rhythm::Time, timing)?;
        self.start_flushing(spawner, flushing)?;
        self.workers = WORKERS;
        Ok(())
    }

    /// Opens the admissions, with what is left of the room for passes. Where there is none each link is told `busy`.
    fn open_admissions(&mut self) -> Result<(), ServeStop<P>>
        ensures { (before : ℕ) (now : ℕ) → IfErr result (λ stop. StopsAtStart before now stop) }
    {
        let Some(pass) = split_most(&self.shared, &mut self.pass) else {
            return Ok(());
        };
        let alloc = self.shared.serving.alloc;
        let mut admissions = self.shared.admissions.lock(&self.shared.serving.rt);
        match admissions.open(alloc, pass) {
            Ok(()) => Ok(()),
            Err(AllocError) => Err(ServeStop::OutOfMemory),
        }
    }

    /// Starts the workers, and an acceptor for each port.
    pub fn start<H: Threads + Drop>(
        &mut self,
        spawner: &mut Spawner<H>,
        ports: Ports<P>,
    ) -> Result<(), ServeStop<P>>
        requires { 3 ≤ room_of self.old.pass }
        ensures ok { OnOk result (spawner.new.faults ≡ spawner.old.faults) }
        ensures err { IfErr result (λ stop. StopsAtStart spawner.old.faults spawner.new.faults stop) }
    {
        self.start_workers(spawner)?;
        self.open_admissions()?;
        self.start_watch(spawner)?;
        self.start_acceptors(spawner, ports)
    }

    /// Starts the thread of a link. Where it can't be started the link is dropped.
    pub fn start_link<H: Threads + Drop>(
        &mut self,
        spawner: &mut Spawner<H>,
        link: AcceptedLink<P::In, P::Out>,
    ) {
        let number = link.number;
        if self.try_link(spawner, link) {
            self.links = self.links.saturating_add(1);
        } else {
            self.shared.end_pending(number);
        }
    }

    /// Whether the thread of a link could be started.
    fn try_link<H: Threads + Drop>(
        &self,
        spawner: &mut Spawner<H>,
        link: AcceptedLink<P::In, P::Out>,
    ) -> bool {
        let Ok(shared) = Arc::try_clone(&self.shared) else {
            return false;
        };
        let alloc = self.shared.serving.alloc;
        let linking = Linking { shared, link };
        start_choosing::<P, H, Linking<P, T, N>>(alloc, spawner, linking).is_ok()
    }

    /// Starts the session that writes to a link. Where it can't be started the link is ended.
    pub fn start_writing<H: Threads + Drop>(
        &mut self,
        spawner: &mut Spawner<H>,
        link: AdmittedLink<P, LockedOf<T>, N>,
    ) {
        let AdmittedLink {
            conn,
            writer,
            closer,
            pass,
        } = link;
        self.shared.keep_pass(pass);
        if self.try_writing(spawner, conn, writer) {
            self.writers = self.writers.saturating_add(1);
        } else {
            self.shared.end_unwritten(conn, &closer);
        }
    }

    /// Whether the session that writes to a link could be started.
    fn try_writing<H: Threads + Drop>(
        &self,
        spawner: &mut Spawner<H>,
        conn: u32,
        writer: P::Out,
    ) -> bool {
        if self
            .shared
            .writers
            .add(&self.shared.serving.rt, conn)
            .is_err()
        {
            return false;
        }
        let Ok(shared) = Arc::try_clone(&self.shared) else {
            return false;
        };
        let session = WritingSession {
            shared,
            writer,
            conn,
        };
        start::<P, H, WritingSession<P, T, N>>(spawner, session).is_ok()
    }
}
