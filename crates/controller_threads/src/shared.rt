//! What the threads of a controller share.

ghost use Rattle.std.specs.Prelude.{◌≡◌, ◌<◌, ◌+◌, ◌↔◌, IfSome, IsSome};
ghost use Rattle.std.specs.Arc.{arc_value};
ghost use Rattle.history_lock.specs.History.{Extends};
ghost use Rattle.history_lock.specs.Names.{known, room_of, lock_id};
ghost use Rattle.controller_threads.specs.Passes.{IsSince, IsRested};

use crate::admissions::Admissions;
use crate::handed::Handed;
use crate::naming::Naming;
use crate::passes::NamedPass;
use crate::pending::Pending;
use crate::port::Port;
use crate::queue::Queue;
use crate::writers::Writers;
use hmac_sign::Key;
use session_threads::context::{DeskOf, LockedOf, PassOf, SessionContext, SessionTypes};
use std::alloc::{AllocError, Global};
use std::sync::atomic::{AtomicU64, Ordering};
use std::sync::{Arc, Mutex, Wait};
use std::time::Duration;
use thread_edges::gate::{Gate, Point};

/// What a controller serves with.
#[derive(Drop)]
pub struct Serving<T: SessionTypes> {
    pub rt: T::Runtime,
    pub alloc: Global,
    pub desk: Arc<DeskOf<T>, Global>,
    /// Under which messages are signed.
    pub key: Key,
    pub gate: Arc<T::Gate, Global>,
}

/// What the threads of a controller share: what it serves with, and the ways by which they wait for one another.
#[derive(Drop)]
pub struct Shared<P: Port, T: SessionTypes, N: Naming> {
    pub serving: Serving<T>,
    pub queue: Queue<P, LockedOf<T>, N>,
    pub writers: Writers,
    /// The links that haven't signed anything.
    pub pending: Pending<P::Closer>,
    pub admissions: Mutex<Admissions<T, N>>,
    /// Not 0 once no links are left.
    pub ending: AtomicU64,
    ghost named: { lock_id (arc_value serving.desk).lock ≡ N.lock },
}

/// What the threads are to share.
pub fn new_shared<P: Port + Drop, T: SessionTypes, N: Naming>(
    serving: Serving<T>,
) -> Result<Arc<Shared<P, T, N>, Global>, AllocError>
    requires { lock_id (arc_value serving.desk).lock ≡ N.lock }
{
    let alloc = serving.alloc;
    let shared = Shared {
        serving,
        queue: Queue::new(alloc),
        writers: Writers::new(alloc),
        pending: Pending::new(alloc)?,
        admissions: Mutex::new(Admissions::closed()),
        ending: AtomicU64::new(0),
    };
    let shared = Arc::new(alloc, shared)?;
    Ok(shared)
}

impl<P: Port + Drop, T: SessionTypes, N: Naming> Shared<P, T, N> {
    /// What a session has in common with the others.
    pub fn context(&self) -> SessionContext<T>
        ensures { lock_id result.desk.now.lock ≡ N.lock }
    {
        let serving = &self.serving;
        SessionContext {
            rt: &serving.rt,
            alloc: serving.alloc,
            desk: &*serving.desk,
            key: &serving.key,
            gate: &*serving.gate,
        }
    }

    /// Hands over to the caller of `serve`.
    pub fn hand(&self, handed: Handed<P, LockedOf<T>, N>) {
        self.queue.put(&self.serving.rt, handed);
    }

    /// Lets the workers end, which flush once more before, and wakes all writers.
    pub fn end_workers(&self) {
        self.ending.store(1, Ordering::SeqCst);
        self.ending.wake_all();
        self.serving.gate.wake(Point::Flush, 0);
        self.writers.wake_all(&self.serving.rt, &*self.serving.gate);
    }

    /// Whether the workers are to end.
    pub fn is_ending(&self) -> bool {
        self.ending.load(Ordering::SeqCst) != 0
    }

    /// Waits for a second, or until the workers are to end.
    pub fn await_second(&self) {
        self.ending
            .park_timeout(&self.serving.rt, 0, Duration::from_secs(1));
    }

    /// Waits for so long.
    pub fn rest(&self, time: Duration) {
        let unwoken = AtomicU64::new(0);
        unwoken.park_timeout(&self.serving.rt, 0, time);
    }

    /// A pass of its own for a job. `None` where no more may come from this one.
    pub fn split(&self, pass: &mut PassOf<T>) -> Option<NamedPass<LockedOf<T>, N>>
        requires since { IsSince N.lock N.start pass.old }
        ensures since { IsSince N.lock N.start pass.new }
        ensures exact { IsSome result ↔ (0 < room_of pass.old) }
        ensures room { IfSome result (λ _. room_of pass.new + 1 ≡ room_of pass.old) }
        ensures seen { IfSome result (λ p. (known p.pass).seen ≡ (known pass.old).seen) }
    {
        match self.serving.desk.split(pass, 0) {
            Ok(other) => Some(NamedPass::new(other)),
            Err(_) => None,
        }
    }

    /// A pass from which so many others may come. `None` where no so many may come from this one.
    pub fn split_room(&self, pass: &mut PassOf<T>, room: u32) -> Option<NamedPass<LockedOf<T>, N>>
        requires since { IsSince N.lock N.start pass.old }
        ensures since { IsSince N.lock N.start pass.new }
    {
        match self.serving.desk.split(pass, room) {
            Ok(other) => Some(NamedPass::new(other)),
            Err(_) => None,
        }
    }

    /// Takes in a pass that was handed over.
    pub fn join(&self, pass: &mut PassOf<T>, other: PassOf<T>)
        requires since { IsSince N.lock N.start pass.old }
        requires other { IsSince N.lock N.start other }
        ensures since { IsSince N.lock N.start pass.new }
        ensures later { Extends (known other).seen (known pass.new).seen }
    {
        self.serving.desk.join(pass, other);
    }

    /// Flushes what is entered, before the controller ends, and cuts off the room that was kept ahead of it. Where that fails
    /// what wasn't flushed is as if it never came.
    pub fn flush_last(&self, pass: &mut PassOf<T>)
        requires since { IsSince N.lock N.start pass.old }
        ensures rested { IsRested N.lock N.start pass.new }
        ensures later { Extends (known pass.old).seen (known pass.new).seen }
    {
        let _ = self.serving.desk.flush(&self.serving.rt, pass);
        let _ = self.serving.desk.trim(&self.serving.rt, pass);
    }
}
