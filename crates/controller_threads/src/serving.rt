//! Serving the links of four ports over one desk.

ghost use Rattle.std.specs.Prelude.{◌≡◌, ◌≤◌};
ghost use Rattle.std.specs.Arc.{arc_value};
ghost use Rattle.history_lock.specs.Names.{known, room_of, lock_id, IsIdle};
ghost use Rattle.controller_threads.specs.Ends.{EndCause};
ghost use Rattle.controller_threads.specs.Passes.{IsSince};

use crate::caller::Caller;
use crate::closing::Closing;
use crate::end::ServeEnd;
use crate::naming::Naming;
use crate::port::Port;
use crate::ports::Ports;
use crate::shared::{Serving, new_shared};
use session_threads::context::{LockedOf, PassOf, SessionTypes};
use std::marker::Brand;
use std::thread::Threads;
use thread_edges::links::Listener;
use thread_edges::spawner::Spawner;

/// Serves, with a name for the lock of the desk and for what the pass has seen.
fn serve_named<
    P: Port + Drop + Send + 'static,
    T: SessionTypes + Send + Sync + 'static,
    N: Naming + Send + Sync + 'static,
    H: Threads + Drop,
>(
    serving: Serving<T>,
    ports: Ports<P>,
    pass: PassOf<T>,
    spawner: &mut Spawner<H>,
) -> ServeEnd<P, LockedOf<T>>
where
    P::In: Send + 'static,
    P::Out: Send + 'static,
    P::Closer: Send + 'static,
    T::Disk: Send + Sync + 'static,
    T::Clock: Send + Sync + 'static,
    T::Words: Send + Sync + 'static,
    T::Gate: Send + Sync + 'static,
    T::Runtime: Copy + Send + Sync + 'static,
    requires named { lock_id (arc_value serving.desk).lock ≡ N.lock }
    requires since { IsSince N.lock N.start pass }
    requires room { 3 ≤ room_of pass }
    ensures { EndCause N.lock N.start P.links P.faults spawner.old.faults spawner.new.faults result }
{
    let rt = serving.rt;
    let Ok(shared) = new_shared::<P, T, N>(serving) else {
        return ServeEnd::OutOfMemory;
    };
    let mut caller = Caller::new(shared, pass);
    match caller.serve(spawner, ports) {
        Ok(()) => {
            spawner.join_all(&rt);
            caller.ended()
        }
        Err(stop) => caller.stopped(stop),
    }
}

/// Serves the links of four ports over a desk: each link has its handshake, is admitted, and has a session that reads and one
/// that writes, in jobs of their own. Workers send heartbeats, look at the timeouts and flush.
///
/// It ends once all ports and links have ended, at a shutdown, where a port, a flush or a start of a job fails, and where
/// the history is full. But where all have ended no job is waited for. The pass needs room for three more, and for two at
/// each link that is served beside others; links beyond that are told `busy`.
pub fn serve<
    L: Listener + Drop + Send + 'static,
    T: SessionTypes + Send + Sync + 'static,
    H: Threads + Drop,
>(
    serving: Serving<T>,
    ports: Ports<L>,
    pass: PassOf<T>,
    spawner: &mut Spawner<H>,
) -> ServeEnd<L, LockedOf<T>>
where
    L::Out: Closing,
    T::Disk: Send + Sync + 'static,
    T::Clock: Send + Sync + 'static,
    T::Words: Send + Sync + 'static,
    T::Gate: Send + Sync + 'static,
    T::Runtime: Copy + Send + Sync + 'static,
    requires idle { IsIdle (lock_id (arc_value serving.desk).lock) pass }
    requires room { 3 ≤ room_of pass }
    ensures { EndCause (lock_id (arc_value serving.desk).lock) (known pass).seen L.links L.faults spawner.old.faults spawner.new.faults result }
{
    serve_named::<L, T, Brand, H>(serving, ports, pass, spawner)
}
