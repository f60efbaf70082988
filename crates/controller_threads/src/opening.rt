//! Bringing up the connections of links.

ghost use Rattle.std.specs.Prelude.{◌≤◌, All, IfErr};
ghost use Rattle.std.specs.Vec.{vec_capacity};
ghost use Rattle.history_lock.specs.Names.{known};
ghost use Rattle.zmtp_peer.specs.Limits.{IsShortIdentity};
ghost use Rattle.controller_threads.specs.Ends.{AdmitCause};
ghost use Rattle.controller_threads.specs.Passes.{IsSince};

use crate::naming::Naming;
use crate::passes::NamedPass;
use crate::port::Port;
use crate::shared::Shared;
use cluster_types::config::Channel;
use load_schemes::chooser::Chooser;
use session_threads::admission::{AdmitEnd, Admitted, PassPool, SessionPasses, admit};
use session_threads::context::{LockedOf, SessionTypes};
use thread_edges::gate::{Gate, Point};

/// A link that was admitted: the number of its connection, and the passes of its two sessions.
#[derive(Drop)]
pub struct Admission<T, N: Naming> {
    pub number: u32,
    pub reading: NamedPass<T, N>,
    pub writing: NamedPass<T, N>,
}

/// Admits a link by a pool whose passes have seen what was seen at the start, and wakes who flushes.
pub fn admit_link<P: Port + Drop, T: SessionTypes, N: Naming>(
    shared: &Shared<P, T, N>,
    chooser: &Chooser,
    pool: &mut PassPool<LockedOf<T>>,
    channel: Channel,
    identity: &[u8],
) -> Result<Admission<LockedOf<T>, N>, AdmitEnd>
    requires since { IsSince N.lock N.start pool.old.pass }
    requires kept { All (IsSince N.lock N.start) pool.old.kept.items }
    requires spare { 2 ≤ vec_capacity pool.old.kept }
    requires identity { IsShortIdentity identity.now }
    ensures since { IsSince N.lock N.start pool.new.pass }
    ensures kept { All (IsSince N.lock N.start) pool.new.kept.items }
    ensures spare { 2 ≤ vec_capacity pool.new.kept }
    ensures cause { IfErr result (λ end. AdmitCause end N.start (known pool.new.pass).seen) }
{
    let context = shared.context();
    let admitted = admit(&context, chooser, pool, channel, identity);
    shared.serving.gate.wake(Point::Flush, 0);
    match admitted {
        Ok(Admitted { conn, passes }) => {
            let SessionPasses { reading, writing } = passes;
            Ok(Admission {
                number: conn,
                reading: NamedPass::new(reading),
                writing: NamedPass::new(writing),
            })
        }
        Err(end) => Err(end),
    }
}
