//! The admissions of links that have signed something.

ghost use Rattle.std.specs.Prelude.{◌≡◌, ◌≤◌, All};
ghost use Rattle.std.specs.Vec.{vec_capacity};
ghost use Rattle.std.proofs.Props.{props};
ghost use Rattle.history_lock.specs.Names.{known};
ghost use Rattle.zmtp_peer.specs.Limits.{IsShortIdentity};
ghost use Rattle.controller_threads.specs.Halts.{HaltCause};
ghost use Rattle.controller_threads.specs.Passes.{IsSince};

use crate::halt::Halt;
use crate::naming::Naming;
use crate::opening::{Admission, admit_link};
use crate::passes::{Halted, NamedPass};
use crate::port::Port;
use crate::shared::Shared;
use cluster_types::config::Channel;
use controller_desk::fault::ActError;
use load_schemes::chooser::Chooser;
use session_threads::admission::{AdmitEnd, PassPool};
use session_threads::context::{LockedOf, PassOf, SessionTypes};
use std::alloc::{AllocError, Global};
use std::marker::PhantomData;

/// Why a link isn't admitted, where the desk's lock holds `T`.
#[derive(Drop)]
pub enum Refusal<T, N: Naming> {
    /// There are too many connections, or no passes for its sessions.
    Busy,
    /// The desk refused it, which ends this link alone.
    Refused,
    /// The desk refused it, which halts the controller.
    Halted(Halted<T, N>),
}

/// The passes of sessions, which have seen what was seen at the start.
#[derive(Drop)]
struct NamedPool<T: SessionTypes, N: Naming> {
    pool: PassPool<LockedOf<T>>,
    of: PhantomData<N>,
    ghost since: { IsSince N.lock N.start pool.pass },
    ghost kept: { All (IsSince N.lock N.start) pool.kept.items } by { Prim.hlevel props },
    ghost spare: { 2 ≤ vec_capacity pool.kept },
}

/// How many passes there may be.
const MOST_PASSES: usize = 4_096;

/// What halts a controller whose history is full, by a pass that has seen it. `None` where no more passes may come from it.
fn halted_full<P: Port + Drop, T: SessionTypes, N: Naming>(
    shared: &Shared<P, T, N>,
    pass: &mut PassOf<T>,
    entries: u64,
    bytes: u64,
) -> Option<Halted<LockedOf<T>, N>>
    requires since { IsSince N.lock N.start pass.old }
    requires cause { HaltCause (Halt.HistoryFull entries bytes) N.start (known pass.old).seen }
    ensures since { IsSince N.lock N.start pass.new }
{
    match shared.split(pass) {
        Some(NamedPass { pass, of: _ }) => {
            Some(Halted::new(Halt::HistoryFull { entries, bytes }, pass))
        }
        None => None,
    }
}

impl<T: SessionTypes, N: Naming> NamedPool<T, N> {
    /// A pass for a session.
    fn take<P: Port + Drop>(
        &mut self,
        shared: &Shared<P, T, N>,
    ) -> Option<NamedPass<LockedOf<T>, N>> {
        match self.pool.kept.pop() {
            Some(pass) => Some(NamedPass::new(pass)),
            None => shared.split(&mut self.pool.pass),
        }
    }

    /// Admits a link.
    fn admit<P: Port + Drop>(
        &mut self,
        shared: &Shared<P, T, N>,
        chooser: &Chooser,
        channel: Channel,
        identity: &[u8],
    ) -> Result<Admission<LockedOf<T>, N>, Refusal<LockedOf<T>, N>>
        requires { IsShortIdentity identity.now }
    {
        match admit_link(shared, chooser, &mut self.pool, channel, identity) {
            Ok(admission) => Ok(admission),
            Err(AdmitEnd::NoPass | AdmitEnd::Act(ActError::TooManyConnections)) => {
                Err(Refusal::Busy)
            }
            Err(AdmitEnd::Act(ActError::HistoryFull { entries, bytes })) => {
                match halted_full(shared, &mut self.pool.pass, entries, bytes) {
                    Some(halted) => Err(Refusal::Halted(halted)),
                    None => Err(Refusal::Refused),
                }
            }
            Err(AdmitEnd::Act(_)) => Err(Refusal::Refused),
        }
    }
}

/// The admissions of a controller: none before they are opened.
#[derive(Drop)]
pub struct Admissions<T: SessionTypes, N: Naming> {
    pool: Option<NamedPool<T, N>>,
}

impl<T: SessionTypes, N: Naming> Admissions<T, N> {
    /// Not opened yet.
    pub fn closed() -> Admissions<T, N> {
        Admissions { pool: None }
    }

    /// Opens them, with a pass from which those of sessions come.
    pub fn open(
        &mut self,
        alloc: Global,
        pass: NamedPass<LockedOf<T>, N>,
    ) -> Result<(), AllocError> {
        let NamedPass { pass, of: _ } = pass;
        let kept = Vec::with_capacity(alloc, MOST_PASSES)?;
        self.pool = Some(NamedPool {
            pool: PassPool { pass, kept },
            of: PhantomData,
        });
        Ok(())
    }

    /// Keeps a pass that is free again. Where there is no memory for it, it is let go.
    pub fn keep(&mut self, pass: NamedPass<LockedOf<T>, N>) {
        if let Some(pool) = &mut self.pool {
            let NamedPass { pass, of: _ } = pass;
            let _ = pool.pool.kept.push(pass);
        }
    }

    /// A pass for a session: one of those that are kept, else a new one. `None` where there is neither.
    pub fn take<P: Port + Drop>(
        &mut self,
        shared: &Shared<P, T, N>,
    ) -> Option<NamedPass<LockedOf<T>, N>> {
        match &mut self.pool {
            Some(pool) => pool.take(shared),
            None => None,
        }
    }

    /// Admits a link. One that comes before they are opened is told that it comes too early.
    pub fn admit<P: Port + Drop>(
        &mut self,
        shared: &Shared<P, T, N>,
        chooser: &Chooser,
        channel: Channel,
        identity: &[u8],
    ) -> Result<Admission<LockedOf<T>, N>, Refusal<LockedOf<T>, N>>
        requires { IsShortIdentity identity.now }
    {
        match &mut self.pool {
            Some(pool) => pool.admit(shared, chooser, channel, identity),
            None => Err(Refusal::Busy),
        }
    }
}
