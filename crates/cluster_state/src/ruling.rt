//! What entries come to.

ghost use Rattle.std.specs.Prelude.{◌≡◌, true};
ghost use Rattle.cluster_state.specs.declared.ruling.Ruling.{Ruling as RulingType};
ghost use Rattle.cluster_state.specs.Ruled.{is_demand, is_join, is_leave, is_purge, is_resubmit, is_abort, is_settle};

use crate::settling::Settling;
use cluster_defs::acceptance::Acceptance;
use cluster_defs::engine::Joining;
use resubmission::abort::AbortPlan;
use resubmission::plan::{Renamed, ResubmitRefusal};
use resubmission::purge::PurgePlan;

/// What an entry comes to where a cluster stands so. It is worked out once: the answer to the entry and what the entry changes
/// are both made of it.
pub enum Ruling {
    /// A request for a task.
    Demand(Acceptance),
    /// A registration.
    Join(Joining),
    /// An engine's leave: the engine on the connection, if there is one.
    Leave(Option<u32>),
    Purge(PurgePlan),
    Resubmit(Result<Renamed, ResubmitRefusal>),
    Abort(AbortPlan),
    /// A settle: how the task is settled, if there is one.
    Settle(Option<Settling>),
    /// Of all others nothing is worked out.
    Other,
}

// Written out, so that what lets one go is proved over one call, and not case by case.
impl Drop for Ruling {
    fn drop(self) {
        match self {
            Ruling::Demand(_) => {},
            Ruling::Join(_) => {},
            Ruling::Leave(_) => {},
            Ruling::Purge(it) => drop(it),
            Ruling::Resubmit(it) => drop(it),
            Ruling::Abort(it) => drop(it),
            Ruling::Settle(it) => drop(it),
            Ruling::Other => {}
        }
    }
}

impl Ruling {
    /// What a request for a task comes to.
    pub fn demand(&self) -> Acceptance
        requires { is_demand self.now ≡ true }
        ensures { self.now ≡ RulingType.Demand result }
    {
        match self {
            Ruling::Demand(acceptance) => *acceptance,
            _ => unreachable!(),
        }
    }

    /// What a registration comes to.
    pub fn join(&self) -> Joining
        requires { is_join self.now ≡ true }
        ensures { self.now ≡ RulingType.Join result }
    {
        match self {
            Ruling::Join(joining) => *joining,
            _ => unreachable!(),
        }
    }

    /// The engine that leaves.
    pub fn leave(&self) -> Option<u32>
        requires { is_leave self.now ≡ true }
        ensures { self.now ≡ RulingType.Leave result }
    {
        match self {
            Ruling::Leave(engine) => *engine,
            _ => unreachable!(),
        }
    }

    /// What a purge comes to.
    pub fn purge(&self) -> &PurgePlan
        requires { is_purge self.now ≡ true }
        ensures { self.now ≡ RulingType.Purge result.now }
    {
        match self {
            Ruling::Purge(plan) => plan,
            _ => unreachable!(),
        }
    }

    /// What a resubmission comes to.
    pub fn resubmit(&self) -> &Result<Renamed, ResubmitRefusal>
        requires { is_resubmit self.now ≡ true }
        ensures { self.now ≡ RulingType.Resubmit result.now }
    {
        match self {
            Ruling::Resubmit(planned) => planned,
            _ => unreachable!(),
        }
    }

    /// What an abort comes to.
    pub fn abort(&self) -> &AbortPlan
        requires { is_abort self.now ≡ true }
        ensures { self.now ≡ RulingType.Abort result.now }
    {
        match self {
            Ruling::Abort(plan) => plan,
            _ => unreachable!(),
        }
    }

    /// How a task is settled.
    pub fn settle(&self) -> &Option<Settling>
        requires { is_settle self.now ≡ true }
        ensures { self.now ≡ RulingType.Settle result.now }
    {
        match self {
            Ruling::Settle(settling) => settling,
            _ => unreachable!(),
        }
    }

    /// How a task is settled.
    pub fn into_settle(self) -> Option<Settling>
        requires { is_settle self ≡ true }
        ensures { self ≡ RulingType.Settle result }
    {
        match self {
            Ruling::Settle(settling) => settling,
            _ => unreachable!(),
        }
    }
}
