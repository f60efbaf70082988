//! The plan of an abort.

ghost use Rattle.std.specs.Prelude.{◌≡◌, IfOk};
ghost use Rattle.cluster_defs.specs.Words.{once};
ghost use Rattle.cluster_defs.specs.RecordPlans.{abort_in};
ghost use Rattle.resubmission.specs.Aborting.{aborting_of};

use crate::distinct::once;
use crate::standing::{Standing, ids_that};
use cluster_types::message::Ids;
use cluster_types::record::Records;
use std::alloc::{AllocError, Global};

/// What an abort comes to: it is refused whole, or takes back the unsettled ones of the listed ids. Each list is in the order
/// of the request.
#[derive(Debug)]
pub enum AbortPlan {
    /// Nothing is taken back: these ids were never known, or are purged.
    Unknown(Ids),
    /// These ids aren't settled, and are taken back.
    TakesBack(Ids),
}

// Written out, so that what lets one go is proved over one call, and not case by case.
impl Drop for AbortPlan {
    fn drop(self) {
        match self {
            AbortPlan::Unknown(it) => drop(it),
            AbortPlan::TakesBack(it) => drop(it),
        }
    }
}

/// What an abort of ids without repeats comes to.
fn plan_distinct<R: Records>(alloc: Global, table: &R, ids: &Ids) -> Result<AbortPlan, AllocError>
    ensures { IfOk result (λ p. aborting_of p ≡ abort_in (R.records table.now) ids.now) }
{
    let gone = ids_that(alloc, table, Standing::Gone, ids)?;
    if !gone.is_empty() {
        return Ok(AbortPlan::Unknown(gone));
    }
    let inflight = ids_that(alloc, table, Standing::Inflight, ids)?;
    Ok(AbortPlan::TakesBack(inflight))
}

/// What an abort of these ids comes to, where one that repeats counts once, at its first place.
pub fn plan_abort<R: Records>(alloc: Global, table: &R, ids: &Ids) -> Result<AbortPlan, AllocError>
    ensures { IfOk result (λ p. aborting_of p ≡ abort_in (R.records table.now) (once ids.now)) }
{
    let distinct = once(alloc, ids)?;
    let plan = plan_distinct(alloc, table, &distinct)?;
    Ok(plan)
}
