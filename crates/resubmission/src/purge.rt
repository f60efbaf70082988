//! The plan of a purge.

ghost use Rattle.std.specs.Prelude.{◌≡◌, ◌++◌, ◌&&◌, not, is_some, IfOk, OnOk};
ghost use Rattle.std.specs.Option.{option_copied};
ghost use Rattle.cluster_defs.specs.RecordAnswers.{ids_where};
ghost use Rattle.cluster_defs.specs.RecordPlans.{purge_list_in, purge_in};
ghost use Rattle.resubmission.specs.Wheres.{id_if};
ghost use Rattle.resubmission.specs.Purging.{purging_of};

use crate::distinct::once;
use crate::standing::{Standing, ids_that};
use cluster_types::message::Ids;
use cluster_types::record::{Record, Records};
use cluster_types::sequence::Sequence;
use std::alloc::{AllocError, Global};

/// What a purge comes to: all listed ids are dropped, or none. Each list is in the order of the request.
#[derive(Debug)]
pub enum PurgePlan {
    /// Nothing is dropped: these ids were never known, or are purged.
    Unknown(Ids),
    /// Nothing is dropped: these ids aren't settled, and all listed ones are known and not purged.
    Inflight(Ids),
    /// These ids are dropped.
    Drops(Ids),
}

// Written out, so that what lets one go is proved over one call, and not case by case.
impl Drop for PurgePlan {
    fn drop(self) {
        match self {
            PurgePlan::Unknown(it) => drop(it),
            PurgePlan::Inflight(it) => drop(it),
            PurgePlan::Drops(it) => drop(it),
        }
    }
}

/// Whether a record is settled and not purged.
fn is_kept(task: &Record) -> bool
    ensures { result ≡ (is_some task.now.settled && not task.now.purged) }
{
    task.settled.is_some() && !task.purged
}

/// Puts the id of a record that is settled and not purged at the end of a list.
fn push_kept(found: &mut Ids, task: Option<&Record>) -> Result<(), AllocError>
    ensures { OnOk result (found.new ≡ found.old ++ id_if (λ r. is_some r.settled && not r.purged) (option_copied task.entry)) }
{
    let Some(task) = task else {
        return Ok(());
    };
    if is_kept(task) {
        found.push(task.id.clone()?)?;
    }
    Ok(())
}

/// The settled ids that aren't purged, by number.
fn kept_ids<R: Records>(alloc: Global, table: &R) -> Result<Ids, AllocError>
    ensures { IfOk result (λ found. found ≡ ids_where (λ r. is_some r.settled && not r.purged) (R.records table.now)) }
{
    let mut found = Sequence::new(alloc);
    for place in 0..table.count() {
        push_kept(&mut found, table.at(place))?;
    }
    Ok(found)
}

/// The ids that a purge lists: with `all` every settled one that isn't purged, else each of `ids` once.
fn listed<R: Records>(alloc: Global, table: &R, all: bool, ids: &Ids) -> Result<Ids, AllocError>
    ensures { IfOk result (λ list. list ≡ purge_list_in (R.records table.now) all ids.now) }
{
    if all {
        return kept_ids(alloc, table);
    }
    once(alloc, ids)
}

/// What a purge of these ids comes to.
fn plan_listed<R: Records>(alloc: Global, table: &R, ids: Ids) -> Result<PurgePlan, AllocError>
    ensures { IfOk result (λ p. purging_of p ≡ purge_in (R.records table.now) ids) }
{
    let gone = ids_that(alloc, table, Standing::Gone, &ids)?;
    if !gone.is_empty() {
        return Ok(PurgePlan::Unknown(gone));
    }
    let inflight = ids_that(alloc, table, Standing::Inflight, &ids)?;
    if !inflight.is_empty() {
        return Ok(PurgePlan::Inflight(inflight));
    }
    Ok(PurgePlan::Drops(ids))
}

/// What a purge comes to: with `all` of every settled id that isn't purged, else of these ids, where one that repeats
/// counts once, at its first place.
pub fn plan_purge<R: Records>(
    alloc: Global,
    table: &R,
    all: bool,
    ids: &Ids,
) -> Result<PurgePlan, AllocError>
    ensures { IfOk result (λ p. purging_of p ≡ purge_in (R.records table.now) (purge_list_in (R.records table.now) all ids.now)) }
{
    let list = listed(alloc, table, all, ids)?;
    plan_listed(alloc, table, list)
}
