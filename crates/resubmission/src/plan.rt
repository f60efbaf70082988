//! The plan of a resubmission.

ghost use Rattle.std.specs.Prelude.{◌≡◌, ◌⊎◌, ◌+◌, ◌<◌, ◌^◌, ℕ, Some, IfOk, IfErr, OnOk, length, map, nat_lt};
ghost use Rattle.cluster_defs.specs.Texts.{resubmit_id};
ghost use Rattle.cluster_defs.specs.Words.{once, is_empty};
ghost use Rattle.cluster_defs.specs.Purges.{copies_from, Makes};
ghost use Rattle.cluster_defs.specs.RecordPlans.{resubmit_known_in, resubmit_in};
ghost use Rattle.resubmission.specs.Plans.{copy_of, refusal_of};

use crate::distinct::once;
use crate::standing::{Standing, ids_that};
use cluster_types::message::Ids;
use cluster_types::record::Records;
use cluster_types::sequence::Sequence;
use cluster_types::text::Text;
use std::alloc::{AllocError, Global};
use thiserror::Error;

/// A new id, with the old one whose request it gets.
#[derive(Debug, Drop)]
pub struct Renaming {
    pub old: Text,
    /// `resubmit:` and the number of the new task.
    pub new: Text,
}

/// The new ids that a resubmission makes, in the order of the request.
pub type Renamed = Sequence<Renaming>;

/// Why a resubmission makes no task. Each list has the ids concerned, in the order of the request.
#[derive(Debug, Error)]
pub enum ResubmitRefusal {
    /// These ids were never known.
    #[error("ids that were never known")]
    Unknown(Ids),
    /// These ids are purged, and all listed ones are known.
    #[error("ids that are purged")]
    Purged(Ids),
    /// These ids aren't settled, and all listed ones are known and not purged.
    #[error("ids that aren't settled")]
    Inflight(Ids),
    /// The known and the new ids would be more than there may be.
    #[error("more ids than there may be")]
    TableFull,
    /// There was no memory.
    #[error("out of memory")]
    OutOfMemory,
}

// Written out, so that what lets one go is proved over one call, and not case by case.
impl Drop for ResubmitRefusal {
    fn drop(self) {
        match self {
            ResubmitRefusal::Unknown(it) => drop(it),
            ResubmitRefusal::Purged(it) => drop(it),
            ResubmitRefusal::Inflight(it) => drop(it),
            ResubmitRefusal::TableFull => {}
            ResubmitRefusal::OutOfMemory => {}
        }
    }
}

impl From<AllocError> for ResubmitRefusal {
    ghost use Rattle.std.specs.Prelude.{◌≡◌};
    ghost use Rattle.resubmission.specs.declared.plan.ResubmitRefusal.{ResubmitRefusal};

    ghost from_gives = { λ _ e. e ≡ ResubmitRefusal.OutOfMemory };

    fn from(_: AllocError) -> Self {
        ResubmitRefusal::OutOfMemory
    }
}

/// The id of a task that is made by a resubmission, by its number.
#[tactic(auto, unfolding(cluster_defs::specs::Texts::resubmit_id))]
fn new_id(alloc: Global, number: u64) -> Result<Text, AllocError>
    ensures { IfOk result (λ t. t ≡ resubmit_id number) }
{
    let digits = number.to_string(alloc)?;
    let mut text = String::from_str(alloc, "resubmit:")?;
    text.push_str(digits.as_str())?;
    Text::from_string(text)
}

/// A new id for each old one, with the numbers that follow a number.
fn renamed(alloc: Global, last: u64, ids: &Ids) -> Result<Renamed, AllocError>
    requires { last + length ids.now < 2 ^ 64 }
    ensures { IfOk result (λ r. map copy_of r ≡ copies_from (last + 1) ids.now) }
{
    let mut renamed = Sequence::new(alloc);
    for (place, id) in ids.as_slice().iter().enumerate() {
        let new = new_id(alloc, last + place as u64 + 1)?;
        renamed.push(Renaming {
            old: id.clone()?,
            new,
        })?;
    }
    Ok(renamed)
}

/// Whether so many further ids would pass the limit.
fn passes(limit: u64, known: u64, further: u64) -> bool
    ensures { result ≡ nat_lt limit (known + further) }
{
    limit < known || limit - known < further
}

/// The plan for ids that are known and not purged.
fn plan_known<R: Records>(
    alloc: Global,
    table: &R,
    ids: &Ids,
    limit: u64,
) -> Result<Renamed, ResubmitRefusal>
    ensures ok { IfOk result (λ renamed. resubmit_known_in (R.records table.now) limit ids.now ≡ Makes (map copy_of renamed)) }
    ensures err { IfErr result (λ e. (e ≡ ResubmitRefusal.OutOfMemory) ⊎ (refusal_of (resubmit_known_in (R.records table.now) limit ids.now) ≡ Some e)) }
{
    let inflight = ids_that(alloc, table, Standing::Inflight, ids)?;
    if !inflight.is_empty() {
        return Err(ResubmitRefusal::Inflight(inflight));
    }
    let known = table.count() as u64;
    if passes(limit, known, ids.len() as u64) {
        return Err(ResubmitRefusal::TableFull);
    }
    Ok(renamed(alloc, known, ids)?)
}

/// The plan for ids without repeats.
fn plan_distinct<R: Records>(
    alloc: Global,
    table: &R,
    ids: &Ids,
    limit: u64,
) -> Result<Renamed, ResubmitRefusal>
    ensures ok { IfOk result (λ renamed. resubmit_in (R.records table.now) limit ids.now ≡ Makes (map copy_of renamed)) }
    ensures err { IfErr result (λ e. (e ≡ ResubmitRefusal.OutOfMemory) ⊎ (refusal_of (resubmit_in (R.records table.now) limit ids.now) ≡ Some e)) }
{
    let unknown = ids_that(alloc, table, Standing::Unknown, ids)?;
    if !unknown.is_empty() {
        return Err(ResubmitRefusal::Unknown(unknown));
    }
    let purged = ids_that(alloc, table, Standing::Purged, ids)?;
    if !purged.is_empty() {
        return Err(ResubmitRefusal::Purged(purged));
    }
    plan_known(alloc, table, ids, limit)
}

/// What a resubmission of these ids comes to, where so many ids may be known: a new id for each, or a refusal of all.
/// An id that repeats counts once, at its first place.
pub fn plan<R: Records>(
    alloc: Global,
    table: &R,
    ids: &Ids,
    limit: u64,
) -> Result<Renamed, ResubmitRefusal>
    ensures ok { IfOk result (λ renamed. resubmit_in (R.records table.now) limit (once ids.now) ≡ Makes (map copy_of renamed)) }
    ensures err { IfErr result (λ e. (e ≡ ResubmitRefusal.OutOfMemory) ⊎ (refusal_of (resubmit_in (R.records table.now) limit (once ids.now)) ≡ Some e)) }
{
    let distinct = once(alloc, ids)?;
    let renamed = plan_distinct(alloc, table, &distinct, limit)?;
    Ok(renamed)
}
