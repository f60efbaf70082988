//! How listed ids stand, by their records.

ghost use Rattle.std.specs.Prelude.{◌≡◌, IfOk, filter};
ghost use Rattle.std.specs.Option.{option_copied};
ghost use Rattle.cluster_defs.specs.RecordAnswers.{record_in};
ghost use Rattle.resubmission.specs.Standings.{stands};

use cluster_types::message::Ids;
use cluster_types::record::{Record, Records};
use cluster_types::sequence::Sequence;
use cluster_types::text::Text;
use jupyter_header::distinct::push_if;
use std::alloc::{AllocError, Global};

/// How an id may stand.
#[derive(Clone, Copy, Debug, PartialEq, Eq)]
pub enum Standing {
    /// It was never known.
    Unknown,
    /// It was never known, or is purged.
    Gone,
    /// It is known and purged.
    Purged,
    /// It isn't settled, which holds of an unknown id too.
    Inflight,
    Settled,
}

/// Whether an id that has this record, or none, stands so.
pub fn stands(standing: Standing, found: Option<&Record>) -> bool
    ensures { result ≡ stands standing (option_copied found.entry) }
{
    match (standing, found) {
        (Standing::Unknown, None) => true,
        (Standing::Gone, None) => true,
        (Standing::Purged, None) => false,
        (Standing::Inflight, None) => true,
        (Standing::Settled, None) => false,
        (Standing::Unknown, Some(_)) => false,
        (Standing::Gone | Standing::Purged, Some(record)) => record.purged,
        (Standing::Inflight, Some(record)) => record.settled.is_none(),
        (Standing::Settled, Some(record)) => record.settled.is_some(),
    }
}

/// Those of the ids that stand so, in order.
pub fn ids_that<R: Records>(
    alloc: Global,
    table: &R,
    standing: Standing,
    ids: &Ids,
) -> Result<Ids, AllocError>
    ensures { IfOk result (λ found. found ≡ filter (λ id. stands standing (record_in (R.records table.now) id)) ids.now) }
{
    let mut found = Sequence::new(alloc);
    for id in ids.as_slice() {
        let wanted = stands(standing, table.find(id));
        push_if(&mut found, wanted, id)?;
    }
    Ok(found)
}
