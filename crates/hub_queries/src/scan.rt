//! The ids of the records that pass a test, by number.

ghost use Rattle.std.specs.Prelude.{◌≡◌, ◌+◌, ◌<◌, ◌^◌, ◌++◌, Bool, List, length, IfOk, OnOk};
ghost use Rattle.std.specs.Option.{option_copied};
ghost use Rattle.cluster_defs.specs.RecordAnswers.{ids_where, waits_in};
ghost use Rattle.cluster_defs.specs.Words.{Id};
ghost use Rattle.hub_queries.specs.Kinds.{is_kind};
ghost use Rattle.resubmission.specs.Wheres.{id_if};
ghost use Rattle.hub_queries.specs.Tallies.{tallied};

use crate::lengths::QueueCounts;
use crate::tally::Tally;
use cluster_types::record::{Record, Records};
use std::alloc::{AllocError, Global};

/// Which records are listed.
#[derive(Clone, Copy, Debug, PartialEq, Eq)]
pub enum ListedKind {
    /// Those that aren't purged.
    Kept,
    /// Those that are for any engine, unsettled and without a current attempt.
    Waiting,
}

/// Whether a record is of a kind.
fn is_kind(kind: ListedKind, task: &Record) -> bool
    ensures { result ≡ is_kind kind task.now }
{
    match kind {
        ListedKind::Kept => !task.purged,
        ListedKind::Waiting => task.settled.is_none() && !task.running && !task.direct,
    }
}

/// Adds the id of a record that is of a kind.
fn add_kind(
    tally: &mut Tally,
    alloc: Global,
    kind: ListedKind,
    task: Option<&Record>,
) -> Result<(), AllocError>
    ensures { (verbose : Bool) (ids : List Id) → length ids + 1 < 2 ^ 64 → tally.old ≡ tallied verbose ids → OnOk result (tally.new ≡ tallied verbose (ids ++ id_if (is_kind kind) (option_copied task.entry))) }
{
    let Some(task) = task else {
        return Ok(());
    };
    let wanted = is_kind(kind, task);
    tally.add_if(alloc, wanted, &task.id)
}

/// The ids of all records of a kind, by number.
pub fn tally_of<R: Records>(
    alloc: Global,
    table: &R,
    kind: ListedKind,
    verbose: bool,
) -> Result<Tally, AllocError>
    ensures { IfOk result (λ t. t ≡ tallied verbose (ids_where (λ r. is_kind kind r) (R.records table.now))) }
{
    let mut tally = Tally::new(alloc, verbose);
    for place in 0..table.count() {
        add_kind(&mut tally, alloc, kind, table.at(place))?;
    }
    Ok(tally)
}

/// The unsettled ids that are for any engine and without a current attempt. Without `verbose` no record is looked at where
/// their number is kept.
pub fn waiting<R: QueueCounts>(alloc: Global, table: &R, verbose: bool) -> Result<Tally, AllocError>
    ensures { IfOk result (λ t. t ≡ tallied verbose (ids_where waits_in (R.records table.now))) }
{
    if verbose {
        return tally_of(alloc, table, ListedKind::Waiting, true);
    }
    match table.waiting() {
        Some(count) => Ok(Tally::counted(alloc, count)),
        None => tally_of(alloc, table, ListedKind::Waiting, false),
    }
}
