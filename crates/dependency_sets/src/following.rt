//! Dependencies on what finished on one engine, and on different ones.

ghost use Rattle.std.specs.Prelude.{◌≡◌, find, option_map};
ghost use Rattle.std.specs.Option.{option_copied, is_some};
ghost use Rattle.std.specs.List.{list_any, list_all};
ghost use Rattle.cluster_defs.specs.Dependencies.{asked, met, on_engine, same_engine, apart, scattered};

use crate::dependencies::{is_asked, is_empty};
use crate::finished::Finished;
use cluster_defs::settled::Settled;
use cluster_types::event::Dep;
use cluster_types::message::Ids;
use cluster_types::text::Text;

/// How an id was settled, where it was on an engine.
fn settled_on<F: Finished>(finished: &F, engine: u32, id: &Text) -> Option<Settled>
    ensures { result ≡ on_engine engine (F.finished finished.now id.now) }
{
    match finished.settled(id) {
        Some(settled) if settled.engine == Some(engine) => Some(settled),
        _ => None,
    }
}

/// Whether an id finished on an engine, in a kind that is asked for.
fn is_asked_on<F: Finished>(dep: &Dep, finished: &F, engine: u32, id: &Text) -> bool
    ensures { result ≡ asked dep.now (on_engine engine (F.finished finished.now id.now)) }
{
    is_asked(dep, settled_on(finished, engine, id))
}

/// Whether each listed id did so.
fn all_asked_on<F: Finished>(dep: &Dep, finished: &F, engine: u32) -> bool
    ensures { result ≡ list_all (λ i. asked dep.now (on_engine engine (F.finished finished.now i))) dep.now.ids }
{
    dep.ids
        .as_slice()
        .iter()
        .all(|id| is_asked_on(dep, finished, engine, id))
}

/// Whether a listed id did so.
fn any_asked_on<F: Finished>(dep: &Dep, finished: &F, engine: u32) -> bool
    ensures { result ≡ list_any (λ i. asked dep.now (on_engine engine (F.finished finished.now i))) dep.now.ids }
{
    dep.ids
        .as_slice()
        .iter()
        .any(|id| is_asked_on(dep, finished, engine, id))
}

/// Whether a dependency is met by what finished on an engine.
pub fn is_met_on<F: Finished>(dep: &Dep, finished: &F, engine: u32) -> bool
    ensures { result ≡ met dep.now (λ i. on_engine engine (F.finished finished.now i)) }
{
    if is_empty(&dep.ids) {
        true
    } else if dep.all {
        all_asked_on(dep, finished, engine)
    } else {
        any_asked_on(dep, finished, engine)
    }
}

/// Whether the two are one engine.
fn is_same_engine(one: Option<u32>, other: Option<u32>) -> bool
    ensures { result ≡ same_engine one other }
{
    match one {
        Some(engine) => other == Some(engine),
        None => false,
    }
}

/// Whether two ids finished, and not on one engine.
fn are_apart(one: Option<Settled>, other: Option<Settled>) -> bool
    ensures { result ≡ apart one other }
{
    match (one, other) {
        (Some(one), Some(other)) => !is_same_engine(one.engine, other.engine),
        _ => false,
    }
}

/// Whether an id finished, and not on the engine of one that did.
fn is_apart_from<F: Finished>(finished: &F, one: Option<Settled>, id: &Text) -> bool
    ensures { result ≡ apart one (F.finished finished.now id.now) }
{
    are_apart(one, finished.settled(id))
}

/// Whether an id finished.
fn is_finished<F: Finished>(finished: &F, id: &Text) -> bool
    ensures { result ≡ is_some (F.finished finished.now id.now) }
{
    finished.settled(id).is_some()
}

/// The first of some ids that finished.
fn first_finished<'a, F: Finished>(finished: &F, ids: &'a Ids) -> Option<&'a Text>
    ensures { option_copied result ≡ find (λ i. is_some (F.finished finished.now i)) ids.now }
{
    ids.as_slice().iter().find(|id| is_finished(finished, id))
}

/// Whether one of some ids finished, and not on the engine of one that did.
fn any_apart<F: Finished>(finished: &F, one: Option<Settled>, ids: &Ids) -> bool
    ensures { result ≡ list_any (λ i. apart one (F.finished finished.now i)) ids.now }
{
    ids.as_slice()
        .iter()
        .any(|id| is_apart_from(finished, one, id))
}

/// Whether two of some ids finished on different engines: then one of them did on another than the first that finished.
pub fn is_scattered<F: Finished>(finished: &F, ids: &Ids) -> bool
    ensures { result ≡ scattered (F.finished finished.now) ids.now }
{
    match first_finished(finished, ids) {
        Some(first) => any_apart(finished, finished.settled(first), ids),
        None => false,
    }
}
