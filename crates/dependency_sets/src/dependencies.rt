//! Dependencies that are met, and that can't be met any more.

ghost use Rattle.std.specs.Prelude.{◌≡◌, ◌&&◌, not, option_map};
ghost use Rattle.std.specs.List.{list_any, list_all};
ghost use Rattle.cluster_defs.specs.Words.{is_empty};
ghost use Rattle.cluster_defs.specs.Dependencies.{asked, other_kind, met, unreachable};

use crate::finished::Finished;
use cluster_defs::settled::Settled;
use cluster_types::event::Dep;
use cluster_types::message::Ids;
use cluster_types::text::Text;

/// Whether no id is listed.
#[tactic(auto, using(crate::proofs::Lists::none_listed))]
pub fn is_empty(ids: &Ids) -> bool
    ensures { result ≡ is_empty ids.now }
{
    ids.is_empty()
}

/// Whether it finished in a kind that is asked for.
pub fn is_asked(dep: &Dep, settled: Option<Settled>) -> bool
    ensures { result ≡ asked dep.now settled }
{
    match settled {
        Some(settled) => {
            if settled.verdict.completed() {
                dep.success
            } else {
                dep.failure
            }
        }
        None => false,
    }
}

/// Whether it finished in a kind that isn't asked for.
fn is_other_kind(dep: &Dep, settled: Option<Settled>) -> bool
    ensures { result ≡ other_kind dep.now settled }
{
    settled.is_some() && !is_asked(dep, settled)
}

/// Whether an id finished in a kind that is asked for.
fn is_asked_of<F: Finished>(dep: &Dep, finished: &F, id: &Text) -> bool
    ensures { result ≡ asked dep.now (F.finished finished.now id.now) }
{
    is_asked(dep, finished.settled(id))
}

/// Whether each listed id did so.
fn all_asked<F: Finished>(dep: &Dep, finished: &F) -> bool
    ensures { result ≡ list_all (λ i. asked dep.now (F.finished finished.now i)) dep.now.ids }
{
    dep.ids
        .as_slice()
        .iter()
        .all(|id| is_asked_of(dep, finished, id))
}

/// Whether a listed id did so.
fn any_asked<F: Finished>(dep: &Dep, finished: &F) -> bool
    ensures { result ≡ list_any (λ i. asked dep.now (F.finished finished.now i)) dep.now.ids }
{
    dep.ids
        .as_slice()
        .iter()
        .any(|id| is_asked_of(dep, finished, id))
}

/// Whether a dependency is met.
pub fn is_met<F: Finished>(dep: &Dep, finished: &F) -> bool
    ensures { result ≡ met dep.now (F.finished finished.now) }
{
    if is_empty(&dep.ids) {
        true
    } else if dep.all {
        all_asked(dep, finished)
    } else {
        any_asked(dep, finished)
    }
}

/// Whether an id finished in a kind that isn't asked for.
fn is_other_kind_of<F: Finished>(dep: &Dep, finished: &F, id: &Text) -> bool
    ensures { result ≡ other_kind dep.now (F.finished finished.now id.now) }
{
    is_other_kind(dep, finished.settled(id))
}

/// Whether each listed id did so.
fn all_other_kind<F: Finished>(dep: &Dep, finished: &F) -> bool
    ensures { result ≡ list_all (λ i. other_kind dep.now (F.finished finished.now i)) dep.now.ids }
{
    dep.ids
        .as_slice()
        .iter()
        .all(|id| is_other_kind_of(dep, finished, id))
}

/// Whether a listed id did so.
fn any_other_kind<F: Finished>(dep: &Dep, finished: &F) -> bool
    ensures { result ≡ list_any (λ i. other_kind dep.now (F.finished finished.now i)) dep.now.ids }
{
    dep.ids
        .as_slice()
        .iter()
        .any(|id| is_other_kind_of(dep, finished, id))
}

/// Whether a dependency can't be met any more.
pub fn is_unreachable<F: Finished>(dep: &Dep, finished: &F) -> bool
    ensures { result ≡ unreachable dep.now (F.finished finished.now) }
{
    if is_empty(&dep.ids) {
        false
    } else if dep.all {
        any_other_kind(dep, finished)
    } else {
        all_other_kind(dep, finished)
    }
}
