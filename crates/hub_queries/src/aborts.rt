//! The answer to an abort.

ghost use Rattle.std.specs.Prelude.{◌≡◌, IfOk, string_bytes};
ghost use Rattle.cluster_defs.specs.Texts.{abort_content};
ghost use Rattle.cluster_defs.specs.Queries.{plain, limited, abort_answer};
ghost use Rattle.resubmission.specs.Aborting.{aborting_of};

use crate::limits::{limited, plain, refusal};
use cluster_defs::answer::Answer;
use cluster_types::config::Channel;
use cluster_types::message::Ids;
use cluster_types::octets::Octets;
use jupyter_header::contents::texts_list;
use resubmission::abort::AbortPlan;
use std::alloc::{AllocError, Global};

/// The content that tells which ids are taken back.
#[tactic(auto, unfolding(cluster_defs::specs::Texts::abort_content))]
fn aborted_text(alloc: Global, ids: &Ids) -> Result<String, AllocError>
    ensures { IfOk result (λ s. string_bytes s ≡ abort_content ids.now) }
{
    let list = texts_list(alloc, ids)?;
    let mut text = String::from_str(alloc, "{\"status\":\"ok\",\"aborted\":")?;
    text.push_str(list.as_str())?;
    text.push_str("}")?;
    Ok(text)
}

/// The answer to an abort that takes these ids back.
fn aborted_answer(alloc: Global, ids: &Ids) -> Result<Answer, AllocError>
    ensures { IfOk result (λ a. a ≡ plain (abort_content ids.now)) }
{
    let text = aborted_text(alloc, ids)?;
    Ok(plain(alloc, Octets::from_string(text)?))
}

/// The answer to an abort, whatever its length.
fn whole_abort(alloc: Global, plan: &AbortPlan) -> Result<Answer, AllocError>
    ensures { IfOk result (λ a. a ≡ abort_answer (aborting_of plan.now)) }
{
    match plan {
        AbortPlan::Unknown(ids) => refusal(alloc, "UnknownIds", "", ids),
        AbortPlan::TakesBack(ids) => aborted_answer(alloc, ids),
    }
}

/// The answer to an abort that was asked on a channel. On the hub's channel an answer past a limit gives way to a refusal, and
/// the abort stands all the same.
pub fn abort_answer(alloc: Global, channel: Channel, plan: &AbortPlan) -> Result<Answer, AllocError>
    ensures { IfOk result (λ a. a ≡ limited channel (abort_answer (aborting_of plan.now))) }
{
    let whole = whole_abort(alloc, plan)?;
    limited(alloc, channel, whole)
}
