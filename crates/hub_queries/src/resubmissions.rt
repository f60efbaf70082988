//! The answers to a purge and to a resubmission.

ghost use Rattle.std.specs.Prelude.{◌≡◌, ◌≢◌, ◌++◌, Some, IfOk, OnOk, map, string_bytes};
ghost use Rattle.cluster_defs.specs.Texts.{parted, text_member, resubmit_content};
ghost use Rattle.cluster_defs.specs.Purges.{Resubmitting, Makes};
ghost use Rattle.cluster_defs.specs.Queries.{limited, purge_answer, resubmit_answer};
ghost use Rattle.jupyter_header.specs.Comma.{comma};
ghost use Rattle.resubmission.specs.Plans.{copy_of, pair_of, refusal_of};
ghost use Rattle.resubmission.specs.Purging.{purging_of};

use crate::answer::ok_answer;
use crate::limits::{limited, plain, refusal};
use cluster_defs::answer::Answer;
use cluster_types::config::Channel;
use cluster_types::octets::Octets;
use cluster_types::sequence::Sequence;
use jupyter_header::contents::push_comma;
use jupyter_header::write::quoted;
use resubmission::plan::{Renamed, Renaming, ResubmitRefusal};
use resubmission::purge::PurgePlan;
use std::alloc::{AllocError, Global};

/// The answer to a purge, whatever its length.
fn whole_purge(alloc: Global, plan: &PurgePlan) -> Result<Answer, AllocError>
    ensures { IfOk result (λ a. a ≡ purge_answer (purging_of plan.now)) }
{
    match plan {
        PurgePlan::Unknown(ids) => refusal(alloc, "UnknownIds", "", ids),
        PurgePlan::Inflight(ids) => refusal(alloc, "Inflight", "", ids),
        PurgePlan::Drops(_) => ok_answer(alloc),
    }
}

/// The answer to a purge that was asked on a channel. On the hub's channel an answer past a limit gives way to a
/// refusal, and the purge stands all the same.
pub fn purge_answer(alloc: Global, channel: Channel, plan: &PurgePlan) -> Result<Answer, AllocError>
    ensures { IfOk result (λ a. a ≡ limited channel (purge_answer (purging_of plan.now))) }
{
    let whole = whole_purge(alloc, plan)?;
    limited(alloc, channel, whole)
}

/// Appends an old and a new id, with the comma before the item at a place.
fn push_renaming(
    text: &mut String,
    alloc: Global,
    place: usize,
    renaming: &Renaming,
) -> Result<(), AllocError>
    ensures { OnOk result (string_bytes text.new ≡ string_bytes text.old ++ (comma place ++ text_member (pair_of renaming.now))) }
{
    let old = quoted(alloc, renaming.old.as_str())?;
    let new = quoted(alloc, renaming.new.as_str())?;
    push_comma(text, place)?;
    text.push_str(old.as_str())?;
    text.push_str(":")?;
    text.push_str(new.as_str())
}

/// Appends the old and the new ids, parted by commas.
fn push_renamed(text: &mut String, alloc: Global, renamed: &Renamed) -> Result<(), AllocError>
    ensures { OnOk result (string_bytes text.new ≡ string_bytes text.old ++ parted (map (λ r. text_member (pair_of r)) renamed.now)) }
{
    for (place, renaming) in renamed.as_slice().iter().enumerate() {
        push_renaming(text, alloc, place, renaming)?;
    }
    Ok(())
}

/// The content that tells the new ids.
fn renamed_text(alloc: Global, renamed: &Renamed) -> Result<String, AllocError>
    ensures { IfOk result (λ s. string_bytes s ≡ resubmit_content (map (λ c. (c.old, c.new)) (map copy_of renamed.now))) }
{
    let mut text = String::from_str(alloc, "{\"status\":\"ok\",\"resubmitted\":{")?;
    push_renamed(&mut text, alloc, renamed)?;
    text.push_str("}")?;
    text.push_str("}")?;
    Ok(text)
}

/// The answer to a resubmission that makes these tasks.
pub fn renamed_answer(
    alloc: Global,
    channel: Channel,
    renamed: &Renamed,
) -> Result<Answer, AllocError>
    ensures { IfOk result (λ a. a ≡ limited channel (resubmit_answer (Makes (map copy_of renamed.now)))) }
{
    let text = renamed_text(alloc, renamed)?;
    let whole = plain(alloc, Octets::from_string(text)?);
    limited(alloc, channel, whole)
}

/// The refusal of a resubmission, whatever its length.
fn whole_refusal(alloc: Global, refused: &ResubmitRefusal) -> Result<Answer, AllocError>
    requires { refused.now ≢ ResubmitRefusal.OutOfMemory }
    ensures { (what : Resubmitting) → refusal_of what ≡ Some refused.now → IfOk result (λ a. a ≡ resubmit_answer what) }
{
    match refused {
        ResubmitRefusal::Unknown(ids) => refusal(alloc, "UnknownIds", "", ids),
        ResubmitRefusal::Purged(ids) => refusal(alloc, "Purged", "", ids),
        ResubmitRefusal::Inflight(ids) => refusal(alloc, "Inflight", "", ids),
        ResubmitRefusal::TableFull => {
            refusal(alloc, "TableFull", "2000000", &Sequence::new(alloc))
        }
        ResubmitRefusal::OutOfMemory => unreachable!(),
    }
}

/// The answer to a resubmission that is refused for another reason than want of memory.
pub fn refused_answer(
    alloc: Global,
    channel: Channel,
    refused: &ResubmitRefusal,
) -> Result<Answer, AllocError>
    requires { refused.now ≢ ResubmitRefusal.OutOfMemory }
    ensures { (what : Resubmitting) → refusal_of what ≡ Some refused.now → IfOk result (λ a. a ≡ limited channel (resubmit_answer what)) }
{
    let whole = whole_refusal(alloc, refused)?;
    limited(alloc, channel, whole)
}
