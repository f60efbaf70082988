//! What an engine's reply to a task says.

ghost use Rattle.std.specs.Prelude.{◌≡◌, ◌⊎◌, Ok, Err, IfOk, IfErr, option_map, option_and_then, codes};
ghost use Rattle.serde_json.specs.Find.{get, as_str, as_bool};
ghost use Rattle.jupyter_header.specs.Borrowed.{view};
ghost use Rattle.cluster_defs.specs.Reply.{is_false, status_of, status_from, read_task, read_declined, read_status, read_reply};

use crate::fields::{bad, id_field, missing};
use crate::object::read_object;
use crate::values::{flag, get, text};
use cluster_defs::content::ReplyMeta;
use cluster_defs::fault::ReadError;
use cluster_types::text::Text;
use json::{Scratch, Value};
use std::alloc::Global;

/// The id of the task, from the header of the request.
#[tactic(auto, unfolding(cluster_defs::specs::Reply::read_task))]
fn read_task(alloc: Global, parent: &[u8], scratch: &mut Scratch) -> Result<Text, ReadError>
    ensures ok { IfOk result (λ t. read_task parent.now ≡ Ok t) }
    ensures err { IfErr result (λ e. (e ≡ ReadError.OutOfMemory) ⊎ (read_task parent.now ≡ Err e)) }
{
    let value = read_object(alloc, parent, scratch)?;
    id_field(alloc, &value, "msg_id")
}

/// Whether `dependencies_met` is false.
fn is_declined(value: &Value<'_>) -> bool
    ensures { result ≡ is_false (option_and_then as_bool (get (codes "dependencies_met") (view value.now))) }
{
    matches!(get(value, "dependencies_met").and_then(flag), Some(false))
}

/// Whether the engine declined the task.
#[tactic(auto, unfolding(cluster_defs::specs::Reply::read_declined))]
fn read_declined(alloc: Global, metadata: &[u8], scratch: &mut Scratch) -> Result<bool, ReadError>
    ensures ok { IfOk result (λ b. read_declined metadata.now ≡ Ok b) }
    ensures err { IfErr result (λ e. (e ≡ ReadError.OutOfMemory) ⊎ (read_declined metadata.now ≡ Err e)) }
{
    let value = read_object(alloc, metadata, scratch)?;
    Ok(is_declined(&value))
}

/// What a status says: true for `ok`, false for a word for an error.
fn status_of(word: Option<&str>) -> Option<bool>
    ensures { result ≡ status_of (option_map (λ w. w.now) word.entry) }
{
    match word {
        Some("ok") => Some(true),
        Some("error" | "abort" | "aborted") => Some(false),
        _ => None,
    }
}

/// The status of a content.
fn status_field(alloc: Global, value: &Value<'_>) -> Result<bool, ReadError>
    ensures ok { IfOk result (λ b. status_from (get (codes "status") (view value.now)) ≡ Ok b) }
    ensures err { IfErr result (λ e. (e ≡ ReadError.OutOfMemory) ⊎ (status_from (get (codes "status") (view value.now)) ≡ Err e)) }
{
    let Some(found) = get(value, "status") else {
        return Err(missing(alloc, "status"));
    };
    match status_of(text(found)) {
        Some(ok) => Ok(ok),
        None => Err(bad(alloc, "status")),
    }
}

/// Whether the task ran without an error.
#[tactic(auto, unfolding(cluster_defs::specs::Reply::read_status))]
fn read_status(alloc: Global, content: &[u8], scratch: &mut Scratch) -> Result<bool, ReadError>
    ensures ok { IfOk result (λ b. read_status content.now ≡ Ok b) }
    ensures err { IfErr result (λ e. (e ≡ ReadError.OutOfMemory) ⊎ (read_status content.now ≡ Err e)) }
{
    let value = read_object(alloc, content, scratch)?;
    status_field(alloc, &value)
}

/// What a reply says by its parent header, its metadata and its content, which are read in this order.
pub fn read_reply(
    alloc: Global,
    parent: &[u8],
    metadata: &[u8],
    content: &[u8],
    scratch: &mut Scratch,
) -> Result<ReplyMeta, ReadError>
    ensures ok { IfOk result (λ m. read_reply parent.now metadata.now content.now ≡ Ok m) }
    ensures err { IfErr result (λ e. (e ≡ ReadError.OutOfMemory) ⊎ (read_reply parent.now metadata.now content.now ≡ Err e)) }
{
    let task = read_task(alloc, parent, scratch)?;
    let declined = read_declined(alloc, metadata, scratch)?;
    let ok = read_status(alloc, content, scratch)?;
    Ok(ReplyMeta { task, ok, declined })
}
