//! The contents of hub requests, registrations and echoes.

ghost use Rattle.std.specs.Prelude.{◌≡◌, ◌⊎◌, Ok, Err, Some, None, IfOk, IfErr, OnOk, IsSome, option_map, codes};
ghost use Rattle.serde_json.specs.Find.{get, as_str, as_array};
ghost use Rattle.jupyter_header.specs.Borrowed.{view, items_view};
ghost use Rattle.cluster_defs.specs.Fields.{whole_in};
ghost use Rattle.cluster_defs.specs.Hub.{request_of, queue_from, result_from, is_all, is_no_items, lists_none, none_listed, ids_or_all, purge_from, resubmit_from, abort_from, join_from, number_from, pong_from, unread, content_from, read_content, read_hub};

use crate::fields::{bad, flag_field, id_field, missing};
use crate::kinds::request_of;
use crate::lists::{id_list, ids_field, optional_engines};
use crate::object::read_object;
use crate::values::{get, is_null, items, text, whole};
use cluster_defs::content::HubContent;
use cluster_defs::fault::ReadError;
use cluster_defs::hub_request::RequestType;
use cluster_types::message::Ids;
use cluster_types::sequence::Sequence;
use json::{Scratch, Value};
use std::alloc::Global;

/// What a question about queues asks for.
fn queue_content(alloc: Global, value: &Value<'_>) -> Result<HubContent, ReadError>
    ensures ok { IfOk result (λ c. queue_from (view value.now) ≡ Ok c) }
    ensures err { IfErr result (λ e. (e ≡ ReadError.OutOfMemory) ⊎ (queue_from (view value.now) ≡ Err e)) }
{
    let targets = optional_engines(alloc, value, "targets")?;
    let verbose = flag_field(alloc, value, "verbose", false, "verbose")?;
    Ok(HubContent::Queue { targets, verbose })
}

/// What a question about results asks for.
fn result_content(alloc: Global, value: &Value<'_>) -> Result<HubContent, ReadError>
    ensures ok { IfOk result (λ c. result_from (view value.now) ≡ Ok c) }
    ensures err { IfErr result (λ e. (e ≡ ReadError.OutOfMemory) ⊎ (result_from (view value.now) ≡ Err e)) }
{
    let ids = ids_field(alloc, value, "msg_ids")?;
    let status_only = flag_field(alloc, value, "status_only", false, "status_only")?;
    Ok(HubContent::Result { ids, status_only })
}

/// Whether a value is the word that asks for all settled ids.
fn is_all(value: &Value<'_>) -> bool
    ensures { result ≡ is_all (as_str (view value.now)) }
{
    match text(value) {
        Some(word) => word == "all",
        None => false,
    }
}

/// The listed ids, with true where the word `all` stands in their place.
fn ids_or_all(alloc: Global, value: &Value<'_>) -> Result<(bool, Ids), ReadError>
    ensures ok { IfOk result (λ r. ids_or_all (get (codes "msg_ids") (view value.now)) ≡ Ok r) }
    ensures err { IfErr result (λ e. (e ≡ ReadError.OutOfMemory) ⊎ (ids_or_all (get (codes "msg_ids") (view value.now)) ≡ Err e)) }
{
    let Some(found) = get(value, "msg_ids") else {
        return Err(missing(alloc, "msg_ids"));
    };
    if is_all(found) {
        return Ok((true, Sequence::new(alloc)));
    }
    match id_list(alloc, found)? {
        Some(ids) => Ok((false, ids)),
        None => Err(bad(alloc, "msg_ids")),
    }
}

/// Whether there are no values.
fn is_none(values: &[Value<'_>]) -> bool
    ensures { result ≡ is_no_items (items_view values.now) }
{
    values.is_empty()
}

/// Whether a value is an empty list.
fn lists_none(value: &Value<'_>) -> bool
    ensures { result ≡ lists_none (as_array (view value.now)) }
{
    match items(value) {
        Some(values) => is_none(values),
        None => false,
    }
}

/// A field that may only be absent, null or an empty list.
fn none_listed(alloc: Global, value: &Value<'_>, field: &str) -> Result<(), ReadError>
    ensures ok { OnOk result (none_listed field.now (get field.now (view value.now)) ≡ Ok tt) }
    ensures err { IfErr result (λ e. (e ≡ ReadError.OutOfMemory) ⊎ (none_listed field.now (get field.now (view value.now)) ≡ Err e)) }
{
    let Some(found) = get(value, field) else {
        return Ok(());
    };
    if is_null(found) || lists_none(found) {
        return Ok(());
    }
    Err(bad(alloc, field))
}

/// What a purge lists.
fn purge_content(alloc: Global, value: &Value<'_>) -> Result<HubContent, ReadError>
    ensures ok { IfOk result (λ c. purge_from (view value.now) ≡ Ok c) }
    ensures err { IfErr result (λ e. (e ≡ ReadError.OutOfMemory) ⊎ (purge_from (view value.now) ≡ Err e)) }
{
    let (all, ids) = ids_or_all(alloc, value)?;
    none_listed(alloc, value, "engine_ids")?;
    Ok(HubContent::Purge { all, ids })
}

/// What a resubmission lists.
fn resubmit_content(alloc: Global, value: &Value<'_>) -> Result<HubContent, ReadError>
    ensures ok { IfOk result (λ c. resubmit_from (view value.now) ≡ Ok c) }
    ensures err { IfErr result (λ e. (e ≡ ReadError.OutOfMemory) ⊎ (resubmit_from (view value.now) ≡ Err e)) }
{
    let ids = ids_field(alloc, value, "msg_ids")?;
    Ok(HubContent::Resubmit { ids })
}

/// What an abort lists.
fn abort_content(alloc: Global, value: &Value<'_>) -> Result<HubContent, ReadError>
    ensures ok { IfOk result (λ c. abort_from (view value.now) ≡ Ok c) }
    ensures err { IfErr result (λ e. (e ≡ ReadError.OutOfMemory) ⊎ (abort_from (view value.now) ≡ Err e)) }
{
    let ids = ids_field(alloc, value, "msg_ids")?;
    Ok(HubContent::Abort { ids })
}

/// The engine that a registration names.
fn join_content(alloc: Global, value: &Value<'_>) -> Result<HubContent, ReadError>
    ensures ok { IfOk result (λ c. join_from (view value.now) ≡ Ok c) }
    ensures err { IfErr result (λ e. (e ≡ ReadError.OutOfMemory) ⊎ (join_from (view value.now) ≡ Err e)) }
{
    let uuid = id_field(alloc, value, "uuid")?;
    Ok(HubContent::Join { uuid })
}

/// A whole number below 2^64, which has to be there.
fn number_field(alloc: Global, value: &Value<'_>, field: &str) -> Result<u64, ReadError>
    ensures ok { IfOk result (λ n. number_from field.now (get field.now (view value.now)) ≡ Ok n) }
    ensures err { IfErr result (λ e. (e ≡ ReadError.OutOfMemory) ⊎ (number_from field.now (get field.now (view value.now)) ≡ Err e)) }
{
    let Some(found) = get(value, field) else {
        return Err(missing(alloc, field));
    };
    match whole(found) {
        Some(n) => Ok(n),
        None => Err(bad(alloc, field)),
    }
}

/// The beat that an echo names.
fn pong_content(alloc: Global, value: &Value<'_>) -> Result<HubContent, ReadError>
    ensures ok { IfOk result (λ c. pong_from (view value.now) ≡ Ok c) }
    ensures err { IfErr result (λ e. (e ≡ ReadError.OutOfMemory) ⊎ (pong_from (view value.now) ≡ Err e)) }
{
    let beat = number_field(alloc, value, "beat")?;
    Ok(HubContent::Pong { beat })
}

/// The content of a request that says all by its type.
fn unread(request: RequestType) -> Option<HubContent>
    ensures { result ≡ unread request }
{
    match request {
        RequestType::Connection => Some(HubContent::Connection),
        RequestType::History => Some(HubContent::History),
        RequestType::Shutdown => Some(HubContent::Shutdown),
        _ => None,
    }
}

/// The content of a request by the object that it is.
fn read_fields(
    alloc: Global,
    request: RequestType,
    value: &Value<'_>,
) -> Result<HubContent, ReadError>
    ensures ok { IfOk result (λ c. content_from request (view value.now) ≡ Ok c) }
    ensures err { IfErr result (λ e. (e ≡ ReadError.OutOfMemory) ⊎ (content_from request (view value.now) ≡ Err e)) }
{
    match request {
        RequestType::Connection => Ok(HubContent::Connection),
        RequestType::History => Ok(HubContent::History),
        RequestType::Shutdown => Ok(HubContent::Shutdown),
        RequestType::Queue => queue_content(alloc, value),
        RequestType::Results => result_content(alloc, value),
        RequestType::Purge => purge_content(alloc, value),
        RequestType::Resubmit => resubmit_content(alloc, value),
        RequestType::Abort => abort_content(alloc, value),
        RequestType::Registration => join_content(alloc, value),
        RequestType::Beat => pong_content(alloc, value),
    }
}

/// The content of a request.
///
/// `connection_request`, `history_request` and `shutdown_request` say all by their type: their content isn't read.
#[tactic(auto, unfolding(cluster_defs::specs::Hub::read_content))]
pub fn read_content(
    alloc: Global,
    request: RequestType,
    content: &[u8],
    scratch: &mut Scratch,
) -> Result<HubContent, ReadError>
    ensures ok { IfOk result (λ c. read_content request content.now ≡ Ok c) }
    ensures err { IfErr result (λ e. (e ≡ ReadError.OutOfMemory) ⊎ (read_content request content.now ≡ Err e)) }
{
    if let Some(known) = unread(request) {
        return Ok(known);
    }
    let value = read_object(alloc, content, scratch)?;
    read_fields(alloc, request, &value)
}

/// The content of a message whose `msg_type` is that of a request.
pub fn read_hub(
    alloc: Global,
    msg_type: &str,
    content: &[u8],
    scratch: &mut Scratch,
) -> Result<HubContent, ReadError>
    requires { IsSome (request_of msg_type.now) }
    ensures ok { IfOk result (λ c. read_hub msg_type.now content.now ≡ Some (Ok c)) }
    ensures err { IfErr result (λ e. (e ≡ ReadError.OutOfMemory) ⊎ (read_hub msg_type.now content.now ≡ Some (Err e))) }
{
    let request = request_of(msg_type).unwrap();
    read_content(alloc, request, content, scratch)
}
