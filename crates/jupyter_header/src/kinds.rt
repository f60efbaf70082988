//! What a `msg_type` tells.

ghost use Rattle.std.specs.Prelude.{◌≡◌, IfOk};
ghost use Rattle.cluster_defs.specs.Event.{is_request, is_reply, is_leave, is_db};
ghost use Rattle.cluster_defs.specs.Hub.{request_of};
ghost use Rattle.cluster_defs.specs.Texts.{stem_of, reply_type};

use cluster_defs::hub_request::RequestType;
use cluster_types::text::Text;
use std::alloc::{AllocError, Global};

/// Whether it ends in `_request`.
#[tactic(auto, unfolding(cluster_defs::specs::Event::is_request))]
pub fn is_request(msg_type: &Text) -> bool
    ensures { result ≡ is_request msg_type.now }
{
    msg_type.as_slice().ends_with(b"_request")
}

/// Whether it ends in `_reply`.
#[tactic(auto, unfolding(cluster_defs::specs::Event::is_reply))]
pub fn is_reply(msg_type: &Text) -> bool
    ensures { result ≡ is_reply msg_type.now }
{
    msg_type.as_slice().ends_with(b"_reply")
}

/// Whether it is `unregistration_request`.
#[tactic(auto, unfolding(cluster_defs::specs::Event::is_leave))]
pub fn is_leave(msg_type: &Text) -> bool
    ensures { result ≡ is_leave msg_type.now }
{
    msg_type.as_str() == "unregistration_request"
}

/// Whether it is `db_request`.
#[tactic(auto, unfolding(cluster_defs::specs::Event::is_db))]
pub fn is_db(msg_type: &Text) -> bool
    ensures { result ≡ is_db msg_type.now }
{
    msg_type.as_str() == "db_request"
}

/// The request whose content is read that it names.
#[tactic(auto, unfolding(cluster_defs::specs::Hub::request_of))]
pub fn request_of(msg_type: &str) -> Option<RequestType>
    ensures { result ≡ request_of msg_type.now }
{
    if msg_type == "connection_request" {
        Some(RequestType::Connection)
    } else if msg_type == "queue_request" {
        Some(RequestType::Queue)
    } else if msg_type == "result_request" {
        Some(RequestType::Results)
    } else if msg_type == "history_request" {
        Some(RequestType::History)
    } else if msg_type == "shutdown_request" {
        Some(RequestType::Shutdown)
    } else if msg_type == "purge_request" {
        Some(RequestType::Purge)
    } else if msg_type == "resubmit_request" {
        Some(RequestType::Resubmit)
    } else if msg_type == "abort_request" {
        Some(RequestType::Abort)
    } else if msg_type == "registration_request" {
        Some(RequestType::Registration)
    } else if msg_type == "beat_reply" {
        Some(RequestType::Beat)
    } else {
        None
    }
}

/// A type without `_request` at its end, if it has that.
fn stem_of(msg_type: &str) -> &str
    ensures { result.now ≡ stem_of msg_type.now }
{
    match msg_type.strip_suffix("_request") {
        Some(stem) => stem,
        None => msg_type,
    }
}

/// The type of the answer to a message: `_reply` in the place of `_request`, else appended.
#[tactic(auto, unfolding(cluster_defs::specs::Texts::reply_type))]
pub fn reply_type(alloc: Global, msg_type: &Text) -> Result<Text, AllocError>
    ensures { IfOk result (λ t. t ≡ reply_type msg_type.now) }
{
    let mut text = String::from_str(alloc, stem_of(msg_type.as_str()))?;
    text.push_str("_reply")?;
    Text::from_string(text)
}
