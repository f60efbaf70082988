//! What the program's client asks of a controller.

ghost use Rattle.std.specs.Prelude.{◌≡◌, ◌≤◌, [], IfOk, string_bytes};
ghost use Rattle.client_core.specs.Identifier.{client_id};
ghost use Rattle.client_core.specs.Messages.{task_request, hub_request, message_under};
ghost use Rattle.client_core.specs.Metadata.{plain_meta};
ghost use Rattle.cluster_types.specs.Limits.{last_moment};
ghost use Rattle.link_commands.specs.Actions.{session, about, channel_for, message_for};

use client_core::client::Client;
use client_core::error::SubmitError;
use client_core::metadata::plain_meta;
use cluster_types::message::Ids;
use cluster_types::shared_message::SharedMessage;
use cluster_types::text::Text;
use command_words::standing::Action;
use jupyter_header::contents::texts_list;
use std::alloc::{AllocError, Global};

/// The session of the program's client.
const SESSION: &str = "client";

/// The content that names one task.
#[tactic(auto, unfolding(crate::specs::Actions::about))]
fn about(alloc: Global, id: &Text) -> Result<String, AllocError>
    ensures { IfOk result (λ s. string_bytes s ≡ about id.now) }
{
    let mut ids = Ids::new(alloc);
    ids.push(Text::new(alloc, id.as_str())?)?;
    let list = texts_list(alloc, &ids)?;
    let mut text = String::from_str(alloc, "{\"msg_ids\":")?;
    text.push_str(list.as_str())?;
    text.push_str("}")?;
    Ok(text)
}

/// The request to run a program.
#[tactic(auto, unfolding(crate::specs::Actions::session))]
fn run_request(
    alloc: Global,
    code: &Text,
    random: [u8; 16],
    moment: u64,
) -> Result<SharedMessage, AllocError>
    requires { moment ≤ last_moment }
    ensures { IfOk result (λ m. m ≡ message_under session (client_id random) moment (task_request plain_meta code.now)) }
{
    let meta = plain_meta(alloc);
    let mut client = Client::new(alloc, SESSION)?;
    match client.submit(code.as_str(), &meta, random, moment) {
        Ok(message) => Ok(message),
        Err(SubmitError::OutOfMemory) => Err(AllocError),
        Err(SubmitError::KnownId) => unreachable!(),
    }
}

/// A request to the hub.
#[tactic(auto, unfolding(crate::specs::Actions::session))]
fn hub_request(
    alloc: Global,
    msg_type: &str,
    content: &str,
    random: [u8; 16],
    moment: u64,
) -> Result<SharedMessage, AllocError>
    requires { moment ≤ last_moment }
    ensures { IfOk result (λ m. m ≡ message_under session (client_id random) moment (hub_request msg_type.now content.now)) }
{
    let client = Client::new(alloc, SESSION)?;
    client.ask(msg_type, content, random, moment)
}

/// A request to the hub about one task.
fn request_about(
    alloc: Global,
    msg_type: &str,
    id: &Text,
    random: [u8; 16],
    moment: u64,
) -> Result<SharedMessage, AllocError>
    requires { moment ≤ last_moment }
    ensures { IfOk result (λ m. m ≡ message_under session (client_id random) moment (hub_request msg_type.now (about id.now))) }
{
    let content = about(alloc, id)?;
    hub_request(alloc, msg_type, content.as_str(), random, moment)
}

/// The channel on which an action is asked for.
pub fn channel_for(action: &Action) -> u8
    ensures { result ≡ channel_for action.now }
{
    match action {
        Action::Run { .. } => 1,
        _ => 0,
    }
}

/// The message for an action, under the id of random octets.
#[tactic(auto, unfolding(crate::specs::Actions::result_request, crate::specs::Actions::purge_request, crate::specs::Actions::resubmit_request, crate::specs::Actions::abort_request, crate::specs::Actions::queue_request, crate::specs::Actions::history_request, crate::specs::Actions::shutdown_request, cluster_defs::specs::Texts::empty_object))]
pub fn message_for(
    alloc: Global,
    action: &Action,
    random: [u8; 16],
    moment: u64,
) -> Result<SharedMessage, AllocError>
    requires { moment ≤ last_moment }
    ensures value { IfOk result (λ m. m ≡ message_for random moment action.now) }
    ensures target { IfOk result (λ m. m.target ≡ []) }
{
    match action {
        Action::Run { code } => run_request(alloc, code, random, moment),
        Action::Result { id } => request_about(alloc, "result_request", id, random, moment),
        Action::Purge { id } => request_about(alloc, "purge_request", id, random, moment),
        Action::Resubmit { id } => request_about(alloc, "resubmit_request", id, random, moment),
        Action::Abort { id } => request_about(alloc, "abort_request", id, random, moment),
        Action::Queue => hub_request(alloc, "queue_request", "{}", random, moment),
        Action::History => hub_request(alloc, "history_request", "{}", random, moment),
        Action::Shutdown => hub_request(alloc, "shutdown_request", "{}", random, moment),
    }
}
