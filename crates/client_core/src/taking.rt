//! What messages are to a client.

ghost use Rattle.std.specs.Prelude.{◌≡◌, false, Some, IfOk};
ghost use Rattle.client_core.specs.Clients.{settled_in, used_in};
ghost use Rattle.client_core.specs.Taking.{took, took_for};

use crate::answers::{status_in, task_in, type_in};
use crate::stand::Stand;
use crate::task::Task;
use crate::took::Took;
use crate::used::stand_in;
use cluster_types::shared_message::SharedMessage;
use cluster_types::text::Text;
use json::Scratch;
use std::alloc::{AllocError, Global};
use std::collections::BTreeMap;

/// The type of the refusal of a request.
const SUBMIT_REFUSED: &str = "submit_refused";

/// What a message about the task of an unsettled id is.
#[tactic(auto, unfolding(cluster_defs::specs::Texts::submit_refused))]
fn took_unsettled(
    alloc: Global,
    content: &[u8],
    msg_type: &Text,
    id: Text,
    scratch: &mut Scratch,
) -> Result<Took, AllocError>
    ensures { IfOk result (λ t. t ≡ took_for content.now msg_type.now id (Some false)) }
{
    if msg_type.as_str() == SUBMIT_REFUSED {
        return Ok(Took::Other);
    }
    match status_in(alloc, content, scratch)? {
        Some(ok) => Ok(Took::Settled { id, ok }),
        None => Ok(Took::Other),
    }
}

/// What a message of a type about the task of an id is, which is looked up once.
fn took_for<W>(
    alloc: Global,
    used: &BTreeMap<String, Task<W>>,
    content: &[u8],
    msg_type: &Text,
    id: Text,
    scratch: &mut Scratch,
) -> Result<Took, AllocError>
    ensures { IfOk result (λ t. t ≡ took_for content.now msg_type.now id (settled_in (used_in used.now.entries) id)) }
{
    match stand_in(used, id.as_str()) {
        None => Ok(Took::Stranger),
        Some(Stand::Settled(_)) => Ok(Took::Other),
        Some(Stand::Unsettled { watched: _ }) => {
            took_unsettled(alloc, content, msg_type, id, scratch)
        }
    }
}

/// What a message is to a client that used these ids.
#[tactic(auto, unfolding(crate::specs::Taking::took))]
pub fn took<W>(
    alloc: Global,
    used: &BTreeMap<String, Task<W>>,
    message: &SharedMessage,
    scratch: &mut Scratch,
) -> Result<Took, AllocError>
    ensures { IfOk result (λ t. t ≡ took (used_in used.now.entries) message.now) }
{
    let Some(msg_type) = type_in(alloc, message.header(), scratch)? else {
        return Ok(Took::Stranger);
    };
    let Some(id) = task_in(alloc, message.parent(), scratch)? else {
        return Ok(Took::Stranger);
    };
    took_for(alloc, used, message.content(), &msg_type, id, scratch)
}
