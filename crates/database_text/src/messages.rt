//! Messages without what is let go.

ghost use Rattle.std.specs.Prelude.{◌≡◌, IfOk};
ghost use Rattle.cluster_defs.specs.Thin.{no_content, short_reply, with_content};
ghost use Rattle.database_text.specs.Going.{purged_by, gone_by};
ghost use Rattle.database_text.specs.Thinning.{thin_message};

use crate::going::Going;
use crate::notes::Note;
use cluster_types::message::Buffers;
use cluster_types::shared_message::SharedMessage;
use std::alloc::{AllocError, Global};

/// A message with another content and no buffers.
fn with_content(
    alloc: Global,
    message: &SharedMessage,
    content: &[u8],
) -> Result<SharedMessage, AllocError>
    ensures { IfOk result (λ m. m ≡ with_content content.now message.now) }
{
    SharedMessage::new(
        alloc,
        message.target(),
        message.header(),
        message.parent(),
        message.metadata(),
        content,
        Buffers::new(alloc),
    )
}

/// What stands for the content of a request.
#[tactic(auto, unfolding(cluster_defs::specs::Thin::no_content))]
fn no_content() -> &'static [u8]
    ensures { result.now ≡ no_content }
{
    b"{}"
}

/// What stands for the content of a reply.
#[tactic(auto, unfolding(cluster_defs::specs::Thin::short_reply))]
fn short_reply(ok: bool) -> &'static [u8]
    ensures { result.now ≡ short_reply ok }
{
    if ok {
        b"{\"status\":\"ok\"}"
    } else {
        b"{\"status\":\"error\"}"
    }
}

/// The message of an entry that does this, without what is let go. One that stays whole shares its octets.
pub fn thin_message(
    alloc: Global,
    going: &Going,
    note: &Note,
    message: &SharedMessage,
) -> Result<SharedMessage, AllocError>
    ensures { IfOk result (λ m. m ≡ thin_message (gone_by going.now) (purged_by going.now) note.now message.now) }
{
    match note {
        Note::Accepts(id) if going.lets_go(id) => with_content(alloc, message, no_content()),
        Note::Answers { id, ok } if going.is_purged(id) => {
            with_content(alloc, message, short_reply(*ok))
        }
        _ => message.clone(),
    }
}
