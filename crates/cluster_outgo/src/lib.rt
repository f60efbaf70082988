//! The frames of outs.
#![tactic(auto)]

ghost use Rattle.std.specs.Prelude.{◌≡◌, ◌≤◌, IfOk};
ghost use Rattle.cluster_types.specs.Limits.{last_moment};
ghost use Rattle.edges.specs.Date.{date_of};
ghost use Rattle.cluster_defs.specs.Sent.{sent_message};
ghost use Rattle.cluster_defs.specs.Texts.{made_header};
ghost use Rattle.jupyter_parts.specs.Signed.{signed_frames, IsSigned};
ghost use Rattle.cluster_outgo.specs.Frames.{IsSendable, frames_of};

use cluster_types::octets::Octets;
use cluster_types::out::Out;
use cluster_types::text::Text;
use edges::date::{Moment, date_text};
use edges::frames::Frames;
use hmac_sign::Key;
use jupyter_header::contents::empty_object;
use jupyter_header::write::made_header;
use jupyter_parts::write::write_signed;
use std::alloc::{AllocError, Global};

/// The header of a message that the controller makes at a moment.
fn header_at(
    alloc: Global,
    moment: u64,
    msg_id: &Text,
    msg_type: &Text,
) -> Result<Octets, AllocError>
    requires { moment ≤ last_moment }
    ensures { IfOk result (λ o. o ≡ made_header msg_id.now msg_type.now (date_of moment)) }
{
    let date = date_text(alloc, Moment { millis: moment })?;
    made_header(alloc, msg_id, msg_type, date.as_str())
}

/// The frames of an out, signed under the key: of a message that is passed on, all parts as they are, and of one that the
/// controller makes, a header of its id, its type and its moment, and the metadata `{}`. There are no identity frames.
pub fn frames_of(alloc: Global, out: &Out, key: &Key) -> Result<Frames, AllocError>
    requires { IsSendable out.now }
    ensures value { IfOk result (λ f. f ≡ frames_of key.now out.now) }
    ensures signed { IfOk result (λ f. IsSigned key.now f (sent_message date_of out.now)) }
{
    match out {
        Out::Pass { message, .. } => write_signed(
            alloc,
            key,
            message.header(),
            message.parent(),
            message.metadata(),
            message.content(),
            message.buffers(),
        ),
        Out::Made {
            moment,
            msg_id,
            msg_type,
            parent,
            content,
            buffers,
            ..
        } => {
            let header = header_at(alloc, *moment, msg_id, msg_type)?;
            write_signed(
                alloc,
                key,
                header.as_slice(),
                parent.as_slice(),
                empty_object(),
                content.as_slice(),
                buffers,
            )
        }
    }
}
