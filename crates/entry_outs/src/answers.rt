//! Answers as they are sent.

ghost use Rattle.std.specs.Prelude.{◌≡◌, ◌∷◌, [], Some, IfOk};
ghost use Rattle.cluster_defs.specs.Outs.{answer_out};

use crate::beats::answer_id;
use cluster_defs::answer::Answer;
use cluster_types::config::Channel;
use cluster_types::octets::Octets;
use cluster_types::out::{Out, Outs};
use cluster_types::text::Text;
use std::alloc::{AllocError, Global};

/// Where an answer goes, and what its header is made of.
#[derive(Clone, Copy, Debug, PartialEq, Eq)]
pub struct Slip {
    /// How many Opens stand.
    pub opens: u64,
    /// The place of the message after the last Open.
    pub place: u64,
    /// The connection that the message came on.
    pub conn: u32,
    /// In milliseconds.
    pub moment: u64,
}

/// Where the answer to a message goes, and the channel that the message came on.
#[derive(Clone, Copy, Debug, PartialEq, Eq)]
pub struct Asked {
    pub slip: Slip,
    pub channel: Channel,
}

/// An answer in a message of a type, under the header of the message that it answers.
fn made(
    alloc: Global,
    slip: Slip,
    msg_type: Text,
    parent: &[u8],
    answer: Answer,
) -> Result<Out, AllocError>
    ensures { IfOk result (λ o. o ∷ [] ≡ answer_out slip.opens slip.place slip.conn slip.moment msg_type parent.now (Some answer)) }
{
    let Answer { content, buffers } = answer;
    Ok(Out::Made {
        conn: slip.conn,
        moment: slip.moment,
        msg_id: answer_id(alloc, slip.opens, slip.place)?,
        msg_type,
        parent: Octets::new(alloc, parent)?,
        content,
        buffers,
    })
}

/// An answer, where there is one, in a message of a type, under the header of the message that it answers.
pub fn answered(
    alloc: Global,
    slip: Slip,
    msg_type: Text,
    parent: &[u8],
    answer: Option<Answer>,
) -> Result<Outs, AllocError>
    ensures { IfOk result (λ outs. outs ≡ answer_out slip.opens slip.place slip.conn slip.moment msg_type parent.now answer) }
{
    let mut outs = Outs::new(alloc);
    if let Some(answer) = answer {
        outs.push(made(alloc, slip, msg_type, parent, answer)?)?;
    }
    Ok(outs)
}
