//! The limits of an answer.

ghost use Rattle.std.specs.Prelude.{◌≡◌, ◌-◌, ◌^◌, [], codes, min, sum, map, length, IfOk};
ghost use Rattle.cluster_defs.specs.Queries.{plain, refusal, is_hub, is_too_long, limited};

use cluster_defs::answer::Answer;
use cluster_types::config::Channel;
use cluster_types::limits::{BODY_OCTETS, MOST_BUFFERS};
use cluster_types::message::{Buffers, Ids};
use cluster_types::octets::Octets;
use cluster_types::sequence::Sequence;
use jupyter_header::contents::error_content;
use std::alloc::{AllocError, Global};

/// The most octets of a content and its buffers.
pub(crate) const MOST_OCTETS: usize = 33_000_000;

/// An answer without buffers.
pub fn plain(alloc: Global, content: Octets) -> Answer
    ensures { result ≡ plain content }
{
    Answer {
        content,
        buffers: Sequence::new(alloc),
    }
}

/// An error answer: its name, its value, and the ids concerned.
pub fn refusal(alloc: Global, ename: &str, evalue: &str, ids: &Ids) -> Result<Answer, AllocError>
    ensures { IfOk result (λ a. a ≡ refusal ename.now evalue.now ids.now) }
{
    let content = error_content(alloc, ename, evalue, ids)?;
    Ok(plain(alloc, content))
}

/// How many octets the buffers have together, or the greatest number where that is less.
pub(crate) fn octets_of(buffers: &Buffers) -> usize
    ensures { result ≡ min (sum (map length buffers.now)) (2 ^ 64 - 1) }
{
    let mut total: usize = 0;
    for buffer in buffers.as_slice() {
        total = total.saturating_add(buffer.as_slice().len());
    }
    total
}

/// Whether an answer passes a limit.
pub fn is_too_long(answer: &Answer) -> bool
    ensures { result ≡ is_too_long answer.now }
{
    let content = answer.content.as_slice().len();
    let together = content.saturating_add(octets_of(&answer.buffers));
    content as u64 > BODY_OCTETS || together > MOST_OCTETS || answer.buffers.len() > MOST_BUFFERS
}

/// Whether a channel is the hub's.
pub(crate) fn is_hub(channel: Channel) -> bool
    ensures { result ≡ is_hub channel }
{
    matches!(channel, Channel::Hub)
}

/// The refusal of an answer that is too long.
pub(crate) fn too_long(alloc: Global) -> Result<Answer, AllocError>
    ensures { IfOk result (λ a. a ≡ refusal (codes "ReplyTooLong") [] []) }
{
    refusal(alloc, "ReplyTooLong", "", &Sequence::new(alloc))
}

/// The answer, which on the hub's channel gives way to a refusal where it passes a limit.
pub fn limited(alloc: Global, channel: Channel, answer: Answer) -> Result<Answer, AllocError>
    ensures { IfOk result (λ a. a ≡ limited channel answer) }
{
    if is_hub(channel) && is_too_long(&answer) {
        return too_long(alloc);
    }
    Ok(answer)
}
