//! Messages that records can hold.

ghost use Rattle.std.specs.Prelude.{◌≡◌, ◌<◌, ◌^◌, All, IsTrue, length};
ghost use Rattle.record_codec.specs.Spelling.{IsShort};

use cluster_types::limits::{FIELD_OCTETS, MOST_BUFFERS};
use cluster_types::octets::Octets;
use cluster_types::shared_message::SharedMessage;

/// Whether the length of each buffer can be written.
fn are_short(buffers: &[Octets]) -> bool
    ensures only { IsTrue result → All (λ buffer. length buffer < 2 ^ 32) buffers.now }
    ensures all { All (λ buffer. length buffer < 2 ^ 32) buffers.now → IsTrue result }
{
    buffers
        .iter()
        .all(|buffer| buffer.as_slice().len() <= FIELD_OCTETS)
}

/// Whether the lengths of the parts of a message can be written.
pub fn is_short(message: &SharedMessage) -> bool
    ensures only { IsTrue result → IsShort message.now }
    ensures all { IsShort message.now → IsTrue result }
{
    message.target().len() < 256
        && message.header().len() <= FIELD_OCTETS
        && message.parent().len() <= FIELD_OCTETS
        && message.metadata().len() <= FIELD_OCTETS
        && message.content().len() <= FIELD_OCTETS
        && message.buffers().len() <= MOST_BUFFERS
        && are_short(message.buffers().as_slice())
}
