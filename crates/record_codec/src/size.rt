//! Sizes of records.

ghost use Rattle.std.specs.Prelude.{◌≡◌, ◌+◌, ◌-◌, ◌^◌, length, min};
ghost use Rattle.record_codec.specs.Spelling.{spelling, blobs, message_spelling, IsWithinLimits};
ghost use Rattle.record_codec.specs.Sizes.{record_size};

use cluster_types::entry::{Entry, Input};
use cluster_types::octets::Octets;
use cluster_types::shared_message::SharedMessage;
use cluster_types::text::Text;

/// A size and so many octets more, or the greatest number where that is less.
fn more(size: u64, octets: &[u8]) -> u64
    ensures { result ≡ min (size + length octets.now) (2 ^ 64 - 1) }
{
    size.saturating_add(octets.len() as u64)
}

/// The number of octets of buffers, each behind its length, or the greatest number where that is less.
fn size_of_buffers(buffers: &[Octets]) -> u64
    ensures { result ≡ min (length (blobs buffers.now)) (2 ^ 64 - 1) }
{
    let mut size: u64 = 0;
    for buffer in buffers {
        size = more(size.saturating_add(4), buffer.as_slice());
    }
    size
}

/// The number of octets of a message, or the greatest number where that is less.
#[tactic(auto, using(crate::proofs::Lengths::lengths), unfolding(crate::specs::Spelling::message_spelling))]
fn size_of_message(message: &SharedMessage) -> u64
    ensures { result ≡ min (length (message_spelling message.now)) (2 ^ 64 - 1) }
{
    let head = more(more(18, message.target()), message.header());
    let front = more(more(head, message.parent()), message.metadata());
    more(front, message.content()).saturating_add(size_of_buffers(message.buffers().as_slice()))
}

/// The number of octets of an input's record, or the greatest number where that is less.
#[tactic(auto, using(crate::proofs::Lengths::lengths))]
pub fn input_record_size(input: &Input) -> u64
    ensures { result ≡ record_size (Entry.Input input.now) }
{
    match input {
        Input::Open { .. } => 18,
        Input::Up { identity, .. } => more(23, identity.as_slice()),
        Input::Down { .. } => 21,
        Input::In { message, .. } => size_of_message(message).saturating_add(21),
        Input::Beat { .. } => 17,
        Input::Time { .. } => 17,
    }
}

/// The number of octets of an entry's record, or the greatest number where that is less.
#[tactic(auto, using(crate::proofs::Lengths::lengths))]
pub fn record_size(entry: &Entry) -> u64
    ensures { result ≡ record_size entry.now }
{
    match entry {
        Entry::Input(input) => input_record_size(input),
        Entry::Hand { id, .. } => more(6, id.as_slice()),
        Entry::Settle { id, .. } => more(4, id.as_slice()),
        Entry::Lose { .. } => 5,
    }
}

/// The number of octets of the record of an entry within the limits.
#[tactic(auto, using(crate::proofs::Lengths::within))]
pub fn entry_size(entry: &Entry) -> u64
    requires { IsWithinLimits entry.now }
    ensures { result ≡ length (spelling entry.now) }
{
    record_size(entry)
}
