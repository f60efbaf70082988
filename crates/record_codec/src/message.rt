//! Reading and writing a message inside a record.

ghost use Rattle.std.specs.Prelude.{◌≡◌, ◌<◌, ◌^◌, ◌++◌, All, length, OnOk, OnErr};
ghost use Rattle.edges.specs.Keeping.{Keeps};
ghost use Rattle.edges.specs.Reading.{Gives, blob_at};
ghost use Rattle.record_codec.specs.Reading.{blobs_at, buffers_at, message_at};
ghost use Rattle.record_codec.specs.Spelling.{blobs, message_spelling, IsShort};

use cluster_types::message::Buffers;
use cluster_types::octets::Octets;
use cluster_types::shared_message::SharedMessage;
use edges::reading::{blob, octet, str8};
use edges::stop::{ReadError, Stop};
use edges::writing::{put_blob, put_str8};
use std::alloc::{AllocError, Global};

/// A copy of the octets behind their length.
fn blob_copy(alloc: Global, octets: &[u8]) -> Result<(Octets, &[u8]), ReadError>
    ensures { Gives (λ x. (x.0, x.1.now)) result (blob_at octets.now) }
{
    let (blob, rest) = blob(octets)?;
    Ok((Octets::new(alloc, blob)?, rest))
}

/// So many blobs.
fn buffers(alloc: Global, count: u8, octets: &[u8]) -> Result<(Buffers, &[u8]), ReadError>
    ensures { Gives (λ x. (x.0, x.1.now)) result (blobs_at count octets.now) }
{
    let mut list = Buffers::new(alloc);
    let mut rest = octets;
    for _ in 0..count {
        let (buffer, after) = blob_copy(alloc, rest)?;
        list.push(buffer)?;
        rest = after;
    }
    Ok((list, rest))
}

/// At most 58 blobs behind their number.
#[tactic(auto, unfolding(crate::specs::Reading::buffers_at))]
fn counted_buffers(alloc: Global, octets: &[u8]) -> Result<(Buffers, &[u8]), ReadError>
    ensures { Gives (λ x. (x.0, x.1.now)) result (buffers_at octets.now) }
{
    let (count, rest) = octet(octets)?;
    if count > 58 {
        return Err(ReadError::Stop(Stop::Bad));
    }
    buffers(alloc, count, rest)
}

/// A message.
#[tactic(auto, unfolding(crate::specs::Reading::message_at))]
pub fn message(alloc: Global, octets: &[u8]) -> Result<(SharedMessage, &[u8]), ReadError>
    ensures { Gives (λ x. (x.0, x.1.now)) result (message_at octets.now) }
{
    let (target, rest) = str8(octets)?;
    let (header, rest) = blob(rest)?;
    let (parent, rest) = blob(rest)?;
    let (metadata, rest) = blob(rest)?;
    let (content, rest) = blob(rest)?;
    let (buffers, rest) = counted_buffers(alloc, rest)?;
    let message = SharedMessage::new(alloc, target, header, parent, metadata, content, buffers)?;
    Ok((message, rest))
}

/// Appends buffers, each behind its length.
fn put_buffers(into: &mut Vec<u8>, buffers: &[Octets]) -> Result<(), AllocError>
    requires { All (λ buffer. length buffer < 2 ^ 32) buffers.now }
    ensures ok { OnOk result (into.new.items ≡ into.old.items ++ blobs buffers.now) }
    ensures kept { OnErr result (Keeps into.old.items into.new.items) }
{
    for buffer in buffers {
        put_blob(into, buffer.as_slice())?;
    }
    Ok(())
}

/// Appends a message.
#[tactic(auto, using(edges::proofs::Joins::joins), unfolding(crate::specs::Spelling::message_spelling))]
pub fn put_message(into: &mut Vec<u8>, message: &SharedMessage) -> Result<(), AllocError>
    requires { IsShort message.now }
    ensures ok { OnOk result (into.new.items ≡ into.old.items ++ message_spelling message.now) }
    ensures kept { OnErr result (Keeps into.old.items into.new.items) }
{
    put_str8(into, message.target())?;
    put_blob(into, message.header())?;
    put_blob(into, message.parent())?;
    put_blob(into, message.metadata())?;
    put_blob(into, message.content())?;
    into.push(message.buffers().len() as u8)?;
    put_buffers(into, message.buffers().as_slice())
}
