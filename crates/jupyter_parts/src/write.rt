//! Writing signed messages.

ghost use Rattle.std.specs.Prelude.{◌≡◌, ◌≢◌, ◌≤◌, ◌∷◌, ◌++◌, [], IfOk, OnOk, length};
ghost use Rattle.jupyter_parts.specs.Signed.{delimiter, signature, signed_frames, message_frames, IsSigned};

use cluster_types::message::Buffers;
use cluster_types::shared_message::SharedMessage;
use edges::frames::Frames;
use hmac_sign::Key;
use std::alloc::{AllocError, Global};

/// The frames of a message with a target, but for its buffers.
const FRAMES: usize = 7;

/// The octets of the delimiter and of a signature.
const SIGNED_OCTETS: usize = 73;

/// Appends the delimiter.
#[tactic(auto, unfolding(crate::specs::Signed::delimiter))]
fn push_delimiter(frames: &mut Frames) -> Result<(), AllocError>
    ensures { OnOk result (frames.new ≡ frames.old ++ delimiter ∷ []) }
{
    frames.push(b"<IDS|MSG>")?;
    Ok(())
}

/// Appends the buffers.
fn push_buffers(frames: &mut Frames, buffers: &Buffers) -> Result<(), AllocError>
    ensures { OnOk result (frames.new ≡ frames.old ++ buffers.now) }
{
    for buffer in buffers.as_slice() {
        frames.push(buffer.as_slice())?;
    }
    Ok(())
}

/// Appends the delimiter, the signature and what it signs, and the buffers.
fn push_signed(
    frames: &mut Frames,
    key: &Key,
    header: &[u8],
    parent: &[u8],
    metadata: &[u8],
    content: &[u8],
    buffers: &Buffers,
) -> Result<(), AllocError>
    ensures { OnOk result (frames.new ≡ frames.old ++ signed_frames key.now header.now parent.now metadata.now content.now buffers.now) }
{
    push_delimiter(frames)?;
    frames.push(&key.tag(header, parent, metadata, content))?;
    frames.push(header)?;
    frames.push(parent)?;
    frames.push(metadata)?;
    frames.push(content)?;
    push_buffers(frames, buffers)?;
    Ok(())
}

/// No frames yet, with room for those of a message with these parts.
fn room_for(
    alloc: Global,
    target: &[u8],
    header: &[u8],
    parent: &[u8],
    metadata: &[u8],
    content: &[u8],
    buffers: &Buffers,
) -> Result<Frames, AllocError>
    ensures { IfOk result (λ f. f ≡ []) }
{
    let frames = buffers.len().saturating_add(FRAMES);
    let octets = SIGNED_OCTETS
        .saturating_add(target.len())
        .saturating_add(header.len())
        .saturating_add(parent.len())
        .saturating_add(metadata.len())
        .saturating_add(content.len());
    Frames::with_capacity(alloc, frames, octets)
}

/// The frames of a message without identity frames.
pub fn write_signed(
    alloc: Global,
    key: &Key,
    header: &[u8],
    parent: &[u8],
    metadata: &[u8],
    content: &[u8],
    buffers: &Buffers,
) -> Result<Frames, AllocError>
    ensures { IfOk result (λ f. f ≡ signed_frames key.now header.now parent.now metadata.now content.now buffers.now) }
{
    let mut frames = room_for(alloc, b"", header, parent, metadata, content, buffers)?;
    push_signed(&mut frames, key, header, parent, metadata, content, buffers)?;
    Ok(frames)
}

/// The frames of a message without its target, signed under the key.
pub fn write_untargeted(
    alloc: Global,
    message: &SharedMessage,
    key: &Key,
) -> Result<Frames, AllocError>
    ensures { IfOk result (λ f. f ≡ signed_frames key.now message.now.header message.now.parent message.now.metadata message.now.content message.now.buffers) }
{
    write_signed(
        alloc,
        key,
        message.header(),
        message.parent(),
        message.metadata(),
        message.content(),
        message.buffers(),
    )
}

/// The frames of a message, signed under the key: a target that isn't empty is the one identity frame.
pub fn write_parts(alloc: Global, message: &SharedMessage, key: &Key) -> Result<Frames, AllocError>
    requires short { length message.now.target ≤ 255 }
    requires plain { message.now.target ≢ delimiter }
    ensures value { IfOk result (λ f. f ≡ message_frames key.now message.now) }
    ensures signed { IfOk result (λ f. IsSigned key.now f message.now) }
{
    let mut frames = room_for(
        alloc,
        message.target(),
        message.header(),
        message.parent(),
        message.metadata(),
        message.content(),
        message.buffers(),
    )?;
    if !message.target().is_empty() {
        frames.push(message.target())?;
    }
    push_signed(
        &mut frames,
        key,
        message.header(),
        message.parent(),
        message.metadata(),
        message.content(),
        message.buffers(),
    )?;
    Ok(frames)
}
