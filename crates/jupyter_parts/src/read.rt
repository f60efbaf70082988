//! Reading signed messages.

ghost use Rattle.std.specs.Prelude.{◌≡◌, ◌⊎◌, ◌+◌, ◌<◌, ◌≤◌, ◌^◌, ◌∷◌, ◌++◌, [], ℕ, Ok, Err, Some, None, IfOk, IfErr, IfSome, MatchOption, length, take, drop, bytes_eq};
ghost use Rattle.jupyter_parts.specs.Signed.{is_delimiter, identities, behind, is_target, target_of, signature, message_in, read_parts, IsSigned};

use crate::fault::PartsError;
use cluster_types::message::Buffers;
use cluster_types::octets::Octets;
use cluster_types::sequence::Sequence;
use cluster_types::shared_message::SharedMessage;
use edges::frames::Frames;
use hmac_sign::Key;
use std::alloc::{AllocError, Global};

/// The frame at a place, as the first of the frames from there on.
fn part(frames: &Frames, place: usize) -> &[u8]
    requires { place < length frames.now }
    ensures first { (next : ℕ) → next ≡ place + 1 → drop place frames.now ≡ result.now ∷ drop next frames.now }
    ensures front { (next : ℕ) → next ≡ place + 1 → take next frames.now ≡ take place frames.now ++ result.now ∷ [] }
    ensures within { (next end : ℕ) → next ≡ place + 1 → place < end → drop place (take end frames.now) ≡ result.now ∷ drop next (take end frames.now) }
{
    match frames.get(place) {
        Some(frame) => frame,
        None => unreachable!(),
    }
}

/// Whether a frame is the delimiter.
#[tactic(auto, unfolding(crate::specs::Signed::delimiter))]
fn is_delimiter(frame: &[u8]) -> bool
    ensures { result ≡ is_delimiter frame.now }
{
    frame == b"<IDS|MSG>".as_slice()
}

/// The place of the first delimiter.
fn delimiter_place(frames: &Frames) -> Option<usize>
    ensures behind { MatchOption result (behind frames.now ≡ None) (λ at. behind frames.now ≡ Some (drop (at + 1) frames.now)) }
    ensures before { IfSome result (λ at. (at < length frames.now) × (identities frames.now ≡ take at frames.now)) }
    ensures room { IfSome result (λ at. at + 1 < 2 ^ 64) }
{
    for place in 0..frames.len() {
        if is_delimiter(part(frames, place)) {
            return Some(place);
        }
    }
    None
}

/// Whether a frame can be a target.
fn is_target(frame: &[u8]) -> bool
    ensures { result ≡ is_target frame.now }
{
    0 < frame.len() && frame.len() <= 255
}

/// The target that the frames before a place name.
fn target(frames: &Frames, end: usize) -> &[u8]
    requires { end ≤ length frames.now }
    ensures { result.now ≡ target_of (take end frames.now) }
{
    for place in 0..end {
        let frame = part(frames, place);
        if is_target(frame) {
            return frame;
        }
    }
    &[]
}

/// The frames from a place on.
fn buffers(alloc: Global, frames: &Frames, from: usize) -> Result<Buffers, AllocError>
    requires { from ≤ length frames.now }
    ensures { IfOk result (λ b. b ≡ drop from frames.now) }
{
    let mut buffers = Sequence::new(alloc);
    for place in from..frames.len() {
        buffers.push(Octets::new(alloc, part(frames, place))?)?;
    }
    Ok(buffers)
}

/// Whether a signature is that of the four parts.
fn is_signature(
    key: &Key,
    given: &[u8],
    header: &[u8],
    parent: &[u8],
    metadata: &[u8],
    content: &[u8],
) -> bool
    ensures { result ≡ bytes_eq given.now (signature key.now header.now parent.now metadata.now content.now) }
{
    given == key.tag(header, parent, metadata, content).as_slice()
}

/// The message whose parts stand from a place on.
fn message_from(
    alloc: Global,
    frames: &Frames,
    key: &Key,
    target: &[u8],
    from: usize,
) -> Result<SharedMessage, PartsError>
    requires { from ≤ length frames.now }
    ensures ok { IfOk result (λ m. message_in key.now target.now (drop from frames.now) ≡ Ok m) }
    ensures err { IfErr result (λ e. (e ≡ PartsError.OutOfMemory) ⊎ (message_in key.now target.now (drop from frames.now) ≡ Err e)) }
{
    if frames.len() - from < 5 {
        return Err(PartsError::TooFewParts);
    }
    let given = part(frames, from);
    let header = part(frames, from + 1);
    let parent = part(frames, from + 2);
    let metadata = part(frames, from + 3);
    let content = part(frames, from + 4);
    if !is_signature(key, given, header, parent, metadata, content) {
        return Err(PartsError::BadSignature(Octets::new(alloc, given)?));
    }
    let buffers = buffers(alloc, frames, from + 5)?;
    Ok(SharedMessage::new(alloc, target, header, parent, metadata, content, buffers)?)
}

/// The message that frames are, signed under the key.
///
/// The delimiter is the first frame that is `<IDS|MSG>`. The target is the first frame before it that has 1 to 255
/// octets, else empty; what else stands there is ignored.
pub fn read_parts(alloc: Global, frames: &Frames, key: &Key) -> Result<SharedMessage, PartsError>
    ensures signed { IfOk result (λ m. IsSigned key.now frames.now m) }
    ensures ok { IfOk result (λ m. read_parts key.now frames.now ≡ Ok m) }
    ensures err { IfErr result (λ e. (e ≡ PartsError.OutOfMemory) ⊎ (read_parts key.now frames.now ≡ Err e)) }
{
    let Some(at) = delimiter_place(frames) else {
        return Err(PartsError::NoDelimiter);
    };
    let target = target(frames, at);
    message_from(alloc, frames, key, target, at + 1)
}
