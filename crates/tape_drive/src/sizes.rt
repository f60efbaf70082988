//! How many octets a record is spelled in.

ghost use Rattle.std.specs.Prelude.{◌≡◌, ◌+◌, ◌-◌, ◌^◌, min, length};
ghost use Rattle.tape.specs.Spelling.{spelled};
ghost use Rattle.tape_drive.specs.Sizes.{frame_size, frames_size, kind_size};

use edges::frames::Frames;
use tape::record::{TapeKind, TapeRecord};

/// The octets of these and so many more, or the greatest number.
fn size_with(octets: &[u8], more: u64) -> u64
    ensures { result ≡ min (length octets.now + more) (2 ^ 64 - 1) }
{
    (octets.len() as u64).saturating_add(more)
}

/// The octets of frames, each behind its length.
fn frames_size(frames: &Frames) -> u64
    ensures { result ≡ min (frames_size frames.now) (2 ^ 64 - 1) }
{
    let mut size: u64 = 0;
    for place in 0..frames.len() {
        size = size.saturating_add(size_with(frames.at(place), 4));
    }
    size
}

/// The octets behind the heading.
fn kind_size(kind: &TapeKind) -> u64
    ensures { result ≡ min (kind_size kind.now) (2 ^ 64 - 1) }
{
    match kind {
        TapeKind::Up {
            conn: _,
            channel: _,
            bare: _,
            identity,
        } => size_with(identity.as_slice(), 7),
        TapeKind::Piece { conn: _, octets } => size_with(octets.as_slice(), 8),
        TapeKind::Down { .. } => 4,
        TapeKind::Beat => 0,
        TapeKind::Time => 0,
        TapeKind::Message { conn: _, frames } => frames_size(frames).saturating_add(5),
    }
}

/// The octets of a record, or the greatest number.
#[tactic(auto, using(crate::proofs::Lengths::spelled_length))]
pub fn size_of(item: &TapeRecord) -> u64
    ensures { result ≡ min (length (spelled item.now)) (2 ^ 64 - 1) }
{
    kind_size(&item.kind).saturating_add(17)
}
