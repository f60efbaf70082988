//! What the tests of several modules share.

use edges::frames::Frames;
use hmac_sign::Key;
use std::alloc::Global;
use std::process::Abort;

/// The key `k`.
pub(crate) fn key<R: Abort>(rt: &R, alloc: Global) -> Key {
    Key::new(alloc, b"k").expect(rt, "a key")
}

/// Whether this frame stands at this place.
pub(crate) fn is_frame(frames: &Frames, place: usize, body: &[u8]) -> bool {
    match frames.get(place) {
        Some(found) => found == body,
        None => false,
    }
}
