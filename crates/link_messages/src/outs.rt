//! What is written for an out.

ghost use Rattle.std.specs.Prelude.{◌≡◌, IfOk};
ghost use Rattle.cluster_outgo.specs.Frames.{IsSendable};
ghost use Rattle.link_messages.specs.Outs.{dated, out_frames, octets_of};

use cluster_outgo::frames_of;
use cluster_types::limits::LAST_MOMENT;
use cluster_types::out::Out;
use edges::frames::Frames;
use hmac_sign::Key;
use std::alloc::{AllocError, Global};
use zmtp_peer::writing::message_octets;

/// The out with a moment that has a date.
fn dated(mut out: Out) -> Out
    ensures value { result ≡ dated out }
    ensures sendable { IsSendable result }
{
    if let Out::Made { moment, .. } = &mut out {
        *moment = (*moment).min(LAST_MOMENT);
    }
    out
}

/// The frames of an out, signed under the key. A moment past the last one that has a date counts as that.
pub fn out_frames(alloc: Global, key: &Key, out: Out) -> Result<Frames, AllocError>
    ensures { IfOk result (λ f. f ≡ out_frames key.now out) }
{
    frames_of(alloc, &dated(out), key)
}

/// The octets of an out on a stream: its frames, one behind the other, with MORE on all but the last.
pub fn out_octets(alloc: Global, key: &Key, out: Out) -> Result<Vec<u8>, AllocError>
    ensures { IfOk result (λ octets. octets.items ≡ octets_of key.now out) }
{
    let frames = out_frames(alloc, key, out)?;
    message_octets(alloc, &frames)
}
