//! Writing messages and errors.

ghost use Rattle.std.specs.Prelude.{◌≡◌, ◌≤◌, ◌<◌, length, IfOk};
ghost use Rattle.zmtp_frames.specs.Written.{written_error};
ghost use Rattle.zmtp_peer.specs.Message.{message_written};

use edges::frames::Frames;
use edges::writing::put_str8;
use std::alloc::{AllocError, Global};
use zmtp_frames::writing::{write_command, write_frame};

/// The octets of one message: its frames in their written spelling, with MORE on all but the last.
pub fn message_octets(alloc: Global, frames: &Frames) -> Result<Vec<u8>, AllocError>
    ensures { IfOk result (λ octets. octets.items ≡ message_written frames.now) }
{
    let mut octets = Vec::new(alloc);
    let count = frames.len();
    for place in 0..count {
        write_frame(&mut octets, count - place > 1, frames.at(place))?;
    }
    Ok(octets)
}

/// The ERROR with this reason, of at most 200 octets.
pub fn error_octets(alloc: Global, reason: &str) -> Result<Vec<u8>, AllocError>
    requires { length reason.now ≤ 200 }
    ensures { IfOk result (λ octets. octets.items ≡ written_error reason.now) }
{
    let mut body = Vec::from_slice(alloc, b"\x05ERROR")?;
    put_str8(&mut body, reason.as_bytes())?;
    let mut octets = Vec::new(alloc);
    write_command(&mut octets, body.as_slice())?;
    Ok(octets)
}
