//! The message that frames are.

ghost use Rattle.std.specs.Prelude.{◌≡◌, IfOk};
ghost use Rattle.jupyter_parts.specs.Signed.{read_parts};
ghost use Rattle.link_messages.specs.Message.{signed};

use cluster_types::shared_message::SharedMessage;
use edges::frames::Frames;
use hmac_sign::Key;
use jupyter_parts::fault::PartsError;
use jupyter_parts::read::read_parts;
use std::alloc::{AllocError, Global};

/// The message that frames are, where they are signed with the key.
pub fn signed(
    alloc: Global,
    key: &Key,
    frames: &Frames,
) -> Result<Option<SharedMessage>, AllocError>
    ensures { IfOk result (λ m. m ≡ signed (read_parts key.now frames.now)) }
{
    match read_parts(alloc, frames, key) {
        Ok(message) => Ok(Some(message)),
        Err(PartsError::OutOfMemory) => Err(AllocError),
        Err(PartsError::NoDelimiter) => Ok(None),
        Err(PartsError::TooFewParts) => Ok(None),
        Err(PartsError::BadSignature(_)) => Ok(None),
    }
}
