//! The key of the tape.

ghost use Rattle.std.specs.Prelude.{◌≡◌, IfOk};
ghost use Rattle.quick_commands.specs.Generated.{work_key};

use hmac_sign::{Key, KeyError};
use std::alloc::{AllocError, Global};

/// The key of all signatures.
#[tactic(auto, unfolding(crate::specs::Generated::work_key))]
pub fn work_key(alloc: Global) -> Result<Key, AllocError>
    ensures { IfOk result (λ k. k ≡ work_key) }
{
    match Key::new(alloc, b"work") {
        Ok(key) => Ok(key),
        Err(KeyError::OutOfMemory) => Err(AllocError),
        Err(KeyError::EmptyKey) => unreachable!(),
        Err(KeyError::KeyTooLong) => unreachable!(),
    }
}
