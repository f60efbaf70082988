//! Whether an answer says that all went well.

ghost use Rattle.std.specs.Prelude.{◌≡◌, IfOk};
ghost use Rattle.link_commands.specs.Asking.{is_ok};

use client_core::answers::status_in;
use json::Scratch;
use std::alloc::{AllocError, Global};

/// Whether the content of an answer has the status `ok`. It hasn't where the content doesn't read.
pub fn is_ok(alloc: Global, content: &[u8]) -> Result<bool, AllocError>
    ensures { IfOk result (λ ok. ok ≡ is_ok content.now) }
{
    let mut scratch = Scratch::new(alloc);
    let status = status_in(alloc, content, &mut scratch)?;
    Ok(status.unwrap_or(false))
}
