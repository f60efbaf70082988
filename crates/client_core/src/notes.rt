//! What notes the outcome of a task.

ghost use Rattle.std.specs.Prelude.{◌≡◌};
ghost use Rattle.client_core.specs.Noting.{note_of};

use crate::answered::Answered;
use crate::noted::Noted;

/// What notes the outcome of a task, once.
pub trait Notes: Drop {
    /// The note of what a task answered, and of whether it ran without an error.
    fn note(self, answered: Answered, ok: bool) -> Noted
        ensures { result ≡ note_of answered ok };
}
