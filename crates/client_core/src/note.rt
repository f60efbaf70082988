//! The note of an answer and a flag, for closures.

ghost use Rattle.std.specs.Prelude.{◌≡◌};
ghost use Rattle.client_core.specs.Noting.{note_of};

use crate::answered::Answered;
use crate::noted::Noted;

/// The note of what a task answered, and of whether it ran without an error.
pub fn note_of(answered: &Answered, ok: bool) -> Noted
    ensures { result ≡ note_of answered.now ok }
{
    let value = match answered {
        Answered::Value(value) => Some(*value),
        Answered::Failed { .. } => None,
    };
    Noted {
        ok,
        value: if ok { value } else { None },
    }
}
