//! Why frames are no signed message.

use cluster_types::octets::Octets;
use std::alloc::AllocError;

/// Why frames are no signed message; the faults are looked for in this order.
#[derive(Debug, Drop)]
pub enum PartsError {
    /// No frame is `<IDS|MSG>`.
    NoDelimiter,
    /// Fewer than five frames stand behind the delimiter.
    TooFewParts,
    /// The given signature isn't that of the four parts.
    BadSignature(Octets),
    /// There was no memory.
    OutOfMemory,
}

impl From<AllocError> for PartsError {
    ghost use Rattle.std.specs.Prelude.{◌≡◌};
    ghost use Rattle.jupyter_parts.specs.declared.fault.PartsError.{PartsError};

    ghost from_gives = { λ _ e. e ≡ PartsError.OutOfMemory };

    fn from(_: AllocError) -> Self {
        PartsError::OutOfMemory
    }
}
