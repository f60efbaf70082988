//! Why there is no engine.

use std::alloc::AllocError;
use thiserror::Error;

/// Why there is no engine.
#[derive(Debug, Drop, Error)]
pub enum EngineError {
    /// The uuid is empty, or has more than 200 octets.
    #[error("a uuid has 1 to 200 octets")]
    BadUuid,
    #[error("out of memory")]
    OutOfMemory,
}

impl From<AllocError> for EngineError {
    ghost use Rattle.std.specs.Prelude.{◌≡◌};
    ghost use Rattle.engine_core.specs.declared.error.EngineError.TheVariants.{OutOfMemory};

    ghost from_gives = { λ _ e. e ≡ OutOfMemory };

    fn from(_error: AllocError) -> EngineError {
        EngineError::OutOfMemory
    }
}
