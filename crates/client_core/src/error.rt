//! Why a request isn't made.

use cluster_types::sequence::Sequence;
use cluster_types::shared_message::SharedMessage;
use std::alloc::AllocError;
use thiserror::Error;

/// Why a client doesn't make a request.
#[derive(Debug, Drop, Error)]
pub enum SubmitError {
    /// The client used the id of these random octets before.
    #[error("the id was used before")]
    KnownId,
    /// There was no memory.
    #[error("out of memory")]
    OutOfMemory,
}

/// Why a client doesn't make a list of requests.
pub type SendError = SubmitError;

/// The messages of a list of requests, in order.
pub type Messages = Sequence<SharedMessage>;

impl From<AllocError> for SubmitError {
    ghost use Rattle.std.specs.Prelude.{◌≡◌};
    ghost use Rattle.client_core.specs.declared.error.SubmitError.{SubmitError};

    ghost from_gives = { λ _ e. e ≡ SubmitError.OutOfMemory };

    fn from(_: AllocError) -> Self {
        SubmitError::OutOfMemory
    }
}
