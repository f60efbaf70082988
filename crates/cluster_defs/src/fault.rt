//! Why a JSON text doesn't read.

use cluster_types::text::Text;
use std::alloc::AllocError;

/// The name of a field.
pub type Field = Text;

/// The first fault of a JSON text, in the order in which its fields are looked at.
#[derive(Debug, Drop)]
pub enum ReadError {
    /// The octets are no UTF-8, or no JSON text that the reader takes: nesting past 127, a number that no finite float
    /// is near to, and a lone surrogate are refused wherever they stand.
    NotJson,
    /// The text is a JSON value other than an object.
    NotObject,
    /// A field that has to be there isn't.
    Missing(Field),
    /// A field has a value that it can't have.
    BadField(Field),
    /// There was no memory.
    OutOfMemory,
}

impl From<AllocError> for ReadError {
    ghost use Rattle.std.specs.Prelude.{◌≡◌};
    ghost use Rattle.cluster_defs.specs.declared.fault.ReadError.{ReadError};

    ghost from_gives = { λ _ e. e ≡ ReadError.OutOfMemory };

    fn from(_: AllocError) -> Self {
        ReadError::OutOfMemory
    }
}
