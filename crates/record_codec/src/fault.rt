//! Why no entry is read.

use thiserror::Error;

/// Why `read_entry` gives no entry.
#[derive(Clone, Copy, Debug, PartialEq, Eq, Error)]
pub enum RecordError {
    /// No record stands at this place.
    #[error("no record stands at octet {0}")]
    BadRecord(usize),
    #[error("out of memory")]
    OutOfMemory,
}
