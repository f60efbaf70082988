//! What a journal holds.

use cluster_types::entry::Entries;
use cluster_types::sequence::Sequence;

/// Offsets on a disk.
pub type Places = Sequence<u64>;

/// The entries of a journal, and the places of their records.
#[derive(Debug, Drop)]
pub struct Found {
    pub entries: Entries,
    pub places: Places,
}
