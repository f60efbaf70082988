//! Which records go into the first batch.

ghost use Rattle.std.specs.Prelude.{◌≡◌, ◌+◌, ◌-◌, ◌^◌, ◌<◌, ◌≤◌, ◌++◌, ◌∷◌, take, drop, min, length, Err, All, OnOk};
ghost use Rattle.record_codec.specs.Spelling.{IsWithinLimits};
ghost use Rattle.record_codec.specs.Records.{spellings};
ghost use Rattle.database_text.specs.Compact.{batches, batch_front, FitsBatch};

use crate::fault::WriteError;
use cluster_types::entry::Entry;
use edges::writing::put_number32;
use record_codec::size::record_size;

/// The most octets that the records of a batch have together, where there are several.
const MOST_OCTETS: u64 = 1_073_741_824;

/// How many entries the first batch of entries takes.
pub fn first_batch(entries: &[Entry]) -> usize
    requires { 0 < length entries.now }
    ensures some { 0 < result }
    ensures within { result ≤ length entries.now }
    ensures is { batches entries.now ≡ take result entries.now ∷ batches (drop result entries.now) }
{
    let mut size = record_size(&entries[0]);
    for place in 1..entries.len() {
        size = size.saturating_add(record_size(&entries[place]));
        if size > MOST_OCTETS {
            return place;
        }
    }
    entries.len()
}

/// The number of octets of the records of entries, or the greatest number where that is less.
fn records_size(entries: &[Entry]) -> u64
    ensures { result ≡ min (length (spellings entries.now)) (2 ^ 64 - 1) }
{
    let mut size: u64 = 0;
    for entry in entries {
        size = size.saturating_add(record_size(entry));
    }
    size
}

/// Appends the front of a batch: its open gate, a pad, the length of the records and their number.
pub fn put_front(into: &mut Vec<u8>, entries: &[Entry]) -> Result<(), WriteError>
    ensures front { OnOk result (into.new.items ≡ into.old.items ++ batch_front entries.now) }
    ensures short { OnOk result (FitsBatch entries.now) }
    ensures long { result ≡ Err WriteError.TooLong → FitsBatch entries.now → ⊥ }
    ensures kind { result ≡ Err WriteError.WriteFailed → ⊥ }
{
    let size = records_size(entries);
    if size >= 1 << 32 {
        return Err(WriteError::TooLong);
    }
    into.extend_from_slice(&[0xa7, 0])?;
    put_number32(into, size as u32)?;
    put_number32(into, entries.len() as u32)?;
    Ok(())
}
