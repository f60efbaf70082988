//! Where two lists of entries differ.

ghost use Rattle.std.specs.Prelude.{◌≡◌, ◌↔◌, true, All, IfOk, IsOk};
ghost use Rattle.record_codec.specs.Spelling.{spelling, IsWithinLimits, HasRecord};
ghost use Rattle.journal_standby.specs.Standbys.{IsDivergence};

use cluster_types::entry::Entry;
use record_codec::writing::write_entry;
use std::alloc::{AllocError, Global};

/// The record of an entry.
fn record_of(alloc: Global, entry: &Entry) -> Result<Vec<u8>, AllocError>
    requires { IsWithinLimits entry.now }
    ensures record { IfOk result (λ v. v.items ≡ spelling entry.now) }
    ensures has { IsOk result → HasRecord entry.now }
{
    let mut octets = Vec::new(alloc);
    write_entry(&mut octets, entry)?;
    Ok(octets)
}

/// Whether two entries are the same: an entry has one record, and a record is that of one entry.
fn are_same(alloc: Global, entry: &Entry, other: &Entry) -> Result<bool, AllocError>
    requires entry { IsWithinLimits entry.now }
    requires other { IsWithinLimits other.now }
    ensures { IfOk result (λ same. (same ≡ true) ↔ (entry.now ≡ other.now)) }
{
    let record = record_of(alloc, entry)?;
    let other_record = record_of(alloc, other)?;
    Ok(record.as_slice() == other_record.as_slice())
}

/// The first place at which a list isn't the primary's, or none where the primary's begins with it.
pub fn divergence(
    alloc: Global,
    list: &[Entry],
    primary: &[Entry],
) -> Result<Option<u64>, AllocError>
    requires list { All IsWithinLimits list.now }
    requires primary { All IsWithinLimits primary.now }
    ensures { IfOk result (IsDivergence list.now primary.now) }
{
    for place in 0..list.len() {
        if place >= primary.len() {
            return Ok(Some(place as u64));
        }
        if !are_same(alloc, &list[place], &primary[place])? {
            return Ok(Some(place as u64));
        }
    }
    Ok(None)
}
