//! Which entries go into which batch.

ghost use Rattle.std.specs.Prelude.{◌≡◌, ◌+◌, ◌-◌, ◌^◌, ◌<◌, ◌≤◌, ◌∷◌, [], ℕ, take, drop, min, length, All, IfOk};
ghost use Rattle.record_codec.specs.Spelling.{IsWithinLimits};
ghost use Rattle.record_codec.specs.Records.{spellings};
ghost use Rattle.journal_standby.specs.Batches.{batches, most_octets};
ghost use Rattle.journal_standby.specs.Steps.{is_input, steps, HasShortSteps, most_in_step};

use crate::lists::copied;
use cluster_types::entry::Entry;
use record_codec::size::record_size;
use std::alloc::{AllocError, Global};
use task_journal::batch::Batch;

/// The most octets that the records of a batch have together, where it has several steps.
const MOST_OCTETS: u64 = 1_073_741_824;

/// Whether an entry is an input, with which a step begins.
fn is_input(entry: &Entry) -> bool
    ensures { result ≡ is_input entry.now }
{
    match entry {
        Entry::Input(_) => true,
        Entry::Hand { .. } => false,
        Entry::Settle { .. } => false,
        Entry::Lose { .. } => false,
    }
}

/// The number of octets of the records of entries, or the greatest number where that is less.
pub(crate) fn records_size(entries: &[Entry]) -> u64
    ensures { result ≡ min (length (spellings entries.now)) (2 ^ 64 - 1) }
{
    let mut size: u64 = 0;
    for entry in entries {
        size = size.saturating_add(record_size(entry));
    }
    size
}

/// How many entries the first step of entries has.
fn first_step(entries: &[Entry]) -> usize
    requires { 0 < length entries.now }
    ensures some { 0 < result }
    ensures within { result ≤ length entries.now }
    ensures is { steps entries.now ≡ take result entries.now ∷ steps (drop result entries.now) }
{
    for place in 1..entries.len() {
        if is_input(&entries[place]) {
            return place;
        }
    }
    entries.len()
}

/// How many entries the first batch of entries takes.
fn first_batch(entries: &[Entry]) -> usize
    requires some { 0 < length entries.now }
    requires short { HasShortSteps entries.now }
    ensures some { 0 < result }
    ensures within { result ≤ length entries.now }
    ensures is { batches entries.now ≡ take result entries.now ∷ batches (drop result entries.now) }
    ensures fits { length (spellings (take result entries.now)) ≤ most_in_step }
    ensures rest { HasShortSteps (drop result entries.now) }
{
    let mut taken = first_step(entries);
    let mut size = records_size(&entries[..taken]);
    while taken < entries.len() {
        let end = taken + first_step(&entries[taken..]);
        size = size.saturating_add(records_size(&entries[taken..end]));
        if size > MOST_OCTETS {
            return taken;
        }
        taken = end;
    }
    taken
}

/// The batch of entries.
fn batch_of(alloc: Global, entries: &[Entry]) -> Result<Batch, AllocError>
    requires each { All IsWithinLimits entries.now }
    requires short { length (spellings entries.now) < 2 ^ 32 }
    ensures { IfOk result (λ b. b ≡ entries.now) }
{
    let entries = copied(alloc, entries)?;
    Batch::new(alloc, &entries)
}

/// The batches in which entries are appended: each takes whole steps while its records have at most 2^30 octets, and one at
/// least.
pub(crate) fn batches_of(alloc: Global, entries: &[Entry]) -> Result<Vec<Batch>, AllocError>
    requires each { All IsWithinLimits entries.now }
    requires short { HasShortSteps entries.now }
    ensures { IfOk result (λ v. v.items ≡ batches entries.now) }
{
    let mut made = Vec::new(alloc);
    let mut rest = entries;
    while !rest.is_empty() {
        let (batch, behind) = rest.split_at(first_batch(rest));
        made.push(batch_of(alloc, batch)?)?;
        rest = behind;
    }
    Ok(made)
}
