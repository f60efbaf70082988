//! Batches of entries.

ghost use Rattle.std.specs.Prelude.{◌≡◌, ◌+◌, ◌-◌, ◌^◌, ◌<◌, ◌≤◌, ◌++◌, ◌∷◌, ◌↔◌, [], min, take, drop, All, length, vec_len, vec_capacity, true, IfOk, OnOk, OnErr, Err};
ghost use Rattle.edges.specs.Spelling.{be32};
ghost use Rattle.record_codec.specs.Spelling.{IsWithinLimits, HasRecord};
ghost use Rattle.record_codec.specs.Records.{spellings};
ghost use Rattle.task_journal.specs.Batch.{IsBatch, entries_in};

use crate::fault::ExtendFault;
use cluster_types::entry::{Entries, Entry};
use edges::writing::put_number32;
use record_codec::size::entry_size;
use record_codec::writing::write_entry;
use std::alloc::{AllocError, Global};
use std::marker::Model;

/// Entries as they are written, which contracts see as the list of the entries.
#[derive(Drop)]
pub struct Batch {
    octets: Vec<u8>,
    count: u32,
}

impl Model for Batch {
    ghost use Rattle.std.specs.Prelude.{◌≡◌, List, drop, length};
    ghost use Rattle.cluster_types.specs.declared.entry.Entry.{Entry};
    ghost use Rattle.task_journal.specs.Batch.{IsBatch, entries_in};

    ghost Value = { List Entry };

    ghost view = { λ b. entries_in b.count (drop 9 b.octets.items) };

    ghost invariant = { λ b. IsBatch b.octets.items (entries_in b.count (drop 9 b.octets.items)) × (b.count ≡ length (entries_in b.count (drop 9 b.octets.items))) };
}

/// The number of octets of the records of entries.
fn records_size(entries: &[Entry]) -> u32
    requires each { All IsWithinLimits entries.now }
    requires short { length (spellings entries.now) < 2 ^ 32 }
    ensures { result ≡ length (spellings entries.now) }
{
    let mut size = 0;
    for entry in entries {
        size += entry_size(entry) as u32;
    }
    size
}

/// Appends the records of entries.
fn write_entries(into: &mut Vec<u8>, entries: &[Entry]) -> Result<(), AllocError>
    requires { All IsWithinLimits entries.now }
    ensures records { OnOk result (into.new.items ≡ into.old.items ++ spellings entries.now) }
    ensures has { OnOk result (All HasRecord entries.now) }
{
    for entry in entries {
        write_entry(into, entry)?;
    }
    Ok(())
}

/// The batch of entries as it is written behind a closed gate.
fn written(alloc: Global, entries: &[Entry]) -> Result<Vec<u8>, AllocError>
    requires each { All IsWithinLimits entries.now }
    requires short { length (spellings entries.now) < 2 ^ 32 }
    ensures { IfOk result (λ v. IsBatch v.items entries.now) }
{
    let mut octets = Vec::new(alloc);
    octets.push(0)?;
    put_number32(&mut octets, records_size(entries))?;
    put_number32(&mut octets, entries.len() as u32)?;
    write_entries(&mut octets, entries)?;
    octets.push(0)?;
    Ok(octets)
}

/// The number of octets of records with those of further entries, or the greatest number where it is more.
fn size_with(size: u64, entries: &[Entry]) -> u64
    requires { All IsWithinLimits entries.now }
    ensures { result ≡ min (size + length (spellings entries.now)) (2 ^ 64 - 1) }
{
    let mut size = size;
    for entry in entries {
        size = size.saturating_add(entry_size(entry));
    }
    size
}

/// Puts records before the gate that stands last, into the room that is there.
fn put_records(octets: &mut Vec<u8>, mut records: Vec<u8>)
    requires gate { 0 < vec_len octets.old }
    requires room { vec_len octets.old + vec_len records ≤ vec_capacity octets.old }
    ensures { octets.new.items ≡ take (length octets.old.items - 1) octets.old.items ++ records.items ++ 0 ∷ [] }
{
    let _gate = octets.pop();
    let _ = octets.append(&mut records);
    octets.push_reserved(0);
}

/// Writes the length of the records and their number into the front.
#[tactic(auto, unfolding(edges::specs::Spelling::be32))]
fn put_front(octets: &mut Vec<u8>, size: u32, count: u32)
    requires { 9 ≤ length octets.old.items }
    ensures { octets.new.items ≡ take 1 octets.old.items ++ be32 size ++ be32 count ++ drop 9 octets.old.items }
{
    octets[1..5].copy_from_slice(&size.to_be_bytes());
    octets[5..9].copy_from_slice(&count.to_be_bytes());
}

impl Batch {
    /// The batch of no entries.
    pub fn empty(alloc: Global) -> Result<Batch, AllocError>
        ensures { IfOk result (λ b. b ≡ []) }
    {
        Batch::new(alloc, &Entries::new(alloc))
    }

    /// The batch of these entries, whose records have fewer than 2^32 octets together.
    pub fn new(alloc: Global, entries: &Entries) -> Result<Batch, AllocError>
        requires each { All IsWithinLimits entries.now }
        requires short { length (spellings entries.now) < 2 ^ 32 }
        ensures { IfOk result (λ b. b ≡ entries.now) }
    {
        let octets = written(alloc, entries.as_slice())?;
        Ok(Batch {
            octets,
            count: entries.len() as u32,
        })
    }

    /// Appends further entries, whose records are written now. At an error the batch stays as it is: at `TooLong` all
    /// records together would have 2^32 octets or more.
    pub fn extend(&mut self, entries: &[Entry]) -> Result<(), ExtendFault>
        requires { All IsWithinLimits entries.now }
        ensures added { OnOk result (self.new ≡ self.old ++ entries.now) }
        ensures same { OnErr result (self.new ≡ self.old) }
        ensures long { (result ≡ Err ExtendFault.TooLong) ↔ (2 ^ 32 ≤ length (spellings (self.old ++ entries.now))) }
    {
        let size = size_with(self.size(), entries);
        if size >= 1 << 32 {
            return Err(ExtendFault::TooLong);
        }
        let mut records = Vec::new(*self.octets.allocator());
        write_entries(&mut records, entries)?;
        self.octets.reserve(records.len())?;
        put_records(&mut self.octets, records);
        self.count += entries.len() as u32;
        put_front(&mut self.octets, size as u32, self.count);
        Ok(())
    }

    /// Takes all entries out, and keeps the room.
    pub fn clear(&mut self)
        ensures { self.new ≡ [] }
    {
        self.octets.truncate(9);
        self.octets.push_reserved(0);
        self.count = 0;
        put_front(&mut self.octets, 0, 0);
    }

    /// The number of octets of the records.
    pub fn size(&self) -> u64
        ensures { result ≡ length (spellings self.now) }
    {
        self.octets.len() as u64 - 10
    }

    /// Whether it has no entries.
    pub fn is_empty(&self) -> bool
        ensures { (result ≡ true) ↔ (self.now ≡ []) }
    {
        self.size() == 0
    }

    /// What is written behind a closed gate.
    pub(crate) fn octets(&self) -> &[u8]
        ensures { IsBatch result.now self.now }
    {
        self.octets.as_slice()
    }
}
