//! Writing a journal at once.

ghost use Rattle.std.specs.Prelude.{◌≡◌, ◌≤◌, ◌++◌, Err, All, OnOk, OnErr, IfOk};
ghost use Rattle.std.specs.List.{flat_map};
ghost use Rattle.cluster_types.specs.Causes.{Rose};
ghost use Rattle.edges.specs.Streams.{Added};
ghost use Rattle.record_codec.specs.Spelling.{HasRecord};
ghost use Rattle.task_journal.specs.Journal.{head, StandsFor};
ghost use Rattle.database_text.specs.Compact.{open_batch, batches, closing, compacted, FitsBatch, HasJournal};
ghost use Rattle.database_text.specs.Sent.{Sent, SentSome};

use crate::batches::{first_batch, put_front};
use crate::fault::WriteError;
use crate::pending::{put, put_records};
use cluster_types::entry::Entry;
use edges::sink::Sink;
use std::alloc::{AllocError, Global};

/// Writes a batch behind its open gate after the pending octets, but for those that are pending then.
#[tactic(auto, unfolding(crate::specs::Compact::open_batch))]
fn put_batch<K: Sink>(
    output: &mut K,
    pending: &mut Vec<u8>,
    entries: &[Entry],
) -> Result<(), WriteError>
    requires { All HasRecord entries.now }
    ensures ok { OnOk result (Sent (pending.old.items ++ open_batch entries.now) (K.written output.old) (K.written output.new) pending.new.items) }
    ensures err { OnErr result (SentSome (pending.old.items ++ open_batch entries.now) (K.written output.old) (K.written output.new)) }
    ensures short { OnOk result (FitsBatch entries.now) }
    ensures long { result ≡ Err WriteError.TooLong → FitsBatch entries.now → ⊥ }
    ensures cause { result ≡ Err WriteError.WriteFailed → Rose (K.faults output.old) (K.faults output.new) }
    ensures later { K.faults output.old ≤ K.faults output.new }
{
    put_front(pending, entries)?;
    put_records(output, pending, entries)
}

/// Writes entries in batches after the pending octets, but for those that are pending then.
fn put_batches<K: Sink>(
    output: &mut K,
    pending: &mut Vec<u8>,
    entries: &[Entry],
) -> Result<(), WriteError>
    requires { All HasRecord entries.now }
    ensures ok { OnOk result (Sent (pending.old.items ++ flat_map open_batch (batches entries.now)) (K.written output.old) (K.written output.new) pending.new.items) }
    ensures err { OnErr result (SentSome (pending.old.items ++ flat_map open_batch (batches entries.now)) (K.written output.old) (K.written output.new)) }
    ensures short { OnOk result (HasJournal entries.now) }
    ensures long { result ≡ Err WriteError.TooLong → HasJournal entries.now → ⊥ }
    ensures cause { result ≡ Err WriteError.WriteFailed → Rose (K.faults output.old) (K.faults output.new) }
    ensures later { K.faults output.old ≤ K.faults output.new }
{
    let mut rest = entries;
    while !rest.is_empty() {
        let (batch, behind) = rest.split_at(first_batch(rest));
        put_batch(output, pending, batch)?;
        rest = behind;
    }
    Ok(())
}

/// The octets that a journal begins with.
fn new_head(alloc: Global) -> Result<Vec<u8>, AllocError>
    ensures { IfOk result (λ v. v.items ≡ head) }
{
    Vec::from_slice(
        alloc,
        b"IPCJRNL1\x00\x00\x00\x01\x02\x00\x00\x00\x00\x00\x00\x00\x00\x00\x00\x00\x00\x00\x00\x00\x00\x00\x00",
    )
}

/// The octets that a journal of entries ends with: a closed gate, and its pad where no batch stands before it.
fn closing(entries: &[Entry]) -> &'static [u8]
    ensures { result.now ≡ closing entries.now }
{
    match entries {
        [] => &[0, 0],
        [_, ..] => &[0],
    }
}

/// Writes the journal of entries, or a front of it: a head, the records in batches behind open gates, and a closed gate. It
/// is written in pieces, and no more is in memory than one of them and a record.
pub fn write_journal<K: Sink>(
    alloc: Global,
    entries: &[Entry],
    output: &mut K,
) -> Result<(), WriteError>
    requires { All HasRecord entries.now }
    ensures ok { OnOk result (Added (compacted entries.now) (K.written output.old) (K.written output.new)) }
    // What was written then stands for the entries.
    ensures stands { OnOk result (StandsFor (compacted entries.now) entries.now) }
    ensures err { OnErr result (SentSome (compacted entries.now) (K.written output.old) (K.written output.new)) }
    ensures long { result ≡ Err WriteError.TooLong → HasJournal entries.now → ⊥ }
    ensures cause { result ≡ Err WriteError.WriteFailed → Rose (K.faults output.old) (K.faults output.new) }
    ensures later { K.faults output.old ≤ K.faults output.new }
{
    let mut pending = new_head(alloc)?;
    put_batches(output, &mut pending, entries)?;
    pending.extend_from_slice(closing(entries))?;
    put(output, pending.as_slice())
}
