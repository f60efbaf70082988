//! Octets that are written once there are enough of them.

ghost use Rattle.std.specs.Prelude.{◌≡◌, ◌≤◌, ◌++◌, Err, All, OnOk, OnErr};
ghost use Rattle.cluster_types.specs.Causes.{Rose};
ghost use Rattle.edges.specs.Streams.{Added};
ghost use Rattle.record_codec.specs.Spelling.{HasRecord};
ghost use Rattle.record_codec.specs.Records.{spellings};
ghost use Rattle.database_text.specs.Sent.{Sent, SentSome};

use crate::fault::WriteError;
use cluster_types::entry::Entry;
use edges::sink::{Sink, write_all};
use record_codec::writing::write_entry;

/// Octets are written once there are so many.
const PIECE: usize = 65_536;

/// Writes all of these octets, or a front of them.
pub fn put<K: Sink>(output: &mut K, octets: &[u8]) -> Result<(), WriteError>
    ensures ok { OnOk result (Added octets.now (K.written output.old) (K.written output.new)) }
    ensures err { OnErr result (SentSome octets.now (K.written output.old) (K.written output.new)) }
    ensures cause { result ≡ Err WriteError.WriteFailed → Rose (K.faults output.old) (K.faults output.new) }
    ensures kind { OnErr result (result ≡ Err WriteError.WriteFailed) }
    ensures later { K.faults output.old ≤ K.faults output.new }
{
    match write_all(output, octets) {
        Ok(()) => Ok(()),
        Err(_) => Err(WriteError::WriteFailed),
    }
}

/// Writes the pending octets and takes them out, once there are enough.
pub fn put_full<K: Sink>(output: &mut K, pending: &mut Vec<u8>) -> Result<(), WriteError>
    ensures ok { OnOk result (Sent pending.old.items (K.written output.old) (K.written output.new) pending.new.items) }
    ensures err { OnErr result (SentSome pending.old.items (K.written output.old) (K.written output.new)) }
    ensures cause { result ≡ Err WriteError.WriteFailed → Rose (K.faults output.old) (K.faults output.new) }
    ensures kind { OnErr result (result ≡ Err WriteError.WriteFailed) }
    ensures later { K.faults output.old ≤ K.faults output.new }
{
    if pending.len() < PIECE {
        return Ok(());
    }
    put(output, pending.as_slice())?;
    pending.clear();
    Ok(())
}

/// Writes the records of entries behind the pending octets, but for those that are pending then.
pub fn put_records<K: Sink>(
    output: &mut K,
    pending: &mut Vec<u8>,
    entries: &[Entry],
) -> Result<(), WriteError>
    requires { All HasRecord entries.now }
    ensures ok { OnOk result (Sent (pending.old.items ++ spellings entries.now) (K.written output.old) (K.written output.new) pending.new.items) }
    ensures err { OnErr result (SentSome (pending.old.items ++ spellings entries.now) (K.written output.old) (K.written output.new)) }
    ensures cause { result ≡ Err WriteError.WriteFailed → Rose (K.faults output.old) (K.faults output.new) }
    ensures kind { result ≡ Err WriteError.TooLong → ⊥ }
    ensures later { K.faults output.old ≤ K.faults output.new }
{
    for entry in entries {
        write_entry(pending, entry)?;
        put_full(output, pending)?;
    }
    Ok(())
}
