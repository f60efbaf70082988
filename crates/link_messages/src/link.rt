//! Writing to a link.

ghost use Rattle.std.specs.Prelude.{◌≡◌, ◌≤◌, OnOk, OnErr, Err};
ghost use Rattle.cluster_types.specs.Causes.{Rose};
ghost use Rattle.edges.specs.Streams.{Added, AddedFront};

use crate::end::SessionEnd;
use edges::sink::{Sink, write_all};

/// Writes octets, or a front of them.
pub fn write<K: Sink>(writer: &mut K, octets: &[u8]) -> Result<(), SessionEnd>
    ensures ok { OnOk result (Added octets.now (K.written writer.old) (K.written writer.new)) }
    ensures err { OnErr result ((result ≡ Err SessionEnd.LinkFault) × AddedFront octets.now (K.written writer.old) (K.written writer.new)) }
    ensures cause { OnErr result (Rose (K.faults writer.old) (K.faults writer.new)) }
    ensures later { K.faults writer.old ≤ K.faults writer.new }
{
    match write_all(writer, octets) {
        Ok(()) => Ok(()),
        Err(_) => Err(SessionEnd::LinkFault),
    }
}
