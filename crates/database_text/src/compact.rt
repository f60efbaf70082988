//! Writing the list of a disk as a journal at once.

ghost use Rattle.std.specs.Prelude.{◌≡◌, ◌≤◌, ◌⊎◌, ℕ, List, All, IfOk};
ghost use Rattle.cluster_types.specs.Causes.{Rose};
ghost use Rattle.cluster_types.specs.declared.entry.Entry.{Entry as EntryType};
ghost use Rattle.cluster_store.specs.Openings.{IsFit};
ghost use Rattle.database_text.specs.Compact.{compacted};
ghost use Rattle.edges.specs.Streams.{Added, AddedFront};
ghost use Rattle.record_codec.specs.Spelling.{HasRecord};
ghost use Rattle.task_journal.specs.Journal.{StandsFor};
ghost use Rattle.task_journal.specs.Reads.{OnlyReads};
ghost use Rattle.database_text.specs.Texts.{IsRefusal};
ghost use Rattle.database_text.specs.Compacted.{thin_list, compact_octets, HoldsNoFit, IsUnfitAt, IsCompacted};

use crate::database::list_on;
use crate::fault::WriteError;
use crate::thinning::thinned;
use crate::writing::write_journal;
use cluster_types::entry::{Entries, Entry};
use command_words::ending::Ending;
use disk_model::disk::Disk;
use edges::sink::Sink;
use load_schemes::chooser::Chooser;
use std::alloc::{AllocError, Global};

/// The entries of a list without what purges let go.
#[tactic(auto, unfolding(crate::specs::Compacted::thin_list))]
fn thin_entries(alloc: Global, entries: &Entries) -> Result<Entries, AllocError>
    requires fit { IsFit entries.now }
    requires has { All HasRecord entries.now }
    ensures thin { IfOk result (λ t. t ≡ thin_list entries.now) }
{
    thinned(alloc, entries)
}

/// Writes the journal of entries, and says how that ended.
fn write<K: Sink>(alloc: Global, entries: &[Entry], output: &mut K) -> Ending
    requires { All HasRecord entries.now }
    ensures done { result ≡ Ending.Done → Added (compacted entries.now) (K.written output.old) (K.written output.new) }
    ensures stands { result ≡ Ending.Done → StandsFor (compacted entries.now) entries.now }
    ensures front { AddedFront (compacted entries.now) (K.written output.old) (K.written output.new) }
    ensures write_fault { result ≡ Ending.WriteFault → Rose (K.faults output.old) (K.faults output.new) }
    ensures endings { (result ≡ Ending.Done) ⊎ (result ≡ Ending.WriteFault) ⊎ (result ≡ Ending.OutOfMemory) }
{
    match write_journal(alloc, entries, output) {
        Ok(()) => Ending::Done,
        Err(WriteError::WriteFailed) => Ending::WriteFault,
        // No batch holds a record of 2^32 octets or more, so none comes from a journal.
        Err(WriteError::TooLong) => Ending::OutOfMemory,
        Err(WriteError::OutOfMemory) => Ending::OutOfMemory,
    }
}

/// Writes the journal of entries without what purges let go, and says how that ended.
fn write_thin<K: Sink>(alloc: Global, entries: &Entries, output: &mut K) -> Ending
    requires fit { IsFit entries.now }
    requires has { All HasRecord entries.now }
    ensures done { result ≡ Ending.Done → Added (compact_octets entries.now) (K.written output.old) (K.written output.new) }
    ensures stands { result ≡ Ending.Done → StandsFor (compact_octets entries.now) (thin_list entries.now) }
    ensures front { AddedFront (compact_octets entries.now) (K.written output.old) (K.written output.new) }
    ensures write_fault { result ≡ Ending.WriteFault → Rose (K.faults output.old) (K.faults output.new) }
    ensures endings { (result ≡ Ending.Done) ⊎ (result ≡ Ending.WriteFault) ⊎ (result ≡ Ending.OutOfMemory) }
{
    match thin_entries(alloc, entries) {
        Ok(thin) => write(alloc, thin.as_slice(), output),
        Err(AllocError) => Ending::OutOfMemory,
    }
}

/// Writes the list of a disk to the output as a journal at once, without what purges let go.
///
/// It answers `Done`; `Damaged` where the disk holds no journal, a damaged one, or one of a list that no cluster goes on
/// from, with the place of the first fault; `DiskFault` or `WriteFault` where a call failed; or `OutOfMemory`. The disk isn't
/// written.
pub fn compact<D: Disk, K: Sink>(
    alloc: Global,
    disk: &mut D,
    chooser: &Chooser,
    output: &mut K,
) -> Ending
    // At Done the whole journal was written, and it stands for the list without what purges let go. At any other end a
    // front of it was written.
    ensures done { result ≡ Ending.Done → IsCompacted D.tells (D.content disk.old) (K.written output.old) (K.written output.new) }
    ensures front { D.tells → (list : List EntryType) → StandsFor (D.content disk.old) list → AddedFront (compact_octets list) (K.written output.old) (K.written output.new) }

    // A disk that is refused is so at that place, unless a call of it failed or memory ran out. Nothing was written.
    ensures damaged { D.tells → (place : ℕ) → result ≡ Ending.Damaged place → IsUnfitAt (D.content disk.old) place }
    ensures refused { D.tells → HoldsNoFit (D.content disk.old) → IsRefusal result × (K.written output.new ≡ K.written output.old) }
    ensures unwritten { (result ≡ Ending.DiskFault) ⊎ ((place : ℕ) × (result ≡ Ending.Damaged place)) → K.written output.new ≡ K.written output.old }

    ensures disk_fault { result ≡ Ending.DiskFault → Rose (D.faults disk.old) (D.faults disk.new) }
    ensures write_fault { result ≡ Ending.WriteFault → Rose (K.faults output.old) (K.faults output.new) }
    ensures endings { IsRefusal result ⊎ (result ≡ Ending.Done) ⊎ (result ≡ Ending.WriteFault) }
    ensures reads { OnlyReads D.content D.image D.moment D.image_since D.faults disk.old disk.new }
{
    match list_on(alloc, disk, chooser) {
        Ok(entries) => write_thin(alloc, &entries, output),
        Err(ending) => ending,
    }
}
