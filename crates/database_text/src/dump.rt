//! Printing the entries of a disk.

ghost use Rattle.std.specs.Prelude.{◌≡◌, ◌≤◌, ◌⊎◌, ◌++◌, ℕ, List, Err, OnOk, OnErr};
ghost use Rattle.cluster_types.specs.Causes.{Rose};
ghost use Rattle.cluster_types.specs.declared.entry.Entry.{Entry as EntryType};
ghost use Rattle.edges.specs.Streams.{Added, AddedFront};
ghost use Rattle.database_text.specs.Lines.{line, text};
ghost use Rattle.task_journal.specs.declared.fault.OpenFault.{OpenFault as FaultType};
ghost use Rattle.task_journal.specs.Journal.{StandsFor, Fails, journal};
ghost use Rattle.task_journal.specs.Reads.{OnlyReads};
ghost use Rattle.database_text.specs.Texts.{IsDamaged, IsRefusal};

use crate::database::{add_line, ending_at, whole_on};
use command_words::ending::Ending;
use disk_model::disk::Disk;
use edges::sink::{Sink, WriteFailed, write_all};
use std::alloc::{AllocError, Global};
use task_journal::cursor::{Cursor, Placed};
use task_journal::fault::OpenFault;

/// Lines are written once they have so many octets.
const PIECE: usize = 65_536;

/// Why the lines of entries weren't all written.
#[derive(Debug, Drop)]
enum PrintError {
    /// The entries couldn't be had.
    Unread(OpenFault),
    WriteFailed,
}

impl From<OpenFault> for PrintError {
    ghost use Rattle.std.specs.Prelude.{◌≡◌};
    ghost use Rattle.database_text.specs.declared.dump.PrintError.{PrintError};

    ghost from_gives = { λ fault e. e ≡ PrintError.Unread fault };

    fn from(fault: OpenFault) -> Self {
        PrintError::Unread(fault)
    }
}

impl From<AllocError> for PrintError {
    ghost use Rattle.std.specs.Prelude.{◌≡◌};
    ghost use Rattle.task_journal.specs.declared.fault.OpenFault.{OpenFault};
    ghost use Rattle.database_text.specs.declared.dump.PrintError.{PrintError};

    ghost from_gives = { λ _ e. e ≡ PrintError.Unread OpenFault.OutOfMemory };

    fn from(_: AllocError) -> Self {
        PrintError::Unread(OpenFault::OutOfMemory)
    }
}

impl From<WriteFailed> for PrintError {
    ghost use Rattle.std.specs.Prelude.{◌≡◌};
    ghost use Rattle.database_text.specs.declared.dump.PrintError.{PrintError};

    ghost from_gives = { λ _ e. e ≡ PrintError.WriteFailed };

    fn from(_: WriteFailed) -> Self {
        PrintError::WriteFailed
    }
}

/// Writes all of these octets, or a front of them.
fn put<K: Sink>(output: &mut K, octets: &[u8]) -> Result<(), WriteFailed>
    ensures ok { OnOk result (Added octets.now (K.written output.old) (K.written output.new)) }
    ensures err { OnErr result (AddedFront octets.now (K.written output.old) (K.written output.new)) }
    ensures cause { OnErr result (Rose (K.faults output.old) (K.faults output.new)) }
    ensures later { K.faults output.old ≤ K.faults output.new }
{
    write_all(output, octets)
}

/// Writes lines and takes them out, once they have enough octets.
fn put_full<K: Sink>(output: &mut K, pending: &mut Vec<u8>) -> Result<(), WriteFailed>
    ensures ok { OnOk result ((front : List ℕ) × (pending.old.items ≡ front ++ pending.new.items) × Added front (K.written output.old) (K.written output.new)) }
    ensures err { OnErr result (AddedFront pending.old.items (K.written output.old) (K.written output.new)) }
    ensures cause { OnErr result (Rose (K.faults output.old) (K.faults output.new)) }
    ensures later { K.faults output.old ≤ K.faults output.new }
{
    if pending.len() < PIECE {
        return Ok(());
    }
    put(output, pending.as_slice())?;
    pending.clear();
    Ok(())
}

/// Adds the line of an entry to those that wait, and writes these once they have enough octets.
fn put_entry<K: Sink>(
    output: &mut K,
    pending: &mut Vec<u8>,
    placed: Placed,
) -> Result<(), PrintError>
    ensures ok { OnOk result ((front : List ℕ) × (pending.old.items ++ line placed.entry ≡ front ++ pending.new.items) × Added front (K.written output.old) (K.written output.new)) }
    ensures err { OnErr result (AddedFront (pending.old.items ++ line placed.entry) (K.written output.old) (K.written output.new)) }
    ensures fault { (fault : FaultType) → result ≡ Err (PrintError.Unread fault) → fault ≡ OpenFault.OutOfMemory }
    ensures cause { result ≡ Err PrintError.WriteFailed → Rose (K.faults output.old) (K.faults output.new) }
    ensures later { K.faults output.old ≤ K.faults output.new }
{
    add_line(pending, placed)?;
    put_full(output, pending)?;
    Ok(())
}

/// Writes the lines of the entries of a disk while it reads them, or a front of them. Of the text no more is in memory
/// than a piece and a line.
fn put_lines<D: Disk, K: Sink>(
    alloc: Global,
    disk: &mut D,
    output: &mut K,
) -> Result<(), PrintError>
    ensures ok { OnOk result ((list : List EntryType) × (D.tells → StandsFor (D.content disk.old) list) × Added (text list) (K.written output.old) (K.written output.new)) }
    ensures front { D.tells → (list : List EntryType) → StandsFor (D.content disk.old) list → AddedFront (text list) (K.written output.old) (K.written output.new) }
    ensures fault { D.tells → (fault : FaultType) → result ≡ Err (PrintError.Unread fault) → Fails fault (journal (D.content disk.old)) }
    ensures disk_cause { result ≡ Err (PrintError.Unread OpenFault.DiskFault) → Rose (D.faults disk.old) (D.faults disk.new) }
    ensures write_cause { result ≡ Err PrintError.WriteFailed → Rose (K.faults output.old) (K.faults output.new) }
    ensures reads { OnlyReads D.content D.image D.moment D.image_since D.faults disk.old disk.new }
{
    let mut lines = Vec::new(alloc);
    let mut cursor = Cursor::begin(alloc, disk)?;
    while let Some(placed) = cursor.next(alloc, disk)? {
        put_entry(output, &mut lines, placed)?;
    }
    put(output, lines.as_slice())?;
    Ok(())
}

/// Writes the lines of the entries of a disk, and says how that ended.
fn print<D: Disk, K: Sink>(alloc: Global, disk: &mut D, output: &mut K) -> Ending
    ensures done { result ≡ Ending.Done → (list : List EntryType) × (D.tells → StandsFor (D.content disk.old) list) × Added (text list) (K.written output.old) (K.written output.new) }
    ensures front { D.tells → (list : List EntryType) → StandsFor (D.content disk.old) list → AddedFront (text list) (K.written output.old) (K.written output.new) }
    ensures damaged { D.tells → (place : ℕ) → result ≡ Ending.Damaged place → IsDamaged (D.content disk.old) place }
    ensures disk_fault { result ≡ Ending.DiskFault → Rose (D.faults disk.old) (D.faults disk.new) }
    ensures write_fault { result ≡ Ending.WriteFault → Rose (K.faults output.old) (K.faults output.new) }
    ensures endings { IsRefusal result ⊎ (result ≡ Ending.Done) ⊎ (result ≡ Ending.WriteFault) }
    ensures reads { OnlyReads D.content D.image D.moment D.image_since D.faults disk.old disk.new }
{
    match put_lines(alloc, disk, output) {
        Ok(()) => Ending::Done,
        Err(PrintError::WriteFailed) => Ending::WriteFault,
        Err(PrintError::Unread(fault)) => ending_at(fault),
    }
}

/// Writes the text of the entries that a disk stands for to the output, a line for each.
///
/// The journal is read twice: first to its end, so that nothing is written of a disk that is refused, and then again, while
/// the lines are written. So it takes memory for a piece of the disk, a piece of the text and an entry, and not for the
/// journal.
///
/// It answers `Done`; `Damaged` where the disk holds no journal or a damaged one, with the place of the first fault;
/// `DiskFault` or `WriteFault` where a call failed; or `OutOfMemory`. The disk isn't written. Where another program changes
/// the disk meanwhile, `Damaged` may come when lines were written already.
pub fn dump<D: Disk, K: Sink>(alloc: Global, disk: &mut D, output: &mut K) -> Ending
    // At Done all of the text was written, and at any other end a front of it.
    ensures done { result ≡ Ending.Done → (list : List EntryType) × (D.tells → StandsFor (D.content disk.old) list) × Added (text list) (K.written output.old) (K.written output.new) }
    ensures front { D.tells → (list : List EntryType) → StandsFor (D.content disk.old) list → AddedFront (text list) (K.written output.old) (K.written output.new) }

    // A disk that is refused is damaged at that place, unless a call of it failed or memory ran out. Nothing was written.
    ensures damaged { D.tells → (place : ℕ) → result ≡ Ending.Damaged place → IsDamaged (D.content disk.old) place }
    ensures refused { D.tells → (place : ℕ) → IsDamaged (D.content disk.old) place → IsRefusal result × (K.written output.new ≡ K.written output.old) }
    ensures unwritten { D.tells → (place : ℕ) → result ≡ Ending.Damaged place → K.written output.new ≡ K.written output.old }

    ensures disk_fault { result ≡ Ending.DiskFault → Rose (D.faults disk.old) (D.faults disk.new) }
    ensures write_fault { result ≡ Ending.WriteFault → Rose (K.faults output.old) (K.faults output.new) }
    ensures endings { IsRefusal result ⊎ (result ≡ Ending.Done) ⊎ (result ≡ Ending.WriteFault) }
    ensures reads { OnlyReads D.content D.image D.moment D.image_since D.faults disk.old disk.new }
{
    match whole_on(alloc, disk) {
        Ok(()) => print(alloc, disk, output),
        Err(ending) => ending,
    }
}
