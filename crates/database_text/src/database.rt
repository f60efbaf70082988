//! The entries of a disk.

ghost use Rattle.std.specs.Prelude.{◌≡◌, ◌⊎◌, ◌++◌, ℕ, List, All, OnOk, IfOk, IfErr, IsErrOf};
ghost use Rattle.cluster_types.specs.declared.entry.Entry.{Entry as EntryType};
ghost use Rattle.cluster_types.specs.Causes.{Rose};
ghost use Rattle.cluster_store.specs.Openings.{IsFit};
ghost use Rattle.record_codec.specs.Spelling.{HasRecord};
ghost use Rattle.database_text.specs.Lines.{line};
ghost use Rattle.task_journal.specs.Journal.{StandsFor, Fails, journal};
ghost use Rattle.task_journal.specs.Reads.{OnlyReads};
ghost use Rattle.database_text.specs.Texts.{IsDamaged, IsRefusal};
ghost use Rattle.database_text.specs.Compacted.{IsUnfitAt};

use crate::lines::put_line;
use cluster_store::opening::read_list;
use cluster_types::entry::Entries;
use command_words::ending::Ending;
use disk_model::disk::Disk;
use load_schemes::chooser::Chooser;
use std::alloc::{AllocError, Global};
use task_journal::cursor::{Cursor, Placed};
use task_journal::fault::OpenFault;

/// How a command ends at a fault of reading.
pub fn ending_at(fault: OpenFault) -> Ending
    ensures refusal { IsRefusal result }
    ensures damaged { (place : ℕ) → result ≡ Ending.Damaged place → (fault ≡ OpenFault.NotAJournal place) ⊎ (fault ≡ OpenFault.Damaged place) }
    ensures disk_fault { result ≡ Ending.DiskFault → fault ≡ OpenFault.DiskFault }
{
    match fault {
        OpenFault::NotAJournal(place) => Ending::Damaged(place),
        OpenFault::Damaged(place) => Ending::Damaged(place),
        OpenFault::DiskFault => Ending::DiskFault,
        OpenFault::OutOfMemory => Ending::OutOfMemory,
    }
}

/// Adds the line of an entry.
pub fn add_line(lines: &mut Vec<u8>, placed: Placed) -> Result<(), AllocError>
    ensures { OnOk result (lines.new.items ≡ lines.old.items ++ line placed.entry) }
{
    let added = put_line(lines, &placed.entry);
    drop(placed);
    added
}

/// Reads the journal of a disk to its end, and keeps nothing of it.
fn read_through<D: Disk>(alloc: Global, disk: &mut D) -> Result<(), OpenFault>
    ensures whole { D.tells → OnOk result ((list : List EntryType) × StandsFor (D.content disk.old) list) }
    ensures fault { D.tells → IfErr result (λ fault. Fails fault (journal (D.content disk.old))) }
    ensures reads { OnlyReads D.content D.image D.moment D.image_since D.faults disk.old disk.new }
    ensures cause { IsErrOf result OpenFault.DiskFault → Rose (D.faults disk.old) (D.faults disk.new) }
{
    let mut cursor = Cursor::begin(alloc, disk)?;
    while let Some(placed) = cursor.next(alloc, disk)? {
        drop(placed);
    }
    Ok(())
}

/// Whether a disk stands for entries, or how a command ends that can't have them.
pub fn whole_on<D: Disk>(alloc: Global, disk: &mut D) -> Result<(), Ending>
    ensures whole { D.tells → OnOk result ((list : List EntryType) × StandsFor (D.content disk.old) list) }
    ensures refusal { IfErr result IsRefusal }
    ensures damaged { D.tells → IfErr result (λ ending. (place : ℕ) → ending ≡ Ending.Damaged place → IsDamaged (D.content disk.old) place) }
    ensures reads { OnlyReads D.content D.image D.moment D.image_since D.faults disk.old disk.new }
    ensures cause { IsErrOf result Ending.DiskFault → Rose (D.faults disk.old) (D.faults disk.new) }
{
    match read_through(alloc, disk) {
        Ok(()) => Ok(()),
        Err(fault) => Err(ending_at(fault)),
    }
}

/// The list of a disk, in order, where it is one that a cluster goes on from, or how a command ends that can't have it.
pub fn list_on<D: Disk>(alloc: Global, disk: &mut D, chooser: &Chooser) -> Result<Entries, Ending>
    ensures list { D.tells → IfOk result (λ list. StandsFor (D.content disk.old) list) }
    ensures fit { IfOk result IsFit }
    ensures has { IfOk result (λ list. All HasRecord list) }
    ensures refusal { IfErr result IsRefusal }
    ensures damaged { D.tells → IfErr result (λ ending. (place : ℕ) → ending ≡ Ending.Damaged place → IsUnfitAt (D.content disk.old) place) }
    ensures reads { OnlyReads D.content D.image D.moment D.image_since D.faults disk.old disk.new }
    ensures cause { IsErrOf result Ending.DiskFault → Rose (D.faults disk.old) (D.faults disk.new) }
{
    match read_list(alloc, disk, chooser) {
        Ok(entries) => Ok(entries),
        Err(fault) => Err(ending_at(fault)),
    }
}
