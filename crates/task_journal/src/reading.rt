//! Reading a journal.

ghost use Rattle.std.specs.Prelude.{◌≡◌, ◌<◌, ◌≤◌, ◌+◌, ◌^◌, length, Some, All, IfOk, OnOk, IsErrOf};
ghost use Rattle.cluster_types.specs.Causes.{Rose};
ghost use Rattle.record_codec.specs.Spelling.{HasRecord};
ghost use Rattle.task_journal.specs.Reads.{OnlyReads};
ghost use Rattle.task_journal.specs.Journal.{Gives, journal, holding, last_of};
ghost use Rattle.task_journal.specs.Versions.{version_in};

use crate::cursor::Cursor;
use crate::fault::OpenFault;
use crate::found::{Found, Places};
use crate::version::Version;
use cluster_types::entry::Entries;
use disk_model::disk::Disk;
use std::alloc::Global;

/// What a disk stands for, the place of its first closed gate, which is 0 for a disk of fewer than 33 octets, and the version
/// of its journal, where it has 33 or more.
pub(crate) fn read_found<D: Disk>(
    alloc: Global,
    disk: &mut D,
) -> Result<(Found, u64, Version), OpenFault>
    ensures value { D.tells → Gives (λ x. x.0) result (journal (D.content disk.old)) }
    ensures gate { IfOk result (λ x. last_of x.0.places ≡ Some x.1) }
    ensures has { IfOk result (λ x. All HasRecord x.0.entries) }
    ensures count { IfOk result (λ x. length x.0.places ≡ length x.0.entries + 1) }
    ensures version { D.tells → 33 ≤ length (D.content disk.old) → IfOk result (λ x. x.2 ≡ version_in (D.content disk.old)) }
    ensures fits { D.tells → OnOk result (length (D.content disk.old) < 2 ^ 64) }
    ensures reads { OnlyReads D.content D.image D.moment D.image_since D.faults disk.old disk.new }
    ensures cause { IsErrOf result OpenFault.DiskFault → Rose (D.faults disk.old) (D.faults disk.new) }
{
    let mut cursor = Cursor::begin(alloc, disk)?;
    let mut found = Found {
        entries: Entries::new(alloc),
        places: Places::new(alloc),
    };
    while let Some(placed) = cursor.next(alloc, disk)? {
        found.entries.push(placed.entry)?;
        found.places.push(placed.place)?;
    }
    let gate = cursor.gate();
    found.places.push(gate)?;
    Ok((found, gate, cursor.version()))
}

/// The entries of a journal in order, and the offsets of their records with that of the first closed gate behind them.
/// A disk of fewer than 33 octets stands for no entries, and the one place is 0. Nothing is written.
pub fn read_journal<D: Disk>(alloc: Global, disk: &mut D) -> Result<(Entries, Places), OpenFault>
    ensures value { D.tells → Gives (λ x. holding x.0 x.1) result (journal (D.content disk.old)) }
    ensures has { IfOk result (λ x. All HasRecord x.0) }
    ensures count { IfOk result (λ x. length x.1 ≡ length x.0 + 1) }
    ensures reads { OnlyReads D.content D.image D.moment D.image_since D.faults disk.old disk.new }
    ensures cause { IsErrOf result OpenFault.DiskFault → Rose (D.faults disk.old) (D.faults disk.new) }
{
    let (found, _, _) = read_found(alloc, disk)?;
    let Found { entries, places } = found;
    Ok((entries, places))
}
