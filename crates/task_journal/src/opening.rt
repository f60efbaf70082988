//! Opening a journal.

ghost use Rattle.std.specs.Prelude.{◌≡◌, ◌≤◌, ◌<◌, ◌+◌, ◌⊎◌, List, ℕ, [], ◌∷◌, ◌++◌, length, false, Ok, Err, All, IfOk, IfErr, OnOk, IsErr, IsErrOf};
ghost use Rattle.cluster_types.specs.declared.entry.Entry.{Entry as EntryType};
ghost use Rattle.cluster_types.specs.Causes.{Rose};
ghost use Rattle.disk_model.specs.Crashes.{Only, NoMore, LeavesOnly};
ghost use Rattle.record_codec.specs.Spelling.{HasRecord};
ghost use Rattle.task_journal.specs.Journal.{StandsFor, Gives, Fails, IsSame, head, holding, journal};
ghost use Rattle.task_journal.specs.Settled.{IsJournal, IsReady, Unharmed, Spared, OnRefusal};
ghost use Rattle.task_journal.specs.Versions.{as_second};

use crate::fault::OpenFault;
use crate::found::{Found, Places};
use crate::journal::Journal;
use crate::reading::read_found;
use crate::version::Version;
use cluster_types::entry::Entries;
use disk_model::disk::{Disk, Failed};
use std::alloc::Global;

/// A disk on which no journal was opened, and why.
#[derive(Drop)]
pub struct Refused<D: Disk> {
    pub disk: D,
    pub why: OpenFault,
}

/// Makes an empty journal: a head with a closed gate, and behind it a pad once the gate is on the disk.
fn make<D: Disk>(disk: &mut D) -> Result<(), Failed>
    requires short { D.tells → length (D.content disk.old) < 33 }
    requires durable { D.tells → Only (D.content disk.old) (D.image disk.old) }
    ensures ready { D.tells → OnOk result (IsReady D.content D.image disk.new 31) }
    ensures empty { D.tells → OnOk result (StandsFor (D.content disk.new) []) }
    ensures made { D.tells → OnOk result (D.content disk.new ≡ head ++ 0 ∷ 0 ∷ []) }
    ensures any_moment { D.tells → LeavesOnly D.moment D.image_since disk.old disk.new (λ c. StandsFor c []) }
    ensures later { D.faults disk.old ≤ D.faults disk.new }
    ensures cause { IsErr result → Rose (D.faults disk.old) (D.faults disk.new) }
{
    let head =
        b"IPCJRNL1\x00\x00\x00\x01\x02\x00\x00\x00\x00\x00\x00\x00\x00\x00\x00\x00\x00\x00\x00\x00\x00\x00\x00\x00";
    disk.write_at(0, head)?;
    disk.sync()?;
    disk.write_at(32, &[0])?;
    disk.sync()?;
    Ok(())
}

/// Makes a journal of the first version one of the second: its version octet is written, and is then on the disk. A crash
/// leaves a journal of one version or the other, which stands for the same entries.
fn mark<D: Disk>(disk: &mut D) -> Result<(), Failed>
    requires journal { D.tells → IsJournal Version.First (D.content disk.old) }
    requires durable { D.tells → Only (D.content disk.old) (D.image disk.old) }
    ensures second { D.tells → OnOk result (D.content disk.new ≡ as_second (D.content disk.old)) }
    ensures durable { D.tells → OnOk result (Only (D.content disk.new) (D.image disk.new)) }
    ensures any_moment { D.tells → LeavesOnly D.moment D.image_since disk.old disk.new (λ c. IsSame c (D.content disk.old)) }
    ensures later { D.faults disk.old ≤ D.faults disk.new }
    ensures cause { IsErr result → Rose (D.faults disk.old) (D.faults disk.new) }
{
    disk.write_at(12, &[2])?;
    disk.sync()?;
    Ok(())
}

/// Makes a journal that was read one of the second version, unless it is.
fn migrate<D: Disk>(disk: &mut D, version: Version) -> Result<(), Failed>
    requires journal { D.tells → IsJournal version (D.content disk.old) }
    requires durable { D.tells → Only (D.content disk.old) (D.image disk.old) }
    ensures second { D.tells → OnOk result (D.content disk.new ≡ as_second (D.content disk.old)) }
    ensures durable { D.tells → OnOk result (Only (D.content disk.new) (D.image disk.new)) }
    ensures any_moment { D.tells → LeavesOnly D.moment D.image_since disk.old disk.new (λ c. IsSame c (D.content disk.old)) }
    ensures later { D.faults disk.old ≤ D.faults disk.new }
    ensures cause { IsErr result → Rose (D.faults disk.old) (D.faults disk.new) }
{
    match version {
        Version::First => mark(disk),
        Version::Second => Ok(()),
    }
}

/// Reads a journal, and makes its head where it has none, or makes it one of the second version. What was read is what the
/// disk held before.
fn prepare<D: Disk>(alloc: Global, disk: &mut D) -> Result<(Found, u64), OpenFault>
    ensures value { D.tells → Gives (λ x. x.0) result (journal (D.content disk.old)) }
    ensures has { IfOk result (λ x. All HasRecord x.0.entries) }
    ensures count { IfOk result (λ x. length x.0.places ≡ length x.0.entries + 1) }
    ensures ready { D.tells → IfOk result (λ x. IsReady D.content D.image disk.new x.1) }
    ensures same { D.tells → OnOk result (IsSame (D.content disk.new) (D.content disk.old)) }
    ensures kept { D.tells → 33 ≤ length (D.content disk.old) → OnOk result (D.content disk.new ≡ as_second (D.content disk.old)) }
    ensures made { D.tells → length (D.content disk.old) < 33 → OnOk result (D.content disk.new ≡ head ++ 0 ∷ 0 ∷ []) }
    ensures any_moment { D.tells → LeavesOnly D.moment D.image_since disk.old disk.new
        (Unharmed (D.image disk.old) (D.content disk.old)) }
    ensures spared { D.tells → IsErr result → Spared (D.image disk.old) (D.content disk.old) (D.image disk.new) }
    ensures untouched { IfErr result (λ e. OnRefusal e (NoMore (D.image disk.old) (D.image disk.new))) }
    ensures later { D.faults disk.old ≤ D.faults disk.new }
    ensures cause { IsErrOf result OpenFault.DiskFault → Rose (D.faults disk.old) (D.faults disk.new) }
{
    disk.sync()?;
    let (found, gate, version) = read_found(alloc, disk)?;
    if gate == 0 {
        make(disk)?;
        return Ok((found, 31));
    }
    migrate(disk, version)?;
    Ok((found, gate))
}

impl<D: Disk> Journal<D> {
    /// Opens the journal of a disk. It makes the head where the disk has fewer than 33 octets, and makes a journal of the
    /// first version, once it is read, one of the second. It gives the entries in order, and the offsets of their records
    /// with that of the first closed gate behind them, or 0 where the head was made. A refusal hands the disk back: it is
    /// untouched where it holds no journal or a damaged one.
    pub fn open(alloc: Global, disk: D) -> Result<(Journal<D>, Entries, Places), Refused<D>>
        ensures found { D.tells → IfOk result (λ x. journal (D.content disk) ≡ Ok (holding x.1 x.2)) }
        ensures has { IfOk result (λ x. All HasRecord x.1) }
        ensures count { IfOk result (λ x. length x.2 ≡ length x.1 + 1) }
        // Nothing is written but the version octet, or the head of a disk of fewer than 33 octets.
        ensures kept { D.tells → 33 ≤ length (D.content disk) → IfOk result (λ x. D.content x.0.disk ≡ as_second (D.content disk)) }
        ensures made { D.tells → length (D.content disk) < 33 → IfOk result (λ x. D.content x.0.disk ≡ head ++ 0 ∷ 0 ∷ []) }
        // From now on the disk stands for these entries, and so does all that a crash leaves.
        ensures stands { D.tells → IfOk result (λ x. StandsFor (D.content x.0.disk) x.1) }
        ensures durable { D.tells → IfOk result (λ x. Only (D.content x.0.disk) (D.image x.0.disk)) }
        ensures open { IfOk result (λ x. x.0.failed ≡ false) }
        ensures refused { D.tells → IfErr result (λ r. Fails r.why (journal (D.content disk))) }
        // At a refusal a crash leaves what it might have left before, or always what stands for the same entries.
        ensures spared { D.tells → IfErr result (λ r. Spared (D.image disk) (D.content disk) (D.image r.disk)) }
        ensures untouched { IfErr result (λ r. OnRefusal r.why (NoMore (D.image disk) (D.image r.disk))) }
        // A crash at any moment of the call leaves what it might have left before, or what stands for the same entries.
        ensures any_moment { D.tells → IfOk result (λ x.
            LeavesOnly D.moment D.image_since disk x.0.disk (Unharmed (D.image disk) (D.content disk))) }
        ensures any_moment_err { D.tells → IfErr result (λ r.
            LeavesOnly D.moment D.image_since disk r.disk (Unharmed (D.image disk) (D.content disk))) }
        ensures later { IfOk result (λ x. D.faults disk ≤ D.faults x.0.disk) }
        ensures later_err { IfErr result (λ r. D.faults disk ≤ D.faults r.disk) }
        ensures cause { IfErr result (λ r. r.why ≡ OpenFault.DiskFault → Rose (D.faults disk) (D.faults r.disk)) }
    {
        let mut disk = disk;
        match prepare(alloc, &mut disk) {
            Ok((found, gate)) => {
                let Found { entries, places } = found;
                Ok((Journal::at(disk, gate), entries, places))
            }
            Err(why) => Err(Refused { disk, why }),
        }
    }
}
