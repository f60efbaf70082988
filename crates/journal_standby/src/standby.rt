//! A standby over its disk.

ghost use Rattle.std.specs.Prelude.{◌≡◌, ◌≤◌, ◌<◌, ◌+◌, ◌++◌, ◌∷◌, [], ◌⊎◌, ℕ, List, length, true, false, All, Err, is_err, IfOk, IfErr, OnOk, OnErr, IsErr};
ghost use Rattle.cluster_types.specs.Causes.{Rose};
ghost use Rattle.cluster_types.specs.declared.entry.Entry.{Entry as EntryType};
ghost use Rattle.disk_model.specs.Crashes.{Only, NoMore, LeavesOnly};
ghost use Rattle.record_codec.specs.Spelling.{IsWithinLimits};
ghost use Rattle.task_journal.specs.Journal.{StandsFor, Fails, journal, head};
ghost use Rattle.task_journal.specs.Settled.{Unharmed, Spared, OnRefusal};
ghost use Rattle.task_journal.specs.Versions.{as_second};
ghost use Rattle.journal_standby.specs.declared.fault.FollowFault.{FollowFault as FaultType};
ghost use Rattle.journal_standby.specs.Batches.{batches, joined};
ghost use Rattle.journal_standby.specs.Standbys.{IsHeld, KeepsList, lacking, HasFirst, HasFollowed, WhyNotFollowed};
ghost use Rattle.journal_standby.specs.Steps.{HasShortSteps};

use crate::batches::batches_of;
use crate::comparing::divergence;
use crate::fault::FollowFault;
use crate::lists::{lengthen, shorten};
use cluster_types::entry::{Entries, Entry};
use disk_model::disk::Disk;
use std::alloc::Global;
use std::marker::Model;
use task_journal::batch::Batch;
use task_journal::fault::{AppendFault, OpenFault};
use task_journal::journal::Journal;
use task_journal::opening::Refused;

/// A disk that follows the journal of a primary, which contracts see with the list that it stands for.
#[derive(Drop)]
pub struct Standby<D: Disk> {
    journal: Journal<D>,
    list: Entries,
}

impl<D: Disk> Model for Standby<D> {
    ghost use Rattle.journal_standby.specs.Standbys.{StandbyView, IsHeld};

    ghost Value = { StandbyView D };

    ghost view = { λ s. record { disk = s.journal.disk; failed = s.journal.failed; list = s.list } };

    ghost invariant = { λ s. IsHeld D.tells (D.content s.journal.disk) (D.image s.journal.disk) s.journal.failed s.list };
}

/// Appends batches, one after another.
fn append_all<D: Disk>(journal: &mut Journal<D>, batches: &[Batch]) -> Result<(), AppendFault>
    requires working { journal.old.failed ≡ false }
    requires durable { D.tells → Only (D.content journal.old.disk) (D.image journal.old.disk) }
    ensures stands { D.tells → OnOk result ((list : List EntryType) → StandsFor (D.content journal.old.disk) list
        → StandsFor (D.content journal.new.disk) (list ++ joined batches.now)) }
    ensures durable { D.tells → OnOk result (Only (D.content journal.new.disk) (D.image journal.new.disk)) }
    ensures any_moment { D.tells → (list : List EntryType) → StandsFor (D.content journal.old.disk) list
        → LeavesOnly D.moment D.image_since journal.old.disk journal.new.disk (HasFirst list batches.now) }
    ensures fault { IfErr result (λ fault. fault ≡ AppendFault.DiskFault) }
    ensures failed { journal.new.failed ≡ is_err result }
    ensures later { D.faults journal.old.disk ≤ D.faults journal.new.disk }
    ensures cause { IsErr result → Rose (D.faults journal.old.disk) (D.faults journal.new.disk) }
{
    for batch in batches {
        journal.append(batch)?;
    }
    Ok(())
}

/// Appends entries to a journal and to its list, in batches of whole steps, all of which are made before the first one is
/// appended. At an error the list is as it was: after `DiskFault` the disk may have some of these batches.
fn append_entries<D: Disk>(
    journal: &mut Journal<D>,
    list: &mut Entries,
    more: &[Entry],
) -> Result<(), FollowFault>
    requires working { journal.old.failed ≡ false }
    requires durable { D.tells → Only (D.content journal.old.disk) (D.image journal.old.disk) }
    requires held { IsHeld D.tells (D.content journal.old.disk) (D.image journal.old.disk) journal.old.failed list.old }
    requires each { All IsWithinLimits more.now }
    requires short { HasShortSteps more.now }
    ensures held { IsHeld D.tells (D.content journal.new.disk) (D.image journal.new.disk) journal.new.failed list.new }
    ensures list { OnOk result (list.new ≡ list.old ++ more.now) }
    ensures works { OnOk result (journal.new.failed ≡ false) }
    ensures durable { D.tells → OnOk result (Only (D.content journal.new.disk) (D.image journal.new.disk)) }
    ensures same { OnErr result (list.new ≡ list.old) }
    ensures fault { IfErr result (λ fault. ((fault ≡ FollowFault.DiskFault) × (journal.new.failed ≡ true)) ⊎ ((fault ≡ FollowFault.OutOfMemory) × (journal.new ≡ journal.old))) }
    ensures any_moment { D.tells → LeavesOnly D.moment D.image_since journal.old.disk journal.new.disk (HasFirst list.old (batches more.now)) }
    ensures later { D.faults journal.old.disk ≤ D.faults journal.new.disk }
    ensures cause { result ≡ Err FollowFault.DiskFault → Rose (D.faults journal.old.disk) (D.faults journal.new.disk) }
{
    let held = list.len();
    let batches = batches_of(list.allocator(), more)?;
    lengthen(list, more)?;
    match append_all(journal, batches.as_slice()) {
        Ok(()) => Ok(()),
        Err(_) => {
            shorten(list, held);
            Err(FollowFault::DiskFault)
        }
    }
}

impl<D: Disk> Standby<D> {
    /// Opens the journal of a disk, as `Journal::open` does, and keeps its list.
    pub fn open(alloc: Global, disk: D) -> Result<Standby<D>, Refused<D>>
        ensures list { D.tells → IfOk result (λ s. StandsFor (D.content disk) s.list) }
        ensures works { IfOk result (λ s. s.failed ≡ false) }
        // Nothing is written but the version octet, or the head of a disk of fewer than 33 octets.
        ensures kept { D.tells → 33 ≤ length (D.content disk) → IfOk result (λ s. D.content s.disk ≡ as_second (D.content disk)) }
        ensures made { D.tells → length (D.content disk) < 33 → IfOk result (λ s. D.content s.disk ≡ head ++ 0 ∷ 0 ∷ []) }
        // From now on the disk stands for this list, and so does all that a crash leaves.
        ensures stands { D.tells → IfOk result (λ s. StandsFor (D.content s.disk) s.list) }
        ensures durable { D.tells → IfOk result (λ s. Only (D.content s.disk) (D.image s.disk)) }
        ensures refused { D.tells → IfErr result (λ r. Fails r.why (journal (D.content disk))) }
        // At a refusal a crash leaves what it might have left before, or always what stands for the same entries.
        ensures spared { D.tells → IfErr result (λ r. Spared (D.image disk) (D.content disk) (D.image r.disk)) }
        ensures untouched { IfErr result (λ r. OnRefusal r.why (NoMore (D.image disk) (D.image r.disk))) }
        // A crash at any moment of the call leaves what it might have left before, or what stands for the same entries.
        ensures any_moment { D.tells → IfOk result (λ s.
            LeavesOnly D.moment D.image_since disk s.disk (Unharmed (D.image disk) (D.content disk))) }
        ensures any_moment_err { D.tells → IfErr result (λ r.
            LeavesOnly D.moment D.image_since disk r.disk (Unharmed (D.image disk) (D.content disk))) }
        ensures later { IfOk result (λ s. D.faults disk ≤ D.faults s.disk) }
        ensures later_err { IfErr result (λ r. D.faults disk ≤ D.faults r.disk) }
        ensures cause { IfErr result (λ r. r.why ≡ OpenFault.DiskFault → Rose (D.faults disk) (D.faults r.disk)) }
    {
        let (journal, list, places) = match Journal::open(alloc, disk) {
            Ok(opened) => opened,
            Err(refused) => return Err(refused),
        };
        drop(places);
        Ok(Standby { journal, list })
    }

    /// The list.
    pub fn list(&self) -> &Entries
        ensures is { result.now ≡ self.now.list }
        ensures each { All IsWithinLimits self.now.list }
        // Whatever a crash leaves begins with it, also once a call of the disk has failed.
        ensures keeps { D.tells → KeepsList (D.image self.now.disk) self.now.list }
        ensures stands { D.tells → self.now.failed ≡ false → StandsFor (D.content self.now.disk) self.now.list }
    {
        &self.list
    }

    /// Whether a call of the disk has failed. While none has, a crash leaves what the disk holds.
    pub fn failed(&self) -> bool
        ensures is { result ≡ self.now.failed }
        ensures durable { D.tells → self.now.failed ≡ false → Only (D.content self.now.disk) (D.image self.now.disk) }
    {
        self.journal.failed()
    }

    /// The disk.
    pub fn close(self) -> D
        ensures { result ≡ self.disk }
    {
        let Standby { journal, list } = self;
        drop(list);
        journal.close()
    }

    /// Appends what the primary's list has more, and says how many entries these are. The primary's list is to begin with
    /// the standby's. What lacks goes into batches of whole steps, each of which takes steps while its records have at most
    /// 2^30 octets, and one at least. All of them are made before the first one is appended.
    pub fn follow(&mut self, primary: &Entries) -> Result<u64, FollowFault>
        requires each { All IsWithinLimits primary.now }
        requires short { HasShortSteps primary.now }
        ensures followed { IfOk result (HasFollowed self.old self.new primary.now) }
        ensures stands { D.tells → OnOk result (StandsFor (D.content self.new.disk) primary.now) }
        ensures durable { D.tells → OnOk result (Only (D.content self.new.disk) (D.image self.new.disk)) }
        // At an error the list is as it was, and but for a fault of the disk so is all.
        ensures refused { IfErr result (WhyNotFollowed self.old.failed self.old.list primary.now) }
        ensures same { OnErr result (self.new.list ≡ self.old.list) }
        ensures unchanged { IfErr result (λ fault. ((fault ≡ FollowFault.DiskFault) × (self.new.failed ≡ true)) ⊎ (self.new ≡ self.old)) }
        // A crash at any moment of the call leaves the list with the first of the batches behind it.
        ensures any_moment { D.tells → self.old.failed ≡ false → LeavesOnly D.moment D.image_since self.old.disk self.new.disk (HasFirst self.old.list (batches (lacking self.old.list primary.now))) }
        ensures later { D.faults self.old.disk ≤ D.faults self.new.disk }
        ensures cause { result ≡ Err FollowFault.DiskFault → Rose (D.faults self.old.disk) (D.faults self.new.disk) }
    {
        let alloc = self.list.allocator();
        let failed = self.journal.failed();
        let entries = primary.as_slice();
        if let Some(place) = divergence(alloc, self.list.as_slice(), entries)? {
            return Err(FollowFault::Diverged { place });
        }
        if failed {
            return Err(FollowFault::Reopen);
        }
        let more = &entries[self.list.len()..];
        append_entries(&mut self.journal, &mut self.list, more)?;
        Ok(more.len() as u64)
    }
}
