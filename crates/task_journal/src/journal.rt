//! The journal on a disk.

ghost use Rattle.std.specs.Prelude.{◌≡◌, ◌≤◌, ◌+◌, ◌++◌, ◌⊎◌, ◌↔◌, List, ℕ, length, take, true, false, Err, is_err, IfOk, IfErr, IsErr, OnOk};
ghost use Rattle.cluster_types.specs.declared.entry.Entry.{Entry as EntryType};
ghost use Rattle.cluster_types.specs.Causes.{Rose};
ghost use Rattle.disk_model.specs.Crashes.{Only, LeavesOnly};
ghost use Rattle.task_journal.specs.Batch.{IsBatch};
ghost use Rattle.task_journal.specs.Journal.{StandsFor};
ghost use Rattle.task_journal.specs.Settled.{IsReady, Outcome};
ghost use Rattle.task_journal.specs.Room.{IsTrimmed};

use crate::batch::Batch;
use crate::fault::AppendFault;
use crate::room::{Room, make_room, trim};
use disk_model::disk::{Disk, Failed};
use std::alloc::{AllocError, Global};
use std::marker::Model;

/// A journal that is open for further batches, over its disk.
#[derive(Drop)]
pub struct Journal<D: Disk> {
    disk: D,
    gate: u64,
    failed: bool,
    /// None where no room is kept ahead of the batches.
    room: Option<Room>,
}

impl<D: Disk> Model for Journal<D> {
    ghost use Rattle.std.specs.Prelude.{◌≡◌, false};
    ghost use Rattle.task_journal.specs.Settled.{Held, IsReady};

    ghost Value = { Held D };

    ghost view = { λ j. record { disk = j.disk; failed = j.failed } };

    ghost invariant = { λ j. j.failed ≡ false → D.tells → IsReady D.content D.image j.disk j.gate };
}

/// Writes a batch behind a closed gate, and opens the gate once the batch is on the disk.
fn append_at<D: Disk>(disk: &mut D, gate: u64, octets: &[u8]) -> Result<(), Failed>
    requires { D.tells → IsReady D.content D.image disk.old gate }
    ensures ready { D.tells → OnOk result ((list es : List EntryType) → IsBatch octets.now es
        → StandsFor (D.content disk.old) list → IsReady D.content D.image disk.new (gate + length octets.now)) }
    ensures stands { D.tells → OnOk result ((list es : List EntryType) → IsBatch octets.now es
        → StandsFor (D.content disk.old) list → StandsFor (D.content disk.new) (list ++ es)) }
    ensures any_moment { D.tells → (list es : List EntryType) → IsBatch octets.now es → StandsFor (D.content disk.old) list
        → LeavesOnly D.moment D.image_since disk.old disk.new (Outcome list es) }
    ensures later { D.faults disk.old ≤ D.faults disk.new }
    ensures cause { IsErr result → Rose (D.faults disk.old) (D.faults disk.new) }
{
    let behind = gate.saturating_add(1);
    disk.write_at(behind, octets)?;
    disk.sync()?; // the batch is on the disk
    disk.write_at(gate, &[0xa7])?;
    disk.sync()?; // and so is the gate
    Ok(())
}

/// Appends a batch, for which there is room first where room is kept.
fn append_in<D: Disk>(
    room: &mut Option<Room>,
    disk: &mut D,
    gate: u64,
    octets: &[u8],
) -> Result<(), Failed>
    requires { D.tells → IsReady D.content D.image disk.old gate }
    ensures ready { D.tells → OnOk result ((list es : List EntryType) → IsBatch octets.now es
        → StandsFor (D.content disk.old) list → IsReady D.content D.image disk.new (gate + length octets.now)) }
    ensures stands { D.tells → OnOk result ((list es : List EntryType) → IsBatch octets.now es
        → StandsFor (D.content disk.old) list → StandsFor (D.content disk.new) (list ++ es)) }
    ensures any_moment { D.tells → (list es : List EntryType) → IsBatch octets.now es → StandsFor (D.content disk.old) list
        → LeavesOnly D.moment D.image_since disk.old disk.new (Outcome list es) }
    ensures later { D.faults disk.old ≤ D.faults disk.new }
    ensures cause { IsErr result → Rose (D.faults disk.old) (D.faults disk.new) }
{
    make_room(room, disk, gate, octets.len() as u64)?;
    append_at(disk, gate, octets)?;
    Ok(())
}

impl<D: Disk> Journal<D> {
    /// From now on there is room for batches before they come: where there is none behind the closed gate, so many zeros are
    /// written at the end of the disk, in one piece, and are on the disk before the batch is written. Nothing is written now.
    pub fn keep_room(&mut self, alloc: Global, octets: usize) -> Result<(), AllocError>
        ensures { self.new ≡ self.old }
    {
        self.room = Some(Room::new(alloc, octets)?);
        Ok(())
    }

    /// Appends a batch, by four calls of the disk and without memory; where room is kept and there is none left, by up to three
    /// calls more. At `Ok` it is on the disk. After `DiskFault` the disk may have the batch or not, and the journal is to be
    /// opened again.
    pub fn append(&mut self, batch: &Batch) -> Result<(), AppendFault>
        // At `Ok` the disk stands for the entries from before with those of the batch, and so does all that a crash leaves.
        ensures stands { D.tells → OnOk result ((list : List EntryType) → StandsFor (D.content self.old.disk) list
            → StandsFor (D.content self.new.disk) (list ++ batch.now)) }
        ensures durable { D.tells → OnOk result (Only (D.content self.new.disk) (D.image self.new.disk)) }
        // A crash at any moment of the call leaves the entries from before it, or these with the whole batch.
        ensures any_moment { D.tells → self.old.failed ≡ false → (list : List EntryType)
            → StandsFor (D.content self.old.disk) list → LeavesOnly D.moment D.image_since self.old.disk self.new.disk (Outcome list batch.now) }
        ensures reopen { (result ≡ Err AppendFault.Reopen) ↔ (self.old.failed ≡ true) }
        ensures unchanged { result ≡ Err AppendFault.Reopen → self.new ≡ self.old }
        ensures failed { self.new.failed ≡ is_err result }
        ensures later { D.faults self.old.disk ≤ D.faults self.new.disk }
        ensures cause { result ≡ Err AppendFault.DiskFault → Rose (D.faults self.old.disk) (D.faults self.new.disk) }
    {
        if self.failed {
            return Err(AppendFault::Reopen);
        }
        let octets = batch.octets();
        match append_in(&mut self.room, &mut self.disk, self.gate, octets) {
            Ok(()) => {
                self.gate = self.gate.saturating_add(octets.len() as u64);
                Ok(())
            }
            Err(_) => {
                self.failed = true;
                Err(AppendFault::DiskFault)
            }
        }
    }

    /// Cuts off what stands behind the closed gate, as room that was kept; from then on none is kept. At `Ok` the disk has
    /// nothing behind its journal. `Reopen` and `DiskFault` come as those of `append`.
    pub fn trim(&mut self) -> Result<(), AppendFault>
        ensures stands { D.tells → OnOk result ((list : List EntryType) → StandsFor (D.content self.old.disk) list
            → StandsFor (D.content self.new.disk) list) }
        ensures front { D.tells → OnOk result (D.content self.new.disk ≡ take (length (D.content self.new.disk)) (D.content self.old.disk)) }
        ensures trimmed { D.tells → OnOk result (IsTrimmed (D.content self.new.disk)) }
        ensures durable { D.tells → OnOk result (Only (D.content self.new.disk) (D.image self.new.disk)) }
        ensures any_moment { D.tells → self.old.failed ≡ false → (list : List EntryType)
            → StandsFor (D.content self.old.disk) list → LeavesOnly D.moment D.image_since self.old.disk self.new.disk (λ c. StandsFor c list) }
        ensures reopen { (result ≡ Err AppendFault.Reopen) ↔ (self.old.failed ≡ true) }
        ensures unchanged { result ≡ Err AppendFault.Reopen → self.new ≡ self.old }
        ensures failed { self.new.failed ≡ is_err result }
        ensures later { D.faults self.old.disk ≤ D.faults self.new.disk }
        ensures cause { result ≡ Err AppendFault.DiskFault → Rose (D.faults self.old.disk) (D.faults self.new.disk) }
    {
        if self.failed {
            return Err(AppendFault::Reopen);
        }
        self.room = None;
        match trim(&mut self.disk, self.gate) {
            Ok(()) => Ok(()),
            Err(_) => {
                self.failed = true;
                Err(AppendFault::DiskFault)
            }
        }
    }

    /// A journal whose first closed gate stands there.
    pub(crate) fn at(disk: D, gate: u64) -> Journal<D>
        requires { D.tells → IsReady D.content D.image disk gate }
        ensures { result ≡ record { disk = disk; failed = false } }
    {
        Journal {
            disk,
            gate,
            failed: false,
            room: None,
        }
    }

    /// Whether a call of the disk has failed. While none has, a crash leaves what the disk holds.
    pub fn failed(&self) -> bool
        ensures is { result ≡ self.now.failed }
        ensures durable { D.tells → self.now.failed ≡ false → Only (D.content self.now.disk) (D.image self.now.disk) }
    {
        self.failed
    }

    /// The disk.
    pub fn close(self) -> D
        ensures { result ≡ self.disk }
    {
        let Journal { disk, .. } = self;
        disk
    }
}
