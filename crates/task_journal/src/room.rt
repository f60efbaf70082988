//! Room behind a journal: octets that are on the disk before a batch needs them, so that writing it doesn't make the disk
//! longer. What stands behind a closed gate is no part of the journal.

ghost use Rattle.std.specs.Prelude.{◌≡◌, ◌≤◌, List, length, take, IfOk, OnOk, IsErr};
ghost use Rattle.cluster_types.specs.declared.entry.Entry.{Entry as EntryType};
ghost use Rattle.cluster_types.specs.Causes.{Rose};
ghost use Rattle.disk_model.specs.Crashes.{LeavesOnly};
ghost use Rattle.task_journal.specs.Journal.{StandsFor};
ghost use Rattle.task_journal.specs.Settled.{IsReady};
ghost use Rattle.task_journal.specs.Room.{IsTrimmed};

use disk_model::disk::{Disk, Failed};
use std::alloc::{AllocError, Global};

/// Room that is kept ahead: the zeros that are written at a time, and how far the disk is known to reach.
#[derive(Drop)]
pub struct Room {
    zeros: Vec<u8>,
    end: u64,
}

impl Room {
    /// Room of so many octets at a time. Nothing is known of the disk.
    pub fn new(alloc: Global, octets: usize) -> Result<Room, AllocError> {
        let mut zeros = Vec::new(alloc);
        zeros.resize(octets, 0)?;
        Ok(Room { zeros, end: 0 })
    }
}

/// Writes octets at the end of a disk, and has them there.
fn widen<D: Disk>(disk: &mut D, gate: u64, size: u64, octets: &[u8]) -> Result<(), Failed>
    requires ready { D.tells → IsReady D.content D.image disk.old gate }
    requires size { D.tells → size ≡ length (D.content disk.old) }
    ensures ready { D.tells → OnOk result (IsReady D.content D.image disk.new gate) }
    ensures stands { D.tells → OnOk result ((list : List EntryType) → StandsFor (D.content disk.old) list → StandsFor (D.content disk.new) list) }
    ensures any_moment { D.tells → (list : List EntryType) → StandsFor (D.content disk.old) list
        → LeavesOnly D.moment D.image_since disk.old disk.new (λ c. StandsFor c list) }
    ensures later { D.faults disk.old ≤ D.faults disk.new }
    ensures cause { IsErr result → Rose (D.faults disk.old) (D.faults disk.new) }
{
    disk.write_at(size, octets)?;
    disk.sync()?;
    Ok(())
}

/// Has a disk reach a place, or some octets further than it did, and tells how far it reaches.
fn reach<D: Disk>(disk: &mut D, gate: u64, place: u64, zeros: &[u8]) -> Result<u64, Failed>
    requires { D.tells → IsReady D.content D.image disk.old gate }
    ensures ready { D.tells → OnOk result (IsReady D.content D.image disk.new gate) }
    ensures stands { D.tells → OnOk result ((list : List EntryType) → StandsFor (D.content disk.old) list → StandsFor (D.content disk.new) list) }
    ensures any_moment { D.tells → (list : List EntryType) → StandsFor (D.content disk.old) list
        → LeavesOnly D.moment D.image_since disk.old disk.new (λ c. StandsFor c list) }
    ensures later { D.faults disk.old ≤ D.faults disk.new }
    ensures cause { IsErr result → Rose (D.faults disk.old) (D.faults disk.new) }
{
    let size = disk.size()?;
    if place <= size {
        return Ok(size);
    }
    widen(disk, gate, size, zeros)?;
    Ok(size.saturating_add(zeros.len() as u64))
}

/// Has room on a disk for octets behind a closed gate, as far as room is kept.
pub fn make_room<D: Disk>(
    room: &mut Option<Room>,
    disk: &mut D,
    gate: u64,
    octets: u64,
) -> Result<(), Failed>
    requires { D.tells → IsReady D.content D.image disk.old gate }
    ensures ready { D.tells → OnOk result (IsReady D.content D.image disk.new gate) }
    ensures stands { D.tells → OnOk result ((list : List EntryType) → StandsFor (D.content disk.old) list → StandsFor (D.content disk.new) list) }
    ensures any_moment { D.tells → (list : List EntryType) → StandsFor (D.content disk.old) list
        → LeavesOnly D.moment D.image_since disk.old disk.new (λ c. StandsFor c list) }
    ensures later { D.faults disk.old ≤ D.faults disk.new }
    ensures cause { IsErr result → Rose (D.faults disk.old) (D.faults disk.new) }
{
    let end = gate.saturating_add(1).saturating_add(octets);
    if let Some(room) = room {
        if room.end < end {
            room.end = reach(disk, gate, end, &room.zeros)?;
        }
    }
    Ok(())
}

/// Cuts off what stands behind the closed gate, and has it off the disk. A head keeps its last octet.
pub fn trim<D: Disk>(disk: &mut D, gate: u64) -> Result<(), Failed>
    requires { D.tells → IsReady D.content D.image disk.old gate }
    ensures ready { D.tells → OnOk result (IsReady D.content D.image disk.new gate) }
    ensures stands { D.tells → OnOk result ((list : List EntryType) → StandsFor (D.content disk.old) list → StandsFor (D.content disk.new) list) }
    ensures front { D.tells → OnOk result (D.content disk.new ≡ take (length (D.content disk.new)) (D.content disk.old)) }
    ensures trimmed { D.tells → OnOk result (IsTrimmed (D.content disk.new)) }
    ensures any_moment { D.tells → (list : List EntryType) → StandsFor (D.content disk.old) list
        → LeavesOnly D.moment D.image_since disk.old disk.new (λ c. StandsFor c list) }
    ensures later { D.faults disk.old ≤ D.faults disk.new }
    ensures cause { IsErr result → Rose (D.faults disk.old) (D.faults disk.new) }
{
    let end = gate.saturating_add(1).max(33);
    disk.cut(end)?;
    disk.sync()?;
    Ok(())
}
