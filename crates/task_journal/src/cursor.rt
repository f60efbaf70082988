//! Reading the entries of a journal one after another.

ghost use Rattle.std.specs.Prelude.{◌≡◌, ◌<◌, ◌^◌, length, true, Ok, IfOk, IfSome, IsErrOf};
ghost use Rattle.cluster_types.specs.Causes.{Rose};
ghost use Rattle.record_codec.specs.Spelling.{HasRecord};
ghost use Rattle.task_journal.specs.Reads.{OnlyReads};
ghost use Rattle.task_journal.specs.Window.{Rises};
ghost use Rattle.task_journal.specs.declared.version.Version.{Version as VersionType};
ghost use Rattle.task_journal.specs.Cursor.{Standing, IsOn, bound, Opens, Reaches, Takes, Advances, Begins};

use crate::disk_calls::size_of;
use crate::fault::OpenFault;
use crate::gate::{GateState, gate_at};
use crate::head::read_head;
use crate::version::Version;
use crate::window::{Window, next_record};
use cluster_types::entry::Entry;
use disk_model::disk::Disk;
use std::alloc::Global;
use std::marker::Model;

/// An entry, and the place of its record.
#[derive(Debug, Drop)]
pub struct Placed {
    pub place: u64,
    pub entry: Entry,
}

/// What stands behind an open gate: the number of the records, their places on the disk, and that of the next gate.
#[derive(Drop)]
struct Opened {
    count: u32,
    from: u64,
    end: u64,
    next: u64,
}

/// The batch behind a gate, in each version. A closed gate gives none.
fn open_gate<D: Disk>(
    disk: &mut D,
    window: &mut Window,
    size: u64,
    gate: u64,
) -> Result<Option<Opened>, OpenFault>
    requires { D.tells → size ≡ length (D.content disk.old) }
    ensures value { D.tells → (version : VersionType) → Opens version size (D.content disk.old) gate result }
    ensures rises { IfOk result (λ o. IfSome o (λ b. Rises gate size b.next)) }
    ensures count { IfOk result (λ o. IfSome o (λ b. b.count < 2 ^ 32)) }
    ensures reads { OnlyReads D.content D.image D.moment D.image_since D.faults disk.old disk.new }
    ensures cause { IsErrOf result OpenFault.DiskFault → Rose (D.faults disk.old) (D.faults disk.new) }
{
    if size <= gate {
        return Err(OpenFault::Damaged(size));
    }
    window.restart(gate);
    window.read_more(disk, (size - gate).min(10) as usize)?;
    match gate_at(window.octets()) {
        GateState::Missing => Err(OpenFault::Damaged(size)),
        GateState::Closed => Ok(None),
        GateState::Short => Err(OpenFault::Damaged(gate)),
        GateState::Open { len, count } => {
            let from = gate.saturating_add(10);
            let next = from.saturating_add(u64::from(len));
            Ok(Some(Opened {
                count,
                from,
                end: next.min(size),
                next,
            }))
        }
    }
}

/// Where the reading of a journal stands.
#[derive(Drop)]
pub struct Cursor {
    version: Version,
    window: Window,
    size: u64,
    left: u32,
    end: u64,
    gate: u64,
    closed: bool,
}

impl Model for Cursor {
    ghost use Rattle.task_journal.specs.Cursor.{Standing};

    ghost Value = { Standing };

    ghost view = { λ c. record { version = c.version; ready = c.window; size = c.size; left = c.left; end = c.end; gate = c.gate; closed = c.closed } };
}

impl Cursor {
    /// Before the first entry of a disk: its size and its head are read.
    pub fn begin<D: Disk>(alloc: Global, disk: &mut D) -> Result<Cursor, OpenFault>
        ensures on { D.tells → IfOk result (λ cursor. IsOn cursor (D.content disk.old)) }
        ensures value { D.tells → Begins (D.content disk.old) result }
        ensures reads { OnlyReads D.content D.image D.moment D.image_since D.faults disk.old disk.new }
        ensures cause { IsErrOf result OpenFault.DiskFault → Rose (D.faults disk.old) (D.faults disk.new) }
    {
        let size = size_of(disk)?;
        let mut window = Window::new(alloc);
        if size < 33 {
            return Ok(Cursor {
                version: Version::Second,
                window,
                size,
                left: 0,
                end: 0,
                gate: 0,
                closed: true,
            });
        }
        let version = read_head(disk)?;
        window.restart(31);
        Ok(Cursor {
            version,
            window,
            size,
            left: 0,
            end: 31,
            gate: 31,
            closed: false,
        })
    }

    /// The place of the gate that is read next, or that was found closed.
    pub fn gate(&self) -> u64
        ensures { result ≡ self.now.gate }
    {
        self.gate
    }

    /// The version of the journal, where the disk has a head.
    pub fn version(&self) -> Version
        ensures { result ≡ self.now.version }
    {
        self.version
    }

    /// Goes on to the next batch, behind the records of the one before. A closed gate has none behind it.
    fn open_batch<D: Disk>(&mut self, disk: &mut D) -> Result<bool, OpenFault>
        requires on { D.tells → IsOn self.old (D.content disk.old) }
        requires taken { self.old.left ≡ 0 }
        ensures on { D.tells → IfOk result (λ _. IsOn self.new (D.content disk.old)) }
        ensures value { D.tells → Reaches (D.content disk.old) self.old self.new result }
        ensures falls { result ≡ Ok true → bound self.new < bound self.old }
        ensures reads { OnlyReads D.content D.image D.moment D.image_since D.faults disk.old disk.new }
        ensures cause { IsErrOf result OpenFault.DiskFault → Rose (D.faults disk.old) (D.faults disk.new) }
    {
        if self.window.place() < self.end {
            return Err(OpenFault::Damaged(self.window.place()));
        }
        if self.closed {
            return Ok(false);
        }
        match open_gate(disk, &mut self.window, self.size, self.gate)? {
            None => {
                self.window.restart(self.gate);
                self.end = self.gate;
                self.closed = true;
                Ok(false)
            }
            Some(batch) => {
                self.window.restart(batch.from);
                self.left = batch.count;
                self.end = batch.end;
                self.gate = batch.next;
                Ok(true)
            }
        }
    }

    /// Takes the next record of a batch.
    fn take_record<D: Disk>(&mut self, alloc: Global, disk: &mut D) -> Result<Placed, OpenFault>
        requires on { D.tells → IsOn self.old (D.content disk.old) }
        requires left { 0 < self.old.left }
        ensures on { D.tells → IfOk result (λ _. IsOn self.new (D.content disk.old)) }
        ensures value { D.tells → Takes (D.content disk.old) self.old self.new result }
        ensures falls { IfOk result (λ _. bound self.new < bound self.old) }
        ensures has { IfOk result (λ placed. HasRecord placed.entry) }
        ensures reads { OnlyReads D.content D.image D.moment D.image_since D.faults disk.old disk.new }
        ensures cause { IsErrOf result OpenFault.DiskFault → Rose (D.faults disk.old) (D.faults disk.new) }
    {
        let place = self.window.place();
        let entry = next_record(alloc, disk, self.version, &mut self.window, self.end)?;
        self.left -= 1;
        Ok(Placed { place, entry })
    }

    /// The next entry, or none behind the last one, at the first closed gate. Each entry comes off `bound`, so a loop over
    /// them ends, whatever the disk answers.
    pub fn next<D: Disk>(
        &mut self,
        alloc: Global,
        disk: &mut D,
    ) -> Result<Option<Placed>, OpenFault>
        requires { D.tells → IsOn self.old (D.content disk.old) }
        ensures on { D.tells → IfOk result (λ _. IsOn self.new (D.content disk.old)) }
        ensures value { D.tells → Advances (D.content disk.old) self.old self.new result }
        ensures falls { IfOk result (λ next. IfSome next (λ _. bound self.new < bound self.old)) }
        ensures has { IfOk result (λ next. IfSome next (λ placed. HasRecord placed.entry)) }
        ensures reads { OnlyReads D.content D.image D.moment D.image_since D.faults disk.old disk.new }
        ensures cause { IsErrOf result OpenFault.DiskFault → Rose (D.faults disk.old) (D.faults disk.new) }
    {
        while self.left == 0 {
            if !self.open_batch(disk)? {
                return Ok(None);
            }
        }
        let placed = self.take_record(alloc, disk)?;
        Ok(Some(placed))
    }
}
