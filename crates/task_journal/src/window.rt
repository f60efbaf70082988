//! Reading records from a disk in pieces.

ghost use Rattle.std.specs.Prelude.{◌≡◌, ◌≤◌, ◌<◌, ◌+◌, ◌^◌, ◌++◌, [], length, take, drop, IfOk, IfErr, OnOk, IsErrOf};
ghost use Rattle.edges.specs.Reading.{Gives as FieldGives};
ghost use Rattle.record_codec.specs.Spelling.{HasRecord};
ghost use Rattle.cluster_types.specs.Causes.{Rose};
ghost use Rattle.task_journal.specs.Reads.{OnlyReads};
ghost use Rattle.task_journal.specs.Journal.{Gives, IsOfDisk, record_at};
ghost use Rattle.task_journal.specs.Versions.{entry_in};
ghost use Rattle.task_journal.specs.Window.{Ready, Shows, span};

use crate::disk_calls::read_into;
use crate::fault::OpenFault;
use crate::version::Version;
use cluster_types::entry::Entry;
use disk_model::disk::Disk;
use edges::stop::{ReadError, Stop};
use record_codec::reading::read_front;
use std::alloc::Global;
use std::marker::Model;

/// The number of octets that are read at once, where a record doesn't need more.
const PIECE: u64 = 1 << 16;

/// Octets of a disk that were read and not yet taken.
#[derive(Drop)]
pub struct Window {
    octets: Vec<u8>,
    taken: usize,
    place: u64,
}

impl Model for Window {
    ghost use Rattle.std.specs.Prelude.{◌≤◌, length, drop};
    ghost use Rattle.task_journal.specs.Window.{Ready};

    ghost Value = { Ready };

    ghost view = { λ w. record { octets = drop w.taken w.octets.items; place = w.place } };

    ghost invariant = { λ w. w.taken ≤ length w.octets.items };
}

impl Window {
    /// No octets.
    pub fn new(alloc: Global) -> Window
        ensures { result ≡ record { octets = []; place = 0 } }
    {
        Window {
            octets: Vec::new(alloc),
            taken: 0,
            place: 0,
        }
    }

    /// No octets yet, from a place on.
    pub fn restart(&mut self, place: u64)
        ensures { self.new ≡ record { octets = []; place = place } }
    {
        self.octets.clear();
        self.taken = 0;
        self.place = place;
    }

    /// The octets.
    pub fn octets(&self) -> &[u8]
        ensures { result.now ≡ self.now.octets }
    {
        &self.octets[self.taken..]
    }

    /// The place of the first of them.
    pub fn place(&self) -> u64
        ensures { result ≡ self.now.place }
    {
        self.place
    }

    /// Takes so many octets off the front.
    fn take(&mut self, n: usize)
        requires { n ≤ length self.old.octets }
        ensures octets { self.new.octets ≡ drop n self.old.octets }
        ensures place { self.old.place + n < 2 ^ 64 → self.new.place ≡ self.old.place + n }
    {
        self.taken += n;
        self.place = self.place.saturating_add(n as u64);
    }

    /// Reads so many octets more.
    pub fn read_more<D: Disk>(&mut self, disk: &mut D, n: usize) -> Result<(), OpenFault>
        requires inside { D.tells → self.old.place + length self.old.octets + n ≤ length (D.content disk.old) }
        requires fits { D.tells → self.old.place + length self.old.octets < 2 ^ 64 }
        ensures octets { D.tells → OnOk result (self.new.octets
            ≡ self.old.octets ++ take n (drop (self.old.place + length self.old.octets) (D.content disk.old))) }
        ensures more { OnOk result (length self.new.octets ≡ length self.old.octets + n) }
        ensures place { self.new.place ≡ self.old.place }
        ensures reads { OnlyReads D.content D.image D.moment D.image_since D.faults disk.old disk.new }
        ensures fault { IfErr result IsOfDisk }
        ensures cause { IsErrOf result OpenFault.DiskFault → Rose (D.faults disk.old) (D.faults disk.new) }
    {
        let _ = self.octets.drain(..self.taken);
        self.taken = 0;
        let at = self.place.saturating_add(self.octets.len() as u64);
        read_behind(disk, at, &mut self.octets, n)
    }
}

/// Appends so many octets of a disk, from a place on.
#[tactic(auto, using(crate::proofs::Calls::none_reads))]
fn read_behind<D: Disk>(
    disk: &mut D,
    at: u64,
    octets: &mut Vec<u8>,
    n: usize,
) -> Result<(), OpenFault>
    requires { D.tells → at + n ≤ length (D.content disk.old) }
    ensures octets { D.tells → OnOk result (octets.new.items
        ≡ octets.old.items ++ take n (drop at (D.content disk.old))) }
    ensures more { OnOk result (length octets.new.items ≡ length octets.old.items + n) }
    ensures reads { OnlyReads D.content D.image D.moment D.image_since D.faults disk.old disk.new }
    ensures fault { IfErr result IsOfDisk }
    ensures cause { IsErrOf result OpenFault.DiskFault → Rose (D.faults disk.old) (D.faults disk.new) }
{
    let from = octets.len();
    let size = from.saturating_add(n);
    octets.resize(size, 0)?;
    read_into(disk, at, &mut octets[from..])
}

/// The record of a version at the front, and the number of its octets.
#[tactic(auto, unfolding(crate::specs::Versions::entry_in))]
fn front_record(alloc: Global, version: Version, octets: &[u8]) -> Result<(Entry, usize), ReadError>
    ensures value { FieldGives (λ x. (x.0, drop x.1 octets.now)) result (entry_in version octets.now) }
    ensures inside { IfOk result (λ x. x.1 ≤ length octets.now) }
    ensures has { IfOk result (λ x. HasRecord x.0) }
{
    let (entry, rest) = read_front(alloc, octets)?;
    if !version.knows(&entry) {
        return Err(ReadError::Stop(Stop::Bad));
    }
    Ok((entry, octets.len().saturating_sub(rest.len())))
}

/// The next record of a batch whose records end at a place, as a version reads it.
pub fn next_record<D: Disk>(
    alloc: Global,
    disk: &mut D,
    version: Version,
    window: &mut Window,
    end: u64,
) -> Result<Entry, OpenFault>
    requires { D.tells → Shows window.old end (D.content disk.old) }
    ensures value { D.tells → Gives (λ e. (e, span window.new.place end (D.content disk.old))) result
        (record_at version end (span window.old.place end (D.content disk.old))) }
    ensures shows { D.tells → OnOk result (Shows window.new end (D.content disk.old)) }
    ensures has { IfOk result HasRecord }
    ensures reads { OnlyReads D.content D.image D.moment D.image_since D.faults disk.old disk.new }
    ensures cause { IsErrOf result OpenFault.DiskFault → Rose (D.faults disk.old) (D.faults disk.new) }
{
    loop {
        match front_record(alloc, version, window.octets()) {
            Ok((entry, taken)) => {
                window.take(taken);
                return Ok(entry);
            }
            Err(ReadError::OutOfMemory) => return Err(OpenFault::OutOfMemory),
            Err(ReadError::Stop(Stop::Bad)) => return Err(OpenFault::Damaged(window.place())),
            Err(ReadError::Stop(Stop::Short(missing))) => {
                let ready = window.place().saturating_add(window.octets().len() as u64);
                let left = end.saturating_sub(ready);
                if left < missing as u64 {
                    return Err(OpenFault::Damaged(window.place()));
                }
                let n = PIECE.min(left).max(missing as u64);
                window.read_more(disk, n as usize)?;
            }
        }
    }
}
