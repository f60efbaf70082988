//! The octets of a disk in memory, which are only read.

ghost use Rattle.std.specs.Prelude.{◌≡◌, ◌≤◌, ◌<◌, ◌+◌, ◌-◌, ◌^◌, ℕ, min, length, slice_index, take, drop, true, All, Ok, IfOk, IfErr, IsOk, refl};
ghost use Rattle.record_codec.specs.Records.{spellings};
ghost use Rattle.record_codec.specs.Spelling.{IsWithinLimits};
ghost use Rattle.task_journal.specs.Journal.{StandsFor, Fails, head_fault, journal};
ghost use Rattle.journal_standby.specs.Images.{Copy};

use cluster_types::entry::Entries;
use disk_model::disk::{Disk, Failed};
use edges::difference::difference_of;
use std::alloc::Global;
use std::marker::Model;
use task_journal::fault::OpenFault;
use task_journal::reading::read_journal;

/// A disk as it was read at a moment. Calls that write fail.
#[derive(Drop)]
struct ImageDisk {
    octets: Vec<u8>,
    faults: u64,
}

impl Model for ImageDisk {
    ghost use Rattle.journal_standby.specs.Images.{Copy};

    ghost Value = { Copy };

    ghost view = { λ d. record { octets = d.octets.items; faults = d.faults } };
}

impl ImageDisk {
    fn new(octets: Vec<u8>) -> ImageDisk
        ensures { result ≡ record { octets = octets.items; faults = 0 } }
    {
        ImageDisk { octets, faults: 0 }
    }

    /// A call failed.
    fn fails(&mut self) -> Failed
        ensures counted { self.new ≡ record self.old { faults = min (self.old.faults + 1) (2 ^ 64 - 1) } }
        ensures later { self.old.faults ≤ self.new.faults }
    {
        self.faults = self.faults.saturating_add(1);
        Failed
    }
}

impl Disk for ImageDisk {
    ghost tells = { Unit {0} };

    ghost content = { λ d. d.octets };

    ghost image = { λ d c. c ≡ d.octets };

    ghost moment = { λ d. 0 };

    ghost image_since = { λ d t c. c ≡ d.octets };

    ghost faults = { λ d. d.faults };

    ghost reads_now = { λ d told. refl };

    ghost counts_now = { λ d t c le now. now };

    ghost widens = { λ d t u c earlier le since. since };

    ghost only_now = { λ d c since. since };

    fn size(&mut self) -> Result<u64, Failed>
        ensures value { result ≡ Ok (length self.old.octets) }
        ensures same { self.new ≡ self.old }
    {
        Ok(self.octets.len() as u64)
    }

    fn read(&mut self, at: u64, into: &mut [u8]) -> Result<(), Failed>
        requires { at + length into.old ≤ length self.old.octets }
        ensures value { into.new ≡ take (length into.old) (drop at self.old.octets) }
        ensures ok { IsOk result }
        ensures same { self.new ≡ self.old }
    {
        let octets = self.octets.as_slice();
        let at = at as usize;
        let end = at + into.len();
        into.copy_from_slice(&octets[at..end]);
        Ok(())
    }

    fn write_at(&mut self, _at: u64, _from: &[u8]) -> Result<(), Failed> {
        Err(self.fails())
    }

    fn cut(&mut self, _size: u64) -> Result<(), Failed> {
        Err(self.fails())
    }

    fn sync(&mut self) -> Result<(), Failed> {
        Ok(())
    }
}

/// An octet is below 256.
fn octets_fit(octets: &[u8])
    ensures { (i : ℕ) → slice_index octets.now i < 256 }
{}

/// The entries that the octets of a disk stand for.
pub fn list_of(alloc: Global, octets: Vec<u8>) -> Result<Entries, OpenFault>
    ensures list { IfOk result (λ list. StandsFor octets.items list) }
    ensures each { IfOk result (λ list. All IsWithinLimits list) }
    // The records of a list have no more octets than its journal.
    ensures size { IfOk result (λ list. length (spellings list) ≤ length octets.items) }
    ensures fault { IfErr result (λ fault. Fails fault (journal octets.items)) }
{
    octets_fit(octets.as_slice());
    let mut disk = ImageDisk::new(octets);
    let (list, places) = read_journal(alloc, &mut disk)?;
    drop(places);
    Ok(list)
}

/// Where octets first differ from the head of a journal, but for the version octet.
pub fn head_fault_of(octets: &[u8]) -> Option<u64>
    requires { 31 ≤ length octets.now }
    ensures { result ≡ head_fault octets.now }
{
    let head =
        b"IPCJRNL1\x00\x00\x00\x01\x02\x00\x00\x00\x00\x00\x00\x00\x00\x00\x00\x00\x00\x00\x00\x00\x00\x00\x00";
    let mut front = [0; 31];
    front.copy_from_slice(&octets[..31]);
    front[12] = 2;
    difference_of(0, head, &front)
}
