//! Journals of other programs, and disks that fail or are damaged.

use cluster_types::config::Scheme;
use cluster_types::entry::{Entries, Entry, Input};
use disk_model::disk::Disk;
use disk_model::fuse::FuseDisk;
use disk_model::memory::MemDisk;
use std::alloc::Global;
use std::process::Abort;
use task_journal::batch::Batch;
use task_journal::fault::{AppendFault, OpenFault};
use task_journal::journal::Journal;
use task_journal::reading::read_journal;

/// A journal of one Open under the default options.
pub(crate) const ONE_OPEN: [u8; 60] = [
    0x49, 0x50, 0x43, 0x4a, 0x52, 0x4e, 0x4c, 0x31, 0x00, 0x00, 0x00, 0x01, 0x02, 0x00, 0x00, 0x00,
    0x00, 0x00, 0x00, 0x00, 0x00, 0x00, 0x00, 0x00, 0x00, 0x00, 0x00, 0x00, 0x00, 0x00, 0x00, 0xa7,
    0x00, 0x00, 0x00, 0x00, 0x12, 0x00, 0x00, 0x00, 0x01, 0x01, 0x00, 0x00, 0x00, 0x00, 0x00, 0x00,
    0x00, 0x00, 0x01, 0x00, 0x00, 0x00, 0x01, 0x00, 0x00, 0x00, 0x0a, 0x00,
];

/// A journal of three batches: an Open; an Up of an engine and the loss of engine 4; a task that is handed out.
const THREE: [u8; 117] = [
    0x49, 0x50, 0x43, 0x4a, 0x52, 0x4e, 0x4c, 0x31, 0x00, 0x00, 0x00, 0x01, 0x02, 0x00, 0x00, 0x00,
    0x00, 0x00, 0x00, 0x00, 0x00, 0x00, 0x00, 0x00, 0x00, 0x00, 0x00, 0x00, 0x00, 0x00, 0x00, 0xa7,
    0x00, 0x00, 0x00, 0x00, 0x12, 0x00, 0x00, 0x00, 0x01, 0x01, 0x00, 0x00, 0x00, 0x00, 0x00, 0x00,
    0x00, 0x00, 0x01, 0x00, 0x00, 0x00, 0x01, 0x00, 0x00, 0x00, 0x0a, 0xa7, 0x00, 0x00, 0x00, 0x00,
    0x1d, 0x00, 0x00, 0x00, 0x02, 0x02, 0x00, 0x00, 0x00, 0x01, 0x03, 0x00, 0x00, 0x00, 0x00, 0x00,
    0x00, 0x00, 0x00, 0x00, 0x00, 0x00, 0x00, 0x00, 0x00, 0x00, 0x00, 0x01, 0x65, 0x09, 0x00, 0x00,
    0x00, 0x04, 0xa7, 0x00, 0x00, 0x00, 0x00, 0x08, 0x00, 0x00, 0x00, 0x01, 0x07, 0x02, 0x74, 0x31,
    0x00, 0x00, 0x00, 0x00, 0x00,
];

/// The batch of an Open under the default options.
pub(crate) fn open_batch<R: Abort>(rt: &R, alloc: Global) -> Batch {
    let mut entries = Entries::new(alloc);
    let open = Entry::Input(Input::Open {
        moment: 0,
        scheme: Scheme::LeastLoad,
        hwm: 1,
        misses: 10,
    });
    entries.push(open).expect(rt, "memory is ample");
    let mut batch = Batch::empty(alloc).expect(rt, "memory is ample");
    batch.extend(entries.as_slice()).expect(rt, "a batch");
    batch
}

#[test]
fn a_batch_grows_and_is_cleared(rt: HostRuntime) {
    let mut batch = open_batch(&rt, rt.alloc());
    assert!(rt; batch.size() == 18 && !batch.is_empty());
    batch.clear();
    assert!(rt; batch.size() == 0 && batch.is_empty());
}

/// The number of entries that a disk stands for, or why there are none.
fn count<D: Disk>(alloc: Global, disk: &mut D) -> Result<usize, OpenFault> {
    let (entries, _) = read_journal(alloc, disk)?;
    Ok(entries.len())
}

/// The number of entries that octets stand for, or why there are none.
pub(crate) fn read<R: Abort>(rt: &R, alloc: Global, octets: &[u8]) -> Result<usize, OpenFault> {
    let mut disk = MemDisk::new(alloc, octets).expect(rt, "memory is ample");
    count(alloc, &mut disk)
}

/// The number of entries that are read from a disk whose call of that number fails, or why there are none.
fn read_failing<R: Abort>(
    rt: &R,
    alloc: Global,
    octets: &[u8],
    call: u64,
) -> Result<usize, OpenFault> {
    let disk = MemDisk::new(alloc, octets).expect(rt, "memory is ample");
    count(alloc, &mut FuseDisk::new(disk, call))
}

#[test]
fn each_read_fails(rt: HostRuntime) {
    // The size and the head; then three gates, each with its records, and the closed gate.
    for call in 1..11 {
        let answer = if call < 10 {
            Err(OpenFault::DiskFault)
        } else {
            Ok(4)
        };
        assert_eq!(rt;
            read_failing(&rt, rt.alloc(), &THREE, call),
            answer,
            "{call}"
        );
    }
}

/// A batch of the loss of engine 4.
const LOSS: &[u8] = &[0xa7, 0, 0, 0, 0, 5, 0, 0, 0, 1, 9, 0, 0, 0, 4];

/// A batch without an entry.
const EMPTY: &[u8] = &[0xa7, 0, 0, 0, 0, 0, 0, 0, 0, 0];

/// The number of entries with which a journal of so many such batches opens.
fn open_batches<R: Abort>(
    rt: &R,
    alloc: Global,
    batch: &[u8],
    count: usize,
) -> Result<usize, OpenFault> {
    let mut octets = Vec::from_slice(alloc, &ONE_OPEN[..31]).expect(rt, "memory is ample");
    for _ in 0..count {
        octets
            .extend_from_slice(batch)
            .expect(rt, "memory is ample");
    }
    octets
        .extend_from_slice(&[0, 0])
        .expect(rt, "memory is ample");
    let disk = MemDisk::new(alloc, octets.as_slice()).expect(rt, "memory is ample");
    match Journal::open(alloc, disk) {
        Ok((_, entries, _)) => Ok(entries.len()),
        Err(refused) => Err(refused.why),
    }
}

#[test]
fn many_batches_open(rt: HostRuntime) {
    for (batch, entries) in [(LOSS, 1_025), (EMPTY, 0)] {
        assert_eq!(rt; open_batches(&rt, rt.alloc(), batch, 1_025), Ok(entries));
    }
}

/// Whether a journal of which a call failed takes no batch.
fn takes_none(journal: &mut Journal<FuseDisk>, batch: &Batch) -> bool {
    journal.append(batch) == Err(AppendFault::Reopen) && journal.failed()
}

/// Appends an Open to a journal, and says what came of it: 1 where the batch wasn't appended, 2 where it was. With it the
/// octets of the disk.
fn appended<R: Abort>(rt: &R, alloc: Global, mut journal: Journal<FuseDisk>) -> (u8, MemDisk) {
    let batch = open_batch(rt, alloc);
    let came = match journal.append(&batch) {
        Ok(()) => 2,
        Err(fault) => {
            assert_eq!(rt; fault, AppendFault::DiskFault);
            assert!(rt; takes_none(&mut journal, &open_batch(rt, alloc)));
            1
        }
    };
    (came, journal.close().into_disk())
}

/// Opens the journal of a disk whose call of that number fails, appends an Open, and says what came of it: 0 where the
/// journal wasn't opened, 1 where the batch wasn't appended, 2 where it was. With it the octets of the disk.
fn opened<R: Abort>(rt: &R, alloc: Global, call: u64) -> (u8, MemDisk) {
    let disk = MemDisk::new(alloc, b"").expect(rt, "memory is ample");
    match Journal::open(alloc, FuseDisk::new(disk, call)) {
        Err(refused) => {
            assert_eq!(rt; refused.why, OpenFault::DiskFault);
            (0, refused.disk.into_disk())
        }
        Ok((journal, _, _)) => appended(rt, alloc, journal),
    }
}

#[test]
fn each_call_fails(rt: HostRuntime) {
    // A sync, the size and four calls that make the head; then the four of the batch.
    for call in 1..11 {
        let (came, disk) = opened(&rt, rt.alloc(), call);
        assert_eq!(rt; came, if call < 7 { 0 } else { 1 });
        assert_eq!(rt;
            read(&rt, rt.alloc(), disk.content()),
            Ok(if call < 10 { 0 } else { 1 }),
            "{call}"
        );
    }
    let (came, disk) = opened(&rt, rt.alloc(), 11);
    assert_eq!(rt; came, 2);
    assert!(rt; disk.content() == ONE_OPEN.as_slice());
}

/// Places of ONE_OPEN, octets that stand there instead, and what comes of it: a gate that never opened, a scheme that isn't
/// listed, another format and another number, two version octets of the first version, octets of the head that aren't
/// zero, one record more in the number, and one octet more in the length.
const DAMAGED: &[(usize, u8, Result<usize, OpenFault>)] = &[
    (59, 0x37, Ok(1)),
    (41, 0x0f, Err(OpenFault::Damaged(41))),
    (7, 0x32, Err(OpenFault::NotAJournal(7))),
    (11, 2, Err(OpenFault::NotAJournal(11))),
    (12, 0, Ok(1)),
    (12, 0xff, Ok(1)),
    (13, 1, Err(OpenFault::NotAJournal(13))),
    (30, 1, Err(OpenFault::NotAJournal(30))),
    (40, 2, Err(OpenFault::Damaged(59))),
    (36, 0x13, Err(OpenFault::Damaged(59))),
];

/// ONE_OPEN with that octet at a place, and with a hundred octets behind it where that is its last one.
fn damaged<R: Abort>(rt: &R, alloc: Global, place: usize, octet: u8) -> Vec<u8> {
    let mut octets = Vec::from_slice(alloc, &ONE_OPEN).expect(rt, "memory is ample");
    if let Some(it) = octets.get_mut(place) {
        *it = octet;
    }
    if place == 59 {
        octets
            .extend_from_slice(&[0xa7; 100])
            .expect(rt, "memory is ample");
    }
    octets
}

#[test]
fn damage_is_told(rt: HostRuntime) {
    let alloc = rt.alloc();
    for (place, octet, answer) in DAMAGED {
        let octets = damaged(&rt, alloc, *place, *octet);
        assert_eq!(rt; read(&rt, alloc, octets.as_slice()), *answer, "at {place}");
    }
    for size in [0, 10, 32] {
        assert_eq!(rt; read(&rt, alloc, &[0xa7; 33][..size]), Ok(0));
    }
    assert_eq!(rt;
        read(&rt, alloc, &[0xa7; 33]),
        Err(OpenFault::NotAJournal(0))
    );
}

/// Settles of a task that a client took back, by its verdict, by its cause, and by both.
const ABORTS: &[[u8; 5]] = &[[8, 1, 0x61, 3, 0], [8, 1, 0x61, 2, 5], [8, 1, 0x61, 3, 5]];

/// A journal of one record of five octets, with that version octet.
fn one_record<R: Abort>(rt: &R, alloc: Global, octet: u8, record: &[u8]) -> Vec<u8> {
    let mut octets = Vec::from_slice(alloc, &ONE_OPEN[..31]).expect(rt, "memory is ample");
    octets[12] = octet;
    octets
        .extend_from_slice(&LOSS[..10])
        .expect(rt, "memory is ample");
    octets
        .extend_from_slice(record)
        .expect(rt, "memory is ample");
    octets.push(0).expect(rt, "memory is ample");
    octets
}

#[test]
fn the_first_version_has_no_aborts(rt: HostRuntime) {
    let alloc = rt.alloc();
    for record in ABORTS {
        for (octet, answer) in [
            (0, Err(OpenFault::Damaged(41))),
            (1, Err(OpenFault::Damaged(41))),
            (2, Ok(1)),
        ] {
            let octets = one_record(&rt, alloc, octet, record);
            assert_eq!(rt; read(&rt, alloc, octets.as_slice()), answer, "{octet}");
        }
    }
}

/// The octets of a disk whose call of that number fails, after a journal was opened on it, and whether it was.
fn left_by_opening<R: Abort>(rt: &R, alloc: Global, octets: &[u8], call: u64) -> (bool, MemDisk) {
    let disk = MemDisk::new(alloc, octets).expect(rt, "memory is ample");
    match Journal::open(alloc, FuseDisk::new(disk, call)) {
        Ok((journal, _, _)) => (true, journal.close().into_disk()),
        Err(refused) => (false, refused.disk.into_disk()),
    }
}

/// Opens ONE_OPEN with that version octet on a disk whose call of that number fails. It says whether it was opened, how many
/// entries the disk stands for then, and whether its version octet is that of the second version.
fn migrated<R: Abort>(
    rt: &R,
    alloc: Global,
    octet: u8,
    call: u64,
) -> (bool, Result<usize, OpenFault>, bool) {
    let octets = damaged(rt, alloc, 12, octet);
    let (is_open, disk) = left_by_opening(rt, alloc, octets.as_slice(), call);
    let second = disk.content() == ONE_OPEN.as_slice();
    (is_open, read(rt, alloc, disk.content()), second)
}

#[test]
fn each_call_of_a_migration_fails(rt: HostRuntime) {
    // A sync, the size and the head, a gate and its record, and the closed gate; then the version octet, and a sync.
    for call in 1..10 {
        assert_eq!(rt;
            migrated(&rt, rt.alloc(), 0, call),
            (call == 9, Ok(1), call >= 8),
            "{call}"
        );
    }
    assert_eq!(rt; migrated(&rt, rt.alloc(), 0xff, 9), (true, Ok(1), true));
    // A journal of the second version is only read.
    assert_eq!(rt; migrated(&rt, rt.alloc(), 2, 7), (true, Ok(1), true));
}

/// The place of the last gate or record of the journal of three batches that begins within so many octets.
fn last_begin(size: usize) -> u64 {
    let mut place = 31;
    for begins in [41, 59, 69, 93, 98, 108, 116] {
        if begins <= size {
            place = begins;
        }
    }
    place as u64
}

#[test]
fn a_journal_is_cut(rt: HostRuntime) {
    let alloc = rt.alloc();
    for size in 0..THREE.len() {
        let answer = if size < 33 {
            Ok(0)
        } else {
            Err(OpenFault::Damaged(last_begin(size)))
        };
        assert_eq!(rt; read(&rt, alloc, &THREE[..size]), answer, "{size}");
    }
    let mut disk = MemDisk::new(alloc, &THREE).expect(&rt, "memory is ample");
    let (entries, places) = read_journal(alloc, &mut disk).expect(&rt, "a journal");
    assert_eq!(rt; entries.len(), 4);
    assert_eq!(rt; places.as_slice(), [41, 69, 93, 108, 116].as_slice());
}

/// The record of a message, up to its content.
const MESSAGE: [u8; 34] = [
    4, 0, 0, 0, 2, 0, 0, 0, 0, 0, 0, 0, 5, 0, 0, 0, 0, 0, 0, 0, 6, 0, 0, 0, 0, 0, 0, 0, 0, 0, 0, 0,
    0, 0,
];

/// A journal of a message with that many octets of content, and of the loss of engine 4.
fn long_journal<R: Abort>(rt: &R, alloc: Global, content: u16) -> Vec<u8> {
    let mut octets = Vec::from_slice(alloc, &ONE_OPEN[..31]).expect(rt, "memory is ample");
    let size = u32::from(content) * 4;
    octets
        .extend_from_slice(&[0xa7, 0])
        .expect(rt, "memory is ample");
    octets
        .extend_from_slice(&(size + 44).to_be_bytes())
        .expect(rt, "memory is ample");
    octets
        .extend_from_slice(&[0, 0, 0, 2])
        .expect(rt, "memory is ample");
    octets
        .extend_from_slice(&MESSAGE)
        .expect(rt, "memory is ample");
    octets
        .extend_from_slice(&size.to_be_bytes())
        .expect(rt, "memory is ample");
    let end = octets.len().saturating_add(size as usize);
    octets.resize(end, 0x20).expect(rt, "memory is ample");
    octets
        .extend_from_slice(&[0, 9, 0, 0, 0, 4, 0])
        .expect(rt, "memory is ample");
    octets
}

#[test]
fn records_go_on_over_pieces(rt: HostRuntime) {
    let alloc = rt.alloc();
    for content in [16_384, 65_535] {
        let octets = long_journal(&rt, alloc, content);
        assert_eq!(rt; read(&rt, alloc, octets.as_slice()), Ok(2));
        let end = octets.len().saturating_sub(2);
        assert_eq!(rt;
            read(&rt, alloc, &octets[..end]),
            Err(OpenFault::Damaged(octets.len().saturating_sub(6) as u64))
        );
    }
}

/// Adds octets to a journal.
fn add<R: Abort>(rt: &R, octets: &mut Vec<u8>, more: &[u8]) {
    octets.extend_from_slice(more).expect(rt, "memory is ample");
}

/// A journal of a message with so many buffers of 70,000 octets, each of which goes on over a piece.
fn journal_of_buffers<R: Abort>(rt: &R, alloc: Global, count: u8) -> Vec<u8> {
    let mut octets = Vec::from_slice(alloc, &ONE_OPEN[..33]).expect(rt, "memory is ample");
    let size = 39 + u32::from(count) * 70_004;
    add(rt, &mut octets, &size.to_be_bytes());
    add(rt, &mut octets, &[0, 0, 0, 1]);
    add(rt, &mut octets, &MESSAGE);
    add(rt, &mut octets, &[0, 0, 0, 0, count]);
    for _ in 0..count {
        add(rt, &mut octets, &70_000_u32.to_be_bytes());
        let end = octets.len().saturating_add(70_000);
        octets.resize(end, 0x20).expect(rt, "memory is ample");
    }
    add(rt, &mut octets, &[0]);
    octets
}

#[test]
fn a_record_goes_on_over_many_pieces(rt: HostRuntime) {
    let alloc = rt.alloc();
    let octets = journal_of_buffers(&rt, alloc, 58);
    assert_eq!(rt; read(&rt, alloc, octets.as_slice()), Ok(1));
}
