//! Room behind a journal that is kept ahead of its batches.

use crate::journals::{ONE_OPEN, open_batch, read};
use disk_model::disk::Disk;
use disk_model::fuse::FuseDisk;
use disk_model::memory::MemDisk;
use std::alloc::Global;
use std::process::Abort;
use task_journal::fault::AppendFault;
use task_journal::journal::Journal;

/// Room of so many octets is kept at a time.
const ROOM: usize = 64;

/// The journal of a disk that holds these octets, whose call of that number fails; None where that is one of opening.
fn journal_on<R: Abort>(
    rt: &R,
    alloc: Global,
    octets: &[u8],
    call: u64,
) -> Option<Journal<FuseDisk>> {
    let disk = MemDisk::new(alloc, octets).expect(rt, "memory is ample");
    match Journal::open(alloc, FuseDisk::new(disk, call)) {
        Ok((journal, _, _)) => Some(journal),
        Err(_) => None,
    }
}

/// What a disk holds after so many batches of an Open, with room that is kept ahead or without.
fn after_batches<R: Abort>(rt: &R, alloc: Global, batches: u32, room: bool) -> Journal<FuseDisk> {
    let mut journal = journal_on(rt, alloc, b"", 1_000).expect(rt, "no call fails");
    if room {
        journal.keep_room(alloc, ROOM).expect(rt, "memory is ample");
    }
    let batch = open_batch(rt, alloc);
    for _ in 0..batches {
        assert_eq!(rt; journal.append(&batch), Ok(()));
    }
    journal
}

/// How many octets the disk has after so many batches of 28 octets behind a head of 33, where room of 64 is kept: 97 as long
/// as the last gate stands before them, and 64 more then.
const SIZES: &[(u32, usize)] = &[(0, 33), (1, 97), (2, 97), (3, 161), (4, 161), (5, 225)];

#[test]
fn room_is_made_ahead(rt: HostRuntime) {
    let alloc = rt.alloc();
    for (batches, size) in SIZES {
        let plain = after_batches(&rt, alloc, *batches, false)
            .close()
            .into_disk();
        let disk = after_batches(&rt, alloc, *batches, true)
            .close()
            .into_disk();
        assert!(rt; disk.content().starts_with(plain.content()), "{batches}");
        assert_eq!(rt; disk.content().len(), *size, "{batches}");
        let mut behind = disk.content().iter().skip(plain.content().len());
        assert!(rt; behind.all(|octet| *octet == 0), "{batches}");
        assert_eq!(rt; read(&rt, alloc, disk.content()), Ok(*batches as usize));
    }
}

#[test]
fn room_is_cut_off(rt: HostRuntime) {
    let alloc = rt.alloc();
    for batches in 0..6 {
        let plain = after_batches(&rt, alloc, batches, false)
            .close()
            .into_disk();
        let mut journal = after_batches(&rt, alloc, batches, true);
        assert_eq!(rt; journal.trim(), Ok(()));
        let disk = journal.close().into_disk();
        assert!(rt; disk.content() == plain.content(), "{batches}");
    }
}

#[test]
fn room_that_was_left_is_used(rt: HostRuntime) {
    let alloc = rt.alloc();
    let left = after_batches(&rt, alloc, 1, true).close().into_disk();
    let mut journal = journal_on(&rt, alloc, left.content(), 1_000).expect(&rt, "no call fails");
    journal
        .keep_room(alloc, ROOM)
        .expect(&rt, "memory is ample");
    assert_eq!(rt; journal.append(&open_batch(&rt, alloc)), Ok(()));
    let disk = journal.close().into_disk();
    assert_eq!(rt; disk.content().len(), 97);
    assert_eq!(rt; read(&rt, alloc, disk.content()), Ok(2));
}

/// Appends a batch to a journal of one Open, whose disk fails at a call, with room that is kept, and cuts that off. It gives
/// how many of the two calls were done, and the disk.
fn failing<R: Abort>(rt: &R, alloc: Global, call: u64) -> Option<(u32, MemDisk)> {
    let mut journal = journal_on(rt, alloc, &ONE_OPEN, call)?;
    journal.keep_room(alloc, ROOM).expect(rt, "memory is ample");
    let appended = journal.append(&open_batch(rt, alloc));
    let trimmed = journal.trim();
    let done = match (appended, trimmed) {
        (Ok(()), Ok(())) => 2,
        (Ok(()), Err(fault)) => {
            assert_eq!(rt; fault, AppendFault::DiskFault);
            1
        }
        (Err(fault), trimmed) => {
            assert_eq!(rt; fault, AppendFault::DiskFault);
            assert_eq!(rt; trimmed, Err(AppendFault::Reopen));
            0
        }
    };
    Some((done, journal.close().into_disk()))
}

#[test]
fn each_call_for_room_fails(rt: HostRuntime) {
    let alloc = rt.alloc();
    // Opening takes a sync, the size, the head, and two gates with a record between them.
    for call in 1..7 {
        assert!(rt; failing(&rt, alloc, call).is_none(), "{call}");
    }
    // The size, a write and a sync for the room; then the four calls of the batch; then a cut and a sync.
    for call in 7..17 {
        let (done, disk) = failing(&rt, alloc, call).expect(&rt, "the journal opens");
        let expected = match call {
            7..=13 => 0,
            14..=15 => 1,
            _ => 2,
        };
        assert_eq!(rt; done, expected, "{call}");
        let entries = read(&rt, alloc, disk.content());
        assert_eq!(rt; entries, Ok(if call < 13 { 1 } else { 2 }), "{call}");
    }
}
