//! Entries that a journal gives one after another, up to its end or to a fault.

use disk_model::disk::Disk;
use disk_model::fuse::FuseDisk;
use disk_model::memory::MemDisk;
use std::alloc::Global;
use std::process::Abort;
use task_journal::cursor::Cursor;
use task_journal::fault::OpenFault;

/// A journal of three batches: an Open; none; and the loss of engine 4, twice.
const BATCHES: [u8; 90] = [
    0x49, 0x50, 0x43, 0x4a, 0x52, 0x4e, 0x4c, 0x31, 0x00, 0x00, 0x00, 0x01, 0x02, 0x00, 0x00, 0x00,
    0x00, 0x00, 0x00, 0x00, 0x00, 0x00, 0x00, 0x00, 0x00, 0x00, 0x00, 0x00, 0x00, 0x00, 0x00, 0xa7,
    0x00, 0x00, 0x00, 0x00, 0x12, 0x00, 0x00, 0x00, 0x01, 0x01, 0x00, 0x00, 0x00, 0x00, 0x00, 0x00,
    0x00, 0x00, 0x01, 0x00, 0x00, 0x00, 0x01, 0x00, 0x00, 0x00, 0x0a, 0xa7, 0x00, 0x00, 0x00, 0x00,
    0x00, 0x00, 0x00, 0x00, 0x00, 0xa7, 0x00, 0x00, 0x00, 0x00, 0x0a, 0x00, 0x00, 0x00, 0x02, 0x09,
    0x00, 0x00, 0x00, 0x04, 0x09, 0x00, 0x00, 0x00, 0x04, 0x00,
];

/// How many entries a disk gives, the sum of the places of their records, and why no more come, or the place of the gate
/// behind them.
fn given<D: Disk>(alloc: Global, disk: &mut D) -> (usize, u64, Result<u64, OpenFault>) {
    let mut cursor = match Cursor::begin(alloc, disk) {
        Ok(cursor) => cursor,
        Err(fault) => return (0, 0, Err(fault)),
    };
    let mut count: usize = 0;
    let mut sum: u64 = 0;
    for _ in 0..100 {
        match cursor.next(alloc, disk) {
            Ok(Some(placed)) => {
                count = count.saturating_add(1);
                sum = sum.saturating_add(placed.place);
            }
            Ok(None) => return (count, sum, Ok(cursor.gate())),
            Err(fault) => return (count, sum, Err(fault)),
        }
    }
    (count, sum, Ok(0))
}

/// The same of octets on a disk whose call of that number fails; 0 is the number of none.
fn given_of<R: Abort>(
    rt: &R,
    alloc: Global,
    octets: &[u8],
    call: u64,
) -> (usize, u64, Result<u64, OpenFault>) {
    let disk = MemDisk::new(alloc, octets).expect(rt, "memory is ample");
    given(alloc, &mut FuseDisk::new(disk, call))
}

#[test]
fn entries_come_one_by_one(rt: HostRuntime) {
    assert_eq!(rt;
        given_of(&rt, rt.alloc(), &BATCHES, 0),
        (3, 41 + 79 + 84, Ok(89))
    );
    assert_eq!(rt; given_of(&rt, rt.alloc(), b"", 0), (0, 0, Ok(0)));
}

/// How many entries come before each call fails, and the sum of their places.
const CALLS: &[(u64, usize, u64)] = &[
    // The size and the head; a gate and its record; the gate of none; a gate and its records; and the closed gate.
    (1, 0, 0),
    (2, 0, 0),
    (3, 0, 0),
    (4, 0, 0),
    (5, 1, 41),
    (6, 1, 41),
    (7, 1, 41),
    (8, 3, 204),
];

#[test]
fn entries_come_before_a_call_fails(rt: HostRuntime) {
    for (call, count, sum) in CALLS {
        assert_eq!(rt;
            given_of(&rt, rt.alloc(), &BATCHES, *call),
            (*count, *sum, Err(OpenFault::DiskFault)),
            "{call}"
        );
    }
    assert_eq!(rt; given_of(&rt, rt.alloc(), &BATCHES, 9), (3, 204, Ok(89)));
}

#[test]
fn entries_come_before_damage(rt: HostRuntime) {
    let mut octets = BATCHES;
    octets[84] = 0x0f;
    assert_eq!(rt;
        given_of(&rt, rt.alloc(), &octets, 0),
        (2, 41 + 79, Err(OpenFault::Damaged(84)))
    );
    assert_eq!(rt;
        given_of(&rt, rt.alloc(), &BATCHES[..89], 0),
        (3, 204, Err(OpenFault::Damaged(89)))
    );
}
