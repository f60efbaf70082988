//! A standby that follows journals, and one that is promoted.

ghost use Rattle.std.specs.Prelude.{All};
ghost use Rattle.journal_standby.specs.Steps.{HasShortSteps};
ghost use Rattle.record_codec.specs.Spelling.{IsWithinLimits};

use crate::choosing::new_chooser;
use cluster_types::config::{Config, Scheme};
use cluster_types::entry::Entries;
use disk_model::disk::Disk;
use disk_model::fuse::FuseDisk;
use disk_model::memory::MemDisk;
use journal_standby::fault::FollowFault;
use journal_standby::image::list_of;
use journal_standby::standby::Standby;
use std::alloc::Global;
use std::process::Abort;
use task_journal::fault::OpenFault;
use task_journal::opening::Refused;

/// A journal of one Open under the default options: the disk behind the empty tape.
const ONE_OPEN: [u8; 60] = [
    0x49, 0x50, 0x43, 0x4a, 0x52, 0x4e, 0x4c, 0x31, 0x00, 0x00, 0x00, 0x01, 0x02, 0x00, 0x00, 0x00,
    0x00, 0x00, 0x00, 0x00, 0x00, 0x00, 0x00, 0x00, 0x00, 0x00, 0x00, 0x00, 0x00, 0x00, 0x00, 0xa7,
    0x00, 0x00, 0x00, 0x00, 0x12, 0x00, 0x00, 0x00, 0x01, 0x01, 0x00, 0x00, 0x00, 0x00, 0x00, 0x00,
    0x00, 0x00, 0x01, 0x00, 0x00, 0x00, 0x01, 0x00, 0x00, 0x00, 0x0a, 0x00,
];

/// A journal of the same Open, and of the Up of an engine and the loss of engine 4 behind it.
const THREE: [u8; 99] = [
    0x49, 0x50, 0x43, 0x4a, 0x52, 0x4e, 0x4c, 0x31, 0x00, 0x00, 0x00, 0x01, 0x02, 0x00, 0x00, 0x00,
    0x00, 0x00, 0x00, 0x00, 0x00, 0x00, 0x00, 0x00, 0x00, 0x00, 0x00, 0x00, 0x00, 0x00, 0x00, 0xa7,
    0x00, 0x00, 0x00, 0x00, 0x12, 0x00, 0x00, 0x00, 0x01, 0x01, 0x00, 0x00, 0x00, 0x00, 0x00, 0x00,
    0x00, 0x00, 0x01, 0x00, 0x00, 0x00, 0x01, 0x00, 0x00, 0x00, 0x0a, 0xa7, 0x00, 0x00, 0x00, 0x00,
    0x1d, 0x00, 0x00, 0x00, 0x02, 0x02, 0x00, 0x00, 0x00, 0x01, 0x03, 0x00, 0x00, 0x00, 0x00, 0x00,
    0x00, 0x00, 0x00, 0x00, 0x00, 0x00, 0x00, 0x00, 0x00, 0x00, 0x00, 0x01, 0x65, 0x09, 0x00, 0x00,
    0x00, 0x04, 0x00,
];

/// A disk in memory.
fn disk<R: Abort>(rt: &R, alloc: Global, octets: &[u8]) -> MemDisk {
    MemDisk::new(alloc, octets).expect(rt, "memory is ample")
}

/// The list that octets stand for.
fn list<R: Abort>(rt: &R, alloc: Global, octets: &[u8]) -> Entries
    ensures each { All IsWithinLimits result }
    ensures short { HasShortSteps result }
{
    if octets.len() > 2_147_483_648 {
        panic!(rt; "a journal is too long");
    }
    let octets = Vec::from_slice(alloc, octets).expect(rt, "memory is ample");
    list_of(alloc, octets).expect(rt, "a journal")
}

/// The standby of a disk.
fn open<R: Abort, D: Disk + Drop>(rt: &R, alloc: Global, disk: D) -> Standby<D> {
    match Standby::open(alloc, disk) {
        Ok(standby) => standby,
        Err(Refused { why, .. }) => panic!(rt; "{}", why),
    }
}

#[test]
fn what_lacks_is_appended_once(rt: HostRuntime) {
    let alloc = rt.alloc();
    let mut standby = open(&rt, alloc, disk(&rt, alloc, b""));
    let one = list(&rt, alloc, &ONE_OPEN);
    assert_eq!(rt; standby.follow(&one), Ok(1));
    assert_eq!(rt; standby.follow(&one), Ok(0));
    let three = list(&rt, alloc, &THREE);
    assert_eq!(rt; standby.follow(&three), Ok(2));
    assert_eq!(rt; standby.list().len(), 3);
    assert!(rt; standby.close().content() == THREE.as_slice());
}

#[test]
fn a_longer_list_differs_behind_the_primarys(rt: HostRuntime) {
    let alloc = rt.alloc();
    let mut standby = open(&rt, alloc, disk(&rt, alloc, &THREE));
    let differs = Err(FollowFault::Diverged { place: 1 });
    assert_eq!(rt; standby.follow(&list(&rt, alloc, &ONE_OPEN)), differs);
    let none = Err(FollowFault::Diverged { place: 0 });
    assert_eq!(rt; standby.follow(&Entries::new(alloc)), none);
    assert!(rt; standby.close().content() == THREE.as_slice());
}

#[test]
fn an_image_is_refused_at_its_first_fault(rt: HostRuntime) {
    let alloc = rt.alloc();
    let mut octets = Vec::from_slice(alloc, &ONE_OPEN).expect(&rt, "memory is ample");
    octets[7] = b'2';
    match list_of(alloc, octets) {
        Err(why) => assert_eq!(rt; why, OpenFault::NotAJournal(7)),
        Ok(_) => panic!(rt; "no journal is read"),
    }
}

/// Follows a journal over a disk whose call of that number fails, and then again; None where the opening met that call.
fn follow_failing<R: Abort>(rt: &R, alloc: Global, call: u64) -> Option<Result<u64, FollowFault>> {
    let opened = Standby::open(alloc, FuseDisk::new(disk(rt, alloc, &ONE_OPEN), call));
    let Ok(mut standby) = opened else {
        return None;
    };
    let three = list(rt, alloc, &THREE);
    let answer = standby.follow(&three);
    let again = if answer.is_ok() {
        Ok(0)
    } else {
        Err(FollowFault::Reopen)
    };
    assert_eq!(rt; standby.follow(&three), again);
    assert_eq!(rt; standby.list().len(), if answer.is_ok() { 3 } else { 1 });
    Some(answer)
}

#[test]
fn a_standby_whose_disk_failed_is_to_be_opened_again(rt: HostRuntime) {
    let mut refused = 0u32;
    let mut failed = 0u32;
    let mut followed = 0u32;
    for call in 1..20 {
        match follow_failing(&rt, rt.alloc(), call) {
            None => {
                assert_eq!(rt; (failed, followed), (0, 0), "{call}");
                refused = refused.saturating_add(1);
            }
            Some(Err(why)) => {
                assert_eq!(rt; why, FollowFault::DiskFault, "{call}");
                assert_eq!(rt; followed, 0, "{call}");
                failed = failed.saturating_add(1);
            }
            Some(Ok(added)) => {
                assert_eq!(rt; added, 2, "{call}");
                followed = followed.saturating_add(1);
            }
        }
    }
    // An append is four calls of the disk.
    assert!(rt; refused > 0);
    assert_eq!(rt; failed, 4);
    assert!(rt; followed > 0);
}

#[test]
fn a_promoted_standby_goes_on_from_its_list(rt: HostRuntime) {
    let alloc = rt.alloc();
    let mut standby = open(&rt, alloc, disk(&rt, alloc, b""));
    assert_eq!(rt; standby.follow(&list(&rt, alloc, &ONE_OPEN)), Ok(1));
    let config = Config {
        scheme: Scheme::LeastLoad,
        hwm: 1,
        misses: 10,
        entries: 1000,
        bytes: 1_000_000,
    };
    let chooser = new_chooser(&rt, alloc);
    match standby.promote(alloc, config, &chooser, 0) {
        Ok(store) => assert_eq!(rt; store.history().len(), 2),
        Err(Refused { why, .. }) => panic!(rt; "{}", why),
    }
}
