//! Disks whose lists are written as journals at once.

ghost use Rattle.std.specs.Prelude.{◌≡◌, ◌<◌, length};
ghost use Rattle.cluster_defs.specs.Scheduling.{pick};

use super::{DAMAGED, ONE_OPEN, changed, disk_of};
use cluster_types::config::Scheme;
use command_words::ending::Ending;
use database_text::compact::compact;
use edges::memory::MemSink;
use load_schemes::chooser::{Choose, Chooser};
use load_schemes::place::place_of;
use std::alloc::{AllocError, Global};
use std::process::Abort;

/// A chooser that places tasks as a controller does.
fn new_chooser(alloc: Global) -> Result<Chooser, AllocError> {
    let choose: Choose = Box::new(
        alloc,
        |scheme: Scheme, loads: &[u32], word: u64| -> usize
            requires { 0 < length loads.now }
            ensures { result ≡ pick scheme loads.now word }
        { place_of(scheme, loads, word) },
    )?;
    Ok(Chooser::new(choose))
}

/// How writing the list of these octets ends as a disk whose call of one number fails, to an output whose calls of these
/// numbers fail; whether a front of a journal was written, and how many octets; and whether the disk is as it was.
fn compacted<R: Abort>(
    rt: &R,
    alloc: Global,
    octets: &[u8],
    call: u64,
    failing: &[u64],
    journal: &[u8],
) -> (Ending, bool, usize, bool) {
    let chooser = new_chooser(alloc).expect(rt, "memory is ample");
    let mut disk = disk_of(rt, alloc, octets, call);
    let mut output = MemSink::new(alloc, failing).expect(rt, "memory is ample");
    let ending = compact(alloc, &mut disk, &chooser, &mut output);
    let written = output.written();
    let is_front = journal.starts_with(written);
    let is_same = disk.into_disk().content() == octets;
    (ending, is_front, written.len(), is_same)
}

#[test]
fn one_entry_gives_the_same_octets(rt: HostRuntime) {
    assert_eq!(rt;
        compacted(&rt, rt.alloc(), &ONE_OPEN, 0, &[], &ONE_OPEN),
        (Ending::Done, true, 60, true)
    );
}

#[test]
fn a_disk_without_entries_gives_a_head(rt: HostRuntime) {
    let mut head = Vec::from_slice(rt.alloc(), &ONE_OPEN[..31]).expect(&rt, "memory is ample");
    head.extend_from_slice(&[0, 0])
        .expect(&rt, "memory is ample");
    for octets in [
        b"".as_slice(),
        b"IPCJRNL2",
        &ONE_OPEN[..32],
        head.as_slice(),
    ] {
        assert_eq!(rt;
            compacted(&rt, rt.alloc(), octets, 0, &[], &head),
            (Ending::Done, true, 33, true)
        );
    }
}

#[test]
fn damage_is_told(rt: HostRuntime) {
    for (place, octet, more, ending) in DAMAGED {
        let octets = changed(&rt, rt.alloc(), *place, *octet, *more);
        let count = if *ending == Ending::Done { 60 } else { 0 };
        assert_eq!(rt;
            compacted(&rt, rt.alloc(), &octets, 0, &[], &ONE_OPEN),
            (*ending, true, count, true)
        );
    }
}

/// The journal of an Open so many times, and behind it the loss of an engine where that is wanted, in one batch.
fn openings<R: Abort>(rt: &R, alloc: Global, count: u32, is_lost: bool) -> Vec<u8>
    requires { count < 100000 }
{
    let lost: &[u8] = if is_lost { &[9, 0, 0, 0, 7] } else { &[] };
    let size = 18 * count + lost.len() as u32;
    let mut octets = Vec::from_slice(alloc, &ONE_OPEN[..33]).expect(rt, "memory is ample");
    octets
        .extend_from_slice(&size.to_be_bytes())
        .expect(rt, "memory is ample");
    octets
        .extend_from_slice(&(count + u32::from(is_lost)).to_be_bytes())
        .expect(rt, "memory is ample");
    for _ in 0..count {
        octets
            .extend_from_slice(&ONE_OPEN[41..59])
            .expect(rt, "memory is ample");
    }
    octets.extend_from_slice(lost).expect(rt, "memory is ample");
    octets.push(0).expect(rt, "memory is ample");
    octets
}

#[test]
fn a_list_of_no_cluster_is_refused(rt: HostRuntime) {
    // No engine may be given up behind two Opens: the place is that of its record.
    let octets = openings(&rt, rt.alloc(), 2, true);
    assert_eq!(rt;
        compacted(&rt, rt.alloc(), &octets, 0, &[], b""),
        (Ending::Damaged(77), true, 0, true)
    );
}

#[test]
fn each_call_of_the_disk_fails(rt: HostRuntime) {
    // The size, the head, the gate, its records, and the closed gate.
    for call in 1..6 {
        assert_eq!(rt;
            compacted(&rt, rt.alloc(), &ONE_OPEN, call, &[], &ONE_OPEN),
            (Ending::DiskFault, true, 0, true)
        );
    }
    assert_eq!(rt;
        compacted(&rt, rt.alloc(), &ONE_OPEN, 6, &[], &ONE_OPEN),
        (Ending::Done, true, 60, true)
    );
}

#[test]
fn a_write_fails(rt: HostRuntime) {
    // The first piece ends with the first of the records, of 18 octets each, that comes to 65,536 octets.
    let octets = openings(&rt, rt.alloc(), 3_700, false);
    for (call, ending, count) in [
        (1, Ending::WriteFault, 0),
        (2, Ending::WriteFault, 65_543),
        (3, Ending::Done, 66_642),
    ] {
        assert_eq!(rt;
            compacted(&rt, rt.alloc(), &octets, 0, &[call], &octets),
            (ending, true, count, true)
        );
    }
}
