//! Disks that are printed, and texts that are checked against them.

mod compacting;

use cluster_types::entry::Entry;
use command_words::ending::Ending;
use database_text::check::check;
use database_text::dump::dump;
use disk_model::fuse::FuseDisk;
use disk_model::memory::MemDisk;
use edges::memory::{MemSink, MemSource, SureSource};
use edges::source::{Got, Source};
use std::alloc::Global;
use std::process::Abort;
use task_journal::batch::Batch;
use task_journal::journal::Journal;

/// A journal of one Open under the default options.
const ONE_OPEN: [u8; 60] = [
    0x49, 0x50, 0x43, 0x4a, 0x52, 0x4e, 0x4c, 0x31, 0x00, 0x00, 0x00, 0x01, 0x02, 0x00, 0x00, 0x00,
    0x00, 0x00, 0x00, 0x00, 0x00, 0x00, 0x00, 0x00, 0x00, 0x00, 0x00, 0x00, 0x00, 0x00, 0x00, 0xa7,
    0x00, 0x00, 0x00, 0x00, 0x12, 0x00, 0x00, 0x00, 0x01, 0x01, 0x00, 0x00, 0x00, 0x00, 0x00, 0x00,
    0x00, 0x00, 0x01, 0x00, 0x00, 0x00, 0x01, 0x00, 0x00, 0x00, 0x0a, 0x00,
];

/// Its text.
const OPEN_TEXT: &str = "open 0 leastload 1 10\n";

/// A journal of three batches with entries of each kind, which another program wrote.
const EACH_KIND: [u8; 451] = [
    0x49, 0x50, 0x43, 0x4a, 0x52, 0x4e, 0x4c, 0x31, 0x00, 0x00, 0x00, 0x01, 0x02, 0x00, 0x00, 0x00,
    0x00, 0x00, 0x00, 0x00, 0x00, 0x00, 0x00, 0x00, 0x00, 0x00, 0x00, 0x00, 0x00, 0x00, 0x00, 0xa7,
    0x00, 0x00, 0x00, 0x00, 0x48, 0x00, 0x00, 0x00, 0x04, 0x01, 0x00, 0x00, 0xe6, 0x77, 0xd2, 0x1f,
    0xdb, 0xff, 0x00, 0x00, 0x00, 0x00, 0x00, 0xff, 0xff, 0xff, 0xff, 0x01, 0x00, 0x00, 0x00, 0x00,
    0x00, 0x00, 0x00, 0x00, 0x01, 0x00, 0x00, 0x00, 0x01, 0x00, 0x00, 0x00, 0x0a, 0x01, 0x00, 0x00,
    0x00, 0x00, 0x00, 0x00, 0x00, 0x05, 0x02, 0x00, 0x0f, 0x42, 0x40, 0x00, 0x00, 0x00, 0x0a, 0x01,
    0x00, 0x00, 0x00, 0x00, 0x00, 0x00, 0x00, 0x06, 0x03, 0x00, 0x00, 0x00, 0x07, 0x00, 0x00, 0x00,
    0x08, 0xa7, 0x00, 0x00, 0x00, 0x00, 0xe8, 0x00, 0x00, 0x00, 0x07, 0x02, 0x00, 0x00, 0x00, 0x03,
    0x00, 0x00, 0x00, 0x00, 0x00, 0x00, 0x00, 0x00, 0x0a, 0xff, 0xff, 0xff, 0xff, 0xff, 0xff, 0xff,
    0xff, 0x02, 0x00, 0xff, 0x02, 0x00, 0x00, 0x00, 0x04, 0x01, 0x00, 0x00, 0x00, 0x00, 0x00, 0x00,
    0x00, 0x0a, 0x00, 0x00, 0x00, 0x00, 0x00, 0x00, 0x00, 0x00, 0x06, 0x63, 0x6c, 0x69, 0x65, 0x6e,
    0x74, 0x02, 0x00, 0x00, 0x00, 0x05, 0x02, 0x00, 0x00, 0x00, 0x00, 0x00, 0x00, 0x00, 0x0b, 0x00,
    0x00, 0x00, 0x00, 0x00, 0x00, 0x00, 0x01, 0x01, 0x6d, 0x02, 0x00, 0x00, 0x00, 0x06, 0x03, 0x00,
    0x00, 0x00, 0x00, 0x00, 0x00, 0x00, 0x0c, 0x00, 0x00, 0x00, 0x00, 0x00, 0x00, 0x00, 0x02, 0x01,
    0x65, 0x03, 0x00, 0x00, 0x00, 0x03, 0x00, 0x00, 0x00, 0x00, 0x00, 0x00, 0x03, 0xe8, 0x00, 0x00,
    0x00, 0x00, 0x00, 0x00, 0x00, 0x07, 0x04, 0x00, 0x00, 0x00, 0x02, 0x00, 0x00, 0x00, 0x00, 0x00,
    0x00, 0x00, 0x05, 0x00, 0x00, 0x00, 0x00, 0x00, 0x00, 0x00, 0x06, 0x01, 0x65, 0x00, 0x00, 0x00,
    0x02, 0x7b, 0x7d, 0x00, 0x00, 0x00, 0x03, 0x7b, 0x20, 0x7d, 0x00, 0x00, 0x00, 0x02, 0x7b, 0x7d,
    0x00, 0x00, 0x00, 0x07, 0x7b, 0x22, 0x61, 0x22, 0x3a, 0x31, 0x7d, 0x02, 0x00, 0x00, 0x00, 0x00,
    0x00, 0x00, 0x00, 0x02, 0x00, 0xff, 0x04, 0x00, 0x00, 0x00, 0x02, 0x00, 0x00, 0x00, 0x00, 0x00,
    0x00, 0x00, 0x05, 0x00, 0x00, 0x00, 0x00, 0x00, 0x00, 0x00, 0x06, 0x00, 0x00, 0x00, 0x00, 0x00,
    0x00, 0x00, 0x00, 0x02, 0x7b, 0x7d, 0x00, 0x00, 0x00, 0x02, 0x7b, 0x7d, 0x00, 0x00, 0x00, 0x02,
    0x7b, 0x7d, 0x00, 0xa7, 0x00, 0x00, 0x00, 0x00, 0x55, 0x00, 0x00, 0x00, 0x0a, 0x05, 0x00, 0x00,
    0x00, 0x00, 0x00, 0x00, 0x00, 0x01, 0x00, 0x00, 0x00, 0x00, 0x00, 0x00, 0x00, 0x02, 0x06, 0x00,
    0x00, 0x00, 0x00, 0x00, 0x00, 0x00, 0x03, 0x00, 0x00, 0x00, 0x00, 0x00, 0x00, 0x00, 0x04, 0x07,
    0x02, 0x74, 0x31, 0x00, 0x00, 0x00, 0x00, 0x07, 0x02, 0xc3, 0xa9, 0xff, 0xff, 0xff, 0xff, 0x08,
    0x02, 0x74, 0x31, 0x01, 0x00, 0x08, 0x02, 0xc3, 0xa9, 0x02, 0x01, 0x08, 0x02, 0x74, 0x31, 0x02,
    0x02, 0x08, 0x02, 0x74, 0x31, 0x02, 0x03, 0x08, 0x02, 0x74, 0x31, 0x02, 0x04, 0x09, 0xff, 0xff,
    0xff, 0xff, 0x00,
];

/// Its text.
const EACH_TEXT: &str = "\
open 253402300799999 lru 0 4294967295
open 0 leastload 1 10
open 5 plainrandom 1000000 10
open 6 twobin 7 8
up 3 hub 10 18446744073709551615 00ff
up 4 task 10 0 636c69656e74
up 5 mux 11 1 6d
up 6 engine 12 2 65
down 3 1000 7
in 2 5 6 65 7b7d 7b207d 7b7d 7b2261223a317d - 00ff
in 2 5 6 - - 7b7d 7b7d 7b7d
beat 1 2
time 3 4
hand 7431 0
hand c3a9 4294967295
settle 7431 completed Reply
settle c3a9 failed EngineError
settle 7431 failed ImpossibleDependency
settle 7431 failed InvalidDependency
settle 7431 failed TaskTimeout
lose 4294967295
";

/// A disk of these octets whose call of one number fails; 0 is the number of none.
fn disk_of<R: Abort>(rt: &R, alloc: Global, octets: &[u8], call: u64) -> FuseDisk {
    let disk = MemDisk::new(alloc, octets).expect(rt, "memory is ample");
    FuseDisk::new(disk, call)
}

/// How printing octets ends as a disk whose call of one number fails, to an output whose calls of these numbers fail;
/// whether a front of a text was written, and how many octets.
fn printed<R: Abort>(
    rt: &R,
    alloc: Global,
    octets: &[u8],
    call: u64,
    failing: &[u64],
    text: &[u8],
) -> (Ending, bool, usize) {
    let mut disk = disk_of(rt, alloc, octets, call);
    let mut output = MemSink::new(alloc, failing).expect(rt, "memory is ample");
    let ending = dump(alloc, &mut disk, &mut output);
    let written = output.written();
    (ending, text.starts_with(written), written.len())
}

/// How checking a text against octets ends, as a disk whose call of one number fails, where reads of these numbers fail.
fn checked<R: Abort>(
    rt: &R,
    alloc: Global,
    octets: &[u8],
    call: u64,
    failing: &[u64],
    text: &[u8],
) -> Ending {
    let mut disk = disk_of(rt, alloc, octets, call);
    let mut input = MemSource::new(alloc, text, failing).expect(rt, "memory is ample");
    check(alloc, &mut disk, &mut input)
}

#[test]
fn entries_are_printed(rt: HostRuntime) {
    for (octets, text) in [
        (b"".as_slice(), ""),
        (&ONE_OPEN, OPEN_TEXT),
        (&EACH_KIND, EACH_TEXT),
    ] {
        let text = text.as_bytes();
        assert_eq!(rt;
            printed(&rt, rt.alloc(), octets, 0, &[], text),
            (Ending::Done, true, text.len())
        );
        assert_eq!(rt;
            checked(&rt, rt.alloc(), octets, 0, &[], text),
            Ending::Done
        );
    }
}

/// Texts, and how checking them against the journal of one Open ends.
const TEXTS: &[(&str, Ending)] = &[
    ("", Ending::Different(0)),
    ("open 0 least", Ending::Different(12)),
    ("open 0 leastload 1 10", Ending::Different(21)),
    ("open 0 leastload 2 10\n", Ending::Different(17)),
    ("Open 0 leastload 1 10\n", Ending::Different(0)),
    ("open 0 leastload 1 10\nx", Ending::Different(22)),
    ("open 0 leastload 1 10\nlose 1\n", Ending::Different(22)),
];

#[test]
fn differences_are_told(rt: HostRuntime) {
    for (text, ending) in TEXTS {
        assert_eq!(rt;
            checked(&rt, rt.alloc(), &ONE_OPEN, 0, &[], text.as_bytes()),
            *ending,
            "{text}"
        );
    }
    assert_eq!(rt;
        checked(&rt, rt.alloc(), b"", 0, &[], b"x"),
        Ending::Different(0)
    );
}

/// The journal of one Open with another octet at a place, and so many octets a7 behind.
fn changed<R: Abort>(rt: &R, alloc: Global, place: usize, octet: u8, more: usize) -> Vec<u8> {
    let mut octets = Vec::from_slice(alloc, &ONE_OPEN).expect(rt, "memory is ample");
    if let Some(it) = octets.get_mut(place) {
        *it = octet;
    }
    octets
        .extend_from_slice(&[0xa7; 100][..more.min(100)])
        .expect(rt, "memory is ample");
    octets
}

/// Places of the journal of one Open, octets that stand there instead, how many stand behind, and how printing ends.
const DAMAGED: &[(usize, u8, usize, Ending)] = &[
    (59, 0x37, 100, Ending::Done),
    (41, 0x0f, 0, Ending::Damaged(41)),
    (7, 0x32, 0, Ending::Damaged(7)),
    (40, 2, 0, Ending::Damaged(59)),
];

#[test]
fn damage_is_told(rt: HostRuntime) {
    let text = OPEN_TEXT.as_bytes();
    for (place, octet, more, ending) in DAMAGED {
        let octets = changed(&rt, rt.alloc(), *place, *octet, *more);
        let count = if *ending == Ending::Done {
            text.len()
        } else {
            0
        };
        assert_eq!(rt;
            printed(&rt, rt.alloc(), &octets, 0, &[], text),
            (*ending, true, count)
        );
        assert_eq!(rt; checked(&rt, rt.alloc(), &octets, 0, &[], text), *ending);
    }
}

#[test]
fn each_call_of_the_disk_fails(rt: HostRuntime) {
    // In each of two passes the size and the head; then three gates, each with its records, and the closed gate.
    let text = EACH_TEXT.as_bytes();
    for call in 1..19 {
        assert_eq!(rt;
            printed(&rt, rt.alloc(), &EACH_KIND, call, &[], text),
            (Ending::DiskFault, true, 0)
        );
        assert_eq!(rt;
            checked(&rt, rt.alloc(), &EACH_KIND, call, &[], text),
            Ending::DiskFault
        );
    }
    assert_eq!(rt;
        printed(&rt, rt.alloc(), &EACH_KIND, 19, &[], text),
        (Ending::Done, true, text.len())
    );
}

/// The batch of the loss of engine 4294967295, so many times.
fn loss_batch<R: Abort>(rt: &R, alloc: Global, count: usize) -> Batch {
    let mut batch = Batch::empty(alloc).expect(rt, "memory is ample");
    for _ in 0..count {
        batch
            .extend(&[Entry::Lose { engine: u32::MAX }])
            .expect(rt, "a batch");
    }
    batch
}

/// The octets of a journal of so many batches of the loss of engine 4294967295, so many times each.
fn batches<R: Abort>(rt: &R, alloc: Global, batches: usize, count: usize) -> Vec<u8> {
    let batch = loss_batch(rt, alloc, count);
    let disk = MemDisk::new(alloc, b"").expect(rt, "memory is ample");
    let Ok((mut journal, _, _)) = Journal::open(alloc, disk) else {
        panic!(rt; "no journal opens");
    };
    for _ in 0..batches {
        journal.append(&batch).expect(rt, "an append");
    }
    let disk = journal.close();
    Vec::from_slice(alloc, disk.content()).expect(rt, "memory is ample")
}

/// The octets of a journal of the loss of engine 4294967295, so many times.
fn losses<R: Abort>(rt: &R, alloc: Global, count: usize) -> Vec<u8> {
    batches(rt, alloc, 1, count)
}

/// So many lines of the loss of engine 4294967295, of 16 octets each.
fn loss_lines<R: Abort>(rt: &R, alloc: Global, count: usize) -> Vec<u8> {
    let mut text = Vec::new(alloc);
    for _ in 0..count {
        text.extend_from_slice(b"lose 4294967295\n")
            .expect(rt, "memory is ample");
    }
    text
}

/// The calls of a disk of one batch of 5,000 losses, and how many octets were written before the one that fails. In each
/// pass the size, the head, the gate, the records and the closed gate are read.
const CALLS: &[(u64, usize)] = &[(1, 0), (5, 0), (6, 0), (9, 0), (10, 65_536)];

#[test]
fn a_call_of_the_disk_fails_behind_lines(rt: HostRuntime) {
    let octets = losses(&rt, rt.alloc(), 5_000);
    let text = loss_lines(&rt, rt.alloc(), 5_000);
    for (call, count) in CALLS {
        assert_eq!(rt;
            printed(&rt, rt.alloc(), &octets, *call, &[], &text),
            (Ending::DiskFault, true, *count)
        );
        assert_eq!(rt;
            checked(&rt, rt.alloc(), &octets, *call, &[], &text),
            Ending::DiskFault
        );
    }
    // The input that differs at once is read no further, and neither is the disk.
    assert_eq!(rt;
        checked(&rt, rt.alloc(), &octets, 10, &[], b"x"),
        Ending::Different(0)
    );
}

#[test]
fn batches_are_printed(rt: HostRuntime) {
    // Batches without an entry too.
    for (count, entries) in [(0, 0), (1, 100), (70, 7_000)] {
        let octets = batches(&rt, rt.alloc(), 100, count);
        let text = loss_lines(&rt, rt.alloc(), entries);
        assert_eq!(rt;
            printed(&rt, rt.alloc(), &octets, 0, &[], &text),
            (Ending::Done, true, text.len())
        );
        assert_eq!(rt;
            checked(&rt, rt.alloc(), &octets, 0, &[], &text),
            Ending::Done
        );
    }
}

/// How printing ends, and how many octets are written, where the last batch of a hundred is damaged.
fn printed_to_damage<R: Abort>(rt: &R, alloc: Global) -> (Ending, bool, usize) {
    let mut octets = batches(rt, alloc, 100, 70);
    // The last record and the closed gate have six octets.
    let place = octets.len().saturating_sub(6);
    if let Some(it) = octets.get_mut(place) {
        *it = 0x0f;
    }
    let text = loss_lines(rt, alloc, 7_000);
    printed(rt, alloc, &octets, 0, &[], &text)
}

#[test]
fn nothing_is_printed_before_damage(rt: HostRuntime) {
    // A head, a hundred batches of ten octets and 350, and the closed gate behind them.
    assert_eq!(rt;
        printed_to_damage(&rt, rt.alloc()),
        (Ending::Damaged(31 + 36_000 - 5), true, 0)
    );
}

#[test]
fn a_write_fails(rt: HostRuntime) {
    let octets = losses(&rt, rt.alloc(), 5_000);
    let text = loss_lines(&rt, rt.alloc(), 5_000);
    for (call, answer) in [
        (1, (Ending::WriteFault, true, 0)),
        (2, (Ending::WriteFault, true, 65_536)),
        (3, (Ending::Done, true, 80_000)),
    ] {
        assert_eq!(rt;
            printed(&rt, rt.alloc(), &octets, 0, &[call], &text),
            answer
        );
    }
}

#[test]
fn a_read_fails(rt: HostRuntime) {
    let octets = losses(&rt, rt.alloc(), 5_000);
    let text = loss_lines(&rt, rt.alloc(), 5_000);
    // Two pieces, and the end.
    for (call, ending) in [
        (1, Ending::ReadFault),
        (2, Ending::ReadFault),
        (3, Ending::ReadFault),
        (4, Ending::Done),
    ] {
        assert_eq!(rt;
            checked(&rt, rt.alloc(), &octets, 0, &[call], &text),
            ending
        );
    }
}

/// The first octets of 5,001 lines, of which one at a place is another.
fn front<R: Abort>(rt: &R, alloc: Global, count: usize, place: usize) -> Vec<u8> {
    let mut text = loss_lines(rt, alloc, 5_001);
    if let Some(it) = text.get_mut(place) {
        *it = b'x';
    }
    text.truncate(count);
    text
}

/// How many octets of 5,001 lines are an input, the place of one that is another, and where the input differs from 5,000.
const FRONTS: &[(usize, usize, u64)] = &[
    (16, 80_016, 16),
    (65_536, 80_016, 65_536),
    (79_984, 80_016, 79_984),
    (80_000, 80_016, 80_000),
    (80_001, 80_016, 80_000),
    (80_016, 80_016, 80_000),
    (80_000, 70_000, 70_000),
    (80_016, 65_535, 65_535),
    (80_016, 80_007, 80_000),
];

#[test]
fn long_texts_differ(rt: HostRuntime) {
    let octets = losses(&rt, rt.alloc(), 5_000);
    for (count, place, differ) in FRONTS {
        let text = front(&rt, rt.alloc(), *count, *place);
        let ending = if *differ == 80_000 && *count == 80_000 {
            Ending::Done
        } else {
            Ending::Different(*differ)
        };
        assert_eq!(rt;
            checked(&rt, rt.alloc(), &octets, 0, &[], &text),
            ending,
            "{count} {place}"
        );
    }
}

/// A source that gives one octet at a time.
#[derive(Drop)]
struct Slow {
    source: SureSource,
}

impl Source for Slow {
    ghost use Rattle.std.specs.Prelude.{Some};

    ghost left = { λ s. Some s.source };

    ghost faults = { λ _. 0 };

    fn read(&mut self, into: &mut [u8]) -> Got {
        self.source.read(&mut into[..1])
    }
}

/// How checking a text octet by octet against the entries of each kind ends.
fn slowly<R: Abort>(rt: &R, alloc: Global, text: &[u8]) -> Ending {
    let mut disk = MemDisk::new(alloc, &EACH_KIND).expect(rt, "memory is ample");
    let mut input = Slow {
        source: SureSource::new(alloc, text).expect(rt, "memory is ample"),
    };
    check(alloc, &mut disk, &mut input)
}

#[test]
fn octets_come_one_by_one(rt: HostRuntime) {
    let text = EACH_TEXT.as_bytes();
    assert_eq!(rt; slowly(&rt, rt.alloc(), text), Ending::Done);
    for count in 0..text.len() {
        assert_eq!(rt;
            slowly(&rt, rt.alloc(), &text[..count]),
            Ending::Different(count as u64)
        );
    }
}
