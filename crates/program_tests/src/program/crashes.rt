//! The tape of one task over disks whose calls fail one after the other.

use super::one_task::{ENTRIES, ENTRIES_BEHIND, OTHER, OUTPUT, OUTPUT_BEHIND, TAPE};
use super::{Left, NONE, REPLAY, disk_of, run};
use disk_model::fuse::FuseDisk;
use std::alloc::Global;
use std::process::Abort;

const DUMP: &[&str] = &["dump", "db"];

const DISK_FAULT: &[u8] = b"ipcluster: disk fault\n";

/// What serving the tape over a disk comes to where no call fails, and what of it belongs together.
struct Whole<'a> {
    output: &'a [u8],
    entries: &'a [u8],
    /// The numbers of entries at which a step is whole.
    steps: &'a [usize],
    /// The numbers of entries up to the one of the first message that is sent, of the second and of the third.
    sent: [usize; 3],
}

/// Over an empty disk.
const FRESH: &Whole = &Whole {
    output: OUTPUT,
    entries: ENTRIES,
    steps: &[0, 1, 2, 3, 4, 6, 8],
    sent: [3, 6, 8],
};

/// Over a disk of six entries, whose last one hands out a task: the Open that follows settles it.
const USED: &Whole = &Whole {
    output: OUTPUT_BEHIND,
    entries: ENTRIES_BEHIND,
    steps: &[6, 8, 9, 10, 11, 13, 15],
    sent: [10, 13, 15],
};

/// The entries that a disk with this content stands for, as text.
fn text_of<R: Abort>(rt: &R, alloc: Global, content: &[u8]) -> Vec<u8> {
    let left = run(rt, alloc, DUMP, b"", &NONE, disk_of(rt, alloc, content, 0));
    Vec::from_slice(alloc, left.output.written()).expect(rt, "memory is ample")
}

/// How many lines of a text begin so.
fn lines_with(text: &[u8], words: &[u8]) -> usize {
    let mut count = 0usize;
    let mut begins = true;
    for place in 0..text.len() {
        if begins && text[place..].starts_with(words) {
            count = count.saturating_add(1);
        }
        begins = text[place] == b'\n';
    }
    count
}

/// How many entries there are at least where so many octets of messages were sent. The three have 346, 180 and 192.
fn entries_sent(whole: &Whole, octets: usize) -> usize {
    match octets {
        0 => 0,
        346 => whole.sent[0],
        526 => whole.sent[1],
        718 => whole.sent[2],
        _ => usize::MAX,
    }
}

/// Whether what was sent is a front of what is to be sent, and the entries of a disk are those of whole steps, with all
/// that the messages which were sent tell of.
fn holds<R: Abort>(rt: &R, alloc: Global, whole: &Whole, sent: &[u8], content: &[u8]) -> bool {
    let text = text_of(rt, alloc, content);
    let entries = lines_with(text.as_slice(), b"");
    whole.output.starts_with(sent)
        && whole.entries.starts_with(text.as_slice())
        && whole.steps.contains(&entries)
        && entries_sent(whole, sent.len()) <= entries
}

/// What a tape over this content leaves.
fn left_by<R: Abort>(rt: &R, alloc: Global, tape: &[u8], content: &[u8]) -> Left {
    run(
        rt,
        alloc,
        REPLAY,
        tape,
        &NONE,
        disk_of(rt, alloc, content, 0),
    )
}

/// The status of a tape over a disk.
fn status_of<R: Abort>(rt: &R, alloc: Global, tape: &[u8], disk: FuseDisk) -> u8 {
    run(rt, alloc, REPLAY, tape, &NONE, disk).status
}

/// The status of the whole tape over this content, and how often the task is settled then.
fn settled_over<R: Abort>(rt: &R, alloc: Global, content: &[u8]) -> (u8, usize) {
    let left = left_by(rt, alloc, TAPE, content);
    let text = text_of(rt, alloc, left.disk.content());
    (left.status, lines_with(text.as_slice(), b"settle 61 "))
}

/// What a run over this content comes to whose disk fails at one call: its status; whether its line is that of a disk's
/// fault; whether what it leaves holds what it is to hold; the status of an empty tape over this; and, after the whole tape
/// over this, the status and how often the task is settled.
fn crash<R: Abort>(
    rt: &R,
    alloc: Global,
    whole: &Whole,
    content: &[u8],
    call: u64,
) -> (u8, bool, bool, u8, u8, usize) {
    let left = run(
        rt,
        alloc,
        REPLAY,
        TAPE,
        &NONE,
        disk_of(rt, alloc, content, call),
    );
    let said = left.errors.written() == DISK_FAULT;
    let crashed = left.disk.content();
    let held = holds(rt, alloc, whole, left.output.written(), crashed);
    let opened = status_of(rt, alloc, b"", disk_of(rt, alloc, crashed, 0));
    let (again, settled) = settled_over(rt, alloc, crashed);
    (left.status, said, held, opened, again, settled)
}

/// How many calls of the disk a tape takes over this content: the first number behind which the call's failure changes nothing.
fn calls_of<R: Abort>(rt: &R, alloc: Global, tape: &[u8], content: &[u8]) -> u64 {
    for calls in 0..200 {
        let disk = disk_of(rt, alloc, content, calls + 1);
        if status_of(rt, alloc, tape, disk) == 0 {
            return calls;
        }
    }
    0
}

/// What the disk holds that served a tape from this content on.
fn served<R: Abort>(rt: &R, alloc: Global, tape: &[u8], content: &[u8]) -> Vec<u8> {
    let left = left_by(rt, alloc, tape, content);
    Vec::from_slice(alloc, left.disk.content()).expect(rt, "memory is ample")
}

#[test]
fn an_empty_disk_fails_at_each_call(rt: HostRuntime) {
    let alloc = rt.alloc();
    let calls = calls_of(&rt, alloc, TAPE, b"");
    // Making the journal takes four calls, and so does each of the six steps that are kept.
    assert!(rt; calls >= 28);
    for before in 0..calls {
        assert_eq!(rt;
            crash(&rt, alloc, FRESH, b"", before + 1),
            (5, true, true, 0, 0, 1),
            "after {before}"
        );
    }
}

#[test]
fn a_used_disk_fails_at_each_call(rt: HostRuntime) {
    let alloc = rt.alloc();
    let used = served(&rt, alloc, OTHER, b"");
    let calls = calls_of(&rt, alloc, TAPE, used.as_slice());
    assert!(rt; calls >= 24);
    for before in 0..calls {
        assert_eq!(rt;
            crash(&rt, alloc, USED, used.as_slice(), before + 1),
            (5, true, true, 0, 0, 1),
            "after {before}"
        );
    }
}

/// These octets as a journal of the first version, with this version octet.
fn old_journal<R: Abort>(rt: &R, alloc: Global, content: &[u8], octet: u8) -> Vec<u8> {
    let mut octets = Vec::from_slice(alloc, content).expect(rt, "memory is ample");
    if let Some(it) = octets.get_mut(12) {
        *it = octet;
    }
    octets
}

/// Lets a run over an old disk fail at each call, of which there are two more than over the same disk in the second version.
fn fails_at_each_call<R: Abort>(rt: &R, alloc: Global, whole: &Whole, content: &[u8], octet: u8) {
    let old = old_journal(rt, alloc, content, octet);
    let calls = calls_of(rt, alloc, TAPE, old.as_slice());
    assert_eq!(rt; calls, calls_of(rt, alloc, TAPE, content).saturating_add(2));
    for before in 0..calls {
        assert_eq!(rt;
            crash(rt, alloc, whole, old.as_slice(), before + 1),
            (5, true, true, 0, 0, 1),
            "after {before}"
        );
    }
}

/// A journal without entries.
const EMPTY: &[u8] = b"IPCJRNL1\0\0\0\x01\x02\0\0\0\0\0\0\0\0\0\0\0\0\0\0\0\0\0\0\0\0";

#[test]
fn an_old_disk_fails_at_each_call(rt: HostRuntime) {
    let alloc = rt.alloc();
    fails_at_each_call(&rt, alloc, FRESH, EMPTY, 0);
    let used = served(&rt, alloc, OTHER, b"");
    fails_at_each_call(&rt, alloc, USED, used.as_slice(), 0);
}

/// What a migration cut short may leave is an old disk with any version octet.
#[test]
fn a_torn_version_octet_is_read_over(rt: HostRuntime) {
    let alloc = rt.alloc();
    let used = served(&rt, alloc, OTHER, b"");
    for octet in [0, 1, 2, 3, 0xa7, 0xff] {
        let torn = old_journal(&rt, alloc, used.as_slice(), octet);
        assert_eq!(rt;
            ends_whole(&rt, alloc, USED, torn.as_slice()),
            (0, true, true),
            "with {octet}"
        );
        let opened = served(&rt, alloc, b"", torn.as_slice());
        let again = served(&rt, alloc, b"", used.as_slice());
        assert!(rt; opened.as_slice() == again.as_slice());
    }
}

/// Whether a tape over this content sends what is to be sent, and leaves the entries that it is to leave.
fn ends_whole<R: Abort>(rt: &R, alloc: Global, whole: &Whole, content: &[u8]) -> (u8, bool, bool) {
    let left = left_by(rt, alloc, TAPE, content);
    let text = text_of(rt, alloc, left.disk.content());
    let sent = left.output.written() == whole.output;
    (left.status, sent, text.as_slice() == whole.entries)
}

#[test]
fn one_task_is_served(rt: HostRuntime) {
    let alloc = rt.alloc();
    assert_eq!(rt; ends_whole(&rt, alloc, FRESH, b""), (0, true, true));
    let used = served(&rt, alloc, OTHER, b"");
    assert_eq!(rt;
        ends_whole(&rt, alloc, USED, used.as_slice()),
        (0, true, true)
    );
}

/// As many octets of a list from its beginning on.
fn front(octets: &[u8], count: usize) -> &[u8] {
    &octets[..count.min(octets.len())]
}

/// The octets of the tape before the task is submitted.
const BEFORE: usize = 240;

/// The octets of the tape up to the end of the submission.
const SUBMITTED: usize = 420;

/// What a run over an empty disk comes to that fails in the append of the submission, at this of its calls: its status;
/// whether it sent no more than the answer to the engine; and the number of entries after the disk was opened again.
fn fails_in_append<R: Abort>(rt: &R, alloc: Global, call: u64) -> (u8, bool, usize) {
    let before = calls_of(rt, alloc, front(TAPE, BEFORE), b"");
    let disk = disk_of(rt, alloc, b"", before.saturating_add(call));
    let left = run(rt, alloc, REPLAY, front(TAPE, SUBMITTED), &NONE, disk);
    let opened = served(rt, alloc, b"", left.disk.content());
    let text = text_of(rt, alloc, opened.as_slice());
    let sent = left.output.written() == front(OUTPUT, 346);
    (left.status, sent, lines_with(text.as_slice(), b""))
}

#[test]
fn an_append_fails_at_each_call(rt: HostRuntime) {
    // Four entries and the Open; or with the submission, its hand-out, and the outcome that the Open brings.
    for (call, entries) in [(1, 5), (2, 5), (3, 5), (4, 8)] {
        assert_eq!(rt;
            fails_in_append(&rt, rt.alloc(), call),
            (5, true, entries),
            "at {call}"
        );
    }
}
