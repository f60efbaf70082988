//! Tests of the top call.

mod crashes;
mod one_task;
mod rows;

use crate::choosing::new_chooser;
use cluster_types::message::WordList;
use cluster_types::text::Text;
use disk_model::fuse::FuseDisk;
use disk_model::memory::MemDisk;
use edges::memory::{MemSink, MemSource, SureSource};
use edges::source::{Got, Source};
use quick_commands::quick::quick;
use std::alloc::Global;
use std::process::Abort;

/// An Up of connection 1 on channel engine, bare, with the identity `c`.
const UP: &[u8] = b"\x01\0\0\0\0\0\0\0\0\0\0\0\0\0\0\0\0\0\0\0\x01\x03\x01\x01c";

/// The Up, and five octets of a round of heartbeats.
const TORN: &[u8] = b"\x01\0\0\0\0\0\0\0\0\0\0\0\0\0\0\0\0\0\0\0\x01\x03\x01\x01c\x04\0\0\0\0";

/// The Up, and time that passes, whose records have 24 and 17 octets.
const LATER: &[u8] =
    b"\x01\0\0\0\0\0\0\0\0\0\0\0\0\0\0\0\0\0\0\0\x01\x03\x01\x01c\x05\0\0\0\0\0\0\0\0\0\0\0\0\0\0\0\0";

/// The Up twice: a number must be above those before it.
const TWICE: &[u8] =
    b"\x01\0\0\0\0\0\0\0\0\0\0\0\0\0\0\0\0\0\0\0\x01\x03\x01\x01c\x01\0\0\0\0\0\0\0\0\0\0\0\0\0\0\0\0\0\0\0\x01\x03\x01\x01c";

/// An Up with the identity `e`, and the registration of the engine `e0` on its connection, signed under the key `k`.
const JOINING: &[u8] =
    b"\x01\0\0\0\0\0\0\0\0\0\0\0\0\0\0\0\0\0\0\0\x01\x03\x01\x01e\x06\0\0\0\0\0\0\0\0\0\0\0\0\0\0\0\0\0\0\0\x01\x06\0\0\0\x09<IDS|MSG>\0\0\0@d2f52e7ee3d1bb06564157fe40e43ed04a1d7379b14330f3fc557ded7a84af38\0\0\06{\"msg_id\":\"join-e0\",\"msg_type\":\"registration_request\"}\0\0\0\x02{}\0\0\0\x02{}\0\0\0\x0d{\"uuid\":\"e0\"}";

/// The same on connection 2, with the identity `f`.
const SECOND: &[u8] =
    b"\x01\0\0\0\0\0\0\0\0\0\0\0\0\0\0\0\0\0\0\0\x02\x03\x01\x01f\x06\0\0\0\0\0\0\0\0\0\0\0\0\0\0\0\0\0\0\0\x02\x06\0\0\0\x09<IDS|MSG>\0\0\0@d2f52e7ee3d1bb06564157fe40e43ed04a1d7379b14330f3fc557ded7a84af38\0\0\06{\"msg_id\":\"join-e0\",\"msg_type\":\"registration_request\"}\0\0\0\x02{}\0\0\0\x02{}\0\0\0\x0d{\"uuid\":\"e0\"}";

fn words<R: Abort>(rt: &R, alloc: Global, texts: &[&str]) -> WordList {
    let mut words = WordList::new(alloc);
    for text in texts {
        let text = Text::new(alloc, text).expect(rt, "memory is ample");
        words.push(text).expect(rt, "memory is ample");
    }
    words
}

/// Which reads of the input, writes of the output and writes of the errors fail, counted from 1.
#[derive(Clone, Copy)]
struct Failing<'a> {
    reads: &'a [u64],
    writes: &'a [u64],
    lines: &'a [u64],
}

const NONE: Failing = Failing {
    reads: &[],
    writes: &[],
    lines: &[],
};

/// What a run left.
#[derive(Drop)]
struct Left {
    status: u8,
    output: MemSink,
    errors: MemSink,
    disk: MemDisk,
}

/// A disk with this content whose call of one number fails; 0 is the number of none.
fn disk_of<R: Abort>(rt: &R, alloc: Global, content: &[u8], call: u64) -> FuseDisk {
    let disk = MemDisk::new(alloc, content).expect(rt, "memory is ample");
    FuseDisk::new(disk, call)
}

/// Does what these words ask for, on what a source gives, over a disk.
fn run_from<R: Abort, S: Source>(
    rt: &R,
    alloc: Global,
    texts: &[&str],
    input: &mut S,
    failing: &Failing,
    disk: FuseDisk,
) -> Left {
    let words = words(rt, alloc, texts);
    let mut output = MemSink::new(alloc, failing.writes).expect(rt, "memory is ample");
    let mut errors = MemSink::new(alloc, failing.lines).expect(rt, "memory is ample");
    let chooser = new_chooser(rt, alloc);
    let (status, disk) = quick(
        alloc,
        &words,
        input,
        &mut output,
        &mut errors,
        disk,
        chooser,
    );
    Left {
        status,
        output,
        errors,
        disk: disk.into_disk(),
    }
}

/// Does what these words ask for, on this input, over a disk.
fn run<R: Abort>(
    rt: &R,
    alloc: Global,
    texts: &[&str],
    tape: &[u8],
    failing: &Failing,
    disk: FuseDisk,
) -> Left {
    let mut input = MemSource::new(alloc, tape, failing.reads).expect(rt, "memory is ample");
    run_from(rt, alloc, texts, &mut input, failing, disk)
}

const REPLAY: &[&str] = &["replay", "--key", "k", "db"];

/// The same with a key of a hundred octets, under which nothing here is signed.
const OTHER_KEY: &[&str] = &[
    "replay",
    "--key",
    "0123456789012345678901234567890123456789012345678901234567890123456789012345678901234567890123456789",
    "db",
];

const ONE_ENTRY: &[&str] = &["replay", "--key", "k", "--entries", "1", "db"];

const WORK: &[&str] = &["work", "1", "2"];

const UNREAD: &[&str] = &["replay", "db", "--key"];

/// Whether these words, on this tape, come to this status and this line of the errors, with nothing written.
fn ends_as<R: Abort>(
    rt: &R,
    alloc: Global,
    texts: &[&str],
    tape: &[u8],
    failing: &Failing,
    status: u8,
    line: &str,
) -> bool {
    let left = run(rt, alloc, texts, tape, failing, disk_of(rt, alloc, b"", 0));
    left.status == status
        && left.errors.written() == line.as_bytes()
        && left.output.written().is_empty()
}

const SECOND_READ: Failing = Failing {
    reads: &[2],
    writes: &[],
    lines: &[],
};

const FIRST_WRITE: Failing = Failing {
    reads: &[],
    writes: &[1],
    lines: &[],
};

const SECOND_WRITE: Failing = Failing {
    reads: &[],
    writes: &[2],
    lines: &[],
};

const FIRST_LINE: Failing = Failing {
    reads: &[],
    writes: &[],
    lines: &[1],
};

#[test]
fn ends(rt: HostRuntime) {
    let alloc = rt.alloc();
    for (texts, tape, failing, status, line) in [
        (REPLAY, b"".as_slice(), &NONE, 0, ""),
        (REPLAY, TORN, &NONE, 6, "ipcluster: bad tape at 25\n"),
        (REPLAY, TWICE, &NONE, 6, "ipcluster: bad tape at 25\n"),
        (
            UNREAD,
            UP,
            &NONE,
            2,
            "ipcluster: the command line has no reading\n",
        ),
        (OTHER_KEY, JOINING, &NONE, 0, ""),
        (REPLAY, UP, &SECOND_READ, 3, "ipcluster: read fault\n"),
        (REPLAY, JOINING, &FIRST_WRITE, 4, "ipcluster: write fault\n"),
        (REPLAY, TORN, &FIRST_LINE, 6, ""),
        (WORK, b"", &FIRST_WRITE, 4, "ipcluster: write fault\n"),
        (
            ONE_ENTRY,
            LATER,
            &NONE,
            9,
            "ipcluster: history full at 2 entries and 41 bytes\n",
        ),
    ] {
        assert!(rt;
            ends_as(&rt, alloc, texts, tape, failing, status, line),
            "at {line}"
        );
    }
}

#[test]
fn an_engine_joins_before_a_write_fails(rt: HostRuntime) {
    let alloc = rt.alloc();
    let first = run(
        &rt,
        alloc,
        REPLAY,
        JOINING,
        &NONE,
        disk_of(&rt, alloc, b"", 0),
    );
    assert!(rt; first.status == 0 && first.errors.written().is_empty());
    assert!(rt;
        first
            .output
            .written()
            .ends_with(b"{\"status\":\"ok\",\"id\":0}")
    );
    let mut tape = Vec::from_slice(alloc, JOINING).expect(&rt, "memory is ample");
    tape.extend_from_slice(SECOND)
        .expect(&rt, "memory is ample");
    let disk = disk_of(&rt, alloc, b"", 0);
    let left = run(&rt, alloc, REPLAY, tape.as_slice(), &SECOND_WRITE, disk);
    assert!(rt;
        left.status == 4 && left.errors.written() == b"ipcluster: write fault\n".as_slice()
    );
    assert!(rt; left.output.written() == first.output.written());
}

/// A source that gives one octet at a time.
#[derive(Drop)]
struct Slow {
    source: SureSource,
}

impl Source for Slow {
    ghost use Rattle.std.specs.Prelude.{Some};

    ghost left = { λ s. Some s.source };

    ghost faults = { λ _. 0 };

    fn read(&mut self, into: &mut [u8]) -> Got {
        self.source.read(&mut into[..1])
    }
}

/// A beat, of 17 octets.
const BEAT: &[u8] = b"\x04\0\0\0\0\0\0\0\0\0\0\0\0\0\0\0\0";

/// An engine joins, and a hundred beats come.
fn beaten<R: Abort>(rt: &R, alloc: Global) -> Vec<u8> {
    let mut tape = Vec::from_slice(alloc, JOINING).expect(rt, "memory is ample");
    for _ in 0..100 {
        tape.extend_from_slice(BEAT).expect(rt, "memory is ample");
    }
    tape
}

#[test]
fn each_read_and_each_write_may_fail(rt: HostRuntime) {
    let alloc = rt.alloc();
    let mut tape = Vec::from_slice(alloc, JOINING).expect(&rt, "memory is ample");
    tape.extend_from_slice(SECOND)
        .expect(&rt, "memory is ample");
    // Two reads: all octets, and the end. Two writes: one for each record that is answered.
    for (call, read, wrote) in [(1, 3, 4), (2, 3, 4), (3, 0, 0)] {
        let read_fails = Failing {
            reads: &[call],
            writes: &[],
            lines: &[],
        };
        let write_fails = Failing {
            reads: &[],
            writes: &[call],
            lines: &[],
        };
        for (failing, status) in [(read_fails, read), (write_fails, wrote)] {
            let disk = disk_of(&rt, alloc, b"", 0);
            let left = run(&rt, alloc, REPLAY, tape.as_slice(), &failing, disk);
            assert_eq!(rt; left.status, status);
            let disk = FuseDisk::new(left.disk, 0);
            assert_eq!(rt;
                run(&rt, alloc, &["dump", "db"], b"", &NONE, disk).status,
                0
            );
        }
    }
}

#[test]
fn octets_come_one_by_one(rt: HostRuntime) {
    let alloc = rt.alloc();
    let tape = beaten(&rt, alloc);
    let disk = disk_of(&rt, alloc, b"", 0);
    let fast = run(&rt, alloc, REPLAY, tape.as_slice(), &NONE, disk);
    let mut input = Slow {
        source: SureSource::new(alloc, tape.as_slice()).expect(&rt, "memory is ample"),
    };
    let disk = disk_of(&rt, alloc, b"", 0);
    let slow = run_from(&rt, alloc, REPLAY, &mut input, &NONE, disk);
    assert!(rt; slow.status == 0 && slow.errors.written().is_empty());
    assert!(rt; slow.output.written() == fast.output.written());
    assert!(rt; slow.disk.content() == fast.disk.content());
}
