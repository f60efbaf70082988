//! Commands over whole databases, with what they are to come to.

use super::{NONE, REPLAY, UP, WORK, disk_of, run};
use std::alloc::Global;
use std::process::Abort;

/// A journal of one Open under the default options.
const ONE_OPEN: &[u8] = b"\
    IPCJRNL1\0\0\0\x01\x02\0\0\0\0\0\0\0\0\0\0\0\0\0\0\0\0\0\0\
    \xa7\0\0\0\0\x12\0\0\0\x01\x01\0\0\0\0\0\0\0\0\x01\0\0\0\x01\0\0\0\n\
    \0\
    ";

/// Its text.
const OPEN_TEXT: &[u8] = b"open 0 leastload 1 10\n";

/// The same journal, whose last gate is closed by another octet, and a hundred octets that stand behind it.
const CLOSED: &[u8] = b"\
    IPCJRNL1\0\0\0\x01\x02\0\0\0\0\0\0\0\0\0\0\0\0\0\0\0\0\0\0\
    \xa7\0\0\0\0\x12\0\0\0\x01\x01\0\0\0\0\0\0\0\0\x01\0\0\0\x01\0\0\0\n\
    701234567890123456789012345678901234567890123456789012345678901234567890123456789012345678901234\
    56789\
    ";

/// The same journal with a record of no kind, which stands at 41.
const NO_RECORD: &[u8] = b"\
    IPCJRNL1\0\0\0\x01\x02\0\0\0\0\0\0\0\0\0\0\0\0\0\0\0\0\0\0\
    \xa7\0\0\0\0\x12\0\0\0\x01\x0f\0\0\0\0\0\0\0\0\x01\0\0\0\x01\0\0\0\n\
    \0\
    ";

/// The same octets but the last one of the first eight.
const NO_JOURNAL: &[u8] = b"\
    IPCJRNL2\0\0\0\x01\x02\0\0\0\0\0\0\0\0\0\0\0\0\0\0\0\0\0\0\
    \xa7\0\0\0\0\x12\0\0\0\x01\x01\0\0\0\0\0\0\0\0\x01\0\0\0\x01\0\0\0\n\
    \0\
    ";

/// The journal of one Open in the first version.
const OLD_OPEN: &[u8] = b"\
    IPCJRNL1\0\0\0\x01\0\0\0\0\0\0\0\0\0\0\0\0\0\0\0\0\0\0\0\
    \xa7\0\0\0\0\x12\0\0\0\x01\x01\0\0\0\0\0\0\0\0\x01\0\0\0\x01\0\0\0\n\
    \0\
    ";

/// The same with another version octet, which means the first version too.
const OLDER_OPEN: &[u8] = b"\
    IPCJRNL1\0\0\0\x01\xff\0\0\0\0\0\0\0\0\0\0\0\0\0\0\0\0\0\0\
    \xa7\0\0\0\0\x12\0\0\0\x01\x01\0\0\0\0\0\0\0\0\x01\0\0\0\x01\0\0\0\n\
    \0\
    ";

/// The same with an octet behind the version octet that no head has.
const OLD_OTHER: &[u8] = b"\
    IPCJRNL1\0\0\0\x01\0\x01\0\0\0\0\0\0\0\0\0\0\0\0\0\0\0\0\0\
    \xa7\0\0\0\0\x12\0\0\0\x01\x01\0\0\0\0\0\0\0\0\x01\0\0\0\x01\0\0\0\n\
    \0\
    ";

/// The journal of two Opens.
const TWO_OPENS: &[u8] = b"\
    IPCJRNL1\0\0\0\x01\x02\0\0\0\0\0\0\0\0\0\0\0\0\0\0\0\0\0\0\
    \xa7\0\0\0\0\x12\0\0\0\x01\x01\0\0\0\0\0\0\0\0\x01\0\0\0\x01\0\0\0\n\
    \xa7\0\0\0\0\x12\0\0\0\x01\x01\0\0\0\0\0\0\0\0\x01\0\0\0\x01\0\0\0\n\
    \0\
    ";

/// A record of no kind in the first version, which stands at 41.
const OLD_NO_RECORD: &[u8] = b"\
    IPCJRNL1\0\0\0\x01\0\0\0\0\0\0\0\0\0\0\0\0\0\0\0\0\0\0\0\
    \xa7\0\0\0\0\x12\0\0\0\x01\x0f\0\0\0\0\0\0\0\0\x01\0\0\0\x01\0\0\0\n\
    \0\
    ";

/// A task that a client took back, at 41, which the first version has no record for.
const OLD_ABORT: &[u8] = b"\
    IPCJRNL1\0\0\0\x01\0\0\0\0\0\0\0\0\0\0\0\0\0\0\0\0\0\0\0\
    \xa7\0\0\0\0\x05\0\0\0\x01\x08\x01a\x03\x05\
    \0\
    ";

/// The same in the second version, which has one.
const ABORT: &[u8] = b"\
    IPCJRNL1\0\0\0\x01\x02\0\0\0\0\0\0\0\0\0\0\0\0\0\0\0\0\0\0\
    \xa7\0\0\0\0\x05\0\0\0\x01\x08\x01a\x03\x05\
    \0\
    ";

/// Its text.
const ABORT_TEXT: &[u8] = b"settle 61 aborted Abort\n";

/// The loss of an engine that never was, at 41: a list that no cluster goes on from, in the first version.
const OLD_UNFIT: &[u8] = b"\
    IPCJRNL1\0\0\0\x01\0\0\0\0\0\0\0\0\0\0\0\0\0\0\0\0\0\0\0\
    \xa7\0\0\0\0\x05\0\0\0\x01\x09\0\0\0\x04\
    \0\
    ";

/// The same in the second version.
const UNFIT: &[u8] = b"\
    IPCJRNL1\0\0\0\x01\x02\0\0\0\0\0\0\0\0\0\0\0\0\0\0\0\0\0\0\
    \xa7\0\0\0\0\x05\0\0\0\x01\x09\0\0\0\x04\
    \0\
    ";

/// Four connections with identities of one octet.
const FOUR_UPS: &[u8] = b"\
    \x01\0\0\0\0\0\0\0\0\0\0\0\0\0\0\0\0\0\0\0\x01\x01\x01\x01a\
    \x01\0\0\0\0\0\0\0\0\0\0\0\0\0\0\0\0\0\0\0\x02\x01\x01\x01b\
    \x01\0\0\0\0\0\0\0\0\0\0\0\0\0\0\0\0\0\0\0\x03\x01\x01\x01c\
    \x01\0\0\0\0\0\0\0\0\0\0\0\0\0\0\0\0\0\0\0\x04\x01\x01\x01d\
    ";

/// A journal of an Open and three of these.
const FULL: &[u8] = b"\
    IPCJRNL1\0\0\0\x01\x02\0\0\0\0\0\0\0\0\0\0\0\0\0\0\0\0\0\0\
    \xa7\0\0\0\0\x12\0\0\0\x01\x01\0\0\0\0\0\0\0\0\x01\0\0\0\x01\0\0\0\n\
    \xa7\0\0\0\0\x18\0\0\0\x01\x02\0\0\0\x01\x01\0\0\0\0\0\0\0\0\0\0\0\0\0\0\0\0\x01a\
    \xa7\0\0\0\0\x18\0\0\0\x01\x02\0\0\0\x02\x01\0\0\0\0\0\0\0\0\0\0\0\0\0\0\0\0\x01b\
    \xa7\0\0\0\0\x18\0\0\0\x01\x02\0\0\0\x03\x01\0\0\0\0\0\0\0\0\0\0\0\0\0\0\0\0\x01c\
    \0\
    ";

/// Its text.
const FULL_TEXT: &[u8] = b"\
open 0 leastload 1 10
up 1 task 0 0 61
up 2 task 0 0 62
up 3 task 0 0 63
";

/// The same journal, and behind it an Open and the connection of an engine.
const GOES_ON: &[u8] = b"\
    IPCJRNL1\0\0\0\x01\x02\0\0\0\0\0\0\0\0\0\0\0\0\0\0\0\0\0\0\
    \xa7\0\0\0\0\x12\0\0\0\x01\x01\0\0\0\0\0\0\0\0\x01\0\0\0\x01\0\0\0\n\
    \xa7\0\0\0\0\x18\0\0\0\x01\x02\0\0\0\x01\x01\0\0\0\0\0\0\0\0\0\0\0\0\0\0\0\0\x01a\
    \xa7\0\0\0\0\x18\0\0\0\x01\x02\0\0\0\x02\x01\0\0\0\0\0\0\0\0\0\0\0\0\0\0\0\0\x01b\
    \xa7\0\0\0\0\x18\0\0\0\x01\x02\0\0\0\x03\x01\0\0\0\0\0\0\0\0\0\0\0\0\0\0\0\0\x01c\
    \xa7\0\0\0\0\x12\0\0\0\x01\x01\0\0\0\0\0\0\0\0\x01\0\0\0\x01\0\0\0\n\
    \xa7\0\0\0\0\x18\0\0\0\x01\x02\0\0\0\x01\x03\0\0\0\0\0\0\0\0\0\0\0\0\0\0\0\0\x01c\
    \0\
    ";

const DUMP: &[&str] = &["dump", "db"];

const CHECK: &[&str] = &["check", "db"];

const COMPACT: &[&str] = &["compact", "db"];

const FOLLOW: &[&str] = &["follow", "db"];

const THREE_ENTRIES: &[&str] = &["replay", "--key", "k", "--entries", "3", "db"];

/// A command over a disk: its status and line, its output, and what the disk holds afterwards.
struct Row<'a> {
    words: &'a [&'a str],
    input: &'a [u8],
    disk: &'a [u8],
    status: u8,
    line: &'a str,
    output: &'a [u8],
    left: &'a [u8],
}

/// The status that a row comes to, and whether line, output and disk are the row's.
fn shown<R: Abort>(rt: &R, alloc: Global, row: &Row) -> (u8, bool, bool, bool) {
    let disk = disk_of(rt, alloc, row.disk, 0);
    let left = run(rt, alloc, row.words, row.input, &NONE, disk);
    let line = left.errors.written() == row.line.as_bytes();
    let output = left.output.written() == row.output;
    (left.status, line, output, left.disk.content() == row.left)
}

const NO_TASKS: &[&str] = &["work", "1", "0"];

const ROWS: &[Row] = &[
    Row {
        words: FOLLOW,
        input: ONE_OPEN,
        disk: b"",
        status: 0,
        line: "",
        output: b"",
        left: ONE_OPEN,
    },
    Row {
        words: FOLLOW,
        input: ONE_OPEN,
        disk: ONE_OPEN,
        status: 0,
        line: "",
        output: b"",
        left: ONE_OPEN,
    },
    Row {
        words: FOLLOW,
        input: TWO_OPENS,
        disk: OLD_OPEN,
        status: 0,
        line: "",
        output: b"",
        left: TWO_OPENS,
    },
    Row {
        words: FOLLOW,
        input: ONE_OPEN,
        disk: FULL,
        status: 15,
        line: "ipcluster: standby differs at entry 1\n",
        output: b"",
        left: FULL,
    },
    Row {
        words: FOLLOW,
        input: NO_JOURNAL,
        disk: ONE_OPEN,
        status: 16,
        line: "ipcluster: primary refused at 7\n",
        output: b"",
        left: ONE_OPEN,
    },
    Row {
        words: FOLLOW,
        input: NO_RECORD,
        disk: NO_JOURNAL,
        status: 16,
        line: "ipcluster: primary refused at 41\n",
        output: b"",
        left: NO_JOURNAL,
    },
    Row {
        words: FOLLOW,
        input: FULL,
        disk: NO_JOURNAL,
        status: 7,
        line: "ipcluster: damaged database at 7\n",
        output: b"",
        left: NO_JOURNAL,
    },
    Row {
        words: COMPACT,
        input: b"",
        disk: ONE_OPEN,
        status: 0,
        line: "",
        output: ONE_OPEN,
        left: ONE_OPEN,
    },
    Row {
        words: WORK,
        input: b"",
        disk: ONE_OPEN,
        status: 7,
        line: "ipcluster: damaged database at 0\n",
        output: b"",
        left: ONE_OPEN,
    },
    Row {
        words: REPLAY,
        input: b"",
        disk: b"",
        status: 0,
        line: "",
        output: b"",
        left: ONE_OPEN,
    },
    Row {
        words: DUMP,
        input: b"",
        disk: ONE_OPEN,
        status: 0,
        line: "",
        output: OPEN_TEXT,
        left: ONE_OPEN,
    },
    Row {
        words: CHECK,
        input: OPEN_TEXT,
        disk: ONE_OPEN,
        status: 0,
        line: "",
        output: b"",
        left: ONE_OPEN,
    },
    Row {
        words: CHECK,
        input: b"",
        disk: ONE_OPEN,
        status: 10,
        line: "ipcluster: different at 0\n",
        output: b"",
        left: ONE_OPEN,
    },
    Row {
        words: DUMP,
        input: b"",
        disk: CLOSED,
        status: 0,
        line: "",
        output: OPEN_TEXT,
        left: CLOSED,
    },
    Row {
        words: REPLAY,
        input: b"",
        disk: NO_RECORD,
        status: 7,
        line: "ipcluster: damaged database at 41\n",
        output: b"",
        left: NO_RECORD,
    },
    Row {
        words: REPLAY,
        input: UP,
        disk: NO_JOURNAL,
        status: 7,
        line: "ipcluster: damaged database at 7\n",
        output: b"",
        left: NO_JOURNAL,
    },
    Row {
        words: DUMP,
        input: b"",
        disk: NO_RECORD,
        status: 7,
        line: "ipcluster: damaged database at 41\n",
        output: b"",
        left: NO_RECORD,
    },
    Row {
        words: CHECK,
        input: OPEN_TEXT,
        disk: NO_JOURNAL,
        status: 7,
        line: "ipcluster: damaged database at 7\n",
        output: b"",
        left: NO_JOURNAL,
    },
    Row {
        words: &[],
        input: b"",
        disk: ONE_OPEN,
        status: 2,
        line: "ipcluster: the command line has no reading\n",
        output: b"",
        left: ONE_OPEN,
    },
    Row {
        words: THREE_ENTRIES,
        input: FOUR_UPS,
        disk: b"",
        status: 9,
        line: "ipcluster: history full at 4 entries and 96 bytes\n",
        output: b"",
        left: FULL,
    },
    Row {
        words: DUMP,
        input: b"",
        disk: FULL,
        status: 0,
        line: "",
        output: FULL_TEXT,
        left: FULL,
    },
    Row {
        words: THREE_ENTRIES,
        input: UP,
        disk: FULL,
        status: 0,
        line: "",
        output: b"",
        left: GOES_ON,
    },
    Row {
        words: REPLAY,
        input: b"",
        disk: OLD_OPEN,
        status: 0,
        line: "",
        output: b"",
        left: TWO_OPENS,
    },
    Row {
        words: REPLAY,
        input: b"",
        disk: OLDER_OPEN,
        status: 0,
        line: "",
        output: b"",
        left: TWO_OPENS,
    },
    Row {
        words: REPLAY,
        input: b"",
        disk: OLD_OTHER,
        status: 7,
        line: "ipcluster: damaged database at 13\n",
        output: b"",
        left: OLD_OTHER,
    },
    Row {
        words: DUMP,
        input: b"",
        disk: OLD_OPEN,
        status: 0,
        line: "",
        output: OPEN_TEXT,
        left: OLD_OPEN,
    },
    Row {
        words: CHECK,
        input: OPEN_TEXT,
        disk: OLDER_OPEN,
        status: 0,
        line: "",
        output: b"",
        left: OLDER_OPEN,
    },
    Row {
        words: COMPACT,
        input: b"",
        disk: OLD_OPEN,
        status: 0,
        line: "",
        output: ONE_OPEN,
        left: OLD_OPEN,
    },
    Row {
        words: REPLAY,
        input: b"",
        disk: OLD_NO_RECORD,
        status: 7,
        line: "ipcluster: damaged database at 41\n",
        output: b"",
        left: OLD_NO_RECORD,
    },
    Row {
        words: DUMP,
        input: b"",
        disk: OLD_NO_RECORD,
        status: 7,
        line: "ipcluster: damaged database at 41\n",
        output: b"",
        left: OLD_NO_RECORD,
    },
    Row {
        words: REPLAY,
        input: b"",
        disk: OLD_ABORT,
        status: 7,
        line: "ipcluster: damaged database at 41\n",
        output: b"",
        left: OLD_ABORT,
    },
    Row {
        words: DUMP,
        input: b"",
        disk: OLD_ABORT,
        status: 7,
        line: "ipcluster: damaged database at 41\n",
        output: b"",
        left: OLD_ABORT,
    },
    Row {
        words: DUMP,
        input: b"",
        disk: ABORT,
        status: 0,
        line: "",
        output: ABORT_TEXT,
        left: ABORT,
    },
    Row {
        words: REPLAY,
        input: b"",
        disk: OLD_UNFIT,
        status: 7,
        line: "ipcluster: damaged database at 41\n",
        output: b"",
        left: UNFIT,
    },
    Row {
        words: COMPACT,
        input: b"",
        disk: OLD_UNFIT,
        status: 7,
        line: "ipcluster: damaged database at 41\n",
        output: b"",
        left: OLD_UNFIT,
    },
];

#[test]
fn commands_over_databases(rt: HostRuntime) {
    for (place, row) in ROWS.iter().enumerate() {
        assert_eq!(rt;
            shown(&rt, rt.alloc(), row),
            (row.status, true, true, true),
            "at {place}"
        );
    }
}

/// How many lines these octets have.
fn lines_in(octets: &[u8]) -> usize {
    let mut lines = 0usize;
    for octet in octets {
        if *octet == b'\n' {
            lines = lines.saturating_add(1);
        }
    }
    lines
}

#[test]
fn work_without_tasks_is_kept(rt: HostRuntime) {
    let alloc = rt.alloc();
    let left = run(
        &rt,
        alloc,
        NO_TASKS,
        b"",
        &NONE,
        disk_of(&rt, alloc, b"", 0),
    );
    assert_eq!(rt; left.status, 0);
    let dumped = run(
        &rt,
        alloc,
        DUMP,
        b"",
        &NONE,
        disk_of(&rt, alloc, left.disk.content(), 0),
    );
    assert_eq!(rt; lines_in(dumped.output.written()), 10);
}

#[test]
fn a_call_of_the_disk_fails_at_work(rt: HostRuntime) {
    let alloc = rt.alloc();
    for call in [1, 2, 5, 9, 40] {
        let left = run(&rt, alloc, WORK, b"", &NONE, disk_of(&rt, alloc, b"", call));
        assert!(rt; left.status == 5 && left.output.written().is_empty());
    }
}
