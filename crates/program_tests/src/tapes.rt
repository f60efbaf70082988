//! Tapes of a few records, over disks in memory of which a call may fail.

ghost use Rattle.std.specs.Prelude.{All};
ghost use Rattle.tape.specs.Spelling.{Fits};

use crate::choosing::new_chooser;
use cluster_core::size::HistorySize;
use cluster_types::config::{Config, Scheme};
use disk_model::fuse::FuseDisk;
use disk_model::memory::MemDisk;
use hmac_sign::Key;
use load_schemes::chooser::Chooser;
use std::alloc::Global;
use std::process::Abort;
use tape::reader::TapeReader;
use tape::record::TapeRecord;
use tape_drive::drive::{Drive, TapeStop};
use tape_drive::fault::DriveError;
use task_journal::fault::OpenFault;
use task_journal::opening::Refused;
use task_journal::reading::read_journal;

/// A greeting as libzmq sends it: a length in the padding, and version 3.1.
const GREETING: &[u8; 64] =
    b"\xff\0\0\0\0\0\0\0\x01\x7f\x03\x01NULL\0\0\0\0\0\0\0\0\0\0\0\0\0\0\0\0\0\0\0\0\0\0\0\0\0\0\0\0\0\0\0\0\0\0\0\0\0\0\0\0\0\0\0\0\0\0\0\0";

/// The greeting that is sent.
const OWN_GREETING: &[u8; 64] =
    b"\xff\0\0\0\0\0\0\0\0\x7f\x03\0NULL\0\0\0\0\0\0\0\0\0\0\0\0\0\0\0\0\0\0\0\0\0\0\0\0\0\0\0\0\0\0\0\0\0\0\0\0\0\0\0\0\0\0\0\0\0\0\0\0";

/// The READY that is sent.
const OWN_READY: &[u8; 30] = b"\x04\x1c\x05READY\x0bSocket-Type\0\0\0\x06ROUTER";

/// The ERROR that is sent to a socket type that isn't served.
const OWN_ERROR: &[u8; 20] = b"\x04\x12\x05ERROR\x0bSocket-Type";

/// The READY of a DEALER with the identity `e`.
const DEALER: &[u8; 44] =
    b"\x04\x2a\x05READY\x0bSocket-Type\0\0\0\x06DEALER\x08Identity\0\0\0\x01e";

/// The READY of a REQ.
const REQ: &[u8; 27] = b"\x04\x19\x05READY\x0bSocket-Type\0\0\0\x03REQ";

/// The registration of the engine `e0`, signed under the key `k`.
const JOINING: &[u8] =
    b"\x01\x09<IDS|MSG>\x01@d2f52e7ee3d1bb06564157fe40e43ed04a1d7379b14330f3fc557ded7a84af38\x016{\"msg_id\":\"join-e0\",\"msg_type\":\"registration_request\"}\x01\x02{}\x01\x02{}\x00\x0d{\"uuid\":\"e0\"}";

/// The answer to it as the third entry, 7 milliseconds after the start of 1970.
const JOINED: &[u8] =
    b"\x01\x09<IDS|MSG>\x01@a59e65958d262f6fff357fe9b5f23d7c3e640de6c658502d90ed9e2a5b1984f0\x01\x95{\"msg_id\":\"hub-1-2\",\"session\":\"controller\",\"username\":\"controller\",\"date\":\"1970-01-01T00:00:00.007Z\",\"msg_type\":\"registration_reply\",\"version\":\"5.3\"}\x016{\"msg_id\":\"join-e0\",\"msg_type\":\"registration_request\"}\x01\x02{}\x00\x16{\"status\":\"ok\",\"id\":0}";

/// Behind the heading of an Up: connection 1 comes up for an engine, and speaks ZMTP.
const UP: &[u8; 7] = b"\0\0\0\x01\x03\0\0";

/// The same of a bare connection with the identity `c`.
const BARE_UP: &[u8; 8] = b"\0\0\0\x01\x03\x01\x01c";

/// Connection 2, a bare one with the identity `c`, comes up for tasks.
const CLIENT_UP: &[u8; 8] = b"\0\0\0\x02\x01\x01\x01c";

/// Behind the heading of a message on connection 2: the task `a`, signed under the key `k`.
const SUBMISSION: &[u8] =
    b"\0\0\0\x02\x06\0\0\0\x09<IDS|MSG>\0\0\0@869cf3a0adf8201e285e6b6dadd3139f73a97c417b5c38e27ce23d08cabbed7b\0\0\0\x2b{\"msg_id\":\"a\",\"msg_type\":\"execute_request\"}\0\0\0\x02{}\0\0\0\x02{}\0\0\0\x0e{\"code\":\"6*7\"}";

/// An empty disk whose call of that number fails.
fn new_disk<R: Abort>(rt: &R, alloc: Global, call: u64) -> FuseDisk {
    FuseDisk::new(MemDisk::new(alloc, b"").expect(rt, "memory is ample"), call)
}

/// A drive over a disk, with a limit of entries.
fn begin(
    alloc: Global,
    chooser: &Chooser,
    disk: FuseDisk,
    entries: u64,
) -> Result<Drive<FuseDisk>, Refused<FuseDisk>> {
    let config = Config {
        scheme: Scheme::LeastLoad,
        hwm: 1,
        misses: 10,
        entries,
        bytes: 1_000_000,
    };
    Drive::begin(alloc, disk, config, chooser)
}

/// The same over a disk on which it begins.
fn begun<R: Abort>(
    rt: &R,
    alloc: Global,
    chooser: &Chooser,
    disk: FuseDisk,
    entries: u64,
) -> Drive<FuseDisk> {
    let Ok(drive) = begin(alloc, chooser, disk, entries) else {
        panic!(rt; "no drive begins");
    };
    drive
}

/// A drive over an empty disk of which no call fails.
fn new_drive<R: Abort>(rt: &R, alloc: Global, chooser: &Chooser, entries: u64) -> Drive<FuseDisk> {
    begun(rt, alloc, chooser, new_disk(rt, alloc, 0), entries)
}

/// Writes octets behind others.
fn add<R: Abort>(rt: &R, octets: &mut Vec<u8>, more: &[u8]) {
    octets.extend_from_slice(more).expect(rt, "memory is ample");
}

/// A record: its kind, its moment, the word 9, and what stands behind the heading.
fn record<R: Abort>(rt: &R, alloc: Global, kind: u8, moment: u64, behind: &[u8]) -> Vec<u8> {
    let mut tape = Vec::from_slice(alloc, &[kind]).expect(rt, "memory is ample");
    add(rt, &mut tape, &moment.to_be_bytes());
    add(rt, &mut tape, b"\0\0\0\0\0\0\0\x09");
    add(rt, &mut tape, behind);
    tape
}

/// Behind the heading: octets on connection 1.
fn on_first<R: Abort>(rt: &R, alloc: Global, octets: &[u8]) -> Vec<u8> {
    let count = u32::try_from(octets.len()).unwrap_or(0);
    let mut behind = Vec::from_slice(alloc, b"\0\0\0\x01").expect(rt, "memory is ample");
    add(rt, &mut behind, &count.to_be_bytes());
    add(rt, &mut behind, octets);
    behind
}

/// The record of octets that come on connection 1.
fn piece<R: Abort>(rt: &R, alloc: Global, moment: u64, octets: &[u8]) -> Vec<u8> {
    record(rt, alloc, 2, moment, on_first(rt, alloc, octets).as_slice())
}

/// The record of octets that are sent on connection 1.
fn sent<R: Abort>(rt: &R, alloc: Global, moment: u64, octets: &[u8]) -> Vec<u8> {
    let mut tape = Vec::from_slice(alloc, b"\x02").expect(rt, "memory is ample");
    add(rt, &mut tape, &moment.to_be_bytes());
    add(rt, &mut tape, b"\0\0\0\0\0\0\0\0");
    add(rt, &mut tape, on_first(rt, alloc, octets).as_slice());
    tape
}

fn joined<R: Abort>(rt: &R, alloc: Global, first: &[u8], second: &[u8]) -> Vec<u8> {
    let mut octets = Vec::from_slice(alloc, first).expect(rt, "memory is ample");
    add(rt, &mut octets, second);
    octets
}

/// Behind the heading: a message of these parts, signed under a key, on a connection.
fn signed<R: Abort>(
    rt: &R,
    alloc: Global,
    key: &Key,
    conn: u8,
    header: &[u8],
    content: &[u8],
) -> Vec<u8> {
    let tag = key.tag(header, b"{}", b"{}", content);
    let mut behind = Vec::from_slice(alloc, &[0, 0, 0, conn, 6]).expect(rt, "memory is ample");
    for body in [
        b"<IDS|MSG>".as_slice(),
        tag.as_slice(),
        header,
        b"{}".as_slice(),
        b"{}".as_slice(),
        content,
    ] {
        let count = u32::try_from(body.len()).unwrap_or(0);
        add(rt, &mut behind, &count.to_be_bytes());
        add(rt, &mut behind, body);
    }
    behind
}

/// Serves a record, and appends what it sends; or gives its error.
fn serve_one(
    drive: &mut Drive<FuseDisk>,
    into: &mut Vec<u8>,
    key: &Key,
    chooser: &Chooser,
    item: &TapeRecord,
) -> Option<DriveError>
    requires { Fits item.now }
{
    match drive.serve(into, key, chooser, item) {
        Ok(()) => None,
        Err(error) => Some(error),
    }
}

/// Serves records until one isn't served, appends what those before it send, and gives its error.
fn serve_list(
    drive: &mut Drive<FuseDisk>,
    into: &mut Vec<u8>,
    key: &Key,
    chooser: &Chooser,
    list: &[TapeRecord],
) -> Option<DriveError>
    requires { All Fits list.now }
{
    for item in list {
        if let Some(error) = serve_one(drive, into, key, chooser, item) {
            return Some(error);
        }
    }
    None
}

/// The same of the records that octets hold.
fn serve<R: Abort>(
    rt: &R,
    drive: &mut Drive<FuseDisk>,
    into: &mut Vec<u8>,
    key: &Key,
    chooser: &Chooser,
    tape: &[u8],
) -> Option<DriveError> {
    let mut reader = TapeReader::new(*into.allocator());
    let list = reader.feed(tape).expect(rt, "memory is ample");
    serve_list(drive, into, key, chooser, list.as_slice())
}

/// Whether records are served, and answered with these octets.
fn sends<R: Abort>(
    rt: &R,
    alloc: Global,
    drive: &mut Drive<FuseDisk>,
    chooser: &Chooser,
    key: &Key,
    tape: &[u8],
    wanted: &[u8],
) -> bool {
    let mut answer = Vec::new(alloc);
    let error = serve(rt, drive, &mut answer, key, chooser, tape);
    error.is_none() && answer.as_slice() == wanted
}

/// Whether connection 1 comes up, and is greeted.
fn comes_up<R: Abort>(
    rt: &R,
    alloc: Global,
    drive: &mut Drive<FuseDisk>,
    chooser: &Chooser,
    key: &Key,
) -> bool {
    let up = record(rt, alloc, 1, 5, UP);
    let wanted = sent(rt, alloc, 5, OWN_GREETING);
    sends(
        rt,
        alloc,
        drive,
        chooser,
        key,
        up.as_slice(),
        wanted.as_slice(),
    )
}

/// Whether octets on connection 1 are answered with these.
fn replies<R: Abort>(
    rt: &R,
    alloc: Global,
    drive: &mut Drive<FuseDisk>,
    chooser: &Chooser,
    key: &Key,
    moment: u64,
    octets: &[u8],
    wanted: &[u8],
) -> bool {
    let tape = piece(rt, alloc, moment, octets);
    let wanted = sent(rt, alloc, moment, wanted);
    sends(
        rt,
        alloc,
        drive,
        chooser,
        key,
        tape.as_slice(),
        wanted.as_slice(),
    )
}

/// Whether connection 1 comes up, and octets behind its greeting are answered with these.
fn answers<R: Abort>(
    rt: &R,
    alloc: Global,
    chooser: &Chooser,
    key: &Key,
    octets: &[u8],
    wanted: &[u8],
) -> bool {
    let mut drive = new_drive(rt, alloc, chooser, 1000);
    assert!(rt; comes_up(rt, alloc, &mut drive, chooser, key));
    assert!(rt; replies(rt, alloc, &mut drive, chooser, key, 6, GREETING, OWN_READY));
    replies(rt, alloc, &mut drive, chooser, key, 7, octets, wanted)
}

/// READY and ERROR are two records, also where one piece calls for both.
fn refuses_at_once<R: Abort>(rt: &R, alloc: Global, chooser: &Chooser, key: &Key) -> bool {
    let mut drive = new_drive(rt, alloc, chooser, 1000);
    assert!(rt; comes_up(rt, alloc, &mut drive, chooser, key));
    let octets = joined(rt, alloc, GREETING, REQ);
    let tape = piece(rt, alloc, 6, octets.as_slice());
    let mut wanted = sent(rt, alloc, 6, OWN_READY);
    add(rt, &mut wanted, sent(rt, alloc, 6, OWN_ERROR).as_slice());
    sends(
        rt,
        alloc,
        &mut drive,
        chooser,
        key,
        tape.as_slice(),
        wanted.as_slice(),
    )
}

/// READY and a message in one piece bring an engine up and in.
fn joins<R: Abort>(rt: &R, alloc: Global, chooser: &Chooser, key: &Key) -> bool {
    let octets = joined(rt, alloc, DEALER, JOINING);
    answers(rt, alloc, chooser, key, octets.as_slice(), JOINED)
}

/// The error of the first record of a tape that isn't served, what stops the tape, and how many octets are sent.
type End = (Option<DriveError>, Option<TapeStop>, usize);

/// How a tape ends under a limit of entries.
fn end_of<R: Abort>(
    rt: &R,
    alloc: Global,
    chooser: &Chooser,
    key: &Key,
    entries: u64,
    tape: &[u8],
) -> End {
    let mut drive = new_drive(rt, alloc, chooser, entries);
    let mut answer = Vec::new(alloc);
    let error = serve(rt, &mut drive, &mut answer, key, chooser, tape);
    (error, drive.stop(), answer.len())
}

/// A record, twice, behind the 25 octets of a bare Up.
fn twice<R: Abort>(rt: &R, alloc: Global, kind: u8, behind: &[u8]) -> Vec<u8> {
    let mut tape = record(rt, alloc, 1, 5, BARE_UP);
    let item = record(rt, alloc, kind, 5, behind);
    add(rt, &mut tape, item.as_slice());
    add(rt, &mut tape, item.as_slice());
    tape
}

/// So many beats, each with 17 octets.
fn beats<R: Abort>(rt: &R, alloc: Global, count: usize) -> Vec<u8> {
    let mut tape = Vec::new(alloc);
    let beat = record(rt, alloc, 4, 5, b"");
    for _ in 0..count {
        add(rt, &mut tape, beat.as_slice());
    }
    tape
}

/// An engine joins over a stream.
fn engine_tape<R: Abort>(rt: &R, alloc: Global) -> Vec<u8> {
    let mut tape = record(rt, alloc, 1, 5, UP);
    add(rt, &mut tape, piece(rt, alloc, 6, GREETING).as_slice());
    let octets = joined(rt, alloc, DEALER, JOINING);
    add(
        rt,
        &mut tape,
        piece(rt, alloc, 7, octets.as_slice()).as_slice(),
    );
    tape
}

/// An engine joins on a bare connection.
fn bare_engine_tape<R: Abort>(rt: &R, alloc: Global, key: &Key) -> Vec<u8> {
    let header = b"{\"msg_id\":\"j\",\"msg_type\":\"registration_request\"}";
    let join = signed(rt, alloc, key, 1, header, b"{\"uuid\":\"e0\"}");
    let mut tape = record(rt, alloc, 1, 5, BARE_UP);
    add(
        rt,
        &mut tape,
        record(rt, alloc, 6, 7, join.as_slice()).as_slice(),
    );
    tape
}

/// An engine joins, a client comes up, its task is handed out, and a round of heartbeats goes to the engine.
fn whole_tape<R: Abort>(rt: &R, alloc: Global) -> Vec<u8> {
    let mut tape = engine_tape(rt, alloc);
    add(rt, &mut tape, record(rt, alloc, 1, 8, CLIENT_UP).as_slice());
    add(
        rt,
        &mut tape,
        record(rt, alloc, 6, 8, SUBMISSION).as_slice(),
    );
    add(rt, &mut tape, record(rt, alloc, 4, 9, b"").as_slice());
    tape
}

/// What comes of a tape over a disk of which a call may fail.
#[derive(Drop)]
struct Run {
    /// The error of the first record that isn't served, and that of the beat behind it.
    errors: (Option<DriveError>, Option<DriveError>),
    /// What the records before it send.
    answer: Vec<u8>,
    disk: FuseDisk,
}

/// What comes of a beat.
fn beaten<R: Abort>(
    rt: &R,
    alloc: Global,
    drive: &mut Drive<FuseDisk>,
    into: &mut Vec<u8>,
    key: &Key,
    chooser: &Chooser,
) -> Option<DriveError> {
    let beat = record(rt, alloc, 4, 9, b"");
    serve(rt, drive, into, key, chooser, beat.as_slice())
}

/// Serves the whole tape, and a beat where one of its records isn't served.
fn make_run<R: Abort>(
    rt: &R,
    alloc: Global,
    chooser: &Chooser,
    key: &Key,
    mut drive: Drive<FuseDisk>,
) -> Run {
    let mut answer = Vec::new(alloc);
    let tape = whole_tape(rt, alloc);
    let error = serve(rt, &mut drive, &mut answer, key, chooser, tape.as_slice());
    let next = if error.is_some() {
        beaten(rt, alloc, &mut drive, &mut answer, key, chooser)
    } else {
        None
    };
    Run {
        errors: (error, next),
        answer,
        disk: drive.close(),
    }
}

/// How many entries a disk holds.
fn entries_on<R: Abort>(rt: &R, alloc: Global, disk: &mut FuseDisk) -> usize {
    let (kept, _places) = read_journal(alloc, disk).expect(rt, "a journal");
    kept.len()
}

/// How many entries a disk holds, over which a drive begins again and serves a beat. No further call of it fails.
fn kept_on<R: Abort>(rt: &R, alloc: Global, chooser: &Chooser, key: &Key, disk: FuseDisk) -> usize {
    let mut disk = FuseDisk::new(disk.into_disk(), 0);
    let kept = entries_on(rt, alloc, &mut disk);
    let mut drive = begun(rt, alloc, chooser, disk, 1000);
    let mut answer = Vec::new(alloc);
    let error = beaten(rt, alloc, &mut drive, &mut answer, key, chooser);
    assert_eq!(rt; error, None);
    kept
}

/// How many records octets hold.
fn count_of<R: Abort>(rt: &R, alloc: Global, tape: &[u8]) -> usize {
    let mut reader = TapeReader::new(alloc);
    reader.feed(tape).expect(rt, "memory is ample").len()
}

/// What comes of the tape over a disk whose call of that number fails: its errors, how many records are sent, whether
/// these are a front of `whole`, and how many entries the disk keeps.
type Outcome = ((Option<DriveError>, Option<DriveError>), usize, bool, usize);

fn outcome_of<R: Abort>(
    rt: &R,
    alloc: Global,
    chooser: &Chooser,
    key: &Key,
    whole: &[u8],
    call: u64,
) -> Outcome {
    let drive = begun(rt, alloc, chooser, new_disk(rt, alloc, call), 1000);
    let Run {
        errors,
        answer,
        disk,
    } = make_run(rt, alloc, chooser, key, drive);
    let count = count_of(rt, alloc, answer.as_slice());
    let is_front = whole.starts_with(answer.as_slice());
    let kept = kept_on(rt, alloc, chooser, key, disk);
    (errors, count, is_front, kept)
}

/// What the whole tape sends, where no call of the disk fails.
fn whole_answer<R: Abort>(rt: &R, alloc: Global, chooser: &Chooser, key: &Key) -> Vec<u8> {
    let drive = new_drive(rt, alloc, chooser, 1000);
    let Run { answer, .. } = make_run(rt, alloc, chooser, key, drive);
    answer
}

/// Why no drive begins over an empty disk whose call of that number fails, and how many entries the disk keeps.
fn refusal<R: Abort>(
    rt: &R,
    alloc: Global,
    chooser: &Chooser,
    key: &Key,
    call: u64,
) -> (OpenFault, usize) {
    match begin(alloc, chooser, new_disk(rt, alloc, call), 1000) {
        Ok(_) => panic!(rt; "a drive begins"),
        Err(Refused { disk, why }) => (why, kept_on(rt, alloc, chooser, key, disk)),
    }
}

/// How many records are sent before that call fails, and how many entries the disk then keeps. A step makes four calls;
/// the last one fails behind the octet that makes its entries count.
fn before_call(call: u64) -> (usize, usize) {
    match call {
        0..=13 => (2, 1),
        14..=17 => (2, 2),
        18 => (2, 3),
        19..=21 => (3, 3),
        22..=25 => (3, 4),
        26 => (3, 6),
        27..=29 => (4, 6),
        30 => (4, 7),
        _ => (5, 7),
    }
}

/// What is to come of the tape.
fn wanted(call: u64) -> Outcome {
    let (count, kept) = before_call(call);
    if call > 30 {
        return ((None, None), count, true, kept);
    }
    let errors = (Some(DriveError::DiskFault), Some(DriveError::Reopen));
    (errors, count, true, kept)
}

#[test]
fn streams(rt: HostRuntime) {
    let alloc = rt.alloc();
    let chooser = new_chooser(&rt, alloc);
    let key = Key::new(alloc, b"k").expect(&rt, "a key");
    assert!(rt; answers(&rt, alloc, &chooser, &key, REQ, OWN_ERROR));
    assert!(rt; refuses_at_once(&rt, alloc, &chooser, &key));
    assert!(rt; joins(&rt, alloc, &chooser, &key));
}

/// Records behind the Up of connection 1, which come twice, and the place where they stop the tape. The second Down is of a
/// connection that is down; the first one has 21 octets.
const RULES: &[(u8, &[u8], Option<u64>)] = &[
    (1, BARE_UP, Some(25)),
    (2, b"\0\0\0\x01\0\0\0\x01x", Some(25)),
    (3, b"\0\0\0\x02", Some(25)),
    (6, b"\0\0\0\x01\x01\0\0\0\x05hello", None),
    (6, b"\0\0\0\x02\x01\0\0\0\x05hello", Some(25)),
    (3, b"\0\0\0\x01", Some(46)),
];

#[test]
fn rules(rt: HostRuntime) {
    let alloc = rt.alloc();
    let chooser = new_chooser(&rt, alloc);
    let key = Key::new(alloc, b"k").expect(&rt, "a key");
    for (kind, behind, place) in RULES {
        let tape = twice(&rt, alloc, *kind, behind);
        let end = end_of(&rt, alloc, &chooser, &key, 1000, tape.as_slice());
        assert_eq!(rt; end, (None, place.map(TapeStop::BadTape), 0));
    }
}

/// Beats up to a limit of two entries, one that would pass it, and one behind that.
#[test]
fn a_full_history(rt: HostRuntime) {
    let alloc = rt.alloc();
    let chooser = new_chooser(&rt, alloc);
    let key = Key::new(alloc, b"k").expect(&rt, "a key");
    let full = Some(TapeStop::HistoryFull(HistorySize {
        entries: 3,
        bytes: 51,
    }));
    for (count, stop) in [(1, None), (2, None), (3, full), (4, full)] {
        let tape = beats(&rt, alloc, count);
        let end = end_of(&rt, alloc, &chooser, &key, 2, tape.as_slice());
        assert_eq!(rt; end, (None, stop, 0));
    }
}

/// The ten calls with which a drive begins.
#[test]
fn each_call_of_the_opening_may_fail(rt: HostRuntime) {
    let alloc = rt.alloc();
    let chooser = new_chooser(&rt, alloc);
    let key = Key::new(alloc, b"k").expect(&rt, "a key");
    for call in 1..11 {
        let kept = if call == 10 { 1 } else { 0 };
        let refused = refusal(&rt, alloc, &chooser, &key, call);
        assert_eq!(rt; refused, (OpenFault::DiskFault, kept), "at {call}");
    }
}

/// The calls behind them, and one that isn't made.
#[test]
fn each_call_may_fail(rt: HostRuntime) {
    let alloc = rt.alloc();
    let chooser = new_chooser(&rt, alloc);
    let key = Key::new(alloc, b"k").expect(&rt, "a key");
    let whole = whole_answer(&rt, alloc, &chooser, &key);
    for call in 11..32 {
        let outcome = outcome_of(&rt, alloc, &chooser, &key, whole.as_slice(), call);
        assert_eq!(rt; outcome, wanted(call), "at {call}");
    }
}

/// What is sent where an engine has joined by this tape, and a client's task has this content.
fn handed_out<R: Abort>(
    rt: &R,
    alloc: Global,
    chooser: &Chooser,
    key: &Key,
    engine: &[u8],
    content: &[u8],
) -> Vec<u8> {
    let header = b"{\"msg_id\":\"a\",\"msg_type\":\"execute_request\"}";
    let task = signed(rt, alloc, key, 2, header, content);
    let mut tape = Vec::from_slice(alloc, engine).expect(rt, "memory is ample");
    add(rt, &mut tape, record(rt, alloc, 1, 8, CLIENT_UP).as_slice());
    add(
        rt,
        &mut tape,
        record(rt, alloc, 6, 8, task.as_slice()).as_slice(),
    );
    let mut drive = new_drive(rt, alloc, chooser, 1000);
    let mut answer = Vec::new(alloc);
    let error = serve(rt, &mut drive, &mut answer, key, chooser, tape.as_slice());
    assert_eq!(rt; error, None);
    answer
}

/// Octets of a stream, and a frame, of more than 65,535 octets are sent.
#[test]
fn a_long_task_is_handed_out(rt: HostRuntime) {
    let alloc = rt.alloc();
    let chooser = new_chooser(&rt, alloc);
    let key = Key::new(alloc, b"k").expect(&rt, "a key");
    let mut content = Vec::new(alloc);
    content.resize(70_000, b'1').expect(&rt, "memory is ample");
    let streams = engine_tape(&rt, alloc);
    let bare = bare_engine_tape(&rt, alloc, &key);
    for engine in [streams.as_slice(), bare.as_slice()] {
        let sent = handed_out(&rt, alloc, &chooser, &key, engine, content.as_slice());
        assert!(rt; sent.ends_with(content.as_slice()));
    }
}
