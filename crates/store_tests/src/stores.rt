//! A store over disks in memory, one of which fails.

ghost use Rattle.std.specs.Prelude.{◌≡◌, ◌<◌, ℕ, length, false, IfOk};
ghost use Rattle.cluster_types.specs.declared.entry.Entry.{Entry};
ghost use Rattle.cluster_defs.specs.Lives.{is_open, sendings_to};
ghost use Rattle.cluster_store.specs.Stores.{told};
ghost use Rattle.record_codec.specs.Spelling.{IsWithinLimits};

use crate::choosing::new_chooser;
use cluster_store::fault::{ServeError, StepError};
use cluster_store::opening::read_list;
use cluster_store::store::Store;
use cluster_store::taken::Taken;
use cluster_types::config::{Channel, Config, Scheme};
use cluster_types::entry::Input;
use cluster_types::octets::Octets;
use cluster_types::sequence::Sequence;
use cluster_types::shared_message::SharedMessage;
use disk_model::fuse::FuseDisk;
use disk_model::memory::MemDisk;
use load_schemes::chooser::Chooser;
use std::alloc::Global;
use std::process::Abort;
use task_journal::fault::AppendFault;
use task_journal::opening::Refused;
use task_journal::reading::read_journal;

/// What a take is to answer.
#[derive(Clone, Copy, Debug, PartialEq, Eq)]
pub enum Answer {
    Out,
    NothingYet,
    Closed,
}

/// What is done to a store.
#[derive(Clone, Copy, Debug)]
enum Act {
    Up(u32, Channel),
    Say(u32, &'static [u8], &'static [u8]),
    Down(u32),
    Flush(Result<(), AppendFault>),
    Take(u32, Answer),
}

const CONFIG: Config = Config {
    scheme: Scheme::LeastLoad,
    hwm: 1,
    misses: 10,
    entries: 1000,
    bytes: 1_000_000,
};

/// An engine joins, and is handed a task; a question is answered without a flush.
const SESSION: &[Act] = &[
    Act::Take(1, Answer::Closed),
    Act::Up(1, Channel::Engine),
    Act::Take(1, Answer::NothingYet),
    Act::Say(
        1,
        b"{\"msg_id\":\"j\",\"msg_type\":\"registration_request\"}",
        b"{\"uuid\":\"e0\"}",
    ),
    Act::Take(1, Answer::NothingYet),
    Act::Flush(Ok(())),
    Act::Take(1, Answer::Out),
    Act::Take(1, Answer::NothingYet),
    Act::Up(2, Channel::Task),
    Act::Say(
        2,
        b"{\"msg_id\":\"a\",\"msg_type\":\"execute_request\"}",
        b"{\"code\":\"6*7\"}",
    ),
    Act::Take(1, Answer::NothingYet),
    Act::Up(3, Channel::Hub),
    Act::Flush(Ok(())),
    Act::Take(1, Answer::Out),
    Act::Say(
        3,
        b"{\"msg_id\":\"c\",\"msg_type\":\"connection_request\"}",
        b"{}",
    ),
    Act::Take(3, Answer::Out),
    Act::Down(3),
    Act::Take(3, Answer::Closed),
    Act::Flush(Ok(())),
];

/// Three steps, and a flush that fails: nothing is let out.
const FAULT: &[Act] = &[
    Act::Up(1, Channel::Engine),
    Act::Up(2, Channel::Task),
    Act::Up(3, Channel::Hub),
    Act::Flush(Err(AppendFault::DiskFault)),
    Act::Flush(Err(AppendFault::Reopen)),
    Act::Take(1, Answer::NothingYet),
];

fn up<R: Abort>(rt: &R, alloc: Global, conn: u32, channel: Channel) -> Input
    ensures fits { IsWithinLimits (Entry.Input result) }
    ensures no_open { is_open (Entry.Input result) ≡ false }
{
    let identity = Octets::new(alloc, b"e").expect(rt, "memory is ample");
    Input::Up {
        conn,
        channel,
        moment: 0,
        word: 0,
        identity,
    }
}

fn down(conn: u32) -> Input
    ensures fits { IsWithinLimits (Entry.Input result) }
    ensures no_open { is_open (Entry.Input result) ≡ false }
{
    Input::Down {
        conn,
        moment: 0,
        word: 0,
    }
}

fn said<R: Abort>(rt: &R, alloc: Global, conn: u32, header: &[u8], content: &[u8]) -> Input
    requires header { length header.now < 1000 }
    requires content { length content.now < 1000 }
    ensures fits { IsWithinLimits (Entry.Input result) }
    ensures no_open { is_open (Entry.Input result) ≡ false }
{
    let buffers = Sequence::new(alloc);
    let message = SharedMessage::new(alloc, b"", header, b"{}", b"{}", content, buffers).expect(
        rt,
        "memory is ample",
    );
    Input::In {
        conn,
        moment: 0,
        word: 0,
        message,
    }
}

/// Takes the step of an input where it may come.
fn enter<R: Abort>(rt: &R, store: &mut Store<FuseDisk>, chooser: &Chooser, input: Input) -> bool
    requires fits { IsWithinLimits (Entry.Input input) }
    requires no_open { is_open (Entry.Input input) ≡ false }
{
    let meaning = store.understand(&input).expect(rt, "memory is ample");
    if !store
        .may_take(&input, &meaning.event)
        .expect(rt, "memory is ample")
    {
        return false;
    }
    store.step(chooser, input, meaning).expect(rt, "a step");
    true
}

pub fn is_answer(taken: &Taken, answer: Answer) -> bool {
    match taken {
        Taken::Out(_) => answer == Answer::Out,
        Taken::NothingYet => answer == Answer::NothingYet,
        Taken::Closed => answer == Answer::Closed,
    }
}

/// Whether an act comes out as it is to.
fn does<R: Abort>(
    rt: &R,
    alloc: Global,
    store: &mut Store<FuseDisk>,
    chooser: &Chooser,
    act: Act,
) -> bool {
    match act {
        Act::Up(conn, channel) => enter(rt, store, chooser, up(rt, alloc, conn, channel)),
        Act::Say(conn, header, content) => {
            if header.len() >= 1000 || content.len() >= 1000 {
                return false;
            }
            enter(rt, store, chooser, said(rt, alloc, conn, header, content))
        }
        Act::Down(conn) => enter(rt, store, chooser, down(conn)),
        Act::Flush(answer) => store.flush() == answer,
        Act::Take(conn, answer) => {
            store.has_news(conn) == (answer != Answer::NothingYet)
                && is_answer(&store.take_out(conn), answer)
        }
    }
}

/// An empty disk that fails at a call.
fn new_disk<R: Abort>(rt: &R, alloc: Global, call: u64) -> FuseDisk {
    FuseDisk::new(MemDisk::new(alloc, b"").expect(rt, "memory is ample"), call)
}

/// A store over a disk, on which no outs wait.
fn opened(
    alloc: Global,
    chooser: &Chooser,
    disk: FuseDisk,
    config: Config,
) -> Result<Store<FuseDisk>, Refused<FuseDisk>>
    ensures calm { IfOk result (λ s. (c : ℕ) → told s c ≡ length (sendings_to s.history c)) }
{
    match Store::open(alloc, disk, config, chooser, 0) {
        Ok(store) => Ok(store),
        Err(refused) => Err(refused),
    }
}

/// A store over an empty disk that fails at a call, after acts that come out as they are to.
fn played<R: Abort>(
    rt: &R,
    alloc: Global,
    chooser: &Chooser,
    call: u64,
    acts: &[Act],
) -> Store<FuseDisk> {
    let Ok(mut store) = opened(alloc, chooser, new_disk(rt, alloc, call), CONFIG) else {
        panic!(rt; "no store opens");
    };
    for act in acts {
        assert!(rt; does(rt, alloc, &mut store, chooser, *act), "{act:?}");
    }
    store
}

/// Calls of the disk that fail, and what is left then: how many entries the store has, its mark, whether it failed, and
/// how many entries and octets the disk holds.
const PLAYED: &[(u64, &[Act], (usize, u64, bool, usize, usize))] = &[
    (0, SESSION, (9, 9, false, 8, 394)),
    (11, FAULT, (4, 1, true, 1, 60)),
    (14, FAULT, (4, 1, true, 4, 142)),
];

/// How many entries and octets the disk of a store holds.
fn kept_of<R: Abort>(rt: &R, alloc: Global, store: Store<FuseDisk>) -> (usize, usize) {
    let mut disk = store.close().into_disk();
    let octets = disk.content().len();
    let (kept, _places) = read_journal(alloc, &mut disk).expect(rt, "a journal");
    (kept.len(), octets)
}

/// What is left of a session that was played over a disk whose call of that number fails.
fn left_of<R: Abort>(
    rt: &R,
    alloc: Global,
    chooser: &Chooser,
    call: u64,
    acts: &[Act],
) -> (usize, u64, bool, usize, usize) {
    let store = played(rt, alloc, chooser, call, acts);
    let (entries, mark, failed) = (store.history().len(), store.mark(), store.failed());
    let (kept, octets) = kept_of(rt, alloc, store);
    (entries, mark, failed, kept, octets)
}

#[test]
fn stores(rt: HostRuntime) {
    let alloc = rt.alloc();
    let chooser = new_chooser(&rt, alloc);
    for (call, acts, left) in PLAYED {
        assert_eq!(rt; left_of(&rt, alloc, &chooser, *call, acts), *left);
    }
}

/// How many entries a session's disk holds before its opening, and after each of its flushes.
const WHOLE: &[usize] = &[0, 1, 3, 7, 8];

/// How many entries are safe at least where so many outs were let out: those that the answer to the registration, the
/// task and the answer to the question tell of.
fn safe_for(outs: usize) -> usize {
    match outs {
        0 => 0,
        1 => 3,
        _ => 7,
    }
}

/// Whether an act lets an out go, where no flush has failed.
fn lets_out<R: Abort>(
    rt: &R,
    alloc: Global,
    store: &mut Store<FuseDisk>,
    chooser: &Chooser,
    act: Act,
) -> bool {
    if let Act::Take(conn, _) = act {
        return is_answer(&store.take_out(conn), Answer::Out);
    }
    let _ = does(rt, alloc, store, chooser, act);
    false
}

/// Plays a session until a flush fails, and says how many outs were let out.
fn outs_of<R: Abort>(
    rt: &R,
    alloc: Global,
    store: &mut Store<FuseDisk>,
    chooser: &Chooser,
) -> usize {
    let mut outs = 0usize;
    for act in SESSION {
        if !store.failed() && lets_out(rt, alloc, store, chooser, *act) {
            outs = outs.saturating_add(1);
        }
    }
    outs
}

/// Whether a disk holds whole steps, and all that so many outs tell of.
fn holds(alloc: Global, chooser: &Chooser, disk: FuseDisk, outs: usize) -> bool {
    let mut disk = disk.into_disk();
    let Ok(list) = read_list(alloc, &mut disk, chooser) else {
        return false;
    };
    WHOLE.contains(&list.len()) && safe_for(outs) <= list.len()
}

/// The disk of a session that was played over one whose call of that number fails, how many outs were let out, and whether
/// a call failed.
fn disk_of<R: Abort>(
    rt: &R,
    alloc: Global,
    chooser: &Chooser,
    call: u64,
) -> (FuseDisk, usize, bool) {
    match opened(alloc, chooser, new_disk(rt, alloc, call), CONFIG) {
        Ok(mut store) => {
            let outs = outs_of(rt, alloc, &mut store, chooser);
            let failed = store.failed();
            (store.close(), outs, failed)
        }
        Err(refused) => (refused.disk, 0, true),
    }
}

/// Whether a call failed, and whether the disk then holds what it has to.
fn plays<R: Abort>(rt: &R, alloc: Global, chooser: &Chooser, call: u64) -> (bool, bool) {
    let (disk, outs, failed) = disk_of(rt, alloc, chooser, call);
    (failed, holds(alloc, chooser, disk, outs))
}

#[test]
fn each_call_may_fail(rt: HostRuntime) {
    let alloc = rt.alloc();
    let chooser = new_chooser(&rt, alloc);
    for call in 1..24 {
        assert_eq!(rt; plays(&rt, alloc, &chooser, call), (call < 23, true));
    }
}

/// What an input is answered with that is served.
#[derive(Clone, Copy, Debug, PartialEq, Eq)]
enum Served {
    /// So many outs.
    Outs(usize),
    MayNotCome,
    Fails(ServeError),
}

/// Serves an input where it may come.
fn serve<R: Abort>(rt: &R, store: &mut Store<FuseDisk>, chooser: &Chooser, input: Input) -> Served
    requires fits { IsWithinLimits (Entry.Input input) }
    requires calm { (c : ℕ) → told store.old c ≡ length (sendings_to store.old.history c) }
    ensures { (c : ℕ) → told store.new c ≡ length (sendings_to store.new.history c) }
{
    let meaning = store.understand(&input).expect(rt, "memory is ample");
    if !store
        .may_take(&input, &meaning.event)
        .expect(rt, "memory is ample")
    {
        return Served::MayNotCome;
    }
    match store.serve(chooser, input, meaning) {
        Ok(outs) => Served::Outs(outs.len()),
        Err(error) => Served::Fails(error),
    }
}

/// An engine comes up, and joins.
fn joins<R: Abort>(
    rt: &R,
    alloc: Global,
    store: &mut Store<FuseDisk>,
    chooser: &Chooser,
) -> (Served, Served)
    requires { (c : ℕ) → told store.old c ≡ length (sendings_to store.old.history c) }
{
    let first = serve(rt, store, chooser, up(rt, alloc, 1, Channel::Engine));
    let join = said(
        rt,
        alloc,
        1,
        b"{\"msg_id\":\"j\",\"msg_type\":\"registration_request\"}",
        b"{\"uuid\":\"e0\"}",
    );
    let second = serve(rt, store, chooser, join);
    (first, second)
}

/// How many entries a store has that was served, its mark, how many steps were refused, and how many entries the disk
/// holds.
type Behind = (usize, u64, u64, usize);

/// What comes of an engine that joins, over a disk whose call of that number fails and under a limit of entries.
fn joined<R: Abort>(
    rt: &R,
    alloc: Global,
    chooser: &Chooser,
    call: u64,
    entries: u64,
) -> (Served, Served, Behind) {
    let config = Config { entries, ..CONFIG };
    let Ok(mut store) = opened(alloc, chooser, new_disk(rt, alloc, call), config) else {
        panic!(rt; "no store opens");
    };
    let (first, second) = joins(rt, alloc, &mut store, chooser);
    let (entries, mark, fulls) = (store.history().len(), store.mark(), store.fulls());
    let (kept, _octets) = kept_of(rt, alloc, store);
    (first, second, (entries, mark, fulls, kept))
}

/// The record of the registration has 104 octets, that of the Up before it 24.
const FULL: Served = Served::Fails(ServeError::Step(StepError::HistoryFull {
    entries: 2,
    bytes: 128,
}));

const FAULTY: Served = Served::Fails(ServeError::DiskFault);

const LATER: Served = Served::Fails(ServeError::Step(StepError::Reopen));

/// The call of the disk that fails, the limit of entries, and what comes of an engine that joins.
const JOINED: &[(u64, u64, (Served, Served, Behind))] = &[
    (0, 2, (Served::Outs(0), Served::Outs(1), (3, 3, 0, 3))),
    (0, 1, (Served::Outs(0), FULL, (2, 2, 1, 2))),
    (11, 2, (FAULTY, LATER, (2, 1, 0, 1))),
    (14, 2, (FAULTY, LATER, (2, 1, 0, 2))),
    (15, 2, (Served::Outs(0), FAULTY, (3, 2, 0, 2))),
    (18, 2, (Served::Outs(0), FAULTY, (3, 2, 0, 3))),
];

#[test]
fn steps_that_are_served(rt: HostRuntime) {
    let alloc = rt.alloc();
    let chooser = new_chooser(&rt, alloc);
    for (call, entries, wanted) in JOINED {
        assert_eq!(rt; joined(&rt, alloc, &chooser, *call, *entries), *wanted);
    }
}
