//! A small cluster, entry by entry.

ghost use Rattle.std.specs.Prelude.{◌≤◌, None};
ghost use Rattle.cluster_types.specs.Limits.{last_moment};
ghost use Rattle.cluster_state.specs.Plain.{InTime};
ghost use Rattle.cluster_state.specs.Ruled.{IsRuled};
ghost use Rattle.cluster_state.specs.Stands.{plain};

use crate::common::{counts_are, message, text};
use cluster_defs::acceptance::Acceptance;
use cluster_defs::attempt::{Attempt, Ending};
use cluster_defs::engine::{Engine, Joining};
use cluster_state::acceptance::{connection_on, is_invalid, is_known, targets_of};
use cluster_state::engines::use_engine;
use cluster_state::ruling::Ruling;
use cluster_state::state::State;
use cluster_types::config::{Channel, Scheme};
use cluster_types::entry::{Entry, Input};
use cluster_types::event::{Dep, Event, Submission};
use cluster_types::limits::{LAST_MOMENT, MOST_ENGINES};
use cluster_types::message::{Engines, Ids};
use cluster_types::octets::Octets;
use cluster_types::sequence::Sequence;
use cluster_types::shared_message::SharedMessage;
use cluster_types::text::Text;
use cluster_types::verdict::{Cause, Verdict};
use place_sets::counts::count;
use resubmission::abort::AbortPlan;
use resubmission::plan::{Renamed, Renaming};
use resubmission::purge::PurgePlan;
use std::alloc::Global;
use std::process::Abort;
use task_table::attempts::{Attempts, engine_of, is_never, one_more, runs, runs_at};

fn ids<R: Abort>(rt: &R, alloc: Global, names: &[&str]) -> Ids {
    let mut list = Ids::new(alloc);
    for name in names {
        let id = text(rt, alloc, *name);
        list.push(id).expect(rt, "memory is ample");
    }
    list
}

/// A dependency on the listed tasks.
fn on<R: Abort>(rt: &R, alloc: Global, names: &[&str]) -> Dep {
    Dep {
        ids: ids(rt, alloc, names),
        all: true,
        success: true,
        failure: false,
    }
}

/// What a request says that depends on nothing.
fn submission<R: Abort>(rt: &R, alloc: Global, id: &str) -> Submission {
    Submission {
        id: text(rt, alloc, id),
        msg_type: text(rt, alloc, "execute_request"),
        session: text(rt, alloc, ""),
        username: text(rt, alloc, ""),
        after: on(rt, alloc, &[]),
        follow: on(rt, alloc, &[]),
        targets: Sequence::new(alloc),
        timeout: 0,
        retries: 0,
    }
}

/// What an entry without a message comes to.
fn ruling<R: Abort>(rt: &R, state: &State, entry: &Entry) -> Ruling
    requires { state.now.moment ≤ last_moment }
    ensures { IsRuled (plain state.now) entry.now None result }
{
    match entry {
        Entry::Settle { id, verdict, cause } => Ruling::Settle(
            state
                .settling(id, *verdict, *cause)
                .expect(rt, "memory is ample"),
        ),
        _ => Ruling::Other,
    }
}

/// Takes an entry without a message.
fn take<R: Abort>(rt: &R, state: &mut State, entry: &Entry) -> bool
    requires { InTime entry.now }
{
    if state.moment > LAST_MOMENT {
        return false;
    }
    let ruling = ruling(rt, state, entry);
    state
        .take(entry, &None, ruling)
        .expect(rt, "memory is ample")
}

fn opens<R: Abort>(rt: &R, state: &mut State) {
    state
        .take_open(0, Scheme::LeastLoad, 1, 10)
        .expect(rt, "memory is ample");
}

fn connects<R: Abort>(
    rt: &R,
    alloc: Global,
    state: &mut State,
    conn: u32,
    channel: Channel,
    peer: &[u8],
) {
    let identity = Octets::new(alloc, peer).expect(rt, "memory is ample");
    state
        .connect(conn, channel, &identity)
        .expect(rt, "memory is ample");
}

/// Whether an engine joins on connection 1.
fn joins<R: Abort>(rt: &R, alloc: Global, state: &mut State, uuid: &str) -> bool {
    let uuid = text(rt, alloc, uuid);
    let joining = state.engines.joining(state.next_engine, 1, &uuid);
    state
        .take_join(1, &uuid, joining)
        .expect(rt, "memory is ample")
}

/// An opened cluster with connection 1 of an engine and connection 2 of a client, once engine 0 has joined.
fn joined<R: Abort>(rt: &R, alloc: Global) -> State {
    let mut state = State::new(alloc);
    opens(rt, &mut state);
    connects(rt, alloc, &mut state, 1, Channel::Engine, b"e");
    connects(rt, alloc, &mut state, 2, Channel::Task, b"c");
    let _ = joins(rt, alloc, &mut state, "e0");
    state
}

/// Whether a request with this id is accepted on connection 2.
fn submits<R: Abort>(rt: &R, alloc: Global, state: &mut State, id: &str) -> bool {
    let request = message(rt, alloc, b"h");
    let submission = submission(rt, alloc, id);
    let accepted = state.acceptance(false, &submission, &request) == Acceptance::Accepted;
    state
        .take_demand(2, 5, &request, false, &submission, accepted)
        .expect(rt, "memory is ample")
}

/// The same, once the task `a` was accepted.
fn accepted<R: Abort>(rt: &R, alloc: Global) -> State {
    let mut state = joined(rt, alloc);
    let _ = submits(rt, alloc, &mut state, "a");
    state
}

/// The task `a` is handed to engine 0.
fn hand<R: Abort>(rt: &R, alloc: Global, state: &mut State) {
    let a = text(rt, alloc, "a");
    state.hand(&a, 0, false).expect(rt, "memory is ample");
}

/// The same, once `a` was handed to engine 0.
fn handed<R: Abort>(rt: &R, alloc: Global) -> State {
    let mut state = accepted(rt, alloc);
    hand(rt, alloc, &mut state);
    state
}

/// Whether a good reply to `a` with this header counts.
fn reply<R: Abort>(rt: &R, alloc: Global, state: &mut State, header: &str) -> bool {
    let message = message(rt, alloc, header.as_bytes());
    let task = text(rt, alloc, "a");
    let header = text(rt, alloc, header);
    state
        .take_reply(1, &task, &header, true, false, &message)
        .expect(rt, "memory is ample")
}

/// What comes of it that an engine with this uuid joins on a connection.
fn joining_on<R: Abort>(rt: &R, alloc: Global, state: &State, conn: u32, uuid: &str) -> Joining {
    let uuid = text(rt, alloc, uuid);
    state.engines.joining(state.next_engine, conn, &uuid)
}

/// The engines with these uuids.
fn targets<R: Abort>(rt: &R, alloc: Global, state: &State, uuids: &[&str]) -> Engines {
    let listed = ids(rt, alloc, uuids);
    targets_of(alloc, state.engines.as_slice(), listed.as_slice()).expect(rt, "memory is ample")
}

fn beats<R: Abort>(rt: &R, state: &mut State) {
    state.beat().expect(rt, "memory is ample");
}

/// Whether this echo on connection 1 raises a mark.
fn would_raise(state: &State, beat: u64) -> bool {
    state.engines.raises(1, beat)
}

/// Whether this echo on connection 1 is taken.
fn echoes(state: &mut State, beat: u64) -> bool {
    state.take_pong(1, beat)
}

fn marks(state: &mut State, beat: u64) {
    state.engines.mark(1, beat);
}

/// Whether the engine on connection 1 leaves.
fn leaves_now<R: Abort>(rt: &R, state: &mut State) -> bool {
    let engine = state.engines.number_on(1);
    state.take_leave(engine).expect(rt, "memory is ample")
}

fn is_connected(state: &State, conn: u32) -> bool {
    connection_on(&state.connections, conn).is_some()
}

#[test]
fn connections_and_engines(rt: HostRuntime) {
    let alloc = rt.alloc();
    let mut state = joined(&rt, alloc);
    assert!(rt; state.next_engine == 1 && state.engines.number_on(1) == Some(0));
    assert_eq!(rt;
        joining_on(&rt, alloc, &state, 1, "e0"),
        Joining::Repeat { engine: 0 }
    );
    assert_eq!(rt;
        joining_on(&rt, alloc, &state, 1, "e1"),
        Joining::AlreadyJoined { engine: 0 }
    );
    assert_eq!(rt;
        joining_on(&rt, alloc, &state, 3, "e0"),
        Joining::UuidInUse { engine: 0 }
    );
    assert_eq!(rt; joining_on(&rt, alloc, &state, 3, "e1"), Joining::Accepted);
    let targets = targets(&rt, alloc, &state, &["e1", "e0"]);
    assert!(rt; targets.as_slice() == [0].as_slice());
    beats(&rt, &mut state);
    assert!(rt; would_raise(&state, 1) && echoes(&mut state, 1));
    assert!(rt; !echoes(&mut state, 1) && !echoes(&mut state, 2));
    marks(&mut state, 7);
    assert!(rt; !would_raise(&state, 7));
    for leaves in [true, false] {
        assert!(rt; leaves_now(&rt, &mut state) == leaves);
    }
    state.disconnect(2);
    assert!(rt; !is_connected(&state, 2) && is_connected(&state, 1));
}

#[test]
fn the_numbers_of_engines_are_used_up(rt: HostRuntime) {
    let alloc = rt.alloc();
    let mut state = joined(&rt, alloc);
    state.next_engine = MOST_ENGINES - 1;
    assert_eq!(rt; joining_on(&rt, alloc, &state, 3, "e1"), Joining::Accepted);
    state.next_engine = MOST_ENGINES;
    assert_eq!(rt; joining_on(&rt, alloc, &state, 3, "e1"), Joining::UsedUp);
    assert_eq!(rt;
        joining_on(&rt, alloc, &state, 1, "e0"),
        Joining::Repeat { engine: 0 }
    );
    state.engines.end(0);
    assert!(rt; !joins(&rt, alloc, &mut state, "e1") && state.next_engine == MOST_ENGINES);
    assert!(rt; state.engines.len() == 0 && state.by_use.len() == 1);
}

/// Uses the engines 0, 1 and 0, and tells the order of their last use.
fn used<R: Abort>(rt: &R, alloc: Global) -> Vec<u32> {
    let mut by_use = Vec::new(alloc);
    for engine in [0, 1, 0] {
        use_engine(&mut by_use, engine).expect(rt, "memory is ample");
    }
    by_use
}

#[test]
fn an_engine_is_found(rt: HostRuntime) {
    let mut state = joined(&rt, rt.alloc());
    assert!(rt;
        state.engines.on(1).is_some()
            && state.engines.named(b"e0").is_some()
            && state.engines.named(b"e1").is_none()
            && state.engines.conn_of(0) == Some(1)
    );
    state.engines.end(0);
    assert!(rt; state.engines.on(1).is_none());
    let by_use = used(&rt, rt.alloc());
    assert!(rt; by_use.as_slice() == [1, 0].as_slice());
}

/// What becomes of a request in this state.
fn acceptance(
    state: &State,
    direct: bool,
    submission: &Submission,
    message: &SharedMessage,
) -> Acceptance {
    state.acceptance(direct, submission, message)
}

#[test]
fn requests_over_one_task(rt: HostRuntime) {
    let alloc = rt.alloc();
    let state = accepted(&rt, alloc);
    let a = submission(&rt, alloc, "a");
    let copy = submission(&rt, alloc, "resubmit:1");
    let told = message(&rt, alloc, b"h");
    let other = message(&rt, alloc, b"i");
    assert_eq!(rt;
        acceptance(&state, false, &a, &other),
        Acceptance::Again { repeat: true }
    );
    assert_eq!(rt;
        acceptance(&state, true, &a, &told),
        Acceptance::Again { repeat: false }
    );
    assert_eq!(rt;
        acceptance(&state, false, &copy, &told),
        Acceptance::Reserved
    );
    assert!(rt; is_known(&state.tasks, &a.id) && !is_known(&state.tasks, &copy.id));
    let known = on(&rt, alloc, &["a"]);
    let unknown = on(&rt, alloc, &["a", "c"]);
    assert!(rt;
        !is_invalid(&state.tasks, &copy.id, &known, &a.follow)
            && is_invalid(&state.tasks, &a.id, &a.after, &known)
            && is_invalid(&state.tasks, &copy.id, &unknown, &a.follow)
    );
}

fn hands(attempts: &mut Attempts, engine: u32) {
    attempts.hand(engine);
}

fn ends<R: Abort>(rt: &R, attempts: &mut Attempts, engine: u32) {
    attempts.end(engine).expect(rt, "memory is ample");
}

fn replies<R: Abort>(rt: &R, attempts: &mut Attempts, header: &Text, how: Ending) {
    attempts
        .take_reply(header, how)
        .expect(rt, "memory is ample");
}

fn loses<R: Abort>(rt: &R, attempts: &mut Attempts) {
    attempts.lose().expect(rt, "memory is ample");
}

fn has_heard(attempts: &Attempts, header: &Text) -> bool {
    attempts.has_heard(header)
}

fn withdraws(attempts: &mut Attempts) {
    attempts.withdraw();
}

#[test]
fn attempts(rt: HostRuntime) {
    let alloc = rt.alloc();
    let mut attempts = Attempts::new(alloc);
    let header = text(&rt, alloc, "r");
    assert!(rt; is_never(attempts.last) && one_more(41).expect(&rt, "a greater count") == 42);
    hands(&mut attempts, 3);
    ends(&rt, &mut attempts, 4);
    assert!(rt;
        runs(attempts.last)
            && runs_at(3, attempts.last)
            && !runs_at(4, attempts.last)
            && attempts.spent == 0
    );
    ends(&rt, &mut attempts, 3);
    assert!(rt; !runs(attempts.last) && attempts.spent == 1 && engine_of(attempts.last) == Some(3));
    hands(&mut attempts, 3);
    assert!(rt; !has_heard(&attempts, &header));
    replies(&rt, &mut attempts, &header, Ending::Declines);
    assert!(rt; attempts.spent == 1 && attempts.excluded.as_slice() == [3].as_slice());
    hands(&mut attempts, 3);
    assert!(rt; has_heard(&attempts, &header));
    replies(&rt, &mut attempts, &header, Ending::Badly);
    assert!(rt; attempts.spent == 2);
    hands(&mut attempts, 4);
    loses(&rt, &mut attempts);
    assert!(rt; attempts.spent == 3);
    withdraws(&mut attempts);
    assert!(rt; attempts.spent == 3 && engine_of(attempts.last) == Some(4));
}

#[test]
fn counts_go_on(rt: HostRuntime) {
    for number in [0, 100_000, 4_294_967_295, u64::MAX - 1] {
        let more = one_more(number).expect(&rt, "a greater count");
        assert!(rt; more > number);
    }
    assert!(rt; one_more(u64::MAX).is_err());
}

#[test]
fn counters_go_on(rt: HostRuntime) {
    let mut state = State::new(rt.alloc());
    state.opens = 4_294_967_295;
    opens(&rt, &mut state);
    assert!(rt; state.opens == 4_294_967_296 && state.beats == 0);
    state.beats = 4_294_967_295;
    beats(&rt, &mut state);
    assert!(rt; state.beats == 4_294_967_296);
}

/// Whether a purge that comes to this drops anything.
fn purges<R: Abort>(rt: &R, state: &mut State, plan: &PurgePlan) -> bool {
    state.take_purge(plan).expect(rt, "memory is ample")
}

/// The engine on connection 1 ends.
fn ends_engine<R: Abort>(rt: &R, state: &mut State) {
    state.end_engine_on(1).expect(rt, "memory is ample");
}

/// Whether a task has spent one attempt, and doesn't run.
fn has_spent_one(state: &State, id: &Text) -> bool {
    let found = state.tasks.find(id);
    found.is_some_and(|task| task.attempts().spent == 1 && !task.row().running)
}

#[test]
fn a_lost_engine_ends_its_attempt(rt: HostRuntime) {
    let alloc = rt.alloc();
    let mut state = handed(&rt, alloc);
    let inflight = PurgePlan::Inflight(ids(&rt, alloc, &["a"]));
    assert!(rt; !purges(&rt, &mut state, &inflight));
    ends_engine(&rt, &mut state);
    assert!(rt; has_spent_one(&state, &text(&rt, alloc, "a")));
}

/// Settles a task by its reply.
fn settle<R: Abort>(rt: &R, state: &mut State, id: Text) -> bool {
    let settle = Entry::Settle {
        id,
        verdict: Verdict::Completed,
        cause: Cause::Reply,
    };
    take(rt, state, &settle)
}

/// Whether a task is settled, by a reply.
fn is_settled(state: &State, id: &Text) -> bool {
    let found = state.tasks.find(id);
    found.is_some_and(|task| task.settled().is_some() && task.reply().is_some())
}

/// Whether a task is made again at moment 9, under another id.
fn resubmits<R: Abort>(rt: &R, alloc: Global, state: &mut State, old: &str, new: &str) -> bool {
    let mut renamed = Renamed::new(alloc);
    let renaming = Renaming {
        old: text(rt, alloc, old),
        new: text(rt, alloc, new),
    };
    renamed.push(renaming).expect(rt, "memory is ample");
    state
        .take_resubmit(9, &Ok(renamed))
        .expect(rt, "memory is ample")
}

/// Whether the task of an id is purged.
fn is_purged(state: &State, id: &Text) -> bool {
    let found = state.tasks.find(id);
    found.is_some_and(|task| task.row().purged)
}

/// Whether a task was accepted at moment 9.
fn is_of_nine(state: &State, id: &Text) -> bool {
    let found = state.tasks.find(id);
    found.is_some_and(|task| task.request().accepted_at == 9)
}

/// How many Submits run on an engine, where that was kept.
fn load_of(state: &State, engine: u32) -> Option<u32> {
    match state.tasks.counts() {
        Some(counts) => Some(count(counts, engine)),
        None => None,
    }
}

#[test]
fn loads_follow_the_tasks(rt: HostRuntime) {
    let alloc = rt.alloc();
    let mut state = handed(&rt, alloc);
    assert!(rt; load_of(&state, 0) == Some(1) && load_of(&state, 1) == Some(0));
    assert!(rt; reply(&rt, alloc, &mut state, "r"));
    assert!(rt; load_of(&state, 0) == Some(0));
}

/// Whether so many Submits wait, so many Submits and Directs run on engine 0, and so many tasks finished there.
fn numbers_are(state: &State, unassigned: u32, loads: u32, directs: u32, finished: u32) -> bool {
    let tallies = state.tasks.tallies();
    counts_are(&tallies.unassigned, 0, unassigned)
        && counts_are(&tallies.loads, 0, loads)
        && counts_are(&tallies.directs, 0, directs)
        && counts_are(&tallies.finished, 0, finished)
}

/// Whether a request with this id, to engine 0 alone, is accepted on connection 2.
fn directs<R: Abort>(rt: &R, alloc: Global, state: &mut State, id: &str) -> bool {
    let buffers = Sequence::new(alloc);
    let request = SharedMessage::new(alloc, b"e0", b"h", b"{}", b"{}", b"{}", buffers).expect(
        rt,
        "memory is ample",
    );
    let submission = submission(rt, alloc, id);
    let accepted = state.acceptance(true, &submission, &request) == Acceptance::Accepted;
    state
        .take_demand(2, 5, &request, true, &submission, accepted)
        .expect(rt, "memory is ample")
}

#[test]
fn numbers_follow_attempts(rt: HostRuntime) {
    let alloc = rt.alloc();
    let mut state = accepted(&rt, alloc);
    assert!(rt; numbers_are(&state, 1, 0, 0, 0));
    hand(&rt, alloc, &mut state);
    assert!(rt; numbers_are(&state, 0, 1, 0, 0));
    assert!(rt; directs(&rt, alloc, &mut state, "d"));
    assert!(rt; numbers_are(&state, 0, 1, 0, 0));
    let direct = text(&rt, alloc, "d");
    state.hand(&direct, 0, true).expect(&rt, "memory is ample");
    assert!(rt; numbers_are(&state, 0, 1, 1, 0));
    ends_engine(&rt, &mut state);
    assert!(rt; numbers_are(&state, 1, 0, 0, 0));
    assert!(rt; state.tasks.marks().running.is_empty());
}

#[test]
fn numbers_follow_what_finished(rt: HostRuntime) {
    let alloc = rt.alloc();
    let mut state = handed(&rt, alloc);
    assert!(rt; reply(&rt, alloc, &mut state, "r"));
    let _ = settle(&rt, &mut state, text(&rt, alloc, "a"));
    assert!(rt; numbers_are(&state, 0, 0, 0, 1));
    let drops = PurgePlan::Drops(ids(&rt, alloc, &["a"]));
    assert!(rt; purges(&rt, &mut state, &drops));
    assert!(rt; numbers_are(&state, 0, 0, 0, 0));
}

/// Whether an abort that comes to this takes any task back.
fn takes_abort<R: Abort>(rt: &R, state: &mut State, plan: &AbortPlan) -> bool {
    state.take_abort(plan).expect(rt, "memory is ample")
}

/// Whether the abort of these tasks takes any back.
fn aborts<R: Abort>(rt: &R, alloc: Global, state: &mut State, names: &[&str]) -> bool {
    let plan = AbortPlan::TakesBack(ids(rt, alloc, names));
    takes_abort(rt, state, &plan)
}

/// Whether a task was taken back behind an attempt on this engine, if there was one, and no attempt is spent.
fn is_taken_back(state: &State, id: &Text, engine: Option<u32>) -> bool {
    match state.tasks.find(id) {
        Some(task) => {
            task.attempts().last == Attempt::Withdrawn { engine }
                && task.attempts().spent == 0
                && !task.row().running
        }
        None => false,
    }
}

/// Settles a task that was taken back.
fn settle_aborted<R: Abort>(rt: &R, state: &mut State, id: Text) -> bool {
    let settle = Entry::Settle {
        id,
        verdict: Verdict::Aborted,
        cause: Cause::Abort,
    };
    take(rt, state, &settle)
}

/// Whether the outcome of a task has this content.
fn outcome_is(state: &State, id: &Text, content: &str) -> bool {
    match state.tasks.find(id) {
        Some(task) => match &task.row().outcome {
            Some(outcome) => outcome.content() == content.as_bytes(),
            None => false,
        },
        None => false,
    }
}

#[test]
fn an_abort_takes_back_what_runs(rt: HostRuntime) {
    let alloc = rt.alloc();
    let mut state = handed(&rt, alloc);
    let a = text(&rt, alloc, "a");
    assert!(rt; aborts(&rt, alloc, &mut state, &["a"]));
    assert!(rt; is_taken_back(&state, &a, Some(0)) && numbers_are(&state, 1, 0, 0, 0));
    assert!(rt; !reply(&rt, alloc, &mut state, "r"));
    ends_engine(&rt, &mut state);
    assert!(rt; is_taken_back(&state, &a, Some(0)));
    let _ = settle_aborted(&rt, &mut state, text(&rt, alloc, "a"));
    assert!(rt; numbers_are(&state, 0, 0, 0, 1));
    let content =
        "{\"status\":\"error\",\"ename\":\"TaskAborted\",\"evalue\":\"this task was aborted\",\"traceback\":[]}";
    assert!(rt; outcome_is(&state, &a, content));
}

#[test]
fn an_abort_takes_back_what_waits(rt: HostRuntime) {
    let alloc = rt.alloc();
    let mut state = accepted(&rt, alloc);
    assert!(rt; directs(&rt, alloc, &mut state, "d"));
    let refused = AbortPlan::Unknown(ids(&rt, alloc, &["zz"]));
    assert!(rt; !takes_abort(&rt, &mut state, &refused));
    assert!(rt; !aborts(&rt, alloc, &mut state, &[]));
    assert!(rt; aborts(&rt, alloc, &mut state, &["d", "a"]));
    for name in ["a", "d"] {
        assert!(rt; is_taken_back(&state, &text(&rt, alloc, name), None));
    }
    assert!(rt; state.tasks.marks().directs.is_empty());
}

#[test]
fn a_task_is_settled_once(rt: HostRuntime) {
    let alloc = rt.alloc();
    let mut state = handed(&rt, alloc);
    for (header, counts) in [("r", true), ("s", false)] {
        assert!(rt; reply(&rt, alloc, &mut state, header) == counts);
    }
    let _ = settle(&rt, &mut state, text(&rt, alloc, "a"));
    assert!(rt; state.tasks.len() == 1 && state.tasks.marks().free.is_empty());
    assert!(rt; is_settled(&state, &text(&rt, alloc, "a")));
    assert!(rt; resubmits(&rt, alloc, &mut state, "a", "resubmit:2"));
    assert!(rt; is_of_nine(&state, &text(&rt, alloc, "resubmit:2")));
    let drops = PurgePlan::Drops(ids(&rt, alloc, &["a"]));
    assert!(rt; purges(&rt, &mut state, &drops));
    assert!(rt; is_purged(&state, &text(&rt, alloc, "a")));
}

#[test]
fn an_open_is_kept(rt: HostRuntime) {
    let mut state = State::new(rt.alloc());
    let open = Entry::Input(Input::Open {
        moment: 7,
        scheme: Scheme::Lru,
        hwm: 2,
        misses: 3,
    });
    assert!(rt; take(&rt, &mut state, &open));
    assert!(rt; state.opens == 1 && state.hwm == 2 && state.misses == 3 && state.clock == 7);
}
