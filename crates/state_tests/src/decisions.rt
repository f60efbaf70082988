//! Decisions over small clusters.

ghost use Rattle.std.specs.Prelude.{◌≡◌, ◌<◌, None};

use crate::common::{message, new_chooser, text};
use cluster_defs::engine::Engine;
use cluster_defs::request::WholeRequest;
use cluster_defs::settled::Settled;
use cluster_state::state::State;
use cluster_types::entry::Entry;
use cluster_types::event::Dep;
use cluster_types::sequence::Sequence;
use cluster_types::text::Text;
use cluster_types::verdict::{Cause, Verdict};
use due_decisions::due::due;
use load_schemes::chooser::Chooser;
use place_sets::counts::count;
use place_sets::lanes::Lanes;
use std::alloc::Global;
use std::marker::Brand;
use std::process::Abort;
use std::sync::ledger::{Blank, Ledger};
use task_graph::steps::Steps;
use task_table::task::Task;
use task_table::tasks::Tasks;

/// A dependency that completed tasks meet, and failed ones if it says so.
pub(crate) fn dep(alloc: Global, failure: bool) -> Dep {
    Dep {
        ids: Sequence::new(alloc),
        all: true,
        success: true,
        failure,
    }
}

pub(crate) fn list<R: Abort>(rt: &R, alloc: Global, dep: &mut Dep, id: &str) {
    let id = text(rt, alloc, id);
    dep.ids.push(id).expect(rt, "memory is ample");
}

/// A dependency on the tasks `x` and `y`.
fn on_both<R: Abort>(rt: &R, alloc: Global, failure: bool) -> Dep {
    let mut both = dep(alloc, failure);
    list(rt, alloc, &mut both, "x");
    list(rt, alloc, &mut both, "y");
    both
}

/// A Submit with these dependencies, accepted at moment 1000.
pub(crate) fn request<R: Abort>(rt: &R, alloc: Global, after: Dep, follow: Dep) -> WholeRequest {
    WholeRequest {
        owner: None,
        direct_to: None,
        message: message(rt, alloc, b"{}"),
        msg_type: text(rt, alloc, "execute_request"),
        session: text(rt, alloc, ""),
        username: text(rt, alloc, ""),
        after,
        follow,
        listed: Sequence::new(alloc),
        targets: Sequence::new(alloc),
        accepted_at: 1000,
        timeout: 0,
        retries: 0,
        invalid: false,
    }
}

/// A Submit that waits for nothing.
pub(crate) fn plain<R: Abort>(rt: &R, alloc: Global) -> WholeRequest {
    request(rt, alloc, dep(alloc, false), dep(alloc, false))
}

/// A Submit that waits for `x` and `y`.
pub(crate) fn after_both<R: Abort>(rt: &R, alloc: Global, failure: bool) -> WholeRequest {
    let after = on_both(rt, alloc, failure);
    request(rt, alloc, after, dep(alloc, false))
}

/// A Submit that follows `x` and `y`.
fn follows_both<R: Abort>(rt: &R, alloc: Global) -> WholeRequest {
    let follow = on_both(rt, alloc, false);
    request(rt, alloc, dep(alloc, false), follow)
}

fn invalid<R: Abort>(rt: &R, alloc: Global) -> WholeRequest {
    let mut request = plain(rt, alloc);
    request.invalid = true;
    request
}

/// A Submit that waits for five seconds at most.
fn impatient<R: Abort>(rt: &R, alloc: Global) -> WholeRequest {
    let mut request = plain(rt, alloc);
    request.timeout = 5;
    request
}

/// A direct request to engine 0.
fn direct<R: Abort>(rt: &R, alloc: Global) -> WholeRequest {
    let mut request = plain(rt, alloc);
    request.direct_to = Some(0);
    request
}

/// A task that was just accepted.
fn task_of<R: Abort>(rt: &R, alloc: Global, id: &Text, request: WholeRequest) -> Task
    ensures { result.settled ≡ None }
{
    Task::new(alloc, id, 1, request).expect(rt, "memory is ample")
}

fn push<R: Abort>(rt: &R, tasks: &mut Tasks, task: Task)
    requires { task.settled ≡ None }
{
    tasks.push(task).expect(rt, "memory is ample");
}

/// Adds a task with a request.
pub(crate) fn add<R: Abort>(
    rt: &R,
    alloc: Global,
    tasks: &mut Tasks,
    id: &str,
    request: WholeRequest,
) {
    let id = text(rt, alloc, id);
    push(rt, tasks, task_of(rt, alloc, &id, request));
}

/// Settled by a reply of an engine.
pub(crate) fn by_reply(verdict: Verdict, engine: u32) -> Settled {
    Settled {
        verdict,
        cause: Cause::Reply,
        engine: Some(engine),
        moment: 0,
    }
}

/// Settles a task, with a count of steps that nobody reads.
fn settle<L: Ledger, R: Abort>(rt: &R, tasks: &mut Tasks, id: &Text, settled: Settled, blank: Blank)
    requires name { blank.name ≡ L.name }
    requires parts { blank.parts ≡ L.parts }
    requires some { 0 < blank.parts }
{
    let mut steps = Steps::<L>::new(blank);
    tasks
        .settle(id, settled, None, &mut steps)
        .expect(rt, "memory is ample");
}

/// Settles a task on an engine.
fn finish<R: Abort>(
    rt: &R,
    alloc: Global,
    tasks: &mut Tasks,
    id: &str,
    verdict: Verdict,
    engine: u32,
) {
    let id = text(rt, alloc, id);
    settle::<Brand, R>(rt, tasks, &id, by_reply(verdict, engine), Blank::new(1));
}

fn hand<R: Abort>(rt: &R, alloc: Global, tasks: &mut Tasks, id: &str, engine: u32) {
    let id = text(rt, alloc, id);
    tasks.hand(&id, engine).expect(rt, "memory is ample");
}

fn join<R: Abort>(rt: &R, alloc: Global, state: &mut State, number: u32) {
    let engine = Engine {
        number,
        conn: number,
        uuid: text(rt, alloc, "e"),
        mark: 0,
    };
    state.engines.push(engine).expect(rt, "memory is ample");
    state.by_use.push(number).expect(rt, "memory is ample");
}

/// A cluster of the engines 0 and 1.
fn two_engines<R: Abort>(rt: &R, alloc: Global) -> State {
    let mut state = State::new(alloc);
    join(rt, alloc, &mut state, 0);
    join(rt, alloc, &mut state, 1);
    state
}

fn finish_both<R: Abort>(rt: &R, alloc: Global, tasks: &mut Tasks, last: Verdict) {
    add(rt, alloc, tasks, "x", plain(rt, alloc));
    add(rt, alloc, tasks, "y", plain(rt, alloc));
    finish(rt, alloc, tasks, "x", Verdict::Completed, 0);
    finish(rt, alloc, tasks, "y", last, 1);
}

/// The same with `x` completed on engine 0, `y` settled on engine 1, and `a`.
fn with_both<R: Abort>(rt: &R, alloc: Global, last: Verdict, request: WholeRequest) -> State {
    let mut state = two_engines(rt, alloc);
    finish_both(rt, alloc, &mut state.tasks, last);
    add(rt, alloc, &mut state.tasks, "a", request);
    state
}

/// The two engines, where `a` runs on engine 0 and `b` waits.
fn with_load<R: Abort>(rt: &R, alloc: Global) -> State {
    let mut state = two_engines(rt, alloc);
    add(rt, alloc, &mut state.tasks, "a", plain(rt, alloc));
    hand(rt, alloc, &mut state.tasks, "a", 0);
    add(rt, alloc, &mut state.tasks, "b", plain(rt, alloc));
    state
}

/// Adds a task whose id is a number, and hands it to an engine.
fn add_on<R: Abort>(rt: &R, alloc: Global, tasks: &mut Tasks, number: u32, engine: u32) {
    let id = number.to_string(alloc).expect(rt, "memory is ample");
    add(rt, alloc, tasks, id.as_str(), plain(rt, alloc));
    hand(rt, alloc, tasks, id.as_str(), engine);
}

/// The two engines, where 1,001 tasks run on engine 0, 1,000 run on engine 1, and `b` waits.
fn with_many<R: Abort>(rt: &R, alloc: Global) -> State {
    let mut state = two_engines(rt, alloc);
    for number in 0..2_001 {
        add_on(rt, alloc, &mut state.tasks, number, number % 2);
    }
    add(rt, alloc, &mut state.tasks, "b", plain(rt, alloc));
    state
}

/// A cluster without engines, where `a` waits at a moment.
fn with_one<R: Abort>(rt: &R, alloc: Global, clock: u64, request: WholeRequest) -> State {
    let mut state = State::new(alloc);
    state.clock = clock;
    add(rt, alloc, &mut state.tasks, "a", request);
    state
}

/// Engine 0 after so many beats, of which it may miss one, and a direct request to it.
fn with_beats<R: Abort>(rt: &R, alloc: Global, beats: u64) -> State {
    let mut state = State::new(alloc);
    state.misses = 1;
    state.beats = beats;
    join(rt, alloc, &mut state, 0);
    add(rt, alloc, &mut state.tasks, "a", direct(rt, alloc));
    state
}

/// What was decided, in a word.
#[derive(Clone, Copy, Debug, PartialEq, Eq)]
enum Outcome {
    Nothing,
    Handed(u32),
    Failed(Cause),
    Aborted,
    Lost(u32),
    Other,
}

fn told(found: &Option<Entry>, name: &str) -> Outcome {
    match found {
        None => Outcome::Nothing,
        Some(Entry::Lose { engine }) => Outcome::Lost(*engine),
        Some(Entry::Hand { id, engine }) if id.as_str() == name => Outcome::Handed(*engine),
        Some(
            Entry::Settle {
                id,
                verdict: Verdict::Failed,
                cause,
            },
        ) if id.as_str() == name => Outcome::Failed(*cause),
        Some(
            Entry::Settle {
                id,
                verdict: Verdict::Aborted,
                cause: Cause::Abort,
            },
        ) if id.as_str() == name => Outcome::Aborted,
        Some(_) => Outcome::Other,
    }
}

/// What is decided over a state, of a task with this name.
fn decided<R: Abort>(
    rt: &R,
    alloc: Global,
    chooser: &Chooser,
    state: &State,
    name: &str,
) -> Outcome {
    let found = due(alloc, state, chooser).expect(rt, "memory is ample");
    told(&found, name)
}

/// Checks what is decided over a state, of a task with this name.
fn decides<R: Abort>(rt: &R, chooser: &Chooser, state: State, name: &str, outcome: Outcome) {
    let alloc = state.allocator();
    assert_eq!(rt; decided(rt, alloc, chooser, &state, name), outcome);
}

#[test]
fn worked_decisions(rt: HostRuntime) {
    let alloc = rt.alloc();
    let chooser = new_chooser(&rt, alloc);
    let impossible = Outcome::Failed(Cause::ImpossibleDependency);
    let state = with_both(&rt, alloc, Verdict::Failed, plain(&rt, alloc));
    decides(&rt, &chooser, state, "a", Outcome::Handed(0));
    let state = with_load(&rt, alloc);
    decides(&rt, &chooser, state, "b", Outcome::Handed(1));
    let state = with_both(&rt, alloc, Verdict::Failed, after_both(&rt, alloc, true));
    decides(&rt, &chooser, state, "a", Outcome::Handed(0));
    let state = with_both(&rt, alloc, Verdict::Failed, after_both(&rt, alloc, false));
    decides(&rt, &chooser, state, "a", impossible);
    let state = with_both(&rt, alloc, Verdict::Completed, follows_both(&rt, alloc));
    decides(&rt, &chooser, state, "a", impossible);
    let state = with_one(&rt, alloc, 0, invalid(&rt, alloc));
    decides(
        &rt,
        &chooser,
        state,
        "a",
        Outcome::Failed(Cause::InvalidDependency),
    );
    let state = with_one(&rt, alloc, 5999, impatient(&rt, alloc));
    decides(&rt, &chooser, state, "a", Outcome::Nothing);
    let state = with_one(&rt, alloc, 6000, impatient(&rt, alloc));
    decides(
        &rt,
        &chooser,
        state,
        "a",
        Outcome::Failed(Cause::TaskTimeout),
    );
    let state = with_beats(&rt, alloc, 1);
    decides(&rt, &chooser, state, "a", Outcome::Handed(0));
    let state = with_beats(&rt, alloc, 2);
    decides(&rt, &chooser, state, "a", Outcome::Lost(0));
}

/// Takes a task back.
fn abort<R: Abort>(rt: &R, alloc: Global, tasks: &mut Tasks, id: &str) {
    let id = text(rt, alloc, id);
    tasks.abort(&id).expect(rt, "memory is ample");
}

#[test]
fn what_was_taken_back_is_settled(rt: HostRuntime) {
    let alloc = rt.alloc();
    let chooser = new_chooser(&rt, alloc);
    for name in ["a", "b"] {
        let mut state = with_load(&rt, alloc);
        abort(&rt, alloc, &mut state.tasks, name);
        decides(&rt, &chooser, state, name, Outcome::Aborted);
    }
    let mut state = with_beats(&rt, alloc, 1);
    abort(&rt, alloc, &mut state.tasks, "a");
    decides(&rt, &chooser, state, "a", Outcome::Aborted);
    let mut state = with_both(&rt, alloc, Verdict::Failed, plain(&rt, alloc));
    abort(&rt, alloc, &mut state.tasks, "x");
    decides(&rt, &chooser, state, "a", Outcome::Handed(0));
}

/// The loads of the engines 0 and 1, counted anew.
fn counted<R: Abort>(rt: &R, state: &State) -> Option<[u32; 2]> {
    let counts = state.tasks.counted().expect(rt, "memory is ample");
    match counts {
        Some(counts) => Some([count(&counts, 0), count(&counts, 1)]),
        None => None,
    }
}

#[test]
fn a_thousand_tasks_run_on_an_engine(rt: HostRuntime) {
    let alloc = rt.alloc();
    let chooser = new_chooser(&rt, alloc);
    let state = with_many(&rt, alloc);
    assert_eq!(rt; counted(&rt, &state), Some([1_001, 1_000]));
    decides(&rt, &chooser, state, "b", Outcome::Handed(1));
}

/// A Submit whose targets are the engines 0 and 1, with a timeout of five seconds.
fn bound<R: Abort>(rt: &R, alloc: Global) -> WholeRequest {
    let mut request = impatient(rt, alloc);
    let uuid = text(rt, alloc, "e");
    request.listed.push(uuid).expect(rt, "memory is ample");
    request.targets.push(0).expect(rt, "memory is ample");
    request.targets.push(1).expect(rt, "memory is ample");
    request
}

/// Whether the first task is in these sets and lanes alone: of those that may run, on engine 0, on engine 1; of those that
/// may fail, by engine 0, by engine 1.
fn stands(state: &State, wanted: [bool; 6]) -> bool {
    let marks = state.tasks.marks();
    let found = [
        marks.free.contains(&0),
        has_first(&marks.lanes, 0),
        has_first(&marks.lanes, 1),
        marks.doubtful.contains(&0),
        has_first(&marks.watches, 0),
        has_first(&marks.watches, 1),
    ];
    found == wanted
}

/// Whether the lane of a number has the first place.
fn has_first(lanes: &Lanes, number: u64) -> bool {
    match lanes.as_map().get(&number) {
        Some(lane) => lane.contains(&0),
        None => false,
    }
}

#[test]
fn a_bound_task_is_watched_by_one_engine(rt: HostRuntime) {
    let alloc = rt.alloc();
    let mut state = two_engines(&rt, alloc);
    add(&rt, alloc, &mut state.tasks, "a", bound(&rt, alloc));
    assert!(rt; stands(&state, [false, true, true, false, true, false]));
    assert!(rt; has_first(&state.tasks.marks().deadlines, 6000));
    state.end_engine(0).expect(&rt, "memory is ample");
    assert!(rt; stands(&state, [false, true, true, false, false, true]));
    let chooser = new_chooser(&rt, alloc);
    assert_eq!(rt;
        decided(&rt, alloc, &chooser, &state, "a"),
        Outcome::Handed(1)
    );
    state.end_engine(1).expect(&rt, "memory is ample");
    assert!(rt; stands(&state, [false, true, true, true, false, false]));
    let impossible = Outcome::Failed(Cause::ImpossibleDependency);
    assert_eq!(rt; decided(&rt, alloc, &chooser, &state, "a"), impossible);
}
