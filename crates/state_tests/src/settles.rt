//! Settles of tasks that others wait for.

ghost use Rattle.std.specs.Prelude.{◌≡◌, ◌<◌, ◌≤◌, ◌+◌};

use crate::common::text;
use crate::decisions::{add, after_both, by_reply, dep, list, plain, request};
use cluster_defs::request::WholeRequest;
use cluster_types::text::Text;
use cluster_types::verdict::Verdict;
use std::alloc::Global;
use std::marker::Brand;
use std::process::Abort;
use std::sync::ledger::{Blank, Ledger};
use task_graph::steps::Steps;
use task_table::tasks::Tasks;

/// A Submit that waits for a task.
fn waiting_for<R: Abort>(rt: &R, alloc: Global, id: &str) -> WholeRequest {
    let mut after = dep(alloc, false);
    list(rt, alloc, &mut after, id);
    request(rt, alloc, after, dep(alloc, false))
}

/// The tasks `x` and `y`, and a thousand more: three that wait for `x`, and all others for `y`.
fn a_thousand<R: Abort>(rt: &R, alloc: Global) -> Tasks {
    let mut tasks = Tasks::new(alloc);
    add(rt, alloc, &mut tasks, "x", plain(rt, alloc));
    add(rt, alloc, &mut tasks, "y", plain(rt, alloc));
    for number in 0..1000u32 {
        let id = number.to_string(alloc).expect(rt, "memory is ample");
        let awaited = if number % 400 == 7 { "x" } else { "y" };
        let request = waiting_for(rt, alloc, awaited);
        add(rt, alloc, &mut tasks, id.as_str(), request);
    }
    tasks
}

/// Settles a task on which three wait, in at most four steps. It tells whether so many wait.
fn settle_with_three<L: Ledger, R: Abort>(
    rt: &R,
    tasks: &mut Tasks,
    id: &Text,
    steps: &mut Steps<L>,
) -> bool
    ensures { steps.new ≤ steps.old + 4 }
{
    let waiting = tasks.waiting_for(id).expect(rt, "memory is ample");
    if waiting.len() != 3 {
        return false;
    }
    tasks
        .settle(id, by_reply(Verdict::Completed, 0), None, steps)
        .expect(rt, "memory is ample");
    true
}

/// Whether three of the thousand wait for `x`, and none once it is settled.
fn three_of_a_thousand<L: Ledger, R: Abort>(rt: &R, alloc: Global, blank: Blank) -> bool
    requires name { blank.name ≡ L.name }
    requires parts { blank.parts ≡ L.parts }
    requires some { 0 < blank.parts }
{
    let x = text(rt, alloc, "x");
    let mut tasks = a_thousand(rt, alloc);
    let mut steps = Steps::<L>::new(blank);
    let three = settle_with_three(rt, &mut tasks, &x, &mut steps);
    let settled = tasks.find(&x).is_some_and(|task| task.settled().is_some());
    three && settled
}

#[test]
fn a_settle_takes_four_steps_of_a_thousand(rt: HostRuntime) {
    let alloc = rt.alloc();
    assert!(rt; three_of_a_thousand::<Brand, HostRuntime>(&rt, alloc, Blank::new(1)));
}

/// Whether a settle of `x` frees the tasks at these places.
fn freed_are<R: Abort>(
    rt: &R,
    alloc: Global,
    tasks: &Tasks,
    verdict: Verdict,
    met: &[usize],
    dead: &[usize],
) -> bool {
    let freed = tasks
        .freed(&text(rt, alloc, "x"), by_reply(verdict, 0))
        .expect(rt, "memory is ample");
    freed.met.as_slice() == met && freed.dead.as_slice() == dead
}

#[test]
fn a_settle_frees_those_that_wait(rt: HostRuntime) {
    let alloc = rt.alloc();
    let mut tasks = Tasks::new(alloc);
    add(&rt, alloc, &mut tasks, "x", plain(&rt, alloc));
    add(&rt, alloc, &mut tasks, "y", plain(&rt, alloc));
    add(&rt, alloc, &mut tasks, "a", waiting_for(&rt, alloc, "x"));
    add(&rt, alloc, &mut tasks, "b", after_both(&rt, alloc, false));
    add(&rt, alloc, &mut tasks, "c", waiting_for(&rt, alloc, "y"));
    assert!(rt; freed_are(&rt, alloc, &tasks, Verdict::Completed, &[2], &[]));
    assert!(rt; freed_are(&rt, alloc, &tasks, Verdict::Failed, &[], &[2, 3]));
}
