//! What is taken out of the sets of places after a change: each place of a task that a set isn't for. A place stays where
//! memory is wanting to put it into a lane.

ghost use Rattle.std.specs.Prelude.{◌≡◌, ◌+◌, length};
ghost use Rattle.place_sets.specs.Sets.{Covers};
ghost use Rattle.task_table.specs.Standing.{final_at, direct_at, runs_open};
ghost use Rattle.task_table.specs.Marking.{Marked};

use crate::laning::{is_laned, is_timed, is_watched};
use crate::marks::Marks;
use crate::standing::{is_direct_at, is_final_at, runs_open_at};
use crate::table::Table;
use place_sets::places::{has, leave_out};
use std::collections::BTreeSet;
use std::sync::ledger::Ledger;
use task_graph::steps::Steps;

#[tactic(auto, using(place_sets::proofs::Covering::covers_without))]
fn tidy_finals(table: &Table, set: &mut BTreeSet<usize>, place: usize)
    requires { Covers final_at table.now set.old }
    ensures { Covers final_at table.now set.new }
{
    if !is_final_at(table.as_slice(), place) {
        leave_out(set, place);
    }
}

#[tactic(auto, using(place_sets::proofs::Covering::covers_without))]
fn tidy_directs(table: &Table, set: &mut BTreeSet<usize>, place: usize)
    requires { Covers direct_at table.now set.old }
    ensures { Covers direct_at table.now set.new }
{
    if !is_direct_at(table.as_slice(), place) {
        leave_out(set, place);
    }
}

#[tactic(auto, using(place_sets::proofs::Covering::covers_without))]
fn tidy_running(table: &Table, set: &mut BTreeSet<usize>, place: usize)
    requires { Covers runs_open table.now set.old }
    ensures { Covers runs_open table.now set.new }
{
    if !runs_open_at(table.as_slice(), place) {
        leave_out(set, place);
    }
}

/// Takes a place out of the set of those that may run, where its task doesn't or is in the lane of each engine where it
/// may.
fn tidy_free(table: &Table, marks: &mut Marks, place: usize)
    requires { Marked table.now marks.old }
    ensures { Marked table.now marks.new }
{
    if is_laned(table, &mut marks.lanes, place) {
        leave_out(&mut marks.free, place);
    }
}

/// Takes a place out of the set of those that may fail, where its task doesn't as long as an engine is live and a moment
/// isn't come, in whose lanes it is then.
fn tidy_doubtful(table: &Table, marks: &mut Marks, place: usize)
    requires { Marked table.now marks.old }
    ensures { Marked table.now marks.new }
{
    if has(&marks.doubtful, place) {
        let watched = is_watched(table, &mut marks.watches, &marks.ended, place);
        let timed = is_timed(table, &mut marks.deadlines, place);
        if watched && timed {
            leave_out(&mut marks.doubtful, place);
        }
    }
}

/// Takes a place out of the sets that hang on how other tasks were settled, where they aren't for it. It is a step.
fn tidy_waiting<L: Ledger>(table: &Table, marks: &mut Marks, place: usize, steps: &mut Steps<L>)
    requires { Marked table.now marks.old }
    ensures marked { Marked table.now marks.new }
    ensures cost { steps.new ≡ steps.old + 1 }
{
    steps.tick();
    tidy_free(table, marks, place);
    tidy_doubtful(table, marks, place);
}

/// Takes some places out of them. Each is a step.
pub fn tidy_waiting_all<L: Ledger>(
    table: &Table,
    marks: &mut Marks,
    places: &[usize],
    steps: &mut Steps<L>,
)
    requires { Marked table.now marks.old }
    ensures marked { Marked table.now marks.new }
    ensures cost { steps.new ≡ steps.old + length places.now }
{
    for place in places {
        tidy_waiting(table, marks, *place, steps);
    }
}

/// Takes a place out of the sets that aren't for it.
pub fn tidy(table: &Table, marks: &mut Marks, place: usize)
    requires { Marked table.now marks.old }
    ensures { Marked table.now marks.new }
{
    tidy_finals(table, &mut marks.finals, place);
    tidy_directs(table, &mut marks.directs, place);
    tidy_running(table, &mut marks.running, place);
    tidy_free(table, marks, place);
    tidy_doubtful(table, marks, place);
}

/// Takes some places out of the sets that aren't for them.
pub fn tidy_all(table: &Table, marks: &mut Marks, places: &[usize])
    requires { Marked table.now marks.old }
    ensures { Marked table.now marks.new }
{
    for place in places {
        tidy(table, marks, *place);
    }
}
