//! All tasks, with what is kept beside them.

ghost use Rattle.std.specs.Prelude.{◌≡◌, ◌<◌, ◌≤◌, ◌+◌, ◌++◌, ◌∷◌, ℕ, List, [], length, map, slice_get, Some, None, false, IfOk, IfErr, IfSome, OnOk, OnErr};
ghost use Rattle.std.specs.Option.{option_copied, option_and_then};
ghost use Rattle.place_sets.specs.Sets.{at_place, places_where};
ghost use Rattle.task_table.specs.Freeing.{newly_met, newly_dead};
ghost use Rattle.task_table.specs.Seen.{handed_to, ended_on, lost_all, replied_with, aborted_out, settled_with, purged_out, seen_in, place_in, changed, on_unsettled};
ghost use Rattle.task_table.specs.Marking.{Marked};
ghost use Rattle.task_table.specs.Loading.{Counts, CountedAnew};
ghost use Rattle.task_table.specs.Tallying.{AllTold};
ghost use Rattle.task_table.specs.Places.{Alike};
ghost use Rattle.task_table.specs.Waiting.{Awaited, LeftAt, ids_of, waiting_on};
ghost use Rattle.task_graph.specs.Listing.{is_waiting, lists, Noted, TakenOut, SameBut, SameWaits};

use crate::freeing::{Freed, freed_of};
use crate::loads::tallied;
use crate::marks::{Marks, mark, mark_all, no_marks, wake_all};
use crate::table::Table;
use crate::tallies::{Tallies, classes_at, classes_of, follow, no_classes, set_aside, take_back};
use crate::task::Task;
use crate::tidying::{tidy, tidy_all, tidy_waiting_all};
use cluster_defs::attempt::Ending;
use cluster_defs::settled::Settled;
use cluster_types::shared_message::SharedMessage;
use cluster_types::text::Text;
use place_sets::flags::set;
use place_sets::places::members;
use std::alloc::{AllocError, Global};
use std::marker::{Brand, Model};
use std::sync::ledger::{Blank, Ledger};
use task_graph::steps::Steps;
use task_graph::waiters::Waiters;

/// All tasks in order of number, which contracts see as a list. A task is found by its id without a search, and those of
/// which something may be due without a look at the others. After a change that answers want of memory they are let go with
/// the state, since a change of many may have been made of some.
pub struct Tasks {
    table: Table,
    /// Places of those of which something may be due.
    marks: Marks,
    /// For each id the places of the tasks that aren't settled and list it.
    waiters: Waiters,
    /// How many run, finished or wait, by engine.
    tallies: Tallies,
}

// Written out, so that what lets one go is proved over one call, and not case by case.
impl Drop for Tasks {
    fn drop(self) {
        let Tasks {
            table,
            marks,
            waiters,
            tallies,
        } = self;
        drop(table);
        drop(marks);
        drop(waiters);
        drop(tallies);
    }
}

impl Model for Tasks {
    ghost use Rattle.std.specs.Prelude.{List};
    ghost use Rattle.task_table.specs.Seen.{Seen};
    ghost use Rattle.task_table.specs.Places.{Beside};

    ghost Value = { List Seen };

    ghost view = { λ t. t.table };

    ghost invariant = { λ t. Beside t.table t.marks t.waiters t.tallies };
}

// Each change of a task: its place is put into all sets, the task is changed, and its place is taken out of the sets that
// aren't for it any more. So the sets have all that they are for whatever the change, and where it fails too.

fn hand_in(
    table: &mut Table,
    marks: &mut Marks,
    place: usize,
    engine: u32,
) -> Result<(), AllocError>
    requires { Marked table.old marks.old }
    ensures ok { OnOk result (table.new ≡ at_place (handed_to engine) place table.old) }
    ensures same { Alike table.old table.new }
    ensures marked { Marked table.new marks.new }
{
    mark(marks, place)?;
    table.hand_at(place, engine);
    tidy(table, marks, place);
    Ok(())
}

/// How the task at a place is settled, and the outcome that is kept for it.
#[derive(Drop)]
struct Settlement {
    place: usize,
    settled: Settled,
    outcome: Option<SharedMessage>,
}

/// Settles the task of an id, with the places of all tasks that wait on it: what is due of these may change. The settle is a
/// step, and so is the look at each of those.
fn settle_in<L: Ledger>(
    table: &mut Table,
    marks: &mut Marks,
    id: &Text,
    waiting: &[usize],
    settlement: Settlement,
    steps: &mut Steps<L>,
) -> Result<(), AllocError>
    requires marked { Marked table.old marks.old }
    requires place { place_in id.now table.old ≡ Some settlement.place }
    requires waiting { Awaited id.now table.old waiting.now }
    ensures ok { OnOk result (table.new ≡ at_place (settled_with settlement.settled settlement.outcome) settlement.place table.old) }
    ensures err { OnErr result (table.new ≡ table.old) }
    ensures marked { Marked table.new marks.new }
    ensures cost { steps.new ≤ steps.old + (1 + length waiting.now) }
{
    let place = settlement.place;
    mark(marks, place)?;
    wake_all(marks, waiting)?;
    table.settle_at(place, settlement.settled, settlement.outcome, steps);
    tidy(table, marks, place);
    tidy_waiting_all(table, marks, waiting, steps);
    Ok(())
}

fn purge_in(table: &mut Table, marks: &mut Marks, place: usize) -> Result<(), AllocError>
    requires { Marked table.old marks.old }
    ensures ok { OnOk result (table.new ≡ at_place purged_out place table.old) }
    ensures same { Alike table.old table.new }
    ensures marked { Marked table.new marks.new }
{
    mark(marks, place)?;
    table.purge_at(place);
    tidy(table, marks, place);
    Ok(())
}

fn abort_in(table: &mut Table, marks: &mut Marks, place: usize) -> Result<(), AllocError>
    requires { Marked table.old marks.old }
    ensures ok { OnOk result (table.new ≡ at_place aborted_out place table.old) }
    ensures same { Alike table.old table.new }
    ensures marked { Marked table.new marks.new }
{
    mark(marks, place)?;
    table.abort_at(place);
    tidy(table, marks, place);
    Ok(())
}

fn take_reply_in(
    table: &mut Table,
    marks: &mut Marks,
    place: usize,
    header: &Text,
    how: Ending,
    reply: SharedMessage,
) -> Result<(), AllocError>
    requires { Marked table.old marks.old }
    ensures ok { OnOk result (table.new ≡ at_place (replied_with header.now how reply) place table.old) }
    ensures same { Alike table.old table.new }
    ensures marked { Marked table.new marks.new }
{
    mark(marks, place)?;
    table.take_reply_at(place, header, how, reply)?;
    tidy(table, marks, place);
    Ok(())
}

/// Has the places of tasks that were watched by an engine that ended watched by others, where there are any.
fn watch_anew<L: Ledger>(
    table: &Table,
    marks: &mut Marks,
    engine: u32,
    blank: Blank,
) -> Result<(), AllocError>
    requires name { blank.name ≡ L.name }
    requires parts { blank.parts ≡ L.parts }
    requires some { 0 < blank.parts }
    requires marked { Marked table.now marks.old }
    ensures { Marked table.now marks.new }
{
    let mut steps = Steps::<L>::new(blank);
    let _ = set(&mut marks.ended, engine);
    let places = marks.watches.places(table.allocator(), u64::from(engine))?;
    wake_all(marks, &places)?;
    tidy_waiting_all(table, marks, &places, &mut steps);
    Ok(())
}

/// Ends the attempts of unsettled tasks on an engine.
fn end_in(table: &mut Table, marks: &mut Marks, engine: u32) -> Result<(), AllocError>
    requires { Marked table.old marks.old }
    ensures ok { OnOk result (table.new ≡ map (on_unsettled (ended_on engine)) table.old) }
    ensures same { Alike table.old table.new }
    ensures marked { Marked table.new marks.new }
{
    let places = members(table.allocator(), &marks.running)?;
    mark_all(marks, &places)?;
    table.end_all(&places, engine)?;
    tidy_all(table, marks, &places);
    watch_anew::<Brand>(table, marks, engine, Blank::new(1))
}

/// Ends the attempts of all unsettled tasks, by an Open.
fn lose_in(table: &mut Table, marks: &mut Marks) -> Result<(), AllocError>
    requires { Marked table.old marks.old }
    ensures ok { OnOk result (table.new ≡ map (on_unsettled lost_all) table.old) }
    ensures same { Alike table.old table.new }
    ensures marked { Marked table.new marks.new }
{
    let places = members(table.allocator(), &marks.running)?;
    mark_all(marks, &places)?;
    table.lose_each(&places)?;
    tidy_all(table, marks, &places);
    Ok(())
}

/// Counts the Submits that run on each engine.
fn counted_in(table: &Table, marks: &Marks) -> Result<Option<Vec<u32>>, AllocError>
    requires { Marked table.now marks.now }
    ensures { IfOk result (λ counts. CountedAnew table.now counts) }
{
    let alloc = table.allocator();
    let places = members(alloc, &marks.running)?;
    tallied(alloc, table, &places)
}

/// Notes that the task at a place waits for the ids that it lists. Where memory is wanting that may be noted of some.
fn note_waits(waiters: &mut Waiters, task: &Task, place: usize) -> Result<(), AllocError>
    ensures ok { OnOk result (Noted (lists (ids_of task.now.request)) place waiters.old waiters.new) }
    ensures err { OnErr result (SameBut (lists (ids_of task.now.request)) place waiters.old waiters.new) }
{
    let request = task.request();
    waiters.add_all(request.after.ids.as_slice(), place)?;
    waiters.add_all(request.follow.ids.as_slice(), place)?;
    Ok(())
}

/// Takes out that the task at a place waits for the ids that it lists.
fn forget_waits(waiters: &mut Waiters, task: &Task, place: usize)
    ensures { TakenOut (lists (ids_of task.now.request)) place waiters.old waiters.new }
{
    let request = task.request();
    waiters.take_out_all(request.after.ids.as_slice(), place);
    waiters.take_out_all(request.follow.ids.as_slice(), place);
}

/// Takes the task at a place out of the ids that it lists.
fn leave_waits(table: &Table, waiters: &mut Waiters, place: usize)
    ensures { LeftAt table.now place waiters.old waiters.new }
{
    if let Some(task) = table.as_slice().get(place) {
        forget_waits(waiters, task, place);
    }
}

/// Notes that a task waits for the ids that it lists, whose place waits for none yet. Where memory is wanting nothing is noted.
fn note_new(waiters: &mut Waiters, task: &Task, place: usize) -> Result<(), AllocError>
    requires { (j : List ℕ) → is_waiting waiters.old j place ≡ false }
    ensures ok { OnOk result (Noted (lists (ids_of task.now.request)) place waiters.old waiters.new) }
    ensures err { OnErr result (SameWaits waiters.old waiters.new) }
{
    if let Err(error) = note_waits(waiters, task, place) {
        forget_waits(waiters, task, place);
        return Err(error);
    }
    Ok(())
}

/// Puts a task at the end, or gives it back where memory is wanting.
fn push_onto(table: &mut Table, marks: &mut Marks, task: Task) -> Result<(), Task>
    requires marked { Marked table.old marks.old }
    requires unsettled { task.settled ≡ None }
    ensures ok { OnOk result (table.new ≡ table.old ++ task ∷ []) }
    ensures err { OnErr result (table.new ≡ table.old) }
    ensures back { IfErr result (λ t. t ≡ task) }
    ensures marked { Marked table.new marks.new }
{
    let place = table.len();
    match mark(marks, place) {
        Ok(()) => {
            table.push(task)?;
            tidy(table, marks, place);
            Ok(())
        }
        Err(_) => Err(task),
    }
}

/// Puts a task at the end that was noted with the ids that it lists. Where memory is wanting it is taken out of them.
fn push_noted(
    table: &mut Table,
    marks: &mut Marks,
    waiters: &mut Waiters,
    task: Task,
) -> Result<(), AllocError>
    requires marked { Marked table.old marks.old }
    requires unsettled { task.settled ≡ None }
    ensures ok { OnOk result (table.new ≡ table.old ++ task ∷ []) }
    ensures err { OnErr result (table.new ≡ table.old) }
    ensures marked { Marked table.new marks.new }
    ensures noted { OnOk result (waiters.new ≡ waiters.old) }
    ensures forgotten { OnErr result (TakenOut (lists (ids_of task.request)) (length table.old) waiters.old waiters.new) }
{
    let place = table.len();
    match push_onto(table, marks, task) {
        Ok(()) => Ok(()),
        Err(task) => {
            forget_waits(waiters, &task, place);
            Err(AllocError)
        }
    }
}

impl Tasks {
    /// No tasks. It takes no memory.
    pub fn new(alloc: Global) -> Tasks
        ensures { result ≡ [] }
    {
        Tasks {
            table: Table::new(alloc),
            marks: no_marks(alloc),
            waiters: Waiters::new(alloc),
            tallies: Tallies::new(alloc),
        }
    }

    /// How many there are.
    pub fn len(&self) -> usize
        ensures { result ≡ length self.now }
    {
        self.table.len()
    }

    /// All of them, in order of number.
    pub fn as_slice(&self) -> &[Task]
        ensures { result.now ≡ self.now }
    {
        self.table.as_slice()
    }

    /// All of them, by place and by id.
    pub fn table(&self) -> &Table
        ensures { result.now ≡ self.now }
    {
        &self.table
    }

    /// Places of those of which something may be due.
    pub fn marks(&self) -> &Marks
        ensures { Marked self.now result.now }
    {
        &self.marks
    }

    /// The task at a place.
    pub fn at(&self, place: Option<usize>) -> Option<&Task>
        ensures { option_copied result ≡ option_and_then (slice_get self.now) place }
    {
        self.table.at(place)
    }

    /// The task of an id.
    pub fn find(&self, id: &Text) -> Option<&Task>
        ensures { option_copied result ≡ seen_in self.now id.now }
    {
        self.table.find(id)
    }

    /// Adds a task, which isn't settled.
    pub fn push(&mut self, task: Task) -> Result<(), AllocError>
        requires { task.settled ≡ None }
        ensures { OnOk result (self.new ≡ self.old ++ task ∷ []) }
    {
        let place = self.table.len();
        let after = classes_of(&task);
        let kept = self.tallies.take();
        note_new(&mut self.waiters, &task, place)?;
        push_noted(&mut self.table, &mut self.marks, &mut self.waiters, task)?;
        follow(&mut self.tallies, kept, no_classes(), after)
    }

    /// Begins an attempt of a task on an engine.
    pub fn hand(&mut self, id: &Text, engine: u32) -> Result<(), AllocError>
        ensures { OnOk result (self.new ≡ changed id.now (handed_to engine) self.old) }
    {
        if let Some(place) = self.table.place_of(id) {
            let before = classes_at(&self.table, place);
            let kept = self.tallies.take();
            hand_in(&mut self.table, &mut self.marks, place, engine)?;
            follow(
                &mut self.tallies,
                kept,
                before,
                classes_at(&self.table, place),
            )?;
        }
        Ok(())
    }

    /// Takes a valid reply to a task, with its header id.
    pub fn take_reply(
        &mut self,
        id: &Text,
        header: &Text,
        how: Ending,
        reply: SharedMessage,
    ) -> Result<(), AllocError>
        ensures { OnOk result (self.new ≡ changed id.now (replied_with header.now how reply) self.old) }
    {
        if let Some(place) = self.table.place_of(id) {
            let before = classes_at(&self.table, place);
            let kept = self.tallies.take();
            take_reply_in(&mut self.table, &mut self.marks, place, header, how, reply)?;
            follow(
                &mut self.tallies,
                kept,
                before,
                classes_at(&self.table, place),
            )?;
        }
        Ok(())
    }

    /// The places of the tasks that aren't settled and list an id, ascending.
    pub fn waiting_for(&self, id: &Text) -> Result<Vec<usize>, AllocError>
        ensures { IfOk result (λ v. v.items ≡ waiting_on id.now self.now) }
    {
        let places = self.waiters.of(id)?;
        Ok(places)
    }

    /// The places of the tasks of which a settle newly makes met what they wait for, and of those of which it newly makes that
    /// unreachable.
    pub fn freed(&self, id: &Text, settled: Settled) -> Result<Freed, AllocError>
        ensures met { IfOk result (λ f. f.met.items ≡ places_where (newly_met id.now settled self.now) self.now) }
        ensures dead { IfOk result (λ f. f.dead.items ≡ places_where (newly_dead id.now settled self.now) self.now) }
    {
        let waiting = self.waiting_for(id)?;
        let freed = freed_of(&self.table, id, settled, &waiting)?;
        Ok(freed)
    }

    /// Settles a task. The settle is a step, and so is the look at each task that isn't settled and lists it.
    pub fn settle<L: Ledger>(
        &mut self,
        id: &Text,
        settled: Settled,
        outcome: Option<SharedMessage>,
        steps: &mut Steps<L>,
    ) -> Result<(), AllocError>
        ensures ok { OnOk result (self.new ≡ changed id.now (settled_with settled outcome) self.old) }
        ensures cost { steps.new ≤ steps.old + (1 + length (waiting_on id.now self.old)) }
    {
        if let Some(place) = self.table.place_of(id) {
            let waiting = self.waiters.of(id)?;
            let before = classes_at(&self.table, place);
            let kept = self.tallies.take();
            let settlement = Settlement {
                place,
                settled,
                outcome,
            };
            settle_in(
                &mut self.table,
                &mut self.marks,
                id,
                &waiting,
                settlement,
                steps,
            )?;
            leave_waits(&self.table, &mut self.waiters, place);
            follow(
                &mut self.tallies,
                kept,
                before,
                classes_at(&self.table, place),
            )?;
        }
        Ok(())
    }

    /// Lets the outcome of a task go.
    pub fn purge(&mut self, id: &Text) -> Result<(), AllocError>
        ensures { OnOk result (self.new ≡ changed id.now purged_out self.old) }
    {
        if let Some(place) = self.table.place_of(id) {
            let before = classes_at(&self.table, place);
            let kept = self.tallies.take();
            purge_in(&mut self.table, &mut self.marks, place)?;
            follow(
                &mut self.tallies,
                kept,
                before,
                classes_at(&self.table, place),
            )?;
        }
        Ok(())
    }

    /// Takes a task back, for an abort.
    pub fn abort(&mut self, id: &Text) -> Result<(), AllocError>
        ensures { OnOk result (self.new ≡ changed id.now aborted_out self.old) }
    {
        if let Some(place) = self.table.place_of(id) {
            let before = classes_at(&self.table, place);
            let kept = self.tallies.take();
            abort_in(&mut self.table, &mut self.marks, place)?;
            follow(
                &mut self.tallies,
                kept,
                before,
                classes_at(&self.table, place),
            )?;
        }
        Ok(())
    }

    /// Ends the attempts of unsettled tasks on an engine.
    pub fn end_on(&mut self, engine: u32) -> Result<(), AllocError>
        ensures { OnOk result (self.new ≡ map (on_unsettled (ended_on engine)) self.old) }
    {
        let places = members(self.table.allocator(), &self.marks.running)?;
        let rest = set_aside(&mut self.tallies, &self.table, &places)?;
        end_in(&mut self.table, &mut self.marks, engine)?;
        take_back(&mut self.tallies, rest, &self.table, &places)
    }

    /// Ends the attempts of all unsettled tasks, by an Open.
    pub fn lose_all(&mut self) -> Result<(), AllocError>
        ensures { OnOk result (self.new ≡ map (on_unsettled lost_all) self.old) }
    {
        let places = members(self.table.allocator(), &self.marks.running)?;
        let rest = set_aside(&mut self.tallies, &self.table, &places)?;
        lose_in(&mut self.table, &mut self.marks)?;
        take_back(&mut self.tallies, rest, &self.table, &places)
    }

    /// How many Submits run on each engine, where that was kept.
    pub fn counts(&self) -> Option<&Vec<u32>>
        ensures { IfSome result (λ counts. Counts self.now counts.now.items) }
    {
        self.tallies.loads.as_ref()
    }

    /// How many run, finished or wait, by engine.
    pub fn tallies(&self) -> &Tallies
        ensures { AllTold self.now result.now }
    {
        &self.tallies
    }

    /// How many Submits run on each engine, counted anew. There is no answer only where a load is past the end of its
    /// 32 bits.
    pub fn counted(&self) -> Result<Option<Vec<u32>>, AllocError>
        ensures { IfOk result (λ counts. CountedAnew self.now counts) }
    {
        counted_in(&self.table, &self.marks)
    }
}
