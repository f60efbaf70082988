//! Tasks by place and by id.

ghost use Rattle.std.specs.Prelude.{◌≡◌, ◌++◌, ◌∷◌, ◌<◌, ◌+◌, ℕ, [], length, map, slice_get, Some, None, OnOk, OnErr, IfErr, List, bytes_eq, if◌then◌else◌};
ghost use Rattle.std.specs.HashMap.{get_by_text};
ghost use Rattle.std.specs.Option.{option_copied, option_and_then};
ghost use Rattle.std.specs.Vec.{vec_len, vec_capacity};
ghost use Rattle.place_sets.specs.Sets.{Apart, at_place, at_places};
ghost use Rattle.task_table.specs.Seen.{handed_to, ended_on, lost_all, replied_with, aborted_out, settled_with, purged_out, seen_in, place_in, on_unsettled};
ghost use Rattle.cluster_defs.specs.Words.{or_else};
ghost use Rattle.task_table.specs.Marking.{Aside};
ghost use Rattle.task_table.specs.Places.{Alike, name};

use crate::task::Task;
use cluster_defs::attempt::Ending;
use cluster_defs::settled::Settled;
use cluster_types::shared_message::SharedMessage;
use cluster_types::text::Text;
use std::alloc::{AllocError, Global};
use std::collections::HashMap;
use std::marker::Model;
use std::sync::ledger::Ledger;
use task_graph::steps::Steps;

/// Tasks in order of number, which contracts see as a list. A task is found by its place or its id without a search.
#[derive(Drop)]
pub struct Table {
    tasks: Vec<Task>,
    /// The place of each id.
    places: HashMap<String, usize>,
}

impl Model for Table {
    ghost use Rattle.std.specs.Prelude.{List};
    ghost use Rattle.std.specs.HashMap.{get_by_text};
    ghost use Rattle.task_table.specs.Seen.{Seen};
    ghost use Rattle.task_table.specs.Places.{Placed};

    ghost Value = { List Seen };

    ghost view = { λ t. t.tasks.items };

    ghost invariant = { λ t. Placed t.tasks.items (get_by_text t.places) };
}

/// The place of an id.
fn place_of(places: &HashMap<String, usize>, id: &Text) -> Option<usize>
    ensures { result ≡ get_by_text places.now id.now }
{
    places.get(id.as_str()).copied()
}

fn hand_at(tasks: &mut [Task], place: usize, engine: u32)
    ensures ok { tasks.new ≡ at_place (handed_to engine) place tasks.old }
    ensures same { Alike tasks.old tasks.new }
    ensures apart { Apart place tasks.old tasks.new }
{
    if place < tasks.len() {
        let task = &mut tasks[place];
        task.hand(engine);
    }
}

fn settle_at(tasks: &mut [Task], place: usize, settled: Settled, outcome: Option<SharedMessage>)
    ensures ok { tasks.new ≡ at_place (settled_with settled outcome) place tasks.old }
    ensures names { map name tasks.new ≡ map name tasks.old }
    ensures apart { Apart place tasks.old tasks.new }
{
    if place < tasks.len() {
        let task = &mut tasks[place];
        task.settle(settled, outcome);
    }
}

fn purge_at(tasks: &mut [Task], place: usize)
    ensures ok { tasks.new ≡ at_place purged_out place tasks.old }
    ensures same { Alike tasks.old tasks.new }
    ensures apart { Apart place tasks.old tasks.new }
{
    if place < tasks.len() {
        let task = &mut tasks[place];
        task.purge();
    }
}

fn abort_at(tasks: &mut [Task], place: usize)
    ensures ok { tasks.new ≡ at_place aborted_out place tasks.old }
    ensures same { Alike tasks.old tasks.new }
    ensures apart { Apart place tasks.old tasks.new }
{
    if place < tasks.len() {
        let task = &mut tasks[place];
        task.abort();
    }
}

fn take_reply_at(
    tasks: &mut [Task],
    place: usize,
    header: &Text,
    how: Ending,
    reply: SharedMessage,
) -> Result<(), AllocError>
    ensures ok { OnOk result (tasks.new ≡ at_place (replied_with header.now how reply) place tasks.old) }
    ensures same { Alike tasks.old tasks.new }
    ensures apart { Apart place tasks.old tasks.new }
{
    if place < tasks.len() {
        let task = &mut tasks[place];
        task.take_reply(header, how, reply)?;
    }
    Ok(())
}

fn end_at(tasks: &mut [Task], place: usize, engine: u32) -> Result<(), AllocError>
    ensures ok { OnOk result (tasks.new ≡ at_place (on_unsettled (ended_on engine)) place tasks.old) }
    ensures same { Alike tasks.old tasks.new }
    ensures apart { Apart place tasks.old tasks.new }
{
    if place < tasks.len() {
        let task = &mut tasks[place];
        task.end_on(engine)?;
    }
    Ok(())
}

fn lose_at(tasks: &mut [Task], place: usize) -> Result<(), AllocError>
    ensures ok { OnOk result (tasks.new ≡ at_place (on_unsettled lost_all) place tasks.old) }
    ensures same { Alike tasks.old tasks.new }
    ensures apart { Apart place tasks.old tasks.new }
{
    if place < tasks.len() {
        let task = &mut tasks[place];
        task.lose()?;
    }
    Ok(())
}

/// Ends the attempts of the tasks at some places on an engine.
fn end_all(tasks: &mut [Task], places: &[usize], engine: u32) -> Result<(), AllocError>
    ensures ok { OnOk result (tasks.new ≡ at_places (on_unsettled (ended_on engine)) places.now tasks.old) }
    ensures same { Alike tasks.old tasks.new }
    ensures aside { Aside places.now tasks.old tasks.new }
{
    for place in places {
        end_at(tasks, *place, engine)?;
    }
    Ok(())
}

/// Ends the attempts of the tasks at some places, by an Open.
fn lose_each(tasks: &mut [Task], places: &[usize]) -> Result<(), AllocError>
    ensures ok { OnOk result (tasks.new ≡ at_places (on_unsettled lost_all) places.now tasks.old) }
    ensures same { Alike tasks.old tasks.new }
    ensures aside { Aside places.now tasks.old tasks.new }
{
    for place in places {
        lose_at(tasks, *place)?;
    }
    Ok(())
}

/// Notes the place of an id, which has none yet.
fn note_place(
    places: &mut HashMap<String, usize>,
    alloc: Global,
    id: &Text,
    place: usize,
) -> Result<(), AllocError>
    ensures ok { OnOk result ((j : List ℕ) → get_by_text places.new j ≡ (if bytes_eq id.now j then Some place else get_by_text places.old j)) }
    ensures err { OnErr result ((j : List ℕ) → get_by_text places.new j ≡ get_by_text places.old j) }
{
    let key = String::from_str(alloc, id.as_str())?;
    places.insert(key, place)?;
    Ok(())
}

/// Notes the place of an id, unless it has one.
fn note_first(
    places: &mut HashMap<String, usize>,
    alloc: Global,
    id: &Text,
    place: usize,
) -> Result<(), AllocError>
    ensures ok { OnOk result ((j : List ℕ) → get_by_text places.new j ≡ or_else (get_by_text places.old j) (if bytes_eq id.now j then Some place else None)) }
    ensures err { OnErr result ((j : List ℕ) → get_by_text places.new j ≡ get_by_text places.old j) }
{
    if place_of(places, id).is_none() {
        note_place(places, alloc, id, place)?;
    }
    Ok(())
}

/// Makes room for a task, and notes the place of its id, unless it has one.
fn make_room(
    tasks: &mut Vec<Task>,
    places: &mut HashMap<String, usize>,
    id: &Text,
) -> Result<(), AllocError>
    ensures tasks { tasks.new.items ≡ tasks.old.items }
    ensures room { OnOk result (vec_len tasks.new < vec_capacity tasks.new) }
    ensures ok { OnOk result ((j : List ℕ) → get_by_text places.new j ≡ or_else (get_by_text places.old j) (if bytes_eq id.now j then Some (length tasks.old.items) else None)) }
    ensures err { OnErr result ((j : List ℕ) → get_by_text places.new j ≡ get_by_text places.old j) }
{
    let place = tasks.len();
    let alloc = *tasks.allocator();
    tasks.reserve(1)?;
    note_first(places, alloc, id, place)?;
    Ok(())
}

impl Table {
    /// No tasks. It takes no memory.
    pub fn new(alloc: Global) -> Table
        ensures { result ≡ [] }
    {
        Table {
            tasks: Vec::new(alloc),
            places: HashMap::new(alloc),
        }
    }

    /// The allocator that it takes its memory from.
    pub fn allocator(&self) -> Global {
        *self.tasks.allocator()
    }

    /// How many there are, which is the place of a further one.
    pub fn len(&self) -> usize
        ensures { result ≡ length self.now }
    {
        self.tasks.len()
    }

    /// All of them, in order of number.
    pub fn as_slice(&self) -> &[Task]
        ensures { result.now ≡ self.now }
    {
        self.tasks.as_slice()
    }

    /// The task at a place.
    pub fn at(&self, place: Option<usize>) -> Option<&Task>
        ensures { option_copied result ≡ option_and_then (slice_get self.now) place }
    {
        match place {
            Some(place) => self.tasks.get(place),
            None => None,
        }
    }

    /// The place of an id.
    pub fn place_of(&self, id: &Text) -> Option<usize>
        ensures { result ≡ place_in id.now self.now }
    {
        place_of(&self.places, id)
    }

    /// The task of an id.
    pub fn find(&self, id: &Text) -> Option<&Task>
        ensures { option_copied result ≡ seen_in self.now id.now }
    {
        self.at(self.place_of(id))
    }

    /// Adds a task at the end, or gives it back where memory is wanting.
    pub fn push(&mut self, task: Task) -> Result<(), Task>
        ensures ok { OnOk result (self.new ≡ self.old ++ task ∷ []) }
        ensures err { OnErr result (self.new ≡ self.old) }
        ensures back { IfErr result (λ t. t ≡ task) }
    {
        match make_room(&mut self.tasks, &mut self.places, task.id()) {
            Ok(()) => {
                self.tasks.push_reserved(task);
                Ok(())
            }
            Err(_) => Err(task),
        }
    }

    /// Begins an attempt of the task at a place on an engine.
    pub fn hand_at(&mut self, place: usize, engine: u32)
        ensures ok { self.new ≡ at_place (handed_to engine) place self.old }
        ensures same { Alike self.old self.new }
        ensures apart { Apart place self.old self.new }
    {
        hand_at(&mut self.tasks, place, engine);
    }

    /// Settles the task at a place. It is a step.
    pub fn settle_at<L: Ledger>(
        &mut self,
        place: usize,
        settled: Settled,
        outcome: Option<SharedMessage>,
        steps: &mut Steps<L>,
    )
        ensures ok { self.new ≡ at_place (settled_with settled outcome) place self.old }
        ensures names { map name self.new ≡ map name self.old }
        ensures apart { Apart place self.old self.new }
        ensures cost { steps.new ≡ steps.old + 1 }
    {
        steps.tick();
        settle_at(&mut self.tasks, place, settled, outcome);
    }

    /// Lets the outcome of the task at a place go.
    pub fn purge_at(&mut self, place: usize)
        ensures ok { self.new ≡ at_place purged_out place self.old }
        ensures same { Alike self.old self.new }
        ensures apart { Apart place self.old self.new }
    {
        purge_at(&mut self.tasks, place);
    }

    /// Takes the task at a place back, for an abort.
    pub fn abort_at(&mut self, place: usize)
        ensures ok { self.new ≡ at_place aborted_out place self.old }
        ensures same { Alike self.old self.new }
        ensures apart { Apart place self.old self.new }
    {
        abort_at(&mut self.tasks, place);
    }

    /// Takes a valid reply to the task at a place, with its header id.
    pub fn take_reply_at(
        &mut self,
        place: usize,
        header: &Text,
        how: Ending,
        reply: SharedMessage,
    ) -> Result<(), AllocError>
        ensures ok { OnOk result (self.new ≡ at_place (replied_with header.now how reply) place self.old) }
        ensures same { Alike self.old self.new }
        ensures apart { Apart place self.old self.new }
    {
        take_reply_at(&mut self.tasks, place, header, how, reply)
    }

    /// Ends the attempts of the tasks at some places on an engine.
    pub fn end_all(&mut self, places: &[usize], engine: u32) -> Result<(), AllocError>
        ensures ok { OnOk result (self.new ≡ at_places (on_unsettled (ended_on engine)) places.now self.old) }
        ensures same { Alike self.old self.new }
        ensures aside { Aside places.now self.old self.new }
    {
        end_all(&mut self.tasks, places, engine)
    }

    /// Ends the attempts of the tasks at some places, by an Open.
    pub fn lose_each(&mut self, places: &[usize]) -> Result<(), AllocError>
        ensures ok { OnOk result (self.new ≡ at_places (on_unsettled lost_all) places.now self.old) }
        ensures same { Alike self.old self.new }
        ensures aside { Aside places.now self.old self.new }
    {
        lose_each(&mut self.tasks, places)
    }
}
