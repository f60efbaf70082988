//! How many tasks run, finished or wait, by engine.

ghost use Rattle.std.specs.Prelude.{◌≡◌, [], IfOk, OnOk, OnErr};
ghost use Rattle.task_table.specs.Tallying.{direct_on, finished_on, waiting_at, classes, no_classes, classes_at, AllTold, no_tallies, Followed, AllLess, AllMore};

use crate::loads::loaded;
use crate::table::Table;
use crate::task::Task;
use cluster_types::record::Record;
use place_sets::counts::moved;
use std::alloc::{AllocError, Global};

/// The numbers at which a task is counted, by class.
#[derive(Clone, Copy, Debug, PartialEq, Eq)]
pub struct Classes {
    /// The engine that a Submit runs on.
    pub loads: Option<u32>,
    /// The engine that a Direct runs on.
    pub directs: Option<u32>,
    /// The engine that a task finished on, where it isn't purged.
    pub finished: Option<u32>,
    /// 0, where a Submit waits without an engine.
    pub unassigned: Option<u32>,
}

/// How many tasks are counted at each number, by class. There are no counts of a class where a change failed half-way.
pub struct Tallies {
    pub loads: Option<Vec<u32>>,
    pub directs: Option<Vec<u32>>,
    pub finished: Option<Vec<u32>>,
    /// All are counted at number 0.
    pub unassigned: Option<Vec<u32>>,
}

// Written out, so that what lets one go is proved over one call, and not case by case.
impl Drop for Tallies {
    fn drop(self) {
        let Tallies {
            loads,
            directs,
            finished,
            unassigned,
        } = self;
        drop(loads);
        drop(directs);
        drop(finished);
        drop(unassigned);
    }
}

/// The engine that a Direct runs on.
fn direct_on(task: &Record) -> Option<u32>
    ensures { result ≡ direct_on task.now }
{
    if task.running && task.direct {
        task.engine
    } else {
        None
    }
}

/// The engine that a task finished on, where it isn't purged.
fn finished_on(task: &Record) -> Option<u32>
    ensures { result ≡ finished_on task.now }
{
    if task.settled.is_some() && !task.purged {
        task.engine
    } else {
        None
    }
}

/// The number at which a task that waits without an engine is counted.
fn waiting_at(task: &Record) -> Option<u32>
    ensures { result ≡ waiting_at task.now }
{
    if task.settled.is_none() && !task.running && !task.direct {
        Some(0)
    } else {
        None
    }
}

/// Where a task is counted.
pub fn classes_of(task: &Task) -> Classes
    ensures { result ≡ classes task.now }
{
    let row = task.row();
    Classes {
        loads: loaded(task),
        directs: direct_on(row),
        finished: finished_on(row),
        unassigned: waiting_at(row),
    }
}

/// Where no task is counted.
pub fn no_classes() -> Classes
    ensures { result ≡ no_classes }
{
    Classes {
        loads: None,
        directs: None,
        finished: None,
        unassigned: None,
    }
}

/// Where the task at a place is counted.
pub fn classes_at(table: &Table, place: usize) -> Classes
    ensures { result ≡ classes_at table.now place }
{
    match table.as_slice().get(place) {
        Some(task) => classes_of(task),
        None => no_classes(),
    }
}

impl Tallies {
    /// Those of no tasks. It takes no memory.
    pub fn new(alloc: Global) -> Tallies
        ensures { AllTold [] result }
    {
        Tallies {
            loads: Some(Vec::new(alloc)),
            directs: Some(Vec::new(alloc)),
            finished: Some(Vec::new(alloc)),
            unassigned: Some(Vec::new(alloc)),
        }
    }

    /// Takes the counts out, and leaves none.
    pub fn take(&mut self) -> Tallies
        ensures value { result ≡ self.old }
        ensures after { self.new ≡ no_tallies }
    {
        Tallies {
            loads: self.loads.take(),
            directs: self.directs.take(),
            finished: self.finished.take(),
            unassigned: self.unassigned.take(),
        }
    }

    /// The counts, once a task that was counted at some numbers is counted at others.
    fn followed(self, before: Classes, after: Classes) -> Result<Tallies, AllocError>
        ensures { IfOk result (λ new. Followed self before after new) }
    {
        let Tallies {
            loads,
            directs,
            finished,
            unassigned,
        } = self;
        Ok(Tallies {
            loads: moved(loads, before.loads, after.loads)?,
            directs: moved(directs, before.directs, after.directs)?,
            finished: moved(finished, before.finished, after.finished)?,
            unassigned: moved(unassigned, before.unassigned, after.unassigned)?,
        })
    }
}

/// The counts without the tasks at some places.
fn without(kept: Tallies, table: &Table, places: &[usize]) -> Result<Tallies, AllocError>
    ensures { IfOk result (λ new. AllLess table.now places.now kept new) }
{
    let mut tallies = kept;
    for place in places {
        tallies = tallies.followed(classes_at(table, *place), no_classes())?;
    }
    Ok(tallies)
}

/// The counts with the tasks at some places.
fn along(rest: Tallies, table: &Table, places: &[usize]) -> Result<Tallies, AllocError>
    ensures { IfOk result (λ new. AllMore table.now places.now rest new) }
{
    let mut tallies = rest;
    for place in places {
        tallies = tallies.followed(no_classes(), classes_at(table, *place))?;
    }
    Ok(tallies)
}

/// Puts the counts that were kept, once a task that was counted at some numbers is counted at others.
pub fn follow(
    tallies: &mut Tallies,
    kept: Tallies,
    before: Classes,
    after: Classes,
) -> Result<(), AllocError>
    ensures ok { OnOk result (Followed kept before after tallies.new) }
    ensures err { OnErr result (tallies.new ≡ tallies.old) }
{
    *tallies = kept.followed(before, after)?;
    Ok(())
}

/// Takes the counts out without the tasks at some places, which are to change, and leaves none.
pub fn set_aside(
    tallies: &mut Tallies,
    table: &Table,
    places: &[usize],
) -> Result<Tallies, AllocError>
    ensures ok { IfOk result (λ rest. AllLess table.now places.now tallies.old rest) }
    ensures after { tallies.new ≡ no_tallies }
{
    without(tallies.take(), table, places)
}

/// Puts the counts that were set aside with the tasks at some places, which have changed.
pub fn take_back(
    tallies: &mut Tallies,
    rest: Tallies,
    table: &Table,
    places: &[usize],
) -> Result<(), AllocError>
    ensures ok { OnOk result (AllMore table.now places.now rest tallies.new) }
    ensures err { OnErr result (tallies.new ≡ tallies.old) }
{
    *tallies = along(rest, table, places)?;
    Ok(())
}
