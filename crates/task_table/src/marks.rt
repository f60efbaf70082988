//! Sets of places of tasks, by which what is due is found without a look at all tasks. A place that is put into the sets
//! may change, whatever the change.

ghost use Rattle.std.specs.Prelude.{[], OnOk};
ghost use Rattle.task_table.specs.Marking.{Marked, HasAt, HasAll, Woken, AllWoken, AllGrow};

use place_sets::lanes::Lanes;
use place_sets::places::add;
use std::alloc::{AllocError, Global};
use std::collections::BTreeSet;

/// Places of tasks, each set with all that it is for, and maybe more.
pub struct Marks {
    /// Of those whose attempts are over.
    pub finals: BTreeSet<usize>,
    /// Of the direct requests that were not handed out.
    pub directs: BTreeSet<usize>,
    /// Of those with a current attempt.
    pub running: BTreeSet<usize>,
    /// Of the Submits that may run, but those that are in the lane of each engine where they may.
    pub free: BTreeSet<usize>,
    /// For each engine, of Submits with targets and of such as follow: those that may run there.
    pub lanes: Lanes,
    /// Of the Submits that may fail without an attempt, but those that are in the two lanes below.
    pub doubtful: BTreeSet<usize>,
    /// For each engine, of Submits that may run for good as long as it is live.
    pub watches: Lanes,
    /// For each moment, in milliseconds, of the Submits that are past their timeout from it on.
    pub deadlines: Lanes,
    /// Which engines ended, as far as that was noted: others are looked at first where one is to be watched.
    pub ended: Vec<bool>,
}

// Written out, so that what lets one go is proved over one call, and not case by case.
impl Drop for Marks {
    fn drop(self) {
        let Marks {
            finals,
            directs,
            running,
            free,
            lanes,
            doubtful,
            watches,
            deadlines,
            ended,
        } = self;
        drop(finals);
        drop(directs);
        drop(running);
        drop(free);
        drop(lanes);
        drop(doubtful);
        drop(watches);
        drop(deadlines);
        drop(ended);
    }
}

/// No places. It takes no memory.
pub fn no_marks(alloc: Global) -> Marks
    ensures { Marked [] result }
{
    Marks {
        finals: BTreeSet::new(alloc),
        directs: BTreeSet::new(alloc),
        running: BTreeSet::new(alloc),
        free: BTreeSet::new(alloc),
        lanes: Lanes::new(alloc),
        doubtful: BTreeSet::new(alloc),
        watches: Lanes::new(alloc),
        deadlines: Lanes::new(alloc),
        ended: Vec::new(alloc),
    }
}

/// Adds a place to the sets that hang on how other tasks were settled.
fn wake(marks: &mut Marks, place: usize) -> Result<(), AllocError>
    ensures there { OnOk result (Woken place marks.new) }
    ensures grow { AllGrow marks.old marks.new }
{
    add(&mut marks.free, place)?;
    add(&mut marks.doubtful, place)?;
    Ok(())
}

/// Adds some places to the sets that hang on how other tasks were settled.
pub fn wake_all(marks: &mut Marks, places: &[usize]) -> Result<(), AllocError>
    ensures there { OnOk result (AllWoken places.now marks.new) }
    ensures grow { AllGrow marks.old marks.new }
{
    for place in places {
        wake(marks, *place)?;
    }
    Ok(())
}

/// Adds a place to each set: what is at it may change then.
pub fn mark(marks: &mut Marks, place: usize) -> Result<(), AllocError>
    ensures there { OnOk result (HasAt place marks.new) }
    ensures grow { AllGrow marks.old marks.new }
{
    add(&mut marks.finals, place)?;
    add(&mut marks.directs, place)?;
    add(&mut marks.running, place)?;
    add(&mut marks.free, place)?;
    add(&mut marks.doubtful, place)?;
    Ok(())
}

/// Adds some places to each set.
pub fn mark_all(marks: &mut Marks, places: &[usize]) -> Result<(), AllocError>
    ensures there { OnOk result (HasAll places.now marks.new) }
    ensures grow { AllGrow marks.old marks.new }
{
    for place in places {
        mark(marks, *place)?;
    }
    Ok(())
}
