//! The records of all tasks, as questions are answered off them.

ghost use Rattle.std.specs.Prelude.{◌≡◌, map, option_map};
ghost use Rattle.cluster_types.specs.Records.{AreRecords};
ghost use Rattle.place_sets.specs.Counts.{count_of};
ghost use Rattle.cluster_state.specs.Stands.{plain};
ghost use Rattle.entry_outs.specs.Reached.{Reached};
ghost use Rattle.entry_outs.specs.Shown.{LoadsShown};

use cluster_state::state::State;
use cluster_types::record::{Record, Records};
use cluster_types::text::Text;
use hub_queries::lengths::{Lengths, QueueCounts};
use place_sets::counts::count;
use task_table::tasks::Tasks;

/// The records of all tasks of a cluster, in order of number.
#[derive(Drop)]
pub struct Rows<'a> {
    tasks: &'a Tasks,
    ghost sound: { AreRecords (map (λ t. t.row) tasks.now) },
    ghost shown: { LoadsShown tasks.now },
}

/// The count of a number, where there are counts.
fn kept(counts: &Option<Vec<u32>>, number: u32) -> Option<u32>
    ensures { result ≡ option_map (λ counts. count_of counts.items number) counts.now }
{
    match counts {
        Some(counts) => Some(count(counts, number)),
        None => None,
    }
}

impl<'a> Rows<'a> {
    ghost use Rattle.entry_outs.specs.Rows.{rows};

    /// Those of the tasks of a state.
    pub fn new(state: &'a State) -> Rows<'a>
        requires { Reached (plain state.now) }
        ensures { rows result ≡ map (λ t. t.row) state.now.tasks }
    {
        Rows {
            tasks: &state.tasks,
        }
    }
}

impl<'a> Records for Rows<'a> {
    ghost use Rattle.std.specs.Prelude.{map};

    ghost records = { λ r. map (λ t. t.row) r.tasks.now };

    ghost sound = { λ r. r.sound };

    fn count(&self) -> usize {
        self.tasks.len()
    }

    fn at(&self, place: usize) -> Option<&Record> {
        match self.tasks.as_slice().get(place) {
            Some(task) => Some(task.row()),
            None => None,
        }
    }

    fn find(&self, id: &Text) -> Option<&Record> {
        match self.tasks.find(id) {
            Some(task) => Some(task.row()),
            None => None,
        }
    }
}

impl<'a> QueueCounts for Rows<'a> {
    fn waiting(&self) -> Option<u32> {
        let tallies = self.tasks.tallies();
        kept(&tallies.unassigned, 0)
    }

    fn queue(&self, engine: u32) -> Option<Lengths> {
        let tallies = self.tasks.tallies();
        let queue = kept(&tallies.directs, engine)?;
        let completed = kept(&tallies.finished, engine)?;
        let tasks = kept(&tallies.loads, engine)?;
        Some(Lengths {
            queue,
            completed,
            tasks,
        })
    }
}
