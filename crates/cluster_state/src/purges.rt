//! Purges.

ghost use Rattle.std.specs.Prelude.{◌≡◌, is_some, IfOk, OnOk};
ghost use Rattle.cluster_defs.specs.Purges.{dropped};
ghost use Rattle.resubmission.specs.Purging.{purging_of};
ghost use Rattle.cluster_state.specs.Plain.{purged_tasks, dropped_by};
ghost use Rattle.cluster_state.specs.Stands.{plain};

use crate::state::State;
use cluster_types::text::Text;
use resubmission::purge::PurgePlan;
use std::alloc::AllocError;
use task_table::tasks::Tasks;

/// Purges tasks one after another.
fn purge_each(tasks: &mut Tasks, ids: &[Text]) -> Result<(), AllocError>
    ensures { OnOk result (tasks.new ≡ purged_tasks ids.now tasks.old) }
{
    for id in ids {
        tasks.purge(id)?;
    }
    Ok(())
}

impl State {
    /// Takes a purge that comes to this, and tells whether it is accepted.
    pub fn take_purge(&mut self, plan: &PurgePlan) -> Result<bool, AllocError>
        ensures told { IfOk result (λ b. b ≡ is_some (dropped (purging_of plan.now))) }
        ensures after { OnOk result (plain self.new ≡ dropped_by (dropped (purging_of plan.now)) (plain self.old)) }
    {
        match plan {
            PurgePlan::Drops(ids) => {
                purge_each(&mut self.tasks, ids.as_slice())?;
                Ok(true)
            }
            _ => Ok(false),
        }
    }
}
