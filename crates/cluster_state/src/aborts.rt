//! Aborts.

ghost use Rattle.std.specs.Prelude.{◌≡◌, not, IfOk, OnOk};
ghost use Rattle.cluster_defs.specs.Words.{is_empty};
ghost use Rattle.cluster_defs.specs.Aborts.{taken_back};
ghost use Rattle.resubmission.specs.Aborting.{aborting_of};
ghost use Rattle.cluster_state.specs.Plain.{aborted_tasks, withdrawn_by};
ghost use Rattle.cluster_state.specs.Stands.{plain};

use crate::state::State;
use cluster_types::message::Ids;
use cluster_types::text::Text;
use resubmission::abort::AbortPlan;
use std::alloc::AllocError;
use task_table::tasks::Tasks;

/// Takes tasks back one after another.
fn abort_each(tasks: &mut Tasks, ids: &[Text]) -> Result<(), AllocError>
    ensures { OnOk result (tasks.new ≡ aborted_tasks ids.now tasks.old) }
{
    for id in ids {
        tasks.abort(id)?;
    }
    Ok(())
}

/// Whether any id is listed.
#[tactic(auto, using(crate::proofs::Lists::none_listed))]
fn has_any(ids: &Ids) -> bool
    ensures { result ≡ not (is_empty ids.now) }
{
    !ids.is_empty()
}

impl State {
    /// Takes an abort that comes to this, and tells whether it takes any task back.
    pub fn take_abort(&mut self, plan: &AbortPlan) -> Result<bool, AllocError>
        ensures told { IfOk result (λ b. b ≡ not (is_empty (taken_back (aborting_of plan.now)))) }
        ensures after { OnOk result (plain self.new ≡ withdrawn_by (taken_back (aborting_of plan.now)) (plain self.old)) }
    {
        match plan {
            AbortPlan::TakesBack(ids) => {
                abort_each(&mut self.tasks, ids.as_slice())?;
                Ok(has_any(ids))
            }
            AbortPlan::Unknown(_) => Ok(false),
        }
    }
}
