//! How tasks are settled.

ghost use Rattle.std.specs.Prelude.{◌≡◌, ◌<◌, ◌≤◌, IfOk, OnOk};
ghost use Rattle.cluster_types.specs.Limits.{last_moment};
ghost use Rattle.task_table.specs.Seen.{seen_in, changed, settled_with};
ghost use Rattle.cluster_state.specs.Plain.{settled_out};
ghost use Rattle.cluster_state.specs.Stands.{plain};
ghost use Rattle.cluster_state.specs.Settling.{IsSettling};

use crate::outcomes::outcome_for;
use crate::state::State;
use cluster_defs::settled::Settled;
use cluster_types::shared_message::SharedMessage;
use cluster_types::text::Text;
use cluster_types::verdict::{Cause, Verdict};
use std::alloc::AllocError;
use std::marker::Brand;
use std::sync::ledger::{Blank, Ledger};
use task_graph::steps::Steps;
use task_table::attempts::engine_of;
use task_table::tasks::Tasks;

/// How a task is settled, with the outcome that it gets.
#[derive(Drop)]
pub struct Settling {
    pub settled: Settled,
    pub outcome: Option<SharedMessage>,
}

/// Settles a task, with a count of steps that nobody reads.
fn settle_in<L: Ledger>(
    tasks: &mut Tasks,
    id: &Text,
    settled: Settled,
    outcome: Option<SharedMessage>,
    blank: Blank,
) -> Result<(), AllocError>
    requires name { blank.name ≡ L.name }
    requires parts { blank.parts ≡ L.parts }
    requires some { 0 < blank.parts }
    ensures { OnOk result (tasks.new ≡ changed id.now (settled_with settled outcome) tasks.old) }
{
    let mut steps = Steps::<L>::new(blank);
    tasks.settle(id, settled, outcome, &mut steps)?;
    Ok(())
}

impl State {
    /// How a task is settled, where it is there. The moment of the last input has to be one before the year 10000.
    pub fn settling(
        &self,
        id: &Text,
        verdict: Verdict,
        cause: Cause,
    ) -> Result<Option<Settling>, AllocError>
        requires { self.now.moment ≤ last_moment }
        ensures { IfOk result (λ o. IsSettling verdict cause self.entry.now.moment (seen_in self.entry.now.tasks id.now) o) }
    {
        match self.tasks.find(id) {
            Some(task) => {
                let settled = Settled {
                    verdict,
                    cause,
                    engine: engine_of(task.attempts().last),
                    moment: self.moment,
                };
                let outcome = outcome_for(self.allocator(), settled, task)?;
                Ok(Some(Settling { settled, outcome }))
            }
            None => Ok(None),
        }
    }

    /// Takes a settle.
    pub(crate) fn settle(
        &mut self,
        id: &Text,
        verdict: Verdict,
        cause: Cause,
        settling: Option<Settling>,
    ) -> Result<(), AllocError>
        requires { IsSettling verdict cause self.old.moment (seen_in self.old.tasks id.now) settling }
        ensures { OnOk result (plain self.new ≡ settled_out id.now verdict cause (plain self.old)) }
    {
        match settling {
            Some(Settling { settled, outcome }) => {
                settle_in::<Brand>(&mut self.tasks, id, settled, outcome, Blank::new(1))?;
                Ok(())
            }
            None => Ok(()),
        }
    }
}
