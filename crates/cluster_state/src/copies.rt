//! Copies of tasks, which a resubmission makes.

ghost use Rattle.std.specs.Prelude.{◌≡◌, ◌≤◌, ◌+◌, ◌++◌, ◌∷◌, [], map, length, is_ok, IfOk, OnOk, Some, None, true};
ghost use Rattle.cluster_types.specs.Limits.{last_moment};
ghost use Rattle.cluster_defs.specs.Purges.{resubmitted};
ghost use Rattle.cluster_defs.specs.Texts.{resubmit_header};
ghost use Rattle.edges.specs.Date.{date_of};
ghost use Rattle.resubmission.specs.Plans.{copy_of as renaming};
ghost use Rattle.task_table.specs.Seen.{begun, seen_in, all_open};
ghost use Rattle.cluster_state.specs.Plain.{facts_in, copy_of, copies_in, copied_out};
ghost use Rattle.cluster_state.specs.Ruled.{copies_planned};
ghost use Rattle.cluster_state.specs.Stands.{plain};

use crate::acceptance::{is_invalid, targets_of};
use crate::state::State;
use cluster_defs::request::WholeRequest;
use cluster_types::octets::Octets;
use cluster_types::text::Text;
use edges::date::{Moment, date_text};
use jupyter_header::write::resubmit_header;
use resubmission::plan::{Renamed, Renaming, ResubmitRefusal};
use std::alloc::{AllocError, Global};
use task_table::attempts::one_more;
use task_table::task::Task;
use task_table::tasks::Tasks;

/// The header of a copy.
fn copy_header(
    alloc: Global,
    id: &Text,
    request: &WholeRequest,
    moment: u64,
) -> Result<Octets, AllocError>
    requires { moment ≤ last_moment }
    ensures { IfOk result (λ o. o ≡ resubmit_header id.now request.now.request.session request.now.request.username request.now.request.msg_type (date_of moment)) }
{
    let date = date_text(alloc, Moment { millis: moment })?;
    resubmit_header(
        alloc,
        id,
        &request.session,
        &request.username,
        &request.msg_type,
        date.as_str(),
    )
}

fn same_request(request: &WholeRequest) -> Result<WholeRequest, AllocError>
    ensures { IfOk result (λ r. r ≡ request.now) }
{
    request.clone()
}

fn push_each(tasks: &mut Tasks, copies: Vec<Task>) -> Result<(), AllocError>
    requires { all_open copies.items ≡ true }
    ensures { OnOk result (tasks.new ≡ tasks.old ++ copies.items) }
{
    for task in copies {
        tasks.push(task)?;
    }
    Ok(())
}

impl State {
    /// The request of a copy.
    fn request_again(
        &self,
        moment: u64,
        id: &Text,
        old: &WholeRequest,
    ) -> Result<WholeRequest, AllocError>
        requires { moment ≤ last_moment }
        ensures value { IfOk result (λ r. r.request ≡ resubmitted (facts_in (plain self.now)) moment id.now old.now.request) }
        ensures body { IfOk result (λ r. r.body ≡ old.now.body) }
    {
        let mut request = same_request(old)?;
        request.direct_to = None;
        let header = copy_header(self.allocator(), id, old, moment)?;
        request.message = old
            .message
            .with_header(self.allocator(), header.as_slice())?;
        request.targets = targets_of(
            self.allocator(),
            self.engines.as_slice(),
            old.listed.as_slice(),
        )?;
        request.accepted_at = moment;
        request.invalid = is_invalid(&self.tasks, id, &old.after, &old.follow);
        Ok(request)
    }

    /// A copy of a task under an id and a number of its own.
    fn copy_task(
        &self,
        moment: u64,
        number: u64,
        id: &Text,
        task: &Task,
    ) -> Result<Task, AllocError>
        requires { moment ≤ last_moment }
        ensures { IfOk result (λ t. copy_of (resubmitted (facts_in (plain self.now)) moment) number id.now (Some task.now) ≡ t ∷ []) }
    {
        let request = self.request_again(moment, id, task.request())?;
        Task::new(self.allocator(), id, number, request)
    }

    /// The copies of tasks, numbered behind those that are there.
    fn copies(&self, moment: u64, renamed: &[Renaming]) -> Result<Vec<Task>, AllocError>
        requires { moment ≤ last_moment }
        ensures copies { IfOk result (λ v. v.items ≡ copies_in (resubmitted (facts_in (plain self.now)) moment) (length self.now.tasks + 1) (map renaming renamed.now) self.now.tasks) }
        ensures fresh { IfOk result (λ v. all_open v.items ≡ true) }
    {
        let mut copies = Vec::new(self.allocator());
        let mut number = one_more(self.tasks.len() as u64)?;
        for renaming in renamed {
            if let Some(task) = self.tasks.find(&renaming.old) {
                copies.push(self.copy_task(moment, number, &renaming.new, task)?)?;
            }
            number = one_more(number)?;
        }
        Ok(copies)
    }

    /// Takes a resubmission that comes to this, and tells whether it is accepted.
    pub fn take_resubmit(
        &mut self,
        moment: u64,
        planned: &Result<Renamed, ResubmitRefusal>,
    ) -> Result<bool, AllocError>
        requires { moment ≤ last_moment }
        ensures told { IfOk result (λ b. b ≡ is_ok planned.now) }
        ensures after { OnOk result (plain self.new ≡ copied_out (resubmitted (facts_in (plain self.old)) moment) (copies_planned planned.now) (plain self.old)) }
    {
        match planned {
            Ok(renamed) => {
                let copies = self.copies(moment, renamed.as_slice())?;
                push_each(&mut self.tasks, copies)?;
                Ok(true)
            }
            Err(_) => Ok(false),
        }
    }
}
