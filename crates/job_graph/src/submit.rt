//! Jobs that are submitted over a client.

ghost use Rattle.std.specs.Prelude.{◌≡◌, ◌⊎◌, ◌≤◌, ◌<◌, ◌+◌, ◌^◌, ◌++◌, [], Ok, Err, length, IfOk, IfErr, OnOk, OnErr};
ghost use Rattle.std.specs.List.{cons_option, filter_map};
ghost use Rattle.std.specs.Option.{option_copied};
ghost use Rattle.cluster_types.specs.Limits.{last_moment};
ghost use Rattle.client_core.specs.declared.error.SubmitError.{SubmitError};
ghost use Rattle.client_core.specs.Numbers.{numbered_ids};
ghost use Rattle.client_core.specs.Submissions.{are_within, sent_all, after_numbers, HasFront};
ghost use Rattle.job_graph.specs.Held.{id_named};
ghost use Rattle.job_graph.specs.Submitting.{job_submission, job_submissions, IsHeldWith};

use crate::read::JobGraph;
use crate::task::{JobTask, Names};
use client_core::client::Requests;
use client_core::error::{Messages, SendError};
use client_core::metadata::dependent_meta;
use client_core::notes::Notes;
use client_core::numbered::numbered_ids;
use client_core::submissions::{Submission, Submissions};
use cluster_types::message::Ids;
use cluster_types::sequence::Sequence;
use cluster_types::text::Text;
use std::alloc::{AllocError, Global};

/// The id of the task that has a name, where the tasks have these ids, in order.
fn id_named<'a>(tasks: &[JobTask], ids: &'a [Text], name: &Text) -> Option<&'a Text>
    requires { length ids.now ≡ length tasks.now }
    ensures { option_copied result ≡ id_named tasks.now ids.now name.now }
{
    for (place, task) in tasks.iter().enumerate() {
        if task.name.is(name) {
            return Some(&ids[place]);
        }
    }
    None
}

/// Puts a copy of an id at the end, where there is one.
fn push_some(ids: &mut Ids, id: Option<&Text>) -> Result<(), AllocError>
    ensures { OnOk result (ids.new ≡ ids.old ++ cons_option (option_copied id.entry) []) }
{
    if let Some(id) = id {
        ids.push(id.clone()?)?;
    }
    Ok(())
}

/// The ids of the tasks that have these names.
fn ids_named(
    alloc: Global,
    tasks: &[JobTask],
    ids: &[Text],
    names: &Names,
) -> Result<Ids, AllocError>
    requires { length ids.now ≡ length tasks.now }
    ensures { IfOk result (λ found. found ≡ filter_map (id_named tasks.now ids.now) names.now) }
{
    let mut found = Ids::new(alloc);
    for name in names.as_slice() {
        push_some(&mut found, id_named(tasks, ids, name))?;
    }
    Ok(found)
}

/// A task of a job as it is submitted.
fn job_submission(
    alloc: Global,
    tasks: &[JobTask],
    ids: &[Text],
    task: &JobTask,
) -> Result<Submission, AllocError>
    requires { length ids.now ≡ length tasks.now }
    ensures { IfOk result (λ s. s ≡ job_submission (id_named tasks.now ids.now) task.now) }
{
    let after = ids_named(alloc, tasks, ids, &task.after)?;
    let follow = ids_named(alloc, tasks, ids, &task.follow)?;
    Ok(Submission {
        code: task.code.clone()?,
        meta: dependent_meta(alloc, after, follow, task.retries),
    })
}

/// The tasks of a job as they are submitted.
fn job_submissions(
    alloc: Global,
    tasks: &[JobTask],
    ids: &[Text],
) -> Result<Submissions, AllocError>
    requires { length ids.now ≡ length tasks.now }
    ensures { IfOk result (λ s. s ≡ job_submissions tasks.now ids.now) }
{
    let mut submissions = Sequence::new(alloc);
    for task in tasks {
        submissions.push(job_submission(alloc, tasks, ids, task)?)?;
    }
    Ok(submissions)
}

/// Submits the tasks of a job under the ids of numbers from a first one on, unless the client used one of these ids: the ids,
/// and the messages that are to be sent. After want of memory the client may have used the first of these ids.
pub fn submit_job<W: Notes>(
    alloc: Global,
    client: &mut Requests<W>,
    job: &JobGraph,
    first: u64,
    moment: u64,
) -> Result<(Ids, Messages), SendError>
    requires moment { moment ≤ last_moment }
    requires numbers { first + length job.now < 2 ^ 32 }
    ensures ids { IfOk result (λ s. s.0 ≡ numbered_ids first (length job.now)) }
    ensures ok { IfOk result (λ s. sent_all client.old first moment (job_submissions job.now (numbered_ids first (length job.now))) ≡ Ok s.1) }
    ensures err { IfErr result (λ e. (e ≡ SubmitError.OutOfMemory) ⊎ (sent_all client.old first moment (job_submissions job.now (numbered_ids first (length job.now))) ≡ Err e)) }
    ensures noted { OnOk result (client.new ≡ after_numbers client.old first (length job.now)) }
    ensures known { result ≡ Err SubmitError.KnownId → client.new ≡ client.old }
    ensures front { OnErr result (HasFront client.old first (length job.now) client.new) }
    ensures held { IfOk result (λ s. IsHeldWith job.now s.0 s.1) }
{
    let tasks = job.tasks().as_slice();
    let ids = numbered_ids(alloc, first, tasks.len())?;
    let submissions = job_submissions(alloc, tasks, ids.as_slice())?;
    let messages = client.submit_all(alloc, &submissions, first, moment)?;
    Ok((ids, messages))
}
