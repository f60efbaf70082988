//! Jobs, and how they are read.

ghost use Rattle.std.specs.Prelude.{◌≡◌, ◌⊎◌, ◌++◌, Ok, Err, None, Some, [], IfOk, IfErr, OnOk};
ghost use Rattle.std.specs.List.{cons_option};
ghost use Rattle.job_graph.specs.Lines.{line_task};
ghost use Rattle.job_graph.specs.Jobs.{IsJob, is_taken, are_known, task_fault, fault_of, first_fault, tasks_in, counted, job_of};

use crate::error::JobError;
use crate::line::line_task;
use crate::parts::parts;
use crate::task::{JobTask, JobTasks, Names};
use cluster_types::sequence::Sequence;
use cluster_types::text::Text;
use std::alloc::Global;
use std::marker::Model;

/// The greatest number of tasks of a job.
const MOST_TASKS: usize = 4_096;

/// The tasks of a text, as contracts see it too.
#[derive(Debug, Drop)]
pub struct JobGraph {
    tasks: JobTasks,
}

impl Model for JobGraph {
    ghost use Rattle.std.specs.Prelude.{List};
    ghost use Rattle.job_graph.specs.declared.task.JobTask.{JobTask};
    ghost use Rattle.job_graph.specs.Jobs.{IsJob};

    ghost Value = { List JobTask };

    ghost view = { λ j. j.tasks };

    ghost invariant = { λ j. IsJob j.tasks };
}

impl JobGraph {
    /// The tasks, in the order of their lines.
    pub fn tasks(&self) -> &JobTasks
        ensures tasks { result.now ≡ self.now }
        ensures job { IsJob self.now }
    {
        &self.tasks
    }
}

/// Whether an earlier task has a name.
fn is_taken(name: &Text, earlier: &[JobTask]) -> bool
    ensures { result ≡ is_taken name.now earlier.now }
{
    earlier.iter().any(|task| task.name.is(name))
}

/// Whether earlier tasks have each of these names.
fn are_known(names: &Names, earlier: &[JobTask]) -> bool
    ensures { result ≡ are_known names.now earlier.now }
{
    names.as_slice().iter().all(|name| is_taken(name, earlier))
}

/// The fault of a task at a line with this number, behind earlier tasks.
fn task_fault(number: usize, earlier: &[JobTask], task: &JobTask) -> Option<JobError>
    ensures { result ≡ task_fault number earlier.now task.now }
{
    if is_taken(&task.name, earlier) {
        return Some(JobError::DuplicateName(number));
    }
    if !are_known(&task.after, earlier) || !are_known(&task.follow, earlier) {
        return Some(JobError::UnknownName(number));
    }
    None
}

/// The task of a line with this number, behind earlier tasks, or none of an empty line.
fn next_task(
    alloc: Global,
    number: usize,
    earlier: &[JobTask],
    line: &Text,
) -> Result<Option<JobTask>, JobError>
    ensures ok { IfOk result (λ task. task ≡ line_task line.now) }
    ensures no_fault { IfOk result (λ task. fault_of number earlier.now line.now ≡ None) }
    ensures err { IfErr result (λ e. (e ≡ JobError.OutOfMemory) ⊎ (fault_of number earlier.now line.now ≡ Some e)) }
{
    if line.len() == 0 {
        return Ok(None);
    }
    let Some(task) = line_task(alloc, line.as_str())? else {
        return Err(JobError::BadLine(number));
    };
    match task_fault(number, earlier, &task) {
        Some(fault) => Err(fault),
        None => Ok(Some(task)),
    }
}

/// The tasks of lines.
fn tasks_in(alloc: Global, lines: &[Text]) -> Result<JobTasks, JobError>
    ensures ok { IfOk result (λ tasks. tasks ≡ tasks_in lines.now) }
    ensures no_fault { IfOk result (λ tasks. first_fault [] lines.now ≡ None) }
    ensures err { IfErr result (λ e. (e ≡ JobError.OutOfMemory) ⊎ (first_fault [] lines.now ≡ Some e)) }
{
    let mut tasks = Sequence::new(alloc);
    for (place, line) in lines.iter().enumerate() {
        let task = next_task(alloc, place + 1, tasks.as_slice(), line)?;
        push_some(&mut tasks, task)?;
    }
    Ok(tasks)
}

/// Puts a task, where there is one, at the end.
fn push_some(tasks: &mut JobTasks, task: Option<JobTask>) -> Result<(), JobError>
    ensures ok { OnOk result (tasks.new ≡ tasks.old ++ cons_option task []) }
    ensures err { IfErr result (λ e. e ≡ JobError.OutOfMemory) }
{
    if let Some(task) = task {
        tasks.push(task)?;
    }
    Ok(())
}

/// These tasks, where there is one at least and not too many.
fn counted(tasks: JobTasks) -> Result<JobTasks, JobError>
    ensures ok { IfOk result (λ t. counted tasks ≡ Ok t) }
    ensures err { IfErr result (λ e. counted tasks ≡ Err e) }
{
    match tasks.len() {
        0 => Err(JobError::Empty),
        count if count > MOST_TASKS => Err(JobError::TooMany),
        _ => Ok(tasks),
    }
}

/// The job of a text of lines, which a line feed parts. An empty line says nothing; any other is
/// `NAME [after NAME,..] [follow NAME,..] [retries N] : CODE`, its words parted by single blanks. A listed name belongs to an
/// earlier line.
pub fn read_job(alloc: Global, text: &str) -> Result<JobGraph, JobError>
    ensures ok { IfOk result (λ job. job_of text.now ≡ Ok job) }
    ensures err { IfErr result (λ e. (e ≡ JobError.OutOfMemory) ⊎ (job_of text.now ≡ Err e)) }
{
    let lines = parts(alloc, text, '\n')?;
    let tasks = tasks_in(alloc, lines.as_slice())?;
    let tasks = counted(tasks)?;
    Ok(JobGraph { tasks })
}
