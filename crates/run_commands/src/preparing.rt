//! What a command submits.

ghost use Rattle.std.specs.Prelude.{◌≡◌, ℕ, Some, Ok, Err, length, map, IfOk};
ghost use Rattle.job_graph.specs.Jobs.{job_of};
ghost use Rattle.run_commands.specs.Preparing.{AwaitsAs, AwaitsJob, Awaits, job_labels, line_of_fault, FaultAt, IsBadAt};

use array_maps::codes::{Codes, map_codes};
use array_maps::gathered::Gathered;
use array_maps::sending::send;
use client_core::client::Client;
use client_core::watcher::Watcher;
use cluster_types::message::WordList;
use cluster_types::text::Text;
use job_graph::error::JobError;
use job_graph::read::{JobGraph, read_job};
use job_graph::submit::submit_job;
use job_graph::task::JobTask;
use run_lines::labels::Labels;
use run_threads::caller::Awaited;
use run_threads::running::Submitted;
use run_words::command::RunCommand;
use std::alloc::{AllocError, Global};

/// What the client of a command is called.
const CLIENT: &str = "client";

/// The most codes, and the most tasks.
const MOST: usize = 4_096;

/// Why nothing is submitted.
#[derive(Clone, Copy, Debug, PartialEq, Eq)]
pub enum PrepareError {
    /// The text is no job: this line has a fault, counted from 1, or 0 where it has no task or too many.
    BadJob(u64),
    OutOfMemory,
}

impl From<AllocError> for PrepareError {
    ghost use Rattle.std.specs.Prelude.{◌≡◌};
    ghost use Rattle.run_commands.specs.declared.preparing.PrepareError.{PrepareError};

    ghost from_gives = { λ _ e. e ≡ PrepareError.OutOfMemory };

    fn from(_: AllocError) -> Self {
        PrepareError::OutOfMemory
    }
}

/// What codes submit. Words say no more than 4,096 of them.
fn codes_submitted(alloc: Global, codes: &Codes) -> Result<Submitted<Watcher>, AllocError>
    ensures { IfOk result (λ s. AwaitsAs Labels.Codes (length codes.now) s.awaited) }
{
    if codes.len() > MOST {
        return Err(AllocError);
    }
    let mut client = Client::new(alloc, CLIENT)?;
    match send(alloc, &mut client, codes, 0, 0) {
        Ok((gathered, messages)) => Ok(Submitted {
            messages,
            awaited: Awaited {
                client,
                gathered,
                total: codes.len(),
                labels: Labels::Codes,
            },
        }),
        Err(_) => Err(AllocError),
    }
}

/// What a body submits for each value. Words say no body of which a code would be too long.
fn map_submitted(
    alloc: Global,
    body: &Text,
    values: &[i64],
) -> Result<Submitted<Watcher>, AllocError>
    ensures { IfOk result (λ s. AwaitsAs Labels.Codes (length values.now) s.awaited) }
{
    match map_codes(alloc, body.as_str(), values) {
        Ok(codes) => codes_submitted(alloc, &codes),
        Err(_) => Err(AllocError),
    }
}

/// The names of tasks.
fn names_of(alloc: Global, tasks: &[JobTask]) -> Result<WordList, AllocError>
    ensures { IfOk result (λ names. names ≡ map (λ task. task.name) tasks.now) }
{
    let mut names = WordList::new(alloc);
    for task in tasks {
        names.push(task.name.clone()?)?;
    }
    Ok(names)
}

/// What a job submits. It has no more than 4,096 tasks.
fn job_submitted(alloc: Global, job: &JobGraph) -> Result<Submitted<Watcher>, AllocError>
    ensures { IfOk result (λ s. AwaitsAs (job_labels job.now) (length job.now) s.awaited) }
{
    let tasks = job.tasks().as_slice();
    if tasks.len() > MOST {
        return Err(AllocError);
    }
    let labels = Labels::Tasks(names_of(alloc, tasks)?);
    let gathered = Gathered::new(alloc, 0, tasks.len())?;
    let mut client = Client::new(alloc, CLIENT)?;
    match submit_job(alloc, &mut client, job, 0, 0) {
        Ok((_ids, messages)) => Ok(Submitted {
            messages,
            awaited: Awaited {
                client,
                gathered,
                total: tasks.len(),
                labels,
            },
        }),
        Err(_) => Err(AllocError),
    }
}

/// Why a text is no job.
fn fault_of(error: JobError) -> PrepareError
    ensures { (line : ℕ) → result ≡ PrepareError.BadJob line → line_of_fault error ≡ Some line }
{
    match error {
        JobError::BadLine(line) | JobError::DuplicateName(line) | JobError::UnknownName(line) => {
            PrepareError::BadJob(line as u64)
        }
        JobError::Empty | JobError::TooMany => PrepareError::BadJob(0),
        JobError::OutOfMemory => PrepareError::OutOfMemory,
    }
}

/// What a text submits.
fn text_submitted(alloc: Global, text: &Text) -> Result<Submitted<Watcher>, PrepareError>
    ensures ok { IfOk result (λ s. AwaitsJob (job_of text.now) s.awaited) }
    ensures bad { (line : ℕ) → result ≡ Err (PrepareError.BadJob line) → FaultAt (job_of text.now) line }
{
    match read_job(alloc, text.as_str()) {
        Ok(job) => Ok(job_submitted(alloc, &job)?),
        Err(error) => Err(fault_of(error)),
    }
}

/// What a command submits.
pub fn submitted_by(alloc: Global, command: &RunCommand) -> Result<Submitted<Watcher>, PrepareError>
    ensures ok { IfOk result (λ s. Awaits command.now s.awaited) }
    ensures bad { (line : ℕ) → result ≡ Err (PrepareError.BadJob line) → IsBadAt command.now line }
{
    match command {
        RunCommand::Run { codes, .. } => Ok(codes_submitted(alloc, codes)?),
        RunCommand::Map { body, values, .. } => Ok(map_submitted(alloc, body, values.as_slice())?),
        RunCommand::Job { text, .. } => text_submitted(alloc, text),
    }
}
