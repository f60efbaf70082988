//! The moves of a run.

ghost use Rattle.std.specs.Prelude.{◌≡◌, ◌≤◌, ◌++◌, [], ℕ, List, IfOk, Ok, Err, true, false, Some, OnOk};
ghost use Rattle.cluster_types.specs.Causes.{Rose};
ghost use Rattle.cluster_types.specs.declared.entry.Entry.{Entry};
ghost use Rattle.cluster_core.specs.declared.size.HistorySize.{HistorySize as Size};
ghost use Rattle.cluster_defs.specs.Lives.{is_open};
ghost use Rattle.record_codec.specs.Spelling.{IsWithinLimits};
ghost use Rattle.cluster_store.specs.Stores.{written};
ghost use Rattle.task_journal.specs.Journal.{StandsFor};
ghost use Rattle.tape.specs.Spelling.{Fits};
ghost use Rattle.tape_drive.specs.Inputs.{inputs_of};
ghost use Rattle.tape_drive.specs.Sends.{by_connection};
ghost use Rattle.tape_drive.specs.Steps.{stepped, step_outs, overfull, AreTaken};
ghost use Rattle.quick_commands.specs.Work.{answer_in, Moves, IsDone, IsFull};
ghost use Rattle.quick_commands.specs.Summaries.{summary_of};

use crate::answers::{answer, is_short};
use crate::fault::WorkError;
use crate::generator::Generator;
use crate::results::added;
use crate::summary::Summary;
use crate::summing::summed_up;
use cluster_types::entry::Input;
use cluster_types::out::{Out, Outs};
use cluster_types::shared_message::SharedMessage;
use disk_model::disk::Disk;
use engine_core::engine::Engine;
use hmac_sign::Key;
use load_schemes::chooser::Chooser;
use std::alloc::{AllocError, Global};
use std::collections::VecDeque;
use std::marker::Model;
use tape::record::TapeRecord;
use tape_drive::bare::bare_inputs;
use tape_drive::drive::Drive;
use tape_drive::fault::DriveError;
use tape_drive::order::{conn_of, sort_by_connection};
use tape_drive::steps::Stepped;

/// Adds items behind those of a queue.
fn push_all<T: Drop>(queue: &mut VecDeque<T>, items: Vec<T>) -> Result<(), AllocError>
    ensures { OnOk result (queue.new.items ≡ queue.old.items ++ items.items) }
{
    for item in items {
        queue.push_back(item)?;
    }
    Ok(())
}

/// Adds the outs of a step, by connection.
fn push_outs(queue: &mut VecDeque<Out>, outs: Outs) -> Result<(), AllocError>
    ensures { OnOk result (queue.new.items ≡ queue.old.items ++ by_connection outs) }
{
    let mut outs = outs.into_vec();
    sort_by_connection(&mut outs)?;
    push_all(queue, outs)
}

/// Serves an input. Its outs wait behind those before them.
fn serve<D: Disk>(
    drive: &mut Drive<D>,
    outs: &mut VecDeque<Out>,
    chooser: &Chooser,
    input: Input,
) -> Result<(), WorkError>
    requires fits { IsWithinLimits (Entry.Input input) }
    requires no_open { is_open (Entry.Input input) ≡ false }
    requires working { drive.old.failed ≡ false }
    ensures history { OnOk result (drive.new.stand.history ≡ stepped drive.old.stand.history input) }
    ensures limits { OnOk result (drive.new.stand.limits ≡ drive.old.stand.limits) }
    ensures outs { OnOk result (outs.new.items ≡ outs.old.items ++ by_connection (step_outs drive.old.stand.history input)) }
    ensures full { (size : Size) → result ≡ Err (WorkError.HistoryFull size) → overfull drive.old.stand.limits drive.old.stand.history input ≡ Some size }
    ensures failed { OnOk result (drive.new.failed ≡ false) }
    ensures only { (place : ℕ) → result ≡ Err (WorkError.NotEmpty place) → ⊥ }
    ensures later { D.faults drive.old.disk ≤ D.faults drive.new.disk }
    ensures cause { result ≡ Err WorkError.DiskFault → Rose (D.faults drive.old.disk) (D.faults drive.new.disk) }
{
    match drive.step(chooser, input) {
        Ok(Stepped::Sends(made)) => Ok(push_outs(outs, made)?),
        Ok(Stepped::Full(size)) => Err(WorkError::HistoryFull(size)),
        Err(DriveError::OutOfMemory) => Err(WorkError::OutOfMemory),
        Err(DriveError::DiskFault) => Err(WorkError::DiskFault),
        Err(DriveError::Reopen) => unreachable!(),
    }
}

/// The input of an answer, where there is one. An answer that no record can hold counts as want of memory; those of the
/// engines of generated work stay far below that.
fn answer_in(
    alloc: Global,
    conn: u32,
    reply: Option<SharedMessage>,
) -> Result<VecDeque<Input>, AllocError>
    ensures inputs { IfOk result (λ inputs. inputs.items ≡ answer_in conn reply) }
    ensures taken { IfOk result (λ inputs. AreTaken inputs.items) }
{
    let mut inputs = VecDeque::new(alloc);
    let Some(message) = reply else {
        return Ok(inputs);
    };
    if !is_short(&message) {
        return Err(AllocError);
    }
    inputs.push_back(Input::In {
        conn,
        moment: 0,
        word: 0,
        message,
    })?;
    Ok(inputs)
}

/// The inputs of a record of the tape.
fn inputs_of(alloc: Global, key: &Key, item: &TapeRecord) -> Result<VecDeque<Input>, AllocError>
    requires { Fits item.now }
    ensures inputs { IfOk result (λ inputs. inputs.items ≡ inputs_of key.now [] item.now) }
    ensures taken { IfOk result (λ inputs. AreTaken inputs.items) }
{
    let mut inputs = VecDeque::new(alloc);
    push_all(&mut inputs, bare_inputs(alloc, key, item)?)?;
    Ok(inputs)
}

/// A run of generated work over the database of a disk.
#[derive(Drop)]
pub struct Run<D: Disk> {
    pub drive: Drive<D>,
    pub key: Key,
    pub engines: Vec<Engine>,
    pub inputs: VecDeque<Input>,
    pub outs: VecDeque<Out>,
    pub tape: Generator,
    pub sum: i64,
}

impl<D: Disk> Model for Run<D> {
    ghost use Rattle.std.specs.Prelude.{◌≡◌, All};
    ghost use Rattle.quick_commands.specs.Generated.{work_key};
    ghost use Rattle.tape.specs.Spelling.{Fits};
    ghost use Rattle.tape_drive.specs.Steps.{AreTaken};
    ghost use Rattle.quick_commands.specs.Work.{RunView};

    ghost Value = { RunView D };

    ghost view = { λ r. record {
      work = record { history = r.drive.stand.history; engines = r.engines.items; inputs = r.inputs.items; outs = r.outs.items; tape = r.tape; sum = r.sum };
      limits = r.drive.stand.limits;
      disk = r.drive.disk;
      failed = r.drive.failed;
    } };

    ghost invariant = { λ r. (r.key ≡ work_key) × AreTaken r.inputs.items × All Fits r.tape };
}

impl<D: Disk> Run<D> {
    /// Makes one move, and says whether there was one to make.
    #[tactic(auto, using(crate::proofs::RecordInputs::first_fits, crate::proofs::RecordInputs::rest_fits))]
    pub fn go_on(&mut self, alloc: Global, chooser: &Chooser) -> Result<bool, WorkError>
        requires working { self.old.failed ≡ false }
        ensures moves { result ≡ Ok true → Moves self.old.work self.new.work }
        ensures done { result ≡ Ok false → IsDone self.new.work × (self.new.work ≡ self.old.work) }
        ensures full { (size : Size) → result ≡ Err (WorkError.HistoryFull size) → IsFull self.old.limits self.old.work size }
        ensures limits { OnOk result (self.new.limits ≡ self.old.limits) }
        ensures failed { OnOk result (self.new.failed ≡ false) }
        ensures only { (place : ℕ) → result ≡ Err (WorkError.NotEmpty place) → ⊥ }
        ensures later { D.faults self.old.disk ≤ D.faults self.new.disk }
        ensures cause { result ≡ Err WorkError.DiskFault → Rose (D.faults self.old.disk) (D.faults self.new.disk) }
    {
        if let Some(input) = self.inputs.pop_front() {
            serve(&mut self.drive, &mut self.outs, chooser, input)?;
            return Ok(true);
        }
        if let Some(out) = self.outs.pop_front() {
            let conn = conn_of(&out);
            self.sum = added(alloc, &out, self.sum)?;
            let reply = answer(alloc, &mut self.engines, &self.key, out)?;
            self.inputs = answer_in(alloc, conn, reply)?;
            return Ok(true);
        }
        let Some(item) = self.tape.next()? else {
            return Ok(false);
        };
        self.inputs = inputs_of(alloc, &self.key, &item)?;
        Ok(true)
    }

    /// The summary of a run of so many tasks.
    pub fn summary(&self, tasks: u32) -> Summary
        ensures { result ≡ summary_of tasks self.now.work }
    {
        summed_up(tasks, self.drive.history(), self.sum)
    }

    /// The disk. While no call of it has failed, a crash leaves what is kept of the history.
    pub fn close(self) -> D
        ensures disk { result ≡ self.disk }
        ensures stands { D.tells → self.failed ≡ false → (c : List ℕ) → D.image result c → StandsFor c (written self.work.history) }
    {
        let Run { drive, .. } = self;
        drive.close()
    }
}
