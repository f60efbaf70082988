//! The caller of a run: it submits, and prints each line as soon as it and those ahead of it are known.

ghost use Rattle.std.specs.Prelude.{◌≡◌, ◌≤◌, ◌+◌, ℕ, length, drop, Some, Err, IfOk, IfSome, OnOk};
ghost use Rattle.cluster_types.specs.Causes.{Rose};
ghost use Rattle.cluster_defs.specs.Histories.{History};
ghost use Rattle.edges.specs.Streams.{Added};
ghost use Rattle.history_lock.specs.History.{Extends};
ghost use Rattle.history_lock.specs.Names.{known, lock_id, IsIdle};
ghost use Rattle.run_book.specs.declared.halt.Halt.{Halt as HaltType};
ghost use Rattle.run_book.specs.Halts.{IsShown};
ghost use Rattle.run_book.specs.Kept.{WasPassed, client_conn, passed_in};
ghost use Rattle.run_lines.specs.Lines.{lines_from, known_front};
ghost use Rattle.run_threads.specs.Answering.{AreAnswered};
ghost use Rattle.run_threads.specs.Waiting.{IsCounted};

use crate::end::RunStop;
use crate::shared::RunShared;
use array_maps::gathered::Gathered;
use client_core::client::Requests;
use client_core::error::Messages;
use client_core::notes::Notes;
use cluster_store::taken::Taken;
use cluster_types::out::Out;
use cluster_types::shared_message::SharedMessage;
use disk_model::disk::Disk;
use edges::sink::Sink;
use history_lock::lock::Pass;
use load_schemes::chooser::Chooser;
use run_book::book::CLIENT;
use run_book::halt::Halt;
use run_book::kept::RunBook;
use run_lines::labels::Labels;
use run_lines::printing::{PrintError, print_due};
use std::alloc::AllocError;
use std::sync::Wait;
use thread_edges::gate::Gate;

/// What the caller waits for, and how it prints it.
#[derive(Drop)]
pub struct Awaited<W> {
    pub client: Requests<W>,
    /// What each code answered, under the number that is its place.
    pub gathered: Gathered,
    /// How many codes there are.
    pub total: usize,
    pub labels: Labels,
}

/// Takes a message that was passed on to the client.
fn hear<W: Notes>(awaited: &mut Awaited<W>, message: &SharedMessage) -> Result<(), AllocError>
    requires counted { IsCounted awaited.old.gathered awaited.old.total }
    ensures counted { IsCounted awaited.new.gathered awaited.new.total }
    ensures labels { (awaited.new.labels ≡ awaited.old.labels) × (awaited.new.total ≡ awaited.old.total) }
    ensures gathered { (h : History) → AreAnswered h awaited.old.gathered → WasPassed h client_conn message.now → AreAnswered h awaited.new.gathered }
{
    awaited.gathered.take(&mut awaited.client, message)?;
    Ok(())
}

/// Takes what was taken for the client, and says whether there was anything.
fn hear_taken<W: Notes>(awaited: &mut Awaited<W>, taken: &Taken) -> Result<bool, AllocError>
    requires counted { IsCounted awaited.old.gathered awaited.old.total }
    ensures counted { IsCounted awaited.new.gathered awaited.new.total }
    ensures labels { (awaited.new.labels ≡ awaited.old.labels) × (awaited.new.total ≡ awaited.old.total) }
    ensures gathered { (h : History) → AreAnswered h awaited.old.gathered → IfSome (passed_in taken.now) (WasPassed h client_conn) → AreAnswered h awaited.new.gathered }
{
    match taken {
        Taken::Out(Out::Pass { message, .. }) => {
            hear(awaited, message)?;
            Ok(true)
        }
        Taken::Out(Out::Made { .. }) => Ok(true),
        Taken::NothingYet | Taken::Closed => Ok(false),
    }
}

impl<D: Disk + Drop, G: Gate + Drop, R: Wait> RunShared<D, G, R> {
    /// Why the caller stops where one of its own steps wasn't taken: that is noted, and read as the book shows it.
    pub fn stop(&self, pass: &mut Pass<RunBook<D>>, halt: Halt) -> RunStop
        requires idle { IsIdle (lock_id self.now.book.lock) pass.old }
        ensures idle { IsIdle (lock_id self.now.book.lock) pass.new }
        ensures halt { (h : HaltType) → result ≡ RunStop.Halted h → IsShown (Some h) (known pass.new).seen }
        ensures not_written { result ≡ RunStop.WriteFault → ⊥ }
        ensures not_started { result ≡ RunStop.NotStarted → ⊥ }
    {
        self.book.note(&self.rt, pass, halt);
        match self.book.halted(&self.rt, pass) {
            Some(halt) => RunStop::Halted(halt),
            None => RunStop::OutOfMemory,
        }
    }

    /// Enters the messages of the client, in order.
    pub fn submit(
        &self,
        pass: &mut Pass<RunBook<D>>,
        chooser: &Chooser,
        messages: &Messages,
    ) -> Result<(), Halt>
        requires idle { IsIdle (lock_id self.now.book.lock) pass.old }
        ensures idle { IsIdle (lock_id self.now.book.lock) pass.new }
    {
        for message in messages.as_slice() {
            let Ok(message) = message.clone() else {
                return Err(Halt::OutOfMemory);
            };
            self.enter(pass, chooser, CLIENT, message)?;
        }
        Ok(())
    }

    /// Takes the next message for the client, and says whether there was one.
    fn take_one<W: Notes>(
        &self,
        pass: &mut Pass<RunBook<D>>,
        awaited: &mut Awaited<W>,
    ) -> Result<bool, AllocError>
        requires idle { IsIdle (lock_id self.now.book.lock) pass.old }
        requires counted { IsCounted awaited.old.gathered awaited.old.total }
        requires answered { AreAnswered (known pass.old).seen.list awaited.old.gathered }
        ensures idle { IsIdle (lock_id self.now.book.lock) pass.new }
        ensures later { Extends (known pass.old).seen (known pass.new).seen }
        ensures counted { IsCounted awaited.new.gathered awaited.new.total }
        ensures labels { (awaited.new.labels ≡ awaited.old.labels) × (awaited.new.total ≡ awaited.old.total) }
        ensures answered { AreAnswered (known pass.new).seen.list awaited.new.gathered }
    {
        let taken = self.book.take_out(&self.rt, pass, CLIENT);
        hear_taken(awaited, &taken)
    }

    /// Takes all that there is for the client.
    pub fn take_outcomes<W: Notes>(
        &self,
        pass: &mut Pass<RunBook<D>>,
        awaited: &mut Awaited<W>,
    ) -> Result<(), AllocError>
        requires idle { IsIdle (lock_id self.now.book.lock) pass.old }
        requires counted { IsCounted awaited.old.gathered awaited.old.total }
        requires answered { AreAnswered (known pass.old).seen.list awaited.old.gathered }
        ensures idle { IsIdle (lock_id self.now.book.lock) pass.new }
        ensures later { Extends (known pass.old).seen (known pass.new).seen }
        ensures counted { IsCounted awaited.new.gathered awaited.new.total }
        ensures labels { (awaited.new.labels ≡ awaited.old.labels) × (awaited.new.total ≡ awaited.old.total) }
        ensures answered { AreAnswered (known pass.new).seen.list awaited.new.gathered }
    {
        for _ in self.rt.forever() {
            if !self.take_one(pass, awaited)? {
                return Ok(());
            }
        }
        unreachable!()
    }

    /// Prints the lines that are due from a place on, and says which place comes next.
    pub fn print<W: Notes, K: Sink>(
        &self,
        awaited: &Awaited<W>,
        next: usize,
        output: &mut K,
    ) -> Result<usize, RunStop>
        requires counted { IsCounted awaited.now.gathered awaited.now.total }
        requires next { next ≤ awaited.now.total }
        ensures next { IfOk result (λ n. n ≡ next + length (known_front (drop next awaited.now.gathered.answers))) }
        ensures within { IfOk result (λ n. n ≤ awaited.now.total) }
        ensures ok { OnOk result (Added (lines_from awaited.now.labels next (known_front (drop next awaited.now.gathered.answers))) (K.written output.old) (K.written output.new)) }
        ensures cause { result ≡ Err RunStop.WriteFault → Rose (K.faults output.old) (K.faults output.new) }
        ensures halt { (h : HaltType) → result ≡ Err (RunStop.Halted h) → ⊥ }
        ensures not_started { result ≡ Err RunStop.NotStarted → ⊥ }
        ensures later { K.faults output.old ≤ K.faults output.new }
    {
        match print_due(
            self.alloc,
            &awaited.labels,
            &awaited.gathered,
            awaited.total,
            next,
            output,
        ) {
            Ok(next) => Ok(next),
            Err(PrintError::WriteFault) => Err(RunStop::WriteFault),
            Err(PrintError::OutOfMemory) => Err(RunStop::OutOfMemory),
        }
    }
}
