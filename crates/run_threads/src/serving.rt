//! The lines of a run, each printed as soon as it and those ahead of it are known.

ghost use Rattle.std.specs.Prelude.{◌≡◌, ℕ, OnOk, IfErr};
ghost use Rattle.history_lock.specs.Names.{known, lock_id, IsIdle};
ghost use Rattle.run_threads.specs.Answering.{AreAnswered, ArePrinted};
ghost use Rattle.run_threads.specs.Ends.{StopCause};
ghost use Rattle.run_threads.specs.Waiting.{IsCounted};

use crate::caller::Awaited;
use crate::end::RunStop;
use crate::shared::RunShared;
use client_core::notes::Notes;
use disk_model::disk::Disk;
use edges::sink::Sink;
use history_lock::lock::Pass;
use run_book::book::CLIENT;
use run_book::kept::RunBook;
use std::sync::Wait;
use thread_edges::gate::{Gate, Point};

impl<D: Disk + Drop, G: Gate + Drop, R: Wait> RunShared<D, G, R> {
    /// Prints the line of each code, as soon as it and those ahead of it are known.
    pub fn serve<W: Notes, K: Sink>(
        &self,
        pass: &mut Pass<RunBook<D>>,
        awaited: &mut Awaited<W>,
        output: &mut K,
    ) -> Result<(), RunStop>
        requires idle { IsIdle (lock_id self.now.book.lock) pass.old }
        requires counted { IsCounted awaited.old.gathered awaited.old.total }
        requires answered { AreAnswered (known pass.old).seen.list awaited.old.gathered }
        ensures idle { IsIdle (lock_id self.now.book.lock) pass.new }
        ensures printed { OnOk result (ArePrinted awaited.old.labels (known pass.new).seen.list awaited.old.total (K.written output.old) (K.written output.new)) }
        ensures cause { IfErr result (λ why. (started : ℕ) (now : ℕ) → StopCause (known pass.new).seen (K.faults output.old) (K.faults output.new) started now why) }
    {
        let mut next = 0;
        for _ in self.rt.forever() {
            let wakes = self.gate.wakes(Point::Idle, CLIENT);
            self.take_outcomes(pass, awaited)?;
            next = self.print(awaited, next, output)?;
            if next == awaited.total {
                return Ok(());
            }
            if let Some(halt) = self.book.halted(&self.rt, pass) {
                return Err(RunStop::Halted(halt));
            }
            self.gate.wait(&self.rt, Point::Idle, CLIENT, wakes);
        }
        unreachable!()
    }
}
