//! The engine workers.

ghost use Rattle.std.specs.Prelude.{◌≡◌};
ghost use Rattle.std.specs.Arc.{arc_value};
ghost use Rattle.history_lock.specs.History.{Extends};
ghost use Rattle.history_lock.specs.Names.{known, lock_id, IsIdle};
ghost use Rattle.run_book.specs.Kept.{WasPassed};

use crate::shared::RunShared;
use crate::starting::ChoosingJob;
use cluster_store::taken::Taken;
use cluster_types::out::Out;
use cluster_types::shared_message::SharedMessage;
use disk_model::disk::Disk;
use engine_core::engine::Engine;
use history_lock::lock::Pass;
use load_schemes::chooser::Chooser;
use run_book::book::CLIENT;
use run_book::halt::Halt;
use run_book::kept::RunBook;
use std::alloc::Global;
use std::sync::{Arc, Wait};
use thread_edges::gate::{Gate, Point};

/// Answers what is passed on to one connection, by one engine.
#[derive(Drop)]
pub struct Worker<D: Disk, G: Gate, R> {
    pub shared: Arc<RunShared<D, G, R>, Global>,
    pub conn: u32,
    pub engine: Engine,
    pub pass: Pass<RunBook<D>>,
    ghost idle: { IsIdle (lock_id (arc_value shared).book.lock) pass },
}

impl<D: Disk + Drop, G: Gate + Drop, R: Wait> RunShared<D, G, R> {
    /// Answers a request that was passed on: the engine works it out, and what it answers is entered. The gate is passed on both sides
    /// of that.
    fn answer(
        &self,
        pass: &mut Pass<RunBook<D>>,
        chooser: &Chooser,
        engine: &mut Engine,
        conn: u32,
        request: &SharedMessage,
    ) -> Result<(), Halt>
        requires idle { IsIdle (lock_id self.now.book.lock) pass.old }
        requires passed { WasPassed (known pass.old).seen.list conn request.now }
        ensures idle { IsIdle (lock_id self.now.book.lock) pass.new }
        ensures later { Extends (known pass.old).seen (known pass.new).seen }
    {
        let Ok(answer) = engine.answer(request, 0) else {
            return Err(Halt::OutOfMemory);
        };
        let Some(reply) = answer else {
            return Ok(());
        };
        self.gate.pass(&self.rt, Point::Read, conn);
        let entered = self.enter(pass, chooser, conn, reply);
        self.gate.pass(&self.rt, Point::Wrote, conn);
        entered
    }

    /// Answers what is passed on to a connection until the run has ended.
    fn work(
        &self,
        pass: &mut Pass<RunBook<D>>,
        chooser: &Chooser,
        engine: &mut Engine,
        conn: u32,
    ) -> Result<(), Halt>
        requires idle { IsIdle (lock_id self.now.book.lock) pass.old }
        ensures idle { IsIdle (lock_id self.now.book.lock) pass.new }
    {
        for _ in self.rt.forever() {
            let wakes = self.gate.wakes(Point::Idle, conn);
            match self.book.take_out(&self.rt, pass, conn) {
                Taken::Out(out) => {
                    if let Out::Pass { message, .. } = &out {
                        self.answer(pass, chooser, engine, conn, message)?;
                    }
                }
                Taken::Closed => return Ok(()),
                Taken::NothingYet => {
                    if self.is_ending() {
                        return Ok(());
                    }
                    self.gate.wait(&self.rt, Point::Idle, conn, wakes);
                }
            }
        }
        unreachable!()
    }
}

impl<D: Disk + Drop, G: Gate + Drop, R: Wait + Drop> ChoosingJob for Worker<D, G, R> {
    fn run(self, chooser: &Chooser) {
        let Worker {
            shared,
            conn,
            mut engine,
            mut pass,
        } = self;
        if let Err(halt) = shared.work(&mut pass, chooser, &mut engine, conn) {
            shared.book.note(&shared.rt, &mut pass, halt);
            shared.gate.wake(Point::Idle, CLIENT);
        }
    }
}
