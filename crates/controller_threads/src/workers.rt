//! The workers: beats, time and flushes.

ghost use Rattle.std.specs.Prelude.{◌≡◌, true, Err, IfErr, IfSome};
ghost use Rattle.history_lock.specs.declared.known.Content.{Content};
ghost use Rattle.history_lock.specs.History.{Extends};
ghost use Rattle.history_lock.specs.Names.{known};
ghost use Rattle.controller_threads.specs.Halts.{HaltCause, RefusalCause};
ghost use Rattle.controller_threads.specs.Passes.{IsSince};

use crate::halt::Halt;
use crate::handed::Handed;
use crate::naming::Naming;
use crate::passes::{Halted, NamedPass};
use crate::port::Port;
use crate::shared::Shared;
use crate::starting::ChoosingJob;
use crate::writers::wake_each;
use controller_desk::fault::ActError;
use load_schemes::chooser::Chooser;
use session_threads::context::{LockedOf, PassOf, SessionTypes};
use std::alloc::Global;
use std::sync::{Arc, Wait};
use task_journal::fault::AppendFault;
use thread_edges::gate::{Gate, Point};
use thread_edges::spawner::Job;

/// What is done again and again.
#[derive(Clone, Copy, Debug, PartialEq, Eq)]
pub enum Rhythm {
    /// Heartbeats are sent.
    Beat,
    /// Timeouts are looked at.
    Time,
}

/// Does the same again and again.
#[derive(Drop)]
pub struct Recurring<P: Port, T: SessionTypes, N: Naming> {
    pub shared: Arc<Shared<P, T, N>, Global>,
    pub rhythm: Rhythm,
    pub pass: NamedPass<LockedOf<T>, N>,
}

/// Flushes what is entered.
#[derive(Drop)]
pub struct Flushing<P: Port, T: SessionTypes, N: Naming> {
    pub shared: Arc<Shared<P, T, N>, Global>,
    pub pass: NamedPass<LockedOf<T>, N>,
}

/// Whether a step that was tried ends the controller.
fn halt_of(tried: Result<(), ActError>) -> Option<Halt>
    ensures { (start : Content) (seen : Content) → IfErr tried (λ e. RefusalCause e start seen) → IfSome result (λ halt. HaltCause halt start seen) }
{
    match tried {
        Err(ActError::HistoryFull { entries, bytes }) => Some(Halt::HistoryFull { entries, bytes }),
        _ => None,
    }
}

/// Whether a flush ends the controller: where it failed, and where a shutdown was asked before it.
fn halt_after(flushed: Result<(), AppendFault>, is_stopping: bool) -> Option<Halt>
    ensures { (start : Content) (seen : Content) → (flushed ≡ Err AppendFault.DiskFault → HaltCause Halt.DiskFault start seen) → (is_stopping ≡ true → HaltCause Halt.Stopping start seen) → IfSome result (λ halt. HaltCause halt start seen) }
{
    match flushed {
        Err(AppendFault::DiskFault) => Some(Halt::DiskFault),
        Err(AppendFault::Reopen) => None,
        Ok(()) if is_stopping => Some(Halt::Stopping),
        Ok(()) => None,
    }
}

impl<P: Port + Drop, T: SessionTypes, N: Naming> Shared<P, T, N> {
    /// Sends heartbeats once. It goes on after want of memory, and after a call of the disk that failed.
    fn beat(&self, pass: &mut PassOf<T>, chooser: &Chooser) -> Option<Halt>
        requires since { IsSince N.lock N.start pass.old }
        ensures since { IsSince N.lock N.start pass.new }
        ensures cause { IfSome result (λ halt. HaltCause halt N.start (known pass.new).seen) }
    {
        let tried = self.serving.desk.beat(&self.serving.rt, pass, chooser);
        halt_of(tried)
    }

    /// Looks at the timeouts once. It goes on after want of memory, and after a call of the disk that failed.
    fn time(&self, pass: &mut PassOf<T>, chooser: &Chooser) -> Option<Halt>
        requires since { IsSince N.lock N.start pass.old }
        ensures since { IsSince N.lock N.start pass.new }
        ensures cause { IfSome result (λ halt. HaltCause halt N.start (known pass.new).seen) }
    {
        let tried = self.serving.desk.time(&self.serving.rt, pass, chooser);
        halt_of(tried)
    }

    /// Waits for its turn, and does once what recurs.
    fn take_turn(&self, pass: &mut PassOf<T>, chooser: &Chooser, rhythm: Rhythm) -> Option<Halt>
        requires since { IsSince N.lock N.start pass.old }
        ensures since { IsSince N.lock N.start pass.new }
        ensures cause { IfSome result (λ halt. HaltCause halt N.start (known pass.new).seen) }
    {
        match rhythm {
            Rhythm::Beat => {
                self.serving.gate.pass(&self.serving.rt, Point::Beat, 0);
                self.beat(pass, chooser)
            }
            Rhythm::Time => {
                self.serving.gate.pass(&self.serving.rt, Point::Time, 0);
                self.time(pass, chooser)
            }
        }
    }

    /// Waits for its turn, does once what recurs, and wakes who flushes.
    fn recur(&self, pass: &mut PassOf<T>, chooser: &Chooser, rhythm: Rhythm) -> Option<Halt>
        requires since { IsSince N.lock N.start pass.old }
        ensures since { IsSince N.lock N.start pass.new }
        ensures cause { IfSome result (λ halt. HaltCause halt N.start (known pass.new).seen) }
    {
        let halt = self.take_turn(pass, chooser, rhythm);
        self.serving.gate.wake(Point::Flush, 0);
        halt
    }

    /// Does what recurs until no links are left.
    fn keep_rhythm(
        &self,
        mut pass: PassOf<T>,
        chooser: &Chooser,
        rhythm: Rhythm,
    ) -> Handed<P, LockedOf<T>, N>
        requires { IsSince N.lock N.start pass }
    {
        for _ in self.serving.rt.forever() {
            if let Some(halt) = self.recur(&mut pass, chooser, rhythm) {
                return Handed::Halted(Halted::new(halt, pass));
            }
            if self.is_ending() {
                return Handed::WorkerEnded(NamedPass::new(pass));
            }
        }
        unreachable!()
    }

    /// Flushes once. What was entered before a shutdown is then flushed too.
    fn flush_entered(&self, pass: &mut PassOf<T>) -> Option<Halt>
        requires since { IsSince N.lock N.start pass.old }
        ensures since { IsSince N.lock N.start pass.new }
        ensures cause { IfSome result (λ halt. HaltCause halt N.start (known pass.new).seen) }
    {
        let is_stopping = self.serving.desk.stopping(&self.serving.rt, pass);
        let flushed = self.serving.desk.flush(&self.serving.rt, pass);
        halt_after(flushed, is_stopping)
    }

    /// Keeps those of these connections for which there is something to take, or which aren't live.
    fn keep_news(&self, pass: &mut PassOf<T>, conns: &mut Vec<u32>)
        requires since { IsSince N.lock N.start pass.old }
        ensures since { IsSince N.lock N.start pass.new }
        ensures later { Extends (known pass.old).seen (known pass.new).seen }
    {
        self.serving.desk.keep_news(&self.serving.rt, pass, conns);
    }

    /// Wakes the writers that have something to write, or whose connection isn't live. Where there is no memory for a list of
    /// the writers it wakes all.
    fn wake_writers(&self, pass: &mut PassOf<T>, conns: &mut Vec<u32>)
        requires since { IsSince N.lock N.start pass.old }
        ensures since { IsSince N.lock N.start pass.new }
        ensures later { Extends (known pass.old).seen (known pass.new).seen }
    {
        if self.writers.copy_into(&self.serving.rt, conns).is_err() {
            self.writers.wake_all(&self.serving.rt, &*self.serving.gate);
        }
        self.keep_news(pass, conns);
        wake_each(&*self.serving.gate, conns.as_slice());
    }

    /// Flushes once, and wakes the writers that then have something to write. `conns` is a buffer.
    fn flush(&self, pass: &mut PassOf<T>, conns: &mut Vec<u32>) -> Option<Halt>
        requires since { IsSince N.lock N.start pass.old }
        ensures since { IsSince N.lock N.start pass.new }
        ensures cause { IfSome result (λ halt. HaltCause halt N.start (known pass.new).seen) }
    {
        let halt = self.flush_entered(pass);
        self.wake_writers(pass, conns);
        halt
    }

    /// Flushes until no links are left, and once more.
    fn keep_flushing(&self, mut pass: PassOf<T>) -> Handed<P, LockedOf<T>, N>
        requires { IsSince N.lock N.start pass }
    {
        let mut conns = Vec::new(self.serving.alloc);
        self.serving.gate.pass(&self.serving.rt, Point::Flush, 0);
        for _ in self.serving.rt.forever() {
            let wakes = self.serving.gate.wakes(Point::Flush, 0);
            let is_last = self.is_ending();
            if let Some(halt) = self.flush(&mut pass, &mut conns) {
                return Handed::Halted(Halted::new(halt, pass));
            }
            if is_last {
                return Handed::WorkerEnded(NamedPass::new(pass));
            }
            self.serving
                .gate
                .wait(&self.serving.rt, Point::Flush, 0, wakes);
        }
        unreachable!()
    }
}

impl<P: Port + Drop, T: SessionTypes, N: Naming> ChoosingJob for Recurring<P, T, N> {
    fn run(self, chooser: &Chooser) {
        let Recurring {
            shared,
            rhythm,
            pass,
        } = self;
        let NamedPass { pass, of: _ } = pass;
        let handed = shared.keep_rhythm(pass, chooser, rhythm);
        shared.hand(handed);
    }
}

impl<P: Port + Drop, T: SessionTypes, N: Naming> Job for Flushing<P, T, N> {
    fn run(self) {
        let Flushing { shared, pass } = self;
        let NamedPass { pass, of: _ } = pass;
        let handed = shared.keep_flushing(pass);
        shared.hand(handed);
    }
}
