//! The store.

ghost use Rattle.std.specs.Prelude.{◌≡◌, ◌≤◌, ◌^◌, ◌↔◌, ◌⊎◌, ◌∷◌, ◌++◌, ℕ, List, [], All, length, reverse, true, false, Ok, Err, is_err, IfOk, IfErr, OnOk, OnErr};
ghost use Rattle.cluster_types.specs.declared.entry.Entry.{Entry};
ghost use Rattle.cluster_types.specs.Causes.{Rose};
ghost use Rattle.cluster_types.specs.Limits.{last_moment};
ghost use Rattle.disk_model.specs.Crashes.{Only, LeavesOnly};
ghost use Rattle.cluster_defs.specs.Facts.{event_in};
ghost use Rattle.cluster_defs.specs.Scheduling.{due, may_take, Allowed};
ghost use Rattle.cluster_defs.specs.Histories.{facts, Legal, decide_all};
ghost use Rattle.cluster_defs.specs.Outs.{outs_on, outs_from};
ghost use Rattle.cluster_defs.specs.Lives.{is_open, sendings_to, told_after};
ghost use Rattle.entry_outs.specs.Asked.{type_on, told_type};
ghost use Rattle.record_codec.specs.Spelling.{IsWithinLimits};
ghost use Rattle.record_codec.specs.Records.{spellings};
ghost use Rattle.task_journal.specs.Journal.{StandsFor, IsOfDisk};
ghost use Rattle.task_journal.specs.Room.{IsTrimmed};
ghost use Rattle.task_journal.specs.Settled.{Outcome};
ghost use Rattle.cluster_store.specs.Openings.{opened};
ghost use Rattle.cluster_store.specs.Queues.{left_at, room_at, is_news, waits};
ghost use Rattle.cluster_store.specs.Held.{need_after};
ghost use Rattle.cluster_core.specs.Steps.{kept_from};
ghost use Rattle.cluster_core.specs.Size.{size_since, is_past};
ghost use Rattle.cluster_store.specs.Stores.{StoreView, Becomes, told, up_to, IsRefused, IsTaken, IsLeft, HasServed, WhyUnserved, IsRefusedFor, answer, is_live, next_to, told_by, fulls_by, written};

use crate::fault::{ServeError, StepError};
use crate::queues::Queues;
use crate::taken::Taken;
use cluster_core::machine::{Core, Made};
use cluster_core::meaning::Meaning;
use cluster_core::plan::Plan;
use cluster_core::size::HistorySize;
use cluster_types::config::Config;
use cluster_types::entry::{Entry, Input};
use cluster_types::event::Event;
use cluster_types::out::Outs;
use disk_model::disk::Disk;
use load_schemes::chooser::Chooser;
use std::alloc::AllocError;
use std::marker::Model;
use task_journal::batch::Batch;
use task_journal::fault::{AppendFault, OpenFault};
use task_journal::journal::Journal;
use task_journal::opening::Refused;

/// A cluster whose history a journal keeps. Steps are taken in memory; a flush writes what is kept of them, and lets out
/// what they send.
#[derive(Drop)]
pub struct Store<D: Disk> {
    journal: Journal<D>,
    core: Core,
    /// What is kept of the steps since the last flush.
    batch: Batch,
    queues: Queues,
    mark: u64,
    /// How many entries are to be safe before what the newest entry sends may be handed out.
    need: u64,
    fulls: u64,
}

impl<D: Disk> Model for Store<D> {
    ghost use Rattle.std.specs.Prelude.{◌≡◌, false};
    ghost use Rattle.task_journal.specs.Journal.{StandsFor};
    ghost use Rattle.cluster_store.specs.Stores.{StoreView, up_to, written};
    ghost use Rattle.cluster_store.specs.Held.{IsHeld};
    ghost use Rattle.cluster_store.specs.Queues.{left_at};

    ghost Value = { StoreView D };

    ghost view = { λ s. record { disk = s.journal.disk; history = s.core.history; limits = s.core.limits; mark = s.mark; lines = s.queues; failed = s.journal.failed; fulls = s.fulls } };

    ghost invariant = { λ s. IsHeld s.core.history s.mark s.need (left_at s.queues) s.batch
        × (s.journal.failed ≡ false → D.tells → StandsFor (D.content s.journal.disk) (written (up_to s.mark s.core.history))) };
}

/// Takes all the memory of a step: room for what it sends, and what is kept of it into the batch. At an error the batch
/// stays.
fn take_memory(batch: &mut Batch, queues: &mut Queues, plan: &Plan) -> Result<(), StepError>
    requires { All IsWithinLimits plan.now.kept }
    ensures batch { OnOk result (batch.new ≡ batch.old ++ plan.now.kept) }
    ensures room { OnOk result ((c : ℕ) → length (outs_on c plan.now.outs) ≤ room_at queues.new c) }
    ensures left { (c : ℕ) → left_at queues.new c ≡ left_at queues.old c }
    ensures same { OnErr result (batch.new ≡ batch.old) }
    ensures long { result ≡ Err StepError.BatchFull → 2 ^ 32 ≤ length (spellings (batch.old ++ plan.now.kept)) }
    ensures short { OnOk result (2 ^ 32 ≤ length (spellings (batch.old ++ plan.now.kept)) → ⊥) }
    ensures error { IfErr result (λ e. (e ≡ StepError.BatchFull) ⊎ (e ≡ StepError.OutOfMemory)) }
{
    queues.make_rooms(plan.outs())?;
    Ok(batch.extend(plan.kept())?)
}

/// Writes a batch and empties it. Where it has no entries no call of the disk is made.
fn write_batch<D: Disk>(journal: &mut Journal<D>, batch: &mut Batch) -> Result<(), AppendFault>
    ensures ok { OnOk result (batch.new ≡ []) }
    ensures working { OnOk result (journal.old.failed ≡ false) }
    ensures err { OnErr result (batch.new ≡ batch.old) }
    ensures idle { batch.old ≡ [] → journal.new.disk ≡ journal.old.disk }
    ensures stands { D.tells → OnOk result ((list : List Entry) → StandsFor (D.content journal.old.disk) list → StandsFor (D.content journal.new.disk) (list ++ batch.old)) }
    ensures any_moment { D.tells → journal.old.failed ≡ false → (list : List Entry) → StandsFor (D.content journal.old.disk) list
        → LeavesOnly D.moment D.image_since journal.old.disk journal.new.disk (Outcome list batch.old) }
    ensures reopen { (result ≡ Err AppendFault.Reopen) ↔ (journal.old.failed ≡ true) }
    ensures unchanged { result ≡ Err AppendFault.Reopen → journal.new ≡ journal.old }
    ensures failed { journal.new.failed ≡ is_err result }
    ensures later { D.faults journal.old.disk ≤ D.faults journal.new.disk }
    ensures cause { result ≡ Err AppendFault.DiskFault → Rose (D.faults journal.old.disk) (D.faults journal.new.disk) }
{
    if journal.failed() {
        return Err(AppendFault::Reopen);
    }
    if batch.is_empty() {
        return Ok(());
    }
    journal.append(batch)?;
    batch.clear();
    Ok(())
}

/// Takes a step of a core, and what is kept of it into a batch. At an error both stay.
fn take_step(
    core: &mut Core,
    batch: &mut Batch,
    chooser: &Chooser,
    input: Input,
    meaning: Meaning,
) -> Result<Made, StepError>
    requires event { meaning.event ≡ event_in (facts core.old.history) (Entry.Input input) }
    requires kind { meaning.msg_type ≡ told_type meaning.event (type_on (Entry.Input input)) }
    requires taken { may_take (facts core.old.history) input meaning.event ≡ true }
    requires fits { IsWithinLimits (Entry.Input input) }
    ensures history { OnOk result (core.new.history ≡ decide_all (Entry.Input input ∷ core.old.history)) }
    ensures outs { IfOk result (λ m. m.outs ≡ outs_from (length core.old.history) core.new.history) }
    ensures kept { IfOk result (λ m. m.kept ≡ kept_from (length core.old.history) core.new.history) }
    ensures batch { OnOk result (batch.new ≡ batch.old ++ kept_from (length core.old.history) core.new.history) }
    ensures allowed { OnOk result (Allowed (facts core.old.history) (Entry.Input input)) }
    ensures within { OnOk result (is_past core.old.limits (size_since (decide_all (Entry.Input input ∷ core.old.history))) ≡ false) }
    ensures short { OnOk result (2 ^ 32 ≤ length (spellings (batch.old ++ kept_from (length core.old.history) (decide_all (Entry.Input input ∷ core.old.history)))) → ⊥) }
    ensures same { OnErr result (core.new.history ≡ core.old.history) }
    ensures stays { OnErr result (batch.new ≡ batch.old) }
    ensures limits { core.new.limits ≡ core.old.limits }
    ensures why { IfErr result (IsRefusedFor core.old.limits (decide_all (Entry.Input input ∷ core.old.history)) (batch.old ++ kept_from (length core.old.history) (decide_all (Entry.Input input ∷ core.old.history)))) }
{
    let plan = core.plan(chooser, input, meaning)?;
    batch.extend(plan.kept())?;
    Ok(core.apply(plan))
}

/// How many entries are to be safe before what a step sends may be handed out: all up to its end where any of it is
/// kept, and else those that were needed before.
fn need_after(need: u64, kept: &[Entry], size: u64) -> u64
    ensures { result ≡ need_after need kept.now size }
{
    match kept {
        [] => need,
        [_, ..] => size,
    }
}

/// The connection that an input takes down.
fn taken_down(input: &Input) -> Option<u32> {
    match input {
        Input::Down { conn, .. } => Some(*conn),
        _ => None,
    }
}

impl<D: Disk> Store<D> {
    /// A store over a journal that holds what is kept of the history of a core. No outs wait.
    fn over(journal: Journal<D>, core: Core) -> Result<Store<D>, Refused<D>>
        requires { D.tells → StandsFor (D.content journal.disk) (written core.history) }
        ensures history { IfOk result (λ s. (s.history ≡ core.history) × (s.mark ≡ length core.history) × (s.limits ≡ core.limits)) }
        ensures told { IfOk result (λ s. (c : ℕ) → told s c ≡ length (sendings_to core.history c)) }
        ensures journal { IfOk result (λ s. (s.disk ≡ journal.disk) × (s.failed ≡ journal.failed) × (s.fulls ≡ 0)) }
        ensures disk { IfErr result (λ r. r.disk ≡ journal.disk) }
        ensures why { IfErr result (λ r. r.why ≡ OpenFault.OutOfMemory) }
    {
        let alloc = core.allocator();
        let size = core.history().len() as u64;
        match Batch::empty(alloc) {
            Ok(batch) => Ok(Store {
                journal,
                core,
                batch,
                queues: Queues::new(alloc),
                mark: size,
                need: size,
                fulls: 0,
            }),
            Err(_) => Err(Refused {
                disk: journal.close(),
                why: OpenFault::OutOfMemory,
            }),
        }
    }

    /// The history, in the order in which its entries came.
    pub fn history(&self) -> &[Entry]
        ensures is { reverse result.now ≡ self.now.history }
        ensures legal { Legal self.now.history }
        ensures rests { due (facts self.now.history) ≡ None }
    {
        self.core.history()
    }

    /// The core.
    pub fn core(&self) -> &Core
        ensures history { result.now.history ≡ self.now.history }
        ensures limits { result.now.limits ≡ self.now.limits }
    {
        &self.core
    }

    /// How many of the entries are safe on the disk.
    pub fn mark(&self) -> u64
        ensures is { result ≡ self.now.mark }
        ensures fits { self.now.mark ≤ length self.now.history }
    {
        self.mark
    }

    /// How many steps the limits refused since the store was opened; it stays at the greatest number.
    pub fn fulls(&self) -> u64
        ensures { result ≡ self.now.fulls }
    {
        self.fulls
    }

    /// Whether a call of the disk has failed. While none has, a crash leaves what the disk holds, and that is what is kept
    /// of the entries that are safe.
    pub fn failed(&self) -> bool
        ensures is { result ≡ self.now.failed }
        ensures durable { D.tells → self.now.failed ≡ false → Only (D.content self.now.disk) (D.image self.now.disk) }
        ensures holds { D.tells → self.now.failed ≡ false → StandsFor (D.content self.now.disk) (written (up_to self.now.mark self.now.history)) }
    {
        self.journal.failed()
    }

    /// The disk.
    pub fn close(self) -> D
        ensures { result ≡ self.disk }
    {
        let Store { journal, .. } = self;
        journal.close()
    }

    /// What the message of an input means.
    pub fn understand(&mut self, input: &Input) -> Result<Meaning, AllocError>
        ensures same { self.new ≡ self.old }
        ensures event { IfOk result (λ m. m.event ≡ event_in (facts self.old.history) (Entry.Input input.now)) }
        ensures kind { IfOk result (λ m. m.msg_type ≡ told_type m.event (type_on (Entry.Input input.now))) }
    {
        self.core.understand(input)
    }

    /// Whether an input may come. `event` is what its message means.
    pub fn may_take(&mut self, input: &Input, event: &Option<Event>) -> Result<bool, AllocError>
        ensures same { self.new ≡ self.old }
        ensures may { IfOk result (λ b. b ≡ may_take (facts self.old.history) input.now event.now) }
    {
        self.core.may_take(input, event)
    }

    /// Takes the step of an input. Where it is an Open, no outs wait.
    fn grow(&mut self, chooser: &Chooser, input: Input, meaning: Meaning) -> Result<(), StepError>
        requires event { meaning.event ≡ event_in (facts self.old.history) (Entry.Input input) }
        requires kind { meaning.msg_type ≡ told_type meaning.event (type_on (Entry.Input input)) }
        requires taken { may_take (facts self.old.history) input meaning.event ≡ true }
        requires fits { IsWithinLimits (Entry.Input input) }
        requires working { self.old.failed ≡ false }
        requires calm { is_open (Entry.Input input) ≡ true → (c : ℕ) → told self.old c ≡ length (sendings_to self.old.history c) }
        ensures ok { OnOk result (Becomes self.old (decide_all (Entry.Input input ∷ self.old.history)) (told_after (Entry.Input input) (told self.old)) self.old.fulls self.new) }
        ensures err { OnErr result (Becomes self.old self.old.history (told self.old) self.old.fulls self.new) }
        ensures why { IfErr result (IsRefused false self.old.mark self.old.limits (decide_all (Entry.Input input ∷ self.old.history))) }
        ensures taken { OnOk result (IsTaken false self.old.mark self.old.limits (decide_all (Entry.Input input ∷ self.old.history))) }
    {
        let plan = self.core.plan(chooser, input, meaning)?;
        match take_memory(&mut self.batch, &mut self.queues, &plan) {
            Ok(()) => {}
            Err(error) => return Err(error),
        }
        let Made { outs, kept } = self.core.apply(plan);
        let size = self.core.history().len() as u64;
        self.need = need_after(self.need, kept.as_slice(), size);
        self.queues.push_all(outs, self.need);
        Ok(())
    }

    /// Takes the step of an Open, where no outs wait.
    fn open_step(&mut self, chooser: &Chooser, config: Config, moment: u64) -> Result<(), StepError>
        requires moment { moment ≤ last_moment }
        requires working { self.old.failed ≡ false }
        requires calm { (c : ℕ) → told self.old c ≡ length (sendings_to self.old.history c) }
        ensures ok { OnOk result (Becomes self.old (opened config moment self.old.history) (λ c. 0) self.old.fulls self.new) }
        ensures err { OnErr result (Becomes self.old self.old.history (told self.old) self.old.fulls self.new) }
        ensures why { IfErr result (IsRefused false self.old.mark self.old.limits (opened config moment self.old.history)) }
    {
        let input = Input::Open {
            moment,
            scheme: config.scheme,
            hwm: config.hwm,
            misses: config.misses,
        };
        let meaning = self.core.understand(&input)?;
        self.grow(chooser, input, meaning)
    }

    /// Counts a step that the limits refused.
    fn count_full(&mut self, error: StepError)
        ensures { self.new ≡ record self.old { fulls = fulls_by error self.old.fulls } }
    {
        if let StepError::HistoryFull { .. } = error {
            self.fulls = self.fulls.saturating_add(1);
        }
    }

    /// Takes a step: an input that may come, with its meaning, and all decisions that are then due. No call of the disk
    /// is made. It comes with all its memory or not at all: at an error only the count of full histories may change.
    pub fn step(
        &mut self,
        chooser: &Chooser,
        input: Input,
        meaning: Meaning,
    ) -> Result<(), StepError>
        requires event { meaning.event ≡ event_in (facts self.old.history) (Entry.Input input) }
        requires kind { meaning.msg_type ≡ told_type meaning.event (type_on (Entry.Input input)) }
        requires taken { may_take (facts self.old.history) input meaning.event ≡ true }
        requires fits { IsWithinLimits (Entry.Input input) }
        requires no_open { is_open (Entry.Input input) ≡ false }
        ensures ok { OnOk result (Becomes self.old (decide_all (Entry.Input input ∷ self.old.history)) (told self.old) self.old.fulls self.new) }
        ensures err { IfErr result (λ e. Becomes self.old self.old.history (told self.old) (fulls_by e self.old.fulls) self.new) }
        ensures why { IfErr result (IsRefused self.old.failed self.old.mark self.old.limits (decide_all (Entry.Input input ∷ self.old.history))) }
        ensures taken { OnOk result (IsTaken self.old.failed self.old.mark self.old.limits (decide_all (Entry.Input input ∷ self.old.history))) }
    {
        if self.failed() {
            return Err(StepError::Reopen);
        }
        let down = taken_down(&input);
        if let Err(error) = self.grow(chooser, input, meaning) {
            self.count_full(error);
            return Err(error);
        }
        if let Some(conn) = down {
            self.queues.forget_idle(conn);
        }
        Ok(())
    }

    /// Writes what is kept of the steps since the last flush, without memory. Where nothing is, no call of the disk is
    /// made. At `Ok` the whole history is safe. After `DiskFault` the disk may have all of it or none, and the store is
    /// to be opened again.
    pub fn flush(&mut self) -> Result<(), AppendFault>
        ensures ok { OnOk result (self.new.mark ≡ length self.old.history) }
        ensures err { OnErr result (self.new.mark ≡ self.old.mark) }
        ensures history { self.new.history ≡ self.old.history }
        ensures limits { self.new.limits ≡ self.old.limits }
        ensures told { (c : ℕ) → told self.new c ≡ told self.old c }
        ensures fulls { self.new.fulls ≡ self.old.fulls }
        ensures failed { self.new.failed ≡ is_err result }
        ensures reopen { (result ≡ Err AppendFault.Reopen) ↔ (self.old.failed ≡ true) }
        ensures unchanged { result ≡ Err AppendFault.Reopen → self.new ≡ self.old }
        // Where nothing is kept of the entries that aren't safe, no call of the disk is made.
        ensures idle { kept_from self.old.mark self.old.history ≡ [] → self.new.disk ≡ self.old.disk }
        // At `Ok` the disk holds what is kept of the history.
        ensures stands { D.tells → OnOk result (StandsFor (D.content self.new.disk) (written self.old.history)) }
        // A crash at any moment of the call leaves what was safe before it, or all that is kept.
        ensures any_moment { D.tells → self.old.failed ≡ false → (list : List Entry) → StandsFor (D.content self.old.disk) list
            → LeavesOnly D.moment D.image_since self.old.disk self.new.disk (λ c. StandsFor c list ⊎ StandsFor c (written self.old.history)) }
        ensures later { D.faults self.old.disk ≤ D.faults self.new.disk }
        ensures cause { result ≡ Err AppendFault.DiskFault → Rose (D.faults self.old.disk) (D.faults self.new.disk) }
    {
        write_batch(&mut self.journal, &mut self.batch)?;
        self.mark = self.core.history().len() as u64;
        Ok(())
    }

    /// From now on the journal has room for batches before they come, which is made so many octets at a time. Nothing is
    /// written now.
    pub fn keep_room(&mut self, octets: usize) -> Result<(), AllocError>
        ensures { self.new ≡ self.old }
    {
        self.journal.keep_room(self.core.allocator(), octets)
    }

    /// Cuts off what stands behind the journal, as room that was kept; from then on none is kept. After `DiskFault` the
    /// store is to be opened again.
    pub fn trim(&mut self) -> Result<(), AppendFault>
        ensures same { self.new ≡ record self.old { disk = self.new.disk; failed = is_err result } }
        ensures reopen { (result ≡ Err AppendFault.Reopen) ↔ (self.old.failed ≡ true) }
        ensures unchanged { result ≡ Err AppendFault.Reopen → self.new ≡ self.old }
        // At `Ok` nothing stands behind the journal.
        ensures trimmed { D.tells → OnOk result (IsTrimmed (D.content self.new.disk)) }
        // A crash at any moment of the call leaves what is safe.
        ensures any_moment { D.tells → self.old.failed ≡ false → LeavesOnly D.moment D.image_since self.old.disk self.new.disk
            (λ c. StandsFor c (written (up_to self.old.mark self.old.history))) }
        ensures later { D.faults self.old.disk ≤ D.faults self.new.disk }
        ensures cause { result ≡ Err AppendFault.DiskFault → Rose (D.faults self.old.disk) (D.faults self.new.disk) }
    {
        self.journal.trim()
    }

    /// Takes a step where no outs wait: an input that may come, with its meaning, and all decisions that are then due. It
    /// writes what is kept of it, and of the steps before it, and gives what it sends. It is a step, a flush and the takes
    /// of all outs in one.
    pub fn serve(
        &mut self,
        chooser: &Chooser,
        input: Input,
        meaning: Meaning,
    ) -> Result<Outs, ServeError>
        requires event { meaning.event ≡ event_in (facts self.old.history) (Entry.Input input) }
        requires kind { meaning.msg_type ≡ told_type meaning.event (type_on (Entry.Input input)) }
        requires taken { may_take (facts self.old.history) input meaning.event ≡ true }
        requires fits { IsWithinLimits (Entry.Input input) }
        requires calm { (c : ℕ) → told self.old c ≡ length (sendings_to self.old.history c) }
        ensures outs { IfOk result (λ outs. outs ≡ outs_from (length self.old.history) (decide_all (Entry.Input input ∷ self.old.history))) }
        ensures ok { OnOk result (HasServed self.old (decide_all (Entry.Input input ∷ self.old.history)) self.new) }
        ensures err { IfErr result (IsLeft self.old (decide_all (Entry.Input input ∷ self.old.history)) self.new) }
        ensures told { (c : ℕ) → told self.new c ≡ length (sendings_to self.new.history c) }
        ensures taken { OnOk result (IsTaken self.old.failed self.old.mark self.old.limits (decide_all (Entry.Input input ∷ self.old.history))) }
        ensures why { IfErr result (WhyUnserved self.old.failed self.old.mark self.old.limits (decide_all (Entry.Input input ∷ self.old.history))) }
        // A crash at any moment of the call leaves what was safe before it, or all that is kept.
        ensures any_moment { D.tells → self.old.failed ≡ false → LeavesOnly D.moment D.image_since self.old.disk self.new.disk
            (λ c. StandsFor c (written (up_to self.old.mark self.old.history)) ⊎ StandsFor c (written (decide_all (Entry.Input input ∷ self.old.history)))) }
        ensures later { D.faults self.old.disk ≤ D.faults self.new.disk }
        ensures cause { result ≡ Err ServeError.DiskFault → Rose (D.faults self.old.disk) (D.faults self.new.disk) }
    {
        if self.failed() {
            return Err(ServeError::Step(StepError::Reopen));
        }
        let Made { outs, kept } = match take_step(
            &mut self.core,
            &mut self.batch,
            chooser,
            input,
            meaning,
        ) {
            Ok(made) => made,
            Err(error) => {
                self.count_full(error);
                return Err(ServeError::Step(error));
            }
        };
        let size = self.core.history().len() as u64;
        self.need = need_after(self.need, kept.as_slice(), size);
        match write_batch(&mut self.journal, &mut self.batch) {
            Ok(()) => {
                self.mark = size;
                Ok(outs)
            }
            Err(_) => Err(ServeError::DiskFault),
        }
    }

    /// Whether a connection is live.
    pub fn is_live(&self, conn: u32) -> bool
        ensures { result ≡ is_live self.now.history conn }
    {
        self.core.is_live(conn)
    }

    /// Takes the next out to a connection, where all that is kept up to its entry is safe, without memory.
    pub fn take_out(&mut self, conn: u32) -> Taken
        ensures answer { result ≡ answer (is_live self.old.history conn) self.old.mark (next_to self.old conn) }
        ensures told { Becomes self.old self.old.history (told_by result conn (told self.old)) self.old.fulls self.new }
    {
        let live = self.is_live(conn);
        self.queues.hand_out(conn, self.mark, live)
    }

    /// Whether `take_out` would answer anything but that there is none yet.
    pub fn has_news(&self, conn: u32) -> bool
        ensures { result ≡ is_news (answer (is_live self.now.history conn) self.now.mark (next_to self.now conn)) }
    {
        self.queues.has_news(conn, self.mark, self.is_live(conn))
    }

    /// A store over a journal and the core that has made the steps of the journal's list again. It takes the step of an
    /// Open and writes it.
    pub(crate) fn begin(
        journal: Journal<D>,
        core: Core,
        chooser: &Chooser,
        config: Config,
        moment: u64,
    ) -> Result<Store<D>, Refused<D>>
        requires holds { D.tells → StandsFor (D.content journal.disk) (written core.history) }
        requires working { journal.failed ≡ false }
        requires moment { moment ≤ last_moment }
        ensures history { IfOk result (λ s. s.history ≡ opened config moment core.history) }
        ensures limits { IfOk result (λ s. s.limits ≡ core.limits) }
        ensures mark { IfOk result (λ s. s.mark ≡ length s.history) }
        ensures told { IfOk result (λ s. (c : ℕ) → told s c ≡ 0) }
        ensures fresh { IfOk result (λ s. (s.failed ≡ false) × (s.fulls ≡ 0)) }
        ensures stands { D.tells → IfOk result (λ s. StandsFor (D.content s.disk) (written s.history)) }
        ensures any_moment { D.tells → IfOk result (λ s. LeavesOnly D.moment D.image_since journal.disk s.disk (λ c. StandsFor c (written core.history) ⊎ StandsFor c (written s.history))) }
        ensures any_moment_err { D.tells → IfErr result (λ r. r.why ≡ OpenFault.DiskFault → LeavesOnly D.moment D.image_since journal.disk r.disk (λ c. StandsFor c (written core.history)
            ⊎ StandsFor c (written (opened config moment core.history)))) }
        ensures untouched { IfErr result (λ r. r.why ≡ OpenFault.OutOfMemory → r.disk ≡ journal.disk) }
        ensures fault { IfErr result (λ r. IsOfDisk r.why) }
        ensures later { IfOk result (λ s. D.faults journal.disk ≤ D.faults s.disk) }
        ensures later_err { IfErr result (λ r. D.faults journal.disk ≤ D.faults r.disk) }
        ensures cause { IfErr result (λ r. r.why ≡ OpenFault.DiskFault → Rose (D.faults journal.disk) (D.faults r.disk)) }
    {
        let mut store = match Store::over(journal, core) {
            Ok(store) => store,
            Err(refused) => return Err(refused),
        };
        if store.open_step(chooser, config, moment).is_err() {
            return Err(Refused {
                disk: store.close(),
                why: OpenFault::OutOfMemory,
            });
        }
        if store.flush().is_err() {
            return Err(Refused {
                disk: store.close(),
                why: OpenFault::DiskFault,
            });
        }
        Ok(store)
    }
}
