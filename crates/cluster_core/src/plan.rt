//! Plans of steps.

ghost use Rattle.std.specs.Prelude.{◌≡◌, ◌≤◌, ◌++◌, ◌∷◌, ◌+◌, [], length, reverse, nat_lt, true, Some, None, IfOk, OnOk};
ghost use Rattle.cluster_types.specs.declared.entry.Entry.{Entry};
ghost use Rattle.cluster_types.specs.Limits.{last_moment};
ghost use Rattle.cluster_defs.specs.Facts.{event_in};
ghost use Rattle.cluster_defs.specs.Scheduling.{due, is_kept_as, Allowed};
ghost use Rattle.cluster_defs.specs.Histories.{facts, asks_shutdown, is_stopping, decide_all};
ghost use Rattle.cluster_defs.specs.Outs.{outs_as};
ghost use Rattle.cluster_state.specs.Plain.{facts_in, plain_after, InTime};
ghost use Rattle.cluster_state.specs.Stands.{plain};
ghost use Rattle.entry_outs.specs.Asked.{type_on, told_type};
ghost use Rattle.entry_outs.specs.Reached.{IsNext};
ghost use Rattle.cluster_core.specs.Steps.{PlanView, IsReadOff, IsGrown, RestsUnkept, planned, kept_one, entry_place, stops_after};
ghost use Rattle.cluster_core.specs.More.{IsMore};
ghost use Rattle.cluster_core.specs.Growth.{size_next, sizes_next};

use crate::known::Known;
use crate::meaning::Meaning;
use crate::size::HistorySize;
use cluster_types::entry::{Entries, Entry, Input};
use cluster_types::event::{Event, Query};
use cluster_types::out::Out;
use due_decisions::due::due;
use load_schemes::chooser::Chooser;
use std::alloc::{AllocError, Global};
use std::marker::Model;
use thiserror::Error;

/// Why no step is planned.
#[derive(Clone, Copy, Debug, PartialEq, Eq, Error)]
pub enum PlanError {
    /// The history would pass a limit. These are its entries after the last Open and its decisions, with the step, and
    /// the octets of their records.
    #[error("the history is full at {entries} entries and {bytes} bytes")]
    HistoryFull { entries: u64, bytes: u64 },
    #[error("out of memory")]
    OutOfMemory,
}

impl From<AllocError> for PlanError {
    ghost use Rattle.std.specs.Prelude.{◌≡◌};
    ghost use Rattle.cluster_core.specs.declared.plan.PlanError.{PlanError};

    ghost from_gives = { λ _ e. e ≡ PlanError.OutOfMemory };

    fn from(_: AllocError) -> Self {
        PlanError::OutOfMemory
    }
}

/// A step that is worked out, with all the memory that it takes.
#[derive(Drop)]
pub struct Plan {
    pub(crate) input: Input,
    pub(crate) decisions: Vec<Entry>,
    pub(crate) outs: Vec<Out>,
    pub(crate) kept: Vec<Entry>,
    pub(crate) known: Known,
    /// Whether a shutdown was asked since the last Open, after the step.
    pub(crate) stops: bool,
}

impl Model for Plan {
    ghost use Rattle.cluster_state.specs.Stands.{plain};
    ghost use Rattle.cluster_core.specs.Steps.{PlanView};

    ghost Value = { PlanView };

    ghost view = { λ p. record { input = p.input; decisions = p.decisions.items; outs = p.outs.items; kept = p.kept.items; plain = plain p.known.state; place = p.known.place; stops = p.stops } };
}

/// A clone, which shares what the entry holds.
fn same_entry(entry: &Entry) -> Result<Entry, AllocError>
    ensures { IfOk result (λ e. e ≡ entry.now) }
{
    entry.clone()
}

/// The entry, where it is kept.
fn kept_one(alloc: Global, is_kept: bool, entry: Entry) -> Result<Vec<Entry>, AllocError>
    ensures { IfOk result (λ v. v.items ≡ kept_one is_kept entry) }
{
    let mut kept = Vec::new(alloc);
    if is_kept {
        kept.push(entry)?;
    }
    Ok(kept)
}

/// Whether a message asks for a shutdown.
fn asks_shutdown(event: &Option<Event>) -> bool
    ensures { result ≡ asks_shutdown event.now }
{
    match event {
        Some(Event::Ask(Query::Shutdown)) => true,
        _ => false,
    }
}

/// Whether a shutdown was asked since the last Open, after an input.
fn stops_after(was: bool, input: &Input, event: &Option<Event>) -> bool
    ensures { result ≡ stops_after was input.now event.now }
{
    match input {
        Input::Open { .. } => false,
        _ => asks_shutdown(event) || was,
    }
}

/// What an input sends, and what is kept of it.
#[derive(Drop)]
struct Sent {
    outs: Vec<Out>,
    kept: Vec<Entry>,
}

/// Takes an input with its meaning.
fn take_input(
    alloc: Global,
    known: &mut Known,
    input: &Input,
    meaning: &Meaning,
) -> Result<Sent, AllocError>
    requires next { IsNext (plain known.old.state) (Entry.Input input.now) }
    requires kind { meaning.now.msg_type ≡ told_type meaning.now.event (type_on (Entry.Input input.now)) }
    requires time { InTime (Entry.Input input.now) }
    requires now { known.old.state.moment ≤ last_moment }
    ensures outs { IfOk result (λ s. s.outs.items ≡ outs_as known.new.place (facts_in (plain known.old.state)) (Entry.Input input.now) meaning.now.event) }
    ensures kept { IfOk result (λ s. s.kept.items ≡ kept_one (is_kept_as (facts_in (plain known.old.state)) (Entry.Input input.now) meaning.now.event) (Entry.Input input.now)) }
    ensures data { OnOk result (plain known.new.state ≡ plain_after (facts_in (plain known.old.state)) (Entry.Input input.now) meaning.now.event (plain known.old.state)) }
    ensures place { OnOk result (known.new.place ≡ entry_place (Entry.Input input.now) known.old.place) }
{
    let entry = Entry::Input(input.clone()?);
    let taken = known.take_told(&entry, meaning)?;
    let kept = kept_one(alloc, taken.is_kept, entry)?;
    Ok(Sent {
        outs: taken.outs,
        kept,
    })
}

impl Plan {
    /// A plan that has an input alone so far, with its meaning. `was_stopping` is whether a shutdown was asked before.
    fn begin(
        alloc: Global,
        known: Known,
        input: Input,
        meaning: &Meaning,
        was_stopping: bool,
    ) -> Result<Plan, AllocError>
        requires next { IsNext (plain known.state) (Entry.Input input) }
        requires kind { meaning.now.msg_type ≡ told_type meaning.now.event (type_on (Entry.Input input)) }
        requires time { InTime (Entry.Input input) }
        requires now { known.state.moment ≤ last_moment }
        ensures input { IfOk result (λ p. p.input ≡ input) }
        ensures decisions { IfOk result (λ p. p.decisions ≡ []) }
        ensures place { IfOk result (λ p. p.place ≡ entry_place (Entry.Input input) known.place) }
        ensures data { IfOk result (λ p. p.plain ≡ plain_after (facts_in (plain known.state)) (Entry.Input input) meaning.now.event (plain known.state)) }
        ensures outs { IfOk result (λ p. p.outs ≡ outs_as p.place (facts_in (plain known.state)) (Entry.Input input) meaning.now.event) }
        ensures kept { IfOk result (λ p. p.kept ≡ kept_one (is_kept_as (facts_in (plain known.state)) (Entry.Input input) meaning.now.event) (Entry.Input input)) }
        ensures stops { IfOk result (λ p. p.stops ≡ stops_after was_stopping input meaning.now.event) }
    {
        let mut known = known;
        let stops = stops_after(was_stopping, &input, &meaning.event);
        let Sent { outs, kept } = take_input(alloc, &mut known, &input, meaning)?;
        Ok(Plan {
            input,
            decisions: Vec::new(alloc),
            outs,
            kept,
            known,
            stops,
        })
    }

    /// The decision that is due after those that it has. `history` is the history before the input.
    fn due(
        &self,
        alloc: Global,
        history: &[Entry],
        chooser: &Chooser,
    ) -> Result<Option<Entry>, AllocError>
        requires { IsGrown (reverse history.now) self.now }
        ensures { IfOk result (λ d. d ≡ due (facts (planned (reverse history.now) self.now))) }
    {
        let decision = due(alloc, &self.known.state, chooser)?;
        Ok(decision)
    }

    /// Notes a decision that was taken, and what it sends.
    fn note(&mut self, mut outs: Vec<Out>, decision: Entry) -> Result<(), AllocError>
        ensures { OnOk result (self.new ≡ record self.old { outs = self.old.outs ++ outs.items; kept = self.old.kept ++ decision ∷ []; decisions = self.old.decisions ++ decision ∷ [] }) }
    {
        self.outs.append(&mut outs)?;
        self.kept.push(same_entry(&decision)?)?;
        self.decisions.push(decision)?;
        Ok(())
    }

    /// Adds a decision.
    fn add(&mut self, alloc: Global, decision: Entry) -> Result<(), AllocError>
        requires next { IsNext self.old.plain decision }
        requires time { InTime decision }
        requires now { self.old.plain.moment ≤ last_moment }
        requires no_open { entry_place decision self.old.place ≡ self.old.place + 1 }
        ensures { OnOk result (IsMore self.old self.new decision) }
    {
        let taken = self.known.decide(alloc, &decision)?;
        self.note(taken.outs, decision)
    }

    /// Whether it keeps anything.
    fn keeps(&self) -> bool
        ensures { result ≡ nat_lt 0 (length self.now.kept) }
    {
        0 < self.kept.len()
    }

    /// The size of a history with the step, by its size before.
    pub(crate) fn size_behind(&self, before: HistorySize) -> HistorySize
        ensures { result ≡ sizes_next (size_next before (Entry.Input self.now.input)) self.now.decisions }
    {
        before.behind_step(&self.input, self.decisions.as_slice())
    }

    /// What the step sends, in order.
    pub fn outs(&self) -> &[Out]
        ensures { result.now ≡ self.now.outs }
    {
        self.outs.as_slice()
    }

    /// The entries of the step that a journal keeps, in order.
    pub fn kept(&self) -> &[Entry]
        ensures { result.now ≡ self.now.kept }
    {
        self.kept.as_slice()
    }

    /// How many entries it has.
    pub(crate) fn steps(&self) -> usize
        ensures { result ≡ length self.now.decisions + 1 }
    {
        self.decisions.len() + 1
    }
}

/// Adds the decisions that are due, until none is. `history` is the history before the input.
fn decide_rest(
    alloc: Global,
    history: &[Entry],
    plan: &mut Plan,
    chooser: &Chooser,
) -> Result<(), AllocError>
    requires { IsGrown (reverse history.now) plan.old }
    ensures input { OnOk result (plan.new.input ≡ plan.old.input) }
    ensures grown { OnOk result (IsGrown (reverse history.now) plan.new) }
    ensures all { OnOk result (planned (reverse history.now) plan.new ≡ decide_all (planned (reverse history.now) plan.old)) }
{
    while let Some(decision) = plan.due(alloc, history, chooser)? {
        plan.add(alloc, decision)?;
    }
    Ok(())
}

/// Adds the decisions that are due. None is where the input alone is there and changed nothing.
fn decide(
    alloc: Global,
    history: &[Entry],
    plan: &mut Plan,
    chooser: &Chooser,
) -> Result<(), AllocError>
    requires { RestsUnkept (reverse history.now) plan.old }
    ensures input { OnOk result (plan.new.input ≡ plan.old.input) }
    ensures grown { OnOk result (IsGrown (reverse history.now) plan.new) }
    ensures all { OnOk result (planned (reverse history.now) plan.new ≡ decide_all (planned (reverse history.now) plan.old)) }
{
    if !plan.keeps() {
        return Ok(());
    }
    decide_rest(alloc, history, plan, chooser)
}

impl Plan {
    /// Works a step out. `history` is the history before it, `meaning` that of its input, `was_stopping` whether a
    /// shutdown was asked.
    pub(crate) fn work_out(
        history: &[Entry],
        known: Known,
        input: Input,
        meaning: &Meaning,
        was_stopping: bool,
        chooser: &Chooser,
    ) -> Result<Plan, AllocError>
        requires stands { IsReadOff (reverse history.now) (plain known.state) known.place }
        requires event { meaning.now.event ≡ event_in (facts (reverse history.now)) (Entry.Input input) }
        requires kind { meaning.now.msg_type ≡ told_type meaning.now.event (type_on (Entry.Input input)) }
        requires allowed { Allowed (facts (reverse history.now)) (Entry.Input input) }
        requires time { InTime (Entry.Input input) }
        requires stopping { was_stopping ≡ is_stopping (reverse history.now) }
        ensures input { IfOk result (λ p. p.input ≡ input) }
        ensures grown { IfOk result (λ p. IsGrown (reverse history.now) p) }
        ensures all { IfOk result (λ p. planned (reverse history.now) p ≡ decide_all (Entry.Input input ∷ reverse history.now)) }
    {
        let alloc = known.state.allocator();
        let mut plan = Plan::begin(alloc, known, input, meaning, was_stopping)?;
        decide(alloc, history, &mut plan, chooser)?;
        Ok(plan)
    }
}
