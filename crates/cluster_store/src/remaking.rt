//! Making the steps of a journal's list again.

ghost use Rattle.std.specs.Prelude.{◌≡◌, ◌≤◌, ◌<◌, ◌+◌, ◌∷◌, ◌↔◌, All, [], length, take, reverse, slice_get, true, IfOk, IfErr};
ghost use Rattle.cluster_core.specs.Size.{no_limit};
ghost use Rattle.record_codec.specs.Spelling.{HasRecord};
ghost use Rattle.task_journal.specs.Journal.{holding};
ghost use Rattle.cluster_store.specs.Openings.{IsFit, MayStand, Rests};
ghost use Rattle.cluster_store.specs.Remaking.{IsDecision, Remakes, StepRemakes, Refuses};

use cluster_core::machine::Core;
use cluster_core::plan::PlanError;
use cluster_types::entry::{Entries, Entry, Input};
use load_schemes::chooser::Chooser;
use std::alloc::{AllocError, Global};
use task_journal::fault::OpenFault;
use task_journal::found::Places;

/// What comes of making the steps of a list again.
#[derive(Clone, Copy, Debug, PartialEq, Eq)]
pub enum Remade {
    /// So many entries are steps as they are to be.
    Made(usize),
    /// This entry, counted from 0, may not stand behind those before it.
    Bad(usize),
    /// The list ends while a decision is due.
    Cut,
}

/// Whether an entry is this decision.
fn is_decision(entry: &Entry, decision: &Entry) -> bool
    requires { IsDecision decision.now }
    ensures { (result ≡ true) ↔ (entry.now ≡ decision.now) }
{
    match (entry, decision) {
        (
            Entry::Hand { id, engine },
            Entry::Hand {
                id: other,
                engine: number,
            },
        ) => { id.is(other) && engine == number }
        (
            Entry::Settle { id, verdict, cause },
            Entry::Settle {
                id: other,
                verdict: way,
                cause: reason,
            },
        ) => id.is(other) && verdict == way && cause == reason,
        (Entry::Lose { engine }, Entry::Lose { engine: number }) => engine == number,
        _ => false,
    }
}

/// A clone, which shares what the input holds.
fn same_input(input: &Input) -> Result<Input, AllocError>
    ensures { IfOk result (λ i. i ≡ input.now) }
{
    input.clone()
}

/// With how many of some decisions a list begins.
fn agreeing(decisions: &[Entry], list: &[Entry]) -> usize
    requires { All IsDecision decisions.now }
    ensures decisions { result ≤ length decisions.now }
    ensures list { result ≤ length list.now }
    ensures same { take result decisions.now ≡ take result list.now }
    ensures differ { result < length decisions.now → result < length list.now → slice_get list.now result ≡ slice_get decisions.now result → ⊥ }
{
    let most = decisions.len().min(list.len());
    for place in 0..most {
        if !is_decision(&list[place], &decisions[place]) {
            return place;
        }
    }
    most
}

/// Makes the step of the input that a list begins with, where the decisions after it stand in the list too.
fn remake_step(
    core: &mut Core,
    chooser: &Chooser,
    input: &Input,
    behind: &[Entry],
) -> Result<Remade, AllocError>
    requires stands { MayStand core.old.history [] }
    requires rests { Rests core.old.history [] }
    requires limits { core.old.limits ≡ no_limit }
    requires has { HasRecord (Entry.Input input.now) }
    ensures limits { core.new.limits ≡ no_limit }
    ensures remade { IfOk result (StepRemakes core.old.history core.new.history (Entry.Input input.now ∷ behind.now)) }
{
    let meaning = core.understand(input)?;
    if !core.may_take(input, &meaning.event)? {
        return Ok(Remade::Bad(0));
    }
    let plan = match core.plan(chooser, same_input(input)?, meaning) {
        Ok(plan) => plan,
        Err(PlanError::OutOfMemory) => return Err(AllocError),
        Err(PlanError::HistoryFull { .. }) => unreachable!(),
    };
    let decisions = match plan.kept() {
        [] => return Ok(Remade::Bad(0)),
        [_, decisions @ ..] => decisions,
    };
    let same = agreeing(decisions, behind);
    if same < decisions.len() {
        if same == behind.len() {
            return Ok(Remade::Cut);
        }
        return Ok(Remade::Bad(same + 1));
    }
    let _made = core.apply(plan);
    Ok(Remade::Made(same + 1))
}

/// Makes the first step of a list again.
fn remake_first(core: &mut Core, chooser: &Chooser, list: &[Entry]) -> Result<Remade, AllocError>
    requires some { 0 < length list.now }
    requires stands { MayStand core.old.history [] }
    requires rests { Rests core.old.history [] }
    requires limits { core.old.limits ≡ no_limit }
    requires has { All HasRecord list.now }
    ensures limits { core.new.limits ≡ no_limit }
    ensures remade { IfOk result (StepRemakes core.old.history core.new.history list.now) }
{
    match list {
        [Entry::Input(input), behind @ ..] => remake_step(core, chooser, input, behind),
        _ => Ok(Remade::Bad(0)),
    }
}

/// Makes all steps of a list again, as far as its entries are as they are to be.
fn remake(core: &mut Core, chooser: &Chooser, list: &[Entry]) -> Result<Remade, AllocError>
    requires history { core.old.history ≡ [] }
    requires limits { core.old.limits ≡ no_limit }
    requires has { All HasRecord list.now }
    ensures limits { core.new.limits ≡ no_limit }
    ensures remade { IfOk result (Remakes core.new.history list.now) }
{
    let mut made = 0;
    while made < list.len() {
        match remake_first(core, chooser, &list[made..])? {
            Remade::Made(more) => made += more,
            Remade::Bad(place) => return Ok(Remade::Bad(made + place)),
            Remade::Cut => return Ok(Remade::Cut),
        }
    }
    Ok(Remade::Made(made))
}

/// The place of the record of an entry, or behind all records that of the first closed gate.
fn place_at(places: &Places, entry: usize) -> u64
    requires { entry < length places.now }
    ensures { slice_get places.now entry ≡ Some result }
{
    places.as_slice()[entry]
}

/// A core that has made the steps of a journal's list again.
pub fn core_of(
    alloc: Global,
    chooser: &Chooser,
    entries: &Entries,
    places: &Places,
) -> Result<Core, OpenFault>
    requires has { All HasRecord entries.now }
    requires places { length places.now ≡ length entries.now + 1 }
    ensures fit { IfOk result (λ core. IsFit entries.now) }
    ensures history { IfOk result (λ core. core.history ≡ reverse entries.now) }
    ensures refused { IfErr result (Refuses (holding entries.now places.now)) }
{
    let mut core = Core::new(alloc);
    match remake(&mut core, chooser, entries.as_slice())? {
        Remade::Made(_) => Ok(core),
        Remade::Bad(entry) => Err(OpenFault::Damaged(place_at(places, entry))),
        Remade::Cut => Err(OpenFault::Damaged(place_at(places, entries.len()))),
    }
}
