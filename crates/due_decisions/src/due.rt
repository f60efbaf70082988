//! The decision that is due.

ghost use Rattle.std.specs.Prelude.{◌≡◌, IfOk};
ghost use Rattle.cluster_defs.specs.Histories.{History, facts};
ghost use Rattle.cluster_defs.specs.Scheduling.{due};
ghost use Rattle.cluster_state.specs.Stands.{plain, Knows};
ghost use Rattle.due_decisions.specs.Table.{hand_then, direct_then, fail_then, settle_then, due_in};

use crate::handing::{direct_due, hand_due, none_waits};
use crate::losing::lose_due;
use crate::rooms::rooms_in;
use crate::settling::{fail_due, settle_due};
use cluster_state::state::State;
use cluster_types::entry::Entry;
use load_schemes::chooser::Chooser;
use std::alloc::{AllocError, Global};

/// The hand-out of a Submit, where one is due.
fn hand_step(alloc: Global, state: &State, chooser: &Chooser) -> Result<Option<Entry>, AllocError>
    ensures { IfOk result (λ d. d ≡ hand_then (plain state.now)) }
{
    if none_waits(&state.tasks) {
        return Ok(None);
    }
    let rooms = rooms_in(
        alloc,
        &state.tasks,
        &state.engines,
        state.hwm,
        &state.by_use,
    )?;
    let hand = hand_due(
        alloc,
        &state.tasks,
        &rooms,
        chooser,
        state.scheme,
        state.word,
    )?;
    Ok(hand)
}

/// The hand-out of a direct request, or else what is due after it.
fn direct_step(alloc: Global, state: &State, chooser: &Chooser) -> Result<Option<Entry>, AllocError>
    ensures { IfOk result (λ d. d ≡ direct_then (plain state.now)) }
{
    match direct_due(&state.tasks)? {
        Some(hand) => Ok(Some(hand)),
        None => hand_step(alloc, state, chooser),
    }
}

/// The settle of a task that fails without an attempt, or else what is due after it.
fn fail_step(alloc: Global, state: &State, chooser: &Chooser) -> Result<Option<Entry>, AllocError>
    ensures { IfOk result (λ d. d ≡ fail_then (plain state.now)) }
{
    match fail_due(&state.tasks, &state.engines, state.clock)? {
        Some(settle) => Ok(Some(settle)),
        None => direct_step(alloc, state, chooser),
    }
}

/// The settle of a task whose attempts are over, or else what is due after it.
fn settle_step(alloc: Global, state: &State, chooser: &Chooser) -> Result<Option<Entry>, AllocError>
    ensures { IfOk result (λ d. d ≡ settle_then (plain state.now)) }
{
    match settle_due(&state.tasks)? {
        Some(settle) => Ok(Some(settle)),
        None => fail_step(alloc, state, chooser),
    }
}

/// The loss of an engine, or else what is due after it.
fn lose_step(alloc: Global, state: &State, chooser: &Chooser) -> Result<Option<Entry>, AllocError>
    ensures { IfOk result (λ d. d ≡ due_in (plain state.now)) }
{
    match lose_due(&state.engines, state.misses, state.beats) {
        Some(loss) => Ok(Some(loss)),
        None => settle_step(alloc, state, chooser),
    }
}

/// The one decision that is due, over data that stand for a legal history. It looks at the unsettled tasks and the live
/// engines alone, each of a task's dependencies by its id.
pub fn due(alloc: Global, state: &State, chooser: &Chooser) -> Result<Option<Entry>, AllocError>
    ensures { IfOk result (λ d. (history : History) → Knows state.now history → d ≡ due (facts history)) }
{
    let found = lose_step(alloc, state, chooser)?;
    Ok(found)
}
