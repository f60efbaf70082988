//! What entries come to.

ghost use Rattle.std.specs.Prelude.{◌≡◌, ◌≤◌, ◌⊎◌, IfOk, Some};
ghost use Rattle.cluster_types.specs.Limits.{last_moment};
ghost use Rattle.cluster_defs.specs.Aborts.{aborting};
ghost use Rattle.cluster_defs.specs.Purges.{purge_list, purging, Resubmitting, resubmitting};
ghost use Rattle.cluster_defs.specs.Words.{once};
ghost use Rattle.cluster_state.specs.Plain.{facts_in};
ghost use Rattle.cluster_state.specs.Ruled.{IsPurge, IsResubmit, IsAbort, IsTold, IsRuled};
ghost use Rattle.cluster_state.specs.Stands.{plain};
ghost use Rattle.resubmission.specs.Plans.{refusal_of};
ghost use Rattle.entry_outs.specs.Memory.{is_memory};
ghost use Rattle.entry_outs.specs.Reached.{Reached, IsNext};

use crate::rows::Rows;
use cluster_state::ruling::Ruling;
use cluster_state::state::State;
use cluster_types::entry::{Entry, Input};
use cluster_types::event::Event;
use cluster_types::limits::MOST_IDS;
use cluster_types::message::Ids;
use cluster_types::shared_message::SharedMessage;
use resubmission::abort::plan_abort;
use resubmission::plan::{ResubmitRefusal, plan};
use resubmission::purge::plan_purge;
use std::alloc::AllocError;

/// Whether there was no memory.
fn is_memory(refused: &ResubmitRefusal) -> bool
    ensures { result ≡ is_memory refused.now }
{
    match refused {
        ResubmitRefusal::OutOfMemory => true,
        _ => false,
    }
}

/// The refusal of a resubmission, or that there was no memory.
fn refused_or_memory(refused: ResubmitRefusal) -> Result<Ruling, AllocError>
    ensures { (what : Resubmitting) → (refused ≡ ResubmitRefusal.OutOfMemory) ⊎ (refusal_of what ≡ Some refused) → IfOk result (λ r. IsResubmit what r) }
{
    if is_memory(&refused) {
        return Err(AllocError);
    }
    Ok(Ruling::Resubmit(Err(refused)))
}

/// What a resubmission comes to.
fn resubmit_ruling(state: &State, ids: &Ids) -> Result<Ruling, AllocError>
    requires { Reached (plain state.now) }
    ensures { IfOk result (λ r. IsResubmit (resubmitting (facts_in (plain state.now)) (once ids.now)) r) }
{
    let rows = Rows::new(state);
    match plan(state.allocator(), &rows, ids, MOST_IDS as u64) {
        Ok(renamed) => Ok(Ruling::Resubmit(Ok(renamed))),
        Err(refused) => refused_or_memory(refused),
    }
}

/// What a purge comes to.
fn purge_ruling(state: &State, all: bool, ids: &Ids) -> Result<Ruling, AllocError>
    requires { Reached (plain state.now) }
    ensures { IfOk result (λ r. IsPurge (purging (facts_in (plain state.now)) (purge_list (facts_in (plain state.now)) all ids.now)) r) }
{
    let rows = Rows::new(state);
    let plan = plan_purge(state.allocator(), &rows, all, ids)?;
    Ok(Ruling::Purge(plan))
}

/// What an abort comes to.
fn abort_ruling(state: &State, ids: &Ids) -> Result<Ruling, AllocError>
    requires { Reached (plain state.now) }
    ensures { IfOk result (λ r. IsAbort (aborting (facts_in (plain state.now)) (once ids.now)) r) }
{
    let rows = Rows::new(state);
    let plan = plan_abort(state.allocator(), &rows, ids)?;
    Ok(Ruling::Abort(plan))
}

/// What a message on a connection comes to, by what it means.
fn told_ruling(
    state: &State,
    conn: u32,
    message: &SharedMessage,
    event: &Event,
) -> Result<Ruling, AllocError>
    requires { Reached (plain state.now) }
    ensures { IfOk result (λ r. IsTold (facts_in (plain state.now)) conn message.now event.now r) }
{
    match event {
        Event::Submit(submission) => {
            Ok(Ruling::Demand(state.acceptance(false, submission, message)))
        }
        Event::Direct(submission) => {
            Ok(Ruling::Demand(state.acceptance(true, submission, message)))
        }
        Event::Join { uuid } => {
            let joining = state.engines.joining(state.next_engine, conn, uuid);
            Ok(Ruling::Join(joining))
        }
        Event::Leave => Ok(Ruling::Leave(state.engines.number_on(conn))),
        Event::Purge { all, ids } => purge_ruling(state, *all, ids),
        Event::Resubmit { ids } => resubmit_ruling(state, ids),
        Event::Abort { ids } => abort_ruling(state, ids),
        Event::Reply {
            task: _,
            header_id: _,
            ok: _,
            declined: _,
        } => Ok(Ruling::Other),
        Event::Pong { beat: _ } => Ok(Ruling::Other),
        Event::Ask(_) => Ok(Ruling::Other),
    }
}

/// What an entry comes to that may stand next, where the message in it means this.
#[tactic(auto, using(crate::proofs::Telling::reached))]
pub fn ruling(state: &State, entry: &Entry, event: &Option<Event>) -> Result<Ruling, AllocError>
    requires next { IsNext (plain state.now) entry.now }
    requires moment { state.now.moment ≤ last_moment }
    ensures { IfOk result (λ r. IsRuled (plain state.now) entry.now event.now r) }
{
    match entry {
        Entry::Input(
            Input::In {
                conn,
                moment: _,
                word: _,
                message,
            },
        ) => match event {
            Some(event) => told_ruling(state, *conn, message, event),
            None => Ok(Ruling::Other),
        },
        Entry::Settle { id, verdict, cause } => {
            let settling = state.settling(id, *verdict, *cause)?;
            Ok(Ruling::Settle(settling))
        }
        _ => Ok(Ruling::Other),
    }
}
