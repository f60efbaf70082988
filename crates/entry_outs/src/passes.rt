//! Messages that are passed on: requests to engines, and outcomes to owners.

ghost use Rattle.std.specs.Prelude.{◌≡◌, ◌++◌, ◌∷◌, [], List, false, IfOk, Some, None, option_map};
ghost use Rattle.std.specs.Option.{option_copied, option_and_then};
ghost use Rattle.cluster_defs.specs.Connections.{same_channel, is_of_peer, reached};
ghost use Rattle.cluster_defs.specs.Facts.{is_settled};
ghost use Rattle.cluster_defs.specs.Steps.{step};
ghost use Rattle.cluster_defs.specs.Outcomes.{handed_message, hand_out, outcome};
ghost use Rattle.cluster_defs.specs.Outs.{pass_to, owner_conn};
ghost use Rattle.cluster_defs.specs.Engines.{conn_in};
ghost use Rattle.cluster_types.specs.declared.entry.Entry.{Entry};
ghost use Rattle.cluster_types.specs.declared.verdict.Verdict.{Verdict as VerdictType};
ghost use Rattle.cluster_types.specs.declared.verdict.Cause.{Cause as CauseType};
ghost use Rattle.task_table.specs.Seen.{seen_in};
ghost use Rattle.cluster_state.specs.Settling.{IsSettling};
ghost use Rattle.cluster_state.specs.Plain.{facts_in};
ghost use Rattle.cluster_state.specs.Stands.{plain};
ghost use Rattle.entry_outs.specs.Reached.{Reached};
ghost use Rattle.entry_outs.specs.Greater.{greater};
ghost use Rattle.entry_outs.specs.Sends.{settle_sends};
ghost use Rattle.cluster_defs.specs.declared.connection.Connection.{Connection as ConnectionType};

use cluster_defs::connection::{Connection, Owner};
use cluster_state::settling::Settling;
use cluster_state::state::State;
use cluster_types::config::Channel;
use cluster_types::out::{Out, Outs};
use cluster_types::shared_message::SharedMessage;
use cluster_types::text::Text;
use std::alloc::{AllocError, Global};

/// A message that is passed on, where there is one and where it can go.
pub fn pass_to(
    alloc: Global,
    conn: Option<u32>,
    message: Option<SharedMessage>,
) -> Result<Outs, AllocError>
    ensures { IfOk result (λ outs. outs ≡ pass_to conn message) }
{
    let mut outs = Outs::new(alloc);
    if let Some(conn) = conn {
        if let Some(message) = message {
            outs.push(Out::Pass { conn, message })?;
        }
    }
    Ok(outs)
}

fn is_of(owner: &Owner, connection: &Connection) -> bool
    ensures { result ≡ is_of_peer owner.now connection.now }
{
    connection.channel == owner.channel && connection.identity.is(&owner.identity)
}

fn greater(best: Option<u32>, number: u32) -> Option<u32>
    ensures { result ≡ greater best number }
{
    match best {
        Some(other) => Some(other.max(number)),
        None => Some(number),
    }
}

/// The highest number of an owner's connections, where one more connection comes.
fn reached_with(best: Option<u32>, owner: &Owner, connection: &Connection) -> Option<u32>
    ensures { (live : List ConnectionType) → best ≡ reached live owner.now → result ≡ reached (live ++ connection.now ∷ []) owner.now }
{
    if is_of(owner, connection) {
        greater(best, connection.number)
    } else {
        best
    }
}

/// The live connection of an owner, of several the one with the highest number.
fn reached(live: &[Connection], owner: &Owner) -> Option<u32>
    ensures { result ≡ reached live.now owner.now }
{
    let mut best = None;
    for connection in live {
        best = reached_with(best, owner, connection);
    }
    best
}

/// The connection of the owner of a task.
fn owner_conn(live: &[Connection], owner: &Option<Owner>) -> Option<u32>
    ensures { result ≡ option_and_then (reached live.now) (owner.now) }
{
    match owner {
        Some(owner) => reached(live, owner),
        None => None,
    }
}

/// A message, where there is one. Its octets are shared.
pub fn copied(message: &Option<SharedMessage>) -> Result<Option<SharedMessage>, AllocError>
    ensures { IfOk result (λ m. m ≡ message.now) }
{
    match message {
        Some(message) => Ok(Some(message.clone()?)),
        None => Ok(None),
    }
}

/// The message that hands out a task.
fn hand_out(alloc: Global, state: &State, id: &Text) -> Result<Option<SharedMessage>, AllocError>
    ensures { IfOk result (λ m. m ≡ hand_out (facts_in (plain state.now)) id.now) }
{
    match state.tasks.find(id) {
        Some(task) => Ok(Some(task.request().message.without_target(alloc)?)),
        None => Ok(None),
    }
}

/// What a Hand sends: the request, to the engine.
pub fn hand_outs(alloc: Global, state: &State, id: &Text, engine: u32) -> Result<Outs, AllocError>
    ensures { IfOk result (λ outs. outs ≡ pass_to (conn_in engine state.now.engines) (hand_out (facts_in (plain state.now)) id.now)) }
{
    let message = hand_out(alloc, state, id)?;
    let outs = pass_to(alloc, state.engines.conn_of(engine), message)?;
    Ok(outs)
}

/// What a Settle sends, by how the task is settled: the outcome, to the owner.
pub fn settle_outs(
    alloc: Global,
    state: &State,
    id: &Text,
    settling: &Option<Settling>,
) -> Result<Outs, AllocError>
    requires reached { Reached (plain state.now) }
    requires unsettled { is_settled (facts_in (plain state.now)) id.now ≡ false }
    ensures { (v : VerdictType) (c : CauseType) → IsSettling v c state.now.moment (seen_in state.now.tasks id.now) settling.now → IfOk result (λ outs. outs ≡ settle_sends (facts_in (plain state.now)) id.now v c) }
{
    let Some(settling) = settling else {
        return Ok(Outs::new(alloc));
    };
    let Some(task) = state.tasks.find(id) else {
        return Ok(Outs::new(alloc));
    };
    let conn = owner_conn(&state.connections, &task.request().owner);
    let outcome = copied(&settling.outcome)?;
    let outs = pass_to(alloc, conn, outcome)?;
    Ok(outs)
}
