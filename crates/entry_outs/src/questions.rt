//! What questions about the cluster are answered.

ghost use Rattle.std.specs.Prelude.{◌≡◌, map, IfOk, Some};
ghost use Rattle.cluster_defs.specs.Header.{message_type};
ghost use Rattle.cluster_defs.specs.Queries.{bad_type, query_type, answer};
ghost use Rattle.cluster_state.specs.Plain.{facts_in};
ghost use Rattle.cluster_state.specs.Stands.{plain};
ghost use Rattle.entry_outs.specs.Sends.{slip_out};
ghost use Rattle.entry_outs.specs.Asked.{asked_live};
ghost use Rattle.entry_outs.specs.Reached.{Reached};

use crate::answers::{Asked, answered};
use crate::demands::submit_refused;
use crate::rows::Rows;
use cluster_defs::answer::Answer;
use cluster_defs::engine::Engine;
use cluster_state::state::State;
use cluster_types::config::Channel;
use cluster_types::event::Query;
use cluster_types::out::Outs;
use cluster_types::shared_message::SharedMessage;
use cluster_types::text::Text;
use hub_queries::answer::answer;
use hub_queries::engines::LiveEngines;
use jupyter_header::kinds::reply_type;
use std::alloc::{AllocError, Global};

/// The live engines with their uuids.
fn live_engines(alloc: Global, live: &[Engine]) -> Result<LiveEngines, AllocError>
    ensures { IfOk result (λ l. l ≡ map (λ e. (e.number, e.uuid)) live.now) }
{
    let mut engines = LiveEngines::new(alloc);
    for engine in live {
        engines.push((engine.number, engine.uuid.clone()?))?;
    }
    Ok(engines)
}

/// The live engines, where the answer to a question tells them.
fn asked_live(alloc: Global, query: &Query, live: &[Engine]) -> Result<LiveEngines, AllocError>
    ensures { IfOk result (λ l. l ≡ asked_live query.now (map (λ e. (e.number, e.uuid)) live.now)) }
{
    match query {
        Query::Connection => live_engines(alloc, live),
        Query::Queue {
            targets: _,
            verbose: _,
        } => live_engines(alloc, live),
        _ => Ok(LiveEngines::new(alloc)),
    }
}

fn bad_type(alloc: Global, channel: Channel, msg_type: &Text) -> Result<Text, AllocError>
    ensures { IfOk result (λ text. text ≡ bad_type channel msg_type.now) }
{
    match channel {
        Channel::Task => submit_refused(alloc),
        _ => reply_type(alloc, msg_type),
    }
}

/// The type of the answer to a question in a message of a type.
fn query_type(
    alloc: Global,
    channel: Channel,
    query: &Query,
    msg_type: &Text,
) -> Result<Text, AllocError>
    ensures { IfOk result (λ text. text ≡ query_type channel query.now msg_type.now) }
{
    match query {
        Query::Connection => Text::new(alloc, "connection_reply"),
        Query::Queue {
            targets: _,
            verbose: _,
        } => Text::new(alloc, "queue_reply"),
        Query::Result {
            ids: _,
            status_only: _,
        } => Text::new(alloc, "result_reply"),
        Query::History => Text::new(alloc, "history_reply"),
        Query::Shutdown => Text::new(alloc, "shutdown_reply"),
        Query::Db { content: _ } => Text::new(alloc, "db_reply"),
        Query::Unknown => reply_type(alloc, msg_type),
        Query::Bad { field: _ } => bad_type(alloc, channel, msg_type),
    }
}

/// The answer to a question in a message of a type.
fn query_answer(
    alloc: Global,
    state: &State,
    channel: Channel,
    query: &Query,
    msg_type: &Text,
) -> Result<Answer, AllocError>
    requires { Reached (plain state.now) }
    ensures { IfOk result (λ a. a ≡ answer (facts_in (plain state.now)) channel query.now msg_type.now) }
{
    let rows = Rows::new(state);
    let live = asked_live(alloc, query, state.engines.as_slice())?;
    let answer = answer(alloc, &rows, &live, channel, query, msg_type)?;
    Ok(answer)
}

/// What a question in a message of a type sends: its answer.
pub fn query_outs(
    asked: Asked,
    state: &State,
    query: &Query,
    message: &SharedMessage,
    msg_type: &Text,
) -> Result<Outs, AllocError>
    requires reached { Reached (plain state.now) }
    requires kind { msg_type.now ≡ message_type message.now }
    ensures { IfOk result (λ outs. outs ≡ slip_out asked.slip (query_type asked.channel query.now (message_type message.now)) message.now.header (Some (answer (facts_in (plain state.now)) asked.channel query.now (message_type message.now)))) }
{
    let alloc = state.allocator();
    let kind = query_type(alloc, asked.channel, query, msg_type)?;
    let answer = query_answer(alloc, state, asked.channel, query, msg_type)?;
    let outs = answered(alloc, asked.slip, kind, message.header(), Some(answer))?;
    Ok(outs)
}
