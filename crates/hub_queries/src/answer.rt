//! The answer to a question.

ghost use Rattle.std.specs.Prelude.{◌≡◌, [], codes, map, IfOk};
ghost use Rattle.cluster_defs.specs.FilterContents.{query_content};
ghost use Rattle.cluster_defs.specs.Texts.{ok_content};
ghost use Rattle.cluster_defs.specs.Queries.{plain, refusal, bad_name, limited};
ghost use Rattle.cluster_defs.specs.RecordAnswers.{answer_in};
ghost use Rattle.cluster_defs.specs.declared.answer.Answer.{Answer};
ghost use Rattle.hub_queries.specs.Ascending.{Ascends};

use crate::engines::LiveEngines;
use crate::lengths::QueueCounts;
use crate::limits::{is_hub, limited, plain, refusal, too_long};
use crate::queues::{connection_answer, history_answer, queues_answer};
use crate::results::result_answer;
use cluster_defs::answer::Answer;
use cluster_types::config::Channel;
use cluster_types::event::Query;
use cluster_types::octets::Octets;
use cluster_types::record::Records;
use cluster_types::sequence::Sequence;
use cluster_types::text::Text;
use db_query::answer::answer_within;
use db_query::fault::DbError;
use std::alloc::{AllocError, Global};

/// The name of the refusal of a request that doesn't read.
fn bad_name(channel: Channel) -> &'static str
    ensures { result.now ≡ bad_name channel }
{
    match channel {
        Channel::Task => "BadMetadata",
        Channel::Hub | Channel::Mux | Channel::Engine => "BadContent",
    }
}

/// The answer without a word more.
#[tactic(auto, unfolding(cluster_defs::specs::Texts::ok_content))]
pub fn ok_answer(alloc: Global) -> Result<Answer, AllocError>
    ensures { IfOk result (λ a. a ≡ plain ok_content) }
{
    let content = Octets::new(alloc, b"{\"status\":\"ok\"}")?;
    Ok(plain(alloc, content))
}

/// The refusal of a request that the hub doesn't know.
fn unknown_request(alloc: Global, msg_type: &Text) -> Result<Answer, AllocError>
    ensures { IfOk result (λ a. a ≡ refusal (codes "UnknownRequest") msg_type.now []) }
{
    refusal(
        alloc,
        "UnknownRequest",
        msg_type.as_str(),
        &Sequence::new(alloc),
    )
}

/// The refusal of a request that doesn't read, with the field at fault.
fn bad_request(alloc: Global, channel: Channel, field: &Text) -> Result<Answer, AllocError>
    ensures { IfOk result (λ a. a ≡ refusal (bad_name channel) field.now []) }
{
    refusal(
        alloc,
        bad_name(channel),
        field.as_str(),
        &Sequence::new(alloc),
    )
}

/// The answer to a question to the database, within the limits of its channel. Where it would pass them, it is given up while
/// it is written.
fn db_answer<R: Records>(
    alloc: Global,
    channel: Channel,
    table: &R,
    content: &Octets,
) -> Result<Answer, AllocError>
    ensures { IfOk result (λ a. a ≡ limited channel (plain (query_content (R.records table.now) content.now))) }
{
    match answer_within(alloc, table, content, is_hub(channel)) {
        Ok(found) => Ok(plain(alloc, found.content)),
        Err(DbError::TooLong) => too_long(alloc),
        Err(DbError::OutOfMemory) => Err(AllocError),
    }
}

/// The answer that was made, within the limits of its channel.
fn within(
    alloc: Global,
    channel: Channel,
    made: Result<Answer, AllocError>,
) -> Result<Answer, AllocError>
    ensures { (whole : Answer) → IfOk made (λ a. a ≡ whole) → IfOk result (λ a. a ≡ limited channel whole) }
{
    limited(alloc, channel, made?)
}

/// The answer to a question that came on a channel in a message of a type, off the records of all tasks and the live
/// engines. On the hub's channel an answer past a limit gives way to a refusal.
pub fn answer<R: QueueCounts>(
    alloc: Global,
    table: &R,
    live: &LiveEngines,
    channel: Channel,
    query: &Query,
    msg_type: &Text,
) -> Result<Answer, AllocError>
    requires { Ascends (map (λ e. e.0) live.now) }
    ensures { IfOk result (λ a. a ≡ answer_in (R.records table.now) live.now channel query.now msg_type.now) }
{
    match query {
        Query::Connection => within(alloc, channel, connection_answer(alloc, live)),
        Query::Queue { targets, verbose } => within(
            alloc,
            channel,
            queues_answer(alloc, table, live, targets, *verbose),
        ),
        Query::Result { ids, status_only } => {
            result_answer(alloc, channel, table, ids, *status_only)
        }
        Query::History => within(alloc, channel, history_answer(alloc, table)),
        Query::Shutdown => within(alloc, channel, ok_answer(alloc)),
        Query::Db { content } => db_answer(alloc, channel, table, content),
        Query::Unknown => within(alloc, channel, unknown_request(alloc, msg_type)),
        Query::Bad { field } => within(alloc, channel, bad_request(alloc, channel, field)),
    }
}
