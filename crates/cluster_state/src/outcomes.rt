//! Outcomes of tasks.

ghost use Rattle.std.specs.Prelude.{◌≡◌, ◌≤◌, ◌≢◌, IfOk, Some, string_bytes};
ghost use Rattle.std.specs.Option.{option_copied};
ghost use Rattle.cluster_types.specs.Verdicts.{cause_value};
ghost use Rattle.cluster_types.specs.Limits.{last_moment};
ghost use Rattle.cluster_defs.specs.Texts.{outcome_id, made_header, reply_type};
ghost use Rattle.edges.specs.Date.{date_of};
ghost use Rattle.cluster_defs.specs.Outcomes.{made_outcome};
ghost use Rattle.cluster_state.specs.Plain.{outcome_for};

use cluster_defs::request::WholeRequest;
use cluster_defs::settled::Settled;
use cluster_types::message::Buffers;
use cluster_types::octets::Octets;
use cluster_types::shared_message::SharedMessage;
use cluster_types::text::Text;
use cluster_types::verdict::Cause;
use edges::date::{Moment, date_text};
use jupyter_header::contents::{empty_object, outcome_content};
use jupyter_header::kinds::reply_type;
use jupyter_header::write::made_header;
use std::alloc::{AllocError, Global};
use task_table::task::Task;

/// The id of an outcome that the controller makes, by the number of the task.
#[tactic(auto, unfolding(cluster_defs::specs::Texts::outcome_id))]
fn outcome_id(alloc: Global, number: u64) -> Result<Text, AllocError>
    ensures { IfOk result (λ text. text ≡ outcome_id number) }
{
    let number = number.to_string(alloc)?;
    let mut text = String::from_str(alloc, "out-")?;
    text.push_str(number.as_str())?;
    Text::from_string(text)
}

/// The sentence on a cause.
#[tactic(auto, unfolding(cluster_types::specs::Verdicts::engine_lost_text))]
fn cause_text(alloc: Global, cause: Cause, engine: Option<u32>) -> Result<Text, AllocError>
    ensures { IfOk result (λ text. text ≡ cause_value cause engine) }
{
    match cause {
        Cause::Reply => Text::new(alloc, ""),
        Cause::EngineError if engine.is_none() => Text::new(alloc, ""),
        _ => cause.evalue(alloc, engine),
    }
}

/// The header of an outcome that the controller makes.
fn outcome_header(
    alloc: Global,
    number: u64,
    msg_type: &Text,
    moment: u64,
) -> Result<Octets, AllocError>
    requires { moment ≤ last_moment }
    ensures { IfOk result (λ o. o ≡ made_header (outcome_id number) (reply_type msg_type.now) (date_of moment)) }
{
    let id = outcome_id(alloc, number)?;
    let kind = reply_type(alloc, msg_type)?;
    let date = date_text(alloc, Moment { millis: moment })?;
    made_header(alloc, &id, &kind, date.as_str())
}

/// The outcome that the controller makes.
fn made_outcome(
    alloc: Global,
    number: u64,
    settled: Settled,
    request: &WholeRequest,
) -> Result<SharedMessage, AllocError>
    requires { settled.moment ≤ last_moment }
    ensures { IfOk result (λ m. m ≡ made_outcome number settled request.now.request) }
{
    let value = cause_text(alloc, settled.cause, settled.engine)?;
    let header = outcome_header(alloc, number, &request.msg_type, settled.moment)?;
    let content = outcome_content(alloc, settled.cause.ename(), value.as_str())?;
    SharedMessage::new(
        alloc,
        b"",
        header.as_slice(),
        request.message.header(),
        empty_object(),
        content.as_slice(),
        Buffers::new(alloc),
    )
}

/// The outcome that a task gets: its last valid reply, or what the controller makes. The moment has to be one before the
/// year 10000.
pub fn outcome_for(
    alloc: Global,
    settled: Settled,
    task: &Task,
) -> Result<Option<SharedMessage>, AllocError>
    requires { settled.moment ≤ last_moment }
    ensures { IfOk result (λ o. o ≡ outcome_for settled settled.cause task.now) }
{
    if settled.cause == Cause::Reply {
        let reply = copied(task.reply())?;
        return Ok(reply);
    }
    let made = made_outcome(alloc, task.row().number, settled, task.request())?;
    Ok(Some(made))
}

fn copied(message: Option<&SharedMessage>) -> Result<Option<SharedMessage>, AllocError>
    ensures { IfOk result (λ m. m ≡ option_copied message.entry) }
{
    match message {
        Some(message) => Ok(Some(message.clone()?)),
        None => Ok(None),
    }
}
