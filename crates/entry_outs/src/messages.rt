//! What messages send.

ghost use Rattle.std.specs.Prelude.{◌≡◌, ◌≢◌, [], IfOk, Some, Err, codes, decimal};
ghost use Rattle.cluster_defs.specs.Header.{message_type};
ghost use Rattle.cluster_defs.specs.Texts.{ok_content, join_content};
ghost use Rattle.cluster_defs.specs.Purges.{Resubmitting};
ghost use Rattle.cluster_defs.specs.Queries.{plain as plain_answer, refusal, limited, join_answer, leave_answer, purge_answer, resubmit_answer, abort_answer};
ghost use Rattle.cluster_defs.specs.Outs.{answer_out};
ghost use Rattle.cluster_state.specs.Plain.{facts_in};
ghost use Rattle.cluster_state.specs.Stands.{plain};
ghost use Rattle.cluster_state.specs.declared.ruling.Ruling.{Ruling as RulingType};
ghost use Rattle.cluster_state.specs.Ruled.{IsResubmit, IsTold};
ghost use Rattle.resubmission.specs.Aborting.{aborting_of};
ghost use Rattle.resubmission.specs.Purging.{purging_of};
ghost use Rattle.entry_outs.specs.Reached.{Reached};
ghost use Rattle.entry_outs.specs.Sends.{event_sends, slip_out};

use crate::answers::{Asked, Slip, answered};
use crate::demands::demand_outs;
use crate::questions::query_outs;
use cluster_defs::answer::Answer;
use cluster_defs::engine::Joining;
use cluster_state::ruling::Ruling;
use cluster_state::state::State;
use cluster_types::config::Channel;
use cluster_types::event::Event;
use cluster_types::message::Ids;
use cluster_types::octets::Octets;
use cluster_types::out::Outs;
use cluster_types::shared_message::SharedMessage;
use cluster_types::text::Text;
use hub_queries::aborts::abort_answer;
use hub_queries::answer::ok_answer;
use hub_queries::limits::{plain, refusal};
use hub_queries::resubmissions::{purge_answer, refused_answer, renamed_answer};
use resubmission::abort::AbortPlan;
use resubmission::plan::{Renamed, ResubmitRefusal};
use resubmission::purge::PurgePlan;
use std::alloc::{AllocError, Global};

/// The content of the answer to a registration.
#[tactic(auto, unfolding(cluster_defs::specs::Texts::join_content))]
fn join_content(alloc: Global, number: u32) -> Result<Octets, AllocError>
    ensures { IfOk result (λ content. content ≡ join_content number) }
{
    let number = number.to_string(alloc)?;
    let mut text = String::from_str(alloc, "{\"status\":\"ok\",\"id\":")?;
    text.push_str(number.as_str())?;
    text.push_str("}")?;
    Octets::from_string(text)
}

/// The answer to a registration that gets a number.
fn joined_answer(alloc: Global, number: u32) -> Result<Answer, AllocError>
    ensures { IfOk result (λ a. a ≡ plain_answer (join_content number)) }
{
    let content = join_content(alloc, number)?;
    Ok(plain(alloc, content))
}

/// A refusal that names an engine.
fn engine_refusal(alloc: Global, ename: &str, engine: u32) -> Result<Answer, AllocError>
    ensures { IfOk result (λ a. a ≡ refusal ename.now (decimal engine) []) }
{
    let number = engine.to_string(alloc)?;
    let answer = refusal(alloc, ename, number.as_str(), &Ids::new(alloc))?;
    Ok(answer)
}

/// What a registration is answered, where the next engine gets this number.
fn join_answer(alloc: Global, next: u32, joining: Joining) -> Result<Answer, AllocError>
    ensures { IfOk result (λ a. a ≡ join_answer next joining) }
{
    match joining {
        Joining::Repeat { engine } => joined_answer(alloc, engine),
        Joining::AlreadyJoined { engine } => engine_refusal(alloc, "AlreadyJoined", engine),
        Joining::UuidInUse { engine } => engine_refusal(alloc, "UuidInUse", engine),
        Joining::UsedUp => refusal(alloc, "EngineIdsUsedUp", "", &Ids::new(alloc)),
        Joining::Accepted => joined_answer(alloc, next),
    }
}

/// What a leave is answered, by the engine that leaves.
fn leave_answer(alloc: Global, engine: Option<u32>) -> Result<Answer, AllocError>
    ensures { IfOk result (λ a. a ≡ leave_answer engine) }
{
    match engine {
        Some(_) => ok_answer(alloc),
        None => refusal(alloc, "NotJoined", "", &Ids::new(alloc)),
    }
}

/// What a resubmission is answered that comes to this.
fn resubmit_answer(
    alloc: Global,
    channel: Channel,
    planned: &Result<Renamed, ResubmitRefusal>,
) -> Result<Answer, AllocError>
    requires { planned.now ≢ Err ResubmitRefusal.OutOfMemory }
    ensures { (what : Resubmitting) → IsResubmit what (RulingType.Resubmit planned.now) → IfOk result (λ a. a ≡ limited channel (resubmit_answer what)) }
{
    match planned {
        Ok(renamed) => renamed_answer(alloc, channel, renamed),
        Err(refused) => refused_answer(alloc, channel, refused),
    }
}

/// An answer in a message of a type.
fn answered_as(
    alloc: Global,
    slip: Slip,
    msg_type: &str,
    message: &SharedMessage,
    answer: Answer,
) -> Result<Outs, AllocError>
    ensures { IfOk result (λ outs. outs ≡ answer_out slip.opens slip.place slip.conn slip.moment msg_type.now message.now.header (Some answer)) }
{
    let kind = Text::new(alloc, msg_type)?;
    let outs = answered(alloc, slip, kind, message.header(), Some(answer))?;
    Ok(outs)
}

fn join_outs(
    alloc: Global,
    slip: Slip,
    next: u32,
    joining: Joining,
    message: &SharedMessage,
) -> Result<Outs, AllocError>
    ensures { IfOk result (λ outs. outs ≡ answer_out slip.opens slip.place slip.conn slip.moment (codes "registration_reply") message.now.header (Some (join_answer next joining))) }
{
    let answer = join_answer(alloc, next, joining)?;
    answered_as(alloc, slip, "registration_reply", message, answer)
}

fn leave_outs(
    alloc: Global,
    slip: Slip,
    engine: Option<u32>,
    message: &SharedMessage,
) -> Result<Outs, AllocError>
    ensures { IfOk result (λ outs. outs ≡ answer_out slip.opens slip.place slip.conn slip.moment (codes "unregistration_reply") message.now.header (Some (leave_answer engine))) }
{
    let answer = leave_answer(alloc, engine)?;
    answered_as(alloc, slip, "unregistration_reply", message, answer)
}

fn purge_outs(
    alloc: Global,
    asked: Asked,
    plan: &PurgePlan,
    message: &SharedMessage,
) -> Result<Outs, AllocError>
    ensures { IfOk result (λ outs. outs ≡ slip_out asked.slip (codes "purge_reply") message.now.header (Some (limited asked.channel (purge_answer (purging_of plan.now))))) }
{
    let answer = purge_answer(alloc, asked.channel, plan)?;
    answered_as(alloc, asked.slip, "purge_reply", message, answer)
}

fn resubmit_outs(
    alloc: Global,
    asked: Asked,
    planned: &Result<Renamed, ResubmitRefusal>,
    message: &SharedMessage,
) -> Result<Outs, AllocError>
    requires { planned.now ≢ Err ResubmitRefusal.OutOfMemory }
    ensures { (what : Resubmitting) → IsResubmit what (RulingType.Resubmit planned.now) → IfOk result (λ outs. outs ≡ slip_out asked.slip (codes "resubmit_reply") message.now.header (Some (limited asked.channel (resubmit_answer what)))) }
{
    let answer = resubmit_answer(alloc, asked.channel, planned)?;
    answered_as(alloc, asked.slip, "resubmit_reply", message, answer)
}

fn abort_outs(
    alloc: Global,
    asked: Asked,
    plan: &AbortPlan,
    message: &SharedMessage,
) -> Result<Outs, AllocError>
    ensures { IfOk result (λ outs. outs ≡ slip_out asked.slip (codes "abort_reply") message.now.header (Some (limited asked.channel (abort_answer (aborting_of plan.now))))) }
{
    let answer = abort_answer(alloc, asked.channel, plan)?;
    answered_as(alloc, asked.slip, "abort_reply", message, answer)
}

/// What a message of a type with a meaning sends, which comes to this: its answer, or the outcome that it asks for again.
#[tactic(auto, using(cluster_state::proofs::Rulings::purge_there, cluster_state::proofs::Rulings::resubmit_there, cluster_state::proofs::Rulings::abort_there, cluster_state::proofs::Rulings::purge_is, cluster_state::proofs::Rulings::abort_is, crate::proofs::Telling::resubmit_had, crate::proofs::Telling::resubmit_kept))]
pub fn event_outs(
    asked: Asked,
    state: &State,
    message: &SharedMessage,
    event: &Event,
    msg_type: &Text,
    ruling: &Ruling,
) -> Result<Outs, AllocError>
    requires reached { Reached (plain state.now) }
    requires kind { msg_type.now ≡ message_type message.now }
    requires ruled { IsTold (facts_in (plain state.now)) asked.slip.conn message.now event.now ruling.now }
    ensures { IfOk result (λ outs. outs ≡ event_sends asked.slip (facts_in (plain state.now)) asked.channel message.now event.now) }
{
    let alloc = state.allocator();
    let slip = asked.slip;
    match event {
        Event::Submit(submission) => {
            demand_outs(slip, state, false, submission, message, ruling.demand())
        }
        Event::Direct(submission) => {
            demand_outs(slip, state, true, submission, message, ruling.demand())
        }
        Event::Join { uuid: _ } => {
            join_outs(alloc, slip, state.next_engine, ruling.join(), message)
        }
        Event::Leave => leave_outs(alloc, slip, ruling.leave(), message),
        Event::Purge { all: _, ids: _ } => { purge_outs(alloc, asked, ruling.purge(), message) }
        Event::Resubmit { ids: _ } => { resubmit_outs(alloc, asked, ruling.resubmit(), message) }
        Event::Abort { ids: _ } => { abort_outs(alloc, asked, ruling.abort(), message) }
        Event::Ask(query) => query_outs(asked, state, query, message, msg_type),
        Event::Pong { beat: _ } => Ok(Outs::new(alloc)),
        Event::Reply {
            task: _,
            header_id: _,
            ok: _,
            declined: _,
        } => Ok(Outs::new(alloc)),
    }
}
