//! What requests for tasks are answered.

ghost use Rattle.std.specs.Prelude.{◌≡◌, [], false, IfOk, Some, codes};
ghost use Rattle.hex.specs.Hex.{encode_lower};
ghost use Rattle.cluster_defs.specs.Texts.{submit_refused};
ghost use Rattle.cluster_defs.specs.Acceptance.{acceptance as acceptance_of};
ghost use Rattle.cluster_defs.specs.Queries.{refusal, demand_answer};
ghost use Rattle.cluster_defs.specs.Outcomes.{outcome};
ghost use Rattle.cluster_defs.specs.Outs.{pass_to, answer_out};
ghost use Rattle.cluster_state.specs.Plain.{facts_in};
ghost use Rattle.cluster_state.specs.Stands.{plain};
ghost use Rattle.entry_outs.specs.Reached.{Reached};
ghost use Rattle.entry_outs.specs.Repeats.{is_again};
ghost use Rattle.entry_outs.specs.Sends.{demand_sends};

use crate::answers::{Slip, answered};
use crate::passes::{copied, pass_to};
use cluster_defs::acceptance::Acceptance;
use cluster_defs::answer::Answer;
use cluster_state::state::State;
use cluster_types::event::Submission;
use cluster_types::message::Ids;
use cluster_types::octets::Octets;
use cluster_types::out::Outs;
use cluster_types::shared_message::SharedMessage;
use cluster_types::text::Text;
use hub_queries::limits::refusal;
use std::alloc::{AllocError, Global};

/// The type of the refusal of a request for a task.
#[tactic(auto, unfolding(cluster_defs::specs::Texts::submit_refused))]
pub fn submit_refused(alloc: Global) -> Result<Text, AllocError>
    ensures { IfOk result (λ text. text ≡ submit_refused) }
{
    Text::new(alloc, "submit_refused")
}

/// The refusal of a request for a task, by the ids concerned.
fn refused(alloc: Global, ename: &str, evalue: &str) -> Result<Option<Answer>, AllocError>
    ensures { IfOk result (λ a. a ≡ Some (refusal ename.now evalue.now [])) }
{
    let answer = refusal(alloc, ename, evalue, &Ids::new(alloc))?;
    Ok(Some(answer))
}

/// The refusal of a request to an engine that isn't live.
fn no_engine(alloc: Global, target: &[u8]) -> Result<Option<Answer>, AllocError>
    ensures { IfOk result (λ a. a ≡ Some (refusal (codes "NoSuchEngine") (encode_lower target.now) [])) }
{
    let uuid = hex::encode(alloc, target)?;
    refused(alloc, "NoSuchEngine", uuid.as_str())
}

/// What a request for a task is answered: nothing where it is accepted or comes again.
fn demand_answer(
    alloc: Global,
    id: &Text,
    target: &[u8],
    acceptance: Acceptance,
) -> Result<Option<Answer>, AllocError>
    ensures { IfOk result (λ a. a ≡ demand_answer id.now target.now acceptance) }
{
    match acceptance {
        Acceptance::Reserved => refused(alloc, "ReservedId", id.as_str()),
        Acceptance::Purged => refused(alloc, "Purged", id.as_str()),
        Acceptance::Again { repeat: true } => Ok(None),
        Acceptance::Again { repeat: false } => refused(alloc, "KnownId", id.as_str()),
        Acceptance::NoSuchEngine => no_engine(alloc, target),
        Acceptance::Full => refused(alloc, "TableFull", "2000000"),
        Acceptance::Accepted => Ok(None),
    }
}

/// The outcome of an id that isn't purged.
#[tactic(auto, using(crate::proofs::Telling::outcome_none))]
fn outcome_of(state: &State, id: &Text) -> Result<Option<SharedMessage>, AllocError>
    requires reached { Reached (plain state.now) }
    requires unpurged { (facts_in (plain state.now)).purged id.now ≡ false }
    ensures { IfOk result (λ m. m ≡ outcome (facts_in (plain state.now)) id.now) }
{
    match state.tasks.find(id) {
        Some(task) => {
            let outcome = copied(&task.row().outcome)?;
            Ok(outcome)
        }
        None => Ok(None),
    }
}

/// Whether a request is the one that has the id.
fn is_again(acceptance: Acceptance) -> bool
    ensures { result ≡ is_again acceptance }
{
    match acceptance {
        Acceptance::Again { repeat } => repeat,
        _ => false,
    }
}

/// What a request for a task sends that isn't the one that has the id.
fn refused_outs(
    alloc: Global,
    slip: Slip,
    id: &Text,
    message: &SharedMessage,
    acceptance: Acceptance,
) -> Result<Outs, AllocError>
    ensures { IfOk result (λ outs. outs ≡ answer_out slip.opens slip.place slip.conn slip.moment submit_refused message.now.header (demand_answer id.now message.now.target acceptance)) }
{
    let answer = demand_answer(alloc, id, message.target(), acceptance)?;
    let outs = answered(
        alloc,
        slip,
        submit_refused(alloc)?,
        message.header(),
        answer,
    )?;
    Ok(outs)
}

/// What a request for a task sends, direct or not: its refusal, or the outcome where it comes again.
#[tactic(auto, using(crate::proofs::Telling::again_unpurged, crate::proofs::Telling::again_sends, crate::proofs::Telling::refused_sends))]
pub fn demand_outs(
    slip: Slip,
    state: &State,
    direct: bool,
    submission: &Submission,
    message: &SharedMessage,
    acceptance: Acceptance,
) -> Result<Outs, AllocError>
    requires reached { Reached (plain state.now) }
    requires accepted { acceptance ≡ acceptance_of (facts_in (plain state.now)) (record { direct = direct; submission = submission.now }) message.now }
    ensures { IfOk result (λ outs. outs ≡ demand_sends slip (facts_in (plain state.now)) (record { direct = direct; submission = submission.now }) message.now) }
{
    let alloc = state.allocator();
    if is_again(acceptance) {
        let outcome = outcome_of(state, &submission.id)?;
        let outs = pass_to(alloc, Some(slip.conn), outcome)?;
        Ok(outs)
    } else {
        let outs = refused_outs(alloc, slip, &submission.id, message, acceptance)?;
        Ok(outs)
    }
}
