//! What each entry sends.

ghost use Rattle.std.specs.Prelude.{◌≡◌, ◌≤◌, ◌+◌, IfOk, Some, map};
ghost use Rattle.std.specs.Option.{option_copied};
ghost use Rattle.cluster_types.specs.Limits.{last_moment};
ghost use Rattle.cluster_types.specs.declared.event.Event.{Event as EventType};
ghost use Rattle.cluster_defs.specs.Header.{message_type};
ghost use Rattle.cluster_defs.specs.Connections.{connection_on};
ghost use Rattle.cluster_defs.specs.Histories.{History, Legal, facts};
ghost use Rattle.cluster_defs.specs.Outs.{beat_out, message_outs, outs_as};
ghost use Rattle.cluster_state.specs.Plain.{facts_in, plain_of};
ghost use Rattle.cluster_state.specs.Ruled.{IsTold, IsRuled};
ghost use Rattle.cluster_state.specs.Stands.{plain};
ghost use Rattle.entry_outs.specs.Asked.{type_on, told_type};
ghost use Rattle.entry_outs.specs.Reached.{Reached, IsNext};

use crate::answers::{Asked, Slip};
use crate::beats::beat_outs;
use crate::messages::event_outs;
use crate::passes::{hand_outs, settle_outs};
use cluster_state::acceptance::connection_on;
use cluster_state::ruling::Ruling;
use cluster_state::state::State;
use cluster_types::entry::{Entry, Input};
use cluster_types::event::Event;
use cluster_types::out::Outs;
use cluster_types::shared_message::SharedMessage;
use cluster_types::text::Text;
use std::alloc::AllocError;
use task_table::attempts::one_more;

/// What a message sends, where its answer goes as the slip says.
fn message_outs(
    slip: Slip,
    state: &State,
    message: &SharedMessage,
    event: &Option<Event>,
    msg_type: &Text,
    ruling: &Ruling,
) -> Result<Outs, AllocError>
    requires reached { Reached (plain state.now) }
    requires opens { slip.opens ≡ state.now.opens }
    requires kind { msg_type.now ≡ told_type event.now (message_type message.now) }
    requires ruled { (e : EventType) → event.now ≡ Some e → IsTold (facts_in (plain state.now)) slip.conn message.now e ruling.now }
    ensures { IfOk result (λ outs. outs ≡ message_outs slip.place (facts_in (plain state.now)) slip.conn slip.moment message.now (connection_on state.now.connections.items slip.conn) event.now) }
{
    let alloc = state.allocator();
    let Some(connection) = connection_on(&state.connections, slip.conn) else {
        return Ok(Outs::new(alloc));
    };
    let Some(event) = event else {
        return Ok(Outs::new(alloc));
    };
    let asked = Asked {
        slip,
        channel: connection.channel,
    };
    let outs = event_outs(asked, state, message, event, msg_type, ruling)?;
    Ok(outs)
}

/// What a beat sends.
fn beat_round(place: u64, state: &State, moment: u64) -> Result<Outs, AllocError>
    ensures { IfOk result (λ outs. outs ≡ map (beat_out state.now.opens place moment (state.now.beats + 1)) state.now.engines) }
{
    let beat = one_more(state.beats)?;
    let outs = beat_outs(
        state.allocator(),
        state.opens,
        place,
        moment,
        beat,
        state.engines.as_slice(),
    )?;
    Ok(outs)
}

/// What an input sends.
fn input_outs(
    place: u64,
    state: &State,
    input: &Input,
    event: &Option<Event>,
    msg_type: &Text,
    ruling: &Ruling,
) -> Result<Outs, AllocError>
    requires reached { Reached (plain state.now) }
    requires kind { msg_type.now ≡ told_type event.now (type_on (Entry.Input input.now)) }
    requires ruled { IsRuled (plain state.now) (Entry.Input input.now) event.now ruling.now }
    ensures { IfOk result (λ outs. outs ≡ outs_as place (facts_in (plain state.now)) (Entry.Input input.now) event.now) }
{
    match input {
        Input::Beat { moment, word: _ } => beat_round(place, state, *moment),
        Input::In {
            conn,
            moment,
            word: _,
            message,
        } => {
            let slip = Slip {
                opens: state.opens,
                place,
                conn: *conn,
                moment: *moment,
            };
            let outs = message_outs(slip, state, message, event, msg_type, ruling)?;
            Ok(outs)
        }
        _ => Ok(Outs::new(state.allocator())),
    }
}

/// What an entry that may stand next sends.
#[tactic(auto, using(crate::proofs::Telling::reached))]
fn entry_outs(
    place: u64,
    state: &State,
    entry: &Entry,
    event: &Option<Event>,
    msg_type: &Text,
    ruling: &Ruling,
) -> Result<Outs, AllocError>
    requires next { IsNext (plain state.now) entry.now }
    requires moment { state.now.moment ≤ last_moment }
    requires kind { msg_type.now ≡ told_type event.now (type_on entry.now) }
    requires ruled { IsRuled (plain state.now) entry.now event.now ruling.now }
    ensures { IfOk result (λ outs. outs ≡ outs_as place (facts_in (plain state.now)) entry.now event.now) }
{
    match entry {
        Entry::Input(input) => input_outs(place, state, input, event, msg_type, ruling),
        Entry::Hand { id, engine } => hand_outs(state.allocator(), state, id, *engine),
        Entry::Settle {
            id,
            verdict: _,
            cause: _,
        } => settle_outs(state.allocator(), state, id, ruling.settle()),
        Entry::Lose { engine: _ } => Ok(Outs::new(state.allocator())),
    }
}

/// What an entry sends at a place after the last Open, which has the place 0. The state is that before the entry, and
/// the moment of its last input is one before the year 10000. `event` is what the message of an input means, where it
/// isn't junk, and `msg_type` is then the message's type, and empty otherwise.
pub fn outs(
    place: u64,
    state: &State,
    entry: &Entry,
    event: &Option<Event>,
    msg_type: &Text,
    ruling: &Ruling,
) -> Result<Outs, AllocError>
    requires next { IsNext (plain state.now) entry.now }
    requires moment { state.now.moment ≤ last_moment }
    requires kind { msg_type.now ≡ told_type event.now (type_on entry.now) }
    requires ruled { IsRuled (plain state.now) entry.now event.now ruling.now }
    ensures state { IfOk result (λ outs. outs ≡ outs_as place (facts_in (plain state.now)) entry.now event.now) }
    ensures history { IfOk result (λ outs. (history : History) → Legal history → plain state.now ≡ plain_of (facts history) → outs ≡ outs_as place (facts history) entry.now event.now) }
{
    let sent = entry_outs(place, state, entry, event, msg_type, ruling)?;
    Ok(sent)
}
