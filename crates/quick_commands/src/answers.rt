//! What the engines answer.

ghost use Rattle.std.specs.Prelude.{◌≡◌, ◌<◌, ◌^◌, ◌-◌, [], All, length, map, slice_get, IfOk, IsTrue, Some};
ghost use Rattle.std.specs.Option.{option_copied};
ghost use Rattle.engine_core.specs.State.{State, new_engine};
ghost use Rattle.quick_commands.specs.Generated.{work_key, engine_uuid};
ghost use Rattle.record_codec.specs.Spelling.{IsShort};
ghost use Rattle.tape_drive.specs.Bare.{read_of};
ghost use Rattle.quick_commands.specs.Work.{first_engines, AnswersIf, AnswersAt, IsAnswered};

use crate::engines::{engine_of, engine_uuid};
use cluster_types::limits::{FIELD_OCTETS, MOST_BUFFERS};
use cluster_types::octets::Octets;
use cluster_types::out::Out;
use cluster_types::shared_message::SharedMessage;
use engine_core::engine::Engine;
use hmac_sign::Key;
use std::alloc::{AllocError, Global};
use tape_drive::bare::read_of;
use tape_drive::order::conn_of;

/// The engine on a connection, before anything was asked of it.
fn engine_on(alloc: Global, conn: u32) -> Result<Engine, AllocError>
    ensures { IfOk result (λ engine. engine ≡ new_engine (engine_uuid conn)) }
{
    let uuid = engine_uuid(alloc, conn)?;
    engine_of(alloc, uuid.as_str())
}

/// The engines on the connections 1 to 4.
pub fn first_engines(alloc: Global) -> Result<Vec<Engine>, AllocError>
    ensures { IfOk result (λ engines. engines.items ≡ first_engines) }
{
    let mut engines = Vec::new(alloc);
    engines.push(engine_on(alloc, 1)?)?;
    engines.push(engine_on(alloc, 2)?)?;
    engines.push(engine_on(alloc, 3)?)?;
    engines.push(engine_on(alloc, 4)?)?;
    Ok(engines)
}

/// What an engine answers to a message that reads.
fn answer_if(
    engine: &mut Engine,
    message: &Option<SharedMessage>,
) -> Result<Option<SharedMessage>, AllocError>
    ensures { IfOk result (λ reply. AnswersIf message.now engine.old reply engine.new) }
{
    match message {
        Some(message) => engine.answer(message, 0),
        None => Ok(None),
    }
}

/// What the engine at a place answers, where there is one.
fn answer_at(
    engines: &mut Vec<Engine>,
    place: usize,
    message: &Option<SharedMessage>,
) -> Result<Option<SharedMessage>, AllocError>
    ensures { IfOk result (λ reply. AnswersAt place (slice_get engines.old.items place) message.now engines.old.items reply engines.new.items) }
{
    if place >= engines.len() {
        return Ok(None);
    }
    answer_if(&mut engines[place], message)
}

/// What an out is answered with by the engine on its connection.
pub fn answer(
    alloc: Global,
    engines: &mut Vec<Engine>,
    key: &Key,
    out: Out,
) -> Result<Option<SharedMessage>, AllocError>
    requires { key.now ≡ work_key }
    ensures { IfOk result (λ reply. IsAnswered out engines.old.items reply engines.new.items) }
{
    let conn = conn_of(&out);
    let message = read_of(alloc, key, out)?;
    answer_at(engines, conn.saturating_sub(1) as usize, &message)
}

/// Whether the length of each buffer can be written.
fn are_short(buffers: &[Octets]) -> bool
    ensures only { IsTrue result → All (λ buffer. length buffer < 2 ^ 32) buffers.now }
    ensures all { All (λ buffer. length buffer < 2 ^ 32) buffers.now → IsTrue result }
{
    buffers
        .iter()
        .all(|buffer| buffer.as_slice().len() <= FIELD_OCTETS)
}

/// Whether the lengths of the parts of a message can be written.
pub fn is_short(message: &SharedMessage) -> bool
    ensures only { IsTrue result → IsShort message.now }
    ensures all { IsShort message.now → IsTrue result }
{
    message.target().len() < 256
        && message.header().len() <= FIELD_OCTETS
        && message.parent().len() <= FIELD_OCTETS
        && message.metadata().len() <= FIELD_OCTETS
        && message.content().len() <= FIELD_OCTETS
        && message.buffers().len() <= MOST_BUFFERS
        && are_short(message.buffers().as_slice())
}
