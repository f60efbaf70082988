//! Answering the messages of a stream.

ghost use Rattle.std.specs.Prelude.{◌≡◌, ◌⊎◌, ◌≤◌, IfOk, OnOk, OnErr, Err};
ghost use Rattle.cluster_types.specs.Causes.{Rose};
ghost use Rattle.cluster_types.specs.Limits.{last_moment};
ghost use Rattle.engine_core.specs.State.{standing};
ghost use Rattle.link_commands.specs.Working.{Hears, WroteAll, WroteSome};

use crate::dialled::{octets_of, write};
use crate::end::DialledEnd;
use edges::frames::Frames;
use edges::sink::Sink;
use engine_core::engine::Engine;
use hmac_sign::Key;
use link_messages::message::signed;
use std::alloc::{AllocError, Global};
use thread_edges::clock::Clock;

/// The octets of the answer to frames, none where they are no signed message or no request.
fn answer_to(
    alloc: Global,
    engine: &mut Engine,
    key: &Key,
    frames: &Frames,
    moment: u64,
) -> Result<Vec<u8>, AllocError>
    requires { moment ≤ last_moment }
    ensures { IfOk result (λ octets. Hears key.now (standing engine.old) frames.now octets.items (standing engine.new)) }
{
    let message = match signed(alloc, key, frames)? {
        Some(message) => message,
        None => return Ok(Vec::new(alloc)),
    };
    match engine.answer(&message, moment)? {
        Some(reply) => octets_of(alloc, key, &reply),
        None => Ok(Vec::new(alloc)),
    }
}

/// Writes the answers to messages, one after another.
pub fn answer_all<K: Sink, C: Clock>(
    alloc: Global,
    engine: &mut Engine,
    key: &Key,
    clock: &mut C,
    writer: &mut K,
    messages: &[Frames],
) -> Result<(), DialledEnd>
    ensures ok { OnOk result (WroteAll key.now (standing engine.old) messages.now (K.written writer.old) (K.written writer.new) (standing engine.new)) }
    ensures err { OnErr result (WroteSome key.now (standing engine.old) messages.now (K.written writer.old) (K.written writer.new)) }
    ensures ends { OnErr result ((result ≡ Err DialledEnd.LinkFault) ⊎ (result ≡ Err DialledEnd.OutOfMemory)) }
    ensures cause { result ≡ Err DialledEnd.LinkFault → Rose (K.faults writer.old) (K.faults writer.new) }
    ensures later { K.faults writer.old ≤ K.faults writer.new }
{
    for frames in messages {
        let moment = clock.now().millis;
        let octets = answer_to(alloc, engine, key, frames, moment)?;
        write(writer, octets.as_slice())?;
    }
    Ok(())
}
