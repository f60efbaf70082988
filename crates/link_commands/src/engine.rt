//! An engine that works for a controller.

ghost use Rattle.std.specs.Prelude.{◌≡◌, true};
ghost use Rattle.engine_core.specs.State.{is_uuid};
ghost use Rattle.link_commands.specs.EngineEnds.{EngineEnds};
ghost use Rattle.link_commands.specs.Links.{dials};

use crate::end::DialledEnd;
use crate::host::Host;
use crate::working::serve_engine;
use engine_core::engine::Engine;
use engine_core::error::EngineError;
use hmac_sign::Key;
use std::sync::Wait;
use thread_edges::clock::Clock;
use thread_edges::links::{Accepted, Dialer};
use zmtp_peer::fault::PeerFault;

/// The channel of engines.
const ENGINES: u8 = 3;

/// How an engine's work ended, with its link where one was used.
#[derive(Drop)]
pub enum EngineEnd<I, O> {
    /// The controller's stream was read to its end.
    Done {
        reader: I,
        writer: O,
    },
    /// No link was made.
    NotDialled,
    /// A read or a write failed.
    LinkFault {
        reader: I,
        writer: O,
    },
    /// The stream has this fault. What stands before it was answered.
    ZmtpFault {
        fault: PeerFault,
        reader: I,
        writer: O,
    },
    OutOfMemory,
}

/// Works for a controller as an engine: dials its channel of engines, joins, and answers its requests until its stream ends.
pub fn run_engine<R: Wait, N: Dialer, C: Clock, W>(
    host: &mut Host<R, C, W>,
    uuid: &str,
    key: &Key,
    dialer: &mut N,
) -> EngineEnd<N::In, N::Out>
    requires { is_uuid uuid.now ≡ true }
    ensures { EngineEnds (dials N.Dialer N.In.Source N.Out.Sink dialer.old dialer.new) key.now uuid.now result }
{
    let alloc = host.alloc;
    let mut engine = match Engine::new(alloc, uuid) {
        Ok(engine) => engine,
        Err(EngineError::OutOfMemory) => return EngineEnd::OutOfMemory,
        Err(EngineError::BadUuid) => unreachable!(),
    };
    let (mut reader, mut writer) = match dialer.dial(ENGINES) {
        Accepted::Pair(reader, writer) => (reader, writer),
        Accepted::Failed => return EngineEnd::NotDialled,
        Accepted::End => unreachable!(),
    };
    let end = serve_engine(
        &host.rt,
        alloc,
        &mut engine,
        key,
        &mut reader,
        &mut writer,
        &mut host.clock,
    );
    match end {
        DialledEnd::Ended => EngineEnd::Done { reader, writer },
        DialledEnd::LinkFault => EngineEnd::LinkFault { reader, writer },
        DialledEnd::ZmtpFault(fault) => EngineEnd::ZmtpFault {
            fault,
            reader,
            writer,
        },
        DialledEnd::OutOfMemory => EngineEnd::OutOfMemory,
    }
}
