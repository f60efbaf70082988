//! The commands over a link to a controller.

ghost use Rattle.std.specs.Prelude.{◌≡◌, true};
ghost use Rattle.engine_core.specs.State.{is_uuid};
ghost use Rattle.link_commands.specs.Links.{dials, prints};
ghost use Rattle.standing_commands.specs.Links.{engine_shown, client_shown, WorksAs, AsksAs};

use crate::shown::Shown;
use cluster_types::octets::Octets;
use cluster_types::text::Text;
use command_words::ending::{Ending, StandingEnding};
use command_words::standing::Action;
use edges::sink::Sink;
use hmac_sign::Key;
use link_commands::client::{ClientEnd, run_client};
use link_commands::engine::{EngineEnd, run_engine};
use link_commands::host::Host;
use std::sync::Wait;
use thread_edges::clock::Clock;
use thread_edges::links::Dialer;
use thread_edges::words::Words;

/// How the program ends where an engine has ended so, and what shows it.
fn engine_shown<P, I, O, D, K, T>(end: EngineEnd<I, O>) -> (StandingEnding, Shown<P, I, O, D, K, T>)
    ensures { result ≡ engine_shown end }
{
    match end {
        EngineEnd::Done { reader, writer } => (
            StandingEnding::Plain(Ending::Done),
            Shown::Link { reader, writer },
        ),
        EngineEnd::LinkFault { reader, writer } | EngineEnd::ZmtpFault { reader, writer, .. } => {
            (StandingEnding::LinkFault, Shown::Link { reader, writer })
        }
        EngineEnd::NotDialled => (StandingEnding::LinkFault, Shown::Nothing),
        EngineEnd::OutOfMemory => (StandingEnding::Plain(Ending::OutOfMemory), Shown::Nothing),
    }
}

/// How the program ends where a client's request has ended so, and what shows it.
fn client_shown<P, I, O, D, K, T>(end: ClientEnd<I, O>) -> (StandingEnding, Shown<P, I, O, D, K, T>)
    ensures { result ≡ client_shown end }
{
    match end {
        ClientEnd::Answered {
            ok: true,
            reader,
            writer,
        } => (
            StandingEnding::Plain(Ending::Done),
            Shown::Link { reader, writer },
        ),
        ClientEnd::Answered {
            ok: false,
            reader,
            writer,
        } => (StandingEnding::NotOk, Shown::Link { reader, writer }),
        ClientEnd::Unanswered { reader, writer }
        | ClientEnd::LinkFault { reader, writer }
        | ClientEnd::ZmtpFault { reader, writer, .. } => {
            (StandingEnding::LinkFault, Shown::Link { reader, writer })
        }
        ClientEnd::NotDialled => (StandingEnding::LinkFault, Shown::Nothing),
        ClientEnd::OutputFault { reader, writer } => (
            StandingEnding::Plain(Ending::WriteFault),
            Shown::Link { reader, writer },
        ),
        ClientEnd::OutOfMemory => (StandingEnding::Plain(Ending::OutOfMemory), Shown::Nothing),
    }
}

/// Works for a controller as an engine.
pub fn work<P, D, K, T, R: Wait + Drop, N: Dialer, C: Clock + Drop, W: Drop>(
    host: Host<R, C, W>,
    uuid: &Text,
    key: &Octets,
    dialer: &mut N,
) -> (StandingEnding, Shown<P, N::In, N::Out, D, K, T>)
    requires { is_uuid uuid.now ≡ true }
    ensures { WorksAs (dials N.Dialer N.In.Source N.Out.Sink dialer.old dialer.new) key.now uuid.now result }
{
    let mut host = host;
    let Ok(key) = Key::new(host.alloc, key.as_slice()) else {
        return engine_shown(EngineEnd::OutOfMemory);
    };
    let end = run_engine(&mut host, uuid.as_str(), &key, dialer);
    engine_shown(end)
}

/// Asks a controller for something, and prints its answer.
pub fn ask<P, D, T, F, R: Wait + Drop, N: Dialer, C: Clock + Drop, W: Words + Drop, K: Sink>(
    host: Host<R, C, W>,
    action: &Action,
    key: &Octets,
    dialer: &mut N,
    output: &mut K,
) -> (StandingEnding, Shown<P, N::In, N::Out, D, F, T>)
    ensures { AsksAs (dials N.Dialer N.In.Source N.Out.Sink dialer.old dialer.new) key.now action.now (W.coming host.words) (prints K.Sink output.old output.new) result }
{
    let mut host = host;
    let Ok(key) = Key::new(host.alloc, key.as_slice()) else {
        return client_shown(ClientEnd::OutOfMemory);
    };
    let end = run_client(&mut host, action, &key, dialer, output);
    client_shown(end)
}
