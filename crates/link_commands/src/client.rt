//! A client that asks a controller for something.

ghost use Rattle.std.specs.Prelude.{◌≡◌, Err, IfOk, OnOk};
ghost use Rattle.link_commands.specs.Asking.{is_ok};
ghost use Rattle.cluster_types.specs.Causes.{Rose};
ghost use Rattle.link_commands.specs.Actions.{IsRequest, channel_for};
ghost use Rattle.link_commands.specs.ClientEnds.{ClientEnds, IsPrinted, IsPrintedInPart};
ghost use Rattle.link_commands.specs.Links.{dials, prints};

use crate::actions::{channel_for, message_for};
use crate::asking::ask_over;
use crate::end::DialledEnd;
use crate::host::Host;
use crate::random::drawn;
use crate::status::is_ok;
use cluster_types::shared_message::SharedMessage;
use command_words::standing::Action;
use edges::sink::{Sink, WriteFailed, write_all};
use hmac_sign::Key;
use std::alloc::{AllocError, Global};
use std::sync::Wait;
use thread_edges::clock::Clock;
use thread_edges::links::{Accepted, Dialer};
use thread_edges::words::Words;
use zmtp_peer::fault::PeerFault;

/// How a client's request ended, with its link where it shows that.
#[derive(Drop)]
pub enum ClientEnd<I, O> {
    /// The content of the answer was printed, and a line feed. `ok` says whether its status is `ok`.
    Answered {
        ok: bool,
        reader: I,
        writer: O,
    },
    /// The controller's stream was read to its end without an answer.
    Unanswered {
        reader: I,
        writer: O,
    },
    /// No link was made.
    NotDialled,
    /// A read or a write failed.
    LinkFault {
        reader: I,
        writer: O,
    },
    /// The stream has this fault, with no answer before it.
    ZmtpFault {
        fault: PeerFault,
        reader: I,
        writer: O,
    },
    /// The answer came, and a write of the output failed.
    OutputFault {
        reader: I,
        writer: O,
    },
    OutOfMemory,
}

/// Why an answer isn't shown.
#[derive(Debug, Drop)]
enum ShowError {
    /// A write of the output failed.
    WriteFailed,
    OutOfMemory,
}

impl From<AllocError> for ShowError {
    ghost use Rattle.std.specs.Prelude.{◌≡◌};
    ghost use Rattle.link_commands.specs.declared.client.ShowError.{ShowError};

    ghost from_gives = { λ _ e. e ≡ ShowError.OutOfMemory };

    fn from(_: AllocError) -> ShowError {
        ShowError::OutOfMemory
    }
}

impl From<WriteFailed> for ShowError {
    ghost use Rattle.std.specs.Prelude.{◌≡◌};
    ghost use Rattle.link_commands.specs.declared.client.ShowError.{ShowError};

    ghost from_gives = { λ _ e. e ≡ ShowError.WriteFailed };

    fn from(_: WriteFailed) -> ShowError {
        ShowError::WriteFailed
    }
}

/// Prints the content of an answer, and a line feed. It tells whether the status of the content is `ok`.
fn show<K: Sink>(alloc: Global, answer: &SharedMessage, output: &mut K) -> Result<bool, ShowError>
    ensures ok { IfOk result (λ ok. ok ≡ is_ok answer.now.content) }
    ensures printed { OnOk result (IsPrinted answer.now (K.written output.old) (K.written output.new)) }
    ensures part { result ≡ Err ShowError.WriteFailed → IsPrintedInPart answer.now (K.written output.old) (K.written output.new) }
    ensures none { result ≡ Err ShowError.OutOfMemory → K.written output.new ≡ K.written output.old }
    ensures cause { result ≡ Err ShowError.WriteFailed → Rose (K.faults output.old) (K.faults output.new) }
{
    let ok = is_ok(alloc, answer.content())?;
    write_all(output, answer.content())?;
    write_all(output, b"\n")?;
    Ok(ok)
}

/// Asks a controller for something: dials the channel of the action, sends its request under two drawn words, and prints the
/// content of the answer and a line feed.
pub fn run_client<R: Wait, N: Dialer, C: Clock, W: Words, K: Sink>(
    host: &mut Host<R, C, W>,
    action: &Action,
    key: &Key,
    dialer: &mut N,
    output: &mut K,
) -> ClientEnd<N::In, N::Out>
    ensures { ClientEnds (dials N.Dialer N.In.Source N.Out.Sink dialer.old dialer.new) (channel_for action.now) key.now (IsRequest action.now (W.coming host.old.words) (W.coming host.new.words)) (prints K.Sink output.old output.new) result }
{
    let (mut reader, mut writer) = match dialer.dial(channel_for(action)) {
        Accepted::Pair(reader, writer) => (reader, writer),
        Accepted::Failed => return ClientEnd::NotDialled,
        Accepted::End => unreachable!(),
    };
    let alloc = host.alloc;
    let random = drawn(&mut host.words);
    let moment = host.clock.now().millis;
    let request = match message_for(alloc, action, random, moment) {
        Ok(request) => request,
        Err(AllocError) => return ClientEnd::OutOfMemory,
    };
    let answer = match ask_over(&host.rt, alloc, &request, key, &mut reader, &mut writer) {
        Ok(answer) => answer,
        Err(DialledEnd::Ended) => return ClientEnd::Unanswered { reader, writer },
        Err(DialledEnd::LinkFault) => return ClientEnd::LinkFault { reader, writer },
        Err(DialledEnd::ZmtpFault(fault)) => {
            return ClientEnd::ZmtpFault {
                fault,
                reader,
                writer,
            };
        }
        Err(DialledEnd::OutOfMemory) => return ClientEnd::OutOfMemory,
    };
    match show(alloc, &answer, output) {
        Ok(ok) => ClientEnd::Answered { ok, reader, writer },
        Err(ShowError::WriteFailed) => ClientEnd::OutputFault { reader, writer },
        Err(ShowError::OutOfMemory) => ClientEnd::OutOfMemory,
    }
}
