//! Entering the messages of a stream.

ghost use Rattle.std.specs.Prelude.{◌≡◌, ◌≢◌, ◌∷◌, [], false, All, IfOk, IfErr, OnOk, OnErr, Err};
ghost use Rattle.cluster_store.specs.Stores.{is_live};
ghost use Rattle.controller_desk.specs.declared.fault.ActError.{ActError as Refusal};
ghost use Rattle.history_lock.specs.Names.{known, room_of, lock_id, IsIdle};
ghost use Rattle.zmtp_peer.specs.Limits.{IsShortMessage};
ghost use Rattle.session_threads.specs.Ends.{EndsHearing, IsEndOf, HasDeskCause};
ghost use Rattle.controller_desk.specs.Contents.{Rests};
ghost use Rattle.session_threads.specs.Reading.{Entered, EnteredFront};
ghost use Rattle.link_messages.specs.Message.{signed};
ghost use Rattle.jupyter_parts.specs.Signed.{read_parts};

use crate::connection::ServedConnection;
use crate::context::{PassOf, SessionContext, SessionTypes};
use controller_desk::acted::Acted;
use controller_desk::fault::ActError;
use controller_desk::reading::Reading;
use edges::frames::Frames;
use jupyter_parts::read::read_parts;
use link_messages::end::SessionEnd;
use link_messages::message::signed;
use load_schemes::chooser::Chooser;
use thread_edges::gate::{Gate, Point};

/// The end of a session at a step that is refused.
pub fn end_of(error: ActError) -> SessionEnd
    requires { error ≢ Refusal.TooManyConnections }
    ensures { IsEndOf error result }
{
    match error {
        ActError::TooManyConnections => unreachable!(),
        ActError::Reopen => SessionEnd::Reopen,
        ActError::HistoryFull { entries, bytes } => SessionEnd::HistoryFull { entries, bytes },
        ActError::OutOfMemory => SessionEnd::OutOfMemory,
    }
}

/// Enters the message that frames are, where they are signed and it means something on its connection.
fn hear<T: SessionTypes>(
    context: &SessionContext<T>,
    chooser: &Chooser,
    pass: &mut PassOf<T>,
    connection: ServedConnection,
    frames: &Frames,
) -> Result<(), SessionEnd>
    requires idle { IsIdle (lock_id context.now.desk.now.lock) pass.old }
    requires short { IsShortMessage frames.now }
    ensures idle { IsIdle (lock_id context.now.desk.now.lock) pass.new }
    ensures room { room_of pass.new ≡ room_of pass.old }
    ensures ok { OnOk result (Entered context.now.key.now connection.number (frames.now ∷ []) [] (known pass.old) (known pass.new)) }
    ensures err { OnErr result (Entered context.now.key.now connection.number [] [] (known pass.old) (known pass.new)) }
    ensures ends { IfErr result EndsHearing }
    ensures cause { IfErr result (λ e. HasDeskCause e (known pass.old) (known pass.new)) }
    ensures closed { result ≡ Err SessionEnd.Closed → (is_live (known pass.new).seen.list connection.number ≡ false) × Rests (known pass.new).seen }
{
    let message = match signed(context.alloc, context.key, frames)? {
        Some(message) => message,
        None => return Ok(()),
    };
    let reading = Reading::new(context.alloc, connection.channel, message)?;
    match context
        .desk
        .act(context.rt, pass, chooser, connection.number, reading)
    {
        Ok(Acted::Entered) => Ok(()),
        Ok(Acted::Junk(_)) => Ok(()),
        Ok(Acted::Gone) => Err(SessionEnd::Closed),
        Err(error) => Err(end_of(error)),
    }
}

/// Enters messages, one after another.
fn hear_each<T: SessionTypes>(
    context: &SessionContext<T>,
    chooser: &Chooser,
    pass: &mut PassOf<T>,
    connection: ServedConnection,
    messages: &[Frames],
) -> Result<(), SessionEnd>
    requires idle { IsIdle (lock_id context.now.desk.now.lock) pass.old }
    requires short { All IsShortMessage messages.now }
    ensures idle { IsIdle (lock_id context.now.desk.now.lock) pass.new }
    ensures room { room_of pass.new ≡ room_of pass.old }
    ensures ok { OnOk result (Entered context.now.key.now connection.number messages.now [] (known pass.old) (known pass.new)) }
    ensures err { OnErr result (EnteredFront context.now.key.now connection.number messages.now (known pass.old) (known pass.new)) }
    ensures ends { IfErr result EndsHearing }
    ensures cause { IfErr result (λ e. HasDeskCause e (known pass.old) (known pass.new)) }
    ensures closed { result ≡ Err SessionEnd.Closed → (is_live (known pass.new).seen.list connection.number ≡ false) × Rests (known pass.new).seen }
{
    for frames in messages {
        hear(context, chooser, pass, connection, frames)?;
    }
    Ok(())
}

/// Enters the messages of a piece, and wakes who flushes them.
pub fn hear_all<T: SessionTypes>(
    context: &SessionContext<T>,
    chooser: &Chooser,
    pass: &mut PassOf<T>,
    connection: ServedConnection,
    messages: &[Frames],
) -> Result<(), SessionEnd>
    requires idle { IsIdle (lock_id context.now.desk.now.lock) pass.old }
    requires short { All IsShortMessage messages.now }
    ensures idle { IsIdle (lock_id context.now.desk.now.lock) pass.new }
    ensures room { room_of pass.new ≡ room_of pass.old }
    ensures ok { OnOk result (Entered context.now.key.now connection.number messages.now [] (known pass.old) (known pass.new)) }
    ensures err { OnErr result (EnteredFront context.now.key.now connection.number messages.now (known pass.old) (known pass.new)) }
    ensures ends { IfErr result EndsHearing }
    ensures cause { IfErr result (λ e. HasDeskCause e (known pass.old) (known pass.new)) }
    ensures closed { result ≡ Err SessionEnd.Closed → (is_live (known pass.new).seen.list connection.number ≡ false) × Rests (known pass.new).seen }
{
    context
        .gate
        .pass(context.rt, Point::Read, connection.number);
    let result = hear_each(context, chooser, pass, connection, messages);
    if !messages.is_empty() {
        context.gate.wake(Point::Flush, 0);
    }
    result
}
