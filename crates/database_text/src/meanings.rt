//! What the messages of entries mean.

ghost use Rattle.std.specs.Prelude.{◌≡◌, IfOk};
ghost use Rattle.cluster_types.specs.declared.entry.Entry.{Entry};
ghost use Rattle.cluster_defs.specs.Connections.{channel_on};
ghost use Rattle.cluster_defs.specs.Facts.{meaning, event_on, event_in};
ghost use Rattle.cluster_state.specs.Plain.{facts_in};
ghost use Rattle.cluster_state.specs.Stands.{plain};

use cluster_intake::fault::IntakeError;
use cluster_intake::understand;
use cluster_state::acceptance::connection_on;
use cluster_state::state::State;
use cluster_types::config::Channel;
use cluster_types::entry::{Entry, Input};
use cluster_types::event::Event;
use cluster_types::shared_message::SharedMessage;
use json::Scratch;
use std::alloc::{AllocError, Global};

/// What a message means on a channel, where it isn't junk.
fn meaning(
    alloc: Global,
    channel: Channel,
    message: &SharedMessage,
    scratch: &mut Scratch,
) -> Result<Option<Event>, AllocError>
    ensures { IfOk result (λ event. event ≡ meaning message.now channel) }
{
    match understand(alloc, channel, message, scratch) {
        Ok(understood) => Ok(Some(understood.event)),
        Err(IntakeError::Junk(_)) => Ok(None),
        Err(IntakeError::OutOfMemory) => Err(AllocError),
    }
}

/// The channel of a live connection.
fn channel_of(state: &State, conn: u32) -> Option<Channel>
    ensures { result ≡ channel_on state.now.connections.items conn }
{
    match connection_on(&state.connections, conn) {
        Some(connection) => Some(connection.channel),
        None => None,
    }
}

/// What a message on a connection means.
fn event_on(
    alloc: Global,
    state: &State,
    conn: u32,
    message: &SharedMessage,
    scratch: &mut Scratch,
) -> Result<Option<Event>, AllocError>
    ensures { IfOk result (λ event. event ≡ event_on (facts_in (plain state.now)) conn message.now) }
{
    match channel_of(state, conn) {
        Some(channel) => meaning(alloc, channel, message, scratch),
        None => Ok(None),
    }
}

/// What the message of an entry means.
pub fn event_in(
    alloc: Global,
    state: &State,
    entry: &Entry,
    scratch: &mut Scratch,
) -> Result<Option<Event>, AllocError>
    ensures { IfOk result (λ event. event ≡ event_in (facts_in (plain state.now)) entry.now) }
{
    match entry {
        Entry::Input(
            Input::In {
                conn,
                moment: _,
                word: _,
                message,
            },
        ) => event_on(alloc, state, *conn, message, scratch),
        _ => Ok(None),
    }
}
