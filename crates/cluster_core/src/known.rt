//! What is known after a history, read off its entries.

ghost use Rattle.std.specs.Prelude.{◌≡◌, ◌≤◌, ◌∷◌, [], reverse, length, None, IfOk, OnOk, Ok, Err};
ghost use Rattle.std.specs.Option.{is_some};
ghost use Rattle.cluster_defs.specs.Event.{event_of};
ghost use Rattle.cluster_defs.specs.Header.{message_type};
ghost use Rattle.cluster_types.specs.declared.entry.Entry.{Entry};
ghost use Rattle.cluster_types.specs.Limits.{last_moment};
ghost use Rattle.cluster_defs.specs.Connections.{channel_on, connection_on};
ghost use Rattle.cluster_defs.specs.Facts.{event_in};
ghost use Rattle.cluster_defs.specs.Outs.{outs_as};
ghost use Rattle.cluster_defs.specs.Scheduling.{may_take, is_kept_as};
ghost use Rattle.cluster_defs.specs.Histories.{facts, Legal, place};
ghost use Rattle.cluster_state.specs.Plain.{facts_in, plain_of, plain_after, InTime};
ghost use Rattle.cluster_state.specs.Stands.{plain};
ghost use Rattle.entry_outs.specs.Asked.{type_on, told_type};
ghost use Rattle.entry_outs.specs.Reached.{IsNext};
ghost use Rattle.cluster_core.specs.Steps.{AllInTime, IsReadOff, understood, entry_place};

use crate::meaning::Meaning;
use crate::taken::{TakenEntry, take_entry};
use cluster_intake::fault::IntakeError;
use cluster_intake::understand;
use cluster_state::acceptance::connection_on;
use cluster_state::state::State;
use cluster_types::config::Channel;
use cluster_types::entry::{Entry, Input};
use cluster_types::event::Event;
use cluster_types::shared_message::SharedMessage;
use entry_outs::rulings::ruling;
use json::Scratch;
use std::alloc::{AllocError, Global};
use task_table::attempts::one_more;

/// What a message means on a channel.
fn understood(
    alloc: Global,
    channel: Channel,
    message: &SharedMessage,
    scratch: &mut Scratch,
) -> Result<Meaning, AllocError>
    ensures event { IfOk result (λ m. m.event ≡ understood (event_of channel message.now)) }
    ensures kind { IfOk result (λ m. m.msg_type ≡ told_type m.event (message_type message.now)) }
{
    match understand(alloc, channel, message, scratch) {
        Ok(understood) => Ok(Meaning {
            event: Some(understood.event),
            msg_type: understood.msg_type,
        }),
        Err(IntakeError::Junk(_)) => Meaning::none(alloc),
        Err(IntakeError::OutOfMemory) => Err(AllocError),
    }
}

fn channel_of(state: &State, conn: u32) -> Option<Channel>
    ensures { result ≡ channel_on state.now.connections.items conn }
{
    match connection_on(&state.connections, conn) {
        Some(connection) => Some(connection.channel),
        None => None,
    }
}

/// What the message of an input means.
pub fn meaning_of_input(
    alloc: Global,
    state: &State,
    input: &Input,
    scratch: &mut Scratch,
) -> Result<Meaning, AllocError>
    ensures event { IfOk result (λ m. m.event ≡ event_in (facts_in (plain state.now)) (Entry.Input input.now)) }
    ensures kind { IfOk result (λ m. m.msg_type ≡ told_type m.event (type_on (Entry.Input input.now))) }
{
    match input {
        Input::In {
            conn,
            moment: _,
            word: _,
            message,
        } => match channel_of(state, *conn) {
            Some(channel) => {
                let meaning = understood(alloc, channel, message, scratch)?;
                Ok(meaning)
            }
            None => Meaning::none(alloc),
        },
        _ => Meaning::none(alloc),
    }
}

fn is_live(state: &State, conn: u32) -> bool
    ensures { result ≡ is_some (connection_on state.now.connections.items conn) }
{
    connection_on(&state.connections, conn).is_some()
}

/// Whether an input may come. `event` is what its message means.
pub fn may_take(state: &State, input: &Input, event: &Option<Event>) -> bool
    ensures { result ≡ may_take (facts_in (plain state.now)) input.now event.now }
{
    match input {
        Input::Open { .. } => true,
        Input::Up { conn, .. } => state.begun && !is_live(state, *conn),
        Input::Down { conn, .. } => is_live(state, *conn),
        Input::In { .. } => event.is_some(),
        Input::Beat { .. } | Input::Time { .. } => state.begun,
    }
}

/// What the message of an entry means.
fn event_of_entry(
    alloc: Global,
    state: &State,
    entry: &Entry,
    scratch: &mut Scratch,
) -> Result<Option<Event>, AllocError>
    ensures { IfOk result (λ e. e ≡ event_in (facts_in (plain state.now)) entry.now) }
{
    match entry {
        Entry::Input(input) => {
            let meaning = meaning_of_input(alloc, state, input, scratch)?;
            Ok(meaning.into_event())
        }
        _ => Ok(None),
    }
}

/// What is known after a history, and the place of its newest entry after the last Open.
#[derive(Drop)]
pub struct Known {
    pub state: State,
    pub place: u64,
}

/// The place of an entry that comes next.
pub fn next_place(place: u64, entry: &Entry) -> Result<u64, AllocError>
    ensures { IfOk result (λ n. n ≡ entry_place entry.now place) }
{
    match entry {
        Entry::Input(Input::Open { .. }) => Ok(0),
        _ => one_more(place),
    }
}

impl Known {
    /// Before the first entry.
    fn new(alloc: Global) -> Known
        ensures { IsReadOff [] (plain result.state) result.place }
    {
        Known {
            state: State::new(alloc),
            place: 0,
        }
    }

    /// The channel of a connection, where it is live.
    pub fn channel_of(&self, conn: u32) -> Option<Channel>
        ensures { result ≡ channel_on (plain self.now.state).connections conn }
    {
        channel_of(&self.state, conn)
    }

    /// How many connections are live.
    pub fn live(&self) -> usize
        ensures { result ≡ length (plain self.now.state).connections }
    {
        self.state.connections.len()
    }

    /// Takes an entry that may stand next, and gives what it sends.
    pub fn take_told(&mut self, entry: &Entry, meaning: &Meaning) -> Result<TakenEntry, AllocError>
        requires next { IsNext (plain self.old.state) entry.now }
        requires kind { meaning.now.msg_type ≡ told_type meaning.now.event (type_on entry.now) }
        requires time { InTime entry.now }
        requires now { self.old.state.moment ≤ last_moment }
        ensures outs { IfOk result (λ t. t.outs.items ≡ outs_as self.new.place (facts_in (plain self.old.state)) entry.now meaning.now.event) }
        ensures kept { IfOk result (λ t. t.is_kept ≡ is_kept_as (facts_in (plain self.old.state)) entry.now meaning.now.event) }
        ensures data { OnOk result (plain self.new.state ≡ plain_after (facts_in (plain self.old.state)) entry.now meaning.now.event (plain self.old.state)) }
        ensures place { OnOk result (self.new.place ≡ entry_place entry.now self.old.place) }
    {
        let place = next_place(self.place, entry)?;
        let taken = take_entry(place, &mut self.state, entry, meaning)?;
        self.place = place;
        Ok(taken)
    }

    /// Takes a decision, and gives what it sends.
    pub fn decide(&mut self, alloc: Global, decision: &Entry) -> Result<TakenEntry, AllocError>
        requires next { IsNext (plain self.old.state) decision.now }
        requires time { InTime decision.now }
        requires now { self.old.state.moment ≤ last_moment }
        ensures outs { IfOk result (λ t. t.outs.items ≡ outs_as self.new.place (facts_in (plain self.old.state)) decision.now None) }
        ensures data { OnOk result (plain self.new.state ≡ plain_after (facts_in (plain self.old.state)) decision.now None (plain self.old.state)) }
        ensures place { OnOk result (self.new.place ≡ entry_place decision.now self.old.place) }
    {
        let none = Meaning::none(alloc)?;
        self.take_told(decision, &none)
    }

    /// Takes an entry with what it means.
    fn take_as(&mut self, entry: &Entry, event: &Option<Event>) -> Result<(), AllocError>
        requires next { IsNext (plain self.old.state) entry.now }
        requires time { InTime entry.now }
        requires now { self.old.state.moment ≤ last_moment }
        ensures data { OnOk result (plain self.new.state ≡ plain_after (facts_in (plain self.old.state)) entry.now event.now (plain self.old.state)) }
        ensures place { OnOk result (self.new.place ≡ entry_place entry.now self.old.place) }
    {
        let ruling = ruling(&self.state, entry, event)?;
        self.state.take(entry, event, ruling)?;
        self.place = next_place(self.place, entry)?;
        Ok(())
    }

    /// Takes an entry with what its message means.
    fn take(&mut self, entry: &Entry, scratch: &mut Scratch) -> Result<(), AllocError>
        requires next { IsNext (plain self.old.state) entry.now }
        requires time { InTime entry.now }
        requires now { self.old.state.moment ≤ last_moment }
        ensures data { OnOk result (plain self.new.state ≡ plain_after (facts_in (plain self.old.state)) entry.now (event_in (facts_in (plain self.old.state)) entry.now) (plain self.old.state)) }
        ensures place { OnOk result (self.new.place ≡ entry_place entry.now self.old.place) }
    {
        let event = event_of_entry(self.state.allocator(), &self.state, entry, scratch)?;
        self.take_as(entry, &event)
    }
}

/// What is known after a legal history.
pub fn rebuilt(alloc: Global, entries: &[Entry]) -> Result<Known, AllocError>
    requires legal { Legal (reverse entries.now) }
    requires time { AllInTime (reverse entries.now) }
    ensures { IfOk result (λ k. IsReadOff (reverse entries.now) (plain k.state) k.place) }
{
    let mut scratch = Scratch::new(alloc);
    let mut known = Known::new(alloc);
    for entry in entries {
        known.take(entry, &mut scratch)?;
    }
    Ok(known)
}
