//! The lines of entries.

ghost use Rattle.std.specs.Prelude.{◌≡◌, ◌++◌, OnOk, OnErr, decimal, map};
ghost use Rattle.std.specs.List.{flat_map};
ghost use Rattle.edges.specs.Keeping.{Keeps};
ghost use Rattle.database_text.specs.Lines.{channel_name, scheme_name, hexadecimal, field, message_fields, kind_word, fields, line};

use cluster_types::config::{Channel, Scheme};
use cluster_types::entry::{Entry, Input};
use cluster_types::octets::Octets;
use cluster_types::shared_message::SharedMessage;
use edges::writing::put_both;
use itoa::Buffer;
use std::alloc::AllocError;

/// The name of a channel.
fn name_of_channel(channel: Channel) -> &'static str
    ensures { result.now ≡ channel_name channel }
{
    match channel {
        Channel::Hub => "hub",
        Channel::Task => "task",
        Channel::Mux => "mux",
        Channel::Engine => "engine",
    }
}

/// The name of a scheme.
fn name_of_scheme(scheme: Scheme) -> &'static str
    ensures { result.now ≡ scheme_name scheme }
{
    match scheme {
        Scheme::Lru => "lru",
        Scheme::LeastLoad => "leastload",
        Scheme::PlainRandom => "plainrandom",
        Scheme::TwoBin => "twobin",
    }
}

/// Appends a field behind the space that parts it from what stands before.
fn put_field(into: &mut Vec<u8>, text: &str) -> Result<(), AllocError>
    ensures ok { OnOk result (into.new.items ≡ into.old.items ++ field text.now) }
    ensures err { OnErr result (into.new.items ≡ into.old.items) }
{
    put_both(into, b" ", text.as_bytes())
}

/// Appends a number as a field.
fn put_number(into: &mut Vec<u8>, number: u64) -> Result<(), AllocError>
    ensures ok { OnOk result (into.new.items ≡ into.old.items ++ field (decimal number)) }
    ensures err { OnErr result (into.new.items ≡ into.old.items) }
{
    let mut digits = Buffer::new();
    put_field(into, digits.format(number))
}

/// Appends octets as a field.
fn put_octets(into: &mut Vec<u8>, octets: &[u8]) -> Result<(), AllocError>
    ensures ok { OnOk result (into.new.items ≡ into.old.items ++ field (hexadecimal octets.now)) }
    ensures err { OnErr result (into.new.items ≡ into.old.items) }
{
    if octets.is_empty() {
        return put_field(into, "-");
    }
    let digits = hex::encode(*into.allocator(), octets)?;
    put_field(into, digits.as_str())
}

/// Appends each buffer as a field.
fn put_buffers(into: &mut Vec<u8>, buffers: &[Octets]) -> Result<(), AllocError>
    ensures ok { OnOk result (into.new.items ≡ into.old.items ++ flat_map field (map hexadecimal buffers.now)) }
    ensures kept { OnErr result (Keeps into.old.items into.new.items) }
{
    for buffer in buffers {
        put_octets(into, buffer.as_slice())?;
    }
    Ok(())
}

/// Appends the fields of a message.
fn put_message(into: &mut Vec<u8>, message: &SharedMessage) -> Result<(), AllocError>
    ensures ok { OnOk result (into.new.items ≡ into.old.items ++ flat_map field (message_fields message.now)) }
    ensures kept { OnErr result (Keeps into.old.items into.new.items) }
{
    put_octets(into, message.target())?;
    put_octets(into, message.header())?;
    put_octets(into, message.parent())?;
    put_octets(into, message.metadata())?;
    put_octets(into, message.content())?;
    put_buffers(into, message.buffers().as_slice())
}

/// The word of an input's kind.
fn word_of_input(input: &Input) -> &'static str
    ensures { result.now ≡ kind_word (Entry.Input input.now) }
{
    match input {
        Input::Open { .. } => "open",
        Input::Up { .. } => "up",
        Input::Down { .. } => "down",
        Input::In { .. } => "in",
        Input::Beat { .. } => "beat",
        Input::Time { .. } => "time",
    }
}

/// The word of an entry's kind.
fn word_of(entry: &Entry) -> &'static str
    ensures { result.now ≡ kind_word entry.now }
{
    match entry {
        Entry::Input(input) => word_of_input(input),
        Entry::Hand { .. } => "hand",
        Entry::Settle { .. } => "settle",
        Entry::Lose { .. } => "lose",
    }
}

/// Appends the moment and the word of an input.
fn put_moment(into: &mut Vec<u8>, moment: u64, word: u64) -> Result<(), AllocError>
    ensures ok { OnOk result (into.new.items ≡ into.old.items ++ field (decimal moment) ++ field (decimal word)) }
    ensures kept { OnErr result (Keeps into.old.items into.new.items) }
{
    put_number(into, moment)?;
    put_number(into, word)
}

/// Appends the fields of an input.
fn put_input(into: &mut Vec<u8>, input: &Input) -> Result<(), AllocError>
    ensures ok { OnOk result (into.new.items ≡ into.old.items ++ flat_map field (fields (Entry.Input input.now))) }
    ensures kept { OnErr result (Keeps into.old.items into.new.items) }
{
    match input {
        Input::Open {
            moment,
            scheme,
            hwm,
            misses,
        } => {
            put_number(into, *moment)?;
            put_field(into, name_of_scheme(*scheme))?;
            put_number(into, u64::from(*hwm))?;
            put_number(into, u64::from(*misses))
        }
        Input::Up {
            conn,
            channel,
            moment,
            word,
            identity,
        } => {
            put_number(into, u64::from(*conn))?;
            put_field(into, name_of_channel(*channel))?;
            put_moment(into, *moment, *word)?;
            put_octets(into, identity.as_slice())
        }
        Input::Down { conn, moment, word } => {
            put_number(into, u64::from(*conn))?;
            put_moment(into, *moment, *word)
        }
        Input::In {
            conn,
            moment,
            word,
            message,
        } => {
            put_number(into, u64::from(*conn))?;
            put_moment(into, *moment, *word)?;
            put_message(into, message)
        }
        Input::Beat { moment, word } => put_moment(into, *moment, *word),
        Input::Time { moment, word } => put_moment(into, *moment, *word),
    }
}

/// Appends the fields of an entry.
fn put_fields(into: &mut Vec<u8>, entry: &Entry) -> Result<(), AllocError>
    ensures ok { OnOk result (into.new.items ≡ into.old.items ++ flat_map field (fields entry.now)) }
    ensures kept { OnErr result (Keeps into.old.items into.new.items) }
{
    match entry {
        Entry::Input(input) => put_input(into, input),
        Entry::Hand { id, engine } => {
            put_octets(into, id.as_slice())?;
            put_number(into, u64::from(*engine))
        }
        Entry::Settle { id, verdict, cause } => {
            put_octets(into, id.as_slice())?;
            put_field(into, verdict.name())?;
            put_field(into, cause.name())
        }
        Entry::Lose { engine } => put_number(into, u64::from(*engine)),
    }
}

/// Appends the parts of the line of an entry, one after another.
fn put_parts(into: &mut Vec<u8>, entry: &Entry) -> Result<(), AllocError>
    ensures ok { OnOk result (into.new.items ≡ into.old.items ++ line entry.now) }
    ensures kept { OnErr result (Keeps into.old.items into.new.items) }
{
    into.extend_from_slice(word_of(entry).as_bytes())?;
    put_fields(into, entry)?;
    into.push(b'\n')?;
    Ok(())
}

/// Appends the line of an entry. Where memory is wanting, `into` is as it was.
pub fn put_line(into: &mut Vec<u8>, entry: &Entry) -> Result<(), AllocError>
    ensures ok { OnOk result (into.new.items ≡ into.old.items ++ line entry.now) }
    ensures err { OnErr result (into.new.items ≡ into.old.items) }
{
    let before = into.len();
    let put = put_parts(into, entry);
    if put.is_err() {
        into.truncate(before);
    }
    put
}
