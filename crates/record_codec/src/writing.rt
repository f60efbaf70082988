//! Writing entries.

ghost use Rattle.std.specs.Prelude.{◌≡◌, ◌++◌, length, true, OnOk, OnErr};
ghost use Rattle.std.specs.Str.{is_utf8};
ghost use Rattle.edges.specs.Keeping.{Keeps};
ghost use Rattle.record_codec.specs.Spelling.{spelling, scheme_code, verdict_code, cause_code, IsMoment, IsName, IsShort, IsWithinLimits, HasRecord};

use crate::message::put_message;
use cluster_types::config::{Channel, Scheme};
use cluster_types::entry::{Entry, Input};
use cluster_types::octets::Octets;
use cluster_types::shared_message::SharedMessage;
use cluster_types::text::Text;
use cluster_types::verdict::{Cause, Verdict};
use edges::writing::{put_channel, put_number32, put_number64, put_str8};
use std::alloc::AllocError;

/// The code of a scheme.
fn code_of_scheme(scheme: Scheme) -> u8
    ensures { result ≡ scheme_code scheme }
{
    match scheme {
        Scheme::Lru => 0,
        Scheme::LeastLoad => 1,
        Scheme::PlainRandom => 2,
        Scheme::TwoBin => 3,
    }
}

/// The code of a verdict.
fn code_of_verdict(verdict: Verdict) -> u8
    ensures { result ≡ verdict_code verdict }
{
    match verdict {
        Verdict::Completed => 1,
        Verdict::Failed => 2,
        Verdict::Aborted => 3,
    }
}

/// The code of a cause.
fn code_of_cause(cause: Cause) -> u8
    ensures { result ≡ cause_code cause }
{
    match cause {
        Cause::Reply => 0,
        Cause::EngineError => 1,
        Cause::ImpossibleDependency => 2,
        Cause::InvalidDependency => 3,
        Cause::TaskTimeout => 4,
        Cause::Abort => 5,
    }
}

/// The octets of an id, which are UTF-8.
fn text_of(id: &Text) -> &[u8]
    ensures same { result.now ≡ id.now }
    ensures utf8 { is_utf8 id.now ≡ true }
{
    id.as_str().as_bytes()
}

/// Appends the record of the opening of a controller.
#[tactic(auto, using(edges::proofs::Joins::joins))]
fn write_open(
    into: &mut Vec<u8>,
    moment: u64,
    scheme: Scheme,
    hwm: u32,
    misses: u32,
) -> Result<(), AllocError>
    requires { IsMoment moment }
    ensures record { OnOk result (into.new.items ≡ into.old.items ++ spelling (Entry.Input (Input.Open moment scheme hwm misses))) }
    ensures kept { OnErr result (Keeps into.old.items into.new.items) }
    ensures has { HasRecord (Entry.Input (Input.Open moment scheme hwm misses)) }
{
    into.push(1)?;
    put_number64(into, moment)?;
    into.push(code_of_scheme(scheme))?;
    put_number32(into, hwm)?;
    put_number32(into, misses)
}

/// Appends the record of a connection that came up.
#[tactic(auto, using(edges::proofs::Joins::joins))]
fn write_up(
    into: &mut Vec<u8>,
    conn: u32,
    channel: Channel,
    moment: u64,
    word: u64,
    identity: &Octets,
) -> Result<(), AllocError>
    requires moment { IsMoment moment }
    requires identity { IsName identity.now }
    ensures record { OnOk result (into.new.items ≡ into.old.items ++ spelling (Entry.Input (Input.Up conn channel moment word identity.now))) }
    ensures kept { OnErr result (Keeps into.old.items into.new.items) }
    ensures has { HasRecord (Entry.Input (Input.Up conn channel moment word identity.now)) }
{
    into.push(2)?;
    put_number32(into, conn)?;
    put_channel(into, channel)?;
    put_number64(into, moment)?;
    put_number64(into, word)?;
    put_str8(into, identity.as_slice())
}

/// Appends the record of a connection that went down.
#[tactic(auto, using(edges::proofs::Joins::joins))]
fn write_down(into: &mut Vec<u8>, conn: u32, moment: u64, word: u64) -> Result<(), AllocError>
    requires { IsMoment moment }
    ensures record { OnOk result (into.new.items ≡ into.old.items ++ spelling (Entry.Input (Input.Down conn moment word))) }
    ensures kept { OnErr result (Keeps into.old.items into.new.items) }
    ensures has { HasRecord (Entry.Input (Input.Down conn moment word)) }
{
    into.push(3)?;
    put_number32(into, conn)?;
    put_number64(into, moment)?;
    put_number64(into, word)
}

/// Appends the record of a message that came in.
#[tactic(auto, using(edges::proofs::Joins::joins))]
fn write_in(
    into: &mut Vec<u8>,
    conn: u32,
    moment: u64,
    word: u64,
    message: &SharedMessage,
) -> Result<(), AllocError>
    requires moment { IsMoment moment }
    requires message { IsShort message.now }
    ensures record { OnOk result (into.new.items ≡ into.old.items ++ spelling (Entry.Input (Input.In conn moment word message.now))) }
    ensures kept { OnErr result (Keeps into.old.items into.new.items) }
    ensures has { HasRecord (Entry.Input (Input.In conn moment word message.now)) }
{
    into.push(4)?;
    put_number32(into, conn)?;
    put_number64(into, moment)?;
    put_number64(into, word)?;
    put_message(into, message)
}

/// Appends the record of a beat.
#[tactic(auto, using(edges::proofs::Joins::joins))]
fn write_beat(into: &mut Vec<u8>, moment: u64, word: u64) -> Result<(), AllocError>
    requires { IsMoment moment }
    ensures record { OnOk result (into.new.items ≡ into.old.items ++ spelling (Entry.Input (Input.Beat moment word))) }
    ensures kept { OnErr result (Keeps into.old.items into.new.items) }
    ensures has { HasRecord (Entry.Input (Input.Beat moment word)) }
{
    into.push(5)?;
    put_number64(into, moment)?;
    put_number64(into, word)
}

/// Appends the record of a moment that came.
#[tactic(auto, using(edges::proofs::Joins::joins))]
fn write_time(into: &mut Vec<u8>, moment: u64, word: u64) -> Result<(), AllocError>
    requires { IsMoment moment }
    ensures record { OnOk result (into.new.items ≡ into.old.items ++ spelling (Entry.Input (Input.Time moment word))) }
    ensures kept { OnErr result (Keeps into.old.items into.new.items) }
    ensures has { HasRecord (Entry.Input (Input.Time moment word)) }
{
    into.push(6)?;
    put_number64(into, moment)?;
    put_number64(into, word)
}

/// Appends the record of a task that was handed to an engine.
#[tactic(auto, using(edges::proofs::Joins::joins))]
fn write_hand(into: &mut Vec<u8>, id: &Text, engine: u32) -> Result<(), AllocError>
    requires { IsName id.now }
    ensures record { OnOk result (into.new.items ≡ into.old.items ++ spelling (Entry.Hand id.now engine)) }
    ensures kept { OnErr result (Keeps into.old.items into.new.items) }
    ensures has { HasRecord (Entry.Hand id.now engine) }
{
    let text = text_of(id);
    into.push(7)?;
    put_str8(into, text)?;
    put_number32(into, engine)
}

/// Appends the record of a task that was settled.
#[tactic(auto, using(edges::proofs::Joins::joins))]
fn write_settle(
    into: &mut Vec<u8>,
    id: &Text,
    verdict: Verdict,
    cause: Cause,
) -> Result<(), AllocError>
    requires { IsName id.now }
    ensures record { OnOk result (into.new.items ≡ into.old.items ++ spelling (Entry.Settle id.now verdict cause)) }
    ensures kept { OnErr result (Keeps into.old.items into.new.items) }
    ensures has { HasRecord (Entry.Settle id.now verdict cause) }
{
    let text = text_of(id);
    into.push(8)?;
    put_str8(into, text)?;
    into.push(code_of_verdict(verdict))?;
    into.push(code_of_cause(cause))?;
    Ok(())
}

/// Appends the record of an engine that was lost.
#[tactic(auto, using(edges::proofs::Joins::joins))]
fn write_lose(into: &mut Vec<u8>, engine: u32) -> Result<(), AllocError>
    ensures record { OnOk result (into.new.items ≡ into.old.items ++ spelling (Entry.Lose engine)) }
    ensures kept { OnErr result (Keeps into.old.items into.new.items) }
    ensures has { HasRecord (Entry.Lose engine) }
{
    into.push(9)?;
    put_number32(into, engine)
}

/// Appends the record of an input.
fn write_input(into: &mut Vec<u8>, input: &Input) -> Result<(), AllocError>
    requires { IsWithinLimits (Entry.Input input.now) }
    ensures record { OnOk result (into.new.items ≡ into.old.items ++ spelling (Entry.Input input.now)) }
    ensures kept { OnErr result (Keeps into.old.items into.new.items) }
    ensures has { HasRecord (Entry.Input input.now) }
{
    match input {
        Input::Open {
            moment,
            scheme,
            hwm,
            misses,
        } => write_open(into, *moment, *scheme, *hwm, *misses),
        Input::Up {
            conn,
            channel,
            moment,
            word,
            identity,
        } => write_up(into, *conn, *channel, *moment, *word, identity),
        Input::Down { conn, moment, word } => write_down(into, *conn, *moment, *word),
        Input::In {
            conn,
            moment,
            word,
            message,
        } => write_in(into, *conn, *moment, *word, message),
        Input::Beat { moment, word } => write_beat(into, *moment, *word),
        Input::Time { moment, word } => write_time(into, *moment, *word),
    }
}

/// Appends the record of an entry, or a part of it where memory is wanting.
fn write_kind(into: &mut Vec<u8>, entry: &Entry) -> Result<(), AllocError>
    requires { IsWithinLimits entry.now }
    ensures record { OnOk result (into.new.items ≡ into.old.items ++ spelling entry.now) }
    ensures kept { OnErr result (Keeps into.old.items into.new.items) }
    ensures has { HasRecord entry.now }
{
    match entry {
        Entry::Input(input) => write_input(into, input),
        Entry::Hand { id, engine } => write_hand(into, id, *engine),
        Entry::Settle { id, verdict, cause } => write_settle(into, id, *verdict, *cause),
        Entry::Lose { engine } => write_lose(into, *engine),
    }
}

/// Appends the record of an entry. Where memory is wanting, `into` is as it was.
pub fn write_entry(into: &mut Vec<u8>, entry: &Entry) -> Result<(), AllocError>
    requires { IsWithinLimits entry.now }
    ensures record { OnOk result (into.new.items ≡ into.old.items ++ spelling entry.now) }
    ensures err { OnErr result (into.new.items ≡ into.old.items) }
    ensures has { HasRecord entry.now }
{
    let before = into.len();
    let written = write_kind(into, entry);
    if written.is_err() {
        into.truncate(before);
    }
    written
}
