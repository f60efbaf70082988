//! Reading entries.

ghost use Rattle.std.specs.Prelude.{◌≡◌, ◌⊎◌, List, ℕ, length, drop, IfOk, IfErr, Ok, Err};
ghost use Rattle.edges.specs.Reading.{Gives};
ghost use Rattle.cluster_types.specs.declared.entry.Entry.{Entry as EntryType};
ghost use Rattle.record_codec.specs.Reading.{open_at, up_at, down_at, in_at, beat_at, time_at, hand_at, settle_at, lose_at, kind_at, entry_at};
ghost use Rattle.record_codec.specs.Spelling.{RecordStands};

use crate::fault::RecordError;
use crate::message::message;
use crate::values::{cause, id, moment, name, scheme, verdict};
use cluster_types::entry::{Entry, Input};
use cluster_types::octets::Octets;
use edges::reading::{channel, number32, number64, octet};
use edges::stop::{ReadError, Stop};
use std::alloc::Global;

/// The opening of a controller.
#[tactic(auto, unfolding(crate::specs::Reading::open_at))]
fn open(octets: &[u8]) -> Result<(Entry, &[u8]), ReadError>
    ensures { Gives (λ x. (x.0, x.1.now)) result (open_at octets.now) }
{
    let (moment, rest) = moment(octets)?;
    let (scheme, rest) = scheme(rest)?;
    let (hwm, rest) = number32(rest)?;
    let (misses, rest) = number32(rest)?;
    Ok((
        Entry::Input(Input::Open {
            moment,
            scheme,
            hwm,
            misses,
        }),
        rest,
    ))
}

/// A connection that came up.
#[tactic(auto, unfolding(crate::specs::Reading::up_at))]
fn up(alloc: Global, octets: &[u8]) -> Result<(Entry, &[u8]), ReadError>
    ensures { Gives (λ x. (x.0, x.1.now)) result (up_at octets.now) }
{
    let (conn, rest) = number32(octets)?;
    let (channel, rest) = channel(rest)?;
    let (moment, rest) = moment(rest)?;
    let (word, rest) = number64(rest)?;
    let (identity, rest) = name(rest)?;
    let identity = Octets::new(alloc, identity)?;
    Ok((
        Entry::Input(Input::Up {
            conn,
            channel,
            moment,
            word,
            identity,
        }),
        rest,
    ))
}

/// A connection that went down.
#[tactic(auto, unfolding(crate::specs::Reading::down_at))]
fn down(octets: &[u8]) -> Result<(Entry, &[u8]), ReadError>
    ensures { Gives (λ x. (x.0, x.1.now)) result (down_at octets.now) }
{
    let (conn, rest) = number32(octets)?;
    let (moment, rest) = moment(rest)?;
    let (word, rest) = number64(rest)?;
    Ok((Entry::Input(Input::Down { conn, moment, word }), rest))
}

/// A message that came in.
#[tactic(auto, unfolding(crate::specs::Reading::in_at))]
fn message_in(alloc: Global, octets: &[u8]) -> Result<(Entry, &[u8]), ReadError>
    ensures { Gives (λ x. (x.0, x.1.now)) result (in_at octets.now) }
{
    let (conn, rest) = number32(octets)?;
    let (moment, rest) = moment(rest)?;
    let (word, rest) = number64(rest)?;
    let (message, rest) = message(alloc, rest)?;
    Ok((
        Entry::Input(Input::In {
            conn,
            moment,
            word,
            message,
        }),
        rest,
    ))
}

/// A beat.
#[tactic(auto, unfolding(crate::specs::Reading::beat_at))]
fn beat(octets: &[u8]) -> Result<(Entry, &[u8]), ReadError>
    ensures { Gives (λ x. (x.0, x.1.now)) result (beat_at octets.now) }
{
    let (moment, rest) = moment(octets)?;
    let (word, rest) = number64(rest)?;
    Ok((Entry::Input(Input::Beat { moment, word }), rest))
}

/// A moment that came.
#[tactic(auto, unfolding(crate::specs::Reading::time_at))]
fn time(octets: &[u8]) -> Result<(Entry, &[u8]), ReadError>
    ensures { Gives (λ x. (x.0, x.1.now)) result (time_at octets.now) }
{
    let (moment, rest) = moment(octets)?;
    let (word, rest) = number64(rest)?;
    Ok((Entry::Input(Input::Time { moment, word }), rest))
}

/// A task that was handed to an engine.
#[tactic(auto, unfolding(crate::specs::Reading::hand_at))]
fn hand(alloc: Global, octets: &[u8]) -> Result<(Entry, &[u8]), ReadError>
    ensures { Gives (λ x. (x.0, x.1.now)) result (hand_at octets.now) }
{
    let (id, rest) = id(alloc, octets)?;
    let (engine, rest) = number32(rest)?;
    Ok((Entry::Hand { id, engine }, rest))
}

/// A task that was settled.
#[tactic(auto, unfolding(crate::specs::Reading::settle_at))]
fn settle(alloc: Global, octets: &[u8]) -> Result<(Entry, &[u8]), ReadError>
    ensures { Gives (λ x. (x.0, x.1.now)) result (settle_at octets.now) }
{
    let (id, rest) = id(alloc, octets)?;
    let (verdict, rest) = verdict(rest)?;
    let (cause, rest) = cause(rest)?;
    Ok((Entry::Settle { id, verdict, cause }, rest))
}

/// An engine that was lost.
#[tactic(auto, unfolding(crate::specs::Reading::lose_at))]
fn lose(octets: &[u8]) -> Result<(Entry, &[u8]), ReadError>
    ensures { Gives (λ x. (x.0, x.1.now)) result (lose_at octets.now) }
{
    let (engine, rest) = number32(octets)?;
    Ok((Entry::Lose { engine }, rest))
}

/// The entry of a kind, by its code.
fn of_kind(alloc: Global, kind: u8, octets: &[u8]) -> Result<(Entry, &[u8]), ReadError>
    ensures { Gives (λ x. (x.0, x.1.now)) result (kind_at kind octets.now) }
{
    match kind {
        1 => open(octets),
        2 => up(alloc, octets),
        3 => down(octets),
        4 => message_in(alloc, octets),
        5 => beat(octets),
        6 => time(octets),
        7 => hand(alloc, octets),
        8 => settle(alloc, octets),
        9 => lose(octets),
        _ => Err(ReadError::Stop(Stop::Bad)),
    }
}

/// The entry whose record stands at the front, and the octets after it.
#[tactic(auto, unfolding(crate::specs::Reading::entry_at))]
pub fn read_front(alloc: Global, octets: &[u8]) -> Result<(Entry, &[u8]), ReadError>
    ensures { Gives (λ x. (x.0, x.1.now)) result (entry_at octets.now) }
{
    let (kind, rest) = octet(octets)?;
    of_kind(alloc, kind, rest)
}

/// The entry whose record stands at a place, and the place where the record ends. Octets behind it don't matter.
pub fn read_entry(alloc: Global, from: &[u8], at: usize) -> Result<(Entry, usize), RecordError>
    ensures ok { IfOk result (λ x. RecordStands from.now at x.0 x.1) }
    ensures err { IfErr result (λ e. (e ≡ RecordError.OutOfMemory)
        ⊎ ((e ≡ RecordError.BadRecord at) × ((entry : EntryType) (next : ℕ) → RecordStands from.now at entry next → ⊥))) }
{
    if at > from.len() {
        return Err(RecordError::BadRecord(at));
    }
    match read_front(alloc, &from[at..]) {
        Ok((entry, rest)) => Ok((entry, from.len() - rest.len())),
        Err(ReadError::OutOfMemory) => Err(RecordError::OutOfMemory),
        Err(ReadError::Stop(_)) => Err(RecordError::BadRecord(at)),
    }
}
