//! Reading a record at the front of octets.

ghost use Rattle.std.specs.Prelude.{◌≡◌, IfOk, Err};
ghost use Rattle.edges.specs.Reading.{Gives, IsRead, Passes};
ghost use Rattle.tape.specs.Reading.{up_at, piece_at, down_at, frames_at, message_at, kind_at, record_at};
ghost use Rattle.tape.specs.Tape.{IsRecord, NoRecord};

use crate::record::{TapeKind, TapeRecord};
use cluster_types::limits::{LAST_MOMENT, MOST_FRAMES};
use cluster_types::octets::Octets;
use edges::frames::Frames;
use edges::reading::{blob, channel, number32, number64, octet, str8};
use edges::stop::{ReadError, Stop};
use std::alloc::Global;

/// Why no record is read.
#[derive(Clone, Copy, Debug, PartialEq, Eq)]
pub enum TapeError {
    /// No whole record stands there.
    BadTape,
    OutOfMemory,
}

#[tactic(auto, unfolding(crate::specs::Reading::up_at))]
fn up_kind(alloc: Global, octets: &[u8]) -> Result<(TapeKind, &[u8]), ReadError>
    ensures { Gives (λ x. (x.0, x.1.now)) result (up_at octets.now) }
{
    let (conn, rest) = number32(octets)?;
    let (channel, rest) = channel(rest)?;
    let (form, rest) = octet(rest)?;
    if form > 1 {
        return Err(ReadError::Stop(Stop::Bad));
    }
    let (identity, rest) = str8(rest)?;
    let identity = Octets::new(alloc, identity)?;
    Ok((
        TapeKind::Up {
            conn,
            channel,
            bare: form == 1,
            identity,
        },
        rest,
    ))
}

#[tactic(auto, unfolding(crate::specs::Reading::piece_at))]
fn piece_kind(alloc: Global, octets: &[u8]) -> Result<(TapeKind, &[u8]), ReadError>
    ensures { Gives (λ x. (x.0, x.1.now)) result (piece_at octets.now) }
{
    let (conn, rest) = number32(octets)?;
    let (piece, rest) = blob(rest)?;
    let octets = Octets::new(alloc, piece)?;
    Ok((TapeKind::Piece { conn, octets }, rest))
}

#[tactic(auto, unfolding(crate::specs::Reading::down_at))]
fn down_kind(octets: &[u8]) -> Result<(TapeKind, &[u8]), Stop>
    ensures { IsRead (λ x. (x.0, x.1.now)) result (down_at octets.now) }
{
    let (conn, rest) = number32(octets)?;
    Ok((TapeKind::Down { conn }, rest))
}

/// Passes over so many frames.
fn pass_frames(count: u8, octets: &[u8]) -> Result<&[u8], Stop>
    ensures { Passes (λ x. x.now) result (frames_at count octets.now) }
{
    let mut rest = octets;
    for _turn in 0..count {
        let (_, more) = blob(rest)?;
        rest = more;
    }
    Ok(rest)
}

/// So many frames.
fn frames(alloc: Global, count: u8, octets: &[u8]) -> Result<(Frames, &[u8]), ReadError>
    ensures { Gives (λ x. (x.0, x.1.now)) result (frames_at count octets.now) }
{
    let mut frames = Frames::new(alloc);
    let mut rest = octets;
    for _turn in 0..count {
        let (body, more) = blob(rest)?;
        frames.push(body)?;
        rest = more;
    }
    Ok((frames, rest))
}

/// The frames of a message. They are copied only where all of them are there.
#[tactic(auto, unfolding(crate::specs::Reading::message_at))]
fn message_kind(alloc: Global, octets: &[u8]) -> Result<(TapeKind, &[u8]), ReadError>
    ensures { Gives (λ x. (x.0, x.1.now)) result (message_at octets.now) }
{
    let (conn, rest) = number32(octets)?;
    let (count, rest) = octet(rest)?;
    if count == 0 || usize::from(count) > MOST_FRAMES {
        return Err(ReadError::Stop(Stop::Bad));
    }
    let _passed = pass_frames(count, rest)?;
    let (frames, rest) = frames(alloc, count, rest)?;
    Ok((TapeKind::Message { conn, frames }, rest))
}

fn kind(alloc: Global, code: u8, octets: &[u8]) -> Result<(TapeKind, &[u8]), ReadError>
    ensures { Gives (λ x. (x.0, x.1.now)) result (kind_at code octets.now) }
{
    match code {
        1 => up_kind(alloc, octets),
        2 => piece_kind(alloc, octets),
        3 => {
            let (kind, rest) = down_kind(octets)?;
            Ok((kind, rest))
        }
        4 => Ok((TapeKind::Beat, octets)),
        5 => Ok((TapeKind::Time, octets)),
        6 => message_kind(alloc, octets),
        _ => Err(ReadError::Stop(Stop::Bad)),
    }
}

/// The record at the front, and the octets after it. Memory is taken only where the whole record is there.
#[tactic(auto, unfolding(crate::specs::Reading::record_at))]
pub fn read_record(alloc: Global, octets: &[u8]) -> Result<(TapeRecord, &[u8]), ReadError>
    ensures { Gives (λ x. (x.0, x.1.now)) result (record_at octets.now) }
{
    let (code, rest) = octet(octets)?;
    let (moment, rest) = number64(rest)?;
    if moment > LAST_MOMENT {
        return Err(ReadError::Stop(Stop::Bad));
    }
    let (word, rest) = number64(rest)?;
    let (kind, rest) = kind(alloc, code, rest)?;
    Ok((TapeRecord { moment, word, kind }, rest))
}

/// The record at a place, and the place after it.
pub fn read_tape(alloc: Global, octets: &[u8], at: usize) -> Result<(TapeRecord, usize), TapeError>
    ensures ok { IfOk result (λ r. IsRecord octets.now at r.0 r.1) }
    ensures bad { result ≡ Err TapeError.BadTape → NoRecord octets.now at }
{
    if at > octets.len() {
        return Err(TapeError::BadTape);
    }
    match read_record(alloc, &octets[at..]) {
        Ok((record, rest)) => Ok((record, octets.len().saturating_sub(rest.len()))),
        Err(ReadError::Stop(_)) => Err(TapeError::BadTape),
        Err(ReadError::OutOfMemory) => Err(TapeError::OutOfMemory),
    }
}
