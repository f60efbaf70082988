//! The rules that the records of a tape keep.

ghost use Rattle.std.specs.Prelude.{◌≡◌, ◌+◌, ◌-◌, ◌^◌, ◌==◌, min, sum_by, length, nat_lt, nat_le};
ghost use Rattle.std.specs.List.{list_all};
ghost use Rattle.cluster_types.specs.Limits.{body_limit, tape_limit};
ghost use Rattle.tape.specs.Spelling.{spelled};
ghost use Rattle.tape_drive.specs.Rules.{may_come_up, may_be_called, is_piece, is_in_limits, kind_follows, follows, least_after, stop_of};

use crate::links::{TapeLink, is_bare, is_up, is_zmtp};
use crate::sizes::size_of;
use cluster_types::limits::{BODY_OCTETS, LAST_MOMENT, MESSAGE_OCTETS, TAPE_OCTETS};
use edges::frames::Frames;
use tape::record::{TapeKind, TapeRecord};

/// The most connections that are up at once.
const MOST_CONNECTIONS: usize = 1024;

/// The most octets of a piece.
const MOST_IN_PIECE: usize = 1_048_576;

/// Whether a connection may come up beside these, where `least` is the least number that it may have.
fn may_come_up(links: &[TapeLink], least: u64, conn: u32) -> bool
    ensures { result ≡ may_come_up links.now least conn }
{
    least <= u64::from(conn) && links.len() < MOST_CONNECTIONS
}

/// Whether a connection may have this identity as it comes up.
fn may_be_called(bare: bool, identity: &[u8]) -> bool
    ensures { result ≡ may_be_called bare identity.now }
{
    bare || identity.len() == 0
}

/// Whether a piece has not too few octets, and not too many.
fn is_piece(octets: &[u8]) -> bool
    ensures { result ≡ is_piece octets.now }
{
    octets.len() > 0 && octets.len() <= MOST_IN_PIECE
}

/// Whether no body is too long.
fn are_short(frames: &Frames) -> bool
    ensures { result ≡ list_all (λ body. nat_le (length body) body_limit) frames.now }
{
    let mut short = true;
    for place in 0..frames.len() {
        short = short && frames.at(place).len() as u64 <= BODY_OCTETS;
    }
    short
}

/// The octets of all bodies together, or the greatest number.
fn octets_of(frames: &Frames) -> u64
    ensures { result ≡ min (sum_by length frames.now) (2 ^ 64 - 1) }
{
    let mut size: u64 = 0;
    for place in 0..frames.len() {
        size = size.saturating_add(frames.at(place).len() as u64);
    }
    size
}

/// Whether frames keep to the limits of a message.
fn is_in_limits(frames: &Frames) -> bool
    ensures { result ≡ is_in_limits frames.now }
{
    are_short(frames) && octets_of(frames) <= MESSAGE_OCTETS
}

/// Whether what a record tells may come.
fn kind_follows(links: &[TapeLink], least: u64, kind: &TapeKind) -> bool
    ensures { result ≡ kind_follows links.now least kind.now }
{
    match kind {
        TapeKind::Up {
            conn,
            channel: _,
            bare,
            identity,
        } => may_come_up(links, least, *conn) && may_be_called(*bare, identity.as_slice()),
        TapeKind::Piece { conn, octets } => is_zmtp(links, *conn) && is_piece(octets.as_slice()),
        TapeKind::Message { conn, frames } => is_bare(links, *conn) && is_in_limits(frames),
        TapeKind::Down { conn } => is_up(links, *conn),
        TapeKind::Beat => true,
        TapeKind::Time => true,
    }
}

/// Whether a record may stand behind those before it.
fn follows(links: &[TapeLink], least: u64, item: &TapeRecord) -> bool
    ensures { result ≡ follows links.now least item.now }
{
    item.moment <= LAST_MOMENT && kind_follows(links, least, &item.kind)
}

/// The least number that a connection may have behind a record.
pub fn least_after(least: u64, kind: &TapeKind) -> u64
    ensures { result ≡ least_after least kind.now }
{
    match kind {
        TapeKind::Up {
            conn,
            channel: _,
            bare: _,
            identity: _,
        } => u64::from(*conn) + 1,
        _ => least,
    }
}

/// Whether a record that begins at a place ends where a tape may end.
fn ends_in_time(at: u64, item: &TapeRecord) -> bool
    ensures { result ≡ nat_le (at + length (spelled item.now)) tape_limit }
{
    at.saturating_add(size_of(item)) <= TAPE_OCTETS
}

/// The place of the fault of a record that begins at a place, where it has one.
pub fn stop_of(links: &[TapeLink], least: u64, at: u64, item: &TapeRecord) -> Option<u64>
    ensures { result ≡ stop_of links.now least at item.now }
{
    if !follows(links, least, item) {
        return Some(at);
    }
    if ends_in_time(at, item) {
        return None;
    }
    Some(TAPE_OCTETS)
}
