//! What is sent while a record of a tape is served, as records.

ghost use Rattle.std.specs.Prelude.{◌≡◌, ◌≤◌, ◌++◌, ◌∷◌, [], map, All, IfOk, OnOk, OnErr, IsTrue, length, drop, nat_le, reverse, true, Some};
ghost use Rattle.std.specs.List.{list_all};
ghost use Rattle.cluster_types.specs.Limits.{field_limit};
ghost use Rattle.cluster_defs.specs.Words.{begins_with};
ghost use Rattle.zmtp_frames.specs.Written.{own_ready};
ghost use Rattle.edges.specs.Keeping.{Keeps};
ghost use Rattle.tape.specs.Spelling.{Fits, KindFits, FitsBlob, spelled, all_spelled};
ghost use Rattle.tape_drive.specs.Links.{link_on, is_zmtp};
ghost use Rattle.tape_drive.specs.Sends.{where_any, sendings, frames_sent, out_sent, by_connection, sent_at};

use crate::links::{TapeLink, is_zmtp};
use crate::order::{conn_of, sort_by_connection};
use cluster_types::limits::{FIELD_OCTETS, LAST_MOMENT, MOST_FRAMES};
use cluster_types::octets::Octets;
use cluster_types::out::{Out, Outs};
use edges::frames::Frames;
use hmac_sign::Key;
use link_messages::outs::out_frames;
use std::alloc::{AllocError, Global};
use tape::record::{TapeKind, TapeRecord};
use tape::writing::write_tape;
use zmtp_frames::writing::write_ready;
use zmtp_peer::writing::message_octets;

/// Whether the length of each body can be told.
fn are_told(frames: &Frames) -> bool
    ensures { result ≡ list_all (λ body. nat_le (length body) field_limit) frames.now }
{
    let mut told = true;
    for place in 0..frames.len() {
        told = told && frames.at(place).len() <= FIELD_OCTETS;
    }
    told
}

/// Whether what stands behind the heading of a record has a spelling.
#[tactic(auto, using(crate::proofs::Told::told_all))]
fn is_kind_told(kind: &TapeKind) -> bool
    ensures only { IsTrue result → KindFits kind.now }
    ensures all { KindFits kind.now → IsTrue result }
{
    match kind {
        TapeKind::Up { conn, identity, .. } => {
            let _conn = *conn;
            identity.as_slice().len() < 256
        }
        TapeKind::Piece { conn, octets } => {
            let _conn = *conn;
            octets.as_slice().len() <= FIELD_OCTETS
        }
        TapeKind::Down { conn } => {
            let _conn = *conn;
            true
        }
        TapeKind::Beat | TapeKind::Time => true,
        TapeKind::Message { conn, frames } => {
            let _conn = *conn;
            frames.len() > 0 && frames.len() <= MOST_FRAMES && are_told(frames)
        }
    }
}

/// Whether a record has a spelling.
fn is_told(item: &TapeRecord) -> bool
    ensures only { IsTrue result → Fits item.now }
    ensures all { Fits item.now → IsTrue result }
{
    let _word = item.word;
    item.moment <= LAST_MOMENT && is_kind_told(&item.kind)
}

/// Appends a record of what is sent. One that has no spelling counts as want of memory; frames of an out stay far below what
/// a record can hold.
fn put_sent(into: &mut Vec<u8>, moment: u64, kind: TapeKind) -> Result<(), AllocError>
    ensures ok { OnOk result (into.new.items ≡ into.old.items ++ spelled (sent_at moment kind)) }
    ensures err { OnErr result (into.new.items ≡ into.old.items) }
{
    let item = TapeRecord {
        moment,
        word: 0,
        kind,
    };
    if !is_told(&item) {
        return Err(AllocError);
    }
    write_tape(into, &item)?;
    Ok(())
}

/// Appends the record of octets of a stream.
pub fn put_piece(
    into: &mut Vec<u8>,
    moment: u64,
    conn: u32,
    octets: &[u8],
) -> Result<(), AllocError>
    ensures ok { OnOk result (into.new.items ≡ into.old.items ++ spelled (sent_at moment (TapeKind.Piece conn octets.now))) }
    ensures err { OnErr result (into.new.items ≡ into.old.items) }
{
    let octets = Octets::new(*into.allocator(), octets)?;
    put_sent(into, moment, TapeKind::Piece { conn, octets })
}

/// Appends the record of octets of a stream, where there are any.
fn put_where_any(
    into: &mut Vec<u8>,
    moment: u64,
    conn: u32,
    octets: &[u8],
) -> Result<(), AllocError>
    ensures ok { OnOk result (into.new.items ≡ into.old.items ++ all_spelled (map (sent_at moment) (map (TapeKind.Piece conn) (where_any octets.now)))) }
    ensures err { OnErr result (into.new.items ≡ into.old.items) }
{
    if octets.len() > 0 {
        return put_piece(into, moment, conn, octets);
    }
    Ok(())
}

/// READY.
fn ready_octets(alloc: Global) -> Result<Vec<u8>, AllocError>
    ensures { IfOk result (λ v. v.items ≡ own_ready) }
{
    let mut octets = Vec::new(alloc);
    write_ready(&mut octets)?;
    Ok(octets)
}

/// Whether octets begin with those.
fn begin_with(octets: &[u8], front: &[u8]) -> bool
    ensures value { result ≡ begins_with front.now octets.now }
    ensures within { IsTrue result → length front.now ≤ length octets.now }
{
    octets.starts_with(front)
}

/// Appends the record of READY, and what stands behind it.
fn put_ready_and_rest(
    into: &mut Vec<u8>,
    moment: u64,
    conn: u32,
    ready: &[u8],
    octets: &[u8],
) -> Result<(), AllocError>
    requires { length ready.now ≤ length octets.now }
    ensures ok { OnOk result (into.new.items ≡ into.old.items ++ all_spelled (map (sent_at moment) (map (TapeKind.Piece conn) (ready.now ∷ where_any (drop (length ready.now) octets.now))))) }
    ensures kept { OnErr result (Keeps into.old.items into.new.items) }
{
    put_piece(into, moment, conn, ready)?;
    put_where_any(into, moment, conn, &octets[ready.len()..])
}

/// Appends the records of the octets that a stream calls for.
pub fn put_sendings(
    into: &mut Vec<u8>,
    moment: u64,
    conn: u32,
    octets: &[u8],
) -> Result<(), AllocError>
    ensures ok { OnOk result (into.new.items ≡ into.old.items ++ all_spelled (map (sent_at moment) (map (TapeKind.Piece conn) (sendings octets.now)))) }
    ensures kept { OnErr result (Keeps into.old.items into.new.items) }
{
    let ready = ready_octets(*into.allocator())?;
    if begin_with(octets, ready.as_slice()) {
        return put_ready_and_rest(into, moment, conn, ready.as_slice(), octets);
    }
    put_where_any(into, moment, conn, octets)
}

/// What frames are sent as.
fn frames_sent(alloc: Global, zmtp: bool, conn: u32, frames: Frames) -> Result<TapeKind, AllocError>
    ensures { IfOk result (λ k. k ≡ frames_sent zmtp conn frames) }
{
    if zmtp {
        let octets = Octets::from_vec(message_octets(alloc, &frames)?)?;
        return Ok(TapeKind::Piece { conn, octets });
    }
    Ok(TapeKind::Message { conn, frames })
}

/// Appends the record of an out.
fn put_out(
    into: &mut Vec<u8>,
    key: &Key,
    links: &[TapeLink],
    moment: u64,
    out: Out,
) -> Result<(), AllocError>
    ensures ok { OnOk result (into.new.items ≡ into.old.items ++ spelled (sent_at moment (out_sent key.now links.now out))) }
    ensures err { OnErr result (into.new.items ≡ into.old.items) }
{
    let alloc = *into.allocator();
    let conn = conn_of(&out);
    let frames = out_frames(alloc, key, out)?;
    let kind = frames_sent(alloc, is_zmtp(links, conn), conn, frames)?;
    put_sent(into, moment, kind)
}

/// Appends the records of outs, in their order.
fn put_each(
    into: &mut Vec<u8>,
    key: &Key,
    links: &[TapeLink],
    moment: u64,
    outs: Vec<Out>,
) -> Result<(), AllocError>
    ensures ok { OnOk result (into.new.items ≡ into.old.items ++ all_spelled (map (sent_at moment) (map (out_sent key.now links.now) outs.items))) }
    ensures kept { OnErr result (Keeps into.old.items into.new.items) }
{
    for out in outs {
        put_out(into, key, links, moment, out)?;
    }
    Ok(())
}

/// Appends the records of the outs of a step, by connection.
pub fn put_outs(
    into: &mut Vec<u8>,
    key: &Key,
    links: &[TapeLink],
    moment: u64,
    outs: Outs,
) -> Result<(), AllocError>
    ensures ok { OnOk result (into.new.items ≡ into.old.items ++ all_spelled (map (sent_at moment) (map (out_sent key.now links.now) (by_connection outs)))) }
    ensures kept { OnErr result (Keeps into.old.items into.new.items) }
{
    let mut outs = outs.into_vec();
    sort_by_connection(&mut outs)?;
    put_each(into, key, links, moment, outs)
}
