//! Writing a record.

ghost use Rattle.std.specs.Prelude.{◌≡◌, ◌<◌, ◌≤◌, ◌^◌, ◌++◌, length, All, OnOk, OnErr};
ghost use Rattle.std.specs.List.{flat_map};
ghost use Rattle.cluster_types.specs.Limits.{most_frames};
ghost use Rattle.edges.specs.Keeping.{Keeps};
ghost use Rattle.edges.specs.Spelling.{blob};
ghost use Rattle.tape.specs.Spelling.{spelled, kind_text, kind_code, form_code, Fits, KindFits, FitsBlob};

use crate::record::{TapeKind, TapeRecord};
use cluster_types::config::Channel;
use edges::frames::Frames;
use edges::writing::{put_blob, put_channel, put_number32, put_number64, put_str8};
use std::alloc::AllocError;

fn code_of_form(bare: bool) -> u8
    ensures { result ≡ form_code bare }
{
    if bare { 1 } else { 0 }
}

fn code_of_kind(kind: &TapeKind) -> u8
    ensures { result ≡ kind_code kind.now }
{
    match kind {
        TapeKind::Up { .. } => 1,
        TapeKind::Piece { .. } => 2,
        TapeKind::Down { .. } => 3,
        TapeKind::Beat => 4,
        TapeKind::Time => 5,
        TapeKind::Message { .. } => 6,
    }
}

#[tactic(auto, using(edges::proofs::Joins::joins))]
fn put_up(
    into: &mut Vec<u8>,
    conn: u32,
    channel: Channel,
    bare: bool,
    identity: &[u8],
) -> Result<(), AllocError>
    requires { length identity.now < 256 }
    ensures ok { OnOk result (into.new.items ≡ into.old.items ++ kind_text (TapeKind.Up conn channel bare identity.now)) }
    ensures kept { OnErr result (Keeps into.old.items into.new.items) }
{
    put_number32(into, conn)?;
    put_channel(into, channel)?;
    into.push(code_of_form(bare))?;
    put_str8(into, identity)?;
    Ok(())
}

#[tactic(auto, using(edges::proofs::Joins::joins))]
fn put_piece(into: &mut Vec<u8>, conn: u32, octets: &[u8]) -> Result<(), AllocError>
    requires { length octets.now < 2 ^ 32 }
    ensures ok { OnOk result (into.new.items ≡ into.old.items ++ kind_text (TapeKind.Piece conn octets.now)) }
    ensures kept { OnErr result (Keeps into.old.items into.new.items) }
{
    put_number32(into, conn)?;
    put_blob(into, octets)?;
    Ok(())
}

/// Appends frames one after another.
fn put_frames(into: &mut Vec<u8>, frames: &Frames) -> Result<(), AllocError>
    requires { All FitsBlob frames.now }
    ensures ok { OnOk result (into.new.items ≡ into.old.items ++ flat_map blob frames.now) }
    ensures kept { OnErr result (Keeps into.old.items into.new.items) }
{
    for place in 0..frames.len() {
        put_blob(into, frames.at(place))?;
    }
    Ok(())
}

#[tactic(auto, using(edges::proofs::Joins::joins))]
fn put_message(into: &mut Vec<u8>, conn: u32, frames: &Frames) -> Result<(), AllocError>
    requires few { length frames.now ≤ most_frames }
    requires fit { All FitsBlob frames.now }
    ensures ok { OnOk result (into.new.items ≡ into.old.items ++ kind_text (TapeKind.Message conn frames.now)) }
    ensures kept { OnErr result (Keeps into.old.items into.new.items) }
{
    put_number32(into, conn)?;
    into.push(frames.len() as u8)?;
    put_frames(into, frames)?;
    Ok(())
}

/// Appends what stands behind the heading.
fn put_kind(into: &mut Vec<u8>, kind: &TapeKind) -> Result<(), AllocError>
    requires { KindFits kind.now }
    ensures ok { OnOk result (into.new.items ≡ into.old.items ++ kind_text kind.now) }
    ensures kept { OnErr result (Keeps into.old.items into.new.items) }
{
    match kind {
        TapeKind::Up {
            conn,
            channel,
            bare,
            identity,
        } => put_up(into, *conn, *channel, *bare, identity.as_slice())?,
        TapeKind::Piece { conn, octets } => put_piece(into, *conn, octets.as_slice())?,
        TapeKind::Down { conn } => put_number32(into, *conn)?,
        TapeKind::Beat => {}
        TapeKind::Time => {}
        TapeKind::Message { conn, frames } => put_message(into, *conn, frames)?,
    }
    Ok(())
}

/// Appends the one spelling of a record, or a part of it where memory is wanting.
#[tactic(auto, using(edges::proofs::Joins::joins))]
fn put_record(into: &mut Vec<u8>, item: &TapeRecord) -> Result<(), AllocError>
    requires { Fits item.now }
    ensures ok { OnOk result (into.new.items ≡ into.old.items ++ spelled item.now) }
    ensures kept { OnErr result (Keeps into.old.items into.new.items) }
{
    into.push(code_of_kind(&item.kind))?;
    put_number64(into, item.moment)?;
    put_number64(into, item.word)?;
    put_kind(into, &item.kind)
}

/// Appends the one spelling of a record. Where memory is wanting, `into` is as it was.
pub fn write_tape(into: &mut Vec<u8>, item: &TapeRecord) -> Result<(), AllocError>
    requires { Fits item.now }
    ensures ok { OnOk result (into.new.items ≡ into.old.items ++ spelled item.now) }
    ensures err { OnErr result (into.new.items ≡ into.old.items) }
{
    let before = into.len();
    let written = put_record(into, item);
    if written.is_err() {
        into.truncate(before);
    }
    written
}
