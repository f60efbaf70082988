//! What the records of a tape do to its connections.

ghost use Rattle.std.specs.Prelude.{◌≡◌, ◌≤◌, ◌<◌, ◌^◌, ◌++◌, ◌∷◌, [], map, IfOk, OnOk, OnErr};
ghost use Rattle.cluster_types.specs.Limits.{last_moment};
ghost use Rattle.edges.specs.Keeping.{Keeps};
ghost use Rattle.tape.specs.Spelling.{Fits, all_spelled};
ghost use Rattle.tape_drive.specs.Links.{links_at, links_left, link_on, given_on};
ghost use Rattle.tape_drive.specs.Steps.{AreTaken};
ghost use Rattle.tape_drive.specs.Inputs.{kind_inputs, inputs_of, stream_inputs};
ghost use Rattle.tape_drive.specs.Sends.{stream_sends, sent_at, given_sendings};

use crate::inputs::{Origin, add_down, add_in, add_stream, add_up};
use crate::links::{TapeLink, drop_link, hear_on};
use crate::sends::{put_piece, put_sendings};
use cluster_types::config::Channel;
use cluster_types::entry::Input;
use cluster_types::octets::Octets;
use hmac_sign::Key;
use std::alloc::AllocError;
use tape::record::{TapeKind, TapeRecord};
use zmtp_frames::greeting::greeting;
use zmtp_peer::phase::PeerFed;

/// Brings a connection up: a bare one is an input at once, one that speaks ZMTP is greeted.
fn take_up(
    links: &mut Vec<TapeLink>,
    inputs: &mut Vec<Input>,
    into: &mut Vec<u8>,
    from: Origin,
    channel: Channel,
    bare: bool,
    identity: &Octets,
) -> Result<(), AllocError>
    ensures links { OnOk result (links.new.items ≡ links_at links.old.items (TapeKind.Up from.conn channel bare identity.now)) }
    ensures inputs { OnOk result (inputs.new.items ≡ inputs.old.items ++ kind_inputs [] links.old.items from.moment from.word (TapeKind.Up from.conn channel bare identity.now)) }
    ensures octets { OnOk result (into.new.items ≡ into.old.items ++ all_spelled (map (sent_at from.moment) (stream_sends links.old.items (TapeKind.Up from.conn channel bare identity.now)))) }
    ensures err { OnErr result (into.new.items ≡ into.old.items) }
{
    links.push(TapeLink::new(*links.allocator(), from.conn, channel, bare))?;
    if bare {
        add_up(inputs, from, channel, identity)?;
    } else {
        put_piece(into, from.moment, from.conn, greeting().as_slice())?;
    }
    Ok(())
}

/// Takes what octets of a stream gave.
fn take_given(
    inputs: &mut Vec<Input>,
    into: &mut Vec<u8>,
    key: &Key,
    from: Origin,
    given: &Option<(Channel, PeerFed)>,
) -> Result<(), AllocError>
    ensures inputs { OnOk result (inputs.new.items ≡ inputs.old.items ++ stream_inputs key.now from.conn from.moment from.word given.now) }
    ensures octets { OnOk result (into.new.items ≡ into.old.items ++ all_spelled (map (sent_at from.moment) (map (TapeKind.Piece from.conn) (given_sendings given.now)))) }
    ensures kept { OnErr result (Keeps into.old.items into.new.items) }
{
    match given {
        Some((channel, fed)) => {
            add_stream(inputs, key, from, *channel, fed)?;
            put_sendings(into, from.moment, from.conn, fed.send.as_slice())
        }
        None => Ok(()),
    }
}

/// Takes octets of a stream.
fn take_piece(
    links: &mut [TapeLink],
    inputs: &mut Vec<Input>,
    into: &mut Vec<u8>,
    key: &Key,
    from: Origin,
    octets: &Octets,
) -> Result<(), AllocError>
    requires moment { from.moment ≤ last_moment }
    requires conn { from.conn < 2 ^ 32 }
    ensures taken { OnOk result (AreTaken (kind_inputs key.now links.old from.moment from.word (TapeKind.Piece from.conn octets.now))) }
    ensures links { OnOk result (links.new ≡ links_at links.old (TapeKind.Piece from.conn octets.now)) }
    ensures inputs { OnOk result (inputs.new.items ≡ inputs.old.items ++ kind_inputs key.now links.old from.moment from.word (TapeKind.Piece from.conn octets.now)) }
    ensures octets { OnOk result (into.new.items ≡ into.old.items ++ all_spelled (map (sent_at from.moment) (stream_sends links.old (TapeKind.Piece from.conn octets.now)))) }
    ensures kept { OnErr result (Keeps into.old.items into.new.items) }
{
    let given = hear_on(links, from.conn, octets.as_slice())?;
    take_given(inputs, into, key, from, &given)?;
    Ok(())
}

/// Takes a record: the links are those while it is served, its inputs are added, and what its stream sends is appended.
pub fn take_record(
    links: &mut Vec<TapeLink>,
    inputs: &mut Vec<Input>,
    into: &mut Vec<u8>,
    key: &Key,
    item: &TapeRecord,
) -> Result<(), AllocError>
    requires { Fits item.now }
    ensures taken { OnOk result (AreTaken (inputs_of key.now links.old.items item.now)) }
    ensures links { OnOk result (links.new.items ≡ links_at links.old.items item.now.kind) }
    ensures inputs { OnOk result (inputs.new.items ≡ inputs.old.items ++ inputs_of key.now links.old.items item.now) }
    ensures octets { OnOk result (into.new.items ≡ into.old.items ++ all_spelled (map (sent_at item.now.moment) (stream_sends links.old.items item.now.kind))) }
    ensures kept { OnErr result (Keeps into.old.items into.new.items) }
{
    let (moment, word) = (item.moment, item.word);
    match &item.kind {
        TapeKind::Up {
            conn,
            channel,
            bare,
            identity,
        } => {
            let from = Origin {
                conn: *conn,
                moment,
                word,
            };
            take_up(links, inputs, into, from, *channel, *bare, identity)?;
        }
        TapeKind::Piece { conn, octets } => {
            let from = Origin {
                conn: *conn,
                moment,
                word,
            };
            take_piece(links, inputs, into, key, from, octets)?;
        }
        TapeKind::Message { conn, frames } => {
            let from = Origin {
                conn: *conn,
                moment,
                word,
            };
            add_in(inputs, key, from, frames)?;
        }
        TapeKind::Down { conn } => {
            let from = Origin {
                conn: *conn,
                moment,
                word,
            };
            add_down(inputs, from)?;
        }
        TapeKind::Beat => inputs.push(Input::Beat { moment, word })?,
        TapeKind::Time => inputs.push(Input::Time { moment, word })?,
    }
    Ok(())
}

/// Takes off the link that a record ends.
pub fn leave(links: &mut Vec<TapeLink>, kind: &TapeKind)
    ensures { links.new.items ≡ links_left links.old.items kind.now }
{
    if let TapeKind::Down { conn } = kind {
        drop_link(links, *conn);
    }
}
