//! Asking over a link.

ghost use Rattle.std.specs.Prelude.{◌≡◌, ◌≢◌, ◌⊎◌, ◌≤◌, ◌++◌, Some, None, IfOk, OnOk, OnErr, Err, length};
ghost use Rattle.cluster_types.specs.Causes.{Rose};
ghost use Rattle.link_commands.specs.Asking.{id_in, request_octets, opened, due_for, answer_by, taken_by, IsAnswered, IsUnanswered, AskedFront};
ghost use Rattle.edges.specs.Streams.{Added, IsAtEnd, AddedFront};
ghost use Rattle.jupyter_parts.specs.Signed.{delimiter};
ghost use Rattle.zmtp_peer.specs.declared.fault.PeerFault.{PeerFault as Fault};
ghost use Rattle.zmtp_peer.specs.PeerStream.{talked, fault_of};

use crate::dialled::{PIECE_OCTETS, greet, hear, read, write};
use crate::end::DialledEnd;
use crate::finding::{Conclusion, answer_in, id_in, taken_by};
use cluster_types::octets::Octets;
use cluster_types::shared_message::SharedMessage;
use cluster_types::text::Text;
use edges::sink::Sink;
use edges::source::Source;
use hmac_sign::Key;
use jupyter_parts::write::write_parts;
use std::alloc::{AllocError, Global};
use std::sync::Wait;
use zmtp_peer::peer::Peer;
use zmtp_peer::writing::message_octets;

/// The octets of a request, signed under the key.
fn request_octets(alloc: Global, key: &Key, request: &SharedMessage) -> Result<Vec<u8>, AllocError>
    requires short { length request.now.target ≤ 255 }
    requires plain { request.now.target ≢ delimiter }
    ensures { IfOk result (λ octets. octets.items ≡ request_octets key.now request.now) }
{
    let frames = write_parts(alloc, request, key)?;
    message_octets(alloc, &frames)
}

/// Writes the request.
fn write_request<K: Sink>(
    alloc: Global,
    request: &SharedMessage,
    key: &Key,
    writer: &mut K,
) -> Result<(), DialledEnd>
    requires short { length request.now.target ≤ 255 }
    requires plain { request.now.target ≢ delimiter }
    ensures ok { OnOk result (Added (request_octets key.now request.now) (K.written writer.old) (K.written writer.new)) }
    ensures err { OnErr result (AddedFront (request_octets key.now request.now) (K.written writer.old) (K.written writer.new)) }
    ensures ends { OnErr result ((result ≡ Err DialledEnd.LinkFault) ⊎ (result ≡ Err DialledEnd.OutOfMemory)) }
    ensures cause { result ≡ Err DialledEnd.LinkFault → Rose (K.faults writer.old) (K.faults writer.new) }
    ensures later { K.faults writer.old ≤ K.faults writer.new }
{
    let octets = request_octets(alloc, key, request)?;
    write(writer, octets.as_slice())
}

/// Writes the request where the handshake is done, which gave an identity.
fn open_where<K: Sink>(
    alloc: Global,
    request: &SharedMessage,
    key: &Key,
    writer: &mut K,
    ready: &Option<Octets>,
) -> Result<(), DialledEnd>
    requires short { length request.now.target ≤ 255 }
    requires plain { request.now.target ≢ delimiter }
    ensures ok { OnOk result (Added (opened key.now request.now ready.now) (K.written writer.old) (K.written writer.new)) }
    ensures err { OnErr result (AddedFront (opened key.now request.now ready.now) (K.written writer.old) (K.written writer.new)) }
    ensures ends { OnErr result ((result ≡ Err DialledEnd.LinkFault) ⊎ (result ≡ Err DialledEnd.OutOfMemory)) }
    ensures cause { result ≡ Err DialledEnd.LinkFault → Rose (K.faults writer.old) (K.faults writer.new) }
    ensures later { K.faults writer.old ≤ K.faults writer.new }
{
    match ready {
        None => Ok(()),
        Some(_) => write_request(alloc, request, key, writer),
    }
}

/// Takes a piece of the stream, writes what is due for it, and tells whether it ends the session.
fn take_piece<K: Sink>(
    alloc: Global,
    peer: &mut Peer,
    request: &SharedMessage,
    id: &Option<Text>,
    key: &Key,
    writer: &mut K,
    piece: &[u8],
) -> Result<Conclusion, DialledEnd>
    requires short { length request.now.target ≤ 255 }
    requires plain { request.now.target ≢ delimiter }
    ensures ok { OnOk result (Added (due_for key.now request.now peer.old.talk piece.now) (K.written writer.old) (K.written writer.new)) }
    ensures talk { OnOk result (peer.new.talk ≡ talked peer.old.talk piece.now) }
    ensures taken { IfOk result (λ taken. taken ≡ taken_by (answer_by key.now id.now peer.old.talk piece.now) (fault_of (talked peer.old.talk piece.now).phase)) }
    ensures err { OnErr result (AddedFront (due_for key.now request.now peer.old.talk piece.now) (K.written writer.old) (K.written writer.new)) }
    ensures ends { OnErr result ((result ≡ Err DialledEnd.LinkFault) ⊎ (result ≡ Err DialledEnd.OutOfMemory)) }
    ensures cause { result ≡ Err DialledEnd.LinkFault → Rose (K.faults writer.old) (K.faults writer.new) }
    ensures later { K.faults writer.old ≤ K.faults writer.new }
{
    let fed = hear(peer, writer, piece)?;
    open_where(alloc, request, key, writer, &fed.ready)?;
    let answer = answer_in(alloc, key, id, fed.messages.as_slice())?;
    Ok(taken_by(answer, fed.fault))
}

/// Asks over a fresh link, where this is the id in the header of the request.
fn ask_under<R: Wait, S: Source, K: Sink>(
    rt: &R,
    alloc: Global,
    request: &SharedMessage,
    id: &Option<Text>,
    key: &Key,
    reader: &mut S,
    writer: &mut K,
) -> Result<SharedMessage, DialledEnd>
    requires id { id.now ≡ id_in request.now.header }
    requires short { length request.now.target ≤ 255 }
    requires plain { request.now.target ≢ delimiter }
    ensures answered { IfOk result (λ answer. IsAnswered key.now request.now (S.left reader.old) (S.left reader.new) (K.written writer.old) (K.written writer.new) answer) }
    ensures ended { result ≡ Err DialledEnd.Ended → IsUnanswered key.now request.now (S.left reader.old) (S.left reader.new) (K.written writer.old) (K.written writer.new) None × IsAtEnd (S.left reader.new) }
    ensures fault { (f : Fault) → result ≡ Err (DialledEnd.ZmtpFault f) → IsUnanswered key.now request.now (S.left reader.old) (S.left reader.new) (K.written writer.old) (K.written writer.new) (Some f) }
    ensures front { AskedFront key.now request.now (S.left reader.old) (S.left reader.new) (K.written writer.old) (K.written writer.new) }
    ensures cause { result ≡ Err DialledEnd.LinkFault → Rose (S.faults reader.old) (S.faults reader.new) ⊎ Rose (K.faults writer.old) (K.faults writer.new) }
{
    let mut peer = greet(alloc, writer)?;
    let mut piece = [0u8; PIECE_OCTETS];
    for _ in rt.forever() {
        let count = match read(reader, &mut piece) {
            Ok(count) => count,
            Err(end) => return Err(end),
        };
        let taken = take_piece(alloc, &mut peer, request, id, key, writer, &piece[..count])?;
        match taken {
            Conclusion::Answer(answer) => return Ok(answer),
            Conclusion::Fault(fault) => return Err(DialledEnd::ZmtpFault(fault)),
            Conclusion::Nothing => {}
        }
    }
    unreachable!()
}

/// Sends a request over a fresh link, and gives the first signed message whose parent header names it: sends the greeting and
/// READY, then the signed request once the controller is ready, and passes over each message that is no answer. A target of
/// the request is its one identity frame.
///
/// It answers `Ended` where the stream was read to its end without an answer; `ZmtpFault` at the first fault of the stream,
/// with no answer before it; `LinkFault` where a read or a write failed; or `OutOfMemory`.
pub fn ask_over<R: Wait, S: Source, K: Sink>(
    rt: &R,
    alloc: Global,
    request: &SharedMessage,
    key: &Key,
    reader: &mut S,
    writer: &mut K,
) -> Result<SharedMessage, DialledEnd>
    requires short { length request.now.target ≤ 255 }
    requires plain { request.now.target ≢ delimiter }
    ensures answered { IfOk result (λ answer. IsAnswered key.now request.now (S.left reader.old) (S.left reader.new) (K.written writer.old) (K.written writer.new) answer) }
    ensures ended { result ≡ Err DialledEnd.Ended → IsUnanswered key.now request.now (S.left reader.old) (S.left reader.new) (K.written writer.old) (K.written writer.new) None × IsAtEnd (S.left reader.new) }
    ensures fault { (f : Fault) → result ≡ Err (DialledEnd.ZmtpFault f) → IsUnanswered key.now request.now (S.left reader.old) (S.left reader.new) (K.written writer.old) (K.written writer.new) (Some f) }
    ensures front { AskedFront key.now request.now (S.left reader.old) (S.left reader.new) (K.written writer.old) (K.written writer.new) }
    ensures cause { result ≡ Err DialledEnd.LinkFault → Rose (S.faults reader.old) (S.faults reader.new) ⊎ Rose (K.faults writer.old) (K.faults writer.new) }
{
    let id = id_in(alloc, request.header())?;
    ask_under(rt, alloc, request, &id, key, reader, writer)
}
