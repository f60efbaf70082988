//! A link that is dialled: its greeting, its stream in pieces, and what is written to it.

ghost use Rattle.std.specs.Prelude.{◌≡◌, ◌≤◌, ◌<◌, ◌⊎◌, IfOk, OnOk, OnErr, Err, length, take};
ghost use Rattle.cluster_types.specs.Causes.{Rose};
ghost use Rattle.edges.specs.Streams.{Added, Took, IsAtEnd, AddedFront};
ghost use Rattle.zmtp_frames.specs.Greeting.{own_greeting};
ghost use Rattle.zmtp_peer.specs.PeerStream.{begins, talked, sent, identity, messages, fault_of};
ghost use Rattle.link_commands.specs.Working.{octets_of};

use crate::end::DialledEnd;
use cluster_types::shared_message::SharedMessage;
use edges::sink::{Sink, write_all};
use edges::source::{Got, Source};
use hmac_sign::Key;
use jupyter_parts::write::write_untargeted;
use std::alloc::{AllocError, Global};
use zmtp_peer::peer::Peer;
use zmtp_peer::phase::PeerFed;
use zmtp_peer::writing::message_octets;

/// How many octets of a stream are read at a time.
pub const PIECE_OCTETS: usize = 4096;

/// The octets of a message without identity frames, signed under the key.
pub fn octets_of(alloc: Global, key: &Key, message: &SharedMessage) -> Result<Vec<u8>, AllocError>
    ensures { IfOk result (λ octets. octets.items ≡ octets_of key.now message.now) }
{
    let frames = write_untargeted(alloc, message, key)?;
    message_octets(alloc, &frames)
}

/// Writes octets, or a front of them.
pub fn write<K: Sink>(writer: &mut K, octets: &[u8]) -> Result<(), DialledEnd>
    ensures ok { OnOk result (Added octets.now (K.written writer.old) (K.written writer.new)) }
    ensures err { OnErr result ((result ≡ Err DialledEnd.LinkFault) × AddedFront octets.now (K.written writer.old) (K.written writer.new)) }
    ensures cause { OnErr result (Rose (K.faults writer.old) (K.faults writer.new)) }
    ensures later { K.faults writer.old ≤ K.faults writer.new }
{
    match write_all(writer, octets) {
        Ok(()) => Ok(()),
        Err(_) => Err(DialledEnd::LinkFault),
    }
}

/// Writes the greeting of a fresh link, and gives the peer that hears its other side.
pub fn greet<K: Sink>(alloc: Global, writer: &mut K) -> Result<Peer, DialledEnd>
    ensures ok { OnOk result (Added own_greeting (K.written writer.old) (K.written writer.new)) }
    ensures talk { IfOk result (λ peer. peer.talk ≡ begins) }
    ensures err { OnErr result (AddedFront own_greeting (K.written writer.old) (K.written writer.new)) }
    ensures ends { OnErr result (result ≡ Err DialledEnd.LinkFault) }
    ensures cause { OnErr result (Rose (K.faults writer.old) (K.faults writer.new)) }
    ensures later { K.faults writer.old ≤ K.faults writer.new }
{
    let peer = Peer::new(alloc);
    write(writer, &peer.greeting())?;
    Ok(peer)
}

/// Reads a piece of the stream, and tells how many octets it has.
pub fn read<S: Source>(reader: &mut S, piece: &mut [u8]) -> Result<usize, DialledEnd>
    requires { 0 < length piece.old }
    ensures within { IfOk result (λ n. n ≤ length piece.new) }
    ensures ok { IfOk result (λ n. Took (take n piece.new) (S.left reader.old) (S.left reader.new)) }
    ensures ended { result ≡ Err DialledEnd.Ended → IsAtEnd (S.left reader.new) }
    ensures still { OnErr result (S.left reader.new ≡ S.left reader.old) }
    ensures ends { OnErr result ((result ≡ Err DialledEnd.Ended) ⊎ (result ≡ Err DialledEnd.LinkFault)) }
    ensures cause { result ≡ Err DialledEnd.LinkFault → Rose (S.faults reader.old) (S.faults reader.new) }
    ensures later { S.faults reader.old ≤ S.faults reader.new }
{
    match reader.read(piece) {
        Got::Bytes(count) => Ok(count),
        Got::End => Err(DialledEnd::Ended),
        Got::Failed => Err(DialledEnd::LinkFault),
    }
}

/// Takes a piece of the stream, and writes the octets that it calls for.
pub fn hear<K: Sink>(peer: &mut Peer, writer: &mut K, piece: &[u8]) -> Result<PeerFed, DialledEnd>
    ensures ok { OnOk result (Added (sent peer.old.talk piece.now) (K.written writer.old) (K.written writer.new)) }
    ensures talk { OnOk result (peer.new.talk ≡ talked peer.old.talk piece.now) }
    ensures ready { IfOk result (λ fed. fed.ready ≡ identity peer.old.talk piece.now) }
    ensures messages { IfOk result (λ fed. fed.messages ≡ messages peer.old.talk piece.now) }
    ensures fault { IfOk result (λ fed. fed.fault ≡ fault_of (talked peer.old.talk piece.now).phase) }
    ensures err { OnErr result (AddedFront (sent peer.old.talk piece.now) (K.written writer.old) (K.written writer.new)) }
    ensures ends { OnErr result ((result ≡ Err DialledEnd.LinkFault) ⊎ (result ≡ Err DialledEnd.OutOfMemory)) }
    ensures cause { result ≡ Err DialledEnd.LinkFault → Rose (K.faults writer.old) (K.faults writer.new) }
    ensures later { K.faults writer.old ≤ K.faults writer.new }
{
    let fed = peer.feed(piece)?;
    write(writer, fed.send.as_slice())?;
    Ok(fed)
}
