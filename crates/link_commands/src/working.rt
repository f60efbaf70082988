//! Serving the stream of a controller.

ghost use Rattle.std.specs.Prelude.{◌≡◌, ◌⊎◌, ◌≤◌, ℕ, List, None, Some, IfOk, OnOk, OnErr, Err};
ghost use Rattle.cluster_types.specs.Causes.{Rose};
ghost use Rattle.edges.specs.Streams.{Added, IsAtEnd, AddedFront};
ghost use Rattle.engine_core.specs.State.{standing};
ghost use Rattle.zmtp_peer.specs.declared.fault.PeerFault.{PeerFault as Fault};
ghost use Rattle.zmtp_peer.specs.PeerStream.{talked, fault_of};
ghost use Rattle.link_commands.specs.Working.{IsJoin, Opens, IsWhole, IsFront, WrotePiece, WroteOfPiece};

use crate::answering::answer_all;
use crate::dialled::{PIECE_OCTETS, greet, hear, octets_of, read, write};
use crate::end::DialledEnd;
use cluster_types::octets::Octets;
use edges::sink::Sink;
use edges::source::Source;
use engine_core::engine::Engine;
use hmac_sign::Key;
use std::alloc::Global;
use std::sync::Wait;
use thread_edges::clock::Clock;
use zmtp_peer::fault::PeerFault;
use zmtp_peer::peer::Peer;

/// Writes the registration of the engine.
fn join<K: Sink, C: Clock>(
    alloc: Global,
    engine: &Engine,
    key: &Key,
    clock: &mut C,
    writer: &mut K,
) -> Result<(), DialledEnd>
    ensures ok { OnOk result ((octets : List ℕ) × IsJoin key.now engine.now.uuid octets × Added octets (K.written writer.old) (K.written writer.new)) }
    ensures err { OnErr result ((octets : List ℕ) × IsJoin key.now engine.now.uuid octets × AddedFront octets (K.written writer.old) (K.written writer.new)) }
    ensures ends { OnErr result ((result ≡ Err DialledEnd.LinkFault) ⊎ (result ≡ Err DialledEnd.OutOfMemory)) }
    ensures cause { result ≡ Err DialledEnd.LinkFault → Rose (K.faults writer.old) (K.faults writer.new) }
    ensures later { K.faults writer.old ≤ K.faults writer.new }
{
    let moment = clock.now().millis;
    let octets = octets_of(alloc, key, &engine.join(moment)?)?;
    write(writer, octets.as_slice())
}

/// Writes the registration of the engine where the handshake is done, which gave an identity.
fn join_where<K: Sink, C: Clock>(
    alloc: Global,
    engine: &Engine,
    key: &Key,
    clock: &mut C,
    writer: &mut K,
    ready: &Option<Octets>,
) -> Result<(), DialledEnd>
    ensures ok { OnOk result ((octets : List ℕ) × Opens key.now engine.now.uuid ready.now octets × Added octets (K.written writer.old) (K.written writer.new)) }
    ensures err { OnErr result ((octets : List ℕ) × Opens key.now engine.now.uuid ready.now octets × AddedFront octets (K.written writer.old) (K.written writer.new)) }
    ensures ends { OnErr result ((result ≡ Err DialledEnd.LinkFault) ⊎ (result ≡ Err DialledEnd.OutOfMemory)) }
    ensures cause { result ≡ Err DialledEnd.LinkFault → Rose (K.faults writer.old) (K.faults writer.new) }
    ensures later { K.faults writer.old ≤ K.faults writer.new }
{
    match ready {
        None => Ok(()),
        Some(_) => join(alloc, engine, key, clock, writer),
    }
}

/// Takes a piece of the stream, and writes all that is due for it. It tells the fault of the stream.
fn take_piece<K: Sink, C: Clock>(
    alloc: Global,
    peer: &mut Peer,
    engine: &mut Engine,
    key: &Key,
    clock: &mut C,
    writer: &mut K,
    piece: &[u8],
) -> Result<Option<PeerFault>, DialledEnd>
    ensures ok { OnOk result (WrotePiece key.now (standing engine.old) peer.old.talk piece.now (K.written writer.old) (K.written writer.new) (standing engine.new)) }
    ensures talk { OnOk result (peer.new.talk ≡ talked peer.old.talk piece.now) }
    ensures fault { IfOk result (λ fault. fault ≡ fault_of (talked peer.old.talk piece.now).phase) }
    ensures err { OnErr result (WroteOfPiece key.now (standing engine.old) peer.old.talk piece.now (K.written writer.old) (K.written writer.new)) }
    ensures ends { OnErr result ((result ≡ Err DialledEnd.LinkFault) ⊎ (result ≡ Err DialledEnd.OutOfMemory)) }
    ensures cause { result ≡ Err DialledEnd.LinkFault → Rose (K.faults writer.old) (K.faults writer.new) }
    ensures later { K.faults writer.old ≤ K.faults writer.new }
{
    let fed = hear(peer, writer, piece)?;
    join_where(alloc, engine, key, clock, writer, &fed.ready)?;
    answer_all(alloc, engine, key, clock, writer, fed.messages.as_slice())?;
    Ok(fed.fault)
}

/// Serves the stream of a controller until it ends: sends the greeting and READY, joins once the controller is ready, and
/// answers each signed request, in order, with a signed reply. What isn't signed with the key, and what is no request, is
/// passed over.
///
/// It answers `Ended` where the stream was read to its end; `ZmtpFault` at the first fault of the stream, once all before
/// it is answered; `LinkFault` where a read or a write failed; or `OutOfMemory`.
pub fn serve_engine<R: Wait, S: Source, K: Sink, C: Clock>(
    rt: &R,
    alloc: Global,
    engine: &mut Engine,
    key: &Key,
    reader: &mut S,
    writer: &mut K,
    clock: &mut C,
) -> DialledEnd
    ensures ended { result ≡ DialledEnd.Ended → IsWhole key.now (standing engine.old) (S.left reader.old) (S.left reader.new) (K.written writer.old) (K.written writer.new) (standing engine.new) None × IsAtEnd (S.left reader.new) }
    ensures fault { (f : Fault) → result ≡ DialledEnd.ZmtpFault f → IsWhole key.now (standing engine.old) (S.left reader.old) (S.left reader.new) (K.written writer.old) (K.written writer.new) (standing engine.new) (Some f) }
    ensures front { IsFront key.now (standing engine.old) (S.left reader.old) (S.left reader.new) (K.written writer.old) (K.written writer.new) }
    ensures cause { result ≡ DialledEnd.LinkFault → Rose (S.faults reader.old) (S.faults reader.new) ⊎ Rose (K.faults writer.old) (K.faults writer.new) }
{
    let mut peer = match greet(alloc, writer) {
        Ok(peer) => peer,
        Err(end) => return end,
    };
    let mut piece = [0u8; PIECE_OCTETS];
    for _ in rt.forever() {
        let count = match read(reader, &mut piece) {
            Ok(count) => count,
            Err(end) => return end,
        };
        match take_piece(
            alloc,
            &mut peer,
            engine,
            key,
            clock,
            writer,
            &piece[..count],
        ) {
            Ok(None) => {}
            Ok(Some(fault)) => return DialledEnd::ZmtpFault(fault),
            Err(end) => return end,
        }
    }
    unreachable!()
}
