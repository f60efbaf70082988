//! The handshake on a link.

ghost use Rattle.std.specs.Prelude.{◌≡◌, ◌⊎◌, ◌≤◌, false, All, None, Some, IfSome, IfOk, IfErr, OnOk, OnErr, Ok, Err};
ghost use Rattle.cluster_types.specs.Causes.{Rose};
ghost use Rattle.edges.specs.Streams.{Added, IsAtEnd, AddedFront};
ghost use Rattle.zmtp_peer.specs.declared.fault.PeerFault.{PeerFault as Fault};
ghost use Rattle.zmtp_peer.specs.Limits.{IsShortMessage, IsShortIdentity};
ghost use Rattle.zmtp_peer.specs.PeerStream.{talked, sent, identity, fault_of};
ghost use Rattle.link_messages.specs.Ends.{EndsGreeting, EndsPiece};
ghost use Rattle.link_messages.specs.Greeting.{IsGreeted, IsRefused, IsGreetedInPart, IsHandshake};

use crate::end::SessionEnd;
use crate::link::write;
use cluster_types::octets::Octets;
use edges::sink::Sink;
use edges::source::{Got, Source};
use std::alloc::Global;
use std::sync::Wait;
use zmtp_peer::peer::Peer;
use zmtp_peer::phase::{FramesList, PeerFed};

/// How many octets of a handshake are read at a time.
const PIECE_OCTETS: usize = 4096;

/// A link whose handshake is done.
#[derive(Drop)]
pub struct Greeted {
    pub peer: Peer,
    /// The identity of the other side, which may be empty.
    pub identity: Octets,
    /// The messages that came with the handshake.
    pub early: FramesList,
}

/// What a handshake gave besides its peer.
#[derive(Drop)]
struct Handshake {
    identity: Octets,
    early: FramesList,
}

/// Takes a piece of a handshake, and writes all that it calls for.
fn take_piece<K: Sink>(
    peer: &mut Peer,
    writer: &mut K,
    piece: &[u8],
) -> Result<Option<Handshake>, SessionEnd>
    ensures sent { OnOk result (Added (sent peer.old.talk piece.now) (K.written writer.old) (K.written writer.new)) }
    ensures talk { OnOk result (peer.new.talk ≡ talked peer.old.talk piece.now) }
    ensures usable { OnOk result (peer.new.spent ≡ false) }
    ensures some { IfOk result (λ done. IfSome done (λ h. IsHandshake peer.old.talk piece.now h.identity h.early)) }
    ensures none { result ≡ Ok None → (identity peer.old.talk piece.now ≡ None) × (fault_of (talked peer.old.talk piece.now).phase ≡ None) }
    ensures fault { (f : Fault) → result ≡ Err (SessionEnd.ZmtpFault f) → (identity peer.old.talk piece.now ≡ None) × (fault_of (talked peer.old.talk piece.now).phase ≡ Some f) × Added (sent peer.old.talk piece.now) (K.written writer.old) (K.written writer.new) }
    ensures err { OnErr result (AddedFront (sent peer.old.talk piece.now) (K.written writer.old) (K.written writer.new)) }
    ensures ends { IfErr result EndsPiece }
    ensures cause { result ≡ Err SessionEnd.LinkFault → Rose (K.faults writer.old) (K.faults writer.new) }
    ensures later { K.faults writer.old ≤ K.faults writer.new }
{
    let PeerFed {
        send,
        ready,
        messages,
        fault,
    } = peer.feed(piece)?;
    write(writer, send.as_slice())?;
    match (ready, fault) {
        (Some(identity), _) => Ok(Some(Handshake {
            identity,
            early: messages,
        })),
        (None, Some(fault)) => Err(SessionEnd::ZmtpFault(fault)),
        (None, None) => Ok(None),
    }
}

/// Makes the handshake: sends the greeting at once, READY once the other greeting is there, and reads until the other
/// side's READY. At a socket type that isn't served it sends ERROR. A fault behind READY in the octets read stays with
/// the peer.
pub fn greet<R: Wait, S: Source, K: Sink>(
    rt: &R,
    alloc: Global,
    reader: &mut S,
    writer: &mut K,
) -> Result<Greeted, SessionEnd>
    ensures ok { IfOk result (λ g. IsGreeted g.peer.talk g.identity g.early (S.left reader.old) (S.left reader.new) (K.written writer.old) (K.written writer.new)) }
    ensures usable { IfOk result (λ g. g.peer.spent ≡ false) }
    ensures identity { IfOk result (λ g. IsShortIdentity g.identity) }
    ensures messages { IfOk result (λ g. All IsShortMessage g.early) }
    ensures front { OnErr result (IsGreetedInPart (S.left reader.old) (S.left reader.new) (K.written writer.old) (K.written writer.new)) }
    ensures ended { result ≡ Err SessionEnd.Ended → IsRefused None (S.left reader.old) (S.left reader.new) (K.written writer.old) (K.written writer.new) × IsAtEnd (S.left reader.new) }
    ensures fault { (f : Fault) → result ≡ Err (SessionEnd.ZmtpFault f) → IsRefused (Some f) (S.left reader.old) (S.left reader.new) (K.written writer.old) (K.written writer.new) }
    ensures ends { IfErr result EndsGreeting }
    ensures cause { result ≡ Err SessionEnd.LinkFault → Rose (S.faults reader.old) (S.faults reader.new) ⊎ Rose (K.faults writer.old) (K.faults writer.new) }
{
    let mut peer = Peer::new(alloc);
    write(writer, &peer.greeting())?;
    let mut piece = [0u8; PIECE_OCTETS];
    for _ in rt.forever() {
        let count = match reader.read(&mut piece) {
            Got::Bytes(count) => count,
            Got::End => return Err(SessionEnd::Ended),
            Got::Failed => return Err(SessionEnd::LinkFault),
        };
        match take_piece(&mut peer, writer, &piece[..count]) {
            Ok(None) => {}
            Ok(Some(handshake)) => {
                let Handshake { identity, early } = handshake;
                return Ok(Greeted {
                    peer,
                    identity,
                    early,
                });
            }
            Err(end) => return Err(end),
        }
    }
    unreachable!()
}
