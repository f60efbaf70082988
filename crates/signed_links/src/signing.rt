//! A link up to its first signed message.

ghost use Rattle.std.specs.Prelude.{◌≡◌, ◌≤◌, false, All, None, Some, IfOk, IfErr, OnErr, Err, List, ℕ};
ghost use Rattle.std.specs.List.{list_any};
ghost use Rattle.cluster_types.specs.Causes.{Rose};
ghost use Rattle.edges.specs.Streams.{IsAtEnd, Took};
ghost use Rattle.zmtp_peer.specs.declared.fault.PeerFault.{PeerFault as Fault};
ghost use Rattle.zmtp_peer.specs.Limits.{IsShortMessage};
ghost use Rattle.zmtp_peer.specs.PeerStream.{talked, messages, fault_of};
ghost use Rattle.link_messages.specs.Ends.{EndsGreeting};
ghost use Rattle.signed_links.specs.Signing.{EndsUnsigned, IsReadToSigned, is_signed};

use edges::frames::Frames;
use edges::source::{Got, Source};
use hmac_sign::Key;
use link_messages::end::SessionEnd;
use link_messages::greeting::Greeted;
use link_messages::message::signed;
use std::alloc::{AllocError, Global};
use std::sync::Wait;

/// How many octets are read at a time.
const PIECE_OCTETS: usize = 65_536;

/// Whether these frames are a message that is signed with the key.
fn is_signed(alloc: Global, key: &Key, frames: &Frames) -> Result<bool, AllocError>
    ensures { IfOk result (λ b. b ≡ is_signed key.now frames.now) }
{
    Ok(signed(alloc, key, frames)?.is_some())
}

/// Whether one of these is a message that is signed with the key.
fn has_signed(alloc: Global, key: &Key, messages: &[Frames]) -> Result<bool, AllocError>
    ensures { IfOk result (λ b. b ≡ list_any (is_signed key.now) messages.now) }
{
    for frames in messages {
        if is_signed(alloc, key, frames)? {
            return Ok(true);
        }
    }
    Ok(false)
}

/// Reads on, where no message that came is signed, to the first that is.
fn read_on<R: Wait, S: Source>(
    rt: &R,
    alloc: Global,
    key: &Key,
    reader: &mut S,
    greeted: Greeted,
) -> Result<Greeted, SessionEnd>
    requires unsigned { list_any (is_signed key.now) greeted.early ≡ false }
    requires faultless { fault_of greeted.peer.talk.phase ≡ None }
    ensures ok { IfOk result (λ g. IsReadToSigned key.now greeted.early greeted.peer.talk g.peer.talk g.early (S.left reader.old) (S.left reader.new)) }
    ensures identity { IfOk result (λ g. g.identity ≡ greeted.identity) }
    ensures messages { IfOk result (λ g. All IsShortMessage g.early) }
    ensures ended { result ≡ Err SessionEnd.Ended → EndsUnsigned key.now greeted.early greeted.peer.talk None (S.left reader.old) (S.left reader.new) × IsAtEnd (S.left reader.new) }
    ensures fault { (f : Fault) → result ≡ Err (SessionEnd.ZmtpFault f) → EndsUnsigned key.now greeted.early greeted.peer.talk (Some f) (S.left reader.old) (S.left reader.new) }
    ensures ends { IfErr result EndsGreeting }
    ensures cause { result ≡ Err SessionEnd.LinkFault → Rose (S.faults reader.old) (S.faults reader.new) }
{
    let Greeted {
        mut peer,
        identity,
        ..
    } = greeted;
    let mut piece = [0u8; PIECE_OCTETS];
    for _ in rt.forever() {
        let count = match reader.read(&mut piece) {
            Got::Bytes(count) => count,
            Got::End => return Err(SessionEnd::Ended),
            Got::Failed => return Err(SessionEnd::LinkFault),
        };
        let fed = peer.feed(&piece[..count])?;
        if has_signed(alloc, key, fed.messages.as_slice())? {
            return Ok(Greeted {
                peer,
                identity,
                early: fed.messages,
            });
        }
        match fed.fault {
            Some(fault) => return Err(SessionEnd::ZmtpFault(fault)),
            None => {}
        }
    }
    unreachable!()
}

/// Reads on behind a handshake to the first message that is signed with the key. It gives what the handshake gave, with the
/// messages of the piece in which that one came; those before aren't signed. A fault behind it stays with the peer.
pub fn read_to_signed<R: Wait, S: Source>(
    rt: &R,
    alloc: Global,
    key: &Key,
    reader: &mut S,
    greeted: Greeted,
) -> Result<Greeted, SessionEnd>
    requires short { All IsShortMessage greeted.early }
    ensures ok { IfOk result (λ g. IsReadToSigned key.now greeted.early greeted.peer.talk g.peer.talk g.early (S.left reader.old) (S.left reader.new)) }
    ensures identity { IfOk result (λ g. g.identity ≡ greeted.identity) }
    ensures messages { IfOk result (λ g. All IsShortMessage g.early) }
    ensures ended { result ≡ Err SessionEnd.Ended → EndsUnsigned key.now greeted.early greeted.peer.talk None (S.left reader.old) (S.left reader.new) × IsAtEnd (S.left reader.new) }
    ensures fault { (f : Fault) → result ≡ Err (SessionEnd.ZmtpFault f) → EndsUnsigned key.now greeted.early greeted.peer.talk (Some f) (S.left reader.old) (S.left reader.new) }
    ensures ends { IfErr result EndsGreeting }
    ensures cause { result ≡ Err SessionEnd.LinkFault → Rose (S.faults reader.old) (S.faults reader.new) }
{
    if has_signed(alloc, key, greeted.early.as_slice())? {
        return Ok(greeted);
    }
    match greeted.peer.fault() {
        Some(fault) => Err(SessionEnd::ZmtpFault(fault)),
        None => read_on(rt, alloc, key, reader, greeted),
    }
}
