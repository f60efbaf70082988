//! The session that enters what is read on a link.

ghost use Rattle.std.specs.Prelude.{◌≡◌, ◌≢◌, ◌⊎◌, [], false, All, None, Some, IfOk, IfErr, OnOk, OnErr, Err};
ghost use Rattle.cluster_types.specs.Causes.{Rose};
ghost use Rattle.cluster_store.specs.Stores.{is_live};
ghost use Rattle.edges.specs.Streams.{IsAtEnd};
ghost use Rattle.history_lock.specs.Names.{known, room_of, lock_id, IsIdle};
ghost use Rattle.zmtp_peer.specs.declared.fault.PeerFault.{PeerFault as Fault};
ghost use Rattle.zmtp_peer.specs.Limits.{IsShortMessage};
ghost use Rattle.zmtp_peer.specs.PeerStream.{talked, messages, fault_of};
ghost use Rattle.session_threads.specs.Ends.{EndsHearing, EndsStream, KeepsEnd, IsRefusedEnd, HasDeskCause};
ghost use Rattle.controller_desk.specs.declared.fault.ActError.{ActError as Refusal};
ghost use Rattle.controller_desk.specs.Contents.{Rests};
ghost use Rattle.session_threads.specs.Reading.{Entered, EnteredFront, TakesDown, HeardFront, HeardWith, ReadsFront, ReadsWhole};

use crate::connection::ServedConnection;
use crate::context::{PassOf, SessionContext, SessionTypes};
use crate::hearing::{end_of, hear_all};
use controller_desk::fault::ActError;
use edges::source::{Got, Source};
use link_messages::end::SessionEnd;
use link_messages::greeting::Greeted;
use load_schemes::chooser::Chooser;
use std::sync::Wait;
use thread_edges::gate::{Gate, Point};
use zmtp_peer::fault::PeerFault;
use zmtp_peer::peer::Peer;

/// How many octets are read at a time.
const PIECE_OCTETS: usize = 65_536;

/// Enters the messages of a piece of the stream. It tells the fault of the stream.
fn take_piece<T: SessionTypes>(
    context: &SessionContext<T>,
    chooser: &Chooser,
    peer: &mut Peer,
    pass: &mut PassOf<T>,
    connection: ServedConnection,
    piece: &[u8],
) -> Result<Option<PeerFault>, SessionEnd>
    requires idle { IsIdle (lock_id context.now.desk.now.lock) pass.old }
    ensures idle { IsIdle (lock_id context.now.desk.now.lock) pass.new }
    ensures room { room_of pass.new ≡ room_of pass.old }
    ensures ok { OnOk result (Entered context.now.key.now connection.number (messages peer.old.talk piece.now) [] (known pass.old) (known pass.new)) }
    ensures talk { OnOk result (peer.new.talk ≡ talked peer.old.talk piece.now) }
    ensures fault { IfOk result (λ fault. fault ≡ fault_of (talked peer.old.talk piece.now).phase) }
    ensures err { OnErr result (EnteredFront context.now.key.now connection.number (messages peer.old.talk piece.now) (known pass.old) (known pass.new)) }
    ensures ends { IfErr result EndsHearing }
    ensures cause { IfErr result (λ e. HasDeskCause e (known pass.old) (known pass.new)) }
    ensures closed { result ≡ Err SessionEnd.Closed → (is_live (known pass.new).seen.list connection.number ≡ false) × Rests (known pass.new).seen }
{
    let fed = peer.feed(piece)?;
    hear_all(context, chooser, pass, connection, fed.messages.as_slice())?;
    Ok(fed.fault)
}

/// Reads the stream to its end, and enters its messages.
fn read_on<T: SessionTypes, S: Source>(
    context: &SessionContext<T>,
    chooser: &Chooser,
    reader: &mut S,
    mut peer: Peer,
    pass: &mut PassOf<T>,
    connection: ServedConnection,
) -> SessionEnd
    requires idle { IsIdle (lock_id context.now.desk.now.lock) pass.old }
    requires faultless { fault_of peer.talk.phase ≡ None }
    ensures idle { IsIdle (lock_id context.now.desk.now.lock) pass.new }
    ensures room { room_of pass.new ≡ room_of pass.old }
    ensures front { HeardFront context.now.key.now connection.number [] peer.talk (S.left reader.old) (S.left reader.new) (known pass.old) (known pass.new) }
    ensures ended { result ≡ SessionEnd.Ended → HeardWith context.now.key.now connection.number [] peer.talk None (S.left reader.old) (S.left reader.new) (known pass.old) (known pass.new) × IsAtEnd (S.left reader.new) }
    ensures fault { (f : Fault) → result ≡ SessionEnd.ZmtpFault f → HeardWith context.now.key.now connection.number [] peer.talk (Some f) (S.left reader.old) (S.left reader.new) (known pass.old) (known pass.new) }
    ensures link { result ≡ SessionEnd.LinkFault → HeardWith context.now.key.now connection.number [] peer.talk None (S.left reader.old) (S.left reader.new) (known pass.old) (known pass.new) × Rose (S.faults reader.old) (S.faults reader.new) }
    ensures closed { result ≡ SessionEnd.Closed → (is_live (known pass.new).seen.list connection.number ≡ false) × Rests (known pass.new).seen }
    ensures cause { HasDeskCause result (known pass.old) (known pass.new) }
{
    let mut piece = [0u8; PIECE_OCTETS];
    for _ in context.rt.forever() {
        let count = match reader.read(&mut piece) {
            Got::Bytes(count) => count,
            Got::End => return SessionEnd::Ended,
            Got::Failed => return SessionEnd::LinkFault,
        };
        match take_piece(
            context,
            chooser,
            &mut peer,
            pass,
            connection,
            &piece[..count],
        ) {
            Ok(None) => {}
            Ok(Some(fault)) => return SessionEnd::ZmtpFault(fault),
            Err(end) => return end,
        }
    }
    unreachable!()
}

/// Enters the messages that came with the handshake, then reads the stream to its end and enters its messages.
fn hear_stream<T: SessionTypes, S: Source>(
    context: &SessionContext<T>,
    chooser: &Chooser,
    reader: &mut S,
    greeted: Greeted,
    pass: &mut PassOf<T>,
    connection: ServedConnection,
) -> SessionEnd
    requires idle { IsIdle (lock_id context.now.desk.now.lock) pass.old }
    requires short { All IsShortMessage greeted.early }
    ensures idle { IsIdle (lock_id context.now.desk.now.lock) pass.new }
    ensures room { room_of pass.new ≡ room_of pass.old }
    ensures front { HeardFront context.now.key.now connection.number greeted.early greeted.peer.talk (S.left reader.old) (S.left reader.new) (known pass.old) (known pass.new) }
    ensures ended { result ≡ SessionEnd.Ended → HeardWith context.now.key.now connection.number greeted.early greeted.peer.talk None (S.left reader.old) (S.left reader.new) (known pass.old) (known pass.new) × IsAtEnd (S.left reader.new) }
    ensures fault { (f : Fault) → result ≡ SessionEnd.ZmtpFault f → HeardWith context.now.key.now connection.number greeted.early greeted.peer.talk (Some f) (S.left reader.old) (S.left reader.new) (known pass.old) (known pass.new) }
    ensures link { result ≡ SessionEnd.LinkFault → HeardWith context.now.key.now connection.number greeted.early greeted.peer.talk None (S.left reader.old) (S.left reader.new) (known pass.old) (known pass.new) × Rose (S.faults reader.old) (S.faults reader.new) }
    ensures closed { result ≡ SessionEnd.Closed → (is_live (known pass.new).seen.list connection.number ≡ false) × Rests (known pass.new).seen }
    ensures cause { HasDeskCause result (known pass.old) (known pass.new) }
{
    let Greeted { peer, early, .. } = greeted;
    match hear_all(context, chooser, pass, connection, early.as_slice()) {
        Err(end) => end,
        Ok(()) => match peer.fault() {
            Some(fault) => SessionEnd::ZmtpFault(fault),
            None => read_on(context, chooser, reader, peer, pass, connection),
        },
    }
}

/// The end of a session whose connection can't be taken down: why, where its stream had ended.
fn refused_end(end: SessionEnd, error: ActError) -> SessionEnd
    requires { error ≢ Refusal.TooManyConnections }
    ensures { IsRefusedEnd end error result }
{
    match end {
        SessionEnd::Ended => end_of(error),
        SessionEnd::LinkFault => end_of(error),
        SessionEnd::ZmtpFault(_) => end_of(error),
        _ => end,
    }
}

/// Takes a connection down.
fn take_down<T: SessionTypes>(
    context: &SessionContext<T>,
    chooser: &Chooser,
    pass: &mut PassOf<T>,
    conn: u32,
    end: SessionEnd,
) -> SessionEnd
    requires idle { IsIdle (lock_id context.now.desk.now.lock) pass.old }
    ensures idle { IsIdle (lock_id context.now.desk.now.lock) pass.new }
    ensures room { room_of pass.new ≡ room_of pass.old }
    ensures down { TakesDown conn (known pass.old) (known pass.new) }
    ensures keeps { KeepsEnd end result }
    ensures gone { EndsStream result → is_live (known pass.new).seen.list conn ≡ false }
    ensures cause { (result ≡ end) ⊎ HasDeskCause result (known pass.old) (known pass.new) }
    ensures rests { Rests (known pass.new).seen }
{
    match context.desk.close_conn(context.rt, pass, chooser, conn) {
        Ok(_) => end,
        Err(error) => refused_end(end, error),
    }
}

/// Takes a connection down at the end of its session, where it may be live.
fn finish<T: SessionTypes>(
    context: &SessionContext<T>,
    chooser: &Chooser,
    pass: &mut PassOf<T>,
    conn: u32,
    end: SessionEnd,
) -> SessionEnd
    requires idle { IsIdle (lock_id context.now.desk.now.lock) pass.old }
    ensures idle { IsIdle (lock_id context.now.desk.now.lock) pass.new }
    ensures room { room_of pass.new ≡ room_of pass.old }
    ensures down { TakesDown conn (known pass.old) (known pass.new) }
    ensures keeps { KeepsEnd end result }
    ensures gone { EndsStream result → is_live (known pass.new).seen.list conn ≡ false }
    ensures cause { (result ≡ end) ⊎ HasDeskCause result (known pass.old) (known pass.new) }
    ensures closed { end ≡ SessionEnd.Closed → known pass.new ≡ known pass.old }
    ensures rests { (end ≡ SessionEnd.Closed) ⊎ Rests (known pass.new).seen }
{
    match end {
        SessionEnd::Closed => end,
        _ => take_down(context, chooser, pass, conn, end),
    }
}

/// Reads a link until its stream ends, and enters each signed message in its order: first those that came with the
/// handshake. What isn't signed with the key, and what means nothing on its channel, is passed over. At its end it takes
/// the connection down.
///
/// It passes the gate at `Read` before the messages of the handshake and before those of each piece, wakes who waits at
/// `Flush` after them, and in the end who waits at `Idle` on its connection.
pub fn read_session<T: SessionTypes, S: Source>(
    context: &SessionContext<T>,
    chooser: &Chooser,
    reader: &mut S,
    greeted: Greeted,
    pass: &mut PassOf<T>,
    connection: ServedConnection,
) -> SessionEnd
    requires idle { IsIdle (lock_id context.now.desk.now.lock) pass.old }
    requires short { All IsShortMessage greeted.early }
    ensures idle { IsIdle (lock_id context.now.desk.now.lock) pass.new }
    ensures room { room_of pass.new ≡ room_of pass.old }
    ensures front { ReadsFront context.now.key.now connection.number greeted.early greeted.peer.talk (S.left reader.old) (S.left reader.new) (known pass.old) (known pass.new) }
    ensures ended { result ≡ SessionEnd.Ended → ReadsWhole context.now.key.now connection.number greeted.early greeted.peer.talk None (S.left reader.old) (S.left reader.new) (known pass.old) (known pass.new) × IsAtEnd (S.left reader.new) }
    ensures fault { (f : Fault) → result ≡ SessionEnd.ZmtpFault f → ReadsWhole context.now.key.now connection.number greeted.early greeted.peer.talk (Some f) (S.left reader.old) (S.left reader.new) (known pass.old) (known pass.new) }
    ensures link { result ≡ SessionEnd.LinkFault → ReadsWhole context.now.key.now connection.number greeted.early greeted.peer.talk None (S.left reader.old) (S.left reader.new) (known pass.old) (known pass.new) × Rose (S.faults reader.old) (S.faults reader.new) }
    ensures closed { result ≡ SessionEnd.Closed → is_live (known pass.new).seen.list connection.number ≡ false }
    ensures cause { HasDeskCause result (known pass.old) (known pass.new) }
    ensures rests { Rests (known pass.new).seen }
{
    let end = hear_stream(context, chooser, reader, greeted, pass, connection);
    let end = finish(context, chooser, pass, connection.number, end);
    context.gate.wake(Point::Flush, 0);
    context.gate.wake(Point::Idle, connection.number);
    end
}
