//! A peer that is fed in any pieces.

ghost use Rattle.std.specs.Prelude.{◌≡◌, All, IfOk, IfSome, OnOk, OnErr, IsErr, IsTrue, true, false, ◌<◌, ◌≤◌, List, ℕ, [], ◌∷◌, ◌++◌, length, take, Some, None, IfErr};
ghost use Rattle.std.specs.Option.{unwrap_or};
ghost use Rattle.zmtp_frames.specs.Stream.{Reading, step};
ghost use Rattle.zmtp_frames.specs.Command.{command_of};
ghost use Rattle.zmtp_frames.specs.Greeting.{greeting_fault, own_greeting};
ghost use Rattle.zmtp_peer.specs.Limits.{IsShortMessage, IsShortIdentity};
ghost use Rattle.zmtp_peer.specs.PeerStream.{begins, is_served, refusal, shaken, quiet, heard, parts_after, message_of, begun_fault, size_fault, first_fault, ended_by, greet, hear, talk, talk_at, talked, sent, identity, messages, listed, fault_of, hears, or_later, IsQuiet};

use crate::fault::PeerFault;
use crate::parts::Parts;
use crate::phase::{FramesList, Gave, Heard, PeerFed, Phase};
use crate::writing::error_octets;
use cluster_types::limits::MOST_FRAMES;
use cluster_types::octets::Octets;
use edges::frames::Frames;
use std::alloc::{AllocError, Global};
use std::marker::Model;
use zmtp_frames::command::{Command, CommandError, read_command};
use zmtp_frames::fault::FrameFault;
use zmtp_frames::frame::{Begun, Frame};
use zmtp_frames::greeting::{greeting, read_greeting};
use zmtp_frames::reader::FrameReader;
use zmtp_frames::writing::write_ready;

/// The fault that a size shows.
fn fault_of_size(at: u64, parts: &Parts, size: Option<u64>) -> Option<PeerFault>
    ensures { result ≡ size_fault at parts.now size }
{
    match size {
        None => None,
        Some(size) => if parts.passes_with(size) {
            Some(PeerFault::MessageTooLong(at))
        } else {
            None
        },
    }
}

/// The fault that a frame of a message, or a command, shows before it is whole.
fn fault_in_traffic(parts: &Parts, begun: Begun) -> Option<PeerFault>
    ensures { result ≡ begun_fault Phase.Traffic parts.now (Some begun) }
{
    if begun.command {
        if parts.len() == 0 {
            return None;
        }
        return Some(PeerFault::BadCommand(begun.at));
    }
    if parts.len() < MOST_FRAMES {
        return fault_of_size(begun.at, parts, begun.size);
    }
    Some(PeerFault::MessageTooLong(begun.at))
}

/// The fault that a frame shows before it is whole.
fn fault_of_begun(phase: Phase, parts: &Parts, begun: Option<Begun>) -> Option<PeerFault>
    ensures { result ≡ begun_fault phase parts.now begun }
{
    let Some(begun) = begun else {
        return None;
    };
    match phase {
        Phase::Handshake => if begun.command {
            None
        } else {
            Some(PeerFault::NoReady(begun.at))
        },
        Phase::Traffic => fault_in_traffic(parts, begun),
        _ => None,
    }
}

/// The phase with the first of these faults.
fn ended(phase: Phase, frame: Option<FrameFault>, fault: Option<PeerFault>) -> Phase
    ensures { result ≡ ended_by phase (first_fault frame fault) }
{
    match (frame, fault) {
        (Some(fault), _) => Phase::Ended(PeerFault::Frame(fault)),
        (None, Some(fault)) => Phase::Ended(fault),
        (None, None) => phase,
    }
}

/// Whether frames are read in a phase.
fn hears(phase: Phase) -> bool
    ensures { result ≡ hears phase }
{
    match phase {
        Phase::Handshake | Phase::Traffic => true,
        _ => false,
    }
}

/// What a frame does that gives nothing.
fn quiet_in(phase: Phase) -> Heard
    ensures { result ≡ quiet phase }
{
    Heard {
        phase,
        send: Octets::empty(),
        ready: None,
        message: None,
    }
}

/// Whether this socket type is served.
fn is_served_type(socket_type: &[u8]) -> bool
    ensures { result ≡ is_served socket_type.now }
{
    socket_type == b"DEALER".as_slice() || socket_type == b"ROUTER".as_slice()
}

/// The identity, which is empty where none is given.
fn identity_or_empty(given: Option<Octets>) -> Octets
    ensures { result ≡ unwrap_or given [] }
{
    match given {
        Some(identity) => identity,
        None => Octets::empty(),
    }
}

/// What the first command does.
fn shake(alloc: Global, at: u64, command: Command) -> Result<Heard, AllocError>
    ensures { IfOk result (λ h. h ≡ shaken at (Some command)) }
{
    match command {
        Command::Other => Ok(quiet_in(Phase::Ended(PeerFault::NoReady(at)))),
        Command::Error(_reason) => Ok(quiet_in(Phase::Ended(PeerFault::PeerError(at)))),
        Command::Ready(props) => {
            if is_served_type(props.socket_type.as_slice()) {
                return Ok(Heard {
                    phase: Phase::Traffic,
                    send: Octets::empty(),
                    ready: Some(identity_or_empty(props.identity)),
                    message: None,
                });
            }
            Ok(Heard {
                phase: Phase::Ended(PeerFault::BadSocketType(at)),
                send: Octets::from_vec(error_octets(alloc, "Socket-Type")?)?,
                ready: None,
                message: None,
            })
        }
    }
}

/// What the first frame does.
fn hear_first(alloc: Global, frame: &Frame) -> Result<Heard, AllocError>
    ensures { IfOk result (λ h. h ≡ shaken frame.now.at (command_of frame.now.body)) }
{
    match read_command(alloc, frame.body.as_slice()) {
        Ok(command) => {
            let heard = shake(alloc, frame.at, command)?;
            Ok(heard)
        }
        Err(CommandError::BadCommand) => Ok(quiet_in(Phase::Ended(PeerFault::BadCommand(
            frame.at,
        )))),
        Err(CommandError::OutOfMemory) => Err(AllocError),
    }
}

/// Takes a frame of traffic: the parts that are left, and the message that it ends.
fn hear_message(
    alloc: Global,
    parts: &mut Parts,
    frame: &Frame,
) -> Result<Option<Frames>, AllocError>
    ensures parts { OnOk result (parts.new ≡ parts_after Phase.Traffic parts.old (Some frame.now)) }
    ensures message { IfOk result (λ m. m ≡ message_of parts.old frame.now) }
{
    if frame.command {
        return Ok(None);
    }
    parts.push(frame.body.as_slice())?;
    if frame.more {
        return Ok(None);
    }
    Ok(Some(parts.take(alloc)))
}

/// Takes a frame, where one is whole.
fn hear_frame(
    alloc: Global,
    phase: Phase,
    parts: &mut Parts,
    frame: Option<Frame>,
) -> Result<Heard, AllocError>
    ensures parts { OnOk result (parts.new ≡ parts_after phase parts.old frame) }
    ensures heard { IfOk result (λ h. h ≡ heard phase parts.old frame) }
{
    let Some(frame) = frame else {
        return Ok(quiet_in(phase));
    };
    match phase {
        Phase::Handshake => {
            let heard = hear_first(alloc, &frame)?;
            Ok(heard)
        }
        Phase::Traffic => {
            let message = hear_message(alloc, parts, &frame)?;
            Ok(Heard {
                phase,
                send: Octets::empty(),
                ready: None,
                message,
            })
        }
        _ => Ok(quiet_in(phase)),
    }
}

/// Puts what octets give behind what came before: the first identity stays.
fn keep(
    send: &mut Vec<u8>,
    ready: &mut Option<Octets>,
    messages: &mut FramesList,
    gave: Gave,
) -> Result<(), AllocError>
    ensures send { OnOk result (send.new.items ≡ send.old.items ++ gave.send) }
    ensures ready { OnOk result (ready.new ≡ or_later ready.old gave.ready) }
    ensures messages { OnOk result (messages.new ≡ messages.old ++ listed gave.message) }
{
    let Gave {
        send: more,
        ready: given,
        message,
    } = gave;
    send.extend_from_slice(more.as_slice())?;
    if ready.is_none() {
        *ready = given;
    }
    if let Some(message) = message {
        messages.push(message)?;
    }
    Ok(())
}

/// A peer's stream of which some octets came. Contracts see what is known of it, and whether memory was wanting. It
/// counts as spent while it takes octets, and stays so where memory was wanting.
pub struct Peer {
    phase: Phase,
    greeting: Vec<u8>,
    reader: FrameReader,
    parts: Parts,
    spent: bool,
}

// Written out, so that what lets one go is proved over one call, and not case by case.
impl Drop for Peer {
    fn drop(self) {
        let Peer {
            phase: _,
            greeting,
            reader,
            parts,
            spent: _,
        } = self;
        drop(greeting);
        drop(reader);
        drop(parts);
    }
}

impl Model for Peer {
    ghost use Rattle.std.specs.Prelude.{◌≡◌, false};
    ghost use Rattle.zmtp_peer.specs.Limits.{IsSound};
    ghost use Rattle.zmtp_peer.specs.PeerStream.{Held};

    ghost Value = { Held };

    ghost view = { λ p. record { talk = record { phase = p.phase; greeting = p.greeting.items; reader = p.reader; parts = p.parts }; spent = p.spent } };

    ghost invariant = { λ p. p.spent ≡ false → IsSound (record { phase = p.phase; greeting = p.greeting.items; reader = p.reader; parts = p.parts }) };
}

impl Peer {
    /// A peer of which nothing came. It takes no memory.
    pub fn new(alloc: Global) -> Peer
        ensures { result ≡ record { talk = begins; spent = false } }
    {
        Peer {
            phase: Phase::Greeting,
            greeting: Vec::new(alloc),
            reader: FrameReader::from_place(alloc, 64),
            parts: Parts::new(alloc),
            spent: false,
        }
    }

    /// The octets that are sent at once.
    pub fn greeting(&self) -> [u8; 64]
        ensures { result ≡ own_greeting }
    {
        greeting()
    }

    /// The first fault of the stream.
    pub fn fault(&self) -> Option<PeerFault>
        ensures { result ≡ fault_of self.now.talk.phase }
    {
        match self.phase {
            Phase::Ended(fault) => Some(fault),
            _ => None,
        }
    }

    /// Takes the next piece of the stream. After a fault a feed gives nothing but the fault. Once memory was wanting,
    /// it always is.
    pub fn feed(&mut self, piece: &[u8]) -> Result<PeerFed, AllocError>
        ensures talked { OnOk result (self.new.talk ≡ talked self.old.talk piece.now) }
        ensures sent { IfOk result (λ fed. fed.send ≡ sent self.old.talk piece.now) }
        ensures ready { IfOk result (λ fed. fed.ready ≡ identity self.old.talk piece.now) }
        ensures messages { IfOk result (λ fed. fed.messages ≡ messages self.old.talk piece.now) }
        ensures fault { IfOk result (λ fed. fed.fault ≡ fault_of self.new.talk.phase) }
        ensures short_identity { IfOk result (λ fed. IfSome fed.ready IsShortIdentity) }
        ensures short_messages { IfOk result (λ fed. All IsShortMessage fed.messages) }
        ensures spent { IsTrue self.old.spent → IsErr result }
        ensures ok { OnOk result (self.new.spent ≡ false) }
        ensures err { OnErr result (self.new.spent ≡ true) }
    {
        if self.spent {
            return Err(AllocError);
        }
        self.spent = true;
        let fed = self.octets(piece)?;
        self.spent = false;
        Ok(fed)
    }

    /// Takes all octets of a piece.
    fn octets(&mut self, piece: &[u8]) -> Result<PeerFed, AllocError>
        requires { IsTrue self.old.spent }
        ensures talked { OnOk result (self.new.talk ≡ talked self.old.talk piece.now) }
        ensures sent { IfOk result (λ fed. fed.send ≡ sent self.old.talk piece.now) }
        ensures ready { IfOk result (λ fed. fed.ready ≡ identity self.old.talk piece.now) }
        ensures messages { IfOk result (λ fed. fed.messages ≡ messages self.old.talk piece.now) }
        ensures fault { IfOk result (λ fed. fed.fault ≡ fault_of self.new.talk.phase) }
        ensures spent { self.new.spent ≡ self.old.spent }
    {
        let alloc = *self.greeting.allocator();
        let mut send = Vec::new(alloc);
        let mut ready = None;
        let mut messages = FramesList::new(alloc);
        let mut at = 0;
        while at < piece.len() {
            let (taken, gave) = self.next(&piece[at..])?;
            at += taken;
            keep(&mut send, &mut ready, &mut messages, gave)?;
        }
        Ok(PeerFed {
            send: Octets::from_vec(send)?,
            ready,
            messages,
            fault: self.fault(),
        })
    }

    /// Takes octets off the front of what is left of a piece, and tells how many: those of a body without its last one, or
    /// else one.
    fn next(&mut self, rest: &[u8]) -> Result<(usize, Gave), AllocError>
        requires spent { IsTrue self.old.spent }
        requires some { 0 < length rest.now }
        ensures taken { IfOk result (λ r. (0 < r.0) × (r.0 ≤ length rest.now)) }
        ensures talked { IfOk result (λ r. self.new.talk ≡ talked self.old.talk (take r.0 rest.now)) }
        ensures sent { IfOk result (λ r. r.1.send ≡ sent self.old.talk (take r.0 rest.now)) }
        ensures ready { IfOk result (λ r. r.1.ready ≡ identity self.old.talk (take r.0 rest.now)) }
        ensures message { IfOk result (λ r. listed r.1.message ≡ messages self.old.talk (take r.0 rest.now)) }
        ensures spent { self.new.spent ≡ self.old.spent }
    {
        let taken = self.fill(rest)?;
        if taken > 0 {
            return Ok((
                taken,
                Gave {
                    send: Octets::empty(),
                    ready: None,
                    message: None,
                },
            ));
        }
        let gave = self.octet(rest[0])?;
        Ok((1, gave))
    }

    /// Takes octets of a body, without its last one, where they show no fault.
    fn fill(&mut self, rest: &[u8]) -> Result<usize, AllocError>
        requires { IsTrue self.old.spent }
        ensures some { IfOk result (λ n. n ≤ length rest.now) }
        ensures quiet { IfOk result (λ n. IsQuiet self.old.talk (take n rest.now)) }
        ensures talked { IfOk result (λ n. self.new.talk ≡ talked self.old.talk (take n rest.now)) }
        ensures spent { self.new.spent ≡ self.old.spent }
    {
        if !hears(self.phase)
            || fault_of_begun(self.phase, &self.parts, self.reader.begun()).is_some()
        {
            return Ok(0);
        }
        let taken = self.reader.fill(rest)?;
        Ok(taken)
    }

    /// Takes an octet.
    fn octet(&mut self, x: u8) -> Result<Gave, AllocError>
        requires { IsTrue self.old.spent }
        ensures ok { IfOk result (λ gave. talk self.old.talk x ≡ (self.new.talk, gave)) }
        ensures spent { self.new.spent ≡ self.old.spent }
    {
        match self.phase {
            Phase::Greeting => {
                let gave = self.greet(x)?;
                Ok(gave)
            }
            Phase::Ended(_) => Ok(Gave {
                send: Octets::empty(),
                ready: None,
                message: None,
            }),
            _ => {
                let gave = self.hear(x)?;
                Ok(gave)
            }
        }
    }

    /// The first fault of a greeting that is whole.
    fn greeting_fault(&self) -> Result<(), FrameFault>
        requires { length self.now.talk.greeting ≡ 64 }
        ensures ok { OnOk result (greeting_fault self.now.talk.greeting ≡ None) }
        ensures err { IfErr result (λ fault. greeting_fault self.now.talk.greeting ≡ Some fault) }
    {
        match self.greeting.as_slice().as_array::<64>() {
            Some(octets) => read_greeting(octets),
            None => unreachable!(),
        }
    }

    /// Takes an octet of the greeting.
    fn greet(&mut self, x: u8) -> Result<Gave, AllocError>
        requires { IsTrue self.old.spent }
        ensures ok { IfOk result (λ gave. greet self.old.talk x ≡ (self.new.talk, gave)) }
        ensures spent { self.new.spent ≡ self.old.spent }
    {
        let mut send = Vec::new(*self.greeting.allocator());
        let last = self.greeting.len() == 63;
        self.greeting.push(x)?;
        if last {
            match self.greeting_fault() {
                Err(fault) => self.phase = Phase::Ended(PeerFault::Frame(fault)),
                Ok(()) => {
                    self.phase = Phase::Handshake;
                    write_ready(&mut send)?;
                }
            }
        } else {
            self.phase = Phase::Greeting;
        }
        Ok(Gave {
            send: Octets::from_vec(send)?,
            ready: None,
            message: None,
        })
    }

    /// Takes an octet of a frame.
    fn hear(&mut self, x: u8) -> Result<Gave, AllocError>
        requires { IsTrue self.old.spent }
        ensures ok { IfOk result (λ gave. hear self.old.talk (step self.old.talk.reader x) ≡ (self.new.talk, gave)) }
        ensures spent { self.new.spent ≡ self.old.spent }
    {
        let alloc = *self.greeting.allocator();
        let frame = self.reader.octet(x)?;
        let Heard {
            phase,
            send,
            ready,
            message,
        } = hear_frame(alloc, self.phase, &mut self.parts, frame)?;
        let fault = fault_of_begun(phase, &self.parts, self.reader.begun());
        self.phase = ended(phase, self.reader.fault(), fault);
        Ok(Gave {
            send,
            ready,
            message,
        })
    }
}
