//! A reader of frames that is fed in any pieces.

ghost use Rattle.std.specs.Prelude.{◌≡◌, IfOk, OnOk, OnErr, ◌<◌, ◌≤◌, ◌++◌, List, ℕ, [], take, length};
ghost use Rattle.zmtp_frames.specs.Stream.{start, step, reading_after, frames, begun_at, fault_at, listed, flagged, sized, IsSound, Fills, begun, first_body};

use crate::fault::FrameFault;
use crate::frame::{Begun, Body, Fed, Frame, FrameList, Head, Stage};
use cluster_types::limits::BODY_OCTETS;
use std::alloc::{AllocError, Global};
use std::marker::Model;

/// The frame with this head that isn't whole.
fn begun_by(head: Head, size: Option<u64>) -> Begun
    ensures { result ≡ begun head size }
{
    Begun {
        at: head.at,
        more: head.more,
        command: head.command,
        size,
    }
}

/// The stage behind a flags octet.
fn flagged_by(at: u64, flags: u8) -> Stage
    ensures is { result ≡ flagged at flags }
    ensures sound { IsSound result [] }
{
    let more = flags % 2 == 1;
    let command = flags / 4 % 2 == 1;
    let head = Head { at, more, command };
    if flags < 8 && !(flags / 4 == 1 && flags % 2 == 1) {
        return Stage::Sizing {
            head,
            left: if flags / 2 % 2 == 1 { 8 } else { 1 },
            size: 0,
        };
    }
    Stage::Ended {
        fault: FrameFault::BadFlags(at),
        begun: begun_by(head, None),
    }
}

/// The stage behind the last octet of a size.
fn sized_by(head: Head, size: u64) -> Stage
    ensures is { result ≡ sized head size }
    ensures sound { IsSound result [] }
{
    if size > BODY_OCTETS {
        return Stage::Ended {
            fault: FrameFault::FrameTooLong(head.at),
            begun: begun_by(head, Some(size)),
        };
    }
    if size == 0 {
        return Stage::Between;
    }
    Stage::Filling {
        head,
        size,
        left: size,
    }
}

/// The body of the first of these frames, or else this one.
fn body_before(mut whole: Vec<Frame>, body: Vec<u8>) -> Vec<u8>
    ensures { result.items ≡ first_body whole.items body.items }
{
    if whole.is_empty() {
        return body;
    }
    let first = whole.swap_remove(0);
    first.body.into_vec()
}

/// A stream of frames of which some octets came. Contracts see the place of the next octet, what stands unfinished,
/// and the octets of its body.
#[derive(Debug, Drop)]
pub struct FrameReader {
    place: u64,
    stage: Stage,
    body: Vec<u8>,
}

impl Model for FrameReader {
    ghost use Rattle.zmtp_frames.specs.Stream.{Reading, IsSound};

    ghost Value = { Reading };

    ghost view = { λ r. record { place = r.place; stage = r.stage; body = r.body.items } };

    ghost invariant = { λ r. IsSound r.stage r.body.items };
}

impl FrameReader {
    /// A reader whose first octet has the place 0. It takes no memory.
    pub fn new(alloc: Global) -> FrameReader
        ensures { result ≡ start 0 }
    {
        FrameReader::from_place(alloc, 0)
    }

    /// A reader whose first octet has this place. It takes no memory.
    pub fn from_place(alloc: Global, place: u64) -> FrameReader
        ensures { result ≡ start place }
    {
        FrameReader {
            place,
            stage: Stage::Between,
            body: Vec::new(alloc),
        }
    }

    /// Takes the body's octets out.
    fn take_body(&mut self) -> Vec<u8>
        requires { IsSound self.old.stage [] }
        ensures body { result.items ≡ self.old.body }
        ensures left { self.new ≡ record { place = self.old.place; stage = self.old.stage; body = [] } }
    {
        let alloc = *self.body.allocator();
        std::mem::replace(&mut self.body, Vec::new(alloc))
    }

    /// Takes one octet, and gives the frame that it ends.
    pub fn octet(&mut self, x: u8) -> Result<Option<Frame>, AllocError>
        ensures ok { IfOk result (λ frame. step self.old x ≡ (self.new, frame)) }
        ensures err { OnErr result (self.new ≡ self.old) }
    {
        match self.stage {
            Stage::Between => {
                self.stage = flagged_by(self.place, x);
                self.place = self.place.saturating_add(1);
                Ok(None)
            }
            Stage::Sizing { head, left, size } => Ok(self.size_octet(head, left, size, x)),
            Stage::Filling { head, size, left } => self.body_octet(head, size, left, x),
            Stage::Ended { .. } => Ok(None),
        }
    }

    /// Takes an octet of a size.
    fn size_octet(&mut self, head: Head, left: u64, size: u64, x: u8) -> Option<Frame>
        requires stage { self.old.stage ≡ Stage.Sizing head left size }
        requires sound { IsSound (Stage.Sizing head left size) self.old.body }
        ensures { step self.old x ≡ (self.new, result) }
    {
        let size = 256 * size + x as u64;
        self.place = self.place.saturating_add(1);
        if left == 1 {
            self.stage = sized_by(head, size);
            if size == 0 {
                return Some(Frame {
                    at: head.at,
                    more: head.more,
                    command: head.command,
                    body: Body::from_vec(Vec::new(*self.body.allocator())),
                });
            }
            return None;
        }
        self.stage = Stage::Sizing {
            head,
            left: left - 1,
            size,
        };
        None
    }

    /// Takes an octet of a body.
    fn body_octet(
        &mut self,
        head: Head,
        size: u64,
        left: u64,
        x: u8,
    ) -> Result<Option<Frame>, AllocError>
        requires stage { self.old.stage ≡ Stage.Filling head size left }
        requires sound { IsSound (Stage.Filling head size left) self.old.body }
        ensures ok { IfOk result (λ frame. step self.old x ≡ (self.new, frame)) }
        ensures err { OnErr result (self.new ≡ self.old) }
    {
        self.body.push(x)?;
        self.place = self.place.saturating_add(1);
        if left == 1 {
            let body = self.take_body();
            self.stage = Stage::Between;
            return Ok(Some(Frame {
                at: head.at,
                more: head.more,
                command: head.command,
                body: Body::from_vec(body),
            }));
        }
        self.stage = Stage::Filling {
            head,
            size,
            left: left - 1,
        };
        Ok(None)
    }

    /// Takes octets of a body off the front of a piece, without its last one, and tells how many. There are none where no
    /// body is begun.
    pub fn fill(&mut self, piece: &[u8]) -> Result<usize, AllocError>
        ensures after { IfOk result (λ n. self.new ≡ reading_after self.old (take n piece.now)) }
        ensures fills { IfOk result (λ n. Fills self.old.stage n) }
        ensures some { IfOk result (λ n. n ≤ length piece.now) }
        ensures err { OnErr result (self.new ≡ self.old) }
    {
        match self.stage {
            Stage::Filling { head, size, left } => self.fill_body(head, size, left, piece),
            _ => Ok(0),
        }
    }

    fn fill_body(
        &mut self,
        head: Head,
        size: u64,
        left: u64,
        piece: &[u8],
    ) -> Result<usize, AllocError>
        requires stage { self.old.stage ≡ Stage.Filling head size left }
        requires sound { IsSound (Stage.Filling head size left) self.old.body }
        ensures after { IfOk result (λ n. self.new ≡ reading_after self.old (take n piece.now)) }
        ensures fills { IfOk result (λ n. n < left) }
        ensures some { IfOk result (λ n. n ≤ length piece.now) }
        ensures err { OnErr result (self.new ≡ self.old) }
    {
        let taken = (left - 1).min(piece.len() as u64);
        let octets = &piece[..taken as usize];
        self.body.extend_from_slice(octets)?;
        self.place = self.place.saturating_add(taken);
        self.stage = Stage::Filling {
            head,
            size,
            left: left - taken,
        };
        Ok(taken as usize)
    }

    /// The frame that is begun and isn't whole.
    pub fn begun(&self) -> Option<Begun>
        ensures { result ≡ begun_at self.now.stage }
    {
        match self.stage {
            Stage::Between => None,
            Stage::Sizing { head, .. } => Some(begun_by(head, None)),
            Stage::Filling { head, size, .. } => Some(begun_by(head, Some(size))),
            Stage::Ended { begun, .. } => Some(begun),
        }
    }

    /// The first fault of the stream.
    pub fn fault(&self) -> Option<FrameFault>
        ensures { result ≡ fault_at self.now.stage }
    {
        match self.stage {
            Stage::Ended { fault, .. } => Some(fault),
            _ => None,
        }
    }

    /// What always holds.
    fn is_sound(&self)
        ensures { IsSound self.now.stage self.now.body }
    {
        let _place = self.place;
    }

    /// Takes one octet, and adds the frame that it ends.
    fn add_octet(&mut self, x: u8, whole: &mut Vec<Frame>) -> Result<(), AllocError>
        ensures after { OnOk result (self.new ≡ (step self.old x).0) }
        ensures frames { OnOk result (whole.new.items ≡ whole.old.items ++ listed (step self.old x).1) }
        ensures kept { (rest : List ℕ) × (first_body whole.new.items self.new.body ≡ first_body whole.old.items self.old.body ++ rest) }
    {
        self.is_sound();
        whole.reserve(1)?;
        if let Some(frame) = self.octet(x)? {
            whole.push_reserved(frame);
        }
        Ok(())
    }

    /// Takes all octets of a piece. What came of the body that began before stands in the first frame, or is still
    /// the reader's.
    fn octets(&mut self, piece: &[u8], whole: &mut Vec<Frame>) -> Result<(), AllocError>
        requires { whole.old.items ≡ [] }
        ensures after { OnOk result (self.new ≡ reading_after self.old piece.now) }
        ensures frames { OnOk result (whole.new.items ≡ frames self.old piece.now) }
        ensures kept { take (length self.old.body) (first_body whole.new.items self.new.body) ≡ self.old.body }
    {
        for x in piece {
            self.add_octet(*x, whole)?;
        }
        Ok(())
    }

    /// Takes the next piece of the stream. Where memory is wanting, the reader is as it was before the call.
    pub fn feed(&mut self, piece: &[u8]) -> Result<Fed, AllocError>
        ensures after { OnOk result (self.new ≡ reading_after self.old piece.now) }
        ensures frames { IfOk result (λ fed. fed.frames ≡ frames self.old piece.now) }
        ensures begun { IfOk result (λ fed. fed.begun ≡ begun_at self.new.stage) }
        ensures fault { IfOk result (λ fed. fed.fault ≡ fault_at self.new.stage) }
        ensures err { OnErr result (self.new ≡ self.old) }
    {
        let place = self.place;
        let stage = self.stage;
        let came = self.body.len();
        let mut whole = Vec::new(*self.body.allocator());
        match self.octets(piece, &mut whole) {
            Ok(()) => Ok(Fed {
                frames: FrameList::from_vec(whole),
                begun: self.begun(),
                fault: self.fault(),
            }),
            Err(error) => {
                self.take_back(place, stage, came, whole);
                Err(error)
            }
        }
    }

    /// Puts the reader back to where it stood before these frames.
    fn take_back(&mut self, place: u64, stage: Stage, came: usize, whole: Vec<Frame>)
        requires { IsSound stage (take came (first_body whole.items self.old.body)) }
        ensures { self.new ≡ record { place = place; stage = stage; body = take came (first_body whole.items self.old.body) } }
    {
        let alloc = *self.body.allocator();
        let body = std::mem::replace(&mut self.body, Vec::new(alloc));
        let mut body = body_before(whole, body);
        body.truncate(came);
        self.place = place;
        self.stage = stage;
        self.body = body;
    }
}
