//! Lists of frames.

ghost use Rattle.std.specs.Prelude.{◌≡◌, ◌++◌, ◌∷◌, [], ◌<◌, ◌≤◌, length, ◌↔◌, IsTrue, IfOk, OnOk, OnErr, Some, slice_get, slice_index_or};
ghost use Rattle.std.specs.Option.{option_copied};
ghost use Rattle.edges.specs.Frames.{cut, start_at, AreEnds};

use std::alloc::{AllocError, Global};
use std::marker::Model;

/// A list of octet lists, as the frames of a message. All octets stand one after another in one buffer, so that a frame
/// is copied once, where it is added, and takes no block of its own.
#[derive(Drop)]
pub struct Frames {
    octets: Vec<u8>,
    /// The place at which each frame ends.
    ends: Vec<usize>,
}

impl Model for Frames {
    ghost use Rattle.std.specs.Prelude.{List, ℕ};
    ghost use Rattle.edges.specs.Frames.{cut, AreEnds};

    ghost Value = { List (List ℕ) };

    ghost view = { λ f. cut 0 f.ends.items f.octets.items };

    ghost invariant = { λ f. AreEnds 0 f.ends.items f.octets.items };
}

/// Where the frame at a place begins.
fn start_of(ends: &[usize], place: usize) -> usize
    requires { place ≤ length ends.now }
    ensures { result ≡ start_at 0 ends.now place }
{
    if place == 0 { 0 } else { ends[place - 1] }
}

/// Where the frame at a place ends.
fn end_of(ends: &[usize], place: usize) -> usize
    requires { place < length ends.now }
    ensures { result ≡ slice_index_or ends.now place 0 }
{
    ends[place]
}

/// The frame at a place.
#[tactic(auto, using(crate::proofs::FramePlaces::cut_at, crate::proofs::FramePlaces::bounds_at))]
fn frame_in<'a>(octets: &'a [u8], ends: &[usize], place: usize) -> &'a [u8]
    requires ends { AreEnds 0 ends.now octets.now }
    requires within { place < length ends.now }
    ensures { slice_get (cut 0 ends.now octets.now) place ≡ Some result.now }
{
    let start = start_of(ends, place);
    let end = end_of(ends, place);
    &octets[start..end]
}

impl Frames {
    /// No frames. Takes no memory.
    pub fn new(alloc: Global) -> Frames
        ensures { result ≡ [] }
    {
        Frames {
            octets: Vec::new(alloc),
            ends: Vec::new(alloc),
        }
    }

    /// No frames, with room for so many and for all their octets, so that adding those takes no more memory.
    pub fn with_capacity(alloc: Global, frames: usize, octets: usize) -> Result<Frames, AllocError>
        ensures { IfOk result (λ f. f ≡ []) }
    {
        Ok(Frames {
            octets: Vec::with_capacity(alloc, octets)?,
            ends: Vec::with_capacity(alloc, frames)?,
        })
    }

    /// Adds a frame at the end.
    #[tactic(auto, using(crate::proofs::FramePlaces::cut_more, crate::proofs::FramePlaces::ends_more))]
    pub fn push(&mut self, body: &[u8]) -> Result<(), AllocError>
        ensures ok { OnOk result (self.new ≡ self.old ++ body.now ∷ []) }
        ensures err { OnErr result (self.new ≡ self.old) }
    {
        self.ends.reserve(1)?;
        self.octets.extend_from_slice(body)?;
        self.ends.push_reserved(self.octets.len());
        Ok(())
    }

    /// How many frames there are.
    #[tactic(auto, using(crate::proofs::FramePlaces::cut_length))]
    pub fn len(&self) -> usize
        ensures { result ≡ length self.now }
    {
        self.ends.len()
    }

    /// Whether there are none.
    pub fn is_empty(&self) -> bool
        ensures { IsTrue result ↔ (self.now ≡ []) }
    {
        self.len() == 0
    }

    /// The frame at a place where there is one, counted from 0.
    pub fn at(&self, place: usize) -> &[u8]
        requires { place < length self.now }
        ensures { result.now ≡ slice_index_or self.now place [] }
    {
        match self.get(place) {
            Some(frame) => frame,
            None => unreachable!(),
        }
    }

    /// The frame at a place, counted from 0.
    #[tactic(auto, using(crate::proofs::FramePlaces::cut_past))]
    pub fn get(&self, place: usize) -> Option<&[u8]>
        ensures { option_copied result ≡ slice_get self.now place }
    {
        if place >= self.ends.len() {
            return None;
        }
        Some(frame_in(&self.octets, &self.ends, place))
    }
}
