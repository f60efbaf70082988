//! The comparison of two texts that come in pieces.

ghost use Rattle.std.specs.Prelude.{◌≡◌, ◌↔◌, ℕ, ◌+◌, List, [], ◌++◌, length, drop, min, IfOk, OnOk, OnErr, IsNone, option_map};
ghost use Rattle.database_text.specs.Comparison.{Stand, counted, end_difference, first_difference};

use crate::seen::Seen;
use bytes::BytesMut;
use std::alloc::{AllocError, Global};
use std::marker::Model;

/// What came of two texts, an input and what is printed, of which contracts see all. Only what one of them is ahead
/// of the other is kept, and nothing once they differ.
///
/// Places are counted in octets, from 0. Where a place doesn't fit into 64 bits, the greatest number stands for it.
#[derive(Drop)]
pub struct Comparison {
    input: Seen,
    printed: Seen,
    difference: Option<u64>,
    same: u64,
    input_ahead: BytesMut,
    printed_ahead: BytesMut,
}

impl Model for Comparison {
    ghost use Rattle.database_text.specs.Comparison.{Stand, Texts};

    ghost Value = { Texts };

    ghost view = { λ c. record { input = c.input.octets; printed = c.printed.octets } };

    ghost invariant = { λ c. Stand c.input.octets c.printed.octets c.difference c.same c.input_ahead.items c.printed_ahead.items };
}

/// A place so many octets on.
fn place_on(place: u64, octets: usize) -> u64
    ensures { result ≡ counted (place + octets) }
{
    place.saturating_add(octets as u64)
}

/// The first place within both at which two texts differ.
fn first_difference(xs: &[u8], ys: &[u8]) -> Option<usize>
    ensures { result ≡ first_difference 0 xs.now ys.now }
{
    for place in 0..xs.len().min(ys.len()) {
        if xs[place] != ys[place] {
            return Some(place);
        }
    }
    None
}

/// Takes the front of a piece off what the other text is ahead, keeps the rest of the piece, and says how long that
/// front is.
fn move_on(
    own_ahead: &mut BytesMut,
    other_ahead: &mut BytesMut,
    piece: &[u8],
) -> Result<usize, AllocError>
    ensures front { IfOk result (λ n. n ≡ min (length piece.now) (length other_ahead.old.items)) }
    ensures own { IfOk result (λ n. own_ahead.new.items ≡ own_ahead.old.items ++ drop n piece.now) }
    ensures other { IfOk result (λ n. other_ahead.new.items ≡ drop n other_ahead.old.items) }
    ensures err { OnErr result ((own_ahead.new.items ≡ own_ahead.old.items) × (other_ahead.new.items ≡ other_ahead.old.items)) }
{
    let front = piece.len().min(other_ahead.len());
    own_ahead.extend_from_slice(&piece[front..])?;
    other_ahead.advance(front);
    Ok(front)
}

/// Takes a piece of one of two texts.
fn feed(
    difference: &mut Option<u64>,
    same: &mut u64,
    own_ahead: &mut BytesMut,
    other_ahead: &mut BytesMut,
    piece: &[u8],
) -> Result<(), AllocError>
    ensures ok { (own other : List ℕ) → Stand own other difference.old same.old own_ahead.old.items other_ahead.old.items
        → OnOk result (Stand (own ++ piece.now) other difference.new same.new own_ahead.new.items other_ahead.new.items) }
    ensures err { OnErr result ((difference.new ≡ difference.old) × (same.new ≡ same.old) × (own_ahead.new.items ≡ own_ahead.old.items) × (other_ahead.new.items ≡ other_ahead.old.items)) }
{
    if difference.is_some() {
        return Ok(());
    }
    if let Some(place) = first_difference(piece, other_ahead.as_slice()) {
        *difference = Some(place_on(*same, place));
        *own_ahead = BytesMut::new(*own_ahead.allocator());
        *other_ahead = BytesMut::new(*other_ahead.allocator());
        return Ok(());
    }
    let front = move_on(own_ahead, other_ahead, piece)?;
    *same = place_on(*same, front);
    Ok(())
}

impl Comparison {
    /// Nothing has come, which takes no memory.
    pub fn new(alloc: Global) -> Comparison
        ensures { result ≡ record { input = []; printed = [] } }
    {
        Comparison {
            input: Seen::new(),
            printed: Seen::new(),
            difference: None,
            same: 0,
            input_ahead: BytesMut::new(alloc),
            printed_ahead: BytesMut::new(alloc),
        }
    }

    /// Takes a piece of the input.
    pub fn feed_input(&mut self, piece: &[u8]) -> Result<(), AllocError>
        ensures ok { OnOk result (self.new ≡ record self.old { input = self.old.input ++ piece.now }) }
        ensures err { OnErr result (self.new ≡ self.old) }
    {
        feed(
            &mut self.difference,
            &mut self.same,
            &mut self.input_ahead,
            &mut self.printed_ahead,
            piece,
        )?;
        self.input.add(piece);
        Ok(())
    }

    /// Takes a piece of what is printed.
    pub fn feed_printed(&mut self, piece: &[u8]) -> Result<(), AllocError>
        ensures ok { OnOk result (self.new ≡ record self.old { printed = self.old.printed ++ piece.now }) }
        ensures err { OnErr result (self.new ≡ self.old) }
    {
        feed(
            &mut self.difference,
            &mut self.same,
            &mut self.printed_ahead,
            &mut self.input_ahead,
            piece,
        )?;
        self.printed.add(piece);
        Ok(())
    }

    /// The first place within both texts at which they differ so far.
    pub fn difference(&self) -> Option<u64>
        ensures { result ≡ option_map counted (first_difference 0 self.now.input self.now.printed) }
    {
        self.difference
    }

    /// The first place at which the texts differ where no more comes: none where they are equal, and the end of the
    /// shorter one where it is a front of the other.
    pub fn end(&self) -> Option<u64>
        ensures place { result ≡ option_map counted (end_difference 0 self.now.input self.now.printed) }
        ensures equal { IsNone result ↔ (self.now.input ≡ self.now.printed) }
    {
        if self.difference.is_some() {
            return self.difference;
        }
        if self.input_ahead.len().max(self.printed_ahead.len()) == 0 {
            return None;
        }
        Some(self.same)
    }
}
