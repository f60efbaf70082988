//! Sets of places by number: a lane for each number that has any.

ghost use Rattle.std.specs.Prelude.{◌≡◌, ℕ, true, false, is_some, IfOk, OnOk, OnErr};
ghost use Rattle.std.specs.BTreeMap.{get};
ghost use Rattle.std.specs.Ordering.{nat_cmp};
ghost use Rattle.place_sets.specs.Lanes.{in_lane, places_in, LanesGrow, LanesWithout};

use std::alloc::{AllocError, Global};
use std::collections::{BTreeMap, BTreeSet};
use std::marker::Model;

/// For each number a set of places. A number without places takes no memory.
#[derive(Drop)]
pub struct Lanes {
    lanes: BTreeMap<u64, BTreeSet<usize>>,
    alloc: Global,
}

impl Model for Lanes {
    ghost use Rattle.place_sets.specs.Lanes.{LaneList};

    ghost Value = { LaneList };

    ghost view = { λ l. l.lanes.entries };
}

/// Adds a place to the lane of a number, where there is one, and tells whether there is.
fn extend(
    lanes: &mut BTreeMap<u64, BTreeSet<usize>>,
    number: u64,
    place: usize,
) -> Result<bool, AllocError>
    ensures there { IfOk result (λ b. b ≡ true → in_lane lanes.new.entries number place ≡ true) }
    ensures none { IfOk result (λ b. b ≡ false → get nat_cmp lanes.new number ≡ None) }
    ensures grow { LanesGrow lanes.old.entries lanes.new.entries }
    ensures only { LanesWithout number place lanes.new.entries lanes.old.entries }
{
    match lanes.get_mut(&number) {
        Some(lane) => {
            lane.insert(place)?;
            Ok(true)
        }
        None => Ok(false),
    }
}

/// Begins the lane of a number, which has none.
fn begin(
    lanes: &mut BTreeMap<u64, BTreeSet<usize>>,
    alloc: Global,
    number: u64,
    place: usize,
) -> Result<(), AllocError>
    requires { get nat_cmp lanes.old number ≡ None }
    ensures there { OnOk result (in_lane lanes.new.entries number place ≡ true) }
    ensures grow { LanesGrow lanes.old.entries lanes.new.entries }
    ensures only { LanesWithout number place lanes.new.entries lanes.old.entries }
{
    let mut lane = BTreeSet::new(alloc);
    lane.insert(place)?;
    lanes.insert(number, lane)?;
    Ok(())
}

/// Takes a place out of the lane of a number, and tells whether the lane has none left.
fn shorten(lanes: &mut BTreeMap<u64, BTreeSet<usize>>, number: u64, place: usize) -> bool
    ensures stay { LanesWithout number place lanes.old.entries lanes.new.entries }
    ensures gone { in_lane lanes.new.entries number place ≡ false }
    ensures only { LanesGrow lanes.new.entries lanes.old.entries }
    ensures none { result ≡ true → (i : ℕ) → in_lane lanes.new.entries number i ≡ false }
{
    match lanes.get_mut(&number) {
        Some(lane) => {
            lane.remove(&place);
            lane.is_empty()
        }
        None => false,
    }
}

impl Lanes {
    /// No places. It takes no memory.
    pub fn new(alloc: Global) -> Lanes
        ensures { (n : ℕ) (i : ℕ) → in_lane result n i ≡ false }
    {
        Lanes {
            lanes: BTreeMap::new(alloc),
            alloc,
        }
    }

    /// The lanes, by number.
    pub fn as_map(&self) -> &BTreeMap<u64, BTreeSet<usize>>
        ensures { result.now.entries ≡ self.now }
    {
        &self.lanes
    }

    /// The places in the lane of a number, ascending.
    pub fn places(&self, alloc: Global, number: u64) -> Result<Vec<usize>, AllocError>
        ensures { IfOk result (λ v. v.items ≡ places_in self.now number) }
    {
        match self.lanes.get(&number) {
            Some(lane) => lane.iter().copied().collect(alloc),
            None => Ok(Vec::new(alloc)),
        }
    }

    /// Adds a place to the lane of a number.
    pub fn add(&mut self, number: u64, place: usize) -> Result<(), AllocError>
        ensures there { OnOk result (in_lane self.new number place ≡ true) }
        ensures grow { LanesGrow self.old self.new }
        ensures only { LanesWithout number place self.new self.old }
    {
        if !extend(&mut self.lanes, number, place)? {
            begin(&mut self.lanes, self.alloc, number, place)?;
        }
        Ok(())
    }

    /// Takes a place out of the lane of a number.
    pub fn leave_out(&mut self, number: u64, place: usize)
        ensures stay { LanesWithout number place self.old self.new }
        ensures gone { in_lane self.new number place ≡ false }
        ensures only { LanesGrow self.new self.old }
    {
        if shorten(&mut self.lanes, number, place) {
            self.lanes.remove(&number);
        }
    }
}
