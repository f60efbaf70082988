//! The places of the tasks that wait for each id.

ghost use Rattle.std.specs.Prelude.{◌≡◌, ℕ, List, [], None, is_some, true, false, OnOk, OnErr, IfOk, bytes_eq};
ghost use Rattle.std.specs.HashMap.{get_by_text};
ghost use Rattle.std.specs.List.Sorted.{IsStrictlySortedBy};
ghost use Rattle.std.specs.Ordering.{nat_cmp};
ghost use Rattle.task_graph.specs.Listing.{waiting_for, is_waiting, lists, Noted, NotedInPart, TakenOut, SameBut, SameWaits};
ghost use Rattle.place_sets.specs.Sets.{has};

use cluster_types::text::Text;
use place_sets::places::{add, has, leave_out, members};
use std::alloc::{AllocError, Global};
use std::collections::{BTreeSet, HashMap};
use std::marker::Model;

/// For each id the places of the tasks that wait for it, each once. Ids that aren't known yet are as good as others.
#[derive(Drop)]
pub struct Waiters {
    sets: HashMap<String, BTreeSet<usize>>,
    alloc: Global,
}

impl Model for Waiters {
    ghost use Rattle.task_graph.specs.Listing.{Waits};

    ghost Value = { Waits };

    ghost view = { λ w. w.sets.entries };
}

/// Adds a place to the set of an id, where it has one, and tells whether it has.
fn extend(
    sets: &mut HashMap<String, BTreeSet<usize>>,
    id: &Text,
    place: usize,
) -> Result<bool, AllocError>
    ensures there { IfOk result (λ b. b ≡ is_some (get_by_text sets.old id.now)) }
    ensures ok { IfOk result (λ b. b ≡ true → Noted (bytes_eq id.now) place sets.old.entries sets.new.entries) }
    ensures none { IfOk result (λ b. b ≡ false → sets.new ≡ sets.old) }
    ensures err { OnErr result (SameWaits sets.old.entries sets.new.entries) }
{
    match sets.get_mut(id.as_str()) {
        Some(set) => {
            add(set, place)?;
            Ok(true)
        }
        None => Ok(false),
    }
}

/// A set of one place.
fn alone(alloc: Global, place: usize) -> Result<BTreeSet<usize>, AllocError>
    ensures there { IfOk result (λ s. has s place ≡ true) }
    ensures only { IfOk result (λ s. (i : ℕ) → (i ≡ place → ⊥) → has s i ≡ false) }
{
    let mut set = BTreeSet::new(alloc);
    add(&mut set, place)?;
    Ok(set)
}

/// Begins the set of an id, which has none.
fn begin(
    sets: &mut HashMap<String, BTreeSet<usize>>,
    alloc: Global,
    id: &Text,
    place: usize,
) -> Result<(), AllocError>
    requires { get_by_text sets.old id.now ≡ None }
    ensures ok { OnOk result (Noted (bytes_eq id.now) place sets.old.entries sets.new.entries) }
    ensures err { OnErr result (SameWaits sets.old.entries sets.new.entries) }
{
    let key = String::from_str(alloc, id.as_str())?;
    let set = alone(alloc, place)?;
    sets.insert(key, set)?;
    Ok(())
}

/// Takes a place out of the set of an id, where it has one.
fn shorten(sets: &mut HashMap<String, BTreeSet<usize>>, id: &Text, place: usize)
    ensures { TakenOut (bytes_eq id.now) place sets.old.entries sets.new.entries }
{
    if let Some(set) = sets.get_mut(id.as_str()) {
        leave_out(set, place);
    }
}

impl Waiters {
    /// No tasks. It takes no memory.
    pub fn new(alloc: Global) -> Waiters
        ensures { (id : List ℕ) (place : ℕ) → is_waiting result id place ≡ false }
    {
        Waiters {
            sets: HashMap::new(alloc),
            alloc,
        }
    }

    /// The places of the tasks that wait for an id, ascending.
    pub fn of(&self, id: &Text) -> Result<Vec<usize>, AllocError>
        ensures places { IfOk result (λ v. v.items ≡ waiting_for self.now id.now) }
        ensures sorted { OnOk result (IsStrictlySortedBy nat_cmp (waiting_for self.now id.now)) }
    {
        match self.sets.get(id.as_str()) {
            Some(set) => {
                let places = members(self.alloc, set)?;
                Ok(places)
            }
            None => Ok(Vec::new(self.alloc)),
        }
    }

    /// Whether the task at a place waits for an id.
    pub fn is_waiting(&self, id: &Text, place: usize) -> bool
        ensures { result ≡ is_waiting self.now id.now place }
    {
        match self.sets.get(id.as_str()) {
            Some(set) => has(set, place),
            None => false,
        }
    }

    /// Notes that the task at a place waits for an id.
    pub fn add(&mut self, id: &Text, place: usize) -> Result<(), AllocError>
        ensures ok { OnOk result (Noted (bytes_eq id.now) place self.old self.new) }
        ensures err { OnErr result (SameWaits self.old self.new) }
    {
        if !extend(&mut self.sets, id, place)? {
            begin(&mut self.sets, self.alloc, id, place)?;
        }
        Ok(())
    }

    /// Notes that it waits for each of some ids. Where memory is wanting that is noted of the first of them alone.
    pub fn add_all(&mut self, ids: &[Text], place: usize) -> Result<(), AllocError>
        ensures ok { OnOk result (Noted (lists ids.now) place self.old self.new) }
        ensures err { OnErr result (SameBut (lists ids.now) place self.old self.new) }
        ensures part { OnErr result (NotedInPart ids.now place self.old self.new) }
    {
        for id in ids {
            self.add(id, place)?;
        }
        Ok(())
    }

    /// Takes out that the task at a place waits for an id.
    pub fn take_out(&mut self, id: &Text, place: usize)
        ensures { TakenOut (bytes_eq id.now) place self.old self.new }
    {
        shorten(&mut self.sets, id, place);
    }

    /// Takes out that it waits for any of some ids.
    pub fn take_out_all(&mut self, ids: &[Text], place: usize)
        ensures { TakenOut (lists ids.now) place self.old self.new }
    {
        for id in ids {
            self.take_out(id, place);
        }
    }
}
