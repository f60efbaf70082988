//! All links that haven't signed anything.

ghost use Rattle.std.specs.Prelude.{◌≡◌, ◌==◌, ◌<◌, ◌≤◌, ◌+◌, ◌-◌, ◌++◌, ◌∷◌, ◌^◌, [], not, min, map, filter, find, option_map, IfOk};
ghost use Rattle.std.specs.List.{list_any};
ghost use Rattle.std.specs.Vec.{vec_capacity, vec_len};
ghost use Rattle.pending_links.specs.Pending.{Pending, given_way, is_late, kept_octets, giving_way, new_link, room_made, with_greeting, with_octets};

use crate::link;
use crate::link::{PendingLink, is_late};
use std::alloc::{AllocError, Global};
use std::marker::Model;

/// How many links may be there at a time.
pub const MOST_LINKS: usize = 256;

/// How many octets may be kept of all of them together.
pub const MOST_OCTETS: u64 = 67_108_864;

/// A link that was entered.
#[derive(Clone, Copy, Debug, PartialEq, Eq)]
pub struct EnteredLink {
    pub number: u64,
    /// The number of the link that gave way to it, where there was no room for one more.
    pub gave_way: Option<u64>,
}

/// The links that haven't signed anything, the oldest first. But for `new` no call takes memory.
#[derive(Drop)]
pub struct PendingLinks {
    links: Vec<PendingLink>,
    next: u64,
}

impl Model for PendingLinks {
    ghost use Rattle.std.specs.Prelude.{◌≤◌};
    ghost use Rattle.std.specs.Vec.{vec_capacity, vec_len};
    ghost use Rattle.pending_links.specs.Pending.{Pending};

    ghost Value = { Pending };

    ghost view = { λ p. record { links = p.links.items; next = p.next } };

    ghost invariant = { λ p. (vec_len p.links ≤ 256) × (256 ≤ vec_capacity p.links) };
}

/// Notes of the links of a number that their greeting is done.
fn note_greetings(links: &mut [PendingLink], number: u64)
    ensures { links.new ≡ map (with_greeting number) links.old }
{
    for place in 0..links.len() {
        links[place] = link::with_greeting(links[place], number);
    }
}

/// Notes of the links of a number how many octets are kept of them.
fn note_all_octets(links: &mut [PendingLink], number: u64, octets: u64)
    ensures { links.new ≡ map (with_octets number octets) links.old }
{
    for place in 0..links.len() {
        links[place] = link::with_octets(links[place], number, octets);
    }
}

/// How many octets are kept of all of these links, as far as 64 bits tell.
fn kept_octets(links: &[PendingLink]) -> u64
    ensures { result ≡ min (kept_octets links.now) (2 ^ 64 - 1) }
{
    let mut octets = 0u64;
    for link in links {
        octets = octets.saturating_add(link.octets);
    }
    octets
}

/// Whether a link has this number.
fn has_number(links: &[PendingLink], number: u64) -> bool
    ensures { result ≡ list_any (λ l. l.number == number) links.now }
{
    links.iter().any(|l| l.number == number)
}

/// Drops the links of a number.
fn drop_number(links: &mut Vec<PendingLink>, number: u64)
    ensures links { links.new.items ≡ filter (λ l. not (l.number == number)) links.old.items }
    ensures fewer { vec_len links.new ≤ vec_len links.old }
    ensures capacity { vec_capacity links.new ≡ vec_capacity links.old }
{
    links.retain(|l| l.number != number);
}

/// Takes the oldest link away, where there is no room for one more.
fn make_room(links: &mut Vec<PendingLink>) -> Option<u64>
    requires few { vec_len links.old ≤ 256 }
    ensures way { result ≡ given_way links.old.items }
    ensures links { links.new.items ≡ room_made links.old.items }
    ensures room { vec_len links.new < 256 }
    ensures capacity { vec_capacity links.new ≡ vec_capacity links.old }
{
    if links.len() < MOST_LINKS {
        return None;
    }
    Some(links.remove(0).number)
}

impl PendingLinks {
    /// None yet.
    pub fn new(alloc: Global) -> Result<PendingLinks, AllocError>
        ensures { IfOk result (λ p. p ≡ record { links = []; next = 0 }) }
    {
        Ok(PendingLinks {
            links: Vec::with_capacity(alloc, MOST_LINKS)?,
            next: 0,
        })
    }

    /// Enters a link that comes in this second. Where there is no room for one more the oldest gives way to it.
    pub fn enter(&mut self, now: u64) -> EnteredLink
        ensures number { result.number ≡ self.old.next }
        ensures way { result.gave_way ≡ given_way self.old.links }
        ensures links { self.new.links ≡ room_made self.old.links ++ new_link self.old.next now ∷ [] }
        ensures next { self.new.next ≡ min (self.old.next + 1) (2 ^ 64 - 1) }
    {
        let gave_way = make_room(&mut self.links);
        let number = self.next;
        self.next = number.saturating_add(1);
        self.links.push_reserved(PendingLink {
            number,
            since: now,
            greeted: false,
            octets: 0,
        });
        EnteredLink { number, gave_way }
    }

    /// Takes a link away. It tells whether it was there.
    pub fn leave(&mut self, number: u64) -> bool
        ensures there { result ≡ list_any (λ l. l.number == number) self.old.links }
        ensures links { self.new.links ≡ filter (λ l. not (l.number == number)) self.old.links }
        ensures next { self.new.next ≡ self.old.next }
    {
        let is_there = has_number(self.links.as_slice(), number);
        drop_number(&mut self.links, number);
        is_there
    }

    /// Notes that the greeting of a link is done.
    pub fn greeted(&mut self, number: u64)
        ensures { self.new ≡ record self.old { links = map (with_greeting number) self.old.links } }
    {
        note_greetings(self.links.as_mut_slice(), number);
    }

    /// Notes how many octets are kept of a link.
    pub fn keeps(&mut self, number: u64, octets: u64)
        ensures { self.new ≡ record self.old { links = map (with_octets number octets) self.old.links } }
    {
        note_all_octets(self.links.as_mut_slice(), number, octets);
    }

    /// The number of the oldest link, where more octets are kept of all together than may be.
    pub fn giving_way(&self) -> Option<u64>
        ensures { result ≡ giving_way self.now.links }
    {
        if kept_octets(self.links.as_slice()) <= MOST_OCTETS {
            return None;
        }
        match self.links.as_slice().first() {
            Some(oldest) => Some(oldest.number),
            None => None,
        }
    }

    /// The number of the oldest link that is past its time.
    pub fn late(&self, now: u64) -> Option<u64>
        ensures { result ≡ option_map (λ l. l.number) (find (is_late now) self.now.links) }
    {
        let late = self.links.as_slice().iter().find(|l| is_late(*l, now));
        match late {
            Some(link) => Some(link.number),
            None => None,
        }
    }
}
