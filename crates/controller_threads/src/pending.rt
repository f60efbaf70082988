//! The links that haven't signed anything, with what ends them.

use crate::closing::Closer;
use pending_links::book::{EnteredLink, MOST_LINKS, PendingLinks};
use std::alloc::{AllocError, Global};
use std::sync::{Mutex, Wait};

/// What ends a link, by the link's number.
#[derive(Drop)]
struct Ending<C> {
    number: u64,
    closer: C,
}

/// The links and what ends each.
#[derive(Drop)]
struct Watched<C: Closer + Drop> {
    links: PendingLinks,
    endings: Vec<Ending<C>>,
    /// How many seconds were counted.
    now: u64,
}

impl<C: Closer + Drop> Watched<C> {
    /// Takes a link away, and gives what ends it.
    fn leave(&mut self, number: u64) -> Option<C> {
        self.links.leave(number);
        let place = self
            .endings
            .as_slice()
            .iter()
            .position(|ending| ending.number == number)?;
        let Ending { closer, .. } = self.endings.swap_remove(place);
        Some(closer)
    }

    /// Takes a link away, and ends it.
    fn close(&mut self, number: u64) {
        if let Some(closer) = self.leave(number) {
            closer.close();
        }
    }

    fn enter(&mut self, closer: C) -> Result<u64, AllocError> {
        let EnteredLink { number, gave_way } = self.links.enter(self.now);
        if let Some(oldest) = gave_way {
            self.close(oldest);
        }
        if self.endings.push(Ending { number, closer }).is_err() {
            self.links.leave(number);
            return Err(AllocError);
        }
        Ok(number)
    }

    /// Ends the oldest, one after another, while more octets are kept than may be.
    fn close_past_room(&mut self) {
        for _ in 0..MOST_LINKS {
            match self.links.giving_way() {
                Some(oldest) => self.close(oldest),
                None => return,
            }
        }
    }

    /// Ends all that are past their time.
    fn close_late(&mut self) {
        for _ in 0..MOST_LINKS {
            match self.links.late(self.now) {
                Some(late) => self.close(late),
                None => return,
            }
        }
    }
}

/// The links that haven't signed anything, for all threads. At most 256 are there at a time: the oldest is ended for a new
/// one. So it is where 64 MiB of octets that came are passed together.
#[derive(Drop)]
pub struct Pending<C: Closer + Drop> {
    watched: Mutex<Watched<C>>,
}

impl<C: Closer + Drop> Pending<C> {
    /// None yet.
    pub fn new(alloc: Global) -> Result<Pending<C>, AllocError> {
        Ok(Pending {
            watched: Mutex::new(Watched {
                links: PendingLinks::new(alloc)?,
                endings: Vec::with_capacity(alloc, MOST_LINKS)?,
                now: 0,
            }),
        })
    }

    /// Enters a link, and gives it a number.
    pub fn enter<R: Wait>(&self, rt: &R, closer: C) -> Result<u64, AllocError> {
        self.watched.lock(rt).enter(closer)
    }

    /// Takes a link away, and gives what ends it. `None` where it was ended.
    pub fn leave<R: Wait>(&self, rt: &R, number: u64) -> Option<C> {
        self.watched.lock(rt).leave(number)
    }

    /// Takes a link away, and ends it.
    pub fn close<R: Wait>(&self, rt: &R, number: u64) {
        self.watched.lock(rt).close(number);
    }

    /// Notes that the handshake of a link is done: it has 60 seconds in place of 10.
    pub fn note_greeting<R: Wait>(&self, rt: &R, number: u64) {
        self.watched.lock(rt).links.greeted(number);
    }

    /// Notes how many octets came on a link.
    pub fn note_octets<R: Wait>(&self, rt: &R, number: u64, octets: u64) {
        let mut watched = self.watched.lock(rt);
        watched.links.keeps(number, octets);
        watched.close_past_room();
    }

    /// Counts a second, and ends the links that are past their time.
    pub fn count_second<R: Wait>(&self, rt: &R) {
        let mut watched = self.watched.lock(rt);
        watched.now = watched.now.saturating_add(1);
        watched.close_late();
    }
}
