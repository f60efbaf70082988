//! What stands behind the lock of a desk.

ghost use Rattle.std.specs.Prelude.{◌≡◌, ◌<◌, ◌^◌, None};
ghost use Rattle.cluster_defs.specs.Scheduling.{due};
ghost use Rattle.cluster_defs.specs.Histories.{facts, Legal};
ghost use Rattle.controller_desk.specs.Ups.{IsSet, ups};

use crate::stamp::Stamp;
use cluster_store::store::Store;
use disk_model::disk::Disk;
use history_lock::known::Keeps;
use std::alloc::Global;
use thread_edges::clock::Clock;
use thread_edges::words::Words;

/// A store with what its steps draw on.
#[derive(Drop)]
pub struct Locked<D: Disk, C: Clock, W: Words> {
    /// In a block of its own, since the lock moves its value at each turn.
    pub store: Box<Store<D>, Global>,
    pub clock: C,
    pub words: W,
    /// The number of the last connection that came up since the last Open, 0 before the first.
    pub last: u32,
    ghost set: { IsSet store.value },
    ghost counted: { last ≡ ups store.value.history },
}

impl<D: Disk, C: Clock, W: Words> Keeps for Locked<D, C, W> {
    ghost use Rattle.std.specs.Prelude.{None};
    ghost use Rattle.controller_desk.specs.Contents.{content_of};
    ghost use Rattle.controller_desk.specs.Turns.{Goes};

    ghost content = { λ l. content_of D.faults l.store.value };

    ghost step = { Goes D.faults (λ l. l.store.value) };

    ghost loan = { λ _. None };
}

impl<D: Disk, C: Clock + Drop, W: Words + Drop> Locked<D, C, W> {
    /// Draws a moment and a word.
    pub fn draw(&mut self) -> Stamp
        ensures store { self.new.store ≡ self.old.store }
        ensures last { self.new.last ≡ self.old.last }
        ensures fulls { self.old.store.value.fulls < 2 ^ 64 }
    {
        let moment = self.clock.now().millis;
        let word = self.words.next();
        let _fulls = self.store.fulls();
        Stamp { moment, word }
    }

    /// The history is legal, and no decision is due.
    pub fn rest(&self)
        ensures legal { Legal self.now.store.value.history }
        ensures rests { due (facts self.now.store.value.history) ≡ None }
    {
        self.store.history();
    }
}
