//! What stands behind the lock of a book.

ghost use Rattle.std.specs.Prelude.{◌≡◌, ◌<◌, ◌^◌, None};
ghost use Rattle.cluster_defs.specs.Scheduling.{due};
ghost use Rattle.cluster_defs.specs.Histories.{facts, Legal};
ghost use Rattle.controller_desk.specs.Contents.{content_of};
ghost use Rattle.controller_desk.specs.Ups.{IsSet, ups};
ghost use Rattle.run_book.specs.Halts.{IsShown};
ghost use Rattle.run_book.specs.Kept.{AreSaid};

use crate::halt::Halt;
use cluster_store::store::Store;
use disk_model::disk::Disk;
use history_lock::known::Keeps;
use std::alloc::Global;

/// A cluster whose client and whose engines are threads of one process.
#[derive(Drop)]
pub struct RunBook<D: Disk> {
    /// In a block of its own, since the lock moves its value at each turn.
    pub store: Box<Store<D>, Global>,
    /// The number of the last connection that came up since the last Open, 0 before the first.
    pub last: u32,
    /// Why the command can't go on, where a thread has noted it.
    pub halt: Option<Halt>,
    ghost set: { IsSet store.value },
    ghost counted: { last ≡ ups store.value.history },
    ghost said: { ∥ AreSaid store.value.history ∥₁ },
}

impl<D: Disk> Keeps for RunBook<D> {
    ghost use Rattle.std.specs.Prelude.{None};
    ghost use Rattle.controller_desk.specs.Contents.{content_of};
    ghost use Rattle.controller_desk.specs.Turns.{Goes};

    ghost content = { λ b. content_of D.faults b.store.value };

    ghost step = { Goes D.faults (λ b. b.store.value) };

    ghost loan = { λ _. None };
}

impl<D: Disk> RunBook<D> {
    /// The history is legal, and no decision is due.
    pub fn rest(&self)
        ensures legal { Legal self.now.store.value.history }
        ensures rests { due (facts self.now.store.value.history) ≡ None }
        ensures fulls { self.now.store.value.fulls < 2 ^ 64 }
    {
        self.store.history();
        let _fulls = self.store.fulls();
    }

    /// Notes why the command can't go on, unless something else is noted.
    pub fn note(&mut self, halt: Halt)
        ensures { self.new.store ≡ self.old.store }
    {
        if self.halt.is_none() {
            self.halt = Some(halt);
        }
    }

    /// Why the command can't go on, as far as the store shows it too: what it doesn't show counts as want of memory.
    pub fn shown_halt(&self) -> Option<Halt>
        ensures { IsShown result (content_of D.faults self.now.store.value) }
    {
        match self.halt {
            Some(Halt::DiskFault) if !self.store.failed() => Some(Halt::OutOfMemory),
            Some(Halt::HistoryFull { .. }) if self.store.fulls() == 0 => Some(Halt::OutOfMemory),
            halt => halt,
        }
    }
}
