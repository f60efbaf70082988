//! The calls of threads. Each but those on passes is one turn at the lock.

ghost use Rattle.std.specs.Prelude.{◌≡◌, ◌<◌, ◌≤◌, ◌+◌, ◌↔◌, [], length, filter, IfOk, IfSome, IsErr, OnOk, OnErr};
ghost use Rattle.record_codec.specs.Spelling.{IsShort};
ghost use Rattle.history_lock.specs.History.{Extends};
ghost use Rattle.history_lock.specs.Rule.{without_turn, whole, split_kept, split_given};
ghost use Rattle.history_lock.specs.Names.{known, room_of, lock_id, IsIdle};
ghost use Rattle.controller_desk.specs.Calls.{HasActed, HasOpened, HasTaken, HasFlushed, has_news};
ghost use Rattle.controller_desk.specs.Contents.{content_of};
ghost use Rattle.controller_desk.specs.Turns.{TakesTurn, IsBack};
ghost use Rattle.controller_desk.specs.Ups.{IsSet, ups};
ghost use Rattle.run_book.specs.Halts.{IsShown};
ghost use Rattle.run_book.specs.Kept.{MayCome, AreSaid, WasPassed, passed_in};

use crate::halt::Halt;
use crate::kept::RunBook;
use crate::lent::{act_on, open_on};
use cluster_store::store::Store;
use cluster_store::taken::Taken;
use cluster_types::config::Channel;
use controller_desk::acted::Acted;
use controller_desk::fault::ActError;
use controller_desk::lent::{flush_on, keep_news_on, take_on};
use controller_desk::reading::Reading;
use disk_model::disk::Disk;
use history_lock::lock::{HistoryLock, NoPass, Pass};
use load_schemes::chooser::Chooser;
use std::alloc::{AllocError, Global};
use std::sync::Wait;
use task_journal::fault::AppendFault;

/// The number of the client's connection, which comes up first. All others are engines'.
pub const CLIENT: u32 = 1;

/// A cluster that the threads of one command use by passes.
#[derive(Drop)]
pub struct Book<D: Disk> {
    pub lock: HistoryLock<RunBook<D>>,
}

impl<D: Disk + Drop> Book<D> {
    /// A book over a store on which no connection came up since the last Open, and its first pass, for so many passes in all.
    pub fn new(
        alloc: Global,
        store: Store<D>,
        passes: u32,
    ) -> Result<(Book<D>, Pass<RunBook<D>>), AllocError>
        requires passes { (0 < passes) × (passes ≤ 4096) }
        requires set { IsSet store }
        requires fresh { ups store.history ≡ 0 }
        requires said { ∥ AreSaid store.history ∥₁ }
        ensures lock { IfOk result (λ r. IsIdle (lock_id r.0.lock) r.1) }
        ensures room { IfOk result (λ r. room_of r.1 + 1 ≡ passes) }
        ensures known { IfOk result (λ r. known r.1 ≡ without_turn whole (content_of D.faults store) []) }
    {
        let Ok(store) = Box::new(alloc, store) else {
            return Err(AllocError);
        };
        let book = RunBook {
            store,
            last: 0,
            halt: None,
        };
        let (lock, pass) = HistoryLock::new(alloc, book, passes)?;
        Ok((Book { lock }, pass))
    }

    /// Brings up a connection with the next number of this opening, from 1.
    pub fn open_conn<R: Wait>(
        &self,
        rt: &R,
        pass: &mut Pass<RunBook<D>>,
        chooser: &Chooser,
        channel: Channel,
        identity: &[u8],
    ) -> Result<u32, ActError>
        requires idle { IsIdle (lock_id self.now.lock) pass.old }
        requires identity { length identity.now < 256 }
        ensures back { IsBack (lock_id self.now.lock) pass.old pass.new }
        ensures turn { TakesTurn D.faults (λ b. b.store.value) (λ before after. HasOpened before 0 0 channel identity.now result after) pass.old pass.new }
    {
        let mut book = self.lock.enter(rt, pass);
        book.rest();
        let mut last = book.last;
        let result = open_on(&mut book.store, chooser, &mut last, channel, identity);
        book.last = last;
        book.rest();
        self.lock.leave(pass, book);
        result
    }

    /// Takes a message where it may come: any of the client, and of an engine what an engine sends.
    pub fn act<R: Wait>(
        &self,
        rt: &R,
        pass: &mut Pass<RunBook<D>>,
        chooser: &Chooser,
        conn: u32,
        reading: Reading,
    ) -> Result<Acted, ActError>
        requires idle { IsIdle (lock_id self.now.lock) pass.old }
        requires short { IsShort reading.message }
        requires may { MayCome (known pass.old).seen.list conn reading.message }
        ensures back { IsBack (lock_id self.now.lock) pass.old pass.new }
        ensures turn { TakesTurn D.faults (λ b. b.store.value) (λ before after. HasActed before 0 0 conn reading.message result after) pass.old pass.new }
    {
        let mut book = self.lock.enter(rt, pass);
        book.rest();
        let result = act_on(&mut book.store, chooser, conn, reading);
        book.rest();
        self.lock.leave(pass, book);
        result
    }

    /// Writes what is kept and isn't safe yet, without memory.
    pub fn flush<R: Wait>(&self, rt: &R, pass: &mut Pass<RunBook<D>>) -> Result<(), AppendFault>
        requires idle { IsIdle (lock_id self.now.lock) pass.old }
        ensures back { IsBack (lock_id self.now.lock) pass.old pass.new }
        ensures turn { TakesTurn D.faults (λ b. b.store.value) (λ before after. HasFlushed D.faults before result after) pass.old pass.new }
    {
        let mut book = self.lock.enter(rt, pass);
        let result = flush_on(&mut book.store);
        book.rest();
        self.lock.leave(pass, book);
        result
    }

    /// Takes the next out to a connection, where all that is kept up to its entry is safe, without memory.
    pub fn take_out<R: Wait>(&self, rt: &R, pass: &mut Pass<RunBook<D>>, conn: u32) -> Taken
        requires idle { IsIdle (lock_id self.now.lock) pass.old }
        ensures back { IsBack (lock_id self.now.lock) pass.old pass.new }
        ensures turn { TakesTurn D.faults (λ b. b.store.value) (λ before after. HasTaken before conn result after) pass.old pass.new }
        ensures passed { IfSome (passed_in result) (WasPassed (known pass.new).seen.list conn) }
    {
        let mut book = self.lock.enter(rt, pass);
        let result = take_on(&mut book.store, conn);
        book.rest();
        self.lock.leave(pass, book);
        result
    }

    /// Keeps those of these connections for which `take_out` would have answered, in this turn, anything but that there is
    /// none yet. It takes no memory.
    pub fn keep_news<R: Wait>(&self, rt: &R, pass: &mut Pass<RunBook<D>>, conns: &mut Vec<u32>)
        requires idle { IsIdle (lock_id self.now.lock) pass.old }
        ensures back { IsBack (lock_id self.now.lock) pass.old pass.new }
        ensures turn { TakesTurn D.faults (λ b. b.store.value) (λ before after. (after ≡ before) × (conns.new.items ≡ filter (has_news before) conns.old.items)) pass.old pass.new }
        ensures later { Extends (known pass.old).seen (known pass.new).seen }
    {
        let book = self.lock.enter(rt, pass);
        keep_news_on(&book.store, conns);
        book.rest();
        self.lock.leave(pass, book);
    }

    /// Notes why the command can't go on, unless something else is noted.
    pub fn note<R: Wait>(&self, rt: &R, pass: &mut Pass<RunBook<D>>, halt: Halt)
        requires idle { IsIdle (lock_id self.now.lock) pass.old }
        ensures back { IsBack (lock_id self.now.lock) pass.old pass.new }
        ensures later { Extends (known pass.old).seen (known pass.new).seen }
    {
        let mut book = self.lock.enter(rt, pass);
        book.note(halt);
        book.rest();
        self.lock.leave(pass, book);
    }

    /// Why the command can't go on, where that is noted, as far as what the pass then has seen shows it.
    pub fn halted<R: Wait>(&self, rt: &R, pass: &mut Pass<RunBook<D>>) -> Option<Halt>
        requires idle { IsIdle (lock_id self.now.lock) pass.old }
        ensures back { IsBack (lock_id self.now.lock) pass.old pass.new }
        ensures later { Extends (known pass.old).seen (known pass.new).seen }
        ensures shown { IsShown result (known pass.new).seen }
    {
        let book = self.lock.enter(rt, pass);
        let halt = book.shown_halt();
        book.rest();
        self.lock.leave(pass, book);
        halt
    }

    /// Makes a pass with a room of its own, which has seen the same and has added nothing. `NoPass` where the room of
    /// `pass` doesn't do.
    pub fn split(&self, pass: &mut Pass<RunBook<D>>, room: u32) -> Result<Pass<RunBook<D>>, NoPass>
        requires idle { IsIdle (lock_id self.now.lock) pass.old }
        ensures exact { IsErr result ↔ (room_of pass.old ≤ room) }
        ensures idle { IsIdle (lock_id self.now.lock) pass.new }
        ensures room { OnOk result (room_of pass.new + room + 1 ≡ room_of pass.old) }
        ensures known { OnOk result (known pass.new ≡ split_kept (known pass.old)) }
        ensures err { OnErr result ((room_of pass.new ≡ room_of pass.old) × (known pass.new ≡ known pass.old)) }
        ensures made { IfOk result (λ p. IsIdle (lock_id self.now.lock) p × (room_of p ≡ room) × (known p ≡ split_given (known pass.old))) }
    {
        self.lock.split(pass, room)
    }
}
