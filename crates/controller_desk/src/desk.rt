//! The calls of threads. Each but those on passes is one turn at the lock.

ghost use Rattle.std.specs.Prelude.{◌≡◌, ◌<◌, ◌+◌, ◌↔◌, ◌≤◌, ℕ, [], Err, length, IfOk, IfSome, IsSome, IsErr, OnOk, OnErr, filter};
ghost use Rattle.cluster_defs.specs.Histories.{is_stopping};
ghost use Rattle.record_codec.specs.Spelling.{IsShort};
ghost use Rattle.history_lock.specs.History.{Extends, merged};
ghost use Rattle.history_lock.specs.Rule.{without_turn, whole, split_kept, split_given};
ghost use Rattle.history_lock.specs.Log.{IsEnd};
ghost use Rattle.history_lock.specs.Names.{known, log_of, room_of, lock_id, IsIdle};
ghost use Rattle.controller_desk.specs.Calls.{HasTried, HasActed, HasOpened, HasClosed, HasTaken, HasFlushed, HasTrimmed, has_news};
ghost use Rattle.controller_desk.specs.Contents.{content_of};
ghost use Rattle.controller_desk.specs.Turns.{TakesTurn, IsBack, IsFirst, LeadsTo};
ghost use Rattle.controller_desk.specs.Ups.{IsSet, ups};

use crate::acted::Acted;
use crate::fault::ActError;
use crate::lent::{
    act_on, beat_on, close_on, flush_on, keep_news_on, open_on, stopping_on, take_on, time_on,
    trim_on,
};
use crate::locked::Locked;
use crate::reading::Reading;
use cluster_store::store::Store;
use cluster_store::taken::Taken;
use cluster_types::config::Channel;
use cluster_types::entry::Input;
use disk_model::disk::Disk;
use history_lock::lock::{HistoryLock, NoPass, Pass};
use load_schemes::chooser::Chooser;
use std::alloc::{AllocError, Global};
use std::sync::Wait;
use task_journal::fault::AppendFault;
use thread_edges::clock::Clock;
use thread_edges::words::Words;

/// How many passes a desk has in all.
const PASSES: u32 = 4096;

/// A store that threads use by passes.
#[derive(Drop)]
pub struct Desk<D: Disk, C: Clock, W: Words> {
    pub lock: HistoryLock<Locked<D, C, W>>,
}

impl<D: Disk + Drop, C: Clock + Drop, W: Words + Drop> Desk<D, C, W> {
    /// A desk over a store on which no connection came up since the last Open, and its first pass.
    pub fn new(
        alloc: Global,
        store: Store<D>,
        clock: C,
        random: W,
    ) -> Result<(Desk<D, C, W>, Pass<Locked<D, C, W>>), AllocError>
        requires set { IsSet store }
        requires fresh { ups store.history ≡ 0 }
        ensures lock { IfOk result (λ r. IsIdle (lock_id r.0.lock) r.1) }
        ensures room { IfOk result (λ r. room_of r.1 + 1 ≡ 4096) }
        ensures known { IfOk result (λ r. known r.1 ≡ without_turn whole (content_of D.faults store) []) }
        ensures log { IfOk result (λ r. IsFirst D.faults (λ l. l.store.value) store (log_of r.1)) }
    {
        let Ok(store) = Box::new(alloc, store) else {
            return Err(AllocError);
        };
        let locked = Locked {
            store,
            clock,
            words: random,
            last: 0,
        };
        let (lock, pass) = HistoryLock::new(alloc, locked, PASSES)?;
        Ok((Desk { lock }, pass))
    }

    /// Takes a message on a connection, which was read before: best for the channel of the connection.
    pub fn act<R: Wait>(
        &self,
        rt: &R,
        pass: &mut Pass<Locked<D, C, W>>,
        chooser: &Chooser,
        conn: u32,
        reading: Reading,
    ) -> Result<Acted, ActError>
        requires idle { IsIdle (lock_id self.now.lock) pass.old }
        requires short { IsShort reading.message }
        ensures back { IsBack (lock_id self.now.lock) pass.old pass.new }
        ensures turn { TakesTurn D.faults (λ l. l.store.value) (λ before after. (moment : ℕ) × (word : ℕ) × HasActed before moment word conn reading.message result after) pass.old pass.new }
    {
        let mut locked = self.lock.enter(rt, pass);
        let stamp = locked.draw();
        let result = act_on(&mut locked.store, chooser, stamp, conn, reading);
        locked.rest();
        self.lock.leave(pass, locked);
        result
    }

    /// Brings up a connection with the next number of this opening, from 1, where fewer than 1,024 are live. One without an identity is called after its number.
    pub fn open_conn<R: Wait>(
        &self,
        rt: &R,
        pass: &mut Pass<Locked<D, C, W>>,
        chooser: &Chooser,
        channel: Channel,
        identity: &[u8],
    ) -> Result<u32, ActError>
        requires idle { IsIdle (lock_id self.now.lock) pass.old }
        requires identity { length identity.now < 256 }
        ensures back { IsBack (lock_id self.now.lock) pass.old pass.new }
        ensures turn { TakesTurn D.faults (λ l. l.store.value) (λ before after. (moment : ℕ) × (word : ℕ) × HasOpened before moment word channel identity.now result after) pass.old pass.new }
    {
        let mut locked = self.lock.enter(rt, pass);
        let stamp = locked.draw();
        let mut last = locked.last;
        let result = open_on(
            &mut locked.store,
            chooser,
            stamp,
            &mut last,
            channel,
            identity,
        );
        locked.last = last;
        locked.rest();
        self.lock.leave(pass, locked);
        result
    }

    /// Takes a connection down, where it is live.
    pub fn close_conn<R: Wait>(
        &self,
        rt: &R,
        pass: &mut Pass<Locked<D, C, W>>,
        chooser: &Chooser,
        conn: u32,
    ) -> Result<bool, ActError>
        requires idle { IsIdle (lock_id self.now.lock) pass.old }
        ensures back { IsBack (lock_id self.now.lock) pass.old pass.new }
        ensures turn { TakesTurn D.faults (λ l. l.store.value) (λ before after. (moment : ℕ) × (word : ℕ) × HasClosed before moment word conn result after) pass.old pass.new }
    {
        let mut locked = self.lock.enter(rt, pass);
        let stamp = locked.draw();
        let result = close_on(&mut locked.store, chooser, stamp, conn);
        locked.rest();
        self.lock.leave(pass, locked);
        result
    }

    /// Sends a round of heartbeats.
    pub fn beat<R: Wait>(
        &self,
        rt: &R,
        pass: &mut Pass<Locked<D, C, W>>,
        chooser: &Chooser,
    ) -> Result<(), ActError>
        requires idle { IsIdle (lock_id self.now.lock) pass.old }
        ensures back { IsBack (lock_id self.now.lock) pass.old pass.new }
        ensures turn { TakesTurn D.faults (λ l. l.store.value) (λ before after. (moment : ℕ) × (word : ℕ) × HasTried before (Input.Beat moment word) result after) pass.old pass.new }
    {
        let mut locked = self.lock.enter(rt, pass);
        let stamp = locked.draw();
        let result = beat_on(&mut locked.store, chooser, stamp);
        locked.rest();
        self.lock.leave(pass, locked);
        result
    }

    /// Lets time pass.
    pub fn time<R: Wait>(
        &self,
        rt: &R,
        pass: &mut Pass<Locked<D, C, W>>,
        chooser: &Chooser,
    ) -> Result<(), ActError>
        requires idle { IsIdle (lock_id self.now.lock) pass.old }
        ensures back { IsBack (lock_id self.now.lock) pass.old pass.new }
        ensures turn { TakesTurn D.faults (λ l. l.store.value) (λ before after. (moment : ℕ) × (word : ℕ) × HasTried before (Input.Time moment word) result after) pass.old pass.new }
    {
        let mut locked = self.lock.enter(rt, pass);
        let stamp = locked.draw();
        let result = time_on(&mut locked.store, chooser, stamp);
        locked.rest();
        self.lock.leave(pass, locked);
        result
    }

    /// Writes what is kept and isn't safe yet, without memory.
    pub fn flush<R: Wait>(
        &self,
        rt: &R,
        pass: &mut Pass<Locked<D, C, W>>,
    ) -> Result<(), AppendFault>
        requires idle { IsIdle (lock_id self.now.lock) pass.old }
        ensures back { IsBack (lock_id self.now.lock) pass.old pass.new }
        ensures turn { TakesTurn D.faults (λ l. l.store.value) (λ before after. HasFlushed D.faults before result after) pass.old pass.new }
    {
        let mut locked = self.lock.enter(rt, pass);
        let result = flush_on(&mut locked.store);
        locked.rest();
        self.lock.leave(pass, locked);
        result
    }

    /// Cuts off what stands behind the journal, which keeps no room from then on.
    pub fn trim<R: Wait>(&self, rt: &R, pass: &mut Pass<Locked<D, C, W>>) -> Result<(), AppendFault>
        requires idle { IsIdle (lock_id self.now.lock) pass.old }
        ensures back { IsBack (lock_id self.now.lock) pass.old pass.new }
        ensures turn { TakesTurn D.faults (λ l. l.store.value) (λ before after. HasTrimmed D.faults before result after) pass.old pass.new }
    {
        let mut locked = self.lock.enter(rt, pass);
        let result = trim_on(&mut locked.store);
        locked.rest();
        self.lock.leave(pass, locked);
        result
    }

    /// Takes the next out to a connection, where all that is kept up to its entry is safe, without memory.
    pub fn take_out<R: Wait>(&self, rt: &R, pass: &mut Pass<Locked<D, C, W>>, conn: u32) -> Taken
        requires idle { IsIdle (lock_id self.now.lock) pass.old }
        ensures back { IsBack (lock_id self.now.lock) pass.old pass.new }
        ensures turn { TakesTurn D.faults (λ l. l.store.value) (λ before after. HasTaken before conn result after) pass.old pass.new }
    {
        let mut locked = self.lock.enter(rt, pass);
        let result = take_on(&mut locked.store, conn);
        locked.rest();
        self.lock.leave(pass, locked);
        result
    }

    /// Keeps those of these connections for which `take_out` would have answered, in this turn, anything but that there is
    /// none yet. It takes no memory.
    pub fn keep_news<R: Wait>(&self, rt: &R, pass: &mut Pass<Locked<D, C, W>>, conns: &mut Vec<u32>)
        requires idle { IsIdle (lock_id self.now.lock) pass.old }
        ensures back { IsBack (lock_id self.now.lock) pass.old pass.new }
        ensures turn { TakesTurn D.faults (λ l. l.store.value) (λ before after. (after ≡ before) × (conns.new.items ≡ filter (has_news before) conns.old.items)) pass.old pass.new }
        ensures later { Extends (known pass.old).seen (known pass.new).seen }
        ensures added { (known pass.new).added ≡ (known pass.old).added }
    {
        let locked = self.lock.enter(rt, pass);
        keep_news_on(&locked.store, conns);
        locked.rest();
        self.lock.leave(pass, locked);
    }

    /// Whether a shutdown was asked since the last Open.
    pub fn stopping<R: Wait>(&self, rt: &R, pass: &mut Pass<Locked<D, C, W>>) -> bool
        requires idle { IsIdle (lock_id self.now.lock) pass.old }
        ensures back { IsBack (lock_id self.now.lock) pass.old pass.new }
        ensures later { Extends (known pass.old).seen (known pass.new).seen }
        ensures added { (known pass.new).added ≡ (known pass.old).added }
        ensures stops { result ≡ is_stopping (known pass.new).seen.list }
        ensures turn { TakesTurn D.faults (λ l. l.store.value) (λ before after. after ≡ before) pass.old pass.new }
    {
        let locked = self.lock.enter(rt, pass);
        let result = stopping_on(&locked.store);
        locked.rest();
        self.lock.leave(pass, locked);
        result
    }

    /// Makes a pass with a room of its own, which has seen the same and has added nothing. `NoPass` where the room of
    /// `pass` doesn't do.
    pub fn split(
        &self,
        pass: &mut Pass<Locked<D, C, W>>,
        room: u32,
    ) -> Result<Pass<Locked<D, C, W>>, NoPass>
        requires idle { IsIdle (lock_id self.now.lock) pass.old }
        ensures exact { IsErr result ↔ (room_of pass.old ≤ room) }
        ensures idle { IsIdle (lock_id self.now.lock) pass.new }
        ensures room { OnOk result (room_of pass.new + room + 1 ≡ room_of pass.old) }
        ensures known { OnOk result (known pass.new ≡ split_kept (known pass.old)) }
        ensures err { OnErr result ((room_of pass.new ≡ room_of pass.old) × (known pass.new ≡ known pass.old)) }
        ensures made { IfOk result (λ p. IsIdle (lock_id self.now.lock) p × (room_of p ≡ room) × (known p ≡ split_given (known pass.old))) }
        ensures log { log_of pass.new ≡ log_of pass.old }
        ensures made_log { IfOk result (λ p. log_of p ≡ log_of pass.old) }
    {
        self.lock.split(pass, room)
    }

    /// Takes in another pass, which is spent. Its room isn't given back.
    pub fn join(&self, pass: &mut Pass<Locked<D, C, W>>, other: Pass<Locked<D, C, W>>)
        requires idle { IsIdle (lock_id self.now.lock) pass.old }
        requires other { IsIdle (lock_id self.now.lock) other }
        ensures idle { IsIdle (lock_id self.now.lock) pass.new }
        ensures room { room_of pass.new ≡ room_of pass.old }
        ensures known { known pass.new ≡ without_turn ((known pass.old).share + (known other).share) (merged (known pass.old).seen (known other).seen) (known pass.old).added }
        ensures later { Extends (known pass.old).seen (known pass.new).seen }
        ensures others { Extends (known other).seen (known pass.new).seen }
        ensures log { IsEnd (log_of pass.old) (log_of pass.new) }
        ensures others_log { IsEnd (log_of other) (log_of pass.new) }
    {
        self.lock.join(pass, other);
    }

    /// Ends the desk. It gives the store, unless a pass went off with the turn: always where every other pass was joined.
    pub fn close(self, pass: Pass<Locked<D, C, W>>) -> Option<Store<D>>
        requires idle { IsIdle (lock_id self.lock) pass }
        ensures later { IfSome result (λ store. Extends (known pass).seen (content_of D.faults store)) }
        ensures whole { (known pass).share ≡ whole → IsSome result }
        ensures log { IfSome result (λ store. LeadsTo D.faults (λ l. l.store.value) store (log_of pass)) }
    {
        let Desk { lock } = self;
        match lock.close(pass) {
            Some(locked) => {
                let Locked { store, .. } = locked;
                Some(Box::into_inner(store))
            }
            None => None,
        }
    }
}
