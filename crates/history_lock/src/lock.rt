//! The lock and its passes.
ghost use Rattle.std.specs.Prelude.{◌≡◌, ℕ, ◌+◌, ◌^◌, ◌<◌, ◌≤◌, ◌↔◌, [], ◌∷◌, true, false, length, List, None, Some, IfOk, IfSome, IsSome, OnOk, OnErr, IsErr, MatchOption};
ghost use Rattle.history_lock.specs.History.{Extends, Stand, ascend, merged};
ghost use Rattle.history_lock.specs.Loans.{loan_in, HoldsIn, MayLend, hold_after};
ghost use Rattle.history_lock.specs.Log.{IsEnd, StartsAt, Chain, Follows};
ghost use Rattle.history_lock.specs.Rule.{without_turn, with_turn, added_by, whole, split_kept, split_given, IsTaken};
ghost use Rattle.history_lock.specs.Slots.{IsReady, HasSlots};

use crate::known::{Keeps, Knows};
use crate::steps::{GiveUpTurn, MergeTold, SplitPass, TakeTurn, TellOther, Turns};
use atomic_table::{Refused, Table};
use std::alloc::{AllocError, Global};
use std::snapshot::Snapshot;
use std::sync::Wait;
use std::sync::atomic::{AtomicU64, Ordering};
use thiserror::Error;

/// A seat at the table of a lock.
type Seat<T> = atomic_table::Seat<Option<T>, Knows<T>>;

/// The table of a lock: one slot for the value, and one word for the turn.
type Inner<T> = Table<Option<T>, Knows<T>, Snapshot<T>, Turns<T>, Global>;

/// A lock whose value is out with one pass at a time.
#[derive(Drop)]
pub struct HistoryLock<T: Keeps> {
    table: Inner<T>,
    /// How many threads wait for the turn, or are about to.
    waiting: AtomicU64,
    ghost sized: { (table.shared.table_id.words ≡ 1) × (table.shared.table_id.slots ≡ 1) },
}

/// What a thread enters a lock with, and what it knows of the lock's history. Its room is the number of
/// passes that may still come from it. The shares of all passes add up to the whole of the lock.
#[derive(Drop)]
pub struct Pass<T> {
    seat: Seat<T>,
    room: u32,
    ghost slots: { HasSlots seat.me },
    ghost unspent: { seat.me.0.view.spent ≡ false },
    ghost lasting: { 2 ^ room ≤ seat.me.0.view.share },
    ghost stand: { Stand seat.me.0.view.seen.list seat.me.0.view.added },
    ghost ascends: { ascend seat.me.0.view.added ≡ true },
}

/// As many passes as were asked for may not come from this one.
#[derive(Clone, Copy, Debug, PartialEq, Eq, Error)]
#[error("so many passes may not come from this pass")]
pub struct NoPass;

impl<T: Keeps + Drop> HistoryLock<T> {
    ghost use Rattle.history_lock.specs.Names.{lock_id, lock_of, known, log_of, hold_of, room_of};

    /// A lock around a value, and its first pass, for so many passes in all. The pass has seen what the
    /// value stands for, and has added nothing.
    pub fn new(
        alloc: Global,
        value: T,
        passes: u32,
    ) -> Result<(HistoryLock<T>, Pass<T>), AllocError>
        requires { (0 < passes) × (passes ≤ 4096) }
        ensures lock { IfOk result (λ r. lock_of r.1 ≡ lock_id r.0) }
        ensures room { IfOk result (λ r. room_of r.1 + 1 ≡ passes) }
        ensures known { IfOk result (λ r. known r.1 ≡ without_turn whole (T.content value) []) }
        ensures log { IfOk result (λ r. log_of r.1 ≡ value ∷ []) }
        ensures hold { IfOk result (λ r. hold_of r.1 ≡ T.loan value) }
    {
        let key = Snapshot::of(&value);
        let mut slots = Vec::with_capacity(alloc, 1)?;
        slots.push_reserved(Some(value));
        match Table::new(alloc, &[0], slots, &key) {
            Ok((table, seat)) => Ok((
                HistoryLock {
                    table,
                    waiting: AtomicU64::new(0),
                },
                Pass {
                    seat,
                    room: passes - 1,
                },
            )),
            Err(Refused { .. }) => Err(AllocError),
        }
    }

    /// One try to take the turn, and the value with it.
    fn take(&self, seat: &mut Seat<T>) -> Option<T>
        requires lock { seat.old.table_id ≡ lock_id self.now }
        requires ready { IsReady seat.old.me }
        ensures lock { seat.new.table_id ≡ seat.old.table_id }
        ensures took { MatchOption result (seat.new.me ≡ seat.old.me) (λ value. IsTaken T.content T.step T.loan seat.old.me ((0, None) ∷ []) value seat.new.me) }
    {
        let shared = &self.table.shared;
        if shared.compare_exchange::<TakeTurn>(seat, 0, 0, 1) == 0 {
            shared.exchange(seat, 0, None)
        } else {
            None
        }
    }

    /// Waits for the turn, and takes the value out. It extends all that the pass had seen, and the pass has
    /// then seen it.
    pub fn enter<R: Wait>(&self, rt: &R, pass: &mut Pass<T>) -> T
        requires lock { lock_of pass.old ≡ lock_id self.now }
        requires idle { (known pass.old).has_turn ≡ false }
        ensures lock { lock_of pass.new ≡ lock_of pass.old }
        ensures room { room_of pass.new ≡ room_of pass.old }
        ensures later { Extends (known pass.old).seen (T.content result) }
        ensures known { known pass.new ≡ with_turn (known pass.old).share (T.content result) (known pass.old).added }
        ensures newest { StartsAt result (log_of pass.new) }
        ensures log { IsEnd (log_of pass.old) (log_of pass.new) }
        ensures steps { Chain T.step (log_of pass.new) }
        ensures hold { hold_of pass.new ≡ hold_of pass.old }
        ensures holds { HoldsIn (T.loan result) (hold_of pass.old) }
    {
        for _ in rt.forever() {
            if let Some(value) = self.take(&mut pass.seat) {
                return value;
            }
            self.wait(rt);
        }
        unreachable!()
    }

    /// Waits while another pass has the turn. It is counted before it looks at the turn once more, and who gives up the turn
    /// looks at the count behind that: so one of the two sees the other, and no wake is lost.
    fn wait<R: Wait>(&self, rt: &R) {
        self.waiting.fetch_add(1, Ordering::SeqCst);
        self.table.shared.park(rt, 0, 1);
        self.waiting.fetch_sub(1, Ordering::SeqCst);
    }

    /// Puts the value back, and gives up the turn. The pass has seen this value, and has added what it gained.
    pub fn leave(&self, pass: &mut Pass<T>, value: T)
        requires lock { lock_of pass.old ≡ lock_id self.now }
        requires turn { (known pass.old).has_turn ≡ true }
        requires later { Extends (known pass.old).seen (T.content value) }
        requires step { Follows T.step (log_of pass.old) value }
        requires loan { MayLend (hold_of pass.old) (loan_in T.loan (log_of pass.old)) (T.loan value) }
        ensures lock { lock_of pass.new ≡ lock_of pass.old }
        ensures room { room_of pass.new ≡ room_of pass.old }
        ensures known { known pass.new ≡ without_turn (known pass.old).share (T.content value) (added_by (known pass.old) (T.content value).list) }
        ensures log { log_of pass.new ≡ value ∷ log_of pass.old }
        ensures hold { hold_of pass.new ≡ hold_after (hold_of pass.old) (loan_in T.loan (log_of pass.old)) (T.loan value) }
    {
        let shared = &self.table.shared;
        drop(shared.exchange(&mut pass.seat, 0, Some(value)));
        shared.swap::<GiveUpTurn>(&mut pass.seat, 0, 0);
        if self.waiting.load(Ordering::SeqCst) != 0 {
            shared.wake_one(0);
        }
    }

    /// Makes a pass with a room of its own, which has seen the same and has added nothing. It takes the room
    /// of `pass` for itself and for those that may come from it, and half of its share. `NoPass` where the
    /// room doesn't do.
    pub fn split(&self, pass: &mut Pass<T>, room: u32) -> Result<Pass<T>, NoPass>
        requires lock { lock_of pass.old ≡ lock_id self.now }
        requires idle { (known pass.old).has_turn ≡ false }
        ensures exact { IsErr result ↔ (room_of pass.old ≤ room) }
        ensures lock { lock_of pass.new ≡ lock_of pass.old }
        ensures room { OnOk result (room_of pass.new + room + 1 ≡ room_of pass.old) }
        ensures known { OnOk result (known pass.new ≡ split_kept (known pass.old)) }
        ensures err { OnErr result ((room_of pass.new ≡ room_of pass.old) × (known pass.new ≡ known pass.old)) }
        ensures log { log_of pass.new ≡ log_of pass.old }
        ensures made_log { IfOk result (λ p. log_of p ≡ log_of pass.old) }
        ensures hold { hold_of pass.new ≡ hold_of pass.old }
        ensures made_hold { IfOk result (λ p. hold_of p ≡ None) }
        ensures made { IfOk result (λ p. (lock_of p ≡ lock_of pass.old) × (room_of p ≡ room) × (known p ≡ split_given (known pass.old))) }
    {
        if pass.room <= room {
            return Err(NoPass);
        }
        let seat = self.table.shared.split_seat::<SplitPass>(&mut pass.seat);
        pass.room -= room + 1;
        Ok(Pass { seat, room })
    }

    /// Takes in another pass, which is spent. The pass has then seen the longer of the two lists and the
    /// greater counts, and has the shares of both. What the other added is no longer told, and its room isn't
    /// given back.
    pub fn join(&self, pass: &mut Pass<T>, other: Pass<T>)
        requires lock { lock_of pass.old ≡ lock_id self.now }
        requires other { lock_of other ≡ lock_id self.now }
        requires idle { ((known pass.old).has_turn ≡ false) × ((known other).has_turn ≡ false) }
        requires empty { hold_of other ≡ None }
        ensures lock { lock_of pass.new ≡ lock_of pass.old }
        ensures room { room_of pass.new ≡ room_of pass.old }
        ensures known { known pass.new ≡ without_turn ((known pass.old).share + (known other).share) (merged (known pass.old).seen (known other).seen) (known pass.old).added }
        ensures later { Extends (known pass.old).seen (known pass.new).seen }
        ensures others { Extends (known other).seen (known pass.new).seen }
        ensures log { IsEnd (log_of pass.old) (log_of pass.new) }
        ensures others_log { IsEnd (log_of other) (log_of pass.new) }
        ensures hold { hold_of pass.new ≡ hold_of pass.old }
    {
        let Pass { seat, .. } = other;
        self.table
            .shared
            .join_seat::<TellOther>(&mut pass.seat, seat);
        self.table.shared.load::<MergeTold>(&mut pass.seat, 0);
    }

    /// Ends the lock. It gives the value, unless a pass went off with the turn: always where every other pass
    /// was joined, which is where `pass` has the whole of the lock's shares.
    pub fn close(self, pass: Pass<T>) -> Option<T>
        requires lock { lock_of pass ≡ lock_id self }
        requires idle { (known pass).has_turn ≡ false }
        ensures later { IfSome result (λ value. Extends (known pass).seen (T.content value)) }
        ensures whole { (known pass).share ≡ whole → IsSome result }
        ensures log { IfSome result (λ value. (log : List T) × StartsAt value log × IsEnd (log_of pass) log × Chain T.step log) }
        ensures holds { IfSome result (λ value. HoldsIn (T.loan value) (hold_of pass)) }
        ensures home { (known pass).share ≡ whole → hold_of pass ≡ None → IfSome result (λ value. T.loan value ≡ None) }
    {
        let HistoryLock { table, .. } = self;
        let Pass { seat, .. } = pass;
        let mut closed = table.close_with(seat);
        let turn = closed.word(0);
        let value = closed.take(0);
        closed.free();
        if turn != 0 {
            return None;
        }
        let Some(value) = value else { unreachable!() };
        Some(value)
    }
}
