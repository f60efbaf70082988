//! Passes and their room, both answers of `close`, and threads at one lock.
ghost use Rattle.std.specs.Prelude.{◌≡◌, ◌<◌, ◌≤◌, ◌∷◌, [], reverse};
ghost use Rattle.history_lock.specs.History.{Extends};
ghost use Rattle.history_lock.specs.Names.{IsIdle, lock_id};

use cluster_types::entry::Entry;
use history_lock::known::Keeps;
use history_lock::lock::{HistoryLock, Pass};
use std::alloc::Global;
use std::process::Abort;
use std::sync::Wait;
use std::thread::{Threads, join};

/// The engines that were given up, and how often the lock was entered for it.
#[derive(Drop)]
struct Losses {
    entries: Vec<Entry>,
    turns: u64,
}

impl Keeps for Losses {
    ghost use Rattle.std.specs.Prelude.{◌≤◌, reverse, ◌∷◌, [], None};

    ghost content = { λ l. record { list = reverse l.entries.items; counts = l.turns ∷ [] } };

    ghost step = { λ old new. old.turns ≤ new.turns };

    ghost loan = { λ _. None };
}

impl Losses {
    fn new(alloc: Global) -> Losses {
        Losses {
            entries: Vec::new(alloc),
            turns: 0,
        }
    }

    /// Adds an entry.
    fn lose<R: Abort>(&mut self, rt: &R, engine: u32)
        ensures later { Extends (record { list = reverse self.old.entries.items; counts = self.old.turns ∷ [] }) (record { list = reverse self.new.entries.items; counts = self.new.turns ∷ [] }) }
        ensures turns { self.old.turns ≤ self.new.turns }
    {
        self.turns = self.turns.saturating_add(1);
        self.entries
            .push(Entry::Lose { engine })
            .expect(rt, "memory is ample");
    }

    /// How often an engine was given up.
    fn count(&self, number: u32) -> usize {
        self.entries
            .iter()
            .filter(|e| matches!(e, Entry::Lose { engine } if *engine == number))
            .count()
    }
}

/// One turn.
fn lose<R: Wait + Abort>(rt: &R, lock: &HistoryLock<Losses>, pass: &mut Pass<Losses>, engine: u32)
    requires { IsIdle (lock_id lock.now) pass.old }
    ensures { IsIdle (lock_id lock.now) pass.new }
{
    let mut losses = lock.enter(rt, pass);
    losses.lose(rt, engine);
    lock.leave(pass, losses);
}

/// So many turns, and the pass.
fn lose_often<R: Wait + Abort>(
    rt: &R,
    lock: &HistoryLock<Losses>,
    pass: Pass<Losses>,
    engine: u32,
    turns: u32,
) -> Pass<Losses>
    requires { IsIdle (lock_id lock.now) pass }
    ensures { IsIdle (lock_id lock.now) result }
{
    let mut pass = pass;
    for _ in 0..turns {
        lose(rt, lock, &mut pass, engine);
    }
    pass
}

/// Two threads at one lock, each with its engine. Gives one pass for both.
fn lose_both<R: Threads + Wait + Abort + Sync>(
    rt: &R,
    lock: &HistoryLock<Losses>,
    one: Pass<Losses>,
    two: Pass<Losses>,
    engine: u32,
    turns: u32,
) -> Pass<Losses>
    requires { IsIdle (lock_id lock.now) one × IsIdle (lock_id lock.now) two }
    ensures { IsIdle (lock_id lock.now) result }
{
    let (one, two) = join(
        rt,
        move || -> Pass<Losses>
            requires { IsIdle (lock_id lock.now) one }
            ensures { IsIdle (lock_id lock.entry.now) result }
        { lose_often(rt, lock, one, engine, turns) },
        move || -> Pass<Losses>
            requires { IsIdle (lock_id lock.now) two }
            ensures { IsIdle (lock_id lock.entry.now) result }
        { lose_often(rt, lock, two, engine ^ 1, turns) },
    );
    let mut one = one;
    lock.join(&mut one, two);
    one
}

/// A lock for so many passes, and the first of them.
fn lock_for<R: Abort>(rt: &R, alloc: Global, passes: u32) -> (HistoryLock<Losses>, Pass<Losses>)
    requires { (0 < passes) × (passes ≤ 4096) }
    ensures { IsIdle (lock_id result.0) result.1 }
{
    HistoryLock::new(alloc, Losses::new(alloc), passes).expect(rt, "memory is ample")
}

/// A pass that is split off with this room.
fn split<R: Abort>(
    rt: &R,
    lock: &HistoryLock<Losses>,
    pass: &mut Pass<Losses>,
    room: u32,
) -> Pass<Losses>
    requires { IsIdle (lock_id lock.now) pass.old }
    ensures kept { IsIdle (lock_id lock.now) pass.new }
    ensures made { IsIdle (lock_id lock.now) result }
{
    lock.split(pass, room).expect(rt, "room for a pass")
}

/// A lock, and one more pass beside the first.
fn lock_with_two<R: Abort>(
    rt: &R,
    alloc: Global,
) -> (HistoryLock<Losses>, Pass<Losses>, Pass<Losses>)
    ensures { IsIdle (lock_id result.0) result.1 × IsIdle (lock_id result.0) result.2 }
{
    let (lock, mut pass) = lock_for(rt, alloc, 4);
    let other = split(rt, &lock, &mut pass, 1);
    (lock, pass, other)
}

/// Whether a pass was split off with this room, which is then lost.
fn splits(lock: &HistoryLock<Losses>, pass: &mut Pass<Losses>, room: u32) -> bool
    requires { IsIdle (lock_id lock.now) pass.old }
    ensures { IsIdle (lock_id lock.now) pass.new }
{
    lock.split(pass, room).is_ok()
}

#[test]
fn rooms(rt: HostRuntime) {
    let (lock, mut pass) = lock_for(&rt, rt.alloc(), 4096);
    assert!(rt; !splits(&lock, &mut pass, 4095));
    let mut other = split(&rt, &lock, &mut pass, 4093);
    assert!(rt; !splits(&lock, &mut pass, 1));
    assert!(rt; splits(&lock, &mut pass, 0));
    assert!(rt; !splits(&lock, &mut pass, 0));
    assert!(rt; !splits(&lock, &mut other, 4093));
    lock.join(&mut pass, other);
    assert!(rt; !splits(&lock, &mut pass, 0));
}

#[test]
fn room_for_one(rt: HostRuntime) {
    let (lock, mut pass) = lock_for(&rt, rt.alloc(), 1);
    assert!(rt; !splits(&lock, &mut pass, 0));
    assert!(rt; lock.close(pass).is_some());
}

/// What a lock gives that is closed after a turn, with every pass joined.
fn closed_after_a_turn<R: Wait + Abort>(rt: &R, alloc: Global) -> Option<Losses> {
    let (lock, mut pass, mut other) = lock_with_two(rt, alloc);
    lose(rt, &lock, &mut other, 7);
    lock.join(&mut pass, other);
    lock.close(pass)
}

/// What a lock gives that is closed while another pass has the turn.
fn closed_within_a_turn<R: Wait + Abort>(rt: &R, alloc: Global) -> Option<Losses> {
    let (lock, pass, mut other) = lock_with_two(rt, alloc);
    let _losses = lock.enter(rt, &mut other);
    lock.close(pass)
}

#[test]
fn closes_with_and_without_the_value(rt: HostRuntime) {
    let losses = closed_after_a_turn(&rt, rt.alloc()).expect(&rt, "a turn that is free");
    assert_eq!(rt; losses.count(7), 1);
    assert!(rt; closed_within_a_turn(&rt, rt.alloc()).is_none());
}

/// Four threads at one lock, and one pass for all.
fn lose_by_four<R: Threads + Wait + Abort + Sync>(
    rt: &R,
    lock: &HistoryLock<Losses>,
    one: Pass<Losses>,
    two: Pass<Losses>,
    turns: u32,
) -> Pass<Losses>
    requires { IsIdle (lock_id lock.now) one × IsIdle (lock_id lock.now) two }
    ensures { IsIdle (lock_id lock.now) result }
{
    let mut one = one;
    let mut two = two;
    let third = lock.split(&mut one, 0).expect(rt, "room for a third");
    let fourth = lock.split(&mut two, 0).expect(rt, "room for a fourth");
    let (one, two) = join(
        rt,
        move || -> Pass<Losses>
            requires { IsIdle (lock_id lock.now) one × IsIdle (lock_id lock.now) third }
            ensures { IsIdle (lock_id lock.entry.now) result }
        { lose_both(rt, lock, one, third, 0, turns) },
        move || -> Pass<Losses>
            requires { IsIdle (lock_id lock.now) two × IsIdle (lock_id lock.now) fourth }
            ensures { IsIdle (lock_id lock.entry.now) result }
        { lose_both(rt, lock, two, fourth, 2, turns) },
    );
    let mut one = one;
    lock.join(&mut one, two);
    one
}

#[test]
fn a_thousand_turns_of_four_threads(rt: HostRuntime) {
    let (lock, one, two) = lock_with_two(&rt, rt.alloc());
    let pass = lose_by_four(&rt, &lock, one, two, 1000);
    let losses = lock.close(pass).expect(&rt, "a turn that is free");
    assert_eq!(rt; losses.turns, 4000);
    for engine in 0..4 {
        assert_eq!(rt; losses.count(engine), 1000);
    }
}
