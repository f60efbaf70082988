//! What is kept beside the tasks: who waits for an id, and counts and marks of engines.

use crate::common::{counts_are, text};
use place_sets::counts::moved;
use place_sets::flags::{has, set};
use std::alloc::Global;
use std::process::Abort;
use task_graph::waiters::Waiters;

/// Notes that the task at a place waits for an id.
fn waits<R: Abort>(rt: &R, alloc: Global, waiters: &mut Waiters, id: &str, place: usize) {
    let id = text(rt, alloc, id);
    waiters.add(&id, place).expect(rt, "memory is ample");
}

/// Whether these are the places of the tasks that wait for an id.
fn awaited<R: Abort>(rt: &R, alloc: Global, waiters: &Waiters, id: &str, places: &[usize]) -> bool {
    let found = waiters
        .of(&text(rt, alloc, id))
        .expect(rt, "memory is ample");
    found.as_slice() == places
}

#[test]
fn the_places_of_an_id_are_kept(rt: HostRuntime) {
    let alloc = rt.alloc();
    let mut waiters = Waiters::new(alloc);
    waits(&rt, alloc, &mut waiters, "x", 3);
    waits(&rt, alloc, &mut waiters, "y", 5);
    waits(&rt, alloc, &mut waiters, "x", 7);
    assert!(rt; awaited(&rt, alloc, &waiters, "x", &[3, 7]));
    assert!(rt; awaited(&rt, alloc, &waiters, "y", &[5]));
    assert!(rt; awaited(&rt, alloc, &waiters, "z", &[]));
}

#[test]
fn places_are_taken_out(rt: HostRuntime) {
    let alloc = rt.alloc();
    let mut waiters = Waiters::new(alloc);
    waits(&rt, alloc, &mut waiters, "x", 3);
    let ids = [
        text(&rt, alloc, "x"),
        text(&rt, alloc, "y"),
        text(&rt, alloc, "x"),
    ];
    waiters.add_all(&ids, 5).expect(&rt, "memory is ample");
    assert!(rt; awaited(&rt, alloc, &waiters, "x", &[3, 5]));
    assert!(rt; awaited(&rt, alloc, &waiters, "y", &[5]));
    waiters.take_out_all(&ids, 5);
    assert!(rt; awaited(&rt, alloc, &waiters, "x", &[3]));
    assert!(rt; awaited(&rt, alloc, &waiters, "y", &[]));
}

/// The counts, once one goes and one comes.
fn step<R: Abort>(
    rt: &R,
    counts: Option<Vec<u32>>,
    before: Option<u32>,
    after: Option<u32>,
) -> Option<Vec<u32>> {
    moved(counts, before, after).expect(rt, "memory is ample")
}

#[test]
fn a_count_follows_a_task(rt: HostRuntime) {
    let counts = step(&rt, Some(Vec::new(rt.alloc())), None, Some(2));
    assert!(rt;
        counts_are(&counts, 2, 1) && counts_are(&counts, 0, 0) && counts_are(&counts, 9, 0)
    );
    let counts = step(&rt, counts, Some(2), Some(0));
    assert!(rt; counts_are(&counts, 2, 0) && counts_are(&counts, 0, 1));
    let counts = step(&rt, counts, Some(0), None);
    assert!(rt; counts_are(&counts, 0, 0));
    assert!(rt; step(&rt, counts, Some(4), None).is_none());
}

#[test]
fn a_number_is_set(rt: HostRuntime) {
    let mut flags = Vec::new(rt.alloc());
    set(&mut flags, 3).expect(&rt, "memory is ample");
    assert!(rt; has(&flags, 3) && !has(&flags, 2) && !has(&flags, 9));
}
