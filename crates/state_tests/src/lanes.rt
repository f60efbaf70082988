//! Lanes of places.

use place_sets::lanes::Lanes;
use place_sets::least::lesser;
use std::alloc::Global;
use std::process::Abort;

fn add<R: Abort>(rt: &R, lanes: &mut Lanes, number: u64, place: usize) {
    lanes.add(number, place).expect(rt, "memory is ample");
}

/// Whether these are the places in the lane of a number.
fn has<R: Abort>(rt: &R, alloc: Global, lanes: &Lanes, number: u64, places: &[usize]) -> bool {
    let found = lanes.places(alloc, number).expect(rt, "memory is ample");
    found.as_slice() == places
}

#[test]
fn a_lane_keeps_its_places(rt: HostRuntime) {
    let alloc = rt.alloc();
    let mut lanes = Lanes::new(alloc);
    add(&rt, &mut lanes, 3, 7);
    add(&rt, &mut lanes, 3, 5);
    add(&rt, &mut lanes, 4, 7);
    assert!(rt; has(&rt, alloc, &lanes, 3, &[5, 7]) && has(&rt, alloc, &lanes, 4, &[7]));
    lanes.leave_out(3, 5);
    lanes.leave_out(9, 5);
    assert!(rt; has(&rt, alloc, &lanes, 3, &[7]) && has(&rt, alloc, &lanes, 9, &[]));
    lanes.leave_out(3, 7);
    assert!(rt; has(&rt, alloc, &lanes, 3, &[]) && lanes.as_map().len() == 1);
}

#[test]
fn the_lesser_of_two_places(rt: HostRuntime) {
    assert!(rt; lesser(Some(3), Some(5)) == Some(3) && lesser(Some(5), Some(3)) == Some(3));
    assert!(rt; lesser(None, Some(5)) == Some(5) && lesser(Some(3), None) == Some(3));
    assert!(rt; lesser(None, None).is_none());
}
