//! The places over three loads, by each scheme.

use crate::common::new_chooser;
use cluster_types::config::Scheme;

/// Schemes, loads and words, and the place that each comes to. The halves of the word 8,589,934,593 are 1 and 2.
const ROWS: [(Scheme, [u32; 3], u64, usize); 7] = [
    (Scheme::LeastLoad, [2, 1, 1], 0, 1),
    (Scheme::Lru, [2, 1, 1], 5, 0),
    (Scheme::PlainRandom, [2, 1, 1], 7, 1),
    (Scheme::TwoBin, [2, 1, 1], 8_589_934_593, 1),
    (Scheme::PlainRandom, [0, 0, 0], 0, 0),
    (Scheme::PlainRandom, [0, 0, 0], 7, 1),
    (Scheme::PlainRandom, [0, 0, 0], 9_098_160_460_397_411_210, 2),
];

#[test]
fn places_over_three_loads(rt: HostRuntime) {
    let chooser = new_chooser(&rt, rt.alloc());
    for (scheme, loads, word, place) in ROWS {
        assert_eq!(rt; chooser.choose(scheme, &loads, word), place, "at {word}");
    }
}
