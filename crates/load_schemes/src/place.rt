//! The place that a scheme picks.

ghost use Rattle.std.specs.Prelude.{◌≡◌, ◌<◌, ◌%◌, length};
ghost use Rattle.cluster_defs.specs.Scheduling.{pick, least_place};

use cluster_types::config::Scheme;

/// The first place of the least load.
fn least_place(loads: &[u32]) -> usize
    requires { 0 < length loads.now }
    ensures { result ≡ least_place loads.now }
{
    let mut least = 0;
    for place in 1..loads.len() {
        if loads[place] < loads[least] {
            least = place;
        }
    }
    least
}

/// The remainder of a word by the number of places.
fn remainder(word: u64, loads: &[u32]) -> usize
    requires { 0 < length loads.now }
    ensures { result ≡ word % length loads.now }
{
    (word % loads.len() as u64) as usize
}

/// The place of the load that a scheme picks. The loads stand in ascending order of last use, and the word is a
/// random one.
pub fn place_of(scheme: Scheme, loads: &[u32], word: u64) -> usize
    requires { 0 < length loads.now }
    ensures { result ≡ pick scheme loads.now word }
{
    match scheme {
        Scheme::Lru => 0,
        Scheme::LeastLoad => least_place(loads),
        Scheme::PlainRandom => remainder(word, loads),
        Scheme::TwoBin => {
            let low = remainder(word % 4_294_967_296, loads);
            let high = remainder(word / 4_294_967_296, loads);
            low.min(high)
        }
    }
}
