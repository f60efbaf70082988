//! A stored chooser, with the fact that it picks by the scheme.

ghost use Rattle.std.specs.Prelude.{◌≡◌, ◌<◌, length};
ghost use Rattle.cluster_defs.specs.Scheduling.{pick};

use cluster_types::config::Scheme;

/// Picks a place by a scheme, the loads of the engines and a random word.
pub type Choose = Box<dyn Fn(Scheme, &[u32], u64) -> usize + Send>;

/// A closure that picks a place by each scheme.
#[derive(Drop)]
pub struct Chooser {
    choose: Choose,
    ghost callable: { (s : _) (loads : _) (word : _) → 0 < length loads.now → Choose.pre choose s loads word },
    ghost right: { (s : _) (loads : _) (word : _) (place : _) → 0 < length loads.now → Choose.post choose s loads word place → place ≡ pick s loads.now word },
}

impl Chooser {
    /// A chooser of a closure that is right on every list of loads that isn't empty.
    pub fn new(choose: Choose) -> Chooser
        requires callable { (s : _) (loads : _) (word : _) → 0 < length loads.now → Choose.pre choose s loads word }
        requires right { (s : _) (loads : _) (word : _) (place : _) → 0 < length loads.now → Choose.post choose s loads word place → place ≡ pick s loads.now word }
    {
        Chooser { choose }
    }

    /// The place of the load that the scheme picks. The loads stand in ascending order of last use.
    pub fn choose(&self, scheme: Scheme, loads: &[u32], word: u64) -> usize
        requires { 0 < length loads.now }
        ensures { result ≡ pick scheme loads.now word }
    {
        (self.choose)(scheme, loads, word)
    }
}
