//! Counts of the ids that a dependency lists, by which it is judged without a look at an id.

ghost use Rattle.std.specs.Prelude.{◌≡◌, ◌==◌, ◌<◌, ◌≤◌, ◌&&◌, [], Option, length};
ghost use Rattle.cluster_defs.specs.Words.{Id};
ghost use Rattle.cluster_defs.specs.declared.settled.Settled.{Settled as SettledType};
ghost use Rattle.cluster_defs.specs.Dependencies.{met, unreachable};
ghost use Rattle.dependency_sets.specs.Counting.{counts_among, counts_of, with_one, counted, HasOne};

use crate::dependencies::{is_asked, is_empty};
use cluster_defs::settled::Settled;
use cluster_types::event::Dep;

/// How many of the distinct ids that a dependency lists are open, finished as asked, and finished otherwise.
#[derive(Clone, Copy, Debug)]
pub struct IdCounts {
    pub pending: usize,
    pub asked: usize,
    pub other: usize,
}

impl IdCounts {
    /// Those of no ids.
    pub fn none() -> IdCounts
        ensures { (d : Dep) (settled : Id → Option SettledType) → result ≡ counts_among d settled [] }
    {
        IdCounts {
            pending: 0,
            asked: 0,
            other: 0,
        }
    }

    /// Counts an id that is settled so.
    pub fn count(&mut self, dep: &Dep, settled: Option<Settled>)
        requires { counted self.old < length dep.now.ids }
        ensures { self.new ≡ with_one dep.now settled self.old }
    {
        let _many = dep.ids.as_slice().len();
        match settled {
            None => self.pending += 1,
            Some(_) if is_asked(dep, settled) => self.asked += 1,
            Some(_) => self.other += 1,
        }
    }

    /// Takes an id out that was settled so.
    fn leave_out(&mut self, dep: &Dep, settled: Option<Settled>)
        requires { HasOne dep.now settled self.old }
        ensures { with_one dep.now settled self.new ≡ self.old }
    {
        match settled {
            None => self.pending -= 1,
            Some(_) if is_asked(dep, settled) => self.asked -= 1,
            Some(_) => self.other -= 1,
        }
    }

    /// Counts an id anew, once it is settled otherwise than before.
    pub fn change(&mut self, dep: &Dep, before: Option<Settled>, now: Option<Settled>)
        requires there { HasOne dep.now before self.old }
        requires room { counted self.old ≤ length dep.now.ids }
        ensures { with_one dep.now before self.new ≡ with_one dep.now now self.old }
    {
        self.leave_out(dep, before);
        self.count(dep, now);
    }

    /// Whether each id finished as asked.
    fn all_asked(&self) -> bool
        ensures { result ≡ (self.now.pending == 0 && self.now.other == 0) }
    {
        self.pending == 0 && self.other == 0
    }

    /// Whether each id finished otherwise.
    fn all_other(&self) -> bool
        ensures { result ≡ (self.now.pending == 0 && self.now.asked == 0) }
    {
        self.pending == 0 && self.asked == 0
    }

    /// Whether the dependency is met.
    pub fn is_met(&self, dep: &Dep) -> bool
        ensures { (settled : Id → Option SettledType) → self.now ≡ counts_of dep.now settled → result ≡ met dep.now settled }
    {
        if is_empty(&dep.ids) {
            true
        } else if dep.all {
            self.all_asked()
        } else {
            self.asked != 0
        }
    }

    /// Whether it can't be met any more.
    pub fn is_unreachable(&self, dep: &Dep) -> bool
        ensures { (settled : Id → Option SettledType) → self.now ≡ counts_of dep.now settled → result ≡ unreachable dep.now settled }
    {
        if is_empty(&dep.ids) {
            false
        } else if dep.all {
            self.other != 0
        } else {
            self.all_other()
        }
    }
}
