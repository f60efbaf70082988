//! Numbers one after another.

ghost use Rattle.std.specs.Prelude.{◌≡◌, List, ℕ, IfOk};
ghost use Rattle.thread_edges.specs.Series.{Comes};

use std::alloc::{AllocError, Global};
use std::marker::Model;

/// The numbers of a list, the last of them again and again.
#[derive(Drop)]
pub(crate) struct Series {
    numbers: Vec<u64>,
    at: usize,
}

impl Model for Series {
    ghost use Rattle.std.specs.Prelude.{List, ℕ, drop, ◌≤◌, length};

    ghost Value = { List ℕ };

    ghost view = { λ s. drop s.at s.numbers.items };

    ghost invariant = { λ s. s.at ≤ length s.numbers.items };
}

impl Series {
    pub(crate) fn new(alloc: Global, numbers: &[u64]) -> Result<Series, AllocError>
        ensures { IfOk result (λ s. s ≡ numbers.now) }
    {
        Ok(Series {
            numbers: Vec::from_slice(alloc, numbers)?,
            at: 0,
        })
    }

    /// The next number. It is 0 where the list is empty.
    pub(crate) fn next(&mut self) -> u64
        ensures { Comes result self.old self.new }
    {
        match &self.numbers[self.at..] {
            [] => 0,
            [last] => *last,
            [first, ..] => {
                let first = *first;
                self.at += 1;
                first
            }
        }
    }
}
