//! Random words.

ghost use Rattle.std.specs.Prelude.{◌≡◌, List, ℕ, Option, Some, IfOk};
ghost use Rattle.thread_edges.specs.Series.{Draws, Comes};

use crate::series::Series;
use std::alloc::{AllocError, Global};
use std::marker::Model;

pub trait Words {
    /// The words that come, the last of them again and again, where the source of words tells.
    ghost coming: { Self → Option (List ℕ) };

    /// The next word.
    fn next(&mut self) -> u64
        ensures draws { Draws result (coming self.old) (coming self.new) };
}

/// The words of a list.
#[derive(Drop)]
pub struct ListWords {
    words: Series,
}

impl Model for ListWords {
    ghost use Rattle.std.specs.Prelude.{List, ℕ};

    ghost Value = { List ℕ };

    ghost view = { λ w. w.words };
}

impl ListWords {
    /// These words. Where there are none each word is 0.
    pub fn new(alloc: Global, words: &[u64]) -> Result<ListWords, AllocError>
        ensures { IfOk result (λ w. w ≡ words.now) }
    {
        Ok(ListWords {
            words: Series::new(alloc, words)?,
        })
    }
}

impl Words for ListWords {
    ghost use Rattle.std.specs.Prelude.{Some};

    ghost coming = { λ w. Some w };

    fn next(&mut self) -> u64 {
        self.words.next()
    }
}
