//! What a value behind a lock stands for, and what a pass knows of it.
ghost use Rattle.std.specs.Prelude.{◌≡◌};

use cluster_types::entry::Entry;
use std::alloc::Global;
use std::collections::LinkedList;

/// A list of entries, the newest first, and counts by their numbers. A count past the end of its list
/// is 0. No value of this type is made: it is what contracts see.
pub struct Content {
    pub list: LinkedList<Entry, Global>,
    pub counts: LinkedList<u64, Global>,
}

/// A value that stands for a list of entries and for counts.
pub trait Keeps {
    ghost use Rattle.history_lock.specs.declared.known.Content.{Content};

    ghost content: { Self → Content };

    /// What one turn may make of the value.
    ghost step: { Self → Self → Type 0 };

    ghost use Rattle.history_lock.specs.Loans.{Loan};

    /// What is out of the value while a pass has it, told by numbers.
    ghost loan: { Self → Loan };
}

/// What a pass knows. No value of this type is made, so that its numbers have no greatest one.
pub struct View {
    /// Another pass has taken it in.
    pub spent: bool,
    /// Its part of the lock, of which the passes together have the whole.
    pub share: u64,
    /// It has the turn, and the value with it.
    pub has_turn: bool,
    /// What it has seen.
    pub seen: Content,
    /// What another pass had seen that it is taking in.
    pub told: Content,
    /// The entries that it added, each with its place, the newest first.
    pub added: LinkedList<(u64, Entry), Global>,
}

/// What a pass knows, with the values that were ever left at home. No value of this type is made.
pub struct Knows<T> {
    /// What it knows of the history.
    pub view: View,
    /// The values left at home that it has seen, the newest first.
    pub log: LinkedList<T, Global>,
    /// Those that another pass had seen that it is taking in.
    pub told: LinkedList<T, Global>,
    /// What it holds of the value, by the same numbers.
    pub hold: Option<LinkedList<u64, Global>>,
}
