//! Names that came, without regard to case.

ghost use Rattle.std.specs.Prelude.{◌≡◌, ◌||◌, List, ℕ, [], IfOk, OnOk, not, bytes_eq};
ghost use Rattle.std.specs.List.{list_any};
ghost use Rattle.std.specs.Str.{str_to_ascii_lowercase};

use std::alloc::{AllocError, Global};
use std::collections::BTreeSet;
use std::marker::Model;

/// A set of names in lower case, which contracts see as a list of them in some order.
#[derive(Drop)]
pub struct Names {
    lowered: BTreeSet<Vec<u8>>,
}

impl Model for Names {
    ghost use Rattle.std.specs.Prelude.{List, ℕ, map};

    ghost Value = { List (List ℕ) };

    ghost view = { λ n. map (λ k. k.items) n.lowered.keys };
}

impl Names {
    /// No names, which takes no memory.
    pub fn new(alloc: Global) -> Names
        ensures { result ≡ [] }
    {
        Names {
            lowered: BTreeSet::new(alloc),
        }
    }

    /// Adds a name, and says whether it is new.
    pub fn add(&mut self, alloc: Global, name: &[u8]) -> Result<bool, AllocError>
        ensures added { IfOk result (λ fresh. fresh ≡ not (list_any (bytes_eq (str_to_ascii_lowercase name.now)) self.old)) }
        ensures names { OnOk result ((q : List ℕ) → list_any (bytes_eq q) self.new ≡ (bytes_eq q (str_to_ascii_lowercase name.now) || list_any (bytes_eq q) self.old)) }
    {
        let name = name.to_ascii_lowercase(alloc)?;
        let fresh = self.lowered.insert(name)?;
        Ok(fresh)
    }
}
