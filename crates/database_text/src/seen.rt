//! Texts that only clauses read.

ghost use Rattle.std.specs.Prelude.{◌≡◌, ℕ, List, [], ◌++◌};
ghost use Rattle.std.specs.Borrow.{ftrue};

use std::marker::{Model, PhantomData};

/// The octets of a text so far. It takes no memory, and its calls do nothing.
#[derive(Drop)]
pub struct Seen {
    marker: PhantomData<u8>,
    pub ghost octets: { List ℕ },
}

impl Model for Seen {
    ghost also_owns = { λ _. ftrue };
}

impl Seen {
    /// No octets.
    pub fn new() -> Seen
        ensures { result.octets ≡ [] }
    {
        Seen {
            marker: PhantomData,
        }
    }

    /// Adds a piece.
    pub fn add(&mut self, _piece: &[u8])
        ensures { self.new.octets ≡ self.old.octets ++ _piece.now }
    {}
}
