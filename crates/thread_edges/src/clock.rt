//! The time.

ghost use Rattle.std.specs.Prelude.{◌≡◌, ◌≤◌, List, ℕ, Option, Some, IfOk, All};
ghost use Rattle.cluster_types.specs.Limits.{last_moment};
ghost use Rattle.thread_edges.specs.Series.{Draws, Comes};

use crate::series::Series;
use edges::date::Moment;
use std::alloc::{AllocError, Global};
use std::marker::Model;

pub trait Clock {
    /// The moments that come, the last of them again and again, where the clock tells.
    ghost coming: { Self → Option (List ℕ) };

    /// The moment that it is. It may be before the last one.
    fn now(&mut self) -> Moment
        ensures limit { result.millis ≤ last_moment }
        ensures draws { Draws result.millis (coming self.old) (coming self.new) };
}

/// A clock that reads the moments of a list.
#[derive(Drop)]
pub struct ListClock {
    moments: Series,
}

impl Model for ListClock {
    ghost use Rattle.std.specs.Prelude.{List, ℕ, All, ◌≤◌};
    ghost use Rattle.cluster_types.specs.Limits.{last_moment};

    ghost Value = { List ℕ };

    ghost view = { λ c. c.moments };

    ghost invariant = { λ c. All (λ m. m ≤ last_moment) c.moments };
}

impl ListClock {
    /// A clock of these moments. Where there are none it reads 0.
    pub fn new(alloc: Global, moments: &[u64]) -> Result<ListClock, AllocError>
        requires { All (λ m. m ≤ last_moment) moments.now }
        ensures { IfOk result (λ clock. clock ≡ moments.now) }
    {
        Ok(ListClock {
            moments: Series::new(alloc, moments)?,
        })
    }
}

impl Clock for ListClock {
    ghost use Rattle.std.specs.Prelude.{Some};

    ghost coming = { λ c. Some c };

    fn now(&mut self) -> Moment {
        Moment {
            millis: self.moments.next(),
        }
    }
}
