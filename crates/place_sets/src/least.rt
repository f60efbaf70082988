//! The least of some places.

ghost use Rattle.std.specs.Prelude.{◌≡◌, ℕ, ◌||◌, Bool};
ghost use Rattle.place_sets.specs.Least.{IsLeast};

/// The lesser of two places, where there are two, and else the one there is: the least of what two were the least of.
pub fn lesser(one: Option<usize>, other: Option<usize>) -> Option<usize>
    ensures { (test : ℕ → Bool) (among : ℕ → Bool) (further : ℕ → Bool) → IsLeast test among one → IsLeast test further other → IsLeast test (λ i. among i || further i) result }
{
    match (one, other) {
        (Some(one), Some(other)) => Some(one.min(other)),
        (Some(one), None) => Some(one),
        (None, other) => other,
    }
}
