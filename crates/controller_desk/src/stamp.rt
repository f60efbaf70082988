//! What is drawn for a step.

ghost use Rattle.std.specs.Prelude.{◌≤◌};
ghost use Rattle.cluster_types.specs.Limits.{last_moment};

/// The moment of a step, in milliseconds, and its random word.
#[derive(Clone, Copy, Debug)]
pub struct Stamp {
    pub moment: u64,
    pub word: u64,
    ghost dated: { moment ≤ last_moment },
}
