//! What the definitions say together.

ghost use Rattle.std.specs.Prelude.{◌≡◌, ◌≤◌, ℕ, All};
ghost use Rattle.tape.specs.Spelling.{Fits};
ghost use Rattle.quick_commands.specs.Draws.{draw};
ghost use Rattle.quick_commands.specs.Generated.{most_tasks, generated};

/// The first two numbers that are drawn from the seed 1.
pub fn first_draws()
    ensures first { draw 1 1 ≡ 1103527590 }
    ensures second { draw 1 2 ≡ 377401575 }
{}

/// Each record has a spelling.
pub fn records_fit()
    ensures { (seed tasks : ℕ) → tasks ≤ most_tasks → All Fits (generated seed tasks) }
{}
