//! Laws of steps and batches, over the definitions alone.

ghost use Rattle.std.specs.Prelude.{◌≡◌, ◌<◌, ◌≤◌, ◌++◌, ℕ, List, length, take};
ghost use Rattle.cluster_types.specs.declared.entry.Entry.{Entry};
ghost use Rattle.record_codec.specs.Records.{spellings};
ghost use Rattle.journal_standby.specs.Batches.{batches, joined};
ghost use Rattle.journal_standby.specs.Steps.{EndsStep, HasShortSteps, most_in_step};

/// The first batches of a list, so many, end with a step of it.
pub fn batches_end_steps()
    ensures { (list : List Entry) (count : ℕ) → 0 < count → EndsStep list (joined (take count (batches list))) }
{}

/// A list whose records have at most 2^31 octets together has short steps.
pub fn short_lists_have_short_steps()
    ensures { (list : List Entry) → length (spellings list) ≤ most_in_step → HasShortSteps list }
{}
