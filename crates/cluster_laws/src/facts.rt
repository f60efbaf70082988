//! Laws of what the facts of a history keep.

ghost use Rattle.cluster_laws.specs.Counts.{BeatsAreCounted, NowIsGreatest, MarkIsGreatest, SpentIsCounted, ExcludedDeclined};

/// The facts of any list of entries, said over the whole list in the words of the rules, and not step by step: how many
/// beats were made, what time it is, which beats engines are credited with, how many attempts of a task are spent, and which
/// engines are excluded from it.
pub fn facts_are_counted()
    ensures beats { BeatsAreCounted }
    ensures now { NowIsGreatest }
    ensures mark { MarkIsGreatest }
    ensures spent { SpentIsCounted }
    ensures excluded { ExcludedDeclined }
{}
