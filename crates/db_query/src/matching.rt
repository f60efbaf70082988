//! Whether a record passes the tests of a query.

ghost use Rattle.std.specs.Prelude.{◌≡◌};
ghost use Rattle.std.specs.Option.{option_and_then};
ghost use Rattle.cluster_defs.specs.Filter.{is_same, is_below, meets, holds, holds_of, matches, is_found, where_there, value_of};
ghost use Rattle.db_query.specs.Laid.{has, AreChoices, among_in, AreLookups};
ghost use Rattle.db_query.specs.Shown.{shown_as};

use crate::choices::{Choices, Lookups};
use crate::shown::{Shown, value_in};
use cluster_defs::filter::{Conditions, Field, Scalar, Test, Tests};
use cluster_types::record::Record;

/// Whether a value is equal to one that a record has.
fn is_same(scalar: &Scalar, shown: Shown<'_>) -> bool
    ensures { result ≡ is_same scalar.now (shown_as shown.entry) }
{
    match scalar {
        Scalar::Null => matches!(shown, Shown::Null),
        Scalar::Text(text) => matches!(shown, Shown::Text(other) if text.as_str() == other),
        Scalar::Number(number) => matches!(shown, Shown::Number(other) if *number == other),
    }
}

/// Whether one that a record has is below a bound.
fn is_below(shown: Shown<'_>, bound: &Scalar) -> bool
    ensures { result ≡ is_below (shown_as shown.entry) bound.now }
{
    match bound {
        Scalar::Null => false,
        Scalar::Text(text) => matches!(shown, Shown::Text(other) if other < text.as_str()),
        Scalar::Number(number) => matches!(shown, Shown::Number(other) if other < *number),
    }
}

/// Whether one that a record has is above a bound.
fn is_above(shown: Shown<'_>, bound: &Scalar) -> bool
    ensures { result ≡ is_below bound.now (shown_as shown.entry) }
{
    match bound {
        Scalar::Null => false,
        Scalar::Text(text) => matches!(shown, Shown::Text(other) if text.as_str() < other),
        Scalar::Number(number) => matches!(shown, Shown::Number(other) if *number < other),
    }
}

/// Whether one that a record has is among the values to choose from, where there are such.
fn is_among(choices: &Option<Choices<'_>>, shown: Shown<'_>) -> bool
    ensures { result ≡ where_there (λ c. has c (shown_as shown.entry)) choices.now }
{
    match choices {
        Some(choices) => choices.has(shown),
        None => true,
    }
}

/// Whether it meets all conditions.
#[tactic(auto, using(crate::proofs::Layings::among_is))]
fn meets(shown: Shown<'_>, conditions: &Conditions, choices: &Option<Choices<'_>>) -> bool
    requires { AreChoices conditions.now.among choices.now }
    ensures { result ≡ meets (shown_as shown.entry) conditions.now }
{
    if !is_among(choices, shown) {
        return false;
    }
    if let Some(other) = &conditions.other_than
        && is_same(other, shown)
    {
        return false;
    }
    if let Some(bound) = &conditions.below
        && !is_below(shown, bound)
    {
        return false;
    }
    if let Some(bound) = &conditions.above
        && !is_above(shown, bound)
    {
        return false;
    }
    true
}

/// Whether a test holds.
fn holds(shown: Shown<'_>, test: &Test, choices: &Option<Choices<'_>>) -> bool
    requires { AreChoices (among_in test.now) choices.now }
    ensures { result ≡ holds (shown_as shown.entry) test.now }
{
    match test {
        Test::Is(scalar) => is_same(scalar, shown),
        Test::Meets(conditions) => meets(shown, conditions, choices),
    }
}

/// Whether a test of a field holds, if there is one.
fn holds_of(field: Field, task: &Record, test: &Option<Test>, choices: &Option<Choices<'_>>) -> bool
    requires { AreChoices (option_and_then among_in test.now) choices.now }
    ensures { result ≡ holds_of field task.now test.now }
{
    match test {
        Some(test) => holds(value_in(field, task), test, choices),
        None => true,
    }
}

/// Whether each test holds of its field.
fn matches(tests: &Tests, lookups: &Lookups<'_>, task: &Record) -> bool
    requires { AreLookups tests.now lookups.now }
    ensures { result ≡ matches tests.now task.now }
{
    holds_of(Field::MsgId, task, &tests.msg_id, &lookups.msg_id)
        && holds_of(Field::Number, task, &tests.number, &lookups.number)
        && holds_of(Field::Kind, task, &tests.kind, &lookups.kind)
        && holds_of(Field::Engine, task, &tests.engine, &lookups.engine)
        && holds_of(Field::State, task, &tests.state, &lookups.state)
        && holds_of(Field::Cause, task, &tests.cause, &lookups.cause)
}

/// Whether a query finds a record: one that isn't purged and passes its tests.
pub fn is_found(tests: &Tests, lookups: &Lookups<'_>, task: &Record) -> bool
    requires { AreLookups tests.now lookups.now }
    ensures { result ≡ is_found tests.now task.now }
{
    !task.purged && matches(tests, lookups, task)
}
