//! The values of `$in`, laid out to be looked up.

ghost use Rattle.std.specs.Prelude.{◌≡◌, ◌==◌, ◌||◌, [], ℕ, List, false, is_some, IfOk, OnOk, bytes_eq};
ghost use Rattle.std.specs.BTreeMap.{get_by};
ghost use Rattle.std.specs.BTreeSet.{contains};
ghost use Rattle.std.specs.Cmp.Lexicographic.{slice_cmp};
ghost use Rattle.std.specs.Option.{option_and_then};
ghost use Rattle.std.specs.Ordering.{nat_cmp};
ghost use Rattle.db_query.specs.Laid.{has, Gains, AreLaid, AreChoices, among_in, AreLookups};
ghost use Rattle.db_query.specs.Shown.{shown_as};

use crate::shown::Shown;
use cluster_defs::filter::{Scalar, Test, Tests};
use cluster_types::text::Text;
use std::alloc::{AllocError, Global};
use std::collections::{BTreeMap, BTreeSet};

/// Values to choose from, which are looked up and not gone through.
#[derive(Debug, Drop)]
pub struct Choices<'q> {
    pub null: bool,
    pub texts: BTreeMap<&'q str, ()>,
    pub numbers: BTreeSet<u64>,
}

/// The values to choose from of the test of each field that has such.
#[derive(Debug, Drop)]
pub struct Lookups<'q> {
    pub msg_id: Option<Choices<'q>>,
    pub number: Option<Choices<'q>>,
    pub kind: Option<Choices<'q>>,
    pub engine: Option<Choices<'q>>,
    pub state: Option<Choices<'q>>,
    pub cause: Option<Choices<'q>>,
}

/// Puts a text into a set of texts.
fn add_text<'q>(texts: &mut BTreeMap<&'q str, ()>, text: &'q Text) -> Result<(), AllocError>
    ensures { OnOk result ((q : List ℕ) → is_some (get_by (λ k. slice_cmp nat_cmp q k.now) texts.new) ≡ (is_some (get_by (λ k. slice_cmp nat_cmp q k.now) texts.old) || bytes_eq text.now q)) }
{
    texts.insert(text.as_str(), ())?;
    Ok(())
}

/// Puts a number into a set of numbers.
fn add_number(numbers: &mut BTreeSet<u64>, number: u64) -> Result<(), AllocError>
    ensures { OnOk result ((q : ℕ) → contains nat_cmp numbers.new q ≡ (contains nat_cmp numbers.old q || number == q)) }
{
    numbers.insert(number)?;
    Ok(())
}

impl<'q> Choices<'q> {
    /// No values.
    fn new(alloc: Global) -> Choices<'q>
        ensures null { result.null ≡ false }
        ensures texts { (q : List ℕ) → is_some (get_by (λ k. slice_cmp nat_cmp q k.now) result.texts) ≡ false }
        ensures numbers { (q : ℕ) → contains nat_cmp result.numbers q ≡ false }
    {
        Choices {
            null: false,
            texts: BTreeMap::new(alloc),
            numbers: BTreeSet::new(alloc),
        }
    }

    /// Adds a value.
    fn add(&mut self, scalar: &'q Scalar) -> Result<(), AllocError>
        ensures { OnOk result (Gains self.old scalar.now self.new) }
    {
        match scalar {
            Scalar::Null => {
                self.null = true;
                Ok(())
            }
            Scalar::Text(text) => {
                add_text(&mut self.texts, text)?;
                Ok(())
            }
            Scalar::Number(number) => {
                add_number(&mut self.numbers, *number)?;
                Ok(())
            }
        }
    }

    /// Whether a value that a record has is one of them.
    pub fn has(&self, shown: Shown<'_>) -> bool
        ensures { result ≡ has self.now (shown_as shown.entry) }
    {
        match shown {
            Shown::Null => self.null,
            Shown::Text(text) => self.texts.contains_key(text),
            Shown::Number(number) => self.numbers.contains(&number),
        }
    }
}

/// These values, laid out.
fn laid<'q>(alloc: Global, scalars: &'q [Scalar]) -> Result<Choices<'q>, AllocError>
    ensures { IfOk result (λ c. AreLaid scalars.now c) }
{
    let mut choices = Choices::new(alloc);
    for scalar in scalars {
        choices.add(scalar)?;
    }
    Ok(choices)
}

/// The values to choose from of a test, if it has such, laid out.
fn choices_of<'q>(alloc: Global, test: &'q Option<Test>) -> Result<Option<Choices<'q>>, AllocError>
    ensures { IfOk result (λ c. AreChoices (option_and_then among_in test.now) c) }
{
    let Some(Test::Meets(conditions)) = test else {
        return Ok(None);
    };
    let Some(scalars) = &conditions.among else {
        return Ok(None);
    };
    let choices = laid(alloc, scalars.as_slice())?;
    Ok(Some(choices))
}

/// The values to choose from of all tests, laid out.
pub fn lookups_of<'q>(alloc: Global, tests: &'q Tests) -> Result<Lookups<'q>, AllocError>
    ensures { IfOk result (λ l. AreLookups tests.now l) }
{
    let msg_id = choices_of(alloc, &tests.msg_id)?;
    let number = choices_of(alloc, &tests.number)?;
    let kind = choices_of(alloc, &tests.kind)?;
    let engine = choices_of(alloc, &tests.engine)?;
    let state = choices_of(alloc, &tests.state)?;
    let cause = choices_of(alloc, &tests.cause)?;
    Ok(Lookups {
        msg_id,
        number,
        kind,
        engine,
        state,
        cause,
    })
}
