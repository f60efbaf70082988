//! Contents of queries, read.

ghost use Rattle.std.specs.Prelude.{◌≡◌, ◌⊎◌, Ok, Err, Some, None, IfOk, IfErr, option_map, codes};
ghost use Rattle.serde_json.specs.Find.{get};
ghost use Rattle.cluster_defs.specs.Fields.{each_of, list_in, or_bad};
ghost use Rattle.jupyter_header.specs.Borrowed.{view, items_view};
ghost use Rattle.cluster_defs.specs.FilterReadings.{bound_in, scalar_in, at_most_4096, choices_in, optional_from, conditions_in, test_from, test_of, tests_in, tests_from, no_tests, field_in, keys_from, asked_from, read_query};

use crate::fields::{all_fields, field_name, field_of, once};
use crate::keys::has_only;
use cluster_defs::fault::ReadError;
use cluster_defs::filter::{
    Asked, Conditions, Field, Fields, Scalar, Scalars, Test, Tests, Vocabulary,
};
use cluster_types::sequence::Sequence;
use cluster_types::text::Text;
use json::{Scratch, Value};
use jupyter_header::fields::bad;
use jupyter_header::object::read_object;
use jupyter_header::values::{get, is_null, is_object, items, text, whole};
use std::alloc::{AllocError, Global};

/// The greatest number of values to choose from.
const MOST_CHOICES: usize = 4_096;

/// The text or the whole number that a value is.
fn bound_in(alloc: Global, value: &Value<'_>) -> Result<Option<Scalar>, AllocError>
    ensures { IfOk result (λ r. r ≡ bound_in (view value.now)) }
{
    if let Some(found) = text(value) {
        return Ok(Some(Scalar::Text(Text::new(alloc, found)?)));
    }
    match whole(value) {
        Some(number) => Ok(Some(Scalar::Number(number))),
        None => Ok(None),
    }
}

/// The value to compare with that a value is.
fn scalar_in(alloc: Global, value: &Value<'_>) -> Result<Option<Scalar>, AllocError>
    ensures { IfOk result (λ r. r ≡ scalar_in (view value.now)) }
{
    if is_null(value) {
        return Ok(Some(Scalar::Null));
    }
    let bound = bound_in(alloc, value)?;
    Ok(bound)
}

/// What the values are, where each may be compared with.
fn scalars_of(alloc: Global, values: &[Value<'_>]) -> Result<Option<Scalars>, AllocError>
    ensures { IfOk result (λ r. r ≡ each_of scalar_in (items_view values.now)) }
{
    let mut scalars = Sequence::new(alloc);
    for value in values {
        let Some(scalar) = scalar_in(alloc, value)? else {
            return Ok(None);
        };
        scalars.push(scalar)?;
    }
    Ok(Some(scalars))
}

/// The same of a list that isn't too long.
fn short_list(alloc: Global, values: &[Value<'_>]) -> Result<Option<Scalars>, AllocError>
    ensures { IfOk result (λ r. r ≡ at_most_4096 (items_view values.now)) }
{
    if values.len() > MOST_CHOICES {
        return Ok(None);
    }
    let scalars = scalars_of(alloc, values)?;
    Ok(scalars)
}

/// The values to choose from that a value lists.
fn choices_in(alloc: Global, value: &Value<'_>) -> Result<Option<Scalars>, AllocError>
    ensures { IfOk result (λ r. r ≡ choices_in (view value.now)) }
{
    let Some(values) = items(value) else {
        return Ok(None);
    };
    short_list(alloc, values)
}

/// The values of an operator to choose from.
fn optional_choices(
    alloc: Global,
    value: &Value<'_>,
    operator: &str,
) -> Result<Option<Scalars>, ReadError>
    ensures ok { IfOk result (λ r. optional_from choices_in (get operator.now (view value.now)) ≡ Ok r) }
    ensures err { IfErr result (λ e. (e ≡ ReadError.OutOfMemory) ⊎ (optional_from choices_in (get operator.now (view value.now)) ≡ Err e)) }
{
    let Some(found) = get(value, operator) else {
        return Ok(None);
    };
    match choices_in(alloc, found)? {
        Some(choices) => Ok(Some(choices)),
        None => Err(bad(alloc, "query")),
    }
}

/// The value of an operator.
fn optional_scalar(
    alloc: Global,
    value: &Value<'_>,
    operator: &str,
) -> Result<Option<Scalar>, ReadError>
    ensures ok { IfOk result (λ r. optional_from scalar_in (get operator.now (view value.now)) ≡ Ok r) }
    ensures err { IfErr result (λ e. (e ≡ ReadError.OutOfMemory) ⊎ (optional_from scalar_in (get operator.now (view value.now)) ≡ Err e)) }
{
    let Some(found) = get(value, operator) else {
        return Ok(None);
    };
    match scalar_in(alloc, found)? {
        Some(scalar) => Ok(Some(scalar)),
        None => Err(bad(alloc, "query")),
    }
}

/// The text or number of an operator.
fn optional_bound(
    alloc: Global,
    value: &Value<'_>,
    operator: &str,
) -> Result<Option<Scalar>, ReadError>
    ensures ok { IfOk result (λ r. optional_from bound_in (get operator.now (view value.now)) ≡ Ok r) }
    ensures err { IfErr result (λ e. (e ≡ ReadError.OutOfMemory) ⊎ (optional_from bound_in (get operator.now (view value.now)) ≡ Err e)) }
{
    let Some(found) = get(value, operator) else {
        return Ok(None);
    };
    match bound_in(alloc, found)? {
        Some(bound) => Ok(Some(bound)),
        None => Err(bad(alloc, "query")),
    }
}

/// The conditions that the operators of an object set.
fn conditions_in(alloc: Global, value: &Value<'_>) -> Result<Conditions, ReadError>
    ensures ok { IfOk result (λ c. conditions_in (view value.now) ≡ Ok c) }
    ensures err { IfErr result (λ e. (e ≡ ReadError.OutOfMemory) ⊎ (conditions_in (view value.now) ≡ Err e)) }
{
    let among = optional_choices(alloc, value, "$in")?;
    let other_than = optional_scalar(alloc, value, "$ne")?;
    let below = optional_bound(alloc, value, "$lt")?;
    let above = optional_bound(alloc, value, "$gt")?;
    Ok(Conditions {
        among,
        other_than,
        below,
        above,
    })
}

/// The test that a value is.
fn test_from(alloc: Global, value: &Value<'_>) -> Result<Test, ReadError>
    ensures ok { IfOk result (λ t. test_from (view value.now) ≡ Ok t) }
    ensures err { IfErr result (λ e. (e ≡ ReadError.OutOfMemory) ⊎ (test_from (view value.now) ≡ Err e)) }
{
    if is_object(value) {
        if !has_only(Vocabulary::Operators, value) {
            return Err(bad(alloc, "query"));
        }
        let conditions = conditions_in(alloc, value)?;
        return Ok(Test::Meets(conditions));
    }
    match scalar_in(alloc, value)? {
        Some(scalar) => Ok(Test::Is(scalar)),
        None => Err(bad(alloc, "query")),
    }
}

/// The test of a field.
fn test_of(alloc: Global, value: &Value<'_>, field: Field) -> Result<Option<Test>, ReadError>
    ensures ok { IfOk result (λ t. test_of field (view value.now) ≡ Ok t) }
    ensures err { IfErr result (λ e. (e ≡ ReadError.OutOfMemory) ⊎ (test_of field (view value.now) ≡ Err e)) }
{
    let Some(found) = get(value, field_name(field)) else {
        return Ok(None);
    };
    let test = test_from(alloc, found)?;
    Ok(Some(test))
}

/// The tests of all fields.
fn tests_in(alloc: Global, value: &Value<'_>) -> Result<Tests, ReadError>
    ensures ok { IfOk result (λ t. tests_in (view value.now) ≡ Ok t) }
    ensures err { IfErr result (λ e. (e ≡ ReadError.OutOfMemory) ⊎ (tests_in (view value.now) ≡ Err e)) }
{
    let msg_id = test_of(alloc, value, Field::MsgId)?;
    let number = test_of(alloc, value, Field::Number)?;
    let kind = test_of(alloc, value, Field::Kind)?;
    let engine = test_of(alloc, value, Field::Engine)?;
    let state = test_of(alloc, value, Field::State)?;
    let cause = test_of(alloc, value, Field::Cause)?;
    Ok(Tests {
        msg_id,
        number,
        kind,
        engine,
        state,
        cause,
    })
}

/// No tests.
fn no_tests() -> Tests
    ensures { result ≡ no_tests }
{
    Tests {
        msg_id: None,
        number: None,
        kind: None,
        engine: None,
        state: None,
        cause: None,
    }
}

/// The tests of a query, which may be absent.
fn tests_from(alloc: Global, value: &Value<'_>) -> Result<Tests, ReadError>
    ensures ok { IfOk result (λ t. tests_from (get (codes "query") (view value.now)) ≡ Ok t) }
    ensures err { IfErr result (λ e. (e ≡ ReadError.OutOfMemory) ⊎ (tests_from (get (codes "query") (view value.now)) ≡ Err e)) }
{
    let Some(found) = get(value, "query") else {
        return Ok(no_tests());
    };
    if !has_only(Vocabulary::Fields, found) {
        return Err(bad(alloc, "query"));
    }
    tests_in(alloc, found)
}

/// The field that a value names.
fn field_in(value: &Value<'_>) -> Option<Field>
    ensures { result ≡ field_in (view value.now) }
{
    match text(value) {
        Some(name) => field_of(name),
        None => None,
    }
}

/// The fields that the values name, where each names one.
fn fields_of(alloc: Global, values: &[Value<'_>]) -> Result<Option<Fields>, AllocError>
    ensures { IfOk result (λ r. r ≡ each_of field_in (items_view values.now)) }
{
    let mut fields = Sequence::new(alloc);
    for value in values {
        let Some(field) = field_in(value) else {
            return Ok(None);
        };
        fields.push(field)?;
    }
    Ok(Some(fields))
}

/// The fields that a value lists.
fn field_list(alloc: Global, value: &Value<'_>) -> Result<Option<Fields>, AllocError>
    ensures { IfOk result (λ r. r ≡ list_in field_in (view value.now)) }
{
    let Some(values) = items(value) else {
        return Ok(None);
    };
    fields_of(alloc, values)
}

/// The fields that are shown.
fn keys_from(alloc: Global, value: &Value<'_>) -> Result<Fields, ReadError>
    ensures ok { IfOk result (λ k. keys_from (get (codes "keys") (view value.now)) ≡ Ok k) }
    ensures err { IfErr result (λ e. (e ≡ ReadError.OutOfMemory) ⊎ (keys_from (get (codes "keys") (view value.now)) ≡ Err e)) }
{
    let Some(found) = get(value, "keys") else {
        return Ok(all_fields(alloc)?);
    };
    match field_list(alloc, found)? {
        Some(fields) => Ok(once(alloc, fields.as_slice())?),
        None => Err(bad(alloc, "keys")),
    }
}

/// The query of an object.
fn asked_from(alloc: Global, value: &Value<'_>) -> Result<Asked, ReadError>
    ensures ok { IfOk result (λ a. asked_from (view value.now) ≡ Ok a) }
    ensures err { IfErr result (λ e. (e ≡ ReadError.OutOfMemory) ⊎ (asked_from (view value.now) ≡ Err e)) }
{
    let tests = tests_from(alloc, value)?;
    let keys = keys_from(alloc, value)?;
    Ok(Asked { tests, keys })
}

/// The query that a content is. `query` is looked at before `keys`; each may be absent.
#[tactic(auto, unfolding(cluster_defs::specs::FilterReadings::read_query))]
pub fn read_query(alloc: Global, content: &[u8], scratch: &mut Scratch) -> Result<Asked, ReadError>
    ensures ok { IfOk result (λ a. read_query content.now ≡ Ok a) }
    ensures err { IfErr result (λ e. (e ≡ ReadError.OutOfMemory) ⊎ (read_query content.now ≡ Err e)) }
{
    let value = read_object(alloc, content, scratch)?;
    asked_from(alloc, &value)
}
