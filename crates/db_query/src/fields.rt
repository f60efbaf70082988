//! The fields that a query may name.

ghost use Rattle.std.specs.Prelude.{◌≡◌, IfOk, OnOk};
ghost use Rattle.std.specs.List.{list_any};
ghost use Rattle.cluster_defs.specs.FilterWords.{field_name, field_of, is_field, all_fields, with_new, once};

use cluster_defs::filter::{Field, Fields};
use cluster_types::sequence::Sequence;
use std::alloc::{AllocError, Global};

/// The name that a field has in a query and in an answer.
pub fn field_name(field: Field) -> &'static str
    ensures { result.now ≡ field_name field }
{
    match field {
        Field::MsgId => "msg_id",
        Field::Number => "number",
        Field::Kind => "kind",
        Field::Engine => "engine",
        Field::State => "state",
        Field::Cause => "cause",
    }
}

/// The field that a name names.
#[tactic(auto, unfolding(cluster_defs::specs::FilterWords::field_of))]
pub fn field_of(name: &str) -> Option<Field>
    ensures { result ≡ field_of name.now }
{
    if name == "msg_id" {
        Some(Field::MsgId)
    } else if name == "number" {
        Some(Field::Number)
    } else if name == "kind" {
        Some(Field::Kind)
    } else if name == "engine" {
        Some(Field::Engine)
    } else if name == "state" {
        Some(Field::State)
    } else if name == "cause" {
        Some(Field::Cause)
    } else {
        None
    }
}

/// Whether two fields are the same.
fn is_field(field: Field, other: Field) -> bool
    ensures { result ≡ is_field field other }
{
    field_name(field) == field_name(other)
}

/// Whether a field stands in a list.
fn is_listed(fields: &[Field], field: Field) -> bool
    ensures { result ≡ list_any (λ other. is_field other field) fields.now }
{
    fields.iter().any(|other| is_field(*other, field))
}

/// All fields, in the order in which an answer has them.
pub fn all_fields(alloc: Global) -> Result<Fields, AllocError>
    ensures { IfOk result (λ fields. fields ≡ all_fields) }
{
    let mut fields = Sequence::new(alloc);
    fields.push(Field::MsgId)?;
    fields.push(Field::Number)?;
    fields.push(Field::Kind)?;
    fields.push(Field::Engine)?;
    fields.push(Field::State)?;
    fields.push(Field::Cause)?;
    Ok(fields)
}

/// Puts a field at the end of a list that doesn't have it.
fn push_new(found: &mut Fields, field: Field) -> Result<(), AllocError>
    ensures { OnOk result (found.new ≡ with_new found.old field) }
{
    if is_listed(found.as_slice(), field) {
        return Ok(());
    }
    found.push(field)
}

/// Each field once, at its first place.
pub fn once(alloc: Global, fields: &[Field]) -> Result<Fields, AllocError>
    ensures { IfOk result (λ found. found ≡ once fields.now) }
{
    let mut found = Sequence::new(alloc);
    for field in fields {
        push_new(&mut found, *field)?;
    }
    Ok(found)
}
