//! The content of an `execute_request`.

ghost use Rattle.std.specs.Prelude.{◌≡◌, ◌⊎◌, Ok, Err, Some, None, IfOk, IfErr, option_map, true, false, codes};
ghost use Rattle.serde_json.specs.Find.{get};
ghost use Rattle.serde_json.specs.View.{view, members_view};
ghost use Rattle.cluster_defs.specs.Json.{json_of, read_object};
ghost use Rattle.cluster_defs.specs.Fields.{flag_from};
ghost use Rattle.engine_core.specs.Request.{code_from, expression_in, expressions_of, expressions_in, expressions_from, read_execute};

use crate::request::{ExecuteRequest, Expression};
use cluster_defs::fault::ReadError;
use cluster_types::sequence::Sequence;
use cluster_types::text::Text;
use serde_json::{Map, Value};
use std::alloc::{AllocError, Global};
use std::str;

/// The value of a JSON text.
fn parse(alloc: Global, octets: &[u8]) -> Result<Value, ReadError>
    ensures ok { IfOk result (λ v. json_of octets.now ≡ Some (view v)) }
    ensures err { IfErr result (λ e. (e ≡ ReadError.OutOfMemory) ⊎ (e ≡ ReadError.NotJson) × (json_of octets.now ≡ None)) }
{
    let Ok(text) = str::from_utf8(octets) else {
        return Err(ReadError::NotJson);
    };
    match Value::from_str(alloc, text) {
        Ok(value) => Ok(value),
        Err(error) if error.is_memory() => Err(ReadError::OutOfMemory),
        Err(_) => Err(ReadError::NotJson),
    }
}

/// The object of a JSON text.
fn read_object(alloc: Global, octets: &[u8]) -> Result<Value, ReadError>
    ensures ok { IfOk result (λ v. read_object octets.now ≡ Ok (view v)) }
    ensures err { IfErr result (λ e. (e ≡ ReadError.OutOfMemory) ⊎ (read_object octets.now ≡ Err e)) }
{
    let value = parse(alloc, octets)?;
    if !value.is_object() {
        return Err(ReadError::NotObject);
    }
    Ok(value)
}

/// The fault of a field.
fn bad(alloc: Global, field: &str) -> ReadError
    ensures { (result ≡ ReadError.OutOfMemory) ⊎ (result ≡ ReadError.BadField field.now) }
{
    match Text::new(alloc, field) {
        Ok(field) => ReadError::BadField(field),
        Err(_) => ReadError::OutOfMemory,
    }
}

/// The fault of a field that isn't there.
fn missing(alloc: Global, field: &str) -> ReadError
    ensures { (result ≡ ReadError.OutOfMemory) ⊎ (result ≡ ReadError.Missing field.now) }
{
    match Text::new(alloc, field) {
        Ok(field) => ReadError::Missing(field),
        Err(_) => ReadError::OutOfMemory,
    }
}

/// A field that has to be a text.
fn code_field(alloc: Global, value: &Value, field: &str) -> Result<Text, ReadError>
    ensures ok { IfOk result (λ t. code_from field.now (get field.now (view value.now)) ≡ Ok t) }
    ensures err { IfErr result (λ e. (e ≡ ReadError.OutOfMemory) ⊎ (code_from field.now (get field.now (view value.now)) ≡ Err e)) }
{
    let Some(found) = value.get(field) else {
        return Err(missing(alloc, field));
    };
    match found.as_str() {
        Some(text) => Ok(Text::new(alloc, text)?),
        None => Err(bad(alloc, field)),
    }
}

/// A boolean field, which may be absent.
fn flag_field(alloc: Global, value: &Value, field: &str, default: bool) -> Result<bool, ReadError>
    ensures ok { IfOk result (λ b. flag_from field.now default (get field.now (view value.now)) ≡ Ok b) }
    ensures err { IfErr result (λ e. (e ≡ ReadError.OutOfMemory) ⊎ (flag_from field.now default (get field.now (view value.now)) ≡ Err e)) }
{
    let Some(found) = value.get(field) else {
        return Ok(default);
    };
    match found.as_bool() {
        Some(flag) => Ok(flag),
        None => Err(bad(alloc, field)),
    }
}

/// The expression that a member of an object is, where it is a text.
fn expression_in(alloc: Global, name: &str, value: &Value) -> Result<Option<Expression>, AllocError>
    ensures { IfOk result (λ r. r ≡ expression_in name.now (view value.now)) }
{
    let Some(code) = value.as_str() else {
        return Ok(None);
    };
    Ok(Some(Expression {
        name: Text::new(alloc, name)?,
        code: Text::new(alloc, code)?,
    }))
}

/// The members of an object as expressions, where each is a text.
fn expressions_of(
    alloc: Global,
    members: &Map<String, Value>,
) -> Result<Option<Sequence<Expression>>, AllocError>
    ensures { IfOk result (λ r. r ≡ expressions_of (members_view members.now.entries)) }
{
    let mut expressions = Sequence::new(alloc);
    for (name, value) in members.iter() {
        let Some(expression) = expression_in(alloc, name.as_str(), value)? else {
            return Ok(None);
        };
        expressions.push(expression)?;
    }
    Ok(Some(expressions))
}

/// The expressions that an object of texts is.
fn expressions_in(alloc: Global, value: &Value) -> Result<Option<Sequence<Expression>>, AllocError>
    ensures { IfOk result (λ r. r ≡ expressions_in (view value.now)) }
{
    let Some(members) = value.as_object() else {
        return Ok(None);
    };
    expressions_of(alloc, members)
}

/// An object of texts, which may be absent.
fn expressions_field(
    alloc: Global,
    value: &Value,
    field: &str,
) -> Result<Sequence<Expression>, ReadError>
    ensures ok { IfOk result (λ es. expressions_from field.now (get field.now (view value.now)) ≡ Ok es) }
    ensures err { IfErr result (λ e. (e ≡ ReadError.OutOfMemory) ⊎ (expressions_from field.now (get field.now (view value.now)) ≡ Err e)) }
{
    let Some(found) = value.get(field) else {
        return Ok(Sequence::new(alloc));
    };
    match expressions_in(alloc, found)? {
        Some(expressions) => Ok(expressions),
        None => Err(bad(alloc, field)),
    }
}

/// What the content of an `execute_request` asks for, or the first fault in the order of the fields.
#[tactic(auto, unfolding(crate::specs::Request::read_execute))]
pub fn read_execute(alloc: Global, content: &[u8]) -> Result<ExecuteRequest, ReadError>
    ensures ok { IfOk result (λ r. read_execute content.now ≡ Ok r) }
    ensures err { IfErr result (λ e. (e ≡ ReadError.OutOfMemory) ⊎ (read_execute content.now ≡ Err e)) }
{
    let value = read_object(alloc, content)?;
    Ok(ExecuteRequest {
        code: code_field(alloc, &value, "code")?,
        silent: flag_field(alloc, &value, "silent", false)?,
        store_history: flag_field(alloc, &value, "store_history", true)?,
        user_expressions: expressions_field(alloc, &value, "user_expressions")?,
    })
}
