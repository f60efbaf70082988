//! Fields of an object.

ghost use Rattle.std.specs.Prelude.{◌≡◌, ◌⊎◌, ◌≤◌, Ok, Err, Some, None, IfOk, IfErr, length, option_map, codes};
ghost use Rattle.serde_json.specs.Find.{get};
ghost use Rattle.jupyter_header.specs.Borrowed.{view};
ghost use Rattle.cluster_defs.specs.Fields.{is_id, id_in, id_from, text_from, flag_from, whole_from};

use crate::values::{flag, get, is_null, text, whole};
use cluster_defs::fault::ReadError;
use cluster_types::text::Text;
use json::Value;
use std::alloc::{AllocError, Global};

/// The id that a value is.
pub fn id_in<'a>(value: &Value<'a>) -> Option<&'a str>
    ensures { option_map (λ s. s.now) result ≡ id_in (view value.now) }
{
    match text(value) {
        Some(text) if 0 < text.len() && text.len() <= 255 => Some(text),
        _ => None,
    }
}

/// The fault of a field.
pub fn bad(alloc: Global, field: &str) -> ReadError
    ensures { (result ≡ ReadError.OutOfMemory) ⊎ (result ≡ ReadError.BadField field.now) }
{
    match Text::new(alloc, field) {
        Ok(field) => ReadError::BadField(field),
        Err(_) => ReadError::OutOfMemory,
    }
}

/// The fault of a field that isn't there.
pub fn missing(alloc: Global, field: &str) -> ReadError
    ensures { (result ≡ ReadError.OutOfMemory) ⊎ (result ≡ ReadError.Missing field.now) }
{
    match Text::new(alloc, field) {
        Ok(field) => ReadError::Missing(field),
        Err(_) => ReadError::OutOfMemory,
    }
}

/// A field that has to be an id.
pub fn id_field(alloc: Global, value: &Value<'_>, field: &str) -> Result<Text, ReadError>
    ensures ok { IfOk result (λ t. id_from field.now (get field.now (view value.now)) ≡ Ok t) }
    ensures err { IfErr result (λ e. (e ≡ ReadError.OutOfMemory) ⊎ (id_from field.now (get field.now (view value.now)) ≡ Err e)) }
{
    let Some(found) = get(value, field) else {
        return Err(missing(alloc, field));
    };
    match id_in(found) {
        Some(text) => Ok(Text::new(alloc, text)?),
        None => Err(bad(alloc, field)),
    }
}

/// A field's text, or the empty one.
pub fn text_field(alloc: Global, value: &Value<'_>, field: &str) -> Result<Text, AllocError>
    ensures { IfOk result (λ t. t ≡ text_from (get field.now (view value.now))) }
{
    let found = get(value, field).and_then(text).unwrap_or("");
    Text::new(alloc, found)
}

/// A boolean field, which may be absent. A fault names the field `at_fault`.
pub fn flag_field(
    alloc: Global,
    value: &Value<'_>,
    field: &str,
    default: bool,
    at_fault: &str,
) -> Result<bool, ReadError>
    ensures ok { IfOk result (λ b. flag_from at_fault.now default (get field.now (view value.now)) ≡ Ok b) }
    ensures err { IfErr result (λ e. (e ≡ ReadError.OutOfMemory) ⊎ (flag_from at_fault.now default (get field.now (view value.now)) ≡ Err e)) }
{
    let Some(found) = get(value, field) else {
        return Ok(default);
    };
    match flag(found) {
        Some(set) => Ok(set),
        None => Err(bad(alloc, at_fault)),
    }
}

/// A whole number up to a bound, which may be absent or null.
pub fn whole_field(
    alloc: Global,
    value: &Value<'_>,
    field: &str,
    most: u64,
) -> Result<u64, ReadError>
    ensures within { IfOk result (λ n. n ≤ most) }
    ensures ok { IfOk result (λ n. whole_from field.now most (get field.now (view value.now)) ≡ Ok n) }
    ensures err { IfErr result (λ e. (e ≡ ReadError.OutOfMemory) ⊎ (whole_from field.now most (get field.now (view value.now)) ≡ Err e)) }
{
    let Some(found) = get(value, field) else {
        return Ok(0);
    };
    if is_null(found) {
        return Ok(0);
    }
    match whole(found) {
        Some(n) if n <= most => Ok(n),
        _ => Err(bad(alloc, field)),
    }
}
