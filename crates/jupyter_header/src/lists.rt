//! Lists in an object.

ghost use Rattle.std.specs.Prelude.{◌≡◌, ◌⊎◌, Ok, Err, Some, None, IfOk, IfErr, length, option_map};
ghost use Rattle.serde_json.specs.Find.{get};
ghost use Rattle.jupyter_header.specs.Borrowed.{view, items_view};
ghost use Rattle.cluster_defs.specs.Fields.{id_in, each_of, list_in, list_from, ids_from};
ghost use Rattle.cluster_defs.specs.Hub.{engine_in};

use crate::fields::{bad, id_in, missing};
use crate::values::{get, is_null, items, whole};
use cluster_defs::fault::ReadError;
use cluster_types::message::{Engines, Ids};
use cluster_types::sequence::Sequence;
use cluster_types::text::Text;
use json::Value;
use std::alloc::{AllocError, Global};

/// The ids that the values are, where each is one.
pub fn ids_of(alloc: Global, values: &[Value<'_>]) -> Result<Option<Ids>, AllocError>
    ensures { IfOk result (λ r. r ≡ each_of id_in (items_view values.now)) }
{
    let mut ids = Sequence::new(alloc);
    for value in values {
        let Some(id) = id_in(value) else {
            return Ok(None);
        };
        ids.push(Text::new(alloc, id)?)?;
    }
    Ok(Some(ids))
}

/// The engine's number that a value is.
fn engine_in(value: &Value<'_>) -> Option<u32>
    ensures { result ≡ engine_in (view value.now) }
{
    match whole(value) {
        Some(n) if n < 4_294_967_296 => Some(n as u32),
        _ => None,
    }
}

/// The engines' numbers that the values are, where each is one.
fn engines_of(alloc: Global, values: &[Value<'_>]) -> Result<Option<Engines>, AllocError>
    ensures { IfOk result (λ r. r ≡ each_of engine_in (items_view values.now)) }
{
    let mut engines = Sequence::new(alloc);
    for value in values {
        let Some(engine) = engine_in(value) else {
            return Ok(None);
        };
        engines.push(engine)?;
    }
    Ok(Some(engines))
}

/// The ids that a list has, where each is one.
pub fn id_list(alloc: Global, value: &Value<'_>) -> Result<Option<Ids>, AllocError>
    ensures { IfOk result (λ r. r ≡ list_in id_in (view value.now)) }
{
    let Some(values) = items(value) else {
        return Ok(None);
    };
    ids_of(alloc, values)
}

/// The engines' numbers that a list has, where each is one.
fn engine_list(alloc: Global, value: &Value<'_>) -> Result<Option<Engines>, AllocError>
    ensures { IfOk result (λ r. r ≡ list_in engine_in (view value.now)) }
{
    let Some(values) = items(value) else {
        return Ok(None);
    };
    engines_of(alloc, values)
}

/// A field that has to be a list of ids.
pub fn ids_field(alloc: Global, value: &Value<'_>, field: &str) -> Result<Ids, ReadError>
    ensures ok { IfOk result (λ ids. ids_from field.now (get field.now (view value.now)) ≡ Ok ids) }
    ensures err { IfErr result (λ e. (e ≡ ReadError.OutOfMemory) ⊎ (ids_from field.now (get field.now (view value.now)) ≡ Err e)) }
{
    let Some(found) = get(value, field) else {
        return Err(missing(alloc, field));
    };
    match id_list(alloc, found)? {
        Some(ids) => Ok(ids),
        None => Err(bad(alloc, field)),
    }
}

/// A list of ids, which may be absent or null.
pub fn optional_ids(alloc: Global, value: &Value<'_>, field: &str) -> Result<Ids, ReadError>
    ensures ok { IfOk result (λ ids. list_from id_in field.now (get field.now (view value.now)) ≡ Ok ids) }
    ensures err { IfErr result (λ e. (e ≡ ReadError.OutOfMemory) ⊎ (list_from id_in field.now (get field.now (view value.now)) ≡ Err e)) }
{
    let Some(found) = get(value, field) else {
        return Ok(Sequence::new(alloc));
    };
    if is_null(found) {
        return Ok(Sequence::new(alloc));
    }
    match id_list(alloc, found)? {
        Some(ids) => Ok(ids),
        None => Err(bad(alloc, field)),
    }
}

/// A list of engines' numbers, which may be absent or null.
pub fn optional_engines(alloc: Global, value: &Value<'_>, field: &str) -> Result<Engines, ReadError>
    ensures ok { IfOk result (λ engines. list_from engine_in field.now (get field.now (view value.now)) ≡ Ok engines) }
    ensures err { IfErr result (λ e. (e ≡ ReadError.OutOfMemory) ⊎ (list_from engine_in field.now (get field.now (view value.now)) ≡ Err e)) }
{
    let Some(found) = get(value, field) else {
        return Ok(Sequence::new(alloc));
    };
    if is_null(found) {
        return Ok(Sequence::new(alloc));
    }
    match engine_list(alloc, found)? {
        Some(engines) => Ok(engines),
        None => Err(bad(alloc, field)),
    }
}
