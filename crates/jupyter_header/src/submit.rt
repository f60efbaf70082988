//! The metadata of a task.

ghost use Rattle.std.specs.Prelude.{◌≡◌, ◌⊎◌, ◌≤◌, ◌∷◌, [], Ok, Err, Some, None, IfOk, IfErr, length, codes};
ghost use Rattle.serde_json.specs.Find.{get};
ghost use Rattle.jupyter_header.specs.Borrowed.{view, items_view};
ghost use Rattle.cluster_defs.specs.Fields.{whole_from};
ghost use Rattle.cluster_defs.specs.Submit.{at_most_4096, listed_by, listed_from, plain_dependency, flagged_dependency, dependency_from, submit_from, read_submit};

use crate::distinct::once;
use crate::fields::{bad, flag_field, id_in, whole_field};
use crate::lists::{ids_of, optional_ids};
use crate::object::read_object;
use crate::points::whole_timeouts;
use crate::values::{get, is_null, is_object, items, text};
use cluster_defs::content::SubmitMeta;
use cluster_defs::fault::ReadError;
use cluster_types::event::Dep;
use cluster_types::message::Ids;
use cluster_types::sequence::Sequence;
use cluster_types::text::Text;
use json::{Scratch, Value};
use std::alloc::{AllocError, Global};

/// The greatest number of ids that a dependency lists.
const MOST_IDS: usize = 4_096;

/// The greatest timeout.
const MOST_SECONDS: u64 = 1_000_000_000;

/// The greatest number of retries.
const MOST_RETRIES: u64 = 1_000;

/// The list of one id.
fn single(alloc: Global, id: &str) -> Result<Ids, AllocError>
    ensures { IfOk result (λ ids. ids ≡ id.now ∷ []) }
{
    let mut ids = Sequence::new(alloc);
    ids.push(Text::new(alloc, id)?)?;
    Ok(ids)
}

/// The ids of a list that isn't too long.
fn short_list(alloc: Global, values: &[Value<'_>]) -> Result<Option<Ids>, AllocError>
    ensures { IfOk result (λ r. r ≡ at_most_4096 (items_view values.now)) }
{
    if values.len() > MOST_IDS {
        return Ok(None);
    }
    let ids = ids_of(alloc, values)?;
    Ok(ids)
}

/// The ids that a value lists.
fn listed_by(alloc: Global, value: &Value<'_>) -> Result<Option<Ids>, AllocError>
    ensures { IfOk result (λ r. r ≡ listed_by (view value.now)) }
{
    if is_null(value) {
        return Ok(Some(Sequence::new(alloc)));
    }
    if text(value).is_some() {
        let Some(id) = id_in(value) else {
            return Ok(None);
        };
        return Ok(Some(single(alloc, id)?));
    }
    let Some(values) = items(value) else {
        return Ok(None);
    };
    short_list(alloc, values)
}

/// The ids of a dependency that is written as an object, which may be absent. A fault names the dependency's field.
fn listed_field(alloc: Global, value: &Value<'_>, field: &str) -> Result<Ids, ReadError>
    ensures ok { IfOk result (λ ids. listed_from field.now (get (codes "dependencies") (view value.now)) ≡ Ok ids) }
    ensures err { IfErr result (λ e. (e ≡ ReadError.OutOfMemory) ⊎ (listed_from field.now (get (codes "dependencies") (view value.now)) ≡ Err e)) }
{
    let Some(found) = get(value, "dependencies") else {
        return Ok(Sequence::new(alloc));
    };
    match listed_by(alloc, found)? {
        Some(ids) => Ok(ids),
        None => Err(bad(alloc, field)),
    }
}

/// A dependency that is written as an object. A fault of any of its parts names the dependency's field.
fn flagged_dependency(alloc: Global, value: &Value<'_>, field: &str) -> Result<Dep, ReadError>
    ensures ok { IfOk result (λ d. flagged_dependency field.now (view value.now) ≡ Ok d) }
    ensures err { IfErr result (λ e. (e ≡ ReadError.OutOfMemory) ⊎ (flagged_dependency field.now (view value.now) ≡ Err e)) }
{
    let ids = listed_field(alloc, value, field)?;
    let all = flag_field(alloc, value, "all", true, field)?;
    let success = flag_field(alloc, value, "success", true, field)?;
    let failure = flag_field(alloc, value, "failure", false, field)?;
    Ok(Dep {
        ids: once(alloc, &ids)?,
        all,
        success,
        failure,
    })
}

/// A dependency on ids, with the flags that are meant where none are written.
pub fn plain_dependency(alloc: Global, ids: Ids) -> Result<Dep, AllocError>
    ensures { IfOk result (λ d. d ≡ plain_dependency ids) }
{
    Ok(Dep {
        ids: once(alloc, &ids)?,
        all: true,
        success: true,
        failure: false,
    })
}

/// A dependency, which may be absent.
fn dependency_field(alloc: Global, value: &Value<'_>, field: &str) -> Result<Dep, ReadError>
    ensures ok { IfOk result (λ d. dependency_from field.now (get field.now (view value.now)) ≡ Ok d) }
    ensures err { IfErr result (λ e. (e ≡ ReadError.OutOfMemory) ⊎ (dependency_from field.now (get field.now (view value.now)) ≡ Err e)) }
{
    let Some(found) = get(value, field) else {
        return Ok(plain_dependency(alloc, Sequence::new(alloc))?);
    };
    if is_object(found) {
        return flagged_dependency(alloc, found, field);
    }
    match listed_by(alloc, found)? {
        Some(ids) => Ok(plain_dependency(alloc, ids)?),
        None => Err(bad(alloc, field)),
    }
}

/// The number of retries.
fn retries_field(alloc: Global, value: &Value<'_>) -> Result<u32, ReadError>
    ensures ok { IfOk result (λ n. whole_from (codes "retries") 1000 (get (codes "retries") (view value.now)) ≡ Ok n) }
    ensures err { IfErr result (λ e. (e ≡ ReadError.OutOfMemory) ⊎ (whole_from (codes "retries") 1000 (get (codes "retries") (view value.now)) ≡ Err e)) }
{
    let retries = whole_field(alloc, value, "retries", MOST_RETRIES)?;
    Ok(retries as u32)
}

/// The fields of a task's metadata.
fn submit_fields(alloc: Global, value: &Value<'_>) -> Result<SubmitMeta, ReadError>
    ensures ok { IfOk result (λ m. submit_from (view value.now) ≡ Ok m) }
    ensures err { IfErr result (λ e. (e ≡ ReadError.OutOfMemory) ⊎ (submit_from (view value.now) ≡ Err e)) }
{
    let after = dependency_field(alloc, value, "after")?;
    let follow = dependency_field(alloc, value, "follow")?;
    let targets = optional_ids(alloc, value, "targets")?;
    let timeout = whole_field(alloc, value, "timeout", MOST_SECONDS)?;
    let retries = retries_field(alloc, value)?;
    Ok(SubmitMeta {
        after,
        follow,
        targets,
        timeout,
        retries,
    })
}

/// The metadata of a task that the octets are.
///
/// The fields are `after`, `follow`, `targets`, `timeout` and `retries`, in this order; each may be absent. A `.0`
/// behind the digits of a timeout is read over.
#[tactic(auto, unfolding(cluster_defs::specs::Submit::read_submit))]
pub fn read_submit(
    alloc: Global,
    octets: &[u8],
    scratch: &mut Scratch,
) -> Result<SubmitMeta, ReadError>
    ensures ok { IfOk result (λ m. read_submit octets.now ≡ Ok m) }
    ensures err { IfErr result (λ e. (e ≡ ReadError.OutOfMemory) ⊎ (read_submit octets.now ≡ Err e)) }
{
    let whole = whole_timeouts(alloc, octets)?;
    let value = read_object(alloc, whole.as_slice(), scratch)?;
    submit_fields(alloc, &value)
}
