//! The results that the client is sent.

ghost use Rattle.std.specs.Prelude.{◌≡◌, ◌+ℤ◌, IfOk, OnOk, option_map, option_and_then, codes};
ghost use Rattle.std.specs.Int.{w64, int_wrap};
ghost use Rattle.serde_json.specs.Find.{get, as_str};
ghost use Rattle.serde_json.specs.View.{view};
ghost use Rattle.cluster_defs.specs.Json.{json_of};
ghost use Rattle.quick_commands.specs.Results.{content_of, result_text, IsInteger, is_to_client, IsAdded};

use cluster_types::out::Out;
use serde_json::Value;
use std::alloc::{AllocError, Global};
use std::str;
use tape_drive::order::conn_of;

/// The connection of the client.
const CLIENT: u32 = 5;

/// The content of the message that an out is.
fn content_of(out: &Out) -> &[u8]
    ensures { result.now ≡ content_of out.now }
{
    match out {
        Out::Pass { message, .. } => message.content(),
        Out::Made { content, .. } => content.as_slice(),
    }
}

/// The value of a JSON text, where it is one.
fn json_of(alloc: Global, octets: &[u8]) -> Result<Option<Value>, AllocError>
    ensures { IfOk result (λ value. option_map view value ≡ json_of octets.now) }
{
    let Ok(text) = str::from_utf8(octets) else {
        return Ok(None);
    };
    match Value::from_str(alloc, text) {
        Ok(value) => Ok(Some(value)),
        Err(error) if error.is_memory() => Err(AllocError),
        Err(_) => Ok(None),
    }
}

/// The integer that a text writes, or 0.
fn integer_of(text: Option<&str>) -> i64
    ensures { IsInteger (option_map (λ text. text.now) text.entry) result }
{
    let Some(text) = text else {
        return 0;
    };
    match text.parse::<i64>() {
        Ok(value) => value,
        Err(_) => 0,
    }
}

/// The text that is the result in a value.
fn result_text(value: &Value) -> Option<&str>
    ensures { option_map (λ text. text.now) result ≡ option_and_then as_str (get (codes "result") (view value.now)) }
{
    match value.get("result") {
        Some(result) => result.as_str(),
        None => None,
    }
}

/// The integer that is the result in a content, or 0.
fn result_in(alloc: Global, content: &[u8]) -> Result<i64, AllocError>
    ensures { IfOk result (IsInteger (result_text content.now)) }
{
    match json_of(alloc, content)? {
        Some(value) => Ok(integer_of(result_text(&value))),
        None => Ok(0),
    }
}

/// Whether an out goes to the client.
fn is_to_client(out: &Out) -> bool
    ensures { result ≡ is_to_client out.now }
{
    conn_of(out) == CLIENT
}

/// The sum, which wraps.
fn sum_of(a: i64, b: i64) -> i64
    ensures { result ≡ int_wrap w64 (a +ℤ b) }
{
    a.wrapping_add(b)
}

/// A sum with the result in what the client is sent.
pub fn added(alloc: Global, out: &Out, sum: i64) -> Result<i64, AllocError>
    ensures { IfOk result (IsAdded out.now sum) }
{
    if is_to_client(out) {
        let value = result_in(alloc, content_of(out))?;
        return Ok(sum_of(sum, value));
    }
    Ok(sum)
}
