//! What a message says of a task.

ghost use Rattle.std.specs.Prelude.{◌≡◌, ◌⊎◌, Ok, Err, None, Some, IfOk, IfErr, option_map, option_and_then};
ghost use Rattle.serde_json.specs.Find.{get, as_str};
ghost use Rattle.jupyter_header.specs.Borrowed.{view};
ghost use Rattle.std.specs.Result.{result_ok};
ghost use Rattle.cluster_defs.specs.Reply.{read_task, read_status};
ghost use Rattle.client_core.specs.Taking.{type_in, task_in};
ghost use Rattle.client_core.specs.Answers.{is_text_of, number_in, is_ok, says_ok, result_in, answered_in, answered};

use crate::answered::Answered;
use cluster_defs::fault::ReadError;
use cluster_types::text::Text;
use itoa::Buffer;
use json::{Scratch, Value};
use jupyter_header::fields::text_field;
use jupyter_header::header::read_header;
use jupyter_header::object::read_object;
use jupyter_header::reply::read_reply;
use jupyter_header::values::{get, text};
use std::alloc::{AllocError, Global};

/// A parent header that reads, whatever it names.
const SOME_PARENT: &[u8] = b"{\"msg_id\":\"0\"}";

/// Metadata that says nothing.
const NO_METADATA: &[u8] = b"{}";

/// A content that reads.
const SOME_CONTENT: &[u8] = b"{\"status\":\"ok\"}";

/// The type that a header names, where it reads.
#[tactic(auto, unfolding(crate::specs::Taking::type_in))]
pub fn type_in(
    alloc: Global,
    header: &[u8],
    scratch: &mut Scratch,
) -> Result<Option<Text>, AllocError>
    ensures { IfOk result (λ t. t ≡ type_in header.now) }
{
    match read_header(alloc, header, scratch) {
        Ok(header) => Ok(Some(header.msg_type)),
        Err(ReadError::OutOfMemory) => Err(AllocError),
        Err(_) => Ok(None),
    }
}

/// The task that a parent header names. `read_reply` reads three parts; the other two are parts that always read.
#[tactic(auto, using(crate::proofs::Parts::no_task))]
fn read_task(alloc: Global, parent: &[u8], scratch: &mut Scratch) -> Result<Text, ReadError>
    ensures ok { IfOk result (λ t. read_task parent.now ≡ Ok t) }
    ensures err { IfErr result (λ e. (e ≡ ReadError.OutOfMemory) ⊎ (read_task parent.now ≡ Err e)) }
{
    let reply = read_reply(alloc, parent, NO_METADATA, SOME_CONTENT, scratch)?;
    Ok(reply.task)
}

/// Whether a content says that the task ran without an error.
#[tactic(auto, using(crate::proofs::Parts::no_status))]
fn read_status(alloc: Global, content: &[u8], scratch: &mut Scratch) -> Result<bool, ReadError>
    ensures ok { IfOk result (λ ok. read_status content.now ≡ Ok ok) }
    ensures err { IfErr result (λ e. (e ≡ ReadError.OutOfMemory) ⊎ (read_status content.now ≡ Err e)) }
{
    let reply = read_reply(alloc, SOME_PARENT, NO_METADATA, content, scratch)?;
    Ok(reply.ok)
}

/// The task that a parent header names, where it reads.
#[tactic(auto, unfolding(crate::specs::Taking::task_in))]
pub fn task_in(
    alloc: Global,
    parent: &[u8],
    scratch: &mut Scratch,
) -> Result<Option<Text>, AllocError>
    ensures { IfOk result (λ t. t ≡ task_in parent.now) }
{
    match read_task(alloc, parent, scratch) {
        Ok(task) => Ok(Some(task)),
        Err(ReadError::OutOfMemory) => Err(AllocError),
        Err(_) => Ok(None),
    }
}

/// Whether a content says that the task ran without an error, where it has a status.
pub fn status_in(
    alloc: Global,
    content: &[u8],
    scratch: &mut Scratch,
) -> Result<Option<bool>, AllocError>
    ensures { IfOk result (λ s. s ≡ result_ok (read_status content.now)) }
{
    match read_status(alloc, content, scratch) {
        Ok(ok) => Ok(Some(ok)),
        Err(ReadError::OutOfMemory) => Err(AllocError),
        Err(_) => Ok(None),
    }
}

/// Whether this is the decimal text of a number.
fn is_text_of(text: &str, number: i64) -> bool
    ensures { result ≡ is_text_of text.now number }
{
    let mut buffer = Buffer::new();
    text == buffer.format(number)
}

/// The number of 64 bits whose decimal text this is.
fn number_in(text: &str) -> Option<i64>
    ensures { result ≡ number_in text.now }
{
    match text.parse::<i64>() {
        Ok(number) => {
            if is_text_of(text, number) {
                Some(number)
            } else {
                None
            }
        }
        Err(_) => None,
    }
}

/// Whether a word is `ok`.
fn is_ok(word: Option<&str>) -> bool
    ensures { result ≡ is_ok (option_map (λ w. w.now) word.entry) }
{
    matches!(word, Some("ok"))
}

/// Whether the status of a value is `ok`.
fn says_ok(value: &Value<'_>) -> bool
    ensures { result ≡ says_ok (view value.now) }
{
    is_ok(get(value, "status").and_then(text))
}

/// The number of 64 bits whose decimal text a word is.
fn number_told(word: Option<&str>) -> Option<i64>
    ensures { result ≡ option_and_then number_in (option_map (λ w. w.now) word.entry) }
{
    match word {
        Some(text) => number_in(text),
        None => None,
    }
}

/// The number that is the result of a value, where its status is `ok`.
fn result_in(value: &Value<'_>) -> Option<i64>
    ensures { result ≡ result_in (view value.now) }
{
    if !says_ok(value) {
        return None;
    }
    number_told(get(value, "result").and_then(text))
}

/// What a value answers.
fn answered_by(alloc: Global, value: &Value<'_>) -> Result<Answered, AllocError>
    ensures { IfOk result (λ a. a ≡ answered_in (Some (view value.now))) }
{
    match result_in(value) {
        Some(number) => Ok(Answered::Value(number)),
        None => Ok(Answered::Failed {
            ename: text_field(alloc, value, "ename")?,
            evalue: text_field(alloc, value, "evalue")?,
        }),
    }
}

/// An answer without a value and without texts.
fn nothing_said(alloc: Global) -> Result<Answered, AllocError>
    ensures { IfOk result (λ a. a ≡ answered_in None) }
{
    Ok(Answered::Failed {
        ename: Text::new(alloc, "")?,
        evalue: Text::new(alloc, "")?,
    })
}

/// What a content answers: the number that is its result, else its error.
#[tactic(auto, unfolding(crate::specs::Answers::answered))]
pub fn answered_in(
    alloc: Global,
    content: &[u8],
    scratch: &mut Scratch,
) -> Result<Answered, AllocError>
    ensures { IfOk result (λ a. a ≡ answered content.now) }
{
    match read_object(alloc, content, scratch) {
        Ok(value) => answered_by(alloc, &value),
        Err(ReadError::OutOfMemory) => Err(AllocError),
        Err(_) => nothing_said(alloc),
    }
}
