//! The messages that submit the tasks.

ghost use Rattle.std.specs.Prelude.{◌≡◌, IfOk, string_bytes};
ghost use Rattle.quick_commands.specs.Tasks.{task_header, after_text, task_metadata, task_content, task_message};

use cluster_types::message::Buffers;
use cluster_types::shared_message::SharedMessage;
use jupyter_header::contents::empty_object;
use std::alloc::{AllocError, Global};

/// How many tasks wait for none. Each later one waits for the one so many before it.
const FREE_TASKS: u32 = 8;

#[tactic(auto, unfolding(crate::specs::Tasks::task_header))]
fn task_header(alloc: Global, number: u32) -> Result<String, AllocError>
    ensures { IfOk result (λ s. string_bytes s ≡ task_header number) }
{
    let digits = number.to_string(alloc)?;
    let mut text = String::from_str(alloc, "{\"msg_id\":\"t")?;
    text.push_str(digits.as_str())?;
    text.push_str(
        "\",\"session\":\"work\",\"username\":\"work\",\"date\":\"1970-01-01T00:00:00.000Z\",\"msg_type\":\"execute_request\",\"version\":\"5.3\"}",
    )?;
    Ok(text)
}

/// That a task waits for the one with a number.
#[tactic(auto, unfolding(crate::specs::Tasks::after_text))]
fn after_text(alloc: Global, number: u32) -> Result<String, AllocError>
    ensures { IfOk result (λ s. string_bytes s ≡ after_text number) }
{
    let digits = number.to_string(alloc)?;
    let mut text = String::from_str(alloc, "{\"after\":[\"t")?;
    text.push_str(digits.as_str())?;
    text.push_str("\"]}")?;
    Ok(text)
}

#[tactic(auto, unfolding(cluster_defs::specs::Texts::empty_object))]
fn task_metadata(alloc: Global, number: u32) -> Result<String, AllocError>
    ensures { IfOk result (λ s. string_bytes s ≡ task_metadata number) }
{
    if number <= FREE_TASKS {
        return String::from_str(alloc, "{}");
    }
    after_text(alloc, number - FREE_TASKS)
}

#[tactic(auto, unfolding(crate::specs::Tasks::task_content))]
fn task_content(alloc: Global, drawn: u32) -> Result<String, AllocError>
    ensures { IfOk result (λ s. string_bytes s ≡ task_content drawn) }
{
    let left = (drawn % 1000).to_string(alloc)?;
    let right = (drawn / 1000 % 1000).to_string(alloc)?;
    let mut text = String::from_str(alloc, "{\"code\":\"")?;
    text.push_str(left.as_str())?;
    text.push_str("+")?;
    text.push_str(right.as_str())?;
    text.push_str(
        "\",\"silent\":false,\"store_history\":true,\"user_expressions\":{},\"allow_stdin\":false,\"stop_on_error\":true}",
    )?;
    Ok(text)
}

/// The message of the task with a number, which counts from 1, and with the number that was drawn for it.
pub fn task_message(alloc: Global, number: u32, drawn: u32) -> Result<SharedMessage, AllocError>
    ensures { IfOk result (λ m. m ≡ task_message number drawn) }
{
    let header = task_header(alloc, number)?;
    let metadata = task_metadata(alloc, number)?;
    let content = task_content(alloc, drawn)?;
    SharedMessage::new(
        alloc,
        b"",
        header.as_bytes(),
        empty_object(),
        metadata.as_bytes(),
        content.as_bytes(),
        Buffers::new(alloc),
    )
}
