//! Metadata and contents that are written.

ghost use Rattle.std.specs.Prelude.{◌≡◌, IfOk, string_bytes};
ghost use Rattle.client_core.specs.Messages.{flag_text, dependency_text, submit_metadata, execute_content};

use cluster_defs::content::SubmitMeta;
use cluster_types::event::Dep;
use jupyter_header::contents::texts_list;
use jupyter_header::write::quoted;
use std::alloc::{AllocError, Global};

/// The content of a request to run code.
#[tactic(auto, unfolding(crate::specs::Messages::execute_content))]
pub fn execute_content(alloc: Global, code: &str) -> Result<String, AllocError>
    ensures { IfOk result (λ s. string_bytes s ≡ execute_content code.now) }
{
    let code = quoted(alloc, code)?;
    let mut text = String::from_str(alloc, "{\"code\":")?;
    text.push_str(code.as_str())?;
    text.push_str(
        ",\"silent\":false,\"store_history\":true,\"user_expressions\":{},\"allow_stdin\":false,\"stop_on_error\":true}",
    )?;
    Ok(text)
}

/// A boolean as JSON writes it.
fn flag_text(flag: bool) -> &'static str
    ensures { result.now ≡ flag_text flag }
{
    if flag { "true" } else { "false" }
}

/// A dependency as JSON writes it.
fn dependency_text(alloc: Global, dependency: &Dep) -> Result<String, AllocError>
    ensures { IfOk result (λ s. string_bytes s ≡ dependency_text dependency.now) }
{
    let ids = texts_list(alloc, &dependency.ids)?;
    let mut text = String::from_str(alloc, "{\"dependencies\":")?;
    text.push_str(ids.as_str())?;
    text.push_str(",\"all\":")?;
    text.push_str(flag_text(dependency.all))?;
    text.push_str(",\"success\":")?;
    text.push_str(flag_text(dependency.success))?;
    text.push_str(",\"failure\":")?;
    text.push_str(flag_text(dependency.failure))?;
    text.push_str("}")?;
    Ok(text)
}

/// The metadata of a task.
pub fn submit_metadata(alloc: Global, meta: &SubmitMeta) -> Result<String, AllocError>
    ensures { IfOk result (λ s. string_bytes s ≡ submit_metadata meta.now) }
{
    let after = dependency_text(alloc, &meta.after)?;
    let follow = dependency_text(alloc, &meta.follow)?;
    let targets = texts_list(alloc, &meta.targets)?;
    let timeout = meta.timeout.to_string(alloc)?;
    let retries = meta.retries.to_string(alloc)?;
    let mut text = String::from_str(alloc, "{\"after\":")?;
    text.push_str(after.as_str())?;
    text.push_str(",\"follow\":")?;
    text.push_str(follow.as_str())?;
    text.push_str(",\"targets\":")?;
    text.push_str(targets.as_str())?;
    text.push_str(",\"timeout\":")?;
    text.push_str(timeout.as_str())?;
    text.push_str(",\"retries\":")?;
    text.push_str(retries.as_str())?;
    text.push_str("}")?;
    Ok(text)
}
