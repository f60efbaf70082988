//! Headers that are written.

ghost use Rattle.std.specs.Prelude.{◌≡◌, ◌++◌, IfOk, codes, string_bytes};
ghost use Rattle.json.specs.Print.{quoted};
ghost use Rattle.cluster_defs.specs.Texts.{header_text, made_header, resubmit_header};

use cluster_types::octets::Octets;
use cluster_types::text::Text;
use serde_json::Value;
use std::alloc::{AllocError, Global};

/// A text as JSON writes it, in quotation marks.
pub fn quoted(alloc: Global, text: &str) -> Result<String, AllocError>
    ensures { IfOk result (λ s. string_bytes s ≡ quoted text.now) }
{
    let value = Value::String(String::from_str(alloc, text)?);
    value.to_string(alloc)
}

/// The header of texts that are quoted already, and of a date.
fn header_text(
    alloc: Global,
    id: &str,
    session: &str,
    username: &str,
    date: &str,
    kind: &str,
) -> Result<String, AllocError>
    ensures { IfOk result (λ s. string_bytes s ≡ header_text id.now session.now username.now date.now kind.now) }
{
    let mut text = String::from_str(alloc, "{\"msg_id\":")?;
    text.push_str(id)?;
    text.push_str(",\"session\":")?;
    text.push_str(session)?;
    text.push_str(",\"username\":")?;
    text.push_str(username)?;
    text.push_str(",\"date\":\"")?;
    text.push_str(date)?;
    text.push_str("\",\"msg_type\":")?;
    text.push_str(kind)?;
    text.push_str(",\"version\":\"5.3\"}")?;
    Ok(text)
}

/// A header with a session and a user of its own.
pub fn header_of(
    alloc: Global,
    msg_id: &str,
    session: &str,
    username: &str,
    msg_type: &str,
    moment_date: &str,
) -> Result<Octets, AllocError>
    ensures { IfOk result (λ o. o ≡ resubmit_header msg_id.now session.now username.now msg_type.now moment_date.now) }
{
    let id = quoted(alloc, msg_id)?;
    let session = quoted(alloc, session)?;
    let username = quoted(alloc, username)?;
    let kind = quoted(alloc, msg_type)?;
    let text = header_text(
        alloc,
        id.as_str(),
        session.as_str(),
        username.as_str(),
        moment_date,
        kind.as_str(),
    )?;
    Octets::from_string(text)
}

/// The header of a message that the controller makes. The date is that of the moment, as `YYYY-MM-DDTHH:MM:SS.mmmZ`.
pub fn made_header(
    alloc: Global,
    msg_id: &Text,
    msg_type: &Text,
    moment_date: &str,
) -> Result<Octets, AllocError>
    ensures { IfOk result (λ o. o ≡ made_header msg_id.now msg_type.now moment_date.now) }
{
    header_of(
        alloc,
        msg_id.as_str(),
        "controller",
        "controller",
        msg_type.as_str(),
        moment_date,
    )
}

/// The header of a task that is handed out under a new id, with the session and the user of its first request.
pub fn resubmit_header(
    alloc: Global,
    msg_id: &Text,
    session: &Text,
    username: &Text,
    msg_type: &Text,
    moment_date: &str,
) -> Result<Octets, AllocError>
    ensures { IfOk result (λ o. o ≡ resubmit_header msg_id.now session.now username.now msg_type.now moment_date.now) }
{
    header_of(
        alloc,
        msg_id.as_str(),
        session.as_str(),
        username.as_str(),
        msg_type.as_str(),
        moment_date,
    )
}
