//! The contents of an engine's messages.

ghost use Rattle.std.specs.Prelude.{◌≡◌, ◌++◌, ◌∷◌, [], List, ℕ, map, codes, decimal, IfOk, OnOk, string_bytes};
ghost use Rattle.json.specs.Print.{quoted};
ghost use Rattle.cluster_defs.specs.Texts.{parted, object_text, outcome_content};
ghost use Rattle.jupyter_header.specs.Comma.{comma};
ghost use Rattle.engine_core.specs.Faults.{ename, evalue};
ghost use Rattle.engine_core.specs.Contents.{registration_content, failed_content, value_content, shown_content, shown_member, executed_content};

use crate::evaluation::Shown;
use crate::fault::Fault;
use cluster_types::octets::Octets;
use cluster_types::text::Text;
use jupyter_header::contents::push_comma;
use jupyter_header::write::quoted;
use std::alloc::{AllocError, Global};

/// The content of a registration.
#[tactic(auto, unfolding(crate::specs::Contents::registration_content))]
pub fn registration_content(alloc: Global, uuid: &Text) -> Result<Octets, AllocError>
    ensures { IfOk result (λ o. o ≡ registration_content uuid.now) }
{
    let quoted = quoted(alloc, uuid.as_str())?;
    let mut text = String::from_str(alloc, "{\"uuid\":")?;
    text.push_str(quoted.as_str())?;
    text.push_str("}")?;
    Octets::from_string(text)
}

/// Appends the name of a fault, what it is about, and an empty traceback.
fn push_fault(text: &mut String, alloc: Global, ename: &str, evalue: &str) -> Result<(), AllocError>
    ensures { OnOk result (string_bytes text.new ≡ string_bytes text.old ++ codes ",\"ename\":" ++ quoted ename.now ++ codes ",\"evalue\":" ++ quoted evalue.now ++ codes ",\"traceback\":[]}") }
{
    let name = quoted(alloc, ename)?;
    let about = quoted(alloc, evalue)?;
    text.push_str(",\"ename\":")?;
    text.push_str(name.as_str())?;
    text.push_str(",\"evalue\":")?;
    text.push_str(about.as_str())?;
    text.push_str(",\"traceback\":[]}")
}

/// The content of a reply to a request that failed, of the fault's name and what it is about.
#[tactic(auto, unfolding(crate::specs::Contents::failed_content))]
pub fn failed_content(
    alloc: Global,
    count: u64,
    ename: &str,
    evalue: &str,
) -> Result<Octets, AllocError>
    ensures { IfOk result (λ o. o ≡ failed_content count ename.now evalue.now) }
{
    let count = count.to_string(alloc)?;
    let mut text = String::from_str(alloc, "{\"status\":\"error\",\"execution_count\":")?;
    text.push_str(count.as_str())?;
    push_fault(&mut text, alloc, ename, evalue)?;
    Octets::from_string(text)
}

/// The content of a reply to a request whose code has no value.
pub fn fault_content(alloc: Global, count: u64, fault: &Fault) -> Result<Octets, AllocError>
    ensures { IfOk result (λ o. o ≡ failed_content count (ename fault.now) (evalue fault.now)) }
{
    let about = fault.evalue(alloc)?;
    failed_content(alloc, count, fault.ename(), about.as_str())
}

/// What a user expression that has a value shows.
#[tactic(auto, unfolding(crate::specs::Contents::value_content))]
fn value_content(alloc: Global, value: i64) -> Result<String, AllocError>
    ensures { IfOk result (λ s. string_bytes s ≡ value_content value) }
{
    let digits = value.to_string(alloc)?;
    let mut text = String::from_str(alloc, "{\"status\":\"ok\",\"data\":{\"text/plain\":\"")?;
    text.push_str(digits.as_str())?;
    text.push_str("\"},\"metadata\":{}}")?;
    Ok(text)
}

/// What a user expression that has no value shows.
#[tactic(auto, unfolding(cluster_defs::specs::Texts::outcome_content))]
fn fault_shown(alloc: Global, fault: &Fault) -> Result<String, AllocError>
    ensures { IfOk result (λ s. string_bytes s ≡ outcome_content (ename fault.now) (evalue fault.now)) }
{
    let about = fault.evalue(alloc)?;
    let mut text = String::from_str(alloc, "{\"status\":\"error\"")?;
    push_fault(&mut text, alloc, fault.ename(), about.as_str())?;
    Ok(text)
}

/// What a user expression shows.
fn shown_content(alloc: Global, value: &Result<i64, Fault>) -> Result<String, AllocError>
    ensures { IfOk result (λ s. string_bytes s ≡ shown_content value.now) }
{
    match value {
        Ok(value) => value_content(alloc, *value),
        Err(fault) => fault_shown(alloc, fault),
    }
}

/// Appends what a user expression shows under its name, with the comma before it.
fn push_shown(
    text: &mut String,
    alloc: Global,
    place: usize,
    shown: &Shown,
) -> Result<(), AllocError>
    ensures { OnOk result (string_bytes text.new ≡ string_bytes text.old ++ (comma place ++ shown_member shown.now)) }
{
    let name = quoted(alloc, shown.name.as_str())?;
    let content = shown_content(alloc, &shown.value)?;
    push_comma(text, place)?;
    text.push_str(name.as_str())?;
    text.push_str(":")?;
    text.push_str(content.as_str())
}

/// Appends what user expressions show, parted by commas.
fn push_all(text: &mut String, alloc: Global, shown: &[Shown]) -> Result<(), AllocError>
    ensures { OnOk result (string_bytes text.new ≡ string_bytes text.old ++ parted (map shown_member shown.now)) }
{
    for (place, one) in shown.iter().enumerate() {
        push_shown(text, alloc, place, one)?;
    }
    Ok(())
}

/// The object of what user expressions show.
fn shown_text(alloc: Global, shown: &[Shown]) -> Result<String, AllocError>
    ensures { IfOk result (λ s. string_bytes s ≡ object_text (map shown_member shown.now)) }
{
    let mut text = String::from_str(alloc, "{")?;
    push_all(&mut text, alloc, shown)?;
    text.push_str("}")?;
    Ok(text)
}

/// The content of a reply to a request whose code has a value.
#[tactic(auto, unfolding(crate::specs::Contents::executed_content))]
pub fn executed_content(
    alloc: Global,
    count: u64,
    shown: &[Shown],
    value: i64,
) -> Result<Octets, AllocError>
    ensures { IfOk result (λ o. o ≡ executed_content count shown.now value) }
{
    let count = count.to_string(alloc)?;
    let digits = value.to_string(alloc)?;
    let expressions = shown_text(alloc, shown)?;
    let mut text = String::from_str(alloc, "{\"status\":\"ok\",\"execution_count\":")?;
    text.push_str(count.as_str())?;
    text.push_str(",\"user_expressions\":")?;
    text.push_str(expressions.as_str())?;
    text.push_str(",\"result\":\"")?;
    text.push_str(digits.as_str())?;
    text.push_str("\"}")?;
    Octets::from_string(text)
}
