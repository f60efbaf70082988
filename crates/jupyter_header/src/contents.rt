//! Contents that are written.

ghost use Rattle.std.specs.Prelude.{◌≡◌, ◌++◌, ◌∷◌, [], IfOk, OnOk, codes, map, string_bytes};
ghost use Rattle.json.specs.Print.{quoted};
ghost use Rattle.cluster_defs.specs.Texts.{parted, empty_object, texts_list, error_content, outcome_content};
ghost use Rattle.jupyter_header.specs.Comma.{comma};

use crate::write::quoted;
use cluster_types::message::Ids;
use cluster_types::octets::Octets;
use cluster_types::text::Text;
use std::alloc::{AllocError, Global};

/// An object without members.
#[tactic(auto, unfolding(cluster_defs::specs::Texts::empty_object))]
pub fn empty_object() -> &'static [u8]
    ensures { result.now ≡ empty_object }
{
    b"{}"
}

/// Appends the comma that stands before the item at a place.
pub fn push_comma(text: &mut String, place: usize) -> Result<(), AllocError>
    ensures { OnOk result (string_bytes text.new ≡ string_bytes text.old ++ comma place) }
{
    if place == 0 {
        return Ok(());
    }
    text.push_str(",")
}

/// Appends the ids, as JSON writes them, parted by commas.
fn push_ids(text: &mut String, alloc: Global, ids: &[Text]) -> Result<(), AllocError>
    ensures { OnOk result (string_bytes text.new ≡ string_bytes text.old ++ parted (map quoted ids.now)) }
{
    for (place, id) in ids.iter().enumerate() {
        push_comma(text, place)?;
        let quoted = quoted(alloc, id.as_str())?;
        text.push_str(quoted.as_str())?;
    }
    Ok(())
}

/// The list of ids, as JSON writes it.
pub fn texts_list(alloc: Global, ids: &Ids) -> Result<String, AllocError>
    ensures { IfOk result (λ s. string_bytes s ≡ texts_list ids.now) }
{
    let mut text = String::from_str(alloc, "[")?;
    push_ids(&mut text, alloc, ids.as_slice())?;
    text.push_str("]")?;
    Ok(text)
}

/// The beginning of an error's content, of a name and a value that are quoted already.
fn error_text(alloc: Global, ename: &str, evalue: &str) -> Result<String, AllocError>
    ensures { IfOk result (λ s. string_bytes s ≡ codes "{\"status\":\"error\",\"ename\":" ++ ename.now ++ codes ",\"evalue\":" ++ evalue.now) }
{
    let mut text = String::from_str(alloc, "{\"status\":\"error\",\"ename\":")?;
    text.push_str(ename)?;
    text.push_str(",\"evalue\":")?;
    text.push_str(evalue)?;
    Ok(text)
}

/// The content of a refusal: its name, its value, and the ids concerned.
#[tactic(auto, unfolding(cluster_defs::specs::Texts::error_content))]
pub fn error_content(
    alloc: Global,
    ename: &str,
    evalue: &str,
    ids: &Ids,
) -> Result<Octets, AllocError>
    ensures { IfOk result (λ o. o ≡ error_content ename.now evalue.now ids.now) }
{
    let name = quoted(alloc, ename)?;
    let value = quoted(alloc, evalue)?;
    let list = texts_list(alloc, ids)?;
    let mut text = error_text(alloc, name.as_str(), value.as_str())?;
    text.push_str(",\"traceback\":[],\"ids\":")?;
    text.push_str(list.as_str())?;
    text.push_str("}")?;
    Octets::from_string(text)
}

/// The content of an outcome that the controller makes.
#[tactic(auto, unfolding(cluster_defs::specs::Texts::outcome_content))]
pub fn outcome_content(alloc: Global, ename: &str, evalue: &str) -> Result<Octets, AllocError>
    ensures { IfOk result (λ o. o ≡ outcome_content ename.now evalue.now) }
{
    let name = quoted(alloc, ename)?;
    let value = quoted(alloc, evalue)?;
    let mut text = error_text(alloc, name.as_str(), value.as_str())?;
    text.push_str(",\"traceback\":[]}")?;
    Octets::from_string(text)
}
