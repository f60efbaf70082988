//! Records that are written.

ghost use Rattle.std.specs.Prelude.{◌≡◌, ◌+◌, ◌<◌, ◌^◌, ◌++◌, ◌∷◌, [], List, length, map, IfOk, OnOk, string_bytes};
ghost use Rattle.std.specs.Option.{option_copied};
ghost use Rattle.cluster_types.specs.declared.record.Record.{Record};
ghost use Rattle.cluster_defs.specs.Texts.{parted};
ghost use Rattle.jupyter_header.specs.Comma.{comma};
ghost use Rattle.cluster_defs.specs.FilterContents.{scalar_text, key_text, field_member, record_text, front_text, end_text};
ghost use Rattle.db_query.specs.Found.{listed, found_one};
ghost use Rattle.db_query.specs.Laid.{AreLookups};
ghost use Rattle.db_query.specs.Shown.{shown_as};

use crate::choices::Lookups;
use crate::matching::is_found;
use crate::shown::{Shown, value_in};
use cluster_defs::filter::{Asked, Field, Fields};
use cluster_types::record::Record;
use jupyter_header::contents::push_comma;
use jupyter_header::write::quoted;
use std::alloc::{AllocError, Global};
use std::marker::Model;

/// The beginning of an answer up to one of its records.
#[derive(Debug, Drop)]
pub struct Listing {
    count: usize,
    text: String,
}

impl Model for Listing {
    ghost use Rattle.std.specs.Prelude.{string_bytes};
    ghost use Rattle.db_query.specs.Found.{Listed};

    ghost Value = { Listed };

    ghost view = { λ l. record { count = l.count; text = string_bytes l.text } };
}

/// Appends a value as JSON writes it.
fn push_shown(text: &mut String, alloc: Global, shown: Shown<'_>) -> Result<(), AllocError>
    ensures { OnOk result (string_bytes text.new ≡ string_bytes text.old ++ scalar_text (shown_as shown.entry)) }
{
    match shown {
        Shown::Null => text.push_str("null"),
        Shown::Text(word) => {
            let quoted = quoted(alloc, word)?;
            text.push_str(quoted.as_str())
        }
        Shown::Number(number) => {
            let digits = number.to_string(alloc)?;
            text.push_str(digits.as_str())
        }
    }
}

/// The name of a field as JSON writes it, with a colon behind it.
#[tactic(auto, unfolding(cluster_defs::specs::FilterContents::key_text, json::specs::Print::escape_byte))]
fn key_text(field: Field) -> &'static str
    ensures { result.now ≡ key_text field }
{
    match field {
        Field::MsgId => "\"msg_id\":",
        Field::Number => "\"number\":",
        Field::Kind => "\"kind\":",
        Field::Engine => "\"engine\":",
        Field::State => "\"state\":",
        Field::Cause => "\"cause\":",
    }
}

/// Appends a field of a record, with the comma before the item at a place.
fn push_member(
    text: &mut String,
    alloc: Global,
    place: usize,
    field: Field,
    task: &Record,
) -> Result<(), AllocError>
    ensures { OnOk result (string_bytes text.new ≡ string_bytes text.old ++ (comma place ++ field_member task.now field)) }
{
    push_comma(text, place)?;
    text.push_str(key_text(field))?;
    push_shown(text, alloc, value_in(field, task))
}

/// Appends the fields of a record, parted by commas.
fn push_members(
    text: &mut String,
    alloc: Global,
    keys: &[Field],
    task: &Record,
) -> Result<(), AllocError>
    ensures { OnOk result (string_bytes text.new ≡ string_bytes text.old ++ parted (map (field_member task.now) keys.now)) }
{
    for (place, field) in keys.iter().enumerate() {
        push_member(text, alloc, place, *field, task)?;
    }
    Ok(())
}

/// Appends a record, with the comma before the item at a place.
fn push_record(
    text: &mut String,
    alloc: Global,
    place: usize,
    keys: &Fields,
    task: &Record,
) -> Result<(), AllocError>
    ensures { OnOk result (string_bytes text.new ≡ string_bytes text.old ++ (comma place ++ record_text keys.now task.now)) }
{
    push_comma(text, place)?;
    text.push_str("{")?;
    push_members(text, alloc, keys.as_slice(), task)?;
    text.push_str("}")
}

impl Listing {
    /// The beginning up to the first record.
    #[tactic(auto, unfolding(cluster_defs::specs::FilterContents::front_text))]
    pub fn new(alloc: Global) -> Result<Listing, AllocError>
        ensures { (keys : List Field) → IfOk result (λ l. l ≡ listed keys []) }
    {
        let text = String::from_str(alloc, "{\"status\":\"ok\",\"records\":[")?;
        Ok(Listing { count: 0, text })
    }

    /// How many octets it has.
    pub fn len(&self) -> usize
        ensures { result ≡ length self.now.text }
    {
        self.text.len()
    }

    /// Adds a record.
    fn add(&mut self, alloc: Global, keys: &Fields, task: &Record) -> Result<(), AllocError>
        ensures { (rs : List Record) → length rs + 1 < 2 ^ 64 → self.old ≡ listed keys.now rs → OnOk result (self.new ≡ listed keys.now (rs ++ task.now ∷ [])) }
    {
        push_record(&mut self.text, alloc, self.count, keys, task)?;
        self.count = self.count.saturating_add(1);
        Ok(())
    }

    /// Adds a record that is there, where the query finds it.
    pub fn add_found(
        &mut self,
        alloc: Global,
        asked: &Asked,
        lookups: &Lookups<'_>,
        task: Option<&Record>,
    ) -> Result<(), AllocError>
        requires { AreLookups asked.now.tests lookups.now }
        ensures { (rs : List Record) → length rs + 1 < 2 ^ 64 → self.old ≡ listed asked.now.keys rs → OnOk result (self.new ≡ listed asked.now.keys (rs ++ found_one asked.now (option_copied task.entry))) }
    {
        let Some(task) = task else {
            return Ok(());
        };
        if is_found(&asked.tests, lookups, task) {
            self.add(alloc, &asked.keys, task)?;
        }
        Ok(())
    }

    /// The whole answer.
    #[tactic(auto, unfolding(cluster_defs::specs::FilterContents::end_text))]
    pub fn finish(self) -> Result<String, AllocError>
        ensures { IfOk result (λ s. string_bytes s ≡ self.text ++ end_text) }
    {
        let Listing { count: _, mut text } = self;
        text.push_str("]}")?;
        Ok(text)
    }
}
