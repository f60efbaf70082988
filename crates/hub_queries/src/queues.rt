//! The answers that list engines or ids: connections, queues and the history.

ghost use Rattle.std.specs.Prelude.{◌≡◌, ℕ, ◌++◌, ◌∷◌, [], Bool, not, find, List, map, flat_map, codes, decimal, IfOk, OnOk, string_bytes};
ghost use Rattle.json.specs.Print.{quoted};
ghost use Rattle.cluster_types.specs.declared.record.Record.{Record};
ghost use Rattle.cluster_defs.specs.Texts.{parted, engine_member, connection_content, history_content, counted, queue_member, queue_content};
ghost use Rattle.cluster_defs.specs.Words.{Id};
ghost use Rattle.cluster_defs.specs.Queries.{plain, refusal};
ghost use Rattle.cluster_defs.specs.RecordAnswers.{ids_where, queue_in, waits_in, queues_in, lives_in};
ghost use Rattle.jupyter_header.specs.Comma.{comma};
ghost use Rattle.hub_queries.specs.Ascending.{Ascends};
ghost use Rattle.hub_queries.specs.Rows.{row_of};
ghost use Rattle.hub_queries.specs.Tallies.{tallied};

use crate::engines::{LiveEngines, asked, first_missing, numbers_of};
use crate::lengths::QueueCounts;
use crate::limits::{plain, refusal};
use crate::rows::{Row, shown_rows};
use crate::scan::{ListedKind, tally_of, waiting};
use crate::tally::Tally;
use cluster_defs::answer::Answer;
use cluster_types::message::Engines;
use cluster_types::octets::Octets;
use cluster_types::record::Records;
use cluster_types::sequence::Sequence;
use cluster_types::text::Text;
use jupyter_header::contents::push_comma;
use jupyter_header::write::quoted;
use std::alloc::{AllocError, Global};

/// An engine's number as a name, in quotation marks.
fn number_name(alloc: Global, number: u32) -> Result<String, AllocError>
    ensures { IfOk result (λ s. string_bytes s ≡ quoted (decimal number)) }
{
    let digits = number.to_string(alloc)?;
    quoted(alloc, digits.as_str())
}

/// Appends a live engine, with the comma before it.
fn push_engine(
    text: &mut String,
    alloc: Global,
    place: usize,
    engine: &(u32, Text),
) -> Result<(), AllocError>
    ensures { OnOk result (string_bytes text.new ≡ string_bytes text.old ++ (comma place ++ engine_member engine.now)) }
{
    let name = number_name(alloc, engine.0)?;
    let uuid = quoted(alloc, engine.1.as_str())?;
    push_comma(text, place)?;
    text.push_str(name.as_str())?;
    text.push_str(":")?;
    text.push_str(uuid.as_str())
}

/// Appends the live engines, parted by commas.
fn push_engines(text: &mut String, alloc: Global, live: &LiveEngines) -> Result<(), AllocError>
    ensures { OnOk result (string_bytes text.new ≡ string_bytes text.old ++ parted (map engine_member live.now)) }
{
    for (place, engine) in live.as_slice().iter().enumerate() {
        push_engine(text, alloc, place, engine)?;
    }
    Ok(())
}

/// The answer that lists the live engines.
#[tactic(auto, unfolding(cluster_defs::specs::Texts::connection_content))]
pub fn connection_answer(alloc: Global, live: &LiveEngines) -> Result<Answer, AllocError>
    ensures { IfOk result (λ a. a ≡ plain (connection_content live.now)) }
{
    let mut text = String::from_str(alloc, "{\"status\":\"ok\",\"engines\":{")?;
    push_engines(&mut text, alloc, live)?;
    text.push_str("}}")?;
    Ok(plain(alloc, Octets::from_string(text)?))
}

/// The content that lists the ids that aren't purged.
#[tactic(auto, unfolding(cluster_defs::specs::Texts::history_content))]
fn history_text<R: Records>(alloc: Global, table: &R) -> Result<String, AllocError>
    ensures { IfOk result (λ s. string_bytes s ≡ history_content (ids_where (λ r. not r.purged) (R.records table.now))) }
{
    let kept = tally_of(alloc, table, ListedKind::Kept, true)?;
    let mut text = String::from_str(alloc, "{\"status\":\"ok\",\"history\":")?;
    kept.push_to(&mut text, alloc)?;
    text.push_str("}")?;
    Ok(text)
}

/// The answer that lists the ids that aren't purged.
pub fn history_answer<R: Records>(alloc: Global, table: &R) -> Result<Answer, AllocError>
    ensures { IfOk result (λ a. a ≡ plain (history_content (ids_where (λ r. not r.purged) (R.records table.now)))) }
{
    let text = history_text(alloc, table)?;
    Ok(plain(alloc, Octets::from_string(text)?))
}

/// The queue of an engine.
fn row_text(alloc: Global, row: &Row) -> Result<String, AllocError>
    ensures { (verbose : Bool) (records : List Record) → row.now ≡ row_of verbose records row.now.number → IfOk result (λ s. string_bytes s ≡ queue_member verbose (queue_in records row.now.number)) }
{
    let mut text = number_name(alloc, row.number)?;
    text.push_str(":{\"queue\":")?;
    row.queue.push_to(&mut text, alloc)?;
    text.push_str(",\"completed\":")?;
    row.completed.push_to(&mut text, alloc)?;
    text.push_str(",\"tasks\":")?;
    row.tasks.push_to(&mut text, alloc)?;
    text.push_str("}")?;
    Ok(text)
}

/// Appends the queues of engines, each with a comma before it.
fn push_rows(text: &mut String, alloc: Global, rows: &[Row]) -> Result<(), AllocError>
    ensures { (verbose : Bool) (records : List Record) (numbers : List ℕ) → rows.now ≡ map (row_of verbose records) numbers → OnOk result (string_bytes text.new ≡ string_bytes text.old ++ flat_map (λ n. 44 ∷ queue_member verbose (queue_in records n)) numbers) }
{
    for row in rows {
        let member = row_text(alloc, row)?;
        text.push_str(",")?;
        text.push_str(member.as_str())?;
    }
    Ok(())
}

/// The content that tells the queues.
fn queue_text(alloc: Global, unassigned: &Tally, rows: &[Row]) -> Result<String, AllocError>
    ensures { (verbose : Bool) (ids : List Id) (records : List Record) (numbers : List ℕ) → unassigned.now ≡ tallied verbose ids → rows.now ≡ map (row_of verbose records) numbers → IfOk result (λ s. string_bytes s ≡ queue_content verbose ids (map (queue_in records) numbers)) }
{
    let mut text = String::from_str(alloc, "{\"status\":\"ok\",\"unassigned\":")?;
    unassigned.push_to(&mut text, alloc)?;
    push_rows(&mut text, alloc, rows)?;
    text.push_str("}")?;
    Ok(text)
}

/// The refusal of a listed engine that isn't live.
fn no_such_engine(alloc: Global, number: u32) -> Result<Answer, AllocError>
    ensures { IfOk result (λ a. a ≡ refusal (codes "NoSuchEngine") (decimal number) []) }
{
    let digits = number.to_string(alloc)?;
    refusal(
        alloc,
        "NoSuchEngine",
        digits.as_str(),
        &Sequence::new(alloc),
    )
}

/// The answer on the queues of the listed engines; an empty list asks for all. With `verbose` it has the ids in the
/// place of their numbers.
pub fn queues_answer<R: QueueCounts>(
    alloc: Global,
    table: &R,
    live: &LiveEngines,
    targets: &Engines,
    verbose: bool,
) -> Result<Answer, AllocError>
    requires { Ascends (map (λ e. e.0) live.now) }
    ensures { IfOk result (λ a. a ≡ queues_in (R.records table.now) live.now targets.now verbose (find (λ n. not (lives_in live.now n)) targets.now)) }
{
    let numbers = numbers_of(alloc, live)?;
    if let Some(missing) = first_missing(numbers.as_slice(), targets.as_slice()) {
        let refused = no_such_engine(alloc, missing)?;
        return Ok(refused);
    }
    let asked = asked(alloc, numbers.as_slice(), targets.as_slice())?;
    let unassigned = waiting(alloc, table, verbose)?;
    let rows = shown_rows(alloc, table, asked.as_slice(), verbose)?;
    let text = queue_text(alloc, &unassigned, rows.as_slice())?;
    Ok(plain(alloc, Octets::from_string(text)?))
}
