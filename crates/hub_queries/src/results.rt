//! The answer that tells what settled tasks left.

ghost use Rattle.std.specs.Prelude.{◌≡◌, ◌+◌, ◌<◌, ◌^◌, ◌++◌, ◌∷◌, ◌&&◌, [], List, Bool, false, length, not, filter, filter_map, flat_map, codes, decimal, IfOk, OnOk, string_bytes};
ghost use Rattle.std.specs.Option.{option_copied, option_and_then, option_to_list};
ghost use Rattle.cluster_types.specs.Verdicts.{verdict_name, cause_name};
ghost use Rattle.cluster_types.specs.declared.record.Record.{Record};
ghost use Rattle.cluster_defs.specs.Texts.{settled_member, engine_or_null, result_content, texts_list, Settled};
ghost use Rattle.cluster_defs.specs.Words.{Id, once};
ghost use Rattle.cluster_defs.specs.Queries.{is_hub, limited};
ghost use Rattle.cluster_defs.specs.RecordAnswers.{record_in, left_in, all_left, result_in, results_in, is_settled_record};
ghost use Rattle.jupyter_header.specs.Comma.{comma};
ghost use Rattle.hub_queries.specs.Results.{written_results, head_text};
ghost use Rattle.hub_queries.specs.Weights.{is_heavy};

use crate::limits::{is_hub, limited, refusal, too_long};
use crate::weights::is_heavy;
use cluster_defs::answer::Answer;
use cluster_types::config::Channel;
use cluster_types::message::{Buffers, Ids};
use cluster_types::octets::Octets;
use cluster_types::record::{Record, Records};
use cluster_types::sequence::Sequence;
use cluster_types::shared_message::SharedMessage;
use cluster_types::text::Text;
use cluster_types::verdict::{Cause, Verdict};
use jupyter_header::contents::texts_list;
use jupyter_header::write::quoted;
use resubmission::distinct::once;
use resubmission::standing::{Standing, ids_that};
use std::alloc::{AllocError, Global};
use std::marker::Model;

/// What is written of settled tasks so far: their number, their members parted by commas, and their buffers.
#[derive(Debug, Drop)]
struct Written {
    count: usize,
    text: Vec<u8>,
    buffers: Buffers,
}

impl Model for Written {
    ghost use Rattle.hub_queries.specs.Results.{Written as WrittenValue};

    ghost Value = { WrittenValue };

    ghost view = { λ w. record { count = w.count; text = w.text.items; buffers = w.buffers } };
}

/// The number of an engine, or `null`.
fn engine_text(alloc: Global, engine: Option<u32>) -> Result<String, AllocError>
    ensures { IfOk result (λ s. string_bytes s ≡ engine_or_null engine) }
{
    match engine {
        Some(number) => Ok(number.to_string(alloc)?),
        None => String::from_str(alloc, "null"),
    }
}

/// The beginning of a task's member: its id, its last engine, its verdict and its cause.
#[tactic(auto, unfolding(crate::specs::Results::head_text))]
fn head_text(
    alloc: Global,
    id: &Text,
    engine: Option<u32>,
    verdict: Verdict,
    cause: Cause,
) -> Result<String, AllocError>
    ensures { IfOk result (λ s. string_bytes s ≡ head_text id.now engine (verdict_name verdict) (cause_name cause)) }
{
    let number = engine_text(alloc, engine)?;
    let verdict = quoted(alloc, verdict.name())?;
    let cause = quoted(alloc, cause.name())?;
    let mut text = quoted(alloc, id.as_str())?;
    text.push_str(":{\"engine\":")?;
    text.push_str(number.as_str())?;
    text.push_str(",\"verdict\":")?;
    text.push_str(verdict.as_str())?;
    text.push_str(",\"cause\":")?;
    text.push_str(cause.as_str())?;
    Ok(text)
}

/// The member of a task, off its beginning and its outcome. The outcome's parts stand in it as they are.
fn whole_member(alloc: Global, head: String, outcome: &SharedMessage) -> Result<Vec<u8>, AllocError>
    ensures { IfOk result (λ v. v.items ≡ string_bytes head ++ codes ",\"header\":" ++ outcome.now.header ++ codes ",\"metadata\":" ++ outcome.now.metadata ++ codes ",\"content\":" ++ outcome.now.content ++ codes ",\"buffers\":" ++ decimal (length outcome.now.buffers) ++ codes "}") }
{
    let count = outcome.buffers().len().to_string(alloc)?;
    let mut text = head.into_bytes();
    text.extend_from_slice(b",\"header\":")?;
    text.extend_from_slice(outcome.header())?;
    text.extend_from_slice(b",\"metadata\":")?;
    text.extend_from_slice(outcome.metadata())?;
    text.extend_from_slice(b",\"content\":")?;
    text.extend_from_slice(outcome.content())?;
    text.extend_from_slice(b",\"buffers\":")?;
    text.extend_from_slice(count.as_bytes())?;
    text.extend_from_slice(b"}")?;
    Ok(text)
}

/// The member of a settled task.
#[tactic(auto, unfolding(cluster_defs::specs::Texts::settled_member, crate::specs::Results::head_text))]
fn member(
    alloc: Global,
    task: &Record,
    verdict: Verdict,
    cause: Cause,
    outcome: &SharedMessage,
) -> Result<Vec<u8>, AllocError>
    ensures { IfOk result (λ v. v.items ≡ settled_member (record { id = task.now.id; engine = task.now.engine; verdict = verdict_name verdict; cause = cause_name cause; outcome = outcome.now })) }
{
    let head = head_text(alloc, &task.id, task.engine, verdict, cause)?;
    whole_member(alloc, head, outcome)
}

/// Appends copies of buffers.
fn append(into: &mut Buffers, from: &Buffers) -> Result<(), AllocError>
    ensures { OnOk result (into.new ≡ into.old ++ from.now) }
{
    for buffer in from.as_slice() {
        into.push(buffer.clone()?)?;
    }
    Ok(())
}

/// Appends a member, with the comma before the item at a place.
fn push_member(text: &mut Vec<u8>, place: usize, member: &[u8]) -> Result<(), AllocError>
    ensures { OnOk result (text.new.items ≡ text.old.items ++ (comma place ++ member.now)) }
{
    if place > 0 {
        text.push(b',')?;
    }
    text.extend_from_slice(member)
}

impl Written {
    /// Nothing written.
    fn new(alloc: Global) -> Written
        ensures { result ≡ written_results [] }
    {
        Written {
            count: 0,
            text: Vec::new(alloc),
            buffers: Sequence::new(alloc),
        }
    }

    /// Adds a settled task with its outcome.
    fn add(
        &mut self,
        alloc: Global,
        task: &Record,
        verdict: Verdict,
        cause: Cause,
        outcome: &SharedMessage,
    ) -> Result<(), AllocError>
        ensures { (rs : List Settled) → length rs + 1 < 2 ^ 64 → self.old ≡ written_results rs → OnOk result (self.new ≡ written_results (rs ++ record { id = task.now.id; engine = task.now.engine; verdict = verdict_name verdict; cause = cause_name cause; outcome = outcome.now } ∷ [])) }
    {
        let member = member(alloc, task, verdict, cause, outcome)?;
        push_member(&mut self.text, self.count, member.as_slice())?;
        append(&mut self.buffers, outcome.buffers())?;
        self.count = self.count.saturating_add(1);
        Ok(())
    }

    /// Adds a task, where it is settled and has its outcome.
    fn add_found(&mut self, alloc: Global, found: Option<&Record>) -> Result<(), AllocError>
        ensures { (rs : List Settled) → length rs + 1 < 2 ^ 64 → self.old ≡ written_results rs → OnOk result (self.new ≡ written_results (rs ++ option_to_list (option_and_then left_in (option_copied found.entry)))) }
    {
        let Some(task) = found else {
            return Ok(());
        };
        let Some((verdict, cause)) = task.settled else {
            return Ok(());
        };
        let Some(outcome) = &task.outcome else {
            return Ok(());
        };
        self.add(alloc, task, verdict, cause, outcome)
    }
}

/// What these tasks left.
fn written_of<R: Records>(alloc: Global, table: &R, ids: &Ids) -> Result<Written, AllocError>
    ensures { IfOk result (λ w. w ≡ written_results (all_left (R.records table.now) false ids.now)) }
{
    let mut written = Written::new(alloc);
    for id in ids.as_slice() {
        written.add_found(alloc, table.find(id))?;
    }
    Ok(written)
}

/// What these tasks left, or nothing where the status alone was asked.
fn asked_of<R: Records>(
    alloc: Global,
    table: &R,
    status_only: bool,
    ids: &Ids,
) -> Result<Written, AllocError>
    ensures { IfOk result (λ w. w ≡ written_results (all_left (R.records table.now) status_only ids.now)) }
{
    if status_only {
        return Ok(Written::new(alloc));
    }
    written_of(alloc, table, ids)
}

/// The beginning of the content: the lists of the unsettled and the settled ids.
fn lists_text(alloc: Global, pending: &Ids, completed: &Ids) -> Result<String, AllocError>
    ensures { IfOk result (λ s. string_bytes s ≡ codes "{\"status\":\"ok\",\"pending\":" ++ texts_list pending.now ++ codes ",\"completed\":" ++ texts_list completed.now ++ codes ",\"results\":") }
{
    let first = texts_list(alloc, pending)?;
    let second = texts_list(alloc, completed)?;
    let mut text = String::from_str(alloc, "{\"status\":\"ok\",\"pending\":")?;
    text.push_str(first.as_str())?;
    text.push_str(",\"completed\":")?;
    text.push_str(second.as_str())?;
    text.push_str(",\"results\":")?;
    Ok(text)
}

/// The answer of its parts.
#[tactic(auto, unfolding(cluster_defs::specs::Texts::result_content))]
fn joined(
    alloc: Global,
    pending: &Ids,
    completed: &Ids,
    results: Written,
) -> Result<Answer, AllocError>
    ensures { (rs : List Settled) → results ≡ written_results rs → IfOk result (λ a. a ≡ record { content = result_content pending.now completed.now rs; buffers = flat_map (λ r. r.outcome.buffers) rs }) }
{
    let Written {
        text: members,
        buffers,
        ..
    } = results;
    let mut text = lists_text(alloc, pending, completed)?.into_bytes();
    text.push(b'{')?;
    text.extend_from_slice(members.as_slice())?;
    text.extend_from_slice(b"}}")?;
    Ok(Answer {
        content: Octets::from_vec(text)?,
        buffers,
    })
}

/// Whether the outcomes of these tasks were asked for, and pass a limit of an answer on this channel by themselves.
fn passes_limits<R: Records>(
    channel: Channel,
    table: &R,
    status_only: bool,
    completed: &Ids,
) -> bool
    ensures { result ≡ (is_hub channel && is_heavy (all_left (R.records table.now) status_only completed.now)) }
{
    if status_only {
        return false;
    }
    is_hub(channel) && is_heavy(table, completed)
}

/// The answer on ids that are known and not purged, off the settled ones and the other ones.
fn joined_answer<R: Records>(
    alloc: Global,
    channel: Channel,
    table: &R,
    status_only: bool,
    pending: &Ids,
    completed: &Ids,
) -> Result<Answer, AllocError>
    ensures { IfOk result (λ a. a ≡ limited channel (record { content = result_content pending.now completed.now (all_left (R.records table.now) status_only completed.now); buffers = flat_map (λ r. r.outcome.buffers) (all_left (R.records table.now) status_only completed.now) })) }
{
    if passes_limits(channel, table, status_only, completed) {
        let refused = too_long(alloc)?;
        return Ok(refused);
    }
    let results = asked_of(alloc, table, status_only, completed)?;
    let whole = joined(alloc, pending, completed, results)?;
    limited(alloc, channel, whole)
}

/// The answer on ids that are known and not purged.
fn results_answer<R: Records>(
    alloc: Global,
    channel: Channel,
    table: &R,
    ids: &Ids,
    status_only: bool,
) -> Result<Answer, AllocError>
    ensures { IfOk result (λ a. a ≡ limited channel (results_in (R.records table.now) ids.now (all_left (R.records table.now) status_only (filter (λ id. is_settled_record (record_in (R.records table.now) id)) ids.now)))) }
{
    let pending = ids_that(alloc, table, Standing::Inflight, ids)?;
    let completed = ids_that(alloc, table, Standing::Settled, ids)?;
    joined_answer(alloc, channel, table, status_only, &pending, &completed)
}

/// The answer on ids without repeats.
fn distinct_answer<R: Records>(
    alloc: Global,
    channel: Channel,
    table: &R,
    ids: &Ids,
    status_only: bool,
) -> Result<Answer, AllocError>
    ensures { IfOk result (λ a. a ≡ limited channel (result_in (R.records table.now) ids.now status_only)) }
{
    let gone = ids_that(alloc, table, Standing::Gone, ids)?;
    if !gone.is_empty() {
        let whole = refusal(alloc, "UnknownIds", "", &gone)?;
        return limited(alloc, channel, whole);
    }
    results_answer(alloc, channel, table, ids, status_only)
}

/// The answer, within the limits of its channel, that tells which of the ids are settled and, unless the status alone
/// is asked, what they left. An id that repeats counts once, at its first place. Where the outcomes pass a limit by
/// themselves, none of them is copied.
pub fn result_answer<R: Records>(
    alloc: Global,
    channel: Channel,
    table: &R,
    ids: &Ids,
    status_only: bool,
) -> Result<Answer, AllocError>
    ensures { IfOk result (λ a. a ≡ limited channel (result_in (R.records table.now) (once ids.now) status_only)) }
{
    let distinct = once(alloc, ids)?;
    distinct_answer(alloc, channel, table, &distinct, status_only)
}
