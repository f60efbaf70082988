//! What outcomes weigh, told by lengths alone.

ghost use Rattle.std.specs.Prelude.{◌≡◌, ◌-◌, ◌^◌, false, min, IfOk};
ghost use Rattle.std.specs.Option.{option_copied, option_and_then, option_to_list};
ghost use Rattle.cluster_defs.specs.RecordAnswers.{left_in, all_left};
ghost use Rattle.hub_queries.specs.Weights.{measure, weight, is_heavy};

use crate::limits::{MOST_OCTETS, octets_of};
use cluster_types::limits::{BODY_OCTETS, MOST_BUFFERS};
use cluster_types::message::Ids;
use cluster_types::record::{Record, Records};
use cluster_types::shared_message::SharedMessage;

/// What is measured of an outcome.
#[derive(Clone, Copy, Debug, PartialEq, Eq)]
pub enum Measure {
    /// The octets that it has in a content.
    Text,
    /// The number of its buffers.
    BufferCount,
    /// The octets of its buffers.
    BufferOctets,
}

/// The octets that an outcome has in a content.
fn text_of(outcome: &SharedMessage) -> usize
    ensures { result ≡ min (measure Measure.Text outcome.now) (2 ^ 64 - 1) }
{
    let header = outcome.header().len();
    let metadata = outcome.metadata().len();
    let content = outcome.content().len();
    header.saturating_add(metadata).saturating_add(content)
}

/// The measure of an outcome.
fn measured(by: Measure, outcome: &SharedMessage) -> usize
    ensures { result ≡ min (measure by outcome.now) (2 ^ 64 - 1) }
{
    match by {
        Measure::Text => text_of(outcome),
        Measure::BufferCount => outcome.buffers().len(),
        Measure::BufferOctets => octets_of(outcome.buffers()),
    }
}

/// The measure of what a task left, where it is settled and has its outcome.
fn measure_found(by: Measure, found: Option<&Record>) -> usize
    ensures { result ≡ min (weight by (option_to_list (option_and_then left_in (option_copied found.entry)))) (2 ^ 64 - 1) }
{
    let Some(task) = found else {
        return 0;
    };
    if task.settled.is_none() {
        return 0;
    }
    match &task.outcome {
        Some(outcome) => measured(by, outcome),
        None => 0,
    }
}

/// The measure of what these tasks left.
fn weight_of<R: Records>(table: &R, by: Measure, ids: &Ids) -> usize
    ensures { result ≡ min (weight by (all_left (R.records table.now) false ids.now)) (2 ^ 64 - 1) }
{
    let mut total: usize = 0;
    for id in ids.as_slice() {
        total = total.saturating_add(measure_found(by, table.find(id)));
    }
    total
}

/// Whether what these tasks left passes a limit of an answer by itself.
pub fn is_heavy<R: Records>(table: &R, ids: &Ids) -> bool
    ensures { result ≡ is_heavy (all_left (R.records table.now) false ids.now) }
{
    let text = weight_of(table, Measure::Text, ids);
    let octets = weight_of(table, Measure::BufferOctets, ids);
    let count = weight_of(table, Measure::BufferCount, ids);
    text as u64 > BODY_OCTETS || octets > MOST_OCTETS || count > MOST_BUFFERS
}
