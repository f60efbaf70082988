//! What a run is summed up to.

ghost use Rattle.std.specs.Prelude.{◌≡◌, count_by, reverse, length, List};
ghost use Rattle.cluster_types.specs.declared.entry.Entry.{Entry as EntryType};
ghost use Rattle.quick_commands.specs.Summaries.{is_of, sums_up};

use crate::summary::Summary;
use cluster_types::entry::Entry;
use cluster_types::verdict::Verdict;

/// What entries are counted by.
#[derive(Clone, Copy, Debug)]
pub enum CountedKind {
    /// A task is handed out.
    Hand,
    /// A task completes.
    Completed,
    /// A task fails.
    Failed,
}

/// Whether an entry is of a kind.
fn is_of(kind: CountedKind, entry: &Entry) -> bool
    ensures { result ≡ is_of kind entry.now }
{
    match (kind, entry) {
        (CountedKind::Hand, Entry::Hand { .. }) => true,
        (
            CountedKind::Completed,
            Entry::Settle {
                verdict: Verdict::Completed,
                ..
            },
        ) => true,
        (
            CountedKind::Failed,
            Entry::Settle {
                verdict: Verdict::Failed,
                ..
            },
        ) => true,
        _ => false,
    }
}

/// How many entries are of a kind.
fn count_of(kind: CountedKind, entries: &[Entry]) -> u64
    ensures { result ≡ count_by (is_of kind) entries.now }
{
    let mut count = 0u64;
    for entry in entries {
        if is_of(kind, entry) {
            count = count.saturating_add(1);
        }
    }
    count
}

/// The summary of a run of so many tasks, by the entries of its history in order, and the sum of the results.
pub fn summed_up(tasks: u32, entries: &[Entry], sum: i64) -> Summary
    ensures { result ≡ sums_up tasks (reverse entries.now) sum }
{
    Summary {
        tasks: u64::from(tasks),
        completed: count_of(CountedKind::Completed, entries),
        failed: count_of(CountedKind::Failed, entries),
        hands: count_of(CountedKind::Hand, entries),
        entries: entries.len() as u64,
        sum,
    }
}
