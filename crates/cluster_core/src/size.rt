//! How much came since the last Open.

ghost use Rattle.std.specs.Prelude.{◌≡◌};
ghost use Rattle.cluster_types.specs.declared.entry.Entry.{Entry};
ghost use Rattle.cluster_core.specs.Size.{is_past};
ghost use Rattle.cluster_core.specs.Growth.{nothing_more, with_record, size_next, sizes_next};

use cluster_types::entry::{Entry, Input};
use record_codec::size::{input_record_size, record_size};

/// How many entries there are after the last Open and its decisions, and how many octets their records have together.
/// Both stand still at 2^64 - 1.
#[derive(Clone, Copy, Debug, PartialEq, Eq)]
pub struct HistorySize {
    pub entries: u64,
    pub bytes: u64,
}

/// No entries.
pub(crate) const NOTHING: HistorySize = HistorySize {
    entries: 0,
    bytes: 0,
};

/// More than any history has.
pub(crate) const GREATEST: HistorySize = HistorySize {
    entries: u64::MAX,
    bytes: u64::MAX,
};

impl HistorySize {
    /// Whether entries or octets are more than a limit has.
    pub fn is_past(self, limit: HistorySize) -> bool
        ensures { result ≡ is_past limit self }
    {
        self.entries > limit.entries || self.bytes > limit.bytes
    }

    /// An entry more, whose record has so many octets.
    fn with_record(self, octets: u64) -> HistorySize
        ensures { result ≡ with_record self octets }
    {
        HistorySize {
            entries: self.entries.saturating_add(1),
            bytes: self.bytes.saturating_add(octets),
        }
    }

    /// The size once an input came.
    fn behind_input(self, input: &Input) -> HistorySize
        ensures { result ≡ size_next self (Entry.Input input.now) }
    {
        match input {
            Input::Open { .. } => NOTHING,
            _ => self.with_record(input_record_size(input)),
        }
    }

    /// The size once an entry came: the decisions of an Open don't count.
    fn behind(self, entry: &Entry) -> HistorySize
        ensures { result ≡ size_next self entry.now }
    {
        match entry {
            Entry::Input(input) => self.behind_input(input),
            _ if self.entries == 0 => self,
            _ => self.with_record(record_size(entry)),
        }
    }

    /// The size once an input came with its decisions.
    pub(crate) fn behind_step(self, input: &Input, decisions: &[Entry]) -> HistorySize
        ensures { result ≡ sizes_next (size_next self (Entry.Input input.now)) decisions.now }
    {
        let mut size = self.behind_input(input);
        for decision in decisions {
            size = size.behind(decision);
        }
        size
    }
}
