//! The versions of a journal.

ghost use Rattle.std.specs.Prelude.{◌≡◌};
ghost use Rattle.task_journal.specs.Versions.{version_by, knows};

use cluster_types::entry::Entry;
use cluster_types::verdict::{Cause, Verdict};

/// A version of the format. Both are read, and the second is written.
#[derive(Clone, Copy, Debug, PartialEq, Eq)]
pub enum Version {
    /// It has no record for a task that a client took back.
    First,
    Second,
}

impl Version {
    /// The version that a version octet means.
    pub fn by(octet: u8) -> Version
        ensures { result ≡ version_by octet }
    {
        match octet {
            2 => Version::Second,
            _ => Version::First,
        }
    }

    /// Whether it has a record for an entry.
    pub fn knows(self, entry: &Entry) -> bool
        ensures { result ≡ knows self entry.now }
    {
        match (self, entry) {
            (
                Version::First,
                Entry::Settle {
                    verdict: Verdict::Aborted,
                    ..
                },
            ) => false,
            (
                Version::First,
                Entry::Settle {
                    cause: Cause::Abort,
                    ..
                },
            ) => false,
            _ => true,
        }
    }
}
