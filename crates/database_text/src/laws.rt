//! Laws of journals that are written at once.

ghost use Rattle.std.specs.Prelude.{◌<◌, ◌^◌, List, length, All};
ghost use Rattle.cluster_types.specs.declared.entry.Entry.{Entry as EntryType};
ghost use Rattle.record_codec.specs.Spelling.{spelling, HasRecord};
ghost use Rattle.task_journal.specs.Journal.{StandsFor};
ghost use Rattle.database_text.specs.Compact.{compacted, HasJournal};

/// The journal of entries stands for these entries.
pub fn stands()
    ensures { (list : List EntryType) → All HasRecord list → HasJournal list → StandsFor (compacted list) list }
{}

/// Entries whose records have fewer than 2^32 octets each have a journal.
pub fn has_journal()
    ensures { (list : List EntryType) → All (λ e. length (spelling e) < 2 ^ 32) list → HasJournal list }
{}
