//! Histories without what is let go.

ghost use Rattle.std.specs.Prelude.{◌≡◌, All, length, reverse, IfOk};
ghost use Rattle.cluster_defs.specs.Histories.{Legal};
ghost use Rattle.cluster_defs.specs.Thin.{thin};
ghost use Rattle.cluster_state.specs.Plain.{InTime};
ghost use Rattle.database_text.specs.Going.{purged_by, gone_by};
ghost use Rattle.database_text.specs.Thinning.{thin_as, thin_noted};

use crate::going::{Going, going_after};
use crate::messages::thin_message;
use crate::notes::Note;
use crate::pass::pass_over;
use cluster_types::entry::{Entries, Entry, Input};
use std::alloc::{AllocError, Global};

/// A clone, which shares what the entry holds.
fn same_entry(entry: &Entry) -> Result<Entry, AllocError>
    ensures { IfOk result (λ e. e ≡ entry.now) }
{
    entry.clone()
}

/// An entry that does this, without what is let go.
fn thin_entry(alloc: Global, going: &Going, note: &Note, entry: &Entry) -> Result<Entry, AllocError>
    ensures { IfOk result (λ e. e ≡ thin_as (gone_by going.now) (purged_by going.now) note.now entry.now) }
{
    match entry {
        Entry::Input(
            Input::In {
                conn,
                moment,
                word,
                message,
            },
        ) => Ok(Entry::Input(Input::In {
            conn: *conn,
            moment: *moment,
            word: *word,
            message: thin_message(alloc, going, note, message)?,
        })),
        _ => same_entry(entry),
    }
}

/// Entries that do this, without what is let go.
fn thin_entries(
    alloc: Global,
    going: &Going,
    notes: &[Note],
    entries: &[Entry],
) -> Result<Vec<Entry>, AllocError>
    requires { length notes.now ≡ length entries.now }
    ensures { IfOk result (λ thin. reverse thin.items ≡ thin_noted (gone_by going.now) (purged_by going.now) (reverse notes.now) (reverse entries.now)) }
{
    let mut thin = Vec::new(alloc);
    for (place, entry) in entries.iter().enumerate() {
        thin.push(thin_entry(alloc, going, &notes[place], entry)?)?;
    }
    Ok(thin)
}

/// The entries of a history, in the order in which they came, without the contents that a purge lets go.
pub fn thinned(alloc: Global, entries: &Entries) -> Result<Entries, AllocError>
    requires legal { Legal (reverse entries.now) }
    requires time { All InTime entries.now }
    ensures { IfOk result (λ t. t ≡ reverse (thin (reverse entries.now))) }
{
    let pass = pass_over(alloc, entries.as_slice())?;
    let going = going_after(alloc, &pass.state, pass.notes.as_slice())?;
    let thin = thin_entries(alloc, &going, pass.notes.as_slice(), entries.as_slice())?;
    Ok(Entries::from_vec(thin))
}
