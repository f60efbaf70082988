//! What is known after a history, and what each of its entries does.

ghost use Rattle.std.specs.Prelude.{◌≡◌, ◌≤◌, All, reverse, IfOk, OnOk};
ghost use Rattle.cluster_types.specs.Limits.{last_moment};
ghost use Rattle.cluster_defs.specs.Facts.{event_in};
ghost use Rattle.cluster_defs.specs.Histories.{facts, Legal};
ghost use Rattle.cluster_state.specs.Plain.{facts_in, plain_of, plain_after, InTime};
ghost use Rattle.cluster_state.specs.Stands.{plain};
ghost use Rattle.entry_outs.specs.Reached.{IsNext};
ghost use Rattle.database_text.specs.Notes.{note_of, notes_of};

use crate::meanings::event_in;
use crate::notes::{Note, note_of};
use cluster_state::state::State;
use cluster_types::entry::Entry;
use cluster_types::event::Event;
use entry_outs::rulings::ruling;
use json::Scratch;
use std::alloc::{AllocError, Global};

/// What is known after a history, and what each of its entries does, in their order.
#[derive(Drop)]
pub struct HistoryNotes {
    /// The data after the newest entry.
    pub state: State,
    /// What each entry does.
    pub notes: Vec<Note>,
}

/// Takes an entry with what its message means, and says what it does.
fn take_as(state: &mut State, entry: &Entry, event: &Option<Event>) -> Result<Note, AllocError>
    requires next { IsNext (plain state.old) entry.now }
    requires event { event.now ≡ event_in (facts_in (plain state.old)) entry.now }
    requires time { InTime entry.now }
    requires now { state.old.moment ≤ last_moment }
    ensures note { IfOk result (λ note. note ≡ note_of (facts_in (plain state.old)) entry.now) }
    ensures after { OnOk result (plain state.new ≡ plain_after (facts_in (plain state.old)) entry.now (event_in (facts_in (plain state.old)) entry.now) (plain state.old)) }
{
    let known = state.tasks.len() as u64;
    let ruling = ruling(state, entry, event)?;
    let kept = state.take(entry, event, ruling)?;
    note_of(state.allocator(), known, kept, event)
}

/// Takes an entry, and says what it does.
fn take_entry(state: &mut State, entry: &Entry, scratch: &mut Scratch) -> Result<Note, AllocError>
    requires next { IsNext (plain state.old) entry.now }
    requires time { InTime entry.now }
    requires now { state.old.moment ≤ last_moment }
    ensures note { IfOk result (λ note. note ≡ note_of (facts_in (plain state.old)) entry.now) }
    ensures after { OnOk result (plain state.new ≡ plain_after (facts_in (plain state.old)) entry.now (event_in (facts_in (plain state.old)) entry.now) (plain state.old)) }
{
    let event = event_in(state.allocator(), state, entry, scratch)?;
    take_as(state, entry, &event)
}

/// Takes the entries of a legal history one after another.
pub fn pass_over(alloc: Global, entries: &[Entry]) -> Result<HistoryNotes, AllocError>
    requires legal { Legal (reverse entries.now) }
    requires time { All InTime entries.now }
    ensures stands { IfOk result (λ pass. plain pass.state ≡ plain_of (facts (reverse entries.now))) }
    ensures notes { IfOk result (λ pass. reverse pass.notes.items ≡ notes_of (reverse entries.now)) }
{
    let mut scratch = Scratch::new(alloc);
    let mut state = State::new(alloc);
    let mut notes = Vec::new(alloc);
    for entry in entries {
        let note = take_entry(&mut state, entry, &mut scratch)?;
        notes.push(note)?;
    }
    Ok(HistoryNotes { state, notes })
}
