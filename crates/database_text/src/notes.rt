//! What entries do that bears on what a purge lets go.

ghost use Rattle.std.specs.Prelude.{◌≡◌, ◌+◌, IfOk, Some, true};
ghost use Rattle.cluster_defs.specs.Texts.{resubmit_id};
ghost use Rattle.cluster_defs.specs.Words.{once};
ghost use Rattle.cluster_defs.specs.Purges.{copies_from};
ghost use Rattle.database_text.specs.Notes.{note_as};

use cluster_types::event::Event;
use cluster_types::message::Ids;
use cluster_types::sequence::Sequence;
use cluster_types::text::Text;
use resubmission::distinct::once;
use std::alloc::{AllocError, Global};
use std::marker::Model;
use task_table::attempts::one_more;

/// A new id, with the old one whose request it got.
#[derive(Drop)]
pub struct Copied {
    /// Whose request it is.
    old: Text,
    /// `resubmit:` and the number of the new task.
    new: Text,
}

impl Model for Copied {
    ghost use Rattle.cluster_defs.specs.Purges.{Copy};

    ghost Value = { Copy };

    ghost view = { λ c. record { old = c.old; new = c.new } };
}

/// The copies that one entry makes.
pub type Copies = Sequence<Copied>;

/// What an entry does that bears on what a purge lets go.
#[derive(Drop)]
pub enum Note {
    /// None of the following.
    Nothing,
    /// Its request is accepted under this id.
    Accepts(Text),
    /// It is a valid reply for this id.
    Answers { id: Text, ok: bool },
    /// It makes these copies.
    Makes(Copies),
}

impl Copied {
    /// The id that was there before.
    pub fn old(&self) -> &Text
        ensures { result.now ≡ self.now.old }
    {
        &self.old
    }

    /// The id of the copy.
    pub fn new_id(&self) -> &Text
        ensures { result.now ≡ self.now.new }
    {
        &self.new
    }

    /// The copy of a task that is made under a number.
    fn numbered(alloc: Global, old: &Text, number: u64) -> Result<Copied, AllocError>
        ensures { IfOk result (λ c. c ≡ record { old = old.now; new = resubmit_id number }) }
    {
        Ok(Copied {
            old: old.clone()?,
            new: copy_id(alloc, number)?,
        })
    }
}

/// The id of a copy, by its number.
#[tactic(auto, unfolding(cluster_defs::specs::Texts::resubmit_id))]
fn copy_id(alloc: Global, number: u64) -> Result<Text, AllocError>
    ensures { IfOk result (λ text. text ≡ resubmit_id number) }
{
    let number = number.to_string(alloc)?;
    let mut text = String::from_str(alloc, "resubmit:")?;
    text.push_str(number.as_str())?;
    Text::from_string(text)
}

/// The copies of tasks under the numbers that follow a number.
fn copies_behind(alloc: Global, last: u64, ids: &[Text]) -> Result<Copies, AllocError>
    ensures { IfOk result (λ copies. copies ≡ copies_from (last + 1) ids.now) }
{
    let mut copies = Copies::new(alloc);
    let mut number = one_more(last)?;
    for old in ids {
        copies.push(Copied::numbered(alloc, old, number)?)?;
        number = one_more(number)?;
    }
    Ok(copies)
}

/// The copies that a resubmission makes, where so many ids are known.
fn copies_of(alloc: Global, known: u64, ids: &Ids) -> Result<Copies, AllocError>
    ensures { IfOk result (λ copies. copies ≡ copies_from (known + 1) (once ids.now)) }
{
    let olds = once(alloc, ids)?;
    copies_behind(alloc, known, olds.as_slice())
}

/// What a kept entry with this event does, where so many ids were known.
fn note_kept(alloc: Global, known: u64, event: &Event) -> Result<Note, AllocError>
    ensures { IfOk result (λ note. note ≡ note_as known true (Some event.now)) }
{
    match event {
        Event::Submit(submission) => Ok(Note::Accepts(submission.id.clone()?)),
        Event::Direct(submission) => Ok(Note::Accepts(submission.id.clone()?)),
        Event::Reply {
            task,
            header_id: _,
            ok,
            declined: _,
        } => Ok(Note::Answers {
            id: task.clone()?,
            ok: *ok,
        }),
        Event::Resubmit { ids } => Ok(Note::Makes(copies_of(alloc, known, ids)?)),
        _ => Ok(Note::Nothing),
    }
}

/// What an entry does, by whether it is kept, and its event, where so many ids were known.
pub fn note_of(
    alloc: Global,
    known: u64,
    kept: bool,
    event: &Option<Event>,
) -> Result<Note, AllocError>
    ensures { IfOk result (λ note. note ≡ note_as known kept event.now) }
{
    if !kept {
        return Ok(Note::Nothing);
    }
    match event {
        Some(event) => note_kept(alloc, known, event),
        None => Ok(Note::Nothing),
    }
}
