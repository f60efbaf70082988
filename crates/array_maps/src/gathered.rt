//! What codes that were sent answered.

ghost use Rattle.std.specs.Prelude.{◌≡◌, ◌≤◌, ◌<◌, ◌+◌, ◌^◌, ◌++◌, ◌∷◌, [], length, replicate, slice_set, vec_len, None, Some, IfOk, IfSome, OnErr};
ghost use Rattle.std.specs.Option.{option_copied};
ghost use Rattle.client_core.specs.Numbers.{numbered_id};
ghost use Rattle.client_core.specs.Taking.{took, after_taking};
ghost use Rattle.array_maps.specs.Gathering.{awaited, with_answer, gathered_after, answer_at, is_whole, IsNoneOf};

use client_core::answered::Answered;
use client_core::answers::answered_in;
use client_core::client::Requests;
use client_core::notes::Notes;
use client_core::numbered::number_of;
use client_core::took::Took;
use cluster_types::shared_message::SharedMessage;
use json::Scratch;
use std::alloc::{AllocError, Global};
use std::marker::Model;

/// The place of the code that has an id, where codes have the ids of these many numbers from a first one on.
fn place_of(first: u64, count: usize, id: &str) -> Option<usize>
    requires { first + count ≤ 2 ^ 32 }
    ensures some { IfSome result (λ place. (place < count) × (id.now ≡ numbered_id (first + place))) }
    ensures none { result ≡ None → IsNoneOf first count id.now }
{
    let number = number_of(id)?;
    let place = number.checked_sub(first)?;
    if place < count as u64 {
        Some(place as usize)
    } else {
        None
    }
}

/// So many answers that aren't there yet.
fn none_yet(alloc: Global, count: usize) -> Result<Vec<Option<Answered>>, AllocError>
    ensures { IfOk result (λ answers. answers.items ≡ replicate count None) }
{
    let mut answers = Vec::new(alloc);
    for _place in 0..count {
        answers.push(None)?;
    }
    Ok(answers)
}

/// Puts an answer at a place.
fn put(answers: &mut Vec<Option<Answered>>, place: usize, answered: Answered)
    requires { place < vec_len answers.old }
    ensures { answers.new.items ≡ slice_set answers.old.items place (Some answered) }
{
    answers[place] = Some(answered);
}

/// What codes that were sent answered, which contracts see in the order of the codes.
#[derive(Drop)]
pub struct Gathered {
    /// The number of the first code.
    first: u64,
    answers: Vec<Option<Answered>>,
    alloc: Global,
}

impl Model for Gathered {
    ghost use Rattle.std.specs.Prelude.{◌≤◌, ◌+◌, ◌^◌, length};
    ghost use Rattle.array_maps.specs.Gathering.{Gathering};

    ghost Value = { Gathering };

    ghost view = { λ g. record { first = g.first; answers = g.answers.items } };

    ghost invariant = { λ g. g.first + length g.answers.items ≤ 2 ^ 32 };
}

impl Gathered {
    /// So many codes, none of which answered yet. They have the ids of numbers from a first one on.
    pub fn new(alloc: Global, first: u64, count: usize) -> Result<Gathered, AllocError>
        requires { first + count ≤ 2 ^ 32 }
        ensures { IfOk result (λ g. g ≡ awaited first count) }
    {
        Ok(Gathered {
            first,
            answers: none_yet(alloc, count)?,
            alloc,
        })
    }

    /// Keeps an answer at the code that has an id.
    fn keep(&mut self, id: &str, answered: Answered)
        ensures { self.new ≡ with_answer self.old id.now answered }
    {
        if let Some(place) = place_of(self.first, self.answers.len(), id) {
            put(&mut self.answers, place, answered);
        }
    }

    /// What a message is to the client. An outcome of one of the codes is kept.
    pub fn take<W: Notes>(
        &mut self,
        client: &mut Requests<W>,
        message: &SharedMessage,
    ) -> Result<Took, AllocError>
        ensures took { IfOk result (λ t. t ≡ took client.old.used message.now) }
        ensures client { IfOk result (λ t. client.new ≡ after_taking client.old message.now t) }
        ensures gathered { IfOk result (λ t. self.new ≡ gathered_after self.old message.now t) }
        ensures same { OnErr result ((client.new ≡ client.old) × (self.new ≡ self.old)) }
    {
        let mut scratch = Scratch::new(self.alloc);
        let answered = answered_in(self.alloc, message.content(), &mut scratch)?;
        let took = client.take(message)?;
        if let Took::Settled { id, ok: _ } = &took {
            self.keep(id.as_str(), answered);
        }
        Ok(took)
    }

    /// What the code at a place answered, where it did.
    pub fn get(&self, place: usize) -> Option<&Answered>
        ensures { option_copied result ≡ answer_at self.now place }
    {
        match self.answers.get(place) {
            Some(answer) => answer.as_ref(),
            None => None,
        }
    }

    /// Whether each code answered.
    pub fn is_whole(&self) -> bool
        ensures { result ≡ is_whole self.now }
    {
        self.answers.iter().all(|answer| answer.is_some())
    }
}
