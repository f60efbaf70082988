//! Lists of tasks that are submitted under the ids of numbers.

ghost use Rattle.std.specs.Prelude.{◌≡◌, ◌⊎◌, ◌≤◌, ◌+◌, ◌^◌, true, false, Ok, Err, length, IfOk, IfErr, OnOk, OnErr};
ghost use Rattle.std.specs.List.{list_any};
ghost use Rattle.cluster_types.specs.Limits.{last_moment};
ghost use Rattle.cluster_defs.specs.Submit.{read_submit};
ghost use Rattle.client_core.specs.Clients.{is_used};
ghost use Rattle.client_core.specs.Limits.{is_within_limits};
ghost use Rattle.client_core.specs.Messages.{task_request, meta_once};
ghost use Rattle.client_core.specs.Numbers.{numbered, numbered_id, numbered_ids};
ghost use Rattle.client_core.specs.Sending.{message_of, after_sending};
ghost use Rattle.client_core.specs.Submissions.{are_within, messages_of, sent_all, after_numbers, HasFront, AreReadBack};

use crate::client::Requests;
use crate::error::{Messages, SendError, SubmitError};
use crate::notes::Notes;
use crate::numbered::numbered_id;
use cluster_defs::content::SubmitMeta;
use cluster_types::sequence::Sequence;
use cluster_types::shared_message::SharedMessage;
use cluster_types::text::Text;
use std::alloc::{AllocError, Global};

/// A task that is to be submitted.
#[derive(Debug, Drop)]
pub struct Submission {
    pub code: Text,
    pub meta: SubmitMeta,
}

/// Tasks that are to be submitted, in order.
pub type Submissions = Sequence<Submission>;

impl<W: Notes> Requests<W> {
    /// Whether this client used one of the ids of these many numbers from a first one on.
    fn uses_any(&self, alloc: Global, first: u64, count: usize) -> Result<bool, AllocError>
        requires { first + count ≤ 2 ^ 32 }
        ensures { IfOk result (λ yes. yes ≡ list_any (is_used self.now.used) (numbered_ids first count)) }
    {
        for place in 0..count {
            let id = numbered_id(alloc, first + place as u64)?;
            if self.is_used(&id) {
                return Ok(true);
            }
        }
        Ok(false)
    }

    /// A task under the id of a number, which wasn't used.
    fn submit_new(
        &mut self,
        submission: &Submission,
        number: u64,
        moment: u64,
    ) -> Result<SharedMessage, AllocError>
        requires moment { moment ≤ last_moment }
        requires limits { is_within_limits submission.now.meta ≡ true }
        requires new { is_used self.old.used (numbered_id number) ≡ false }
        ensures message { IfOk result (λ m. m ≡ message_of self.old (numbered number) moment (task_request submission.now.meta submission.now.code)) }
        ensures noted { OnOk result (self.new ≡ after_sending self.old (numbered number)) }
        ensures same { OnErr result (self.new ≡ self.old) }
        ensures reads { IfOk result (λ m. read_submit m.metadata ≡ Ok (meta_once submission.now.meta)) }
    {
        let code = submission.code.as_str();
        match self.submit_numbered(code, &submission.meta, number, moment) {
            Ok(message) => Ok(message),
            Err(SubmitError::OutOfMemory) => Err(AllocError),
            Err(SubmitError::KnownId) => unreachable!(),
        }
    }

    /// Tasks under the ids of numbers from a first one on, none of which was used.
    fn submit_each(
        &mut self,
        alloc: Global,
        submissions: &[Submission],
        first: u64,
        moment: u64,
    ) -> Result<Messages, AllocError>
        requires moment { moment ≤ last_moment }
        requires limits { are_within submissions.now ≡ true }
        requires numbers { first + length submissions.now ≤ 2 ^ 32 }
        requires new { list_any (is_used self.old.used) (numbered_ids first (length submissions.now)) ≡ false }
        ensures messages { IfOk result (λ ms. ms ≡ messages_of self.old moment first submissions.now) }
        ensures reads { IfOk result (λ ms. AreReadBack ms submissions.now) }
        ensures noted { OnOk result (self.new ≡ after_numbers self.old first (length submissions.now)) }
        ensures front { OnErr result (HasFront self.old first (length submissions.now) self.new) }
    {
        let mut messages = Sequence::new(alloc);
        for (place, submission) in submissions.iter().enumerate() {
            let message = self.submit_new(submission, first + place as u64, moment)?;
            messages.push(message)?;
        }
        Ok(messages)
    }

    /// Tasks under the ids of numbers from a first one on, unless one of these ids was used. After want of memory the client
    /// may have used the first of these ids.
    pub fn submit_all(
        &mut self,
        alloc: Global,
        submissions: &Submissions,
        first: u64,
        moment: u64,
    ) -> Result<Messages, SendError>
        requires moment { moment ≤ last_moment }
        requires limits { are_within submissions.now ≡ true }
        requires numbers { first + length submissions.now ≤ 2 ^ 32 }
        ensures ok { IfOk result (λ ms. sent_all self.old first moment submissions.now ≡ Ok ms) }
        ensures err { IfErr result (λ e. (e ≡ SubmitError.OutOfMemory) ⊎ (sent_all self.old first moment submissions.now ≡ Err e)) }
        ensures reads { IfOk result (λ ms. AreReadBack ms submissions.now) }
        ensures noted { OnOk result (self.new ≡ after_numbers self.old first (length submissions.now)) }
        ensures known { result ≡ Err SubmitError.KnownId → self.new ≡ self.old }
        ensures front { OnErr result (HasFront self.old first (length submissions.now) self.new) }
    {
        if self.uses_any(alloc, first, submissions.len())? {
            return Err(SubmitError::KnownId);
        }
        let messages = self.submit_each(alloc, submissions.as_slice(), first, moment)?;
        Ok(messages)
    }
}
