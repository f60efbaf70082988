//! Messages, with what they mean.

ghost use Rattle.std.specs.Prelude.{◌≡◌, ◌≤◌, is_some, IfOk, OnOk, Some, None, if◌then◌else◌};
ghost use Rattle.cluster_defs.specs.Engines.{joining as joining_of, is_joined, echoed};
ghost use Rattle.cluster_types.specs.declared.event.Event.{Event};
ghost use Rattle.cluster_types.specs.Limits.{last_moment};
ghost use Rattle.cluster_defs.specs.Steps.{changes};
ghost use Rattle.cluster_state.specs.Plain.{facts_in, engine_ended, joined_by, echoed_by, told, noted};
ghost use Rattle.cluster_state.specs.Ruled.{IsTold};
ghost use Rattle.cluster_state.specs.Stands.{plain};

use crate::ruling::Ruling;
use crate::state::State;
use cluster_defs::acceptance::Acceptance;
use cluster_defs::engine::Joining;
use cluster_types::event::Event;
use cluster_types::shared_message::SharedMessage;
use cluster_types::text::Text;
use std::alloc::{AllocError, Global};

impl State {
    /// Takes a registration that comes to this, and tells whether it is accepted.
    #[tactic(auto, using(crate::proofs::Rulings::has_number))]
    pub fn take_join(
        &mut self,
        conn: u32,
        uuid: &Text,
        joining: Joining,
    ) -> Result<bool, AllocError>
        requires { joining ≡ joining_of (plain self.old).engines conn uuid.now }
        ensures told { IfOk result (λ b. b ≡ is_joined joining) }
        ensures after { OnOk result (plain self.new ≡ joined_by conn (if is_joined joining then Some uuid.now else None) (plain self.old)) }
    {
        if joining != Joining::Accepted {
            return Ok(false);
        }
        self.join(conn, uuid)?;
        Ok(true)
    }

    /// Takes an engine's leave, where there is an engine, and tells whether there is.
    pub fn take_leave(&mut self, engine: Option<u32>) -> Result<bool, AllocError>
        ensures told { IfOk result (λ b. b ≡ is_some engine) }
        ensures after { OnOk result (plain self.new ≡ engine_ended engine (plain self.old)) }
    {
        match engine {
            Some(engine) => {
                self.end_engine(engine)?;
                Ok(true)
            }
            None => Ok(false),
        }
    }

    /// Takes an echo of a beat, and tells whether it raises a mark.
    pub fn take_pong(&mut self, conn: u32, beat: u64) -> bool
        ensures told { result ≡ is_some (echoed self.old.engines conn self.old.beats (Some (Event.Pong beat))) }
        ensures after { plain self.new ≡ echoed_by conn (echoed self.old.engines conn self.old.beats (Some (Event.Pong beat))) (plain self.old) }
    {
        let raises = beat <= self.beats && self.engines.raises(conn, beat);
        if raises {
            self.mark(conn, beat);
        }
        raises
    }

    /// Takes what a message means, and tells whether it changes anything.
    #[tactic(auto, using(crate::proofs::Changes::changes_submit, crate::proofs::Changes::changes_direct, crate::proofs::Changes::changes_reply, crate::proofs::Changes::changes_join, crate::proofs::Changes::changes_leave, crate::proofs::Changes::changes_pong, crate::proofs::Changes::changes_purge, crate::proofs::Changes::changes_resubmit, crate::proofs::Changes::changes_abort, crate::proofs::Rulings::purge_there, crate::proofs::Rulings::resubmit_there, crate::proofs::Rulings::abort_there, crate::proofs::Rulings::purge_is, crate::proofs::Rulings::resubmit_is, crate::proofs::Rulings::abort_is, crate::proofs::Rulings::resubmit_told))]
    pub fn take_event(
        &mut self,
        conn: u32,
        moment: u64,
        message: &SharedMessage,
        event: &Event,
        ruling: Ruling,
    ) -> Result<bool, AllocError>
        requires moment { moment ≤ last_moment }
        requires ruled { IsTold (facts_in (plain self.old)) conn message.now event.now ruling }
        ensures told { IfOk result (λ b. b ≡ changes (facts_in (plain self.old)) conn message.now (Some event.now)) }
        ensures after { OnOk result (plain self.new ≡ told (facts_in (plain self.old)) conn moment message.now event.now (plain self.old)) }
    {
        match event {
            Event::Submit(submission) => {
                let accepted = ruling.demand() == Acceptance::Accepted;
                self.take_demand(conn, moment, message, false, submission, accepted)
            }
            Event::Direct(submission) => {
                let accepted = ruling.demand() == Acceptance::Accepted;
                self.take_demand(conn, moment, message, true, submission, accepted)
            }
            Event::Reply {
                task,
                header_id,
                ok,
                declined,
            } => self.take_reply(conn, task, header_id, *ok, *declined, message),
            Event::Join { uuid } => self.take_join(conn, uuid, ruling.join()),
            Event::Leave => self.take_leave(ruling.leave()),
            Event::Pong { beat } => Ok(self.take_pong(conn, *beat)),
            Event::Purge { all: _, ids: _ } => self.take_purge(ruling.purge()),
            Event::Resubmit { ids: _ } => self.take_resubmit(moment, ruling.resubmit()),
            Event::Abort { ids: _ } => self.take_abort(ruling.abort()),
            Event::Ask(_) => Ok(false),
        }
    }

    /// Takes a message with what it means, and tells whether it is kept.
    pub fn take_message(
        &mut self,
        conn: u32,
        moment: u64,
        word: u64,
        message: &SharedMessage,
        event: &Event,
        ruling: Ruling,
    ) -> Result<bool, AllocError>
        requires moment { moment ≤ last_moment }
        requires ruled { IsTold (facts_in (plain self.old)) conn message.now event.now ruling }
        ensures told { IfOk result (λ b. b ≡ changes (facts_in (plain self.old)) conn message.now (Some event.now)) }
        ensures after { OnOk result (plain self.new ≡ noted (changes (facts_in (plain self.old)) conn message.now (Some event.now)) moment word (told (facts_in (plain self.old)) conn moment message.now event.now (plain self.old))) }
    {
        let kept = self.take_event(conn, moment, message, event, ruling)?;
        if kept {
            self.note_input(moment, word);
        }
        Ok(kept)
    }
}
