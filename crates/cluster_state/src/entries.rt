//! Entries, with what their messages mean.

ghost use Rattle.std.specs.Prelude.{◌≡◌, ◌≤◌, ◌==◌, IfOk, OnOk, Some, None, option_map};
ghost use Rattle.cluster_types.specs.declared.entry.Entry.{Entry};
ghost use Rattle.cluster_types.specs.declared.entry.Input.{Input as InputType};
ghost use Rattle.cluster_types.specs.Limits.{last_moment};
ghost use Rattle.cluster_defs.specs.Engines.{engine_on};
ghost use Rattle.cluster_defs.specs.Steps.{changes};
ghost use Rattle.cluster_defs.specs.Scheduling.{is_kept_as};
ghost use Rattle.cluster_state.specs.Ruled.{IsTold, IsRuled};
ghost use Rattle.cluster_state.specs.Plain.{facts_in, plain_after, InTime, beaten, passed, input_at, went_down, engine_ended};
ghost use Rattle.cluster_state.specs.Stands.{plain};

use crate::ruling::Ruling;
use crate::state::State;
use cluster_types::entry::{Entry, Input};
use cluster_types::event::Event;
use cluster_types::shared_message::SharedMessage;
use std::alloc::AllocError;

impl State {
    /// Takes a beat.
    fn take_beat(&mut self, moment: u64, word: u64) -> Result<(), AllocError>
        ensures { OnOk result (plain self.new ≡ beaten (passed moment (input_at moment word (plain self.old)))) }
    {
        self.note_input(moment, word);
        self.pass(moment);
        self.beat()
    }

    /// Takes a connection's end.
    fn take_down(&mut self, conn: u32, moment: u64, word: u64) -> Result<(), AllocError>
        ensures { OnOk result (plain self.new ≡ engine_ended (option_map (λ e. e.number) (engine_on self.old.engines conn)) (went_down conn (input_at moment word (plain self.old)))) }
    {
        self.note_input(moment, word);
        self.disconnect(conn);
        self.end_engine_on(conn)
    }

    /// Takes an input with what its message means, and tells whether it is kept.
    fn take_input(
        &mut self,
        input: &Input,
        event: &Option<Event>,
        ruling: Ruling,
    ) -> Result<bool, AllocError>
        requires time { InTime (Entry.Input input.now) }
        requires ruled { IsRuled (plain self.old) (Entry.Input input.now) event.now ruling }
        ensures kept { IfOk result (λ b. b ≡ is_kept_as (facts_in (plain self.old)) (Entry.Input input.now) event.now) }
        ensures after { OnOk result (plain self.new ≡ plain_after (facts_in (plain self.old)) (Entry.Input input.now) event.now (plain self.old)) }
    {
        match input {
            Input::Open {
                moment,
                scheme,
                hwm,
                misses,
            } => self.take_open(*moment, *scheme, *hwm, *misses)?,
            Input::Up {
                conn,
                channel,
                moment,
                word,
                identity,
            } => {
                self.note_input(*moment, *word);
                self.connect(*conn, *channel, identity)?;
            }
            Input::Down { conn, moment, word } => self.take_down(*conn, *moment, *word)?,
            Input::In {
                conn,
                moment,
                word,
                message,
            } => {
                let kept = self.take_in(*conn, *moment, *word, message, event, ruling)?;
                return Ok(kept);
            }
            Input::Beat { moment, word } => self.take_beat(*moment, *word)?,
            Input::Time { moment, word } => {
                self.note_input(*moment, *word);
                self.pass(*moment);
            }
        }
        Ok(true)
    }

    /// Takes a message with what it means, where it means anything.
    fn take_in(
        &mut self,
        conn: u32,
        moment: u64,
        word: u64,
        message: &SharedMessage,
        event: &Option<Event>,
        ruling: Ruling,
    ) -> Result<bool, AllocError>
        requires moment { moment ≤ last_moment }
        requires ruled { IsRuled (plain self.old) (Entry.Input (InputType.In conn moment word message.now)) event.now ruling }
        ensures kept { IfOk result (λ b. b ≡ changes (facts_in (plain self.old)) conn message.now event.now) }
        ensures after { OnOk result (plain self.new ≡ plain_after (facts_in (plain self.old)) (Entry.Input (InputType.In conn moment word message.now)) event.now (plain self.old)) }
    {
        match event {
            Some(event) => {
                let kept = self.take_message(conn, moment, word, message, event, ruling)?;
                Ok(kept)
            }
            None => Ok(false),
        }
    }

    /// Takes an entry with what its message means and what it comes to, and tells whether it is kept.
    pub fn take(
        &mut self,
        entry: &Entry,
        event: &Option<Event>,
        ruling: Ruling,
    ) -> Result<bool, AllocError>
        requires time { InTime entry.now }
        requires ruled { IsRuled (plain self.old) entry.now event.now ruling }
        ensures kept { IfOk result (λ b. b ≡ is_kept_as (facts_in (plain self.old)) entry.now event.now) }
        ensures after { OnOk result (plain self.new ≡ plain_after (facts_in (plain self.old)) entry.now event.now (plain self.old)) }
    {
        match entry {
            Entry::Input(input) => {
                let kept = self.take_input(input, event, ruling)?;
                return Ok(kept);
            }
            Entry::Hand { id, engine } => {
                let direct = self.is_direct(id);
                self.hand(id, *engine, direct)?;
            }
            Entry::Settle { id, verdict, cause } => {
                self.settle(id, *verdict, *cause, ruling.into_settle())?;
            }
            Entry::Lose { engine } => self.end_engine(*engine)?,
        }
        Ok(true)
    }
}
