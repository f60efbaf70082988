//! Tasks: all that is known of an id that was accepted.

ghost use Rattle.std.specs.Prelude.{◌≡◌, Some, None, IfOk, OnOk};
ghost use Rattle.std.specs.Option.{option_copied};
ghost use Rattle.cluster_types.specs.declared.record.Record.{Record as RecordType};
ghost use Rattle.task_table.specs.Seen.{begun, attempted, handed_to, ended_on, lost_all, replied_with, aborted_out, settled_with, purged_out, on_unsettled};
ghost use Rattle.task_table.specs.Places.{IsSame};

use crate::attempts::{Attempts, engine_of, runs, runs_at};
use cluster_defs::attempt::Ending;
use cluster_defs::request::WholeRequest;
use cluster_defs::settled::Settled;
use cluster_types::record::Record;
use cluster_types::shared_message::SharedMessage;
use cluster_types::text::Text;
use cluster_types::verdict::{Cause, Verdict};
use std::alloc::{AllocError, Global};
use std::marker::Model;

/// A task, which contracts see as all that a history says of its id.
#[derive(Debug)]
pub struct Task {
    row: Record,
    request: WholeRequest,
    attempts: Attempts,
    reply: Option<SharedMessage>,
    settled: Option<Settled>,
}

// Written out, so that what lets one go is proved over one call, and not case by case.
impl Drop for Task {
    fn drop(self) {
        let Task {
            row,
            request,
            attempts,
            reply,
            settled: _,
        } = self;
        drop(row);
        drop(request);
        drop(attempts);
        drop(reply);
    }
}

impl Model for Task {
    ghost use Rattle.std.specs.Prelude.{Some, option_map};
    ghost use Rattle.task_table.specs.Seen.{Seen};

    ghost Value = { Seen };

    ghost view = { λ t. record { row = t.row; request = Some t.request.request; body = Some t.request.body; attempts = t.attempts; reply = t.reply; settled = t.settled } };
}

impl Task {
    ghost use Rattle.std.specs.Prelude.{option_map};

    /// A task that was just accepted.
    pub fn new(
        alloc: Global,
        id: &Text,
        number: u64,
        request: WholeRequest,
    ) -> Result<Task, AllocError>
        ensures { IfOk result (λ t. t ≡ begun id.now number request.request request.body) }
    {
        Ok(Task {
            row: Record {
                id: id.clone()?,
                number,
                direct: request.direct_to.is_some(),
                engine: None,
                running: false,
                settled: None,
                purged: false,
                outcome: None,
            },
            request,
            attempts: Attempts::new(alloc),
            reply: None,
            settled: None,
        })
    }

    /// The row that questions are answered off.
    pub fn row(&self) -> &Record
        ensures { result.now ≡ self.now.row }
    {
        &self.row
    }

    pub fn id(&self) -> &Text
        ensures { result.now ≡ self.now.row.id }
    {
        &self.row.id
    }

    pub fn request(&self) -> &WholeRequest
        ensures value { self.now.request ≡ Some result.now.request }
        ensures body { self.now.body ≡ Some result.now.body }
    {
        &self.request
    }

    pub fn attempts(&self) -> &Attempts
        ensures { self.now.attempts ≡ result.now }
    {
        &self.attempts
    }

    /// The last valid reply.
    pub fn reply(&self) -> Option<&SharedMessage>
        ensures { option_copied result ≡ self.now.reply }
    {
        self.reply.as_ref()
    }

    pub fn settled(&self) -> Option<Settled>
        ensures { result ≡ self.now.settled }
    {
        self.settled
    }

    /// Notes the last attempt in the record.
    fn note_attempts(&mut self)
        ensures { self.new ≡ attempted self.old.attempts self.old }
    {
        self.row.engine = engine_of(self.attempts.last);
        self.row.running = runs(self.attempts.last);
    }

    /// Begins an attempt on an engine.
    pub fn hand(&mut self, engine: u32)
        ensures { self.new ≡ handed_to engine self.old }
    {
        self.attempts.hand(engine);
        self.note_attempts();
    }

    /// Ends an attempt with its engine, where the task isn't settled.
    pub fn end_on(&mut self, engine: u32) -> Result<(), AllocError>
        ensures ok { OnOk result (self.new ≡ on_unsettled (ended_on engine) self.old) }
        ensures same { IsSame self.old self.new }
    {
        if self.settled.is_none() && runs_at(engine, self.attempts.last) {
            self.attempts.end(engine)?;
            self.note_attempts();
        }
        Ok(())
    }

    /// Ends an attempt by an Open, where the task isn't settled.
    pub fn lose(&mut self) -> Result<(), AllocError>
        ensures ok { OnOk result (self.new ≡ on_unsettled lost_all self.old) }
        ensures same { IsSame self.old self.new }
    {
        if self.settled.is_none() && runs(self.attempts.last) {
            self.attempts.lose()?;
            self.note_attempts();
        }
        Ok(())
    }

    /// Takes a valid reply, with its header id.
    pub fn take_reply(
        &mut self,
        header: &Text,
        how: Ending,
        reply: SharedMessage,
    ) -> Result<(), AllocError>
        ensures ok { OnOk result (self.new ≡ replied_with header.now how reply self.old) }
        ensures same { IsSame self.old self.new }
    {
        self.attempts.take_reply(header, how)?;
        self.note_attempts();
        self.reply = Some(reply);
        Ok(())
    }

    /// Takes it back for an abort: a current attempt ends, and isn't spent.
    pub fn abort(&mut self)
        ensures { self.new ≡ aborted_out self.old }
    {
        self.attempts.withdraw();
        self.note_attempts();
    }

    /// Settles it.
    pub fn settle(&mut self, settled: Settled, outcome: Option<SharedMessage>)
        ensures { self.new ≡ settled_with settled outcome self.old }
    {
        self.settled = Some(settled);
        self.row.settled = Some((settled.verdict, settled.cause));
        self.row.outcome = outcome;
    }

    /// Lets its outcome go.
    pub fn purge(&mut self)
        ensures { self.new ≡ purged_out self.old }
    {
        self.row.purged = true;
        self.row.outcome = None;
    }
}
