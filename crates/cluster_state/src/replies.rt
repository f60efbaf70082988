//! Replies to tasks.

ghost use Rattle.std.specs.Prelude.{◌≡◌, IfOk, OnOk, Some, None};
ghost use Rattle.cluster_defs.specs.Words.{is_number};
ghost use Rattle.cluster_defs.specs.Tasks.{home, counts, ending};
ghost use Rattle.cluster_defs.specs.Requests.{parts_of};
ghost use Rattle.cluster_defs.specs.Facts.{is_direct_id};
ghost use Rattle.cluster_state.specs.Plain.{facts_in, replied_by};
ghost use Rattle.cluster_state.specs.Stands.{plain};

use crate::state::State;
use cluster_defs::attempt::{Attempt, Ending};
use cluster_types::shared_message::SharedMessage;
use cluster_types::text::Text;
use engine_registry::registry::Registry;
use std::alloc::AllocError;
use task_table::attempts::Attempts;

/// The connection of the engine of a current attempt.
fn home(live: &Registry, attempt: Attempt) -> Option<u32>
    ensures { result ≡ home live.now attempt }
{
    match attempt {
        Attempt::Running { engine } => live.conn_of(engine),
        _ => None,
    }
}

fn is_home(live: &Registry, conn: u32, attempt: Attempt) -> bool
    ensures { result ≡ is_number conn (home live.now attempt) }
{
    match home(live, attempt) {
        Some(at) => at == conn,
        None => false,
    }
}

/// Whether a reply on a connection is valid for a task with these attempts.
fn counts(live: &Registry, conn: u32, header: &Text, attempts: &Attempts) -> bool
    ensures { result ≡ counts live.now conn header.now attempts.now }
{
    is_home(live, conn, attempts.last) && !attempts.has_heard(header)
}

/// How a valid reply ends an attempt.
fn ending(direct: bool, ok: bool, declined: bool) -> Ending
    ensures { result ≡ ending direct ok declined }
{
    if declined {
        if direct {
            Ending::Badly
        } else {
            Ending::Declines
        }
    } else if ok {
        Ending::Well
    } else {
        Ending::Badly
    }
}

impl State {
    /// Whether a reply on a connection is valid for the task that it names.
    fn counts(&self, conn: u32, name: &Text, header: &Text) -> bool
        ensures { result ≡ counts self.now.engines conn header.now ((facts_in (plain self.now)).task name.now) }
    {
        match self.tasks.find(name) {
            Some(task) => counts(&self.engines, conn, header, task.attempts()),
            None => false,
        }
    }

    /// Whether an id is that of a direct request.
    pub fn is_direct(&self, id: &Text) -> bool
        ensures { result ≡ is_direct_id (facts_in (plain self.now)) id.now }
    {
        match self.tasks.find(id) {
            Some(task) => task.request().direct_to.is_some(),
            None => false,
        }
    }

    /// Takes a reply, where it is valid, and tells whether it is.
    pub fn take_reply(
        &mut self,
        conn: u32,
        name: &Text,
        header: &Text,
        ok: bool,
        declined: bool,
        message: &SharedMessage,
    ) -> Result<bool, AllocError>
        ensures told { IfOk result (λ b. b ≡ counts self.old.engines conn header.now ((facts_in (plain self.old)).task name.now)) }
        ensures after { OnOk result (plain self.new ≡ replied_by (counts self.old.engines conn header.now ((facts_in (plain self.old)).task name.now)) name.now header.now (ending (is_direct_id (facts_in (plain self.old)) name.now) ok declined) (parts_of message.now) (plain self.old)) }
    {
        if !self.counts(conn, name, header) {
            return Ok(false);
        }
        let how = ending(self.is_direct(name), ok, declined);
        let reply = message.without_target(self.allocator())?;
        self.tasks.take_reply(name, header, how, reply)?;
        Ok(true)
    }
}
