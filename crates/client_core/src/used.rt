//! The ids that a client used.

ghost use Rattle.std.specs.Prelude.{◌≡◌, true, false, None, Some, OnOk, OnErr, if◌then◌else◌};
ghost use Rattle.client_core.specs.declared.stand.Stand.TheVariants.{Unsettled, Settled};
ghost use Rattle.client_core.specs.Noting.{note_of};
ghost use Rattle.client_core.specs.Clients.{stand_of, stand_in, used_in, is_outstanding, is_unsettled, has_watcher, with_id, with_stand, after_outcome, unsettled};

use crate::answered::Answered;
use crate::notes::Notes;
use crate::stand::Stand;
use crate::task::Task;
use std::alloc::{AllocError, Global};
use std::collections::BTreeMap;
use std::mem;

/// How a task stands.
fn stand_of<W>(task: &Task<W>) -> Stand
    ensures { result ≡ stand_of task.now }
{
    match task {
        Task::Open(watcher) => Stand::Unsettled {
            watched: watcher.is_some(),
        },
        Task::Settled(noted) => Stand::Settled(*noted),
    }
}

/// How the task of an id stands, where the id was used.
pub fn stand_in<W>(used: &BTreeMap<String, Task<W>>, id: &str) -> Option<Stand>
    ensures { result ≡ stand_in (used_in used.now.entries) id.now }
{
    match used.get(id) {
        Some(task) => Some(stand_of(task)),
        None => None,
    }
}

/// Notes an id that wasn't used, and counts its task as one that isn't settled.
pub fn note<W: Drop>(
    used: &mut BTreeMap<String, Task<W>>,
    outstanding: &mut usize,
    alloc: Global,
    id: &str,
) -> Result<(), AllocError>
    requires new { stand_in (used_in used.old.entries) id.now ≡ None }
    requires counted { outstanding.old ≡ unsettled (used_in used.old.entries) }
    ensures ok { OnOk result (used_in used.new.entries ≡ with_id (used_in used.old.entries) id.now) }
    ensures err { OnErr result (used_in used.new.entries ≡ used_in used.old.entries) }
    ensures counted { outstanding.new ≡ unsettled (used_in used.new.entries) }
{
    let key = String::from_str(alloc, id)?;
    used.insert(key, Task::Open(None))?;
    let fits = *outstanding < used.len();
    prove!(fits);
    *outstanding += 1;
    Ok(())
}

/// Keeps a watcher for a task that isn't settled and has none.
pub fn keep<W: Drop>(used: &mut BTreeMap<String, Task<W>>, id: &str, watcher: W)
    requires { stand_in (used_in used.old.entries) id.now ≡ Some (Unsettled false) }
    ensures watched { used_in used.new.entries ≡ with_stand (used_in used.old.entries) id.now (Unsettled true) }
    ensures counted { unsettled (used_in used.new.entries) ≡ unsettled (used_in used.old.entries) }
{
    if let Some(task) = used.get_mut(id) {
        *task = Task::Open(Some(watcher));
    }
}

/// Settles a task. Its watcher, if it has one, is called here.
fn settle_task<W: Notes>(task: &mut Task<W>, answered: Answered, ok: bool)
    requires { is_unsettled (stand_of task.old) ≡ true }
    ensures { stand_of task.new ≡ Settled (if has_watcher (stand_of task.old) then Some (note_of answered ok) else None) }
{
    if let Task::Open(Some(watcher)) = mem::replace(task, Task::Settled(None)) {
        *task = Task::Settled(Some(watcher.note(answered, ok)));
    }
}

/// Notes that the task of an id is settled, which it wasn't. Its watcher, if it has one, is called here.
pub fn settle<W: Notes>(
    used: &mut BTreeMap<String, Task<W>>,
    outstanding: &mut usize,
    id: &str,
    answered: Answered,
    ok: bool,
)
    requires outstanding { is_outstanding (used_in used.old.entries) id.now ≡ true }
    requires counted { outstanding.old ≡ unsettled (used_in used.old.entries) }
    ensures settled { used_in used.new.entries ≡ after_outcome (used_in used.old.entries) id.now answered ok }
    ensures counted { outstanding.new ≡ unsettled (used_in used.new.entries) }
{
    if let Some(task) = used.get_mut(id) {
        settle_task(task, answered, ok);
        *outstanding -= 1;
    }
}
