//! Lists of records that grow by one record at a time.

ghost use Rattle.std.specs.Prelude.{◌≡◌, ◌++◌, ◌∷◌, [], if◌then◌else◌, IfOk, OnErr, OnOk};
ghost use Rattle.resubmission.specs.Lists.{is_next, has_outcome};
ghost use Rattle.resubmission.specs.Listed.{listed};

use crate::list::RecordList;
use cluster_types::record::{Record, Records};
use std::alloc::{AllocError, Global};

/// Whether a record has its outcome, where it is settled and not purged.
fn has_outcome(task: &Record) -> bool
    ensures { result ≡ has_outcome task.now }
{
    task.settled.is_none() || task.purged || task.outcome.is_some()
}

impl RecordList {
    /// The list of no records.
    pub fn new(alloc: Global) -> RecordList
        ensures { listed result ≡ [] }
    {
        RecordList {
            items: Vec::new(alloc),
        }
    }

    /// Whether a record may stand behind those of the list: it has the next number, an id that none of them has and,
    /// where it is settled and not purged, its outcome.
    fn takes(&self, task: &Record) -> bool
        ensures { result ≡ is_next (listed self.now) task.now }
    {
        task.number == self.items.len() as u64 + 1
            && self.find(&task.id).is_none()
            && has_outcome(task)
    }

    /// Puts a record at the end, and tells whether it may stand there; else the list stays as it was.
    pub fn push(&mut self, task: Record) -> Result<bool, AllocError>
        ensures told { IfOk result (λ taken. taken ≡ is_next (listed self.old) task) }
        ensures list { OnOk result (listed self.new ≡ (if is_next (listed self.old) task then listed self.old ++ task ∷ [] else listed self.old)) }
        ensures err { OnErr result (listed self.new ≡ listed self.old) }
    {
        if !self.takes(&task) {
            return Ok(false);
        }
        self.items.push(task)?;
        Ok(true)
    }
}
