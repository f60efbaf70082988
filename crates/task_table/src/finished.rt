//! How the tasks of a table were settled.

ghost use Rattle.task_table.specs.Waiting.{settled_in};

use crate::table::Table;
use cluster_defs::settled::Settled;
use cluster_types::text::Text;
use dependency_sets::finished::Finished;

impl Finished for Table {
    ghost finished = { settled_in };

    fn settled(&self, id: &Text) -> Option<Settled> {
        match self.find(id) {
            Some(task) => task.settled(),
            None => None,
        }
    }
}
