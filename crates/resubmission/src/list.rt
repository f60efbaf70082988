//! A plain list of records, for few tasks.

ghost use Rattle.cluster_types.specs.Records.{AreRecords};

use cluster_types::record::{Record, Records};
use cluster_types::text::Text;

/// Records in order of number. Each look at an id goes through the whole list.
#[derive(Debug, Drop)]
pub struct RecordList {
    pub(crate) items: Vec<Record>,
    ghost sound: { AreRecords items.items },
}

impl Records for RecordList {
    ghost records = { λ l. l.items.items };

    ghost sound = { λ l. l.sound };

    fn count(&self) -> usize {
        self.items.len()
    }

    fn at(&self, place: usize) -> Option<&Record> {
        self.items.get(place)
    }

    fn find(&self, id: &Text) -> Option<&Record> {
        self.items.iter().find(|r| r.id.is(id))
    }
}
