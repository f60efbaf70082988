//! The numbers of a queue reply, where they are known without a look at the records.

ghost use Rattle.std.specs.Prelude.{◌≡◌, length, IfSome};
ghost use Rattle.cluster_defs.specs.RecordAnswers.{ids_where, queue_in, waits_in};
ghost use Rattle.hub_queries.specs.Lengths.{lengths_of};

use cluster_types::record::Records;
use resubmission::list::RecordList;

/// How many ids an engine has.
#[derive(Clone, Copy, Debug, PartialEq, Eq)]
pub struct Lengths {
    /// Of those sent to it alone that it runs.
    pub queue: u32,
    /// Of those that finished there and aren't purged.
    pub completed: u32,
    /// Of the other ones that it runs.
    pub tasks: u32,
}

/// Records beside which the numbers of a queue reply may be kept. None of its calls takes memory.
pub trait QueueCounts: Records {
    /// How many wait without an engine, where that is known.
    fn waiting(&self) -> Option<u32>
        ensures { IfSome result (λ n. n ≡ length (ids_where waits_in (Self.records self.now))) };

    /// How many ids an engine has, where that is known.
    fn queue(&self, engine: u32) -> Option<Lengths>
        ensures { IfSome result (λ q. q ≡ lengths_of (queue_in (Self.records self.now) engine)) };
}

/// A plain list keeps no numbers.
impl QueueCounts for RecordList {
    fn waiting(&self) -> Option<u32> {
        None
    }

    fn queue(&self, _engine: u32) -> Option<Lengths> {
        None
    }
}
