//! Laws of what a store writes, over the definitions alone.

ghost use Rattle.cluster_store.specs.Records.{KnownAreNames, DueFits, LegalFits, KeptFits, StepFits};
ghost use Rattle.cluster_store.specs.Moves.{StepLeads, RefusalStays, FlushLeads, FaultStays, TakeLeads, OpeningLeads, CrashesJoin};
ghost use Rattle.cluster_store.specs.Worlds.{StepGrows, FlushIsMove, TakeIsMove, CrashIsMove};

use disk_model::disk::Disk;

/// Ids have 1 to 255 octets. So where the inputs of a history are within the limits of records, each entry has a
/// record, and so has what a step keeps.
pub fn entries_have_records()
    ensures names { KnownAreNames }
    ensures due { DueFits }
    ensures legal { LegalFits }
    ensures kept { KeptFits }
    ensures step { StepFits }
{}

/// The calls of a store are moves of a life: a step makes Grow moves alone, a flush is a Flush to the whole history, a
/// take that hands out an out is a Send of it, and what a crash leaves at any moment is what a Crash leaves.
pub fn calls_are_moves()
    ensures step { StepGrows }
    ensures flush { FlushIsMove }
    ensures take { TakeIsMove }
    ensures crash { CrashIsMove }
{}

/// A store that stands in a world stands, behind each of its calls, in one that moves lead to: none where it answers an error,
/// and where no out is handed out. An opening leads there from a new world, and from one after a crash. A crash in the midst
/// of an opening is one with the crash before it, or comes behind the Open.
pub fn calls_lead_on<D: Disk>()
    ensures step { StepLeads D }
    ensures refusal { RefusalStays D }
    ensures flush { FlushLeads D }
    ensures fault { FaultStays D }
    ensures take { TakeLeads D }
    ensures opening { OpeningLeads D }
    ensures crashes { (disk : D) → CrashesJoin (D.image disk) }
{}
