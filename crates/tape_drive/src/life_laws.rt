//! Laws that tie what a drive writes to what the life of a cluster sends.

ghost use Rattle.tape_drive.specs.Sent.{OutputIsFrames, ServeIsMoves, TapeIsMoves};
ghost use Rattle.tape_drive.specs.Runs.{RunsAreLife, RunsBelong, LeftIsNext};
ghost use Rattle.tape_drive.specs.Names.{PassesAreKnown, HistoryIsKnown, ResultsAreKnown, CopiesAreKnown};
ghost use Rattle.tape_drive.specs.Agreement.{OutsAreSendings, KeptIsWritten, RecordIsRead, TalkIsStream};

/// What a record of a tape is answered with is octets of its stream, and then the frames of outs; and serving an input, or
/// a tape, is moves of the life of a cluster, which sends these outs, one after another, and no others.
pub fn outputs_are_sent()
    ensures frames { OutputIsFrames }
    ensures steps { ServeIsMoves }
    ensures moves { TapeIsMoves }
{}

/// Runs over one file, each cut off by a crash at any moment, are one life of a cluster: all that they ever sent
/// belongs to one legal history.
pub fn runs_are_one_life()
    ensures life { RunsAreLife }
    ensures belong { RunsBelong }
    ensures next { LeftIsNext }
{}

/// What is sent about ids is about known ones: each message that is passed on is the request or the outcome of a known id;
/// and known are the ids of the replies to questions for all ids and for results, and to resubmissions.
pub fn sent_names_are_known()
    ensures passes { PassesAreKnown }
    ensures history { HistoryIsKnown }
    ensures results { ResultsAreKnown }
    ensures copies { CopiesAreKnown }
{}

/// Definitions of one thing in two places agree: the outs to a connection, what is kept of a history, a record of a tape
/// as it is written and as it is read, and what the pieces of a stream tell.
pub fn definitions_agree()
    ensures outs { OutsAreSendings }
    ensures kept { KeptIsWritten }
    ensures records { RecordIsRead }
    ensures talk { TalkIsStream }
{}
