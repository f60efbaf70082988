//! What replays over one file are, one after another.

ghost use Rattle.quick_commands.specs.Runs.{ReplayedIsRun, CutOffIsRun, MomentIsRun, OpenedIsRun};

/// Whatever ends a replay whose database was opened, what it wrote and what a crash leaves are those of a run over a file, as
/// `tape_drive::life_laws` speaks of runs; and so is what a crash at any moment of it leaves of its history. A replay that ended
/// before its tape began, and of which no more is left than the Open, is such a run too. So all that replays over one file
/// ever write belongs to the life of one cluster (`tape_drive::life_laws::runs_are_one_life`).
pub fn replays_are_runs()
    ensures replayed { ReplayedIsRun }
    ensures cut { CutOffIsRun }
    ensures moment { MomentIsRun }
    ensures opened { OpenedIsRun }
{}
