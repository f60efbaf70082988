//! The top call.

ghost use Rattle.std.specs.Prelude.{◌≡◌, ◌⊎◌, ℕ, List, None, IfSome};
ghost use Rattle.cluster_types.specs.Causes.{Rose};
ghost use Rattle.command_words.specs.Lines.{status, line};
ghost use Rattle.command_words.specs.Reading.{reading, IsInRange};
ghost use Rattle.disk_model.specs.Crashes.{LeavesOnly};
ghost use Rattle.quick_commands.specs.Commands.{Ends, HasDatabase, IsTold, MayLeaveOf, OnlyLooks, Unread, Says};
ghost use Rattle.task_journal.specs.Reads.{OnlyReads};
ghost use Rattle.database_text.specs.Texts.{Told};

use crate::errors::tell;
use crate::following::follow;
use crate::generated::generated;
use crate::replay::replay;
use cluster_types::message::WordList;
use command_words::command::{Command, CommandError, command_of};
use command_words::ending::Ending;
use database_text::check::check;
use database_text::compact::compact;
use database_text::dump::dump;
use disk_model::disk::Disk;
use edges::sink::Sink;
use edges::source::Source;
use load_schemes::chooser::Chooser;
use std::alloc::Global;

/// Does what a command asks for, and says how it ended.
fn obey<S: Source, K: Sink, D: Disk>(
    alloc: Global,
    command: &Command,
    input: &mut S,
    output: &mut K,
    disk: D,
    chooser: &Chooser,
) -> (Ending, D)
    requires { IsInRange command.now }
    ensures ended { Ends D.tells (D.content disk) (S.left input.old) (S.left input.new) (K.written output.old) (K.written output.new) (D.image disk) (D.image result.1) command.now result.0 }
    ensures any_moment { D.tells → HasDatabase command.now → Told (S.left input.old) (λ octets. LeavesOnly D.moment D.image_since disk result.1 (MayLeaveOf command.now (D.content disk) octets (D.image disk))) }
    ensures looks { OnlyLooks command.now → OnlyReads D.content D.image D.moment D.image_since D.faults disk result.1 }
    ensures read_fault { result.0 ≡ Ending.ReadFault → Rose (S.faults input.old) (S.faults input.new) }
    ensures write_fault { result.0 ≡ Ending.WriteFault → Rose (K.faults output.old) (K.faults output.new) }
    ensures disk_fault { result.0 ≡ Ending.DiskFault → Rose (D.faults disk) (D.faults result.1) }
{
    let mut disk = disk;
    match command {
        Command::Replay { options, .. } => replay(alloc, options, chooser, input, output, disk),
        Command::Dump { .. } => (dump(alloc, &mut disk, output), disk),
        Command::Check { .. } => (check(alloc, &mut disk, input), disk),
        Command::Compact { .. } => (compact(alloc, &mut disk, chooser, output), disk),
        Command::Work { seed, tasks } => generated(alloc, *seed, *tasks, chooser, output, disk),
        Command::Follow { .. } => follow(alloc, input, disk),
    }
}

/// Does what the words ask for, and says how it ended.
fn run<S: Source, K: Sink, D: Disk>(
    alloc: Global,
    words: &WordList,
    input: &mut S,
    output: &mut K,
    disk: D,
    chooser: &Chooser,
) -> (Ending, D)
    ensures unread { reading words.now ≡ None → Unread result.0 × (K.written output.new ≡ K.written output.old) × (result.1 ≡ disk) }
    ensures ended { IfSome (reading words.now) (λ c. Ends D.tells (D.content disk) (S.left input.old) (S.left input.new) (K.written output.old) (K.written output.new) (D.image disk) (D.image result.1) c result.0) }
    ensures any_moment { D.tells → IfSome (reading words.now) (λ c. HasDatabase c → Told (S.left input.old) (λ octets. LeavesOnly D.moment D.image_since disk result.1 (MayLeaveOf c (D.content disk) octets (D.image disk)))) }
    ensures looks { IfSome (reading words.now) (λ c. OnlyLooks c → OnlyReads D.content D.image D.moment D.image_since D.faults disk result.1) }
    ensures read_fault { result.0 ≡ Ending.ReadFault → Rose (S.faults input.old) (S.faults input.new) }
    ensures write_fault { result.0 ≡ Ending.WriteFault → Rose (K.faults output.old) (K.faults output.new) }
    ensures disk_fault { result.0 ≡ Ending.DiskFault → Rose (D.faults disk) (D.faults result.1) }
{
    match command_of(alloc, words) {
        Ok(command) => obey(alloc, &command, input, output, disk, chooser),
        Err(CommandError::Usage) => (Ending::Usage, disk),
        Err(CommandError::OutOfMemory) => (Ending::OutOfMemory, disk),
    }
}

/// Does what the words ask for, over the database of a disk, which it hands back beside a status.
///
/// `replay` reads a tape from the input, serves it, and writes what is sent, as records of a tape, to the output; what is
/// kept of its history goes to the disk before what it sends is written. `dump` writes the entries of the disk as lines, and
/// `check` compares the input with these lines. `compact` writes the list of the disk as a journal at once, without what
/// purges let go. These three change nothing on the disk. `work` does generated work over a disk that is empty, and writes
/// what it is summed up to. `follow` reads a journal from the input, and appends what the disk's list lacks of that one's, in
/// batches of whole steps.
///
/// The status: 0 all was done; 2 the words have no reading; 3 a read failed; 4 a write failed; 5 a call of the disk failed;
/// 6 the tape has a fault, before which all was served; 7 the disk holds no journal, or a damaged one, or for `replay` and
/// `compact` one whose list isn't that of a cluster, or for `work` anything; 8 there was no memory; 9 the next step would pass a limit of the history, before which
/// all was served; 10 the input isn't the text of the entries; 15 the disk's list is no front of the input's; 16 the input
/// holds no journal, or a damaged one, or is too long. At each status but 0 it writes the line that says so to `errors`, as
/// far as these take it: a write there that fails changes nothing.
pub fn quick<S: Source, K: Sink, E: Sink, D: Disk>(
    alloc: Global,
    words: &WordList,
    input: &mut S,
    output: &mut K,
    errors: &mut E,
    disk: D,
    chooser: Chooser,
) -> (u8, D)
    // Where the words have no reading, nothing is written to the output, and the disk is as it was.
    ensures unread { reading words.now ≡ None → ((result.0 ≡ 2) ⊎ (result.0 ≡ 8)) × (K.written output.new ≡ K.written output.old) × (result.1 ≡ disk) }
    // Else the status is that of an end that the command may come to, and the line of this end is written to the errors.
    ensures ended { IfSome (reading words.now) (λ c. IsTold E.Sink errors.old errors.new result.0 (λ e. Ends D.tells (D.content disk) (S.left input.old) (S.left input.new) (K.written output.old) (K.written output.new) (D.image disk) (D.image result.1) c e)) }
    // What a crash at any moment of the call may leave of the disk of a database.
    ensures any_moment { D.tells → IfSome (reading words.now) (λ c. HasDatabase c → Told (S.left input.old) (λ octets. LeavesOnly D.moment D.image_since disk result.1 (MayLeaveOf c (D.content disk) octets (D.image disk)))) }
    ensures looks { IfSome (reading words.now) (λ c. OnlyLooks c → OnlyReads D.content D.image D.moment D.image_since D.faults disk result.1) }
    ensures read_fault { result.0 ≡ 3 → Rose (S.faults input.old) (S.faults input.new) }
    ensures write_fault { result.0 ≡ 4 → Rose (K.faults output.old) (K.faults output.new) }
    ensures disk_fault { result.0 ≡ 5 → Rose (D.faults disk) (D.faults result.1) }
    ensures usage { result.0 ≡ 2 → reading words.now ≡ None }
    ensures says { (e : Ending) × (result.0 ≡ status e) × Says e (E.written errors.old) (E.written errors.new) (E.faults errors.old) (E.faults errors.new) }
{
    let (ending, disk) = run(alloc, words, input, output, disk, &chooser);
    match ending {
        Ending::Done => (0, disk),
        _ => (tell(errors, ending), disk),
    }
}
