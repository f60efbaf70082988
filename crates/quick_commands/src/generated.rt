//! Generated work, summed up.

ghost use Rattle.std.specs.Prelude.{◌≡◌, ◌≤◌, ◌<◌, ◌^◌};
ghost use Rattle.cluster_types.specs.Causes.{Rose};
ghost use Rattle.quick_commands.specs.Generated.{most_tasks};
ghost use Rattle.quick_commands.specs.Summary.{summary_lines};
ghost use Rattle.quick_commands.specs.Works.{PrintEnds, WorkEnds, ending_of};

use crate::fault::WorkError;
use crate::summary::Summary;
use crate::work::work;
use cluster_core::size::HistorySize;
use command_words::ending::Ending;
use disk_model::disk::Disk;
use edges::sink::{Sink, write_all};
use load_schemes::chooser::Chooser;
use std::alloc::Global;

/// Writes the lines of a summary, and says how that ended.
fn print<K: Sink>(alloc: Global, summary: &Summary, output: &mut K) -> Ending
    ensures ended { PrintEnds (summary_lines summary.now) (K.written output.old) (K.written output.new) result }
    ensures write_fault { result ≡ Ending.WriteFault → Rose (K.faults output.old) (K.faults output.new) }
{
    let Ok(lines) = summary.lines(alloc) else {
        return Ending::OutOfMemory;
    };
    match write_all(output, lines.as_bytes()) {
        Ok(()) => Ending::Done,
        Err(_) => Ending::WriteFault,
    }
}

/// How the program ends where the work isn't done.
fn ending_of(error: WorkError) -> Ending
    ensures { result ≡ ending_of error }
{
    match error {
        WorkError::NotEmpty(place) => Ending::Damaged(place),
        WorkError::DiskFault => Ending::DiskFault,
        WorkError::HistoryFull(HistorySize { entries, bytes }) => {
            Ending::HistoryFull { entries, bytes }
        }
        WorkError::OutOfMemory => Ending::OutOfMemory,
    }
}

/// Does the generated work of a seed and so many tasks over a disk, which it hands back, and writes what it is summed up to.
pub fn generated<K: Sink, D: Disk>(
    alloc: Global,
    seed: u32,
    tasks: u32,
    chooser: &Chooser,
    output: &mut K,
    disk: D,
) -> (Ending, D)
    requires seed { seed < 2 ^ 31 }
    requires tasks { tasks ≤ most_tasks }
    ensures ended { WorkEnds D.tells (D.content disk) seed tasks (K.written output.old) (K.written output.new) (D.image result.1) result.0 }
    ensures write_fault { result.0 ≡ Ending.WriteFault → Rose (K.faults output.old) (K.faults output.new) }
    ensures disk_fault { result.0 ≡ Ending.DiskFault → Rose (D.faults disk) (D.faults result.1) }
{
    let (done, disk) = work(alloc, disk, chooser, seed, tasks);
    match done {
        Ok(summary) => (print(alloc, &summary, output), disk),
        Err(error) => (ending_of(error), disk),
    }
}
