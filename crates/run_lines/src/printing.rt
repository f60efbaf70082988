//! Lines that are printed.

ghost use Rattle.std.specs.Prelude.{◌≡◌, ◌≤◌, ◌+◌, ◌++◌, length, drop, Err, IfOk, OnOk};
ghost use Rattle.cluster_types.specs.Causes.{Rose};
ghost use Rattle.edges.specs.Streams.{Added};
ghost use Rattle.run_lines.specs.Lines.{lines_from, known_front};

use crate::labels::Labels;
use crate::lines::push_line;
use array_maps::gathered::Gathered;
use edges::sink::{Sink, WriteFailed, write_all};
use std::alloc::{AllocError, Global};
use thiserror::Error;

/// Why lines aren't printed.
#[derive(Clone, Copy, Debug, PartialEq, Eq, Error)]
pub enum PrintError {
    /// A write to the output failed.
    #[error("a write failed")]
    WriteFault,
    #[error("out of memory")]
    OutOfMemory,
}

impl From<AllocError> for PrintError {
    ghost use Rattle.std.specs.Prelude.{◌≡◌};
    ghost use Rattle.run_lines.specs.declared.printing.PrintError.{PrintError};

    ghost from_gives = { λ _ e. e ≡ PrintError.OutOfMemory };

    fn from(_: AllocError) -> Self {
        PrintError::OutOfMemory
    }
}

/// Lines, and the place of the first code behind them.
#[derive(Drop)]
struct Due {
    text: Vec<u8>,
    next: usize,
}

/// The lines from a place on, up to the first code that hasn't answered, of so many codes.
fn due_lines(
    alloc: Global,
    labels: &Labels,
    gathered: &Gathered,
    total: usize,
    from: usize,
) -> Result<Due, AllocError>
    requires total { total ≡ length gathered.now.answers }
    requires from { from ≤ total }
    ensures text { IfOk result (λ due. due.text.items ≡ lines_from labels.now from (known_front (drop from gathered.now.answers))) }
    ensures within { IfOk result (λ due. due.next ≤ total) }
    ensures next { IfOk result (λ due. due.next ≡ from + length (known_front (drop from gathered.now.answers))) }
{
    let mut text = Vec::new(alloc);
    for place in from..total {
        match gathered.get(place) {
            Some(answer) => push_line(&mut text, labels, place, answer)?,
            None => return Ok(Due { text, next: place }),
        }
    }
    Ok(Due { text, next: total })
}

/// Prints the lines from a place on, up to the first code that hasn't answered, of so many codes, and says where that is.
pub fn print_due<K: Sink>(
    alloc: Global,
    labels: &Labels,
    gathered: &Gathered,
    total: usize,
    from: usize,
    output: &mut K,
) -> Result<usize, PrintError>
    requires total { total ≡ length gathered.now.answers }
    requires from { from ≤ total }
    ensures next { IfOk result (λ next. next ≡ from + length (known_front (drop from gathered.now.answers))) }
    ensures within { IfOk result (λ next. next ≤ total) }
    ensures ok { OnOk result (Added (lines_from labels.now from (known_front (drop from gathered.now.answers))) (K.written output.old) (K.written output.new)) }
    ensures cause { result ≡ Err PrintError.WriteFault → Rose (K.faults output.old) (K.faults output.new) }
    ensures later { K.faults output.old ≤ K.faults output.new }
{
    let due = due_lines(alloc, labels, gathered, total, from)?;
    match write_all(output, due.text.as_slice()) {
        Ok(()) => Ok(due.next),
        Err(WriteFailed) => Err(PrintError::WriteFault),
    }
}
