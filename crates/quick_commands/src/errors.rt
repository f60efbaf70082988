//! The line that says why the program ends.

ghost use Rattle.std.specs.Prelude.{◌≡◌};
ghost use Rattle.command_words.specs.Lines.{status, line};
ghost use Rattle.quick_commands.specs.Written.{Said};

use command_words::ending::{Ending, Line, line_of, status_of};
use edges::sink::{Sink, WriteFailed, write_all};

/// Writes a line, as far as it can be written.
pub fn say<E: Sink>(errors: &mut E, line: &Line)
    ensures { Said line.now (E.written errors.old) (E.written errors.new) (E.faults errors.old) (E.faults errors.new) }
{
    match write_all(errors, line.as_slice()) {
        Ok(()) => {}
        Err(WriteFailed) => {}
    }
}

/// Writes the line of an end, as far as it can be written, and answers its status.
pub fn tell<E: Sink>(errors: &mut E, ending: Ending) -> u8
    ensures status { result ≡ status ending }
    ensures line { Said (line ending) (E.written errors.old) (E.written errors.new) (E.faults errors.old) (E.faults errors.new) }
{
    let line = line_of(ending);
    say(errors, &line);
    status_of(ending)
}
