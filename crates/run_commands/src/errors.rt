//! The line that says why such a command ends.

ghost use Rattle.std.specs.Prelude.{◌≡◌};
ghost use Rattle.quick_commands.specs.Written.{Said};
ghost use Rattle.run_words.specs.Lines.{run_status, run_line};

use command_words::ending::{StandingEnding, line_of, standing_line_of};
use edges::sink::{Sink, WriteFailed, write_all};
use run_words::ending::{JobLine, RunEnding, run_status_of};

/// Writes a text, as far as it can be written.
fn say<E: Sink>(errors: &mut E, text: &[u8])
    ensures { Said text.now (E.written errors.old) (E.written errors.new) (E.faults errors.old) (E.faults errors.new) }
{
    match write_all(errors, text) {
        Ok(()) => {}
        Err(WriteFailed) => {}
    }
}

/// Writes the line of an end, as far as it can be written.
fn say_line<E: Sink>(errors: &mut E, ending: RunEnding)
    ensures { Said (run_line ending) (E.written errors.old) (E.written errors.new) (E.faults errors.old) (E.faults errors.new) }
{
    match ending {
        RunEnding::Plain(ending) => {
            let line = line_of(ending);
            say(errors, line.as_slice());
        }
        RunEnding::NoWorker => {
            let line = standing_line_of(StandingEnding::NoWorker);
            say(errors, line.as_slice());
        }
        RunEnding::BadJob(number) => {
            let line = JobLine::new(number);
            say(errors, line.as_slice());
        }
    }
}

/// Writes the line of an end, as far as it can be written, and answers its status.
pub fn tell<E: Sink>(errors: &mut E, ending: RunEnding) -> u8
    ensures status { result ≡ run_status ending }
    ensures line { Said (run_line ending) (E.written errors.old) (E.written errors.new) (E.faults errors.old) (E.faults errors.new) }
{
    say_line(errors, ending);
    run_status_of(ending)
}
