//! The line that says why the program ends.

ghost use Rattle.std.specs.Prelude.{◌≡◌};
ghost use Rattle.command_words.specs.Lines.{standing_status, standing_line};
ghost use Rattle.quick_commands.specs.Written.{Said};

use command_words::ending::{StandingEnding, standing_line_of, standing_status_of};
use edges::sink::Sink;
use quick_commands::errors::say;

/// Writes the line of an end, as far as it can be written, and answers its status.
pub fn tell<E: Sink>(errors: &mut E, ending: StandingEnding) -> u8
    ensures status { result ≡ standing_status ending }
    ensures line { Said (standing_line ending) (E.written errors.old) (E.written errors.new) (E.faults errors.old) (E.faults errors.new) }
{
    let line = standing_line_of(ending);
    say(errors, &line);
    standing_status_of(ending)
}
