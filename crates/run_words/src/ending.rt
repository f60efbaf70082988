//! How a command ends that runs codes on engines of its own.

ghost use Rattle.std.specs.Prelude.{◌≡◌};
ghost use Rattle.run_words.specs.Lines.{run_status, job_line};

use arrayvec::ArrayString;
use command_words::ending::{Ending, status_of};
use itoa::Buffer;
use std::marker::Model;

/// How a command ends that runs codes on engines of its own.
#[derive(Clone, Copy, Debug, PartialEq, Eq)]
pub enum RunEnding {
    /// As other commands end too.
    Plain(Ending),
    /// A thread couldn't be started.
    NoWorker,
    /// The text is no job: this line has a fault, counted from 1, or 0 where it has no task or too many.
    BadJob(u64),
}

/// The status that says how such a command ends.
pub fn run_status_of(ending: RunEnding) -> u8
    ensures { result ≡ run_status ending }
{
    match ending {
        RunEnding::Plain(ending) => status_of(ending),
        RunEnding::NoWorker => 12,
        RunEnding::BadJob(_) => 17,
    }
}

/// The line that says which line of a job has a fault. It takes no memory beside its own.
#[derive(Drop)]
pub struct JobLine {
    text: ArrayString<64>,
}

impl Model for JobLine {
    ghost use Rattle.std.specs.Prelude.{List, ℕ};

    ghost Value = { List ℕ };

    ghost view = { λ l. l.text.bytes };
}

impl JobLine {
    /// The line for a job whose line with this number has a fault.
    #[tactic(auto, unfolding(crate::specs::Lines::job_line))]
    pub fn new(number: u64) -> JobLine
        ensures { result ≡ job_line number }
    {
        let mut digits = Buffer::new();
        let mut line = ArrayString::new();
        line.push_str("ipcluster: bad job at line ");
        line.push_str(digits.format(number));
        line.push_str("\n");
        JobLine { text: line }
    }

    /// The octets of the line, its line feed among them.
    pub fn as_slice(&self) -> &[u8]
        ensures { result.now ≡ self.now }
    {
        self.text.as_str().as_bytes()
    }
}
