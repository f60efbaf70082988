//! What is said of a run.

ghost use Rattle.std.specs.Prelude.{◌≡◌, ◌++◌, IfOk, OnOk, decimal, string_bytes};
ghost use Rattle.quick_commands.specs.Summary.{line, summary_lines};

use std::alloc::{AllocError, Global};

/// What came of a run.
#[derive(Clone, Copy, Debug)]
pub struct Summary {
    /// How many tasks there were.
    pub tasks: u64,
    /// How many of them completed.
    pub completed: u64,
    /// How many of them failed.
    pub failed: u64,
    /// How often a task was handed to an engine.
    pub hands: u64,
    /// How many entries the history has.
    pub entries: u64,
    /// The sum of the results of the completed tasks, which wraps.
    pub sum: i64,
}

/// Appends a line of a word and a number.
#[tactic(auto, unfolding(crate::specs::Summary::line))]
fn push_line(text: &mut String, word: &str, number: &str) -> Result<(), AllocError>
    ensures { OnOk result (string_bytes text.new ≡ string_bytes text.old ++ line word.now number.now) }
{
    text.push_str(word)?;
    text.push_str(" ")?;
    text.push_str(number)?;
    text.push_str("\n")
}

/// Appends a line of a word and a count.
fn push_count(text: &mut String, alloc: Global, word: &str, count: u64) -> Result<(), AllocError>
    ensures { OnOk result (string_bytes text.new ≡ string_bytes text.old ++ line word.now (decimal count)) }
{
    let digits = count.to_string(alloc)?;
    push_line(text, word, digits.as_str())
}

impl Summary {
    /// The six lines, each ending in a line feed.
    pub fn lines(&self, alloc: Global) -> Result<String, AllocError>
        ensures { IfOk result (λ text. string_bytes text ≡ summary_lines self.now) }
    {
        let sum = self.sum.to_string(alloc)?;
        let mut text = String::new(alloc);
        push_count(&mut text, alloc, "tasks", self.tasks)?;
        push_count(&mut text, alloc, "completed", self.completed)?;
        push_count(&mut text, alloc, "failed", self.failed)?;
        push_count(&mut text, alloc, "hands", self.hands)?;
        push_count(&mut text, alloc, "entries", self.entries)?;
        push_line(&mut text, "sum", sum.as_str())?;
        Ok(text)
    }
}
