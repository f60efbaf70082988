//! What stands ahead of an answer in its line.

use cluster_types::message::WordList;

/// Whose answers are printed.
#[derive(Debug, Drop)]
pub enum Labels {
    /// Those of codes, with nothing ahead of them.
    Codes,
    /// Those of tasks, with their names ahead of them.
    Tasks(WordList),
}
