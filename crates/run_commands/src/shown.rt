//! What shows how such a command ended.

use history_lock::lock::Pass;

/// What shows the status of a command, over a disk `D`, and a book `B` whose lock holds `T`.
#[derive(Drop)]
pub enum RunShown<D, B, T> {
    /// Nothing does, or needs to.
    Nothing,
    /// The disk that was handed in, of which no database was opened.
    Disk(D),
    /// A pass of a book.
    Book { book: B, pass: Pass<T> },
}
