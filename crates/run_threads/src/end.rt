//! How a run ends.

use history_lock::lock::Pass;
use run_book::halt::Halt;
use std::alloc::AllocError;
use thiserror::Error;

/// Why a run stops before each line was printed.
#[derive(Clone, Copy, Debug, PartialEq, Eq, Error)]
pub enum RunStop {
    /// The book was halted.
    #[error("the book was halted")]
    Halted(Halt),
    /// A write to the output failed.
    #[error("a write failed")]
    WriteFault,
    /// A thread wasn't started.
    #[error("no thread was started")]
    NotStarted,
    #[error("out of memory")]
    OutOfMemory,
}

impl From<AllocError> for RunStop {
    ghost use Rattle.std.specs.Prelude.{◌≡◌};
    ghost use Rattle.run_threads.specs.declared.end.RunStop.{RunStop};

    ghost from_gives = { λ _ e. e ≡ RunStop.OutOfMemory };

    fn from(_: AllocError) -> Self {
        RunStop::OutOfMemory
    }
}

/// How a run ended, with a pass of its book, where the book's lock holds `T`.
#[derive(Drop)]
pub enum RunEnd<B, T> {
    /// Each line was printed.
    Done {
        book: B,
        pass: Pass<T>,
    },
    /// It stopped before.
    Stopped {
        why: RunStop,
        book: B,
        pass: Pass<T>,
    },
    /// There was no memory for the book.
    NoBook,
}
