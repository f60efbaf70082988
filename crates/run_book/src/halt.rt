//! Why a book is halted.

ghost use Rattle.std.specs.Prelude.{◌≡◌};

use controller_desk::fault::ActError;

/// Why the command that a book belongs to can't go on.
#[derive(Clone, Copy, Debug, PartialEq, Eq)]
pub enum Halt {
    OutOfMemory,
    /// A call of the disk failed.
    DiskFault,
    /// The history may not grow by the next step: it would have so many entries, and octets of their records.
    HistoryFull { entries: u64, bytes: u64 },
}

/// Why a step that wasn't taken halts its book. The connections of a book are fewer than those that a cluster bears.
pub fn halt_of(error: ActError) -> Halt {
    match error {
        ActError::TooManyConnections | ActError::OutOfMemory => Halt::OutOfMemory,
        ActError::Reopen => Halt::DiskFault,
        ActError::HistoryFull { entries, bytes } => Halt::HistoryFull { entries, bytes },
    }
}
