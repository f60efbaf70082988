//! Why a desk halts its controller.

/// Why a desk halts its controller.
#[derive(Clone, Copy, Debug, PartialEq, Eq)]
pub enum Halt {
    /// A shutdown was asked, and all up to it was flushed.
    Stopping,
    /// A flush failed.
    DiskFault,
    /// The history may not grow by the next step: it would have so many entries, and octets of their records.
    HistoryFull { entries: u64, bytes: u64 },
}
