//! How `serve` ends.

use crate::ports::Ports;
use cluster_types::config::Channel;
use history_lock::lock::Pass;

/// How `serve` ended, where it has ports `P` and a desk whose lock holds `T`.
#[derive(Drop)]
pub enum ServeEnd<P, T> {
    /// All four ports have ended, and all their links.
    Ended {
        ports: Ports<P>,
        pass: Pass<T>,
    },
    /// A shutdown was asked.
    Stopped(Pass<T>),
    /// An accept failed on the port of this channel.
    ListenerFault {
        channel: Channel,
        port: P,
    },
    /// A job wasn't started.
    SpawnFault,
    /// A flush failed.
    DiskFault(Pass<T>),
    /// The history may not grow by the next step: it would have so many entries, and octets of their records.
    HistoryFull {
        entries: u64,
        bytes: u64,
        pass: Pass<T>,
    },
    OutOfMemory,
}
