//! What shows how a command ended.

use cluster_types::config::Channel;
use controller_threads::ports::Ports;
use history_lock::lock::Pass;

/// What shows the status of a command, over ports `P`, links of readers `I` and writers `O`, a disk `D`, and a desk `K` whose
/// lock holds `T`.
#[derive(Drop)]
pub enum Shown<P, I, O, D, K, T> {
    /// Nothing does, or needs to.
    Nothing,
    /// The disk that was handed in, of which no database was opened.
    Disk(D),
    /// The port of a channel, which failed.
    Port {
        channel: Channel,
        port: P,
    },
    /// A pass of a desk, and the ports where all have ended.
    Seen {
        desk: K,
        pass: Pass<T>,
        ports: Option<Ports<P>>,
    },
    /// A link to a controller.
    Link {
        reader: I,
        writer: O,
    },
}
