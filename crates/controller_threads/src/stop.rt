//! Why the caller of the threads stops before all links have ended.

ghost use Rattle.std.specs.Prelude.{◌≡◌};

use crate::halt::Halt;
use cluster_types::config::Channel;
use std::alloc::AllocError;

/// Why no further link is served, where the ports are `P`.
#[derive(Drop)]
pub enum ServeStop<P> {
    /// The desk halts the controller.
    Halted(Halt),
    /// An accept failed on the port of this channel.
    PortFailed { channel: Channel, port: P },
    /// A job wasn't started.
    NotStarted,
    OutOfMemory,
}

impl<P> From<AllocError> for ServeStop<P> {
    ghost use Rattle.std.specs.Prelude.{◌≡◌};
    ghost use Rattle.controller_threads.specs.declared.stop.ServeStop.{ServeStop};

    ghost from_gives = { λ _ e. e ≡ ServeStop.OutOfMemory };

    fn from(_: AllocError) -> Self {
        ServeStop::OutOfMemory
    }
}
