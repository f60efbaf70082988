//! Where a command about a cluster runs.

use controller_threads::ports::Ports;
use link_commands::host::Host;
use load_schemes::chooser::Chooser;
use session_threads::context::SessionTypes;
use std::alloc::Global;
use std::sync::Arc;

/// What a command stands on: the ports of a controller, the disk of its database, its gate and its chooser, and the machine.
#[derive(Drop)]
pub struct Site<L, T: SessionTypes> {
    pub ports: Ports<L>,
    pub disk: T::Disk,
    pub gate: Arc<T::Gate, Global>,
    pub chooser: Chooser,
    pub host: Host<T::Runtime, T::Clock, T::Words>,
}
