//! Messages that were read.

use cluster_types::event::Event;
use cluster_types::text::Text;

/// What a message means, and its type.
#[derive(Debug, Drop)]
pub struct Understood {
    pub event: Event,
    /// The `msg_type` of its header.
    pub msg_type: Text,
}
