//! Answers to messages.

use cluster_types::message::Buffers;
use cluster_types::octets::Octets;

/// What an answer says: its content, a JSON object, and the buffers behind it.
#[derive(Debug, Drop)]
pub struct Answer {
    pub content: Octets,
    pub buffers: Buffers,
}
