//! Connections.

use cluster_types::config::Channel;
use cluster_types::octets::Octets;

/// A connection that is live, with what its Up gave.
#[derive(Debug, Drop)]
pub struct Connection {
    pub number: u32,
    pub channel: Channel,
    pub identity: Octets,
}

/// Who submitted a request: the channel and identity of its connection.
#[derive(Clone, Debug, Drop)]
pub struct Owner {
    pub channel: Channel,
    pub identity: Octets,
}
