//! The connection of a session.

use cluster_types::config::Channel;

/// A connection: its number, and what it is for.
#[derive(Clone, Copy, Debug, PartialEq, Eq)]
pub struct ServedConnection {
    pub number: u32,
    pub channel: Channel,
}
