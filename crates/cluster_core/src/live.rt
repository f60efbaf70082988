//! What the entries of a history tell of the connections, without any memory.

ghost use Rattle.std.specs.Prelude.{◌≡◌, reverse};
ghost use Rattle.cluster_defs.specs.Connections.{channel_on};
ghost use Rattle.cluster_defs.specs.Histories.{facts, Legal};
ghost use Rattle.cluster_core.specs.Told.{told_by, told};

use cluster_types::config::Channel;
use cluster_types::entry::{Entry, Input};

/// What an entry tells of a connection: nothing, or whether it is live after it, with its channel.
fn told_by(entry: &Entry, number: u32) -> Option<Option<Channel>>
    ensures { result ≡ told_by entry.now number }
{
    match entry {
        Entry::Input(Input::Open { .. }) => Some(None),
        Entry::Input(Input::Up { conn, channel, .. }) => {
            if *conn == number {
                Some(Some(*channel))
            } else {
                None
            }
        }
        Entry::Input(Input::Down { conn, .. }) => {
            if *conn == number { Some(None) } else { None }
        }
        _ => None,
    }
}

/// The channel of a live connection, by the newest entry that tells of it.
pub fn channel_told(entries: &[Entry], number: u32) -> Option<Channel>
    requires { Legal (reverse entries.now) }
    ensures { result ≡ channel_on (facts (reverse entries.now)).connections number }
{
    let mut left = entries.len();
    while left > 0 {
        left -= 1;
        if let Some(channel) = told_by(&entries[left], number) {
            return channel;
        }
    }
    None
}
