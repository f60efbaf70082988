//! What metadata and contents say.

use cluster_types::event::Dep;
use cluster_types::message::{Engines, Ids};
use cluster_types::text::Text;

/// The metadata of a task.
#[derive(Debug, Drop)]
pub struct SubmitMeta {
    pub after: Dep,
    pub follow: Dep,
    /// The uuids of the engines where it may run; an empty list is no restriction.
    pub targets: Ids,
    /// Seconds, from 1 to 1,000,000,000; 0 is none.
    pub timeout: u64,
    /// 0 to 1,000.
    pub retries: u32,
}

/// What an engine's reply to a task says.
#[derive(Debug, Drop)]
pub struct ReplyMeta {
    /// The id of the task.
    pub task: Text,
    /// Whether the task ran without an error.
    pub ok: bool,
    /// Whether the engine declined the task because its dependencies weren't met there.
    pub declined: bool,
}

/// The content of a message to the hub, or of an engine's registration or echo.
#[derive(Debug, Drop)]
pub enum HubContent {
    Connection,
    History,
    Shutdown,
    /// An empty list of targets asks for all engines.
    Queue { targets: Engines, verbose: bool },
    Result { ids: Ids, status_only: bool },
    /// With `all` the list of ids is empty.
    Purge { all: bool, ids: Ids },
    Resubmit { ids: Ids },
    Abort { ids: Ids },
    Join { uuid: Text },
    Pong { beat: u64 },
}
