//! What a message is to a client.

use cluster_types::text::Text;

/// What a message is to the client that takes it.
#[derive(Debug, Drop)]
pub enum Took {
    /// The outcome of a task of this client, which comes once for each id.
    Settled {
        /// The id of the task.
        id: Text,
        /// Whether the task ran without an error.
        ok: bool,
    },
    /// Another message about a task of this client: a refusal of the request, a message without a status, or an outcome
    /// behind the first one.
    Other,
    /// A message about no task of this client, or one whose header or parent header doesn't read.
    Stranger,
}
