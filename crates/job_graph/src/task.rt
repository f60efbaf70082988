//! The tasks of a job.

use cluster_types::sequence::Sequence;
use cluster_types::text::Text;

/// A list of names of tasks.
pub type Names = Sequence<Text>;

/// The tasks of a job, in the order of their lines.
pub type JobTasks = Sequence<JobTask>;

/// A task of a job, as its line says it.
#[derive(Debug, Drop)]
pub struct JobTask {
    pub name: Text,
    /// The tasks that have to have completed before it runs.
    pub after: Names,
    /// The tasks that have to have completed on the engine where it runs.
    pub follow: Names,
    /// How often it is tried again, from 0 to 1,000.
    pub retries: u32,
    pub code: Text,
}
