//! What a task answered.

use cluster_types::text::Text;

/// What a task answered.
#[derive(Debug, Drop)]
pub enum Answered {
    /// The value of its code.
    Value(i64),
    /// Any other answer. A text that isn't there is empty.
    Failed {
        /// The name of the error.
        ename: Text,
        /// What the error is about.
        evalue: Text,
    },
}
