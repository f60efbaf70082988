//! What an `execute_request` asks for.

use cluster_types::sequence::Sequence;
use cluster_types::text::Text;

/// A text to evaluate under a name.
#[derive(Debug, Drop)]
pub struct Expression {
    pub name: Text,
    pub code: Text,
}

/// The content of an `execute_request`, in the fields that are read (Jupyter messaging 5.3, "Execute").
#[derive(Debug, Drop)]
pub struct ExecuteRequest {
    pub code: Text,
    /// Whether the execution count stays as it is.
    pub silent: bool,
    /// Whether the execution count rises, where the request isn't silent.
    pub store_history: bool,
    /// What to evaluate after the code, by ascending name, each name once.
    pub user_expressions: Sequence<Expression>,
}
