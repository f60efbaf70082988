//! What has begun in front of a place and waits for what follows.

use crate::operators::{BinaryOperator, UnaryOperator};
use cluster_types::text::Text;

/// What waits for an operand, or for more.
#[derive(Debug, Drop)]
pub enum Pending {
    /// `(`, which waits for an expression and `)`.
    Parenthesis,
    /// A unary operator, which waits for its operand.
    Prefixed(UnaryOperator),
    /// A binary operator, which waits for its second operand.
    Operator(BinaryOperator),
    /// A condition and `?`, which wait for an expression and `:`.
    Condition,
    /// A condition, `?`, an expression and `:`, which wait for the second choice.
    Alternative,
    /// A name and an assignment operator, which wait for the value.
    Assigned(Text, Option<BinaryOperator>),
}
