//! A program's trees, written out flat.

use crate::operators::{BinaryOperator, UnaryOperator};
use cluster_types::text::Text;

/// One instruction. The instructions of a tree stand in the order of reading, and each operator stands a second time
/// behind its last operand: `Infix` is where `+` is written, `Combine` is where both operands are there. So the one
/// kind is what a printer needs, and the other what an evaluator needs.
#[derive(Debug, Drop)]
pub enum Instruction {
    /// A constant.
    Push(u64),
    /// The value of a name.
    Load(Text),
    /// `(`
    Open,
    /// `)`
    Close,
    /// A unary operator, in front of its operand.
    Sign(UnaryOperator),
    /// The same operator, behind its operand.
    Apply(UnaryOperator),
    /// A binary operator, between its operands.
    Infix(BinaryOperator),
    /// The same operator, behind its second operand.
    Combine(BinaryOperator),
    /// `?`, behind the condition.
    Then,
    /// `:`, behind the first choice.
    Else,
    /// The end of the second choice.
    Choose,
    /// A name and its assignment operator, in front of the value.
    Target(Text, Option<BinaryOperator>),
    /// The same name and operator, behind the value.
    Store(Text, Option<BinaryOperator>),
    /// The end of an expression.
    Finish,
}
