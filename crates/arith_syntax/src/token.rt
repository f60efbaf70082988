//! The tokens of a text.

use crate::operators::{BinaryOperator, UnaryOperator};
use cluster_types::text::Text;

/// One token of a text.
#[derive(Debug, Drop)]
pub enum Token {
    /// A constant below 2^63.
    Number(u64),
    /// A constant of 2^63 or more.
    TooLarge,
    /// A name.
    Name(Text),
    /// A binary operator; `+` and `-` are unary ones too, where an operand is awaited.
    Binary(BinaryOperator),
    /// `~`
    Tilde,
    /// `!`
    Exclamation,
    /// An assignment operator: `=`, or a binary operator and `=`.
    Assign(Option<BinaryOperator>),
    /// `?`
    Question,
    /// `:`
    Colon,
    /// `(`
    LeftParenthesis,
    /// `)`
    RightParenthesis,
    /// `;` or a line feed.
    Separator,
    /// The end of the text.
    End,
    /// Octets that are no token.
    Bad,
}
