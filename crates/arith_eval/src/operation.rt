//! Operators on numbers.

ghost use Rattle.std.specs.Prelude.{◌≡◌, ◌+ℤ◌, ◌-ℤ◌, ◌*ℤ◌, neg_ℤ, not, bit_and, bit_or, bit_xor, Result, Ok, Err};
ghost use Rattle.std.specs.Int.{w64, int_wrap, int_wrapping_div, int_shl, int_shr};
ghost use Rattle.std.specs.Prelude.{int_rem};
ghost use Rattle.arith_eval.specs.Value.{is_zero, truth, unary, binary, bitwise, shifted, divided};

use crate::error::ArithError;
use arith_syntax::operators::{BinaryOperator, UnaryOperator};

/// A number under a unary operator.
pub fn unary(operator: UnaryOperator, a: i64) -> i64
    ensures { result ≡ unary operator a }
{
    match operator {
        UnaryOperator::Plus => a,
        UnaryOperator::Minus => negated(a),
        UnaryOperator::Complement => !a,
        UnaryOperator::Not => truth(a == 0),
    }
}

/// 1 for what holds, 0 for what doesn't.
pub fn truth(holds: bool) -> i64
    ensures { result ≡ truth holds }
{
    if holds { 1 } else { 0 }
}

/// Two numbers under a binary operator; of `&&` and `||` both are taken.
pub fn binary(operator: BinaryOperator, a: i64, b: i64) -> Result<i64, ArithError>
    ensures { result ≡ binary operator a b }
{
    match operator {
        BinaryOperator::LogicalOr | BinaryOperator::LogicalAnd => Ok(truth(b != 0)),
        BinaryOperator::BitOr => Ok(a | b),
        BinaryOperator::BitXor => Ok(a ^ b),
        BinaryOperator::BitAnd => Ok(a & b),
        BinaryOperator::EqualTo => Ok(truth(a == b)),
        BinaryOperator::NotEqualTo => Ok(truth(a != b)),
        BinaryOperator::LessThan => Ok(truth(a < b)),
        BinaryOperator::LessOrEqual => Ok(truth(a <= b)),
        BinaryOperator::GreaterThan => Ok(truth(a > b)),
        BinaryOperator::GreaterOrEqual => Ok(truth(a >= b)),
        BinaryOperator::ShiftLeft => shifted_left(a, b),
        BinaryOperator::ShiftRight => shifted_right(a, b),
        BinaryOperator::Add => Ok(sum(a, b)),
        BinaryOperator::Subtract => Ok(difference(a, b)),
        BinaryOperator::Multiply => Ok(product(a, b)),
        BinaryOperator::Divide => quotient(a, b),
        BinaryOperator::Remainder => remainder(a, b),
    }
}

/// The negative.
fn negated(a: i64) -> i64
    ensures { result ≡ int_wrap w64 (neg_ℤ a) }
{
    a.wrapping_neg()
}

/// The sum.
fn sum(a: i64, b: i64) -> i64
    ensures { result ≡ int_wrap w64 (a +ℤ b) }
{
    a.wrapping_add(b)
}

/// The difference.
fn difference(a: i64, b: i64) -> i64
    ensures { result ≡ int_wrap w64 (a -ℤ b) }
{
    a.wrapping_sub(b)
}

/// The product.
fn product(a: i64, b: i64) -> i64
    ensures { result ≡ int_wrap w64 (a *ℤ b) }
{
    a.wrapping_mul(b)
}

/// The quotient, toward zero.
fn quotient(a: i64, b: i64) -> Result<i64, ArithError>
    ensures { result ≡ divided (int_wrapping_div w64 a b) b }
{
    if b == 0 {
        return Err(ArithError::ZeroDivision);
    }
    Ok(a.wrapping_div(b))
}

/// The remainder, with the sign of the dividend.
fn remainder(a: i64, b: i64) -> Result<i64, ArithError>
    ensures { result ≡ divided (int_rem a b) b }
{
    if b == 0 {
        return Err(ArithError::ZeroDivision);
    }
    Ok(a.wrapping_rem(b))
}

/// A number shifted to the left.
fn shifted_left(a: i64, b: i64) -> Result<i64, ArithError>
    ensures { result ≡ shifted (λ count. int_shl w64 a count) b }
{
    if b < 0 || b > 63 {
        return Err(ArithError::ShiftRange(b));
    }
    Ok(a << b)
}

/// A number shifted to the right, which keeps its sign.
fn shifted_right(a: i64, b: i64) -> Result<i64, ArithError>
    ensures { result ≡ shifted (λ count. int_shr a count) b }
{
    if b < 0 || b > 63 {
        return Err(ArithError::ShiftRange(b));
    }
    Ok(a >> b)
}
