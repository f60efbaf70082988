//! Constants: decimal, octal behind `0`, and hexadecimal behind `0x` or `0X`.

ghost use Rattle.std.specs.Prelude.{◌≡◌, ℕ, ◌*◌, ◌+◌, ◌^◌, ◌≤◌, ◌<◌, min, length};
ghost use Rattle.std.specs.List.{list_all};
ghost use Rattle.arith_syntax.specs.Tree.{is_digit};
ghost use Rattle.arith_syntax.specs.Lexical.{digit_value, is_octal, is_hexadecimal, value_after, number, constant_of, constant};

use crate::token::Token;

/// One more than the greatest constant.
const LIMIT: u64 = 0x8000_0000_0000_0000;

/// The constant that a run of letters, digits and `_` spells.
#[tactic(auto, unfolding(crate::specs::Lexical::constant))]
pub fn constant(run: &[u8]) -> Token
    ensures { result ≡ constant run.now }
{
    match run {
        [b'0', b'x' | b'X', _, ..] => hexadecimal(&run[2..]),
        [first, ..] if *first >= b'1' => decimal(run),
        _ => octal(run),
    }
}

/// The constant of hexadecimal digits.
fn hexadecimal(digits: &[u8]) -> Token
    ensures { result ≡ constant_of 16 is_hexadecimal digits.now }
{
    if all_hexadecimal(digits) {
        number(16, digits)
    } else {
        Token::Bad
    }
}

/// The constant of decimal digits.
fn decimal(digits: &[u8]) -> Token
    ensures { result ≡ constant_of 10 is_digit digits.now }
{
    if all_decimal(digits) {
        number(10, digits)
    } else {
        Token::Bad
    }
}

/// The constant of octal digits.
fn octal(digits: &[u8]) -> Token
    ensures { result ≡ constant_of 8 is_octal digits.now }
{
    if all_octal(digits) {
        number(8, digits)
    } else {
        Token::Bad
    }
}

/// Whether each is a hexadecimal digit.
fn all_hexadecimal(digits: &[u8]) -> bool
    ensures { result ≡ list_all is_hexadecimal digits.now }
{
    digits.iter().all(|c| is_hexadecimal(*c))
}

/// Whether each is a decimal digit.
fn all_decimal(digits: &[u8]) -> bool
    ensures { result ≡ list_all is_digit digits.now }
{
    digits.iter().all(|c| is_digit(*c))
}

/// Whether each is an octal digit.
fn all_octal(digits: &[u8]) -> bool
    ensures { result ≡ list_all is_octal digits.now }
{
    digits.iter().all(|c| is_octal(*c))
}

/// The token of the number that digits of a base stand for.
fn number(base: u64, digits: &[u8]) -> Token
    requires { 1 ≤ base }
    ensures { result ≡ number (value_after base 0 digits.now) }
{
    let value = value(base, digits);
    if value < LIMIT {
        Token::Number(value)
    } else {
        Token::TooLarge
    }
}

/// What digits stand for, or 2^63 where it is more.
fn value(base: u64, digits: &[u8]) -> u64
    requires { 1 ≤ base }
    ensures { result ≡ min (value_after base 0 digits.now) (2 ^ 63) }
{
    let mut value = 0;
    for c in digits {
        value = appended(value, base, digit(*c));
    }
    value
}

/// A number with one more digit behind it, or 2^63 where that is more.
fn appended(value: u64, base: u64, digit: u64) -> u64
    ensures { result ≡ min (value * base + digit) (2 ^ 63) }
{
    value.saturating_mul(base).saturating_add(digit).min(LIMIT)
}

/// What a digit stands for.
fn digit(c: u8) -> u64
    ensures { result ≡ digit_value c }
{
    if is_digit(c) {
        u64::from(c - b'0')
    } else if c >= b'a' {
        u64::from(c - 87)
    } else {
        u64::from(c.saturating_sub(55))
    }
}

/// Whether it is a decimal digit.
pub fn is_digit(c: u8) -> bool
    ensures { result ≡ is_digit c }
{
    c >= b'0' && c <= b'9'
}

/// Whether it is an octal digit.
fn is_octal(c: u8) -> bool
    ensures { result ≡ is_octal c }
{
    c >= b'0' && c <= b'7'
}

/// Whether it is a hexadecimal digit.
fn is_hexadecimal(c: u8) -> bool
    ensures { result ≡ is_hexadecimal c }
{
    is_digit(c) || c >= b'A' && c <= b'F' || c >= b'a' && c <= b'f'
}
