//! The tokens of a text, one after another.

ghost use Rattle.std.specs.Prelude.{◌≡◌, ◌<◌, ◌≤◌, ◌+◌, ◌==◌, ◌&&◌, Bool, true, IfOk, IfErr, length, get_or, if◌then◌else◌};
ghost use Rattle.std.specs.List.{prefix_len, list_all};
ghost use Rattle.arith_syntax.specs.Tree.{is_letter, is_word};
ghost use Rattle.arith_syntax.specs.Lexical.{is_blank, word, with_equals, doubled, single, shifts, is_bad, or_shorter, symbol, token_at};

use crate::constants::{constant, is_digit};
use crate::operators::BinaryOperator;
use crate::token::Token;
use cluster_types::text::Text;
use std::alloc::{AllocError, Global};
use std::str;

/// The token at the front of octets, and its length.
#[tactic(auto, unfolding(crate::specs::Lexical::token_at))]
pub fn token_at(alloc: Global, octets: &[u8]) -> Result<(Token, usize), AllocError>
    requires { 0 < length octets.now }
    ensures { IfOk result (λ r. (r.0, r.1) ≡ token_at octets.now) }
{
    let first = octets[0];
    if is_word(first) {
        let count = run_length(octets);
        let token = word(alloc, &octets[..count])?;
        Ok((token, count))
    } else {
        Ok(symbol(first, octet_at(octets, 1), octet_at(octets, 2)))
    }
}

/// The octet at a place, or 0 behind the end.
fn octet_at(octets: &[u8], place: usize) -> u8
    ensures { result ≡ get_or octets.now place 0 }
{
    if place < octets.len() {
        octets[place]
    } else {
        0
    }
}

/// How many letters, digits and `_` stand at the front.
fn run_length(octets: &[u8]) -> usize
    ensures { result ≡ prefix_len is_word octets.now }
{
    let mut count = 0;
    while count < octets.len() && is_word(octets[count]) {
        count += 1;
    }
    count
}

/// The name or the constant that a run of letters, digits and `_` spells.
fn word(alloc: Global, run: &[u8]) -> Result<Token, AllocError>
    requires first { 0 < length run.now }
    requires words { list_all is_word run.now ≡ true }
    ensures { IfOk result (λ t. t ≡ word run.now) }
{
    if !is_letter(run[0]) {
        return Ok(constant(run));
    }
    if run.len() > 255 {
        return Ok(Token::Bad);
    }
    let name = name_of(alloc, run)?;
    Ok(Token::Name(name))
}

/// The text of a name.
fn name_of(alloc: Global, run: &[u8]) -> Result<Text, AllocError>
    requires { list_all is_word run.now ≡ true }
    ensures { IfOk result (λ t. t ≡ run.now) }
{
    match str::from_utf8(run) {
        Ok(name) => Text::new(alloc, name),
        Err(_) => unreachable!(),
    }
}

/// The longest token that begins with the first of three octets, where it is no letter, digit or `_`.
#[tactic(auto, unfolding(crate::specs::Lexical::symbol))]
fn symbol(first: u8, second: u8, third: u8) -> (Token, usize)
    ensures { (result.0, result.1) ≡ symbol first second third }
{
    let three = three_of(first, second, third);
    if !is_bad(&three) {
        return (three, 3);
    }
    let equals = equals_of(first, second);
    if !is_bad(&equals) {
        return (equals, 2);
    }
    let twice = twice_of(first, second);
    if !is_bad(&twice) {
        return (twice, 2);
    }
    (single(first), 1)
}

/// Whether it is no token.
fn is_bad(token: &Token) -> bool
    ensures { result ≡ is_bad token.now }
{
    matches!(token, Token::Bad)
}

/// The token of three octets.
fn three_of(first: u8, second: u8, third: u8) -> Token
    ensures { result ≡ (if second == first && third == 61 then shifts first else Token.Bad) }
{
    if second == first && third == b'=' {
        shifts(first)
    } else {
        Token::Bad
    }
}

/// The token of an octet and `=`.
fn equals_of(first: u8, second: u8) -> Token
    ensures { result ≡ (if second == 61 then with_equals first else Token.Bad) }
{
    if second == b'=' {
        with_equals(first)
    } else {
        Token::Bad
    }
}

/// The token of the same octet twice.
fn twice_of(first: u8, second: u8) -> Token
    ensures { result ≡ (if second == first then doubled first else Token.Bad) }
{
    if second == first {
        doubled(first)
    } else {
        Token::Bad
    }
}

/// The assignment operator that an octet begins, which stands twice, with `=` behind.
fn shifts(c: u8) -> Token
    ensures { result ≡ shifts c }
{
    match c {
        b'<' => Token::Assign(Some(BinaryOperator::ShiftLeft)),
        b'>' => Token::Assign(Some(BinaryOperator::ShiftRight)),
        _ => Token::Bad,
    }
}

/// The token that an octet begins, with `=` behind.
fn with_equals(c: u8) -> Token
    ensures { result ≡ with_equals c }
{
    match c {
        b'=' => Token::Binary(BinaryOperator::EqualTo),
        b'!' => Token::Binary(BinaryOperator::NotEqualTo),
        b'<' => Token::Binary(BinaryOperator::LessOrEqual),
        b'>' => Token::Binary(BinaryOperator::GreaterOrEqual),
        b'*' => Token::Assign(Some(BinaryOperator::Multiply)),
        b'/' => Token::Assign(Some(BinaryOperator::Divide)),
        b'%' => Token::Assign(Some(BinaryOperator::Remainder)),
        b'+' => Token::Assign(Some(BinaryOperator::Add)),
        b'-' => Token::Assign(Some(BinaryOperator::Subtract)),
        b'&' => Token::Assign(Some(BinaryOperator::BitAnd)),
        b'^' => Token::Assign(Some(BinaryOperator::BitXor)),
        b'|' => Token::Assign(Some(BinaryOperator::BitOr)),
        _ => Token::Bad,
    }
}

/// The token that an octet begins, which stands twice.
fn doubled(c: u8) -> Token
    ensures { result ≡ doubled c }
{
    match c {
        b'<' => Token::Binary(BinaryOperator::ShiftLeft),
        b'>' => Token::Binary(BinaryOperator::ShiftRight),
        b'&' => Token::Binary(BinaryOperator::LogicalAnd),
        b'|' => Token::Binary(BinaryOperator::LogicalOr),
        _ => Token::Bad,
    }
}

/// The token of one octet.
fn single(c: u8) -> Token
    ensures { result ≡ single c }
{
    match c {
        b'+' => Token::Binary(BinaryOperator::Add),
        b'-' => Token::Binary(BinaryOperator::Subtract),
        b'*' => Token::Binary(BinaryOperator::Multiply),
        b'/' => Token::Binary(BinaryOperator::Divide),
        b'%' => Token::Binary(BinaryOperator::Remainder),
        b'<' => Token::Binary(BinaryOperator::LessThan),
        b'>' => Token::Binary(BinaryOperator::GreaterThan),
        b'&' => Token::Binary(BinaryOperator::BitAnd),
        b'^' => Token::Binary(BinaryOperator::BitXor),
        b'|' => Token::Binary(BinaryOperator::BitOr),
        b'~' => Token::Tilde,
        b'!' => Token::Exclamation,
        b'=' => Token::Assign(None),
        b'?' => Token::Question,
        b':' => Token::Colon,
        b'(' => Token::LeftParenthesis,
        b')' => Token::RightParenthesis,
        b';' | b'\n' => Token::Separator,
        _ => Token::Bad,
    }
}

/// Whether it is a letter or `_`.
fn is_letter(c: u8) -> bool
    ensures { result ≡ is_letter c }
{
    c >= b'A' && c <= b'Z' || c >= b'a' && c <= b'z' || c == b'_'
}

/// Whether it is a letter, a digit or `_`.
fn is_word(c: u8) -> bool
    ensures { result ≡ is_word c }
{
    is_letter(c) || is_digit(c)
}

/// Whether it is a space, a tab or a carriage return.
pub fn is_blank(c: u8) -> bool
    ensures { result ≡ is_blank c }
{
    c == b' ' || c == b'\t' || c == b'\r'
}
