//! A text's program.

ghost use Rattle.std.specs.Prelude.{◌≡◌, ◌≢◌, ◌<◌, ◌≤◌, ◌⊎◌, drop, length, IfOk, IfErr, Result, Ok, Err, List, MatchResult};
ghost use Rattle.arith_syntax.specs.Tree.{Tree};
ghost use Rattle.arith_syntax.specs.Grammar.{Grammar, FirstFault, IsFault};
ghost use Rattle.arith_syntax.specs.Lexical.{scan};
ghost use Rattle.arith_syntax.specs.Reading.{State, step, run, placed, error_at, Places, nothing_read};

use crate::error::SyntaxError;
use crate::program::Program;
use crate::reader::Reader;
use crate::refusal::{Fault, Refusal};
use crate::scanner::{is_blank, token_at};
use crate::token::Token;
use std::alloc::Global;

/// The program of a text of at most 65,536 octets, or its first fault.
pub fn parse(alloc: Global, text: &str) -> Result<Program, SyntaxError>
    ensures grammar { IfOk result (λ p. Grammar text.now p) }
    ensures only { (trees : List Tree) → Grammar text.now trees → MatchResult result (λ p. p ≡ trees) (λ e. e ≡ SyntaxError.OutOfMemory) }
    ensures fault { IfErr result (λ e. FirstFault text.now e) }
    ensures faults { (e : SyntaxError) → FirstFault text.now e → e ≢ SyntaxError.OutOfMemory → IsFault e result }
{
    if text.len() > 65_536 {
        return Err(SyntaxError::TooLong);
    }
    let reader = read(alloc, text.as_bytes())?;
    Ok(Program::from_code(reader.into_code()))
}

/// Reads all tokens of a text.
fn read(alloc: Global, text: &[u8]) -> Result<Reader, SyntaxError>
    ensures ok { IfOk result (λ r. run nothing_read (scan 0 0 text.now) ≡ Ok r) }
    ensures err { IfErr result (λ e. (e ≡ SyntaxError.OutOfMemory) ⊎ (run nothing_read (scan 0 0 text.now) ≡ Err e)) }
{
    let mut reader = Reader::new(alloc);
    let mut at = 0;
    while at < text.len() {
        at = read_one(alloc, &mut reader, text, at)?;
    }
    take_at(&mut reader, Token::End, at)?;
    Ok(reader)
}

/// Reads the token at a place, if one stands there, and gives the place behind it.
fn read_one(
    alloc: Global,
    reader: &mut Reader,
    text: &[u8],
    at: usize,
) -> Result<usize, SyntaxError>
    requires { at < length text.now }
    ensures next { IfOk result (λ n. (at < n) × (n ≤ length text.now)) }
    ensures ok { IfOk result (λ n. run reader.old (scan 0 at (drop at text.now)) ≡ run reader.new (scan 0 n (drop n text.now))) }
    ensures err { IfErr result (λ e. (e ≡ SyntaxError.OutOfMemory) ⊎ (run reader.old (scan 0 at (drop at text.now)) ≡ Err e)) }
{
    if is_blank(text[at]) {
        return Ok(at + 1);
    }
    let (token, count) = token_at(alloc, &text[at..])?;
    take_at(reader, token, at)?;
    Ok(at + count)
}

/// Takes the token that stands at a place.
fn take_at(reader: &mut Reader, token: Token, at: usize) -> Result<(), SyntaxError>
    ensures { Places at result reader.new (step 64 token reader.old) }
{
    match reader.take(token) {
        Ok(()) => Ok(()),
        Err(Refusal::OutOfMemory) => Err(SyntaxError::OutOfMemory),
        Err(Refusal::Fault(fault)) => Err(placed(fault, at)),
    }
}

/// The error of a fault at a place.
fn placed(fault: Fault, at: usize) -> SyntaxError
    ensures { result ≡ error_at fault at }
{
    match fault {
        Fault::NoToken => SyntaxError::BadToken(at),
        Fault::Misplaced => SyntaxError::BadSyntax(at),
        Fault::Nested => SyntaxError::TooDeep(at),
        Fault::Large => SyntaxError::ConstantTooLarge(at),
    }
}
