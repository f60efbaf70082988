//! Names, lists of names, and numbers of retries, as a line of a job has them.

ghost use Rattle.std.specs.Prelude.{◌≡◌, ◌≤◌, ◌^◌, IfOk, MatchOption, true};
ghost use Rattle.std.specs.List.{list_all};
ghost use Rattle.std.specs.Char.{is_ascii_digit};
ghost use Rattle.std.specs.Str.Parse.{digits_value};
ghost use Rattle.arith_syntax.specs.Tree.{is_letter, is_word, begins_name};
ghost use Rattle.cluster_defs.specs.Words.{is_listed};
ghost use Rattle.job_graph.specs.Lines.{is_name, are_apart, names_in, is_number, retries_in};

use crate::parts::parts;
use crate::task::Names;
use cluster_types::text::Text;
use std::alloc::{AllocError, Global};

/// The greatest number of octets of a name.
const MOST_OCTETS: usize = 255;

/// The greatest number of retries.
const MOST_RETRIES: u32 = 1_000;

/// Whether it is a letter or `_`.
fn is_letter(c: u8) -> bool
    ensures { result ≡ is_letter c }
{
    c >= b'A' && c <= b'Z' || c >= b'a' && c <= b'z' || c == b'_'
}

/// Whether it is a letter, a digit or `_`.
fn is_word(c: u8) -> bool
    ensures { result ≡ is_word c }
{
    is_letter(c) || c >= b'0' && c <= b'9'
}

/// Whether a text begins with a letter or `_`.
fn begins_name(text: &[u8]) -> bool
    ensures { result ≡ begins_name text.now }
{
    match text {
        [] => false,
        [first, ..] => is_letter(*first),
    }
}

/// Whether each octet is a letter, a digit or `_`.
fn are_words(text: &[u8]) -> bool
    ensures { result ≡ list_all is_word text.now }
{
    text.iter().all(|c| is_word(*c))
}

/// Whether a text is a name.
pub fn is_name(text: &Text) -> bool
    ensures { result ≡ is_name text.now }
{
    let octets = text.as_slice();
    begins_name(octets) && are_words(octets) && octets.len() <= MOST_OCTETS
}

/// Whether each text is a name.
fn are_names(texts: &[Text]) -> bool
    ensures { result ≡ list_all is_name texts.now }
{
    texts.iter().all(|text| is_name(text))
}

/// Whether a text stands in a list.
pub fn is_listed(text: &Text, texts: &[Text]) -> bool
    ensures { result ≡ is_listed text.now texts.now }
{
    texts.iter().any(|other| other.is(text))
}

/// Whether no text stands in a list twice.
fn are_apart(texts: &[Text]) -> bool
    ensures { result ≡ are_apart texts.now }
{
    for (place, text) in texts.iter().enumerate() {
        if is_listed(text, &texts[place + 1..]) {
            return false;
        }
    }
    true
}

/// The names that a word lists with commas between them, where each is a name and none stands twice.
pub fn names_in(alloc: Global, word: &Text) -> Result<Option<Names>, AllocError>
    ensures { IfOk result (λ names. names ≡ names_in word.now) }
{
    let names = parts(alloc, word.as_str(), ',')?;
    if are_names(names.as_slice()) && are_apart(names.as_slice()) {
        Ok(Some(names))
    } else {
        Ok(None)
    }
}

/// Whether each octet is a decimal digit.
fn are_digits(text: &[u8]) -> bool
    ensures { result ≡ list_all is_ascii_digit text.now }
{
    text.iter().all(|octet| octet.is_ascii_digit())
}

/// Whether a text is a number in decimal digits, with no 0 ahead of others.
fn is_number(text: &[u8]) -> bool
    ensures { result ≡ is_number text.now }
{
    match text {
        [] => false,
        [digit, digits @ ..] => are_digits(text) && (*digit != b'0' || digits.len() == 0),
    }
}

/// The number that digits write, or none where it is above the greatest of its type.
fn parsed(text: &str) -> Option<u32>
    requires { is_number text.now ≡ true }
    ensures { MatchOption result (2 ^ 32 ≤ digits_value 10 text.now) (λ n. n ≡ digits_value 10 text.now) }
{
    match text.parse::<u32>() {
        Ok(number) => Some(number),
        Err(_) => None,
    }
}

/// The number of retries that a word is.
pub fn retries_in(word: &Text) -> Option<u32>
    ensures { result ≡ retries_in word.now }
{
    if !is_number(word.as_slice()) {
        return None;
    }
    match parsed(word.as_str()) {
        Some(number) if number <= MOST_RETRIES => Some(number),
        _ => None,
    }
}
