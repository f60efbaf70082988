//! The names of an array's elements.

ghost use Rattle.std.specs.Prelude.{◌≡◌, IfOk, string_bytes};
ghost use Rattle.std.specs.List.{list_all};
ghost use Rattle.arith_syntax.specs.Tree.{is_letter, is_word, begins_name};
ghost use Rattle.array_maps.specs.Names.{is_name, element, is_array_name};

use std::alloc::{AllocError, Global};

/// The greatest number of octets of a name.
const MOST_OCTETS: usize = 255;

/// Whether an octet may begin a name.
fn is_letter(octet: u8) -> bool
    ensures { result ≡ is_letter octet }
{
    octet >= b'A' && octet <= b'Z' || octet >= b'a' && octet <= b'z' || octet == b'_'
}

/// Whether an octet may stand in a name.
fn is_word(octet: u8) -> bool
    ensures { result ≡ is_word octet }
{
    is_letter(octet) || octet >= b'0' && octet <= b'9'
}

/// Whether a text begins as a name.
fn begins_name(text: &[u8]) -> bool
    ensures { result ≡ begins_name text.now }
{
    match text.first() {
        Some(first) => is_letter(*first),
        None => false,
    }
}

/// Whether all octets may stand in a name.
fn are_words(text: &[u8]) -> bool
    ensures { result ≡ list_all is_word text.now }
{
    text.iter().all(|octet| is_word(*octet))
}

/// Whether a text is a name of arithmetic.
fn is_name(text: &[u8]) -> bool
    ensures { result ≡ is_name text.now }
{
    begins_name(text) && are_words(text) && text.len() <= MOST_OCTETS
}

/// The name of element `place` of an array.
pub fn element(alloc: Global, name: &str, place: u64) -> Result<String, AllocError>
    ensures { IfOk result (λ e. string_bytes e ≡ element name.now place) }
{
    let digits = place.to_string(alloc)?;
    let mut text = String::from_str(alloc, name)?;
    text.push_str("_")?;
    text.push_str(digits.as_str())?;
    Ok(text)
}

/// Whether an array of `n` elements may have this name.
pub fn is_array_name(alloc: Global, name: &str, n: u64) -> Result<bool, AllocError>
    ensures { IfOk result (λ yes. yes ≡ is_array_name name.now n) }
{
    if !is_name(name.as_bytes()) {
        return Ok(false);
    }
    if n == 0 {
        return Ok(true);
    }
    let last = element(alloc, name, n - 1)?;
    Ok(is_name(last.as_bytes()))
}
