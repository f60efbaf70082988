//! The values of options.

ghost use Rattle.std.specs.Prelude.{◌≡◌, ◌≤◌, ◌^◌, true, Some, IfSome, MatchOption, option_map, bytes_eq};
ghost use Rattle.std.specs.List.{list_all};
ghost use Rattle.std.specs.Char.{is_ascii_digit};
ghost use Rattle.std.specs.Str.Parse.{digits_value};
ghost use Rattle.cluster_types.specs.declared.config.Scheme.{Scheme};
ghost use Rattle.command_words.specs.Values.{listed, needed, optional, key_from, scheme_from, within, number_from, is_number, lru_word, leastload_word, plainrandom_word, twobin_word};

use cluster_types::config::Scheme;

/// The most octets of a key.
const LONGEST_KEY: usize = 4096;

/// The key that a value is.
fn key_from(value: &str) -> Option<&str>
    ensures { option_map (λ k. k.now) result ≡ key_from value.now }
{
    if value.len() > 0 && value.len() <= LONGEST_KEY {
        Some(value)
    } else {
        None
    }
}

/// The key, which is needed once.
pub fn needed_key<'a>(values: Option<&[&'a str]>) -> Option<&'a str>
    ensures { option_map (λ k. k.now) result ≡ needed key_from (listed values.entry) }
{
    match values {
        Some([value]) => key_from(*value),
        _ => None,
    }
}

/// The scheme that a value names.
#[tactic(auto, unfolding(crate::specs::Values::lru_word, crate::specs::Values::leastload_word, crate::specs::Values::plainrandom_word, crate::specs::Values::twobin_word))]
fn scheme_from(value: &[u8]) -> Option<Scheme>
    ensures { result ≡ scheme_from value.now }
{
    if value == b"lru".as_slice() {
        Some(Scheme::Lru)
    } else if value == b"leastload".as_slice() {
        Some(Scheme::LeastLoad)
    } else if value == b"plainrandom".as_slice() {
        Some(Scheme::PlainRandom)
    } else if value == b"twobin".as_slice() {
        Some(Scheme::TwoBin)
    } else {
        None
    }
}

/// The scheme, or the first engine of the least load where none is given.
pub fn optional_scheme(values: Option<&[&str]>) -> Option<Scheme>
    ensures { result ≡ optional Scheme.LeastLoad scheme_from (listed values.entry) }
{
    match values {
        None | Some([]) => Some(Scheme::LeastLoad),
        Some([value]) => scheme_from(value.as_bytes()),
        _ => None,
    }
}

/// Whether each octet is a decimal digit.
fn are_digits(text: &[u8]) -> bool
    ensures { result ≡ list_all is_ascii_digit text.now }
{
    text.iter().all(|octet| octet.is_ascii_digit())
}

/// Whether a text is a number in decimal digits, with no 0 ahead of others.
fn is_number(text: &[u8]) -> bool
    ensures { result ≡ is_number text.now }
{
    match text {
        [] => false,
        [digit, digits @ ..] => { are_digits(text) && (*digit != b'0' || digits.len() == 0) }
    }
}

/// The number that digits write, or none where it is above the greatest of its type.
fn parsed(text: &str) -> Option<u32>
    requires { is_number text.now ≡ true }
    ensures { MatchOption result (2 ^ 32 ≤ digits_value 10 text.now) (λ n. n ≡ digits_value 10 text.now) }
{
    match text.parse::<u32>() {
        Ok(number) => Some(number),
        Err(_) => None,
    }
}

/// The number from low to high that a value is.
pub fn number_from(low: u32, high: u32, value: &str) -> Option<u32>
    ensures value { result ≡ number_from low high value.now }
    ensures within { IfSome result (λ n. (low ≤ n) × (n ≤ high)) }
{
    if !is_number(value.as_bytes()) {
        return None;
    }
    match parsed(value) {
        Some(number) if low <= number && number <= high => Some(number),
        _ => None,
    }
}

/// The number from low to high, or another where none is given.
pub fn optional_number(default: u32, low: u32, high: u32, values: Option<&[&str]>) -> Option<u32>
    ensures { result ≡ optional default (number_from low high) (listed values.entry) }
{
    match values {
        None | Some([]) => Some(default),
        Some([value]) => number_from(low, high, value),
        _ => None,
    }
}
